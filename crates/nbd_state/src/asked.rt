//! A numbered request, and what became of it.

use crate::pieces::Pieces;
use nbd_wire::Bytes;

/// What became of a request.
#[derive(Clone, Copy, Drop)]
pub enum Outcome {
    Success,
    Failure,
    /// No reply to it was finished.
    Pending,
}

/// A numbered request: its fields, and what the session told of it.
#[derive(Drop)]
pub struct Asked {
    pub flags: u16,
    pub command: u16,
    pub outcome: Outcome,
    /// Whether a client should send it to this export.
    pub proper: bool,
    /// Whether its type is known and has a range that breaks the block sizes in force (proto.md, "Size constraints"), in
    /// both profiles; only `Wide` counts it as improper for that.
    pub outside: bool,
    /// A reply message told a failure.
    pub failed: bool,
    /// The length of its range in bytes.
    pub length: u64,
    /// How many numbered requests had completed when its first reply message started; None where none
    /// did.
    pub known_at: Option<u64>,
    pub cookie: u64,
    /// Where its range begins, in bytes from the export's start.
    pub offset: u64,
    /// The bytes of a WRITE.
    pub payload: Bytes,
    /// What a READ was answered, or what the status of a BLOCK_STATUS called zero, in the order of the reply messages.
    pub pieces: Pieces,
    /// How many numbered requests had completed when the last message of its reply had come; None where it has not.
    pub ended_at: Option<u64>,
}

/// A request under way.
#[derive(Drop)]
pub struct Exchange {
    pub asked: Asked,
}
