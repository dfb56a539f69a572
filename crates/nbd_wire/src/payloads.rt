//! The forms of payloads.

ghost use Rattle.std.specs.Prelude.{◌≡◌};
ghost use Rattle.nbd_wire.specs.declared.payloads.Piece.TheVariants.{Hole};

use crate::Bytes;

/// What an INFO answer states of an export (proto.md, "Option reply types").
#[derive(Clone, Copy, Drop)]
pub enum Info {
    /// The export itself.
    Export {
        /// Its size in bytes.
        size: u64,
        /// Its transmission flags, masks of the module `transmission`.
        flags: u16,
    },
    /// The block sizes that the server asks for.
    BlockSize {
        /// The least that a request may have, in bytes.
        least: u32,
        /// The size that serves best, in bytes.
        preferred: u32,
        /// The most that a request may have, in bytes.
        most: u32,
    },
    /// Anything else.
    Other {
        /// Its number, none of those above.
        kind: u16,
    },
}

/// What a content chunk carries (proto.md, "Structured reply types").
#[derive(Clone, Copy, Drop)]
pub enum Content<'a> {
    /// Bytes of the export.
    Bytes {
        /// Where in the export they begin, in bytes.
        offset: u64,
        /// The bytes, at least one.
        bytes: &'a [u8],
    },
    /// A hole, which reads as zeroes.
    Hole {
        /// Where in the export it begins, in bytes.
        offset: u64,
        /// Its length in bytes, not 0.
        size: u64,
    },
}

/// One descriptor of a status chunk (proto.md, "Structured reply types").
#[derive(Clone, Copy, Drop)]
pub struct Extent {
    /// How many bytes it speaks of.
    pub length: u64,
    /// What it says of them, masks of the module `states` where the context is `base:allocation`.
    pub flags: u64,
}

/// A piece of what a READ was answered, as `Content` that owns its bytes.
#[derive(Drop)]
pub enum Piece {
    /// Bytes of the export.
    Bytes {
        /// Where in the export they begin, in bytes.
        offset: u64,
        /// The bytes.
        bytes: Bytes,
    },
    /// A hole, which reads as zeroes.
    Hole {
        /// Where in the export it begins, in bytes.
        offset: u64,
        /// Its length in bytes.
        size: u64,
    },
}

/// A hole of no bytes.
impl Default for Piece {
    fn default() -> Piece
        ensures { result ≡ Hole 0 0 }
    {
        Piece::Hole { offset: 0, size: 0 }
    }
}

/// What an error chunk states (proto.md, "Structured reply types").
#[derive(Clone, Copy, Drop)]
pub struct Failure {
    /// The error, not 0.
    pub error: u32,
    /// Where in the export it happened, in bytes, where the chunk says so.
    pub offset: Option<u64>,
}
