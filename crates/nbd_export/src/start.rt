//! What an export holds at first, and what it holds from an offset on.

use crate::Extents;
use std::rc::Rc;

/// What an export holds at first.
#[derive(Drop)]
pub enum Start {
    /// No byte is known.
    Unknown,
    /// Each byte is 0.
    Zeroes,
    /// The export's bytes, from offset 0 on. They stand in memory once, however many share them.
    Image(Rc<Vec<u8>>),
    /// Contents, of which each byte is known or unknown. Who changes them while others share them has a copy.
    Contents(Rc<Extents>),
}

/// What an export holds from an offset on.
#[derive(Clone, Copy, Drop)]
pub enum HeldPart<'a> {
    /// No byte is known.
    Unknown,
    /// Each byte is 0.
    Zeroes,
    /// These bytes, at least one.
    Bytes(&'a [u8]),
}
