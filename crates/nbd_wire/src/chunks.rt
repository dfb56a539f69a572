//! Types and flags of a structured reply's chunk (proto.md, "Structured reply flags", "Structured
//! reply types").

/// The chunk is the last of its reply.
pub const DONE: u16 = 1 << 0;

pub const NONE: u16 = 0;

pub const OFFSET_DATA: u16 = 1;

pub const OFFSET_HOLE: u16 = 2;

pub const BLOCK_STATUS: u16 = 5;

/// With extended headers.
pub const BLOCK_STATUS_EXT: u16 = 6;

/// The least type with bit 15: each from here on is one of an error.
pub const FIRST_ERROR: u16 = 1 << 15;

pub const ERROR: u16 = 0x8001;

pub const ERROR_OFFSET: u16 = 0x8002;
