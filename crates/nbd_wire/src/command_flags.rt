//! Flags of a request, as masks (proto.md, "Command flags").

pub const FUA: u16 = 1 << 0;

pub const NO_HOLE: u16 = 1 << 1;

pub const DF: u16 = 1 << 2;

pub const REQ_ONE: u16 = 1 << 3;

pub const FAST_ZERO: u16 = 1 << 4;

/// With extended headers: the length of the head is that of the payload.
pub const PAYLOAD_LEN: u16 = 1 << 5;
