//! Transmission flags of an export, as masks (proto.md, "Transmission flags").

pub const HAS_FLAGS: u16 = 1 << 0;

pub const READ_ONLY: u16 = 1 << 1;

pub const SEND_FLUSH: u16 = 1 << 2;

pub const SEND_FUA: u16 = 1 << 3;

pub const ROTATIONAL: u16 = 1 << 4;

pub const SEND_TRIM: u16 = 1 << 5;

pub const SEND_WRITE_ZEROES: u16 = 1 << 6;

pub const SEND_DF: u16 = 1 << 7;

pub const CAN_MULTI_CONN: u16 = 1 << 8;

pub const SEND_CACHE: u16 = 1 << 10;

pub const SEND_FAST_ZERO: u16 = 1 << 11;

pub const BLOCK_STATUS_PAYLOAD: u16 = 1 << 12;
