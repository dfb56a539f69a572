//! Types of a request (proto.md, "Request types").

pub const READ: u16 = 0;

pub const WRITE: u16 = 1;

pub const DISC: u16 = 2;

pub const FLUSH: u16 = 3;

pub const TRIM: u16 = 4;

pub const CACHE: u16 = 5;

pub const WRITE_ZEROES: u16 = 6;

pub const BLOCK_STATUS: u16 = 7;
