//! What an INFO answer may state (proto.md, "Option reply types").

pub const EXPORT: u16 = 0;

pub const NAME: u16 = 1;

pub const DESCRIPTION: u16 = 2;

pub const BLOCK_SIZE: u16 = 3;
