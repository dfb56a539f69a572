//! What a status of the metadata context `base:allocation` says of bytes, as masks (proto.md, "Metadata querying"). Other
//! bits of its flags say nothing.

/// The bytes take no room in the store.
pub const HOLE: u32 = 1 << 0;

/// They read as zeroes.
pub const ZERO: u32 = 1 << 1;
