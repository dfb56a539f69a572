//! Limits that this project sets, and those of block sizes.

/// The largest export, in bytes, that a session may enter transmission with. This project's choice:
/// so many bytes a signed offset counts, as `off_t` of 64 bits does.
pub const EXPORT_SIZE: u64 = 9_223_372_036_854_775_807;

/// The longest payload behind an extended header, in bytes. This project's choice: as much as the other heads can name.
pub const LONGEST_PAYLOAD: u64 = 4_294_967_295;

/// The most that a server may announce as its least block size, in bytes (proto.md, "Size constraints").
pub const LEAST_SIZE: u32 = 65_536;

/// The least that a server may announce as its preferred block size, in bytes (proto.md, "Size constraints").
pub const PREFERRED_SIZE: u32 = 512;

/// The largest block size that bounds nothing, in bytes (proto.md, "Size constraints").
pub const NO_LARGEST_SIZE: u32 = 4_294_967_295;
