//! Numbers of proto.md that the rules compare; `nbd_wire::names` has their names.

use nbd_wire::answers::ERROR;

/// Kinds of an option reply that is an error (proto.md, "Option reply types").
pub const ERR_UNSUP: u32 = ERROR | 1;

pub const ERR_PLATFORM: u32 = ERROR | 4;

pub const ERR_TLS_REQD: u32 = ERROR | 5;

pub const ERR_UNKNOWN: u32 = ERROR | 6;

pub const ERR_SHUTDOWN: u32 = ERROR | 7;

pub const ERR_BLOCK_SIZE_REQD: u32 = ERROR | 8;

pub const ERR_TOO_BIG: u32 = ERROR | 9;

/// Errors of a request (proto.md, "Error values").
pub const EPERM: u32 = 1;

pub const ENOMEM: u32 = 12;

pub const EINVAL: u32 = 22;

pub const ENOSPC: u32 = 28;

pub const EOVERFLOW: u32 = 75;

pub const ENOTSUP: u32 = 95;

pub const ESHUTDOWN: u32 = 108;

/// The length to which strings are to be kept, and the most that they have, in bytes (proto.md, "Conventions").
pub const USUAL_STRING: usize = 256;

pub const LONGEST_STRING: usize = 4096;

/// Of this a server is to make the offsets and lengths of chunks and extents multiples (proto.md, "Request types").
pub const SECTOR: u64 = 512;

/// The payload in bytes that is in order where no block sizes were announced (proto.md, "Size constraints").
pub const USUAL_LARGEST: u32 = 1 << 25;

/// The preferred block size where none was announced (proto.md, "Size constraints").
pub const USUAL_PREFERRED: u32 = 4096;

/// The most that a server is to announce as less than an export's size, in bytes (proto.md, "Size constraints").
pub const SMALL_LARGEST: u32 = 1 << 20;

/// Up to so many bytes a READ with DF is served in one piece (proto.md, "Request types").
pub const UNFRAGMENTED: u64 = 65_536;

/// The most extents of a status chunk (proto.md, "Structured reply types").
pub const MOST_EXTENTS: u64 = 1 << 20;
