//! Lengths of the heads of messages and of what the answer to EXPORT_NAME ends with, in bytes (proto.md, "Newstyle negotiation", "Request
//! message", "Simple reply message", "Structured reply chunk message").

/// The server's greeting: two magic numbers and its flags.
pub const GREETING: usize = 18;
/// The client's flags.
pub const CLIENT_FLAGS: usize = 4;
/// A client's option: a magic number, the option and the length of its data.
pub const CHOICE: usize = 16;
/// An answer to an option: a magic number, the option, the kind and the length of its data.
pub const ANSWER: usize = 20;
/// The answer to EXPORT_NAME: the export's size and transmission flags.
pub const EXPORT: usize = 10;
/// The zeroes after an export's size and flags where the client did not agree to leave them out.
pub const PADDING: usize = 124;
/// A request: a magic number, flags, type, cookie, offset and length.
pub const REQUEST: usize = 28;
/// A simple reply: a magic number, the error and the cookie.
pub const SIMPLE: usize = 16;
/// A chunk: a magic number, flags, type, cookie and the length of its payload.
pub const CHUNK: usize = 20;
/// A request with an extended header: a magic number, flags, type, cookie, offset and length.
pub const EXTENDED_REQUEST: usize = 32;
/// A chunk with an extended header: a magic number, flags, type, cookie, the offset of its request and the length of its payload.
pub const EXTENDED_CHUNK: usize = 32;
