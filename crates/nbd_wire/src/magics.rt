//! The numbers that messages begin with (proto.md, "Newstyle negotiation", "Request message",
//! "Simple reply message", "Structured reply chunk message", "Reserved Magic values").

/// The letters `NBDMAGIC`: the first number of the server's greeting.
pub const GREETING_MAGIC: u64 = 0x4e42_444d_4147_4943;
/// The letters `IHAVEOPT`: the greeting's second number, and the first of a client's option.
pub const OPTION_MAGIC: u64 = 0x4948_4156_454f_5054;
/// The first number of a server's answer to an option.
pub const ANSWER_MAGIC: u64 = 0x0003_e889_0455_65a9;
/// The first number of a request.
pub const REQUEST_MAGIC: u32 = 0x2560_9513;
/// The first number of a simple reply.
pub const SIMPLE_MAGIC: u32 = 0x6744_6698;
/// The first number of a structured reply's chunk.
pub const CHUNK_MAGIC: u32 = 0x668e_33ef;
/// The first number of a request with an extended header.
pub const EXTENDED_REQUEST_MAGIC: u32 = 0x21e4_1c71;
/// The first number of a chunk with an extended header.
pub const EXTENDED_CHUNK_MAGIC: u32 = 0x6e8a_278c;
