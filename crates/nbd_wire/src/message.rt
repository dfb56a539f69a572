//! The ten messages and their senders.

use crate::Bytes;

/// An end of the connection.
#[derive(Clone, Copy, PartialEq, Eq, Drop)]
pub enum Side {
    Client,
    Server,
}

/// A whole message of the fixed newstyle negotiation or of transmission.
#[derive(Drop)]
pub enum Message {
    /// The server's first message (proto.md, "Newstyle negotiation").
    Greeting {
        /// The server's handshake flags, masks of the module `handshake`.
        flags: u16,
    },
    /// The client's first message (proto.md, "Newstyle negotiation").
    ClientFlags {
        /// The client's flags, masks of the module `handshake`.
        flags: u32,
    },
    /// An option of the client (proto.md, "Newstyle negotiation").
    Choice {
        /// The option's number, as in the module `options`.
        id: u32,
        /// The option's data.
        payload: Bytes,
    },
    /// An answer of the server to an option (proto.md, "Fixed newstyle negotiation").
    Answer {
        /// The number of the option that is answered.
        option: u32,
        /// The answer's kind, as in the module `answers`.
        kind: u32,
        /// The answer's data.
        payload: Bytes,
    },
    /// The answer to EXPORT_NAME (proto.md, "Newstyle negotiation").
    Exported {
        /// The export's size in bytes.
        size: u64,
        /// The export's transmission flags, masks of the module `transmission`.
        flags: u16,
        /// Whether 124 zero bytes follow.
        padded: bool,
    },
    /// A request of the client (proto.md, "Request message").
    Request {
        /// Masks of the module `command_flags`.
        flags: u16,
        /// The request's type, as in the module `commands`.
        command: u16,
        /// The client's name for the request, which its replies repeat.
        cookie: u64,
        /// Where in the export the range begins, in bytes.
        offset: u64,
        /// The length of the range, in bytes.
        length: u32,
        /// The bytes that a WRITE writes, `length` of them; empty in any other request.
        payload: Bytes,
    },
    /// A simple reply (proto.md, "Simple reply message").
    Simple {
        /// 0 for success, any other number for a failure.
        error: u32,
        /// The cookie of the request that is answered.
        cookie: u64,
        /// The bytes that a READ read; empty in any other reply.
        payload: Bytes,
    },
    /// A chunk of a structured reply (proto.md, "Structured reply chunk message").
    Chunk {
        /// Masks of the module `chunks`.
        flags: u16,
        /// The chunk's type, as in the module `chunks`.
        kind: u16,
        /// The cookie of the request that is answered.
        cookie: u64,
        /// What the chunk carries, in the form of its type.
        payload: Bytes,
    },
    /// A request of the client where extended headers are in force.
    ExtendedRequest {
        /// Masks of the module `command_flags`.
        flags: u16,
        /// The request's type, as in the module `commands`.
        command: u16,
        /// The client's name for the request, which its replies repeat.
        cookie: u64,
        /// Where in the export the range begins, in bytes.
        offset: u64,
        /// The length of the payload of a request that carries one, else of the range, in bytes.
        length: u64,
        /// The payload of a WRITE or of a request with PAYLOAD_LEN, `length` bytes; empty in any other request.
        payload: Bytes,
    },
    /// A chunk of a reply where extended headers are in force.
    ExtendedChunk {
        /// Masks of the module `chunks`.
        flags: u16,
        /// The chunk's type, as in the module `chunks`.
        kind: u16,
        /// The cookie of the request that is answered.
        cookie: u64,
        /// The offset of the request that is answered.
        offset: u64,
        /// What the chunk carries, in the form of its type.
        payload: Bytes,
    },
}
