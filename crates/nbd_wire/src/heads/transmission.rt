//! The heads of transmission (proto.md, "Transmission").

ghost use Rattle.nbd_wire.specs.codec.{Heads.{IsChunkHead, IsExtendedChunkHead, IsExtendedRequestHead, IsRequestHead, IsSimpleHead}, Contents.Reads};

use crate::head_lengths;
use crate::magics::{
    CHUNK_MAGIC, EXTENDED_CHUNK_MAGIC, EXTENDED_REQUEST_MAGIC, REQUEST_MAGIC, SIMPLE_MAGIC,
};
use crate::numbers::{u16_at, u32_at, u64_at};

/// The head of a request, with an extended header or not (proto.md, "Request message", "Reserved Magic values").
#[derive(Clone, Copy, Drop)]
pub struct RequestHead {
    /// It is an extended header.
    pub extended: bool,
    /// Masks of the module `command_flags`.
    pub flags: u16,
    /// The request's type, as in the module `commands`.
    pub command: u16,
    /// The client's name for the request, which its replies repeat.
    pub cookie: u64,
    /// Where in the export the range begins, in bytes.
    pub offset: u64,
    /// The length of the range, in bytes, or with an extended header and PAYLOAD_LEN that of the payload; as many bytes follow such a
    /// head, and that of a WRITE.
    pub length: u64,
}

/// The head of a simple reply (proto.md, "Simple reply message").
#[derive(Clone, Copy, Drop)]
pub struct SimpleHead {
    /// 0 for success, any other number for a failure.
    pub error: u32,
    /// The cookie of the request that is answered.
    pub cookie: u64,
}

/// The head of a chunk of a structured reply, with an extended header or not (proto.md, "Structured reply chunk message", "Reserved
/// Magic values").
#[derive(Clone, Copy, Drop)]
pub struct ChunkHead {
    /// In an extended header the offset of the request that is answered; None in another one.
    pub at: Option<u64>,
    /// Masks of the module `chunks`.
    pub flags: u16,
    /// The chunk's type, as in the module `chunks`.
    pub kind: u16,
    /// The cookie of the request that is answered.
    pub cookie: u64,
    /// How many bytes of payload follow.
    pub length: u64,
}

/// The head of a request, 28 bytes.
pub fn request_head(bytes: &[u8]) -> Option<RequestHead>
    ensures { Reads result (λ head. IsRequestHead head bytes.now) }
{
    if bytes.len() != head_lengths::REQUEST || u32_at(bytes, 0) != REQUEST_MAGIC {
        return None;
    }
    Some(RequestHead {
        extended: false,
        flags: u16_at(bytes, 4),
        command: u16_at(bytes, 6),
        cookie: u64_at(bytes, 8),
        offset: u64_at(bytes, 16),
        length: u64::from(u32_at(bytes, 24)),
    })
}

/// The extended header of a request, 32 bytes.
pub fn extended_request_head(bytes: &[u8]) -> Option<RequestHead>
    ensures { Reads result (λ head. IsExtendedRequestHead head bytes.now) }
{
    if bytes.len() != head_lengths::EXTENDED_REQUEST || u32_at(bytes, 0) != EXTENDED_REQUEST_MAGIC {
        return None;
    }
    Some(RequestHead {
        extended: true,
        flags: u16_at(bytes, 4),
        command: u16_at(bytes, 6),
        cookie: u64_at(bytes, 8),
        offset: u64_at(bytes, 16),
        length: u64_at(bytes, 24),
    })
}

/// The head of a simple reply, 16 bytes.
pub fn simple_head(bytes: &[u8]) -> Option<SimpleHead>
    ensures { Reads result (λ head. IsSimpleHead head bytes.now) }
{
    if bytes.len() != head_lengths::SIMPLE || u32_at(bytes, 0) != SIMPLE_MAGIC {
        return None;
    }
    Some(SimpleHead {
        error: u32_at(bytes, 4),
        cookie: u64_at(bytes, 8),
    })
}

/// The head of a chunk, 20 bytes.
pub fn chunk_head(bytes: &[u8]) -> Option<ChunkHead>
    ensures { Reads result (λ head. IsChunkHead head bytes.now) }
{
    if bytes.len() != head_lengths::CHUNK || u32_at(bytes, 0) != CHUNK_MAGIC {
        return None;
    }
    Some(ChunkHead {
        at: None,
        flags: u16_at(bytes, 4),
        kind: u16_at(bytes, 6),
        cookie: u64_at(bytes, 8),
        length: u64::from(u32_at(bytes, 16)),
    })
}

/// The extended header of a chunk, 32 bytes.
pub fn extended_chunk_head(bytes: &[u8]) -> Option<ChunkHead>
    ensures { Reads result (λ head. IsExtendedChunkHead head bytes.now) }
{
    if bytes.len() != head_lengths::EXTENDED_CHUNK || u32_at(bytes, 0) != EXTENDED_CHUNK_MAGIC {
        return None;
    }
    Some(ChunkHead {
        at: Some(u64_at(bytes, 16)),
        flags: u16_at(bytes, 4),
        kind: u16_at(bytes, 6),
        cookie: u64_at(bytes, 8),
        length: u64_at(bytes, 24),
    })
}
