//! The heads of messages as bytes. Numbers are big-endian.

ghost use Rattle.std.specs.Prelude.{◌≡◌};
ghost use Rattle.nbd_wire.specs.codec.Layouts.{answer_bytes, choice_bytes, chunk_bytes, client_flags_bytes, export_bytes, greeting_bytes, request_bytes, simple_bytes, extended_chunk_bytes, extended_request_bytes};

use crate::head_lengths::{
    ANSWER, CHOICE, CHUNK, CLIENT_FLAGS, EXPORT, EXTENDED_CHUNK, EXTENDED_REQUEST, GREETING,
    REQUEST, SIMPLE,
};
use crate::magics::{
    ANSWER_MAGIC, CHUNK_MAGIC, EXTENDED_CHUNK_MAGIC, EXTENDED_REQUEST_MAGIC, GREETING_MAGIC,
    OPTION_MAGIC, REQUEST_MAGIC, SIMPLE_MAGIC,
};
use byteorder::{BigEndian, ByteOrder};

/// A greeting with these handshake flags.
pub(crate) fn greeting_bytes(flags: u16) -> [u8; GREETING]
    ensures { result ≡ greeting_bytes flags }
{
    let mut bytes = [0; GREETING];
    BigEndian::write_u64(&mut bytes, GREETING_MAGIC);
    BigEndian::write_u64(&mut bytes[8..], OPTION_MAGIC);
    BigEndian::write_u16(&mut bytes[16..], flags);
    bytes
}

/// The client's flags.
pub(crate) fn client_flags_bytes(flags: u32) -> [u8; CLIENT_FLAGS]
    ensures { result ≡ client_flags_bytes flags }
{
    let mut bytes = [0; CLIENT_FLAGS];
    BigEndian::write_u32(&mut bytes, flags);
    bytes
}

/// The head of an option.
pub(crate) fn choice_bytes(id: u32, length: u32) -> [u8; CHOICE]
    ensures { result ≡ choice_bytes id length }
{
    let mut bytes = [0; CHOICE];
    BigEndian::write_u64(&mut bytes, OPTION_MAGIC);
    BigEndian::write_u32(&mut bytes[8..], id);
    BigEndian::write_u32(&mut bytes[12..], length);
    bytes
}

/// The head of an answer to an option.
pub(crate) fn answer_bytes(option: u32, kind: u32, length: u32) -> [u8; ANSWER]
    ensures { result ≡ answer_bytes option kind length }
{
    let mut bytes = [0; ANSWER];
    BigEndian::write_u64(&mut bytes, ANSWER_MAGIC);
    BigEndian::write_u32(&mut bytes[8..], option);
    BigEndian::write_u32(&mut bytes[12..], kind);
    BigEndian::write_u32(&mut bytes[16..], length);
    bytes
}

/// The answer to EXPORT_NAME, but for the zeroes after it.
pub(crate) fn export_bytes(size: u64, flags: u16) -> [u8; EXPORT]
    ensures { result ≡ export_bytes size flags }
{
    let mut bytes = [0; EXPORT];
    BigEndian::write_u64(&mut bytes, size);
    BigEndian::write_u16(&mut bytes[8..], flags);
    bytes
}

/// The head of a request.
pub(crate) fn request_bytes(
    flags: u16,
    command: u16,
    cookie: u64,
    offset: u64,
    length: u32,
) -> [u8; REQUEST]
    ensures { result ≡ request_bytes flags command cookie offset length }
{
    let mut bytes = [0; REQUEST];
    BigEndian::write_u32(&mut bytes, REQUEST_MAGIC);
    BigEndian::write_u16(&mut bytes[4..], flags);
    BigEndian::write_u16(&mut bytes[6..], command);
    BigEndian::write_u64(&mut bytes[8..], cookie);
    BigEndian::write_u64(&mut bytes[16..], offset);
    BigEndian::write_u32(&mut bytes[24..], length);
    bytes
}

/// The head of a simple reply.
pub(crate) fn simple_bytes(error: u32, cookie: u64) -> [u8; SIMPLE]
    ensures { result ≡ simple_bytes error cookie }
{
    let mut bytes = [0; SIMPLE];
    BigEndian::write_u32(&mut bytes, SIMPLE_MAGIC);
    BigEndian::write_u32(&mut bytes[4..], error);
    BigEndian::write_u64(&mut bytes[8..], cookie);
    bytes
}

/// The head of a chunk.
pub(crate) fn chunk_bytes(flags: u16, kind: u16, cookie: u64, length: u32) -> [u8; CHUNK]
    ensures { result ≡ chunk_bytes flags kind cookie length }
{
    let mut bytes = [0; CHUNK];
    BigEndian::write_u32(&mut bytes, CHUNK_MAGIC);
    BigEndian::write_u16(&mut bytes[4..], flags);
    BigEndian::write_u16(&mut bytes[6..], kind);
    BigEndian::write_u64(&mut bytes[8..], cookie);
    BigEndian::write_u32(&mut bytes[16..], length);
    bytes
}

/// The extended header of a request.
pub(crate) fn extended_request_bytes(
    flags: u16,
    command: u16,
    cookie: u64,
    offset: u64,
    length: u64,
) -> [u8; EXTENDED_REQUEST]
    ensures { result ≡ extended_request_bytes flags command cookie offset length }
{
    let mut bytes = [0; EXTENDED_REQUEST];
    BigEndian::write_u32(&mut bytes, EXTENDED_REQUEST_MAGIC);
    BigEndian::write_u16(&mut bytes[4..], flags);
    BigEndian::write_u16(&mut bytes[6..], command);
    BigEndian::write_u64(&mut bytes[8..], cookie);
    BigEndian::write_u64(&mut bytes[16..], offset);
    BigEndian::write_u64(&mut bytes[24..], length);
    bytes
}

/// The extended header of a chunk.
pub(crate) fn extended_chunk_bytes(
    flags: u16,
    kind: u16,
    cookie: u64,
    offset: u64,
    length: u64,
) -> [u8; EXTENDED_CHUNK]
    ensures { result ≡ extended_chunk_bytes flags kind cookie offset length }
{
    let mut bytes = [0; EXTENDED_CHUNK];
    BigEndian::write_u32(&mut bytes, EXTENDED_CHUNK_MAGIC);
    BigEndian::write_u16(&mut bytes[4..], flags);
    BigEndian::write_u16(&mut bytes[6..], kind);
    BigEndian::write_u64(&mut bytes[8..], cookie);
    BigEndian::write_u64(&mut bytes[16..], offset);
    BigEndian::write_u64(&mut bytes[24..], length);
    bytes
}
