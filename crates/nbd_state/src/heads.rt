//! What a message in transmission says in its head.

ghost use Rattle.std.specs.Prelude.{◌≡◌, false, MatchOption, length};
ghost use Rattle.nbd_state.specs.Places.{chunk_of, is_chunk, is_request, request_of};

use nbd_wire::{Bytes, ChunkHead, Message, RequestHead};

/// The head of a request, and what stands behind it; None of another message (proto.md, "Request message").
pub fn request_in(message: &Message) -> Option<(RequestHead, &Bytes)>
    ensures { MatchOption result (is_request message.now ≡ false)
        (λ parts. message.now ≡ request_of parts.0 parts.1.now) }
{
    match message {
        Message::Request {
            flags,
            command,
            cookie,
            offset,
            length,
            payload,
        } => {
            let head = RequestHead {
                extended: false,
                flags: *flags,
                command: *command,
                cookie: *cookie,
                offset: *offset,
                length: u64::from(*length),
            };
            Some((head, payload))
        }
        Message::ExtendedRequest {
            flags,
            command,
            cookie,
            offset,
            length,
            payload,
        } => {
            let head = RequestHead {
                extended: true,
                flags: *flags,
                command: *command,
                cookie: *cookie,
                offset: *offset,
                length: *length,
            };
            Some((head, payload))
        }
        _ => None,
    }
}

/// The head of a chunk, and what stands behind it; None of another message (proto.md, "Structured reply chunk message").
pub fn chunk_in(message: &Message) -> Option<(ChunkHead, &Bytes)>
    ensures { MatchOption result (is_chunk message.now ≡ false)
        (λ parts. (message.now ≡ chunk_of parts.0 parts.1.now) × (parts.0.length ≡ length parts.1.now)) }
{
    let (at, flags, kind, cookie, payload) = match message {
        Message::Chunk {
            flags,
            kind,
            cookie,
            payload,
        } => (None, flags, kind, cookie, payload),
        Message::ExtendedChunk {
            flags,
            kind,
            cookie,
            offset,
            payload,
        } => (Some(*offset), flags, kind, cookie, payload),
        _ => return None,
    };
    let head = ChunkHead {
        at,
        flags: *flags,
        kind: *kind,
        cookie: *cookie,
        length: payload.as_slice().len() as u64,
    };
    Some((head, payload))
}
