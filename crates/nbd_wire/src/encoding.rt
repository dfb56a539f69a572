//! Messages as bytes.

ghost use Rattle.std.specs.Prelude.{◌≡◌, ◌+◌, ◌<◌, ◌≤◌, ◌^◌, ◌++◌, length, vec_capacity, vec_len, OnErr, OnOk};
ghost use Rattle.nbd_wire.specs.{protocol.Encoding.{enc, head, tail}, codec.Fits.FitsItsHead};

use crate::Message;
use crate::head_bytes::{
    answer_bytes, choice_bytes, chunk_bytes, client_flags_bytes, export_bytes,
    extended_chunk_bytes, extended_request_bytes, greeting_bytes, request_bytes, simple_bytes,
};
use crate::head_lengths::{EXTENDED_REQUEST, PADDING};
use std::alloc::AllocError;
use std::marker::Model;

/// What follows an export's size and flags where the client did not agree to leave it out
/// (proto.md, "Newstyle negotiation").
static ZEROES: [u8; PADDING] = [0; PADDING];

/// Adds the bytes of a message at the end of `out`.
///
/// The one growth comes first: after an error, which says that memory was refused, `out` holds
/// what it held before.
#[tactic(auto, unfolding(crate::specs::protocol::Encoding::enc))]
pub fn append(out: &mut Vec<u8>, message: &Message) -> Result<(), AllocError>
    requires { FitsItsHead message.now }
    ensures ok { OnOk result (out.new.items ≡ out.old.items ++ enc message.now) }
    ensures err { OnErr result (out.new.items ≡ out.old.items) }
    ensures full { OnErr result (vec_capacity out.old < vec_len out.old + length (enc message.now)) }
{
    let tail = tail_of(message);
    let head = head_of(message, tail.len() as u32);
    put(out, head.as_slice(), tail)
}

// The fixed part of a message; what follows it has so many bytes.
#[tactic(auto, unfolding(crate::specs::protocol::Encoding::head, crate::specs::protocol::Encoding::tail))]
fn head_of(message: &Message, size_of_tail: u32) -> Head
    requires { size_of_tail ≡ length (tail message.now) }
    ensures { result ≡ head message.now }
{
    match *message {
        Message::Greeting { flags } => Head::of(&greeting_bytes(flags)),
        Message::ClientFlags { flags } => Head::of(&client_flags_bytes(flags)),
        Message::Choice { id, .. } => Head::of(&choice_bytes(id, size_of_tail)),
        Message::Answer { option, kind, .. } => Head::of(&answer_bytes(option, kind, size_of_tail)),
        Message::Exported { size, flags, .. } => Head::of(&export_bytes(size, flags)),
        Message::Request {
            flags,
            command,
            cookie,
            offset,
            length,
            ..
        } => Head::of(&request_bytes(flags, command, cookie, offset, length)),
        Message::Simple { error, cookie, .. } => Head::of(&simple_bytes(error, cookie)),
        Message::Chunk {
            flags,
            kind,
            cookie,
            ..
        } => Head::of(&chunk_bytes(flags, kind, cookie, size_of_tail)),
        Message::ExtendedRequest {
            flags,
            command,
            cookie,
            offset,
            length,
            ..
        } => Head::of(&extended_request_bytes(flags, command, cookie, offset, length)),
        Message::ExtendedChunk {
            flags,
            kind,
            cookie,
            offset,
            ..
        } => Head::of(&extended_chunk_bytes(flags, kind, cookie, offset, u64::from(size_of_tail))),
    }
}

// What follows a message's head.
#[tactic(auto, unfolding(crate::specs::protocol::Encoding::tail))]
fn tail_of(message: &Message) -> &[u8]
    ensures { result.now ≡ tail message.now }
{
    match message {
        Message::Choice { payload, .. }
        | Message::Answer { payload, .. }
        | Message::Request { payload, .. }
        | Message::Simple { payload, .. }
        | Message::Chunk { payload, .. }
        | Message::ExtendedRequest { payload, .. }
        | Message::ExtendedChunk { payload, .. } => payload.as_slice(),
        Message::Exported { padded: true, .. } => &ZEROES,
        Message::Greeting { .. } | Message::ClientFlags { .. } | Message::Exported { .. } => &[],
    }
}

// The fixed part of a message, seen by contracts as the list of its bytes. They are the first `len` of these.
#[derive(Drop)]
struct Head {
    len: u8,
    bytes: [u8; EXTENDED_REQUEST],
    ghost fits: { len ≤ 32 },
}

impl Model for Head {
    ghost use Rattle.std.specs.Prelude.{ℕ, List, take};

    ghost Value = { List ℕ };

    ghost view = { λ h. take h.len h.bytes };
}

impl Head {
    // These bytes; an extended header has the most.
    fn of(from: &[u8]) -> Head
        requires { length from.now ≤ 32 }
        ensures { result ≡ from.now }
    {
        let mut bytes = [0; EXTENDED_REQUEST];
        bytes[..from.len()].copy_from_slice(from);
        Head {
            len: from.len() as u8,
            bytes,
        }
    }

    // The bytes.
    fn as_slice(&self) -> &[u8]
        ensures { result.now ≡ self.now }
    {
        &self.bytes[..self.len as usize]
    }
}

// Adds a head and what follows it. The room is made first, so an error comes before any byte.
fn put(out: &mut Vec<u8>, head: &[u8], tail: &[u8]) -> Result<(), AllocError>
    requires { length head.now + length tail.now < 2 ^ 64 }
    ensures ok { OnOk result (out.new.items ≡ out.old.items ++ (head.now ++ tail.now)) }
    ensures err { OnErr result (out.new.items ≡ out.old.items) }
    ensures full { OnErr result (vec_capacity out.old < vec_len out.old + (length head.now + length tail.now)) }
{
    out.reserve(head.len() + tail.len())?;
    out.extend_from_slice(head)?;
    out.extend_from_slice(tail)
}
