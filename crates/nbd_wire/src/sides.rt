//! Who sends a message, and which messages have an encoding.

ghost use Rattle.std.specs.Prelude.{◌≡◌, ◌↔◌, ◌<◌, ◌^◌, IsTrue, length};
ghost use Rattle.nbd_wire.specs.{codec.Fits.FitsItsHead, protocol.{Sendable.carries_payload, Sides.side}};

use crate::flags::has;
use crate::{Bytes, Message, Side, command_flags, commands};

/// The end of the connection that sends the message.
pub fn side_of(message: &Message) -> Side
    ensures { result ≡ side message.now }
{
    match message {
        Message::ClientFlags { .. }
        | Message::Choice { .. }
        | Message::Request { .. }
        | Message::ExtendedRequest { .. } => Side::Client,
        Message::Greeting { .. }
        | Message::Answer { .. }
        | Message::Exported { .. }
        | Message::Simple { .. }
        | Message::Chunk { .. }
        | Message::ExtendedChunk { .. } => Side::Server,
    }
}

/// Whether the message has an encoding: each payload has at most 2^32 - 1 bytes, and a request
/// carries as many bytes as its length says where it is a WRITE, with an extended header also where it has PAYLOAD_LEN, and
/// none otherwise.
#[tactic(auto, unfolding(crate::specs::codec::Fits::FitsItsHead))]
pub fn fits(message: &Message) -> bool
    ensures { IsTrue result ↔ FitsItsHead message.now }
{
    match message {
        Message::Greeting { .. } | Message::ClientFlags { .. } | Message::Exported { .. } => true,
        Message::Choice { payload, .. }
        | Message::Answer { payload, .. }
        | Message::Simple { payload, .. }
        | Message::Chunk { payload, .. }
        | Message::ExtendedChunk { payload, .. } => is_countable(payload),
        Message::Request {
            command,
            length,
            payload,
            ..
        } => {
            let carried = if *command == commands::WRITE {
                *length
            } else {
                0
            };
            payload.as_slice().len() == carried as usize
        }
        Message::ExtendedRequest {
            flags,
            command,
            length,
            payload,
            ..
        } => {
            let carried = if carries_payload(*flags, *command) {
                *length
            } else {
                0
            };
            is_countable(payload) && payload.as_slice().len() as u64 == carried
        }
    }
}

// Whether four bytes can hold the payload's length.
fn is_countable(payload: &Bytes) -> bool
    ensures { IsTrue result ↔ (length payload.now < 2 ^ 32) }
{
    payload.as_slice().len() <= u32::MAX as usize
}

/// Whether a request with an extended header carries a payload: a WRITE, or one with PAYLOAD_LEN (that a WRITE carries one
/// without the flag too is this project's choice).
pub fn carries_payload(flags: u16, command: u16) -> bool
    ensures { result ≡ carries_payload flags command }
{
    command == commands::WRITE || has(flags, command_flags::PAYLOAD_LEN)
}
