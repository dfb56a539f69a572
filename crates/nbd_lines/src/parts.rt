//! A message as the parts of its line: a form, numbers and a payload.

ghost use Rattle.std.specs.Prelude.{◌≡◌, ◌⊎◌, [], length, take, true};
ghost use Rattle.nbd_lines.specs.{Line.AreWithin, Table.{payload_of, fields, has_payload, line_form, numbers}};

use crate::forms::Form;
use nbd_wire::{Bytes, Message};

/// The most numbers that a line has.
pub const MOST_NUMBERS: usize = 5;

/// The form of a message's line.
pub fn form_of(message: &Message) -> Form
    ensures { result ≡ line_form message.now }
{
    match message {
        Message::Greeting { .. } => Form::Greeting,
        Message::ClientFlags { .. } => Form::ClientFlags,
        Message::Choice { .. } => Form::Choice,
        Message::Answer { .. } => Form::Answer,
        Message::Exported { .. } => Form::Exported,
        Message::Request { .. } => Form::Request,
        Message::Simple { .. } => Form::Simple,
        Message::Chunk { .. } => Form::Chunk,
        Message::ExtendedRequest { .. } => Form::ExtendedRequest,
        Message::ExtendedChunk { .. } => Form::ExtendedChunk,
    }
}

/// The numbers of a message in the order of its line, and zeroes after them.
pub fn numbers_of(message: &Message) -> [u64; MOST_NUMBERS]
    ensures { take (length (fields (line_form message.now))) result ≡ numbers message.now }
{
    match *message {
        Message::Greeting { flags } => [flags as u64, 0, 0, 0, 0],
        Message::ClientFlags { flags } => [flags as u64, 0, 0, 0, 0],
        Message::Choice { id, .. } => [id as u64, 0, 0, 0, 0],
        Message::Answer { option, kind, .. } => [option as u64, kind as u64, 0, 0, 0],
        Message::Exported {
            size,
            flags,
            padded,
        } => [size, flags as u64, padded as u64, 0, 0],
        Message::Request {
            flags,
            command,
            cookie,
            offset,
            length,
            ..
        } => [flags as u64, command as u64, cookie, offset, length as u64],
        Message::Simple { error, cookie, .. } => [error as u64, cookie, 0, 0, 0],
        Message::Chunk {
            flags,
            kind,
            cookie,
            ..
        } => [flags as u64, kind as u64, cookie, 0, 0],
        Message::ExtendedRequest {
            flags,
            command,
            cookie,
            offset,
            length,
            ..
        } => [flags as u64, command as u64, cookie, offset, length],
        Message::ExtendedChunk {
            flags,
            kind,
            cookie,
            offset,
            ..
        } => [flags as u64, kind as u64, cookie, offset, 0],
    }
}

/// The payload of a message; empty where its form has none.
pub fn payload_of(message: &Message) -> &[u8]
    ensures { result.now ≡ payload_of message.now }
{
    match message {
        Message::Choice { payload, .. }
        | Message::Answer { payload, .. }
        | Message::Request { payload, .. }
        | Message::Simple { payload, .. }
        | Message::Chunk { payload, .. }
        | Message::ExtendedRequest { payload, .. }
        | Message::ExtendedChunk { payload, .. } => payload.as_slice(),
        Message::Greeting { .. } | Message::ClientFlags { .. } | Message::Exported { .. } => &[],
    }
}

/// The message of these parts. What stands after the form's own numbers is not read.
pub fn message_of(form: Form, values: [u64; MOST_NUMBERS], payload: Bytes) -> Message
    requires within { AreWithin (fields form) (take (length (fields form)) values) }
    requires carried { (has_payload form ≡ true) ⊎ (payload ≡ []) }
    ensures form { line_form result ≡ form }
    ensures numbers { numbers result ≡ take (length (fields form)) values }
    ensures payload { payload_of result ≡ payload }
{
    let [first, second, third, fourth, fifth] = values;
    match form {
        Form::Greeting => Message::Greeting {
            flags: first as u16,
        },
        Form::ClientFlags => Message::ClientFlags {
            flags: first as u32,
        },
        Form::Choice => Message::Choice {
            id: first as u32,
            payload,
        },
        Form::Answer => Message::Answer {
            option: first as u32,
            kind: second as u32,
            payload,
        },
        Form::Exported => Message::Exported {
            size: first,
            flags: second as u16,
            padded: third == 1,
        },
        Form::Request => Message::Request {
            flags: first as u16,
            command: second as u16,
            cookie: third,
            offset: fourth,
            length: fifth as u32,
            payload,
        },
        Form::Simple => Message::Simple {
            error: first as u32,
            cookie: second,
            payload,
        },
        Form::Chunk => Message::Chunk {
            flags: first as u16,
            kind: second as u16,
            cookie: third,
            payload,
        },
        Form::ExtendedRequest => Message::ExtendedRequest {
            flags: first as u16,
            command: second as u16,
            cookie: third,
            offset: fourth,
            length: fifth,
            payload,
        },
        Form::ExtendedChunk => Message::ExtendedChunk {
            flags: first as u16,
            kind: second as u16,
            cookie: third,
            offset: fourth,
            payload,
        },
    }
}
