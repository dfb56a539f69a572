//! The message that a side's bytes begin, as its head says.

ghost use Rattle.std.specs.Prelude.{◌≡◌, ◌==◌, if◌then◌else◌};
ghost use Rattle.nbd_wire.specs.declared.commands.TheConstants as commands;
ghost use Rattle.nbd_wire.specs.Prelude.{carries_payload};
ghost use Rattle.nbd_state.specs.Places.{chunk_of};
ghost use Rattle.nbd_session.specs.internal.Expecting.{message_of, payload_length_of, place_answered, request_with};

use nbd_wire::{
    AnswerHead, Bytes, ChoiceHead, ChunkHead, Message, RequestHead, SimpleHead, carries_payload,
    commands, head_lengths,
};

/// A message whose head has come, and which may come at this point of the session.
#[derive(Clone, Copy, Drop)]
pub(crate) enum Expected {
    Greeting {
        flags: u16,
    },
    ClientFlags {
        flags: u32,
    },
    Choice(ChoiceHead),
    /// An option reply; if it is no error, also whether the option was proper.
    Answer {
        head: AnswerHead,
        proper: Option<bool>,
    },
    Exported {
        size: u64,
        flags: u16,
        padded: bool,
    },
    Request(RequestHead),
    /// A simple reply, the index of its request, and how many bytes follow the head.
    Simple {
        head: SimpleHead,
        place: usize,
        length: u64,
    },
    /// A chunk, and the index of its request.
    Chunk {
        head: ChunkHead,
        place: usize,
    },
}

impl Expected {
    /// How many bytes follow the head.
    pub(crate) fn payload_length(&self) -> usize
        ensures { result ≡ payload_length_of self.now }
    {
        match self {
            Expected::Greeting { .. } | Expected::ClientFlags { .. } => 0,
            Expected::Choice(head) => head.length as usize,
            Expected::Answer { head, .. } => head.length as usize,
            Expected::Exported { padded, .. } => { if *padded { head_lengths::PADDING } else { 0 } }
            Expected::Request(head) if carries(head) => head.length as usize,
            Expected::Request(_) => 0,
            Expected::Simple { length, .. } => *length as usize,
            Expected::Chunk { head, .. } => head.length as usize,
        }
    }

    /// The index of the request that a reply answers; 0 for any other message.
    pub(crate) fn place(&self) -> usize
        ensures { result ≡ place_answered self.now }
    {
        match self {
            Expected::Simple { place, .. } | Expected::Chunk { place, .. } => *place,
            _ => 0,
        }
    }

    /// The message, with the bytes that followed its head.
    pub(crate) fn message(self, payload: Bytes) -> Message
        ensures { result ≡ message_of self payload }
    {
        match self {
            Expected::Greeting { flags } => Message::Greeting { flags },
            Expected::ClientFlags { flags } => Message::ClientFlags { flags },
            Expected::Choice(head) => Message::Choice {
                id: head.id,
                payload,
            },
            Expected::Answer { head, .. } => Message::Answer {
                option: head.option,
                kind: head.kind,
                payload,
            },
            Expected::Exported {
                size,
                flags,
                padded,
            } => Message::Exported {
                size,
                flags,
                padded,
            },
            Expected::Request(head) => request_of(head, payload),
            Expected::Simple { head, .. } => Message::Simple {
                error: head.error,
                cookie: head.cookie,
                payload,
            },
            Expected::Chunk { head, .. } => chunk_of(head, payload),
        }
    }
}

// Whether a payload follows the head of a request.
fn carries(head: &RequestHead) -> bool
    ensures { result ≡ (if head.now.extended then carries_payload head.now.flags head.now.command
        else (head.now.command == commands.WRITE)) }
{
    if head.extended {
        carries_payload(head.flags, head.command)
    } else {
        head.command == commands::WRITE
    }
}

// The request of this head. The length of one without an extended header has 32 bits.
fn request_of(head: RequestHead, payload: Bytes) -> Message
    ensures { result ≡ request_with head.extended head payload }
{
    if head.extended {
        return Message::ExtendedRequest {
            flags: head.flags,
            command: head.command,
            cookie: head.cookie,
            offset: head.offset,
            length: head.length,
            payload,
        };
    }
    Message::Request {
        flags: head.flags,
        command: head.command,
        cookie: head.cookie,
        offset: head.offset,
        length: head.length.min(u64::from(u32::MAX)) as u32,
        payload,
    }
}

// The chunk of this head.
fn chunk_of(head: ChunkHead, payload: Bytes) -> Message
    ensures { result ≡ chunk_of head payload }
{
    match head.at {
        Some(offset) => Message::ExtendedChunk {
            flags: head.flags,
            kind: head.kind,
            cookie: head.cookie,
            offset,
            payload,
        },
        None => Message::Chunk {
            flags: head.flags,
            kind: head.kind,
            cookie: head.cookie,
            payload,
        },
    }
}
