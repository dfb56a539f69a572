//! Messages read from the bytes of a side.

use crate::story::Story;
use crate::told::{EMPTY, Form, NO_MESSAGE, Told};
use nbd_state::Export;
use nbd_wire::head_lengths::{
    ANSWER, CHOICE, CHUNK, CLIENT_FLAGS, EXPORT, EXTENDED_CHUNK, EXTENDED_REQUEST, GREETING,
    REQUEST, SIMPLE,
};
use nbd_wire::{
    ChunkHead, Content, Part, RequestHead, Side, SimpleHead, answer_head, bytes_in,
    carries_payload, choice_head, chunk_head, client_flags_head, commands, content_of, export_head,
    extended_chunk_head, extended_request_head, failure_of, greeting_head, options, read_as,
    request_head, simple_head,
};

/// The form of a message, the length of its head, and how many bytes follow that.
type Begun = Option<(Form, usize, u64)>;

impl Story {
    /// The message that a side has begun behind its messages, if its head is there.
    pub fn begun(&self, side: Side) -> Told {
        let bytes = self.recording.bytes_from(side, self.count(side));
        let begun = match side {
            Side::Client => self.begun_by_client(bytes),
            Side::Server => self.begun_by_server(bytes),
        };
        match begun {
            Some((form, head, payload)) => self.message(side, form, head, payload),
            None => NO_MESSAGE,
        }
    }

    fn begun_by_client(&self, bytes: &[u8]) -> Begun {
        if self.is_transmission {
            request(self.is_extended, bytes)
        } else if self.count(Side::Client) == 0 {
            let flags = client_flags_head(front(bytes, CLIENT_FLAGS))?;
            Some((Form::ClientFlags(flags), CLIENT_FLAGS, 0))
        } else {
            let head = choice_head(front(bytes, CHOICE))?;
            Some((Form::Choice(head), CHOICE, u64::from(head.length)))
        }
    }

    fn begun_by_server(&self, bytes: &[u8]) -> Begun {
        if self.is_transmission {
            self.reply(bytes)
        } else if self.count(Side::Server) == 0 {
            let flags = greeting_head(front(bytes, GREETING))?;
            Some((Form::Greeting(flags), GREETING, 0))
        } else if self.option == options::EXPORT_NAME {
            let (size, flags) = export_head(front(bytes, EXPORT))?;
            let export = Export { size, flags };
            Some((Form::Exported(export), EXPORT, self.padding))
        } else {
            let head = answer_head(front(bytes, ANSWER))?;
            Some((Form::Answer(head), ANSWER, u64::from(head.length)))
        }
    }

    // A simple reply or a chunk.
    fn reply(&self, bytes: &[u8]) -> Begun {
        match simple_head(front(bytes, SIMPLE)) {
            Some(head) if !self.is_extended => {
                Some((Form::Simple(head), SIMPLE, self.answer_to(&head).length))
            }
            _ => chunk(self.is_extended, bytes),
        }
    }

    // The part of the export that a simple reply brings: that which a READ asks for.
    fn answer_to(&self, head: &SimpleHead) -> Part {
        let request = self.answered(head.cookie);
        if (head.error == 0) & (request.head.command == commands::READ) {
            request.range()
        } else {
            EMPTY
        }
    }

    // The next message of a side, with a head of this length and so many bytes behind it.
    fn message(&self, side: Side, form: Form, head: usize, payload: u64) -> Told {
        let before = self.count(side);
        let length = payload.saturating_add(head as u64);
        let last = before.saturating_add(length).saturating_sub(1);
        let mut told = Told {
            side,
            form,
            payload,
            before,
            length,
            first: self.recording.place(side, before),
            last: self.recording.place(side, last),
            ..NO_MESSAGE
        };
        match form {
            Form::Request(head) => self.read_request(&mut told, &head),
            Form::Simple(head) => {
                told.number = self.answered(head.cookie).number;
                told.error = head.error;
                told.part = self.answer_to(&head);
            }
            Form::Chunk(head) => self.read_payload(&mut told, &head),
            _ => {}
        }
        told
    }

    // The number of a request that comes next, and the length of its range, if its filter has that. DISC has no number.
    fn read_request(&self, told: &mut Told, head: &RequestHead) {
        if head.command != commands::DISC {
            told.number = (self.requests.len() as u64).saturating_add(1);
        }
        if let Some((length, _)) = self.filter_in(told) {
            told.form = Form::Request(RequestHead { length, ..*head });
        }
    }

    // The request that a chunk answers, and what its payload says, if that has come whole.
    fn read_payload(&self, told: &mut Told, head: &ChunkHead) {
        let payload = front(self.behind(told), head.length as usize);
        told.number = self.answered(head.cookie).number;
        if let Some(content) = content_of(head.kind, payload) {
            told.part = match content {
                Content::Bytes { offset, bytes } => Part {
                    offset,
                    length: bytes.len() as u64,
                },
                Content::Hole { offset, size } => Part {
                    offset,
                    length: size,
                },
            };
        }
        if let Some(failure) = failure_of(read_as(self.profile, head.kind), payload) {
            told.error = failure.error;
            told.part.offset = failure.offset.unwrap_or(0);
        }
    }
}

// The first so many bytes, where all are there.
fn front(bytes: &[u8], length: usize) -> &[u8] {
    bytes_in(bytes, 0, length)
}

// A request, by whether extended headers are in force. A payload follows a WRITE, and where its extended header says so.
fn request(is_extended: bool, bytes: &[u8]) -> Begun {
    let (head, length) = if is_extended {
        (
            extended_request_head(front(bytes, EXTENDED_REQUEST)),
            EXTENDED_REQUEST,
        )
    } else {
        (request_head(front(bytes, REQUEST)), REQUEST)
    };
    let head = head?;
    let is_carrying = is_extended & carries_payload(head.flags, head.command);
    let payload = if is_carrying | (head.command == commands::WRITE) {
        head.length
    } else {
        0
    };
    Some((Form::Request(head), length, payload))
}

// A chunk, by whether extended headers are in force.
fn chunk(is_extended: bool, bytes: &[u8]) -> Begun {
    if is_extended {
        let head = extended_chunk_head(front(bytes, EXTENDED_CHUNK))?;
        Some((Form::Chunk(head), EXTENDED_CHUNK, head.length))
    } else {
        let head = chunk_head(front(bytes, CHUNK))?;
        Some((Form::Chunk(head), CHUNK, head.length))
    }
}

/// The number that so many bytes from an index on are; of bytes that are not there all, 0.
pub fn number_in(bytes: &[u8], from: u64, length: u64) -> u64 {
    let mut number = 0u64;
    for byte in bytes_in(bytes, from as usize, length as usize) {
        number = number.wrapping_mul(256).wrapping_add(u64::from(*byte));
    }
    number
}
