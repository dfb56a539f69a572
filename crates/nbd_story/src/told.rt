//! A message of a session and a request, without their payloads, and parts of the export.

use nbd_state::{Export, Flaws, has_range, is_change};
use nbd_wire::{
    AnswerHead, ChoiceHead, ChunkHead, Entry, Part, RequestHead, Side, SimpleHead, chunks, commands,
};

/// What a message is, and what its head says.
#[derive(Clone, Copy)]
pub enum Form {
    /// The server's greeting, with its flags.
    Greeting(u16),
    /// The client's flags.
    ClientFlags(u32),
    /// An option that the client chooses.
    Choice(ChoiceHead),
    /// The server's reply to an option.
    Answer(AnswerHead),
    /// The server's answer to EXPORT_NAME.
    Exported(Export),
    /// A request; its length is that of its range, of one with a filter once that has come.
    Request(RequestHead),
    /// A simple reply.
    Simple(SimpleHead),
    /// A chunk of a structured reply.
    Chunk(ChunkHead),
}

/// A message, its places in the capture, and the request that it is or answers.
#[derive(Clone, Copy)]
pub struct Told {
    /// Its sender.
    pub side: Side,
    pub form: Form,
    /// The error that a reply tells; 0 where it tells none.
    pub error: u32,
    /// The content that a reply brings, empty where it brings none; of an error where it happened.
    pub part: Part,
    /// How many bytes stand behind its head.
    pub payload: u64,
    /// The number of the request that it asks or answers, from 1 in the order of arrival; 0 of another message.
    pub number: u64,
    /// How many bytes of its side stand before it.
    pub before: u64,
    /// How many bytes it has.
    pub length: u64,
    /// The place of its first byte, from 1.
    pub first: u64,
    /// The place of its last one.
    pub last: u64,
}

/// The part of an export without a byte.
pub const EMPTY: Part = Part {
    offset: 0,
    length: 0,
};

/// What stands for a message where there is none: it has no byte.
pub const NO_MESSAGE: Told = Told {
    side: Side::Server,
    form: Form::Greeting(0),
    error: 0,
    part: EMPTY,
    payload: 0,
    number: 0,
    before: 0,
    length: 0,
    first: 0,
    last: 0,
};

impl Told {
    /// Whether there is one.
    pub fn is_there(&self) -> bool {
        self.length != 0
    }

    /// The cookie of a request or of a reply to one.
    pub fn cookie(&self) -> Option<u64> {
        match self.form {
            Form::Request(head) => Some(head.cookie),
            Form::Simple(head) => Some(head.cookie),
            Form::Chunk(head) => Some(head.cookie),
            _ => None,
        }
    }

    /// Whether it is a hole.
    pub fn is_hole(&self) -> bool {
        matches!(self.form, Form::Chunk(head) if head.kind == chunks::OFFSET_HOLE)
    }

    /// Whether it answers the request with this number.
    pub fn answers(&self, number: u64) -> bool {
        (self.number == number) & matches!(self.form, Form::Simple(_) | Form::Chunk(_))
    }

    /// The content that it brings the request with this number.
    pub fn content_to(&self, number: u64) -> Part {
        if self.answers(number) {
            self.part
        } else {
            EMPTY
        }
    }

    /// How many bytes its head has.
    pub fn head(&self) -> u64 {
        self.length.saturating_sub(self.payload)
    }

    /// How many bytes of its side stand before so many of its last ones.
    pub fn before_last(&self, count: u64) -> u64 {
        self.before
            .saturating_add(self.length)
            .saturating_sub(count)
    }
}

/// A numbered request.
#[derive(Clone, Copy)]
pub struct Request {
    /// From 1, in the order of arrival.
    pub number: u64,
    /// What it asks for; its length is that of its range.
    pub head: RequestHead,
    /// How many bytes of the client stand before those behind its head, and how many these are.
    pub before: u64,
    pub payload: u64,
    /// The place of its first byte, from 1.
    pub first: u64,
    /// The place of its last one.
    pub last: u64,
    /// The place of the first byte of its reply; 0 before that.
    pub replied: u64,
    /// The place of the last byte of its reply; 0 before that.
    pub finished: u64,
    /// The place of the byte before which it was served: `replied`, or what `Story::request_for` says; 0 where there is none.
    pub due: u64,
    /// The error that its reply told; 0 where it told none.
    pub error: u32,
    /// What is wrong with it.
    pub flaws: Flaws,
}

/// What stands for a request where there is none: its number is 0, and its type asks for nothing.
pub const NO_REQUEST: Request = Request {
    number: 0,
    head: RequestHead {
        extended: false,
        flags: 0,
        command: commands::DISC,
        cookie: 0,
        offset: 0,
        length: 0,
    },
    before: 0,
    payload: 0,
    first: 0,
    last: 0,
    replied: 0,
    finished: 0,
    due: 0,
    error: 0,
    flaws: Flaws {
        is_unknown: true,
        is_beyond: false,
        is_unoffered: false,
        is_forbidden: false,
        flags: 0,
        is_ranged: false,
    },
};

impl Request {
    /// Whether there is one.
    pub fn is_there(&self) -> bool {
        self.number != 0
    }

    /// The part of the export that it names.
    pub fn range(&self) -> Part {
        Part {
            offset: self.head.offset,
            length: self.head.length,
        }
    }

    /// Whether it changes the export at an offset.
    pub fn changes(&self, offset: u64) -> bool {
        is_change(self.head.command) & has_offset(self.range(), offset)
    }

    /// Whether it is a BLOCK_STATUS.
    pub fn is_status(&self) -> bool {
        self.head.command == commands::BLOCK_STATUS
    }

    /// Whether its reply came whole and told no error.
    pub fn succeeded(&self) -> bool {
        (self.error == 0) & (self.finished != 0)
    }

    /// Whether an entry can serve a part of it: its type has a range, and it is no BLOCK_STATUS that is not proper.
    pub fn has_inside(&self) -> bool {
        has_range(self.head.command) & (self.flaws.is_none() | !self.is_status())
    }

    /// What of its range lies in an export of this size; nothing where no part of it can be served.
    pub fn inside(&self, size: u64) -> Part {
        let offset = self.head.offset;
        if self.has_inside() && offset < size {
            Part {
                offset,
                length: self.head.length.min(size - offset),
            }
        } else {
            EMPTY
        }
    }

    /// Whether it was surely served before another one: it had to be before that one had come whole.
    pub fn is_before(&self, other: &Request) -> bool {
        (self.due != 0) & (self.due < other.last)
    }
}

/// Whether an offset lies in a part.
pub fn has_offset(part: Part, offset: u64) -> bool {
    offset >= part.offset && offset - part.offset < part.length
}

/// Where a part ends.
pub fn end_of(part: Part) -> u64 {
    part.offset.saturating_add(part.length)
}

/// The bytes from one offset up to another.
pub fn between(offset: u64, end: u64) -> Part {
    Part {
        offset,
        length: end.saturating_sub(offset),
    }
}

/// What of a part lies in another one.
pub fn common(part: Part, other: Part) -> Part {
    between(
        part.offset.max(other.offset),
        end_of(part).min(end_of(other)),
    )
}

/// Whether two parts share an offset.
pub fn meet(part: Part, other: Part) -> bool {
    let offset = part.offset.max(other.offset);
    has_offset(part, offset) & has_offset(other, offset)
}

/// What of a part lies outside a range, from the first offset on that does.
pub fn outside(part: Part, range: Part) -> Part {
    let room = if has_offset(range, part.offset) {
        range
            .length
            .saturating_sub(part.offset.saturating_sub(range.offset))
    } else {
        0
    };
    Part {
        offset: part.offset.saturating_add(room),
        length: part.length.saturating_sub(room),
    }
}

/// The part that an entry serves of the request with this number; none where it serves it atomically.
pub fn part_in(entry: &Entry, number: u64) -> Part {
    match entry.part {
        Some(part) if entry.request == number => part,
        _ => EMPTY,
    }
}
