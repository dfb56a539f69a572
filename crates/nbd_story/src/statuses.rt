//! What status chunks say of the bytes of an export, and what a BLOCK_STATUS calls zero.

use crate::contexts::LISTED;
use crate::story::Story;
use crate::stream::bytes_behind;
use crate::text::Text;
use crate::told::{EMPTY, Form, NO_MESSAGE, Told, common, end_of, has_offset};
use nbd_wire::flags::has_long;
use nbd_wire::{Part, Side, chunks, first_extent, states, status_ext_of, status_of};

/// What the two lowest flags of `base:allocation` say, HOLE (1) and ZERO (2).
const STATES: [&str; 4] = [" data", " hole", " zero", " hole zero"];

/// What a status chunk says; nothing where it has no descriptor.
#[derive(Clone, Copy)]
pub struct Status<'a> {
    /// The id of its context.
    pub id: u32,
    /// The chunk.
    pub chunk: &'a Told,
    /// The chunk has an extended header.
    extended: bool,
    /// The bytes of its descriptors.
    bytes: &'a [u8],
    /// The range of the request that it answers.
    pub range: Part,
}

/// A descriptor of a status chunk.
#[derive(Clone, Copy)]
pub struct Descriptor {
    /// From 1; 0 where there is none.
    pub number: u64,
    /// The bytes that it speaks of; those of the last one may pass the range of the request.
    pub part: Part,
    flags: u64,
}

/// What stands for a descriptor where there is none.
pub const NO_DESCRIPTOR: Descriptor = Descriptor {
    number: 0,
    part: EMPTY,
    flags: 0,
};

impl Status<'_> {
    // The length of a descriptor, in bytes.
    fn length(&self) -> u64 {
        if self.extended { 16 } else { 8 }
    }

    /// How many descriptors there are.
    pub fn count(&self) -> u64 {
        let bytes = self.bytes.len() as u64;
        if self.extended { bytes / 16 } else { bytes / 8 }
    }

    /// The first descriptor, or the one behind another.
    pub fn after(&self, last: &Descriptor) -> Descriptor {
        let from = last.number.saturating_mul(self.length()) as usize;
        match first_extent(self.extended, bytes_behind(self.bytes, from)) {
            Some((extent, _)) => Descriptor {
                number: last.number.saturating_add(1),
                part: Part {
                    offset: end_of(last.part).max(self.range.offset),
                    length: extent.length,
                },
                flags: extent.flags,
            },
            None => NO_DESCRIPTOR,
        }
    }

    /// The bytes of the range that a descriptor calls zero.
    pub fn called_zero(&self, one: &Descriptor) -> Part {
        if has_long(one.flags, u64::from(states::ZERO)) {
            common(one.part, self.range)
        } else {
            EMPTY
        }
    }

    /// The descriptor that calls an offset zero, if there is one.
    pub fn zero_at(&self, offset: u64) -> Descriptor {
        let mut one = NO_DESCRIPTOR;
        for _ in 0..self.count() {
            one = self.after(&one);
            if has_offset(self.called_zero(&one), offset) {
                return one;
            }
        }
        NO_DESCRIPTOR
    }

    /// The places in the capture of the first and of the last byte of a descriptor.
    pub fn places(&self, one: &Descriptor, story: &Story) -> (u64, u64) {
        let (length, recording) = (self.length(), &story.recording);
        let behind = self
            .count()
            .saturating_sub(one.number)
            .saturating_mul(length);
        let first = self.chunk.before_last(behind.saturating_add(length));
        let last = self.chunk.before_last(behind.saturating_add(1));
        let first = recording.place(Side::Server, first);
        (first, recording.place(Side::Server, last))
    }
}

impl Story {
    /// What a status chunk says; of another message nothing.
    pub fn status_in<'a>(&'a self, chunk: &'a Told) -> Status<'a> {
        let mut status = Status {
            id: 0,
            chunk,
            extended: false,
            bytes: &[],
            range: self.request(chunk.number).range(),
        };
        if let Form::Chunk(head) = chunk.form {
            let payload = self.behind(chunk);
            let is_extended = head.at.is_some();
            let read = match head.kind {
                chunks::BLOCK_STATUS_EXT if is_extended => status_ext_of(payload),
                chunks::BLOCK_STATUS if !is_extended => status_of(payload),
                _ => None,
            };
            if let Some((id, bytes)) = read {
                status.id = id;
                status.extended = is_extended;
                status.bytes = bytes;
            }
        }
        status
    }

    /// What the request with this number calls zero, if it is a BLOCK_STATUS whose reply begins with a status of `base:allocation`.
    pub fn zeroes_of(&self, number: u64) -> Status<'_> {
        let mut status = self.status_in(self.first_answer(number));
        if !self.selection.is_allocation(status.id) {
            status.bytes = &[];
        }
        status
    }

    // The first message of the reply to the request with this number, if there is one.
    fn first_answer(&self, number: u64) -> &Told {
        for message in &self.told {
            if message.answers(number) {
                return message;
            }
        }
        &NO_MESSAGE
    }

    /// Whether the reply to the request with this number has a status of a context.
    pub fn is_told(&self, id: u32, number: u64) -> bool {
        for message in &self.told {
            let status = self.status_in(message);
            if message.answers(number) & (status.count() != 0) & (status.id == id) {
                return true;
            }
        }
        false
    }
}

impl Text {
    /// What a status chunk says of the range of its request: the first descriptors, and how many more there are.
    pub fn status(self, chunk: &Told, story: &Story) -> Text {
        let status = story.status_in(chunk);
        let count = status.count();
        if count == 0 {
            return self;
        }
        let is_allocation = story.selection.is_allocation(status.id);
        let mut text = self.context(", ", status.id, story);
        let mut mark = ": ";
        let mut one = NO_DESCRIPTOR;
        for _ in 0..count.min(LISTED) {
            one = status.after(&one);
            let states = if is_allocation {
                STATES[(one.flags % 4) as usize]
            } else {
                " flags {states:#x}"
            };
            text = text.part(mark, one.part).number(states, one.flags);
            mark = "; ";
        }
        text.more(count, LISTED, "; {more} more")
    }
}
