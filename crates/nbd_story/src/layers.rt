//! What the export held at an entry of an order, and what a request got for a part of it.

use crate::explanation::Sources;
use crate::story::Story;
use crate::stream::bytes_behind;
use crate::told::{Request, Told, between, common, end_of, part_in};
use nbd_export::{Contents, Extents, HeldPart, Start};
use nbd_state::{ends_by, is_change};
use nbd_wire::{Part, Side, commands};
use std::alloc::AllocError;

/// A part of the export, and what a request got of it.
#[derive(Clone, Copy)]
pub struct Brought<'a> {
    pub part: Part,
    pub held: HeldPart<'a>,
}

impl<'a> Brought<'a> {
    /// The same from an offset of the part on.
    pub fn from(&self, offset: u64) -> HeldPart<'a> {
        match self.held {
            HeldPart::Bytes(bytes) => {
                let skipped = offset.saturating_sub(self.part.offset) as usize;
                HeldPart::Bytes(bytes_behind(bytes, skipped))
            }
            held => held,
        }
    }
}

impl Story {
    // What a change leaves in a part of its range.
    fn left_in(&self, part: Part, change: &Request) -> HeldPart<'_> {
        match change.head.command {
            commands::WRITE if change.succeeded() => {
                let skipped = part.offset.saturating_sub(change.head.offset);
                let before = change.before.saturating_add(skipped);
                HeldPart::Bytes(self.recording.bytes_at(Side::Client, before, part.length))
            }
            commands::WRITE_ZEROES if change.succeeded() => HeldPart::Zeroes,
            _ => HeldPart::Unknown,
        }
    }

    /// The byte that a change left at an offset, where that is known.
    pub fn byte_by(&self, change: &Request, offset: u64) -> Option<u8> {
        match self.left_in(Part { offset, length: 1 }, change) {
            HeldPart::Unknown => None,
            HeldPart::Zeroes => Some(0),
            HeldPart::Bytes(bytes) => bytes.first().copied(),
        }
    }

    /// What a message brings of a part.
    pub fn brought(&self, part: Part, told: &Told) -> Brought<'_> {
        let part = common(told.part, part);
        let before = told.before_last(end_of(told.part).saturating_sub(part.offset));
        let held = if told.is_hole() {
            HeldPart::Zeroes
        } else {
            HeldPart::Bytes(self.recording.bytes_at(Side::Server, before, part.length))
        };
        Brought { part, held }
    }

    /// The first bytes of a READ that its reply does not bring, with the refused chunk.
    pub fn unread(&self, chunk: &Told, read: &Request) -> Result<Part, AllocError> {
        let mut brought = Vec::new(self.alloc());
        let mut is_refused = add(&mut brought, chunk.part);
        for told in &self.told {
            is_refused |= add(&mut brought, told.content_to(read.number));
        }
        Ok(gap(&in_order(brought, is_refused)?, read.range()))
    }
}

impl Sources<'_> {
    /// The byte that the export held at an offset at first, where that is known.
    pub fn byte_at_first(&self, offset: u64) -> Option<u8> {
        match self.start {
            Some(Start::Zeroes) => Some(0),
            Some(Start::Image(image)) => image.get(offset as usize).copied(),
            Some(Start::Contents(contents)) => byte_at(contents, offset),
            _ => None,
        }
    }

    /// What it held at first.
    pub fn at_first(&self) -> Result<Extents, AllocError> {
        let alloc = self.story.alloc();
        match self.start {
            Some(Start::Zeroes) => Extents::new(alloc, u64::MAX, Start::Zeroes),
            Some(Start::Image(image)) => {
                Extents::new(alloc, image.len() as u64, Start::Image(image.clone()?))
            }
            Some(Start::Contents(contents)) => {
                Extents::new(alloc, contents.size(), Start::Contents(contents.clone()?))
            }
            _ => Extents::new(alloc, u64::MAX, Start::Unknown),
        }
    }

    /// Lays the changes of a part before the entry at a place of the order over what was held.
    pub fn lay_changes(
        &self,
        held: &mut Extents,
        place: usize,
        part: Part,
    ) -> Result<(), AllocError> {
        for at in 0..place.min(self.order.len()) {
            let entry = &self.order[at];
            let change = self.story.request(entry.request);
            let served = common(entry.part.unwrap_or(part), part);
            let left = common(change.range(), served);
            if is_change(change.head.command) {
                lay(held, left, self.story.left_in(left, change))?;
            }
        }
        Ok(())
    }

    /// Where the parts of the request with this number begin and end that entries serve, in order.
    pub fn served(&self, number: u64) -> Result<Vec<(u64, u64)>, AllocError> {
        let mut served = Vec::new(self.story.alloc());
        let mut is_refused = false;
        for entry in self.order {
            is_refused |= add(&mut served, part_in(entry, number));
        }
        in_order(served, is_refused)
    }
}

// Lays what is held of a part over contents, as far as the part lies in them.
fn lay(contents: &mut Extents, part: Part, held: HeldPart<'_>) -> Result<(), AllocError> {
    let (offset, length) = (part.offset, part.length);
    if (length == 0) | !ends_by(offset, length, contents.size()) {
        return Ok(());
    }
    match held {
        HeldPart::Bytes(bytes) if bytes.len() as u64 == length => contents.put(offset, bytes),
        HeldPart::Zeroes => contents.zero(offset, length),
        _ => contents.forget(offset, length),
    }
}

// Adds where a part begins and ends, if it has a byte; answers whether memory was refused for that.
fn add(parts: &mut Vec<(u64, u64)>, part: Part) -> bool {
    part.length != 0 && parts.push((part.offset, end_of(part))).is_err()
}

// Parts in their order, where no memory was refused for them.
fn in_order(mut parts: Vec<(u64, u64)>, is_refused: bool) -> Result<Vec<(u64, u64)>, AllocError> {
    parts.sort_unstable();
    if is_refused {
        Err(AllocError)
    } else {
        Ok(parts)
    }
}

/// The first bytes of a part that none of others has, which share no offset and are in order; none where they have all.
pub fn gap(others: &[(u64, u64)], part: Part) -> Part {
    let mut at = part.offset;
    let mut next = end_of(part);
    for place in others.partition_point(|one| one.1 <= part.offset)..others.len() {
        let (offset, end) = others[place];
        if (offset > at) | (at >= next) {
            next = next.min(offset);
            break;
        }
        at = end;
    }
    between(at, next)
}

/// The byte of contents at an offset, where it is known.
pub fn byte_at(contents: &Extents, offset: u64) -> Option<u8> {
    if offset < contents.size() {
        contents.byte_at(offset)
    } else {
        None
    }
}
