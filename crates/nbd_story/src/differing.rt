//! How many bytes of a READ are wrong, or of those that a BLOCK_STATUS called zero, and the first of them.

use crate::content::found_byte;
use crate::explanation::Sources;
use crate::layers::{Brought, byte_at};
use crate::statuses::NO_DESCRIPTOR;
use crate::story::Story;
use crate::text::Text;
use crate::told::{Request, between, common, end_of};
use nbd_export::{Contents, Extents, HeldPart};
use nbd_wire::{Entry, Part};
use std::alloc::AllocError;

/// How many offsets are shown.
const SHOWN: u64 = 16;

/// What an entry of an order serves of a READ or a BLOCK_STATUS.
#[derive(Drop)]
pub struct Compared<'a> {
    /// The place of the entry.
    pub place: usize,
    request: &'a Request,
    part: Part,
    /// What the export held of it before.
    pub held: Extents,
}

impl<'a> Compared<'a> {
    /// What the entry at this place of the order serves.
    pub fn of(
        place: usize,
        entry: &Entry,
        sources: &Sources<'a>,
    ) -> Result<Compared<'a>, AllocError> {
        let request = sources.story.request(entry.request);
        let inside = request.inside(sources.story.export.size);
        let part = entry.part.unwrap_or(inside);
        let mut held = sources.at_first()?;
        sources.lay_changes(&mut held, place, part)?;
        Ok(Compared {
            place,
            request,
            part,
            held,
        })
    }

    // The offsets at which what came is not what was held.
    fn differing(&self, story: &Story) -> Differing {
        let number = self.request.number;
        let mut differing = Differing {
            among: 0,
            count: 0,
            first: 0,
            last: 0,
        };
        let status = story.zeroes_of(number);
        let mut one = NO_DESCRIPTOR;
        for _ in 0..status.count() {
            one = status.after(&one);
            let part = common(status.called_zero(&one), self.part);
            let held = HeldPart::Zeroes;
            differing.hold(&Brought { part, held }, &self.held);
        }
        for told in &story.told {
            if told.answers(number) {
                differing.hold(&story.brought(self.part, told), &self.held);
            }
        }
        differing
    }

    // The byte at an offset that came, or the one that was held.
    fn byte(&self, offset: u64, is_came: bool, story: &Story) -> Option<u8> {
        if !is_came {
            return byte_at(&self.held, offset);
        }
        let came = found_byte(self.request.number, offset, story);
        if came.place == 0 {
            None
        } else {
            Some(came.byte)
        }
    }
}

/// Offsets at which bytes differ.
#[derive(Clone, Copy)]
struct Differing {
    /// Of how many bytes.
    among: u64,
    count: u64,
    first: u64,
    last: u64,
}

impl Differing {
    // Adds those of a part that came at which that is not what was held.
    fn hold(&mut self, came: &Brought<'_>, held: &Extents) {
        let end = end_of(came.part).min(held.size());
        let mut at = came.part.offset;
        for _ in 0..came.part.length {
            if at >= end {
                break;
            }
            let (there, next) = held.part_at(at);
            let next = next.min(end);
            self.compare(between(at, next), came.from(at), there);
            at = next;
        }
    }

    // Adds those of a part at which what came is not what was held, where both are known.
    fn compare(&mut self, part: Part, got: HeldPart<'_>, held: HeldPart<'_>) {
        if let Some(bytes) = known(got, part) {
            self.among = self.among.saturating_add(part.length);
            if let Some(others) = known(held, part) {
                self.add(part.offset, bytes, others);
            }
        }
    }

    // Adds those at which bytes from an offset on are not the others; where either has none there are zeroes.
    fn add(&mut self, offset: u64, bytes: &[u8], others: &[u8]) {
        for index in 0..bytes.len().max(others.len()) {
            let byte = bytes.get(index).copied().unwrap_or(0);
            if byte != others.get(index).copied().unwrap_or(0) {
                let at = offset.saturating_add(index as u64);
                self.first = if self.count == 0 {
                    at
                } else {
                    at.min(self.first)
                };
                self.last = at.max(self.last);
                self.count = self.count.saturating_add(1);
            }
        }
    }
}

// The bytes of a part from whose first offset on this is held, where they are known; zeroes are left out.
fn known(held: HeldPart<'_>, part: Part) -> Option<&[u8]> {
    match held {
        HeldPart::Unknown => None,
        HeldPart::Zeroes => Some(&[]),
        HeldPart::Bytes(bytes) => Some(bytes.get(..part.length as usize).unwrap_or(bytes)),
    }
}

impl Text {
    /// Adds how many bytes are wrong that a READ got, or that a BLOCK_STATUS called zero, and the first of them.
    pub fn differing(self, compared: &Compared<'_>, story: &Story) -> Text {
        let found = compared.differing(story);
        let rest = end_of(compared.part).saturating_sub(found.first);
        let shown = Part {
            offset: found.first,
            length: rest.min(SHOWN),
        };
        let is_status = compared.request.is_status();
        let came = if is_status {
            "  called  "
        } else {
            "  came    "
        };
        let places = if found.count == 1 {
            ", at offset {first}\nfrom offset {first}:\n"
        } else {
            ", from offset {first} to {last}\nfrom offset {first}:\n"
        };
        let words = "differ: {count} of {length:byte}";
        self.fill(words, &[found.count, found.among])
            .say_if(is_status, " called zero")
            .fill(places, &[found.first, found.last, found.first])
            .say(came)
            .row(shown, compared, true, story)
            .say("  expected")
            .row(shown, compared, false, story)
    }

    // The bytes of a part that came, or those that were held, and two points for one that is not known.
    fn row(self, part: Part, compared: &Compared<'_>, is_came: bool, story: &Story) -> Text {
        let mut text = self;
        for offset in part.offset..end_of(part) {
            text = text.byte_or(compared.byte(offset, is_came, story), " {:02x}", " ..");
        }
        text.end()
    }
}
