//! Which byte of a READ was wrong or was called zero by a BLOCK_STATUS, and which was right.

use crate::differing::Compared;
use crate::explanation::{DOUBTED, NO_PLACE, Sources};
use crate::layers::byte_at;
use crate::rules::{CONTENT_RULE, Rule, STATUS_RULE};
use crate::statuses::{Descriptor, NO_DESCRIPTOR};
use crate::story::Story;
use crate::text::Text;
use crate::told::{NO_MESSAGE, Told, end_of, has_offset, meet};
use nbd_export::Start;
use nbd_wire::{Entry, Part, Side};

/// A byte that a READ got, or the zero that a BLOCK_STATUS called one.
#[derive(Clone, Copy)]
pub struct Came<'a> {
    pub byte: u8,
    /// Its place in the capture; of a byte of a hole the last byte of the chunk that told the hole, of one that was called zero that of
    /// the descriptor. 0 where none came.
    pub place: u64,
    /// The message that brought it.
    reply: &'a Told,
    /// The descriptor that called it zero.
    descriptor: Descriptor,
}

impl Came<'_> {
    /// Whether it was called zero.
    pub fn is_status(&self) -> bool {
        self.descriptor.number != 0
    }
}

/// The rule that a BLOCK_STATUS breaks which called a wrong byte zero, or a READ that got one.
pub fn rule_of(is_status: bool) -> &'static Rule {
    if is_status {
        &STATUS_RULE
    } else {
        &CONTENT_RULE
    }
}

impl Text {
    /// Adds which byte the READ with this number got for this offset of the export, or that the BLOCK_STATUS called it zero, and which
    /// byte was right.
    pub fn wrong_byte(self, number: u64, offset: u64, sources: &Sources<'_>) -> Text {
        let place = place_serving(sources.order, number, offset);
        let is_status = sources.story.request(number).is_status();
        let text = self.rule(rule_of(is_status), "the server, if it served in this order");
        let Some(entry) = sources.order.get(place) else {
            return text;
        };
        let text = text.served("message: ", place, entry, sources.story);
        match Compared::of(place, entry, sources) {
            Ok(compared) => text.came_wrong(number, offset, &compared, sources),
            Err(_) => text.refused_if(true),
        }
    }

    // The byte that came, if one did, the one that was right, and how many others are wrong.
    fn came_wrong(
        self,
        number: u64,
        offset: u64,
        compared: &Compared<'_>,
        sources: &Sources<'_>,
    ) -> Text {
        let came = found_byte(number, offset, sources.story);
        if came.place == 0 {
            return self.expected(compared, offset, sources);
        }
        self.came(&came, offset, sources.story)
            .expected(compared, offset, sources)
            .differing(compared, sources.story)
            .say("assumes: the start is right, this is the only connection\n")
            .window(&sources.story.recording, came.place)
    }

    // The request of an entry, the part of it that the entry serves, and its place, counted from 0.
    fn served(self, label: &str, place: usize, entry: &Entry, story: &Story) -> Text {
        let number = (place as u64).saturating_add(1);
        self.asked(label, story.request(entry.request))
            .say("; ")
            .part_served(entry, " ")
            .number("served by entry {entry}\n", number)
    }

    /// The part that an entry serves, before words; nothing where it serves its request atomically.
    pub fn part_served(self, entry: &Entry, words: &str) -> Text {
        match entry.part {
            Some(part) => self.part("", part).say(words),
            None => self,
        }
    }

    /// Adds a byte that a READ got for an offset, or what called it zero, and the message that brought it.
    pub fn came(self, came: &Came<'_>, offset: u64, story: &Story) -> Text {
        let text = self.told("reply: ", came.reply, story);
        if came.is_status() {
            text.called_zero(came, offset, story)
        } else {
            let words = "came: {value:02x} for offset {offset}";
            text.fill(words, &[u64::from(came.byte), offset])
                .place_of(came)
        }
    }

    // The descriptor that called an offset zero, and its places.
    fn called_zero(self, came: &Came<'_>, offset: u64, story: &Story) -> Text {
        let (one, part) = (&came.descriptor, came.descriptor.part);
        let status = story.status_in(came.reply);
        let (first, last) = status.places(one, story);
        let words =
            "called zero: offset {offset}, in {length:byte} at {at}, descriptor {descriptor} of {descriptors}";
        let count = status.count();
        self.fill(
            words,
            &[offset, part.length, part.offset, one.number, count],
        )
        .context(" of ", status.id, story)
        .places("; ", first, last)
        .end()
    }

    /// Adds at which place a byte came.
    pub fn place_of(self, came: &Came<'_>) -> Text {
        let words = if came.reply.is_hole() {
            ", in a hole, whose chunk ends at byte {byte}\n"
        } else if came.is_status() {
            ", in a descriptor that ends at byte {byte}\n"
        } else {
            ", at byte {byte}\n"
        };
        self.number(words, came.place)
    }

    // The byte that the export held at an offset when an entry was reached, and whose change that was, where it is known.
    fn expected(self, compared: &Compared<'_>, offset: u64, sources: &Sources<'_>) -> Text {
        let Some(byte) = byte_at(&compared.held, offset) else {
            return self;
        };
        let text = self.number("expected: {value:02x}", u64::from(byte));
        let first = match sources.start {
            Some(Start::Zeroes) => ", since the export began with zeroes\n",
            Some(Start::Contents(_)) => ", of the contents that were given\n",
            _ => ", of the image\n",
        };
        let last = place_changing(compared.place, offset, sources);
        match sources.order.get(last) {
            Some(entry) => text.served(", by ", last, entry, sources.story),
            None => text.say(first).say(DOUBTED),
        }
    }
}

// Whether an entry serves this offset, if its request has it.
fn serves(entry: &Entry, offset: u64) -> bool {
    match entry.part {
        Some(part) => has_offset(part, offset),
        None => true,
    }
}

// The place of the entry that serves this offset of the request with this number, if the request has it.
fn place_serving(order: &[Entry], number: u64, offset: u64) -> usize {
    for place in 0..order.len() {
        if (order[place].request == number) & serves(&order[place], offset) {
            return place;
        }
    }
    NO_PLACE
}

// The place of the last entry before a place that changed this offset.
fn place_changing(place: usize, offset: u64, sources: &Sources<'_>) -> usize {
    let mut last = NO_PLACE;
    for at in 0..place.min(sources.order.len()) {
        let entry = &sources.order[at];
        let request = sources.story.request(entry.request);
        if request.changes(offset) & serves(entry, offset) {
            last = at;
        }
    }
    last
}

/// The first message that brings the request with this number content with an offset of a part.
pub fn bringer(told: &[Told], number: u64, part: Part) -> &Told {
    for message in told {
        if meet(message.content_to(number), part) {
            return message;
        }
    }
    &NO_MESSAGE
}

/// The byte that the request with this number got for an offset; 00 where it called it zero.
pub fn found_byte(number: u64, offset: u64, story: &Story) -> Came<'_> {
    let reply = bringer(&story.told, number, Part { offset, length: 1 });
    let before = reply.before_last(end_of(reply.part).saturating_sub(offset));
    let mut came = Came {
        byte: 0,
        place: reply.last,
        reply,
        descriptor: NO_DESCRIPTOR,
    };
    if !reply.is_there() {
        let status = story.zeroes_of(number);
        came.reply = status.chunk;
        came.descriptor = status.zero_at(offset);
        if came.is_status() {
            came.place = status.places(&came.descriptor, story).1;
        }
    } else if !reply.is_hole() {
        came.byte = story.recording.byte(Side::Server, before);
        came.place = story.recording.place(Side::Server, before);
    }
    came
}
