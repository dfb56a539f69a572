//! Why no session with these bytes is served in an order.

use crate::explanation::{NO_PLACE, Sources};
use crate::layers::gap;
use crate::rules::order_rule;
use crate::story::Story;
use crate::text::Text;
use crate::told::{Request, common, has_offset, meet, outside, part_in};
use nbd_wire::{Entry, OrderFault, Part, Profile};
use std::alloc::AllocError;

/// Said behind a fault that hangs on when a request was due, which can be at another moment in the profile `Wide`.
const IN_WIDE: &str =
    "wide: each message of a READ's reply is served by itself there, so this may be no fault; try --profile wide\n";

/// Said behind such a fault in the profile `Wide`, where another rule holds of these READs.
const BY_CHUNK: &str =
    "wide: of a READ what its messages showed has to be served, each byte before the message that showed it was complete\n";

impl Text {
    /// Adds what is wrong with this entry of the order, counted from 1, or of Missing and NotCovered with this request.
    pub fn order_fault(self, entry: u64, fault: OrderFault, sources: &Sources<'_>) -> Text {
        let request = sources.story.request(entry);
        let is_due = matches!(
            fault,
            OrderFault::Late | OrderFault::Missing | OrderFault::NotCovered
        );
        let words = match sources.story.profile {
            Profile::Base => IN_WIDE,
            Profile::Wide => BY_CHUNK,
        };
        let text = self
            .rule(&order_rule(fault), "the order that was given")
            .say_if(is_due & sources.story.has_chunks_apart(), words);
        match fault {
            OrderFault::Missing => text.moments("no entry: ", request),
            OrderFault::NotCovered => text
                .moments("request: ", request)
                .range(request, sources.story.export.size)
                .gap(first_gap(request, sources), ", which no part serves\n"),
            _ => text.wrong_entry(entry.wrapping_sub(1) as usize, fault, sources),
        }
    }

    // What is wrong with the entry at a place.
    fn wrong_entry(self, place: usize, fault: OrderFault, sources: &Sources<'_>) -> Text {
        let Some(entry) = sources.order.get(place) else {
            return self;
        };
        let request = sources.story.request(entry.request);
        match fault {
            OrderFault::Twice => self
                .entry_at(first_naming(place, entry, sources.order), sources)
                .entry_at(place, sources),
            OrderFault::Late => self
                .entry_at(place, sources)
                .entry_at(earlier(place, request, sources), sources),
            OrderFault::BadPart => self
                .entry_at(place, sources)
                .range(request, sources.story.export.size)
                .bad_part(place, entry, sources),
            _ => self.entry_at(place, sources),
        }
    }

    // The entry at a place of the order, if there is one, and the request that it serves.
    fn entry_at(self, place: usize, sources: &Sources<'_>) -> Text {
        let Some(entry) = sources.order.get(place) else {
            return self;
        };
        let request = &served_by(entry, sources);
        let text = self
            .number("entry {entry}: ", (place as u64).saturating_add(1))
            .part_served(entry, " of ");
        if request.is_there() {
            text.moments("", request)
        } else {
            let words = "request {request}; the capture has {requests:request}\n";
            text.fill(words, &[entry.request, sources.story.requests.len() as u64])
        }
    }

    // A request, when it had come whole, and when its first reply began; or where that is later, before which byte it was served.
    fn moments(self, label: &str, request: &Request) -> Text {
        let text = self
            .say(label)
            .request(&request.head, request.number)
            .number("; whole at byte {whole}", request.last);
        if request.due > request.replied {
            text.number(", served before byte {before}\n", request.due)
        } else {
            let words = ", first reply at byte {replied}\n";
            text.number_or(request.replied, words, ", no reply\n")
        }
    }

    // What a request asks for, and how much of that lies inside an export of this size.
    fn range(self, request: &Request, size: u64) -> Text {
        if !request.has_inside() {
            return self
                .numbered("range: none, ", request)
                .say(" can be served only atomically\n");
        }
        let inside = request.inside(size);
        let words = if inside.length == request.head.length {
            ", in the export of {size:byte}\n"
        } else if inside.length == 0 {
            ", beyond the end of the export of {size:byte}\n"
        } else {
            ", in the export of {size:byte} only {inside:byte} at {at}\n"
        };
        self.part("range: ", request.range())
            .fill(words, &[size, inside.length, inside.offset])
    }

    // What is wrong with the part of an entry: each that is. Of what an earlier entry serves of the request already, the first offset is
    // told, and that entry.
    fn bad_part(self, place: usize, entry: &Entry, sources: &Sources<'_>) -> Text {
        let Some(part) = entry.part else {
            return self;
        };
        let request = sources.story.request(entry.request);
        let (offset, at) = first_shared(place, entry.request, part, sources.order);
        let numbers = [offset, (at as u64).saturating_add(1)];
        let words = "wrong: the part has offset {offset}, which entry {entry} serves already\n";
        self.say_if(part.length == 0, "wrong: the part is empty\n")
            .outside(part, request, sources.story.export.size)
            .fill_if(at < place, words, &numbers)
            .entry_at(at, sources)
    }

    // The first offset of a part that lies outside its request.
    fn outside(self, part: Part, request: &Request, size: u64) -> Text {
        let rest = outside(part, request.inside(size));
        let is_in_range = request.has_inside() & has_offset(request.range(), rest.offset);
        let words = if is_in_range {
            "wrong: the part has offset {offset}, which lies beyond the end of the export\n"
        } else {
            "wrong: the part has offset {offset}, which lies outside the request's range\n"
        };
        self.fill_if(rest.length != 0, words, &[rest.offset])
    }
}

// The place of the first entry that an entry repeats: one that serves the request atomically, or any where the entry itself does.
fn first_naming(place: usize, entry: &Entry, order: &[Entry]) -> usize {
    for at in 0..place.min(order.len()) {
        let is_whole = order[at].part.is_none() | entry.part.is_none();
        if (order[at].request == entry.request) & is_whole {
            return at;
        }
    }
    NO_PLACE
}

// The place of the first entry behind a late one that had to be served before the late one's request was whole.
fn earlier(place: usize, late: &Request, sources: &Sources<'_>) -> usize {
    for at in place.saturating_add(1)..sources.order.len() {
        let entry = &sources.order[at];
        let may_be = sources.story.request(entry.request).is_before(late);
        if may_be && served_by(entry, sources).is_before(late) {
            return at;
        }
    }
    NO_PLACE
}

// The request of an entry, with the place before which something of what the entry serves was served.
fn served_by(entry: &Entry, sources: &Sources<'_>) -> Request {
    let story = sources.story;
    let inside = story.request(entry.request).inside(story.export.size);
    story.request_for(entry.request, entry.part.unwrap_or(inside))
}

// The first bytes of a request that no entry serves. Of a READ by chunk whose reply has not ended, those of the first message with such.
fn first_gap(request: &Request, sources: &Sources<'_>) -> Result<Part, AllocError> {
    let number = request.number;
    let inside = request.inside(sources.story.export.size);
    let served = sources.served(number)?;
    if (request.finished == 0) & sources.story.profile.serves_by_chunk(request.head.command) {
        for message in &sources.story.told {
            let missing = gap(&served, common(message.content_to(number), inside));
            if missing.length != 0 {
                return Ok(missing);
            }
        }
    }
    Ok(gap(&served, inside))
}

// The least offset of a part that an entry before a place serves of this request, and the place of that entry.
fn first_shared(place: usize, request: u64, part: Part, order: &[Entry]) -> (u64, usize) {
    let mut found = (0, NO_PLACE);
    let mut rest = part;
    for at in 0..place.min(order.len()) {
        let other = part_in(&order[at], request);
        if meet(rest, other) {
            let offset = part.offset.max(other.offset);
            // From here on only what lies before that counts.
            rest.length = offset.saturating_sub(part.offset);
            found = (offset, at);
        }
    }
    found
}
