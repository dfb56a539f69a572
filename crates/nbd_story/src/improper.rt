//! The requests of a session that its client should not have sent, and what is wrong with each.

use crate::story::Story;
use crate::text::Text;
use crate::told::Request;
use nbd_state::{Flaws, is_outside};
use nbd_wire::command_flags::{DF, FAST_ZERO, FUA, NO_HOLE, PAYLOAD_LEN, REQ_ONE};
use nbd_wire::commands::{BLOCK_STATUS, READ, WRITE_ZEROES};
use nbd_wire::flags::has;
use nbd_wire::transmission::BLOCK_STATUS_PAYLOAD;
use nbd_wire::{Profile, RequestHead, Sizes, breaks_sizes, sizes_for};

/// How many of them are listed.
const LISTED: u64 = 10;

/// The flags of a request that proto.md has and nbdcheck follows, but for PAYLOAD_LEN, which an extended header may have.
const FLAGS: u16 = FUA | NO_HOLE | DF | REQ_ONE | FAST_ZERO;

/// The type whose requests alone may have a flag; why others do not have it, and why those do not where the export does not offer it.
const OWNED: [(u16, u16, &str, &str); 5] = [
    (FUA, READ, UNOFFERED_FUA, UNOFFERED_FUA),
    (
        NO_HOLE,
        WRITE_ZEROES,
        "it carries NO_HOLE, which only a WRITE_ZEROES may",
        "",
    ),
    (
        DF,
        READ,
        "it carries DF, which only a READ may",
        "it carries DF, and the export lacks SEND_DF",
    ),
    (
        REQ_ONE,
        BLOCK_STATUS,
        "it carries REQ_ONE, which only a BLOCK_STATUS may",
        "",
    ),
    (
        FAST_ZERO,
        WRITE_ZEROES,
        "it carries FAST_ZERO, which only a WRITE_ZEROES may",
        "it carries FAST_ZERO, and the export lacks SEND_FAST_ZERO",
    ),
];

/// The same of FUA, which each type may have.
const UNOFFERED_FUA: &str = "it carries FUA, and the export lacks SEND_FUA";

/// Why a request of another type is not sent.
const UNKNOWN_TYPE: &str = "its type is none of READ, WRITE, FLUSH, TRIM, CACHE and WRITE_ZEROES";

const UNKNOWN_FLAG: &str =
    "it carries a flag that is none of FUA, NO_HOLE, DF, REQ_ONE and FAST_ZERO";

const READ_ONLY: &str = "it changes an export that is read-only: it has READ_ONLY";

/// Why one has no PAYLOAD_LEN, or not this payload.
const UNALLOWED_PAYLOAD: &str = "it carries PAYLOAD_LEN, and the export lacks BLOCK_STATUS_PAYLOAD";

const NO_FILTER: &str =
    "its payload is no filter, which has a length of 8 bytes and ids of 4 bytes each";

const NEEDLESS_PAYLOAD: &str = "it carries PAYLOAD_LEN, which only a WRITE and a BLOCK_STATUS may";

impl Story {
    // The block sizes in force, which a request of this type has to keep; in Base no request counts as improper by them.
    fn sizes_for(&self, command: u16) -> Option<Sizes> {
        match self.profile {
            Profile::Base => None,
            Profile::Wide => sizes_for(self.is_structured, command, self.sizing.kept()),
        }
    }

    // Whether a request is outside of them.
    fn is_outside(&self, head: &RequestHead) -> bool {
        let (sizes, in_force) = (self.sizes_for(head.command), self.has_contexts());
        is_outside(sizes, in_force, head.command, head.offset, head.length)
    }
}

impl Text {
    /// Adds how many requests the client should not have sent, where there are some, and the first of them, each with its reasons.
    pub fn amiss(self, story: &Story) -> Text {
        let mut reasons = Text::new(story.alloc(), story.is_marked);
        let mut count = 0u64;
        for request in &story.requests {
            let is_outside = story.is_outside(&request.head);
            if !request.flaws.is_none() | is_outside {
                count = count.saturating_add(1);
                if count <= LISTED {
                    reasons = reasons.why_amiss(request, is_outside, story);
                }
            }
        }
        let requests = story.requests.len() as u64;
        let words = "improper: {count} of {requests:request}\n";
        self.fill_if(count != 0, words, &[count, requests])
            .then(reasons)
            .more(count, LISTED, "improper: {more} more\n")
    }

    // One of them, and each reason.
    fn why_amiss(self, request: &Request, is_outside: bool, story: &Story) -> Text {
        let text = self
            .asked("message: ", request)
            .end()
            .improper(request, story);
        match story.sizing.kept() {
            Some(sizes) if is_outside => text.unfit(&request.head, sizes, story),
            _ => text,
        }
    }

    // Why a request does not fit the block sizes: each reason.
    fn unfit(self, head: &RequestHead, sizes: Sizes, story: &Story) -> Text {
        let (least, largest) = (u64::from(sizes.least), u64::from(sizes.largest));
        let is_askew = !head.offset.is_multiple_of(least);
        let is_odd = !head.length.is_multiple_of(least);
        // Of sizes whose least is 1 only the length of a payload can break one.
        let bytes = Some(Sizes { least: 1, ..sizes });
        let kept = sizes_for(story.is_structured, head.command, bytes);
        let is_long = breaks_sizes(kept, head.command, 0, head.length);
        self.unfit_if(is_askew, sizes, "offset is no multiple of {unit}\n", least)
            .unfit_if(is_odd, sizes, "length is no multiple of {unit}\n", least)
            .unfit_if(is_long, sizes, "length is more than {most}\n", largest)
    }

    // A reason with its bound, behind the block sizes, which are told as the least, the preferred and the largest, where it holds.
    fn unfit_if(self, holds: bool, sizes: Sizes, reason: &str, bound: u64) -> Text {
        let preferred = u64::from(sizes.preferred);
        let sizes = [u64::from(sizes.least), preferred, u64::from(sizes.largest)];
        let words = "wrong: outside of the block sizes {least}/{preferred}/{largest}: its ";
        self.fill_if(holds, words, &sizes)
            .fill_if(holds, reason, &[bound])
    }

    /// Adds why a client should not send this request to the export: each reason.
    pub fn improper(self, request: &Request, story: &Story) -> Text {
        let (head, flaws) = (&request.head, request.flaws);
        if request.is_status() & flaws.is_unknown {
            return self.wrong(match story.profile {
                Profile::Base => UNKNOWN_TYPE,
                Profile::Wide => "it asks for a status, and no metadata context is in force",
            });
        }
        let others = flaws.flags & !(FLAGS | PAYLOAD_LEN * u16::from(head.extended));
        self.beyond_if(flaws.is_beyond, head, story.export.size)
            .unoffered_if(flaws.is_unoffered, head.command)
            .unallowed(head.command, flaws)
            .wrong_if(
                flaws.is_ranged,
                "a FLUSH has neither an offset nor a length",
            )
            .wrong_if(flaws.is_forbidden, READ_ONLY)
            .wrong_if(flaws.is_unknown, UNKNOWN_TYPE)
            .wrong_if(others != 0, UNKNOWN_FLAG)
            .wrong_payload(request, story)
    }

    // That an export does not offer the type of a request.
    fn unoffered_if(self, holds: bool, command: u16) -> Text {
        if holds {
            self.say("wrong: the export does not offer ")
                .command(command)
                .say(": it lacks SEND_")
                .command(command)
                .end()
        } else {
            self
        }
    }

    // The known flags that a request of this type may not have.
    fn unallowed(self, command: u16, flaws: Flaws) -> Text {
        let mut text = self;
        for (flag, owner, foreign, unoffered) in &OWNED {
            let reason = if command == *owner {
                unoffered
            } else {
                foreign
            };
            text = text.wrong_if(has(flaws.flags, *flag), reason);
        }
        text
    }

    // Why no request with an extended header has PAYLOAD_LEN and this payload.
    fn wrong_payload(self, request: &Request, story: &Story) -> Text {
        let head = &request.head;
        let is_flagged = head.extended & has(request.flaws.flags, PAYLOAD_LEN);
        let is_status = is_flagged & request.is_status();
        let is_allowed = has(story.export.flags, BLOCK_STATUS_PAYLOAD);
        let filter = story.filter_of(head, story.payload(request));
        self.wrong_if(is_status & !is_allowed, UNALLOWED_PAYLOAD)
            .wrong_if(is_status & filter.is_none(), NO_FILTER)
            .bad_filter(request, story)
            .wrong_if(is_flagged & !request.is_status(), NEEDLESS_PAYLOAD)
    }

    // A range that passes the end of an export of this size, and by how much, where 64 bits hold that.
    fn beyond_if(self, holds: bool, head: &RequestHead, size: u64) -> Text {
        if !holds {
            return self;
        }
        let words = "wrong: its range passes the end of the export of {size:byte} by ";
        let text = self.number(words, size);
        let inside = size.saturating_sub(head.offset).min(head.length);
        let outside = head.offset.saturating_sub(size);
        match outside.checked_add(head.length - inside) {
            Some(count) => text.number("{past:byte}\n", count),
            None => text.number("more than {past} bytes\n", u64::MAX),
        }
    }
}
