//! The states of a refutation by several READs: what of its requests can have been served so far. A BLOCK_STATUS that calls the offset
//! zero counts as a READ that got 00.

use crate::content::found_byte;
use crate::explanation::Sources;
use crate::refutation::Contest;
use crate::story::Story;
use crate::text::Text;
use crate::told::Request;
use nbd_state::is_change;
use nbd_wire::Part;

/// The most requests whose states are told.
const MOST: usize = 64;

/// How many states are told.
const LISTED: usize = 24;

/// A change or a READ.
#[derive(Clone, Copy, Drop)]
struct Party {
    request: Request,
    /// What it left at the offset, where that is known, or got for it.
    byte: Option<u8>,
}

// Adds the requests with these numbers; answers whether memory was refused for one.
fn add_parties(parties: &mut Vec<Party>, numbers: &[u64], offset: u64, story: &Story) -> bool {
    let mut is_refused = false;
    for number in numbers {
        let request = story.request_for(*number, Part { offset, length: 1 });
        let byte = if is_change(request.head.command) {
            story.byte_by(&request, offset)
        } else {
            Some(found_byte(*number, offset, story).byte)
        };
        is_refused |= parties.push(Party { request, byte }).is_err();
    }
    is_refused
}

// Whether one of them can be served next, once these were: it was not, and each that had to be served before it was.
fn is_next(one: &Request, parties: &[Party], served: &[u64]) -> bool {
    for party in parties {
        let other = &party.request;
        if other.is_before(one) & !served.contains(&other.number) {
            return false;
        }
    }
    !served.contains(&one.number)
}

impl Text {
    /// Adds in which states the requests can be, and what can be served next there. A change leads to another state; a READ is
    /// served as soon as it can be, so one that is next did not get the byte that is there. In no state all READs were served.
    pub fn states(self, contest: &Contest<'_>, sources: &Sources<'_>) -> Text {
        if contest.changes.len().saturating_add(contest.reads.len()) > MOST {
            return self.say("states: not told of more than 64 requests\n");
        }
        let mut parties = Vec::new(sources.story.alloc());
        let is_refused = add_parties(&mut parties, contest.changes, contest.offset, sources.story)
            | add_parties(&mut parties, contest.reads, contest.offset, sources.story);
        let count = contest.states.len();
        let mut text = self.refused_if(is_refused).say(
            "states: a change that is next leads to a state that has it, where nothing that is next got its byte; no state has all that got one\n",
        );
        for place in 0..count.min(LISTED) {
            text = text
                .number("state {step}: ", (place as u64).saturating_add(1))
                .state(contest.states[place], &parties);
        }
        text.more(count as u64, LISTED as u64, "states: {more} more\n")
    }

    // What was served, in this order, and what can be served next.
    fn state(self, served: &[u64], parties: &[Party]) -> Text {
        let mut text = self.say_if(served.is_empty(), "nothing");
        let mut mark = "";
        for number in served {
            for party in parties {
                if party.request.number == *number {
                    text = text.party(mark, party);
                }
            }
            mark = ", ";
        }
        text = text.say(" served");
        mark = "; next ";
        for party in parties {
            if is_next(&party.request, parties, served) {
                text = text.party(mark, party);
                mark = ", ";
            }
        }
        text.end()
    }

    // A change or a READ with its byte.
    fn party(self, mark: &str, party: &Party) -> Text {
        self.numbered(mark, &party.request)
            .byte_or(party.byte, " ({value:02x})", " (any)")
    }
}
