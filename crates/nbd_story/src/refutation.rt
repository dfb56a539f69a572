//! Why no order explains a session: a byte that came has no source, or several contradict each other.

use crate::content::{Came, found_byte, rule_of};
use crate::explanation::{DOUBTED, Sources};
use crate::story::Story;
use crate::text::Text;
use crate::told::{NO_REQUEST, Request};
use nbd_wire::Part;

/// How many changes are listed.
const LISTED: u64 = 8;

/// Who broke a rule, and who broke one or the other of two.
const BREAKER: &str = "the server, in whatever order it served";

const BREAKERS: &str = "the server, one or the other, in whatever order it served";

/// READs of an offset of the export, and BLOCK_STATUSes that call it zero, of which each order of the session has one wrong there, and
/// the changes that it takes to show that, by their numbers.
#[derive(Clone, Copy)]
pub struct Contest<'a> {
    pub reads: &'a [u64],
    pub changes: &'a [u64],
    pub offset: u64,
    /// What of them can have been served so far, one after the other; each of these leads to others of them, and in none all were.
    pub states: &'a [&'a [u64]],
}

/// A READ that got a byte for this offset of the export, or a BLOCK_STATUS that called it zero.
#[derive(Clone, Copy)]
struct Got {
    read: Request,
    byte: u8,
    offset: u64,
}

impl Text {
    /// Adds why no order serves these requests so that each READ gets its byte of the export at the offset, and each BLOCK_STATUS 00.
    pub fn refutation(self, contest: &Contest<'_>, sources: &Sources<'_>) -> Text {
        match contest.reads {
            [request] => self.no_source(*request, contest.offset, sources),
            _ => self
                .rules(contest.reads, sources.story)
                .byte_of_start(contest.offset, sources)
                .changes(contest, sources)
                .reads(contest, sources.story)
                .states(contest, sources)
                .assumed(sources.story.profile),
        }
    }

    // The rule of READs, that of BLOCK_STATUSes, or both where there are both.
    fn rules(self, reads: &[u64], story: &Story) -> Text {
        let mut statuses = 0usize;
        for number in reads {
            statuses = statuses.saturating_add(usize::from(story.request(*number).is_status()));
        }
        let (first, second) = (rule_of(false), rule_of(true));
        if (statuses == 0) | (statuses == reads.len()) {
            return self.rule(rule_of(statuses != 0), BREAKER);
        }
        self.line("rule: ", first.sentence)
            .line("rule: ", second.sentence)
            .line("broken by: ", BREAKERS)
            .line("section: ", first.section)
            .line("section: ", second.section)
    }

    // The byte at an offset at first, where that is known.
    fn byte_of_start(self, offset: u64, sources: &Sources<'_>) -> Text {
        match sources.byte_at_first(offset) {
            Some(byte) => {
                let words = "start: {value:02x} at offset {offset}\n";
                self.fill(words, &[u64::from(byte), offset])
            }
            None => self,
        }
    }

    // Each change, when it can have been served, and the byte that it left.
    fn changes(self, contest: &Contest<'_>, sources: &Sources<'_>) -> Text {
        let mut text = self;
        for number in contest.changes {
            let change = sources.story.request(*number);
            let byte = sources.story.byte_by(change, contest.offset);
            text = text.between("change: ", change).byte_or(
                byte,
                "left {value:02x}\n",
                "left a byte that is not known\n",
            );
        }
        text
    }

    // Each READ and BLOCK_STATUS, when it can have been served, and the byte that it got or called zero.
    fn reads(self, contest: &Contest<'_>, story: &Story) -> Text {
        let offset = contest.offset;
        let mut text = self;
        for number in contest.reads {
            let request = story.request_for(*number, Part { offset, length: 1 });
            let label = if request.is_status() {
                "status: "
            } else {
                "read: "
            };
            text = text
                .between(label, &request)
                .got(&found_byte(*number, offset, story));
        }
        text
    }

    fn got(self, came: &Came<'_>) -> Text {
        if came.place == 0 {
            self.say("got no byte\n")
        } else if came.is_status() {
            self.say("called it zero").place_of(came)
        } else {
            self.number("got {value:02x}", u64::from(came.byte))
                .place_of(came)
        }
    }

    // A request with its places, and between which bytes of the capture it can have been served.
    fn between(self, label: &str, request: &Request) -> Text {
        self.asked(label, request)
            .number("; served after byte {after}", request.last)
            .number_or(request.due, " and before byte {before}; ", " or never; ")
    }

    // Which byte the READ with this number got for this offset of the export, or that the BLOCK_STATUS called it zero, and why neither
    // the start nor a change can have left that.
    fn no_source(self, number: u64, offset: u64, sources: &Sources<'_>) -> Text {
        let story = sources.story;
        let read = story.request_for(number, Part { offset, length: 1 });
        let came = found_byte(number, offset, story);
        let byte = came.byte;
        let got = Got { read, byte, offset };
        let text = self
            .rule(rule_of(read.is_status()), BREAKER)
            .asked("message: ", &read)
            .end();
        if came.place == 0 {
            return text;
        }
        text.came(&came, offset, story)
            .not_the_start(&got, sources)
            .not_from_changes(&got, sources)
            .assumed(story.profile)
            .window(&story.recording, came.place)
    }

    // Why the byte is not that of the start: it had another one, or a change of the offset was surely served before the READ.
    fn not_the_start(self, got: &Got, sources: &Sources<'_>) -> Text {
        let byte = sources.byte_at_first(got.offset).unwrap_or(got.byte);
        if byte != got.byte {
            return self.number("not the start: it had {value:02x}\n", u64::from(byte));
        }
        let change = got.change_behind(&NO_REQUEST, sources.story);
        let when = " was surely served before the ";
        self.served_before("not the start: ", change, when, got)
    }

    // A change that was served before the READ, if there is one.
    fn served_before(self, label: &str, change: &Request, when: &str, got: &Got) -> Text {
        if change.is_there() {
            self.numbered(label, change).typed(when, &got.read).end()
        } else {
            self
        }
    }

    // Why the byte is of none of the changes that came before the READ was answered: those that may have left such a byte come first, of
    // these the last that was asked for; and how many more there are than were listed, or that there is none.
    fn not_from_changes(self, got: &Got, sources: &Sources<'_>) -> Text {
        let mut text = self;
        let mut count = 0u64;
        for is_suspect in [true, false] {
            for change in sources.story.requests.iter().rev() {
                if got.is_listed(change, is_suspect, sources.story) {
                    count = count.saturating_add(1);
                    if count <= LISTED {
                        text = text.not_from(change, got, sources);
                    }
                }
            }
        }
        if count == 0 {
            let words = "not from: no change of this offset came before the ";
            text = text
                .typed(words, &got.read)
                .say(" was answered\n")
                .say(DOUBTED);
        }
        let words = "not from: {more} more that changed this offset before\n";
        text.more(count, LISTED, words)
    }

    // Why the READ did not get its byte from a change: it left another one, or was overwritten by a change that was surely served after it
    // and before the READ, if there is one.
    fn not_from(self, change: &Request, got: &Got, sources: &Sources<'_>) -> Text {
        let text = self.asked("not from: ", change);
        let left = sources
            .story
            .byte_by(change, got.offset)
            .unwrap_or(got.byte);
        if left != got.byte {
            return text.number("; it left {value:02x}\n", u64::from(left));
        }
        let later = got.change_behind(change, sources.story);
        text.say_if(!later.is_there(), "; no reason found\n")
            .served_before("; ", later, " was surely served between it and the ", got)
    }
}

impl Got {
    // The first change of the offset that was surely served before the READ, and after a request, if there is one.
    fn change_behind<'a>(&self, after: &Request, story: &'a Story) -> &'a Request {
        for change in &story.requests {
            let is_behind = !after.is_there() | after.is_before(change);
            if change.changes(self.offset) & change.is_before(&self.read) & is_behind {
                return change;
            }
        }
        &NO_REQUEST
    }

    // Whether a request changes the offset and was not surely served after the READ, and may have left the byte or not.
    fn is_listed(&self, change: &Request, is_suspect: bool, story: &Story) -> bool {
        let left = story.byte_by(change, self.offset).unwrap_or(self.byte);
        let is_asked = (left == self.byte) == is_suspect;
        change.changes(self.offset) & !self.read.is_before(change) & is_asked
    }
}
