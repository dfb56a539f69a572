//! Why a session was refused while its bytes were read.

use crate::rules::{Breaker, Rule, wire_rule};
use crate::story::Story;
use crate::text::Text;
use crate::told::{Form, NO_MESSAGE, Told};
use nbd_wire::names::{Name, name_in};
use nbd_wire::{Profile, Side, WireFault, chunks, failure_of, head_lengths, options};

/// Who broke a rule where a request was answered before it was whole.
const EARLY: &str =
    "the server, if it answered before the request was whole; or the client, if it sent fewer bytes than the request says";

/// What the magic number of a greeting in oldstyle is, behind that of each greeting.
const OLDSTYLE: &[u8] = b"\x00\x00\x42\x02\x81\x86\x12\x53";

/// Who broke a rule where nobody broke one that proto.md makes a MUST.
const NOT_FIXED: &str = "nobody; nbdcheck follows fixed newstyle alone";

const OF_OLDSTYLE: &str = "nobody; the server speaks oldstyle, which nbdcheck does not follow";

const HASTY: &str =
    "nobody; nbdcheck waits for all data of an option before its reply, which proto.md does not ask";

const EAGER: &str =
    "nobody; nbdcheck waits for the answer to EXPORT_NAME, and proto.md has options alone wait for it";

const UNKNOWN_ERROR: &str =
    "nobody; the profile base knows the errors ERROR and ERROR_OFFSET alone, and proto.md lets a client go on behind others";

/// The magic number of a request, without and with an extended header.
const REQUEST: &[u8] = b"\x25\x60\x95\x13";

const EXTENDED_REQUEST: &[u8] = b"\x21\xe4\x1c\x71";

const OF_READ: &str =
    "nobody, where the recording was cut off, or where the server failed to read: it has to disconnect here then; else the server";

const SHOULD: &str = "the client, a SHOULD";

/// What an option is for that a server may grant and nbdcheck does not follow in some profile; which profile goes further, where the other
/// one does; and how its client or its server is told to do without.
const EXTENSIONS: &[Name] = &[
    (
        options::STARTTLS,
        "TLS\n\
        record without TLS: a client of nbd: in place of nbds:, qemu without tls-creds, nbdkit --tls=off",
    ),
    (
        options::LIST_META_CONTEXT,
        "metadata contexts, which block status needs\n\
        try --profile wide, which follows metadata contexts and block status; or \n\
        record without listing contexts: nbdinfo --size, nbdsh without opt_list_meta_context; qemu-nbd --list always asks",
    ),
    (
        options::SET_META_CONTEXT,
        "metadata contexts, which block status needs\n\
        try --profile wide, which follows metadata contexts and block status; or \n\
        record without block status: nbdsh without --base-allocation and add_meta_context, nbdcopy --no-extents; qemu always asks, \
        so serve without structured replies: nbdkit --no-sr",
    ),
    (
        options::EXTENDED_HEADERS,
        "extended headers, of 64 bits\n\
        try --profile wide, which follows extended headers; or \n\
        record without them: in libnbd h.set_request_extended_headers(False), or a server that has none",
    ),
];

/// The same of another option.
const EXTENSION: &str = "an extension that nbdcheck has no name for\n\
    record with a client that does not ask for it, or a server that refuses it";

/// What of a message with an extended header nbdcheck does not follow: how a session is recorded without it.
const BEYOND: &str = "record requests and chunks whose payload has at most 4294967295 bytes";

impl Text {
    /// Adds why the byte at this place was refused.
    pub fn wire_fault(self, at: u64, fault: WireFault, story: &Story) -> Text {
        let text = self.wire_rule(at, fault, story);
        let text = match (fault, story.recording.sender(at)) {
            (WireFault::Unfinished, _) => text
                .open_message(Side::Client, at, fault, story)
                .open_message(Side::Server, at, fault, story),
            (_, Some(side)) => text.open_message(side, at, fault, story),
            (_, None) => text,
        };
        text.told(
            "before it: ",
            story.told.last().unwrap_or(&NO_MESSAGE),
            story,
        )
        .window(&story.recording, at)
    }

    // The rule of a fault that was seen at this place, and who broke it, where it judges the session.
    fn wire_rule(self, at: u64, fault: WireFault, story: &Story) -> Text {
        let rule = wire_rule(fault);
        match fault {
            WireFault::OutOfProfile => self.not_judged(&rule).instead(story),
            WireFault::ExportTooLarge => self.not_judged(&rule),
            _ => self.rule(&rule, story.breaker(at, fault, rule.breaker)),
        }
    }

    // What nbdcheck does not follow.
    fn not_judged(self, rule: &Rule) -> Text {
        self.line("not judged: ", rule.sentence)
            .line("section: ", rule.section)
    }

    // What to do about an option that the server granted last and that nbdcheck does not follow: how the session is followed further, or
    // recorded without it; or about what a message with an extended header says.
    fn instead(self, story: &Story) -> Text {
        if story.is_transmission {
            return self.line("instead: ", BEYOND);
        }
        let words = name_in(EXTENSIONS, story.option).unwrap_or(EXTENSION);
        let (purpose, behind) = words.split_once("\n").unwrap_or((words, ""));
        let (wider, advice) = behind.split_once("\n").unwrap_or(("", behind));
        self.say("granted: ")
            .option(story.option)
            .line(", for ", purpose)
            .say("instead: ")
            .say_if(story.profile == Profile::Base, wider)
            .line("", advice)
    }

    // The message of a side that was not complete, where there is one, or its bytes that are no whole head of one.
    fn open_message(self, side: Side, at: u64, fault: WireFault, story: &Story) -> Text {
        let taken = story.came(side, at);
        let told = story.begun(side);
        if taken == 0 {
            self
        } else if told.is_there() {
            self.begun(&told, story).related(fault, &told, story)
        } else {
            self.headless(side, taken, matches!(fault, WireFault::BadMagic), story)
        }
    }

    // A message that a side has begun.
    fn begun(self, told: &Told, story: &Story) -> Text {
        let there = story.recording.bytes_from(told.side, told.before).len() as u64;
        if told.length <= there {
            self.told("message: ", told, story)
        } else {
            self.say("message: ")
                .message(told, story)
                .cut(told, there)
                .end()
        }
    }

    // The bytes of a side, so many, that are no whole head of a message.
    fn headless(self, side: Side, taken: u64, is_bad: bool, story: &Story) -> Text {
        let before = story.count(side);
        let last = before.saturating_add(taken).saturating_sub(1);
        let words = if is_bad {
            ", which begin no message; "
        } else {
            ", no whole head of a message; "
        };
        let first = story.recording.place(side, before);
        self.number("message: {length:byte} of ", taken)
            .say(breaker_name(Breaker::Sender, Some(side)))
            .places(words, first, story.recording.place(side, last))
            .end()
            .say_if(is_bad, magic_of(side, story))
    }
}

impl Story {
    // How many bytes of a side had come behind its messages up to this place.
    fn came(&self, side: Side, at: u64) -> u64 {
        let count = self.recording.count_up_to(side, at);
        count.saturating_sub(self.count(side))
    }

    // Who broke the rule of a fault that was seen at this place.
    fn breaker(&self, at: u64, fault: WireFault, breaker: Breaker) -> &'static str {
        let sender = self.recording.sender(at);
        let reply = self.begun(Side::Server);
        let is_reading = matches!(reply.form, Form::Simple(_)) & (reply.payload != 0);
        let front = self
            .recording
            .bytes_from(Side::Server, OLDSTYLE.len() as u64);
        match fault {
            WireFault::NotFixedNewstyle => NOT_FIXED,
            WireFault::CookieInUse => SHOULD,
            WireFault::BadMagic if front.starts_with(OLDSTYLE) => OF_OLDSTYLE,
            WireFault::OutOfTurn if self.is_hasty(at, sender) => HASTY,
            WireFault::OutOfTurn if self.is_eager() => EAGER,
            WireFault::BadChunk if self.has_unknown_error(&reply) => UNKNOWN_ERROR,
            WireFault::Unfinished if is_reading => OF_READ,
            WireFault::UnknownCookie if self.is_answered_early() => EARLY,
            _ => breaker_name(breaker, sender),
        }
    }

    // Whether a request stands where the server has to answer EXPORT_NAME.
    fn is_eager(&self) -> bool {
        let magic = if self.is_extended {
            EXTENDED_REQUEST
        } else {
            REQUEST
        };
        let bytes = self
            .recording
            .bytes_from(Side::Client, self.count(Side::Client));
        (self.option == options::EXPORT_NAME) & !self.is_transmission & bytes.starts_with(magic)
    }

    // Whether a chunk has the type of an error that Base does not know, and the form of one.
    fn has_unknown_error(&self, reply: &Told) -> bool {
        let is_formed = failure_of(chunks::ERROR, self.behind(reply)).is_some();
        match reply.form {
            Form::Chunk(head) if self.profile == Profile::Base => {
                is_formed & (head.kind >= chunks::FIRST_ERROR) & (head.kind != chunks::ERROR_OFFSET)
            }
            _ => false,
        }
    }

    // Whether the server sent this byte, and the head of an option had come and its data had not.
    fn is_hasty(&self, at: u64, sender: Option<Side>) -> bool {
        let has_head = self.came(Side::Client, at) >= head_lengths::CHOICE as u64;
        let is_choice = matches!(self.begun(Side::Client).form, Form::Choice(_));
        (sender == Some(Side::Server)) & has_head & is_choice
    }
}

// The magic number with which the next message of a side can begin.
fn magic_of(side: Side, story: &Story) -> &'static str {
    match (side, story.is_transmission) {
        (Side::Client, true) if story.is_extended =>
            "expected: 21e41c71, of a request with an extended header\n",
        (Side::Server, true) if story.is_extended =>
            "expected: 6e8a278c, of a chunk with an extended header\n",
        (Side::Client, true) => "expected: 25609513, of a request\n",
        (Side::Client, false) => "expected: 49484156454f5054, of an option\n",
        (Side::Server, true) => "expected: 67446698, of a simple reply, or 668e33ef, of a chunk\n",
        (Side::Server, false) if story.count(side) == 0 =>
            "expected: 4e42444d4147494349484156454f5054, of a greeting\n",
        (Side::Server, false) => "expected: 0003e889045565a9, of an option reply\n",
    }
}

// Who broke a rule of the protocol; `sender` sent the byte at which that was seen.
fn breaker_name(breaker: Breaker, sender: Option<Side>) -> &'static str {
    match (breaker, sender) {
        (Breaker::Client, _) | (Breaker::Sender, Some(Side::Client)) => "the client",
        (Breaker::Nobody, _) => "nobody, where the recording was cut off; else the sender",
        _ => "the server",
    }
}
