//! What a refused message is to be compared with.

use crate::refused::form_reason;
use crate::story::Story;
use crate::text::Text;
use crate::told::{Form, NO_MESSAGE, NO_REQUEST, Request, Told};
use nbd_wire::{Part, Side, WireFault};
use std::alloc::AllocError;

/// How many outstanding requests are listed.
const LISTED: u64 = 8;

/// Who is to mend a reply that has begun and not ended where the server took it for ended.
const WITHOUT_DONE: &str =
    "; no DONE (0x1), so the request is outstanding; if the server left DONE out, it is the one to mend\n";

impl Story {
    // The client's message of which some bytes were there, and not all, when so many bytes of the client had come, if its head is in the
    // capture.
    fn arriving(&self, count: u64) -> Told {
        for told in &self.told {
            if is_under_way(told, count) {
                return *told;
            }
        }
        let begun = self.begun(Side::Client);
        if is_under_way(&begun, count) {
            begun
        } else {
            NO_MESSAGE
        }
    }

    /// Whether the reply that the server has begun names a message of the client that was not whole when the reply began.
    pub fn is_answered_early(&self) -> bool {
        let reply = self.begun(Side::Server);
        let arriving = self.arriving(self.recording.count_up_to(Side::Client, reply.first));
        arriving.cookie().is_some() & (arriving.cookie() == reply.cookie())
    }

    /// The last message of a side that asks or answers the request with this number, or none.
    pub fn last_of(&self, side: Side, number: u64) -> &Told {
        let mut last = &NO_MESSAGE;
        for message in &self.told {
            if (message.side == side) & (message.number == number) {
                last = message;
            }
        }
        last
    }
}

// Whether only a part of it was there when so many bytes of the client had come.
fn is_under_way(told: &Told, count: u64) -> bool {
    let end = told.before.saturating_add(told.length);
    (told.side == Side::Client) & (told.before < count) & (count < end)
}

impl Text {
    /// Adds the requests, the chunks and the export that a refused message is to be compared with.
    pub fn related(self, fault: WireFault, told: &Told, story: &Story) -> Text {
        let Some(cookie) = told.cookie() else {
            return self.negotiation_reason(fault, told, story);
        };
        let request = story.answered(cookie);
        match (told.side, fault) {
            (_, WireFault::UnknownCookie) => self
                .answered_before(cookie, story)
                .outstanding(story)
                .arriving(told, story),
            (Side::Server, _) if request.is_there() => self
                .asked("request: ", request)
                .end()
                .reason(fault, told, request, story),
            (Side::Client, WireFault::CookieInUse) if request.is_there() => self
                .asked("outstanding: ", request)
                .end()
                .without_done(story.last_of(Side::Server, request.number), story),
            _ => self,
        }
    }

    // The last message of a reply that has begun and not ended.
    fn without_done(self, reply: &Told, story: &Story) -> Text {
        if reply.is_there() {
            self.told_so_far("reply so far: ", reply, story)
                .say(WITHOUT_DONE)
        } else {
            self
        }
    }

    // Why the server's message does not answer its request, where the words of both do not show it.
    fn reason(self, fault: WireFault, told: &Told, request: &Request, story: &Story) -> Text {
        match (fault, told.form) {
            (WireFault::SuccessOfImproper, _) => self
                .export("export: ", story.export.size, story.export.flags)
                .end()
                .improper(request, story),
            (WireFault::BadChunk, Form::Chunk(head)) => {
                self.wrong(form_reason(&head, story.behind(told), story))
            }
            (WireFault::BadContent, _) => self.bad_content(told, request, story),
            (WireFault::IncompleteRead, _) => {
                self.gap(story.unread(told, request), ", which no chunk brings\n")
            }
            (WireFault::IncompleteStatus, _) => self.missing_statuses(told, request, story),
            (WireFault::BadReplyOffset, Form::Chunk(head)) => {
                let numbers = [head.at.unwrap_or(0), request.head.offset];
                let words =
                    "wrong: its header has offset {came}, that of its request is {offset}\n";
                self.fill(words, &numbers)
            }
            _ => self,
        }
    }

    // The last request with a cookie whose reply is finished, if there is one.
    fn answered_before(self, cookie: u64, story: &Story) -> Text {
        let mut last = &NO_REQUEST;
        for request in &story.requests {
            if (request.head.cookie == cookie) & (request.finished != 0) {
                last = request;
            }
        }
        if last.is_there() {
            self.asked("answered before: ", last)
                .number("; its reply ended at byte {ended}\n", last.finished)
        } else {
            self
        }
    }

    // The first outstanding requests, and how many more there are.
    fn outstanding(self, story: &Story) -> Text {
        let mut text = self;
        let mut count = 0u64;
        for request in &story.requests {
            if request.finished == 0 {
                count = count.saturating_add(1);
                if count <= LISTED {
                    text = text.asked("outstanding: ", request).end();
                }
            }
        }
        text.say_if(count == 0, "outstanding: no request\n")
            .more(count, LISTED, "outstanding: {more} more\n")
    }

    // The client's message that was not whole before a reply began, or its bytes that are no whole head of one, if there are some.
    fn arriving(self, reply: &Told, story: &Story) -> Text {
        let count = story.recording.count_up_to(Side::Client, reply.first);
        let told = story.arriving(count);
        if told.is_there() {
            self.say("arriving: ")
                .message(&told, story)
                .cut(&told, count.saturating_sub(told.before))
                .say(" when the reply began\n")
        } else {
            let before = story.count(Side::Client);
            let first = story.recording.place(Side::Client, before);
            let words =
                "arriving: {count:byte} of the client from byte {first} on, no whole head of a message\n";
            self.fill_if(
                count > before,
                words,
                &[count.saturating_sub(before), first],
            )
        }
    }

    /// Adds from which byte on a message is there, and how many of its bytes have come and how many are missing.
    pub fn cut(self, told: &Told, there: u64) -> Text {
        let missing = told.length.saturating_sub(there);
        let words = "; from byte {first} on, {there} of its {whole} bytes, {missing} missing";
        self.fill(words, &[told.first, there, told.length, missing])
    }

    /// Adds the first bytes that are missing, where there are some, and what of them is said.
    pub fn gap(self, gap: Result<Part, AllocError>, what: &str) -> Text {
        match gap {
            Ok(gap) if gap.length == 0 => self,
            Ok(gap) => self.part("first gap: ", gap).say(what),
            Err(_) => self.refused_if(true),
        }
    }
}
