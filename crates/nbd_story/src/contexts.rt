//! The metadata contexts of a session, the filters of its requests, and their names.

use crate::story::Story;
use crate::text::Text;
use crate::told::{Form, Request, Told};
use nbd_state::Asking;
use nbd_wire::flags::has;
use nbd_wire::{RequestHead, bytes_in, command_flags, commands, context_of, filter_of, first_id};
use std::alloc::AllocError;
use std::collections::BTreeSet;

/// How many descriptors of a status chunk are listed, and how many contexts.
pub const LISTED: u64 = 8;

/// How many bytes of a longer name are told, so that it costs no more each time than a message.
const NAMED: usize = 64;

impl Story {
    /// Whether a metadata context is in force.
    pub fn has_contexts(&self) -> bool {
        self.agreed & !self.selection.is_empty()
    }

    /// Whether the one with this id is.
    pub fn has_context(&self, id: u32) -> bool {
        self.agreed & self.selection.has_id(id)
    }

    /// The filter of a request that has come whole, if it has one: the length of its range in bytes, and the bytes of the ids that it asks.
    pub fn filter_in(&self, told: &Told) -> Option<(u64, &[u8])> {
        let payload = self.behind(told);
        match told.form {
            Form::Request(head) if payload.len() as u64 == told.payload => {
                self.filter_of(&head, payload)
            }
            _ => None,
        }
    }

    /// The same of a request with this head and payload.
    pub fn filter_of<'a>(&self, head: &RequestHead, payload: &'a [u8]) -> Option<(u64, &'a [u8])> {
        let is_flagged = head.extended & has(head.flags, command_flags::PAYLOAD_LEN);
        let is_status = head.command == commands::BLOCK_STATUS;
        if is_flagged & is_status & self.has_contexts() {
            filter_of(payload)
        } else {
            None
        }
    }

    // The ids of the contexts in force that a request asks.
    fn asked(&self, request: &Request) -> Result<BTreeSet<u32>, AllocError> {
        let asking = self.asking(&request.head, self.payload(request))?;
        if asking.told.filtered {
            Ok(asking.told.ids)
        } else {
            self.selection.ids.clone()
        }
    }

    // Those of them of which its reply has no status, with this chunk.
    fn missing(&self, chunk: &Told, request: &Request) -> Result<BTreeSet<u32>, AllocError> {
        let mut missing = self.asked(request)?;
        let status = self.status_in(chunk);
        if status.count() != 0 {
            missing.remove(&status.id);
        }
        for message in &self.told {
            let status = self.status_in(message);
            if message.answers(request.number) & (status.count() != 0) {
                missing.remove(&status.id);
            }
        }
        Ok(missing)
    }

    /// What a request with this head and payload asks of the export.
    pub fn asking(&self, head: &RequestHead, payload: &[u8]) -> Result<Asking, AllocError> {
        let flags = self.export.flags;
        self.selection
            .asking(self.alloc(), self.agreed, flags, head, payload)
    }

    /// Whether a request asks the context in force with this id.
    pub fn asks(&self, request: &Request, id: u32) -> bool {
        let Some((_, ids)) = self.filter_of(&request.head, self.payload(request)) else {
            return true;
        };
        for number in 0..count_of_ids(ids) {
            if id_in(ids, number) == id {
                return true;
            }
        }
        false
    }
}

// How many ids these bytes are.
fn count_of_ids(ids: &[u8]) -> u64 {
    ids.len() as u64 / 4
}

// The id with this number, from 0.
fn id_in(ids: &[u8], number: u64) -> u32 {
    match first_id(bytes_in(ids, number.saturating_mul(4) as usize, 4)) {
        Some((id, _)) => id,
        None => 0,
    }
}

impl Text {
    /// A context by its name, if the last SET_META_CONTEXT selected it, and its id: `base:allocation (1)`.
    pub fn context(self, words: &str, id: u32, story: &Story) -> Text {
        match story.names.get(&id) {
            Some(told) => self.context_in(words, story.behind(told)),
            None => self.say(words).number("context {context}", u64::from(id)),
        }
    }

    /// What the data of an answer say of a context, behind words.
    pub fn context_in(self, words: &str, data: &[u8]) -> Text {
        match context_of(data) {
            Some((id, name)) => self.say(words).named(name, id),
            None => self,
        }
    }

    // A name that is text on a line, or else its digits; of a long one the first of its bytes.
    fn named(self, name: &[u8], id: u32) -> Text {
        let first = name.get(..NAMED).unwrap_or(name);
        let text = match str::from_utf8(first) {
            Ok(words) if are_graphic(first) => self.say(words),
            _ => self.digits(first),
        };
        text.say_if(name.len() > NAMED, "..")
            .number(" ({context})", u64::from(id))
    }

    fn digits(self, bytes: &[u8]) -> Text {
        let mut text = self;
        for byte in bytes {
            text = text.number("{:02x}", u64::from(*byte));
        }
        text
    }

    /// The first contexts that a request with this filter asks, and how many more there are.
    pub fn filter(self, told: &Told, story: &Story) -> Text {
        let Some((_, ids)) = story.filter_in(told) else {
            return self;
        };
        let count = count_of_ids(ids);
        let mut text = self.say_if(count == 0, ", asks no context");
        let mut mark = ", asks ";
        for number in 0..count.min(LISTED) {
            text = text.context(mark, id_in(ids, number), story);
            mark = "; ";
        }
        text.more(count, LISTED, "; {more} more")
    }

    /// What is wrong with the filter of a request that has one: its first id that no client sends.
    pub fn bad_filter(self, request: &Request, story: &Story) -> Text {
        let mut seen = BTreeSet::new(story.alloc());
        let filter = story.filter_of(&request.head, story.payload(request));
        let (_, ids) = filter.unwrap_or((0, &[] as &[u8]));
        for number in 0..count_of_ids(ids) {
            let id = id_in(ids, number);
            if !story.has_context(id) {
                let words = "wrong: its filter asks context {context}, which is not in force\n";
                return self.number(words, u64::from(id));
            }
            match seen.insert(id) {
                Ok(true) => {}
                Ok(false) => {
                    let words = "wrong: its filter asks context {context} twice\n";
                    return self.number(words, u64::from(id));
                }
                Err(_) => return self.refused_if(true),
            }
        }
        self
    }

    /// The contexts in force that a request asks and of which its reply has no status, with the refused chunk.
    pub fn missing_statuses(self, chunk: &Told, request: &Request, story: &Story) -> Text {
        let Ok(missing) = story.missing(chunk, request) else {
            return self.refused_if(true);
        };
        let mut text = self;
        let mut count = 0u64;
        for id in &missing {
            count = count.saturating_add(1);
            if count <= LISTED {
                text = text.context("missing: the status of ", *id, story).end();
            }
        }
        text.more(count, LISTED, "missing: {more} more\n")
    }
}

// Whether each of these bytes is a letter, a digit or another sign of ASCII.
fn are_graphic(bytes: &[u8]) -> bool {
    for byte in bytes {
        if !byte.is_ascii_graphic() {
            return false;
        }
    }
    true
}
