//! What was negotiated so far.

use crate::answers::judge_answer;
use crate::asked::{Asked, asks_contexts, asks_export};
use crate::notes::Notes;
use crate::numbers::ERR_SHUTDOWN;
use crate::options::{judge_listed, judge_option};
use crate::tls::{Tls, UNKNOWN};
use crate::wildcards::Wildcards;
use nbd_wire::answers::is_error;
use nbd_wire::{Bytes, answers, options};
use std::alloc::Global;
use std::collections::BTreeMap;

/// The places of the ACKs to options with the same data; 0 where none came.
#[derive(Clone, Copy, Drop)]
struct Granted {
    list: u64,
    info: u64,
    list_contexts: u64,
}

/// What was negotiated so far.
#[derive(Drop)]
pub struct Negotiation {
    /// Structured replies are in force.
    pub structured: bool,
    /// STRUCTURED_REPLY was granted.
    pub has_structured_replies: bool,
    /// EXTENDED_HEADERS was granted.
    pub has_extended_headers: bool,
    /// The place of the first ERR_SHUTDOWN; 0 where none came.
    pub shutdown: u64,
    /// INFO or GO got an error.
    pub was_refused: bool,
    /// The first option whose outcome TLS undoes, and its place; 0 where none came.
    pub undone_by_tls: (u32, u64),
    pub tls: Tls,
    /// The option that was chosen last.
    pub asked: Asked,
    /// Where hints are looked for, by their data the options that tell the same when they are sent again, but for SET_META_CONTEXT.
    granted: BTreeMap<Vec<u8>, Granted>,
    /// Where hints are looked for, the data of the last SET_META_CONTEXT that was granted.
    selected: Vec<u8>,
    /// The place of its ACK; 0 where none came, or what it selected holds no longer.
    selected_at: u64,
    wildcards: Wildcards,
}

impl Negotiation {
    /// Before the first option; takes no memory.
    pub fn none(alloc: Global) -> Negotiation {
        Negotiation {
            structured: false,
            has_structured_replies: false,
            has_extended_headers: false,
            shutdown: 0,
            was_refused: false,
            undone_by_tls: (0, 0),
            tls: UNKNOWN,
            asked: Asked::none(alloc),
            granted: BTreeMap::new(alloc),
            selected: Vec::new(alloc),
            selected_at: 0,
            wildcards: Wildcards::none(alloc),
        }
    }

    /// Takes an option, and judges it.
    pub fn choose(&mut self, id: u32, payload: &Bytes, notes: &mut Notes) {
        if asks_contexts(id) {
            self.wildcards.take(&self.asked, notes);
        } else {
            self.wildcards.forget();
        }
        self.asked.renew(id, payload, notes);
        self.asked.was_structured = self.structured;
        judge_listed(&mut self.asked, notes);
        judge_option(self, notes);
        self.forget_behind(id);
    }

    // Notes what an option changes, and forgets what does not hold behind it.
    fn forget_behind(&mut self, id: u32) {
        match id {
            options::STRUCTURED_REPLY | options::EXTENDED_HEADERS => {
                self.note_undone(id);
                self.granted.clear();
                self.selected_at = 0;
            }
            options::STARTTLS => {
                self.granted.clear();
                self.selected_at = 0;
            }
            options::SET_META_CONTEXT => {
                self.note_undone(id);
                self.selected_at = 0;
            }
            _ => {}
        }
    }

    // Notes the first option whose outcome TLS undoes.
    fn note_undone(&mut self, id: u32) {
        if self.undone_by_tls.1 == 0 {
            self.undone_by_tls = (id, self.asked.place);
        }
    }

    /// Judges an answer to the last option, and takes it.
    pub fn answer(&mut self, kind: u32, answer: &[u8], notes: &mut Notes) {
        if kind == answers::ACK && (self.asked.earlier_at != 0 || !self.wildcards.is_empty()) {
            self.asked.told.order(notes);
        }
        judge_answer(self, kind, answer, notes);
        self.tls.take(&self.asked, kind, notes.place);
        if kind == ERR_SHUTDOWN && self.shutdown == 0 {
            self.shutdown = notes.place;
        }
        self.was_refused |= is_error(kind) && asks_export(self.asked.id);
        self.asked.take(kind, answer, notes);
        if kind == answers::ACK {
            self.grant(notes);
        }
    }

    // The last option is granted.
    fn grant(&mut self, notes: &mut Notes) {
        match self.asked.id {
            options::STRUCTURED_REPLY => {
                self.structured = true;
                self.has_structured_replies = true;
            }
            options::EXTENDED_HEADERS => {
                self.structured = true;
                self.has_extended_headers = true;
            }
            id if asks_contexts(id) => self.wildcards.judge(&self.asked, notes),
            _ => {}
        }
        if notes.are_hinting {
            self.remember(notes);
        }
    }

    // Notes that the last option was granted, where it tells the same when it is sent again.
    fn remember(&mut self, notes: &mut Notes) {
        let place = self.asked.granted;
        let mut granted = self.granted_with_data();
        match self.asked.id {
            options::LIST => granted.list = place,
            options::INFO => granted.info = place,
            options::LIST_META_CONTEXT => granted.list_contexts = place,
            options::SET_META_CONTEXT => {
                self.selected.clear();
                notes.keep(self.selected.extend_from_slice(self.asked.data()));
                self.selected_at = place;
                return;
            }
            _ => return,
        }
        self.insert(granted, notes);
    }

    // Notes where options with the data of the last one were granted.
    fn insert(&mut self, granted: Granted, notes: &mut Notes) {
        let mut data = Vec::new(notes.alloc);
        notes.keep(data.extend_from_slice(self.asked.data()));
        notes.keep(self.granted.insert(data, granted));
    }

    // Where options with the data of the last one were granted.
    fn granted_with_data(&self) -> Granted {
        match self.granted.get(self.asked.data()) {
            Some(granted) => *granted,
            None => Granted {
                list: 0,
                info: 0,
                list_contexts: 0,
            },
        }
    }

    /// The place at which the last option was granted before, with the same data; 0 where it was not, or nothing tells that its
    /// answers are the same.
    pub fn granted_before(&self) -> u64 {
        match self.asked.id {
            options::LIST => self.granted_with_data().list,
            options::INFO => self.granted_with_data().info,
            options::LIST_META_CONTEXT => self.granted_with_data().list_contexts,
            options::SET_META_CONTEXT if self.selected.as_slice() == self.asked.data() => {
                self.selected_at
            }
            _ => 0,
        }
    }
}
