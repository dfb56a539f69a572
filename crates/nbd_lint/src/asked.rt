//! An option, and what was answered to it.

use crate::contexts::{is_base_leaf, name_in};
use crate::fields::number_in;
use crate::notes::Notes;
use crate::queries::{Common, NO_QUERIES};
use crate::sizes::{Announced, NOTHING};
use crate::texts::Texts;
use nbd_wire::{Bytes, Info, answers, go_of, info_of, options, queries_of};
use std::alloc::Global;

/// An option that the client chose, and its answers so far.
#[derive(Drop)]
pub struct Asked {
    /// Its number; 0 before the first option.
    pub id: u32,
    pub payload: Bytes,
    /// The place in the capture of its last byte.
    pub place: u64,
    /// Structured replies were in force when it came.
    pub was_structured: bool,
    /// Its data has its form, where it is one that lists something.
    pub is_formed: bool,
    /// What its answers are compared with: of a GO with the data of an INFO just before it, which was granted, the infos that this
    /// got, in order; of a SET_META_CONTEXT those of its queries that begin with `base:`, in order where each does. Where the INFO
    /// was not granted, or a query begins otherwise, nothing is judged by them.
    pub compared: Texts,
    /// The place of the ACK to that INFO; 0 of another option.
    pub earlier_at: u64,
    /// What its queries have in common.
    pub queries: Common,
    /// How many answers came.
    pub answers: u64,
    /// How many of them are infos.
    pub infos: u64,
    /// The types 0 to 3 of these infos, a bit each.
    pub kinds: u64,
    /// The size of the export in the last info that has it, in bytes.
    pub size: Option<u64>,
    pub sizes: Announced,
    /// The infos, of INFO and of such a GO; the contexts of the namespace `base` with a leaf-name, of LIST_META_CONTEXT and
    /// SET_META_CONTEXT. In their order once the option is granted and they are compared with others.
    pub told: Texts,
    /// The place of the ACK; 0 where none came.
    pub granted: u64,
}

impl Asked {
    /// Before the first option; takes no memory.
    pub fn none(alloc: Global) -> Asked {
        Asked {
            id: 0,
            is_formed: true,
            payload: Bytes::none(),
            place: 0,
            was_structured: false,
            compared: Texts::none(alloc),
            earlier_at: 0,
            queries: NO_QUERIES,
            answers: 0,
            infos: 0,
            kinds: 0,
            size: None,
            sizes: NOTHING,
            told: Texts::none(alloc),
            granted: 0,
        }
    }

    /// Its data.
    pub fn data(&self) -> &[u8] {
        self.payload.as_slice()
    }

    /// Becomes the next option, with these data; keeps of the one before it what its answers are compared with.
    pub fn renew(&mut self, id: u32, payload: &Bytes, notes: &mut Notes) {
        let is_same = id == options::GO && self.id == options::INFO && self.payload == *payload;
        self.earlier_at = 0;
        self.compared = Texts::none(notes.alloc);
        if is_same {
            self.earlier_at = self.granted;
            std::mem::swap(&mut self.compared, &mut self.told);
            self.compared.order(notes);
        }
        self.told = Texts::none(notes.alloc);
        self.id = id;
        self.is_formed = is_formed(id, payload.as_slice());
        self.place = notes.place;
        self.queries = NO_QUERIES;
        self.answers = 0;
        self.infos = 0;
        self.kinds = 0;
        self.size = None;
        self.sizes = NOTHING;
        self.granted = 0;
        match payload.share() {
            Ok(shared) => self.payload = shared,
            Err(_) => notes.is_refused = true,
        }
    }

    /// Takes an answer to it.
    pub fn take(&mut self, kind: u32, answer: &[u8], notes: &mut Notes) {
        self.answers = self.answers.saturating_add(1);
        match kind {
            answers::INFO => self.take_info(answer, notes),
            answers::META_CONTEXT => {
                let name = name_in(answer);
                if is_base_leaf(name) {
                    self.told.add(name, notes);
                }
            }
            answers::ACK => self.granted = notes.place,
            _ => {}
        }
    }

    // Takes an info.
    fn take_info(&mut self, answer: &[u8], notes: &mut Notes) {
        self.infos = self.infos.saturating_add(1);
        self.kinds |= bit_of(answer);
        self.sizes = self.sizes.with(answer);
        if let Some(Info::Export { size, .. }) = info_of(answer) {
            self.size = Some(size);
        }
        if self.id == options::INFO || self.earlier_at != 0 {
            self.told.add(answer, notes);
        }
    }
}

/// Whether an option is LIST_META_CONTEXT or SET_META_CONTEXT.
pub fn asks_contexts(id: u32) -> bool {
    id == options::LIST_META_CONTEXT || id == options::SET_META_CONTEXT
}

/// Whether an option is INFO or GO.
pub fn asks_export(id: u32) -> bool {
    id == options::INFO || id == options::GO
}

/// The bit of an info's type, of those that proto.md has; 0 of another.
pub fn bit_of(answer: &[u8]) -> u64 {
    match number_in(answer, 0, 2) {
        kind if answer.len() < 2 || kind > 3 => 0,
        kind => 1 << kind,
    }
}

// Whether the data of an option has its form, where it is one that lists something.
fn is_formed(id: u32, payload: &[u8]) -> bool {
    if asks_contexts(id) {
        queries_of(payload).is_some()
    } else {
        !asks_export(id) || go_of(payload).is_some()
    }
}
