//! The rule on the query `base:`, which lists all contexts of that namespace (proto.md, "The `base:` metadata namespace").

use crate::asked::{Asked, asks_contexts};
use crate::breach::UNLABELLED;
use crate::fields::bytes_behind;
use crate::notes::Notes;
use crate::table::Name;
use nbd_wire::{bytes_in, name_in, options};
use std::alloc::Global;
use std::collections::BTreeMap;

/// The name of the export that has none, behind its length.
const UNNAMED: &[u8] = &[0; 4];

/// What was told of a context of the namespace `base`, or of an export by LIST_META_CONTEXT for `base:`.
#[derive(Clone, Copy, Drop)]
struct Known {
    /// Of a context, the option that told it first; of an export, the place of the first such LIST_META_CONTEXT.
    first: u64,
    /// How many of them came from the first one on; of a context, those that told it.
    listings: u64,
}

/// What was told of the contexts of each export since the last option that is neither LIST_META_CONTEXT nor SET_META_CONTEXT.
#[derive(Drop)]
pub struct Wildcards {
    /// The numbers of the exports, from 1, by their names behind their lengths, as the data of options have them.
    exports: BTreeMap<Vec<u8>, u64>,
    /// By the number of an export, of eight bytes, and a context; of the export by no context.
    known: BTreeMap<Vec<u8>, Known>,
}

impl Wildcards {
    /// Nothing; takes no memory.
    pub fn none(alloc: Global) -> Wildcards {
        Wildcards {
            exports: BTreeMap::new(alloc),
            known: BTreeMap::new(alloc),
        }
    }

    /// Whether nothing is known.
    pub fn is_empty(&self) -> bool {
        self.known.is_empty()
    }

    /// Another option came.
    pub fn forget(&mut self) {
        self.exports.clear();
        self.known.clear();
    }

    // The number of the export of an option; 0, under which nothing is known, where it has none.
    fn number_of(&self, asked: &Asked) -> u64 {
        match self.exports.get(export_of(asked)) {
            Some(number) => *number,
            None => 0,
        }
    }

    // The same, of an export that gets the next number where it has none.
    fn numbered(&mut self, asked: &Asked, notes: &mut Notes) -> u64 {
        let number = self.number_of(asked);
        if number != 0 {
            return number;
        }
        let next = (self.exports.len() as u64).saturating_add(1);
        let mut name = Vec::new(notes.alloc);
        notes.keep(name.extend_from_slice(export_of(asked)));
        notes.keep(self.exports.insert(name, next));
        next
    }

    // What is known of a context of an export, or of this, by its key.
    fn known(&self, key: &[u8]) -> Known {
        match self.known.get(key) {
            Some(known) => *known,
            None => Known {
                first: 0,
                listings: 0,
            },
        }
    }

    /// LIST_META_CONTEXT or SET_META_CONTEXT is granted: judges what it told, in order, beside what is known of its export. A
    /// LIST_META_CONTEXT for `base:` does not tell a context that another option is told.
    pub fn judge(&self, asked: &Asked, notes: &mut Notes) {
        let number = self.number_of(asked);
        if is_wildcard(asked) && self.judge_known(number, asked, notes) {
            return;
        }
        let export = self.known(&key_of(number, &[], notes));
        for place in 0..asked.told.count() {
            let context = asked.told.at(place);
            if self.known(&key_of(number, context, notes)).listings != export.listings {
                tell(context, export.first, u64::from(asked.id), notes);
                return;
            }
        }
    }

    // Tells of the first context of its export, of this number, that was told before an option, not to it; whether there is one.
    fn judge_known(&self, number: u64, asked: &Asked, notes: &mut Notes) -> bool {
        let export = number.to_be_bytes();
        for (key, known) in self.known.range(key_of(number, &[], notes)..) {
            let context = bytes_behind(key, export.len());
            if !key.starts_with(&export) {
                return false;
            }
            if !context.is_empty() && !asked.told.has(context) {
                tell(context, asked.place, known.first, notes);
                return true;
            }
        }
        false
    }

    /// Another LIST_META_CONTEXT or SET_META_CONTEXT comes behind an option: takes what this told, if it is one that was granted.
    pub fn take(&mut self, asked: &Asked, notes: &mut Notes) {
        if (asked.granted == 0) | !asks_contexts(asked.id) {
            return;
        }
        let number = self.numbered(asked, notes);
        let export = key_of(number, &[], notes);
        let listings = self.known(&export).listings;
        for place in 0..asked.told.count() {
            let context = key_of(number, asked.told.at(place), notes);
            self.add(asked, context, u64::from(asked.id), listings, notes);
        }
        if is_wildcard(asked) {
            self.add(asked, export, asked.place, listings, notes);
        }
    }

    // Takes what an option told of a context of its export, or of this, by its key, behind so many listings.
    fn add(&mut self, asked: &Asked, key: Vec<u8>, first: u64, listings: u64, notes: &mut Notes) {
        let mut known = self.known(&key);
        if known.first == 0 {
            known.first = first;
        }
        if is_wildcard(asked) & (known.listings == listings) {
            known.listings = listings.saturating_add(1);
        }
        notes.keep(self.known.insert(key, known));
    }
}

// The name of the export of an option, behind its length.
fn export_of(asked: &Asked) -> &[u8] {
    match name_in(asked.data()).len() {
        0 => UNNAMED,
        length => bytes_in(asked.data(), 0, length.saturating_add(4)),
    }
}

// What a context of the export of this number is found by; the export by no context.
fn key_of(number: u64, context: &[u8], notes: &mut Notes) -> Vec<u8> {
    let mut key = Vec::new(notes.alloc);
    notes.keep(key.extend_from_slice(&number.to_be_bytes()));
    notes.keep(key.extend_from_slice(context));
    key
}

// Whether an option is a LIST_META_CONTEXT for `base:`.
fn is_wildcard(asked: &Asked) -> bool {
    (asked.id == options::LIST_META_CONTEXT) & asked.queries.is_wildcard
}

// Tells of a context that a LIST_META_CONTEXT did not tell, and an option did.
fn tell(context: &[u8], place: u64, option: u64, notes: &mut Notes) {
    let (names, numbers) = ([context, &[]], [place, option]);
    notes.add(Name::BaseWildcard, 0, UNLABELLED, names, &numbers);
}
