//! What was found so far.

use crate::breach::{Breach, Label, UNLABELLED};
use crate::line::Line;
use crate::table::{Name, Rule};
use crate::transmission::Request;
use nbd_wire::Side;
use std::alloc::Global;
use std::collections::{BTreeMap, BTreeSet};

/// The first message of a side that broke a rule, and how many more did.
#[derive(Drop)]
pub struct Finding {
    /// The place in the capture of its last byte.
    pub place: u64,
    /// Its line in `show`, from 1; 0 before the first message.
    pub message: u64,
    /// The request that the sentence speaks of, from 1; 0 where it speaks of none.
    pub request: u64,
    pub side: Side,
    pub text: String,
    /// How many later messages of the side broke the rule.
    pub more: u64,
    /// The place of the last of them.
    last: u64,
}

/// What was found so far, by rule and side; and the message that is judged.
#[derive(Drop)]
pub struct Notes {
    /// What takes the memory for what is found, and for what the rules ask of earlier messages.
    pub alloc: Global,
    pub found: BTreeMap<u64, Finding>,
    /// The places of what was found, each with its key.
    pub places: BTreeSet<(u64, u64)>,
    /// The place of the last byte of the message that is judged.
    pub place: u64,
    message: u64,
    side: Side,
    /// The request that is spoken of, from 1, and its type; 0 where none is.
    request: u64,
    command: u16,
    /// Hints are looked for.
    pub are_hinting: bool,
    /// Memory was refused for something of it, or for what the rules ask of earlier messages.
    pub is_refused: bool,
}

impl Notes {
    /// Nothing was found; takes no memory.
    pub fn none(alloc: Global, are_hinting: bool) -> Notes {
        Notes {
            alloc,
            found: BTreeMap::new(alloc),
            places: BTreeSet::new(alloc),
            place: 0,
            message: 0,
            side: Side::Server,
            request: 0,
            command: 0,
            are_hinting,
            is_refused: false,
        }
    }

    /// The next message is judged. It is of this side, and its last byte is at this place.
    pub fn begin(&mut self, side: Side, place: u64) {
        self.message = self.message.saturating_add(1);
        self.end(side, place);
    }

    /// The end of the capture is judged, which has so many bytes: what this side left undone.
    pub fn end(&mut self, side: Side, place: u64) {
        self.side = side;
        self.place = place;
        self.request = 0;
    }

    /// What is told from now on of the message speaks of a request.
    pub fn speak_of(&mut self, request: &Request) {
        self.request = request.number;
        self.command = request.head.command;
    }

    /// Takes what came of something that takes memory: notes where that was refused.
    pub fn keep<T: Drop, E: Drop>(&mut self, kept: Result<T, E>) {
        self.is_refused |= kept.is_err();
    }

    /// Notes that the message breaks a rule, where it does. Of a message that breaks it more than once the first is told.
    pub fn note(&mut self, name: Name, holds: bool) {
        self.note_three(name, holds, 0, 0, 0);
    }

    /// The same of a rule whose sentence has a number.
    pub fn note_one(&mut self, name: Name, holds: bool, number: u64) {
        self.note_three(name, holds, number, 0, 0);
    }

    /// The same of one with two numbers.
    pub fn note_two(&mut self, name: Name, holds: bool, first: u64, second: u64) {
        self.note_three(name, holds, first, second, 0);
    }

    /// The same of one with three.
    pub fn note_three(&mut self, name: Name, holds: bool, first: u64, second: u64, third: u64) {
        if holds {
            self.tell(name, 0, [first, second, third]);
        }
    }

    /// Notes that the message breaks a rule, with one of its sentences, from 0, and the numbers of that.
    pub fn tell(&mut self, name: Name, sentence: usize, numbers: [u64; 3]) {
        self.add(name, sentence, UNLABELLED, [&[], &[]], &numbers);
    }

    /// The same as `note_one`, of a sentence that names something beside its number.
    pub fn note_named(
        &mut self,
        name: Name,
        holds: bool,
        first: &[u8],
        second: &[u8],
        number: u64,
    ) {
        if holds {
            self.add(name, 0, UNLABELLED, [first, second], &[number]);
        }
    }

    /// The same as `note_one`, of a sentence that speaks of a string.
    pub fn note_string(&mut self, name: Name, holds: bool, string: Label, number: usize) {
        if holds {
            self.add(name, 0, string, [&[], &[]], &[number as u64]);
        }
    }

    /// Notes how the message breaks a rule.
    pub fn add(
        &mut self,
        name: Name,
        sentence: usize,
        string: Label,
        names: [&[u8]; 2],
        numbers: &[u64],
    ) {
        let key = key_of(name as usize, self.side);
        match self.found.get_mut(&key) {
            Some(finding) => finding.repeat(self.place),
            None => self.insert(
                key,
                &Breach {
                    sentence,
                    request: self.request,
                    command: self.command,
                    string,
                    numbers,
                    names,
                },
            ),
        }
    }

    // Notes the first breach of a rule by a side.
    fn insert(&mut self, key: u64, breach: &Breach<'_, '_>) {
        let sentence = Rule::in_row(row_of(key)).sentence(breach.sentence);
        let mut line = Line::new(self.alloc);
        line.sentence(sentence, breach);
        self.is_refused |= line.is_refused;
        let finding = Finding {
            place: self.place,
            message: self.message,
            request: breach.request,
            side: self.side,
            text: line.text,
            more: 0,
            last: self.place,
        };
        let found = self.found.insert(key, finding);
        self.keep(found);
        let placed = self.places.insert((self.place, key));
        self.keep(placed);
    }
}

impl Finding {
    // A message at this place breaks the rule too, if it is not the one that did last.
    fn repeat(&mut self, place: u64) {
        if place != self.last {
            self.last = place;
            self.more = self.more.saturating_add(1);
        }
    }
}

// What a rule and a side are found by.
fn key_of(row: usize, side: Side) -> u64 {
    (row as u64)
        .saturating_mul(2)
        .saturating_add(u64::from(side == Side::Server))
}

/// The row of the rule that is found by this key.
pub fn row_of(key: u64) -> usize {
    (key / 2) as usize
}
