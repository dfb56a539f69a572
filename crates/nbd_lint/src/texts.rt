//! Texts one behind the other.

use crate::notes::Notes;
use nbd_wire::bytes_in;
use std::alloc::Global;
use std::cmp::Ordering;

/// Texts one behind the other, in little memory.
#[derive(Drop)]
pub struct Texts {
    bytes: Vec<u8>,
    /// Where each of them begins and ends.
    bounds: Vec<(usize, usize)>,
}

impl Texts {
    /// None; takes no memory.
    pub fn none(alloc: Global) -> Texts {
        Texts {
            bytes: Vec::new(alloc),
            bounds: Vec::new(alloc),
        }
    }

    /// Adds one.
    pub fn add(&mut self, text: &[u8], notes: &mut Notes) {
        let begin = self.bytes.len();
        notes.keep(self.bytes.extend_from_slice(text));
        notes.keep(self.bounds.push((begin, self.bytes.len())));
    }

    pub fn count(&self) -> usize {
        self.bounds.len()
    }

    /// The one in this place, from 0.
    pub fn at(&self, place: usize) -> &[u8] {
        match self.bounds.get(place) {
            Some((begin, end)) => bytes_in(&self.bytes, *begin, end.saturating_sub(*begin)),
            None => &[],
        }
    }

    /// Puts them in their order.
    pub fn order(&mut self, notes: &mut Notes) {
        let mut ordered = self.ordered(notes);
        std::mem::swap(self, &mut ordered);
    }

    // The same texts, in their order.
    fn ordered(&self, notes: &mut Notes) -> Texts {
        let mut ordered = Texts::none(notes.alloc);
        let mut texts = Vec::new(notes.alloc);
        for place in 0..self.count() {
            notes.keep(texts.push(self.at(place)));
        }
        texts.sort_unstable();
        for text in &texts {
            ordered.add(text, notes);
        }
        ordered
    }

    /// Whether one of them is this, where they stand in their order.
    pub fn has(&self, text: &[u8]) -> bool {
        let mut first = 0usize;
        let mut count = self.count();
        for _ in 0..usize::BITS {
            let half = count / 2;
            let middle = first.saturating_add(half);
            if count == 0 {
                break;
            }
            match self.at(middle).cmp(text) {
                Ordering::Equal => return true,
                Ordering::Greater => count = half,
                Ordering::Less => {
                    first = middle.saturating_add(1);
                    count = count.saturating_sub(half).saturating_sub(1);
                }
            }
        }
        false
    }

    /// The first of them that others have not, where those stand in their order.
    pub fn first_missing(&self, others: &Texts) -> Option<&[u8]> {
        for place in 0..self.count() {
            if !others.has(self.at(place)) {
                return Some(self.at(place));
            }
        }
        None
    }
}
