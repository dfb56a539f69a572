//! How far a search is, for a person at a terminal.

use std::io::{Stderr, Write};

/// A line that says how far a search is, and that is written anew in its place.
#[derive(Clone, Copy, Drop)]
pub struct Progress {
    out: Option<Stderr>,
    is_shown: bool,
    /// All requests were put into an order and replayed so many times.
    pub(crate) rounds: u64,
    /// So many ranges were searched; each time that requests are left out of one counts.
    pub(crate) searches: u64,
}

impl Progress {
    /// A line on standard error; without it nothing is said.
    pub fn new(out: Option<Stderr>) -> Progress {
        Progress {
            out,
            is_shown: false,
            rounds: 0,
            searches: 0,
        }
    }

    /// Says how far the search is. A writer that fails is of no matter.
    pub(crate) fn show(&mut self) {
        if let Some(mut out) = self.out {
            self.is_shown = true;
            let (rounds, searches) = (self.rounds, self.searches);
            let _ = write!(out, "\r\x1b[Kround {rounds}: {searches} searches of ranges");
        }
    }

    /// Takes the line away, where one was written.
    pub fn end(&mut self) {
        if let (Some(mut out), true) = (self.out, self.is_shown) {
            self.is_shown = false;
            let _ = write!(out, "\r\x1b[K");
        }
    }
}
