//! What a search may cost, and why it is over.

use crate::progress::Progress;
use crate::proposal::{Place, Reason};
use std::alloc::Global;

/// How many steps pass before it is told again how far a search is.
pub const PAUSE: u64 = 1 << 23;

/// What a search may cost.
#[derive(Clone, Copy, Drop)]
pub struct Limits {
    /// How many states the search of one range may have at once.
    pub states: u64,
    /// How many steps may be taken in all, each of some nanoseconds, and of a few bytes of memory.
    pub steps: u64,
}

/// The steps that are left, and where the search is.
#[derive(Drop)]
pub struct Work {
    pub alloc: Global,
    /// What the search may cost; of the steps those that are left.
    pub limits: Limits,
    pub place: Place,
    /// Why it is broken off, if it is.
    pub end: Option<Reason>,
    /// Memory was refused: what the search has come to is of no use.
    pub is_lost: bool,
    /// Where it is told how far the search is, and below how many steps that are left it is told again.
    pub progress: Progress,
    pub pause: u64,
}

impl Work {
    /// Takes so many steps.
    pub fn spend(&mut self, steps: usize) {
        self.limits.steps = self.limits.steps.saturating_sub(steps as u64);
    }

    /// Whether the search is broken off, as it is where no steps are left. Now and then this says how far it is.
    pub fn is_over(&mut self) -> bool {
        let left = self.limits.steps;
        if left < self.pause {
            self.pause = left.saturating_sub(PAUSE);
            self.progress.show();
        }
        self.end = self.end.or((left == 0).then_some(Reason::Steps));
        self.is_lost || self.end.is_some()
    }

    /// Adds an item to a list, which costs some steps too, or notes that memory was refused.
    pub fn keep<T: Drop>(&mut self, list: &mut Vec<T>, item: T) {
        self.spend(8);
        keep(list, item, &mut self.is_lost);
    }
}

/// Adds an item to a list, or notes that memory was refused.
pub fn keep<T: Drop>(list: &mut Vec<T>, item: T, is_lost: &mut bool) {
    *is_lost |= list.push(item).is_err();
}
