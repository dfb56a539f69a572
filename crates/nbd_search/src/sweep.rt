//! The search for an order of one range, whose bytes are taken as one value. A READ is served where the value matches, or in its
//! last slot with an open change of its value; a change in that, by a switch to its value or hidden directly before the last switch.

use crate::scene::{NEVER, Patch};
use crate::work::Work;

/// How many operations can be open.
const COUNT: usize = 1024;

const WORDS: usize = COUNT / 64;

#[derive(Clone, Copy, Drop)]
pub enum Outcome {
    Order,
    /// There is none, as came out in this slot.
    NoOrder(usize),
    /// There were too many states, or the search as a whole is over.
    BrokenOff,
}

// One way in which the operations so far can have been served; at first none has been.
#[derive(Clone, Copy, Default, Drop)]
struct State {
    value: Option<u64>,
    // The slot of the last switch, and twice as many as there were switches.
    last: usize,
    turn: usize,
    // What stands against it, by columns: of the open operations the changes that it has served, and the READs that it
    // has not; and how many. In the column of one that is closed all states are alike.
    debt: [u64; WORDS],
    debts: usize,
    // The place of what was served last in the log, behind it.
    log: usize,
}

impl State {
    fn has_served(&self, one: &Patch) -> bool {
        let word = self.debt[one.column / 64 % WORDS];
        (word >> (one.column % 64) & 1 == 1) != one.is_read
    }

    fn flip(&mut self, one: &Patch) {
        let (word, bit) = (one.column / 64 % WORDS, 1 << (one.column % 64));
        self.debt[word] ^= bit;
        self.debts = match self.debt[word] & bit {
            0 => self.debts.saturating_sub(1),
            _ => self.debts.saturating_add(1),
        };
    }

    // Serves an operation, before its last switch or behind it.
    fn serve(&mut self, one: &Patch, behind: usize, log: &mut Vec<Logged>, work: &mut Work) {
        let turn = self.turn.saturating_add(behind);
        work.keep(log, (one.request, turn, self.log));
        self.log = log.len();
        self.flip(one);
    }

    // The change with which what is due is served in a slot: itself, or of the open ones to this value one that is due first.
    fn change(&self, open: &[Patch], one: &Patch, value: Option<u64>, at: usize) -> Option<Patch> {
        if !one.is_read {
            return Some(*one);
        }
        let (mut found, mut due) = (None, NEVER);
        for change in open {
            let is_such = !change.is_read & (change.value == value) & (change.request <= at);
            if is_such & (change.due <= due) & !self.has_served(change) {
                (found, due) = (Some(*change), change.due);
            }
        }
        found
    }

    // Whether no more stands against it than against another one.
    fn owes_no_more(&self, other: &State) -> bool {
        let mut more = 0;
        for i in 0..WORDS {
            more |= self.debt[i] & !other.debt[i];
        }
        more == 0
    }
}

// A request that was served, its turn, and the place behind that of what its state served before, or 0; in order by turns and places.
type Logged = (usize, usize, usize);

#[derive(Drop)]
pub struct Sweep {
    pub work: Work,
    // The operations that have arrived and are not due yet, by their columns; what is closed has no request.
    open: Vec<Patch>,
    closed: Vec<usize>,
    states: Vec<State>,
    log: Vec<Logged>,
    slot: usize,
}

impl Sweep {
    pub fn new(work: Work) -> Sweep {
        Sweep {
            open: Vec::new(work.alloc),
            closed: Vec::new(work.alloc),
            states: Vec::new(work.alloc),
            log: Vec::new(work.alloc),
            slot: 0,
            work,
        }
    }

    /// Serves these operations, which stand by their numbers.
    pub fn run(&mut self, operations: &[Patch]) -> Outcome {
        self.work.progress.searches = self.work.progress.searches.saturating_add(1);
        self.open.clear();
        self.closed.clear();
        self.log.clear();
        self.states.clear();
        self.work.keep(&mut self.states, State::default());
        for one in operations {
            match self.pass_to(one.request) {
                Outcome::Order => self.arrive(*one),
                outcome => return outcome,
            }
        }
        self.pass_to(NEVER)
    }

    // Goes on to a slot: what is due before that is served.
    fn pass_to(&mut self, slot: usize) -> Outcome {
        for _ in 0..=COUNT {
            if self.states.is_empty() {
                return Outcome::NoOrder(self.slot);
            }
            self.work.spend(self.open.len() / 8);
            let (mut next, mut due) = (NEVER, slot);
            for one in &self.open {
                if one.due < due {
                    (next, due) = (one.column, one.due);
                }
            }
            let Some(one) = self.open.get(next).copied() else {
                break;
            };
            let is_wide = self.states.len() as u64 > self.work.limits.states;
            if is_wide | (self.open.len() > COUNT) | self.work.is_over() {
                return Outcome::BrokenOff;
            }
            self.fall_due(&one);
        }
        Outcome::Order
    }

    // An operation arrives: no state has served it, but a READ is served where it matches.
    fn arrive(&mut self, mut one: Patch) {
        one.column = self.closed.pop().unwrap_or(self.open.len());
        match self.open.get_mut(one.column) {
            Some(closed) => *closed = one,
            None => self.work.keep(&mut self.open, one),
        }
        self.work.spend(self.states.len().saturating_add(8));
        for state in self.states.iter_mut() {
            if state.has_served(&one) {
                state.flip(&one);
            }
            if one.reads(state.value) {
                state.serve(&one, 1, &mut self.log, &mut self.work);
            }
        }
    }

    // An operation is in its last slot: each state that has not served it does so, in each way.
    fn fall_due(&mut self, one: &Patch) {
        self.slot = one.due;
        let logged = self.log.len();
        for place in (0..self.states.len()).rev() {
            match self.states.get(place).copied() {
                Some(state) if !state.has_served(one) => {
                    self.states.swap_remove(place);
                    self.branch(&state, one);
                }
                _ => {}
            }
        }
        if self.log.len() > logged {
            self.prune();
        }
        if let Some(open) = self.open.get_mut(one.column) {
            (open.request, open.due) = (NEVER, NEVER);
        }
        self.work.keep(&mut self.closed, one.column);
    }

    // Adds what a state becomes by serving what is due; a READ with an open change to its value, or to an unknown one.
    fn branch(&mut self, state: &State, one: &Patch) {
        for value in [one.value, None] {
            self.put(state, one, value, true);
            if state.turn > 0 && one.request <= state.last {
                self.put(state, one, value, false);
            }
            if !one.is_read {
                break;
            }
        }
    }

    // Adds the state with a change to this value served, by a switch or hidden, and the open READs that match it there.
    fn put(&mut self, state: &State, one: &Patch, value: Option<u64>, is_switch: bool) {
        self.work.spend((self.open.len() / 2).saturating_add(8));
        let slot = if is_switch { self.slot } else { state.last };
        let Some(change) = state.change(&self.open, one, value, slot) else {
            return;
        };
        let (mut state, behind) = (*state, usize::from(is_switch));
        if is_switch {
            (state.value, state.last) = (value, slot);
            state.turn = state.turn.saturating_add(2);
        }
        state.serve(&change, behind, &mut self.log, &mut self.work);
        for open in &self.open {
            if open.reads(value) && open.request <= slot && !state.has_served(open) {
                state.serve(open, behind, &mut self.log, &mut self.work);
            }
        }
        self.work.keep(&mut self.states, state);
    }

    // Drops each state for which another one can stand: one with its value, no earlier last switch and no more against it.
    // That can still hide what this one has changed besides, as it had arrived at its last switch.
    fn prune(&mut self) {
        self.work.spend(self.states.len().saturating_mul(16));
        self.states
            .sort_unstable_by_key(|it| (it.value, !it.last, it.debts, !it.turn));
        let mut count = 0usize;
        for place in 0..self.states.len() {
            if let Some(state) = self.states.get(place).copied() {
                if !self.is_dominated(&state, count) {
                    if let Some(kept) = self.states.get_mut(count) {
                        *kept = state;
                    }
                    count = count.saturating_add(1);
                }
            }
        }
        self.states.truncate(count);
    }

    // Whether one of so many states, which were kept, can stand for this one.
    fn is_dominated(&mut self, state: &State, count: usize) -> bool {
        for place in (0..count).rev() {
            self.work.spend(1);
            match self.states.get(place) {
                Some(other) if other.value != state.value => break,
                Some(other) if other.owes_no_more(state) => return true,
                _ => {}
            }
        }
        false
    }

    /// The requests in the order in which they were served, behind what was left before.
    pub fn trace(&mut self) -> Vec<usize> {
        let mut place = self.states.first().copied().unwrap_or_default().log;
        let mut list = Vec::new(self.work.alloc);
        for _ in 0..self.log.len() {
            let Some((request, turn, before)) = self.log.get(place.wrapping_sub(1)) else {
                break;
            };
            if *before > 0 {
                self.work.keep(&mut list, (*turn, place, *request));
            }
            place = *before;
        }
        list.sort_unstable();
        let mut requests = Vec::new(self.work.alloc);
        for (_, _, request) in &list {
            self.work.keep(&mut requests, *request);
        }
        requests
    }
}
