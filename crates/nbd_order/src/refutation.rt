//! Why no order explains a session.

use crate::offsets::start_byte;
use nbd_export::Start;
use nbd_search::keep;
use nbd_session::Transcript;
use nbd_wire::Profile;
use std::alloc::Global;

/// The most states that a refutation may have.
pub const MOST_STATES: usize = 1_000;

/// Why no order explains a session: at one offset these READs and changes can be served in no order so that each of the READs
/// gets its byte, and no other change can help. A BLOCK_STATUS that calls the offset zero is one of the READs, and gets 0. All
/// numbers are those of requests, counted from 1, in rising order.
#[derive(Drop)]
pub struct Refutation {
    /// In bytes from the export's start.
    pub offset: u64,
    /// READs of the offset that succeeded, and such BLOCK_STATUS.
    pub reads: Vec<u64>,
    /// Requests that change the byte at the offset.
    pub changes: Vec<u64>,
    /// What can have been served so far: the first is where nothing is changed yet, and each leads to others of them.
    pub states: Vec<State>,
}

/// What of a refutation's requests was served so far.
#[derive(Drop)]
pub struct State {
    /// The changes that were served, and READs, among them each one that was served.
    pub served: Vec<u64>,
}

impl Refutation {
    /// Adds all states that its requests can come to, or the most that it may have and that so many steps suffice for; whether memory was
    /// refused. It is still to be tested.
    pub(crate) fn fill(
        &mut self,
        alloc: Global,
        profile: Profile,
        transcript: &Transcript,
        start: &Start,
        steps: u64,
    ) -> bool {
        let (byte, mut is_lost) = (start_byte(start, self.offset), false);
        self.add(profile, transcript, Vec::new(alloc), byte, &mut is_lost);
        for at in 0..MOST_STATES {
            if at >= self.states.len() || self.steps_to_test(transcript) > steps {
                break;
            }
            for turn in 0..self.changes.len() {
                self.lead(profile, transcript, at, turn, &mut is_lost);
            }
        }
        is_lost
    }

    /// How many steps a test takes at most: each state is compared with each other one for each change, and each of the session's
    /// requests with its READs and changes.
    pub(crate) fn steps_to_test(&self, transcript: &Transcript) -> u64 {
        let (states, changes) = (self.states.len() as u64, self.changes.len() as u64);
        let kept = changes.saturating_add(self.reads.len() as u64);
        let pairs = states.saturating_mul(states).saturating_mul(changes);
        let all = transcript.count().saturating_mul(kept);
        pairs
            .saturating_mul(kept.saturating_mul(kept) / 16)
            .saturating_add(all)
    }

    // Adds the state that a change leads to, where it can be served next and there is no such state: by their places.
    fn lead(
        &mut self,
        profile: Profile,
        transcript: &Transcript,
        at: usize,
        turn: usize,
        is_lost: &mut bool,
    ) {
        if at >= self.states.len() || turn >= self.changes.len() {
            return;
        }
        let change = self.changes[turn];
        let served = &self.states[at].served;
        if self.is_step(profile, transcript, served, change) {
            return;
        }
        let byte = match transcript.asked(change) {
            Some(one) => one.byte_left(self.offset),
            None => None,
        };
        match served.clone() {
            Ok(mut more) => {
                keep(&mut more, change, is_lost);
                self.add(profile, transcript, more, byte, is_lost);
            }
            Err(_) => *is_lost = true,
        }
    }

    // Adds the state in which this was served and then each READ that can be, where the offset holds this byte.
    fn add(
        &mut self,
        profile: Profile,
        transcript: &Transcript,
        mut served: Vec<u64>,
        byte: Option<u8>,
        is_lost: &mut bool,
    ) {
        for k in &self.reads {
            if !self.is_fitting(profile, transcript, &served, byte, *k) {
                keep(&mut served, *k, is_lost);
            }
        }
        keep(&mut self.states, State { served }, is_lost);
    }
}
