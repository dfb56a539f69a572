//! What the states of a refutation lead to.

ghost use Rattle.std.specs.Prelude.{◌≡◌, ℕ, ◌==◌, ◌||◌, IsTrue, true, false};
ghost use Rattle.nbd_judge.specs.Beginnings.{initial_of};
ghost use Rattle.nbd_wire.specs.protocol.Explains as explains;
ghost use Rattle.nbd_order.specs.{Unexplained.has, internal.Refutations.{AreSteps, EachSteps, Fits, HasBeginning, IsBefore, IsFitting, IsHeld, IsStep, IsUnfinished, Leads, LeadsOn, NoneIsLast}};

use crate::offsets::{is_before, is_other, start_byte};
use crate::refutation::Refutation;
use nbd_export::Start;
use nbd_session::Transcript;
use nbd_wire::Profile;

/// Whether k is one of these numbers.
pub fn has(numbers: &[u64], k: u64) -> bool
    ensures { result ≡ has numbers.now k }
{
    numbers.contains(&k)
}

impl Refutation {
    /// Whether the first state is one in which no change is served, and in which each READ fits the start.
    pub(crate) fn begins(&self, profile: Profile, transcript: &Transcript, start: &Start) -> bool
        ensures { let f = self.now in IsTrue result
            → HasBeginning profile transcript.now (explains.start_byte (initial_of start.now)) f.offset f.reads.items f.changes.items f.states.items }
    {
        match self.states.get(0) {
            Some(state) => {
                has_none(&self.changes, &state.served)
                    && self.fits(
                        profile,
                        transcript,
                        &state.served,
                        start_byte(start, self.offset),
                    )
            }
            None => false,
        }
    }

    /// Whether in each state each change is served, can't be served yet, or leads to a state.
    pub(crate) fn steps(&self, profile: Profile, transcript: &Transcript) -> bool
        ensures { let f = self.now in IsTrue result → EachSteps profile transcript.now f.offset f.reads.items f.changes.items f.states.items }
    {
        for state in &self.states {
            if !self.are_steps(profile, transcript, &state.served) {
                return false;
            }
        }
        true
    }

    // The same of one state.
    fn are_steps(&self, profile: Profile, transcript: &Transcript, served: &[u64]) -> bool
        ensures { let f = self.now in IsTrue result
            → AreSteps profile transcript.now f.offset f.reads.items f.changes.items f.states.items served.now }
    {
        for c in &self.changes {
            if !self.is_step(profile, transcript, served, *c) {
                return false;
            }
        }
        true
    }

    /// The same of one change.
    pub(crate) fn is_step(
        &self,
        profile: Profile,
        transcript: &Transcript,
        served: &[u64],
        c: u64,
    ) -> bool
        ensures { let f = self.now in IsTrue result
            → IsStep profile transcript.now f.offset f.reads.items f.changes.items f.states.items served.now c }
    {
        has(served, c)
            || self.is_held(profile, transcript, served, c)
            || self.leads_on(profile, transcript, served, c)
    }

    // Whether the change leads to one of the states.
    fn leads_on(&self, profile: Profile, transcript: &Transcript, served: &[u64], c: u64) -> bool
        ensures { let f = self.now in IsTrue result
            → LeadsOn profile transcript.now f.offset f.reads.items f.changes.items f.states.items served.now c }
    {
        for next in &self.states {
            if self.leads(profile, transcript, served, c, &next.served) {
                return true;
            }
        }
        false
    }

    // Whether change c leads from what is served to what is served next.
    fn leads(
        &self,
        profile: Profile,
        transcript: &Transcript,
        served: &[u64],
        c: u64,
        next: &[u64],
    ) -> bool
        ensures { let f = self.now in IsTrue result → Leads profile transcript.now f.offset f.reads.items f.changes.items served.now c next.now }
    {
        match transcript.asked(c) {
            Some(one) => {
                adds_alone(&self.changes, served, c, next)
                    && keeps(&self.reads, served, next)
                    && self.fits(profile, transcript, next, one.byte_left(self.offset))
            }
            None => false,
        }
    }

    // Whether each READ is served, or can't be served where the offset holds this byte.
    fn fits(
        &self,
        profile: Profile,
        transcript: &Transcript,
        served: &[u64],
        byte: Option<u8>,
    ) -> bool
        ensures { let f = self.now in IsTrue result → Fits profile transcript.now f.offset f.reads.items f.changes.items served.now byte }
    {
        for k in &self.reads {
            if !self.is_fitting(profile, transcript, served, byte, *k) {
                return false;
            }
        }
        true
    }

    /// The same of one READ.
    pub(crate) fn is_fitting(
        &self,
        profile: Profile,
        transcript: &Transcript,
        served: &[u64],
        byte: Option<u8>,
        k: u64,
    ) -> bool
        ensures { let f = self.now in IsTrue result → IsFitting profile transcript.now f.offset f.reads.items f.changes.items served.now byte k }
    {
        has(served, k)
            || self.is_held(profile, transcript, served, k)
            || is_other(transcript, k, self.offset, byte)
    }

    // Whether request k can't be served yet: a READ or change of the refutation surely comes before it, and was not served.
    fn is_held(&self, profile: Profile, transcript: &Transcript, served: &[u64], k: u64) -> bool
        ensures { let f = self.now in IsTrue result → IsHeld profile transcript.now f.offset f.reads.items f.changes.items served.now k }
    {
        waits(profile, transcript, self.offset, &self.reads, served, k)
            || waits(profile, transcript, self.offset, &self.changes, served, k)
    }

    /// Whether in no state all READs are served.
    pub(crate) fn ends(&self) -> bool
        ensures { let f = self.now in IsTrue result → NoneIsLast f.reads.items f.states.items }
    {
        for state in &self.states {
            if !is_unfinished(&self.reads, &state.served) {
                return false;
            }
        }
        true
    }
}

// Whether none of these changes is served.
fn has_none(changes: &[u64], served: &[u64]) -> bool
    ensures { IsTrue result → (c : ℕ) → has changes.now c ≡ true → has served.now c ≡ false }
{
    for c in changes {
        if has(served, *c) {
            return false;
        }
    }
    true
}

// Whether of these changes just c is added to those that are served.
fn adds_alone(changes: &[u64], served: &[u64], c: u64, next: &[u64]) -> bool
    ensures { IsTrue result → (d : ℕ) → has changes.now d ≡ true → has next.now d ≡ (has served.now d || (c == d)) }
{
    for d in changes {
        if has(next, *d) != (has(served, *d) || c == *d) {
            return false;
        }
    }
    true
}

// Whether each of these READs that is served is served next.
fn keeps(reads: &[u64], served: &[u64], next: &[u64]) -> bool
    ensures { IsTrue result → (k : ℕ) → has reads.now k ≡ true → has served.now k ≡ true → has next.now k ≡ true }
{
    for k in reads {
        if has(served, *k) && !has(next, *k) {
            return false;
        }
    }
    true
}

// Whether one of these surely comes before request k at the offset, and was not served.
fn waits(
    profile: Profile,
    transcript: &Transcript,
    offset: u64,
    among: &[u64],
    served: &[u64],
    k: u64,
) -> bool
    ensures { IsTrue result → (p : ℕ) × (has among.now p ≡ true) × (has served.now p ≡ false) × IsBefore profile transcript.now offset p k }
{
    for p in among {
        if !has(served, *p) && is_before(profile, transcript, offset, *p, k) {
            return true;
        }
    }
    false
}

// Whether some of these READs is not served.
fn is_unfinished(reads: &[u64], served: &[u64]) -> bool
    ensures { IsTrue result → IsUnfinished reads.now served.now }
{
    for k in reads {
        if !has(served, *k) {
            return true;
        }
    }
    false
}
