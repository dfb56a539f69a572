//! Whether a refutation shows that no order explains a session.

ghost use Rattle.std.specs.Prelude.{◌≡◌, ℕ, ◌⊎◌, IsTrue, true, false};
ghost use Rattle.nbd_judge.specs.Beginnings.{initial_of};
ghost use Rattle.nbd_wire.specs.protocol.Explains as explains;
ghost use Rattle.nbd_order.specs.{Unexplained.{AreRising, IsRefutedBy, has}, internal.Refutations.{EachSteps, HasBeginning, HasGot, HelpsNone, HelpsNot, IsBefore, IsChangeAt, IsNoHelp, IsReadAt, NoneIsLast}};

use crate::offsets::{byte_got, differs, is_before, is_change_at, is_read_at};
use crate::refutation::Refutation;
use crate::states::has;
use nbd_export::Start;
use nbd_session::Transcript;
use nbd_wire::Profile;

/// Whether the refutation shows that each order without a fault in the profile has a wrong byte of one of its READs at its offset, from
/// this start. Its READs are requests with a byte there that succeeded, in rising order. It takes a pass over the requests for each
/// READ, and compares each of its states with each other one for each change.
pub fn is_refuted(
    profile: Profile,
    transcript: &Transcript,
    start: &Start,
    refutation: &Refutation,
) -> bool
    ensures { IsTrue result → IsRefutedBy profile transcript.now (explains.start_byte (initial_of start.now)) refutation.now.offset refutation.now.reads.items }
{
    refutation.are_its_requests(profile, transcript)
        && refutation.are_its_states(profile, transcript, start)
}

impl Refutation {
    // Whether the READs and changes are such of the offset, and no other change is a help.
    fn are_its_requests(&self, profile: Profile, transcript: &Transcript) -> bool
        ensures reads { let f = self.now in IsTrue result → (k : ℕ) → has f.reads.items k ≡ true → IsReadAt profile transcript.now f.offset k }
        ensures changes { let f = self.now in IsTrue result → (c : ℕ) → has f.changes.items c ≡ true → IsChangeAt transcript.now f.offset c }
        ensures others { let f = self.now in IsTrue result → (w : ℕ) → HelpsNone profile transcript.now f.offset f.reads.items f.changes.items w }
        ensures rise { IsTrue result → AreRising self.now.reads.items }
    {
        are_rising(&self.reads)
            && self.are_reads(profile, transcript)
            && self.are_changes(transcript)
            && self.covered(profile, transcript)
    }

    // Whether the states begin as they have to, lead to one another, and end nowhere.
    fn are_its_states(&self, profile: Profile, transcript: &Transcript, start: &Start) -> bool
        ensures beginning { let f = self.now in IsTrue result → HasBeginning profile transcript.now (explains.start_byte (initial_of start.now)) f.offset f.reads.items f.changes.items f.states.items }
        ensures stepping { let f = self.now in IsTrue result → EachSteps profile transcript.now f.offset f.reads.items f.changes.items f.states.items }
        ensures ending { let f = self.now in IsTrue result → NoneIsLast f.reads.items f.states.items }
    {
        self.begins(profile, transcript, start) && self.steps(profile, transcript) && self.ends()
    }

    // Whether each of the refutation's READs is one of its offset.
    fn are_reads(&self, profile: Profile, transcript: &Transcript) -> bool
        ensures { let f = self.now in IsTrue result → (k : ℕ) → has f.reads.items k ≡ true → IsReadAt profile transcript.now f.offset k }
    {
        for k in &self.reads {
            if !is_read_at(profile, transcript, *k, self.offset) {
                return false;
            }
        }
        true
    }

    // Whether each of the refutation's changes is one of its offset.
    fn are_changes(&self, transcript: &Transcript) -> bool
        ensures { let f = self.now in IsTrue result → (c : ℕ) → has f.changes.items c ≡ true → IsChangeAt transcript.now f.offset c }
    {
        for c in &self.changes {
            if !is_change_at(transcript, *c, self.offset) {
                return false;
            }
        }
        true
    }

    // Whether no other change of the offset is a help to one of the READs.
    fn covered(&self, profile: Profile, transcript: &Transcript) -> bool
        ensures { let f = self.now in IsTrue result → (w : ℕ) → HelpsNone profile transcript.now f.offset f.reads.items f.changes.items w }
    {
        for k in &self.reads {
            let got = byte_got(transcript, *k, self.offset);
            if !self.is_unhelped(profile, transcript, *k, got) {
                return false;
            }
        }
        true
    }

    // Whether no other change of the offset is a help to READ k, which got this byte.
    fn is_unhelped(
        &self,
        profile: Profile,
        transcript: &Transcript,
        k: u64,
        got: Option<u8>,
    ) -> bool
        ensures { let f = self.now in IsTrue result → HasGot transcript.now f.offset k got →
            (w : ℕ) → HelpsNot profile transcript.now f.offset f.changes.items w k }
    {
        for i in 0..transcript.count() {
            if !self.helps_not(profile, transcript, i + 1, k, got) {
                return false;
            }
        }
        true
    }

    // Whether request w, if it is another change of the offset, is no help to READ k, which got this byte.
    fn helps_not(
        &self,
        profile: Profile,
        transcript: &Transcript,
        w: u64,
        k: u64,
        got: Option<u8>,
    ) -> bool
        ensures { let f = self.now in IsTrue result → HasGot transcript.now f.offset k got →
            HelpsNot profile transcript.now f.offset f.changes.items w k }
    {
        match transcript.asked(w) {
            Some(one) => {
                !one.touches(self.offset)
                    || has(&self.changes, w)
                    || self.is_no_help(profile, transcript, w, one.byte_left(self.offset), k, got)
            }
            None => true,
        }
    }

    // Whether the change w, which leaves this byte, is no help to READ k, which got that one.
    fn is_no_help(
        &self,
        profile: Profile,
        transcript: &Transcript,
        w: u64,
        byte: Option<u8>,
        k: u64,
        got: Option<u8>,
    ) -> bool
        ensures { let f = self.now in IsTrue result → HasGot transcript.now f.offset k got →
            IsNoHelp profile transcript.now f.offset f.changes.items w byte k }
    {
        differs(byte, got)
            || is_before(profile, transcript, self.offset, k, w)
            || is_overwritten(profile, transcript, self.offset, &self.changes, w, k)
    }
}

// Whether each of the numbers is above the one before it.
fn are_rising(numbers: &[u64]) -> bool
    ensures { IsTrue result → AreRising numbers.now }
{
    for i in 1..numbers.len() {
        if numbers[i] <= numbers[i - 1] {
            return false;
        }
    }
    true
}

// Whether one of these changes surely comes between requests w and k at the offset.
fn is_overwritten(
    profile: Profile,
    transcript: &Transcript,
    offset: u64,
    changes: &[u64],
    w: u64,
    k: u64,
) -> bool
    ensures { IsTrue result → (o : ℕ) × (has changes.now o ≡ true) × IsBefore profile transcript.now offset w o × IsBefore profile transcript.now offset o k }
{
    for o in changes {
        if is_before(profile, transcript, offset, w, *o)
            && is_before(profile, transcript, offset, *o, k)
        {
            return true;
        }
    }
    false
}
