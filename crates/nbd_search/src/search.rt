//! The search as a whole: an order, or requests that refute each.

use crate::few::{contest_of, few_of, shrink};
use crate::order::{Served, arrange, arrive, entries_of};
use crate::progress::Progress;
use crate::proposal::{Place, Proposal, Reason};
use crate::replay::wrong_ranges;
use crate::scene::{NEVER, Patch, Scene};
use crate::sweep::{Outcome, Sweep};
use crate::walk::{Walk, events_of};
use crate::work::{Limits, PAUSE, Work};
use nbd_export::Start;
use nbd_state::Transcript;
use nbd_wire::Profile;
use std::alloc::{AllocError, Global};

/// How often all requests are put into an order and replayed.
const ROUNDS: u64 = 16;

/// Looks for an order that explains the session of the profile from this start, or for requests that refute each, where
/// that of arrival has this wrong byte. It says on `progress` how far it is. An `Err` says that memory ran out.
pub fn propose(
    alloc: Global,
    profile: Profile,
    transcript: &Transcript,
    start: &Start,
    limits: Limits,
    wrong: Place,
    progress: &mut Progress,
) -> Result<Proposal, AllocError> {
    let mut work = Work {
        alloc,
        limits,
        place: wrong,
        end: None,
        is_lost: false,
        progress: *progress,
        pause: limits.steps.saturating_sub(PAUSE),
    };
    let mut scene = Scene::new(profile, transcript, start, &mut work);
    let mut search = Search {
        served: Vec::new(alloc),
        refuting: Vec::new(alloc),
        alone: NEVER,
        is_stuck: false,
        is_exact: false,
        sweep: Sweep::new(work),
    };
    let proposal = search.run(&mut scene);
    *progress = search.sweep.work.progress;
    let is_lost = search.sweep.work.is_lost;
    (!is_lost).then_some(proposal).ok_or(AllocError)
}

#[derive(Drop)]
struct Search {
    sweep: Sweep,
    // What is served in the registers, each in an order of its own.
    served: Vec<Served>,
    // What refutes each order, and the least READ that is refuted alone, or `NEVER`.
    refuting: Vec<Patch>,
    alone: usize,
    // A register has no order, or too many states.
    is_stuck: bool,
    // Nothing is taken as it was on arrival: what has no order so has none.
    is_exact: bool,
}

impl Search {
    fn run(&mut self, scene: &mut Scene) -> Proposal {
        self.refine(scene);
        let work = &mut self.sweep.work;
        if work.is_over() {
            Proposal::GaveUp(work.place, work.end.unwrap_or(Reason::Steps))
        } else if !self.refuting.is_empty() {
            contest_of(&self.refuting, work)
        } else {
            Proposal::Order(entries_of(&scene.requests, &self.served, work))
        }
    }

    // The present order is replayed, first that of arrival; what it gets wrong is searched and binds the next one, until nothing
    // is wrong. Else an order in parts needs no registers but those of the order of arrival.
    fn refine(&mut self, scene: &mut Scene) {
        let mut count = 0;
        for round in 1..=ROUNDS {
            self.sweep.work.progress.rounds = round;
            let wrong = wrong_ranges(scene, &mut self.sweep.work);
            if !scene.mark(wrong, &mut self.sweep.work) {
                self.served.clear();
                return;
            }
            self.go_along(scene);
            if round == 1 {
                self.go_again(scene);
                count = self.served.len();
            }
            let work = &mut self.sweep.work;
            if self.is_stuck || !arrange(&self.served, &mut scene.requests, work) {
                break;
            }
        }
        self.served.truncate(count);
        arrive(&mut scene.requests);
    }

    // Goes along the order of arrival once more, with nothing taken as it was there, if a register has no order so.
    fn go_again(&mut self, scene: &mut Scene) {
        if self.is_stuck && self.refuting.is_empty() {
            for patch in scene.patches.iter_mut() {
                patch.slot = patch.due;
            }
            self.served.clear();
            (self.is_stuck, self.is_exact) = (false, true);
            self.go_along(scene);
            self.is_exact = false;
        }
    }

    // Goes along the export, and looks at the registers that are closed on the way.
    fn go_along(&mut self, scene: &Scene) {
        let mut walk = Walk::new(scene.requests.len(), &mut self.sweep.work);
        for (offset, begins, place) in &events_of(scene, &mut self.sweep.work) {
            if let (Some(patch), false) = (scene.patches.get(*place), self.sweep.work.is_over()) {
                walk.go_to(*offset, &mut self.sweep.work);
                self.close(scene, &mut walk, patch);
                walk.pass(patch, *begins, &mut self.sweep.work);
            }
        }
    }

    // Looks at the registers that end where a patch begins or ends.
    fn close(&mut self, scene: &Scene, walk: &mut Walk, patch: &Patch) {
        for _ in 0..scene.requests.len() {
            if !walk.close(patch, &mut self.sweep.work) {
                break;
            }
            self.look_at(scene, walk);
        }
    }

    // Looks for an order of all bytes of the register as one value, else of shorter ranges, each for itself.
    fn look_at(&mut self, scene: &Scene, walk: &mut Walk) {
        let (mut lo, mut hi) = (walk.since, walk.at);
        for _ in lo..u64::MAX {
            let is_whole = (lo, hi) == (walk.since, walk.at);
            let half = hi.saturating_sub(lo) / 2;
            match self.search(scene, walk, lo, hi) {
                Outcome::Order if hi >= walk.at => return,
                Outcome::Order => (lo, hi) = (hi, walk.at),
                _ if is_whole && self.ask(scene, walk) => return,
                Outcome::NoOrder(_) if half > 0 => hi = lo.saturating_add(half),
                outcome => return self.stick(walk, outcome),
            }
        }
    }

    // Looks for an order of the bytes of the register from `lo` to before `hi` as one value, while all others had one.
    fn search(&mut self, scene: &Scene, walk: &mut Walk, lo: u64, hi: u64) -> Outcome {
        if self.is_stuck {
            return Outcome::BrokenOff;
        }
        let (request, offset) = (walk.read as u64, lo);
        self.sweep.work.place = Place { request, offset };
        scene.number(&mut walk.operations, lo, hi, &mut self.sweep.work);
        let outcome = self.sweep.run(&walk.operations);
        if let Outcome::Order = outcome {
            let requests = self.sweep.trace();
            let served = Served { lo, hi, requests };
            self.sweep.work.keep(&mut self.served, served);
        }
        outcome
    }

    // Asks whether a READ is refuted alone that is less than those found; whether any was, or a register is stuck.
    fn ask(&mut self, scene: &Scene, walk: &mut Walk) -> bool {
        let (work, mut found) = (&mut self.sweep.work, None);
        for read in &walk.operations {
            if read.is_wrong && read.request < self.alone && found.is_none() {
                found = walk.unseen(scene, read, work);
            }
        }
        if let Some((read, offset)) = found {
            let (behind, request) = (offset.saturating_add(1), read.request as u64);
            let mut reads = [read];
            scene.number(&mut reads, offset, behind, work);
            scene.number(&mut walk.operations, offset, behind, work);
            (self.alone, self.is_stuck) = (read.request, true);
            work.place = Place { request, offset };
            self.refuting = few_of(&walk.operations, &reads, work);
        }
        self.is_stuck
    }

    // A byte of the register has no order, or too many states.
    fn stick(&mut self, walk: &Walk, outcome: Outcome) {
        let sweep = &mut self.sweep;
        self.is_stuck = true;
        match outcome {
            _ if !self.is_exact => {}
            Outcome::NoOrder(slot) => self.refuting = shrink(&walk.operations, slot, sweep),
            _ => sweep.work.end = sweep.work.end.or(Some(Reason::States)),
        }
    }
}
