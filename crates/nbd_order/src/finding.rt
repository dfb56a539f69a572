//! An order that explains a session, or why there is none.

ghost use Rattle.std.specs.Prelude.{◌≡◌, List, IfOk};
ghost use Rattle.nbd_judge.specs.Beginnings.{initial_of};
ghost use Rattle.nbd_wire.specs.Prelude.{Item, report, IsRunOf, Passes, request_count};
ghost use Rattle.nbd_order.specs.{Finding.{IsFound, IsWanted, Says, arrival}, declared.finding.Wanted.Wanted, internal.IsOpen};

use crate::judging::{are_whole, by_arrival, place_of, verdict_of};
use crate::laws;
use crate::refutation::{MOST_STATES, Refutation};
use crate::refuting::is_refuted;
use nbd_export::Start;
use nbd_judge::Verdict;
use nbd_search::{Limits, Place, Progress, Proposal, Reason, propose};
use nbd_session::Transcript;
use nbd_wire::{Entry, Profile};
use std::alloc::{AllocError, Global};

/// Which orders are looked for.
#[derive(Clone, Copy, PartialEq, Eq, Drop)]
pub enum Wanted {
    /// Also those that serve requests in parts.
    Any,
    /// Those that serve each request atomically.
    Whole,
}

/// What is looked for, and what that may cost.
#[derive(Clone, Copy, Drop)]
pub struct Scope {
    /// Which orders.
    pub wanted: Wanted,
    /// What the search may cost.
    pub limits: Limits,
}

/// What a search may cost where nobody says otherwise; this suffices for recorded sessions.
pub fn usual_limits() -> Limits
    ensures { result ≡ record { states = 5000; steps = 1000000000 } }
{
    Limits {
        states: 5_000,
        steps: 1_000_000_000,
    }
}

/// What the search for an order came to.
#[derive(Drop)]
pub enum Found {
    /// The order explains the session: it has no fault, no byte of a READ is wrong, and no zero of a BLOCK_STATUS.
    Order(Vec<Entry>),
    /// No order explains the session, in parts or whole, as this shows: in each order one of its READs has a wrong byte, or one of its
    /// BLOCK_STATUS a false zero.
    Unexplained(Refutation),
    /// The start is an image of another size than the export.
    Image {
        /// The image's size in bytes.
        image: u64,
        /// The export's size in bytes.
        size: u64,
    },
    /// An order of whole requests was wanted, and the one that was found serves some request in parts. Another may be whole.
    NoneWhole,
    /// The search was broken off.
    GaveUp {
        /// The READ or BLOCK_STATUS that was being looked at, counted from 1.
        request: u64,
        /// In bytes from the export's start.
        offset: u64,
        /// Why it ended.
        reason: Reason,
    },
}

/// Looks for an order that explains the session of the profile from this start. Tried are the order of arrival and then the one that
/// the search proposes: each is judged by the judge of `check` before it is handed out, and so is a refutation tested. An `Err` says
/// that memory ran out. A long search says on `progress` how far it is.
pub fn find(
    alloc: Global,
    profile: Profile,
    transcript: &Transcript,
    start: &Start,
    scope: Scope,
    progress: &mut Progress,
) -> Result<Found, AllocError>
    ensures found { IfOk result (IsFound profile transcript.now (initial_of start.now)) }
    ensures wanted { IfOk result (IsWanted scope.wanted) }
    // What is found is so of each run of the profile with this report.
    ensures says { IfOk result (λ f. (items : List Item) → IsRunOf profile items →
        report items ≡ transcript.now → Says profile items (initial_of start.now) f) }
{
    laws::found_is_so();
    let arrival = by_arrival(alloc, transcript.count())?;
    match verdict_of(alloc, profile, transcript, &arrival, start)? {
        Verdict::Yes { .. } => Ok(Found::Order(arrival)),
        Verdict::Image { image, size } => Ok(Found::Image { image, size }),
        verdict => {
            let wrong = place_of(&verdict);
            searched(alloc, profile, transcript, start, scope, wrong, progress)
        }
    }
}

// What the search finds, where the order of arrival has this wrong byte.
fn searched(
    alloc: Global,
    profile: Profile,
    transcript: &Transcript,
    start: &Start,
    scope: Scope,
    wrong: Place,
    progress: &mut Progress,
) -> Result<Found, AllocError>
    requires { Passes profile transcript.now (arrival (request_count transcript.now)) (initial_of start.now) → ⊥ }
    ensures found { IfOk result (IsFound profile transcript.now (initial_of start.now)) }
    ensures wanted { IfOk result (IsWanted scope.wanted) }
{
    match propose(
        alloc,
        profile,
        transcript,
        start,
        scope.limits,
        wrong,
        progress,
    )? {
        Proposal::Order(order) => judged(
            alloc,
            profile,
            transcript,
            start,
            scope.wanted,
            wrong,
            order,
        ),
        Proposal::Contest(offset, reads, changes) => {
            let refutation = Refutation {
                offset,
                reads,
                changes,
                states: Vec::new(alloc),
            };
            let steps = scope.limits.steps;
            tested(alloc, profile, transcript, start, wrong, refutation, steps)
        }
        Proposal::GaveUp(at, reason) => Ok(gave_up(at, reason)),
    }
}

// A proposed order, where it explains the session and is one of those that are wanted.
fn judged(
    alloc: Global,
    profile: Profile,
    transcript: &Transcript,
    start: &Start,
    wanted: Wanted,
    wrong: Place,
    order: Vec<Entry>,
) -> Result<Found, AllocError>
    requires { Passes profile transcript.now (arrival (request_count transcript.now)) (initial_of start.now) → ⊥ }
    ensures found { IfOk result (IsFound profile transcript.now (initial_of start.now)) }
    ensures wanted { IfOk result (IsWanted wanted) }
{
    match verdict_of(alloc, profile, transcript, &order, start)? {
        Verdict::Yes { .. } => Ok(if wanted == Wanted::Whole && !are_whole(&order) {
            Found::NoneWhole
        } else {
            Found::Order(order)
        }),
        _ => Ok(gave_up(wrong, Reason::Mistake)),
    }
}

// The refutation, with all states that its requests can come to, where it is one and so many steps suffice.
fn tested(
    alloc: Global,
    profile: Profile,
    transcript: &Transcript,
    start: &Start,
    wrong: Place,
    mut refutation: Refutation,
    steps: u64,
) -> Result<Found, AllocError>
    requires { Passes profile transcript.now (arrival (request_count transcript.now)) (initial_of start.now) → ⊥ }
    ensures found { IfOk result (IsFound profile transcript.now (initial_of start.now)) }
    ensures wanted { (wanted : Wanted) → IfOk result (IsWanted wanted) }
{
    if refutation.fill(alloc, profile, transcript, start, steps) {
        return Err(AllocError);
    }
    Ok(if refutation.steps_to_test(transcript) > steps {
        gave_up(wrong, Reason::Steps)
    } else if is_refuted(profile, transcript, start, &refutation) {
        Found::Unexplained(refutation)
    } else if refutation.states.len() < MOST_STATES {
        gave_up(wrong, Reason::Mistake)
    } else {
        gave_up(wrong, Reason::States)
    })
}

// The answer where there is none, told at the byte that was looked at.
fn gave_up(at: Place, reason: Reason) -> Found
    ensures { IsOpen result }
{
    Found::GaveUp {
        request: at.request,
        offset: at.offset,
        reason,
    }
}
