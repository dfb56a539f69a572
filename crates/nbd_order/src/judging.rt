//! The order of arrival, and whether an order explains a session, by the judge of `check`.

ghost use Rattle.std.specs.Prelude.{◌≡◌, ◌≤◌, [], All, IfOk, MatchBool, None, OnErr, OnOk, vec_capacity, vec_len};
ghost use Rattle.nbd_judge.specs.{Beginnings.initial_of, Verdicts.IsVerdict};
ghost use Rattle.nbd_order.specs.Finding.{AreWhole, arrival};

use nbd_export::Start;
use nbd_judge::{Verdict, verdict_on};
use nbd_search::Place;
use nbd_session::Transcript;
use nbd_wire::{Entry, Profile};
use std::alloc::{AllocError, Global};

/// The order of arrival, which most servers keep: the requests by their numbers, each atomically.
pub fn by_arrival(alloc: Global, count: u64) -> Result<Vec<Entry>, AllocError>
    ensures { IfOk result (λ order. order.items ≡ arrival count) }
{
    let mut order = Vec::new(alloc);
    push_arrival(&mut order, count).and(Ok(order))
}

// Puts so many requests, by their numbers, into an order that has none.
fn push_arrival(order: &mut Vec<Entry>, count: u64) -> Result<(), AllocError>
    requires { order.old.items ≡ [] }
    ensures made { OnOk result (order.new.items ≡ arrival count) }
    // Memory runs out only where the entries fill all the room that there was.
    ensures full { OnErr result (vec_capacity order.old ≤ vec_len order.new) }
{
    for i in 0..count {
        order.push(Entry {
            request: i + 1,
            part: None,
        })?;
    }
    Ok(())
}

/// The verdict of `check` on an order from this start, in the profile.
pub fn verdict_of(
    alloc: Global,
    profile: Profile,
    transcript: &Transcript,
    order: &[Entry],
    start: &Start,
) -> Result<Verdict, AllocError>
    ensures { IfOk result (IsVerdict profile transcript.now order.now (initial_of start.now)) }
{
    let start = copy_of(start)?;
    verdict_on(alloc, profile, transcript, order, start)
}

/// The byte that a verdict on an order tells. Of an order with a fault that is the faulty entry, at offset 0.
pub fn place_of(verdict: &Verdict) -> Place {
    let (request, offset) = match verdict {
        Verdict::Content { request, offset } | Verdict::Status { request, offset } => {
            (*request, *offset)
        }
        Verdict::Order { entry, .. } => (*entry, 0),
        Verdict::Yes { .. } | Verdict::Image { .. } | Verdict::Wire { .. } => (0, 0),
    };
    Place { request, offset }
}

// The same start, which shares its image or its contents.
fn copy_of(start: &Start) -> Result<Start, AllocError>
    ensures { IfOk result (λ copy. initial_of copy ≡ initial_of start.now) }
{
    match start {
        Start::Unknown => Ok(Start::Unknown),
        Start::Zeroes => Ok(Start::Zeroes),
        Start::Image(image) => Ok(Start::Image(image.clone()?)),
        Start::Contents(contents) => Ok(Start::Contents(contents.clone()?)),
    }
}

/// Whether each entry serves its request atomically.
pub fn are_whole(order: &[Entry]) -> bool
    ensures { MatchBool result (AreWhole order.now) (AreWhole order.now → ⊥) }
{
    order.iter().all(|entry| entry.part.is_none())
}
