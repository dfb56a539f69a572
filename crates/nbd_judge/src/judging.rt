//! The verdict on the report of a session.

ghost use Rattle.std.specs.Prelude.{◌≡◌, ℕ, List, Option, IfOk};
ghost use Rattle.nbd_wire.specs.{declared.{profile.Profile.Profile, entry.Entry.Entry}, Prelude.{Pair, Item, pairs, report, IsRunOf, IsFaultless}};
ghost use Rattle.nbd_judge.specs.{Conclusions.LeavesUnserved, Captures.SaysYes, Folding.HoldsLeft, Beginnings.size_of, Verdicts.{FirstWrongFrom, IsJudged, wrong_verdict}};

use crate::Verdict;
use crate::order::order_fault;
use crate::replay::replay;
use crate::tally::{answered_count, improper_count};
use nbd_export::Contents;
use nbd_session::Transcript;
use nbd_wire::{Entry, Profile, commands};
use std::alloc::{AllocError, Global};

/// Judges a session of the profile by an order of service and the contents that the export had at first: Yes, Order,
/// Content or Status. It changes the contents as it goes: after a yes they hold what the order leaves, behind another
/// answer the effect of some entries. An `Err` says that memory ran out.
pub fn judge<C: Contents>(
    alloc: Global,
    profile: Profile,
    transcript: &Transcript,
    order: &[Entry],
    contents: &mut C,
) -> Result<Verdict, AllocError>
    // The contents have the export's size, or size 0 if transmission was not reached.
    requires { C.size contents.old ≡ size_of transcript.now.export }
    ensures judged { IfOk result (IsJudged profile transcript.now order.now (C.byte contents.old)) }
    ensures left { IfOk result (λ v. SaysYes v → HoldsLeft transcript.now order.now (C.size contents.old)
        (C.size contents.new) (C.byte contents.old) (C.byte contents.new)) }
    // The verdict is Order only if no run of the profile with the bytes of this session is served in this order.
    ensures unserved { IfOk result (λ v. (items : List Item) → IsRunOf profile items →
        report items ≡ transcript.now → LeavesUnserved profile (pairs items) order.now v) }
{
    if let Some((entry, fault)) = order_fault(alloc, profile, transcript, order)? {
        return Ok(Verdict::Order { entry, fault });
    }
    let requests = transcript.count();
    if let Some((request, offset)) = replay(alloc, transcript, order, contents)? {
        return Ok(wrong_of(transcript, request, offset));
    }
    Ok(Verdict::Yes {
        requests,
        answered: answered_count(transcript),
        improper: improper_count(profile, transcript),
    })
}

/// The verdict on a wrong byte that an entry serves of a request: Status if the request is a BLOCK_STATUS, otherwise
/// Content.
pub fn wrong_of(transcript: &Transcript, request: u64, offset: u64) -> Verdict
    ensures verdict { result ≡ wrong_verdict transcript.now request offset }
    ensures judged { (profile : Profile) (order : List Entry) (initial : ℕ → Option ℕ) →
        IsFaultless profile transcript.now order → FirstWrongFrom transcript.now order initial request offset →
        IsJudged profile transcript.now order initial result }
    ensures unserved { (profile : Profile) (capture : List Pair) (order : List Entry) →
        LeavesUnserved profile capture order result }
{
    match transcript.asked(request) {
        Some(one) if one.command == commands::BLOCK_STATUS => Verdict::Status { request, offset },
        _ => Verdict::Content { request, offset },
    }
}
