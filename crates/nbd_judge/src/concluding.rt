//! The verdict on a finished session and a start.

ghost use Rattle.std.specs.Prelude.{◌≡◌, ℕ, List, IfOk, Ok, Err};
ghost use Rattle.nbd_wire.specs.{Prelude.{Item, pairs, IsRunOf}, declared.{profile.Profile.Profile, fault.WireFault.WireFault}};
ghost use Rattle.nbd_session.specs.declared.fault.SessionFault.TheVariants as session;
ghost use Rattle.nbd_wire.specs.declared.verdict.Verdict.TheVariants as verdict;
ghost use Rattle.nbd_judge.specs.{Images.IsBegun, internal.given_length, Beginnings.initial_of, Conclusions.{Answers, IsConclusion, IsReportOf}, Verdicts.IsVerdict};

use crate::{Verdict, judge, laws};
use nbd_export::{Contents, Extents, Start};
use nbd_session::{SessionFault, Transcript};
use nbd_wire::{Entry, Profile};
use std::alloc::{AllocError, Global};

/// The verdict on a finished session of the profile, with an order of service and the export's start. A wire fault is
/// handed on as it is. An `Err` says that memory ran out, in the session or here.
pub fn conclude(
    alloc: Global,
    profile: Profile,
    finished: Result<Transcript, SessionFault>,
    order: &[Entry],
    start: Start,
) -> Result<Verdict, AllocError>
    ensures verdict { IfOk result (IsConclusion profile finished order.now (initial_of start)) }
    ensures wire { (at : ℕ) (fault : WireFault) → finished ≡ Err (session.Wire at fault) →
        result ≡ Ok (verdict.Wire at fault) }
    // Exactly those of the profile's runs with this report that the order explains get a yes; the others get a no.
    ensures answers { IfOk result (λ v. (items : List Item) → IsRunOf profile items →
        IsReportOf items finished → Answers profile (pairs items) order.now (initial_of start) v) }
{
    laws::verdicts_answer_runs();
    match finished {
        Ok(transcript) => verdict_on(alloc, profile, &transcript, order, start),
        Err(SessionFault::Wire { at, fault }) => Ok(Verdict::Wire { at, fault }),
        Err(SessionFault::Memory) => Err(AllocError),
    }
}

/// The verdict on what a finished session says: Image if the start is an image, or contents, of another size than the export,
/// otherwise the judgement from this start. An `Err` says that memory ran out.
pub fn verdict_on(
    alloc: Global,
    profile: Profile,
    transcript: &Transcript,
    order: &[Entry],
    start: Start,
) -> Result<Verdict, AllocError>
    ensures { IfOk result (IsVerdict profile transcript.now order.now (initial_of start)) }
{
    let Some((size, _)) = transcript.export() else {
        let mut contents = Extents::new(alloc, 0, Start::Zeroes)?;
        return judge(alloc, profile, transcript, order, &mut contents);
    };
    match begin(alloc, size, start)? {
        Ok(mut contents) => judge(alloc, profile, transcript, order, &mut contents),
        Err(verdict) => Ok(verdict),
    }
}

/// What an export of this size holds at first; or Image if the start is an image, or contents, of another size. An `Err`
/// says that memory ran out.
pub fn begin(alloc: Global, size: u64, start: Start) -> Result<Result<Extents, Verdict>, AllocError>
    ensures { IfOk result (IsBegun size (initial_of start)) }
{
    if let Some(image) = given_len(&start) {
        if image != size {
            return Ok(Err(Verdict::Image { image, size }));
        }
    }
    Ok(Ok(Extents::new(alloc, size, start)?))
}

// How many bytes the start has, where they are given.
fn given_len(start: &Start) -> Option<u64>
    ensures { result ≡ given_length (initial_of start.now) }
{
    match start {
        Start::Image(image) => Some(image.len() as u64),
        Start::Contents(contents) => Some(contents.size()),
        Start::Unknown | Start::Zeroes => None,
    }
}
