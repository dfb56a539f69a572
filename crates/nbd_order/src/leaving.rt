//! What an order of service leaves on the export.

ghost use Rattle.std.specs.Prelude.{◌≡◌, ℕ, IfOk, MatchBool, OnOk};
ghost use Rattle.nbd_export.specs.{Ranges.AreSameBelow, Extents.{byte_of, size_of}};
ghost use Rattle.nbd_judge.specs.{Beginnings.initial_of, Captures.SaysYes};
ghost use Rattle.nbd_order.specs.{Leaving.{IsLeft, IsLeftOn, IsLeftWithout, forgotten, is_open}, Sure.IsLeftByEach};
ghost use Rattle.nbd_judge.specs.Beginnings as judged;
ghost use Rattle.nbd_state.specs.Transcripts.{report_of_request};

use crate::sweep::sweep;
use nbd_export::{Contents, Extents, Start};
use nbd_judge::{Verdict, begin, erase, judge, verdict_on};
use nbd_session::{Asked, Outcome, Transcript};
use nbd_state::{Span, is_change};
use nbd_wire::{Entry, Profile};
use std::alloc::{AllocError, Global};

/// What a session leaves.
#[derive(Drop)]
pub enum Left {
    /// The export holds this.
    Contents(Extents),
    /// Nothing, since transmission was not reached.
    NoExport,
    /// That is not told: the verdict on the session is no yes.
    Refused(Verdict),
}

/// What an order leaves of a session of the profile, where it explains the session from this start. A WRITE, TRIM or
/// WRITE_ZEROES that no reply has finished may be carried out behind the end of the recording, so its range is unknown. An
/// `Err` says that memory ran out.
pub fn left_by(
    alloc: Global,
    profile: Profile,
    transcript: &Transcript,
    order: &[Entry],
    start: Start,
) -> Result<Left, AllocError>
    ensures { IfOk result (IsLeft profile transcript.now order.now (initial_of start)) }
{
    let Some((size, _)) = transcript.export() else {
        let verdict = verdict_on(alloc, profile, transcript, order, start)?;
        return Ok(left_without_export(verdict));
    };
    match begin(alloc, size, start)? {
        Ok(contents) => left_on(alloc, profile, transcript, order, contents),
        Err(verdict) => Ok(Left::Refused(verdict)),
    }
}

// What an order leaves on an export that holds this at first.
fn left_on(
    alloc: Global,
    profile: Profile,
    transcript: &Transcript,
    order: &[Entry],
    mut contents: Extents,
) -> Result<Left, AllocError>
    requires { size_of contents ≡ judged.size_of transcript.now.export }
    ensures { IfOk result (IsLeftOn profile transcript.now order.now (size_of contents) (byte_of contents)) }
{
    let verdict = judge(alloc, profile, transcript, order, &mut contents)?;
    if !is_yes(&verdict) {
        return Ok(Left::Refused(verdict));
    }
    forget_open(transcript, &mut contents)?;
    Ok(Left::Contents(contents))
}

// What a session without an export leaves, on which this is the verdict.
fn left_without_export(verdict: Verdict) -> Left
    ensures { IsLeftWithout verdict result }
{
    if is_yes(&verdict) {
        Left::NoExport
    } else {
        Left::Refused(verdict)
    }
}

fn is_yes(verdict: &Verdict) -> bool
    ensures { MatchBool result (SaysYes verdict.now) (SaysYes verdict.now → ⊥) }
{
    matches!(verdict, Verdict::Yes { .. })
}

/// What every order leaves of a session that explains it from this start, as far as arrivals, replies and later READs show
/// it; whether one explains it is not asked. An `Err` says that memory ran out.
///
/// Of changes that overlap, one may be the last where its first reply began behind the arrival of the last that arrived.
/// One alone leaves its bytes; where several may, a READ that arrived behind the first replies of all tells what is there,
/// and else it is not known. Nor is it behind a TRIM, a failure, and a change that no reply has finished.
pub fn left_by_each(
    alloc: Global,
    transcript: &Transcript,
    start: Start,
) -> Result<Left, AllocError>
    ensures { IfOk result (IsLeftByEach transcript.now (initial_of start)) }
{
    let Some((size, _)) = transcript.export() else {
        return Ok(Left::NoExport);
    };
    match begin(alloc, size, start)? {
        Ok(mut contents) => {
            sweep(alloc, transcript, &mut contents)?;
            Ok(Left::Contents(contents))
        }
        Err(verdict) => Ok(Left::Refused(verdict)),
    }
}

/// Makes the ranges of the changes unknown that no reply has finished, as far as they lie in the export.
pub fn forget_open<C: Contents>(transcript: &Transcript, contents: &mut C) -> Result<(), AllocError>
    ensures size { C.size contents.new ≡ C.size contents.old }
    ensures done { OnOk result (AreSameBelow (C.size contents.old) (C.byte contents.new)
        (forgotten transcript.now.asked (C.byte contents.old))) }
{
    for i in 0..transcript.count() {
        if let Some(one) = transcript.asked(i + 1) {
            if is_open(one) {
                erase(range_of(one), contents)?;
            }
        }
    }
    Ok(())
}

/// Its range, in bytes from the export's start.
pub(crate) fn range_of(one: &Asked) -> Span
    ensures { result ≡ record { offset = one.now.offset; size = one.now.length } }
{
    Span {
        offset: one.offset,
        size: one.length,
    }
}

/// Whether it is a change that no reply has finished.
pub(crate) fn is_open(one: &Asked) -> bool
    ensures { result ≡ is_open (report_of_request one.now) }
{
    match one.outcome {
        Outcome::Pending => is_change(one.command),
        Outcome::Success | Outcome::Failure => false,
    }
}
