//! The command `explain`, over any readers and writer.

ghost use Rattle.std.specs.Prelude.{ℕ, List, Option, IfErr, IfOk, IsOk, OnOk};
ghost use Rattle.nbd_wire.specs.declared.profile.Profile.{Profile};
ghost use Rattle.nbd_files.specs.{declared.fault.RunFault.TheVariants.Write, Starts.{IsStartWellFormed, IsWithinLimit, OfStart}};
ghost use Rattle.nbd_explain.specs.{Ordering.LeavesOrdered, Explained.{IsExplainCause, IsExplained, IsOrderWithinLimit}, internal.{Leaving.entries_of, Lines.{IsToldGiven, IsToldOn, OnWritten}}};
ghost use Rattle.nbd_tool.specs.{Runs.{IsCapture, IsCaptureCause}, Ends.IsFinishOf};

use crate::answer::Answer;
use crate::reading::{Recorder, finished_over, read_behind};
use crate::searching::told_by_search;
use crate::writing::{copy_of, kept_of, told_verdict, write_told};
use nbd_files::{Measured, RunFault, StartFrom};
use nbd_search::{Limits, Progress};
use nbd_session::{SessionFault, Transcript};
use nbd_story::Story;
use nbd_tool::{Beginning, conclude_from};
use nbd_wire::{Entry, Profile};
use std::alloc::{AllocError, Global};
use std::io::{BufRead, Read, Write};

/// Reads a capture text to its end, then an order text and an image or a contents text, if there are such; writes the line that
/// `check` writes in this profile, and behind it why the answer is no, or of a yes which requests the client should not have sent;
/// there each number has its name where the text is marked, as nbd_json reads it.
/// Without an order it looks for one within these limits: it writes the line that `check` writes of the order that was found, or that
/// with which `order` says that there is none or that it found none, and behind it what that says.
///
/// An `Err` is a fault of a text, of a reader or of the writer, or out of memory. Nothing is written unless what is read was read
/// whole and is well formed; an image that is known to have more bytes than the export is not read. After `Write` some of it may stand
/// written. A long search says on `progress` how far it is.
pub fn run_explain<C: BufRead + Drop, O: Read + Drop, I: Measured + Drop, W: Write>(
    alloc: Global,
    profile: Profile,
    is_marked: bool,
    capture: C,
    order: Option<O>,
    start: StartFrom<I>,
    limits: Limits,
    out: &mut W,
    progress: &mut Progress,
) -> Result<Answer, RunFault>
    ensures written { IfOk result (λ answer. OfStart I.remaining start (λ initial. IsExplained profile O.remaining
        (C.remaining capture) order initial answer (W.contents out.old) (W.contents out.new))) }
    ensures well_formed { OnOk result (IsCapture (C.remaining capture)) }
    ensures limited { OnOk result (IsWithinLimit (C.remaining capture)) }
    ensures order_limited { OnOk result (IsOrderWithinLimit O.remaining order) }
    ensures start_limited { OnOk result (IsStartWellFormed I.remaining start) }
    ensures cause { IfErr result (IsExplainCause O.remaining I.remaining (C.remaining capture) order start) }
    ensures left { IfErr result (LeavesOrdered (W.contents out.old) (W.contents out.new)) }
{
    let told = told_over(
        alloc, profile, is_marked, capture, order, start, limits, progress,
    )?;
    write_told(told, out)
}

// What is written of a capture, and the answer.
fn told_over<C: BufRead + Drop, O: Read + Drop, I: Measured + Drop>(
    alloc: Global,
    profile: Profile,
    is_marked: bool,
    capture: C,
    order: Option<O>,
    start: StartFrom<I>,
    limits: Limits,
    progress: &mut Progress,
) -> Result<(String, Answer), RunFault>
    ensures told { IfOk result (λ told. OfStart I.remaining start (λ initial. OnWritten told.0.bytes.items
        (IsExplained profile O.remaining (C.remaining capture) order initial told.1))) }
    ensures well_formed { OnOk result (IsCapture (C.remaining capture)) }
    ensures limited { OnOk result (IsWithinLimit (C.remaining capture)) }
    ensures order_limited { OnOk result (IsOrderWithinLimit O.remaining order) }
    ensures start_limited { OnOk result (IsStartWellFormed I.remaining start) }
    ensures read { OnOk result (IsExplainCause O.remaining I.remaining (C.remaining capture) order start Write) }
    ensures cause { IfErr result (IsExplainCause O.remaining I.remaining (C.remaining capture) order start) }
{
    let mut recorder = Recorder::of(alloc, profile, is_marked);
    let finished = finished_over(alloc, profile, capture, &mut recorder);
    told_after(
        alloc,
        profile,
        finished,
        &recorder.story,
        order,
        start,
        limits,
        progress,
    )
}

// The same of a capture that was read, or of the fault that was met.
fn told_after<O: Read + Drop, I: Measured + Drop>(
    alloc: Global,
    profile: Profile,
    finished: Result<Result<Transcript, SessionFault>, RunFault>,
    story: &Story,
    order: Option<O>,
    start: StartFrom<I>,
    limits: Limits,
    progress: &mut Progress,
) -> Result<(String, Answer), RunFault>
    ensures told { IfOk result (λ told. (known : Option (List ℕ)) → IfOk finished (IsFinishOf profile known) →
        OfStart I.remaining start (λ initial. OnWritten told.0.bytes.items
        (IsExplained profile O.remaining known order initial told.1))) }
    ensures order_limited { OnOk result (IsOrderWithinLimit O.remaining order) }
    ensures start_limited { OnOk result (IsStartWellFormed I.remaining start) }
    ensures finished { OnOk result (IsOk finished) }
    ensures read { OnOk result ((known : Option (List ℕ)) → IsCapture known →
        IsExplainCause O.remaining I.remaining known order start Write) }
    ensures cause { IfErr result (λ fault. (profile : Profile) (known : Option (List ℕ)) →
        IfOk finished (IsFinishOf profile known) → IfErr finished (IsCaptureCause known) → IsExplainCause O.remaining I.remaining known order start fault) }
{
    told_of(
        alloc, profile, finished?, story, order, start, limits, progress,
    )
}

// The same of the session that it came to.
fn told_of<O: Read + Drop, I: Measured + Drop>(
    alloc: Global,
    profile: Profile,
    finished: Result<Transcript, SessionFault>,
    story: &Story,
    order: Option<O>,
    start: StartFrom<I>,
    limits: Limits,
    progress: &mut Progress,
) -> Result<(String, Answer), RunFault>
    ensures told { IfOk result (λ told. (known : Option (List ℕ)) → IsFinishOf profile known finished →
        OfStart I.remaining start (λ initial. OnWritten told.0.bytes.items
        (IsExplained profile O.remaining known order initial told.1))) }
    ensures order_limited { OnOk result (IsOrderWithinLimit O.remaining order) }
    ensures start_limited { OnOk result (IsStartWellFormed I.remaining start) }
    ensures read { OnOk result ((known : Option (List ℕ)) → IsCapture known →
        IsExplainCause O.remaining I.remaining known order start Write) }
    ensures cause { IfErr result (λ fault. (known : Option (List ℕ)) → IsCapture known →
        IsExplainCause O.remaining I.remaining known order start fault) }
{
    let (entries, start) = read_behind(alloc, &finished, order, start)?;
    let told = told_from(
        alloc, profile, finished, story, &entries, start, limits, progress,
    )?;
    Ok(told)
}

// The same from what was read of an order and of the start.
fn told_from(
    alloc: Global,
    profile: Profile,
    finished: Result<Transcript, SessionFault>,
    story: &Story,
    entries: &Option<Vec<Entry>>,
    start: Beginning,
    limits: Limits,
    progress: &mut Progress,
) -> Result<(String, Answer), AllocError>
    ensures { IfOk result (λ told. IsToldGiven profile finished (entries_of entries.now) start told.1 told.0.bytes.items) }
{
    match entries {
        Some(entries) => told_on(alloc, profile, finished, story, entries, start),
        None => told_by_search(alloc, profile, finished, story, start, limits, progress),
    }
}

// The verdict on the entries of an order.
fn told_on(
    alloc: Global,
    profile: Profile,
    finished: Result<Transcript, SessionFault>,
    story: &Story,
    entries: &[Entry],
    start: Beginning,
) -> Result<(String, Answer), AllocError>
    ensures { IfOk result (λ told. IsToldOn profile finished entries.now start told.1 told.0.bytes.items) }
{
    let kept = copy_of(&start)?;
    let verdict = conclude_from(alloc, profile, finished, entries, start)?;
    told_verdict(alloc, verdict, story.with(entries, kept_of(&kept)))
}
