//! The command `contents`, over any readers and writer.

ghost use Rattle.std.specs.Prelude.{◌≡◌, ◌⊎◌, ℕ, List, Option, IfErr, IfOk, IsSome, OnOk};
ghost use Rattle.nbd_files.specs.{declared.fault.RunFault.TheVariants.{AgainstRead, Memory, Write}, Starts.{IsStartWellFormed, IsWithinLimit, OfStart}};
ghost use Rattle.nbd_wire.specs.protocol.Explains as definitions;
ghost use Rattle.nbd_judge.specs.Beginnings.{size_of};
ghost use Rattle.nbd_export.specs.Held.{held};
ghost use Rattle.nbd_tool.specs.{Beginnings.{IsReadAs, room_in}, Runs.IsCapture};
ghost use Rattle.nbd_explain.specs.{Contents.{IsContentsCause, WritesBytes, WritesContents}, internal.Leaving.{IsLeftBy, IsLeftFrom, IsLeftIn, IsLeftOver, TellsLeft, entries_of}, Explained.{IsExplainCause, IsOrderWithinLimit}, Ordering.LeavesOrdered};

use crate::comparing::write_compared;
use crate::reading::read_behind;
use nbd_capture::write_whole;
use nbd_export::{Extents, Start};
use nbd_files::{Measured, RunFault, StartFrom};
use nbd_judge::{Verdict, laws};
use nbd_lines::write_contents;
use nbd_order::{Left, left_by, left_by_each};
use nbd_session::{SessionFault, Transcript};
use nbd_tool::{Beginning, transcript_over, write_verdict};
use nbd_wire::{Entry, Profile};
use std::alloc::{AllocError, Global};
use std::io::{BufRead, Read, Write};

/// What a session without an export leaves.
const NO_EXPORT: &str = "no export\n";

/// Reads a capture text to its end, then an order text and a start, if there are such, and writes what the order leaves of
/// the session, or without an order what every order leaves that explains it, as a contents text; or, with an image,
/// whether that agrees with it. Answers true where a text was written, and where the image agrees.
///
/// Where the answer of `check` is no yes its line is written, and `no export` where transmission was not reached; without an
/// order that line is one of a refused session, or of a start of another size. The image is read last, and only where there
/// are contents; where it is known to have another size it is not read. An `Err` is a fault of a text, of a reader or of the
/// writer, or out of memory. After `Write` a prefix of the lines stands written, after another fault nothing.
pub fn run_contents<
    C: BufRead + Drop,
    O: Read + Drop,
    I: Measured + Drop,
    A: Measured + Drop,
    W: Write,
>(
    alloc: Global,
    profile: Profile,
    capture: C,
    order: Option<O>,
    start: StartFrom<I>,
    against: Option<A>,
    out: &mut W,
) -> Result<bool, RunFault>
    ensures well_formed { OnOk result (IsCapture (C.remaining capture)) }
    ensures limited { OnOk result (IsWithinLimit (C.remaining capture)) }
    ensures order_limited { OnOk result (IsOrderWithinLimit O.remaining order) }
    ensures start_limited { OnOk result (IsStartWellFormed I.remaining start) }
    ensures written { IfOk result (λ yes. OfStart I.remaining start (λ initial. WritesContents profile O.remaining A.remaining
        (C.remaining capture) order initial against (W.contents out.old) (W.contents out.new) yes)) }
    ensures cause { IfErr result (IsContentsCause O.remaining I.remaining (C.remaining capture) order start against) }
    ensures left { IfErr result (LeavesOrdered (W.contents out.old) (W.contents out.new)) }
{
    let left = left_over(alloc, profile, capture, order, start)?;
    write_left(alloc, &left, against, out)
}

// What is left of the session of a capture, from the order and the start that are read behind it.
fn left_over<C: BufRead + Drop, O: Read + Drop, I: Measured + Drop>(
    alloc: Global,
    profile: Profile,
    capture: C,
    order: Option<O>,
    start: StartFrom<I>,
) -> Result<Left, RunFault>
    ensures well_formed { OnOk result (IsCapture (C.remaining capture)) }
    ensures limited { OnOk result (IsWithinLimit (C.remaining capture)) }
    ensures order_limited { OnOk result (IsOrderWithinLimit O.remaining order) }
    ensures start_limited { OnOk result (IsStartWellFormed I.remaining start) }
    ensures left { IfOk result (λ left. OfStart I.remaining start (λ initial. IsLeftOver profile O.remaining
        (C.remaining capture) order initial left)) }
    ensures read { OnOk result (IsExplainCause O.remaining I.remaining (C.remaining capture) order start Write) }
    ensures cause { IfErr result (IsExplainCause O.remaining I.remaining (C.remaining capture) order start) }
{
    laws::verdicts_answer_runs();
    let finished = transcript_over(alloc, profile, capture)?;
    left_behind(alloc, profile, &finished, order, start)
}

// What is left of a finished session, from the order and the start that are read.
fn left_behind<O: Read + Drop, I: Measured + Drop>(
    alloc: Global,
    profile: Profile,
    finished: &Result<Transcript, SessionFault>,
    order: Option<O>,
    start: StartFrom<I>,
) -> Result<Left, RunFault>
    ensures order_limited { OnOk result (IsOrderWithinLimit O.remaining order) }
    ensures start_limited { OnOk result (IsStartWellFormed I.remaining start) }
    ensures left { IfOk result (λ left. OfStart I.remaining start (λ initial. IsLeftFrom O.remaining profile finished.now
        order initial left)) }
    ensures read { OnOk result ((known : Option (List ℕ)) → IsCapture known →
        IsExplainCause O.remaining I.remaining known order start Write) }
    ensures cause { IfErr result (λ fault. (known : Option (List ℕ)) → IsCapture known →
        IsExplainCause O.remaining I.remaining known order start fault) }
{
    let (entries, start) = read_behind(alloc, finished, order, start)?;
    left_of(alloc, profile, finished, &entries, start)
}

// What is left, from what was read.
fn left_of(
    alloc: Global,
    profile: Profile,
    finished: &Result<Transcript, SessionFault>,
    order: &Option<Vec<Entry>>,
    start: Beginning,
) -> Result<Left, RunFault>
    ensures left { IfOk result (λ left. (initial : definitions.Start) → IsReadAs (room_in finished.now) initial start →
        IsLeftIn profile finished.now (entries_of order.now) initial left) }
    ensures cause { IfErr result (λ fault. fault ≡ Memory) }
{
    match finished {
        Ok(transcript) => Ok(left_from(alloc, profile, transcript, order, start)?),
        Err(SessionFault::Wire { at, fault }) => {
            let (at, fault) = (*at, *fault);
            Ok(Left::Refused(Verdict::Wire { at, fault }))
        }
        Err(SessionFault::Memory) => Err(RunFault::Memory),
    }
}

// The same of a session that was accepted.
fn left_from(
    alloc: Global,
    profile: Profile,
    transcript: &Transcript,
    order: &Option<Vec<Entry>>,
    start: Beginning,
) -> Result<Left, AllocError>
    ensures { IfOk result (λ left. (initial : definitions.Start) → IsReadAs (size_of transcript.now.export) initial start →
        IsLeftBy profile transcript.now (entries_of order.now) initial left) }
{
    let start = match (start, transcript.export()) {
        (Beginning::Whole(start), _) => start,
        (Beginning::Longer(image), Some((size, _))) => {
            return Ok(Left::Refused(Verdict::Image { image, size }));
        }
        (Beginning::Longer(_), None) => Start::Unknown,
    };
    match order {
        Some(order) => left_by(alloc, profile, transcript, order, start),
        None => left_by_each(alloc, transcript, start),
    }
}

// Writes what is left, or how that compares with an image.
fn write_left<A: Measured + Drop, W: Write>(
    alloc: Global,
    left: &Left,
    against: Option<A>,
    out: &mut W,
) -> Result<bool, RunFault>
    ensures told { IfOk result (TellsLeft A.remaining against left.now (W.contents out.old) (W.contents out.new)) }
    ensures cause { IfErr result (λ fault. (fault ≡ Write) ⊎ (fault ≡ Memory) ⊎ (fault ≡ AgainstRead) × IsSome against) }
    ensures left { IfErr result (LeavesOrdered (W.contents out.old) (W.contents out.new)) }
{
    match left {
        Left::Refused(verdict) => write_verdict(alloc, *verdict, out),
        Left::NoExport => {
            write_whole(out, NO_EXPORT.as_bytes())?;
            Ok(false)
        }
        Left::Contents(contents) => write_held(alloc, contents, against, out),
    }
}

// Writes what an export holds, or how that compares with an image.
fn write_held<A: Measured + Drop, W: Write>(
    alloc: Global,
    contents: &Extents,
    against: Option<A>,
    out: &mut W,
) -> Result<bool, RunFault>
    ensures told { IfOk result
        (WritesBytes A.remaining against (held contents.now) (W.contents out.old) (W.contents out.new)) }
    ensures cause { IfErr result (λ fault. (fault ≡ Write) ⊎ (fault ≡ Memory) ⊎ (fault ≡ AgainstRead) × IsSome against) }
    ensures left { IfErr result (LeavesOrdered (W.contents out.old) (W.contents out.new)) }
{
    match against {
        Some(mut image) => write_compared(alloc, contents, &mut image, out),
        None => {
            write_contents(out, contents)?;
            Ok(true)
        }
    }
}
