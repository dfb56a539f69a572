//! The command `lint`, over any reader and writer.

ghost use Rattle.std.specs.Prelude.{IfErr, OnOk};
ghost use Rattle.nbd_explain.specs.{Ordering.LeavesOrdered, Shown.IsShowCause};
ghost use Rattle.nbd_files.specs.{declared.fault.RunFault.TheVariants.Write, Starts.IsWithinLimit};

use nbd_capture::write_whole;
use nbd_files::RunFault;
use nbd_judge::Verdict;
use nbd_lint::{Level, Linter, Refusal, Report, Wanted, is_kept, listed};
use nbd_session::{Session, SessionFault};
use nbd_tool::{Unseen, line_of, session_over};
use nbd_wire::{Profile, WireFault};
use std::alloc::{AllocError, Global};
use std::io::{BufRead, Write};

/// Reads a capture text to its end, and writes what the messages that its session of this profile accepts break of proto.md,
/// a line for each rule and side; where the session was refused its line; and how many lines of each level stand there.
/// Answers true where no line of level must stands there and the session was accepted.
///
/// An `Err` is a fault of the text, of its reader or of the writer, or out of memory. Nothing is written unless the capture
/// was read whole and is well formed. After `Write` some of the lines may stand written.
pub fn run_lint<C: BufRead + Drop, W: Write>(
    alloc: Global,
    profile: Profile,
    capture: C,
    wanted: &Wanted,
    out: &mut W,
) -> Result<bool, RunFault>
    ensures limited { OnOk result (IsWithinLimit (C.remaining capture)) }
    ensures cause { IfErr result (IsShowCause (C.remaining capture)) }
    ensures left { IfErr result (LeavesOrdered (W.contents out.old) (W.contents out.new)) }
{
    let report = report_over(alloc, profile, capture, wanted)?;
    write_whole(out, report.text.as_bytes())?;
    Ok(is_kept(report.musts, report.is_refused))
}

// What is written of a capture.
fn report_over<C: BufRead + Drop>(
    alloc: Global,
    profile: Profile,
    capture: C,
    wanted: &Wanted,
) -> Result<Report, RunFault>
    ensures limited { OnOk result (IsWithinLimit (C.remaining capture)) }
    ensures read { OnOk result (IsShowCause (C.remaining capture) Write) }
    ensures cause { IfErr result (IsShowCause (C.remaining capture)) }
{
    let session = session_over(alloc, profile, capture, &mut Unseen)?;
    Ok(report_of(alloc, session, wanted)?)
}

// The same of a session that was read whole.
fn report_of(alloc: Global, session: Session, wanted: &Wanted) -> Result<Report, AllocError> {
    let taken = session.taken();
    let mut linter = Linter::of(alloc, &session, Level::Hint.is_told(wanted.level));
    match session.finish() {
        Ok(_) => accepted(alloc, &mut linter, taken, wanted),
        Err(SessionFault::Wire { at, fault }) => refused(alloc, &linter, at, fault, wanted),
        Err(SessionFault::Memory) => Err(AllocError),
    }
}

// The same of one of so many bytes that was accepted.
fn accepted(
    alloc: Global,
    linter: &mut Linter,
    taken: u64,
    wanted: &Wanted,
) -> Result<Report, AllocError> {
    linter.close(taken);
    Report::of(alloc, linter, None, wanted)
}

// The same of one that was refused at this place.
fn refused(
    alloc: Global,
    linter: &Linter,
    place: u64,
    fault: WireFault,
    wanted: &Wanted,
) -> Result<Report, AllocError> {
    let line = line_of(alloc, Verdict::Wire { at: place, fault })?;
    let refusal = Refusal {
        line: line.as_str(),
        place,
    };
    Report::of(alloc, linter, Some(refusal), wanted)
}

/// The rules, a line each: level, side, name, and the lines of proto.md that have it.
pub fn write_rules<W: Write>(alloc: Global, out: &mut W) -> Result<bool, RunFault>
    ensures left { IfErr result (LeavesOrdered (W.contents out.old) (W.contents out.new)) }
{
    let text = listed(alloc)?;
    write_whole(out, text.as_bytes())?;
    Ok(true)
}
