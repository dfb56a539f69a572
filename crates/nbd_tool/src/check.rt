//! The command `check`, over any readers and writer.
ghost use Rattle.std.specs.Prelude.{◌≡◌, ◌≢◌, ◌⊎◌, ℕ, List, OnOk, IfErr, IfOk, IfSome, Option};
ghost use Rattle.nbd_capture.specs.Order.{IsOrderText};
ghost use Rattle.nbd_wire.specs.declared.{entry.Entry.Entry, profile.Profile.TheVariants.Base};
ghost use Rattle.nbd_tool.specs.{Runs.{AnswersExactly, IsCapture, IsOrder, IsCause, IsOrderCause, LeavesWritten, SaysYes, Tells}, internal.IsConcluded};
ghost use Rattle.nbd_files.specs.{declared.fault.RunFault.TheVariants.Write, Starts.{IsStartCause, IsStartWellFormed, IsWithinLimit, OfStart}};

use crate::beginning::{read_start, room_of};
use crate::capture::transcript_over;
use crate::concluding::conclude_from;
use crate::verdict::write_verdict;
use nbd_capture::parse_order;
use nbd_files::{
    Files, Measured, PORTION, ReadFault, RunFault, StartFrom, StartWord, open_inputs, read_whole,
};
use nbd_judge::Verdict;
use nbd_session::{SessionFault, Transcript};
use nbd_wire::{Entry, Profile};
use std::alloc::Global;
use std::io::{BufRead, BufReader, Read, Write};

/// Reads a capture text chunk by chunk, then an order text and an image or a contents text, if there is one; checks the
/// session in the profile `Base` from this start, and writes the verdict's line. Answers true where the verdict is yes.
///
/// The capture is read first, to its end, then the order, then the start; an image that is known to have more bytes than the export is not
/// read. A fault of a text or of its reader is answered before any verdict, out of memory at once. Nothing is written unless what is read
/// was read whole and is well formed. After `Write` a prefix of the line stands written.
pub fn run_check<C: BufRead + Drop, O: Read + Drop, I: Measured + Drop, W: Write>(
    alloc: Global,
    capture: C,
    order: O,
    start: StartFrom<I>,
    out: &mut W,
) -> Result<bool, RunFault>
    ensures written { IfOk result
        (λ yes. OfStart I.remaining start (λ initial. Tells Base (C.remaining capture) (O.remaining order) initial yes
        (W.contents out.old) (W.contents out.new))) }
    // Exactly where the order explains the capture the answer is yes.
    ensures exactly { IfOk result (λ yes. OfStart I.remaining start (λ initial.
        AnswersExactly Base (C.remaining capture) (O.remaining order) initial yes)) }
    ensures yes { OfStart I.remaining start (λ initial. SaysYes Base (C.remaining capture) (O.remaining order) initial
        (W.contents out.old) (W.contents out.new)) }
    ensures well_formed { OnOk result (IsCapture (C.remaining capture) × IsOrder (O.remaining order)) }
    ensures limited { OnOk result (IsWithinLimit (C.remaining capture) × IsWithinLimit (O.remaining order)
        × IsStartWellFormed I.remaining start) }
    ensures cause { IfErr result (IsCause I.remaining (C.remaining capture) (O.remaining order) start) }
    ensures left { IfErr result (λ fault. OfStart I.remaining start (λ initial. LeavesWritten Base (C.remaining capture)
        (O.remaining order) initial (W.contents out.old) (W.contents out.new) fault)) }
{
    run_check_of(alloc, Profile::Base, capture, order, start, out)
}

/// The same in this profile.
///
/// An `Err` is a fault of a text or of its reader, which is answered before any verdict, of the writer, or out of memory, which is answered
/// at once.
pub fn run_check_of<C: BufRead + Drop, O: Read + Drop, I: Measured + Drop, W: Write>(
    alloc: Global,
    profile: Profile,
    capture: C,
    mut order: O,
    start: StartFrom<I>,
    out: &mut W,
) -> Result<bool, RunFault>
    ensures written { IfOk result
        (λ yes. OfStart I.remaining start (λ initial. Tells profile (C.remaining capture) (O.remaining order) initial yes
        (W.contents out.old) (W.contents out.new))) }
    // Exactly where the order explains the capture in this profile the answer is yes.
    ensures exactly { IfOk result (λ yes. OfStart I.remaining start (λ initial.
        AnswersExactly profile (C.remaining capture) (O.remaining order) initial yes)) }
    ensures yes { OfStart I.remaining start (λ initial. SaysYes profile (C.remaining capture) (O.remaining order) initial
        (W.contents out.old) (W.contents out.new)) }
    ensures well_formed { OnOk result (IsCapture (C.remaining capture) × IsOrder (O.remaining order)) }
    ensures limited { OnOk result (IsWithinLimit (C.remaining capture) × IsWithinLimit (O.remaining order)
        × IsStartWellFormed I.remaining start) }
    ensures cause { IfErr result (IsCause I.remaining (C.remaining capture) (O.remaining order) start) }
    ensures left { IfErr result (λ fault. OfStart I.remaining start (λ initial. LeavesWritten profile (C.remaining capture)
        (O.remaining order) initial (W.contents out.old) (W.contents out.new) fault)) }
{
    let finished = transcript_over(alloc, profile, capture)?;
    let verdict = verdict_over(alloc, profile, finished, &mut order, start)?;
    write_verdict(alloc, verdict, out)
}

// The verdict on a finished session, from the order and the image that are read.
fn verdict_over<O: Read, I: Measured + Drop>(
    alloc: Global,
    profile: Profile,
    finished: Result<Transcript, SessionFault>,
    order: &mut O,
    start: StartFrom<I>,
) -> Result<Verdict, RunFault>
    ensures verdict { IfOk result (λ v. (entries : List Entry) × IfSome (O.remaining order.old)
        (λ text. IsOrderText text entries)
        × OfStart I.remaining start (λ initial. IsConcluded profile initial finished entries v)) }
    ensures well_formed { OnOk result (IsOrder (O.remaining order.old)) }
    ensures limited { OnOk result (IsWithinLimit (O.remaining order.old) × IsStartWellFormed I.remaining start) }
    ensures cause { IfErr result (λ fault. (known : Option (List ℕ)) → IsCapture known →
        IsCause I.remaining known (O.remaining order.old) start fault) }
    ensures reading { IfErr result (λ fault. fault ≢ Write) }
{
    let order = read_order(alloc, order)?;
    verdict_from(alloc, profile, finished, order.as_slice(), start)
}

// The verdict on a finished session and an order, from the image that is read.
fn verdict_from<I: Measured + Drop>(
    alloc: Global,
    profile: Profile,
    finished: Result<Transcript, SessionFault>,
    order: &[Entry],
    start: StartFrom<I>,
) -> Result<Verdict, RunFault>
    ensures verdict { IfOk result (λ v. OfStart I.remaining start (λ initial. IsConcluded profile initial finished order.now v)) }
    ensures limited { OnOk result (IsStartWellFormed I.remaining start) }
    ensures cause { IfErr result (IsStartCause I.remaining start) }
{
    let start = read_start(alloc, start, room_of(&finished))?;
    Ok(conclude_from(alloc, profile, finished, order, start)?)
}

/// Reads an order text whole, and answers its entries.
pub fn read_order<O: Read>(alloc: Global, order: &mut O) -> Result<Vec<Entry>, RunFault>
    ensures text { IfOk result (λ entries. IfSome (O.remaining order.old)
        (λ text. IsOrderText text entries.items)) }
    ensures limited { OnOk result (IsWithinLimit (O.remaining order.old)) }
    ensures cause { IfErr result (IsOrderCause (O.remaining order.old)) }
{
    match read_whole(alloc, order) {
        Ok(text) => Ok(parse_order(alloc, text.as_slice())?),
        Err(ReadFault::Read) => Err(RunFault::OrderRead),
        Err(ReadFault::Memory) => Err(RunFault::Memory),
    }
}

/// Opens the files in the order capture, order, image, and then checks the session in this profile, and writes the line.
pub fn check_files<W: Write>(
    files: &mut Files<'_>,
    profile: Profile,
    capture: &str,
    order: &str,
    start: StartWord<'_>,
    out: &mut W,
) -> Result<bool, RunFault> {
    let alloc = files.rt.alloc();
    let inputs = open_inputs(files, capture, order, start)?;
    let capture = BufReader::with_capacity(alloc, PORTION, inputs.capture).map_err(
        |_| RunFault::Memory,
    )?;
    run_check_of(alloc, profile, capture, inputs.order, inputs.start, out)
}
