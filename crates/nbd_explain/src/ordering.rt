//! The command `order`, over any readers and writer.

ghost use Rattle.std.specs.Prelude.{◌≡◌, ◌⊎◌, ◌++◌, ◌∷◌, List, [], Err, IfErr, IfOk, Ok, OnOk};
ghost use Rattle.nbd_wire.specs.{declared.profile.Profile.Profile, Prelude.{Item, report, IsRunOf}};
ghost use Rattle.nbd_wire.specs.protocol.Explains as definitions;
ghost use Rattle.nbd_judge.specs.Beginnings.{initial_of, size_of};
ghost use Rattle.nbd_capture.specs.{Lines.line_feed, Order.entry_text};
ghost use Rattle.nbd_order.specs.{Finding.{IsFound, IsWanted, Says}, declared.finding.Wanted.Wanted};
ghost use Rattle.nbd_tool.specs.{Beginnings.IsReadAs, declared.beginning.Beginning.Beginning};
ghost use Rattle.nbd_explain.specs.{Ordering.{IsOrderingCause, LeavesOrdered, Orders, entry_lines, found_text, gave_up_line, ordered_of, reason_words, spaced_numbers, status_of, unexplained_line}, internal.Outcomes.{IsToldFrom, IsToldOf}};
ghost use Rattle.nbd_files.specs.Starts.{IsInitial, IsStartCause, IsStartWellFormed, IsWithinLimit, OfStart};

use crate::writing::write_told;
use nbd_files::{Measured, RunFault, StartFrom};
use nbd_judge::{Verdict, wrong_of};
use nbd_order::{Found, Scope, find};
use nbd_search::{Progress, Reason};
use nbd_session::{SessionFault, Transcript};
use nbd_tool::{Beginning, Line, line_of, read_start, room_of, transcript_over};
use nbd_wire::{Entry, Profile};
use std::alloc::{AllocError, Global};
use std::io::{BufRead, Write};

/// What a run of `order` came to.
#[derive(Clone, Copy, Drop)]
pub enum Ordered {
    /// An order was written, and it explains the session.
    Found,
    /// No order explains the session: the line that was written says why.
    Refuted,
    /// The search was broken off, or found an order in parts where one of whole requests is wanted: nothing is proved.
    Open,
}

/// The exit status of an answer: 0 of an order, 1 where there is none, 5 where that is open, and that of a fault.
pub fn order_status(answer: &Result<Ordered, RunFault>) -> u8
    ensures { result ≡ status_of answer.now }
{
    match answer {
        Ok(Ordered::Found) => 0,
        Ok(Ordered::Refuted) => 1,
        Ok(Ordered::Open) => 5,
        Err(fault) => fault.status(),
    }
}

/// Reads a capture text to its end, and then an image or a contents text, if there is one, and writes an order of service that explains
/// the session from this start in this profile, an entry a line; or a line that says why there is none or that none was found.
///
/// An `Err` is a fault of a text, of a reader or of the writer, or out of memory. Nothing is written unless what is read was read
/// whole and is well formed; an image that is known to have more bytes than the export is not read. After `Write` some of it may stand
/// written. A long search says on `progress` how far it is.
pub fn run_order<C: BufRead + Drop, I: Measured + Drop, W: Write>(
    alloc: Global,
    profile: Profile,
    capture: C,
    start: StartFrom<I>,
    scope: Scope,
    out: &mut W,
    progress: &mut Progress,
) -> Result<Ordered, RunFault>
    ensures written { IfOk result (λ ordered. OfStart I.remaining start (λ initial. Orders profile (C.remaining capture) initial
        scope.wanted ordered (W.contents out.old) (W.contents out.new))) }
    ensures limited { OnOk result (IsWithinLimit (C.remaining capture)) }
    ensures start_limited { OnOk result (IsStartWellFormed I.remaining start) }
    ensures cause { IfErr result (IsOrderingCause I.remaining (C.remaining capture) start) }
    ensures left { IfErr result (LeavesOrdered (W.contents out.old) (W.contents out.new)) }
{
    let finished = transcript_over(alloc, profile, capture)?;
    let told = told_over(alloc, profile, finished, start, scope, progress)?;
    write_told(told, out)
}

// What is written of a finished session from the start that is read, and the answer.
fn told_over<I: Measured + Drop>(
    alloc: Global,
    profile: Profile,
    finished: Result<Transcript, SessionFault>,
    start: StartFrom<I>,
    scope: Scope,
    progress: &mut Progress,
) -> Result<(String, Ordered), RunFault>
    ensures told { IfOk result (λ told. IsToldFrom profile (IsInitial I.remaining start) scope.wanted finished told.1
        told.0.bytes.items) }
    ensures limited { OnOk result (IsStartWellFormed I.remaining start) }
    ensures cause { IfErr result (IsStartCause I.remaining start) }
{
    let start = read_start(alloc, start, room_of(&finished))?;
    Ok(told_of(alloc, profile, finished, start, scope, progress)?)
}

// What is written of a finished session, and the answer.
fn told_of(
    alloc: Global,
    profile: Profile,
    finished: Result<Transcript, SessionFault>,
    start: Beginning,
    scope: Scope,
    progress: &mut Progress,
) -> Result<(String, Ordered), AllocError>
    ensures { IfOk result (λ told. IsToldOf profile start scope.wanted finished told.1 told.0.bytes.items) }
{
    match finished {
        Ok(transcript) => told_of_report(alloc, profile, &transcript, start, scope, progress),
        Err(fault) => told_of_fault(alloc, fault),
    }
}

// The same of a session's report.
fn told_of_report(
    alloc: Global,
    profile: Profile,
    transcript: &Transcript,
    start: Beginning,
    scope: Scope,
    progress: &mut Progress,
) -> Result<(String, Ordered), AllocError>
    ensures { IfOk result (λ told. IsToldOf profile start scope.wanted (Ok transcript.now) told.1 told.0.bytes.items) }
{
    let found = find_order(alloc, profile, transcript, start, scope, progress)?;
    let text = found_text_of(alloc, transcript, &found)?;
    Ok((text, ordered_as(&found)))
}

// The same of the fault that a session ended with.
fn told_of_fault(alloc: Global, fault: SessionFault) -> Result<(String, Ordered), AllocError>
    ensures { IfOk result (λ told. (profile : Profile) (beginning : Beginning) (wanted : Wanted) →
        IsToldOf profile beginning wanted (Err fault) told.1 told.0.bytes.items) }
{
    match fault {
        SessionFault::Wire { at, fault } => {
            let text = line_of(alloc, Verdict::Wire { at, fault })?;
            Ok((text, Ordered::Refuted))
        }
        SessionFault::Memory => Err(AllocError),
    }
}

/// Looks for an order that explains the session of the profile from what was read of the start. An `Err` says that memory ran out.
pub fn find_order(
    alloc: Global,
    profile: Profile,
    transcript: &Transcript,
    beginning: Beginning,
    scope: Scope,
    progress: &mut Progress,
) -> Result<Found, AllocError>
    ensures found { IfOk result (λ f. (initial : definitions.Start) →
        IsReadAs (size_of transcript.now.export) initial beginning → IsFound profile transcript.now initial f) }
    ensures wanted { IfOk result (IsWanted scope.wanted) }
    ensures says { IfOk result (λ f. (initial : definitions.Start) (items : List Item) →
        IsReadAs (size_of transcript.now.export) initial beginning → IsRunOf profile items →
        report items ≡ transcript.now → Says profile items initial f) }
{
    nbd_order::laws::found_is_so();
    match beginning {
        Beginning::Whole(start) => {
            let found = find(alloc, profile, transcript, &start, scope, progress);
            progress.end();
            found
        }
        Beginning::Longer(image) => match transcript.export() {
            Some((size, _)) => Ok(Found::Image { image, size }),
            // Without an export there is no request.
            None => Ok(Found::Order(Vec::new(alloc))),
        },
    }
}

// Whether an order was found, or why not.
fn ordered_as(found: &Found) -> Ordered
    ensures { result ≡ ordered_of found.now }
{
    match found {
        Found::Order(_) => Ordered::Found,
        Found::Unexplained(_) | Found::Image { .. } => Ordered::Refuted,
        Found::NoneWhole | Found::GaveUp { .. } => Ordered::Open,
    }
}

/// The lines of an order, or the line that says why there is none. An `Err` says that memory ran out.
pub fn found_text_of(
    alloc: Global,
    transcript: &Transcript,
    found: &Found,
) -> Result<String, AllocError>
    ensures { IfOk result (λ text. text.bytes.items ≡ found_text transcript.now found.now) }
{
    match found {
        Found::Order(entries) => lines_of(alloc, entries),
        Found::Unexplained(refutation) => unexplained(
            alloc,
            transcript,
            refutation.reads.as_slice(),
            refutation.offset,
        ),
        Found::Image { image, size } => {
            let (image, size) = (*image, *size);
            line_of(alloc, Verdict::Image { image, size })
        }
        Found::NoneWhole => format!(in alloc; "no order of whole requests found\n"),
        Found::GaveUp {
            request,
            offset,
            reason,
        } => gave_up(alloc, *request, *offset, *reason),
    }
}

// The line of a search that was broken off.
fn gave_up(alloc: Global, request: u64, offset: u64, reason: Reason) -> Result<String, AllocError>
    ensures { IfOk result (λ text. text.bytes.items ≡ gave_up_line request offset reason) }
{
    let reason = reason_name(reason);
    format!(in alloc; "gave up: {reason} at request {request} offset {offset}\n")
}

// The lines of entries.
fn lines_of(alloc: Global, entries: &[Entry]) -> Result<String, AllocError>
    ensures { IfOk result (λ text. text.bytes.items ≡ entry_lines entries.now) }
{
    let mut text = String::new(alloc);
    for entry in entries {
        push_entry(&mut text, entry)?;
    }
    Ok(text)
}

// Adds an entry's line.
fn push_entry(text: &mut String, entry: &Entry) -> Result<(), AllocError>
    ensures { OnOk result (text.new.bytes.items ≡ text.old.bytes.items ++ (entry_text entry.now ++ line_feed ∷ [])) }
{
    match entry.part {
        None => writeln!(text, "{}", entry.request),
        Some(part) => writeln!(text, "{} {} {}", entry.request, part.offset, part.length),
    }
}

// The line of requests of which each order has one wrong at this offset.
fn unexplained(
    alloc: Global,
    transcript: &Transcript,
    reads: &[u64],
    offset: u64,
) -> Result<String, AllocError>
    ensures { IfOk result (λ text. text.bytes.items ≡ unexplained_line transcript.now reads.now offset) }
{
    if reads.len() != 1 {
        let reads = numbers_of(alloc, reads)?;
        return format!(in alloc; "no order explains requests{reads} at offset {offset}\n");
    }
    let verdict = wrong_of(transcript, reads[0], offset);
    format!(in alloc; "{} in any order\n", Line { verdict })
}

// Numbers, each behind a space.
fn numbers_of(alloc: Global, numbers: &[u64]) -> Result<String, AllocError>
    ensures { IfOk result (λ text. text.bytes.items ≡ spaced_numbers numbers.now) }
{
    let mut text = String::new(alloc);
    for number in numbers {
        write!(&mut text, " {number}")?;
    }
    Ok(text)
}

// Why a search was broken off.
fn reason_name(reason: Reason) -> &'static str
    ensures { result.now ≡ reason_words reason }
{
    match reason {
        Reason::States => "too many states",
        Reason::Steps => "too many steps",
        Reason::Mistake => "a mistake of its own",
    }
}
