//! What is written of the files of a run.

ghost use Rattle.std.specs.Prelude.{◌≡◌, ◌⊎◌, Err, IfErr, IfOk, Ok};
ghost use Rattle.nbd_files.specs.declared.fault.RunFault.TheVariants.{Memory, Write};

use nbd_explain::{
    Answer, Ordered, run_arrival, run_contents, run_explain, run_lint, run_names, run_order,
    run_show_of, write_rules,
};
use nbd_files::{Files, FinalWriter, Opener, RunFault, StartFrom, open_start, terminal};
use nbd_json::{Lines, Objects};
use nbd_lines::run_make;
use nbd_search::Progress;
use nbd_tool::check_files;
use nbd_words::{Asked, Linting};
use std::alloc::Global;
use std::fs::File;
use std::io;
use std::io::{BufRead, BufReader, BufWriter, Write};

/// Standard output, which holds what is written until it is flushed, and makes objects of lines where they are wanted.
type Output<'a> = Objects<BufWriter<FinalWriter<io::Printer<'a, HostRuntime>>>>;

// Standard output for these lines, or for their objects where JSON is asked for.
fn output_of<'a>(
    rt: &'a HostRuntime,
    asked: &Asked<'_>,
    lines: Lines,
) -> Result<Output<'a>, RunFault> {
    let lines = if asked.is_json { lines } else { Lines::Plain };
    match BufWriter::new(rt.alloc(), FinalWriter::new(io::writer(rt))) {
        Ok(out) => Ok(Objects::new(rt.alloc(), out, lines)),
        Err(_) => Err(RunFault::Memory),
    }
}

// The answer of what wrote to an output, once all that this holds is written; where memory was refused for an object, that.
fn ended<W: Write, A: Drop>(
    out: &mut Objects<W>,
    answer: Result<A, RunFault>,
) -> Result<A, RunFault>
    ensures answer { IfOk result (λ given. answer ≡ Ok given) }
    ensures fault { IfErr result (λ fault. (answer ≡ Err fault) ⊎ (fault ≡ Write) ⊎ (fault ≡ Memory)) }
{
    match answer {
        Ok(_) if out.flush().is_err() => Err(RunFault::Write),
        Err(_) if out.is_refused() => Err(RunFault::Memory),
        answer => answer,
    }
}

/// Opens the files in the order capture, order, image, and then checks the session.
pub fn check_inputs(files: &mut Files<'_>, asked: &Asked<'_>) -> Result<bool, RunFault> {
    let mut out = output_of(files.rt, asked, Lines::Others)?;
    let order = asked.order.unwrap_or("");
    let answer = check_files(
        files,
        asked.profile,
        asked.input,
        order,
        asked.start,
        &mut out,
    );
    ended(&mut out, answer)
}

/// Opens the files in the order capture, order, image, where there are such, and then explains.
pub fn explain_files(files: &mut Files<'_>, asked: &Asked<'_>) -> Result<Answer, RunFault> {
    let capture = files.open_buffered(asked.input, RunFault::CaptureRead)?;
    let mut out = output_of(files.rt, asked, Lines::Others)?;
    let answer = explain_over(files, asked, capture, &mut out);
    ended(&mut out, answer)
}

// The same over a capture that was opened.
fn explain_over<C: BufRead + Drop, W: Write>(
    files: &mut Files<'_>,
    asked: &Asked<'_>,
    capture: C,
    out: &mut W,
) -> Result<Answer, RunFault> {
    let order = opened(files, asked.order, RunFault::OrderRead)?;
    let start = open_start(files, asked.start)?;
    run_explain(
        files.rt.alloc(),
        asked.profile,
        asked.is_json,
        capture,
        order,
        start,
        asked.scope.limits,
        out,
        &mut Progress::new(terminal(files.rt)),
    )
}

/// Opens the capture and then the image, if there is one, and looks for an order.
pub fn order_files(files: &mut Files<'_>, asked: &Asked<'_>) -> Result<Ordered, RunFault> {
    let mut out = output_of(files.rt, asked, Lines::Others)?;
    let answer = order_into(files, asked, &mut out);
    ended(&mut out, answer)
}

fn order_into<W: Write>(
    files: &mut Files<'_>,
    asked: &Asked<'_>,
    out: &mut W,
) -> Result<Ordered, RunFault> {
    let (rt, alloc) = (files.rt, files.rt.alloc());
    let capture = files.open_buffered(asked.input, RunFault::CaptureRead)?;
    let start = open_start(files, asked.start)?;
    run_order(
        alloc,
        asked.profile,
        capture,
        start,
        asked.scope,
        out,
        &mut Progress::new(terminal(rt)),
    )
}

/// Opens the files in the order capture, order, start, image, where there are such, and then writes what the session leaves.
pub fn contents_files(files: &mut Files<'_>, asked: &Asked<'_>) -> Result<bool, RunFault> {
    let capture = files.open_buffered(asked.input, RunFault::CaptureRead)?;
    let mut out = output_of(files.rt, asked, Lines::Others)?;
    let answer = contents_over(files, asked, capture, &mut out);
    ended(&mut out, answer)
}

// The same over a capture that was opened.
fn contents_over<C: BufRead + Drop, W: Write>(
    files: &mut Files<'_>,
    asked: &Asked<'_>,
    capture: C,
    out: &mut W,
) -> Result<bool, RunFault> {
    let order = opened(files, asked.order, RunFault::OrderRead)?;
    let (start, against) = opened_last(files, asked)?;
    let alloc = files.rt.alloc();
    run_contents(alloc, asked.profile, capture, order, start, against, out)
}

// Opens the start and the image, where there are such.
fn opened_last(
    files: &mut Files<'_>,
    asked: &Asked<'_>,
) -> Result<(StartFrom<File>, Option<File>), RunFault> {
    let start = open_start(files, asked.start)?;
    let against = opened(files, asked.against, RunFault::AgainstRead)?;
    Ok((start, against))
}

// Opens the file with this path, if there is one.
fn opened(
    files: &mut Files<'_>,
    path: Option<&str>,
    fault: RunFault,
) -> Result<Option<File>, RunFault> {
    match path {
        None => Ok(None),
        Some(path) => match files.open(path) {
            Ok(file) => Ok(Some(file)),
            Err(_) => Err(fault),
        },
    }
}

/// What is written of a file, in the profile that is asked for.
#[derive(Clone, Copy)]
pub enum Written {
    /// The numbers of a capture's requests, in the order in which they came.
    Numbers,
    /// A capture's messages as lines of a script.
    Lines,
    /// A capture's messages in words.
    Names,
    /// The capture of a script.
    Capture,
}

/// Opens the input and writes this of it, or objects of JSON; false where its session was refused.
pub fn write_of(
    files: &mut Files<'_>,
    asked: &Asked<'_>,
    written: Written,
) -> Result<bool, RunFault> {
    let (lines, fault) = match written {
        Written::Numbers => (Lines::Others, RunFault::CaptureRead),
        Written::Lines => (Lines::Messages, RunFault::CaptureRead),
        Written::Names => (Lines::Words, RunFault::CaptureRead),
        Written::Capture => (Lines::Plain, RunFault::ScriptRead),
    };
    let input = files.open_buffered(asked.input, fault)?;
    let mut out = output_of(files.rt, asked, lines)?;
    let answer = write_to(files.rt.alloc(), input, asked, written, &mut out);
    ended(&mut out, answer)
}

// Writes this of an input, with the names of numbers where objects are made of it.
fn write_to<W: Write>(
    alloc: Global,
    input: BufReader<File>,
    asked: &Asked<'_>,
    written: Written,
    out: &mut W,
) -> Result<bool, RunFault> {
    match written {
        Written::Numbers => run_arrival(alloc, asked.profile, input, out),
        Written::Lines => run_show_of(alloc, asked.profile, input, out),
        Written::Names => run_names(alloc, asked.profile, asked.is_json, input, out),
        Written::Capture => {
            run_make(alloc, input, out)?;
            Ok(true)
        }
    }
}

/// Opens the capture, and writes what its session breaks; or writes the rules.
pub fn lint_files(
    files: &mut Files<'_>,
    asked: &Asked<'_>,
    linting: &Linting,
) -> Result<bool, RunFault> {
    let (rt, alloc) = (files.rt, files.rt.alloc());
    let mut out = io::writer(rt);
    if linting.is_list {
        return write_rules(alloc, &mut out);
    }
    let capture = files.open_buffered(asked.input, RunFault::CaptureRead)?;
    run_lint(alloc, asked.profile, capture, &linting.wanted, &mut out)
}
