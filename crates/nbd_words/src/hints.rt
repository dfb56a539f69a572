//! What a person is told of an input beside the answer, on standard error: what the capture looks like, and what is wrong with a line.

use crate::asked::Asked;
use crate::glance::{is_answer, is_empty, is_exchanged, line_of, lines_of, unreadable};
use crate::mistakes::{Mistake, capture_mistake, contents_mistake, order_mistake, script_mistake};
use nbd_files::{Files, RunFault, StartWord, tell};

/// Says that nothing was recorded, or, of a session that was refused, that its sides are exchanged, where that is so.
pub fn tell_of_capture(rt: &HostRuntime, path: &str, is_refused: bool) {
    if is_empty(rt, path) {
        tell(rt, "the capture is empty: nothing was recorded");
    } else if is_refused && is_exchanged(rt, path) {
        tell(
            rt,
            "the first bytes of C are a server's (NBDMAGIC): C and S are exchanged in this capture",
        );
    }
}

/// Says why an input could not be read, or what is wrong with the line that a fault names.
pub fn tell_of_fault(files: &Files<'_>, fault: &RunFault, asked: &Asked<'_>) {
    let order = asked.order.unwrap_or("");
    match fault {
        RunFault::CaptureRead | RunFault::ScriptRead => hint_of_file(files, asked.input),
        RunFault::OrderRead => hint_of_file(files, order),
        RunFault::ImageRead | RunFault::ContentsRead => hint_of_file(files, path_in(asked.start)),
        RunFault::AgainstRead => hint_of_file(files, asked.against.unwrap_or("")),
        RunFault::CaptureLine(number) => tell_of_chunk(files, asked.input, *number),
        RunFault::OrderLine(number) => tell_of_order(files, order, *number),
        RunFault::ScriptLine(number) => tell_of_message(files, asked.input, *number),
        RunFault::ContentsLine(number) => tell_of_contents(files, path_in(asked.start), *number),
        RunFault::Write | RunFault::Memory => {}
    }
}

// Says why a file cannot be read, where that is seen.
fn hint_of_file(files: &Files<'_>, path: &str) {
    if let Some(reason) = unreadable(files.rt, path) {
        if let Ok(text) = format!(in files.rt.alloc(); "{path}: {reason}") {
            files.hint(text);
        }
    }
}

// The path of the image or of the contents text, where the start is one.
fn path_in<'a>(start: StartWord<'a>) -> &'a str {
    match start {
        StartWord::Image(path) | StartWord::Contents(path) => path,
        StartWord::Unknown | StartWord::Zero => "",
    }
}

// Says what is wrong with the line of a capture, where reasons are told.
fn tell_of_chunk(files: &Files<'_>, path: &str, number: u64) {
    if let Some(line) = shown_line(files, path, number) {
        hint_at(files, capture_mistake(&line));
    }
}

// The same of a script.
fn tell_of_message(files: &Files<'_>, path: &str, number: u64) {
    if let Some(line) = shown_line(files, path, number) {
        hint_at(files, script_mistake(&line));
    }
}

// Says that an order is an answer that has none, and else, where reasons are told, what is wrong with its line.
fn tell_of_order(files: &Files<'_>, path: &str, number: u64) {
    if number == 1 && is_answer(files.rt, path) {
        tell(
            files.rt,
            "line 1 is no entry of an order but an answer: 'no' or 'gave up'",
        );
    } else if let Some(line) = shown_line(files, path, number) {
        hint_at(files, order_mistake(&line));
    }
}

// Says what is wrong with the line of a contents text, where reasons are told.
fn tell_of_contents(files: &Files<'_>, path: &str, number: u64) {
    if files.are_hints_told() {
        if let Some((before, line)) = lines_of(files.rt, path, number) {
            hint_at(files, contents_mistake(&line, &before));
        }
    }
}

// The line of a file, where reasons are told.
fn shown_line(files: &Files<'_>, path: &str, number: u64) -> Option<Vec<u8>> {
    if files.are_hints_told() {
        line_of(files.rt, path, number)
    } else {
        None
    }
}

fn hint_at(files: &Files<'_>, mistake: Mistake) {
    match mistake {
        (words, Some(place)) => {
            if let Ok(text) = format!(in files.rt.alloc(); "{words}, at byte {place} of the line") {
                files.hint(text);
            }
        }
        (words, None) => files.hint(words),
    }
}
