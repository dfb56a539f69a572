//! The rules on strings (proto.md, "Conventions"), and where messages have some.

use crate::breach::Label;
use crate::contexts::name_in;
use crate::fields::{bytes_behind, message_of};
use crate::notes::Notes;
use crate::numbers::{LONGEST_STRING, USUAL_STRING};
use crate::queries::place_in;
use crate::table::Name;
use nbd_wire::answers::is_error;
use nbd_wire::{Info, answers, info_of, infos, listed_of};

const NAME: &str = "the export's name";

/// Judges a string of a message: it holds a NUL, is no UTF-8, or is longer than any may be, or than is usual.
pub fn judge_string(words: &'static str, number: u64, bytes: &[u8], notes: &mut Notes) {
    let string = Label { words, number };
    let length = bytes.len();
    let is_too_long = length > LONGEST_STRING;
    let nul = place_in(bytes, 0);
    notes.note_string(Name::StringWithNul, nul != 0, string, nul);
    if let Err(error) = str::from_utf8(bytes) {
        let place = error.valid_up_to().saturating_add(1);
        notes.note_string(Name::StringNotUtf8, true, string, place);
    }
    notes.note_string(Name::StringTooLong, is_too_long, string, length);
    notes.note_string(
        Name::StringOver256,
        length > USUAL_STRING && !is_too_long,
        string,
        length,
    );
}

/// Judges the name of an export.
pub fn judge_name(name: &[u8], notes: &mut Notes) {
    judge_string(NAME, 0, name, notes);
}

/// Judges the strings of an answer to an option.
pub fn judge_answer_strings(kind: u32, answer: &[u8], notes: &mut Notes) {
    match kind {
        answers::SERVER => judge_server(answer, notes),
        answers::INFO => judge_info(answer, notes),
        answers::META_CONTEXT => judge_string("the context's name", 0, name_in(answer), notes),
        _ if is_error(kind) => judge_string("the message of the error", 0, answer, notes),
        _ => {}
    }
}

// Judges the name and the details of a SERVER answer.
fn judge_server(answer: &[u8], notes: &mut Notes) {
    if let Some((name, details)) = listed_of(answer) {
        judge_name(name, notes);
        judge_string("the export's details", 0, details, notes);
    }
}

// Judges an info that is a name or a description.
fn judge_info(answer: &[u8], notes: &mut Notes) {
    if let Some(Info::Other { kind }) = info_of(answer) {
        let text = bytes_behind(answer, 2);
        match kind {
            infos::NAME => judge_name(text, notes),
            infos::DESCRIPTION => judge_string("the export's description", 0, text, notes),
            _ => {}
        }
    }
}

/// Judges the message of an error chunk.
pub fn judge_message(error: u32, payload: &[u8], notes: &mut Notes) {
    let message = message_of(payload);
    judge_string("the message of error", u64::from(error), message, notes);
}
