//! The members of the object that a line becomes: the values of its form, the fields of a message, or the numbers in words.

use crate::marks::{BEGUN, DIGITS, ENDED, NAMED};
use crate::object::Object;
use std::alloc::{AllocError, Global};

/// The words behind what holds in whatever order the requests were served.
const ANY: &str = " in any order";

/// The faults whose order's line names a request in place of an entry.
const OF_REQUESTS: &[&str] = &["Missing", "NotCovered"];

/// The faults of a session that is not judged: nobody broke a rule.
const OUTSIDE: &[&str] = &["OutOfProfile", "ExportTooLarge"];

/// The forms of lines: what is answered, what a no is about, and the line, with the names of its members in braces. Where nothing is
/// answered it is an entry of an order, or a line of a contents text behind what that says the export holds. Of a line the first form
/// counts that it has.
const FORMS: &str = "\
- - {request}
- - {request} {offset} {length}
- size size {size}
- zero zero {offset} {length}
- unknown unknown {offset} {length}
- data data {offset} {bytes}
ok - ok
yes - yes requests {requests} answered {answered} improper {improper}
no session no at byte {byte}: {fault}
no image no image {image} size {size}
no order no order entry {entry}: {fault}
no content no content request {request} offset {offset} in any order
no content no content request {request} offset {offset}
no status no status request {request} offset {offset} in any order
no status no status request {request} offset {offset}
no requests no order explains requests {wrong} at offset {offset}
agrees - agrees known {known} unknown {unknown}
no against no against offset {offset}
no against no against {image} size {size}
no export no export
open whole no order of whole requests found
open search gave up: {reason} at request {request} offset {offset}";

/// What stands in a form for no word.
const NONE: &str = "-";

/// Adds the members of a line of one of the forms, or of a fact.
pub fn tell_line(alloc: Global, line: &str, object: &mut Object) {
    for row in FORMS.split("\n") {
        let (verdict, behind) = row.split_once(" ").unwrap_or((row, ""));
        let (kind, form) = behind.split_once(" ").unwrap_or((behind, ""));
        if has_form(line, form) {
            return tell_form(line, verdict, kind, form, object);
        }
    }
    tell_fact(alloc, line, object);
}

fn tell_form(line: &str, verdict: &str, kind: &str, form: &str, object: &mut Object) {
    if verdict == NONE {
        tell_word("holds", kind, object);
        return tell_members(line, form, object);
    }
    object.text("line", line);
    object.text("verdict", verdict);
    tell_word("kind", kind, object);
    tell_members(line, form, object);
    // (of a session that is not judged nobody broke a rule)
    object.flag("judged", verdict != "open" && !ends_with_one(line, OUTSIDE));
}

fn tell_word(name: &str, word: &str, object: &mut Object) {
    if word != NONE {
        object.text(name, word);
    }
}

fn ends_with_one(line: &str, faults: &[&str]) -> bool {
    for fault in faults {
        if line.ends_with(*fault) {
            return true;
        }
    }
    false
}

// The words before the first value of a form, and what stands behind its brace.
fn front_of(form: &str) -> (&str, &str) {
    form.split_once("{").unwrap_or((form, ""))
}

// The name of a form behind a brace, its value in a line, and what is left of the line behind the words that follow, if that is so: the
// value is a number, where the name is none of those of a text or a list.
fn member_in<'a>(part: &'a str, line: &'a str) -> Option<(&'a str, &'a str, &'a str)> {
    let (name, behind) = part.split_once("}").unwrap_or((part, ""));
    let (value, left) = if behind.is_empty() {
        (line, "")
    } else {
        line.split_once(behind)?
    };
    if is_value(name, value) {
        Some((name, value, left))
    } else {
        None
    }
}

fn is_value(name: &str, value: &str) -> bool {
    matches!(name, "fault" | "reason" | "wrong" | "bytes") || value.parse::<u64>().is_ok()
}

// Whether a line has a form.
fn has_form(line: &str, form: &str) -> bool {
    let (front, values) = front_of(form);
    if values.is_empty() || !line.starts_with(front) {
        return line == form;
    }
    let mut rest = line.strip_prefix(front).unwrap_or("");
    for part in values.split("{") {
        match member_in(part, rest) {
            Some((_, _, left)) => rest = left,
            None => return false,
        }
    }
    rest.is_empty()
}

// The members of a line of this form.
fn tell_members(line: &str, form: &str, object: &mut Object) {
    let is_of_request = ends_with_one(line, OF_REQUESTS);
    let (front, values) = front_of(form);
    let mut rest = line.strip_prefix(front).unwrap_or("");
    for part in values.split("{") {
        if let Some((name, value, left)) = member_in(part, rest) {
            tell_member(name_for(name, is_of_request), value, object);
            rest = left;
        }
    }
    if form.ends_with(ANY) || form.starts_with("no order explains") {
        object.flag("any_order", true);
    }
}

// The name of a value; what stands in place of an entry where the fault is one of a request.
fn name_for(name: &str, is_of_request: bool) -> &str {
    if is_of_request && name == "entry" {
        "request"
    } else {
        name
    }
}

fn tell_member(name: &str, value: &str, object: &mut Object) {
    match name {
        "" => {}
        "bytes" => object.text(name, value),
        "wrong" => tell_list(name, value, object),
        _ => tell_value(name, value, object),
    }
}

// A member that is a list of numbers.
fn tell_list(name: &str, values: &str, object: &mut Object) {
    object.begin_list(name);
    for number in values.split(" ") {
        object.put_number(number.parse().unwrap_or(0));
    }
    object.end_list();
}

// A member that is a number where its value is one, and else a text.
fn tell_value(name: &str, value: &str, object: &mut Object) {
    match value.parse() {
        Ok(number) => object.number(name, number),
        Err(_) => object.text(name, value),
    }
}

/// Adds the fields of a message, as `show` prints them.
pub fn tell_fields(alloc: Global, fields: &str, object: &mut Object) {
    let mut is_name = true;
    for field in fields.split(" ") {
        match field.split_once("=") {
            Some(("payload", digits)) => object.text("payload", digits),
            Some(("cookie", cookie)) => tell_cookie(alloc, cookie, object),
            Some((name, value)) => tell_value(name, value, object),
            None if is_name => object.text("message", field),
            None => {}
        }
        is_name = false;
    }
}

// A cookie is a text, since a number with as many bits is none to many a reader.
fn tell_cookie(alloc: Global, cookie: &str, object: &mut Object) {
    let number: u64 = cookie.parse().unwrap_or(0);
    match format!(in alloc; "{number:#x}") {
        Ok(text) => object.text("cookie", text.as_str()),
        Err(refused) => object.note(Err(refused)),
    }
}

/// Adds the words of a message, and what became of a request.
pub fn tell_words(alloc: Global, words: &str, object: &mut Object) {
    tell_named_numbers(alloc, "text", words, object);
    if let Some(result) = result_in(words) {
        object.text("result", result);
    }
}

fn result_in(words: &str) -> Option<&'static str> {
    if words.ends_with(": success") {
        Some("success")
    } else if words.ends_with(": pending") {
        Some("pending")
    } else if words.contains(": failure, ") {
        Some("failure")
    } else {
        None
    }
}

// A line of `explain` behind the first: what it is about, and its numbers.
fn tell_fact(alloc: Global, line: &str, object: &mut Object) {
    object.text("fact", fact_of(line));
    tell_named_numbers(alloc, "line", line, object);
}

// What a line is about: the words before its first colon or number, or the first word of a row of bytes.
fn fact_of(line: &str) -> &str {
    let end = if line.starts_with("  ") { " " } else { ": " };
    let (front, _) = line.trim_start().split_once(end).unwrap_or((line, ""));
    let (label, _) = front.split_once(BEGUN).unwrap_or((front, ""));
    label.trim_end()
}

// A number in words: its name, whether it is told in hexadecimal, and its digits.
#[derive(Clone, Copy)]
struct Number<'a> {
    name: &'a str,
    is_text: bool,
    digits: &'a str,
}

// Words without what names the numbers in them, and these.
#[derive(Drop)]
struct Words<'a> {
    text: String,
    numbers: Vec<Number<'a>>,
    is_refused: bool,
}

impl<'a> Words<'a> {
    // Takes words with one number at most, whose name stands before it.
    fn add(&mut self, words: &'a str) {
        let (name, told) = words.split_once(NAMED).unwrap_or(("", words));
        let (digits, behind) = told.split_once(ENDED).unwrap_or((told, ""));
        self.is_refused |= self.text.push_str(digits).is_err();
        self.is_refused |= self.text.push_str(behind).is_err();
        if !name.is_empty() {
            let number = Number {
                name: name.strip_prefix(DIGITS).unwrap_or(name),
                is_text: name.starts_with(DIGITS),
                digits,
            };
            self.is_refused |= self.numbers.push(number).is_err();
        }
    }
}

// Adds words under this name, and the numbers in them: of those of one name a list, where there are several.
fn tell_named_numbers(alloc: Global, name: &str, words: &str, object: &mut Object) {
    let mut parts = Words {
        text: String::new(alloc),
        numbers: Vec::new(alloc),
        is_refused: false,
    };
    for part in words.split(BEGUN) {
        parts.add(part);
    }
    if parts.is_refused {
        object.note(Err(AllocError));
    }
    object.text(name, parts.text.as_str());
    tell_all(parts.numbers.as_slice(), object);
}

fn tell_all(numbers: &[Number<'_>], object: &mut Object) {
    for at in 0..numbers.len() {
        let name = numbers[at].name;
        if count_of(name, &numbers[..at]) == 0 {
            tell_named(name, &numbers[at..], object);
        }
    }
}

fn count_of(name: &str, numbers: &[Number<'_>]) -> usize {
    let mut count = 0usize;
    for number in numbers {
        if number.name == name {
            count = count.saturating_add(1);
        }
    }
    count
}

// The member of the numbers that have this name.
fn tell_named(name: &str, numbers: &[Number<'_>], object: &mut Object) {
    let is_list = count_of(name, numbers) > 1;
    if is_list {
        object.begin_list(name);
    } else {
        object.begin_member(name);
    }
    for number in numbers {
        if number.name == name {
            put(number, object);
        }
    }
    if is_list {
        object.end_list();
    }
}

fn put(number: &Number<'_>, object: &mut Object) {
    match number.digits.parse() {
        Ok(value) if !number.is_text => object.put_number(value),
        _ => object.put_text(number.digits),
    }
}
