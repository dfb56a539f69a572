//! What is wrong with a line that is malformed.

ghost use Rattle.std.specs.Prelude.{◌≡◌, ◌++◌, ◌∷◌, [], IfOk};
ghost use Rattle.nbd_capture.specs.Lines.{line_feed};

use nbd_lines::forms::{FORMS, Field, Form};
use std::str;

/// What is wrong with a line, and at which of its bytes, counted from 1, where it is one.
pub type Mistake = (&'static str, Option<usize>);

/// What is wrong with a line of a capture, whose line feed stands in it.
pub fn capture_mistake(line: &[u8]) -> Mistake {
    match ended(line) {
        Ok(line) => chunk_mistake(line),
        Err(words) => (words, None),
    }
}

/// What is wrong with a line of an order, whose line feed stands in it.
pub fn order_mistake(line: &[u8]) -> Mistake {
    match ended(line) {
        Ok(line) => entry_mistake(line),
        Err(words) => (words, None),
    }
}

/// What is wrong with a line of a script, whose line feed stands in it.
pub fn script_mistake(line: &[u8]) -> Mistake {
    match ended(line) {
        Ok(line) => message_mistake(line),
        Err(words) => (words, None),
    }
}

/// What is wrong with a line of a contents text, whose line feed stands in it. Before it this line told something last, if one did.
pub fn contents_mistake(line: &[u8], before: &[u8]) -> Mistake {
    let words = match (ended(line), before) {
        _ if line.is_empty() => "the text ends before it told all bytes of its size",
        (Ok(line), []) => size_mistake(line),
        (Ok(line), _) => piece_mistake(line, before),
        (Err(words), _) => words,
    };
    (words, None)
}

// The line without the line feed, or what is wrong with its end, whatever stands in it.
fn ended(line: &[u8]) -> Result<&[u8], &'static str>
    ensures { IfOk result (λ text. line.now ≡ text.now ++ line_feed ∷ []) }
{
    match line {
        [.., b'\r', b'\n'] => Err("a carriage return ends the line"),
        [line @ .., b'\n'] => Ok(line),
        _ => Err("no line feed ends the line"),
    }
}

fn chunk_mistake(line: &[u8]) -> Mistake {
    match line {
        [b'C' | b'S', b' ', digits @ ..] => digits_mistake(digits),
        [b'C' | b'S', ..] => ("behind C or S stands one space", None),
        [b'c' | b's', ..] => ("the side is C or S, and no small letter", None),
        [b' ', ..] => ("the line begins with a space", None),
        [0xef, 0xbb, 0xbf, ..] => ("a byte order mark begins the line", None),
        _ => ("a line begins with C or S and one space", None),
    }
}

// What is wrong with the digits of a chunk line, which begin with its third byte.
fn digits_mistake(digits: &[u8]) -> Mistake {
    match digits.iter().position(|byte| !byte.is_ascii_hexdigit()) {
        Some(0) if digits[0] == b' ' => ("behind C or S stands one space", None),
        Some(place) => (
            "there is another character than a hexadecimal digit",
            Some(place + 3),
        ),
        None => ("the number of hexadecimal digits is odd", None),
    }
}

fn message_mistake(line: &[u8]) -> Mistake {
    for form in &FORMS {
        match line.strip_prefix(form.words()) {
            Some([]) => return fields_mistake(*form, &[]),
            Some([b' ', fields @ ..]) => return fields_mistake(*form, fields),
            _ => {}
        }
    }
    (
        "a line begins with the words of a message, as 'C request' or 'S simple'",
        None,
    )
}

// What is wrong with what stands behind the words of a message and a space: with its first bad field, or else with its payload.
fn fields_mistake(form: Form, text: &[u8]) -> Mistake {
    let mut rest = Some(text);
    let mut place = form.words().len() + 2;
    for field in form.fields() {
        let (word, behind) = parted(rest.unwrap_or(b""));
        if let Some(words) = field_mistake(field, word) {
            return (words, Some(place));
        }
        place = place.saturating_add(word.len()).saturating_add(1);
        rest = behind;
    }
    if form.has_payload() {
        let (word, behind) = parted(rest.unwrap_or(b""));
        if let Some(words) = payload_mistake(word) {
            return (words, Some(place));
        }
        rest = behind;
    }
    match rest {
        Some(_) => ("behind the last field stands nothing", None),
        None => ("no message has these numbers and this payload", None),
    }
}

// The word before the first space, and what stands behind that, where there is one.
fn parted(text: &[u8]) -> (&[u8], Option<&[u8]>) {
    match text.iter().position(|byte| *byte == b' ') {
        Some(place) => (&text[..place], Some(&text[place + 1..])),
        None => (text, None),
    }
}

fn field_mistake(field: &Field, word: &[u8]) -> Option<&'static str> {
    let digits = match word.strip_prefix(field.name.text()) {
        Some([b'=', digits @ ..]) => digits,
        _ => return Some("another field stands here in this message"),
    };
    if digits.is_empty() || !digits.iter().all(|byte| byte.is_ascii_digit()) {
        return Some("behind = stands a decimal number");
    }
    match number_of(digits) {
        Some(number) if number <= field.most => number_mistake(digits),
        _ => Some("the number is greater than its field holds"),
    }
}

fn payload_mistake(word: &[u8]) -> Option<&'static str> {
    let Some(digits) = word.strip_prefix(b"payload=") else {
        return Some("the last field of this message is payload=");
    };
    spelling_mistake(digits)
}

// What is wrong with digits that spell bytes.
fn spelling_mistake(digits: &[u8]) -> Option<&'static str> {
    match digits_mistake(digits) {
        (_, None) if digits.len() % 2 == 0 => None,
        (words, _) => Some(words),
    }
}

fn entry_mistake(line: &[u8]) -> Mistake {
    let other = line
        .iter()
        .position(|byte| !byte.is_ascii_digit() && *byte != b' ');
    match other {
        Some(place) => ("there is another character than a digit", Some(place + 1)),
        None if line.is_empty() => ("the line is empty", None),
        None => (numbers_mistake(line), None),
    }
}

// What is wrong with a line of digits and spaces: with its first bad number, or else with how many there are.
fn numbers_mistake(line: &[u8]) -> &'static str {
    for number in line.split(|byte| *byte == b' ') {
        if let Some(words) = number_mistake(number) {
            return words;
        }
    }
    "an entry is one number, or three: a request, an offset and a length"
}

// What is wrong with the first line of a contents text that tells something.
fn size_mistake(line: &[u8]) -> &'static str {
    match line.strip_prefix(b"size ") {
        Some(digits) => count_mistake(digits).unwrap_or("a size is at most 9223372036854775807"),
        None => "the first line is size, one space and a number of bytes",
    }
}

// What is wrong with a later one, behind this line.
fn piece_mistake(line: &[u8], before: &[u8]) -> &'static str {
    let (word, offset, value, is_longer) = words_of(line);
    word_mistake(word, value.is_empty() | is_longer)
        .or(offset_mistake(offset, end_of(before)))
        .or(value_mistake(word, value))
        .unwrap_or("the line passes the size")
}

// What is wrong with the first word of a later line, or with how many words it has.
fn word_mistake(word: &[u8], has_others: bool) -> Option<&'static str> {
    match word {
        b"size" => Some("the size is told once, before all bytes"),
        b"zero" | b"unknown" | b"data" if has_others => Some(
            "a line has a word, an offset, and how many bytes or which, with one space between two",
        ),
        b"zero" | b"unknown" | b"data" => None,
        _ => Some("a line begins with zero, unknown or data and one space"),
    }
}

// The first three words of a line, empty where it has fewer, and whether it has more.
fn words_of(line: &[u8]) -> (&[u8], &[u8], &[u8], bool) {
    let (word, behind) = parted(line);
    let (offset, behind) = parted(behind.unwrap_or(b""));
    let (value, behind) = parted(behind.unwrap_or(b""));
    (word, offset, value, behind.is_some())
}

// Where a line of contents ended; 0 of the one with the size.
fn end_of(line: &[u8]) -> u64 {
    let (word, offset, value, _) = words_of(line);
    let offset = number_of(offset).unwrap_or(0);
    match word {
        b"size" => 0,
        b"data" => offset.saturating_add(value.len() as u64 / 2),
        _ => offset.saturating_add(number_of(value).unwrap_or(0)),
    }
}

// What is wrong with the offset of a line that has to begin at this one.
fn offset_mistake(digits: &[u8], wanted: u64) -> Option<&'static str> {
    match count_mistake(digits) {
        None if number_of(digits) != Some(wanted) => Some(
            "a line begins at the offset where the one before ended, the first one at 0",
        ),
        mistake => mistake,
    }
}

// What is wrong with what a line tells from its offset on: which bytes of data, or how many others.
fn value_mistake(word: &[u8], value: &[u8]) -> Option<&'static str> {
    match (word, value) {
        (b"data", _) => spelling_mistake(value),
        (_, b"0") => Some("a line tells of one byte or more"),
        _ => count_mistake(value),
    }
}

// What is wrong with digits that say how many bytes there are, or at which one a line begins.
fn count_mistake(digits: &[u8]) -> Option<&'static str> {
    if digits.iter().all(|byte| byte.is_ascii_digit()) {
        number_mistake(digits)
    } else {
        Some("another character stands in a number than a digit")
    }
}

fn number_mistake(digits: &[u8]) -> Option<&'static str> {
    match digits {
        [] => Some("one space stands between two numbers, and no other"),
        [b'0', _, ..] => Some("a number begins with a zero"),
        _ if number_of(digits).is_some() => None,
        _ => Some("a number is too long: it is 2^64 or more"),
    }
}

// The number below 2^64 of these digits.
fn number_of(digits: &[u8]) -> Option<u64> {
    match str::from_utf8(digits) {
        Ok(text) => text.parse().ok(),
        Err(_) => None,
    }
}
