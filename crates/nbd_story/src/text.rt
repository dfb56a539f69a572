//! The text that is being written: words, numbers with their names, places and flags.

use crate::recording::Recording;
use nbd_json::{BEGUN, DIGITS, ENDED, NAMED};
use nbd_wire::flags::has_wide;
use nbd_wire::names::{ERRORS, Name, name_in};
use nbd_wire::{Part, Side, flag_names, place_before};
use std::alloc::{AllocError, Global};
use std::fmt::Write;

/// How many bytes are shown before a place, and behind it.
const AROUND: u64 = 16;

/// A text that grows by what is said. Once memory was refused it stays as it is, and is not handed out.
#[derive(Drop)]
pub struct Text {
    written: String,
    is_refused: bool,
    /// Each number has its name before it, between signs that no text has.
    is_marked: bool,
}

impl Text {
    /// One without a word, in which numbers have their names where that is wanted; takes no memory.
    pub fn new(alloc: Global, is_marked: bool) -> Text {
        Text {
            written: String::new(alloc),
            is_refused: false,
            is_marked,
        }
    }

    /// What was said, where there was memory for all of it.
    pub fn finish(self) -> Result<String, AllocError> {
        if self.is_refused {
            Err(AllocError)
        } else {
            Ok(self.written)
        }
    }

    /// Notes that memory was refused for what it would say, where that is so.
    pub fn refused_if(mut self, is_refused: bool) -> Text {
        self.is_refused |= is_refused;
        self
    }

    /// Adds words.
    pub fn say(mut self, words: &str) -> Text {
        if !self.is_refused {
            self.is_refused = self.written.push_str(words).is_err();
        }
        self
    }

    /// Adds words where something holds.
    pub fn say_if(self, holds: bool, words: &str) -> Text {
        self.say(if holds { words } else { "" })
    }

    /// Adds another text.
    pub fn then(self, other: Text) -> Text {
        self.say(&other.written).refused_if(other.is_refused)
    }

    /// Ends the line.
    pub fn end(self) -> Text {
        self.say("\n")
    }

    /// Adds a line behind a label.
    pub fn line(self, label: &str, words: &str) -> Text {
        self.say(label).say(words).end()
    }

    /// Adds words with numbers in the places of their braces, in which they have a name: `{at}` is a number, `{at:#x}` one in hexadecimal,
    /// as `0x2a`, `{at:02x}` a byte, as `0a`, and `{at:byte}` so many bytes, as `1 byte` or `4 bytes`. Numbers without braces are left out.
    pub fn fill(self, words: &str, numbers: &[u64]) -> Text {
        let mut text = self;
        let mut rest = words;
        for number in numbers {
            let Some((before, behind)) = rest.split_once("{") else {
                break;
            };
            let (braces, later) = behind.split_once("}").unwrap_or((behind, ""));
            let (name, form) = braces.split_once(":").unwrap_or((braces, ""));
            text = text.say(before).value(name, *number, form);
            rest = later;
        }
        text.say(rest)
    }

    /// Adds words with numbers where something holds.
    pub fn fill_if(self, holds: bool, words: &str, numbers: &[u64]) -> Text {
        if holds {
            self.fill(words, numbers)
        } else {
            self
        }
    }

    /// Adds words with one number in the place of their braces.
    pub fn number(self, words: &str, number: u64) -> Text {
        self.fill(words, &[number])
    }

    /// Adds words with one number, or others where it is 0.
    pub fn number_or(self, number: u64, words: &str, others: &str) -> Text {
        self.number(if number == 0 { others } else { words }, number)
    }

    /// Adds words with a byte in the place of their braces, where it is known, and else other words.
    pub fn byte_or(self, byte: Option<u8>, words: &str, others: &str) -> Text {
        match byte {
            Some(byte) => self.number(words, u64::from(byte)),
            None => self.say(others),
        }
    }

    /// Adds how many more there are than were listed, in words with their number, where there are more.
    pub fn more(self, count: u64, listed: u64, words: &str) -> Text {
        self.fill_if(count > listed, words, &[count.saturating_sub(listed)])
    }

    /// Adds a number of this name in a form: `#x` and `02x` are in hexadecimal, and another one says what there are so many of.
    pub fn value(self, name: &str, number: u64, form: &str) -> Text {
        let is_marked = self.is_marked & !name.is_empty();
        let is_digits = form.ends_with("x");
        let mut text = self
            .say_if(is_marked, BEGUN)
            .say_if(is_marked & is_digits, DIGITS)
            .say_if(is_marked, name)
            .say_if(is_marked, NAMED);
        if !text.is_refused {
            text.is_refused = push_number(&mut text.written, number, form).is_err();
        }
        let is_counted = !is_digits & !form.is_empty();
        text.say_if(is_marked, ENDED)
            .say_if(is_counted, " ")
            .say_if(is_counted, form)
            .say_if(is_counted & (number != 1), "s")
    }

    /// Words and a part of an export: `4 bytes at 8`.
    pub fn part(self, words: &str, part: Part) -> Text {
        self.say(words)
            .fill("{length:byte} at {offset}", &[part.length, part.offset])
    }

    /// Words and places of a capture, from the first to the last: `byte 1`, `bytes 1 to 4`.
    pub fn places(self, words: &str, first: u64, last: u64) -> Text {
        let text = self.say(words);
        if first == last {
            text.number("byte {first}", first)
        } else {
            text.fill("bytes {first} to {last}", &[first, last])
        }
    }

    /// A number with its name, as `NBD_OPT_GO (7)`; one that its table does not have as `option 77`.
    pub fn name(self, table: &[Name], noun: &str, number: u32) -> Text {
        match name_in(table, number) {
            Some(name) => self
                .say(name)
                .say(" (")
                .value(noun, u64::from(number), "")
                .say(")"),
            None => self.say(noun).say(" ").value(noun, u64::from(number), ""),
        }
    }

    /// An error of a request, behind words.
    pub fn error(self, words: &str, number: u32) -> Text {
        self.say(words).name(ERRORS, "error", number)
    }

    /// A field of flags, as `FUA DF (0x5)`; without a flag `no flags`. A flag that the table does not have is seen in the number alone.
    pub fn flags(self, table: &[Name], bits: u32) -> Text {
        let mut text = self;
        for (mask, name) in table {
            let is_set = has_wide(bits, *mask);
            text = text.say_if(is_set, name).say_if(is_set, " ");
        }
        text.number_or(u64::from(bits), "({flags:#x})", "no flags")
    }

    /// The size and the flags of an export: `8 bytes, HAS_FLAGS (0x1)`.
    pub fn export(self, words: &str, size: u64, flags: u16) -> Text {
        self.say(words)
            .number("{size:byte}, ", size)
            .flags(flag_names::TRANSMISSION, u32::from(flags))
    }

    /// Adds the bytes round this place of the capture, with the place in brackets: a line for each stretch of one side.
    pub fn window(self, recording: &Recording, place: u64) -> Text {
        let first = place_before(place, AROUND);
        let last = place.saturating_add(AROUND).min(recording.len());
        let mut text = self.places("", first, last).say(":");
        for at in first..last.saturating_add(1) {
            let side = recording.side(at);
            if at == first || side != recording.side(at.saturating_sub(1)) {
                text = text.say("\n  ").say(letter_of(side));
            }
            let before = recording.count_up_to(side, at).saturating_sub(1);
            let words = if at == place { " [{:02x}]" } else { " {:02x}" };
            text = text.number(words, u64::from(recording.byte(side, before)));
        }
        text.end()
    }
}

fn push_number(out: &mut String, number: u64, form: &str) -> Result<(), AllocError> {
    match form {
        "#x" => write!(out, "{number:#x}"),
        "02x" => write!(out, "{number:02x}"),
        _ => write!(out, "{number}"),
    }
}

/// The letter of a side, as in a capture.
pub fn letter_of(side: Side) -> &'static str {
    match side {
        Side::Client => "C",
        Side::Server => "S",
    }
}
