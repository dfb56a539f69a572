//! The sentence of a breach.

use crate::breach::Breach;
use crate::queries::first_query;
use nbd_wire::names::{COMMANDS, ERRORS, INFOS, Name, OPTIONS, REPLIES, name_in};
use nbd_wire::{bytes_in, listed_of, queries_of};
use std::alloc::{AllocError, Global};
use std::fmt::Write;

/// How many bytes of a name are told.
const NAMED: usize = 40;

/// How many queries are listed.
const LISTED: u32 = 4;

/// What stands in place of braces: a number of the breach, one in hexadecimal, or the name of one; or what the breach speaks of
/// beside its numbers.
#[derive(Clone, Copy)]
enum Brace {
    Number,
    Flags,
    Option,
    Reply,
    Info,
    Error,
    Request,
    String,
    First,
    Second,
    Queries,
}

/// The words between braces.
const BRACES: &[(&str, Brace)] = &[
    ("", Brace::Number),
    ("flags", Brace::Flags),
    ("option", Brace::Option),
    ("reply", Brace::Reply),
    ("info", Brace::Info),
    ("error", Brace::Error),
    ("request", Brace::Request),
    ("string", Brace::String),
    ("name", Brace::First),
    ("other", Brace::Second),
    ("queries", Brace::Queries),
];

impl Brace {
    // The one with these words.
    fn of(words: &str) -> Brace {
        for (known, brace) in BRACES {
            if *known == words {
                return *brace;
            }
        }
        Brace::Number
    }

    // Whether it is a number of the breach.
    fn is_number(self) -> bool {
        self as u8 <= Brace::Error as u8
    }
}

/// A text that grows by what is said. Once memory was refused it is not handed out.
#[derive(Drop)]
pub struct Line {
    pub text: String,
    pub is_refused: bool,
}

impl Line {
    /// One without a word; takes no memory.
    pub fn new(alloc: Global) -> Line {
        Line {
            text: String::new(alloc),
            is_refused: false,
        }
    }

    /// What was said, where there was memory for all of it.
    pub fn finish(self) -> Result<String, AllocError> {
        if self.is_refused {
            Err(AllocError)
        } else {
            Ok(self.text)
        }
    }

    /// Adds words.
    pub fn say(&mut self, words: &str) {
        self.is_refused |= self.text.push_str(words).is_err();
    }

    /// Adds words and a number.
    pub fn with(&mut self, words: &str, number: u64) {
        self.is_refused |= write!(self.text, "{words}{number}").is_err();
    }

    // Adds words and a number in hexadecimal, with so many digits or more.
    fn hexadecimal(&mut self, words: &str, digits: usize, number: u64) {
        self.is_refused |= write!(self.text, "{words}{number:0digits$x}").is_err();
    }

    // Adds a name between quotation marks; of a longer one the first bytes.
    fn quoted(&mut self, name: &[u8]) {
        self.say("\"");
        for byte in bytes_in(name, 0, NAMED.min(name.len())) {
            match *byte {
                plain @ (b'!' | b'#'..=b'[' | b']'..=b'~') => {
                    self.is_refused |= self.text.push(char::from(plain)).is_err();
                }
                other => self.hexadecimal("\\x", 2, u64::from(other)),
            }
        }
        self.say("\"");
    }

    // Adds the first queries in the data of an option, and how many more there are.
    fn queries(&mut self, payload: &[u8]) {
        let Some((_, count)) = queries_of(payload) else {
            return;
        };
        let mut rest = first_query(payload);
        for number in 0..count.min(LISTED) {
            let Some((query, behind)) = listed_of(rest) else {
                return;
            };
            self.say(if number == 0 { "" } else { ", " });
            self.quoted(query);
            rest = behind;
        }
        if count > LISTED {
            self.with(" and ", u64::from(count - LISTED));
            self.say(" more");
        }
    }

    // Adds the name of a number, behind a prefix that is left out; one that the table does not have as a noun and the number.
    fn name(&mut self, table: &[Name], prefix: &str, noun: &str, number: u64) {
        match name_in(table, (number & 0xffff_ffff) as u32) {
            Some(name) => self.say(name.strip_prefix(prefix).unwrap_or(name)),
            None => self.with(noun, number),
        }
    }

    // Adds a kind of reply to an option; 0 is the answer to EXPORT_NAME.
    fn reply(&mut self, kind: u64) {
        if kind == 0 {
            self.say("an export");
        } else if name_in(REPLIES, (kind & 0xffff_ffff) as u32).is_some() {
            self.name(REPLIES, "NBD_REP_", "", kind);
        } else {
            self.hexadecimal("error 0x", 4, kind);
        }
    }

    // Adds an error of a request, with its number.
    fn error(&mut self, number: u64) {
        match name_in(ERRORS, (number & 0xffff_ffff) as u32) {
            Some(name) => {
                self.say(name);
                self.with(" (", number);
                self.say(")");
            }
            None => self.with("error ", number),
        }
    }

    // Adds a request with its type.
    fn request(&mut self, breach: &Breach<'_, '_>) {
        self.with("request ", breach.request);
        self.say(" (");
        self.name(COMMANDS, "", "command ", u64::from(breach.command));
        self.say(")");
    }

    // Adds which string it is.
    fn string(&mut self, breach: &Breach<'_, '_>) {
        self.say(breach.string.words);
        if breach.string.number != 0 {
            self.with(" ", breach.string.number);
        }
    }

    // Adds what a breach says in the place of braces, whose number this is where they ask for one.
    fn put(&mut self, brace: Brace, number: u64, breach: &Breach<'_, '_>) {
        let [first, second] = breach.names;
        match brace {
            Brace::Number => self.with("", number),
            Brace::Flags => self.hexadecimal("0x", 4, number),
            Brace::Option => self.name(OPTIONS, "NBD_OPT_", "option ", number),
            Brace::Reply => self.reply(number),
            Brace::Info => self.name(INFOS, "NBD_INFO_", "type ", number),
            Brace::Error => self.error(number),
            Brace::Request => self.request(breach),
            Brace::String => self.string(breach),
            Brace::First => self.quoted(first),
            Brace::Second => self.quoted(second),
            Brace::Queries => self.queries(second),
        }
    }

    /// Adds a sentence, with what a breach says in the places of its braces: `{}` is a number, `{flags}` one in hexadecimal,
    /// `{option}`, `{reply}`, `{info}` and `{error}` the names of numbers; `{request}`, `{string}`, `{name}`, `{other}` and
    /// `{queries}` what the breach speaks of beside its numbers.
    pub fn sentence(&mut self, words: &str, breach: &Breach<'_, '_>) {
        let mut rest = words;
        let mut next = 0usize;
        for _ in 0..words.len() {
            let Some((before, behind)) = rest.split_once("{") else {
                break;
            };
            let (form, later) = behind.split_once("}").unwrap_or((behind, ""));
            let brace = Brace::of(form);
            self.say(before);
            let number = breach.numbers.get(next).copied().unwrap_or(0);
            self.put(brace, number, breach);
            next = next.saturating_add(usize::from(brace.is_number()));
            rest = later;
        }
        self.say(rest);
    }
}
