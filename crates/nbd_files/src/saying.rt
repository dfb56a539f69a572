//! What is said on standard error.

ghost use Rattle.std.specs.Prelude.{◌≡◌};
ghost use Rattle.nbd_files.specs.CommandLine.{words_status};

use std::fmt::Display;
use std::io::{ErrorKind, IsTerminal, Stderr};

/// The exit status of a command line that is malformed.
const USAGE: u8 = 2;
/// The exit status of out of memory.
const MEMORY: u8 = 4;

/// Prints a fault on standard error, and answers the status.
pub fn complain<D: Display + Drop>(rt: &HostRuntime, text: D, status: u8) -> u8
    ensures { result ≡ status }
{
    tell(rt, text);
    status
}

/// Says why the words that the program was called with could not be had, and answers the exit status: 4 of out of memory, and 2 of
/// a word that is not UTF-8.
pub fn refuse_words(rt: &HostRuntime, kind: ErrorKind) -> u8
    ensures { result ≡ words_status kind }
{
    if kind == ErrorKind::OutOfMemory {
        complain(rt, "fault memory", MEMORY)
    } else {
        complain(rt, "error: a word of the command line is not UTF-8", USAGE)
    }
}

/// Standard error, where that is a terminal.
pub fn terminal(rt: &HostRuntime) -> Option<Stderr> {
    let stderr = rt.stderr();
    if stderr.is_terminal() {
        Some(stderr)
    } else {
        None
    }
}

/// Prints a line for a person on standard error.
pub fn tell<D: Display + Drop>(rt: &HostRuntime, text: D) {
    let _ = rt.eprintln(text);
}
