//! How the words that the program was called with are read.

use crate::asked::{Asked, BadWord};
use crate::words::command;
use clap::error::ErrorKind;
use clap::{ArgMatches, Error};
use nbd_files::{Files, RunFault, complain, tell};

/// The exit status of help and of the version.
const TOLD: u8 = 0;
/// The exit status of a command line that is malformed.
const USAGE: u8 = 2;
/// The exit status of out of memory.
const MEMORY: u8 = 4;

/// What these words ask for, of which the first is the program's own name. Where they ask for help or for the version, or are
/// malformed, that is told, and an `Err` has the exit status.
pub fn asked_in<'a>(rt: &HostRuntime, words: &'a [String]) -> Result<Asked<'a>, u8> {
    let Ok(command) = command(rt.alloc()) else {
        return Err(complain(rt, RunFault::Memory, MEMORY));
    };
    match command.try_get_matches_from(words) {
        Ok(matches) => asked_by(rt, &matches),
        Err(error) => Err(print_message(rt, error)),
    }
}

fn asked_by<'a>(rt: &HostRuntime, matches: &ArgMatches<'a>) -> Result<Asked<'a>, u8> {
    match matches.subcommand() {
        Some((name, words)) => match Asked::of(name, words) {
            Ok(asked) => Ok(asked),
            Err(word) => Err(refuse(&Files::new(rt, words.get_flag("hints")), word)),
        },
        None => Err(USAGE),
    }
}

// Says what is wrong with a word.
fn refuse(files: &Files<'_>, word: BadWord) -> u8 {
    tell(files.rt, word.fault);
    files.hint(word.reason);
    USAGE
}

// Prints what clap has to say: help and the version on standard output, a mistake in the words on standard error.
fn print_message(rt: &HostRuntime, error: Error) -> u8 {
    if error.kind() == ErrorKind::OutOfMemory {
        return complain(rt, RunFault::Memory, MEMORY);
    }
    let is_told = !error.use_stderr();
    match error.print(rt) {
        Err(_) if is_told => complain(rt, RunFault::Write, RunFault::Write.status()),
        _ if is_told => TOLD,
        _ => USAGE,
    }
}
