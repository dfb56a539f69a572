//! The command `check CAPTURE ORDER --start START` alone: a first answer, while the rest of nbdcheck is not proved yet.
#![tactic(auto)]

ghost use Rattle.std.specs.Prelude.{◌≡◌};
ghost use Rattle.nbd_files.specs.CommandLine.{exit_status};

#[cfg(test)]
mod tests;

use nbd_files::{Files, RunFault, StartWord, complain, refuse_words, start_of};
use nbd_tool::check_files;
use nbd_wire::Profile;
use std::process::ExitCode;
use std::{env, io};

/// The exit status of a command line that is malformed.
const USAGE: u8 = 2;

fn main(rt: HostRuntime) -> ExitCode {
    ExitCode::from(run(&rt))
}

// Runs the program on the words that it was called with, and answers its exit status.
fn run(rt: &HostRuntime) -> u8 {
    match words(rt) {
        Ok(words) => run_words(rt, words.as_slice()),
        Err(error) => refuse_words(rt, error.kind()),
    }
}

fn words(rt: &HostRuntime) -> io::Result<Vec<String>> {
    Ok(env::args(rt)?.collect(rt.alloc())?)
}

fn run_words(rt: &HostRuntime, words: &[String]) -> u8 {
    if words.len() != 6 || words[1].as_str() != "check" || words[4].as_str() != "--start" {
        return complain(
            rt,
            "error: the words are 'check CAPTURE ORDER --start START'",
            USAGE,
        );
    }
    match start_of(&words[5]) {
        Some(start) => check(rt, &words[2], &words[3], start),
        None => complain(rt, "fault start", USAGE),
    }
}

fn check(rt: &HostRuntime, capture: &str, order: &str, start: StartWord<'_>) -> u8 {
    let mut files = Files::new(rt, false);
    let out = &mut io::writer(rt);
    let answer = check_files(&mut files, Profile::Base, capture, order, start, out);
    checked(&files, &answer)
}

// Says what there is to say behind an answer, and answers the exit status.
fn checked(files: &Files<'_>, answer: &Result<bool, RunFault>) -> u8
    ensures { result ≡ exit_status answer.now }
{
    let status = files.report(answer);
    if matches!(answer, Ok(false)) {
        files.hint("'nbdcheck explain' with the same words says why");
    }
    status
}
