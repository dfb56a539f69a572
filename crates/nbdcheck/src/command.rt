//! The commands.

ghost use Rattle.std.specs.Prelude.{◌≡◌};
ghost use Rattle.nbd_files.specs.CommandLine.{exit_status};
ghost use Rattle.nbd_explain.specs.Answering as answering;
ghost use Rattle.nbd_explain.specs.Ordering as ordering;

use crate::files::{
    Written, check_inputs, contents_files, explain_files, lint_files, order_files, write_of,
};
use nbd_explain::{Answer, Ordered, explain_status, order_status};
use nbd_files::{Files, RunFault, exit_status, refuse_words, tell};
use nbd_words::hints::{tell_of_capture, tell_of_fault};
use nbd_words::{Asked, Command, Linting, asked_in};
use std::{env, io};

/// The exit status of a no.
const NO: u8 = 1;

/// Runs the program on the words that it was called with, and answers its exit status.
pub fn run(rt: &HostRuntime) -> u8 {
    match words(rt) {
        Ok(words) => run_words(rt, &words),
        Err(error) => refuse_words(rt, error.kind()),
    }
}

fn run_words(rt: &HostRuntime, words: &[String]) -> u8 {
    match asked_in(rt, words) {
        Ok(asked) => run_asked(&mut Files::new(rt, asked.is_hinted), &asked),
        Err(status) => status,
    }
}

fn words(rt: &HostRuntime) -> io::Result<Vec<String>> {
    Ok(env::args(rt)?.collect(rt.alloc())?)
}

fn run_asked(files: &mut Files<'_>, asked: &Asked<'_>) -> u8 {
    match asked.command {
        Command::Check => check(files, asked),
        Command::Explain => explain(files, asked),
        Command::Order => order(files, asked),
        Command::Arrival => arrival(files, asked),
        Command::Contents => contents(files, asked),
        Command::Show => show(files, asked, Written::Lines),
        Command::Names => show(files, asked, Written::Names),
        Command::Lint(linting) => lint(files, asked, &linting),
        Command::Make => make(files, asked),
    }
}

/// Prints a fault, says what there is to say of the inputs, and answers the exit status.
fn ended(files: &Files<'_>, status: u8, fault: Option<&RunFault>, asked: &Asked<'_>) -> u8
    ensures { result ≡ status }
{
    match fault {
        None => tell_of_capture(files.rt, asked.input, status == NO),
        Some(fault) => {
            files.say(fault);
            tell_of_fault(files, fault, asked);
        }
    }
    status
}

/// The same of an answer that is yes or no.
fn reported(files: &Files<'_>, answer: &Result<bool, RunFault>, asked: &Asked<'_>) -> u8
    ensures { result ≡ exit_status answer.now }
{
    ended(files, exit_status(answer), answer.as_ref().err(), asked)
}

/// `nbdcheck check CAPTURE ORDER --start START`.
fn check(files: &mut Files<'_>, asked: &Asked<'_>) -> u8 {
    let answer = check_inputs(files, asked);
    checked(files, &answer, asked)
}

/// Says what there is to say behind an answer of `check`, and answers the exit status.
fn checked(files: &Files<'_>, answer: &Result<bool, RunFault>, asked: &Asked<'_>) -> u8
    ensures { result ≡ exit_status answer.now }
{
    let status = reported(files, answer, asked);
    if matches!(answer, Ok(false)) {
        files.hint("'nbdcheck explain' with the same words says why");
    }
    status
}

/// `nbdcheck explain CAPTURE [ORDER] --start START`.
fn explain(files: &mut Files<'_>, asked: &Asked<'_>) -> u8 {
    let answer = explain_files(files, asked);
    explained(files, &answer, asked)
}

/// Says what there is to say behind an answer of `explain`, and answers the exit status.
fn explained(files: &Files<'_>, answer: &Result<Answer, RunFault>, asked: &Asked<'_>) -> u8
    ensures { result ≡ answering.status_of answer.now }
{
    let status = explain_status(answer);
    ended(files, status, answer.as_ref().err(), asked)
}

/// `nbdcheck order CAPTURE --start START`.
fn order(files: &mut Files<'_>, asked: &Asked<'_>) -> u8 {
    let answer = order_files(files, asked);
    ordered(files, &answer, asked)
}

/// Says what there is to say behind an answer of `order`, and answers the exit status.
fn ordered(files: &Files<'_>, answer: &Result<Ordered, RunFault>, asked: &Asked<'_>) -> u8
    ensures { result ≡ ordering.status_of answer.now }
{
    let status = order_status(answer);
    if matches!(answer, Ok(Ordered::Refuted)) {
        files.hint(
            "'nbdcheck explain' with the same words, but for --whole, says why, and of the profile base whether wide has an order",
        );
    }
    ended(files, status, answer.as_ref().err(), asked)
}

/// `nbdcheck order CAPTURE --arrival`.
fn arrival(files: &mut Files<'_>, asked: &Asked<'_>) -> u8 {
    let answer = write_of(files, asked, Written::Numbers);
    if let Ok(false) = answer {
        tell(files.rt, "no order: the session was refused");
    }
    reported(files, &answer, asked)
}

/// `nbdcheck contents CAPTURE [ORDER] --start START [--against IMAGE]`.
fn contents(files: &mut Files<'_>, asked: &Asked<'_>) -> u8 {
    let answer = contents_files(files, asked);
    reported(files, &answer, asked)
}

/// `nbdcheck show CAPTURE [--names]`.
fn show(files: &mut Files<'_>, asked: &Asked<'_>, written: Written) -> u8 {
    let answer = write_of(files, asked, written);
    reported(files, &answer, asked)
}

/// `nbdcheck lint CAPTURE`.
fn lint(files: &mut Files<'_>, asked: &Asked<'_>, linting: &Linting) -> u8 {
    let answer = lint_files(files, asked, linting);
    if linting.is_list {
        files.report(&answer)
    } else {
        reported(files, &answer, asked)
    }
}

/// `nbdcheck make SCRIPT`.
fn make(files: &mut Files<'_>, asked: &Asked<'_>) -> u8 {
    let answer = write_of(files, asked, Written::Capture);
    made(files, &answer, asked)
}

/// Says what there is to say behind an answer of `make`, and answers the exit status.
fn made(files: &Files<'_>, answer: &Result<bool, RunFault>, asked: &Asked<'_>) -> u8
    ensures { result ≡ exit_status answer.now }
{
    let status = exit_status(answer);
    if let Err(fault) = answer {
        files.say(fault);
        tell_of_fault(files, fault, asked);
    }
    status
}
