//! What the words of a command line say.

ghost use Rattle.std.specs.Prelude.{◌≡◌, ◌↔◌, Some, None, IsTrue, codes};
ghost use Rattle.nbd_order.specs.declared.finding.Wanted.TheVariants.{Any, Whole};
ghost use Rattle.nbd_wire.specs.declared.profile.Profile.TheVariants.{Base, Wide};

use crate::linting::Linting;
use clap::ArgMatches;
use nbd_files::{StartWord, start_of};
use nbd_order::{Scope, Wanted, usual_limits};
use nbd_search::Limits;
use nbd_wire::Profile;

/// A word that is malformed: the fault that is printed, and what the word has to be.
#[derive(Clone, Copy)]
pub struct BadWord {
    pub fault: &'static str,
    pub reason: &'static str,
}

const BAD_START: BadWord = BadWord {
    fault: "fault start",
    reason: "a start is unknown, zero, or image: or contents: and the path of a file",
};

const BAD_PROFILE: BadWord = BadWord {
    fault: "fault profile",
    reason: "a profile is base or wide",
};

const BAD_LIMIT: BadWord = BadWord {
    fault: "fault limit",
    reason: "a limit is a number from 0 to 18446744073709551615",
};

/// What is to be done.
#[derive(Clone, Copy)]
pub enum Command {
    Check,
    Explain,
    Order,
    /// `order` with the order in which the requests came.
    Arrival,
    Contents,
    Show,
    /// `show` with the messages in words.
    Names,
    Lint(Linting),
    Make,
}

/// What the words of a command line say. A word that the command does not have counts as one that was not said.
#[derive(Clone, Copy)]
pub struct Asked<'a> {
    pub command: Command,
    /// The file of the capture, or of the script.
    pub input: &'a str,
    /// The file of the order.
    pub order: Option<&'a str>,
    pub start: StartWord<'a>,
    pub profile: Profile,
    /// Which orders are looked for, and what a search may cost.
    pub scope: Scope,
    /// Objects of JSON are wanted.
    pub is_json: bool,
    /// Reasons are wanted off a terminal too.
    pub is_hinted: bool,
    /// The file that contents are compared with.
    pub against: Option<&'a str>,
}

impl<'a> Asked<'a> {
    /// What the words behind the command of this name say, or what is wrong where one of them is malformed.
    pub fn of(name: &str, words: &ArgMatches<'a>) -> Result<Asked<'a>, BadWord> {
        let (start, profile) = session_in(words)?;
        Ok(Asked {
            start,
            profile,
            scope: scope_in(words)?,
            command: command_of(name, words)?,
            input: input_in(words),
            order: words.get_str("ORDER"),
            is_json: words.get_flag("json"),
            is_hinted: words.get_flag("hints"),
            against: words.get_str("against"),
        })
    }
}

// What the export held at first, and what the session is held to; a command that does not have one of these words asks for nothing by it.
fn session_in<'a>(words: &ArgMatches<'a>) -> Result<(StartWord<'a>, Profile), BadWord> {
    Ok((start_in(words)?, profile_in(words)?))
}

fn start_in<'a>(words: &ArgMatches<'a>) -> Result<StartWord<'a>, BadWord> {
    match start_of(words.get_str("start").unwrap_or("unknown")) {
        Some(start) => Ok(start),
        None => Err(BAD_START),
    }
}

fn profile_in(words: &ArgMatches<'_>) -> Result<Profile, BadWord> {
    match profile_of(words.get_str("profile").unwrap_or("base")) {
        Some(profile) => Ok(profile),
        None => Err(BAD_PROFILE),
    }
}

// What the command of this name is to do.
fn command_of(name: &str, words: &ArgMatches<'_>) -> Result<Command, BadWord> {
    Ok(match name {
        "check" => Command::Check,
        "explain" => Command::Explain,
        "order" if words.get_flag("arrival") => Command::Arrival,
        "order" => Command::Order,
        "contents" => Command::Contents,
        "show" if words.get_flag("names") => Command::Names,
        "show" => Command::Show,
        "lint" => Command::Lint(Linting::of(words)?),
        _ => Command::Make,
    })
}

// The file that the words name first.
fn input_in<'a>(words: &ArgMatches<'a>) -> &'a str {
    match words.get_str("CAPTURE") {
        Some(capture) => capture,
        None => words.get_str("SCRIPT").unwrap_or(""),
    }
}

// The profile that a word names, if it names one.
fn profile_of(word: &str) -> Option<Profile>
    ensures base { (result ≡ Some Base) ↔ (word.now ≡ codes "base") }
    ensures wide { (result ≡ Some Wide) ↔ (word.now ≡ codes "wide") }
{
    match word {
        "base" => Some(Profile::Base),
        "wide" => Some(Profile::Wide),
        _ => None,
    }
}

fn scope_in(words: &ArgMatches<'_>) -> Result<Scope, BadWord> {
    match limits_in(words) {
        Some(limits) => Ok(Scope {
            wanted: wanted_of(words.get_flag("whole")),
            limits,
        }),
        None => Err(BAD_LIMIT),
    }
}

fn limits_in(words: &ArgMatches<'_>) -> Option<Limits> {
    let usual = usual_limits();
    Some(Limits {
        states: number_of(words.get_str("states"), usual.states)?,
        steps: number_of(words.get_str("steps"), usual.steps)?,
    })
}

// Which orders are looked for: of whole requests alone, or any.
fn wanted_of(is_whole: bool) -> Wanted
    ensures whole { IsTrue is_whole → result ≡ Whole }
    ensures any { (IsTrue is_whole → ⊥) → result ≡ Any }
{
    if is_whole { Wanted::Whole } else { Wanted::Any }
}

// The number that was said, or the usual one where none was; None where it is no number.
fn number_of(text: Option<&str>, usual: u64) -> Option<u64>
    ensures usual { text.entry ≡ None → result ≡ Some usual }
{
    match text {
        Some(text) if text.starts_with("+") => None,
        Some(text) => text.parse().ok(),
        None => Some(usual),
    }
}
