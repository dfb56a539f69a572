//! What the words of `lint` say.

use crate::asked::BadWord;
use clap::ArgMatches;
use nbd_lint::{Form, Level, Wanted, rule_named};

const BAD_LEVEL: BadWord = BadWord {
    fault: "fault level",
    reason: "a level is must, should or hint",
};

const BAD_RULE: BadWord = BadWord {
    fault: "fault rule",
    reason: "'nbdcheck lint --list' lists the rules",
};

const NO_CAPTURE: BadWord = BadWord {
    fault: "fault capture",
    reason: "the file of a capture is named, or --list",
};

/// What the words of `lint` say.
#[derive(Clone, Copy)]
pub struct Linting {
    /// The rules are listed, and no capture is read.
    pub is_list: bool,
    pub wanted: Wanted,
}

impl Linting {
    /// What these words say, or what is wrong where one of them is malformed.
    pub fn of(words: &ArgMatches<'_>) -> Result<Linting, BadWord> {
        let Some(level) = Level::of(words.get_str("level").unwrap_or("")) else {
            return Err(BAD_LEVEL);
        };
        let is_list = words.get_flag("list");
        if !is_list && words.get_str("CAPTURE").is_none() {
            return Err(NO_CAPTURE);
        }
        let wanted = Wanted::of(level, form_in(words));
        match allowing(wanted, words) {
            Some(wanted) => Ok(Linting { is_list, wanted }),
            None => Err(BAD_RULE),
        }
    }
}

fn form_in(words: &ArgMatches<'_>) -> Form {
    if words.get_flag("json") {
        Form::Json
    } else {
        Form::Text
    }
}

// The same without the rules that may be broken; None where one of them is none.
fn allowing(wanted: Wanted, words: &ArgMatches<'_>) -> Option<Wanted> {
    let mut wanted = wanted;
    let Some(names) = words.get_strs("allow") else {
        return Some(wanted);
    };
    for name in names {
        wanted = wanted.without(rule_named(name)?);
    }
    Some(wanted)
}
