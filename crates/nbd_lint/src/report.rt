//! What is printed of a session: a line for each rule and side that broke it, the line of a refusal, and how many there are.

ghost use Rattle.std.specs.Prelude.{◌≡◌, ◌↔◌, IsTrue, false};

use crate::line::Line;
use crate::linter::Linter;
use crate::notes::{Finding, Notes, row_of};
use crate::objects::{json_finding, json_last, json_refusal};
use crate::table::{COUNT, LEVEL, LINES, Level, NAME, Rule, SECTION};
use nbd_wire::Side;
use std::alloc::{AllocError, Global};
use std::fmt::Write;

/// In which form a report is written.
#[derive(Clone, Copy, Drop)]
pub enum Form {
    Text,
    Json,
}

/// What of a report is wanted.
#[derive(Clone, Copy, Drop)]
pub struct Wanted {
    /// This level, and what stands above it.
    pub level: Level,
    /// By their rows in the table: these rules are as if they were none.
    pub allowed: [bool; COUNT],
    pub form: Form,
}

impl Wanted {
    /// Without a rule that is as if it was none.
    pub fn of(level: Level, form: Form) -> Wanted {
        Wanted {
            level,
            allowed: [false; COUNT],
            form,
        }
    }

    /// Without the rule of this row, from 0.
    pub fn without(self, row: usize) -> Wanted {
        let mut wanted = self;
        if let Some(allowed) = wanted.allowed.get_mut(row) {
            *allowed = true;
        }
        wanted
    }
    // Whether the rule of this row and level is told of.
    fn has(&self, row: usize, level: Level) -> bool {
        match self.allowed.get(row) {
            Some(true) => false,
            _ => level.is_told(self.level),
        }
    }
}

/// How many lines of each level stand in a report, in the order of the levels.
pub type Counts = [u64; 3];

/// A refusal: its line as `check` prints it, and its place.
#[derive(Clone, Copy)]
pub struct Refusal<'a> {
    pub line: &'a str,
    pub place: u64,
}

impl Refusal<'_> {
    /// The name of its fault, with which its line ends.
    pub fn fault(&self) -> &str {
        match self.line.split_once(": ") {
            Some((_, name)) => name.strip_suffix("\n").unwrap_or(name),
            None => self.line,
        }
    }
}

/// What is printed of a session.
#[derive(Drop)]
pub struct Report {
    pub text: String,
    /// How many lines are of level must.
    pub musts: u64,
    pub is_refused: bool,
}

/// Whether a session that was refused or not, and of which so many musts are told, has status 0: none was broken, and all
/// was read.
pub fn is_kept(musts: u64, is_refused: bool) -> bool
    ensures { IsTrue result ↔ ((musts ≡ 0) × (is_refused ≡ false)) }
{
    musts == 0 && !is_refused
}

impl Report {
    /// What is printed of a session of which this was found, and which was refused or not.
    pub fn of(
        alloc: Global,
        linter: &Linter,
        refusal: Option<Refusal<'_>>,
        wanted: &Wanted,
    ) -> Result<Report, AllocError> {
        let mut line = Line::new(alloc);
        line.is_refused = linter.notes.is_refused;
        let counts = say_all(&linter.notes, wanted, &mut line);
        say_end(alloc, refusal, counts, wanted, &mut line);
        Ok(Report {
            text: line.finish()?,
            musts: counts[0],
            is_refused: refusal.is_some(),
        })
    }
}

// Adds the line of each finding that is told, by their places, and at one place by the rows of their rules; returns how many there are.
fn say_all(notes: &Notes, wanted: &Wanted, line: &mut Line) -> Counts {
    let mut counts: Counts = [0; 3];
    for (_, key) in &notes.places {
        let rule = Rule::in_row(row_of(*key));
        let level = rule.level();
        if wanted.has(row_of(*key), level) {
            let count = &mut counts[level as usize];
            *count = count.saturating_add(1);
            if let Some(finding) = notes.found.get(key) {
                match wanted.form {
                    Form::Text => say_finding(rule, finding, line),
                    Form::Json => json_finding(notes.alloc, rule, finding, line),
                }
            }
        }
    }
    counts
}

/// The word of a side.
pub fn word_of(side: Side) -> &'static str {
    match side {
        Side::Client => "client",
        Side::Server => "server",
    }
}

// Adds the line of a finding.
fn say_finding(rule: Rule, finding: &Finding, line: &mut Line) {
    let (level, name, section) = (rule.column(LEVEL), rule.column(NAME), rule.column(SECTION));
    let (place, side, text) = (finding.place, word_of(finding.side), finding.text.as_str());
    line.is_refused |= write!(
        line.text,
        "{level} at byte {place}: {side}: {name}: {text} (\"{section}\")"
    )
    .is_err();
    if finding.more != 0 {
        line.with(" (", finding.more);
        line.say(" more)");
    }
    line.say("\n");
}

// Adds the line of a refusal, if there is one, and the last line; or the objects of both.
fn say_end(
    alloc: Global,
    refusal: Option<Refusal<'_>>,
    counts: Counts,
    wanted: &Wanted,
    line: &mut Line,
) {
    match (wanted.form, refusal) {
        (Form::Text, Some(refusal)) => line.say(refusal.line),
        (Form::Json, Some(refusal)) => json_refusal(alloc, refusal, line),
        _ => {}
    }
    match wanted.form {
        Form::Text => say_last(counts, wanted.level, line),
        Form::Json => json_last(alloc, counts, wanted.level, line),
    }
}

// Adds how many lines of each level there are.
fn say_last(counts: Counts, least: Level, line: &mut Line) {
    let [musts, shoulds, hints] = counts;
    line.with("lint must ", musts);
    if Level::Should.is_told(least) {
        line.with(" should ", shoulds);
    }
    if Level::Hint.is_told(least) {
        line.with(" hint ", hints);
    }
    line.say("\n");
}

/// The rules, a line each: level, side, name, and the lines of proto.md that have it.
pub fn listed(alloc: Global) -> Result<String, AllocError> {
    let mut line = Line::new(alloc);
    for row in 0..COUNT {
        let rule = Rule::in_row(row);
        for column in LEVEL..=LINES {
            line.say(rule.column(column));
            line.say(if column == LINES { "\n" } else { " " });
        }
    }
    line.finish()
}
