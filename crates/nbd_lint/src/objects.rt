//! A report as objects of JSON, a line each.

use crate::line::Line;
use crate::notes::Finding;
use crate::report::{Counts, Refusal, word_of};
use crate::table::{LEVEL, LINES, Level, NAME, Rule, SECTION};
use nbd_json::Object;
use std::alloc::Global;

// Adds an object to a report.
fn put(object: Object, line: &mut Line) {
    match object.line() {
        Ok(bytes) => match str::from_utf8(bytes.as_slice()) {
            Ok(text) => line.say(text),
            Err(_) => line.is_refused = true,
        },
        Err(_) => line.is_refused = true,
    }
}

/// Adds the object of a finding.
pub fn json_finding(alloc: Global, rule: Rule, finding: &Finding, line: &mut Line) {
    let mut object = Object::new(alloc);
    object.text("level", rule.column(LEVEL));
    object.number("byte", finding.place);
    object.number("message", finding.message);
    object.number_if("request", finding.request);
    object.text("side", word_of(finding.side));
    object.text("rule", rule.column(NAME));
    object.text("text", finding.text.as_str());
    object.text("section", rule.column(SECTION));
    object.text("lines", rule.column(LINES));
    object.number("more", finding.more);
    put(object, line);
}

/// Adds the object of a refusal.
pub fn json_refusal(alloc: Global, refusal: Refusal<'_>, line: &mut Line) {
    let mut object = Object::new(alloc);
    object.text("refusal", refusal.fault());
    object.number("byte", refusal.place);
    put(object, line);
}

/// Adds how many lines of each level there are.
pub fn json_last(alloc: Global, counts: Counts, least: Level, line: &mut Line) {
    let [musts, shoulds, hints] = counts;
    let mut object = Object::new(alloc);
    object.begin("lint");
    object.number("must", musts);
    if Level::Should.is_told(least) {
        object.number("should", shoulds);
    }
    if Level::Hint.is_told(least) {
        object.number("hint", hints);
    }
    object.end();
    put(object, line);
}
