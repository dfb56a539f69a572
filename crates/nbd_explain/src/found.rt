//! What looking for an order came to, in words.

use nbd_order::{Found, Refutation};
use nbd_search::Reason;
use nbd_story::{Contest, Sources, Text};
use std::alloc::{AllocError, Global};

/// What stands behind the line of what was found, where an order may explain the session in the profile `Wide`.
pub fn found_explanation(
    alloc: Global,
    found: &Found,
    is_wider: bool,
    sources: Sources<'_>,
) -> Result<String, AllocError> {
    let text = Text::new(alloc, sources.story.is_marked);
    let text = match found {
        Found::Order(entries) => text
            .found(sources.story.profile, entries)
            .amiss(sources.story),
        Found::Unexplained(refutation) => {
            unexplained(alloc, text, refutation, &sources).wider_if(is_wider)
        }
        Found::Image { image, size } => text.image(*image, *size, sources.start),
        Found::NoneWhole => text.open(),
        Found::GaveUp { reason, .. } => with_limit(text.open(), *reason),
    };
    text.finish()
}

// Why no order explains a session.
fn unexplained(alloc: Global, text: Text, refutation: &Refutation, sources: &Sources<'_>) -> Text {
    match states_of(alloc, refutation) {
        Ok(states) => text.refutation(&contest_of(refutation, &states), sources),
        Err(_) => text.refused_if(true),
    }
}

fn contest_of<'a>(refutation: &'a Refutation, states: &'a [&'a [u64]]) -> Contest<'a> {
    Contest {
        reads: &refutation.reads,
        changes: &refutation.changes,
        offset: refutation.offset,
        states,
    }
}

// What was served in each of its states.
fn states_of(alloc: Global, refutation: &Refutation) -> Result<Vec<&[u64]>, AllocError> {
    let mut states = Vec::new(alloc);
    for state in &refutation.states {
        states.push(state.served.as_slice())?;
    }
    Ok(states)
}

// How a search that gave up goes further, where it came to one of its limits.
fn with_limit(text: Text, reason: Reason) -> Text {
    match reason {
        Reason::States => text.further("--states"),
        Reason::Steps => text.further("--steps"),
        Reason::Mistake => text,
    }
}
