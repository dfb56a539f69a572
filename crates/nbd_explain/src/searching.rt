//! The command `explain` without an order.

ghost use Rattle.std.specs.Prelude.{◌≡◌, Err, IfOk, IsOk, OnOk};
ghost use Rattle.nbd_tool.specs.declared.beginning.Beginning.{Beginning};
ghost use Rattle.nbd_wire.specs.declared.profile.Profile.{Profile};
ghost use Rattle.nbd_explain.specs.{Answering.answer_to, internal.Lines.{Begins, BeginsWithLineOf, IsLineOf, IsToldBySearch, IsToldOfFound}};

use crate::answer::{Answer, found_answer};
use crate::found::found_explanation;
use crate::ordering::{find_order, found_text_of};
use crate::writing::{copy_of, kept_of, told_verdict};
use nbd_judge::Verdict;
use nbd_order::{Found, Scope, Wanted};
use nbd_search::{Limits, Progress};
use nbd_session::{SessionFault, Transcript};
use nbd_story::{Sources, Story};
use nbd_tool::{Beginning, Line, conclude_from};
use nbd_wire::Profile;
use std::alloc::{AllocError, Global};

/// Looks for an order that explains a finished session from what was read of the start: the line of what it came to and what that
/// says; of a session that was refused the verdict's line and why. And the answer.
pub fn told_by_search(
    alloc: Global,
    profile: Profile,
    finished: Result<Transcript, SessionFault>,
    story: &Story,
    start: Beginning,
    limits: Limits,
    progress: &mut Progress,
) -> Result<(String, Answer), AllocError>
    ensures { IfOk result (λ told. IsToldBySearch profile start finished told.1 told.0.bytes.items) }
{
    match finished {
        Ok(transcript) => told_of_found(alloc, profile, transcript, story, start, limits, progress),
        Err(fault) => told_of_fault(alloc, fault, story.with(&[], kept_of(&start))),
    }
}

// Of a session that was refused, or that memory ended.
fn told_of_fault(
    alloc: Global,
    fault: SessionFault,
    sources: Sources<'_>,
) -> Result<(String, Answer), AllocError>
    ensures { IfOk result (λ told. (profile : Profile) (beginning : Beginning) → IsToldBySearch profile beginning (Err fault) told.1
        told.0.bytes.items) }
{
    match fault {
        SessionFault::Wire { at, fault } => {
            told_verdict(alloc, Verdict::Wire { at, fault }, sources)
        }
        SessionFault::Memory => Err(AllocError),
    }
}

// What looking for an order comes to, from what was read of the start.
fn told_of_found(
    alloc: Global,
    profile: Profile,
    transcript: Transcript,
    story: &Story,
    start: Beginning,
    limits: Limits,
    progress: &mut Progress,
) -> Result<(String, Answer), AllocError>
    ensures { IfOk result (λ told. IsToldOfFound profile transcript start told.1 told.0.bytes.items) }
{
    let kept = copy_of(&start)?;
    let scope = Scope {
        wanted: Wanted::Any,
        limits,
    };
    let found = find_order(alloc, profile, &transcript, start, scope, progress)?;
    told_kept(
        alloc, profile, transcript, &found, kept, story, scope, progress,
    )
}

// The line of what was found, from a start that was kept, and what that says, and the answer.
fn told_kept(
    alloc: Global,
    profile: Profile,
    transcript: Transcript,
    found: &Found,
    kept: Beginning,
    story: &Story,
    scope: Scope,
    progress: &mut Progress,
) -> Result<(String, Answer), AllocError>
    ensures begins { IfOk result (λ told. BeginsWithLineOf profile transcript found.now kept told.0.bytes.items) }
    ensures answer { IfOk result (λ told. told.1 ≡ answer_to found.now) }
{
    let is_wider = is_wider(
        alloc,
        profile,
        &transcript,
        found,
        &kept,
        story,
        scope,
        progress,
    )?;
    let sources = story.with(&[], kept_of(&kept));
    let explanation = found_explanation(alloc, found, is_wider, sources);
    let text = joined(
        line_of(alloc, profile, transcript, found, kept),
        explanation,
    )?;
    Ok((text, found_answer(found)))
}

// Whether no order explains the session in the profile `Base`, and one is found that does in `Wide`.
fn is_wider(
    alloc: Global,
    profile: Profile,
    transcript: &Transcript,
    found: &Found,
    start: &Beginning,
    story: &Story,
    scope: Scope,
    progress: &mut Progress,
) -> Result<bool, AllocError> {
    let is_refuted = profile == Profile::Base && matches!(found, Found::Unexplained(_));
    if is_refuted && story.has_chunks_apart() {
        is_explained_in_wide(alloc, transcript, start, scope, progress)
    } else {
        Ok(false)
    }
}

// Whether an order is found that explains the session in the profile `Wide`.
fn is_explained_in_wide(
    alloc: Global,
    transcript: &Transcript,
    start: &Beginning,
    scope: Scope,
    progress: &mut Progress,
) -> Result<bool, AllocError> {
    let start = copy_of(start)?;
    let found = find_order(alloc, Profile::Wide, transcript, start, scope, progress)?;
    Ok(matches!(found, Found::Order(_)))
}

// A text and one behind it, where there was memory for both.
fn joined(
    first: Result<String, AllocError>,
    second: Result<String, AllocError>,
) -> Result<String, AllocError>
    ensures begins { IfOk result (λ text. IfOk first (λ front. Begins front.bytes.items text.bytes.items)) }
    ensures given { OnOk result (IsOk first) }
{
    let mut text = first?;
    text.push_str(&second?)?;
    Ok(text)
}

// The line of what was found: of an order that of the verdict on it, and that it was found.
fn line_of(
    alloc: Global,
    profile: Profile,
    transcript: Transcript,
    found: &Found,
    start: Beginning,
) -> Result<String, AllocError>
    ensures { IfOk result (λ text. IsLineOf profile transcript found.now start text.bytes.items) }
{
    match found {
        Found::Order(entries) => {
            let verdict = conclude_from(alloc, profile, Ok(transcript), entries, start)?;
            Ok(format!(in alloc;
                "{}\norder: found, not given; 'nbdcheck order' with the same words writes it\n",
                Line { verdict }
            )?)
        }
        _ => found_text_of(alloc, &transcript, found),
    }
}
