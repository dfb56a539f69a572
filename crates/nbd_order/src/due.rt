//! When a request was due at one offset: how many requests had completed when it had to be served there.

ghost use Rattle.std.specs.Prelude.{◌≡◌, ◌<◌, ℕ, IsTrue, None, Some, if◌then◌else◌};
ghost use Rattle.nbd_state.specs.Transcripts.{report_of_request};
ghost use Rattle.nbd_wire.specs.declared.commands.TheConstants as commands;
ghost use Rattle.nbd_wire.specs.Prelude.{is_in, first_shown, inside_asked};
ghost use Rattle.nbd_order.specs.internal.{due_at};

use nbd_judge::lesser;
use nbd_session::{Asked, Transcript};
use nbd_state::Span;
use nbd_wire::Profile;

/// How many requests had completed when this one had to be served at the offset; None if it never had to be. In the profile `Wide` a
/// READ has to be served where a message of its reply shows it before that message is whole (this project's choice).
pub fn due_at(profile: Profile, transcript: &Transcript, one: &Asked, offset: u64) -> Option<u64>
    ensures { result ≡ due_at profile transcript.now.export (report_of_request one.now) offset }
{
    if profile.serves_by_chunk(one.command) {
        lesser(shown_inside(transcript, one, offset), one.ended_at)
    } else {
        one.known_at
    }
}

/// Whether the number is there, and below this one.
pub fn is_below(number: Option<u64>, k: u64) -> bool
    ensures { IsTrue result → (n : ℕ) × (number ≡ Some n) × (n < k) }
{
    match number {
        Some(n) => n < k,
        None => false,
    }
}

// The count of the first message before the last one of a READ that showed the offset, if that lies inside.
fn shown_inside(transcript: &Transcript, one: &Asked, offset: u64) -> Option<u64>
    requires { one.now.command ≡ commands.READ }
    ensures { let a = report_of_request one.now in
        result ≡ (if inside_asked transcript.now.export (Some a) offset then first_shown a.shown offset else None) }
{
    if is_inside(transcript, one, offset) {
        shown_at(one, offset)
    } else {
        None
    }
}

// Whether the offset lies inside the request.
fn is_inside(transcript: &Transcript, one: &Asked, offset: u64) -> bool
    ensures { result ≡ inside_asked transcript.now.export (Some (report_of_request one.now)) offset }
{
    match transcript.export() {
        Some((size, _)) => one.has_inside() && one.has(offset) && offset < size,
        None => false,
    }
}

// The count of the first message before the last one of a READ that showed the offset.
fn shown_at(one: &Asked, offset: u64) -> Option<u64>
    requires { one.now.command ≡ commands.READ }
    ensures { result ≡ first_shown (report_of_request one.now).shown offset }
{
    let counts = one.pieces.counts();
    for i in 0..counts.len() {
        if holds(Span::of(one.pieces.get(i)?), offset) {
            return Some(counts[i]);
        }
    }
    None
}

// Whether the offset lies in the span.
fn holds(span: Span, offset: u64) -> bool
    ensures { result ≡ is_in span.offset span.size offset }
{
    span.offset <= offset && offset - span.offset < span.size
}
