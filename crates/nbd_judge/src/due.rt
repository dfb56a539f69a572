//! When what an entry serves was due: how many requests had completed when it had to be served.

ghost use Rattle.std.specs.Prelude.{◌≡◌, ◌+◌, ◌<◌, ◌≤◌, ◌^◌, ◌&&◌, ℕ};
ghost use Rattle.nbd_export.specs.Ranges.{IsLeast};
ghost use Rattle.nbd_laws.specs.Soundness.{IsSoundReport};
ghost use Rattle.nbd_state.specs.Transcripts.{report_of_request};
ghost use Rattle.nbd_wire.specs.declared.commands.TheConstants as commands;
ghost use Rattle.nbd_wire.specs.Prelude.{is_in, due_in};
ghost use Rattle.nbd_judge.specs.internal.{IsFair, IsLeastDue, ShowsIn, Pieces.AreApart, Services.span_of_asked};

use crate::compare::overlap;
use crate::least::lesser;
use nbd_session::{Asked, Transcript};
use nbd_state::Span;
use nbd_wire::{Entry, Part, Profile};

/// The least count at which something of what the entry serves was due; None if nothing of it was. An entry without a
/// part serves all of its request. The cost is the number of the messages with content that its READ was answered with.
pub fn least_due(profile: Profile, transcript: &Transcript, entry: Entry) -> Option<u64>
    requires { IsFair transcript.now entry }
    ensures { IsLeastDue (due_in profile transcript.now) entry result }
{
    let one = transcript.asked(entry.request)?;
    if !profile.serves_by_chunk(one.command) {
        return one.known_at;
    }
    let within = inside(transcript, one);
    let span = match entry.part {
        Some(part) => Span {
            offset: part.offset,
            size: part.length,
        },
        None => within,
    };
    lesser(least_shown(one, span), one.ended_at)
}

/// Where the offsets inside a request lie: those of its range that lie in the export. None if its type has no range, or
/// if it is a BLOCK_STATUS that is not proper.
pub fn inside(transcript: &Transcript, one: &Asked) -> Span
    ensures span { result ≡ span_of_asked transcript.now.export (report_of_request one.now) }
    ensures fits { result.offset + result.size < 2 ^ 64 }
    ensures facts { IsSoundReport transcript.now }
{
    let size = match transcript.export() {
        Some((size, _)) => size,
        None => 0,
    };
    if one.has_inside() && one.offset < size {
        Span {
            offset: one.offset,
            size: one.length.min(size - one.offset),
        }
    } else {
        Span { offset: 0, size: 0 }
    }
}

// The least count at which a message before the last one showed an offset of the span.
fn least_shown(one: &Asked, span: Span) -> Option<u64>
    requires read { one.now.command ≡ commands.READ }
    requires apart { AreApart one.now.pieces.items }
    ensures { IsLeast (ShowsIn (report_of_request one.now) span) result }
{
    let counts = one.pieces.counts();
    let mut least = None;
    for i in 0..counts.len() {
        if let Some(piece) = one.pieces.get(i) {
            if meet(Span::of(piece), span).size > 0 {
                least = lesser(least, Some(counts[i]));
            }
        }
    }
    least
}

/// Where two spans meet; of size 0 where they do not.
pub fn meet(one: Span, other: Span) -> Span
    ensures both { (x : ℕ) → is_in result.offset result.size x ≡
        (is_in one.offset one.size x && is_in other.offset other.size x) }
    ensures within { 0 < result.size → result.offset + result.size ≤ other.offset + other.size }
{
    let part = Part {
        offset: other.offset,
        length: other.size,
    };
    overlap(one, part)
}
