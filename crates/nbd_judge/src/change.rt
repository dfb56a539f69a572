//! What a request changes where it is served (this project's choice).

ghost use Rattle.std.specs.Prelude.{◌≡◌, ◌+◌, ◌-◌, ◌≤◌, OnOk, Some, length, slice_range};
ghost use Rattle.nbd_export.specs.Ranges.{AreSameBelow, overlay, unknown};
ghost use Rattle.nbd_wire.specs.Prelude.{effect};
ghost use Rattle.nbd_state.specs.Transcripts.{report_of_request};
ghost use Rattle.nbd_judge.specs.{Folding.contents_with_effect, internal.{IsPartIn, IsServable, served_span}};

use crate::compare::is_success;
use nbd_export::Contents;
use nbd_session::Asked;
use nbd_state::Span;
use nbd_wire::{Part, commands};
use std::alloc::AllocError;

/// Changes the contents as an entry does that serves this request, or this part of it: a successful WRITE leaves its
/// bytes, a successful WRITE_ZEROES zeroes, every other change unknown bytes. Any other request changes nothing.
pub fn change<C: Contents>(
    one: &Asked,
    part: Option<Part>,
    contents: &mut C,
) -> Result<(), AllocError>
    requires servable { IsServable (C.size contents.old) (report_of_request one.now) }
    requires inside { IsPartIn part (report_of_request one.now) }
    ensures size { C.size contents.new ≡ C.size contents.old }
    ensures done { OnOk result (AreSameBelow (C.size contents.old) (C.byte contents.new)
        (contents_with_effect part (Some (effect (report_of_request one.now))) (C.byte contents.old))) }
{
    let span = served(one, part);
    match one.command {
        commands::WRITE if is_success(one.outcome) => {
            contents.put(span.offset, bytes_of(one, span))
        }
        commands::WRITE_ZEROES if is_success(one.outcome) => {
            contents.zero(span.offset, span.size)
        }
        commands::WRITE | commands::TRIM | commands::WRITE_ZEROES => erase(span, contents),
        _ => Ok(()),
    }
}

// Where an entry serves a request: in the entry's part, or without a part in the request's whole range.
fn served(one: &Asked, part: Option<Part>) -> Span
    ensures { result ≡ served_span part (report_of_request one.now) }
{
    match part {
        Some(part) => Span {
            offset: part.offset,
            size: part.length,
        },
        None => Span {
            offset: one.offset,
            size: one.length,
        },
    }
}

// The bytes of a WRITE that lie in a span of its range.
fn bytes_of(one: &Asked, span: Span) -> &[u8]
    requires begins { one.now.offset ≤ span.offset }
    requires ends { span.offset + span.size ≤ one.now.offset + length one.now.payload }
    ensures { result.now ≡ slice_range one.now.payload (span.offset - one.now.offset)
        (span.offset - one.now.offset + span.size) }
{
    let first = (span.offset - one.offset) as usize;
    &one.payload.as_slice()[first..first + span.size as usize]
}

/// Makes the bytes of the span that lie in the export unknown.
pub fn erase<C: Contents>(span: Span, contents: &mut C) -> Result<(), AllocError>
    ensures size { C.size contents.new ≡ C.size contents.old }
    ensures done { OnOk result (AreSameBelow (C.size contents.old) (C.byte contents.new)
        (overlay span.offset span.size unknown (C.byte contents.old))) }
{
    let size = contents.size();
    if span.offset < size {
        let rest = size - span.offset;
        contents.forget(span.offset, rest.min(span.size))?;
    }
    Ok(())
}
