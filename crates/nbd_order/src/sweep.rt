//! What every order that explains a session leaves on the export, as far as arrivals, replies and later READs show it.

ghost use Rattle.std.specs.Prelude.{◌≡◌, ◌+◌, ◌<◌, ◌≤◌, ℕ, IsSome, IsTrue, OnOk, Some, length, slice_get};
ghost use Rattle.nbd_export.specs.{Extents.{byte_of, size_of}, Ranges.{AreSameBelow, bytes_from, overlay}};
ghost use Rattle.nbd_laws.specs.Soundness.{IsSoundReport};
ghost use Rattle.nbd_state.specs.Transcripts.{report_of_request};
ghost use Rattle.nbd_wire.specs.declared.commands.TheConstants as commands;
ghost use Rattle.nbd_wire.specs.Prelude.{effect, effect_byte, is_in, piece_byte, piece_offset, piece_size, asked_at};
ghost use Rattle.nbd_order.specs.{Sure.sure, internal.Here.{here_at, stretch_here}};

use crate::here::{Here, Holds};
use crate::stretches::{Stretch, stretches_of};
use crate::touches::touches_of;
use nbd_export::{Contents, Extents};
use nbd_session::{Asked, Transcript};
use nbd_state::Span;
use nbd_wire::{Piece, commands};
use std::alloc::{AllocError, Global};

/// Makes contents, which hold what the export held at first, what every order leaves that explains the session, as far
/// as it is known.
pub fn sweep(
    alloc: Global,
    transcript: &Transcript,
    contents: &mut Extents,
) -> Result<(), AllocError>
    requires { IsSoundReport transcript.now }
    ensures size { size_of contents.new ≡ size_of contents.old }
    ensures done { OnOk result (AreSameBelow (size_of contents.old) (byte_of contents.new)
        (sure transcript.now (byte_of contents.old))) }
{
    let stretches = stretches_of(alloc, &touches_of(alloc, transcript)?, contents.size())?;
    settle_all(transcript, &stretches, contents)
}

// Makes each stretch what it holds.
fn settle_all(
    transcript: &Transcript,
    stretches: &[Stretch],
    contents: &mut Extents,
) -> Result<(), AllocError>
    requires sound { IsSoundReport transcript.now }
    requires stretches { (x : ℕ) → x < size_of contents.old → stretch_here stretches.now x ≡ Some (here_at transcript.now.asked x) }
    ensures size { size_of contents.new ≡ size_of contents.old }
    ensures done { OnOk result (AreSameBelow (size_of contents.old) (byte_of contents.new)
        (sure transcript.now (byte_of contents.old))) }
{
    let mut at = 0;
    for stretch in stretches {
        let end = stretch.end.min(contents.size());
        if at < end {
            let span = Span {
                offset: at,
                size: end - at,
            };
            settle(transcript, &stretch.here, span, contents)?;
            at = end;
        }
    }
    Ok(())
}

// Makes a range what it holds, of which this is told.
fn settle(
    transcript: &Transcript,
    here: &Here,
    span: Span,
    contents: &mut Extents,
) -> Result<(), AllocError>
    requires sound { IsSoundReport transcript.now }
    requires some { 0 < span.size }
    requires fits { span.offset + span.size ≤ size_of contents.old }
    requires told { (x : ℕ) → IsTrue (is_in span.offset span.size x) → here_at transcript.now.asked x ≡ here.now }
    ensures size { size_of contents.new ≡ size_of contents.old }
    ensures done { OnOk result (AreSameBelow (size_of contents.old) (byte_of contents.new)
        (overlay span.offset span.size (sure transcript.now (byte_of contents.old)) (byte_of contents.old))) }
{
    match here.holds() {
        Holds::First => Ok(()),
        Holds::Unknown => contents.forget(span.offset, span.size),
        Holds::Change(number) => put_change(request(transcript, number), span, contents),
        Holds::Read(got) => put_piece(
            piece(request(transcript, got.number), got.piece),
            span,
            contents,
        ),
    }
}

// The request with this number.
fn request(transcript: &Transcript, k: u64) -> &Asked
    requires { IsSome (asked_at k transcript.now.asked) }
    ensures { asked_at k transcript.now.asked ≡ Some (report_of_request result.now) }
{
    match transcript.asked(k) {
        Some(one) => one,
        None => unreachable!(),
    }
}

// The piece of a READ at this place.
fn piece(one: &Asked, place: usize) -> &Piece
    requires { IsSome (slice_get one.now.pieces.items place) }
    ensures { slice_get one.now.pieces.items place ≡ Some result.now }
{
    match one.pieces.get(place) {
        Some(piece) => piece,
        None => unreachable!(),
    }
}

// Makes a range what this change leaves there.
fn put_change(one: &Asked, span: Span, contents: &mut Extents) -> Result<(), AllocError>
    requires fits { span.offset + span.size ≤ size_of contents.old }
    requires first { one.now.offset ≤ span.offset }
    requires last { span.offset + span.size ≤ one.now.offset + one.now.length }
    requires carried { one.now.command ≡ commands.WRITE → length one.now.payload ≡ one.now.length }
    ensures size { size_of contents.new ≡ size_of contents.old }
    ensures done { OnOk result (AreSameBelow (size_of contents.old) (byte_of contents.new)
        (overlay span.offset span.size (effect_byte (effect (report_of_request one.now))) (byte_of contents.old))) }
{
    match one.command {
        _ if !one.succeeded() => contents.forget(span.offset, span.size),
        commands::WRITE => put_bytes(one.payload.as_slice(), one.offset, span, contents),
        commands::WRITE_ZEROES => contents.zero(span.offset, span.size),
        _ => contents.forget(span.offset, span.size),
    }
}

// Makes a range what this piece of a READ gives there.
fn put_piece(piece: &Piece, span: Span, contents: &mut Extents) -> Result<(), AllocError>
    requires fits { span.offset + span.size ≤ size_of contents.old }
    requires first { piece_offset piece.now ≤ span.offset }
    requires last { span.offset + span.size ≤ piece_offset piece.now + piece_size piece.now }
    ensures size { size_of contents.new ≡ size_of contents.old }
    ensures done { OnOk result (AreSameBelow (size_of contents.old) (byte_of contents.new)
        (overlay span.offset span.size (λ x. Some (piece_byte piece.now x)) (byte_of contents.old))) }
{
    match piece {
        Piece::Bytes { offset, bytes } => put_bytes(bytes.as_slice(), *offset, span, contents),
        Piece::Hole { .. } => contents.zero(span.offset, span.size),
    }
}

// Makes a range those of the bytes that stand there, the first of them at this offset.
fn put_bytes(bytes: &[u8], first: u64, span: Span, contents: &mut Extents) -> Result<(), AllocError>
    requires fits { span.offset + span.size ≤ size_of contents.old }
    requires first { first ≤ span.offset }
    requires last { span.offset + span.size ≤ first + length bytes.now }
    ensures size { size_of contents.new ≡ size_of contents.old }
    ensures done { OnOk result (AreSameBelow (size_of contents.old) (byte_of contents.new)
        (overlay span.offset span.size (bytes_from first bytes.now) (byte_of contents.old))) }
{
    let place = (span.offset - first) as usize;
    contents.put(span.offset, &bytes[place..place + span.size as usize])
}
