//! The bytes that a READ gives, and those that a BLOCK_STATUS calls zero, against the contents when it is served.

ghost use Rattle.std.specs.Prelude.{◌≡◌, ◌==◌, ◌||◌, ◌+◌, ◌-◌, ◌≤◌, IfOk, OnOk, length, map, max, min};
ghost use Rattle.nbd_export.specs.Ranges.{IsLeast};
ghost use Rattle.nbd_wire.specs.declared.commands.TheConstants as commands;
ghost use Rattle.nbd_wire.specs.Prelude.{IsWrongIn, effect, is_success, piece_offset, piece_size};
ghost use Rattle.nbd_state.specs.{Transcripts.report_of_request, Showing.outcome_of};
ghost use Rattle.nbd_judge.specs.internal.{IsServable, Pieces.{AddsSorted, AreApart, AreInOrder, AreInside, DiffersInOneOf, DiffersInOneWithin, DiffersInPiece, DiffersWithin, IsSortedAt}};

use crate::least::lesser;
use crate::sorting::{SortedReads, by_offset, keep_sorted, meeting};
use nbd_export::Contents;
use nbd_session::{Asked, Outcome};
use nbd_state::Span;
use nbd_wire::{Entry, Part, Piece, commands};
use std::alloc::{AllocError, Global};

/// The least offset of a wrong byte that this entry serves, of its request or of a part of it, against the present
/// contents; None if it serves none. If it serves a part, the cost is that of the bytes and holes that meet the part,
/// and the logarithm of the number of pieces; the first time the pieces are sorted besides, and `reads` keeps them
/// sorted. An `Err` says that memory ran out.
pub fn wrong<'a, C: Contents>(
    alloc: Global,
    entry: Entry,
    one: &'a Asked,
    reads: &mut SortedReads<'a>,
    contents: &mut C,
) -> Result<Option<u64>, AllocError>
    requires servable { IsServable (C.size contents.old) (report_of_request one.now) }
    requires sorted { IsSortedAt reads.old entry.request one.now.pieces.items }
    ensures least { IfOk result
        (IsLeast (IsWrongIn entry.part (effect (report_of_request one.now)) (C.byte contents.old))) }
    ensures sorted { OnOk result (AddsSorted reads.old reads.new entry.request one.now.pieces.items) }
    ensures size { C.size contents.new ≡ C.size contents.old }
    ensures bytes { C.byte contents.new ≡ C.byte contents.old }
{
    if is_compared(one.command) {
        if is_success(one.outcome) {
            return match entry.part {
                Some(part) => part_difference(
                    alloc,
                    entry.request,
                    &one.pieces,
                    part,
                    reads,
                    contents,
                ),
                None => first_difference(alloc, &one.pieces, contents),
            };
        }
    }
    Ok(None)
}

// The bytes that the reply to a READ gives are compared, and those that the reply to a BLOCK_STATUS calls zero.
fn is_compared(command: u16) -> bool
    ensures { result ≡ ((command == commands.READ) || (command == commands.BLOCK_STATUS)) }
{
    command == commands::READ || command == commands::BLOCK_STATUS
}

/// Whether a request succeeded.
pub fn is_success(outcome: Outcome) -> bool
    ensures { result ≡ is_success (outcome_of outcome) }
{
    match outcome {
        Outcome::Success => true,
        Outcome::Failure | Outcome::Pending => false,
    }
}

// The least offset at which one of the pieces differs from the contents. They are compared in the order
// of their offsets.
fn first_difference<C: Contents>(
    alloc: Global,
    pieces: &[Piece],
    contents: &mut C,
) -> Result<Option<u64>, AllocError>
    requires inside { AreInside (C.size contents.old) pieces.now }
    requires apart { AreApart pieces.now }
    ensures least { IfOk result (IsLeast (DiffersInOneOf (C.byte contents.old) pieces.now (length pieces.now))) }
    ensures size { C.size contents.new ≡ C.size contents.old }
    ensures bytes { C.byte contents.new ≡ C.byte contents.old }
{
    if let [piece] = pieces {
        return Ok(piece_difference(piece, contents));
    }
    let sorted = by_offset(alloc, pieces)?;
    Ok(least_difference(&sorted, contents))
}

// The least offset at which one of these pieces differs from the contents.
fn least_difference<C: Contents>(pieces: &[&Piece], contents: &mut C) -> Option<u64>
    requires { AreInside (C.size contents.old) (map (λ p. p.now) pieces.now) }
    ensures least { IsLeast (DiffersInOneOf (C.byte contents.old) (map (λ p. p.now) pieces.now) (length pieces.now)) result }
    ensures size { C.size contents.new ≡ C.size contents.old }
    ensures bytes { C.byte contents.new ≡ C.byte contents.old }
{
    let mut found = None;
    for piece in pieces {
        found = lesser(found, piece_difference(piece, contents));
    }
    found
}

// The least offset at which a piece differs from the contents: a hole is compared as zeroes.
fn piece_difference<C: Contents>(piece: &Piece, contents: &mut C) -> Option<u64>
    requires { piece_offset piece.now + piece_size piece.now ≤ C.size contents.old }
    ensures least { IsLeast (DiffersInPiece (C.byte contents.old) piece.now) result }
    ensures size { C.size contents.new ≡ C.size contents.old }
    ensures bytes { C.byte contents.new ≡ C.byte contents.old }
{
    match piece {
        Piece::Bytes { offset, bytes } => contents.differs(*offset, bytes.as_slice()),
        Piece::Hole { offset, size } => contents.differs_zero(*offset, *size),
    }
}

// The least offset in a part at which one of the pieces of this request differs from the contents. Several pieces are
// sorted the first time.
fn part_difference<'a, C: Contents>(
    alloc: Global,
    request: u64,
    pieces: &'a [Piece],
    part: Part,
    reads: &mut SortedReads<'a>,
    contents: &mut C,
) -> Result<Option<u64>, AllocError>
    requires inside { AreInside (C.size contents.old) pieces.now }
    requires apart { AreApart pieces.now }
    requires sorted { IsSortedAt reads.old request pieces.now }
    ensures least { IfOk result
        (IsLeast (DiffersInOneWithin (C.byte contents.old) pieces.now (length pieces.now) part)) }
    ensures sorted { OnOk result (AddsSorted reads.old reads.new request pieces.now) }
    ensures size { C.size contents.new ≡ C.size contents.old }
    ensures bytes { C.byte contents.new ≡ C.byte contents.old }
{
    if let [piece] = pieces {
        return Ok(piece_difference_within(piece, part, contents));
    }
    keep_sorted(alloc, request, pieces, reads)?;
    Ok(difference_within(&reads[&request], part, contents))
}

// The least offset in a part at which one of these pieces differs from the contents.
fn difference_within<C: Contents>(pieces: &[&Piece], part: Part, contents: &mut C) -> Option<u64>
    requires inside { AreInside (C.size contents.old) (map (λ p. p.now) pieces.now) }
    requires in_order { AreInOrder (map (λ p. p.now) pieces.now) }
    ensures least { IsLeast (DiffersInOneWithin (C.byte contents.old) (map (λ p. p.now) pieces.now) (length pieces.now) part)
        result }
    ensures size { C.size contents.new ≡ C.size contents.old }
    ensures bytes { C.byte contents.new ≡ C.byte contents.old }
{
    let met = meeting(pieces, part);
    let mut found = None;
    for piece in met {
        found = lesser(found, piece_difference_within(piece, part, contents));
    }
    found
}

// The least offset in a part at which a piece differs from the contents.
fn piece_difference_within<C: Contents>(piece: &Piece, part: Part, contents: &mut C) -> Option<u64>
    requires { piece_offset piece.now + piece_size piece.now ≤ C.size contents.old }
    ensures least { IsLeast (DiffersWithin (C.byte contents.old) piece.now part) result }
    ensures size { C.size contents.new ≡ C.size contents.old }
    ensures bytes { C.byte contents.new ≡ C.byte contents.old }
{
    let span = overlap(Span::of(piece), part);
    if span.size == 0 {
        return None;
    }
    match piece {
        Piece::Bytes { offset, bytes } => {
            let first = (span.offset - *offset) as usize;
            let end = first + span.size as usize;
            contents.differs(span.offset, &bytes.as_slice()[first..end])
        }
        Piece::Hole { .. } => contents.differs_zero(span.offset, span.size),
    }
}

/// Where a span and a part meet; of size 0 where they do not.
pub fn overlap(span: Span, part: Part) -> Span
    ensures offset { result.offset ≡ max span.offset part.offset }
    ensures size { result.size ≡
        min (span.offset + span.size) (part.offset + part.length) - max span.offset part.offset }
{
    let skipped = part.offset.saturating_sub(span.offset);
    let before = span.offset.saturating_sub(part.offset);
    let rest = span.size.saturating_sub(skipped);
    Span {
        offset: span.offset + skipped,
        size: rest.min(part.length.saturating_sub(before)),
    }
}
