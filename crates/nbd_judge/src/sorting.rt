//! The pieces of READs in the order of their offsets.

ghost use Rattle.std.specs.{Prelude.{◌≡◌, ◌+◌, ◌-◌, IfOk, IsSome, IsTrue, OnOk, map, nat_le, nat_lt}, BTreeMap.get, Ordering.nat_cmp};
ghost use Rattle.nbd_wire.specs.Prelude.{is_in, piece_offset, piece_size};
ghost use Rattle.nbd_judge.specs.internal.Pieces.{AddsSorted, AreApart, AreInOrder, AreSorted, AreThose};

use nbd_state::{Span, ends_by};
use nbd_wire::{Part, Piece};
use std::alloc::{AllocError, Global};
use std::collections::BTreeMap;

/// By the number of the request: the pieces of a READ that is served in parts, in the order of their offsets.
pub type SortedReads<'a> = BTreeMap<u64, Vec<&'a Piece>>;

/// The pieces that are not empty, in the order of their offsets.
pub fn by_offset(alloc: Global, pieces: &[Piece]) -> Result<Vec<&Piece>, AllocError>
    requires { AreApart pieces.now }
    ensures { IfOk result (λ sorted. AreSorted pieces.now (map (λ p. p.now) sorted.items)) }
{
    let mut sorted: Vec<&Piece> = pieces.iter().collect(alloc)?;
    sorted.retain(|piece| Span::of(piece).size > 0);
    sorted.sort_by_key(|piece| Span::of(piece).offset)?;
    Ok(sorted)
}

/// Adds the pieces of a request, in the order of their offsets, if they are not there yet.
pub fn keep_sorted<'a>(
    alloc: Global,
    request: u64,
    pieces: &'a [Piece],
    reads: &mut SortedReads<'a>,
) -> Result<(), AllocError>
    requires apart { AreApart pieces.now }
    ensures adds { OnOk result (AddsSorted reads.old reads.new request pieces.now) }
    ensures there { OnOk result (IsSome (get nat_cmp reads.new request)) }
{
    if !reads.contains_key(&request) {
        reads.insert(request, by_offset(alloc, pieces)?)?;
    }
    Ok(())
}

/// Those of the pieces that meet a part. The cost is the logarithm of their number.
pub fn meeting<'p, 'a>(pieces: &'p [&'a Piece], part: Part) -> &'p [&'a Piece]
    requires { AreInOrder (map (λ p. p.now) pieces.now) }
    ensures { AreThose (λ x. IsTrue (is_in part.offset part.length x)) (map (λ p. p.now) pieces.now)
        (map (λ p. p.now) result.now) }
{
    let before = pieces.partition_point(|piece| ends_before(piece, part));
    let rest = &pieces[before..];
    let count = rest.partition_point(|piece| begins_before_end(piece, part));
    &rest[..count]
}

// Whether a piece ends where a part begins, or before.
fn ends_before(piece: &Piece, part: Part) -> bool
    ensures { result ≡ nat_le (piece_offset piece.now + piece_size piece.now) part.offset }
{
    let span = Span::of(piece);
    ends_by(span.offset, span.size, part.offset)
}

// Whether a piece begins before a part ends.
fn begins_before_end(piece: &Piece, part: Part) -> bool
    ensures { result ≡ nat_lt (piece_offset piece.now - part.offset) part.length }
{
    Span::of(piece).offset.saturating_sub(part.offset) < part.length
}
