//! Where pieces of content lie in an export.

ghost use Rattle.std.specs.Prelude.{◌≡◌, ◌+◌, ◌-◌, ◌^◌, ◌&&◌, min, nat_le};
ghost use Rattle.nbd_wire.specs.{codec.Contents.piece_of, Prelude.total};
ghost use Rattle.nbd_state.specs.Places.{span_of};

use nbd_state::{Span, ends_by};
use nbd_wire::{Content, Piece};

/// Where a chunk's content lies.
pub(crate) fn content_span(content: &Content<'_>) -> Span
    ensures { result ≡ span_of (piece_of content.now) }
{
    match content {
        Content::Bytes { offset, bytes } => Span {
            offset: *offset,
            size: bytes.len() as u64,
        },
        Content::Hole { offset, size } => Span {
            offset: *offset,
            size: *size,
        },
    }
}

/// Content lies in the range of this offset and length.
pub(crate) fn is_inside(span: Span, offset: u64, length: u64) -> bool
    ensures { result ≡ (nat_le offset span.offset && nat_le (span.offset + span.size) (offset + length)) }
{
    offset <= span.offset && ends_by(span.offset - offset, span.size, length)
}

/// The sizes of pieces, added up, or the largest number where they pass it: above each length.
pub(crate) fn bytes_in(pieces: &[Piece]) -> u128
    ensures { result ≡ min (total pieces.now) (2 ^ 128 - 1) }
{
    pieces.iter().fold(
        0,
        |sum, piece| sum.saturating_add(u128::from(Span::of(piece).size)),
    )
}
