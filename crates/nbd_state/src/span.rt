//! Where content lies in an export.

ghost use Rattle.std.specs.Prelude.{◌≡◌, ◌+◌, ◌||◌, nat_le};

use crate::proper::ends_by;
use nbd_wire::Piece;

/// Where content lies: from an offset of the export on, so many bytes.
#[derive(Clone, Copy, Drop)]
pub struct Span {
    pub offset: u64,
    pub size: u64,
}

impl Span {
    ghost use Rattle.nbd_state.specs.Places.{span_of};

    /// Where a piece lies.
    pub fn of(piece: &Piece) -> Span
        ensures { result ≡ span_of piece.now }
    {
        match piece {
            Piece::Bytes { offset, bytes } => Span {
                offset: *offset,
                size: bytes.as_slice().len() as u64,
            },
            Piece::Hole { offset, size } => Span {
                offset: *offset,
                size: *size,
            },
        }
    }

    /// One lies before the other.
    pub fn is_apart(self, other: Span) -> bool
        ensures { result ≡ (nat_le (self.offset + self.size) other.offset || nat_le (other.offset + other.size)
            self.offset) }
    {
        ends_by(self.offset, self.size, other.offset)
            || ends_by(other.offset, other.size, self.offset)
    }
}
