//! What the rules ask of a request under way.

ghost use Rattle.std.specs.Prelude.{◌≡◌};
ghost use Rattle.nbd_state.specs.{Filters.is_settled_by, Places.span_of};
ghost use Rattle.nbd_wire.specs.{declared.payloads.Piece.Piece, Prelude.is_apart_from};

use crate::asked::Exchange;
use crate::span::Span;
use nbd_wire::Piece;

impl Exchange {
    /// Whether the context in force with this id has its status, or is not asked.
    pub fn is_settled(&self, id: u32) -> bool
        ensures { result ≡ is_settled_by self.now.asked.pieces.told id }
    {
        match self.asked.pieces.many() {
            Some(many) => many.told.is_settled(id),
            None => false,
        }
    }

    /// Content lies before or after each of the pieces. In a session the cost is the logarithm of their
    /// number: the index holds them all where there are two or more.
    pub fn is_apart_from(&self, span: Span) -> bool
        ensures { (piece : Piece) → span_of piece ≡ span → result ≡ is_apart_from piece self.now.asked.pieces.items }
    {
        match self.asked.pieces.many() {
            Some(many) if !many.index.is_empty() => many.index.is_apart(span),
            _ => are_apart(&self.asked.pieces, span),
        }
    }
}

// Content lies before or after each of these pieces.
fn are_apart(pieces: &[Piece], span: Span) -> bool
    ensures { (piece : Piece) → span_of piece ≡ span → result ≡ is_apart_from piece pieces.now }
{
    for piece in pieces {
        if !span.is_apart(Span::of(piece)) {
            return false;
        }
    }
    true
}
