//! The pieces that a request was answered, and what stands beside them.

ghost use Rattle.std.specs.Prelude.{◌≡◌, ◌==◌, ◌&&◌, ◌++◌, ◌∷◌, ℕ, [], false, not, true, IfOk, IfSome, MatchOption, if◌then◌else◌, is_some, option_to_list};
ghost use Rattle.nbd_state.specs.{Filters.is_settled_by, Indexes.Indexes, internal.Keeping.pieces_kept};

use crate::asking::Telling;
use crate::index::SpanIndex;
use crate::many::Many;
use nbd_wire::Piece;
use std::alloc::{AllocError, Global};
use std::marker::Model;
use std::ops::DerefSlice;
use std::{mem, slice};

/// What a READ was answered, in the order of the reply messages, or what a status called zero. Most requests have one
/// piece at most, which stands here, and take no more memory.
#[derive(Drop)]
pub struct Pieces {
    kept: Kept,
}

// The pieces, or where they stand.
#[derive(Drop)]
enum Kept {
    Nothing,
    One(Piece),
    Many(Box<Many>),
}

impl Model for Pieces {
    ghost use Rattle.nbd_state.specs.{Pieces.PiecesView, internal.Keeping.pieces_kept};

    ghost Value = { PiecesView };

    ghost view = { λ pieces. pieces_kept pieces.kept };
}

impl DerefSlice for Pieces {
    type Elem = Piece;

    ghost deref_gives = { λ pieces items. items ≡ pieces.items };

    fn deref(&self) -> &[Piece] {
        match &self.kept {
            Kept::Nothing => &[],
            Kept::One(piece) => slice::from_ref(piece),
            Kept::Many(many) => many.pieces.as_slice(),
        }
    }
}

impl Pieces {
    /// None yet, of a request whose reply need not tell these contexts. Where it has to tell each, this takes no memory.
    pub(crate) fn none(alloc: Global, told: Telling) -> Result<Pieces, AllocError>
        ensures items { IfOk result (λ pieces. pieces.items ≡ []) }
        ensures counts { IfOk result (λ pieces. pieces.counts ≡ []) }
        ensures told { IfOk result (λ pieces. (id : ℕ) → is_settled_by pieces.told id ≡ is_settled_by told id) }
    {
        if told.is_blank() {
            return Ok(Pieces {
                kept: Kept::Nothing,
            });
        }
        let many = Many::of(alloc, Vec::new(alloc), told)?;
        Ok(Pieces {
            kept: Kept::Many(many),
        })
    }

    /// How many numbered requests had completed when the message with each piece had come; of the pieces that stand
    /// behind these it was the last message of the reply.
    pub fn counts(&self) -> &[u64]
        ensures { result.now ≡ self.now.counts }
    {
        match &self.kept {
            Kept::Many(many) => many.counts.as_slice(),
            _ => &[],
        }
    }

    /// The pieces with what stands beside them, an index and what of the contexts the reply need not tell any more; None
    /// where it has to tell each.
    pub(crate) fn many(&self) -> Option<&Many>
        ensures told { MatchOption result ((id : ℕ) → is_settled_by self.now.told id ≡ false) (λ many. many.now.told ≡ self.now.told) }
        ensures indexed { IfSome result (λ many. Indexes many.now.index.sizes self.now.items) }
    {
        match &self.kept {
            Kept::Many(many) => Some(many),
            _ => None,
        }
    }

    /// A reply message gave this piece, if any, when so many requests had completed; the last one ends the reply. An
    /// `Err` says that memory ran out.
    pub(crate) fn add(
        &mut self,
        alloc: Global,
        piece: Option<Piece>,
        count: u64,
        ends: bool,
    ) -> Result<(), AllocError>
        ensures items { IfOk result (λ _. self.new.items ≡ self.old.items ++ option_to_list piece) }
        ensures counts { IfOk result (λ _. self.new.counts ≡ self.old.counts
            ++ (if is_some piece && not ends then count ∷ [] else [])) }
        ensures told { IfOk result (λ _. ends ≡ false → (id : ℕ) →
            is_settled_by self.new.told id ≡ is_settled_by self.old.told id) }
    {
        match piece {
            Some(piece) => self.kept.push(alloc, piece, count, ends),
            None => {
                if ends {
                    self.kept.end(alloc);
                }
                Ok(())
            }
        }
    }

    /// A reply message was the status of the context with this id, which told these pieces, and they are taken; it may end
    /// the reply. An `Err` says that memory ran out.
    pub(crate) fn tell(
        &mut self,
        alloc: Global,
        id: u32,
        zeroes: &mut Vec<Piece>,
        ends: bool,
    ) -> Result<(), AllocError>
        ensures items { IfOk result (λ _. self.new.items ≡ self.old.items ++ zeroes.old.items) }
        ensures counts { IfOk result (λ _. self.new.counts ≡ self.old.counts) }
        ensures told { IfOk result (λ _. ends ≡ false → (q : ℕ) →
            is_settled_by self.new.told q ≡ (if id == q then true else is_settled_by self.old.told q)) }
    {
        self.kept = match mem::replace(&mut self.kept, Kept::Nothing) {
            Kept::Nothing if ends && zeroes.is_empty() => Kept::Nothing,
            kept => {
                let mut many = kept.into_many(alloc)?;
                many.tell(alloc, id, zeroes, ends)?;
                Kept::Many(many)
            }
        };
        Ok(())
    }
}

impl Kept {
    // A reply message gave this piece.
    fn push(
        &mut self,
        alloc: Global,
        piece: Piece,
        count: u64,
        ends: bool,
    ) -> Result<(), AllocError>
        ensures items { IfOk result (λ _. (pieces_kept self.new).items ≡ (pieces_kept self.old).items ++ piece ∷ []) }
        ensures counts { IfOk result (λ _. (pieces_kept self.new).counts ≡ (pieces_kept self.old).counts
            ++ (if not ends then count ∷ [] else [])) }
        ensures told { IfOk result (λ _. ends ≡ false → (id : ℕ) →
            is_settled_by (pieces_kept self.new).told id ≡ is_settled_by (pieces_kept self.old).told id) }
    {
        *self = match mem::replace(self, Kept::Nothing) {
            Kept::Nothing if ends => Kept::One(piece),
            kept => {
                let mut many = kept.into_many(alloc)?;
                many.add(alloc, piece, count, ends)?;
                Kept::Many(many)
            }
        };
        Ok(())
    }

    // The reply has ended: no index is kept, nor which contexts it need not tell.
    fn end(&mut self, alloc: Global)
        ensures items { (pieces_kept self.new).items ≡ (pieces_kept self.old).items }
        ensures counts { (pieces_kept self.new).counts ≡ (pieces_kept self.old).counts }
    {
        if let Kept::Many(many) = self {
            many.told.ids.clear();
            many.index = SpanIndex::new(alloc);
        }
    }

    // The same pieces, with room for what stands beside them.
    fn into_many(self, alloc: Global) -> Result<Box<Many>, AllocError>
        ensures items { IfOk result (λ many. many.value.pieces.items ≡ (pieces_kept self).items) }
        ensures counts { IfOk result (λ many. many.value.counts.items ≡ (pieces_kept self).counts) }
        ensures told { IfOk result (λ many. (id : ℕ) →
            is_settled_by many.value.told id ≡ is_settled_by (pieces_kept self).told id) }
    {
        match self {
            Kept::Nothing => Many::of(alloc, Vec::new(alloc), Telling::none(alloc)),
            Kept::One(piece) => {
                let mut pieces = Vec::new(alloc);
                pieces.push(piece)?;
                Many::of(alloc, pieces, Telling::none(alloc))
            }
            Kept::Many(many) => Ok(many),
        }
    }
}
