//! The pieces of a reply of several messages.

ghost use Rattle.std.specs.{Prelude.{◌≡◌, ◌==◌, ◌++◌, ◌∷◌, ℕ, [], false, not, true, IfOk, if◌then◌else◌}};
ghost use Rattle.nbd_state.specs.{Filters.is_settled_by, Indexes.Indexes};

use crate::asking::Telling;
use crate::index::SpanIndex;
use nbd_wire::Piece;
use std::alloc::{AllocError, Global};
use std::mem;

/// The pieces that a request was answered, and what stands beside them.
#[derive(Drop)]
pub(crate) struct Many {
    pub pieces: Vec<Piece>,
    /// Of a READ: how many numbered requests had completed when the message with each piece had come; of the pieces that
    /// stand behind these it was the last message of the reply.
    pub counts: Vec<u64>,
    /// The metadata contexts that the reply need not tell any more, until it ends.
    pub told: Telling,
    /// The pieces by their offsets, from the second one on and until the reply ends.
    pub index: SpanIndex,
    // What lies apart from the pieces that the index holds, where it holds any, lies apart from all.
    ghost indexed: { Indexes index.sizes pieces.items },
}

impl Many {
    /// These pieces alone, of a request whose reply need not tell these contexts. An `Err` says that memory ran out.
    pub(crate) fn of(
        alloc: Global,
        pieces: Vec<Piece>,
        told: Telling,
    ) -> Result<Box<Many>, AllocError>
        ensures { IfOk result (λ many. (many.value.pieces ≡ pieces) × (many.value.counts.items ≡ [])
            × (many.value.told ≡ told)) }
    {
        Ok(Box::new(
            alloc,
            Many {
                pieces,
                counts: Vec::new(alloc),
                told,
                index: SpanIndex::new(alloc),
            },
        )?)
    }

    /// A reply message gave this piece when so many requests had completed; it may end the reply. An `Err` says that memory
    /// ran out.
    pub(crate) fn add(
        &mut self,
        alloc: Global,
        piece: Piece,
        count: u64,
        ends: bool,
    ) -> Result<(), AllocError>
        ensures pieces { IfOk result (λ _. self.new.pieces.items ≡ self.old.pieces.items ++ piece ∷ []) }
        ensures counts { IfOk result (λ _. self.new.counts.items ≡ self.old.counts.items
            ++ (if not ends then count ∷ [] else [])) }
        ensures told { IfOk result (λ _. ends ≡ false → self.new.told ≡ self.old.told) }
    {
        let place = self.pieces.len();
        let index = mem::replace(&mut self.index, SpanIndex::new(alloc));
        self.pieces.push(piece)?;
        if ends {
            self.told.ids.clear();
            return Ok(());
        }
        self.index = index.with(alloc, &self.pieces[..place], &self.pieces[place])?;
        self.counts.push(count)?;
        Ok(())
    }

    /// A reply message was the status of the context with this id, which told these pieces; they are taken. An `Err` says that
    /// memory ran out.
    pub(crate) fn tell(
        &mut self,
        alloc: Global,
        id: u32,
        zeroes: &mut Vec<Piece>,
        ends: bool,
    ) -> Result<(), AllocError>
        ensures pieces { IfOk result (λ _. self.new.pieces.items ≡ self.old.pieces.items ++ zeroes.old.items) }
        ensures counts { IfOk result (λ _. self.new.counts ≡ self.old.counts) }
        ensures told { IfOk result (λ _. ends ≡ false → (q : ℕ) →
            is_settled_by self.new.told q ≡ (if id == q then true else is_settled_by self.old.told q)) }
    {
        self.told.tell(id, ends)?;
        self.index = SpanIndex::new(alloc);
        self.pieces.append(zeroes)
    }
}
