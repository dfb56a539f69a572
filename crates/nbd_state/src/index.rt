//! An index of spans by their offsets, and of the pieces of a reply.

ghost use Rattle.std.specs.{Prelude.{◌≡◌, ◌⊎◌, ◌↔◌, ◌+◌, ◌++◌, ◌∷◌, ◌<◌, ◌≤◌, ◌^◌, ℕ, [], None, Some, false, IfOk, IsTrue, MatchBool}, BTreeMap.btree_map_len};
ghost use Rattle.nbd_state.specs.Indexes.{Covers, HasMore, Indexes, IsBare, IsFree, IsHeldFrom, Meets, size_from};
ghost use Rattle.nbd_wire.specs.Prelude.{is_in};

use crate::proper::ends_by;
use crate::span::Span;
use nbd_wire::Piece;
use std::alloc::{AllocError, Global};
use std::collections::BTreeMap;

/// The sizes of spans by their offsets: spans that share no offset, and none of them empty. It takes no
/// memory as long as it holds none.
#[derive(Drop)]
pub struct SpanIndex {
    sizes: BTreeMap<u64, u64>,
    // No span is empty.
    ghost filled: { (k n : ℕ) → size_from sizes k ≡ Some n → 0 < n },
    // A span ends where a later one begins, or before.
    ghost apart: { (k n j m : ℕ) → size_from sizes k ≡ Some n → size_from sizes j ≡ Some m → k < j → k + n ≤ j },
}

impl SpanIndex {
    /// Without a span.
    pub fn new(alloc: Global) -> SpanIndex
        ensures empty { (k : ℕ) → size_from result.sizes k ≡ None }
        ensures len { btree_map_len result.sizes ≡ 0 }
    {
        SpanIndex {
            sizes: BTreeMap::new(alloc),
        }
    }

    /// Whether it holds no span.
    pub fn is_empty(&self) -> bool
        ensures { IsTrue result ↔ (btree_map_len self.now.sizes ≡ 0) }
    {
        self.sizes.is_empty()
    }

    /// Whether the span lies before or after each of those that it holds. The cost is the logarithm of their number.
    pub fn is_apart(&self, span: Span) -> bool
        ensures { MatchBool result (IsFree (size_from self.now.sizes) span.offset span.size)
            (Meets (size_from self.now.sizes) span.offset span.size) }
    {
        self.end_before(span.offset) && self.begin_after(span)
    }

    // The spans that begin before an offset end there or before.
    fn end_before(&self, offset: u64) -> bool
        ensures { MatchBool result
            ((k n : ℕ) → size_from self.now.sizes k ≡ Some n → k < offset → k + n ≤ offset)
            ((k : ℕ) × (n : ℕ) × (size_from self.now.sizes k ≡ Some n) × (k < offset) × (offset < k + n)) }
    {
        match self.sizes.range(..offset).next_back() {
            Some((first, size)) => ends_by(*first, *size, offset),
            None => true,
        }
    }

    // The spans that do not begin before this one begin where it ends or after.
    fn begin_after(&self, span: Span) -> bool
        ensures { MatchBool result
            ((k n : ℕ) → size_from self.now.sizes k ≡ Some n → span.offset ≤ k → span.offset + span.size ≤ k)
            ((k : ℕ) × (n : ℕ) × (size_from self.now.sizes k ≡ Some n) × (span.offset ≤ k)
            × (k < span.offset + span.size)) }
    {
        match self.sizes.range(span.offset..).next() {
            Some((first, _)) => ends_by(span.offset, span.size, *first),
            None => true,
        }
    }

    /// Takes a span in, unless it is empty or does not lie apart from those that are there. The cost is the
    /// logarithm of their number.
    pub fn insert(&mut self, span: Span) -> Result<bool, AllocError>
        ensures taken { IfOk result (λ taken. IsTrue taken →
            (0 < span.size) × IsFree (size_from self.old.sizes) span.offset span.size
            × HasMore (size_from self.old.sizes) (size_from self.new.sizes) span.offset span.size) }
        ensures left { IfOk result (λ taken. taken ≡ false → (self.new.sizes ≡ self.old.sizes)
            × ((span.size ≡ 0) ⊎ Meets (size_from self.old.sizes) span.offset span.size)) }
    {
        if span.size == 0 || !self.is_apart(span) {
            return Ok(false);
        }
        self.sizes.insert(span.offset, span.size)?;
        Ok(true)
    }

    /// Whether each offset of a span lies in one of those that it holds. The cost is the logarithm of their number for each of them that
    /// meets the span.
    pub fn covers(&self, span: Span) -> bool
        requires { span.offset + span.size < 2 ^ 64 }
        ensures { MatchBool result (Covers (size_from self.now.sizes) span.offset span.size)
            ((x : ℕ) × IsTrue (is_in span.offset span.size x) × IsBare (size_from self.now.sizes) x) }
    {
        let mut covered = 0;
        while covered < span.size {
            let held = self.held_from(span.offset + covered);
            if held == 0 {
                return false;
            }
            covered += held.min(span.size - covered);
        }
        true
    }

    // How many bytes from this offset on lie in the span that holds it; 0 if none does.
    fn held_from(&self, offset: u64) -> u64
        ensures { IsHeldFrom (size_from self.now.sizes) offset result }
    {
        match self.sizes.range(..=offset).next_back() {
            Some((first, size)) => size.saturating_sub(offset - *first),
            None => 0,
        }
    }

    /// The index of these pieces and one more, where this is the index of the pieces. It holds pieces from
    /// the second one on; it holds none again where one is empty or shares an offset with another.
    pub fn with(
        self,
        alloc: Global,
        pieces: &[Piece],
        piece: &Piece,
    ) -> Result<SpanIndex, AllocError>
        requires { Indexes self.sizes pieces.now }
        ensures { IfOk result (λ index. Indexes index.sizes (pieces.now ++ piece.now ∷ [])) }
    {
        let mut index = self;
        if index.is_empty() {
            let [first] = pieces else {
                return Ok(index);
            };
            if !index.insert(Span::of(first))? {
                return Ok(index);
            }
        }
        if index.insert(Span::of(piece))? {
            Ok(index)
        } else {
            Ok(SpanIndex::new(alloc))
        }
    }
}
