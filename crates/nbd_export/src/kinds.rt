//! The kinds of an export's bytes, as ranges of one kind that lie side by side.

ghost use Rattle.std.specs.{Prelude.{◌≡◌, ◌==◌, ◌+◌, ◌-◌, ◌^◌, ◌<◌, ◌≤◌, ℕ, None, Some, if◌then◌else◌, IfOk, IsSome, IsTrue, OnErr, OnOk}, BTreeMap.btree_map_len};
ghost use Rattle.nbd_export.specs.Kinds.{IsApartAt, kind_from, ranges_met};

use crate::kind::Kind;
use crate::starts::{end_of, join, kind_at, overlay};
use std::alloc::{AllocError, Global};
use std::collections::BTreeMap;

/// The kinds of an export's bytes: ranges of one kind that lie side by side and cover it. None of them is
/// empty, and no two neighbours are of one kind.
#[derive(Drop)]
pub struct Kinds {
    size: u64,
    // The kind of each range, by the offset where it begins.
    starts: BTreeMap<u64, Kind>,
    // Each offset fits 64 bits.
    ghost fits: { size < 2 ^ 64 },
    // The first byte, where there is one, lies in a range.
    ghost whole: { 0 < size → IsSome (kind_from starts 0) },
    // No range begins at the size or after it.
    ghost within: { (x : ℕ) → size ≤ x → kind_from starts x ≡ None },
    // Where a range begins the kind changes.
    ghost apart: { (x : ℕ) → IsApartAt (kind_from starts) x },
}

impl Kinds {
    ghost use Rattle.nbd_export.specs.RangeKinds.{kind_of};

    /// The kinds of `size` bytes that are all of this kind.
    pub fn new(alloc: Global, size: u64, kind: Kind) -> Result<Kinds, AllocError>
        ensures size { IfOk result (λ kinds. kinds.size ≡ size) }
        ensures kinds { IfOk result (λ kinds. (x : ℕ) → x < size → kind_of kinds x ≡ Some kind) }
        ensures count { IfOk result (λ kinds. btree_map_len kinds.starts ≡ (if size == 0 then 0 else 1)) }
    {
        let mut starts = BTreeMap::new(alloc);
        if size > 0 {
            starts.insert(0, kind)?;
        }
        Ok(Kinds { size, starts })
    }

    /// How many bytes there are.
    pub fn size(&self) -> u64
        ensures { result ≡ self.now.size }
    {
        self.size
    }

    /// How many ranges there are.
    pub fn count(&self) -> u64
        ensures { result ≡ btree_map_len self.now.starts }
    {
        self.starts.len() as u64
    }

    /// In how many ranges the bytes from `first` to before `end` lie.
    pub fn count_in(&self, first: u64, end: u64) -> u64
        ensures { result ≡ ranges_met (kind_from self.now.starts) first (end - first) }
    {
        let (mut at, mut count) = (first, 0);
        while at < end {
            at = end_of(&self.starts, at, end);
            count += 1;
        }
        count
    }

    /// The kind of the byte at an offset.
    pub fn kind_at(&self, offset: u64) -> Kind
        requires { offset < self.now.size }
        ensures { kind_of self.now offset ≡ Some result }
    {
        kind_at(&self.starts, offset)
    }

    /// Where the range at an offset ends.
    pub fn end_of(&self, offset: u64) -> u64
        requires { offset < self.now.size }
        ensures behind { offset < result }
        ensures within { result ≤ self.now.size }
        ensures one { (x : ℕ) → offset ≤ x → x < result → kind_of self.now x ≡ kind_of self.now offset }
        ensures next { result < self.now.size → IsSome (kind_from self.now.starts result) }
    {
        end_of(&self.starts, offset, self.size)
    }

    /// Makes the bytes from `first` to before `end` of this kind. All is as before where memory is refused.
    pub fn set(&mut self, first: u64, end: u64, kind: Kind) -> Result<(), AllocError>
        requires some { first < end }
        requires within { end ≤ self.old.size }
        ensures size { self.new.size ≡ self.old.size }
        ensures inside { OnOk result ((x : ℕ) → first ≤ x → x < end → kind_of self.new x ≡ Some kind) }
        ensures before { OnOk result ((x : ℕ) → x < first → kind_of self.new x ≡ kind_of self.old x) }
        ensures behind { OnOk result ((x : ℕ) → end ≤ x → x < self.old.size → kind_of self.new x ≡ kind_of self.old x) }
        ensures count { btree_map_len self.new.starts ≤ btree_map_len self.old.starts + 2 }
        ensures refused { OnErr result ((x : ℕ) → kind_of self.new x ≡ kind_of self.old x) }
        ensures refused_count { OnErr result (btree_map_len self.new.starts ≡ btree_map_len self.old.starts) }
    {
        if self.is_all(first, end, kind) {
            return Ok(());
        }
        overlay(&mut self.starts, first, end, self.size, kind)?;
        join(&mut self.starts, end);
        join(&mut self.starts, first);
        Ok(())
    }

    // Whether the bytes from `first` to before `end` lie in one range, of this kind.
    fn is_all(&self, first: u64, end: u64, kind: Kind) -> bool
        requires { first < self.now.size }
        ensures { IsTrue result → (x : ℕ) → first ≤ x → x < end → kind_of self.now x ≡ Some kind }
    {
        self.kind_at(first) == kind && end <= self.end_of(first)
    }
}
