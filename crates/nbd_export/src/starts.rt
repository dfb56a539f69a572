//! Ranges of one kind, by where each begins: a range ends where the next one begins.
//!
//! Each call costs the logarithm of the number of ranges, and `clear_between` as much for each range that
//! it takes away.

ghost use Rattle.std.specs.{Prelude.{◌≡◌, ◌≢◌, ◌+◌, ◌<◌, ◌≤◌, ◌⊎◌, ℕ, None, Some, false, if◌then◌else◌, IfOk, IsSome, IsTrue, OnErr, OnOk}, BTreeMap.{IsUnchanged, btree_map_len}};
ghost use Rattle.nbd_export.specs.{Kinds.{kind_at, kind_from}, internal.{IsJoin, IsOverlay}};

use crate::kind::Kind;
use std::alloc::AllocError;
use std::collections::BTreeMap;

/// The kind at an offset: that of the last range that begins there or before.
pub fn kind_at(starts: &BTreeMap<u64, Kind>, offset: u64) -> Kind
    requires { IsSome (kind_from starts.now 0) }
    ensures { kind_at (kind_from starts.now) offset ≡ Some result }
{
    match starts.range(..=offset).next_back() {
        Some((_, kind)) => *kind,
        None => unreachable!(),
    }
}

/// Where the range at an offset ends: where the next one begins, or at `size` where none does before it.
pub fn end_of(starts: &BTreeMap<u64, Kind>, offset: u64, size: u64) -> u64
    requires { offset < size }
    ensures behind { offset < result }
    ensures within { result ≤ size }
    ensures one { (x : ℕ) → offset < x → x < result → kind_from starts.now x ≡ None }
    ensures next { result < size → IsSome (kind_from starts.now result) }
{
    match starts.range(offset + 1..size).next() {
        Some((start, _)) => *start,
        None => size,
    }
}

/// Lays a range of this kind over the others. All is as before where memory is refused.
pub fn overlay(
    starts: &mut BTreeMap<u64, Kind>,
    first: u64,
    end: u64,
    size: u64,
    kind: Kind,
) -> Result<(), AllocError>
    requires range { first < end }
    requires whole { IsSome (kind_from starts.old 0) }
    ensures done { OnOk result (IsOverlay (kind_from starts.old) (kind_from starts.new) first end size kind) }
    ensures len { btree_map_len starts.new ≤ btree_map_len starts.old + 2 }
    ensures refused { OnErr result ((x : ℕ) → kind_from starts.new x ≡ kind_from starts.old x) }
    ensures refused_len { OnErr result (btree_map_len starts.new ≡ btree_map_len starts.old) }
{
    let made = end < size && split(starts, end)?;
    if let Err(refused) = starts.insert(first, kind) {
        if made {
            starts.remove(&end);
        }
        return Err(refused.into());
    }
    clear_between(starts, first, end);
    Ok(())
}

/// Lets a range begin here, of the kind that is here. True where none began here before.
fn split(starts: &mut BTreeMap<u64, Kind>, at: u64) -> Result<bool, AllocError>
    requires { IsSome (kind_from starts.old 0) }
    ensures here { OnOk result (kind_from starts.new at ≡ kind_at (kind_from starts.old) at) }
    ensures begun { OnOk result (IsSome (kind_from starts.new at)) }
    ensures others { (x : ℕ) → x ≢ at → kind_from starts.new x ≡ kind_from starts.old x }
    ensures made { IfOk result (λ made. IsTrue made → kind_from starts.old at ≡ None) }
    ensures kept { IfOk result (λ made. made ≡ false → kind_from starts.new at ≡ kind_from starts.old at) }
    ensures len { IfOk result (λ made. btree_map_len starts.new ≡ btree_map_len starts.old + (if made then 1 else 0)) }
    ensures refused { OnErr result (IsUnchanged starts.old starts.new) }
{
    if starts.contains_key(&at) {
        return Ok(false);
    }
    let kind = kind_at(starts, at);
    starts.insert(at, kind)?;
    Ok(true)
}

// Takes away the ranges that begin between two offsets.
fn clear_between(starts: &mut BTreeMap<u64, Kind>, first: u64, end: u64)
    requires { first < end }
    ensures inside { (x : ℕ) → first < x → x < end → kind_from starts.new x ≡ None }
    ensures outside { (x : ℕ) → (x ≤ first) ⊎ (end ≤ x) → kind_from starts.new x ≡ kind_from starts.old x }
    ensures len { btree_map_len starts.new ≤ btree_map_len starts.old }
{
    while let Some((start, _)) = starts.range(first + 1..end).next() {
        let start = *start;
        starts.remove(&start);
    }
}

/// Joins the range that begins here to the one before it where both are of one kind.
pub fn join(starts: &mut BTreeMap<u64, Kind>, at: u64)
    requires { IsSome (kind_from starts.old 0) }
    ensures done { IsJoin (kind_from starts.old) (kind_from starts.new) at }
    ensures len { btree_map_len starts.new ≤ btree_map_len starts.old }
{
    if at == 0 {
        return;
    }
    let before = kind_at(starts, at - 1);
    if let Some(kind) = starts.get(&at) {
        if before == *kind {
            starts.remove(&at);
        }
    }
}
