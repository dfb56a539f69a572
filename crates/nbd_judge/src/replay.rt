//! The pass over the order that compares and changes contents.

ghost use Rattle.std.specs.Prelude.{◌≡◌, ℕ, IfOk, MatchOption, None, Some};
ghost use Rattle.nbd_laws.specs.Soundness.{IsSoundReport};
ghost use Rattle.nbd_wire.specs.Prelude.{IsBadPart, Asked, asked_at, inside_in};
ghost use Rattle.nbd_judge.specs.{internal.Pieces.IsSortedAt, Folding.HoldsLeft, Beginnings.size_of, Verdicts.{FirstWrongFrom, HasWrongFrom}};

use crate::change::change;
use crate::compare::wrong;
use crate::sorting::SortedReads;
use nbd_export::Contents;
use nbd_session::Transcript;
use nbd_wire::Entry;
use std::alloc::{AllocError, Global};
use std::collections::BTreeMap;

/// The request of the first entry that serves a wrong byte, and the least offset of a wrong byte there; None if no
/// entry serves one. Each entry is compared with what the entries before it left, given the outcomes at the end of the
/// session. Where none serves one the contents hold afterwards what the order leaves; after the first wrong byte and after
/// out of memory the effect of some entries.
pub fn replay<C: Contents>(
    alloc: Global,
    transcript: &Transcript,
    order: &[Entry],
    contents: &mut C,
) -> Result<Option<(u64, u64)>, AllocError>
    requires well { (i : ℕ) → IsBadPart (inside_in transcript.now) order.now i → ⊥ }
    requires sound { IsSoundReport transcript.now }
    requires sized { C.size contents.old ≡ size_of transcript.now.export }
    ensures wrong { IfOk result (λ found. MatchOption found ((i : ℕ) →
        HasWrongFrom transcript.now order.now (C.byte contents.old) i → ⊥)
        (λ p. FirstWrongFrom transcript.now order.now (C.byte contents.old) p.0 p.1)) }
    ensures left { IfOk result (λ found. found ≡ None → HoldsLeft transcript.now order.now (C.size contents.old)
        (C.size contents.new) (C.byte contents.old) (C.byte contents.new)) }
{
    let mut reads = BTreeMap::new(alloc);
    first_wrong(alloc, transcript, order, &mut reads, contents)
}

// The same; `reads` keeps the sorted pieces of requests that are served in parts.
fn first_wrong<'a, C: Contents>(
    alloc: Global,
    transcript: &'a Transcript,
    order: &[Entry],
    reads: &mut SortedReads<'a>,
    contents: &mut C,
) -> Result<Option<(u64, u64)>, AllocError>
    requires well { (i : ℕ) → IsBadPart (inside_in transcript.now) order.now i → ⊥ }
    requires sound { IsSoundReport transcript.now }
    requires sized { C.size contents.old ≡ size_of transcript.now.export }
    requires sorted { (k : ℕ) (a : Asked) → asked_at k transcript.now.asked ≡ Some a → IsSortedAt reads.old k a.pieces }
    ensures wrong { IfOk result (λ found. MatchOption found ((i : ℕ) →
        HasWrongFrom transcript.now order.now (C.byte contents.old) i → ⊥)
        (λ p. FirstWrongFrom transcript.now order.now (C.byte contents.old) p.0 p.1)) }
    ensures left { IfOk result (λ found. found ≡ None → HoldsLeft transcript.now order.now (C.size contents.old)
        (C.size contents.new) (C.byte contents.old) (C.byte contents.new)) }
{
    for i in 0..order.len() {
        let entry = order[i];
        if let Some(one) = transcript.asked(entry.request) {
            let found = wrong(alloc, entry, one, reads, contents)?;
            if let Some(offset) = found {
                return Ok(Some((entry.request, offset)));
            }
            change(one, entry.part, contents)?;
        }
    }
    Ok(None)
}
