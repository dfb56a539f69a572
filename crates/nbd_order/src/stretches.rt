//! The export in stretches, in each of which the requests of a session tell the same.

ghost use Rattle.std.specs.Prelude.{◌≡◌, ◌+◌, ◌<◌, ◌≤◌, ℕ, IfOk, Some, ◌^◌};
ghost use Rattle.nbd_order.specs.internal.Here.{nothing, joined_if, stretch_here, touch_here, touches_here};

use crate::here::Here;
use crate::touches::Touch;
use std::alloc::{AllocError, Global};

/// What is told from where the stretches before end to before `end`, if that is behind them.
#[derive(Clone, Copy, Drop)]
pub struct Stretch {
    pub end: u64,
    pub here: Here,
}

/// What these ranges tell of an export of this size, the earlier ones first. It costs n log n for n ranges.
pub fn stretches_of(alloc: Global, touches: &[Touch], size: u64) -> Result<Vec<Stretch>, AllocError>
    ensures { IfOk result (λ stretches. (x : ℕ) → x < size → stretch_here stretches.items x ≡ Some (touches_here touches.now x)) }
{
    if touches.len() > 1 {
        let (earlier, later) = touches.split_at(touches.len() / 2);
        let earlier = stretches_of(alloc, earlier, size)?;
        let later = stretches_of(alloc, later, size)?;
        return merged(alloc, &earlier, &later);
    }
    match touches.first() {
        Some(touch) => stretches_around(alloc, touch, size),
        None => one_stretch(alloc, size),
    }
}

// What no range tells of an export of this size.
fn one_stretch(alloc: Global, size: u64) -> Result<Vec<Stretch>, AllocError>
    ensures { IfOk result (λ stretches. (x : ℕ) → x < size → stretch_here stretches.items x ≡ Some nothing) }
{
    let whole = Stretch {
        end: size,
        here: Here::nothing(),
    };
    Vec::from_slice(alloc, &[whole])
}

// What one range tells of an export of this size.
fn stretches_around(alloc: Global, touch: &Touch, size: u64) -> Result<Vec<Stretch>, AllocError>
    ensures { IfOk result (λ stretches. (x : ℕ) → x < size → stretch_here stretches.items x ≡ Some (touch_here touch.now x)) }
{
    let first = touch.span.offset;
    let before = Stretch {
        end: first,
        here: Here::nothing(),
    };
    let inside = Stretch {
        end: first.saturating_add(touch.span.size),
        here: touch.here,
    };
    let behind = Stretch {
        end: size,
        here: Here::nothing(),
    };
    Vec::from_slice(alloc, &[before, inside, behind])
}

// What stretches tell together, of which the ones come from earlier requests than the others.
fn merged(alloc: Global, earlier: &[Stretch], later: &[Stretch]) -> Result<Vec<Stretch>, AllocError>
    ensures { IfOk result (λ stretches. (x : ℕ) →
        stretch_here stretches.items x ≡ joined_if (stretch_here earlier.now x) (stretch_here later.now x)) }
{
    let mut stretches = Vec::with_capacity(alloc, earlier.len() + later.len())?;
    let mut i = 0;
    let mut j = 0;
    while i < earlier.len() && j < later.len() {
        let (one, other) = (earlier[i], later[j]);
        let end = one.end.min(other.end);
        let here = one.here.joined(&other.here);
        stretches.push(Stretch { end, here })?;
        i = past(&one, i, end);
        j = past(&other, j, end);
    }
    Ok(stretches)
}

// The place of the next stretch that is not over at `end`: this one's, which is `i`, or the one behind it.
fn past(stretch: &Stretch, i: usize, end: u64) -> usize
    requires { i + 1 < 2 ^ 64 }
    ensures passed { stretch.now.end ≤ end → result ≡ i + 1 }
    ensures kept { end < stretch.now.end → result ≡ i }
{
    if stretch.end <= end { i + 1 } else { i }
}
