//! Requests by their numbers, each with a last slot.

use crate::scene::NEVER;
use crate::work::Work;

/// A tree over the numbers of all requests: an answer costs the logarithm of how many there are, and 256 steps at most.
#[derive(Drop)]
pub struct Dues {
    // The place of number 0: a power of two, and at least how many numbers there are.
    leaves: usize,
    // Of all below a node, 1 the top, the least last slot, or `NEVER`, and the slot behind the greatest, or 0.
    nodes: Vec<(usize, usize)>,
}

impl Dues {
    /// None of so many requests.
    pub fn new(count: usize, work: &mut Work) -> Dues {
        let leaves = count.checked_next_power_of_two().unwrap_or(1);
        let mut nodes = Vec::new(work.alloc);
        work.spend(leaves.saturating_mul(16));
        work.is_lost |= nodes.resize(leaves.saturating_mul(2), (NEVER, 0)).is_err();
        Dues { leaves, nodes }
    }

    /// Gives a number its last slot, or takes the number away.
    pub fn set(&mut self, number: usize, slot: usize, is_in: bool) {
        let mut place = self.leaves.saturating_add(number);
        let (mut least, mut behind) = (NEVER, 0);
        if is_in {
            (least, behind) = (slot, slot.saturating_add(1));
        }
        for _ in 0..=self.leaves.trailing_zeros() {
            if let Some(node) = self.nodes.get_mut(place) {
                *node = (least, behind);
            }
            let beside = self.nodes.get(place ^ 1).copied().unwrap_or((NEVER, 0));
            (least, behind) = (least.min(beside.0), behind.max(beside.1));
            place /= 2;
        }
    }

    /// The greatest number before `end` whose last slot is before this one; 0 where there is none.
    pub fn newest(&self, end: usize, slot: usize) -> usize {
        let place = self.leaves.saturating_add(end).saturating_sub(1);
        self.find(place, slot, true).unwrap_or(0)
    }

    /// The least number from `first` to before `end` whose last slot is this one or a later one.
    pub fn late(&self, first: usize, end: usize, slot: usize) -> Option<usize> {
        match self.find(self.leaves.saturating_add(first), slot, false) {
            Some(number) if first < self.leaves && number < end => Some(number),
            _ => None,
        }
    }

    // From a place to the left the next number whose last slot is before this one, or to the right one that is not.
    fn find(&self, mut place: usize, slot: usize, is_left: bool) -> Option<usize> {
        for _ in 0..256 {
            let (least, behind) = self.nodes.get(place).copied().unwrap_or((NEVER, 0));
            let (has_one, up) = match is_left {
                true => (least < slot, place.trailing_zeros()),
                false => (behind > slot, place.trailing_ones()),
            };
            if !has_one {
                // The node beside it.
                place >>= up.min(63);
                if place <= 1 {
                    return None;
                }
                place ^= 1;
            } else if place < self.leaves {
                place = place.saturating_mul(2) | usize::from(is_left);
            } else {
                return Some(place.saturating_sub(self.leaves));
            }
        }
        None
    }
}
