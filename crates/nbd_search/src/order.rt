//! One order of all requests, as the registers that were searched want it: of whole requests, or in parts.

use crate::scene::{NEVER, Patch};
use crate::work::Work;
use nbd_wire::{Entry, Part};

/// How often moments are put off before whole requests have no order. Where that ended it took four times at most.
const PASSES: usize = 16;

/// The slot in which a request is served whole, or `NEVER` where it is not, and its place in that slot.
pub type Moment = (usize, usize);

/// What is served in a register, in its order.
#[derive(Drop)]
pub struct Served {
    /// The register's range, to before `hi`.
    pub lo: u64,
    pub hi: u64,
    pub requests: Vec<usize>,
}

// What is served atomically: its moment, the request, and the range from its first offset to the one behind it.
type Piece = (Moment, usize, u64, u64);

/// Lets requests be served as they arrive, but for those that were not answered.
pub fn arrive(requests: &mut [Patch]) {
    for one in requests.iter_mut() {
        one.moment = (if one.due < NEVER { one.request } else { NEVER }, 0);
    }
}

/// Puts requests off as far as the registers want it; whether that changed any, ends, and makes none late.
pub fn arrange(served: &[Served], requests: &mut [Patch], work: &mut Work) -> bool {
    for pass in 0..PASSES {
        match put_off(served, requests, work) {
            Some(true) if !work.is_over() => {}
            Some(false) => return pass > 0,
            _ => return false,
        }
    }
    false
}

// Puts each request of a register off behind the one before it: whether that changed any; None where one would be late.
fn put_off(served: &[Served], requests: &mut [Patch], work: &mut Work) -> Option<bool> {
    let mut is_changed = false;
    for register in served {
        let mut first = (0, 0);
        work.spend(register.requests.len().saturating_mul(2).saturating_add(8));
        for request in &register.requests {
            let one = requests.get_mut(*request)?;
            let is_out = one.moment.0 == NEVER;
            first = first.max(if is_out { (*request, 0) } else { one.moment });
            is_changed |= first != one.moment;
            one.moment = first;
            if one.due < first.0 {
                return None;
            }
            first.1 = first.1.saturating_add(1);
        }
    }
    Some(is_changed)
}

/// The order in which each register has its own, and all else its moment: sorted by slots, so that no part is late on arrival.
pub fn entries_of(requests: &[Patch], served: &[Served], work: &mut Work) -> Vec<Entry> {
    // Up to where each is served, the place of its last piece, and its moment: the registers of one stand by their offsets.
    let (mut pieces, mut ends) = (Vec::new(work.alloc), Vec::new(work.alloc));
    for one in requests {
        work.keep(&mut ends, (one.lo, NEVER, one.moment));
    }
    for register in served {
        add_register(&mut pieces, &mut ends, register, work);
    }
    for request in 1..ends.len().min(requests.len()) {
        let (one, (end, _, _)) = (&requests[request], ends[request]);
        if end < one.hi.max(one.lo.saturating_add(1)) {
            work.keep(&mut pieces, (one.moment, request, end, one.hi));
        }
    }
    pieces.sort_unstable();
    joined(requests, &pieces, work)
}

// Adds what is served in a register, and what of the same requests lies before that.
fn add_register(
    pieces: &mut Vec<Piece>,
    ends: &mut [(u64, usize, Moment)],
    register: &Served,
    work: &mut Work,
) {
    let (mut first, lo, hi) = ((0, 0), register.lo, register.hi);
    for request in &register.requests {
        if *request >= ends.len() {
            break;
        }
        first = first.max((*request, 0));
        let place = &mut ends[*request];
        match pieces.get_mut(place.1) {
            // It goes on with the one before, at the same moment.
            Some(last) if (last.0, last.3) == (first, lo) => last.3 = hi,
            _ => {
                if place.0 < lo {
                    work.keep(pieces, (place.2, *request, place.0, lo));
                }
                place.1 = pieces.len();
                work.keep(pieces, (first, *request, lo, hi));
            }
        }
        place.0 = hi;
        first.1 = first.1.saturating_add(1);
    }
}

// The entries of the pieces that have a moment. Those of one request that follow each other are one entry.
fn joined(requests: &[Patch], pieces: &[Piece], work: &mut Work) -> Vec<Entry> {
    let mut entries = Vec::new(work.alloc);
    let (mut last, mut from, mut to) = (0, 0, 0);
    for ((slot, _), request, lo, hi) in pieces {
        if *slot == NEVER {
            break;
        }
        if (*request, *lo) == (last, to) {
            let _ = entries.pop();
        } else {
            from = *lo;
        }
        (last, to) = (*request, *hi);
        let (request, offset, length) = (last as u64, from, to.saturating_sub(from));
        let part = match requests.get(last) {
            Some(one) if (one.lo, one.hi) == (from, to) => None,
            _ => Some(Part { offset, length }),
        };
        work.keep(&mut entries, Entry { request, part });
    }
    entries
}
