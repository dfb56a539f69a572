//! Few of the requests of a byte that has no order: they have none either.

use crate::proposal::{Proposal, Reason};
use crate::scene::Patch;
use crate::sweep::{Outcome, Sweep};
use crate::work::Work;

/// The most requests that a contest may have of a kind.
const MOST: usize = 64;

/// Few of the requests of a byte that has no order, as came out in a slot: READs that are due there, and what may help one.
pub fn shrink(operations: &[Patch], slot: usize, sweep: &mut Sweep) -> Vec<Patch> {
    let mut reads = Vec::new(sweep.work.alloc);
    for one in operations.iter().rev() {
        if one.is_read & (one.due <= slot) {
            sweep.work.keep(&mut reads, *one);
        }
    }
    leave_out(operations, &mut reads, sweep);
    few_of(operations, &reads, &mut sweep.work)
}

// Leaves the last 1, 2, 4 .. READs that have no order, but for those that the others do not need.
fn leave_out(operations: &[Patch], reads: &mut Vec<Patch>, sweep: &mut Sweep) {
    let mut size = 1usize;
    for _ in 0..64 {
        let firsts = reads.get(..size).unwrap_or(reads);
        if size >= reads.len() || has_none(operations, firsts, sweep) {
            break;
        }
        size = size.saturating_mul(2);
    }
    reads.truncate(size);
    for _ in 0..reads.len() {
        if let (Some(read), false) = (reads.pop(), has_none(operations, reads, sweep)) {
            sweep.work.is_lost |= reads.insert(0, read).is_err();
        }
    }
}

// Whether these READs have no order, or the search is over.
fn has_none(operations: &[Patch], reads: &[Patch], sweep: &mut Sweep) -> bool {
    let few = few_of(operations, reads, &mut sweep.work);
    matches!(sweep.run(&few), Outcome::NoOrder(_)) || sweep.work.is_over()
}

/// These READs, and what may help one: the newest change surely before it, and those that it sees with its bytes.
pub fn few_of(operations: &[Patch], reads: &[Patch], work: &mut Work) -> Vec<Patch> {
    let (mut helped, mut few) = (Vec::new(work.alloc), Vec::new(work.alloc));
    work.spend(operations.len().saturating_mul(reads.len()));
    if work.is_over() {
        return few;
    }
    for read in reads {
        let mut newest = read.request;
        for one in operations {
            if !one.is_read & (one.due < read.request) {
                newest = one.request;
            }
        }
        work.keep(&mut helped, (*read, newest));
    }
    for one in operations {
        if is_help(one, &helped) {
            work.keep(&mut few, *one);
        }
    }
    few
}

// Whether it is one of these READs, or may be a help to one, each with the newest change before it, or itself.
fn is_help(one: &Patch, helped: &[(Patch, usize)]) -> bool {
    let mut is_help = false;
    for (read, newest) in helped {
        let is_seen = !one.is_read & (one.request <= read.due) & (one.due >= *newest);
        let is_it = (one.request == read.request) | (one.request == *newest);
        is_help |= is_it | is_seen & read.reads(one.value);
    }
    is_help
}

/// What refutes each order at an offset, but for the start, where it is not too much.
pub fn contest_of(operations: &[Patch], work: &mut Work) -> Proposal {
    let (mut reads, mut changes) = (Vec::new(work.alloc), Vec::new(work.alloc));
    for one in operations {
        if one.is_read {
            work.keep(&mut reads, one.request as u64);
        } else if one.request > 0 {
            work.keep(&mut changes, one.request as u64);
        }
    }
    if reads.len().max(changes.len()) > MOST {
        return Proposal::GaveUp(work.place, Reason::States);
    }
    Proposal::Contest(work.place.offset, reads, changes)
}
