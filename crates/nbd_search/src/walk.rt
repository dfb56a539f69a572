//! The way along the export: what READs got wrong is looked at in ranges in which the same requests matter to it.

use crate::dues::Dues;
use crate::scene::{NEVER, Patch, Scene};
use crate::work::Work;
use std::collections::BTreeMap;
use std::mem;

/// The offsets at which a patch begins or ends, whether it begins, and its place; at an offset patches end before others begin.
pub fn events_of(scene: &Scene, work: &mut Work) -> Vec<(u64, bool, usize)> {
    let mut events = Vec::new(work.alloc);
    for (place, patch) in scene.patches.iter().enumerate() {
        if patch.lo < patch.hi {
            work.keep(&mut events, (patch.lo, true, place));
            work.keep(&mut events, (patch.hi, false, place));
        }
    }
    events.sort_unstable();
    events
}

// A period, the requests from one number to another, such that all others are due before or came later, and the newest change before
// is surely the last that is served there: since which offset it is open, a READ that is wrong in it, its first number, that change.
type Period = (u64, usize, usize, usize);

/// What holds the present offset, and the register that was closed last: a range whose bytes are taken as one value.
#[derive(Drop)]
pub struct Walk {
    /// The present offset, where the register ends; where that begins; and a READ that is wrong there.
    pub at: u64,
    pub since: u64,
    pub read: usize,
    /// First the newest change before the register's period, then what the requests of that do, by their numbers.
    pub operations: Vec<Patch>,
    // By their numbers the patches that hold the offset and are not left out.
    now: BTreeMap<usize, Patch>,
    // Their slots; those of the changes that are not left out.
    every: Dues,
    changes: Dues,
    // What is looked at where READs are wrong, by the last numbers of the periods.
    open: BTreeMap<usize, Period>,
    // READs that may be wrong from here on and have no open period.
    news: Vec<usize>,
}

impl Walk {
    pub fn new(count: usize, work: &mut Work) -> Walk {
        Walk {
            at: 0,
            since: 0,
            read: 0,
            operations: Vec::new(work.alloc),
            now: BTreeMap::new(work.alloc),
            every: Dues::new(count, work),
            changes: Dues::new(count, work),
            open: BTreeMap::new(work.alloc),
            news: Vec::new(work.alloc),
        }
    }

    /// Goes on to an offset, if that is another one: READs that are wrong from here on have an open period.
    pub fn go_to(&mut self, offset: u64, work: &mut Work) {
        if offset > self.at {
            for read in &mem::replace(&mut self.news, Vec::new(work.alloc)) {
                self.open(*read, work);
            }
            self.at = offset;
        }
    }

    // Opens the period of a READ, if it is wrong and the period is not open.
    fn open(&mut self, read: usize, work: &mut Work) {
        let period = self.open.range(read..).next();
        let is_open = matches!(period, Some((_, (_, _, first, _))) if *first <= read);
        if is_open || !matches!(self.now.get(&read), Some(one) if one.is_wrong) {
            return;
        }
        let first = self.first(read, work);
        let (newest, last) = (self.changes.newest(first, first), self.last(first, work));
        let period = (self.at, read, first, newest);
        work.is_lost |= self.open.insert(last, period).is_err();
    }

    // Where the period of a READ begins: what came before is due there, and before the newest change of that came.
    fn first(&self, read: usize, work: &mut Work) -> usize {
        let mut first = read;
        for _ in 0..read {
            work.spend(16);
            let newest = self.changes.newest(first, first);
            let late = self.every.late(0, first, first);
            match late.or(self.changes.late(0, newest, newest)) {
                Some(number) => first = number,
                None => break,
            }
        }
        first
    }

    // The last number of a period: behind it all is due that came, and all changes before the newest one were due before that.
    fn last(&self, first: usize, work: &mut Work) -> usize {
        // The slots behind the last ones of all, of the newest change, and of those before that.
        let (mut all, mut last, mut older, mut change) = (0, 0, 0, first);
        for (number, one) in self.now.range(first..) {
            if *number > first && all <= *number && older <= change {
                return number.saturating_sub(1);
            }
            work.spend(4);
            all = one.slot.saturating_add(1).max(all);
            if !one.is_read {
                (older, last, change) = (older.max(last), one.slot.saturating_add(1), *number);
            }
        }
        NEVER
    }

    /// Closes a period to which a patch matters that begins or ends here, if there is one; a change matters up to one surely later.
    pub fn close(&mut self, patch: &Patch, work: &mut Work) -> bool {
        work.spend(16);
        let Some((last, period)) = self.open.range(patch.request..).next() else {
            return false;
        };
        let (last, (since, read, first, newest)) = (*last, *period);
        let from = if patch.is_read { first } else { newest };
        let end = if patch.is_read { patch.slot } else { patch.due };
        if from <= end {
            self.open.remove(&last);
            (self.since, self.read) = (since, read);
            self.take_in(first, last, newest, work);
        }
        from <= end
    }

    // Until a period ends a READ may be served, also one that is taken as served when it came.
    fn take_in(&mut self, first: usize, last: usize, newest: usize, work: &mut Work) {
        self.operations.clear();
        if let Some(one) = self.now.get(&newest) {
            work.keep(&mut self.operations, *one);
        }
        for (_, one) in self.now.range(first..=last.max(first)) {
            let mut one = *one;
            if one.is_wrong {
                work.keep(&mut self.news, one.request);
            }
            one.due = one.due.min(last);
            work.keep(&mut self.operations, one);
        }
    }

    /// Lets a patch begin or end here, when the periods to which it matters are closed.
    pub fn pass(&mut self, patch: &Patch, begins: bool, work: &mut Work) {
        work.spend(16);
        self.every.set(patch.request, patch.slot, begins);
        if patch.slot < patch.request {
            return;
        }
        if !patch.is_read {
            self.changes.set(patch.request, patch.slot, begins);
        }
        if !begins {
            self.now.remove(&patch.request);
            return;
        }
        work.is_lost |= self.now.insert(patch.request, *patch).is_err();
        if patch.is_wrong {
            work.keep(&mut self.news, patch.request);
        }
    }

    /// A READ, and the first offset of the register at which no change that it sees left its byte.
    pub fn unseen(&self, scene: &Scene, read: &Patch, work: &mut Work) -> Option<(Patch, u64)> {
        let newest = self.changes.newest(read.request, read.request);
        let end = read.due.saturating_add(1);
        // What was left out may have left it.
        if self.every.newest(end, 1) > 0 {
            return None;
        }
        let (mut offset, mut begun, mut number) = (self.since, self.since, 0);
        for _ in 0..u64::MAX {
            work.spend(4);
            if offset >= self.at || work.is_over() {
                break;
            }
            match self.changes.late(number, end, newest) {
                Some(found) => {
                    number = found.saturating_add(1);
                    if let Some(change) = self.now.get(&found) {
                        offset = scene.differs(change, read, offset, self.at, work);
                    }
                }
                // All were asked: once more, if that was of use.
                None if offset > begun => (begun, number) = (offset, 0),
                None => return Some((*read, offset)),
            }
        }
        None
    }
}
