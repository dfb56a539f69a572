//! The present order replayed: where READs are wrong if each request is served whole at its moment.

use crate::order::Moment;
use crate::scene::{NEVER, Patch, Scene};
use crate::work::Work;
use nbd_export::{Contents, Extents, Start};

/// Where a READ is wrong is told in aligned blocks of so many bytes.
const BLOCK: u64 = 64;

// What is known of the export, and where READs were wrong: ranges to before an offset, and the places of their patches.
#[derive(Drop)]
struct Replay {
    contents: Extents,
    wrong: Vec<(u64, u64, usize)>,
}

/// Where READs are wrong if each request is served whole at its moment, if it has one: ranges, to before an offset, of patches.
pub fn wrong_ranges(scene: &Scene, work: &mut Work) -> Vec<(u64, u64, usize)> {
    let wrong = Vec::new(work.alloc);
    let Ok(contents) = Extents::new(work.alloc, scene.size, Start::Unknown) else {
        work.is_lost = true;
        return wrong;
    };
    let mut replay = Replay { contents, wrong };
    for (_, place) in &order_of(scene, work) {
        if let (Some(patch), false) = (scene.patches.get(*place), work.is_over()) {
            replay.serve(scene, patch, *place, work);
        }
    }
    replay.wrong
}

// The places of the patches that are served, behind their moments.
fn order_of(scene: &Scene, work: &mut Work) -> Vec<(Moment, usize)> {
    let mut order = Vec::new(work.alloc);
    for place in 0..scene.patches.len() {
        match scene.requests.get(scene.patches[place].request) {
            Some(one) if one.moment.0 != NEVER => work.keep(&mut order, (one.moment, place)),
            _ => {}
        }
    }
    order.sort_unstable();
    order
}

impl Replay {
    // Serves the patch at a place: leaves its bytes, if they are known, or compares them.
    fn serve(&mut self, scene: &Scene, patch: &Patch, place: usize, work: &mut Work) {
        let bytes = scene.bytes(patch, patch.lo, patch.hi);
        work.spend((bytes.unwrap_or(&[]).len() / 8).saturating_add(32));
        if patch.is_read {
            return self.compare(scene, patch, place, work);
        }
        let size = self.contents.size();
        let lo = patch.lo.min(size);
        let length = patch.hi.min(size).saturating_sub(lo);
        let left = match bytes {
            None => self.contents.forget(lo, length),
            Some(bytes) if bytes.len() as u64 == length => self.contents.put(lo, bytes),
            Some(_) => self.contents.zero(lo, length),
        };
        work.is_lost |= left.is_err();
    }

    // Notes where a READ got other bytes: in aligned blocks, of zeroes in more and more of them; what adjoins is one range.
    fn compare(&mut self, scene: &Scene, read: &Patch, place: usize, work: &mut Work) {
        let (mut at, mut size) = (read.lo, BLOCK);
        for _ in read.lo..read.hi {
            work.spend(64);
            let bytes = scene.bytes(read, at, read.hi).unwrap_or(&[]);
            let Some(offset) = self.first_other(at, read.hi, bytes, work) else {
                break;
            };
            let (start, lo) = (offset.saturating_sub(offset % BLOCK), at);
            at = start.saturating_add(size).min(read.hi);
            match self.wrong.last_mut() {
                Some(last) if last.2 == place && last.1 == start.max(lo) => last.1 = at,
                _ => work.keep(&mut self.wrong, (start.max(lo), at, place)),
            }
            if bytes.is_empty() {
                size = size.saturating_mul(2);
            }
        }
    }

    // The first offset from `lo` to before `hi` with another known byte than these, or than 0 if there are none.
    fn first_other(&mut self, lo: u64, hi: u64, bytes: &[u8], work: &mut Work) -> Option<u64> {
        let hi = hi.min(self.contents.size());
        let (lo, length) = (lo.min(hi), hi.saturating_sub(lo));
        if bytes.len() as u64 == length {
            let ranges = self.contents.ranges_in(lo, length) as usize;
            work.spend(ranges.saturating_mul(8));
            return self.contents.differs(lo, bytes);
        }
        let found = self.contents.differs_zero(lo, length)?;
        // What is right is not looked at again.
        self.contents
            .differs_zero(lo, found.min(hi).saturating_sub(lo));
        Some(found)
    }
}
