//! The requests of a session as what they leave or read in ranges. A BLOCK_STATUS is a READ of zeroes here.

use crate::order::Moment;
use crate::work::Work;
use nbd_export::{Contents, Extents, HeldPart, Start};
use nbd_state::{Asked, Span, Transcript};
use nbd_wire::{Piece, Profile, commands};

/// The last slot of a request that may stay out.
pub const NEVER: usize = usize::MAX;

/// Bytes that a request leaves in a range, or reads there. The start is request 0, which leaves its bytes first.
#[derive(Clone, Copy, Drop)]
pub struct Patch {
    pub request: usize,
    /// The last slot in which it may be served, or `NEVER`. Slot t is from the completion of request t to the next.
    pub due: usize,
    /// The last slot in which it is taken to be served; 0 where it is not.
    pub slot: usize,
    /// When it is served in the present order, if it is a request as a whole.
    pub moment: Moment,
    /// It reads its bytes; else it leaves them.
    pub is_read: bool,
    /// Some of what it reads is wrong in the present order.
    pub is_wrong: bool,
    /// Its range, to before `hi`.
    pub lo: u64,
    pub hi: u64,
    // The place of its bytes in the scene.
    bytes: usize,
    /// What stands for its bytes in the range that is searched; None where they are unknown.
    pub value: Option<u64>,
    /// Its column while it is open in a search.
    pub column: usize,
}

impl Patch {
    /// Whether it is a READ that can find this where that was left.
    pub fn reads(&self, left: Option<u64>) -> bool {
        self.is_read && (left.is_none() || left == self.value)
    }
}

/// The requests of a session.
#[derive(Drop)]
pub struct Scene<'a> {
    /// The export's size in bytes.
    pub size: u64,
    /// By their numbers, each whole; number 0 is the start. A range is empty where no bytes are left or read.
    pub requests: Vec<Patch>,
    /// What they leave or read; of a READ at least one for each piece with bytes.
    pub patches: Vec<Patch>,
    // Where the bytes of patches begin, and what they are: unknown, zeroes that no message has, or these.
    bytes: Vec<(u64, HeldPart<'a>)>,
}

impl<'a> Scene<'a> {
    pub fn new(
        profile: Profile,
        transcript: &'a Transcript,
        start: &'a Start,
        work: &mut Work,
    ) -> Scene<'a> {
        let (size, _) = transcript.export().unwrap_or((0, 0));
        let mut scene = Scene {
            size,
            requests: Vec::new(work.alloc),
            patches: Vec::new(work.alloc),
            bytes: Vec::new(work.alloc),
        };
        scene.add_start(start, work);
        for number in 1..=transcript.count() {
            if let Some(one) = transcript.asked(number) {
                scene.add(profile, one, work);
            }
        }
        scene
    }

    // Adds the start, and what the export holds at first.
    fn add_start(&mut self, start: &'a Start, work: &mut Work) {
        let all = (0, self.size);
        match start {
            Start::Image(image) => self.add_first(all, HeldPart::Bytes(image.as_slice()), work),
            Start::Zeroes => self.add_first(all, HeldPart::Zeroes, work),
            Start::Unknown => self.add_first(all, HeldPart::Unknown, work),
            Start::Contents(contents) => self.add_contents(contents, work),
        }
        let whole = self.patch(0, false, all);
        work.keep(&mut self.requests, whole);
    }

    // Adds what it holds in this range.
    fn add_first(&mut self, range: (u64, u64), held: HeldPart<'a>, work: &mut Work) {
        let patch = self.patch(0, false, range);
        work.keep(&mut self.bytes, (range.0, held));
        work.keep(&mut self.patches, patch);
    }

    // Adds what the export holds at first, part by part.
    fn add_contents(&mut self, contents: &'a Extents, work: &mut Work) {
        let mut at = 0;
        for _ in 0..contents.size() {
            if at >= contents.size() || work.is_over() {
                break;
            }
            let (part, end) = contents.part_at(at);
            self.add_first((at, end - at), part, work);
            at = end;
        }
    }

    fn add(&mut self, profile: Profile, one: &'a Asked, work: &mut Work) {
        let (is_change, command) = (one.touches(one.offset), one.command);
        let is_read = one.succeeded() && matches!(command, commands::READ | commands::BLOCK_STATUS);
        let length = if is_change || is_read { one.length } else { 0 };
        let held = match (one.succeeded(), command) {
            (true, commands::WRITE) => HeldPart::Bytes(one.payload.as_slice()),
            (true, commands::WRITE_ZEROES) => HeldPart::Zeroes,
            _ => HeldPart::Unknown,
        };
        let whole = self.patch(due_of(profile, one, 0), false, (one.offset, length));
        work.keep(&mut self.bytes, (one.offset, held));
        if is_change {
            work.keep(&mut self.patches, whole);
        }
        if is_read {
            self.add_pieces(profile, one, work);
        }
        work.keep(&mut self.requests, whole);
    }

    fn add_pieces(&mut self, profile: Profile, one: &'a Asked, work: &mut Work) {
        for (i, piece) in one.pieces.iter().enumerate() {
            let (span, due) = (Span::of(piece), due_of(profile, one, i));
            let held = match piece {
                Piece::Bytes { bytes, .. } => HeldPart::Bytes(bytes.as_slice()),
                Piece::Hole { .. } => HeldPart::Zeroes,
            };
            let patch = self.patch(due, true, (span.offset, span.size));
            work.keep(&mut self.bytes, (span.offset, held));
            work.keep(&mut self.patches, patch);
        }
    }

    // What the request that comes next does with the next bytes: from an offset on, so many.
    fn patch(&self, due: usize, is_read: bool, range: (u64, u64)) -> Patch {
        let request = self.requests.len();
        let taken = if due == NEVER { 0 } else { due };
        Patch {
            request,
            due,
            slot: if is_read { request } else { taken },
            is_read,
            lo: range.0.min(self.size),
            hi: range.0.saturating_add(range.1).min(self.size),
            bytes: self.bytes.len(),
            moment: (if due < NEVER { request } else { NEVER }, 0),
            is_wrong: false,
            value: None,
            column: 0,
        }
    }

    /// Parts the patches of READs where these are wrong: there they may be served until they are due. Whether any is.
    pub fn mark(&mut self, wrong: Vec<(u64, u64, usize)>, work: &mut Work) -> bool {
        for patch in self.patches.iter_mut() {
            patch.is_wrong = false;
        }
        for (lo, hi, place) in &wrong {
            if let Some(rest) = self.patches.get_mut(*place) {
                let (mut right, mut wrong) = (*rest, *rest);
                (right.hi, wrong.lo, wrong.hi, rest.lo) = (*lo, *lo, *hi, *hi);
                (wrong.slot, wrong.is_wrong) = (wrong.due, true);
                work.keep(&mut self.patches, right);
                work.keep(&mut self.patches, wrong);
            }
        }
        !wrong.is_empty()
    }

    /// Numbers the bytes of patches from `lo` to before `hi`: the same have the same number, unknown ones none.
    pub fn number(&self, patches: &mut [Patch], lo: u64, hi: u64, work: &mut Work) {
        for patch in patches.iter_mut() {
            work.spend((hi.saturating_sub(lo) as usize / 16).saturating_add(4));
            patch.value = self.bytes(patch, lo, hi).map(mixed);
        }
    }

    /// The patch's bytes from `lo` to before `hi`, if they are known; none where they are zeroes that no message has.
    pub fn bytes(&self, patch: &Patch, lo: u64, hi: u64) -> Option<&'a [u8]> {
        let (from, held) = self.bytes.get(patch.bytes)?;
        let first = lo.saturating_sub(*from) as usize;
        let behind = hi.saturating_sub(*from) as usize;
        match held {
            HeldPart::Bytes(bytes) => Some(bytes.get(first..behind).unwrap_or(&[])),
            HeldPart::Zeroes => Some(&[]),
            HeldPart::Unknown => None,
        }
    }

    /// The first offset from `lo` to before `hi` at which a READ did not get what a change left, or `hi`.
    pub fn differs(&self, change: &Patch, read: &Patch, lo: u64, hi: u64, work: &mut Work) -> u64 {
        let (left, got) = (self.bytes(change, lo, hi), self.bytes(read, lo, hi));
        let (Some(left), Some(got)) = (left, got) else {
            return hi;
        };
        let count = left.len().max(got.len());
        work.spend((count / 8).saturating_add(4));
        for place in 0..count {
            if left.get(place).unwrap_or(&0) != got.get(place).unwrap_or(&0) {
                return lo.saturating_add(place as u64);
            }
        }
        hi
    }
}

// The last slot of a request; by chunk that of a piece of a READ, of which none has an earlier one than the first.
fn due_of(profile: Profile, one: &Asked, piece: usize) -> usize {
    let due = match one.pieces.counts().get(piece) {
        _ if !profile.serves_by_chunk(one.command) => one.known_at,
        Some(shown) => Some(*shown),
        None => one.ended_at,
    };
    due.unwrap_or(u64::MAX) as usize
}

// A number for these bytes: 0 for zeroes, and hardly ever the same one for others, by an odd factor with bits in no order.
fn mixed(bytes: &[u8]) -> u64 {
    let (words, rest) = bytes.as_chunks::<8>();
    let mut number = 0;
    for word in words {
        number = mixed_with(number, u64::from_le_bytes(*word));
    }
    for byte in rest {
        number = mixed_with(number, u64::from(*byte));
    }
    number
}

fn mixed_with(number: u64, more: u64) -> u64 {
    let product = (number ^ more).wrapping_mul(0x9e37_79b9_7f4a_7c15);
    product ^ (product >> 32)
}
