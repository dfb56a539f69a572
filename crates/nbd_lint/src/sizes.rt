//! The block sizes that the answers to an option announced.

use nbd_wire::{Sizes, sizes_of};

/// What a server announced of block sizes; a server may do so more than once.
#[derive(Clone, Copy, Drop)]
pub struct Announced {
    /// The last that came; none of these numbers is known where none did.
    pub last: Option<Sizes>,
    /// The smallest minimum block size, in bytes.
    pub least: u32,
    /// The smallest maximum payload, in bytes.
    pub smallest: u32,
    /// The largest maximum payload, in bytes.
    pub largest: u32,
}

/// Nothing.
pub const NOTHING: Announced = Announced {
    last: None,
    least: u32::MAX,
    smallest: u32::MAX,
    largest: 0,
};

impl Announced {
    /// With what the payload of an INFO answer announces; sizes that a server may not announce count for nothing.
    pub fn with(self, answer: &[u8]) -> Announced {
        match sizes_of(answer) {
            Some(sizes) if sizes.are_allowed() => Announced {
                last: Some(sizes),
                least: self.least.min(sizes.least),
                smallest: self.smallest.min(sizes.largest),
                largest: self.largest.max(sizes.largest),
            },
            _ => self,
        }
    }

    /// Whether a number of bytes is a multiple of the minimum block size, if there is one.
    pub fn is_multiple(self, bytes: u64) -> bool {
        self.last.is_none() || bytes.is_multiple_of(u64::from(self.least))
    }

    /// Whether a length is above the smallest maximum payload; above this one, where none was announced.
    pub fn is_over(self, length: u64, usual: u64) -> bool {
        match self.last {
            Some(_) => length > u64::from(self.smallest),
            None => length > usual,
        }
    }
}
