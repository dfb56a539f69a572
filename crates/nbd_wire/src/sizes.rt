//! Block sizes (proto.md, "Size constraints").

ghost use Rattle.std.specs.Prelude.{◌≡◌, ◌*◌, length};
ghost use Rattle.nbd_wire.specs.protocol.{Payloads.info_of, Sizes.{are_allowed, asks_sizes, breaks_sizes, has_number, is_too_long, no_sizing, sizes_for, sizes_kept, sizes_of, sizing_after, sizing_at}};

use crate::limits::{LEAST_SIZE, NO_LARGEST_SIZE, PREFERRED_SIZE};
use crate::numbers::u16_at;
use crate::option_payloads::{go_of, info_of, listed_of};
use crate::{Info, answers, commands, infos, options};

/// The block sizes that a server announces, in bytes.
#[derive(Clone, Copy, Drop)]
pub struct Sizes {
    /// Of this an offset and a length are multiples.
    pub least: u32,
    /// The size that serves best.
    pub preferred: u32,
    /// The longest payload of a WRITE, and of a READ without structured replies; 2^32 - 1 bounds nothing.
    pub largest: u32,
}

impl Sizes {
    /// Whether a server may announce them: the least and the preferred one are powers of 2, the least is 65,536 at most, the
    /// preferred one neither below 512 nor below the least, and the largest is not 0.
    pub fn are_allowed(self) -> bool
        ensures { result ≡ are_allowed self }
    {
        self.least.is_power_of_two()
            && self.least <= LEAST_SIZE
            && self.preferred.is_power_of_two()
            && self.preferred >= PREFERRED_SIZE
            && self.least <= self.preferred
            && self.largest != 0
    }
}

/// The block sizes that the payload of an INFO answer announces, if it does.
pub fn sizes_of(answer: &[u8]) -> Option<Sizes>
    ensures { result ≡ sizes_of (info_of answer.now) }
{
    match info_of(answer) {
        Some(
            Info::BlockSize {
                least,
                preferred,
                most,
            },
        ) => Some(Sizes {
            least,
            preferred,
            largest: most,
        }),
        _ => None,
    }
}

/// Whether the data of INFO or GO has its form and asks for block sizes.
pub fn asks_sizes(payload: &[u8]) -> bool
    ensures { result ≡ asks_sizes payload.now }
{
    let Some((_, count)) = go_of(payload) else {
        return false;
    };
    let Some((_, rest)) = listed_of(payload) else {
        return false;
    };
    has_number(infos::BLOCK_SIZE, count, &rest[2..])
}

// Whether one of so many numbers of two bytes is this.
fn has_number(wanted: u16, count: u16, bytes: &[u8]) -> bool
    requires { length bytes.now ≡ 2 * count }
    ensures { result ≡ has_number wanted count bytes.now }
{
    let mut rest = bytes;
    let mut left = count;
    while left > 0 {
        if u16_at(rest, 0) == wanted {
            return true;
        }
        rest = &rest[2..];
        left -= 1;
    }
    false
}

/// What the option that was chosen last asked of block sizes, and was told.
#[derive(Clone, Copy, Drop)]
pub struct Sizing {
    /// It is a GO that asked for them.
    pub asked: bool,
    /// The last that came in answer to it.
    pub told: Option<Sizes>,
}

impl Sizing {
    /// Before the first option.
    pub fn none() -> Sizing
        ensures { result ≡ no_sizing }
    {
        Sizing {
            asked: false,
            told: None,
        }
    }

    /// Once an option is chosen.
    pub fn at(option: u32, payload: &[u8]) -> Sizing
        ensures { result ≡ sizing_at option payload.now }
    {
        Sizing {
            asked: option == options::GO && asks_sizes(payload),
            told: None,
        }
    }

    /// After an answer of this kind to that option.
    pub fn after(self, kind: u32, answer: &[u8]) -> Sizing
        ensures { result ≡ sizing_after kind answer.now self }
    {
        if kind != answers::INFO {
            return self;
        }
        Sizing {
            told: sizes_of(answer).or(self.told),
            ..self
        }
    }

    /// The sizes that the client has to keep, where that option led into transmission.
    pub fn kept(self) -> Option<Sizes>
        ensures { result ≡ sizes_kept self }
    {
        if self.asked { self.told } else { None }
    }
}

/// The sizes that a request of this type has to keep, of those that are in force: under structured replies the largest
/// bounds no READ, whose bytes a server may split over chunks (proto.md, "Size constraints").
pub fn sizes_for(structured: bool, command: u16, sizes: Option<Sizes>) -> Option<Sizes>
    ensures { result ≡ sizes_for structured command sizes }
{
    match sizes {
        Some(sizes) if structured && command == commands::READ => Some(Sizes {
            largest: NO_LARGEST_SIZE,
            ..sizes
        }),
        sizes => sizes,
    }
}

/// Whether a range breaks the sizes, if there are some: its offset or its length is no multiple of the least, or the payload
/// of a READ or WRITE is longer than the largest.
pub fn breaks_sizes(sizes: Option<Sizes>, command: u16, offset: u64, length: u64) -> bool
    ensures { result ≡ breaks_sizes sizes command offset length }
{
    match sizes {
        Some(sizes) => {
            !offset.is_multiple_of(u64::from(sizes.least))
                || !length.is_multiple_of(u64::from(sizes.least))
                || is_too_long(sizes, command, length)
        }
        None => false,
    }
}

// Whether the payload of a READ or WRITE is longer than the largest size, unless that bounds nothing.
fn is_too_long(sizes: Sizes, command: u16, length: u64) -> bool
    ensures { result ≡ is_too_long sizes command length }
{
    (command == commands::READ || command == commands::WRITE)
        && sizes.largest != NO_LARGEST_SIZE
        && length > u64::from(sizes.largest)
}
