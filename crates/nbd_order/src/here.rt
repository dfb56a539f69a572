//! What the requests of a session tell of an offset, whatever their order.

ghost use Rattle.std.specs.Prelude.{◌≡◌, Some};
ghost use Rattle.nbd_state.specs.Transcripts.{report_of_request};
ghost use Rattle.nbd_order.specs.{Sure.leaves_unknown, internal.Here.{held_behind, held_by, held_by_read, joined, nothing, of_change, of_piece}};

use crate::leaving::is_open;
use nbd_session::Asked;
use nbd_wire::commands;

/// What the changes and the READs of an offset tell of it.
#[derive(Clone, Copy, Drop)]
pub struct Here {
    /// Whether a change is open.
    pub any_open: bool,
    /// The last change, by its number.
    pub last: Option<u64>,
    /// How many requests had completed when the first reply to a change began: the greatest count, 0 where there is none.
    pub latest: u64,
    /// The next count below that, of another change.
    pub second: u64,
    /// The greatest count of a change that leaves unknown bytes.
    pub vague: u64,
    /// The last READ that got the byte.
    pub read: Option<Got>,
}

/// A piece of a READ.
#[derive(Clone, Copy, Drop)]
pub struct Got {
    /// The number of the READ.
    pub number: u64,
    /// The piece's place among those of the READ.
    pub piece: usize,
}

/// What the export holds at an offset.
#[derive(Clone, Copy, Drop)]
pub enum Holds {
    /// What it held at first.
    First,
    /// What is not known.
    Unknown,
    /// What the request with this number left.
    Change(u64),
    /// What a READ got.
    Read(Got),
}

impl Here {
    /// What no request tells.
    pub fn nothing() -> Here
        ensures { result ≡ nothing }
    {
        Here {
            any_open: false,
            last: None,
            latest: 0,
            second: 0,
            vague: 0,
            read: None,
        }
    }

    /// What the change with this number tells.
    pub fn of_change(number: u64, one: &Asked) -> Here
        ensures { result ≡ of_change number (report_of_request one.now) }
    {
        let known = one.known_at.unwrap_or(0);
        Here {
            any_open: is_open(one),
            last: Some(number),
            latest: known,
            second: 0,
            vague: if leaves_unknown(one) { known } else { 0 },
            read: None,
        }
    }

    /// What a piece of the READ with this number tells.
    pub fn of_piece(number: u64, piece: usize) -> Here
        ensures { result ≡ of_piece number piece }
    {
        Here {
            any_open: false,
            last: None,
            latest: 0,
            second: 0,
            vague: 0,
            read: Some(Got { number, piece }),
        }
    }

    /// What requests tell that come before others, and these.
    pub fn joined(&self, later: &Here) -> Here
        ensures { result ≡ joined self.now later.now }
    {
        Here {
            any_open: self.any_open | later.any_open,
            last: later.last.or(self.last),
            latest: self.latest.max(later.latest),
            second: self
                .second
                .max(later.second)
                .max(self.latest.min(later.latest)),
            vague: self.vague.max(later.vague),
            read: later.read.or(self.read),
        }
    }

    /// What the export holds. A change may be the last one where its first reply began behind the arrival of the last to
    /// arrive. Where several may, a READ that arrived behind the first replies to all changes tells what is there.
    pub fn holds(&self) -> Holds
        ensures { result ≡ held_by self.now }
    {
        match self.last {
            Some(last) => self.holds_behind(last),
            None => Holds::First,
        }
    }

    // The same, where this is the last change.
    fn holds_behind(&self, last: u64) -> Holds
        ensures { result ≡ held_behind self.now (Some last) }
    {
        if self.any_open || self.vague >= last {
            Holds::Unknown
        } else if self.second < last {
            Holds::Change(last)
        } else {
            self.holds_by_read()
        }
    }

    // The same, where several changes may be the last.
    fn holds_by_read(&self) -> Holds
        ensures { result ≡ held_by_read self.now.latest self.now.read }
    {
        match self.read {
            Some(got) if self.latest < got.number => Holds::Read(got),
            _ => Holds::Unknown,
        }
    }
}

// Whether what a change leaves is unknown.
fn leaves_unknown(one: &Asked) -> bool
    ensures { result ≡ leaves_unknown (report_of_request one.now) }
{
    one.command == commands::TRIM || !one.succeeded()
}
