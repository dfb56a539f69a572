//! The rule on modes of TLS: a server keeps one for the whole connection (proto.md, "Server-side requirements").

use crate::asked::{Asked, asks_export};
use crate::breach::UNLABELLED;
use crate::notes::Notes;
use crate::numbers::{ERR_PLATFORM, ERR_TLS_REQD, ERR_UNSUP};
use crate::table::Name;
use nbd_wire::answers::is_error;
use nbd_wire::options;

/// Which of the modes a server can have, a bit each: there is no TLS; everything is hidden until TLS is negotiated; some exports are.
type Modes = u8;

const WITHOUT_TLS: Modes = 1;

const FORCED: Modes = 2;

const SELECTIVE: Modes = 4;

/// An export is hidden until TLS is negotiated.
const WITH_TLS: Modes = FORCED | SELECTIVE;

/// Something is not.
const OPEN: Modes = WITHOUT_TLS | SELECTIVE;

/// Before the first answer.
const ALL: Modes = WITHOUT_TLS | FORCED | SELECTIVE;

/// An answer that leaves only some modes.
#[derive(Clone, Copy, Drop)]
struct Sign {
    option: u32,
    /// The answer's kind; 0 of the answer to EXPORT_NAME.
    kind: u32,
    place: u64,
    leaves: Modes,
}

/// No answer: it leaves each mode.
const NO_SIGN: Sign = Sign {
    option: 0,
    kind: 0,
    place: 0,
    leaves: ALL,
};

/// The modes that a server can have by what it answered.
#[derive(Clone, Copy, Drop)]
pub struct Tls {
    left: Modes,
    /// The first answer that leaves these modes, of each four that an answer can leave.
    signs: [Sign; 4],
}

/// Before the first answer.
pub const UNKNOWN: Tls = Tls {
    left: ALL,
    signs: [NO_SIGN; 4],
};

impl Tls {
    /// Takes an answer to an option; where it leaves no mode, what it leaves alone. The first answer that leaves the same modes
    /// stays.
    pub fn take(&mut self, asked: &Asked, kind: u32, place: u64) {
        let leaves = left_by(asked, kind);
        if self.left & leaves == 0 {
            *self = UNKNOWN;
        }
        self.left &= leaves;
        let row = match leaves {
            OPEN => 0,
            WITHOUT_TLS => 1,
            WITH_TLS => 2,
            FORCED => 3,
            _ => return,
        };
        if self.signs[row].place == 0 {
            self.signs[row] = Sign {
                option: asked.id,
                kind,
                place,
                leaves,
            };
        }
    }
}

// The modes that an answer leaves.
fn left_by(asked: &Asked, kind: u32) -> Modes {
    match asked.id {
        options::STARTTLS if asked.data().is_empty() & is_without_tls(kind) => WITHOUT_TLS,
        options::STARTTLS => ALL,
        id if (kind == ERR_TLS_REQD) & asks_export(id) => WITH_TLS,
        _ if kind == ERR_TLS_REQD => FORCED,
        options::ABORT => ALL,
        _ if is_error(kind) => ALL,
        _ => OPEN,
    }
}

// Whether an error says that there is no TLS.
fn is_without_tls(kind: u32) -> bool {
    kind == ERR_UNSUP || kind == ERR_PLATFORM
}

/// Judges an answer: no mode allows it and those before it. The sentence names the first that no mode allows with it.
pub fn judge_tls(before: &Tls, asked: &Asked, kind: u32, notes: &mut Notes) {
    let leaves = left_by(asked, kind);
    if before.left & leaves == 0 {
        let first = first_against(before, leaves);
        let numbers = [
            u64::from(asked.id),
            u64::from(kind),
            first.place,
            u64::from(first.option),
            u64::from(first.kind),
        ];
        notes.add(Name::TlsMode, 0, UNLABELLED, [&[], &[]], &numbers);
    }
}

// The first answer beside which these modes leave none.
fn first_against(before: &Tls, leaves: Modes) -> Sign {
    let mut first = NO_SIGN;
    for sign in &before.signs {
        let is_against = (sign.place != 0) & (sign.leaves & leaves == 0);
        if is_against & ((first.place == 0) | (sign.place < first.place)) {
            first = *sign;
        }
    }
    first
}
