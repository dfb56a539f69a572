//! The lines of captures: chunk lines, empty lines and comments.

ghost use Rattle.std.specs.Prelude.{◌≡◌};
ghost use Rattle.nbd_capture.specs.declared.capture.CaptureFault.TheVariants.{Memory};

use std::alloc::{AllocError, AllocFailed};
use std::fmt;
use thiserror::Error;

/// Why a capture text gave no more chunks.
#[derive(Clone, Copy, PartialEq, Eq, Drop, Error)]
pub enum CaptureFault {
    /// The line with this number, from 1, is the first bad one: it is malformed, or no LF follows it.
    #[error("capture line {0}")]
    Line(u64),
    /// The reader failed, which an interruption is too, or the text has more bytes than it may have.
    #[error("capture read")]
    Read,
    /// An allocation was refused.
    #[error("memory")]
    Memory,
}

// As it is printed, which is less to prove than what a derived one writes.
impl fmt::Debug for CaptureFault {
    fn fmt<W: fmt::Write>(&self, f: &mut fmt::Formatter<W>) -> fmt::Result {
        fmt::Display::fmt(self, f)
    }
}

impl<T: Drop> From<AllocFailed<T>> for CaptureFault {
    ghost from_gives = { λ _ e. e ≡ Memory };

    fn from(_e: AllocFailed<T>) -> CaptureFault {
        CaptureFault::Memory
    }
}

impl From<AllocError> for CaptureFault {
    ghost from_gives = { λ _ e. e ≡ Memory };

    fn from(_e: AllocError) -> CaptureFault {
        CaptureFault::Memory
    }
}
