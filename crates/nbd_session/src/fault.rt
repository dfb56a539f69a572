//! Why a session is closed.

use nbd_wire::WireFault;
use std::alloc::AllocError;

/// Why a session was closed.
#[derive(Clone, Copy, Drop)]
pub enum SessionFault {
    /// The bytes break a rule; `at` counts the capture's bytes, of both sides, up to and including the
    /// one at which that was found.
    Wire { at: u64, fault: WireFault },
    /// Out of memory.
    Memory,
}

impl From<AllocError> for SessionFault {
    ghost use Rattle.std.specs.Prelude.{◌≡◌};
    ghost use Rattle.nbd_session.specs.declared.fault.SessionFault.TheVariants.{Memory};

    ghost from_gives = { λ _ fault. fault ≡ Memory };

    fn from(_: AllocError) -> SessionFault {
        SessionFault::Memory
    }
}
