//! What takes the bytes of a capture: a session, or a monitor where nobody asks for the messages.

ghost use Rattle.std.specs.Prelude.{◌≡◌, ◌+◌, ◌++◌, ◌<◌, ◌^◌, Err, List, OnOk, length};
ghost use Rattle.nbd_session.specs.declared.fault.SessionFault.TheVariants.{Memory};
ghost use Rattle.nbd_tool.specs.{Ends.IsOver, internal.IsFollowing};
ghost use Rattle.nbd_wire.specs.{declared.profile.Profile.Profile, Prelude.{Pair, side_pairs}};

use nbd_session::{Monitor, Session, SessionFault};
use nbd_wire::{Message, Side};
use std::alloc::AllocError;

/// What takes the bytes of a capture, piece by piece.
pub(crate) trait Intake {
    /// It is held to the profile and took all of these bytes, or was closed by a fault of the wire in them.
    ghost over: { Self → Profile → List Pair → Type 0 };

    /// Takes the next bytes of a side. An `Err` says that memory ran out.
    fn take(&mut self, side: Side, piece: &[u8]) -> Result<(), AllocError>
        requires { (profile : Profile) × (capture : List Pair) × over self.old profile capture
            × (length capture + length piece.now < 2 ^ 63) }
        ensures { OnOk result ((profile : Profile) (capture : List Pair) → over self.old profile capture →
            over self.new profile (capture ++ side_pairs side piece.now)) };

    /// The accepted messages that it keeps.
    fn messages(&self) -> &[Message];
}

impl Intake for Session {
    ghost over = { λ session profile capture. IsOver profile capture session };

    fn take(&mut self, side: Side, piece: &[u8]) -> Result<(), AllocError> {
        unless_memory(self.push(side, piece))
    }

    fn messages(&self) -> &[Message] {
        Session::messages(self)
    }
}

impl Intake for Monitor {
    ghost over = { λ monitor profile capture. IsFollowing profile capture monitor };

    fn take(&mut self, side: Side, piece: &[u8]) -> Result<(), AllocError> {
        unless_memory(self.push(side, piece))
    }

    fn messages(&self) -> &[Message] {
        &[]
    }
}

// A fault of the wire closes an intake, which goes on; an `Err` says that memory ran out.
fn unless_memory(pushed: Result<(), SessionFault>) -> Result<(), AllocError>
    ensures { OnOk result (pushed ≡ Err Memory → ⊥) }
{
    match pushed {
        Ok(()) | Err(SessionFault::Wire { .. }) => Ok(()),
        Err(SessionFault::Memory) => Err(AllocError),
    }
}
