//! The profiles of the protocol that a session can be held to.

ghost use Rattle.std.specs.Prelude.{◌≡◌, IsTrue};
ghost use Rattle.nbd_wire.specs.declared.commands.TheConstants as commands;
ghost use Rattle.nbd_wire.specs.protocol.Operations.{is_chunked};

use crate::commands::READ;

/// A profile of the protocol.
#[derive(Clone, Copy, PartialEq, Eq, Drop)]
pub enum Profile {
    /// The negotiation, requests and replies of docs/PROFILE.md, without what it says of `Wide` alone.
    Base,
    /// Base, with metadata contexts and block status, block sizes, extended headers, READs that are served by chunk, and error chunks of
    /// unknown types.
    Wide,
}

impl Profile {
    /// Whether requests of this type may be served message by message, as their reply is sent: READs in `Wide` (this project's
    /// choice). Every other is served whole before its reply begins.
    pub fn serves_by_chunk(self, command: u16) -> bool
        ensures is { result ≡ is_chunked self command }
        ensures read { IsTrue result → command ≡ commands.READ }
    {
        match self {
            Profile::Base => false,
            Profile::Wide => command == READ,
        }
    }
}
