//! Kinds of a server's reply to an option (proto.md, "Option reply types").

ghost use Rattle.std.specs.Prelude.{◌≡◌};
ghost use Rattle.nbd_wire.specs.protocol.Options.{is_error};

use crate::flags::has_wide;

pub const ACK: u32 = 1;

pub const SERVER: u32 = 2;

pub const INFO: u32 = 3;

pub const META_CONTEXT: u32 = 4;
/// A kind with this bit set is an error.
pub const ERROR: u32 = 1 << 31;

/// Whether an option reply of this kind is an error (proto.md, "Option reply types").
pub fn is_error(kind: u32) -> bool
    ensures { result ≡ is_error kind }
{
    has_wide(kind, ERROR)
}
