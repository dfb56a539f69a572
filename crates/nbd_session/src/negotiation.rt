//! The messages before the options (proto.md, "Newstyle negotiation", "Handshake flags", "Client flags"), and the
//! answer to EXPORT_NAME ("NBD_OPT_EXPORT_NAME"), each as its head says.

ghost use Rattle.std.specs.Prelude.{◌≡◌, ◌++◌, ◌||◌, ◌&&◌, ℕ, List, IfErr, IfOk, Some, length};
ghost use Rattle.nbd_wire.specs.declared.handshake.TheConstants as handshake;
ghost use Rattle.nbd_wire.specs.protocol.Flags as flags;
ghost use Rattle.nbd_wire.specs.Prelude.{Core, client_flags, export_answer, greeting};
ghost use Rattle.nbd_session.specs.internal.Expecting.{sets_more, IsPlaced, expected_decision};

use crate::expected::Expected;
use nbd_wire::flags::{has, has_only, has_wide};
use nbd_wire::{
    WireFault, client_flags_head, export_head, greeting_head, handshake, limits, transmission,
};

/// The server's greeting.
pub(crate) fn greeting(head: &[u8]) -> Result<Expected, WireFault>
    requires { length head.now ≡ 18 }
    ensures expected { IfOk result (λ expected. (now : Core) (payload : List ℕ) →
        greeting (head.now ++ payload) ≡ expected_decision now expected 18 payload) }
    ensures placed { IfOk result (λ expected. (core : Core) → IsPlaced core expected) }
    ensures refused { IfErr result (λ fault. (greeting head.now).head_fault ≡ Some fault) }
{
    let Some(flags) = greeting_head(head) else {
        return Err(WireFault::BadMagic);
    };
    if !has(flags, handshake::FIXED_NEWSTYLE) {
        return Err(WireFault::NotFixedNewstyle);
    }
    Ok(Expected::Greeting { flags })
}

/// The client's flags, where the server offered these handshake flags.
pub(crate) fn client_flags(head: &[u8], offered: u16) -> Result<Expected, WireFault>
    requires { length head.now ≡ 4 }
    ensures expected { IfOk result (λ expected. (now : Core) (payload : List ℕ) →
        client_flags offered (head.now ++ payload) ≡ expected_decision now expected 4 payload) }
    ensures placed { IfOk result (λ expected. (core : Core) → IsPlaced core expected) }
    ensures refused { IfErr result (λ fault. (client_flags offered head.now).head_fault ≡ Some fault) }
{
    let flags = client_flags_head(head).unwrap();
    if !has_wide(flags, handshake::C_FIXED_NEWSTYLE) {
        return Err(WireFault::NotFixedNewstyle);
    }
    if sets_more(offered, flags) {
        return Err(WireFault::BadClientFlags);
    }
    Ok(Expected::ClientFlags { flags })
}

// Whether a client sets a flag that is unknown or was not offered.
fn sets_more(offered: u16, flags: u32) -> bool
    ensures { result ≡ sets_more offered flags }
{
    !has_only(flags, handshake::C_FIXED_NEWSTYLE + handshake::C_NO_ZEROES)
        || has_wide(flags, handshake::C_NO_ZEROES) && !has(offered, handshake::NO_ZEROES)
}

/// The answer to EXPORT_NAME, which is padded unless the client took NO_ZEROES.
pub(crate) fn exported(head: &[u8], client_flags: u32) -> Result<Expected, WireFault>
    requires { length head.now ≡ 10 }
    ensures expected { IfOk result (λ expected. (now : Core) (payload : List ℕ) →
        export_answer (flags.has client_flags handshake.C_NO_ZEROES) (head.now ++ payload)
        ≡ expected_decision now expected 10 payload) }
    ensures placed { IfOk result (λ expected. (core : Core) → IsPlaced core expected) }
    ensures refused { IfErr result (λ fault.
        (export_answer (flags.has client_flags handshake.C_NO_ZEROES) head.now).head_fault ≡ Some fault) }
{
    let (size, flags) = export_head(head).unwrap();
    if !has(flags, transmission::HAS_FLAGS) {
        return Err(WireFault::BadExport);
    }
    if size > limits::EXPORT_SIZE {
        return Err(WireFault::ExportTooLarge);
    }
    let padded = !has_wide(client_flags, handshake::C_NO_ZEROES);
    Ok(Expected::Exported {
        size,
        flags,
        padded,
    })
}
