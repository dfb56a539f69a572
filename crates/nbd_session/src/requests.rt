//! Requests (proto.md, "Request message", "Reserved Magic values").

ghost use Rattle.std.specs.Prelude.{◌≡◌, ◌++◌, ℕ, List, IfErr, IfOk, Some, length};
ghost use Rattle.nbd_wire.specs.Prelude.{Core, request_by};
ghost use Rattle.nbd_session.specs.internal.{is_bad_disconnect, is_beyond, Expecting.{IsPlaced, expected_decision}, Leading.{request_head_length, request_head_of}};

use crate::expected::Expected;
use nbd_wire::limits::LONGEST_PAYLOAD;
use nbd_wire::{
    RequestHead, WireFault, carries_payload, commands, extended_request_head, request_head,
};

/// A request, extended or not, as its head says.
pub(crate) fn request(extended: bool, head: &[u8]) -> Result<Expected, WireFault>
    requires { length head.now ≡ request_head_length extended }
    ensures expected { IfOk result (λ expected. (now : Core) (payload : List ℕ) →
        request_by extended now (head.now ++ payload) ≡ expected_decision now expected (length head.now) payload) }
    ensures placed { IfOk result (λ expected. (core : Core) → IsPlaced core expected) }
    ensures refused { IfErr result (λ fault. (now : Core) →
        (request_by extended now head.now).head_fault ≡ Some fault) }
{
    let Some(head) = read_head(extended, head) else {
        return Err(WireFault::BadMagic);
    };
    if is_beyond(&head) {
        return Err(WireFault::OutOfProfile);
    }
    if is_bad_disconnect(&head) {
        return Err(WireFault::BadDisconnect);
    }
    Ok(Expected::Request(head))
}

// The head of a request, extended or not.
fn read_head(extended: bool, head: &[u8]) -> Option<RequestHead>
    requires { length head.now ≡ request_head_length extended }
    ensures { result ≡ request_head_of extended head.now }
{
    if extended {
        extended_request_head(head)
    } else {
        request_head(head)
    }
}

// With an extended header: a payload that is too large. That it is refused is this project's choice.
fn is_beyond(head: &RequestHead) -> bool
    ensures { result ≡ is_beyond head.now }
{
    head.extended && carries_payload(head.flags, head.command) && head.length > LONGEST_PAYLOAD
}

// A DISC with an offset or a length.
fn is_bad_disconnect(head: &RequestHead) -> bool
    ensures { result ≡ is_bad_disconnect head.now }
{
    head.command == commands::DISC && !(head.offset == 0 && head.length == 0)
}
