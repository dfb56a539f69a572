//! Replies (proto.md, "Simple reply message", "Structured reply chunk message"), each as its head says.

ghost use Rattle.std.specs.Prelude.{◌≡◌, ◌==◌, ◌&&◌, IfErr, IfOk, None, Some, true, if◌then◌else◌, length};
ghost use Rattle.nbd_wire.specs.declared.commands.TheConstants as commands;
ghost use Rattle.nbd_wire.specs.Prelude.{Exporting, Core, begins, simple_fault};
ghost use Rattle.nbd_wire.specs.protocol.States as definitions;
ghost use Rattle.nbd_session.specs.internal.{operation_counted, is_simple_forbidden, Leading.{chunk_fields, chunk_head_length, chunk_magic}, Expecting.{IsChunkOf, IsPlaceOf, IsSimpleOf, head_fault_by, is_too_long}};
ghost use Rattle.nbd_state.specs.Shows.{Shows};

use crate::expected::Expected;
use nbd_state::{Asked, State};
use nbd_wire::limits::LONGEST_PAYLOAD;
use nbd_wire::{
    ChunkHead, SimpleHead, WireFault, chunk_head, commands, extended_chunk_head, head_lengths,
    simple_head,
};

/// The head of a chunk, extended or not.
pub(crate) fn read_chunk(extended: bool, head: &[u8]) -> ChunkHead
    requires { (begins (chunk_magic extended) head.now ≡ true) × (length head.now ≡ chunk_head_length extended) }
    ensures { result ≡ chunk_fields extended head.now }
{
    if extended {
        extended_chunk_head(head).unwrap()
    } else {
        chunk_head(head).unwrap()
    }
}

/// A simple reply with this head; it began when `counted` numbered requests had completed.
pub(crate) fn simple(state: &State, head: SimpleHead, counted: u64) -> Result<Expected, WireFault>
    ensures expected { IfOk result (λ expected. (core : Core) (export : Exporting) → Shows state.now core →
        core.phase ≡ definitions.Transmission export →
        IsSimpleOf export core (operation_counted counted core head.cookie) head.error head.cookie expected) }
    ensures refused { IfErr result (λ fault. (core : Core) (export : Exporting) → Shows state.now core →
        core.phase ≡ definitions.Transmission export →
        simple_fault core.structured (operation_counted counted core head.cookie) head.error ≡ Some fault) }
{
    let Some(place) = place_of(state, head.cookie, counted) else {
        return Err(WireFault::UnknownCookie);
    };
    let Some(exchange) = state.exchanges.get(place) else {
        return Err(WireFault::UnknownCookie);
    };
    if is_simple_forbidden(state, &exchange.asked, head.error) {
        return Err(WireFault::SimpleForbidden);
    }
    let length = simple_length(&exchange.asked, head.error);
    Ok(Expected::Simple {
        head,
        place,
        length,
    })
}

/// A chunk with this head; it began when `counted` numbered requests had completed.
pub(crate) fn chunk(state: &State, head: ChunkHead, counted: u64) -> Result<Expected, WireFault>
    ensures expected { IfOk result (λ expected. (core : Core) (export : Exporting) → Shows state.now core →
        core.phase ≡ definitions.Transmission export →
        IsChunkOf export core (operation_counted counted core head.cookie) head expected) }
    ensures refused { IfErr result (λ fault. (core : Core) (export : Exporting) → Shows state.now core →
        core.phase ≡ definitions.Transmission export →
        head_fault_by head.at core.structured (operation_counted counted core head.cookie) head.length ≡ Some fault) }
{
    if is_too_long(&head) {
        return Err(WireFault::OutOfProfile);
    }
    let Some(place) = place_of(state, head.cookie, counted) else {
        return Err(WireFault::UnknownCookie);
    };
    if !state.structured {
        return Err(WireFault::ChunkForbidden);
    }
    Ok(Expected::Chunk { head, place })
}

// A payload behind an extended header that is too large (this project's choice).
fn is_too_long(head: &ChunkHead) -> bool
    ensures { result ≡ is_too_long head.now.at head.now.length }
{
    head.at.is_some() && head.length > LONGEST_PAYLOAD
}

// The index of the outstanding request with this cookie, if the request had completed when the reply began.
fn place_of(state: &State, cookie: u64, counted: u64) -> Option<usize>
    ensures { (core : Core) (export : Exporting) → Shows state.now core →
        core.phase ≡ definitions.Transmission export →
        IsPlaceOf export core counted cookie state.now.exchanges.items result }
{
    let place = state.outstanding.get(cookie)?;
    if (place as u64) < counted {
        Some(place)
    } else {
        None
    }
}

// Whether a simple reply is forbidden: a chunk came before, or it answers a READ while structured replies are in force,
// or it is a success for a BLOCK_STATUS while a metadata context is in force.
fn is_simple_forbidden(state: &State, asked: &Asked, error: u32) -> bool
    ensures { (core : Core) → Shows state.now core → result ≡ is_simple_forbidden core asked.now error }
{
    asked.known_at.is_some()
        || asked.command == commands::READ && state.structured
        || error == 0 && asked.command == commands::BLOCK_STATUS && state.has_contexts()
}

// How many bytes follow the head: those of a successful READ, and none otherwise.
fn simple_length(asked: &Asked, error: u32) -> u64
    ensures { result ≡ (if (asked.now.command == commands.READ) && (error == 0) then asked.now.length else 0) }
{
    if asked.command == commands::READ && error == 0 {
        asked.length
    } else {
        0
    }
}
