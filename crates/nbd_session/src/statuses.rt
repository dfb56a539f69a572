//! Status chunks (proto.md, "Structured reply types", "Command flags").

ghost use Rattle.std.specs.{Prelude.{◌≡◌, ◌==◌, ◌&&◌, ◌<◌, ℕ, Option, false, is_some, length, nat_le, not}, Option.option_map};
ghost use Rattle.nbd_wire.specs.{Prelude.{reach, Exporting, Operation, is_finished, extents_of, status_of, Core, in_force, with_reply, but_last, chunk_fault, status_kind}, protocol.Transmission.{fits_range, fits_status}};
ghost use Rattle.nbd_state.specs.{Places.chunk_with, Showing.IsShown, Shows.Shows};

use crate::chunks::finish_fault;
use nbd_state::{Asked, Exchange, State};
use nbd_wire::flags::has;
use nbd_wire::{
    WireFault, chunks, command_flags, commands, first_extent, status_ext_of, status_of,
};

/// Why a whole status chunk may not stand in the reply to its request.
pub(crate) fn status_fault(
    state: &State,
    extended: bool,
    flags: u16,
    payload: &[u8],
    exchange: &Exchange,
) -> Option<WireFault>
    ensures { (core : Core) (export : Exporting) (e : Operation) (at : Option ℕ) (cookie : ℕ) → Shows state.now core →
        e.contexts ≡ in_force core → IsShown export e exchange.now → is_finished e ≡ false → is_some at ≡ extended →
        result ≡ chunk_fault extended false export e
        (with_reply e (chunk_with at flags (status_kind extended) cookie payload.now))
        flags (status_kind extended) payload.now }
{
    if !state.has_contexts() {
        return Some(WireFault::BadChunk);
    }
    let Some((id, descriptors)) = status_in(extended, payload) else {
        return Some(WireFault::BadChunk);
    };
    if !fits_status(state, id, extended, descriptors, exchange) {
        return Some(WireFault::BadContent);
    }
    if has(flags, chunks::DONE) {
        finish_fault(state, exchange, 0, Some(id))
    } else {
        None
    }
}

// The id of the context in a status chunk's payload, and its descriptors.
fn status_in(extended: bool, payload: &[u8]) -> Option<(u32, &[u8])>
    ensures { option_map (λ v. record { id = v.0; extents = extents_of extended v.1.now }) result
        ≡ status_of extended payload.now }
{
    if extended {
        status_ext_of(payload)
    } else {
        status_of(payload)
    }
}

// Whether a status fits its request: it answers a BLOCK_STATUS, is the first one of a context in force that this asks,
// and its extents fit the range.
fn fits_status(
    state: &State,
    id: u32,
    extended: bool,
    descriptors: &[u8],
    exchange: &Exchange,
) -> bool
    ensures { (core : Core) (export : Exporting) (e : Operation) → Shows state.now core → e.contexts ≡ in_force core →
        IsShown export e exchange.now → is_finished e ≡ false →
        result ≡ fits_status e (record { id = id; extents = extents_of extended descriptors.now }) }
{
    let asked = &exchange.asked;
    asked.command == commands::BLOCK_STATUS
        && state.is_in_force(id)
        && !exchange.is_settled(id)
        && (asked.length == 0 || fits_range(asked, extended, descriptors))
}

// Whether all extents but the last end before the range does, and with REQ_ONE there is one extent, no longer than the
// range.
fn fits_range(asked: &Asked, extended: bool, descriptors: &[u8]) -> bool
    ensures { (e : Operation) → e.flags ≡ asked.now.flags → e.length ≡ asked.now.length →
        result ≡ fits_range e (extents_of extended descriptors.now) }
{
    last_begins_within(asked.length, extended, descriptors)
        && (!has(asked.flags, command_flags::REQ_ONE)
            || is_one_within(asked.length, extended, descriptors))
}

// Whether all extents but the last are together shorter than this size, in bytes.
fn last_begins_within(size: u64, extended: bool, descriptors: &[u8]) -> bool
    ensures { result ≡ not (nat_le size (reach (but_last (extents_of extended descriptors.now)))) }
{
    let mut left = size;
    let Some((mut extent, mut rest)) = first_extent(extended, descriptors) else {
        return size > 0;
    };
    while let Some((next, later)) = first_extent(extended, rest) {
        if extent.length >= left {
            return false;
        }
        left -= extent.length;
        extent = next;
        rest = later;
    }
    left > 0
}

// Whether there is one extent, not longer than this size, in bytes.
fn is_one_within(size: u64, extended: bool, descriptors: &[u8]) -> bool
    ensures { result ≡ ((length (extents_of extended descriptors.now) == 1)
        && nat_le (reach (extents_of extended descriptors.now)) size) }
{
    match first_extent(extended, descriptors) {
        Some((extent, rest)) => first_extent(extended, rest).is_none() && extent.length <= size,
        None => false,
    }
}
