//! Chunks of structured replies (proto.md, "Structured reply chunk message", "Structured reply flags",
//! "Structured reply types").

ghost use Rattle.std.specs.Prelude.{ℕ, Bool, ◌≡◌, ◌+◌, ◌==◌, ◌&&◌, ◌||◌, None, Some, false, is_some, length, not};
ghost use Rattle.nbd_wire.specs.declared.chunks.TheConstants as chunks;
ghost use Rattle.nbd_wire.specs.{declared.{payloads.Piece.Piece, fault.WireFault.TheVariants.{BadChunk, BadContent}}, Prelude.{Operation, Exporting, has_failed, is_finished, is_proper, pieces, Core, in_force, with_reply, fault_if, chunk_fault, fits_read, fits_failure, read_as, total}};
ghost use Rattle.nbd_wire.specs.declared.command_flags.TheConstants as command_flags;
ghost use Rattle.nbd_wire.specs.protocol.Flags as flags;
ghost use Rattle.nbd_session.specs.internal.{done_by, elsewhere_fault, finish_by, is_status, lacks_by, Expecting.chunk_fault_to};
ghost use Rattle.nbd_state.specs.{Places.{chunk_of, span_of}, Showing.IsShown, Shows.{Shows, TellsThese}};

use crate::spans::{bytes_in, content_span, is_inside};
use crate::statuses::status_fault;
use nbd_state::{Asked, Exchange, Span, State};
use nbd_wire::flags::has;
use nbd_wire::{
    ChunkHead, WireFault, chunks, command_flags, commands, content_of, failure_of, read_as,
};

/// Why a whole chunk may not stand in the reply to its request.
pub(crate) fn chunk_fault(
    state: &State,
    head: &ChunkHead,
    payload: &[u8],
    exchange: &Exchange,
) -> Option<WireFault>
    ensures { (core : Core) (export : Exporting) (e : Operation) → Shows state.now core →
        e.contexts ≡ in_force core → IsShown export e exchange.now → is_finished e ≡ false →
        result ≡ chunk_fault_to core.profile export (Some e) head.now payload.now }
{
    match payload_fault(state, head, payload, exchange) {
        Some(fault) => Some(fault),
        None => offset_fault(head.at, &exchange.asked),
    }
}

// An extended header has the offset of its request (proto.md, "Reserved Magic values"; read from libnbd and qemu).
fn offset_fault(at: Option<u64>, asked: &Asked) -> Option<WireFault>
    ensures { result ≡ elsewhere_fault at asked.now.offset }
{
    match at {
        Some(offset) if offset != asked.offset => Some(WireFault::BadReplyOffset),
        _ => None,
    }
}

// What is wrong with the payload of a chunk, or with the end of its reply.
fn payload_fault(
    state: &State,
    head: &ChunkHead,
    payload: &[u8],
    exchange: &Exchange,
) -> Option<WireFault>
    ensures { (core : Core) (export : Exporting) (e : Operation) → Shows state.now core →
        e.contexts ≡ in_force core → IsShown export e exchange.now → is_finished e ≡ false →
        result ≡ chunk_fault (is_some head.now.at) (head.now.kind == chunks.NONE) export e
        (with_reply e (chunk_of head.now payload.now)) head.now.flags (read_as core.profile head.now.kind) payload.now }
{
    let kind = head.kind;
    if is_status(head) {
        return status_fault(state, head.at.is_some(), head.flags, payload, exchange);
    }
    let done = has(head.flags, chunks::DONE);
    if kind == chunks::NONE {
        return none_fault(state, payload, done, exchange);
    }
    if let Some(content) = content_of(kind, payload) {
        return content_fault(state, content_span(&content), done, exchange);
    }
    let Some(failure) = failure_of(read_as(state.profile, kind), payload) else {
        return Some(WireFault::BadChunk);
    };
    if fits_failure(failure.offset, &exchange.asked) {
        None
    } else {
        Some(WireFault::BadContent)
    }
}

// A chunk of a status: with an extended header its type is another one.
fn is_status(head: &ChunkHead) -> bool
    ensures { result ≡ is_status head.now.at head.now.kind }
{
    if head.at.is_some() {
        head.kind == chunks::BLOCK_STATUS_EXT
    } else {
        head.kind == chunks::BLOCK_STATUS
    }
}

// A chunk without content is empty, and ends its reply.
fn none_fault(state: &State, payload: &[u8], done: bool, exchange: &Exchange) -> Option<WireFault>
    ensures { (core : Core) (export : Exporting) (e : Operation) (settled : ℕ → Bool) → Shows state.now core →
        e.contexts ≡ in_force core → IsShown export e exchange.now →
        TellsThese settled e.contexts exchange.now.asked.pieces.told None →
        result ≡ fault_if (not (length payload.now == 0) || not done) BadChunk
        (done_by done (finish_by e.command e.length (is_proper export e) (has_failed e) (total (pieces e))
        (lacks_by e.command e.length settled e.contexts))) }
{
    if !payload.is_empty() || !done {
        Some(WireFault::BadChunk)
    } else {
        finish_fault(state, exchange, 0, None)
    }
}

// Content has to fit its request; if it is the last of its reply, so does the end of the reply.
fn content_fault(state: &State, span: Span, done: bool, exchange: &Exchange) -> Option<WireFault>
    ensures { (core : Core) (export : Exporting) (e : Operation) (piece : Piece) (settled : ℕ → Bool) →
        Shows state.now core → e.contexts ≡ in_force core → IsShown export e exchange.now →
        TellsThese settled e.contexts exchange.now.asked.pieces.told None → span_of piece ≡ span →
        result ≡ fault_if (not (fits_read export e piece)) BadContent
        (done_by done (finish_by e.command e.length (is_proper export e) (has_failed e)
        (total (pieces e) + span.size) (lacks_by e.command e.length settled e.contexts))) }
{
    if !fits_read(span, exchange) {
        return Some(WireFault::BadContent);
    }
    if done {
        finish_fault(state, exchange, span.size, None)
    } else {
        None
    }
}

// Content answers a READ, lies in its range, shares no offset with an earlier piece, and is the only
// piece of a proper READ with DF.
fn fits_read(span: Span, exchange: &Exchange) -> bool
    ensures { (export : Exporting) (e : Operation) (piece : Piece) → IsShown export e exchange.now →
        span_of piece ≡ span → result ≡ fits_read export e piece }
{
    let asked = &exchange.asked;
    asked.command == commands::READ
        && is_inside(span, asked.offset, asked.length)
        && exchange.is_apart_from(span)
        && (!is_to_be_whole(asked) || asked.pieces.is_empty())
}

// A proper request asks that its content come in one chunk.
fn is_to_be_whole(asked: &Asked) -> bool
    ensures { result ≡ (asked.now.proper && flags.has asked.now.flags command_flags.DF) }
{
    asked.proper && has(asked.flags, command_flags::DF)
}

// The offset of an error chunk lies in the range of its request.
fn fits_failure(offset: Option<u64>, asked: &Asked) -> bool
    ensures { (e : Operation) → e.offset ≡ asked.now.offset → e.length ≡ asked.now.length →
        result ≡ fits_failure e offset }
{
    match offset {
        Some(offset) => offset >= asked.offset && offset - asked.offset < asked.length,
        None => true,
    }
}

/// What is wrong with the end of a reply, after so many more bytes of content or after the status of the context with
/// this id. Nothing is wrong if the reply states a failure, or if its request is proper, all of a READ's range came,
/// and for a BLOCK_STATUS of a range that is not empty each context in force that it asks has its status.
pub(crate) fn finish_fault(
    state: &State,
    exchange: &Exchange,
    more: u64,
    id: Option<u32>,
) -> Option<WireFault>
    ensures { (core : Core) (export : Exporting) (e : Operation) (settled : ℕ → Bool) → Shows state.now core →
        e.contexts ≡ in_force core → IsShown export e exchange.now →
        TellsThese settled e.contexts exchange.now.asked.pieces.told id →
        result ≡ finish_by e.command e.length (is_proper export e) (has_failed e) (total (pieces e) + more)
        (lacks_by e.command e.length settled e.contexts) }
{
    let asked = &exchange.asked;
    if asked.failed {
        return None;
    }
    if asked.command == commands::READ
        && bytes_in(&asked.pieces).saturating_add(u128::from(more)) != u128::from(asked.length)
    {
        return Some(WireFault::IncompleteRead);
    }
    if !asked.proper {
        return Some(WireFault::SuccessOfImproper);
    }
    if lacks_status(state, exchange, id) {
        return Some(WireFault::IncompleteStatus);
    }
    None
}

// Whether the reply to a BLOCK_STATUS of a range that is not empty lacks the status of a context in force that it asks,
// even if the one with this id is counted.
fn lacks_status(state: &State, exchange: &Exchange, id: Option<u32>) -> bool
    ensures { (core : Core) (e : Operation) (settled : ℕ → Bool) → Shows state.now core →
        e.contexts ≡ in_force core → e.command ≡ exchange.now.asked.command → e.length ≡ exchange.now.asked.length →
        TellsThese settled e.contexts exchange.now.asked.pieces.told id →
        result ≡ lacks_by e.command e.length settled e.contexts }
{
    let asked = &exchange.asked;
    asked.command == commands::BLOCK_STATUS && asked.length != 0 && !state.are_told(exchange, id)
}
