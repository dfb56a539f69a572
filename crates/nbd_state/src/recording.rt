//! What the messages of transmission do to a request under way.

ghost use Rattle.std.specs.Prelude.{◌≡◌, ◌<◌, ◌^◌, true, ◌∷◌, ℕ, List, false, IfOk, [], if◌then◌else◌, is_some, length, ◌&&◌, None, Option, option_to_list};
ghost use Rattle.nbd_wire.specs.{declared.message.Message.{Message, TheVariants.Simple}, Prelude.{Context, Filter, Operation, Exporting, ends_reply, is_error_chunk, is_failing, is_finished, extents_of, is_allocation, status_in, noted}};
ghost use Rattle.nbd_wire.specs.protocol.Payloads as payloads;
ghost use Rattle.nbd_wire.specs.protocol.Pieces as pieces;
ghost use Rattle.nbd_state.specs.{internal.{is_allocation_told, carried, operation_of_head, HasTaken}, declared.asked.Outcome.TheVariants.{Failure, Success}, Filters.Asks, Places.chunk_of, Showing.{IsShown, exporting}};

use crate::asked::{Asked, Exchange, Outcome};
use crate::asking::Asking;
use crate::pieces::Pieces;
use crate::proper::{flaws_of, is_outside};
use crate::state::Export;
use crate::statuses::{told_in, zeroes_told};
use nbd_wire::flags::has;
use nbd_wire::{
    Bytes, ChunkHead, Content, Piece, RequestHead, Sizes, chunks, commands, content_of,
};
use std::alloc::{AllocError, Global};

/// How many bytes stand before the data of a chunk, which are the offset.
const OFFSET_LENGTH: u8 = 8;

/// How many numbered requests had completed before the first byte of a message, and how many when it was whole.
#[derive(Clone, Copy, Drop)]
pub(crate) struct Counts {
    pub known: u64,
    pub now: u64,
}

impl Exchange {
    /// A request that has just completed, what it asks, and the block sizes that are in force, if any. An `Err` says that
    /// memory ran out.
    pub(crate) fn new(
        alloc: Global,
        export: Export,
        asking: Asking,
        sizes: Option<Sizes>,
        head: &RequestHead,
        payload: &Bytes,
    ) -> Result<Exchange, AllocError>
        ensures shown { IfOk result (λ x. (contexts : List Context) (filter : Option Filter) →
            Asks export.flags contexts filter head.now.length asking → IsShown (exporting export)
            (operation_of_head head.now (carried head.now payload.now) contexts filter sizes []) x) }
        ensures unanswered { IfOk result (λ x. x.asked.known_at ≡ None) }
    {
        let payload = carried(head, payload)?;
        let proper = flaws_of(export, &asking, head).is_none();
        let asked = Asked {
            flags: head.flags,
            command: head.command,
            outcome: Outcome::Pending,
            proper,
            outside: is_outside(
                sizes,
                asking.has_contexts,
                head.command,
                head.offset,
                asking.length,
            ),
            failed: false,
            length: asking.length,
            known_at: None,
            cookie: head.cookie,
            offset: head.offset,
            payload,
            pieces: Pieces::none(alloc, asking.told)?,
            ended_at: None,
        };
        Ok(Exchange { asked })
    }

    /// A whole simple reply has answered it; so many requests had completed before its first byte and now.
    /// An `Err` says that memory ran out.
    pub(crate) fn take_simple(
        &mut self,
        alloc: Global,
        error: u32,
        payload: &Bytes,
        counts: Counts,
    ) -> Result<(), AllocError>
        ensures taken { IfOk result (λ _. (export : Exporting) (e : Operation) (cookie : ℕ) →
            IsShown export e self.old → is_finished e ≡ false →
            HasTaken export e (Simple error cookie payload.now) counts.now self.old self.new) }
        ensures first { IfOk result
            (λ _. self.new.asked.known_at ≡ (if is_some self.old.asked.known_at then self.old.asked.known_at
            else Some counts.known)) }
    {
        let piece = simple_piece(self.asked.offset, payload)?;
        self.take(alloc, piece, counts, true, error != 0)
    }

    /// A whole chunk with this head has answered it; so many requests had completed before its first byte and now; whether it is
    /// the status of a context that tells what reads as zeroes. An `Err` says that memory ran out.
    pub(crate) fn take_chunk(
        &mut self,
        alloc: Global,
        head: &ChunkHead,
        payload: &Bytes,
        zeroes: bool,
        counts: Counts,
    ) -> Result<(), AllocError>
        ensures taken { IfOk result (λ _. (export : Exporting) (e : Operation) →
            IsShown export e self.old → is_finished e ≡ false → export.size < 2 ^ 64 →
            zeroes ≡ is_allocation_told e.contexts (status_in (chunk_of head.now payload.now)) →
            HasTaken export e (chunk_of head.now payload.now) counts.now self.old self.new) }
        ensures first { IfOk result
            (λ _. self.new.asked.known_at ≡ (if is_some self.old.asked.known_at then self.old.asked.known_at
            else Some counts.known)) }
    {
        let ends = has(head.flags, chunks::DONE);
        if let Some((id, descriptors)) = told_in(head, payload.as_slice()) {
            let extended = head.at.is_some();
            return self.take_status(alloc, id, extended, descriptors, zeroes, counts, ends);
        }
        let piece = content_piece(alloc, head.kind, payload)?;
        self.take(alloc, piece, counts, ends, is_error_chunk(head.kind))
    }

    // A message of the reply is the status of the context with this id; it may end the reply. What it calls zero counts if
    // it is the first one.
    fn take_status(
        &mut self,
        alloc: Global,
        id: u32,
        extended: bool,
        descriptors: &[u8],
        zeroes: bool,
        counts: Counts,
        ends: bool,
    ) -> Result<(), AllocError>
        ensures taken { IfOk result (λ _. (export : Exporting) (e : Operation) (m : Message) →
            IsShown export e self.old → is_finished e ≡ false → export.size < 2 ^ 64 → ends_reply m ≡ ends →
            is_failing m ≡ false → pieces.piece_of e.offset m ≡ [] →
            status_in m ≡ record { id = id; extents = extents_of extended descriptors.now } ∷ [] →
            zeroes ≡ is_allocation e.contexts id → HasTaken export e m counts.now self.old self.new) }
        ensures first { IfOk result
            (λ _. self.new.asked.known_at ≡ (if is_some self.old.asked.known_at then self.old.asked.known_at
            else Some counts.known)) }
    {
        let tells = zeroes && self.asked.known_at.is_none();
        let mut zeroes = zeroes_told(alloc, &self.asked, extended, descriptors, tells)?;
        self.note(counts, ends);
        self.asked.pieces.tell(alloc, id, &mut zeroes, ends)
    }

    // A reply message without a status gave this piece, if any; the last one ends the reply.
    fn take(
        &mut self,
        alloc: Global,
        piece: Option<Piece>,
        counts: Counts,
        ends: bool,
        fails: bool,
    ) -> Result<(), AllocError>
        ensures taken { IfOk result (λ _. (export : Exporting) (e : Operation) (m : Message) →
            IsShown export e self.old → is_finished e ≡ false → ends_reply m ≡ ends → is_failing m ≡ fails →
            pieces.piece_of e.offset m ≡ option_to_list piece → status_in m ≡ [] →
            HasTaken export e m counts.now self.old self.new) }
        ensures first { IfOk result
            (λ _. self.new.asked.known_at ≡ (if is_some self.old.asked.known_at then self.old.asked.known_at
            else Some counts.known)) }
    {
        self.asked.failed |= fails;
        self.note(counts, ends);
        self.asked.pieces.add(alloc, piece, counts.now, ends)
    }

    // A reply message has come, which may end the reply.
    fn note(&mut self, counts: Counts, ends: bool)
        ensures known { self.new.asked.known_at ≡ (if is_some self.old.asked.known_at then self.old.asked.known_at
            else Some counts.known) }
        ensures ended { self.new.asked.ended_at ≡ noted self.old.asked.ended_at ends counts.now }
        ensures outcome { self.new.asked.outcome ≡ (if ends then (if self.old.asked.failed then Failure else Success)
            else self.old.asked.outcome) }
        ensures kept { self.new ≡ record self.old {
          asked = record self.old.asked {
            known_at = self.new.asked.known_at;
            ended_at = self.new.asked.ended_at;
            outcome = self.new.asked.outcome;
          };
        } }
    {
        self.asked.known_at = self.asked.known_at.or(Some(counts.known));
        if ends {
            self.asked.ended_at = self.asked.ended_at.or(Some(counts.now));
            self.asked.outcome = outcome_of(self.asked.failed);
        }
    }
}

// What is kept of the payload behind a head: with an extended one that of a WRITE alone.
fn carried(head: &RequestHead, payload: &Bytes) -> Result<Bytes, AllocError>
    ensures { IfOk result (λ bytes. bytes ≡ carried head.now payload.now) }
{
    if head.extended && head.command != commands::WRITE {
        return Ok(Bytes::none());
    }
    payload.share()
}

// What became of a request whose reply has ended.
fn outcome_of(failed: bool) -> Outcome
    ensures { result ≡ (if failed then Failure else Success) }
{
    if failed {
        Outcome::Failure
    } else {
        Outcome::Success
    }
}

// An error chunk.
fn is_error_chunk(kind: u16) -> bool
    ensures { result ≡ is_error_chunk kind }
{
    kind >= chunks::FIRST_ERROR
}

// The bytes of a simple reply as a piece, unless there are none.
fn simple_piece(offset: u64, payload: &Bytes) -> Result<Option<Piece>, AllocError>
    ensures { IfOk result (λ piece. option_to_list piece ≡ pieces.simple_piece offset payload.now) }
{
    if payload.as_slice().is_empty() {
        return Ok(None);
    }
    let bytes = payload.share()?;
    Ok(Some(Piece::Bytes { offset, bytes }))
}

// The content of a chunk, if it has any; its bytes stand in memory once.
fn content_piece(alloc: Global, kind: u16, payload: &Bytes) -> Result<Option<Piece>, AllocError>
    ensures { IfOk result (λ piece. piece ≡ payloads.content_of kind payload.now) }
{
    match content_of(kind, payload.as_slice()) {
        Some(Content::Bytes { offset, .. }) => {
            let bytes = payload.share_behind(alloc, OFFSET_LENGTH)?;
            Ok(Some(Piece::Bytes { offset, bytes }))
        }
        Some(Content::Hole { offset, size }) => Ok(Some(Piece::Hole { offset, size })),
        None => Ok(None),
    }
}
