//! The rules on chunks (proto.md, "Structured reply types", "Structured reply flags").

use crate::errors::{is_df_read, judge_beside, judge_error};
use crate::fields::message_of;
use crate::notes::Notes;
use crate::numbers::UNFRAGMENTED;
use crate::reply::{Errored, Piece, Reply, piece_of};
use crate::statuses::{judge_status, status_in};
use crate::strings::judge_message;
use crate::table::Name;
use crate::transmission::Transmission;
use nbd_wire::chunks::{
    BLOCK_STATUS, BLOCK_STATUS_EXT, DONE, ERROR, FIRST_ERROR, NONE, OFFSET_DATA,
};
use nbd_wire::flags::{has, has_only};
use nbd_wire::{Profile, content_of, failure_of, read_as};

/// What a chunk says before its content or its message.
#[derive(Clone, Copy)]
pub struct Chunk<'a> {
    pub flags: u16,
    pub kind: u16,
    pub payload: &'a [u8],
}

impl<'a> Chunk<'a> {
    /// Whether it is the last one of its reply.
    pub fn is_last(self) -> bool {
        has(self.flags, DONE)
    }
}

/// Judges a chunk of the reply to a request, and keeps what it says; returns the error that it states, or 0.
pub fn take_chunk(
    reply: &mut Reply,
    before: &Transmission,
    chunk: Chunk<'_>,
    notes: &mut Notes,
) -> u32 {
    if let Some(content) = content_of(chunk.kind, chunk.payload) {
        let piece = piece_of(content);
        judge_head(reply, before, chunk, notes);
        judge_content(reply, piece, notes);
        reply.add(piece, chunk.is_last(), notes);
    } else if let Some(status) = status_in(chunk.kind, chunk.payload) {
        judge_head(reply, before, chunk, notes);
        judge_status(&reply.request, before, status, notes);
        reply.is_behind_payload = true;
    } else {
        return take_failure(reply, before, chunk, notes);
    }
    0
}

// The same of one that is neither content nor a status.
fn take_failure(
    reply: &mut Reply,
    before: &Transmission,
    chunk: Chunk<'_>,
    notes: &mut Notes,
) -> u32 {
    let Some(failure) = failure_of(read_as(Profile::Wide, chunk.kind), chunk.payload) else {
        judge_head(reply, before, chunk, notes);
        reply.is_behind_payload = false;
        return 0;
    };
    let errored = Errored {
        error: failure.error,
        offset: failure.offset,
        is_plain: chunk.kind == ERROR,
    };
    judge_message(errored.error, chunk.payload, notes);
    judge_head(reply, before, chunk, notes);
    judge_error(reply, before, errored, notes);
    judge_beside(reply, errored, notes);
    reply.fail(errored, notes);
    errored.error
}

// Judges the head of a chunk, and how long it is: it carries more than each maximum payload that was announced, but a READ with DF is
// to be served in one; it has a flag that proto.md has not; NONE ends a reply whose last chunk could have (proto.md, "Structured
// reply chunk message").
fn judge_head(reply: &Reply, before: &Transmission, chunk: Chunk<'_>, notes: &mut Notes) {
    let request = &reply.request;
    let bytes = carried(chunk);
    let largest = u64::from(before.sizes.largest);
    notes.speak_of(request);
    if before.sizes.last.is_some() & (bytes > largest) {
        let is_short = (chunk.kind == OFFSET_DATA) & (request.length <= UNFRAGMENTED);
        let is_due_whole = is_short & is_df_read(request);
        notes.note_two(Name::ChunkOverLargest, !is_due_whole, bytes, largest);
    }
    if notes.are_hinting {
        let flags = u32::from(chunk.flags);
        let is_known = has_only(flags, u32::from(DONE));
        notes.note_one(Name::UnknownChunkFlag, !is_known, u64::from(flags));
        notes.note(
            Name::NeedlessNone,
            (chunk.kind == NONE) & reply.is_behind_payload,
        );
    }
}

// How many bytes a chunk carries behind what says what they are.
fn carried(chunk: Chunk<'_>) -> u64 {
    let length = chunk.payload.len() as u64;
    match chunk.kind {
        OFFSET_DATA | BLOCK_STATUS_EXT => length.saturating_sub(8),
        BLOCK_STATUS => length.saturating_sub(4),
        kind if kind >= FIRST_ERROR => message_of(chunk.payload).len() as u64,
        _ => 0,
    }
}

// Judges content: it has an offset whose error came before it, or is of a READ with DF behind EOVERFLOW (proto.md, "Request types").
fn judge_content(reply: &Reply, piece: Piece, notes: &mut Notes) {
    let request = &reply.request;
    if let Some(offset) = reply.error_in(piece) {
        let (first, last) = (piece.first, piece.last);
        notes.note_three(Name::ContentOverError, true, first, last, offset);
    }
    notes.note(
        Name::ContentBesideEoverflow,
        reply.has_eoverflow & request.is_proper() & is_df_read(request),
    );
}
