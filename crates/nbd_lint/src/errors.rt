//! The rules on the errors of requests (proto.md, "Error values").

use crate::notes::Notes;
use crate::numbers::{ENOMEM, ENOTSUP, EOVERFLOW, ESHUTDOWN, UNFRAGMENTED, USUAL_LARGEST};
use crate::reasons::Reasons;
use crate::reply::{Errored, Reply};
use crate::table::Name;
use crate::transmission::{Request, Transmission};
use nbd_wire::flags::has;
use nbd_wire::names::{ERRORS, name_in};
use nbd_wire::{command_flags, commands, transmission};

/// Judges an error of a request: it is none that proto.md has, it is ENOMEM, or the request came behind ESHUTDOWN and fails otherwise
/// (proto.md, "Terminating the transmission phase").
pub fn judge_error(reply: &Reply, before: &Transmission, errored: Errored, notes: &mut Notes) {
    let request = &reply.request;
    let error = errored.error;
    let number = u64::from(error);
    let is_known = name_in(ERRORS, error).is_some();
    notes.note_one(Name::UnknownError, !is_known, number);
    notes.note_two(
        Name::ErrorAfterEshutdown,
        request.is_late & request.is_proper() & (error != ESHUTDOWN),
        number,
        before.eshutdown,
    );
    judge_improper(reply, error, notes);
    match error {
        ENOMEM => notes.note(Name::Enomem, true),
        ENOTSUP => judge_enotsup(request, before, notes),
        EOVERFLOW => judge_eoverflow(reply, before, errored, notes),
        _ => {}
    }
}

// The first error of a request that the client should not have sent is not the one for that.
fn judge_improper(reply: &Reply, error: u32, notes: &mut Notes) {
    let reasons = Reasons::of(&reply.request);
    let command = reply.request.head.command;
    let is_any = reasons.is_forbidden | reasons.is_invalid;
    let is_judged = (reply.errors == 0) & is_any & !reasons.is_open;
    if is_judged & !reasons.allow(command, error) {
        notes.tell(
            Name::ErrorOfImproper,
            reasons.sentence,
            [u64::from(error), 0, 0],
        );
    }
}

// Judges ENOTSUP of a request: it is a WRITE_ZEROES without FAST_ZERO, and SEND_FAST_ZERO is offered (proto.md, "Request types"); or
// it is another request, or that is not offered.
fn judge_enotsup(request: &Request, before: &Transmission, notes: &mut Notes) {
    let is_zeroes = request.head.command == commands::WRITE_ZEROES;
    if is_zeroes & has(before.export.flags, transmission::SEND_FAST_ZERO) {
        let is_slow = is_slow_zeroes(request);
        notes.note(Name::EnotsupWithoutFastZero, is_slow);
    } else {
        notes.tell(Name::Enotsup, usize::from(is_zeroes), [0; 3]);
    }
}

// Judges EOVERFLOW of a request for which proto.md does not have it; or of a proper READ with DF behind content, or that is short
// enough for one piece (proto.md, "Request types").
fn judge_eoverflow(reply: &Reply, before: &Transmission, errored: Errored, notes: &mut Notes) {
    let request = &reply.request;
    let has_content = reply.has_content;
    let is_surprising = !may_overflow(request, before);
    let is_small = request.length <= UNFRAGMENTED;
    let is_over = is_over_announced(request, before);
    notes.note_one(Name::Eoverflow, is_surprising, request.length);
    if errored.is_plain & request.is_proper() & is_df_read(request) {
        notes.note(Name::ContentBesideEoverflow, has_content);
        notes.note_one(
            Name::EoverflowToSmallDfRead,
            !has_content & request.is_aligned & is_small & !is_over,
            request.length,
        );
    }
}

// Whether proto.md has EOVERFLOW for a request.
fn may_overflow(request: &Request, before: &Transmission) -> bool {
    match request.head.command {
        commands::READ => is_too_long_to_read(request, before),
        commands::WRITE_ZEROES => is_slow_zeroes(request) & is_over_announced(request, before),
        commands::TRIM | commands::CACHE | commands::BLOCK_STATUS => {
            is_over_announced(request, before)
        }
        _ => false,
    }
}

// Whether a request is a WRITE_ZEROES that need not be fast.
fn is_slow_zeroes(request: &Request) -> bool {
    (request.head.command == commands::WRITE_ZEROES)
        & !has(request.head.flags, command_flags::FAST_ZERO)
}

// Whether a READ may be too long for one piece, or for the server.
fn is_too_long_to_read(request: &Request, before: &Transmission) -> bool {
    let usual = u64::from(USUAL_LARGEST);
    is_df_read(request) & has(before.export.flags, transmission::SEND_DF)
        | before.structured & before.sizes.is_over(request.length, usual)
}

// Whether a request is longer than a maximum payload that was announced.
fn is_over_announced(request: &Request, before: &Transmission) -> bool {
    before.sizes.is_over(request.length, u64::MAX)
}

/// Whether a request is a READ with DF.
pub fn is_df_read(request: &Request) -> bool {
    (request.head.command == commands::READ) & has(request.head.flags, command_flags::DF)
}

/// Judges an error chunk beside those before it: beside a chunk of type ERROR there is another; a FLUSH gets one with an offset; an
/// offset has an error twice, or one chunk of content has two errors (proto.md, "Structured reply types").
pub fn judge_beside(reply: &Reply, errored: Errored, notes: &mut Notes) {
    notes.note(
        Name::ErrorNotAlone,
        (reply.errors != 0) & (errored.is_plain | reply.has_error),
    );
    if let Some(offset) = errored.offset {
        let is_flush = reply.request.head.command == commands::FLUSH;
        notes.note(Name::ErrorOffsetToFlush, is_flush);
        judge_offset(reply, offset, notes);
    }
}

// Judges the offset of an error beside those before it.
fn judge_offset(reply: &Reply, offset: u64, notes: &mut Notes) {
    if reply.offsets.contains(&offset) {
        notes.note_one(Name::ErrorOffsetRepeated, true, offset);
    } else if let Some(piece) = reply.piece_before(offset) {
        match reply.error_in(piece) {
            Some(other) if piece.last >= offset => {
                notes.tell(Name::ErrorOffsetRepeated, 1, [other, offset, 0]);
            }
            _ => {}
        }
    }
}
