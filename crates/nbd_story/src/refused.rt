//! Which part of its rule a refused chunk breaks.

use crate::content::bringer;
use crate::reading::number_in;
use crate::story::Story;
use crate::text::Text;
use crate::told::{EMPTY, Request, Told, meet, outside};
use nbd_wire::flags::has;
use nbd_wire::{ChunkHead, Part, Profile, chunks, command_flags, commands, read_as};

/// What the payload of a status has.
const SHORT_STATUS: &str =
    "the payload of a status has an id of 4 bytes and a descriptor of 8 bytes or more of them";

/// The same with an extended header.
const WIDE_STATUS: &str =
    "the payload of a status has an id and the number of its descriptors, of 4 bytes each, and so many descriptors of 16 bytes, at least one";

/// Each byte of an export: content of a proper READ with DF may share none of them with other content.
const EACH: Part = Part {
    offset: 0,
    length: u64::MAX,
};

impl Text {
    /// Adds what is wrong.
    pub fn wrong(self, reason: &str) -> Text {
        self.line("wrong: ", reason)
    }

    /// Adds what is wrong, where something holds.
    pub fn wrong_if(self, holds: bool, reason: &str) -> Text {
        if holds { self.wrong(reason) } else { self }
    }

    /// Adds why a chunk with content, or with the offset of an error, does not fit its request, and the content that it rivals.
    pub fn bad_content(self, told: &Told, request: &Request, story: &Story) -> Text {
        let status = story.status_in(told);
        let before = bringer(&story.told, request.number, rivalled(told.part, request));
        let reason = if status.count() != 0 {
            status_reason(status.id, request, story)
        } else if told.part.length != 0 {
            misplaced(told.part, request, before)
        } else {
            "the offset of the error lies outside the range of the request"
        };
        self.wrong(reason).told("content before: ", before, story)
    }
}

/// Why a chunk with this payload has not the form of its type.
pub fn form_reason(head: &ChunkHead, payload: &[u8], story: &Story) -> &'static str {
    let kind = read_as(story.profile, head.kind);
    let length = payload.len() as u64;
    let descriptors = number_in(payload, 4, 4).saturating_mul(16);
    let is_odd = (head.length < 12) | (head.length % 8 != 4);
    let is_odd_wide = (length < 24) | (length != descriptors.saturating_add(8));
    match (kind, head.at.is_some()) {
        (chunks::NONE, _) if head.length > 0 => "a chunk of type NONE has no payload",
        (chunks::NONE, _) => "a chunk of type NONE ends its reply, so it has DONE",
        (chunks::OFFSET_DATA, _) if head.length < 8 =>
            "its payload is shorter than an offset, which has 8 bytes",
        (chunks::OFFSET_DATA, _) => "its payload has no data behind the offset",
        (chunks::OFFSET_HOLE, _) if head.length != 12 =>
            "the payload of a hole has 12 bytes, an offset and a size",
        (chunks::OFFSET_HOLE, _) => "its hole has size 0",
        (chunks::BLOCK_STATUS, true) =>
            "with an extended header a status is of type BLOCK_STATUS_EXT",
        (chunks::BLOCK_STATUS, false) if story.profile == Profile::Wide => status_form(
            is_odd,
            SHORT_STATUS,
            story,
        ),
        (chunks::BLOCK_STATUS_EXT, true) => status_form(is_odd_wide, WIDE_STATUS, story),
        (chunks::ERROR | chunks::ERROR_OFFSET, _) => failure_reason(kind, payload),
        _ if kind >= chunks::FIRST_ERROR =>
            "its type has bit 15, and of these the profile base knows ERROR and ERROR_OFFSET alone (wide knows each)",
        _ => "its type is none of NONE, OFFSET_DATA, OFFSET_HOLE, ERROR and ERROR_OFFSET",
    }
}

// Why a status chunk has not its form: these words where its payload has a wrong length.
fn status_form(is_odd: bool, words: &'static str, story: &Story) -> &'static str {
    if !story.has_contexts() {
        "it gives a status, and no metadata context is in force"
    } else if is_odd {
        words
    } else {
        "one of its descriptors has length 0"
    }
}

// Why the payload of an error chunk has not its form.
fn failure_reason(kind: u16, payload: &[u8]) -> &'static str {
    if payload.len() < 6 {
        "its payload is shorter than an error and the length of a message, which have 6 bytes"
    } else if number_in(payload, 0, 4) == 0 {
        "its error is 0"
    } else if kind == chunks::ERROR {
        "the length of its message passes the end of its payload"
    } else {
        "the length of its message and an offset behind it pass the end of its payload"
    }
}

// Why the status of the context with this id does not fit its request.
fn status_reason(id: u32, request: &Request, story: &Story) -> &'static str {
    if !request.is_status() {
        "a status answers only a BLOCK_STATUS"
    } else if !story.has_context(id) {
        "no metadata context in force has its id"
    } else if !story.asks(request, id) {
        "the filter of the request does not ask its context"
    } else if story.is_told(id, request.number) {
        "its context has a status before it in this reply"
    } else if has(request.head.flags, command_flags::REQ_ONE) {
        "the request has REQ_ONE, so it gets one descriptor, which ends with the range or before"
    } else {
        "the descriptors before the last one reach the end of the range"
    }
}

// The part that this content of a request may not share with content before it: none where it answers no READ or leaves its range,
// each byte where the READ is proper and has DF.
fn rivalled(part: Part, request: &Request) -> Part {
    let has_one_piece = has(request.head.flags, command_flags::DF) & request.flaws.is_none();
    let is_outside = outside(part, request.range()).length != 0;
    if (request.head.command != commands::READ) | is_outside | (part.length == 0) {
        EMPTY
    } else if has_one_piece {
        EACH
    } else {
        part
    }
}

// Why this part of the export is no content for a request, where it may share nothing with the content of a message, if there is one.
fn misplaced(part: Part, request: &Request, before: &Told) -> &'static str {
    if request.head.command != commands::READ {
        "content answers only a READ"
    } else if outside(part, request.range()).length != 0 {
        "the content leaves the range of the READ"
    } else if meet(before.part, part) {
        "the content shares an offset with content before it"
    } else {
        "the READ has DF, so it gets one piece, and this is a second one"
    }
}
