//! The rules on requests (proto.md, "Request types", "Command flags").

use crate::notes::Notes;
use crate::numbers::{SECTOR, USUAL_LARGEST};
use crate::table::Name;
use crate::transmission::{Request, Transmission};
use nbd_state::has_range;
use nbd_wire::flags::has;
use nbd_wire::{RequestHead, command_flags, commands, transmission};

/// Judges a request, behind what came before it: a request that writes nothing has FUA, one comes behind ESHUTDOWN, and others.
pub fn judge_request(request: &Request, before: &Transmission, notes: &mut Notes) {
    let head = &request.head;
    let has_needless_fua = is_reading(head.command) & has_fua(head.flags, before);
    notes.speak_of(request);
    notes.note(Name::WriteWithoutPayloadLen, lacks_payload_len(head));
    notes.note(Name::Length0, asks_for_nothing(request));
    notes.note(Name::FuaOnReading, has_needless_fua);
    if notes.are_hinting {
        let eshutdown = before.eshutdown;
        notes.note_one(Name::RequestAfterEshutdown, request.is_late, eshutdown);
        judge_alignment(request, before, notes);
    }
}

/// Judges a DISC with these flags: it has a flag that it may not have, or FUA, or is sent before all replies came (proto.md,
/// "Terminating the transmission phase").
pub fn judge_disconnect(flags: u16, before: &Transmission, notes: &mut Notes) {
    let has_fua = has_fua(flags, before);
    let has_others = (flags != 0) & ((flags != command_flags::FUA) | !has_fua);
    notes.note_one(Name::DiscWithFlags, has_others, u64::from(flags));
    if has_fua {
        notes.tell(Name::FuaOnReading, 1, [0; 3]);
    }
    let open = before.open;
    notes.note_one(Name::DiscWithRequestsOutstanding, open != 0, open);
}

// Whether FUA is offered and set.
fn has_fua(flags: u16, before: &Transmission) -> bool {
    has(flags, command_flags::FUA) & has(before.export.flags, transmission::SEND_FUA)
}

// Whether a WRITE with an extended header lacks the flag for its payload.
fn lacks_payload_len(head: &RequestHead) -> bool {
    head.extended
        & (head.command == commands::WRITE)
        & (head.length != 0)
        & !has(head.flags, command_flags::PAYLOAD_LEN)
}

// Whether a request asks for nothing.
fn asks_for_nothing(request: &Request) -> bool {
    request.length == 0
        && match request.head.command {
            commands::READ | commands::WRITE | commands::TRIM | commands::WRITE_ZEROES => true,
            commands::BLOCK_STATUS => request.has_contexts,
            _ => false,
        }
}

// Whether requests of this type write nothing.
fn is_reading(command: u16) -> bool {
    matches!(
        command,
        commands::READ | commands::FLUSH | commands::CACHE | commands::BLOCK_STATUS
    )
}

// A request, other than BLOCK_STATUS, is not aligned to the preferred block size, or to what serves where none was announced; or it is longer than is in
// order there.
fn judge_alignment(request: &Request, before: &Transmission, notes: &mut Notes) {
    let (offset, length) = (request.head.offset, request.length);
    let (size, sentence) = match before.sizes.last {
        Some(sizes) => (u64::from(sizes.preferred), 1),
        None => (SECTOR, 0),
    };
    let command = request.head.command;
    let is_status = command == commands::BLOCK_STATUS;
    if !request.is_proper() | is_status | !has_range(command) {
        return;
    }
    if !is_aligned(request, before.export.size, size) {
        notes.tell(Name::RequestUnaligned, sentence, [offset, length, size]);
    } else if (sentence == 0) & is_long(request) {
        let most = u64::from(USUAL_LARGEST);
        notes.tell(Name::RequestUnaligned, 2, [offset, length, most]);
    }
}

// Whether the offset and the length are multiples of a size, or the range goes on to the export's end.
fn is_aligned(request: &Request, end: u64, size: u64) -> bool {
    request.head.offset.is_multiple_of(size)
        && (request.length.is_multiple_of(size) || request.end() == end)
}

// Whether the payload is longer than is in order where no sizes were announced.
fn is_long(request: &Request) -> bool {
    matches!(request.head.command, commands::READ | commands::WRITE)
        & (request.length > u64::from(USUAL_LARGEST))
}
