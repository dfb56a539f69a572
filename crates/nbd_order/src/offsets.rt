//! What a request does at one offset.

ghost use Rattle.std.specs.Prelude.{◌≡◌, IsTrue, MatchBool, MatchOption, true, false, slice_get, unwrap_or, None};
ghost use Rattle.nbd_export.specs.Held.{held};
ghost use Rattle.nbd_judge.specs.Beginnings.{initial_of};
ghost use Rattle.nbd_state.specs.Transcripts.{report_of_request};
ghost use Rattle.nbd_wire.specs.protocol.Explains as explains;
ghost use Rattle.nbd_wire.specs.protocol.ExportBytes as bytes;
ghost use Rattle.nbd_wire.specs.protocol.Operations as operations;
ghost use Rattle.nbd_wire.specs.Prelude.{byte_at, holds, is_in, piece_byte};
ghost use Rattle.nbd_order.specs.internal.{differs, gives_byte, reads_at, Refutations.{HasGot, IsBefore, IsChangeAt, IsOther, IsReadAt}};

use crate::due::{due_at, is_below};
use nbd_export::{Contents, Extents, Start};
use nbd_session::{Asked, Transcript};
use nbd_state::byte_read;
use nbd_wire::{Profile, commands};

/// Whether request `k` is a READ, or a BLOCK_STATUS that calls the offset zero, which succeeded, with the offset inside it, and
/// which was due there.
pub fn is_read_at(profile: Profile, transcript: &Transcript, k: u64, offset: u64) -> bool
    ensures { IsTrue result → IsReadAt profile transcript.now offset k }
{
    match transcript.asked(k) {
        Some(one) => reads_at(profile, transcript, one, offset),
        None => false,
    }
}

// Whether the request is such a one.
fn reads_at(profile: Profile, transcript: &Transcript, one: &Asked, offset: u64) -> bool
    ensures { result ≡ reads_at profile transcript.now.export (report_of_request one.now) offset }
{
    let size = match transcript.export() {
        Some((size, _)) => size,
        None => 0,
    };
    gives_byte(one, offset)
        && one.succeeded()
        && due_at(profile, transcript, one, offset).is_some()
        && one.has(offset)
        && offset < size
}

// Whether it is a READ, or a proper BLOCK_STATUS that calls the offset zero.
fn gives_byte(one: &Asked, offset: u64) -> bool
    ensures { result ≡ gives_byte (report_of_request one.now) offset }
{
    one.command == commands::READ
        || one.command == commands::BLOCK_STATUS
            && one.proper
            && byte_read(&one.pieces, offset).is_some()
}

/// Whether request `k` is a WRITE, TRIM or WRITE_ZEROES with the offset in its range.
pub fn is_change_at(transcript: &Transcript, k: u64, offset: u64) -> bool
    ensures { IsTrue result → IsChangeAt transcript.now offset k }
{
    match transcript.asked(k) {
        Some(one) => one.touches(offset),
        None => false,
    }
}

/// The byte that request `k` gave at the offset, if there is one.
pub fn byte_got(transcript: &Transcript, k: u64, offset: u64) -> Option<u8>
    ensures { HasGot transcript.now offset k result }
{
    match transcript.asked(k) {
        Some(one) => byte_read(&one.pieces, offset),
        None => None,
    }
}

/// Whether the byte is known, and request `k` gave another one at the offset.
pub fn is_other(transcript: &Transcript, k: u64, offset: u64, byte: Option<u8>) -> bool
    ensures { IsTrue result → IsOther transcript.now offset k byte }
{
    differs(byte, byte_got(transcript, k, offset))
}

/// Whether each entry that serves the offset of request `j` surely stands before each of request `k`. Its messages are gone through
/// only where `k` completed between the first and the last one of them.
pub fn is_before(profile: Profile, transcript: &Transcript, offset: u64, j: u64, k: u64) -> bool
    ensures { IsTrue result → IsBefore profile transcript.now offset j k }
{
    match transcript.asked(j) {
        Some(one) => {
            is_below(one.known_at, k)
                && (is_below(one.ended_at, k)
                    || is_below(due_at(profile, transcript, one, offset), k))
        }
        None => false,
    }
}

/// The byte that the start has at an offset, if it is known.
pub fn start_byte(start: &Start, offset: u64) -> Option<u8>
    ensures { result ≡ explains.start_byte (initial_of start.now) offset }
{
    match start {
        Start::Unknown => None,
        Start::Zeroes => Some(0),
        Start::Image(image) => image.get(offset as usize).copied(),
        Start::Contents(contents) => given_byte(contents, offset),
    }
}

// The byte that contents have at an offset, if they have one there and it is known.
fn given_byte(contents: &Extents, offset: u64) -> Option<u8>
    ensures { result ≡ unwrap_or (slice_get (held contents.now) offset) None }
{
    if offset < contents.size() {
        contents.byte_at(offset)
    } else {
        None
    }
}

/// Whether the byte is known and is not the one that was read.
pub fn differs(byte: Option<u8>, read: Option<u8>) -> bool
    ensures { result ≡ differs byte read }
{
    byte.is_some() && byte != read
}
