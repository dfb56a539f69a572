//! What the payloads of chunks state (proto.md, "Structured reply types").
//!
//! A reader is given a chunk's type and its whole payload. It returns `Some` exactly where the
//! payload has a form of that type, and takes no memory.

ghost use Rattle.std.specs.{Prelude.{◌≡◌, ◌∷◌, [], MatchOption, true, false}, Option.option_map};
ghost use Rattle.nbd_wire.specs.{codec.Contents.{extent_of, piece_of, Reads, ReadsAs}, protocol.{Contexts.Status, Forms.{HasContentForm, HasFailureForm, HasStatusForm}, Payloads.{content_of, extents_of, failure_of, has_empty, status_of}, Transmission.read_as}};

use crate::chunks::{ERROR, ERROR_OFFSET, FIRST_ERROR, OFFSET_DATA, OFFSET_HOLE};
use crate::numbers::{u16_at, u32_at, u64_at};
use crate::{Content, Extent, Failure, Profile};

/// Where an OFFSET_DATA chunk's data begin, in bytes; they are not empty.
const DATA: usize = 8;
/// The length of an OFFSET_HOLE chunk's payload, in bytes.
const HOLE_LENGTH: usize = 12;
/// Where an error chunk's message begins, in bytes.
const MESSAGE: usize = 6;
/// Where the descriptors of a status chunk begin, in bytes, and the length of each.
const DESCRIPTORS: usize = 4;

const DESCRIPTOR_LENGTH: usize = 8;
/// The same of a chunk with an extended header.
const WIDE_DESCRIPTORS: usize = 8;

const WIDE_DESCRIPTOR_LENGTH: usize = 16;

/// The bytes or the hole in a content chunk's payload.
pub fn content_of(kind: u16, bytes: &[u8]) -> Option<Content<'_>>
    ensures form { ReadsAs piece_of result (λ piece. HasContentForm kind piece bytes.now) }
    ensures same { option_map piece_of result ≡ content_of kind bytes.now }
{
    match kind {
        OFFSET_DATA => data_of(bytes),
        OFFSET_HOLE => hole_of(bytes),
        _ => None,
    }
}

// The bytes in the payload of an OFFSET_DATA chunk.
fn data_of(bytes: &[u8]) -> Option<Content<'_>>
    ensures { option_map piece_of result ≡ content_of OFFSET_DATA bytes.now }
{
    if bytes.len() <= DATA {
        return None;
    }
    Some(Content::Bytes {
        offset: u64_at(bytes, 0),
        bytes: &bytes[DATA..],
    })
}

// The hole in the payload of an OFFSET_HOLE chunk.
fn hole_of(bytes: &[u8]) -> Option<Content<'_>>
    ensures { option_map piece_of result ≡ content_of OFFSET_HOLE bytes.now }
{
    if bytes.len() != HOLE_LENGTH {
        return None;
    }
    let size = u64::from(u32_at(bytes, 8));
    if size == 0 {
        return None;
    }
    Some(Content::Hole {
        offset: u64_at(bytes, 0),
        size,
    })
}

/// The type as which a session of this profile reads a chunk: in `Wide` one of an error that is not known says what an ERROR
/// says (proto.md, "Structured reply types").
pub fn read_as(profile: Profile, kind: u16) -> u16
    ensures { result ≡ read_as profile kind }
{
    match profile {
        Profile::Wide if kind >= FIRST_ERROR && kind != ERROR_OFFSET => ERROR,
        _ => kind,
    }
}

/// The error in an error chunk's payload. The message after it is not read, nor are bytes after
/// the last field.
pub fn failure_of(kind: u16, bytes: &[u8]) -> Option<Failure>
    ensures form { Reads result (λ failure. HasFailureForm kind failure bytes.now) }
    ensures same { result ≡ failure_of kind bytes.now }
{
    if bytes.len() < MESSAGE {
        return None;
    }
    let error = u32_at(bytes, 0);
    if error == 0 {
        return None;
    }
    let end = MESSAGE + usize::from(u16_at(bytes, 4));
    match kind {
        ERROR => {
            if bytes.len() < end {
                return None;
            }
            Some(Failure {
                error,
                offset: None,
            })
        }
        ERROR_OFFSET => {
            if bytes.len() < end + 8 {
                return None;
            }
            Some(Failure {
                error,
                offset: Some(u64_at(bytes, end)),
            })
        }
        _ => None,
    }
}

/// The id of the context in a status chunk's payload, and its descriptors: one or more, each a length
/// above 0 and flags, four bytes each.
pub fn status_of(bytes: &[u8]) -> Option<(u32, &[u8])>
    ensures form { ReadsAs {B = Status} (λ v. record { id = v.0; extents = extents_of false v.1.now }) result
        (λ status. HasStatusForm false status bytes.now) }
    ensures same { option_map (λ v. record { id = v.0; extents = extents_of false v.1.now }) result
        ≡ status_of false bytes.now }
{
    if bytes.len() < DESCRIPTORS + DESCRIPTOR_LENGTH
        || (bytes.len() - DESCRIPTORS) % DESCRIPTOR_LENGTH != 0
    {
        return None;
    }
    let descriptors = &bytes[DESCRIPTORS..];
    if is_one_empty(false, descriptors) {
        return None;
    }
    Some((u32_at(bytes, 0), descriptors))
}

/// The same in a chunk with an extended header: behind the id stands how many descriptors come, and their numbers have eight bytes.
pub fn status_ext_of(bytes: &[u8]) -> Option<(u32, &[u8])>
    ensures form { ReadsAs {B = Status} (λ v. record { id = v.0; extents = extents_of true v.1.now }) result
        (λ status. HasStatusForm true status bytes.now) }
    ensures same { option_map (λ v. record { id = v.0; extents = extents_of true v.1.now }) result
        ≡ status_of true bytes.now }
{
    if bytes.len() < WIDE_DESCRIPTORS + WIDE_DESCRIPTOR_LENGTH {
        return None;
    }
    let (id, count) = (u32_at(bytes, 0), u32_at(bytes, 4));
    let descriptors = &bytes[WIDE_DESCRIPTORS..];
    if descriptors.len() as u64 != 16 * u64::from(count) || is_one_empty(true, descriptors) {
        return None;
    }
    Some((id, descriptors))
}

/// The first of the descriptors that these bytes are, and the bytes of the others.
pub fn first_extent(extended: bool, descriptors: &[u8]) -> Option<(Extent, &[u8])>
    ensures { MatchOption result (extents_of extended descriptors.now ≡ [])
        (λ v. extents_of extended descriptors.now ≡ extent_of v.0 ∷ extents_of extended v.1.now) }
{
    if extended {
        first_wide(descriptors)
    } else {
        first_short(descriptors)
    }
}

// The first descriptor of a chunk without an extended header.
fn first_short(descriptors: &[u8]) -> Option<(Extent, &[u8])>
    ensures { MatchOption result (extents_of false descriptors.now ≡ [])
        (λ v. extents_of false descriptors.now ≡ extent_of v.0 ∷ extents_of false v.1.now) }
{
    if descriptors.len() < DESCRIPTOR_LENGTH {
        return None;
    }
    let first = Extent {
        length: u64::from(u32_at(descriptors, 0)),
        flags: u64::from(u32_at(descriptors, 4)),
    };
    Some((first, &descriptors[DESCRIPTOR_LENGTH..]))
}

// The first descriptor of a chunk with an extended header.
fn first_wide(descriptors: &[u8]) -> Option<(Extent, &[u8])>
    ensures { MatchOption result (extents_of true descriptors.now ≡ [])
        (λ v. extents_of true descriptors.now ≡ extent_of v.0 ∷ extents_of true v.1.now) }
{
    if descriptors.len() < WIDE_DESCRIPTOR_LENGTH {
        return None;
    }
    let first = Extent {
        length: u64_at(descriptors, 0),
        flags: u64_at(descriptors, 8),
    };
    Some((first, &descriptors[WIDE_DESCRIPTOR_LENGTH..]))
}

// Whether one of the descriptors is of no byte.
fn is_one_empty(extended: bool, descriptors: &[u8]) -> bool
    ensures { result ≡ has_empty (extents_of extended descriptors.now) }
{
    let mut rest = descriptors;
    while let Some((extent, later)) = first_extent(extended, rest) {
        if extent.length == 0 {
            return true;
        }
        rest = later;
    }
    false
}
