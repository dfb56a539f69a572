//! What the data of options and of their answers state (proto.md, "Option types", "Option reply
//! types").
//!
//! A reader is given the whole data. It returns `Some` exactly where they have the form, and takes
//! no memory.

ghost use Rattle.std.specs.{Prelude.{◌≡◌, ℕ, List, IfSome, is_some}, Option.option_map};
ghost use Rattle.nbd_wire.specs.{protocol.{Contexts.Context, Forms.{HasContextForm, HasGoForm, HasInfoForm, HasListedForm, HasQueriesForm}, Payloads.{are_queries, context_of, info_of, is_go, is_listed, name_in, queries_of}}, codec.Contents.{Reads, ReadsAs}};

use crate::numbers::{u16_at, u32_at, u64_at};
use crate::{Info, infos};

/// The length of what an INFO answer states of an export, in bytes.
const EXPORT_LENGTH: usize = 12;
/// The length of what an INFO answer states of block sizes, in bytes.
const BLOCK_SIZE_LENGTH: usize = 14;

/// What an INFO answer states. Of other kinds than EXPORT and BLOCK_SIZE only the number is read.
pub fn info_of(bytes: &[u8]) -> Option<Info>
    ensures form { Reads result (λ info. HasInfoForm info bytes.now) }
    ensures same { result ≡ info_of bytes.now }
{
    if bytes.len() < 2 {
        return None;
    }
    match u16_at(bytes, 0) {
        infos::EXPORT if bytes.len() == EXPORT_LENGTH => Some(Info::Export {
            size: u64_at(bytes, 2),
            flags: u16_at(bytes, 10),
        }),
        infos::BLOCK_SIZE if bytes.len() == BLOCK_SIZE_LENGTH => Some(Info::BlockSize {
            least: u32_at(bytes, 2),
            preferred: u32_at(bytes, 6),
            most: u32_at(bytes, 10),
        }),
        infos::EXPORT | infos::BLOCK_SIZE => None,
        kind => Some(Info::Other { kind }),
    }
}

/// The name and the free text in a SERVER answer.
pub fn listed_of(bytes: &[u8]) -> Option<(&[u8], &[u8])>
    ensures form { ReadsAs {B = List ℕ × List ℕ} (λ v. (v.0.now, v.1.now)) result
        (λ v. HasListedForm v.0 v.1 bytes.now) }
    ensures same { is_some result ≡ is_listed bytes.now }
{
    if bytes.len() < 4 {
        return None;
    }
    let length = u32_at(bytes, 0) as usize;
    bytes[4..].split_at_checked(length)
}

/// The name in data that begin with a name's length and the name, and none where they are too short.
pub fn name_in(bytes: &[u8]) -> &[u8]
    ensures { result.now ≡ name_in bytes.now }
{
    match listed_of(bytes) {
        Some((name, _)) => name,
        None => &[],
    }
}

/// The name in the data of INFO or GO, and of how many kinds of information the client asks, two
/// bytes each.
pub fn go_of(bytes: &[u8]) -> Option<(&[u8], u16)>
    ensures form { ReadsAs {B = List ℕ × ℕ} (λ v. (v.0.now, v.1)) result
        (λ v. HasGoForm v.0 v.1 bytes.now) }
    ensures same { is_some result ≡ is_go bytes.now }
{
    let (name, rest) = listed_of(bytes)?;
    if rest.len() < 2 {
        return None;
    }
    let count = u16_at(rest, 0);
    if rest.len() != 2 + 2 * usize::from(count) {
        return None;
    }
    Some((name, count))
}

/// The name of the export in the data of LIST_META_CONTEXT or SET_META_CONTEXT, and how many queries stand behind it.
pub fn queries_of(bytes: &[u8]) -> Option<(&[u8], u32)>
    ensures form { ReadsAs {B = List ℕ × ℕ} (λ v. (v.0.now, v.1)) result
        (λ v. HasQueriesForm v.0 v.1 bytes.now) }
    ensures count { option_map (λ v. v.1) result ≡ queries_of bytes.now }
    ensures name { IfSome result (λ v. v.0.now ≡ name_in bytes.now) }
{
    let (name, rest) = listed_of(bytes)?;
    if rest.len() < 4 {
        return None;
    }
    let count = u32_at(rest, 0);
    if !are_queries(count, &rest[4..]) {
        return None;
    }
    Some((name, count))
}

// Whether these are so many queries, each after its length, and no more.
fn are_queries(count: u32, bytes: &[u8]) -> bool
    ensures { result ≡ are_queries count bytes.now }
{
    let mut rest = bytes;
    let mut left = count;
    while left > 0 {
        let Some((_, behind)) = listed_of(rest) else {
            return false;
        };
        rest = behind;
        left -= 1;
    }
    rest.is_empty()
}

/// The id and the name in a META_CONTEXT answer.
pub fn context_of(bytes: &[u8]) -> Option<(u32, &[u8])>
    ensures form { ReadsAs {B = Context} (λ v. record { id = v.0; name = v.1.now }) result
        (λ context. HasContextForm context bytes.now) }
    ensures same { option_map (λ v. record { id = v.0; name = v.1.now }) result ≡ context_of bytes.now }
{
    if bytes.len() < 4 {
        return None;
    }
    Some((u32_at(bytes, 0), &bytes[4..]))
}
