//! The lines of a contents text, one by one.

ghost use Rattle.std.specs.Prelude.{◌≡◌, ◌+◌, ◌++◌, ◌∷◌, [], ◌<◌, ◌≤◌, ◌^◌, ◌↔◌, ℕ, List, IfOk, IsTrue, MatchBool, MatchOption, length};
ghost use Rattle.nbd_export.specs.Extents.{byte_of, size_of};
ghost use Rattle.nbd_capture.specs.{Capture.{AreDigits, space}, Contents.{IsContentsLine, Piece, Told, known, nothing, part, unknown, word, zeroes}, Order.IsNumber, internal.Telling.{IsLaid, up_to, word_text}};

use crate::form::append_spelled;
use crate::lines::cut;
use crate::order::number_on;
use nbd_export::{Contents, Extents};
use std::alloc::AllocError;

// The greatest size of an export.
const MOST: u64 = (1 << 63) - 1;

// The first word of a line that tells of bytes.
#[derive(Clone, Copy, Drop)]
pub(crate) enum Word {
    Zero,
    Unknown,
    Data,
}

/// Whether a line tells nothing: it is empty, or begins with `#`.
pub(crate) fn is_silent(line: &[u8]) -> bool
    ensures { IsTrue result ↔ IsContentsLine nothing line.now nothing }
{
    match line {
        [] => true,
        [first, ..] => *first == b'#',
    }
}

/// The size that a line states.
pub(crate) fn size_on(line: &[u8]) -> Option<u64>
    ensures { MatchOption result
        ((n : ℕ) → IsContentsLine nothing line.now (part n []) → ⊥)
        (λ n. IsContentsLine nothing line.now (part n [])) }
{
    let (word, digits) = cut(b' ', line)?;
    if word != b"size".as_slice() {
        return None;
    }
    match number_on(digits) {
        Some(size) if size <= MOST => Some(size),
        _ => None,
    }
}

/// Lays what a line tells behind the bytes below an offset, and answers up to where bytes are told then; `None` where the
/// line is no line there. The buffer means nothing.
pub(crate) fn take_line(
    contents: &mut Extents,
    at: u64,
    line: &[u8],
    buffer: &mut Vec<u8>,
) -> Result<Option<u64>, AllocError>
    requires { at ≤ size_of contents.old }
    ensures size { size_of contents.new ≡ size_of contents.old }
    ensures taken { IfOk result (λ to. MatchOption to
        ((more : Told) → IsContentsLine (up_to contents.old at) line.now more → ⊥)
        (λ end. (end ≤ size_of contents.old)
        × IsContentsLine (up_to contents.old at) line.now (up_to contents.new end))) }
{
    if is_silent(line) {
        return Ok(Some(at));
    }
    match value_at(line, at) {
        None => Ok(None),
        Some((Word::Zero, value)) => lay_zeroes(contents, at, value),
        Some((Word::Unknown, value)) => lay_unknown(contents, at, value),
        Some((Word::Data, value)) => lay_bytes(contents, at, value, buffer),
    }
}

// The first and the last word of a line that tells of bytes from this offset on.
fn value_at(line: &[u8], at: u64) -> Option<(Word, &[u8])>
    ensures { MatchOption result
        ((p : Piece) (offset value : List ℕ) → IsNumber offset at
        → line.now ≡ word p ++ space ∷ (offset ++ space ∷ value) → ⊥)
        (λ parts. (offset : List ℕ) × IsNumber offset at
        × (line.now ≡ word_text parts.0 ++ space ∷ (offset ++ space ∷ parts.1.now))) }
{
    let (first, rest) = cut(b' ', line)?;
    let (offset, value) = cut(b' ', rest)?;
    match (word_on(first), number_on(offset)) {
        (Some(word), Some(from)) if from == at => Some((word, value)),
        _ => None,
    }
}

fn word_on(text: &[u8]) -> Option<Word>
    ensures { MatchOption result ((w : Word) → text.now ≡ word_text w → ⊥) (λ w. text.now ≡ word_text w) }
{
    if text == b"zero".as_slice() {
        return Some(Word::Zero);
    }
    if text == b"unknown".as_slice() {
        return Some(Word::Unknown);
    }
    if text == b"data".as_slice() {
        return Some(Word::Data);
    }
    None
}

fn lay_zeroes(contents: &mut Extents, at: u64, value: &[u8]) -> Result<Option<u64>, AllocError>
    requires { at ≤ size_of contents.old }
    ensures size { size_of contents.new ≡ size_of contents.old }
    ensures laid { IfOk result (IsLaid zeroes contents.old contents.new at value.now) }
{
    let Some(len) = len_on(value, contents.size() - at) else {
        return Ok(None);
    };
    contents.zero(at, len)?;
    Ok(Some(at + len))
}

fn lay_unknown(contents: &mut Extents, at: u64, value: &[u8]) -> Result<Option<u64>, AllocError>
    requires { at ≤ size_of contents.old }
    ensures size { size_of contents.new ≡ size_of contents.old }
    ensures laid { IfOk result (IsLaid unknown contents.old contents.new at value.now) }
{
    let Some(len) = len_on(value, contents.size() - at) else {
        return Ok(None);
    };
    contents.forget(at, len)?;
    Ok(Some(at + len))
}

fn lay_bytes(
    contents: &mut Extents,
    at: u64,
    value: &[u8],
    buffer: &mut Vec<u8>,
) -> Result<Option<u64>, AllocError>
    requires { at ≤ size_of contents.old }
    ensures size { size_of contents.new ≡ size_of contents.old }
    ensures laid { IfOk result (IsLaid known contents.old contents.new at value.now) }
{
    if !spell(value, buffer)? {
        return Ok(None);
    }
    let len = buffer.len() as u64;
    if len > contents.size() - at {
        return Ok(None);
    }
    contents.put(at, buffer.as_slice())?;
    Ok(Some(at + len))
}

// A number of bytes, from 1 up to how many there is room for.
fn len_on(digits: &[u8], room: u64) -> Option<u64>
    ensures { MatchOption result
        ((n : ℕ) → IsNumber digits.now n → 0 < n → n ≤ room → ⊥)
        (λ n. IsNumber digits.now n × (0 < n) × (n ≤ room)) }
{
    match number_on(digits) {
        Some(len) if len != 0 && len <= room => Some(len),
        _ => None,
    }
}

// Puts the bytes that digits spell into the buffer, in place of what it holds, and answers whether they spell one or more.
fn spell(digits: &[u8], buffer: &mut Vec<u8>) -> Result<bool, AllocError>
    ensures { IfOk result (λ spelled. MatchBool spelled
        (AreDigits digits.now buffer.new.items × (0 < length buffer.new.items))
        ((bytes : List ℕ) → AreDigits digits.now bytes → 0 < length bytes → ⊥)) }
{
    buffer.clear();
    if digits.is_empty() {
        return Ok(false);
    }
    if digits.len() % 2 != 0 {
        return Ok(false);
    }
    append_spelled(digits, buffer)
}
