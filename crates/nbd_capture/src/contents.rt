//! Contents texts: what an export holds, a line for each range.

ghost use Rattle.std.specs.Prelude.{◌≡◌, ◌+◌, ◌<◌, ◌^◌, [], ℕ, List, IfOk, IfErr, MatchResult, OnOk, length};
ghost use Rattle.nbd_export.specs.{Extents.size_of, Held.{Held, held}};
ghost use Rattle.nbd_capture.specs.{Contents.{IsContentsText, part, IsContentsFault}, internal.Telling.Seen, declared.contents.ContentsFault.TheVariants.Memory};

use crate::contents_line::{is_silent, size_on, take_line};
use crate::lines::first_line;
use nbd_export::{Contents, Extents, Start};
use std::alloc::{AllocError, Global};
use std::fmt;
use thiserror::Error;

/// Why a contents text gave no contents. Nothing is kept of a text after a fault.
#[derive(Clone, Copy, Drop, Error)]
pub enum ContentsFault {
    /// The line with this number, from 1, is the first bad one: it is malformed, it does not begin where the one before
    /// ended, it ends behind the size, or no LF follows it; or it is missing, and the text ends before its size.
    #[error("contents line {0}")]
    Line(u64),
    /// An allocation was refused.
    #[error("memory")]
    Memory,
}

// As it is printed, which is less to prove than what a derived one writes.
impl fmt::Debug for ContentsFault {
    fn fmt<W: fmt::Write>(&self, f: &mut fmt::Formatter<W>) -> fmt::Result {
        fmt::Display::fmt(self, f)
    }
}

impl From<AllocError> for ContentsFault {
    ghost from_gives = { λ _ e. e ≡ Memory };

    fn from(_e: AllocError) -> ContentsFault {
        ContentsFault::Memory
    }
}

/// What an export holds by a contents text.
///
/// Empty lines and lines that begin with `#` are skipped. The first other line is `size n`, with n below 2^63. Each later
/// one is `zero o n`, `unknown o n` or `data o hex`: from offset o on n zeroes, n unknown bytes, or these bytes, in an even
/// number of hexadecimal digits of either case; one byte or more. It begins where the one before ended, the first at 0, and
/// the last one ends at the size. Numbers are written as in an order text, with one space between two words, and LF ends
/// each line. This format is this project's choice.
/// What costs is the length of the text, and not how many bytes a line tells of. Memory may run out before a bad line is
/// reached.
pub fn parse_contents(alloc: Global, text: &[u8]) -> Result<Extents, ContentsFault>
    ensures contents { IfOk result (λ contents. IsContentsText text.now (held contents)) }
    ensures fault { IfErr result (IsContentsFault text.now) }
    // What reads as contents gives these, unless memory runs out.
    ensures only { (bytes : Held) → IsContentsText text.now bytes
        → MatchResult result (λ contents. held contents ≡ bytes) (λ e. e ≡ Memory) }
{
    let (size, lines, rest) = read_size(text)?;
    let mut contents = Extents::new(alloc, size, Start::Unknown)?;
    read_pieces(&mut contents, rest, lines, &mut Vec::new(alloc))?;
    Ok(contents)
}

// The size that a text states, how many lines that takes, and what stands behind them.
fn read_size(text: &[u8]) -> Result<(u64, u64, &[u8]), ContentsFault>
    ensures read { IfOk result (λ parts. Seen text.now parts.2.now parts.1 (part parts.0 [])) }
    ensures counted { IfOk result (λ parts. parts.1 + length parts.2.now < 2 ^ 63) }
    ensures fault { IfErr result (IsContentsFault text.now) }
{
    let mut rest = text;
    let mut number = 0;
    while let Some((line, after)) = first_line(rest) {
        number += 1;
        if !is_silent(line) {
            return match size_on(line) {
                None => Err(ContentsFault::Line(number)),
                Some(size) => Ok((size, number, after)),
            };
        }
        rest = after;
    }
    Err(ContentsFault::Line(number + 1))
}

// Lays the pieces that stand behind the lines up to the size into contents of which no byte was told. The buffer means
// nothing.
fn read_pieces(
    contents: &mut Extents,
    text: &[u8],
    lines: u64,
    buffer: &mut Vec<u8>,
) -> Result<(), ContentsFault>
    requires { lines + length text.now < 2 ^ 63 }
    ensures read { (whole : List ℕ) → Seen whole text.now lines (part (size_of contents.old) [])
        → OnOk result (IsContentsText whole (held contents.new)) }
    ensures fault { (whole : List ℕ) → Seen whole text.now lines (part (size_of contents.old) [])
        → IfErr result (IsContentsFault whole) }
{
    let mut rest = text;
    let mut number = lines;
    let mut at = 0;
    while let Some((line, after)) = first_line(rest) {
        number += 1;
        let Some(end) = take_line(contents, at, line, buffer)? else {
            return Err(ContentsFault::Line(number));
        };
        at = end;
        rest = after;
    }
    if !rest.is_empty() || at != contents.size() {
        return Err(ContentsFault::Line(number + 1));
    }
    Ok(())
}
