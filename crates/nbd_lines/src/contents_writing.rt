//! Printing what an export holds.

ghost use Rattle.std.specs.{Prelude.{◌≡◌, ◌+◌, ◌++◌, ◌∷◌, ◌-◌, ◌<◌, ◌≤◌, ◌^◌, [], IfOk, IsSome, OnErr, OnOk, length, take}, Fmt.decimal, Io.KnownBytes.Appends};
ghost use Rattle.nbd_export.specs.{Extents.{byte_of, size_of}, declared.kind.Kind.TheVariants.Bytes, Held.held};
ghost use Rattle.nbd_capture.specs.{Capture.space, Contents.{IsContentsText, are_zeroes, join, known, piece_line, piece_lines, printed, size_line}, Lines.line_feed, Writing.AppendsPrefix};
ghost use Rattle.nbd_lines.specs.internal.{AreBytes, left, piece_of, run_line};

use crate::chunk_writing::write_digits;
use itoa::Buffer;
use nbd_capture::{WriteFault, write_whole};
use nbd_export::{Contents, Extents, Kind};
use std::io::Write;

// Known bytes are cut at each multiple of this.
const CELL: u64 = 32;

/// Writes what an export holds as a contents text, in the one form in which it is printed: known bytes by pieces that
/// end at each multiple of 32, and a line for each such piece, for neighbouring pieces of zeroes and for neighbouring
/// unknown bytes.
///
/// The lines are written as they are made, and it takes no memory. It costs the bytes that are written down, and not how
/// many zeroes and unknown bytes there are. After a fault a prefix of the lines, possibly nothing, stands written, and
/// nothing is tried again. What stands is said where the writer states its bytes.
pub fn write_contents<W: Write>(out: &mut W, contents: &Extents) -> Result<(), WriteFault>
    ensures ok { OnOk result
        (Appends (W.contents out.old) (W.contents out.new) (printed (held contents.now))) }
    ensures err { OnErr result
        (AppendsPrefix (W.contents out.old) (W.contents out.new) (printed (held contents.now))) }
    // What was written is read as the same contents, where a size in a text can be so large.
    ensures read { OnOk result (size_of contents.now < 2 ^ 63
        → IsContentsText (printed (held contents.now)) (held contents.now)) }
{
    write_size(out, contents.size())?;
    write_pieces(out, contents)
}

// The lines of all pieces.
fn write_pieces<W: Write>(out: &mut W, contents: &Extents) -> Result<(), WriteFault>
    ensures ok { OnOk result
        (Appends (W.contents out.old) (W.contents out.new) (piece_lines 0 (left contents.now 0))) }
    ensures err { OnErr result
        (AppendsPrefix (W.contents out.old) (W.contents out.new) (piece_lines 0 (left contents.now 0))) }
    ensures bytes { OnOk result (AreBytes contents.now 0 (size_of contents.now)) }
{
    let size = contents.size();
    let mut buffer = [0; 32];
    // What the bytes before `at` are whose line is not written yet, and where they begin; bytes have their lines.
    let mut kind = Kind::Bytes;
    let mut from = 0;
    let mut at = 0;
    while at < size {
        let (next, end) = piece_at(contents, at, &mut buffer);
        from = write_before(out, kind, next, from, at)?;
        if next == Kind::Bytes {
            write_bytes(out, at, &buffer[..(end - at) as usize])?;
        }
        kind = next;
        at = end;
    }
    write_run(out, kind, from, at)
}

// The next piece: what it tells, and where it ends. Its bytes are put into the buffer.
fn piece_at(contents: &Extents, at: u64, buffer: &mut [u8; 32]) -> (Kind, u64)
    requires { at < size_of contents.now }
    ensures behind { at < result.1 }
    ensures within { result.1 ≤ size_of contents.now }
    ensures few { result.0 ≡ Bytes → result.1 - at ≤ 32 }
    ensures bytes { AreBytes contents.now at result.1 }
    ensures piece { left contents.now at
        ≡ join (piece_of result.0 (result.1 - at) (take (result.1 - at) buffer.new)) (left contents.now result.1) }
{
    let (kind, end) = contents.range_at(at);
    let cut = end - end % CELL;
    match kind {
        Kind::Unknown => (Kind::Unknown, end),
        Kind::Zeroes if at < cut => (Kind::Zeroes, cut),
        _ => known_at(contents, at, buffer),
    }
}

// The same where the next byte is known: up to the next cut.
fn known_at(contents: &Extents, at: u64, buffer: &mut [u8; 32]) -> (Kind, u64)
    requires inside { at < size_of contents.now }
    requires known { IsSome (byte_of contents.now at) }
    ensures behind { at < result.1 }
    ensures within { result.1 ≤ size_of contents.now }
    ensures few { result.1 - at ≤ 32 }
    ensures bytes { AreBytes contents.now at result.1 }
    ensures piece { left contents.now at
        ≡ join (piece_of result.0 (result.1 - at) (take (result.1 - at) buffer.new)) (left contents.now result.1) }
{
    let room = (CELL - at % CELL).min(contents.size() - at) as usize;
    let len = contents.read_known(at, &mut buffer[..room]);
    let kind = if are_zeroes(&buffer[..len]) {
        Kind::Zeroes
    } else {
        Kind::Bytes
    };
    (kind, at + len as u64)
}

// Whether each of these bytes is 0.
fn are_zeroes(bytes: &[u8]) -> bool
    ensures { result ≡ are_zeroes bytes.now }
{
    for byte in bytes {
        if *byte != 0 {
            return false;
        }
    }
    true
}

// The line of the size.
fn write_size<W: Write>(out: &mut W, size: u64) -> Result<(), WriteFault>
    ensures ok { OnOk result (Appends (W.contents out.old) (W.contents out.new) (size_line size)) }
    ensures err { OnErr result (AppendsPrefix (W.contents out.old) (W.contents out.new) (size_line size)) }
{
    write_whole(out, b"size ")?;
    write_number(out, size)?;
    write_whole(out, b"\n")
}

// The line of a run, where the next piece is of another kind. Answers where the run begins to which that piece belongs.
fn write_before<W: Write>(
    out: &mut W,
    kind: Kind,
    next: Kind,
    from: u64,
    at: u64,
) -> Result<u64, WriteFault>
    requires { from ≤ at }
    ensures same { kind ≡ next → IfOk result (λ begun. (begun ≡ from)
        × Appends (W.contents out.old) (W.contents out.new) []) }
    ensures other { (kind ≡ next → ⊥) → IfOk result (λ begun. (begun ≡ at)
        × Appends (W.contents out.old) (W.contents out.new) (run_line kind from (at - from))) }
    ensures err { OnErr result ((kind ≡ next → ⊥)
        × AppendsPrefix (W.contents out.old) (W.contents out.new) (run_line kind from (at - from))) }
{
    if kind == next {
        return Ok(from);
    }
    write_run(out, kind, from, at)?;
    Ok(at)
}

// The line of zeroes or of unknown bytes; nothing where the kind is bytes.
fn write_run<W: Write>(out: &mut W, kind: Kind, from: u64, to: u64) -> Result<(), WriteFault>
    requires { from ≤ to }
    ensures ok { OnOk result
        (Appends (W.contents out.old) (W.contents out.new) (run_line kind from (to - from))) }
    ensures err { OnErr result
        (AppendsPrefix (W.contents out.old) (W.contents out.new) (run_line kind from (to - from))) }
{
    match kind {
        Kind::Unknown => write_count(out, b"unknown ", from, to - from),
        Kind::Zeroes => write_count(out, b"zero ", from, to - from),
        Kind::Bytes => Ok(()),
    }
}

// A line of a word with its space, an offset and a number of bytes.
fn write_count<W: Write>(out: &mut W, word: &[u8], offset: u64, len: u64) -> Result<(), WriteFault>
    ensures ok { OnOk result (Appends (W.contents out.old) (W.contents out.new)
        ((word.now ++ (decimal offset ++ space ∷ [])) ++ (decimal len ++ line_feed ∷ []))) }
    ensures err { OnErr result (AppendsPrefix (W.contents out.old) (W.contents out.new)
        ((word.now ++ (decimal offset ++ space ∷ [])) ++ (decimal len ++ line_feed ∷ []))) }
{
    write_head(out, word, offset)?;
    write_number(out, len)?;
    write_whole(out, b"\n")
}

// The line of bytes.
fn write_bytes<W: Write>(out: &mut W, offset: u64, bytes: &[u8]) -> Result<(), WriteFault>
    ensures ok { OnOk result
        (Appends (W.contents out.old) (W.contents out.new) (piece_line offset (known bytes.now))) }
    ensures err { OnErr result
        (AppendsPrefix (W.contents out.old) (W.contents out.new) (piece_line offset (known bytes.now))) }
{
    write_head(out, b"data ", offset)?;
    write_digits(out, bytes)?;
    write_whole(out, b"\n")
}

// A word with its space, an offset and a space.
fn write_head<W: Write>(out: &mut W, word: &[u8], offset: u64) -> Result<(), WriteFault>
    ensures ok { OnOk result (Appends (W.contents out.old) (W.contents out.new)
        (word.now ++ (decimal offset ++ space ∷ []))) }
    ensures err { OnErr result (AppendsPrefix (W.contents out.old) (W.contents out.new)
        (word.now ++ (decimal offset ++ space ∷ []))) }
{
    write_whole(out, word)?;
    write_number(out, offset)?;
    write_whole(out, b" ")
}

fn write_number<W: Write>(out: &mut W, number: u64) -> Result<(), WriteFault>
    ensures ok { OnOk result (Appends (W.contents out.old) (W.contents out.new) (decimal number)) }
    ensures err { OnErr result (AppendsPrefix (W.contents out.old) (W.contents out.new) (decimal number)) }
{
    let mut buffer = Buffer::new();
    write_whole(out, buffer.format(number).as_bytes())
}
