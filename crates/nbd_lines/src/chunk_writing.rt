//! Writing a chunk line, and the digits of bytes.

ghost use Rattle.std.specs.{Prelude.{◌≡◌, OnOk, OnErr}, Io.KnownBytes.Appends};
ghost use Rattle.hex.specs.Hex.{encode_lower};
ghost use Rattle.nbd_capture.specs.{Capture.{chunk_line, letter}, Writing.AppendsPrefix};

use nbd_capture::{WriteFault, write_whole};
use nbd_wire::Side;
use std::io::Write;

// So many bytes have their digits in the buffer at once.
const PIECE: usize = 512;

const PIECE_DIGITS: usize = 1024;

/// Writes one chunk line, with lower case digits and its LF.
///
/// It calls `write` until the whole line is taken, and tries nothing again. After a fault a prefix of
/// the line, possibly nothing, stands written. What stands is said where the writer states its bytes.
/// It takes no memory.
pub fn write_chunk<W: Write>(out: &mut W, side: Side, bytes: &[u8]) -> Result<(), WriteFault>
    ensures ok { OnOk result
        (Appends (W.contents out.old) (W.contents out.new) (chunk_line side bytes.now)) }
    ensures err { OnErr result
        (AppendsPrefix (W.contents out.old) (W.contents out.new) (chunk_line side bytes.now)) }
{
    write_whole(out, &[letter_of(side), b' '])?;
    write_digits(out, bytes)?;
    write_whole(out, b"\n")
}

fn letter_of(side: Side) -> u8
    ensures { result ≡ letter side }
{
    match side {
        Side::Client => b'C',
        Side::Server => b'S',
    }
}

// The digits of the bytes, a piece at a time.
pub(crate) fn write_digits<W: Write>(out: &mut W, bytes: &[u8]) -> Result<(), WriteFault>
    ensures ok { OnOk result
        (Appends (W.contents out.old) (W.contents out.new) (encode_lower bytes.now)) }
    ensures err { OnErr result
        (AppendsPrefix (W.contents out.old) (W.contents out.new) (encode_lower bytes.now)) }
{
    let mut buffer = [0; PIECE_DIGITS];
    let mut rest = bytes;
    while !rest.is_empty() {
        let (piece, after) = rest.split_at(rest.len().min(PIECE));
        let digits = &mut buffer[..2 * piece.len()];
        hex::encode_to_slice(piece, digits).unwrap();
        write_whole(out, digits)?;
        rest = after;
    }
    Ok(())
}
