//! Writing bytes to a writer.

ghost use Rattle.std.specs.{Prelude.{OnOk, OnErr}, Io.KnownBytes.Appends};
ghost use Rattle.nbd_capture.specs.Writing.{AppendsPrefix};

use std::io::Write;
use thiserror::Error;

/// A `write` failed, which an interruption is too, or took no byte.
#[derive(Clone, Copy, Debug, Drop, Error)]
#[error("write")]
pub struct WriteFault;

/// Writes all of these bytes by calls of `write`; after a fault a prefix of them stands written, and nothing
/// is tried again. It takes no memory.
pub fn write_whole<W: Write>(out: &mut W, bytes: &[u8]) -> Result<(), WriteFault>
    ensures ok { OnOk result (Appends (W.contents out.old) (W.contents out.new) bytes.now) }
    ensures err { OnErr result (AppendsPrefix (W.contents out.old) (W.contents out.new) bytes.now) }
{
    let mut rest = bytes;
    while !rest.is_empty() {
        match out.write(rest) {
            Ok(0) | Err(_) => return Err(WriteFault),
            Ok(taken) => rest = &rest[taken..],
        }
    }
    Ok(())
}
