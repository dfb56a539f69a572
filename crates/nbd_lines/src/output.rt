//! Writing messages to a writer: as their lines, and as chunk lines of a capture.

ghost use Rattle.std.specs.{Prelude.{◌≡◌, OnOk, OnErr}, Io.KnownBytes.Appends, List.AllByRecursion};
ghost use Rattle.nbd_wire.specs.codec.Fits.{FitsItsHead};
ghost use Rattle.nbd_capture.specs.Writing.{AppendsPrefix};
ghost use Rattle.nbd_lines.specs.{Script.{chunk_lines, message_lines}, MakeCommand.of_output, declared.output.OutputFault.TheVariants.{Memory, Write}};

use crate::chunk_writing::write_chunk;
use crate::printing::append_line;
use nbd_capture::{WriteFault, write_whole};
use nbd_files::RunFault;
use nbd_wire::{Message, append, side_of};
use std::alloc::{AllocError, Global};
use std::{fmt, io};
use thiserror::Error;

/// Why not all of an output was written.
#[derive(Clone, Copy, Drop, Error)]
pub enum OutputFault {
    /// The writer failed, or took no byte.
    #[error("write")]
    Write,
    /// An allocation was refused.
    #[error("memory")]
    Memory,
}

// As it is printed, which is less to prove than what a derived one writes.
impl fmt::Debug for OutputFault {
    fn fmt<W: fmt::Write>(&self, f: &mut fmt::Formatter<W>) -> fmt::Result {
        fmt::Display::fmt(self, f)
    }
}

impl From<AllocError> for OutputFault {
    ghost from_gives = { λ _ e. e ≡ Memory };

    fn from(_e: AllocError) -> OutputFault {
        OutputFault::Memory
    }
}

impl From<WriteFault> for OutputFault {
    ghost from_gives = { λ _ e. e ≡ Write };

    fn from(_e: WriteFault) -> OutputFault {
        OutputFault::Write
    }
}

/// Writes the lines of these messages in their order, each with its LF.
///
/// Each line is made in memory and written whole. After a fault a prefix of the lines, possibly nothing,
/// stands written, and nothing is tried again. What stands is said where the writer states its bytes.
pub fn show<W: io::Write>(
    alloc: Global,
    messages: &[Message],
    out: &mut W,
) -> Result<(), OutputFault>
    ensures ok { OnOk result
        (Appends (W.contents out.old) (W.contents out.new) (message_lines messages.now)) }
    ensures err { OnErr result
        (AppendsPrefix (W.contents out.old) (W.contents out.new) (message_lines messages.now)) }
{
    show_by(&mut Vec::new(alloc), messages, out)
}

/// The same, where each line is made in this list, which need not be empty: whoever has more messages later hands it in again.
pub fn show_by<W: io::Write>(
    line: &mut Vec<u8>,
    messages: &[Message],
    out: &mut W,
) -> Result<(), OutputFault>
    ensures ok { OnOk result
        (Appends (W.contents out.old) (W.contents out.new) (message_lines messages.now)) }
    ensures err { OnErr result
        (AppendsPrefix (W.contents out.old) (W.contents out.new) (message_lines messages.now)) }
{
    for message in messages {
        line.clear();
        append_line(line, message)?;
        line.extend_from_slice(b"\n")?;
        write_whole(out, line.as_slice())?;
    }
    Ok(())
}

/// Writes one chunk line for each of these messages, in their order: with its sender, and with all of its
/// bytes in lower case digits.
///
/// A message's bytes are made in memory first. After a fault a prefix of the lines, possibly nothing, stands
/// written, and nothing is tried again. What stands is said where the writer states its bytes.
pub fn write_chunks<W: io::Write>(
    alloc: Global,
    messages: &[Message],
    out: &mut W,
) -> Result<(), OutputFault>
    requires { AllByRecursion FitsItsHead messages.now }
    ensures ok { OnOk result
        (Appends (W.contents out.old) (W.contents out.new) (chunk_lines messages.now)) }
    ensures err { OnErr result
        (AppendsPrefix (W.contents out.old) (W.contents out.new) (chunk_lines messages.now)) }
{
    let mut bytes = Vec::new(alloc);
    for message in messages {
        bytes.clear();
        append(&mut bytes, message)?;
        write_chunk(out, side_of(message), bytes.as_slice())?;
    }
    Ok(())
}

impl From<OutputFault> for RunFault {
    ghost from_gives = { λ fault run. run ≡ of_output fault };

    fn from(fault: OutputFault) -> RunFault {
        match fault {
            OutputFault::Write => RunFault::Write,
            OutputFault::Memory => RunFault::Memory,
        }
    }
}
