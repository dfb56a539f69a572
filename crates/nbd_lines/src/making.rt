//! A script as a capture.

ghost use Rattle.std.specs.Prelude.{◌≡◌, IfErr, OnOk};
ghost use Rattle.nbd_lines.specs.{MakeCommand.of_make, Faults.{IsMakeCause, LeavesMade, Makes, of_output, of_script}};

use crate::output::{OutputFault, write_chunks};
use crate::script::{ScriptFault, parse_script};
use nbd_files::RunFault;
use std::alloc::Global;
use std::{fmt, io};
use thiserror::Error;

/// Why a script was not made into a capture.
#[derive(Clone, Copy, Drop, Error)]
pub enum MakeFault {
    /// The line with this number, from 1, is the script's first bad one. Nothing was written.
    #[error("script line {0}")]
    Line(u64),
    /// The writer failed, or took no byte. A prefix of the chunk lines stands written.
    #[error("write")]
    Write,
    /// An allocation was refused. A prefix of the chunk lines, possibly nothing, stands written.
    #[error("memory")]
    Memory,
}

// As it is printed, which is less to prove than what a derived one writes.
impl fmt::Debug for MakeFault {
    fn fmt<W: fmt::Write>(&self, f: &mut fmt::Formatter<W>) -> fmt::Result {
        fmt::Display::fmt(self, f)
    }
}

impl From<ScriptFault> for MakeFault {
    ghost from_gives = { λ fault made. made ≡ of_script fault };

    fn from(fault: ScriptFault) -> MakeFault {
        match fault {
            ScriptFault::Line(number) => MakeFault::Line(number),
            ScriptFault::Memory => MakeFault::Memory,
        }
    }
}

impl From<OutputFault> for MakeFault {
    ghost from_gives = { λ fault made. made ≡ of_output fault };

    fn from(fault: OutputFault) -> MakeFault {
        match fault {
            OutputFault::Write => MakeFault::Write,
            OutputFault::Memory => MakeFault::Memory,
        }
    }
}

/// Writes a chunk line for each message of a script, in their order: with the message's sender, and with
/// all of its bytes in lower case digits.
///
/// Nothing is written unless the whole script is well formed. What stands written is said where the writer
/// states its bytes.
pub fn make<W: io::Write>(alloc: Global, script: &[u8], out: &mut W) -> Result<(), MakeFault>
    ensures written { OnOk result (Makes script.now (W.contents out.old) (W.contents out.new)) }
    ensures cause { IfErr result (IsMakeCause script.now) }
    ensures left { IfErr result (LeavesMade script.now (W.contents out.old) (W.contents out.new)) }
{
    let messages = parse_script(alloc, script)?;
    write_chunks(alloc, messages.as_slice(), out)?;
    Ok(())
}

impl From<MakeFault> for RunFault {
    ghost from_gives = { λ fault run. run ≡ of_make fault };

    fn from(fault: MakeFault) -> RunFault {
        match fault {
            MakeFault::Line(number) => RunFault::ScriptLine(number),
            MakeFault::Write => RunFault::Write,
            MakeFault::Memory => RunFault::Memory,
        }
    }
}
