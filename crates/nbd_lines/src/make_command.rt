//! The command `make`, over any reader and writer.
ghost use Rattle.std.specs.Prelude.{◌≡◌, ◌⊎◌, IfErr, IfOk, IfSome, OnOk};
ghost use Rattle.nbd_files.specs.{declared.fault.RunFault.TheVariants.{Memory, ScriptRead}, Starts.IsWithinLimit};
ghost use Rattle.nbd_lines.specs.MakeCommand.{IsScriptCause, LeavesLines, MakesAll};

use crate::making::make;
use nbd_files::{ReadFault, RunFault, read_whole};
use std::alloc::Global;
use std::io::{BufRead, Write};

/// Reads a script whole, and writes one chunk line for each of its messages, in their order: with the
/// message's sender, and with all of its bytes in lower case digits.
///
/// Nothing is written unless the script was read whole and is well formed. After `Write` a prefix of the
/// chunk lines stands written, after `Memory` a prefix of them, possibly nothing.
pub fn run_make<S: BufRead + Drop, W: Write>(
    alloc: Global,
    mut script: S,
    out: &mut W,
) -> Result<(), RunFault>
    ensures written { OnOk result (MakesAll (S.remaining script) (W.contents out.old) (W.contents out.new)) }
    ensures limited { OnOk result (IsWithinLimit (S.remaining script)) }
    ensures cause { IfErr result (IsScriptCause (S.remaining script)) }
    ensures left { IfErr result (LeavesLines (S.remaining script) (W.contents out.old) (W.contents out.new)) }
{
    let text = read_script(alloc, &mut script)?;
    make(alloc, text.as_slice(), out)?;
    Ok(())
}

/// The bytes of a script.
fn read_script<S: BufRead>(alloc: Global, script: &mut S) -> Result<Vec<u8>, RunFault>
    ensures read { IfOk result (λ text. IfSome (S.remaining script.old) (λ bytes. text.items ≡ bytes)) }
    ensures limited { OnOk result (IsWithinLimit (S.remaining script.old)) }
    ensures cause { IfErr result (λ fault. (fault ≡ ScriptRead) ⊎ (fault ≡ Memory)) }
{
    match read_whole(alloc, script) {
        Ok(text) => Ok(text),
        Err(ReadFault::Read) => Err(RunFault::ScriptRead),
        Err(ReadFault::Memory) => Err(RunFault::Memory),
    }
}
