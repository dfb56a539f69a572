//! The command `order --arrival`, over any reader and writer.

ghost use Rattle.std.specs.{Prelude.{◌≡◌, ◌⊎◌, IfErr, IfOk, OnOk}, Io.KnownBytes.Appends};
ghost use Rattle.nbd_files.specs.{declared.fault.RunFault.TheVariants.{Memory, Write}, Starts.IsWithinLimit};
ghost use Rattle.nbd_explain.specs.{Ordering.LeavesOrdered, Shown.IsShowCause, Arrival.{Arrives, number_lines}};

use nbd_capture::write_whole;
use nbd_files::RunFault;
use nbd_session::SessionFault;
use nbd_tool::transcript_over;
use nbd_wire::Profile;
use std::alloc::{AllocError, Global};
use std::io::{BufRead, Write};

/// Reads a capture text to its end, and writes the numbers of its requests, a line each, in the order in which they came:
/// the order of service of a server that takes one after the other. Answers false, and writes nothing, where the session
/// was refused in this profile.
///
/// An `Err` is a fault of the text, of its reader or of the writer, or out of memory. Nothing is written before all numbers
/// are there; after `Write` some of them may stand written.
pub fn run_arrival<C: BufRead + Drop, W: Write>(
    alloc: Global,
    profile: Profile,
    capture: C,
    out: &mut W,
) -> Result<bool, RunFault>
    ensures written { IfOk result
        (λ yes. Arrives profile (C.remaining capture) yes (W.contents out.old) (W.contents out.new)) }
    ensures limited { OnOk result (IsWithinLimit (C.remaining capture)) }
    ensures cause { IfErr result (IsShowCause (C.remaining capture)) }
    ensures left { IfErr result (LeavesOrdered (W.contents out.old) (W.contents out.new)) }
{
    let finished = transcript_over(alloc, profile, capture)?;
    match finished {
        Ok(transcript) => {
            write_numbers(alloc, transcript.count(), out)?;
            Ok(true)
        }
        Err(SessionFault::Wire { .. }) => Ok(false),
        Err(SessionFault::Memory) => Err(RunFault::Memory),
    }
}

// Writes the numbers from 1 up to this one, a line each.
fn write_numbers<W: Write>(alloc: Global, count: u64, out: &mut W) -> Result<(), RunFault>
    ensures written { OnOk result (Appends (W.contents out.old) (W.contents out.new) (number_lines count)) }
    ensures fault { IfErr result (λ fault. (fault ≡ Write) ⊎ (fault ≡ Memory)) }
    ensures left { IfErr result (LeavesOrdered (W.contents out.old) (W.contents out.new)) }
{
    let text = numbers_to(alloc, count)?;
    Ok(write_whole(out, text.as_bytes())?)
}

// The lines of the numbers from 1 up to this one.
fn numbers_to(alloc: Global, count: u64) -> Result<String, AllocError>
    ensures { IfOk result (λ text. text.bytes.items ≡ number_lines count) }
{
    let mut text = String::new(alloc);
    for number in 0..count {
        writeln!(&mut text, "{}", number + 1)?;
    }
    Ok(text)
}
