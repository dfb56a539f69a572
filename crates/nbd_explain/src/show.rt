//! The command `show`, over any reader and writer.

ghost use Rattle.std.specs.{Prelude.{◌≡◌, IfErr, IfOk, OnErr, OnOk, None, true}, Io.KnownBytes.Appends};
ghost use Rattle.nbd_wire.specs.declared.profile.Profile.TheVariants.{Base};
ghost use Rattle.nbd_capture.specs.Writing.{AppendsPrefix};
ghost use Rattle.nbd_lines.specs.Script.{message_lines};
ghost use Rattle.nbd_tool.specs.{Runs.IsCapture, Ends.{LeavesLast, is_accepted, last_line}};
ghost use Rattle.nbd_files.specs.Starts.{IsWithinLimit};
ghost use Rattle.nbd_explain.specs.Shown.{IsShowCause, LeavesShown, WritesAll};

use nbd_capture::write_whole;
use nbd_files::RunFault;
use nbd_judge::Verdict;
use nbd_lines::{OutputFault, show_by};
use nbd_session::SessionFault;
use nbd_tool::{Unseen, session_over, write_verdict};
use nbd_wire::{Message, Profile};
use std::alloc::Global;
use std::io::{BufRead, Write};

/// Reads a capture text to its end, chunk by chunk, and writes a line for each message that its session of the profile
/// `Base` accepts, in the order of their completion, and then `ok`, or where and why the session was refused. Answers true where it
/// was accepted.
///
/// Nothing is written unless the capture was read whole and is well formed. After `Write` a prefix of the
/// lines stands written, after `Memory` a prefix of the message lines, possibly nothing.
pub fn run_show<C: BufRead + Drop, W: Write>(
    alloc: Global,
    capture: C,
    out: &mut W,
) -> Result<bool, RunFault>
    ensures written { IfOk result
        (λ yes. WritesAll Base (C.remaining capture) yes (W.contents out.old) (W.contents out.new)) }
    ensures well_formed { OnOk result (IsCapture (C.remaining capture)) }
    ensures limited { OnOk result (IsWithinLimit (C.remaining capture)) }
    ensures cause { IfErr result (IsShowCause (C.remaining capture)) }
    ensures left { IfErr result (LeavesShown Base (C.remaining capture) (W.contents out.old) (W.contents out.new)) }
{
    run_show_of(alloc, Profile::Base, capture, out)
}

/// Reads a capture text to its end, chunk by chunk, and writes a line for each message that its session of this profile
/// accepts, in the order of their completion, and then `ok`, or where and why the session was refused. Answers true
/// where it was accepted.
///
/// An `Err` is a fault of the text, of its reader or of the writer, or out of memory. Nothing is written unless the
/// capture was read whole and is well formed; from then on each message is let go with its line. After `Write` a prefix of
/// the lines stands written, after `Memory` a prefix of the message lines, possibly nothing.
pub fn run_show_of<C: BufRead + Drop, W: Write>(
    alloc: Global,
    profile: Profile,
    capture: C,
    out: &mut W,
) -> Result<bool, RunFault>
    ensures written { IfOk result
        (λ yes. WritesAll profile (C.remaining capture) yes (W.contents out.old) (W.contents out.new)) }
    ensures well_formed { OnOk result (IsCapture (C.remaining capture)) }
    ensures limited { OnOk result (IsWithinLimit (C.remaining capture)) }
    ensures cause { IfErr result (IsShowCause (C.remaining capture)) }
    ensures left { IfErr result (LeavesShown profile (C.remaining capture) (W.contents out.old) (W.contents out.new)) }
{
    let session = session_over(alloc, profile, capture, &mut Unseen)?;
    let (messages, fault) = session.into_messages();
    write_messages(alloc, messages, out)?;
    write_end(alloc, fault, out)
}

// Writes the lines of messages, and lets each message go with its line.
fn write_messages<W: Write>(
    alloc: Global,
    messages: Vec<Message>,
    out: &mut W,
) -> Result<(), OutputFault>
    ensures ok { OnOk result
        (Appends (W.contents out.old) (W.contents out.new) (message_lines messages.items)) }
    ensures err { OnErr result
        (AppendsPrefix (W.contents out.old) (W.contents out.new) (message_lines messages.items)) }
{
    let mut line = Vec::new(alloc);
    for message in messages {
        show_by(&mut line, &[message], out)?;
    }
    Ok(())
}

/// Writes how a session ended: `ok`, or where and why it was refused, by its fault if there is one. Answers true where it
/// was accepted.
///
/// After `Write` a prefix of the line stands written, after `Memory` nothing of it.
pub fn write_end<W: Write>(
    alloc: Global,
    fault: Option<SessionFault>,
    out: &mut W,
) -> Result<bool, RunFault>
    ensures answer { IfOk result (λ yes. yes ≡ is_accepted fault) }
    ensures written { OnOk result (Appends (W.contents out.old) (W.contents out.new) (last_line fault)) }
    ensures left { IfErr result (LeavesLast fault (W.contents out.old) (W.contents out.new)) }
{
    match fault {
        None => write_accepted(out),
        Some(SessionFault::Wire { at, fault }) => {
            write_verdict(alloc, Verdict::Wire { at, fault }, out)
        }
        Some(SessionFault::Memory) => Err(RunFault::Memory),
    }
}

/// Writes that the session was accepted.
fn write_accepted<W: Write>(out: &mut W) -> Result<bool, RunFault>
    ensures answer { IfOk result (λ yes. yes ≡ true) }
    ensures written { OnOk result (Appends (W.contents out.old) (W.contents out.new) (last_line None)) }
    ensures left { IfErr result (LeavesLast None (W.contents out.old) (W.contents out.new)) }
{
    write_whole(out, b"ok\n")?;
    Ok(true)
}
