//! The command `show --names`, over any reader and writer.

ghost use Rattle.std.specs.Prelude.{◌≡◌, ◌⊎◌, ℕ, List, Option, Some, IfErr, IfOk, OnOk, false};
ghost use Rattle.nbd_wire.specs.declared.{message.Message.Message, profile.Profile.Profile};
ghost use Rattle.nbd_state.specs.declared.asked.Outcome.TheVariants.{Failure};
ghost use Rattle.nbd_files.specs.{declared.fault.RunFault.TheVariants.{Memory, Write}, Starts.IsWithinLimit};
ghost use Rattle.nbd_tool.specs.{Ends.IsOverText, Runs.IsCapture};
ghost use Rattle.nbd_explain.specs.{Shown.IsShowCause, Named.{KeepsUnread, NamesAll, has_feed}, internal.Fates.{AddsEnding, AppendsLine, AppendsNames, IsLine, fates_behind}};

use crate::fates::fates_of;
use crate::reading::Recorder;
use crate::show::write_end;
use nbd_capture::write_whole;
use nbd_files::RunFault;
use nbd_session::{Outcome, Session};
use nbd_story::{Story, Told, told_error, told_words};
use nbd_tool::session_over;
use nbd_wire::{Message, Profile};
use std::alloc::{AllocError, Global};
use std::io::{BufRead, Write};

/// Reads a capture text to its end, and writes each message that its session of this profile accepts in words, a line each,
/// in the order of their completion, and then `ok`, or where and why the session was refused; each number has its name where the
/// text is marked, as nbd_json reads it. Answers true where it was accepted.
///
/// An `Err` is a fault of the text, of its reader or of the writer, or out of memory. Nothing is written unless the capture
/// was read whole and is well formed. After `Write` or `Memory` a prefix of the lines stands written, possibly nothing.
pub fn run_names<C: BufRead + Drop, W: Write>(
    alloc: Global,
    profile: Profile,
    is_marked: bool,
    capture: C,
    out: &mut W,
) -> Result<bool, RunFault>
    ensures written { IfOk result
        (λ yes. NamesAll profile (C.remaining capture) yes (W.contents out.old) (W.contents out.new)) }
    ensures well_formed { OnOk result (IsCapture (C.remaining capture)) }
    ensures limited { OnOk result (IsWithinLimit (C.remaining capture)) }
    ensures cause { IfErr result (IsShowCause (C.remaining capture)) }
    ensures left { IfErr result (KeepsUnread (W.contents out.old) (W.contents out.new)) }
{
    let mut recorder = Recorder::of(alloc, profile, is_marked);
    write_recorded(alloc, profile, capture, &mut recorder, out)
}

// The same, with what keeps the capture's bytes.
fn write_recorded<C: BufRead + Drop, W: Write>(
    alloc: Global,
    profile: Profile,
    capture: C,
    recorder: &mut Recorder,
    out: &mut W,
) -> Result<bool, RunFault>
    ensures written { IfOk result
        (λ yes. NamesAll profile (C.remaining capture) yes (W.contents out.old) (W.contents out.new)) }
    ensures well_formed { OnOk result (IsCapture (C.remaining capture)) }
    ensures limited { OnOk result (IsWithinLimit (C.remaining capture)) }
    ensures cause { IfErr result (IsShowCause (C.remaining capture)) }
    ensures left { IfErr result (KeepsUnread (W.contents out.old) (W.contents out.new)) }
{
    let session = session_over(alloc, profile, capture, recorder)?;
    write_names(alloc, session, &recorder.story, out)
}

// Writes the line of each message of a session, and the last line.
fn write_names<W: Write>(
    alloc: Global,
    session: Session,
    story: &Story,
    out: &mut W,
) -> Result<bool, RunFault>
    ensures written { IfOk result (λ yes. (profile : Profile) (known : Option (List ℕ)) → IsOverText profile known session →
        NamesAll profile known yes (W.contents out.old) (W.contents out.new)) }
    ensures cause { IfErr result (λ fault. (profile : Profile) (known : Option (List ℕ)) → IsOverText profile known session →
        IsShowCause known fault) }
    ensures left { IfErr result (KeepsUnread (W.contents out.old) (W.contents out.new)) }
{
    let (messages, fault) = session.into_messages();
    write_story(alloc, messages.as_slice(), story, out)?;
    write_end(alloc, fault, out)
}

// Writes the line of each message.
fn write_story<W: Write>(
    alloc: Global,
    messages: &[Message],
    story: &Story,
    out: &mut W,
) -> Result<(), RunFault>
    ensures appends { OnOk result (AppendsNames messages.now (W.contents out.old) (W.contents out.new)) }
    ensures fault { IfErr result (λ fault. (fault ≡ Write) ⊎ (fault ≡ Memory)) }
{
    write_lines(alloc, fates_of(alloc, messages)?, story, out)
}

// Writes a line for each message, whose fates these are, the last one first.
fn write_lines<W: Write>(
    alloc: Global,
    fates: Vec<Option<Outcome>>,
    story: &Story,
    out: &mut W,
) -> Result<(), RunFault>
    ensures appends { OnOk result ((messages : List Message) → fates.items ≡ fates_behind messages →
        AppendsNames messages (W.contents out.old) (W.contents out.new)) }
    ensures fault { IfErr result (λ fault. (fault ≡ Write) ⊎ (fault ≡ Memory)) }
{
    for place in 0..fates.len() {
        let fate = fates[fates.len() - 1 - place];
        write_line(alloc, story.told.get(place), fate, story, out)?;
    }
    Ok(())
}

// Writes the line of a message.
fn write_line<W: Write>(
    alloc: Global,
    told: Option<&Told>,
    fate: Option<Outcome>,
    story: &Story,
    out: &mut W,
) -> Result<(), RunFault>
    ensures appends { OnOk result (AppendsLine fate (W.contents out.old) (W.contents out.new)) }
    ensures fault { IfErr result (λ fault. (fault ≡ Write) ⊎ (fault ≡ Memory)) }
{
    let line = line_of(alloc, told, fate, story)?;
    Ok(write_whole(out, line.as_bytes())?)
}

// The line of a message: its words, and what became of it.
fn line_of(
    alloc: Global,
    told: Option<&Told>,
    fate: Option<Outcome>,
    story: &Story,
) -> Result<String, AllocError>
    ensures { IfOk result (λ line. IsLine fate line.bytes.items) }
{
    match told {
        Some(told) => ended(
            alloc,
            told_words(alloc, told, story)?,
            fate,
            error_of(alloc, told, fate, story),
        ),
        None => ended(alloc, String::new(alloc), fate, Ok(String::new(alloc))),
    }
}

// The error of a request that failed, and of any other message nothing, which takes no memory.
fn error_of(
    alloc: Global,
    told: &Told,
    fate: Option<Outcome>,
    story: &Story,
) -> Result<String, AllocError> {
    match fate {
        Some(Outcome::Failure) => told_error(alloc, told, story),
        _ => Ok(String::new(alloc)),
    }
}

// Words with what became of their message, and the end of the line. The error is said of a failure.
fn ended(
    alloc: Global,
    words: String,
    fate: Option<Outcome>,
    error: Result<String, AllocError>,
) -> Result<String, AllocError>
    ensures { IfOk result (λ line. IsLine fate line.bytes.items) }
{
    let mut line = on_one_line(alloc, words);
    push_fate(alloc, &mut line, fate, error)?;
    line.push_str("\n")?;
    Ok(line)
}

// Adds what became of a message.
fn push_fate(
    alloc: Global,
    line: &mut String,
    fate: Option<Outcome>,
    error: Result<String, AllocError>,
) -> Result<(), AllocError>
    ensures { OnOk result (AddsEnding fate line.old.bytes.items line.new.bytes.items) }
{
    match fate {
        None => Ok(()),
        Some(Outcome::Success) => line.push_str(": success"),
        Some(Outcome::Pending) => line.push_str(": pending"),
        Some(Outcome::Failure) => push_error(line, &on_one_line(alloc, error?)),
    }
}

// A text of one line. One that has a line feed is left out; nbd_story makes none.
fn on_one_line(alloc: Global, text: String) -> String
    ensures { has_feed result.bytes.items ≡ false }
{
    if text.as_bytes().contains(&b'\n') {
        String::new(alloc)
    } else {
        text
    }
}

// Adds that a request failed.
fn push_error(line: &mut String, error: &str) -> Result<(), AllocError>
    requires { has_feed error.now ≡ false }
    ensures { OnOk result (AddsEnding (Some Failure) line.old.bytes.items line.new.bytes.items) }
{
    line.push_str(": failure, ")?;
    line.push_str(error)
}
