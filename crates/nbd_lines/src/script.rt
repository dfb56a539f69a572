//! Scripts: message lines, empty lines, comments and lines that are exactly `ok`.

ghost use Rattle.std.specs.Prelude.{◌≡◌, ◌≤◌, ◌↔◌, ◌++◌, [], List, IfOk, IfErr, IsTrue, MatchResult, OnErr, OnOk, vec_capacity, vec_len};
ghost use Rattle.nbd_wire.specs.declared.message.Message.{Message};
ghost use Rattle.nbd_lines.specs.{Faults.IsScriptFault, Script.{IsScript, IsScriptLine}, internal.{IsLineFault, said_by}, declared.script.ScriptFault.TheVariants.Memory};

use crate::reading::parse_message;
use nbd_capture::first_line;
use nbd_wire::Message;
use std::alloc::{AllocError, AllocFailed, Global};
use std::fmt;
use thiserror::Error;

/// Why a script gave no messages. Nothing is kept of a text after a fault.
#[derive(Clone, Copy, Drop, Error)]
pub enum ScriptFault {
    /// The line with this number, from 1, is the first bad one: it is malformed, its message has no encoding,
    /// or no LF stands after it.
    #[error("script line {0}")]
    Line(u64),
    /// An allocation was refused.
    #[error("memory")]
    Memory,
}

// As it is printed, which is less to prove than what a derived one writes.
impl fmt::Debug for ScriptFault {
    fn fmt<W: fmt::Write>(&self, f: &mut fmt::Formatter<W>) -> fmt::Result {
        fmt::Display::fmt(self, f)
    }
}

impl<T: Drop> From<AllocFailed<T>> for ScriptFault {
    ghost from_gives = { λ _ e. e ≡ Memory };

    fn from(_e: AllocFailed<T>) -> ScriptFault {
        ScriptFault::Memory
    }
}

impl From<AllocError> for ScriptFault {
    ghost from_gives = { λ _ e. e ≡ Memory };

    fn from(_e: AllocError) -> ScriptFault {
        ScriptFault::Memory
    }
}

/// The messages of a script, in order.
///
/// A text is a sequence of lines, each ended by LF. A message line stands for its message, which has to have
/// an encoding. An empty line, one that begins with `#` and one that is exactly `ok` stand for none. This
/// format is this project's choice. The text is read once, from its beginning. Memory may run out before a bad
/// line is reached.
pub fn parse_script(alloc: Global, text: &[u8]) -> Result<Vec<Message>, ScriptFault>
    ensures messages { IfOk result (λ messages. IsScript text.now messages.items) }
    ensures fault { IfErr result (IsScriptFault text.now) }
    // What reads as messages gives these messages, unless memory runs out.
    ensures only { (messages : List Message) → IsScript text.now messages
        → MatchResult result (λ found. found.items ≡ messages) (λ e. e ≡ Memory) }
{
    let mut messages = Vec::new(alloc);
    let mut rest = text;
    let mut number = 0;
    while !rest.is_empty() {
        number += 1;
        let (line, after) = first_line(rest).ok_or(ScriptFault::Line(number))?;
        let message = message_on(alloc, line, number)?;
        push_if(&mut messages, message)?;
        rest = after;
    }
    Ok(messages)
}

// The message, if there is one, behind the others.
fn push_if(messages: &mut Vec<Message>, message: Option<Message>) -> Result<(), AllocError>
    ensures pushed { OnOk result (messages.new.items ≡ messages.old.items ++ said_by message) }
    ensures full { OnErr result (vec_capacity messages.old ≤ vec_len messages.old) }
{
    if let Some(message) = message {
        messages.push(message)?;
    }
    Ok(())
}

// The message for which a line stands, if it stands for one.
fn message_on(alloc: Global, line: &[u8], number: u64) -> Result<Option<Message>, ScriptFault>
    ensures said { IfOk result (λ said. IsScriptLine line.now (said_by said)) }
    ensures fault { IfErr result (IsLineFault line.now number) }
{
    if is_silent(line) {
        return Ok(None);
    }
    let message = parse_message(alloc, line)?.ok_or(ScriptFault::Line(number))?;
    Ok(Some(message))
}

// Whether a line stands for no message: an empty line, a comment, or `ok`.
fn is_silent(line: &[u8]) -> bool
    ensures { IsTrue result ↔ IsScriptLine line.now [] }
{
    match line {
        [] => true,
        [first, ..] => *first == b'#' || line == b"ok".as_slice(),
    }
}
