//! Reading a message's line.

ghost use Rattle.std.specs.Prelude.{◌≡◌, ◌++◌, ℕ, List, IfOk, MatchOption};
ghost use Rattle.nbd_wire.specs.{declared.message.Message.Message, codec.Fits.FitsItsHead};
ghost use Rattle.nbd_lines.specs.{declared.forms.Form.Form, Line.{IsEnd, IsMessageLine}, Table.{has_payload, words}};

use crate::fields::{after_prefix, numbers_at};
use crate::forms::{FORMS, Form};
use crate::parts::{MOST_NUMBERS, message_of};
use hex::FromHexError;
use nbd_wire::{Bytes, Message, fits};
use std::alloc::{AllocError, Global};

/// The message for which a line stands, a line being given without its LF. `None` where it stands for no
/// message, or for one without an encoding, as a request that does not carry as many bytes as it has to.
///
/// An error says that memory was refused for the payload.
pub fn parse_message(alloc: Global, line: &[u8]) -> Result<Option<Message>, AllocError>
    ensures { IfOk result (λ read. MatchOption read
        ((m : Message) → IsMessageLine line.now m → FitsItsHead m → ⊥)
        (λ m. IsMessageLine line.now m × FitsItsHead m)) }
{
    let Some((form, rest)) = form_at(line) else {
        return Ok(None);
    };
    let mut numbers = [0; MOST_NUMBERS];
    let Some(end) = numbers_at(form.fields(), rest, &mut numbers) else {
        return Ok(None);
    };
    let Some(payload) = end_at(alloc, form, end)? else {
        return Ok(None);
    };
    Ok(fitting(message_of(form, numbers, payload)))
}

// The message, unless it has no encoding.
fn fitting(message: Message) -> Option<Message>
    ensures { MatchOption result (FitsItsHead message → ⊥) (λ m. (m ≡ message) × FitsItsHead m) }
{
    if fits(&message) { Some(message) } else { None }
}

// The form with whose words the line begins, and what stands after them.
fn form_at(line: &[u8]) -> Option<(Form, &[u8])>
    ensures { MatchOption result
        ((form : Form) (rest : List ℕ) → line.now ≡ words form ++ rest → ⊥)
        (λ parts. line.now ≡ words parts.0 ++ parts.1.now) }
{
    for form in &FORMS {
        if let Some(rest) = after_prefix(form.words(), line) {
            return Some((*form, rest));
        }
    }
    None
}

// The payload that ends the line, if this is what its form wants there; no bytes where it wants nothing.
fn end_at(alloc: Global, form: Form, end: &[u8]) -> Result<Option<Bytes>, AllocError>
    ensures { IfOk result (λ read. MatchOption read
        ((bytes : List ℕ) → IsEnd (has_payload form) bytes end.now → ⊥)
        (λ bytes. IsEnd (has_payload form) bytes end.now)) }
{
    if !form.has_payload() {
        if !end.is_empty() {
            return Ok(None);
        }
        return Ok(Some(Bytes::none()));
    }
    let Some(digits) = after_prefix(b" payload=", end) else {
        return Ok(None);
    };
    match hex::decode(alloc, digits) {
        Ok(mut bytes) => Ok(Some(Bytes::take(alloc, &mut bytes)?)),
        Err(e) => match e {
            FromHexError::OutOfMemory => Err(AllocError),
            _ => Ok(None),
        },
    }
}
