//! Printing a message's line.

ghost use Rattle.std.specs.Prelude.{◌≡◌, ◌≤◌, ◌++◌, OnOk, OnErr, length};
ghost use Rattle.nbd_lines.specs.{Line.{end_text, message_line, number_text, numbers_text}, internal.AddsPrefix};

use crate::chunk_writing::write_digits;
use crate::forms::Field;
use crate::parts::{MOST_NUMBERS, form_of, numbers_of, payload_of};
use itoa::Buffer;
use nbd_wire::Message;
use std::alloc::AllocError;

/// Adds a message's line at the end of `out`, without an LF.
///
/// After an error, which says that memory was refused, `out` holds what it held before.
pub fn append_line(out: &mut Vec<u8>, message: &Message) -> Result<(), AllocError>
    ensures ok { OnOk result (out.new.items ≡ out.old.items ++ message_line message.now) }
    ensures err { OnErr result (out.new.items ≡ out.old.items) }
{
    let before = out.len();
    let added = append_parts(out, message);
    if added.is_err() {
        out.truncate(before);
    }
    added
}

// The same, but an error may leave a prefix of the line after what `out` held.
fn append_parts(out: &mut Vec<u8>, message: &Message) -> Result<(), AllocError>
    ensures ok { OnOk result (out.new.items ≡ out.old.items ++ message_line message.now) }
    ensures err { OnErr result (AddsPrefix out.old.items out.new.items) }
{
    let form = form_of(message);
    out.extend_from_slice(form.words())?;
    append_numbers(out, form.fields(), &numbers_of(message))?;
    append_end(out, form.has_payload(), payload_of(message))?;
    Ok(())
}

// Adds these fields with their numbers.
fn append_numbers(
    out: &mut Vec<u8>,
    fields: &[Field],
    numbers: &[u64; MOST_NUMBERS],
) -> Result<(), AllocError>
    requires { length fields.now ≤ MOST_NUMBERS }
    ensures ok { OnOk result (out.new.items ≡ out.old.items ++ numbers_text fields.now numbers.now) }
    ensures err { OnErr result (AddsPrefix out.old.items out.new.items) }
{
    for (k, field) in fields.iter().enumerate() {
        append_number(out, *field, numbers[k])?;
    }
    Ok(())
}

// Adds a field with its number.
fn append_number(out: &mut Vec<u8>, field: Field, number: u64) -> Result<(), AllocError>
    ensures ok { OnOk result (out.new.items ≡ out.old.items ++ number_text field number) }
    ensures err { OnErr result (AddsPrefix out.old.items out.new.items) }
{
    let mut buffer = Buffer::new();
    out.push(b' ')?;
    out.extend_from_slice(field.name.text())?;
    out.push(b'=')?;
    out.extend_from_slice(buffer.format(number).as_bytes())
}

// Adds what ends the line: the payload in lower case digits, where there is one.
fn append_end(out: &mut Vec<u8>, has_payload: bool, payload: &[u8]) -> Result<(), AllocError>
    ensures ok { OnOk result (out.new.items ≡ out.old.items ++ end_text has_payload payload.now) }
    ensures err { OnErr result (AddsPrefix out.old.items out.new.items) }
{
    if !has_payload {
        return Ok(());
    }
    out.extend_from_slice(b" payload=")?;
    out.reserve(payload.len().saturating_mul(2))?;
    write_digits(out, payload).or(Err(AllocError))
}
