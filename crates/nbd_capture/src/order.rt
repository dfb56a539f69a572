//! Order texts: an entry on each line.

ghost use Rattle.std.specs.Prelude.{◌≡◌, ◌≤◌, ◌↔◌, ◌∷◌, ◌++◌, [], ℕ, List, Err, IfOk, IfErr, IsTrue, MatchOption, MatchResult, OnOk, vec_capacity, vec_len};
ghost use Rattle.nbd_wire.specs.declared.entry.{Entry.Entry, Part.Part};
ghost use Rattle.nbd_capture.specs.{Order.{BeginsPlainly, IsNumber, IsOrderLine, IsOrderText, IsPart}, Contents.IsOrderTextFault, declared.order.OrderTextFault.TheVariants.Memory};

use crate::lines::{cut, first_line};
use nbd_wire::{Entry, Part};
use std::alloc::{AllocFailed, Global};
use std::fmt;
use thiserror::Error;

/// Why an order text gave no entries. Nothing is kept of a text after a fault.
#[derive(Clone, Copy, Drop, Error)]
pub enum OrderTextFault {
    /// The line with this number, from 1, is the first bad one: it is malformed, or no LF follows it.
    #[error("order line {0}")]
    Line(u64),
    /// An allocation was refused.
    #[error("memory")]
    Memory,
}

// As it is printed, which is less to prove than what a derived one writes.
impl fmt::Debug for OrderTextFault {
    fn fmt<W: fmt::Write>(&self, f: &mut fmt::Formatter<W>) -> fmt::Result {
        fmt::Display::fmt(self, f)
    }
}

impl<T: Drop> From<AllocFailed<T>> for OrderTextFault {
    ghost from_gives = { λ _ e. e ≡ Memory };

    fn from(_e: AllocFailed<T>) -> OrderTextFault {
        OrderTextFault::Memory
    }
}

/// The entries of an order text, in order.
///
/// Each line is a request's number, or a request's number and the offset and the length of a part of it, with one space
/// between two numbers; LF ends the line. A number, from 0 to 2^64 - 1, is in decimal digits: no sign, no other byte,
/// and no leading `0` of other digits. A text without bytes has no entries. This format is this project's choice.
/// Memory may run out before a bad line is reached.
pub fn parse_order(alloc: Global, text: &[u8]) -> Result<Vec<Entry>, OrderTextFault>
    ensures entries { IfOk result (λ entries. IsOrderText text.now entries.items) }
    ensures fault { IfErr result (IsOrderTextFault text.now) }
    // What reads as entries gives these entries, unless memory runs out.
    ensures only { (entries : List Entry) → IsOrderText text.now entries
        → MatchResult result (λ found. found.items ≡ entries) (λ e. e ≡ Memory) }
{
    let mut entries = Vec::new(alloc);
    parse_into(text, &mut entries).and(Ok(entries))
}

// Puts the entries of an order text, in order, into a vector that has none.
fn parse_into(text: &[u8], entries: &mut Vec<Entry>) -> Result<(), OrderTextFault>
    requires { entries.old.items ≡ [] }
    ensures entries { OnOk result (IsOrderText text.now entries.new.items) }
    ensures fault { IfErr result (IsOrderTextFault text.now) }
    // Memory runs out only where the entries fill all the room that there was.
    ensures full { result ≡ Err Memory → vec_capacity entries.old ≤ vec_len entries.new }
{
    let mut rest = text;
    let mut line_number = 0;
    while let Some((line, after)) = first_line(rest) {
        line_number += 1;
        let Some(entry) = entry_on(line) else {
            return Err(OrderTextFault::Line(line_number));
        };
        entries.push(entry)?;
        rest = after;
    }
    if rest.is_empty() {
        Ok(())
    } else {
        Err(OrderTextFault::Line(line_number + 1))
    }
}

// The entry that a line stands for.
fn entry_on(line: &[u8]) -> Option<Entry>
    ensures { MatchOption result
        ((said : List Entry) → IsOrderLine line.now said → ⊥)
        (λ e. IsOrderLine line.now (e ∷ [])) }
{
    match cut(b' ', line) {
        None => {
            let request = number_on(line)?;
            Some(Entry {
                request,
                part: None,
            })
        }
        Some((digits, text)) => {
            let request = number_on(digits)?;
            let part = part_on(text)?;
            Some(Entry {
                request,
                part: Some(part),
            })
        }
    }
}

// The part that an offset and a length state.
fn part_on(text: &[u8]) -> Option<Part>
    ensures { MatchOption result ((p : Part) → IsPart text.now p → ⊥) (IsPart text.now) }
{
    let (first, second) = cut(b' ', text)?;
    match (number_on(first), number_on(second)) {
        (Some(offset), Some(length)) => Some(Part { offset, length }),
        _ => None,
    }
}

// The number that these digits stand for.
pub(crate) fn number_on(digits: &[u8]) -> Option<u64>
    ensures { MatchOption result ((n : ℕ) → IsNumber digits.now n → ⊥) (IsNumber digits.now) }
{
    if !is_plain(digits) {
        return None;
    }
    let mut number = 0u64;
    for i in 0..digits.len() {
        if !digits[i].is_ascii_digit() {
            return None;
        }
        number = number
            .checked_mul(10)?
            .checked_add(u64::from(digits[i] - b'0'))?;
    }
    Some(number)
}

// Whether these bytes begin with a digit, and with `0` only where that is all of them.
fn is_plain(digits: &[u8]) -> bool
    ensures { IsTrue result ↔ BeginsPlainly digits.now }
{
    match digits {
        [] => false,
        [first] => first.is_ascii_digit(),
        [first, ..] => first.is_ascii_digit() && *first != b'0',
    }
}
