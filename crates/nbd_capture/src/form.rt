//! A line of a capture as it comes, in whatever parts: its digits are decoded at once, and no text is kept.

ghost use Rattle.std.specs.Prelude.{◌≡◌, ◌++◌, ◌∷◌, ◌↔◌, ◌+◌, ◌/◌, ◌%◌, ◌<◌, [], ℕ, List, IfOk, IfErr, IsTrue, MatchBool, Option, Some, OnErr, OnOk, length, vec_capacity, vec_len};
ghost use Rattle.nbd_wire.specs.declared.message.Side.{Side};
ghost use Rattle.nbd_capture.specs.{Capture.{AreDigits, IsCaptureLine, letter, space}, internal.{IsOf, Spell, said_into, IsChunkFault}};

use crate::capture::CaptureFault;
use nbd_wire::Side;
use std::alloc::AllocError;

// What has come of a line. Of a comment and of a bad line nothing is kept.
#[derive(Clone, Copy, Drop)]
pub(crate) enum Form {
    // Nothing.
    Empty,
    // The letter of a side.
    Letter(Side),
    // The letter, a space and digits, the last of which may wait for its second.
    Digits { side: Side, half: Option<u8> },
    // A comment.
    Comment,
    // What no line begins with.
    Bad,
}

impl Form {
    // Whether the line has no bytes.
    pub(crate) fn is_empty(self) -> bool
        ensures { (bytes line : List ℕ) → IsOf self bytes line → (IsTrue result ↔ (line ≡ [])) }
    {
        matches!(self, Form::Empty)
    }

    // The sender of the chunk that the whole line stands for, if it stands for one.
    pub(crate) fn sender(self, number: u64) -> Result<Option<Side>, CaptureFault>
        ensures said { (bytes line : List ℕ) → IsOf self bytes line →
            IfOk result (λ side. IsCaptureLine line (said_into side bytes)) }
        ensures fault { (bytes line : List ℕ) → IsOf self bytes line → IfErr result (IsChunkFault line number) }
    {
        match self {
            Form::Empty | Form::Comment => Ok(None),
            Form::Digits { side, half } => match half {
                None => Ok(Some(side)),
                Some(_) => Err(CaptureFault::Line(number)),
            },
            Form::Letter(_) => Err(CaptureFault::Line(number)),
            Form::Bad => Err(CaptureFault::Line(number)),
        }
    }

    // With a part of the line more. The memory grows with the bytes that the digits spell.
    pub(crate) fn with(self, part: &[u8], bytes: &mut Vec<u8>) -> Result<Form, AllocError>
        ensures { IfOk result (λ form. (line : List ℕ) → IsOf self bytes.old.items line →
            IsOf form bytes.new.items (line ++ part.now)) }
    {
        match self {
            Form::Empty => begin(part, bytes),
            Form::Letter(side) => part_from_digits(side, part, bytes),
            Form::Digits { side, half } => spell(side, half, part, bytes),
            Form::Comment | Form::Bad => Ok(self),
        }
    }
}

// A line that begins with these bytes.
fn begin(part: &[u8], bytes: &mut Vec<u8>) -> Result<Form, AllocError>
    ensures { IfOk result (λ form. bytes.old.items ≡ [] → IsOf form bytes.new.items part.now) }
{
    let Some((first, rest)) = part.split_first() else {
        return Ok(Form::Empty);
    };
    match *first {
        b'#' => Ok(Form::Comment),
        b'C' => part_from_digits(Side::Client, rest, bytes),
        b'S' => part_from_digits(Side::Server, rest, bytes),
        _ => Ok(Form::Bad),
    }
}

// A line of the letter of a side and these bytes.
fn part_from_digits(side: Side, part: &[u8], bytes: &mut Vec<u8>) -> Result<Form, AllocError>
    ensures { IfOk result (λ form. bytes.old.items ≡ [] → IsOf form bytes.new.items (letter side ∷ part.now)) }
{
    match part.split_first() {
        None => Ok(Form::Letter(side)),
        Some((first, digits)) if *first == b' ' => spell(side, None, digits, bytes),
        Some(_) => Ok(Form::Bad),
    }
}

// A chunk line with these digits more.
fn spell(
    side: Side,
    half: Option<u8>,
    digits: &[u8],
    bytes: &mut Vec<u8>,
) -> Result<Form, AllocError>
    ensures { IfOk result (λ form. (before : List ℕ) → Spell before half bytes.old.items →
        IsOf form bytes.new.items (letter side ∷ space ∷ (before ++ digits.now))) }
{
    let Some(first) = half else {
        return spell_pairs(side, digits, bytes);
    };
    let Some((second, rest)) = digits.split_first() else {
        return Ok(Form::Digits { side, half });
    };
    if append_spelled(&[first, *second], bytes)? {
        spell_pairs(side, rest, bytes)
    } else {
        Ok(Form::Bad)
    }
}

// A chunk line with these digits more, where all before have their seconds.
fn spell_pairs(side: Side, digits: &[u8], bytes: &mut Vec<u8>) -> Result<Form, AllocError>
    ensures { IfOk result (λ form. (before : List ℕ) → AreDigits before bytes.old.items →
        IsOf form bytes.new.items (letter side ∷ space ∷ (before ++ digits.now))) }
{
    let (pairs, last) = digits.split_at(digits.len() / 2 * 2);
    if append_spelled(pairs, bytes)? {
        let half = last.first().copied();
        Ok(Form::Digits { side, half })
    } else {
        Ok(Form::Bad)
    }
}

// Adds the bytes that an even number of digits spells, and answers whether they do.
pub(crate) fn append_spelled(digits: &[u8], bytes: &mut Vec<u8>) -> Result<bool, AllocError>
    requires { length digits.now % 2 ≡ 0 }
    ensures spelled { IfOk result (λ spelled. MatchBool spelled
        ((more : List ℕ) × (bytes.new.items ≡ bytes.old.items ++ more) × AreDigits digits.now more)
        ((more : List ℕ) → AreDigits digits.now more → ⊥)) }
    ensures full { OnErr result (vec_capacity bytes.old < vec_len bytes.old + length digits.now / 2) }
{
    let start = bytes.len();
    bytes.resize(start + digits.len() / 2, 0)?;
    let (_, room) = bytes.as_mut_slice().split_at_mut(start);
    Ok(hex::decode_to_slice(digits, room).is_ok())
}
