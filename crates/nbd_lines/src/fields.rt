//! Reading the fields of a line.

ghost use Rattle.std.specs.{Prelude.{◌≡◌, ◌++◌, ◌<◌, ◌≤◌, ◌^◌, ◌↔◌, ℕ, List, IsTrue, MatchOption, length, take}, Fmt.decimal};
ghost use Rattle.nbd_capture.specs.Order.{BeginsPlainly};
ghost use Rattle.nbd_lines.specs.internal.{BeginsNumber, BeginsNumbers, EndsWord, IsSpaceless, ReadsNumber, ReadsNumbers};

use crate::forms::Field;
use crate::parts::MOST_NUMBERS;
use memchr::memchr;
use std::str;

/// What stands after this prefix of the text; `None` where the text begins otherwise.
pub(crate) fn after_prefix<'a>(prefix: &[u8], text: &'a [u8]) -> Option<&'a [u8]>
    ensures { MatchOption result
        ((rest : List ℕ) → text.now ≡ prefix.now ++ rest → ⊥)
        (λ rest. text.now ≡ prefix.now ++ rest.now) }
{
    text.strip_prefix(prefix)
}

/// What stands after these fields at the beginning of the text, with their numbers put into `numbers`; `None`
/// where the text does not begin so.
pub(crate) fn numbers_at<'a>(
    fields: &[Field],
    text: &'a [u8],
    numbers: &mut [u64; MOST_NUMBERS],
) -> Option<&'a [u8]>
    requires { length fields.now ≤ MOST_NUMBERS }
    ensures { MatchOption result
        ((ns rest : List ℕ) → EndsWord rest → BeginsNumbers fields.now ns text.now rest → ⊥)
        (λ rest. ReadsNumbers fields.now (take (length fields.now) numbers.new) text.now rest.now) }
{
    let mut rest = text;
    for (k, field) in fields.iter().enumerate() {
        let (number, after) = number_at(*field, rest)?;
        numbers[k] = number;
        rest = after;
    }
    Some(rest)
}

// The number of this field at the beginning of the text, and what stands after it.
fn number_at(field: Field, text: &[u8]) -> Option<(u64, &[u8])>
    ensures { MatchOption result
        ((n : ℕ) (rest : List ℕ) → BeginsNumber field n text.now rest → ⊥)
        (λ parts. ReadsNumber field parts.0 text.now parts.1.now) }
{
    let named = after_prefix(b" ", text)?;
    let valued = after_prefix(field.name.text(), named)?;
    let (digits, rest) = first_word(after_prefix(b"=", valued)?);
    let number = number_of(digits)?;
    if number > field.most {
        return None;
    }
    Some((number, rest))
}

// What stands before the first space of a text, and the rest of the text.
fn first_word(text: &[u8]) -> (&[u8], &[u8])
    ensures spaceless { IsSpaceless result.0.now }
    ensures ends { EndsWord result.1.now }
    ensures whole { text.now ≡ result.0.now ++ result.1.now }
{
    let end = memchr(b' ', text).unwrap_or(text.len());
    text.split_at(end)
}

// The number that these digits are, without a leading zero.
fn number_of(digits: &[u8]) -> Option<u64>
    ensures { MatchOption result
        ((n : ℕ) → n < 2 ^ 64 → digits.now ≡ decimal n → ⊥)
        (λ n. digits.now ≡ decimal n) }
{
    if !begins_plainly(digits) {
        return None;
    }
    let text = str::from_utf8(digits).ok()?;
    text.parse().ok()
}

// Whether these bytes begin with a digit, and with `0` only where that is all of them.
fn begins_plainly(digits: &[u8]) -> bool
    ensures { IsTrue result ↔ BeginsPlainly digits.now }
{
    match digits {
        [] => false,
        [first] => first.is_ascii_digit(),
        [first, ..] => first.is_ascii_digit() && *first != b'0',
    }
}
