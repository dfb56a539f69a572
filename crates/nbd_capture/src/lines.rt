//! The lines of a text, and the words of a line.

ghost use Rattle.std.specs.{Prelude.{◌≡◌, ◌≢◌, ◌++◌, ◌∷◌, MatchOption}, List.AllByRecursion};
ghost use Rattle.nbd_capture.specs.Lines.{IsUnbroken, line_feed};

use memchr::memchr;

/// The first line of a text without its LF, and what stands after the LF. `None` where the text has no LF.
pub fn first_line(text: &[u8]) -> Option<(&[u8], &[u8])>
    ensures { MatchOption result (IsUnbroken text.now)
        (λ parts. IsUnbroken parts.0.now × (text.now ≡ parts.0.now ++ line_feed ∷ parts.1.now)) }
{
    cut(b'\n', text)
}

// The bytes before the first one of this value, and those after it. `None` where there is none.
pub(crate) fn cut(byte: u8, text: &[u8]) -> Option<(&[u8], &[u8])>
    ensures { MatchOption result (AllByRecursion (λ b. b ≢ byte) text.now)
        (λ parts. AllByRecursion (λ b. b ≢ byte) parts.0.now × (text.now ≡ parts.0.now ++ byte ∷ parts.1.now)) }
{
    match memchr(byte, text) {
        None => None,
        Some(end) => Some((&text[..end], &text[end + 1..])),
    }
}
