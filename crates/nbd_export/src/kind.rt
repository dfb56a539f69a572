//! What is known of the bytes of a range.

/// What is known of the bytes of a range.
#[derive(Clone, Copy, PartialEq, Eq, Drop)]
pub enum Kind {
    /// No byte is known.
    Unknown,
    /// Each byte is 0.
    Zeroes,
    /// Each byte is known, and written down elsewhere.
    Bytes,
}
