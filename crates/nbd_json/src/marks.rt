//! The signs round a number in words, by which its name is found.

/// What stands before the name of a number, then where it is told in hexadecimal, behind the name, and behind the number.
pub const BEGUN: &str = "\x01";

pub const DIGITS: &str = "\x02";

pub const NAMED: &str = "\x03";

pub const ENDED: &str = "\x04";
