//! The rule on the greeting (proto.md, "Handshake flags").

use crate::notes::Notes;
use crate::table::Name;
use nbd_wire::flags::has_only;
use nbd_wire::handshake::{FIXED_NEWSTYLE, NO_ZEROES};

/// Judges a greeting: whether it has a flag that proto.md has not.
pub fn judge_greeting(flags: u16, notes: &mut Notes) {
    let flags = u32::from(flags);
    let is_known = has_only(flags, u32::from(FIXED_NEWSTYLE | NO_ZEROES));
    notes.note_one(Name::HandshakeFlags, !is_known, u64::from(flags));
}
