//! The hints on how a capture ends (proto.md, "Terminating the transmission phase", "Option types").

use crate::notes::Notes;
use crate::table::Name;
use nbd_wire::Side;

/// Where a session stands.
#[derive(Clone, Copy, Drop)]
pub enum Stage {
    /// No option may come yet; ABORT was answered, be it by an error; or EXPORT_NAME was chosen, and is not answered yet.
    Apart,
    /// Options are chosen and answered.
    Negotiating,
    /// ABORT was chosen.
    Aborting,
    /// Requests and replies.
    Transmitting,
    /// DISC came.
    Disconnected,
}

/// Judges a capture of so many bytes that ends between messages: the client has sent neither ABORT nor DISC, ABORT was not
/// answered, or requests before DISC were not.
pub fn judge_end(stage: Stage, outstanding: u64, place: u64, notes: &mut Notes) {
    notes.end(Side::Client, place);
    match stage {
        Stage::Apart => {}
        Stage::Transmitting => notes.note_one(Name::EndedWithoutDisconnect, true, outstanding),
        Stage::Negotiating => notes.tell(Name::EndedWithoutDisconnect, 1, [0; 3]),
        Stage::Aborting => {
            notes.end(Side::Server, place);
            notes.note(Name::AbortUnanswered, true);
        }
        Stage::Disconnected => {
            notes.end(Side::Server, place);
            notes.note_one(Name::DiscUnanswered, outstanding != 0, outstanding);
        }
    }
}
