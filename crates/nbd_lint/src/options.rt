//! The rules on options (proto.md, "Option types").

use crate::asked::{Asked, asks_contexts, asks_export};
use crate::negotiation::Negotiation;
use crate::notes::Notes;
use crate::queries::{judge_infos_asked, judge_queries};
use crate::strings::judge_name;
use crate::table::Name;
use nbd_wire::{name_in, options};

/// Judges what an option lists: the export's name, the infos that are asked for, and the queries; takes what these have in common.
pub fn judge_listed(asked: &mut Asked, notes: &mut Notes) {
    match asked.id {
        options::EXPORT_NAME => judge_name(asked.data(), notes),
        id if asks_export(id) & asked.is_formed => {
            judge_name(name_in(asked.data()), notes);
            judge_infos_asked(asked, notes);
        }
        id if asks_contexts(id) & asked.is_formed => {
            judge_name(name_in(asked.data()), notes);
            judge_queries(asked, notes);
        }
        _ => {}
    }
}

/// Judges the option that was chosen last, behind what was negotiated before it. Where the same was granted before, and nothing
/// since then changes its answers, it is a round trip that tells nothing new.
pub fn judge_option(before: &Negotiation, notes: &mut Notes) {
    let asked = &before.asked;
    let (option, data) = (u64::from(asked.id), asked.data().len() as u64);
    let granted = before.granted_before();
    let has_needless = takes_no_data(asked.id) & (data != 0);
    judge_state(asked, before, notes);
    notes.note_two(Name::OptionWithData, has_needless, option, data);
    notes.note_two(Name::OptionDataMalformed, !asked.is_formed, data, option);
    notes.note_two(Name::OptionRepeated, granted != 0, option, granted);
    if asked.id == options::ABORT {
        notes.note_one(Name::AbortWithData, data != 0, data);
    } else {
        let shutdown = before.shutdown;
        notes.note_two(Name::OptionAfterShutdown, shutdown != 0, option, shutdown);
    }
}

// Whether an option has no data. Of ABORT that is a SHOULD.
fn takes_no_data(id: u32) -> bool {
    matches!(
        id,
        options::LIST | options::STARTTLS | options::STRUCTURED_REPLY
    )
}

// Judges an option by the state that it comes in: contexts are asked for before structured replies are negotiated; what changes the
// state is sent again after it was granted; STARTTLS comes behind an option whose outcome it undoes; EXPORT_NAME is sent, and GO
// or INFO was not refused.
fn judge_state(asked: &Asked, before: &Negotiation, notes: &mut Notes) {
    let is_early = !asked.was_structured;
    let (name, holds) = match asked.id {
        options::SET_META_CONTEXT => (Name::SetContextWithoutStructuredReplies, is_early),
        options::LIST_META_CONTEXT => (Name::ListContextWithoutStructuredReplies, is_early),
        options::STRUCTURED_REPLY => (Name::StateOptionRepeated, before.has_structured_replies),
        options::EXTENDED_HEADERS => (Name::StateOptionRepeated, before.has_extended_headers),
        options::EXPORT_NAME => (Name::ExportNameWithoutGo, !before.was_refused),
        options::STARTTLS => {
            let (undone, place) = before.undone_by_tls;
            notes.note_two(Name::StarttlsLate, place != 0, u64::from(undone), place);
            return;
        }
        _ => return,
    };
    notes.note_one(name, holds, u64::from(asked.id));
}
