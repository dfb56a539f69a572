//! The rules on answers to options (proto.md, "Option types", "Option reply types").

use crate::asked::{Asked, asks_export};
use crate::contexts::judge_context;
use crate::infos::{judge_acknowledged, judge_info, judge_refused_sizes};
use crate::negotiation::Negotiation;
use crate::notes::Notes;
use crate::numbers::{
    ERR_BLOCK_SIZE_REQD, ERR_SHUTDOWN, ERR_TLS_REQD, ERR_TOO_BIG, ERR_UNKNOWN, ERR_UNSUP,
};
use crate::strings::judge_answer_strings;
use crate::table::Name;
use crate::tls::judge_tls;
use nbd_wire::answers::is_error;
use nbd_wire::names::{REPLIES, name_in};
use nbd_wire::{answers, options};

/// Judges an answer to the option that was chosen last.
pub fn judge_answer(before: &Negotiation, kind: u32, answer: &[u8], notes: &mut Notes) {
    let asked = &before.asked;
    judge_answer_strings(kind, answer, notes);
    judge_tls(&before.tls, asked, kind, notes);
    notes.note_three(
        Name::AnswerAfterShutdown,
        is_after_shutdown(before, kind),
        u64::from(asked.id),
        u64::from(kind),
        before.shutdown,
    );
    match kind {
        answers::INFO => judge_info(before, answer, notes),
        answers::META_CONTEXT => judge_context(asked, answer, notes),
        answers::ACK => {
            notes.note(Name::SetContextGrantedEarly, is_early(asked));
            judge_acknowledged(before, notes);
        }
        _ if is_error(kind) => judge_error(asked, kind, notes),
        _ => {}
    }
}

// Whether behind ERR_SHUTDOWN the first answer to an option is another (proto.md, "Termination of the session during option
// haggling").
fn is_after_shutdown(before: &Negotiation, kind: u32) -> bool {
    (before.shutdown != 0)
        & (kind != ERR_SHUTDOWN)
        & (before.asked.answers == 0)
        & (before.asked.id != options::ABORT)
}

// Judges an error: by the option that it answers, by its kind, and by both.
fn judge_error(asked: &Asked, kind: u32, notes: &mut Notes) {
    judge_error_to(asked, kind, notes);
    judge_error_of_bad(asked, kind, notes);
    let asks_export = asks_export(asked.id);
    match kind {
        ERR_UNSUP => notes.note_one(
            Name::BaselineUnsupported,
            asks_export | (asked.id == options::LIST),
            u64::from(asked.id),
        ),
        ERR_UNKNOWN => notes.note_one(
            Name::InfoBeforeUnknown,
            asks_export & (asked.infos != 0),
            asked.infos,
        ),
        ERR_BLOCK_SIZE_REQD if asks_export => judge_refused_sizes(asked, notes),
        _ => {}
    }
}

// Whether an error may answer any option, whatever the reason: all that proto.md names, but for two.
fn is_open(kind: u32) -> bool {
    (kind != ERR_UNKNOWN) & (kind != ERR_BLOCK_SIZE_REQD) & name_in(REPLIES, kind).is_some()
}

// Judges an error by the option: ABORT gets one, but ERR_TLS_REQD is due to every option where TLS is forced; STARTTLS gets one that
// does not fit it (proto.md, "NOTLS mode"); LIST_META_CONTEXT is malformed and gets another than the one for that, or has no
// queries and is too big.
fn judge_error_to(asked: &Asked, kind: u32, notes: &mut Notes) {
    let is_tls_reqd = kind == ERR_TLS_REQD;
    let (name, holds) = match asked.id {
        options::ABORT => (Name::AbortNotAcknowledged, !is_tls_reqd),
        options::STARTTLS => (Name::StarttlsError, is_tls_reqd | !is_open(kind)),
        options::LIST_META_CONTEXT if !asked.is_formed => (Name::ListContextError, !is_open(kind)),
        options::LIST_META_CONTEXT => (
            Name::TooBigWithoutQueries,
            (kind == ERR_TOO_BIG) & asked.queries.is_empty,
        ),
        _ => return,
    };
    notes.note_one(name, holds, u64::from(kind));
}

// Whether an option is a SET_META_CONTEXT that came before structured replies. It is granted in spite of that.
fn is_early(asked: &Asked) -> bool {
    (asked.id == options::SET_META_CONTEXT) & !asked.was_structured
}

// An option that the client should not have sent gets another error than the one for that.
fn judge_error_of_bad(asked: &Asked, kind: u32, notes: &mut Notes) {
    let is_early = is_early(asked);
    let takes_none = (asked.id == options::LIST) | (asked.id == options::STRUCTURED_REPLY);
    let is_bad = is_early | takes_none & !asked.data().is_empty();
    if is_bad & !is_open(kind) {
        notes.tell(
            Name::ErrorOfBadOption,
            usize::from(is_early),
            [u64::from(asked.id), u64::from(kind), 0],
        );
    }
}
