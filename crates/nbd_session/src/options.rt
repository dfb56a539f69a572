//! Options and option replies (proto.md, "Fixed newstyle negotiation", "Option types", "Option reply types").

ghost use Rattle.std.specs.Prelude.{◌≡◌, ◌++◌, ℕ, List, IfErr, IfOk, None, Some, if◌then◌else◌, length};
ghost use Rattle.nbd_wire.specs.Prelude.{is_error, context_of, info_of, number_at, abort_answer, answer, choice, abort_fault, answer_fault, earlier_to, payload_fault, Core, ack_fault, answers_option, info_fault, is_bad_payload, is_followed, is_good_context, is_good_info, success_fault};
ghost use Rattle.nbd_wire.specs.protocol.Contexts as contexts;
ghost use Rattle.nbd_session.specs.internal.Expecting.{IsPlaced, expected_decision};
ghost use Rattle.nbd_state.specs.{Showing.exporting_if, Shows.HasSelection};

use crate::expected::Expected;
use nbd_state::{Chosen, Selection};
use nbd_wire::answers::is_error;
use nbd_wire::flags::has;
use nbd_wire::{
    AnswerHead, Info, Profile, Sizes, WireFault, answer_head, answers, choice_head, context_of,
    info_of, limits, listed_of, options, transmission,
};

/// An option, as its head says.
pub(crate) fn choice(head: &[u8]) -> Result<Expected, WireFault>
    requires { length head.now ≡ 16 }
    ensures expected { IfOk result (λ expected. (now : Core) (payload : List ℕ) →
        choice (head.now ++ payload) ≡ expected_decision now expected 16 payload) }
    ensures placed { IfOk result (λ expected. (core : Core) → IsPlaced core expected) }
    ensures refused { IfErr result (λ fault. (choice head.now).head_fault ≡ Some fault) }
{
    match choice_head(head) {
        Some(head) => Ok(Expected::Choice(head)),
        None => Err(WireFault::BadMagic),
    }
}

/// The option reply to ABORT, as its head says.
pub(crate) fn abort_answer(head: &[u8]) -> Result<Expected, WireFault>
    requires { length head.now ≡ 20 }
    ensures expected { IfOk result (λ expected. (now : Core) (payload : List ℕ) →
        abort_answer (head.now ++ payload) ≡ expected_decision now expected 20 payload) }
    ensures placed { IfOk result (λ expected. (core : Core) → IsPlaced core expected) }
    ensures refused { IfErr result (λ fault. (abort_answer head.now).head_fault ≡ Some fault) }
{
    let Some(head) = answer_head(head) else {
        return Err(WireFault::BadMagic);
    };
    match answer_fault(options::ABORT, head, abort_fault(head)) {
        Some(fault) => Err(fault),
        None => Ok(Expected::Answer { head, proper: None }),
    }
}

/// The option reply to another option, as its head says, in a session that is held to this profile.
pub(crate) fn answer(profile: Profile, head: &[u8], chosen: Chosen) -> Result<Expected, WireFault>
    requires { length head.now ≡ 20 }
    ensures expected { IfOk result (λ expected. (now : Core) (payload : List ℕ) → now.profile ≡ profile →
        answer profile chosen.option chosen.proper chosen.takes (exporting_if chosen.info) now.selection
        (head.now ++ payload) ≡ expected_decision now expected 20 payload) }
    ensures placed { IfOk result (λ expected. (core : Core) → IsPlaced core expected) }
    ensures refused { IfErr result (λ fault. (selection : contexts.Selection) →
        (answer profile chosen.option chosen.proper chosen.takes (exporting_if chosen.info) selection
        head.now).head_fault ≡ Some fault) }
{
    let Some(reply) = answer_head(head) else {
        return Err(WireFault::BadMagic);
    };
    match answer_fault(chosen.option, reply, kind_fault(profile, reply, chosen)) {
        Some(fault) => Err(fault),
        None => Ok(Expected::Answer {
            head: reply,
            proper: (!is_error(reply.kind)).then_some(chosen.proper),
        }),
    }
}

/// The fault at the last byte of an option reply that is no error, with this payload, in a session that is held to this
/// profile and has this selection.
pub(crate) fn payload_fault(
    profile: Profile,
    selection: &Selection,
    head: &AnswerHead,
    proper: bool,
    payload: &[u8],
) -> Option<WireFault>
    ensures { (selected : contexts.Selection) → HasSelection selection.now selected →
        result ≡ payload_fault profile (earlier_to head.now.option selected) proper head.now.kind payload.now }
{
    if is_bad_payload(profile, selection, head, payload) {
        return Some(WireFault::BadReplyPayload);
    }
    if !proper {
        return Some(WireFault::SuccessOfImproper);
    }
    None
}

/// An option reply has to name the option; `next` is the fault of its kind.
fn answer_fault(asked: u32, head: AnswerHead, next: Option<WireFault>) -> Option<WireFault>
    ensures { result ≡ answer_fault asked head.option next }
{
    if head.option != asked {
        Some(WireFault::WrongOption)
    } else {
        next
    }
}

/// ABORT has to be answered by an error or by an empty ACK.
fn abort_fault(head: AnswerHead) -> Option<WireFault>
    ensures { result ≡ abort_fault head.kind head.length }
{
    if !is_error(head.kind) && head.kind != answers::ACK {
        Some(WireFault::BadReplyKind)
    } else {
        ack_fault(head, None)
    }
}

/// An ACK may not have a payload; `next` is the fault of one that has none.
fn ack_fault(head: AnswerHead, next: Option<WireFault>) -> Option<WireFault>
    ensures { result ≡ ack_fault head.kind head.length next }
{
    if head.kind == answers::ACK && head.length != 0 {
        Some(WireFault::BadReplyPayload)
    } else {
        next
    }
}

/// The fault at the head of an option reply, if it is no error and may not answer the option that was chosen.
fn kind_fault(profile: Profile, head: AnswerHead, chosen: Chosen) -> Option<WireFault>
    ensures { result ≡ (if is_error head.kind then None else success_fault profile chosen.option chosen.proper
        chosen.takes (exporting_if chosen.info) head.kind head.length) }
{
    if is_error(head.kind) {
        None
    } else if !is_followed(profile, chosen.option) {
        Some(WireFault::OutOfProfile)
    } else if !answers_option(chosen, head.kind) {
        Some(WireFault::BadReplyKind)
    } else if head.kind == answers::ACK {
        ack_fault(head, info_fault(chosen))
    } else {
        None
    }
}

/// Whether the profile follows an option.
fn is_followed(profile: Profile, option: u32) -> bool
    ensures { result ≡ is_followed profile option }
{
    match option {
        options::LIST | options::INFO | options::GO | options::STRUCTURED_REPLY => true,
        options::LIST_META_CONTEXT | options::SET_META_CONTEXT | options::EXTENDED_HEADERS => {
            profile == Profile::Wide
        }
        _ => false,
    }
}

/// Whether an option takes this kind of option reply, which is no error.
fn answers_option(chosen: Chosen, kind: u32) -> bool
    ensures { result ≡ answers_option chosen.option chosen.takes kind }
{
    match kind {
        answers::ACK => true,
        answers::SERVER => chosen.option == options::LIST,
        answers::INFO => matches!(chosen.option, options::INFO | options::GO),
        answers::META_CONTEXT => chosen.takes,
        _ => false,
    }
}

/// An ACK to a proper INFO or GO has to come after an info on the export, and an ACK to GO needs an export within the
/// limit.
fn info_fault(chosen: Chosen) -> Option<WireFault>
    ensures { result ≡ info_fault chosen.option chosen.proper (exporting_if chosen.info) }
{
    match chosen.info {
        None if matches!(chosen.option, options::INFO | options::GO) && chosen.proper => {
            Some(WireFault::MissingExportInfo)
        }
        Some(export) if chosen.option == options::GO && export.size > limits::EXPORT_SIZE => {
            Some(WireFault::ExportTooLarge)
        }
        _ => None,
    }
}

/// Whether an option reply of kind SERVER, INFO or META_CONTEXT has a payload that it may not have.
fn is_bad_payload(
    profile: Profile,
    selection: &Selection,
    head: &AnswerHead,
    payload: &[u8],
) -> bool
    ensures { (selected : contexts.Selection) → HasSelection selection.now selected →
        result ≡ is_bad_payload profile (earlier_to head.now.option selected) head.now.kind payload.now }
{
    match head.kind {
        answers::SERVER => listed_of(payload).is_none(),
        answers::INFO => !is_good_info(profile, info_of(payload)),
        answers::META_CONTEXT => !is_good_context(selection, head.option, payload),
        _ => false,
    }
}

/// Whether the payload of a context is well-formed and, in answer to SET_META_CONTEXT, its id differs from all earlier
/// ones.
fn is_good_context(selection: &Selection, option: u32, payload: &[u8]) -> bool
    ensures { (selected : contexts.Selection) → HasSelection selection.now selected →
        result ≡ is_good_context (earlier_to option selected) (context_of payload.now) }
{
    match context_of(payload) {
        None => false,
        Some((id, _)) => option != options::SET_META_CONTEXT || !selection.has_id(id),
    }
}

/// Whether an info is well-formed, has HAS_FLAGS if it is one on the export, and in `Wide` has block sizes that a
/// server may announce if it is one on block sizes.
fn is_good_info(profile: Profile, info: Option<Info>) -> bool
    ensures { result ≡ is_good_info profile info }
{
    match info {
        None => false,
        Some(Info::Export { flags, .. }) => has(flags, transmission::HAS_FLAGS),
        Some(
            Info::BlockSize {
                least,
                preferred,
                most,
            },
        ) => {
            let largest = most;
            let sizes = Sizes {
                least,
                preferred,
                largest,
            };
            profile != Profile::Wide || sizes.are_allowed()
        }
        Some(Info::Other { .. }) => true,
    }
}
