//! Which message a side's bytes begin: decided once, at the last byte of its head.

ghost use Rattle.std.specs.Prelude.{◌≡◌, ◌≤◌, IfErr, IfOk, length};
ghost use Rattle.nbd_wire.specs.{declared.message.Side.Side, Prelude.Core};
ghost use Rattle.nbd_session.specs.internal.Expecting.{IsExpectedOf, IsFormFound, IsFormOf, IsPlaced, IsRefusedHead, IsReplyForm, form_length};
ghost use Rattle.nbd_state.specs.Shows.{Shows};

use crate::expected::Expected;
use crate::negotiation::{client_flags, exported, greeting};
use crate::options::{abort_answer, answer, choice};
use crate::replies::{chunk, read_chunk, simple};
use crate::requests::request;
use byteorder::{BigEndian, ByteOrder};
use nbd_state::{Chosen, Phase, State};
use nbd_wire::{Side, WireFault, head_lengths, magics, simple_head};

/// The length of the number that a reply begins with, in bytes.
const MAGIC_LENGTH: usize = 4;

/// The form of the head that a side's bytes begin.
#[derive(Clone, Copy, Drop)]
pub(crate) enum Form {
    Greeting,
    ClientFlags,
    Choice,
    Exported,
    /// The answer to ABORT.
    Aborted,
    /// The answer to another option.
    Answer(Chosen),
    Request { extended: bool },
    /// A reply whose number has not come, or is that of no reply.
    Reply,
    Simple,
    Chunk { extended: bool },
}

impl Form {
    /// How long the head is, in bytes: at this length something is decided.
    pub(crate) fn length(self) -> usize
        ensures is { result ≡ form_length self }
        ensures fits { result ≤ 32 }
    {
        match self {
            Form::Greeting => head_lengths::GREETING,
            Form::ClientFlags => head_lengths::CLIENT_FLAGS,
            Form::Choice => head_lengths::CHOICE,
            Form::Exported => head_lengths::EXPORT,
            Form::Aborted | Form::Answer(_) => head_lengths::ANSWER,
            Form::Request { extended: true } => head_lengths::EXTENDED_REQUEST,
            Form::Request { .. } => head_lengths::REQUEST,
            Form::Reply => MAGIC_LENGTH,
            Form::Simple => head_lengths::SIMPLE,
            Form::Chunk { extended: true } => head_lengths::EXTENDED_CHUNK,
            Form::Chunk { .. } => head_lengths::CHUNK,
        }
    }
}

/// The form of the head that these bytes of a side begin; none where the side may not send.
pub(crate) fn form_of(state: &State, side: Side, head: &[u8]) -> Option<Form>
    ensures { IsFormFound state.now side head.now result }
{
    match (side, state.phase) {
        (Side::Server, Phase::Greet) => Some(Form::Greeting),
        (Side::Client, Phase::Flags) => Some(Form::ClientFlags),
        (Side::Client, Phase::Choosing) => Some(Form::Choice),
        (Side::Server, Phase::Naming) => Some(Form::Exported),
        (Side::Server, Phase::Aborting) => Some(Form::Aborted),
        (Side::Server, Phase::Answering(chosen)) => Some(Form::Answer(chosen)),
        (Side::Client, Phase::Transmission(_)) if !state.disconnected => Some(Form::Request {
            extended: state.extended,
        }),
        (Side::Server, Phase::Transmission(_)) => Some(reply_form(state.extended, head)),
        _ => None,
    }
}

// The form of a reply's head, by the number that it begins with.
fn reply_form(extended: bool, head: &[u8]) -> Form
    ensures { IsReplyForm extended head.now result }
{
    if head.len() < MAGIC_LENGTH {
        return Form::Reply;
    }
    match BigEndian::read_u32(head) {
        magics::EXTENDED_CHUNK_MAGIC if extended => Form::Chunk { extended },
        magics::CHUNK_MAGIC if !extended => Form::Chunk { extended },
        magics::SIMPLE_MAGIC if !extended => Form::Simple,
        _ => Form::Reply,
    }
}

/// Which message has this head, which is whole and of this form. A server's message began when `counted` numbered
/// requests had completed.
pub(crate) fn decide(
    form: Form,
    state: &State,
    head: &[u8],
    counted: u64,
) -> Result<Expected, WireFault>
    requires form { (s : Side) × IsFormOf state.now s head.now form }
    requires whole { length head.now ≡ form_length form }
    ensures expected { IfOk result (λ expected. (s : Side) → IsFormOf state.now s head.now form → (core : Core) →
        Shows state.now core → IsExpectedOf counted core s head.now expected) }
    ensures placed { IfOk result (λ expected. (core : Core) → Shows state.now core → IsPlaced core expected) }
    ensures refused { IfErr result (λ fault. (s : Side) → IsFormOf state.now s head.now form → (core : Core) →
        Shows state.now core → IsRefusedHead counted core s head.now fault) }
{
    match form {
        Form::Greeting => greeting(head),
        Form::ClientFlags => client_flags(head, state.offered),
        Form::Choice => choice(head),
        Form::Exported => exported(head, state.client_flags),
        Form::Aborted => abort_answer(head),
        Form::Answer(chosen) => answer(state.profile, head, chosen),
        Form::Request { extended } => request(extended, head),
        Form::Reply => Err(WireFault::BadMagic),
        Form::Simple => simple(state, simple_head(head).unwrap(), counted),
        Form::Chunk { extended } => chunk(state, read_chunk(extended, head), counted),
    }
}
