//! What became of the requests of a session, by its messages.

ghost use Rattle.std.specs.Prelude.{◌≡◌, ◌∷◌, ◌||◌, List, [], IfOk, OnOk};
ghost use Rattle.nbd_wire.specs.{declared.message.Message.Message, Prelude.{ends_reply, is_failing, cookie_of}};
ghost use Rattle.nbd_explain.specs.internal.Fates.{AreReplies, fate, fates_behind, outcome_told, told_in};

use nbd_session::Outcome;
use nbd_wire::flags::has;
use nbd_wire::{Message, chunks, commands};
use std::alloc::{AllocError, Global};
use std::collections::BTreeMap;

/// What the messages of a reply say of its request.
#[derive(Clone, Copy)]
pub struct Reply {
    /// One of them ends the reply.
    pub ends: bool,
    /// One of them states a failure.
    pub fails: bool,
}

/// What became of each message, the last message first: None of one that is no numbered request. The cost is n log n.
pub fn fates_of(alloc: Global, messages: &[Message]) -> Result<Vec<Option<Outcome>>, AllocError>
    ensures { IfOk result (λ fates. fates.items ≡ fates_behind messages.now) }
{
    let mut fates = Vec::new(alloc);
    let mut replies = BTreeMap::new(alloc);
    for behind in 0..messages.len() {
        let message = &messages[messages.len() - 1 - behind];
        fates.push(fate_of(message, &replies))?;
        note(message, &mut replies)?;
    }
    Ok(fates)
}

// What became of a message, by the replies behind it.
fn fate_of(message: &Message, replies: &BTreeMap<u64, Reply>) -> Option<Outcome>
    ensures { (later : List Message) → AreReplies later replies.now → result ≡ fate message.now later }
{
    match message {
        Message::Request {
            command,
            cookie,
            ..
        }
        | Message::ExtendedRequest {
            command,
            cookie,
            ..
        } if *command != commands::DISC => Some(outcome_of(reply_in(replies, *cookie))),
        _ => None,
    }
}

// What became of a request with this reply.
fn outcome_of(reply: Reply) -> Outcome
    ensures { result ≡ outcome_told reply }
{
    if !reply.ends {
        Outcome::Pending
    } else if reply.fails {
        Outcome::Failure
    } else {
        Outcome::Success
    }
}

// The reply with this cookie, without a message where none has it.
fn reply_in(replies: &BTreeMap<u64, Reply>, cookie: u64) -> Reply
    ensures { result ≡ told_in replies.now cookie }
{
    match replies.get(&cookie) {
        Some(reply) => *reply,
        None => Reply {
            ends: false,
            fails: false,
        },
    }
}

// Notes the message before those whose replies are noted.
fn note(message: &Message, replies: &mut BTreeMap<u64, Reply>) -> Result<(), AllocError>
    ensures { OnOk result ((later : List Message) → AreReplies later replies.old →
        AreReplies (message.now ∷ later) replies.new) }
{
    if let Some(cookie) = cookie_of(message) {
        let behind = reply_in(replies, cookie);
        let ends = ends_reply(message);
        replies.insert(
            cookie,
            Reply {
                ends: ends || behind.ends,
                fails: is_failing(message) || !ends && behind.fails,
            },
        )?;
    }
    Ok(())
}

// The cookie of a reply.
fn cookie_of(message: &Message) -> Option<u64>
    ensures { result ≡ cookie_of message.now }
{
    match message {
        Message::Simple { cookie, .. }
        | Message::Chunk { cookie, .. }
        | Message::ExtendedChunk { cookie, .. } => Some(*cookie),
        _ => None,
    }
}

// Whether a message ends its reply.
#[tactic(auto, unfolding(nbd_wire::specs::protocol::Operations::ends_reply))]
fn ends_reply(message: &Message) -> bool
    ensures { result ≡ ends_reply message.now }
{
    match message {
        Message::Simple { .. } => true,
        Message::Chunk { flags, .. } | Message::ExtendedChunk { flags, .. } => {
            has(*flags, chunks::DONE)
        }
        _ => false,
    }
}

// Whether a message states a failure.
#[tactic(auto, unfolding(nbd_wire::specs::protocol::Operations::is_failing))]
fn is_failing(message: &Message) -> bool
    ensures { result ≡ is_failing message.now }
{
    match message {
        Message::Simple { error, .. } => *error != 0,
        Message::Chunk { kind, .. } | Message::ExtendedChunk { kind, .. } => {
            *kind >= chunks::FIRST_ERROR
        }
        _ => false,
    }
}
