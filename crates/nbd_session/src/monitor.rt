//! What follows a session's bytes as they come, and keeps none of its messages.

ghost use Rattle.std.specs.Prelude.{◌≡◌, ◌+◌, ◌<◌, ◌≤◌, ◌^◌, [], drop, take, length, Err, IfErr, IfOk, None, OnErr, OnOk, Some};
ghost use Rattle.nbd_wire.specs.Prelude.{start_of};
ghost use Rattle.nbd_session.specs.{Following.{Follows, IsPushed}, Incoming.{bytes_come, incoming_with, nothing_come}, Refusals.EndsIn, Sessions.{Adds, IsReported, SessionView, empty_session_of, end_by, fault_at_end, fault_of, open_end_fault}, declared.fault.SessionFault.TheVariants.{Memory, Wire}};
ghost use Rattle.nbd_session.specs.internal.{Known.{holding_of, incoming_of, with_expected, with_incoming, awaited}, Standing.{Past, completed, count_at_server, rest_of, sent}, Steps.{IsExpecting, IsHeadRefused, IsKept, IsTaken, IsWhole, Knows, Stands}};

use crate::deciding::{decide, form_of};
use crate::ending::last_fault;
use crate::expected::Expected;
use crate::fault::SessionFault;
use crate::incoming::Incoming;
use nbd_state::{State, Transcript};
use nbd_wire::{Bytes, Message, Profile, Side, WireFault};
use std::alloc::{AllocError, Global};

/// What is held of a session under way: where it stands, and each side's bytes after its messages.
#[derive(Drop)]
pub struct Monitor {
    alloc: Global,
    pub(crate) state: State,
    /// The client's bytes after its messages.
    pub(crate) client: Incoming,
    /// The server's bytes after its messages.
    pub(crate) server: Incoming,
    /// How many numbered requests had completed before the first of the server's bytes after its messages.
    pub(crate) counted: u64,
    /// How many bytes were taken, of both sides.
    pub(crate) taken: u64,
    /// Why it takes no more.
    pub(crate) closed: Option<SessionFault>,
}

impl Monitor {
    /// Before the first byte of a session that is held to this profile; takes no memory.
    pub fn of(alloc: Global, profile: Profile) -> Monitor
        ensures { Follows result (empty_session_of profile) }
    {
        Monitor {
            alloc,
            state: State::of(alloc, profile),
            client: Incoming::new(alloc),
            server: Incoming::new(alloc),
            counted: 0,
            taken: 0,
            closed: None,
        }
    }

    /// Takes the next bytes of the capture, which are of one side and any number, as `Session::push` does. The
    /// precondition is that `taken` and their number together are below 2^63.
    pub fn push(&mut self, side: Side, piece: &[u8]) -> Result<(), SessionFault>
        requires follows { (r : SessionView) × Follows self.old r }
        requires fits { self.old.taken + length piece.now < 2 ^ 63 }
        ensures { (r : SessionView) → Follows self.old r →
            (next : SessionView) × Follows self.new next × IsPushed r next side piece.now result }
    {
        let mut left = piece;
        while !left.is_empty() && self.closed.is_none() {
            let count = self.pass(side, left);
            left = left.split_at(count).1;
        }
        match self.closed {
            Some(fault) => Err(fault),
            None => Ok(()),
        }
    }

    // Takes a prefix of these bytes of a side, and states its length.
    fn pass(&mut self, side: Side, left: &[u8]) -> usize
        requires stands { (past : Past) × Stands self.old past }
        requires filled { 0 < length left.now }
        requires fits { self.old.taken + length left.now < 2 ^ 63 }
        ensures within { result ≤ length left.now }
        ensures some { self.new.closed ≡ None → 0 < result }
        ensures profile { self.new.state.profile ≡ self.old.state.profile }
        ensures adds { (past : Past) → Stands self.old past → (next : Past) × IsKept self.new next
            × Adds past.pairs next.pairs past.messages next.messages side left.now (drop result left.now) }
    {
        let (count, message) = self.step(side, left);
        drop(message);
        count
    }

    /// Takes a prefix of these bytes of a side, up to the next length at which something is decided. States its length,
    /// and the message that it completes. After a fault, or where memory ran out, it is closed.
    pub(crate) fn step(&mut self, side: Side, left: &[u8]) -> (usize, Option<Message>)
        requires stands { (past : Past) × Stands self.old past }
        requires filled { 0 < length left.now }
        requires fits { self.old.taken + length left.now < 2 ^ 63 }
        ensures within { result.0 ≤ length left.now }
        ensures some { self.new.closed ≡ None → 0 < result.0 }
        ensures profile { self.new.state.profile ≡ self.old.state.profile }
        ensures kept { (past : Past) → Stands self.old past →
            IsKept self.new (completed (sent past side (take result.0 left.now)) result.1) }
    {
        let count = self.missing(side).min(left.len());
        match self.take(side, &left[..count]) {
            Ok(()) => (count, self.settle(side)),
            Err(AllocError) => {
                self.closed = Some(SessionFault::Memory);
                (0, None)
            }
        }
    }

    // A side's bytes after its messages.
    fn incoming(&self, side: Side) -> &Incoming
        ensures { result.now ≡ incoming_of self.now side }
    {
        match side {
            Side::Client => &self.client,
            Side::Server => &self.server,
        }
    }

    // How many more bytes of a side are wanted until something is decided of them.
    fn missing(&self, side: Side) -> usize
        requires { (past : Past) × Stands self.now past }
        ensures awaited { (past : Past) (st : Stands self.now past) →
            length (rest_of (holding_of self.now past) side) + result ≡ awaited st.reader side }
        ensures room { (incoming_of self.now side).expected ≡ None →
            length (incoming_of self.now side).head + result ≤ 32 }
    {
        let incoming = self.incoming(side);
        if let Some(expected) = incoming.expected() {
            return expected.payload_length() - incoming.payload().len();
        }
        let head = incoming.head();
        match form_of(&self.state, side, head) {
            Some(form) => form.length() - head.len(),
            None => 1,
        }
    }

    // Takes bytes of a side. An `Err` says that memory ran out; then no byte was taken.
    fn take(&mut self, side: Side, piece: &[u8]) -> Result<(), AllocError>
        requires room { (incoming_of self.old side).expected ≡ None →
            length (incoming_of self.old side).head + length piece.now ≤ 32 }
        requires fits { self.old.taken + length piece.now < 2 ^ 64 }
        ensures incoming { OnOk result (self.new ≡ record (with_incoming self.old side (incoming_with
            (incoming_of self.old side) piece.now)) {
              counted = self.new.counted;
              taken = self.old.taken + length piece.now;
            }) }
        ensures counted { OnOk result (self.new.counted ≡ count_at_server side self.old.server.head self.old.counted
            (length self.old.state.exchanges.items)) }
        ensures unchanged { OnErr result (self.new ≡ self.old) }
    {
        match side {
            Side::Client => self.client.add(piece)?,
            Side::Server => {
                let is_first = self.server.is_empty();
                self.server.add(piece)?;
                if is_first {
                    self.counted = self.state.exchanges.len() as u64;
                }
            }
        }
        self.taken += piece.len() as u64;
        Ok(())
    }

    // If a head has become whole, decides which message it begins; if a message has become whole, accepts it.
    fn settle(&mut self, side: Side) -> Option<Message>
        requires { (past : Past) × IsTaken self.old side past }
        ensures profile { self.new.state.profile ≡ self.old.state.profile }
        ensures kept { (past : Past) → IsTaken self.old side past → IsKept self.new (completed past result) }
    {
        match self.told(side) {
            Ok(Some(expected)) => {
                self.note_expected(side, expected);
                self.conclude(side, expected)
            }
            Ok(None) => None,
            Err(fault) => self.refuse(fault),
        }
    }

    // What a side's head says, once its last byte has come.
    fn told(&self, side: Side) -> Result<Option<Expected>, WireFault>
        requires { (past : Past) × IsTaken self.now side past }
        ensures known { IfOk result (λ expected. Knows self.now side expected) }
        ensures none { IfOk result (λ expected. expected ≡ None → (incoming_of self.now side).expected ≡ None) }
        ensures refused { IfErr result (λ fault. IsHeadRefused self.now side fault) }
    {
        let incoming = self.incoming(side);
        if let Some(expected) = incoming.expected() {
            return Ok(Some(expected));
        }
        let head = incoming.head();
        let Some(form) = form_of(&self.state, side, head) else {
            return Err(WireFault::OutOfTurn);
        };
        if head.len() < form.length() {
            return Ok(None);
        }
        Ok(Some(decide(form, &self.state, head, self.counted)?))
    }

    // Notes that the head of a side's message is whole, and what it says.
    fn note_expected(&mut self, side: Side, expected: Expected)
        ensures { self.new ≡ with_expected self.old side (Some expected) }
    {
        match side {
            Side::Client => self.client.expect(expected),
            Side::Server => self.server.expect(expected),
        }
    }

    // Closes it for a fault of the wire at the last byte that was taken; no message completes.
    fn refuse(&mut self, fault: WireFault) -> Option<Message>
        ensures closed { self.new ≡ record self.old { closed = Some (Wire self.old.taken fault) } }
        ensures none { result ≡ None }
    {
        let at = self.taken;
        self.closed = Some(SessionFault::Wire { at, fault });
        None
    }

    // Accepts a side's message if all of its bytes have come and its last one breaks no rule.
    fn conclude(&mut self, side: Side, expected: Expected) -> Option<Message>
        requires { (past : Past) × IsExpecting self.old side expected past }
        ensures profile { self.new.state.profile ≡ self.old.state.profile }
        ensures kept { (past : Past) → IsExpecting self.old side expected past → IsKept self.new (completed past result) }
    {
        let payload = self.incoming(side).payload();
        if payload.len() < expected.payload_length() {
            return None;
        }
        match last_fault(&self.state, &expected, payload) {
            Some(fault) => self.refuse(fault),
            None => self.accept(side, expected),
        }
    }

    // Accepts a message whose last byte has come.
    fn accept(&mut self, side: Side, expected: Expected) -> Option<Message>
        requires { (past : Past) × IsWhole self.old side expected past }
        ensures profile { self.new.state.profile ≡ self.old.state.profile }
        ensures kept { (past : Past) → IsWhole self.old side expected past → IsKept self.new (completed past result) }
    {
        let Ok(payload) = self.take_payload(side) else {
            self.closed = Some(SessionFault::Memory);
            return None;
        };
        let place = expected.place();
        let message = expected.message(payload);
        if self
            .state
            .complete(self.alloc, &message, place, self.counted)
            .is_err()
        {
            self.closed = Some(SessionFault::Memory);
        }
        Some(message)
    }

    // Empties a side's bytes, and returns those after the head. After an `Err`, that memory ran out, all is as it was.
    fn take_payload(&mut self, side: Side) -> Result<Bytes, AllocError>
        ensures payload { IfOk result (λ payload. payload ≡ (incoming_of self.old side).payload) }
        ensures empty { OnOk result (self.new ≡ with_incoming self.old side nothing_come) }
        ensures unchanged { OnErr result (self.new ≡ self.old) }
    {
        match side {
            Side::Client => self.client.take(self.alloc),
            Side::Server => self.server.take(self.alloc),
        }
    }

    /// Ends the session, as `Session::finish` does; takes no memory.
    pub fn finish(self) -> Result<Transcript, SessionFault>
        requires { (r : SessionView) × Follows self r }
        ensures report { IfOk result (λ report. (r : SessionView) → Follows self r → IsReported r report) }
        ensures fault { (r : SessionView) → Follows self r → fault_of result ≡ fault_at_end r }
        ensures wire { IfErr result (λ fault. (r : SessionView) → Follows self r → EndsIn r fault) }
    {
        match self.fault_at_end() {
            Some(fault) => Err(fault),
            None => Ok(self.state.transcript()),
        }
    }

    // The fault of a session that is to end.
    fn fault_at_end(&self) -> Option<SessionFault>
        requires { (r : SessionView) × Follows self.now r }
        ensures { (r : SessionView) → Follows self.now r → result ≡ fault_at_end r }
    {
        match self.closed {
            None => self.open_end(),
            closed => closed,
        }
    }

    // `Unfinished`, if a side has bytes after its messages.
    fn open_end(&self) -> Option<SessionFault>
        requires { (past : Past) × Stands self.now past }
        ensures { result ≡ open_end_fault (bytes_come self.now.client) (bytes_come self.now.server) self.now.taken }
    {
        if self.client.is_empty() && self.server.is_empty() {
            return None;
        }
        let at = self.taken;
        let fault = WireFault::Unfinished;
        Some(SessionFault::Wire { at, fault })
    }
}
