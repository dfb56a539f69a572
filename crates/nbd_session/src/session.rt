//! A session, whose bytes are given in steps.

ghost use Rattle.std.specs.Prelude.{◌≡◌, ◌+◌, ◌++◌, ◌<◌, ◌≤◌, ◌^◌, drop, Err, IfErr, IfOk, None, OnOk, Some, length};
ghost use Rattle.nbd_wire.specs.Prelude.{side_pairs, IsUnderWayOf, CompletesExactlyOf};
ghost use Rattle.nbd_session.specs.{declared.fault.SessionFault.SessionFault, Refusals.{EndsIn, HasNoPlaceOf, IsComplete, Refuses}, Sessions.{Adds, AddsPrefix, IsAtEnd, IsOfRun, IsReported, fault_at_end, fault_of, empty_session, empty_session_of, pairs_of, bytes_taken}, Views.stretches_of};

use crate::fault::SessionFault;
use crate::log::Log;
use crate::monitor::Monitor;
use crate::stretches::Stretch;
use nbd_state::Transcript;
use nbd_wire::{Message, Profile, Side};
use std::alloc::Global;
use std::marker::Model;

/// A session that is being read, or one that was closed by a fault.
///
/// In a contract it is the profile that it is held to, and what it holds of the bytes that it was given
/// (`specs/Sessions.antt`): the accepted messages, each side's bytes after them, and which side sent how many bytes in
/// succession. From these one gets back every byte that was taken.
#[derive(Drop)]
pub struct Session {
    monitor: Monitor,
    log: Log,
}

impl Model for Session {
    ghost use Rattle.nbd_session.specs.{Sessions.SessionView, internal.Logging.IsLogged, Views.session_view};

    ghost Value = { SessionView };

    ghost view = { λ s. session_view s.monitor s.log };

    ghost invariant = { λ s. IsLogged s.monitor s.log };
}

impl Session {
    /// A session that has taken nothing and is held to the profile `Base`; takes no memory.
    pub fn new(alloc: Global) -> Session
        ensures { result ≡ empty_session }
    {
        Session::of(alloc, Profile::Base)
    }

    /// A session that has taken nothing and is held to this profile; takes no memory.
    pub fn of(alloc: Global, profile: Profile) -> Session
        ensures { result ≡ empty_session_of profile }
    {
        Session {
            monitor: Monitor::of(alloc, profile),
            log: Log::new(alloc),
        }
    }

    /// How many bytes were taken, of both sides: with the byte of a wire fault, without the bytes after it.
    pub fn taken(&self) -> u64
        ensures { result ≡ bytes_taken self.now }
    {
        self.monitor.taken
    }

    /// Takes the next bytes of the capture, which are of one side and any number. The precondition is that `taken` and
    /// their number together are below 2^63.
    ///
    /// After `Wire` or `Memory` the session is closed: each later call returns the same fault and changes nothing.
    /// After `Wire` the bytes up to and including the refused one were taken, and `messages` are those before it. After
    /// `Memory` some prefix of the new bytes was taken, and `messages` are those whose last byte was taken, except
    /// perhaps the last one.
    pub fn push(&mut self, side: Side, piece: &[u8]) -> Result<(), SessionFault>
        requires { bytes_taken self.old + length piece.now < 2 ^ 63 }
        ensures added { OnOk result (pairs_of self.new ≡ pairs_of self.old ++ side_pairs side piece.now) }
        ensures open { OnOk result (self.new.closed ≡ None) }
        ensures profile { self.new.profile ≡ self.old.profile }
        ensures prefix { AddsPrefix self.old self.new side piece.now }
        ensures refused { IfErr result (λ fault. self.new.closed ≡ Some fault) }
        ensures at { IfErr result (λ fault. self.old.closed ≡ None → IsAtEnd self.new fault) }
        ensures closed { (fault : SessionFault) → self.old.closed ≡ Some fault → (result ≡ Err fault)
            × (self.new ≡ self.old) }
        ensures complete { OnOk result (CompletesExactlyOf self.new.profile (pairs_of self.new) self.new.messages) }
        ensures placeless { OnOk result (HasNoPlaceOf self.new.profile (pairs_of self.new)) }
        ensures under_way { OnOk result (IsUnderWayOf self.new.profile (pairs_of self.new) self.new.messages) }
        ensures wire { IfErr result (λ fault. Refuses self.new fault) }
    {
        let mut left = piece;
        while !left.is_empty() && self.closed().is_none() {
            let count = self.step(side, left);
            left = left.split_at(count).1;
        }
        match self.closed() {
            Some(fault) => Err(fault),
            None => Ok(()),
        }
    }

    // Takes a prefix of these bytes of a side, and states its length.
    fn step(&mut self, side: Side, left: &[u8]) -> usize
        requires open { self.old.closed ≡ None }
        requires filled { 0 < length left.now }
        requires fits { bytes_taken self.old + length left.now < 2 ^ 63 }
        ensures within { result ≤ length left.now }
        ensures some { self.new.closed ≡ None → 0 < result }
        ensures profile { self.new.profile ≡ self.old.profile }
        ensures adds { Adds (pairs_of self.old) (pairs_of self.new) self.old.messages self.new.messages side left.now
            (drop result left.now) }
    {
        if self.log.reserve().is_err() {
            self.monitor.closed = Some(SessionFault::Memory);
            return 0;
        }
        let (count, message) = self.monitor.step(side, left);
        self.log.add(side, count, message);
        count
    }

    // Why it was closed, if it was.
    fn closed(&self) -> Option<SessionFault>
        ensures closed { result ≡ self.now.closed }
        ensures complete { IsComplete self.now }
    {
        self.monitor.closed
    }

    /// The accepted messages, in the order of their completion.
    pub fn messages(&self) -> &[Message]
        ensures messages { result.now ≡ self.now.messages }
        ensures run { IsOfRun self.now }
        ensures complete { IsComplete self.now }
    {
        self.log.messages.as_slice()
    }

    /// Which side sent how many of the bytes that were taken, one stretch after the other.
    pub fn stretches(&self) -> &[Stretch]
        ensures { stretches_of result.now ≡ self.now.stretches }
    {
        self.log.stretches.as_slice()
    }

    /// Ends the session; takes no memory.
    ///
    /// For a closed session it returns the fault that closed it. If a message that started has not completed, it
    /// returns `Unfinished` at the count of all bytes.
    pub fn finish(self) -> Result<Transcript, SessionFault>
        ensures report { IfOk result (IsReported self) }
        ensures fault { fault_of result ≡ fault_at_end self }
        ensures wire { IfErr result (λ fault. EndsIn self fault) }
    {
        self.monitor.finish()
    }

    /// Ends the session as `finish` does, and hands out the accepted messages and the fault, if there is one. What was noted of the
    /// requests is let go, so that nobody else holds the payloads. Takes no memory.
    pub fn into_messages(self) -> (Vec<Message>, Option<SessionFault>)
        ensures messages { result.0.items ≡ self.messages }
        ensures fault { result.1 ≡ fault_at_end self }
        ensures run { IsOfRun self }
        ensures complete { IsComplete self }
    {
        let fault = self.monitor.finish().err();
        (self.log.messages, fault)
    }
}
