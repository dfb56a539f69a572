//! What a completed message leads to.

ghost use Rattle.std.specs.Prelude.{◌≡◌, ◌<◌, ◌==◌, ◌&&◌, ◌++◌, ◌∷◌, ℕ, List, [], Option, Some, None, false, if◌then◌else◌, length, OnOk};
ghost use Rattle.nbd_state.specs.{Places.{place_at, chunk_of}, Filters.filter_of_head, internal.{carried, operation_of_head, AddsUnanswered, IsTransmitting, TellsOne, is_allocation_told}, Shows.{Answers, MayTake, AreKnown, Shows, export_shown_if, phase_shown}};
ghost use Rattle.nbd_wire.specs.declared.commands.TheConstants as commands;
ghost use Rattle.nbd_wire.specs.declared.{message.Message.TheVariants.{Answer, Choice, Simple}, answers.TheConstants.ACK, options.TheConstants.EXTENDED_HEADERS};
ghost use Rattle.nbd_wire.specs.Prelude.{ack_phase, next_phase, agrees, reply_phase, is_proper_option, takes_contexts, Exporting, MayComplete, complete, grants_structured, core_with_request, is_reply_to, noted, IsSendable, Core, has_contexts, in_force, target, sizes_kept, status_in, core_with_reply, sizes_for};
ghost use Rattle.nbd_wire.specs.protocol.Options as options;
ghost use Rattle.nbd_wire.specs.protocol.States as definitions;
ghost use Rattle.nbd_laws.specs.Reached.{IsReached};

use crate::asked::Exchange;
use crate::heads::{chunk_in, request_in};
use crate::options::{is_proper_option, last_info, takes_contexts};
use crate::recording::Counts;
use crate::state::{Chosen, Export, Phase, State};
use crate::statuses::told_in;
use nbd_wire::answers::is_error;
use nbd_wire::flags::has;
use nbd_wire::{
    Bytes, ChunkHead, Message, RequestHead, Sizing, answers, chunks, commands, options, sizes_for,
};
use std::alloc::{AllocError, Global};

impl State {
    /// Takes a message that has completed (proto.md, "Newstyle negotiation", "Transmission"). A reply
    /// answers the request at `place`, and before its first byte `known` numbered requests had completed;
    /// of other messages the two do not matter.
    ///
    /// The condition is that the message may complete where the state stands; the state then shows what it
    /// leads to. After an `Err`, that memory ran out, nothing is known of the state but its profile.
    pub fn complete(
        &mut self,
        alloc: Global,
        message: &Message,
        place: usize,
        known: u64,
    ) -> Result<(), AllocError>
        requires may { MayTake self.old message.now }
        requires place { Answers self.old message.now place }
        ensures profile { self.new.profile ≡ self.old.profile }
        ensures shown { OnOk result ((core : Core) → IsReached core → Shows self.old core →
            IsSendable message.now → MayComplete core core.phase message.now →
            Shows self.new (complete core message.now)) }
        ensures known { OnOk result ((core : Core) (before : ℕ → Option ℕ) → IsReached core →
            Shows self.old core → AreKnown before self.old.exchanges.items →
            AreKnown (λ k. noted (before k) (is_reply_to core message.now k) known) self.new.exchanges.items) }
    {
        if let Some((head, payload)) = request_in(message) {
            return self.request(alloc, &head, payload);
        }
        if let Some((head, payload)) = chunk_in(message) {
            return self.chunk(alloc, &head, place, payload, known);
        }
        match message {
            Message::Greeting { flags } => {
                self.offered = *flags;
                self.phase = Phase::Flags;
                Ok(())
            }
            Message::ClientFlags { flags } => {
                self.client_flags = *flags;
                self.phase = Phase::Choosing;
                Ok(())
            }
            Message::Choice { id, payload } => self.choice(*id, payload),
            Message::Answer {
                option,
                kind,
                payload,
            } => self.answer(*option, *kind, payload),
            Message::Exported { size, flags, .. } => {
                self.phase = Phase::Transmission(Export {
                    size: *size,
                    flags: *flags,
                });
                Ok(())
            }
            Message::Simple {
                error,
                cookie,
                payload,
            } => self.simple(alloc, *error, *cookie, place, payload, known),
            _ => unreachable!(),
        }
    }

    // A choice of an option has completed.
    fn choice(&mut self, id: u32, payload: &Bytes) -> Result<(), AllocError>
        ensures profile { self.new.profile ≡ self.old.profile }
        ensures exchanges { self.new.exchanges ≡ self.old.exchanges }
        ensures shown { OnOk result ((core : Core) → Shows self.old core →
            MayComplete core core.phase (Choice id payload.now) →
            Shows self.new (complete core (Choice id payload.now))) }
    {
        let with = payload.as_slice();
        self.brings_contexts = self.structured && self.selection.agrees(id, with);
        self.phase = chosen(id, with);
        self.sizing = Sizing::at(id, with);
        self.selection.choose(id, with)
    }

    // An answer to an option has completed.
    fn answer(&mut self, option: u32, kind: u32, payload: &Bytes) -> Result<(), AllocError>
        ensures profile { self.new.profile ≡ self.old.profile }
        ensures exchanges { self.new.exchanges ≡ self.old.exchanges }
        ensures shown { OnOk result ((core : Core) → Shows self.old core →
            MayComplete core core.phase (Answer option kind payload.now) →
            Shows self.new (complete core (Answer option kind payload.now))) }
    {
        self.structured |= grants_structured(option, kind);
        self.extended |= grants_extended(option, kind);
        let phase = self.phase;
        let answer = payload.as_slice();
        self.phase = phase_after_reply(phase, kind, answer);
        self.sizing = self.sizing.after(kind, answer);
        self.selection.answered(phase, kind, answer)
    }

    // A request has completed.
    fn request(
        &mut self,
        alloc: Global,
        head: &RequestHead,
        payload: &Bytes,
    ) -> Result<(), AllocError>
        requires { IsTransmitting self.old.phase }
        ensures shown { OnOk result ((core : Core) (export : Exporting) → Shows self.old core →
            core.phase ≡ definitions.Transmission export → ((head.now.command == commands.DISC) ≡ false →
            target head.now.cookie core.entries ≡ None) →
            Shows self.new (core_with_request (head.now.command == commands.DISC) core
            (operation_of_head head.now (carried head.now payload.now) (in_force core)
            (filter_of_head (has_contexts core) head.now payload.now)
            (sizes_for core.structured head.now.command (sizes_kept core.sizing)) []))) }
        ensures adds { OnOk result (AddsUnanswered self.old.exchanges.items self.new.exchanges.items) }
        ensures profile { self.new.profile ≡ self.old.profile }
    {
        if head.command == commands::DISC {
            self.disconnected = true;
            return Ok(());
        }
        match self.phase {
            Phase::Transmission(export) => {
                let sizes = sizes_for(self.structured, head.command, self.sizing.kept());
                let (in_force, flags) = (self.brings_contexts, export.flags);
                let bytes = payload.as_slice();
                let asking = self.selection.asking(alloc, in_force, flags, head, bytes)?;
                let exchange = Exchange::new(alloc, export, asking, sizes, head, payload)?;
                self.add(head.cookie, exchange)
            }
            _ => unreachable!(),
        }
    }

    // One more exchange, outstanding with this cookie.
    fn add(&mut self, cookie: u64, exchange: Exchange) -> Result<(), AllocError>
        ensures profile { self.new.profile ≡ self.old.profile }
        ensures items { OnOk result (self.new.exchanges.items ≡ self.old.exchanges.items ++ exchange ∷ []) }
        ensures places { OnOk result ((q : ℕ) →
            place_at self.new.outstanding q ≡ (if cookie == q then Some (length self.old.exchanges.items)
            else place_at self.old.outstanding q)) }
        ensures kept { OnOk result (self.new ≡ record self.old {
          exchanges = self.new.exchanges;
          outstanding =
              self.new.outstanding;
        }) }
    {
        let place = self.exchanges.len();
        self.exchanges.push(exchange)?;
        self.outstanding.insert(cookie, place)
    }

    // A simple reply has completed.
    fn simple(
        &mut self,
        alloc: Global,
        error: u32,
        cookie: u64,
        place: usize,
        payload: &Bytes,
        known: u64,
    ) -> Result<(), AllocError>
        requires place { place_at self.old.outstanding cookie ≡ Some place }
        requires within { place < length self.old.exchanges.items }
        ensures profile { self.new.profile ≡ self.old.profile }
        ensures shown { OnOk result ((core : Core) (export : Exporting) → IsReached core →
            Shows self.old core → core.phase ≡ definitions.Transmission export →
            Shows self.new (core_with_reply core (Simple error cookie payload.now))) }
        ensures tells { OnOk result (TellsOne (place_at self.old.outstanding cookie) known
            self.old.exchanges.items self.new.exchanges.items) }
    {
        let now = self.exchanges.len() as u64;
        self.end_if(true, cookie);
        self.exchanges[place].take_simple(alloc, error, payload, Counts { known, now })
    }

    // A chunk with this head has completed.
    fn chunk(
        &mut self,
        alloc: Global,
        head: &ChunkHead,
        place: usize,
        payload: &Bytes,
        known: u64,
    ) -> Result<(), AllocError>
        requires place { place_at self.old.outstanding head.now.cookie ≡ Some place }
        requires within { place < length self.old.exchanges.items }
        ensures profile { self.new.profile ≡ self.old.profile }
        ensures shown { OnOk result ((core : Core) (export : Exporting) → IsReached core →
            Shows self.old core → core.phase ≡ definitions.Transmission export →
            Shows self.new (core_with_reply core (chunk_of head.now payload.now))) }
        ensures tells { OnOk result (TellsOne (place_at self.old.outstanding head.now.cookie) known
            self.old.exchanges.items self.new.exchanges.items) }
    {
        let zeroes = self.is_allocation_told(head, payload.as_slice());
        let now = self.exchanges.len() as u64;
        self.end_if(has(head.flags, chunks::DONE), head.cookie);
        self.exchanges[place].take_chunk(alloc, head, payload, zeroes, Counts { known, now })
    }

    // A chunk is the status of a context in force that tells what reads as zeroes.
    fn is_allocation_told(&self, head: &ChunkHead, payload: &[u8]) -> bool
        ensures { (core : Core) → Shows self.now core →
            result ≡ is_allocation_told (in_force core) (status_in (chunk_of head.now payload.now)) }
    {
        match told_in(head, payload) {
            Some((id, _)) => self.is_allocation(id),
            None => false,
        }
    }

    // The request with this cookie is no longer outstanding where its reply ends.
    fn end_if(&mut self, ends: bool, cookie: u64)
        ensures left { (q : ℕ) →
            place_at self.new.outstanding q ≡ (if ends && (cookie == q) then None else place_at self.old.outstanding q) }
        ensures kept { self.new ≡ record self.old { outstanding = self.new.outstanding } }
    {
        if ends {
            self.outstanding.remove(cookie);
        }
    }
}

/// Where a chosen option leads.
fn chosen(option: u32, payload: &[u8]) -> Phase
    ensures { result ≡ phase_shown (options.choice_phase option payload.now) }
{
    match option {
        options::EXPORT_NAME => Phase::Naming,
        options::ABORT => Phase::Aborting,
        _ => Phase::Answering(Chosen {
            option,
            proper: is_proper_option(option, payload),
            takes: takes_contexts(option, payload),
            info: None,
        }),
    }
}

/// Whether an answer puts structured replies in force.
fn grants_structured(option: u32, kind: u32) -> bool
    ensures { result ≡ grants_structured option kind }
{
    (option == options::STRUCTURED_REPLY || option == options::EXTENDED_HEADERS)
        && kind == answers::ACK
}

/// Whether an answer puts extended headers in force.
fn grants_extended(option: u32, kind: u32) -> bool
    ensures { result ≡ ((option == EXTENDED_HEADERS) && (kind == ACK)) }
{
    option == options::EXTENDED_HEADERS && kind == answers::ACK
}

/// Where an answer leads.
fn phase_after_reply(phase: Phase, kind: u32, payload: &[u8]) -> Phase
    ensures { (p : definitions.Phase) (option : ℕ) → phase ≡ phase_shown p →
        result ≡ phase_shown (next_phase p (Answer option kind payload.now)) }
{
    match phase {
        Phase::Aborting => Phase::Ended,
        Phase::Answering(chosen) => after_reply(chosen, kind, payload),
        _ => phase,
    }
}

/// Where an answer to an option leads.
fn after_reply(chosen: Chosen, kind: u32, payload: &[u8]) -> Phase
    ensures { (given : List ℕ) (info : Option Exporting) →
        chosen.proper ≡ is_proper_option chosen.option given → chosen.takes ≡ takes_contexts chosen.option given →
        chosen.info ≡ export_shown_if info →
        result ≡ phase_shown (reply_phase chosen.option given info kind payload.now) }
{
    if is_error(kind) {
        return Phase::Choosing;
    }
    match kind {
        answers::SERVER | answers::META_CONTEXT => Phase::Answering(chosen),
        answers::INFO => Phase::Answering(Chosen {
            info: last_info(payload, chosen.info),
            ..chosen
        }),
        _ => ack_phase(chosen),
    }
}

/// Where an ACK leads.
fn ack_phase(chosen: Chosen) -> Phase
    ensures { (info : Option Exporting) → chosen.info ≡ export_shown_if info →
        result ≡ phase_shown (ack_phase chosen.option info) }
{
    match chosen.info {
        Some(export) if chosen.option == options::GO => Phase::Transmission(export),
        _ => Phase::Choosing,
    }
}
