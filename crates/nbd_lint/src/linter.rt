//! The messages of a session, judged one after the other.

use crate::chunks::{Chunk, take_chunk};
use crate::endings::{Stage, judge_end};
use crate::errors::judge_error;
use crate::handshake::judge_greeting;
use crate::infos::judge_flags;
use crate::negotiation::Negotiation;
use crate::notes::Notes;
use crate::numbers::ESHUTDOWN;
use crate::places::START;
use crate::reply::{Errored, Reply};
use crate::requests::{judge_disconnect, judge_request};
use crate::sizes::{Announced, NOTHING};
use crate::table::Name;
use crate::tls::judge_tls;
use crate::transmission::Transmission;
use nbd_session::{Session, Stretch};
use nbd_state::{Export, chunk_in, request_in};
use nbd_wire::{Bytes, Info, Message, RequestHead, answers, commands, info_of, options, side_of};
use std::alloc::Global;
use std::collections::BTreeMap;

/// What was found in the messages of a session, and where they leave it.
#[derive(Drop)]
pub struct Linter {
    pub(crate) notes: Notes,
    stage: Stage,
    /// How many requests are outstanding.
    open: u64,
}

impl Linter {
    /// One that has taken the messages that a session accepted; whether hints are looked for.
    pub fn of(alloc: Global, session: &Session, are_hinting: bool) -> Linter {
        let mut notes = Notes::none(alloc, are_hinting);
        let mut course = Course::none(alloc);
        course.take_all(session.messages(), session.stretches(), &mut notes);
        Linter {
            notes,
            stage: course.stage,
            open: course.transmission.open,
        }
    }

    /// Takes the end of the capture, which has so many bytes: it ends between messages.
    pub fn close(&mut self, bytes: u64) {
        if self.notes.are_hinting {
            judge_end(self.stage, self.open, bytes, &mut self.notes);
        }
    }
}

/// What the rules ask of the messages so far.
#[derive(Drop)]
struct Course {
    negotiation: Negotiation,
    transmission: Transmission,
    /// The requests whose reply has begun, by their cookies.
    begun: BTreeMap<u64, Reply>,
    stage: Stage,
}

impl Course {
    // Before the first message; takes no memory.
    fn none(alloc: Global) -> Course {
        Course {
            negotiation: Negotiation::none(alloc),
            transmission: Transmission::none(alloc),
            begun: BTreeMap::new(alloc),
            stage: Stage::Apart,
        }
    }

    // Takes the messages of a capture of these stretches.
    fn take_all(&mut self, messages: &[Message], stretches: &[Stretch], notes: &mut Notes) {
        let mut places = START;
        for (at, message) in messages.iter().enumerate() {
            let place = places.place_of(stretches, message);
            notes.begin(side_of(message), place);
            self.take(message, at, messages, notes);
        }
    }

    // Takes the next message, which stands at this place among all.
    fn take(&mut self, message: &Message, at: usize, messages: &[Message], notes: &mut Notes) {
        match message {
            Message::Greeting { flags } => judge_greeting(*flags, notes),
            Message::ClientFlags { .. } => self.stage = Stage::Negotiating,
            Message::Choice { id, payload } => self.choose(*id, payload, notes),
            Message::Answer { kind, payload, .. } => self.answer(*kind, payload.as_slice(), notes),
            Message::Exported { size, flags, .. } => self.name(*size, *flags, notes),
            Message::Simple { error, cookie, .. } => {
                if *error != 0 {
                    self.begin_reply(*cookie, messages, notes);
                    self.fail(*cookie, *error, notes);
                }
                self.end(*cookie, notes);
            }
            _ => self.transmit(message, at, messages, notes),
        }
    }

    // Takes a request or a chunk.
    fn transmit(&mut self, message: &Message, at: usize, messages: &[Message], notes: &mut Notes) {
        if let Some((head, payload)) = chunk_in(message) {
            let chunk = Chunk {
                flags: head.flags,
                kind: head.kind,
                payload: payload.as_slice(),
            };
            self.begin_reply(head.cookie, messages, notes);
            self.chunk(head.cookie, chunk, notes);
        } else if let Some((head, _)) = request_in(message) {
            self.ask(at, &head, messages, notes);
        }
    }

    // Takes an option, what it selects, and whether it brings contexts into force.
    fn choose(&mut self, id: u32, payload: &Bytes, notes: &mut Notes) {
        self.negotiation.choose(id, payload, notes);
        let transmission = &mut self.transmission;
        let agrees = transmission.selection.agrees(id, payload.as_slice());
        notes.keep(transmission.selection.choose(id, payload.as_slice()));
        transmission.is_agreed = agrees && self.negotiation.structured;
        self.stage = match id {
            options::ABORT => Stage::Aborting,
            options::EXPORT_NAME => Stage::Apart,
            _ => Stage::Negotiating,
        };
    }

    // Takes an answer to the option that was chosen last: what it tells of contexts and of the export, and where it leads.
    fn answer(&mut self, kind: u32, answer: &[u8], notes: &mut Notes) {
        self.negotiation.answer(kind, answer, notes);
        match self.negotiation.asked.id {
            options::SET_META_CONTEXT => {
                notes.keep(self.transmission.selection.told(kind, answer));
            }
            options::ABORT => self.stage = Stage::Apart,
            options::GO if kind == answers::ACK => self.begin(self.negotiation.asked.sizes),
            _ => {}
        }
        if kind == answers::INFO {
            if let Some(Info::Export { size, flags }) = info_of(answer) {
                self.transmission.export = Export { size, flags };
            }
        }
    }

    // The transmission begins, of an export with these sizes.
    fn begin(&mut self, sizes: Announced) {
        self.transmission.sizes = sizes;
        self.transmission.structured = self.negotiation.structured;
        self.stage = Stage::Transmitting;
    }

    // Takes the answer to EXPORT_NAME.
    fn name(&mut self, size: u64, flags: u16, notes: &mut Notes) {
        let negotiation = &self.negotiation;
        judge_flags(negotiation.structured, flags, notes);
        judge_tls(&negotiation.tls, &negotiation.asked, 0, notes);
        self.transmission.export = Export { size, flags };
        self.begin(NOTHING);
    }

    // Takes a request with this head, the message at this place of all.
    fn ask(&mut self, at: usize, head: &RequestHead, messages: &[Message], notes: &mut Notes) {
        let transmission = &mut self.transmission;
        if head.command == commands::DISC {
            judge_disconnect(head.flags, transmission, notes);
            self.stage = Stage::Disconnected;
        } else {
            transmission.ask(head.cookie, at, notes);
            if let Some(request) = transmission.outstanding(head.cookie, messages, notes) {
                judge_request(&request, transmission, notes);
            }
        }
    }

    // Judges a simple reply that is an error: with structured replies it comes in one (proto.md, "Structured reply chunk message").
    fn fail(&mut self, cookie: u64, error: u32, notes: &mut Notes) {
        let transmission = &mut self.transmission;
        let errored = Errored {
            error,
            offset: None,
            is_plain: true,
        };
        if let Some(reply) = self.begun.get(&cookie) {
            let structured = transmission.structured;
            notes.speak_of(&reply.request);
            notes.note_one(Name::SimpleError, structured, u64::from(error));
            judge_error(reply, transmission, errored, notes);
        }
        if error == ESHUTDOWN {
            transmission.shut_down(notes.place);
        }
    }

    // Takes a chunk of a reply that has begun.
    fn chunk(&mut self, cookie: u64, chunk: Chunk<'_>, notes: &mut Notes) {
        if let Some(reply) = self.begun.get_mut(&cookie) {
            let error = take_chunk(reply, &self.transmission, chunk, notes);
            if error == ESHUTDOWN {
                self.transmission.shut_down(notes.place);
            }
        }
        if chunk.is_last() {
            self.end(cookie, notes);
        }
    }

    // The reply to a request begins, if it has not yet.
    fn begin_reply(&mut self, cookie: u64, messages: &[Message], notes: &mut Notes) {
        if !self.begun.contains_key(&cookie) {
            if let Some(request) = self.transmission.outstanding(cookie, messages, notes) {
                let reply = Reply::none(notes.alloc, request);
                notes.keep(self.begun.insert(cookie, reply));
            }
        }
    }

    // The reply to a request is whole: the content of a READ that succeeds is cut at no multiple of 512 (proto.md, "Request types").
    fn end(&mut self, cookie: u64, notes: &mut Notes) {
        if let Some(reply) = self.begun.remove(&cookie) {
            let is_cut = reply.cut != 0 && reply.errors == 0;
            notes.note_one(Name::ChunkOff512, is_cut, reply.cut);
        }
        self.transmission.end(cookie);
    }
}
