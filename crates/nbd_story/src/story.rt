//! The messages of a session with their places, and what became of its requests.

use crate::content::bringer;
use crate::explanation::Sources;
use crate::recording::Recording;
use crate::told::{Form, NO_REQUEST, Request, Told};
use nbd_export::Start;
use nbd_state::{Export, Selection, flaws_of};
use nbd_wire::flags::{has, has_wide};
use nbd_wire::{
    AnswerHead, Bytes, ChoiceHead, Entry, Info, Message, Part, Profile, RequestHead, Side, Sizing,
    answers, chunks, commands, context_of, handshake, head_lengths, info_of, options, side_of,
};
use std::alloc::{AllocError, Global};
use std::collections::BTreeMap;

/// The messages of a session, and its requests.
#[derive(Drop)]
pub struct Story {
    /// What the session is held to.
    pub profile: Profile,
    /// The bytes of the capture.
    pub recording: Recording,
    /// The messages, in the order of their completion.
    pub told: Vec<Told>,
    /// By their numbers.
    pub requests: Vec<Request>,
    /// The numbers of the outstanding ones, by their cookies.
    pub outstanding: BTreeMap<u64, u64>,
    /// What the server said last of an export; an empty one before that.
    pub export: Export,
    /// Whether the negotiation is over.
    pub is_transmission: bool,
    /// The option that the client chose last; 0 before the first.
    pub option: u32,
    /// How many zeroes the answer to EXPORT_NAME ends with.
    pub padding: u64,
    /// What the last SET_META_CONTEXT selected.
    pub selection: Selection,
    /// The answers that named these contexts, by their ids.
    pub names: BTreeMap<u32, Told>,
    /// In transmission: the selection is in force.
    pub agreed: bool,
    /// What was said of block sizes.
    pub sizing: Sizing,
    /// Structured replies are in force.
    pub is_structured: bool,
    /// Extended headers are in force.
    pub is_extended: bool,
    /// How many READs are outstanding whose reply has begun.
    replying: u64,
    /// A request came whole behind the first byte of a READ's reply and before its last one.
    has_chunks_apart: bool,
    /// What is told of it has the names of numbers.
    pub is_marked: bool,
    /// Memory was refused for something of this.
    is_refused: bool,
}

impl Story {
    /// One of a session of this profile, without a byte and without a message; whether what is told of it has the names of numbers. Takes
    /// no memory.
    pub fn of(alloc: Global, profile: Profile, is_marked: bool) -> Story {
        Story {
            profile,
            recording: Recording::new(alloc),
            told: Vec::new(alloc),
            requests: Vec::new(alloc),
            outstanding: BTreeMap::new(alloc),
            export: Export { size: 0, flags: 0 },
            is_transmission: false,
            option: 0,
            padding: head_lengths::PADDING as u64,
            selection: Selection::none(alloc),
            names: BTreeMap::new(alloc),
            agreed: false,
            sizing: Sizing::none(),
            is_structured: false,
            is_extended: false,
            replying: 0,
            has_chunks_apart: false,
            is_marked,
            is_refused: false,
        }
    }

    /// Where its memory comes from.
    pub fn alloc(&self) -> Global {
        *self.told.allocator()
    }

    /// Itself with an order and a start.
    pub fn with<'a>(&'a self, order: &'a [Entry], start: Option<&'a Start>) -> Sources<'a> {
        Sources {
            story: self,
            order,
            start,
        }
    }

    /// Tells those of these messages, which are all so far, that it was not told of yet. The recording has their bytes: all but who
    /// sent them is read from there, and it then has their long payloads in common with them.
    pub fn tell(&mut self, messages: &[Message]) -> Result<(), AllocError> {
        for place in self.told.len()..messages.len() {
            let message = &messages[place];
            let told = self.begun(side_of(message));
            self.note(&told);
            let stream = self.recording.stream_mut(told.side);
            self.is_refused |= stream.tell(told.length, payload_in(message)).is_err();
            self.is_refused |= self.told.push(told).is_err();
        }
        if self.is_refused {
            Err(AllocError)
        } else {
            Ok(())
        }
    }

    // What a message changes: where the session stands, and what is known of a request.
    fn note(&mut self, told: &Told) {
        match told.form {
            Form::ClientFlags(flags) if has_wide(flags, handshake::C_NO_ZEROES) => self.padding = 0,
            Form::Choice(head) => self.choose(told, &head),
            Form::Answer(head) => self.agree(told, &head),
            Form::Exported(export) => {
                self.export = export;
                self.is_transmission = true;
            }
            Form::Request(head) => self.ask(told, &head),
            Form::Simple(head) => self.answer(told, head.cookie, true),
            Form::Chunk(head) => self.answer(told, head.cookie, has(head.flags, chunks::DONE)),
            _ => {}
        }
    }

    // The client has chosen an option.
    fn choose(&mut self, told: &Told, head: &ChoiceHead) {
        let data = payload_of(&self.recording, told);
        self.option = head.id;
        self.sizing = Sizing::at(head.id, data);
        self.agreed = self.is_structured & self.selection.agrees(head.id, data);
        if head.id == options::SET_META_CONTEXT {
            self.names.clear();
        }
        self.is_refused |= self.selection.choose(head.id, data).is_err();
    }

    // The server has answered it.
    fn agree(&mut self, told: &Told, head: &AnswerHead) {
        let data = payload_of(&self.recording, told);
        let is_granted = head.kind == answers::ACK;
        if let (answers::INFO, Some(Info::Export { size, flags })) = (head.kind, info_of(data)) {
            self.export = Export { size, flags };
        }
        self.is_transmission = is_granted & (head.option == options::GO);
        self.is_extended |= is_granted & (head.option == options::EXTENDED_HEADERS);
        self.is_structured |= is_granted & (head.option == options::STRUCTURED_REPLY);
        self.is_structured |= self.is_extended;
        self.sizing = self.sizing.after(head.kind, data);
        if head.option == options::SET_META_CONTEXT {
            if let (answers::META_CONTEXT, Some((id, _))) = (head.kind, context_of(data)) {
                self.is_refused |= self.names.insert(id, *told).is_err();
            }
            self.is_refused |= self.selection.told(head.kind, data).is_err();
        }
    }

    // A request has come. DISC has no number. Where memory was refused it is not known whether a client should send it.
    fn ask(&mut self, told: &Told, head: &RequestHead) {
        if told.number == 0 {
            return;
        }
        let mut request = NO_REQUEST;
        request.number = told.number;
        request.head = *head;
        request.before = told.before.saturating_add(told.head());
        request.payload = told.payload;
        request.first = told.first;
        request.last = told.last;
        match self.asking(head, self.behind(told)) {
            Ok(asking) => request.flaws = flaws_of(self.export, &asking, head),
            Err(_) => self.is_refused = true,
        }
        self.has_chunks_apart |= self.replying != 0;
        self.is_refused |= self.requests.push(request).is_err();
        self.is_refused |= self.outstanding.insert(head.cookie, told.number).is_err();
    }

    // A message of a reply has come; after the last one its cookie is free.
    fn answer(&mut self, told: &Told, cookie: u64, is_last: bool) {
        let asked = self.request(self.requests.len() as u64).last;
        let place = told.number.wrapping_sub(1) as usize;
        let Some(request) = self.requests.get_mut(place) else {
            return;
        };
        let read = u64::from(request.head.command == commands::READ);
        if request.replied == 0 {
            request.replied = told.first;
            request.due = told.first;
            self.replying = self.replying.saturating_add(read);
        }
        if request.error == 0 {
            request.error = told.error;
        }
        self.has_chunks_apart |= (read != 0) & (asked > request.replied);
        if is_last {
            request.finished = told.last;
            self.replying = self.replying.saturating_sub(read);
            self.outstanding.remove(&cookie);
        }
    }

    /// How many bytes the messages of a side have.
    pub fn count(&self, side: Side) -> u64 {
        self.recording.stream(side).told
    }

    /// What a message has behind its head, as far as it has come.
    pub fn behind(&self, told: &Told) -> &[u8] {
        payload_of(&self.recording, told)
    }

    /// What a request has behind its head.
    pub fn payload(&self, request: &Request) -> &[u8] {
        self.recording
            .bytes_at(Side::Client, request.before, request.payload)
    }

    /// The request with this number, from 1; 0 wraps to a place that is not there.
    pub fn request(&self, number: u64) -> &Request {
        self.requests
            .get(number.wrapping_sub(1) as usize)
            .unwrap_or(&NO_REQUEST)
    }

    /// The request with this number, with the place before which something in a part of it was served. In the profile `Wide` that is,
    /// of a READ, the last byte of the first message that brings something of the part, or else that of its reply.
    pub fn request_for(&self, number: u64, part: Part) -> Request {
        let mut request = *self.request(number);
        if self.profile.serves_by_chunk(request.head.command) {
            let reply = bringer(&self.told, number, part);
            request.due = request.finished;
            if reply.is_there() {
                request.due = reply.last;
            }
        }
        request
    }

    /// Whether a request came whole behind the first byte of a READ's reply and before its last one. Without that the profile `Wide`
    /// serves each READ as `Base` does.
    pub fn has_chunks_apart(&self) -> bool {
        self.has_chunks_apart
    }

    /// The outstanding request with this cookie.
    pub fn answered(&self, cookie: u64) -> &Request {
        self.request(self.outstanding.get(&cookie).copied().unwrap_or(0))
    }
}

// What a message has behind its head.
fn payload_of<'a>(recording: &'a Recording, told: &Told) -> &'a [u8] {
    let before = told.before.saturating_add(told.head());
    recording.bytes_at(told.side, before, told.payload)
}

// What a message has behind its head, where that is more than its kind says.
fn payload_in(message: &Message) -> Option<&Bytes> {
    match message {
        Message::Choice { payload, .. }
        | Message::Answer { payload, .. }
        | Message::Request { payload, .. }
        | Message::Simple { payload, .. }
        | Message::Chunk { payload, .. }
        | Message::ExtendedRequest { payload, .. }
        | Message::ExtendedChunk { payload, .. } => Some(payload),
        Message::Greeting { .. } | Message::ClientFlags { .. } | Message::Exported { .. } => None,
    }
}
