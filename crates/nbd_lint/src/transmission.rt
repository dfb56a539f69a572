//! What was requested and answered so far.

use crate::notes::Notes;
use crate::sizes::{Announced, NOTHING};
use nbd_state::{Asking, Export, Flaws, Outstanding, Selection, flaws_of, request_in};
use nbd_wire::{Message, RequestHead};
use std::alloc::Global;

/// A request.
#[derive(Clone, Copy, Drop)]
pub struct Request {
    /// From 1, in the order of their arrival.
    pub number: u64,
    pub head: RequestHead,
    /// The length of its range, in bytes.
    pub length: u64,
    /// A metadata context is in force.
    pub has_contexts: bool,
    /// What is wrong with it.
    pub flaws: Flaws,
    /// Its range is aligned to the minimum block size, if there is one.
    pub is_aligned: bool,
    /// It came behind an ESHUTDOWN.
    pub is_late: bool,
}

impl Request {
    /// Whether a client should send it to the export.
    pub fn is_proper(&self) -> bool {
        self.flaws.is_none()
    }

    /// Where its range ends, in bytes from the export's start.
    pub fn end(&self) -> u64 {
        self.head.offset.saturating_add(self.length)
    }
}

/// What was requested and answered so far.
#[derive(Drop)]
pub struct Transmission {
    pub export: Export,
    /// What was announced with the export.
    pub sizes: Announced,
    /// Structured replies are in force.
    pub structured: bool,
    pub selection: Selection,
    /// In transmission: the selection is in force. Before it: it is if the last option leads there.
    pub is_agreed: bool,
    /// Of each request its place among the messages.
    places: Vec<u32>,
    /// Of each outstanding request, by its cookie, how many came before it.
    outstanding: Outstanding,
    /// How many are outstanding.
    pub open: u64,
    /// The place of the first ESHUTDOWN, and how many requests came before it; 0 where none came.
    pub eshutdown: u64,
    before_eshutdown: u64,
}

impl Transmission {
    /// Before the first request; takes no memory.
    pub fn none(alloc: Global) -> Transmission {
        Transmission {
            export: Export { size: 0, flags: 0 },
            sizes: NOTHING,
            structured: false,
            selection: Selection::none(alloc),
            is_agreed: false,
            places: Vec::new(alloc),
            outstanding: Outstanding::none(alloc),
            open: 0,
            eshutdown: 0,
            before_eshutdown: 0,
        }
    }

    /// The outstanding request with this cookie among the messages so far, as it stood behind what had come before it; None where
    /// there is none, or memory is refused.
    pub fn outstanding(
        &self,
        cookie: u64,
        messages: &[Message],
        notes: &mut Notes,
    ) -> Option<Request> {
        match self.outstanding.get(cookie) {
            Some(before) => match messages.get(self.place_of(before)) {
                Some(message) => self.asked(before, message, notes),
                None => None,
            },
            None => None,
        }
    }

    // The place among the messages of the request behind so many others; one behind them all where there is none.
    fn place_of(&self, before: usize) -> usize {
        match self.places.get(before) {
            Some(place) => *place as usize,
            None => usize::MAX,
        }
    }

    // The request behind so many others that a message is.
    fn asked(&self, before: usize, message: &Message, notes: &mut Notes) -> Option<Request> {
        match request_in(message) {
            Some((head, payload)) => self.request(before, &head, payload.as_slice(), notes),
            None => None,
        }
    }

    // The same of a head and a payload.
    fn request(
        &self,
        before: usize,
        head: &RequestHead,
        payload: &[u8],
        notes: &mut Notes,
    ) -> Option<Request> {
        let (alloc, flags) = (notes.alloc, self.export.flags);
        match self
            .selection
            .asking(alloc, self.is_agreed, flags, head, payload)
        {
            Ok(asking) => Some(self.asking(before as u64, head, &asking)),
            Err(_) => {
                notes.is_refused = true;
                None
            }
        }
    }

    // The same of one that asks this.
    fn asking(&self, before: u64, head: &RequestHead, asking: &Asking) -> Request {
        let sizes = self.sizes;
        Request {
            number: before.saturating_add(1),
            head: *head,
            length: asking.length,
            has_contexts: asking.has_contexts,
            flaws: flaws_of(self.export, asking, head),
            is_aligned: sizes.is_multiple(head.offset) & sizes.is_multiple(asking.length),
            is_late: self.eshutdown != 0 && before >= self.before_eshutdown,
        }
    }

    /// Takes a request with this cookie, which is the message at this place of all.
    pub fn ask(&mut self, cookie: u64, place: usize, notes: &mut Notes) {
        let before = self.places.len();
        notes.keep(self.outstanding.insert(cookie, before));
        self.open = self.open.saturating_add(1);
        match u32::try_from(place) {
            Ok(place) => notes.keep(self.places.push(place)),
            Err(_) => notes.is_refused = true,
        }
    }

    /// A request is answered.
    pub fn end(&mut self, cookie: u64) {
        self.outstanding.remove(cookie);
        self.open = self.open.saturating_sub(1);
    }

    /// Takes an ESHUTDOWN that comes at this place of the capture.
    pub fn shut_down(&mut self, place: u64) {
        if self.eshutdown == 0 {
            self.eshutdown = place;
            self.before_eshutdown = self.places.len() as u64;
        }
    }
}
