//! The bytes of a side that belong to no completed message.

ghost use Rattle.std.specs.Prelude.{◌≡◌, ◌==◌, ◌+◌, ◌≤◌, length, IfOk, None, OnErr, OnOk, Some};
ghost use Rattle.nbd_session.specs.Incoming.{incoming_with, nothing_come};

use crate::expected::Expected;
use nbd_wire::Bytes;
use std::alloc::{AllocError, Global};
use std::marker::Model;

/// The longest head of a message, an extended one.
const LONGEST_HEAD: usize = 32;

/// The bytes of a side after its last completed message: those of the head and, once the head is whole, what it says
/// and the bytes after it.
#[derive(Drop)]
pub(crate) struct Incoming {
    head: [u8; LONGEST_HEAD],
    // How many bytes of the head have come.
    len: usize,
    expected: Option<Expected>,
    payload: Vec<u8>,
}

impl Model for Incoming {
    ghost use Rattle.std.specs.Prelude.{◌≤◌, take};
    ghost use Rattle.nbd_session.specs.Incoming.{IncomingView};

    ghost Value = { IncomingView };

    ghost view = { λ s. record {
      head = take s.len s.head;
      expected = s.expected;
      payload = s.payload.items;
    } };

    ghost invariant = { λ s. s.len ≤ 32 };
}

impl Incoming {
    /// No bytes; takes no memory.
    pub(crate) fn new(alloc: Global) -> Incoming
        ensures { result ≡ nothing_come }
    {
        Incoming {
            head: [0; LONGEST_HEAD],
            len: 0,
            expected: None,
            payload: Vec::new(alloc),
        }
    }

    /// No byte has come.
    pub(crate) fn is_empty(&self) -> bool
        ensures { result ≡ (length self.now.head == 0) }
    {
        self.head().is_empty()
    }

    /// The bytes of the head that have come.
    pub(crate) fn head(&self) -> &[u8]
        ensures { result.now ≡ self.now.head }
    {
        &self.head[..self.len]
    }

    /// What the head says, once it is whole.
    pub(crate) fn expected(&self) -> Option<Expected>
        ensures { result ≡ self.now.expected }
    {
        self.expected
    }

    /// The bytes that came after the head.
    pub(crate) fn payload(&self) -> &[u8]
        ensures { result.now ≡ self.now.payload }
    {
        self.payload.as_slice()
    }

    /// Takes the next bytes of a side. An `Err` says that memory ran out; then nothing has changed.
    pub(crate) fn add(&mut self, piece: &[u8]) -> Result<(), AllocError>
        requires { self.old.expected ≡ None → length self.old.head + length piece.now ≤ 32 }
        ensures bytes { OnOk result (self.new ≡ incoming_with self.old piece.now) }
        ensures unchanged { OnErr result (self.new ≡ self.old) }
    {
        if self.expected.is_some() {
            return self.payload.extend_from_slice(piece);
        }
        let end = self.len + piece.len();
        self.head[self.len..end].copy_from_slice(piece);
        self.len = end;
        Ok(())
    }

    /// Notes that the head is whole, and what it says.
    pub(crate) fn expect(&mut self, expected: Expected)
        ensures { self.new ≡ record self.old { expected = Some expected } }
    {
        self.expected = Some(expected);
    }

    /// Makes it empty, and returns the bytes after the head. After an `Err`, that memory ran out, all is as it was.
    pub(crate) fn take(&mut self, alloc: Global) -> Result<Bytes, AllocError>
        ensures payload { IfOk result (λ payload. payload ≡ self.old.payload) }
        ensures empty { OnOk result (self.new ≡ nothing_come) }
        ensures unchanged { OnErr result (self.new ≡ self.old) }
    {
        let payload = Bytes::take(alloc, &mut self.payload)?;
        self.len = 0;
        self.expected = None;
        Ok(payload)
    }
}
