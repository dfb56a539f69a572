//! The bytes of one side of a capture.

use nbd_wire::Bytes;
use std::alloc::{AllocError, Global};

/// The shortest payload that is not kept beside its message.
const LONG: usize = 64;

/// A payload that stands in memory with its message.
#[derive(Drop)]
struct Carried {
    payload: Bytes,
    /// How many bytes of the side stand before it.
    before: u64,
    /// How many of those are in `kept`.
    kept: u64,
}

/// The bytes that a side sent. A long payload stands in memory once, with its message.
#[derive(Drop)]
pub struct Stream {
    /// What its messages have, but for long payloads.
    kept: Vec<u8>,
    carried: Vec<Carried>,
    /// How many bytes its messages have.
    pub told: u64,
    /// The bytes behind them, behind so many that are kept.
    open: Vec<u8>,
    from: usize,
}

impl Stream {
    /// One without a byte; takes no memory.
    pub fn new(alloc: Global) -> Stream {
        Stream {
            kept: Vec::new(alloc),
            carried: Vec::new(alloc),
            told: 0,
            open: Vec::new(alloc),
            from: 0,
        }
    }

    /// How many bytes there are.
    pub fn len(&self) -> u64 {
        self.told.saturating_add(self.behind(0).len() as u64)
    }

    /// Takes the next bytes.
    pub fn add(&mut self, bytes: &[u8]) -> Result<(), AllocError> {
        let rest = self.open.len().saturating_sub(self.from);
        if rest == 0 {
            self.open.clear();
        } else if self.from != 0 {
            self.open.copy_within(self.from.., 0);
            self.open.truncate(rest);
        }
        self.from = 0;
        self.open.extend_from_slice(bytes)
    }

    /// Takes the first so many bytes behind the messages for the next one, which ends with this payload.
    pub fn tell(&mut self, length: u64, payload: Option<&Bytes>) -> Result<(), AllocError> {
        let kept = match payload {
            Some(payload) if payload.as_slice().len() >= LONG => self.carry(length, payload),
            _ => self.keep(length),
        };
        self.from = self.from.saturating_add(length as usize);
        self.told = self.told.saturating_add(length);
        kept
    }

    // Keeps the first so many bytes behind the messages.
    fn keep(&mut self, count: u64) -> Result<(), AllocError> {
        let open = bytes_behind(&self.open, self.from);
        self.kept
            .extend_from_slice(open.get(..count as usize).unwrap_or(open))
    }

    // The same of a message with a long payload.
    fn carry(&mut self, length: u64, payload: &Bytes) -> Result<(), AllocError> {
        let head = length.saturating_sub(payload.as_slice().len() as u64);
        self.keep(head)?;
        let carried = Carried {
            payload: payload.share()?,
            before: self.told.saturating_add(head),
            kept: self.kept.len() as u64,
        };
        Ok(self.carried.push(carried)?)
    }

    // The bytes behind the messages that have so many of these before them.
    fn behind(&self, count: u64) -> &[u8] {
        bytes_behind(&self.open, self.from.saturating_add(count as usize))
    }

    /// The bytes that have so many of this side before them, as far as they stand together: up to a message's long payload, up to its
    /// end, or all that stand behind the messages.
    pub fn bytes_from(&self, before: u64) -> &[u8] {
        match before.checked_sub(self.told) {
            Some(count) => self.behind(count),
            None => self.told_from(before),
        }
    }

    // The same of the messages' bytes.
    fn told_from(&self, before: u64) -> &[u8] {
        let next = self.carried.partition_point(|one| one.before <= before);
        let end = match self.carried.get(next) {
            Some(one) => one.kept as usize,
            None => self.kept.len(),
        };
        match self.carried.get(next.wrapping_sub(1)) {
            Some(last) => self.told_behind(last, before.saturating_sub(last.before), end),
            None => self.kept_within(before, end),
        }
    }

    // The bytes that have so many before them from a long payload on, which end in `kept` here.
    fn told_behind<'a>(&'a self, carried: &'a Carried, count: u64, end: usize) -> &'a [u8] {
        let payload = carried.payload.as_slice();
        match count.checked_sub(payload.len() as u64) {
            Some(behind) => self.kept_within(carried.kept.saturating_add(behind), end),
            None => bytes_behind(payload, count as usize),
        }
    }

    // What is kept behind so many bytes, up to this many.
    fn kept_within(&self, from: u64, end: usize) -> &[u8] {
        self.kept.get(from as usize..end).unwrap_or(&[])
    }
}

/// The bytes from an index on; none where there are not so many.
pub fn bytes_behind(bytes: &[u8], from: usize) -> &[u8] {
    bytes.get(from..).unwrap_or(&[])
}
