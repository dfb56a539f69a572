//! The bytes of a capture with their senders and their places.

use crate::stream::Stream;
use nbd_wire::Side;
use std::alloc::{AllocError, Global};

/// Bytes of a side that came one after the other.
#[derive(Clone, Copy)]
struct Stretch {
    side: Side,
    /// How many bytes of the client stand before them.
    client: u64,
    /// How many of the server.
    server: u64,
}

/// What stands for a stretch where no byte came.
const NO_STRETCH: Stretch = Stretch {
    side: Side::Client,
    client: 0,
    server: 0,
};

impl Stretch {
    // How many bytes of this side stand before them, or of both.
    fn count(&self, side: Option<Side>) -> u64 {
        match side {
            Some(Side::Client) => self.client,
            Some(Side::Server) => self.server,
            None => self.client.saturating_add(self.server),
        }
    }

    // How many of the other side.
    fn others(&self, side: Side) -> u64 {
        self.count(None).saturating_sub(self.count(Some(side)))
    }
}

/// The bytes of a capture.
#[derive(Drop)]
pub struct Recording {
    client: Stream,
    server: Stream,
    stretches: Vec<Stretch>,
}

impl Recording {
    /// One without a byte; takes no memory.
    pub fn new(alloc: Global) -> Recording {
        Recording {
            client: Stream::new(alloc),
            server: Stream::new(alloc),
            stretches: Vec::new(alloc),
        }
    }

    /// Takes the next bytes, which this side sent.
    pub fn add(&mut self, side: Side, bytes: &[u8]) -> Result<(), AllocError> {
        if self.sender(self.len()) != Some(side) {
            self.stretches.push(Stretch {
                side,
                client: self.client.len(),
                server: self.server.len(),
            })?;
        }
        self.stream_mut(side).add(bytes)
    }

    /// How many bytes there are, of both sides.
    pub fn len(&self) -> u64 {
        self.client.len().saturating_add(self.server.len())
    }

    /// All bytes of a side.
    pub fn stream(&self, side: Side) -> &Stream {
        match side {
            Side::Client => &self.client,
            Side::Server => &self.server,
        }
    }

    /// The same, to be told of.
    pub fn stream_mut(&mut self, side: Side) -> &mut Stream {
        match side {
            Side::Client => &mut self.client,
            Side::Server => &mut self.server,
        }
    }

    /// The bytes of a side that have so many of this side before them, as far as they stand together: those of a payload, or those
    /// behind the messages.
    pub fn bytes_from(&self, side: Side, before: u64) -> &[u8] {
        self.stream(side).bytes_from(before)
    }

    /// The first of these, so many of them as there are.
    pub fn bytes_at(&self, side: Side, before: u64, length: u64) -> &[u8] {
        let bytes = self.bytes_from(side, before);
        bytes.get(..length as usize).unwrap_or(bytes)
    }

    /// The byte of a side that has so many of this side before it; 0 where there is none.
    pub fn byte(&self, side: Side, before: u64) -> u8 {
        let first = self.bytes_from(side, before).first();
        first.copied().unwrap_or(0)
    }

    // The last stretch before which at most so many bytes of a side stand, or of both.
    fn stretch(&self, side: Option<Side>, most: u64) -> Stretch {
        let after = self
            .stretches
            .partition_point(|one| one.count(side) <= most);
        let last = self.stretches.get(after.saturating_sub(1));
        last.copied().unwrap_or(NO_STRETCH)
    }

    /// The place in the capture, from 1, of the byte of a side that has so many of this side before it.
    pub fn place(&self, side: Side, before: u64) -> u64 {
        let others = self.stretch(Some(side), before).others(side);
        before.saturating_add(others).saturating_add(1)
    }

    /// The sender of the byte at this place of the capture, which is there.
    pub fn side(&self, place: u64) -> Side {
        self.stretch(None, place.saturating_sub(1)).side
    }

    /// The sender of the byte at this place of the capture, if there is one.
    pub fn sender(&self, place: u64) -> Option<Side> {
        if place.saturating_sub(1) < self.len() {
            Some(self.side(place))
        } else {
            None
        }
    }

    /// How many bytes of a side stand up to this place of the capture, with the byte there.
    pub fn count_up_to(&self, side: Side, place: u64) -> u64 {
        let stretch = self.stretch(None, place.saturating_sub(1));
        if stretch.side == side {
            place
                .saturating_sub(stretch.others(side))
                .min(self.stream(side).len())
        } else {
            stretch.count(Some(side))
        }
    }
}
