//! The places in a capture at which messages end.

use nbd_session::Stretch;
use nbd_wire::{Message, Side, head_lengths, side_of};

/// How far the bytes of a side were walked.
#[derive(Clone, Copy, Drop)]
struct Walk {
    side: Side,
    /// How many bytes its messages have.
    taken: u64,
    /// The next stretch.
    next: usize,
    /// How many bytes of the side stand in the stretches before it, and how many of both sides.
    own: u64,
    all: u64,
}

impl Walk {
    // Goes over so many bytes more of the side, and returns the place of the last of them.
    fn place_behind(&mut self, stretches: &[Stretch], length: u64) -> u64 {
        self.taken = self.taken.saturating_add(length);
        let rest = stretches.get(self.next..).unwrap_or(&[]);
        for stretch in rest {
            if self.own >= self.taken {
                break;
            }
            self.pass(stretch);
        }
        self.all.saturating_sub(self.own.saturating_sub(self.taken))
    }

    // Goes over a stretch.
    fn pass(&mut self, stretch: &Stretch) {
        if stretch.from == self.side {
            self.own = self.own.saturating_add(stretch.length);
        }
        self.next = self.next.saturating_add(1);
        self.all = self.all.saturating_add(stretch.length);
    }
}

/// A walk over the messages of a capture, in the order of their completion, which finds the place of each last byte. Each
/// stretch is looked at once a side.
#[derive(Clone, Copy, Drop)]
pub struct Places {
    client: Walk,
    server: Walk,
}

/// Before the first message of a side.
const CLIENT: Walk = Walk {
    side: Side::Client,
    taken: 0,
    next: 0,
    own: 0,
    all: 0,
};

/// Before the first message.
pub const START: Places = Places {
    client: CLIENT,
    server: Walk {
        side: Side::Server,
        ..CLIENT
    },
};

impl Places {
    /// The place of the last byte of the next message, from 1.
    pub fn place_of(&mut self, stretches: &[Stretch], message: &Message) -> u64 {
        let length = length_of(message);
        match side_of(message) {
            Side::Client => self.client.place_behind(stretches, length),
            Side::Server => self.server.place_behind(stretches, length),
        }
    }
}

// How many bytes a message has.
fn length_of(message: &Message) -> u64 {
    let (head, behind) = match message {
        Message::Greeting { .. } => (head_lengths::GREETING, 0),
        Message::ClientFlags { .. } => (head_lengths::CLIENT_FLAGS, 0),
        Message::Exported { padded: true, .. } => (head_lengths::EXPORT, head_lengths::PADDING),
        Message::Exported { padded: false, .. } => (head_lengths::EXPORT, 0),
        Message::Choice { payload, .. } => (head_lengths::CHOICE, payload.as_slice().len()),
        Message::Answer { payload, .. } => (head_lengths::ANSWER, payload.as_slice().len()),
        Message::Request { payload, .. } => (head_lengths::REQUEST, payload.as_slice().len()),
        Message::Simple { payload, .. } => (head_lengths::SIMPLE, payload.as_slice().len()),
        Message::Chunk { payload, .. } => (head_lengths::CHUNK, payload.as_slice().len()),
        Message::ExtendedRequest { payload, .. } => {
            (head_lengths::EXTENDED_REQUEST, payload.as_slice().len())
        }
        Message::ExtendedChunk { payload, .. } => {
            (head_lengths::EXTENDED_CHUNK, payload.as_slice().len())
        }
    };
    (head as u64).saturating_add(behind as u64)
}
