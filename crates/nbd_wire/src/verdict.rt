//! Verdicts.

use crate::fault::WireFault;

/// What is wrong with an order of service (this project's choice).
#[derive(Clone, Copy, Drop)]
pub enum OrderFault {
    /// The entry names request 0 or a number above that of the last request.
    NoSuchRequest,
    /// The entry serves atomically a request that an earlier entry names, or it serves a part of a request that an
    /// earlier entry serves atomically.
    Twice,
    /// The entry or a later one serves something that was due before the request of this entry had completed: when the
    /// first reply message to it started, or of a READ in the profile `Wide` when the message that shows it was whole.
    Late,
    /// No entry names this request, though something of it was due.
    Missing,
    /// The entry's part is empty, does not lie inside the request, or shares an offset with an earlier part of the
    /// request.
    BadPart,
    /// Entries name parts of this request, but the parts do not cover what of its inside was due.
    NotCovered,
}

/// The answer to a session, an order of service and what the export held at first. If several hold, the answer is the
/// one that comes first in the order Wire, Image, Order, Content and Status, Yes.
#[derive(Clone, Copy, Drop)]
pub enum Verdict {
    /// The order explains the session.
    Yes {
        /// How many requests have a number: all that completed but DISC.
        requests: u64,
        /// How many of them a reply finished, with success or with failure.
        answered: u64,
        /// How many of them a client should not have sent.
        improper: u64,
    },
    /// The session breaks a rule of the protocol.
    Wire {
        /// At which byte of the capture, counted from 1.
        at: u64,
        /// Which rule.
        fault: WireFault,
    },
    /// The image, or the contents, that are to be the export's start have another size than the export.
    Image {
        /// The start's size in bytes.
        image: u64,
        /// The export's size in bytes.
        size: u64,
    },
    /// The order has a fault.
    Order {
        /// The first entry that has a fault, counted from 1; for Missing and NotCovered the least request that has one
        /// of these two.
        entry: u64,
        fault: OrderFault,
    },
    /// A successful READ gave a byte, and the export's byte is known and another.
    Content {
        /// The number of the request that the first entry with such a byte serves.
        request: u64,
        /// The least offset of such a byte that this entry serves, from the export's start.
        offset: u64,
    },
    /// A successful BLOCK_STATUS called a byte zero, and the export's byte is known and not 0.
    Status {
        /// The number of the request that the first entry with such a byte serves.
        request: u64,
        /// The least offset of such a byte that this entry serves, from the export's start.
        offset: u64,
    },
}
