//! What a search proposes.

use nbd_wire::Entry;

/// What a search came to. Nothing of it is proved.
#[derive(Drop)]
pub enum Proposal {
    /// This order explains the session.
    Order(Vec<Entry>),
    /// No order does: at this offset these READs, and these changes, which alone can help, have none. Their numbers rise, from 1.
    Contest(u64, Vec<u64>, Vec<u64>),
    /// The search was broken off, for this reason, where it looked at this.
    GaveUp(Place, Reason),
}

/// A byte that a READ got, or that a BLOCK_STATUS called zero.
#[derive(Clone, Copy, Drop)]
pub struct Place {
    /// The request's number, counted from 1.
    pub request: u64,
    /// In bytes from the export's start.
    pub offset: u64,
}

/// Why a search was broken off.
#[derive(Clone, Copy, Drop)]
pub enum Reason {
    /// There were too many states at once, of a search or of a refutation.
    States,
    /// Too many steps were taken.
    Steps,
    /// What the search proposes is wrong: its order is no order that explains the session, or its requests refute none.
    Mistake,
}
