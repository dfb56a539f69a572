//! Whether an order of service explains a session: the faults of the order, the wrong bytes that it serves, and the
//! verdict.
#![tactic(auto)]

mod change;
mod checking;
mod compare;
mod concluding;
mod due;
mod judging;
pub mod laws;
mod least;
mod order;
mod replay;
mod service;
mod sorting;
mod tally;

pub use change::erase;
pub use checking::{check, check_of};
pub use concluding::{begin, conclude, verdict_on};
pub use judging::{judge, wrong_of};
pub use least::lesser;
pub use nbd_wire::{OrderFault, Verdict};
