//! A recorded session, read message by message as its bytes come.
#![tactic(auto)]

mod chunks;
mod deciding;
mod ending;
mod expected;
pub mod fault;
mod incoming;
pub mod laws;
mod log;
mod monitor;
mod negotiation;
mod options;
mod replies;
mod requests;
mod session;
mod spans;
mod statuses;
mod stretches;

pub use fault::SessionFault;
pub use monitor::Monitor;
pub use nbd_state::{Asked, Outcome, Transcript};
pub use nbd_wire::{Piece, WireFault};
pub use session::Session;
pub use stretches::Stretch;
