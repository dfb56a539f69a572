//! The search for an order of service. Nothing is proved of what it proposes: nbd_order judges an order and tests a contest.
#![tactic(auto)]

mod dues;
mod few;
mod order;
mod progress;
pub mod proposal;
mod replay;
mod scene;
mod search;
mod sweep;
mod walk;
mod work;

pub use progress::Progress;
pub use proposal::{Place, Proposal, Reason};
pub use search::propose;
pub use work::{Limits, keep};
