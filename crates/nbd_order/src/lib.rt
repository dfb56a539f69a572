//! An order of service that explains a session, or the proof that none does; and what an order, or each, leaves on the
//! export.
#![tactic(auto)]

mod due;
pub mod finding;
mod here;
mod judging;
pub mod laws;
pub mod leaving;
mod offsets;
pub mod refutation;
pub mod refuting;
mod states;
mod stretches;
mod sweep;
mod touches;

pub use finding::{Found, Scope, Wanted, find, usual_limits};
pub use leaving::{Left, forget_open, left_by, left_by_each};
pub use refutation::{Refutation, State};
pub use refuting::is_refuted;
