//! What is said of a session: its messages as lines and in words, why it was refused, what it breaks of proto.md beside that, an order
//! that explains it, that of arrival, and what it leaves on the export.
#![tactic(auto)]

pub mod answer;
mod arrival;
mod comparing;
mod contents;
mod explain;
mod fates;
mod found;
pub mod laws;
mod linting;
mod listing;
pub mod ordering;
mod reading;
mod searching;
pub mod show;
mod writing;

pub use answer::{Answer, explain_status};
pub use arrival::run_arrival;
pub use contents::run_contents;
pub use explain::run_explain;
pub use linting::{run_lint, write_rules};
pub use listing::run_names;
pub use ordering::{Ordered, order_status, run_order};
pub use show::{run_show, run_show_of};
