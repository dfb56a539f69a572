//! What the command `check` does, over any readers and writer.
#![tactic(auto)]

pub mod beginning;
pub mod capture;
pub mod check;
pub mod concluding;
mod intake;
pub mod laws;
pub mod verdict;

pub use beginning::{Beginning, read_start, room_of};
pub use capture::{Unseen, Witness, session_over, transcript_over};
pub use check::{check_files, read_order, run_check, run_check_of};
pub use concluding::conclude_from;
pub use verdict::{Line, is_yes, line_of, write_verdict};
