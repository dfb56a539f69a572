//! The command line: which words there are, what they ask for, and what a person is told of an input that they name.
#![tactic(auto)]

mod asked;
mod asking;
mod glance;
pub mod hints;
mod linting;
mod mistakes;
mod words;

pub use asked::{Asked, Command};
pub use asking::asked_in;
pub use linting::Linting;
