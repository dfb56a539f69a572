//! Objects of JSON, a line each: one that grows by its members, and a writer that makes them of the lines that a command prints
//! (docs/json.md). Proved is that each call returns.
#![tactic(auto)]

mod marks;
mod members;
mod object;
mod objects;

pub use marks::{BEGUN, DIGITS, ENDED, NAMED};
pub use object::Object;
pub use objects::{Lines, Objects};
