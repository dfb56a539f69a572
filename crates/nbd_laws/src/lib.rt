//! Laws over the definitions of nbd_wire, and worked examples of them.
//!
//! What a run is does not change with how its bytes are read, and whole captures, byte by byte, are
//! explained or are not. What a run begins with is read without a fault, what is read to its end is a run, and bytes
//! have one place at most.
#![tactic(auto)]

pub mod examples;
pub mod laws;
pub mod places;
pub mod refusals;
