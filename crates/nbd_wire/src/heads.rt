//! The fixed parts that messages begin with: a type and a reader for each.
//!
//! A reader is given exactly the bytes of a head. It returns `Some` exactly where they are one, and
//! takes no memory.

pub mod negotiation;
pub mod transmission;
