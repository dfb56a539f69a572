//! The bytes of an export, each known or unknown.
//!
//! What a range becomes and where it differs from other bytes is all that is known here: nothing of
//! requests, replies or sessions.
#![tactic(auto)]

pub mod contents;
pub mod extents;
pub mod kind;
mod kinds;
mod pages;
mod slices;
pub mod start;
mod starts;

pub use contents::Contents;
pub use extents::Extents;
pub use kind::Kind;
pub use start::{HeldPart, Start};
