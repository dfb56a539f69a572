//! A session in words: its messages with their places, what became of its requests, and why the answer was no. All of it is told by a
//! `Text`. Proved is that each call returns, and of `rules` who broke one.
#![tactic(auto)]

mod content;
mod contexts;
mod differing;
mod explanation;
mod improper;
mod layers;
mod malformed;
mod messages;
mod order;
mod reading;
mod recording;
mod refused;
mod refutation;
mod related;
mod rules;
mod states;
mod statuses;
mod story;
mod stream;
mod text;
mod told;
mod wire;

pub use explanation::{Sources, explanation_of};
pub use messages::{told_error, told_words};
pub use recording::Recording;
pub use refutation::Contest;
pub use rules::{Breaker, Rule, order_rule, wire_rule};
pub use story::Story;
pub use text::Text;
pub use told::Told;
