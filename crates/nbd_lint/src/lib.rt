//! What a session breaks of proto.md that its verdict does not tell: a line for each rule and side that broke it.
//!
//! A rule is a question to one accepted message and to what came before it, which is put to `Notes`, and an entry of the table. A `Linter` takes the messages one after the other, and has of the session what the rules ask:
//! the options with their answers, where each request stands among the messages, and of those whose reply has begun what
//! came of it. No byte is read here but those of payloads, by the readers of nbd_wire. Proved is that each call returns;
//! what the rules say is tested.
#![tactic(auto)]

mod answers;
mod asked;
mod breach;
mod chunks;
mod contexts;
mod endings;
mod errors;
mod fields;
mod handshake;
mod infos;
mod line;
mod linter;
mod negotiation;
mod notes;
mod numbers;
mod objects;
mod options;
mod places;
mod queries;
mod reasons;
mod reply;
mod report;
mod requests;
mod sizes;
mod statuses;
mod strings;
mod table;
mod texts;
mod tls;
mod transmission;
mod wildcards;

pub use linter::Linter;
pub use report::{Form, Refusal, Report, Wanted, is_kept, listed};
pub use table::{Level, rule_named};
