//! The messages of the NBD protocol as bytes: their numbers, their heads and their payloads; and the entries of an order of service,
//! faults and verdicts as values.
//!
//! Nothing here knows a session. Layouts are those of the NBD project's doc/proto.md.
#![tactic(auto)]

pub mod answers;
pub mod bytes;
pub mod chunk_payloads;
pub mod chunks;
pub mod command_flags;
pub mod commands;
pub mod encoding;
pub mod entry;
pub mod fault;
pub mod filters;
pub mod flag_names;
pub mod flags;
pub mod handshake;
mod head_bytes;
pub mod head_lengths;
pub mod heads;
pub mod infos;
pub mod laws;
pub mod limits;
pub mod magics;
pub mod message;
pub mod names;
mod numbers;
pub mod option_payloads;
pub mod options;
pub mod payloads;
pub mod places;
pub mod profile;
pub mod sides;
pub mod sizes;
pub mod states;
pub mod transmission;
pub mod verdict;

pub use bytes::Bytes;
pub use chunk_payloads::{content_of, failure_of, first_extent, read_as, status_ext_of, status_of};
pub use encoding::append;
pub use entry::{Entry, Part};
pub use fault::WireFault;
pub use filters::{filter_of, first_id};
pub use heads::negotiation::{
    AnswerHead, ChoiceHead, answer_head, choice_head, client_flags_head, export_head, greeting_head,
};
pub use heads::transmission::{
    ChunkHead, RequestHead, SimpleHead, chunk_head, extended_chunk_head, extended_request_head,
    request_head, simple_head,
};
pub use message::{Message, Side};
pub use option_payloads::{context_of, go_of, info_of, listed_of, name_in, queries_of};
pub use payloads::{Content, Extent, Failure, Info, Piece};
pub use places::{bytes_in, place_before};
pub use profile::Profile;
pub use sides::{carries_payload, fits, side_of};
pub use sizes::{Sizes, Sizing, asks_sizes, breaks_sizes, sizes_for, sizes_of};
pub use verdict::{OrderFault, Verdict};
