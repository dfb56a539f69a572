//! What the completed messages of a session have led to.
//!
//! A `State` takes each completed message, and has where the session stands, its export and its numbered
//! requests; a `Transcript` is what it states at the end. No byte is read here.
#![tactic(auto)]

mod apart;
mod asked;
mod asking;
mod completing;
mod heads;
mod index;
mod many;
mod offsets;
mod options;
mod outstanding;
mod pieces;
mod proper;
mod recording;
mod selection;
mod span;
mod state;
mod statuses;
mod transcript;

pub use asked::{Asked, Exchange, Outcome};
pub use asking::{Asking, Telling};
pub use heads::{chunk_in, request_in};
pub use index::SpanIndex;
pub use offsets::byte_read;
pub use outstanding::Outstanding;
pub use pieces::Pieces;
pub use proper::{Flaws, ends_by, flaws_of, has_range, is_change, is_outside};
pub use selection::Selection;
pub use span::Span;
pub use state::{Chosen, Export, Phase, State};
pub use transcript::Transcript;
