//! What the completed messages of a session have led to.

use crate::asked::Exchange;
use crate::outstanding::Outstanding;
use crate::selection::Selection;
use crate::transcript::Transcript;
use nbd_wire::{Profile, Sizing};
use std::alloc::Global;

/// An export as the server described it: its size in bytes and its transmission flags.
#[derive(Clone, Copy, Drop)]
pub struct Export {
    pub size: u64,
    pub flags: u16,
}

/// An option that the client chose, whether its data had its form, whether it takes META_CONTEXT answers, and the
/// last EXPORT info that came since.
#[derive(Clone, Copy, Drop)]
pub struct Chosen {
    pub option: u32,
    pub proper: bool,
    pub takes: bool,
    pub info: Option<Export>,
}

/// Where the session stands (proto.md, "Newstyle negotiation", "Transmission").
#[derive(Clone, Copy, Drop)]
pub enum Phase {
    /// Nothing has come.
    Greet,
    /// The server has greeted.
    Flags,
    /// The client may choose an option.
    Choosing,
    /// EXPORT_NAME was chosen.
    Naming,
    /// ABORT was chosen.
    Aborting,
    /// Another option was chosen.
    Answering(Chosen),
    /// ABORT was answered.
    Ended,
    /// Requests and replies.
    Transmission(Export),
}

/// What the completed messages have led to.
#[derive(Drop)]
pub struct State {
    /// The profile that the session is held to.
    pub profile: Profile,
    pub phase: Phase,
    /// The server's handshake flags.
    pub offered: u16,
    pub client_flags: u32,
    /// Structured replies are in force.
    pub structured: bool,
    /// Extended headers are in force.
    pub extended: bool,
    /// What the last SET_META_CONTEXT selected.
    pub selection: Selection,
    /// In transmission: the contexts of the selection are in force. Before it: they are if the option that was chosen
    /// last leads there.
    pub brings_contexts: bool,
    /// What the option that was chosen last asked of block sizes and was told: in transmission the client has to keep these.
    pub sizing: Sizing,
    /// The client has sent DISC.
    pub disconnected: bool,
    /// The numbered requests, in their order.
    pub exchanges: Vec<Exchange>,
    /// The places of the outstanding ones, by their cookies.
    pub outstanding: Outstanding,
}

impl State {
    ghost use Rattle.nbd_wire.specs.Prelude.{Core, in_force, start, start_of, has_id, are_settled, is_allocation};
    ghost use Rattle.std.specs.Prelude.{ℕ, Bool, ◌≡◌, ◌==◌, length, not};
    ghost use Rattle.nbd_state.specs.{Shows.{Shows, TellsThese}, Transcripts.{export_of, transcript_report}};
    ghost use Rattle.nbd_laws.specs.Soundness.{IsSoundReport};

    /// Before the first message of a session that is held to the profile `Base` (proto.md, "Newstyle
    /// negotiation"); takes no memory.
    pub fn new(alloc: Global) -> State
        ensures { Shows result start.core }
    {
        State::of(alloc, Profile::Base)
    }

    /// The same, of a session that is held to this profile.
    pub fn of(alloc: Global, profile: Profile) -> State
        ensures { Shows result (start_of profile).core }
    {
        State {
            profile,
            phase: Phase::Greet,
            offered: 0,
            client_flags: 0,
            structured: false,
            extended: false,
            selection: Selection::none(alloc),
            brings_contexts: false,
            sizing: Sizing::none(),
            disconnected: false,
            exchanges: Vec::new(alloc),
            outstanding: Outstanding::none(alloc),
        }
    }

    /// Whether a metadata context is in force (proto.md, "Metadata querying").
    pub fn has_contexts(&self) -> bool
        ensures { (core : Core) → Shows self.now core → result ≡ not (length (in_force core) == 0) }
    {
        self.brings_contexts && !self.selection.is_empty()
    }

    /// Whether the metadata context with this id is in force (proto.md, "Metadata querying").
    pub fn is_in_force(&self, id: u32) -> bool
        ensures { (core : Core) → Shows self.now core → result ≡ has_id (in_force core) id }
    {
        self.brings_contexts && self.selection.has_id(id)
    }

    /// Whether the context with this id is in force and is `base:allocation`.
    pub fn is_allocation(&self, id: u32) -> bool
        ensures { (core : Core) → Shows self.now core → result ≡ is_allocation (in_force core) id }
    {
        self.brings_contexts && self.selection.is_allocation(id)
    }

    /// Whether each metadata context in force is settled, or is the one with this id. The cost is the number of contexts
    /// that the request asks, times the logarithm of the number in force.
    pub fn are_told(&self, exchange: &Exchange, id: Option<u32>) -> bool
        ensures { (core : Core) (settled : ℕ → Bool) → Shows self.now core →
            TellsThese settled (in_force core) exchange.now.asked.pieces.told id →
            result ≡ are_settled settled (in_force core) }
    {
        !self.brings_contexts || self.selection.are_told(exchange.asked.pieces.many(), id)
    }

    /// What a session that ends here states: its export, if it reached transmission, and its numbered
    /// requests; takes no memory. The condition is that this is a sound report.
    pub fn transcript(self) -> Transcript
        requires { IsSoundReport (transcript_report (export_of self.phase) self.exchanges.items) }
        ensures { result ≡ transcript_report (export_of self.phase) self.exchanges.items }
    {
        let export = match self.phase {
            Phase::Transmission(export) => Some(export),
            _ => None,
        };
        Transcript::new(export, self.exchanges)
    }
}
