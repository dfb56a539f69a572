//! What a finished session says of its requests.

ghost use Rattle.std.specs.{Prelude.{◌≡◌, length}, Option.option_copied};
ghost use Rattle.nbd_wire.specs.Prelude.{asked_at};
ghost use Rattle.nbd_laws.specs.Soundness.{IsSoundReport};
ghost use Rattle.nbd_state.specs.Transcripts.{size_and_flags, report_of_request_if};

use crate::asked::{Asked, Exchange};
use crate::state::Export;
use std::marker::Model;

/// The export and the numbered requests of a session in which each message that started has completed.
///
/// In a contract a transcript is the report of its session (nbd_wire, `specs/protocol/Reports.antt`).
#[derive(Drop)]
pub struct Transcript {
    export: Option<Export>,
    exchanges: Vec<Exchange>,
}

impl Model for Transcript {
    ghost use Rattle.nbd_wire.specs.Prelude.{Report};
    ghost use Rattle.nbd_laws.specs.Soundness.{IsSoundReport};
    ghost use Rattle.nbd_state.specs.Transcripts.{transcript_report};

    ghost Value = { Report };

    ghost view = { λ t. transcript_report t.export t.exchanges.items };

    ghost invariant = { λ t. IsSoundReport (transcript_report t.export t.exchanges.items) };
}

impl Transcript {
    ghost use Rattle.nbd_state.specs.Transcripts.{transcript_report};

    /// What a session on this export states with these exchanges.
    pub(crate) fn new(export: Option<Export>, exchanges: Vec<Exchange>) -> Transcript
        requires { IsSoundReport (transcript_report export exchanges.items) }
        ensures { result ≡ transcript_report export exchanges.items }
    {
        Transcript { export, exchanges }
    }

    /// The export's size in bytes and its transmission flags; None where transmission was not reached
    /// (proto.md, "Transmission flags").
    pub fn export(&self) -> Option<(u64, u16)>
        ensures export { result ≡ size_and_flags self.now.export }
        ensures facts { IsSoundReport self.now }
    {
        let export = self.export?;
        Some((export.size, export.flags))
    }

    /// How many requests have a number: all that completed but DISC.
    pub fn count(&self) -> u64
        ensures count { result ≡ length self.now.asked }
        ensures facts { IsSoundReport self.now }
    {
        self.exchanges.len() as u64
    }

    /// Request number `k`, counted from 1 in the order of completion; None where there is none.
    pub fn asked(&self, k: u64) -> Option<&Asked>
        ensures { report_of_request_if (option_copied result) ≡ asked_at k self.now.asked }
    {
        if k == 0 || k > self.count() {
            return None;
        }
        Some(&self.exchanges[k as usize - 1].asked)
    }
}
