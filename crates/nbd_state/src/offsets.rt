//! What a request leaves or reads at one offset of the export.

ghost use Rattle.std.specs.Prelude.{◌≡◌, ◌==◌, ◌&&◌, ◌||◌, MatchOption, true, false, not};
ghost use Rattle.nbd_wire.specs.declared.commands.TheConstants as commands;
ghost use Rattle.nbd_wire.specs.Prelude.{has_range, byte_at, holds, is_in, piece_byte};
ghost use Rattle.nbd_state.specs.Transcripts.{report_of_request};
ghost use Rattle.nbd_wire.specs.protocol.ExportBytes as bytes;

use crate::asked::{Asked, Outcome};
use crate::proper::{has_range, is_change};
use crate::span::Span;
use nbd_wire::{Piece, commands};

impl Asked {
    /// Whether it succeeded.
    pub fn succeeded(&self) -> bool
        ensures { result ≡ bytes.is_success (report_of_request self.now).outcome }
    {
        match self.outcome {
            Outcome::Success => true,
            Outcome::Failure | Outcome::Pending => false,
        }
    }

    /// Whether the offset lies in its range.
    pub fn has(&self, offset: u64) -> bool
        ensures { result ≡ is_in self.now.offset self.now.length offset }
    {
        self.offset <= offset && offset - self.offset < u64::from(self.length)
    }

    /// Whether what lies in its range, as far as the export goes, lies inside it: its type has a range, and it is no
    /// BLOCK_STATUS that is not proper (this project's choice).
    pub fn has_inside(&self) -> bool
        ensures { result ≡ ((self.now.proper || not (self.now.command == commands.BLOCK_STATUS))
            && has_range self.now.command) }
    {
        (self.proper || self.command != commands::BLOCK_STATUS) && has_range(self.command)
    }

    /// Whether it is a WRITE, TRIM or WRITE_ZEROES with the offset in its range.
    pub fn touches(&self, offset: u64) -> bool
        ensures { result ≡ bytes.touches None (bytes.effect (report_of_request self.now)) offset }
    {
        is_change(self.command) && self.has(offset)
    }

    /// What a change leaves at an offset of its range, if it is known.
    pub fn byte_left(&self, offset: u64) -> Option<u8>
        ensures { result ≡ bytes.effect_byte (bytes.effect (report_of_request self.now)) offset }
    {
        match self.command {
            _ if !self.succeeded() => None,
            commands::WRITE => {
                let at = offset.saturating_sub(self.offset);
                self.payload.as_slice().get(at as usize).copied()
            }
            commands::WRITE_ZEROES => Some(0),
            _ => None,
        }
    }
}

/// The byte that these pieces give at an offset: that of the first which holds it.
pub fn byte_read(pieces: &[Piece], offset: u64) -> Option<u8>
    ensures { result ≡ byte_at pieces.now offset }
{
    for piece in pieces {
        if let Some(byte) = byte_of(piece, offset) {
            return Some(byte);
        }
    }
    None
}

// The byte of a piece at an offset, where it holds it.
fn byte_of(piece: &Piece, offset: u64) -> Option<u8>
    ensures { MatchOption result (holds piece.now offset ≡ false)
        (λ b. (holds piece.now offset ≡ true) × (b ≡ piece_byte piece.now offset)) }
{
    let first = Span::of(piece).offset;
    if offset < first {
        return None;
    }
    let at = offset - first;
    match piece {
        Piece::Bytes { bytes, .. } => bytes.as_slice().get(at as usize).copied(),
        Piece::Hole { size, .. } if at < *size => Some(0),
        Piece::Hole { .. } => None,
    }
}
