//! The ranges in which the requests of a session tell something.

ghost use Rattle.std.specs.Prelude.{◌≡◌, ℕ, IfOk, OnOk};
ghost use Rattle.nbd_state.specs.Transcripts.{report_of_request};
ghost use Rattle.nbd_order.specs.{Sure.is_read, internal.Here.{here_at, joined, pieces_here, request_here, touches_here}};

use crate::here::Here;
use crate::leaving::range_of;
use nbd_session::{Asked, Transcript};
use nbd_state::{Span, is_change};
use nbd_wire::{Piece, commands};
use std::alloc::{AllocError, Global};

/// A range, and what a request tells of it.
#[derive(Clone, Copy, Drop)]
pub struct Touch {
    pub span: Span,
    pub here: Here,
}

/// The ranges of a session's changes, and of the pieces of its READs that succeeded, by the numbers of the requests.
pub fn touches_of(alloc: Global, transcript: &Transcript) -> Result<Vec<Touch>, AllocError>
    ensures { IfOk result (λ touches. (x : ℕ) → touches_here touches.items x ≡ here_at transcript.now.asked x) }
{
    let mut touches = Vec::new(alloc);
    for i in 0..transcript.count() {
        if let Some(one) = transcript.asked(i + 1) {
            add_request(i + 1, one, &mut touches)?;
        }
    }
    Ok(touches)
}

// Adds those of the request with this number.
fn add_request(number: u64, one: &Asked, touches: &mut Vec<Touch>) -> Result<(), AllocError>
    ensures { OnOk result ((x : ℕ) → touches_here touches.new.items x
        ≡ joined (touches_here touches.old.items x) (request_here number (report_of_request one.now) x)) }
{
    if is_change(one.command) {
        touches.push(Touch {
            span: range_of(one),
            here: Here::of_change(number, one),
        })?;
    } else if is_read(one) {
        add_pieces(number, one, touches)?;
    }
    Ok(())
}

// Adds the pieces of the READ with this number.
fn add_pieces(number: u64, one: &Asked, touches: &mut Vec<Touch>) -> Result<(), AllocError>
    ensures { OnOk result ((x : ℕ) → touches_here touches.new.items x
        ≡ joined (touches_here touches.old.items x) (pieces_here number 0 one.now.pieces.items x)) }
{
    let pieces: &[Piece] = &one.pieces;
    for i in 0..pieces.len() {
        touches.push(Touch {
            span: Span::of(&pieces[i]),
            here: Here::of_piece(number, i),
        })?;
    }
    Ok(())
}

// Whether it is a READ that succeeded.
fn is_read(one: &Asked) -> bool
    ensures { result ≡ is_read (report_of_request one.now) }
{
    one.command == commands::READ && one.succeeded()
}
