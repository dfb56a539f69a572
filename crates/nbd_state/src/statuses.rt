//! What status chunks tell: of which contexts, and which bytes read as zeroes.

ghost use Rattle.std.specs.Prelude.{◌≡◌, ◌<◌, ◌+◌, ◌^◌, ◌==◌, ◌&&◌, not, true, ◌++◌, ◌∷◌, ℕ, false, IfErr, IfOk, MatchOption, [], if◌then◌else◌, is_some};
ghost use Rattle.nbd_wire.specs.declared.commands.TheConstants as commands;
ghost use Rattle.nbd_wire.specs.{Prelude.{extents_of, status_in, zeroes_in, has, status_kind}, declared.payloads.Piece.TheVariants.Hole};
ghost use Rattle.nbd_wire.specs.declared.states.TheConstants as states;
ghost use Rattle.nbd_state.specs.Places.{chunk_of};

use crate::asked::Asked;
use nbd_wire::flags::has_long;
use nbd_wire::{
    ChunkHead, Piece, chunks, commands, first_extent, states, status_ext_of, status_of,
};
use std::alloc::{AllocError, Global};

/// The id of the context in the status that this chunk is, if it is one, and its descriptors.
pub(crate) fn told_in<'a>(head: &ChunkHead, payload: &'a [u8]) -> Option<(u32, &'a [u8])>
    ensures { MatchOption result (status_in (chunk_of head.now payload.now) ≡ [])
        (λ v. (head.now.kind ≡ status_kind (is_some head.now.at)) × (status_in (chunk_of head.now payload.now)
        ≡ record { id = v.0; extents = extents_of (is_some head.now.at) v.1.now } ∷ [])) }
{
    match head.at {
        None if head.kind == chunks::BLOCK_STATUS => status_of(payload),
        Some(_) if head.kind == chunks::BLOCK_STATUS_EXT => status_ext_of(payload),
        _ => None,
    }
}

/// What descriptors call zero in the range of a request, if it is a proper BLOCK_STATUS and they tell that.
pub(crate) fn zeroes_told(
    alloc: Global,
    asked: &Asked,
    extended: bool,
    descriptors: &[u8],
    zeroes: bool,
) -> Result<Vec<Piece>, AllocError>
    ensures { IfOk result (λ pieces. (asked.now.command ≡ commands.BLOCK_STATUS → asked.now.proper ≡ true →
        asked.now.offset + asked.now.length < 2 ^ 64) →
        pieces.items ≡ (if zeroes && ((asked.now.command == commands.BLOCK_STATUS) && asked.now.proper)
        then zeroes_in asked.now.offset asked.now.length (extents_of extended descriptors.now) else [])) }
{
    if zeroes && asked.command == commands::BLOCK_STATUS && asked.proper {
        zeroes_in(alloc, asked.offset, asked.length, extended, descriptors)
    } else {
        Ok(Vec::new(alloc))
    }
}

// The bytes of an extent behind the pieces, if there are some and it calls them zero.
fn push_zero(pieces: &mut Vec<Piece>, offset: u64, size: u64, flags: u64) -> Result<(), AllocError>
    ensures { IfOk result (λ _. pieces.new.items ≡ pieces.old.items
        ++ (if has flags states.ZERO && not (size == 0) then Hole offset size ∷ [] else [])) }
{
    if has_long(flags, u64::from(states::ZERO)) && size > 0 {
        pieces.push(Piece::Hole { offset, size })?;
    }
    Ok(())
}

// What descriptors call zero in a range, which ends below 2^64.
fn zeroes_in(
    alloc: Global,
    offset: u64,
    length: u64,
    extended: bool,
    descriptors: &[u8],
) -> Result<Vec<Piece>, AllocError>
    ensures { IfOk result (λ pieces. offset + length < 2 ^ 64 →
        pieces.items ≡ zeroes_in offset length (extents_of extended descriptors.now)) }
{
    let mut pieces = Vec::new(alloc);
    let mut left = length;
    let mut rest = descriptors;
    while let Some((extent, later)) = first_extent(extended, rest) {
        let size = extent.length.min(left);
        let at = offset.saturating_add(length - left);
        push_zero(&mut pieces, at, size, extent.flags)?;
        left -= size;
        rest = later;
    }
    Ok(pieces)
}
