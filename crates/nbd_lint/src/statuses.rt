//! The rules on block status (proto.md, "Request types", "Structured reply types", "`base:allocation` metadata context").

use crate::notes::Notes;
use crate::numbers::MOST_EXTENTS;
use crate::reply::is_sector;
use crate::table::Name;
use crate::transmission::{Request, Transmission};
use nbd_wire::chunks::{BLOCK_STATUS, BLOCK_STATUS_EXT};
use nbd_wire::{Extent, first_extent, states, status_ext_of, status_of};

/// Extents of a status chunk: the id of their context, and their descriptors.
#[derive(Clone, Copy)]
pub struct Status<'a> {
    pub extended: bool,
    pub id: u32,
    pub descriptors: &'a [u8],
}

/// The status that a chunk of this type is, if it is one.
pub fn status_in(kind: u16, payload: &[u8]) -> Option<Status<'_>> {
    let read = match kind {
        BLOCK_STATUS => status_of(payload),
        BLOCK_STATUS_EXT => status_ext_of(payload),
        _ => None,
    };
    match read {
        Some((id, descriptors)) => Some(Status {
            extended: kind == BLOCK_STATUS_EXT,
            id,
            descriptors,
        }),
        None => None,
    }
}

/// Judges a status chunk.
pub fn judge_status(
    request: &Request,
    before: &Transmission,
    status: Status<'_>,
    notes: &mut Notes,
) {
    let length = if status.extended { 16 } else { 8 };
    let count = status.descriptors.len() as u64 / length;
    let is_allocation = before.is_agreed & before.selection.is_allocation(status.id);
    let mut rest = status.descriptors;
    let mut last = None;
    let mut end = u128::from(request.head.offset);
    notes.note_one(Name::TooManyExtents, count > MOST_EXTENTS, count);
    for number in 1..=count {
        let Some((extent, behind)) = first_extent(status.extended, rest) else {
            return;
        };
        end = end.saturating_add(u128::from(extent.length));
        judge_extent(request, before, number, extent, is_allocation, notes);
        judge_end(request, before, number, end, behind.is_empty(), notes);
        judge_beside(status.extended, last, number, extent, notes);
        last = Some(extent);
        rest = behind;
    }
}

// An extent is no multiple of the minimum block size; one of `base:allocation` has a flag that is reserved.
fn judge_extent(
    request: &Request,
    before: &Transmission,
    number: u64,
    extent: Extent,
    is_allocation: bool,
    notes: &mut Notes,
) {
    let reserved = extent.flags & !u64::from(states::HOLE | states::ZERO);
    notes.note_three(
        Name::ExtentOffBlockSize,
        request.is_aligned & !before.sizes.is_multiple(extent.length),
        number,
        extent.length,
        u64::from(before.sizes.least),
    );
    notes.note_one(
        Name::AllocationFlags,
        is_allocation & (reserved != 0),
        extent.flags,
    );
}

// An extent ends at no multiple of 512; the last one also not with the request or the export. What ends at 2^64 or behind it is not
// looked at.
fn judge_end(
    request: &Request,
    before: &Transmission,
    number: u64,
    end: u128,
    is_last: bool,
    notes: &mut Notes,
) {
    if let Ok(end) = u64::try_from(end) {
        let is_excused = is_last & ((end == request.end()) | (end == before.export.size));
        let is_off = !is_sector(end) & !is_excused;
        notes.note_two(Name::ExtentOff512, is_off, number, end);
    }
}

// An extent and the one before it could be one.
fn judge_beside(
    extended: bool,
    last: Option<Extent>,
    number: u64,
    extent: Extent,
    notes: &mut Notes,
) {
    if let Some(last) = last {
        notes.note_three(
            Name::ExtentsAlike,
            (last.flags == extent.flags) & fit_together(extended, last, extent),
            number.saturating_sub(1),
            number,
            extent.flags,
        );
    }
}

// Whether one descriptor could have the lengths of both.
fn fit_together(extended: bool, first: Extent, second: Extent) -> bool {
    match first.length.checked_add(second.length) {
        Some(sum) => extended | (sum <= u64::from(u32::MAX)),
        None => false,
    }
}
