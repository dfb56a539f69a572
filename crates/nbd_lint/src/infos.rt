//! The rules on what a server says of an export (proto.md, "Option types", "Option reply types", "Size constraints",
//! "Transmission flags").

use crate::asked::{Asked, asks_export, bit_of};
use crate::fields::number_in;
use crate::negotiation::Negotiation;
use crate::notes::Notes;
use crate::numbers::{SMALL_LARGEST, USUAL_LARGEST, USUAL_PREFERRED};
use crate::table::Name;
use crate::texts::Texts;
use nbd_wire::flags::has;
use nbd_wire::{Info, Sizes, asks_sizes, info_of, infos, sizes_of, transmission};

/// Judges an info: one of a type that proto.md has comes a second time, the maximum payload is below the preferred block size.
pub fn judge_info(before: &Negotiation, answer: &[u8], notes: &mut Notes) {
    let asked = &before.asked;
    notes.note_two(
        Name::InfoToldTwice,
        asked.kinds & bit_of(answer) != 0,
        u64::from(asked.id),
        number_in(answer, 0, 2),
    );
    if let Some(sizes) = sizes_of(answer) {
        notes.note_two(
            Name::LargestBelowPreferred,
            sizes.largest < sizes.preferred,
            u64::from(sizes.largest),
            u64::from(sizes.preferred),
        );
    }
    if let Some(Info::Export { flags, .. }) = info_of(answer) {
        judge_flags(before.structured, flags, notes);
    }
}

/// Judges the transmission flags of an export: SEND_DF without structured replies, SEND_FAST_ZERO without SEND_WRITE_ZEROES.
pub fn judge_flags(structured: bool, flags: u16, notes: &mut Notes) {
    let said = u64::from(flags);
    let is_df_alone = has(flags, transmission::SEND_DF) & !structured;
    let is_fast_alone = has(flags, transmission::SEND_FAST_ZERO)
        & !has(flags, transmission::SEND_WRITE_ZEROES);
    notes.note_one(Name::DfWithoutStructuredReplies, is_df_alone, said);
    notes.note_one(Name::FastZeroWithoutWriteZeroes, is_fast_alone, said);
}

/// Judges an ACK: what was said of the export before it.
pub fn judge_acknowledged(before: &Negotiation, notes: &mut Notes) {
    let asked = &before.asked;
    if asks_export(asked.id) {
        if let (Some(size), Some(sizes)) = (asked.size, asked.sizes.last) {
            judge_sizes(size, sizes, notes);
        }
    }
    if asked.earlier_at != 0 {
        judge_same(asked, notes);
    }
}

// Judges the last sizes beside the last size of the export: that is no multiple of the minimum block size, or the maximum payload is
// small and the export is not.
fn judge_sizes(size: u64, sizes: Sizes, notes: &mut Notes) {
    let least = u64::from(sizes.least);
    let is_small = (sizes.largest < SMALL_LARGEST) & (size >= u64::from(SMALL_LARGEST));
    let is_off = !size.is_multiple_of(least);
    notes.note_two(Name::SizeOffBlockSize, is_off, size, least);
    notes.note_two(
        Name::LargestBelow1m,
        is_small,
        u64::from(sizes.largest),
        size,
    );
}

/// Judges ERR_BLOCK_SIZE_REQD in answer to INFO or GO: the client asked for block sizes and is told to, they were not told, or
/// they are those that a client keeps to anyway.
pub fn judge_refused_sizes(asked: &Asked, notes: &mut Notes) {
    let was_told = asked.kinds & (1 << infos::BLOCK_SIZE) != 0;
    let has_asked = asks_sizes(asked.data());
    notes.note_one(
        Name::BlockSizeReqdThoughAsked,
        has_asked,
        u64::from(asked.id),
    );
    notes.note(Name::BlockSizeReqdWithoutSizes, !was_told);
    if let Some(sizes) = asked.sizes.last {
        let are_kept = (sizes.preferred == USUAL_PREFERRED) & (sizes.largest >= USUAL_LARGEST);
        notes.note_three(
            Name::BlockSizeReqdWithDefaults,
            (sizes.least == 1) & are_kept,
            u64::from(sizes.least),
            u64::from(sizes.preferred),
            u64::from(sizes.largest),
        );
    }
}

// Judges the infos that GO got beside those that INFO with the same data got just before.
fn judge_same(asked: &Asked, notes: &mut Notes) {
    let (earlier, now) = (&asked.compared, &asked.told);
    if let Some(info) = now.first_missing(earlier) {
        let sentence = usize::from(!has_kind(earlier, number_in(info, 0, 2)));
        tell_info(info, asked.earlier_at, sentence, notes);
    } else if let Some(info) = earlier.first_missing(now) {
        tell_info(info, asked.earlier_at, 2, notes);
    }
}

// Tells of an info that INFO or GO did not get, and the place at which INFO was granted.
fn tell_info(info: &[u8], place: u64, sentence: usize, notes: &mut Notes) {
    notes.tell(
        Name::InfoDiffersInGo,
        sentence,
        [number_in(info, 0, 2), place, 0],
    );
}

// Whether one of these infos is of this type.
fn has_kind(these: &Texts, kind: u64) -> bool {
    for place in 0..these.count() {
        if number_in(these.at(place), 0, 2) == kind {
            return true;
        }
    }
    false
}
