//! What the data of options list: queries, and the infos that are asked for (proto.md, "Option types").

use crate::asked::Asked;
use crate::fields::{bytes_behind, number_in};
use crate::notes::Notes;
use crate::strings::judge_string;
use crate::table::Name;
use nbd_wire::{listed_of, options};
use std::collections::BTreeSet;

/// What contexts of the namespace `base` begin with; as a query it asks for all of them.
pub const BASE: &[u8] = b"base:";

/// The queries in the data of LIST_META_CONTEXT or SET_META_CONTEXT: each behind its length of four bytes, as `listed_of`
/// reads it.
pub fn first_query(payload: &[u8]) -> &[u8] {
    match listed_of(payload) {
        Some((_, rest)) => bytes_behind(rest, 4),
        None => &[],
    }
}

/// Judges which infos INFO or GO asks for, of two bytes each: one is twice.
pub fn judge_infos_asked(asked: &Asked, notes: &mut Notes) {
    let name = nbd_wire::name_in(asked.data()).len();
    let mut rest = bytes_behind(asked.data(), name.saturating_add(6));
    let mut seen = BTreeSet::new(notes.alloc);
    for _ in 0..rest.len() / 2 {
        let kind = number_in(rest, 0, 2);
        match seen.insert(kind) {
            Ok(is_new) => notes.note_two(Name::InfoAskedTwice, !is_new, u64::from(asked.id), kind),
            Err(_) => notes.is_refused = true,
        }
        rest = bytes_behind(rest, 2);
    }
}

/// The place at which a byte stands first, from 1; 0 where it does not.
pub fn place_in(bytes: &[u8], wanted: u8) -> usize {
    for (place, byte) in bytes.iter().enumerate() {
        if *byte == wanted {
            return place.saturating_add(1);
        }
    }
    0
}

/// Whether a query or a context's name begins with a namespace and a colon.
pub fn has_namespace(name: &[u8]) -> bool {
    place_in(name, b':') > 1
}

// Whether a query ends with its first colon, so that it names no leaf.
fn is_without_leaf(query: &[u8]) -> bool {
    (place_in(query, b':') == query.len()) & !query.is_empty()
}

/// What the queries of LIST_META_CONTEXT or SET_META_CONTEXT have in common.
#[derive(Clone, Copy, Drop)]
pub struct Common {
    /// There is none.
    pub is_empty: bool,
    /// One is `base:`.
    pub is_wildcard: bool,
    /// Each begins with `base:`.
    begin_with_base: bool,
    /// Each ends with its first colon.
    are_without_leaf: bool,
    /// Where in the data the first stands that is not `base:`; 0 where each is.
    other: usize,
}

/// Of no queries.
pub const NO_QUERIES: Common = Common {
    is_empty: true,
    is_wildcard: false,
    begin_with_base: true,
    are_without_leaf: true,
    other: 0,
};

impl Common {
    // Takes one more query, which stands at this place of the data.
    fn take(&mut self, query: &[u8], place: usize) {
        let is_base = query == BASE;
        self.is_empty = false;
        self.is_wildcard |= is_base;
        self.begin_with_base &= query.starts_with(BASE);
        self.are_without_leaf &= is_without_leaf(query);
        if !is_base & (self.other == 0) {
            self.other = place;
        }
    }

    /// Whether there are some, and each begins with `base:`.
    pub fn are_base(self) -> bool {
        self.begin_with_base & !self.is_empty
    }

    /// Whether each ends with its first colon, and one is not `base:`.
    pub fn name_no_leaf(self) -> bool {
        self.are_without_leaf & (self.other != 0)
    }

    /// The first that is not `base:`, of these data.
    pub fn other_in(self, payload: &[u8]) -> &[u8] {
        nbd_wire::name_in(bytes_behind(payload, self.other))
    }
}

/// Judges the queries in the data of LIST_META_CONTEXT or SET_META_CONTEXT, and takes what they have in common; those of
/// SET_META_CONTEXT in their order, where its answers are judged by them.
pub fn judge_queries(asked: &mut Asked, notes: &mut Notes) {
    let payload = asked.payload.as_slice();
    let is_setting = asked.id == options::SET_META_CONTEXT;
    let mut rest = first_query(payload);
    for before in 0..payload.len() {
        let Some((query, behind)) = listed_of(rest) else {
            break;
        };
        judge_query((before as u64).saturating_add(1), query, notes);
        let place = payload.len().saturating_sub(rest.len());
        asked.queries.take(query, place);
        if is_setting & query.starts_with(BASE) {
            asked.compared.add(query, notes);
        }
        rest = behind;
    }
    if is_setting & asked.queries.are_base() {
        asked.compared.order(notes);
    }
}

// Judges a query: it does not begin with a namespace and a colon.
fn judge_query(number: u64, query: &[u8], notes: &mut Notes) {
    let is_bare = !has_namespace(query);
    judge_string("query", number, query, notes);
    notes.note_named(Name::QueryNamespace, is_bare, query, &[], number);
}
