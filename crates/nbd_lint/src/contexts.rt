//! The rules on metadata contexts (proto.md, "Metadata querying", "Option types").

use crate::asked::Asked;
use crate::notes::Notes;
use crate::queries::{BASE, has_namespace, place_in};
use crate::table::Name;
use nbd_wire::{bytes_in, context_of, options};

/// The namespaces that proto.md (nbd 3.26.1) registers, beside those that begin with `x-` (proto.md, "Metadata querying").
const NAMESPACES: &[&[u8]] = &[b"base", b"nbd-server", b"qemu"];

/// The name in a META_CONTEXT answer.
pub fn name_in(answer: &[u8]) -> &[u8] {
    match context_of(answer) {
        Some((_, name)) => name,
        None => &[],
    }
}

/// Whether a context is one of the namespace `base` with a leaf-name.
pub fn is_base_leaf(name: &[u8]) -> bool {
    name.starts_with(BASE) & (name.len() > BASE.len())
}

/// Judges a META_CONTEXT answer to an option.
pub fn judge_context(asked: &Asked, answer: &[u8], notes: &mut Notes) {
    if let Some((id, name)) = context_of(answer) {
        judge_name(name, notes);
        match asked.id {
            options::SET_META_CONTEXT => judge_selected(asked, name, notes),
            options::LIST_META_CONTEXT => {
                notes.note_named(Name::ListContextId, id != 0, name, &[], u64::from(id));
            }
            _ => {}
        }
    }
}

// Judges the name: it has no colon, or begins with one; or its namespace is none that is registered.
fn judge_name(name: &[u8], notes: &mut Notes) {
    let namespace = bytes_in(name, 0, place_in(name, b':').saturating_sub(1));
    let has_namespace = !namespace.is_empty();
    notes.note_named(Name::ContextName, !has_namespace, name, &[], 0);
    notes.note_named(
        Name::ContextNamespace,
        has_namespace & !is_registered(namespace),
        name,
        namespace,
        0,
    );
}

// Whether a namespace is registered, or is of those that need no registration.
fn is_registered(namespace: &[u8]) -> bool {
    NAMESPACES.contains(&namespace) || namespace.starts_with(b"x-")
}

// Judges a context that is selected: all queries begin with `base:`, and none of them is this context, or it is `base:` itself; or the
// queries name no leaf.
fn judge_selected(asked: &Asked, name: &[u8], notes: &mut Notes) {
    let is_asked = name != BASE && asked.compared.has(name);
    notes.note_named(
        Name::ContextNotAsked,
        asked.queries.are_base() & !is_asked,
        name,
        asked.data(),
        0,
    );
    notes.note_named(
        Name::ContextByEmptyLeaf,
        asked.queries.name_no_leaf(),
        name,
        asked.queries.other_in(asked.data()),
        0,
    );
}
