//! What a request asks, and of which metadata contexts its reply has still to tell (proto.md, "Metadata querying"). A
//! BLOCK_STATUS with an extended header may have a filter, which says how long its range is and which of the contexts it
//! asks (this project's choice, read from libnbd and qemu).

ghost use Rattle.std.specs.{Prelude.{ℕ, ◌≡◌, ◌==◌, ◌&&◌, ◌||◌, [], false, not, IfOk, IsTrue, if◌then◌else◌, length, true}, BTreeSet.{IsEmpty, contains}, Option.option_map, Ordering.nat_cmp};
ghost use Rattle.nbd_wire.specs.protocol.Contexts as contexts;
ghost use Rattle.nbd_wire.specs.Prelude.{are_once, is_among, has_id, ids_of};
ghost use Rattle.nbd_state.specs.{Filters.{Asks, filter_of_head, is_settled_by}, Shows.HasSelection};

use crate::selection::Selection;
use nbd_wire::flags::has;
use nbd_wire::{RequestHead, command_flags, commands, filter_of, first_id, transmission};
use std::alloc::{AllocError, Global};
use std::collections::BTreeSet;

/// Which of the contexts in force a reply need not tell any more.
#[derive(Drop)]
pub struct Telling {
    /// The request has a filter.
    pub filtered: bool,
    /// With a filter, the ids that it asks and that have no status yet; without one, those that have a status.
    pub ids: BTreeSet<u32>,
}

/// What a request asks where the session stands.
#[derive(Drop)]
pub struct Asking {
    /// A metadata context is in force.
    pub has_contexts: bool,
    /// The length of its range, in bytes: that in its filter, or else that in its head.
    pub length: u64,
    /// It has a filter that a client may send to the export.
    pub takes_filter: bool,
    /// The contexts that it does not ask are settled.
    pub told: Telling,
}

impl Telling {
    /// Nothing is settled; takes no memory.
    pub(crate) fn none(alloc: Global) -> Telling
        ensures { (id : ℕ) → is_settled_by result id ≡ false }
    {
        Telling {
            filtered: false,
            ids: BTreeSet::new(alloc),
        }
    }

    /// Whether it is seen at once that nothing is settled.
    pub(crate) fn is_blank(&self) -> bool
        ensures { IsTrue result → (id : ℕ) → is_settled_by self.now id ≡ false }
    {
        !self.filtered && self.ids.is_empty()
    }

    /// Whether the context in force with this id has its status, or is not asked.
    pub fn is_settled(&self, id: u32) -> bool
        ensures { result ≡ is_settled_by self.now id }
    {
        self.ids.contains(&id) != self.filtered
    }

    /// One more context is told; where the reply ends, none is kept. After an `Err`, that memory ran out, all is as it was.
    pub(crate) fn tell(&mut self, id: u32, ends: bool) -> Result<(), AllocError>
        ensures told { IfOk result (λ _. ends ≡ false → (q : ℕ) →
            is_settled_by self.new q ≡ (if id == q then true else is_settled_by self.old q)) }
        ensures cleared { ends ≡ true → IsEmpty self.new.ids }
    {
        if ends {
            self.ids.clear();
        } else if self.filtered {
            self.ids.remove(&id);
        } else {
            put(&mut self.ids, id)?;
        }
        Ok(())
    }
}

impl Selection {
    /// What a request with this head and payload asks of an export with these flags; whether these contexts are in force,
    /// or none is. The memory is that of the ids of a filter, as far as they are in force; an `Err` says that it ran out.
    pub fn asking(
        &self,
        alloc: Global,
        in_force: bool,
        flags: u16,
        head: &RequestHead,
        payload: &[u8],
    ) -> Result<Asking, AllocError>
        ensures { IfOk result (λ asking. (selection : contexts.Selection) → HasSelection self.now selection →
            Asks flags (if in_force then selection.contexts else [])
            (filter_of_head (not (length (if in_force then selection.contexts else []) == 0)) head.now payload.now)
            head.now.length asking) }
    {
        let has_contexts = in_force && !self.is_empty();
        match filter_of_head(has_contexts, head, payload) {
            Some((range, ids)) => self.asking_with(alloc, flags, range, ids),
            None => Ok(Asking {
                has_contexts,
                length: head.length,
                takes_filter: false,
                told: Telling::none(alloc),
            }),
        }
    }

    // The same of a request whose filter has this length of its range and these ids, where a context is in force.
    fn asking_with(
        &self,
        alloc: Global,
        flags: u16,
        range: u64,
        ids: &[u8],
    ) -> Result<Asking, AllocError>
        ensures { IfOk result (λ asking. (selection : contexts.Selection) (len : ℕ) →
            HasSelection self.now selection → (length selection.contexts == 0) ≡ false →
            Asks flags selection.contexts (Some (record { length = range; ids = ids_of ids.now })) len asking) }
    {
        let mut asked = BTreeSet::new(alloc);
        let are_once = self.take_ids(&mut asked, ids)?;
        Ok(Asking {
            has_contexts: true,
            length: range,
            takes_filter: has(flags, transmission::BLOCK_STATUS_PAYLOAD) && are_once,
            told: Telling {
                filtered: true,
                ids: asked,
            },
        })
    }

    // Puts those of these ids that are in force into an empty set, and returns whether all are, and none stands twice.
    fn take_ids(&self, asked: &mut BTreeSet<u32>, ids: &[u8]) -> Result<bool, AllocError>
        ensures { IfOk result (λ once. (selection : contexts.Selection) → HasSelection self.now selection →
            ((q : ℕ) → contains nat_cmp asked.old q ≡ false) →
            (once ≡ are_once (has_id selection.contexts) (ids_of ids.now)) × ((q : ℕ) →
            contains nat_cmp asked.new q ≡ (has_id selection.contexts q && is_among (ids_of ids.now) q))) }
    {
        let mut once = true;
        let mut rest = ids;
        while let Some((id, later)) = first_id(rest) {
            once &= self.has_id(id) && put(asked, id)?;
            rest = later;
        }
        Ok(once)
    }
}

// Puts an id into the set, and returns whether it did not stand there. After an `Err`, that memory ran out, all is as it was.
pub(crate) fn put(ids: &mut BTreeSet<u32>, id: u32) -> Result<bool, AllocError>
    ensures new { IfOk result (λ is_new. is_new ≡ not (contains nat_cmp ids.old id)) }
    ensures all { IfOk result (λ _. (q : ℕ) → contains nat_cmp ids.new q ≡ ((id == q) || contains nat_cmp ids.old q)) }
{
    Ok(ids.insert(id)?)
}

// The length and the ids' bytes of the filter of a request with this head and payload, if it has one.
fn filter_of_head<'a>(
    has_contexts: bool,
    head: &RequestHead,
    payload: &'a [u8],
) -> Option<(u64, &'a [u8])>
    ensures { option_map (λ v. record { length = v.0; ids = ids_of v.1.now }) result
        ≡ filter_of_head has_contexts head.now payload.now }
{
    if head.extended
        && has_contexts
        && head.command == commands::BLOCK_STATUS
        && has(head.flags, command_flags::PAYLOAD_LEN)
    {
        filter_of(payload)
    } else {
        None
    }
}
