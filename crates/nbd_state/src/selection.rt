//! What SET_META_CONTEXT selects (proto.md, "Option types", "Metadata querying").

ghost use Rattle.std.specs.{Prelude.{ℕ, ◌≡◌, ◌==◌, ◌||◌, Bool, MatchOption, false, OnOk, length}, List.list_all};
ghost use Rattle.nbd_wire.specs.protocol.Contexts as contexts;
ghost use Rattle.nbd_wire.specs.Prelude.{no_selection, has_id, agrees, selection_after, selection_at, context_of, are_settled, is_allocation, is_this, selection_told};
ghost use Rattle.nbd_wire.specs.protocol.States as definitions;
ghost use Rattle.nbd_state.specs.{Filters.is_settled_by, declared.asking.Telling.Telling, Shows.{HasSelection, TellsThese, phase_shown}};
ghost use Rattle.nbd_wire.specs.declared.answers.TheConstants as answers;

use crate::asking::{Telling, put};
use crate::many::Many;
use crate::state::{Chosen, Phase};
use nbd_wire::{answers, context_of, name_in, options};
use std::alloc::{AllocError, Global};
use std::collections::BTreeSet;

/// The name of the context whose statuses tell what reads as zeroes.
const ALLOCATION: &[u8] = b"base:allocation";

/// What the last SET_META_CONTEXT asked and was answered.
#[derive(Drop)]
pub struct Selection {
    /// The name of the export that it is for.
    pub export_name: Vec<u8>,
    /// The ids of the contexts that came.
    pub ids: BTreeSet<u32>,
    /// Those of them whose name is `base:allocation`.
    pub allocations: BTreeSet<u32>,
    /// An ACK ended the answer.
    pub granted: bool,
}

impl Selection {
    /// Before the first SET_META_CONTEXT; takes no memory.
    pub fn none(alloc: Global) -> Selection
        ensures { HasSelection result no_selection }
    {
        Selection {
            export_name: Vec::new(alloc),
            ids: BTreeSet::new(alloc),
            allocations: BTreeSet::new(alloc),
            granted: false,
        }
    }

    /// Whether one of the contexts has this id.
    pub fn has_id(&self, id: u32) -> bool
        ensures { (selection : contexts.Selection) → HasSelection self.now selection →
            result ≡ has_id selection.contexts id }
    {
        self.ids.contains(&id)
    }

    /// Whether the context with this id is `base:allocation`.
    pub fn is_allocation(&self, id: u32) -> bool
        ensures { (selection : contexts.Selection) → HasSelection self.now selection →
            result ≡ is_allocation selection.contexts id }
    {
        self.allocations.contains(&id)
    }

    /// Whether no context was selected.
    pub fn is_empty(&self) -> bool
        ensures { (selection : contexts.Selection) → HasSelection self.now selection →
            result ≡ (length selection.contexts == 0) }
    {
        self.ids.is_empty()
    }

    /// Whether each of the contexts is settled, or is the one with this id; where nothing stands beside the pieces none is
    /// settled.
    pub(crate) fn are_told(&self, many: Option<&Many>, id: Option<u32>) -> bool
        ensures { (selection : contexts.Selection) (settled : ℕ → Bool) (telling : Telling) →
            HasSelection self.now selection →
            MatchOption many.entry ((i : ℕ) → is_settled_by telling i ≡ false) (λ m. m.now.told ≡ telling) →
            TellsThese settled selection.contexts telling id → result ≡ are_settled settled selection.contexts }
    {
        match many {
            Some(many) => self.are_told_by(&many.told, id),
            None => self.are_told_by(&Telling::none(*self.export_name.allocator()), id),
        }
    }

    // Whether each of the contexts is settled, or is the one with this id.
    fn are_told_by(&self, told: &Telling, id: Option<u32>) -> bool
        ensures { (selection : contexts.Selection) (settled : ℕ → Bool) → HasSelection self.now selection →
            TellsThese settled selection.contexts told.now id → result ≡ are_settled settled selection.contexts }
    {
        if told.filtered {
            are_all(&told.ids, &self.ids, true, id)
        } else {
            are_all(&self.ids, &told.ids, false, id)
        }
    }

    /// Whether an option that is chosen leads, if it is granted, into transmission with this selection.
    pub fn agrees(&self, option: u32, payload: &[u8]) -> bool
        ensures { (selection : contexts.Selection) → HasSelection self.now selection →
            result ≡ agrees option payload.now selection }
    {
        let name = match option {
            options::EXPORT_NAME => payload,
            options::GO => name_in(payload),
            _ => return false,
        };
        self.granted && name == self.export_name.as_slice()
    }

    /// An option was chosen. After an `Err`, that memory ran out, nothing is known of the selection.
    pub fn choose(&mut self, option: u32, payload: &[u8]) -> Result<(), AllocError>
        ensures { OnOk result ((selection : contexts.Selection) → HasSelection self.old selection →
            HasSelection self.new (selection_at option payload.now selection)) }
    {
        if option != options::SET_META_CONTEXT {
            return Ok(());
        }
        self.ids.clear();
        self.allocations.clear();
        self.granted = false;
        self.export_name.clear();
        self.export_name.extend_from_slice(name_in(payload))
    }

    /// An answer came in this phase. After an `Err`, that memory ran out, the selection is as it was.
    pub(crate) fn answered(
        &mut self,
        phase: Phase,
        kind: u32,
        answer: &[u8],
    ) -> Result<(), AllocError>
        ensures { OnOk result ((selection : contexts.Selection) (p : definitions.Phase) →
            HasSelection self.old selection → phase ≡ phase_shown p →
            HasSelection self.new (selection_after p kind answer.now selection)) }
    {
        match phase {
            Phase::Answering(chosen) if chosen.option == options::SET_META_CONTEXT => {
                self.told(kind, answer)
            }
            _ => Ok(()),
        }
    }

    /// An answer to SET_META_CONTEXT came. After an `Err`, that memory ran out, the selection is as it was.
    pub fn told(&mut self, kind: u32, answer: &[u8]) -> Result<(), AllocError>
        ensures { OnOk result ((selection : contexts.Selection) → HasSelection self.old selection →
            HasSelection self.new (selection_told kind answer.now selection)) }
    {
        match kind {
            answers::META_CONTEXT => self.add(answer),
            answers::ACK => {
                self.granted = true;
                Ok(())
            }
            _ => Ok(()),
        }
    }

    // One more context, where the answer has the form of one.
    fn add(&mut self, answer: &[u8]) -> Result<(), AllocError>
        ensures { OnOk result ((selection : contexts.Selection) → HasSelection self.old selection →
            HasSelection self.new (selection_told answers.META_CONTEXT answer.now selection)) }
    {
        let Some((id, name)) = context_of(answer) else {
            return Ok(());
        };
        if name == ALLOCATION {
            put(&mut self.allocations, id)?;
        }
        put(&mut self.ids, id)?;
        Ok(())
    }
}

// Whether each of these ids is this one, or stands among the others; or is not among them, where it has to be outside.
fn are_all(ids: &BTreeSet<u32>, others: &BTreeSet<u32>, outside: bool, id: Option<u32>) -> bool
    ensures { result ≡ list_all (λ i. is_this id i || is_settled_by (record { filtered = outside; ids = others.now }) i)
        ids.now.keys }
{
    for i in ids {
        if id != Some(*i) && others.contains(i) == outside {
            return false;
        }
    }
    true
}
