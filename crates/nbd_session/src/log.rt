//! What a session keeps of its past: the messages, and how the two sides' bytes alternated.

ghost use Rattle.std.specs.Prelude.{◌≡◌, ◌+◌, ◌++◌, ◌<◌, ◌^◌, [], OnOk, option_to_list, vec_capacity, vec_len};
ghost use Rattle.nbd_session.specs.{Pushed.stretch_bytes, Views.stretches_of, internal.Logging.stretches_with};

use crate::stretches::{Stretch, note};
use nbd_wire::{Message, Side};
use std::alloc::{AllocError, Global};

/// The accepted messages, in the order of their completion, and how the two sides' bytes alternated.
#[derive(Drop)]
pub(crate) struct Log {
    pub messages: Vec<Message>,
    pub stretches: Vec<Stretch>,
}

impl Log {
    /// Before the first byte; takes no memory.
    pub(crate) fn new(alloc: Global) -> Log
        ensures { (result.messages.items ≡ []) × (result.stretches.items ≡ []) }
    {
        Log {
            messages: Vec::new(alloc),
            stretches: Vec::new(alloc),
        }
    }

    /// Makes room for a message and a stretch. An `Err` says that memory ran out.
    pub(crate) fn reserve(&mut self) -> Result<(), AllocError>
        ensures same { (self.new.messages.items ≡ self.old.messages.items)
            × (self.new.stretches.items ≡ self.old.stretches.items) }
        ensures messages { OnOk result (vec_len self.new.messages < vec_capacity self.new.messages) }
        ensures stretches { OnOk result (vec_len self.new.stretches < vec_capacity self.new.stretches) }
    {
        self.messages.reserve(1)?;
        self.stretches.reserve(1)
    }

    /// Notes that so many bytes of a side came, and the message that they completed, where there is room.
    pub(crate) fn add(&mut self, side: Side, count: usize, message: Option<Message>)
        requires messages { vec_len self.old.messages < vec_capacity self.old.messages }
        requires stretches { vec_len self.old.stretches < vec_capacity self.old.stretches }
        requires fits { stretch_bytes side (stretches_of self.old.stretches.items) + count < 2 ^ 64 }
        ensures messages { self.new.messages.items ≡ self.old.messages.items ++ option_to_list message }
        ensures stretches { stretches_of self.new.stretches.items ≡ stretches_with
            (stretches_of self.old.stretches.items) side count }
    {
        note(&mut self.stretches, side, count as u64);
        push_some(&mut self.messages, message);
    }
}

// Adds an item, if there is one, where there is room.
fn push_some<T: Drop>(items: &mut Vec<T>, item: Option<T>)
    requires { vec_len items.old < vec_capacity items.old }
    ensures { items.new.items ≡ items.old.items ++ option_to_list item }
{
    if let Some(item) = item {
        let _ = items.push(item);
    }
}
