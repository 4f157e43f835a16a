//! What a script's names stand for while it runs. Open handles cannot be dropped, so neither can slots.
ghost use Rattle.std.specs.Prelude.{◌≡◌, [], vec_capacity};

use journal_model::Sealed;
use journal_script::HandleName;
use shared_journal::{JournalName, SharedHandle, SharedReceipt, SharedTicket};
use std::mem;

pub(crate) enum SharedSlot<'j, J: JournalName> {
    /// No start was tried, or it was refused.
    Empty,
    Open(SharedHandle<'j, J, Vec<Sealed>>),
    /// A stopped handle's ticket.
    Stopped(SharedTicket<J, Vec<Sealed>>),
    /// The receipt for a stopped handle's ticket.
    Waited(SharedReceipt<J, Vec<Sealed>>),
}

/// One slot for each name.
pub(crate) struct SharedSlots<'j, J: JournalName> {
    slots: Vec<SharedSlot<'j, J>>,
}

impl<'j, J: JournalName> SharedSlots<'j, J> {
    /// Empty slots of `names` names. `room` must be empty, with room for them.
    pub(crate) fn of(room: Vec<SharedSlot<'j, J>>, names: usize) -> Self
        requires empty { room.items ≡ [] }
        requires capacity { vec_capacity room ≡ names }
    {
        let mut slots = room;
        for _ in 0..names {
            slots.push_reserved(SharedSlot::Empty);
        }
        SharedSlots { slots }
    }

    /// Whether a name exists and has no open handle.
    pub(crate) fn is_free(&self, name: HandleName) -> bool {
        match self.slots.get(name.index()) {
            Some(SharedSlot::Open(_)) | None => false,
            Some(SharedSlot::Empty | SharedSlot::Stopped(_) | SharedSlot::Waited(_)) => true,
        }
    }

    /// Fills a slot and returns its earlier content; an unknown name gives `slot` back.
    pub(crate) fn replace(
        &mut self,
        name: HandleName,
        slot: SharedSlot<'j, J>,
    ) -> SharedSlot<'j, J> {
        if name.index() < self.slots.len() {
            mem::replace(&mut self.slots[name.index()], slot)
        } else {
            slot
        }
    }

    /// The slots, in the order of their names.
    pub(crate) fn into_slots(self) -> Vec<SharedSlot<'j, J>> {
        let SharedSlots { slots } = self;
        slots
    }
}
