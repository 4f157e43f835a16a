//! What the names of a script stand for while it runs. An open handle can't be dropped, so neither can a slot.
ghost use Rattle.std.specs.Prelude.{◌≡◌, ◌↔◌, [], IsTrue, MatchOption, replicate, set, vec_capacity};
ghost use Rattle.script_client.specs.declared.slots.Slot.TheVariants.{Empty};

use group_commit::{Handle, Receipt, Ticket};
use journal_script::{HANDLE_NAMES, HandleName};
use std::marker::Model;
use std::mem;

/// What a name stands for.
pub enum Slot {
    /// Nothing: no start was tried, or it was refused.
    Empty,
    /// An open handle.
    Open(Handle),
    /// The ticket of a stopped handle.
    Stopped(Ticket),
    /// The receipt of a stopped handle's ticket.
    Waited(Receipt),
}

/// One slot for each name.
pub struct Slots {
    slots: Vec<Slot>,
}

impl Model for Slots {
    ghost use Rattle.std.specs.Prelude.{List};
    ghost use Rattle.script_client.specs.declared.slots.Slot.{Slot};

    ghost Value = { List Slot };

    ghost view = { λ s. s.slots.items };
}

impl Slots {
    ghost use Rattle.script_client.specs.Names.{IsFree, MayStand, stands_for};

    /// Slots of names that stand for nothing. `room` must be empty, with room for all.
    pub fn of(room: Vec<Slot>) -> Self
        requires empty { room.items ≡ [] }
        requires capacity { vec_capacity room ≡ 10_000 }
        ensures { result ≡ replicate 10_000 Empty }
    {
        let mut slots = room;
        for _ in 0..HANDLE_NAMES {
            slots.push_reserved(Slot::Empty);
        }
        Slots { slots }
    }

    /// Whether a name exists and stands for no open handle.
    pub fn is_free(&self, name: HandleName) -> bool
        ensures { IsTrue result ↔ IsFree self.now name }
    {
        match self.slots.get(name.index()) {
            Some(Slot::Open(_)) | None => false,
            Some(Slot::Empty | Slot::Stopped(_) | Slot::Waited(_)) => true,
        }
    }

    /// The slot of a name, if the name exists.
    pub fn get(&self, name: HandleName) -> Option<&Slot>
        ensures { MatchOption result (stands_for self.now name ≡ Empty) (λ slot. stands_for self.now name ≡ slot.now) }
    {
        self.slots.get(name.index())
    }

    /// Takes what a name stands for; the name then stands for nothing.
    pub fn take(&mut self, name: HandleName) -> Slot
        ensures slot { result ≡ stands_for self.old name }
        ensures others { self.new ≡ set self.old name Empty }
    {
        if name.index() < self.slots.len() {
            mem::replace(&mut self.slots[name.index()], Slot::Empty)
        } else {
            Slot::Empty
        }
    }

    /// Puts something at a name that stands for no open handle.
    pub fn put(&mut self, name: HandleName, slot: Slot)
        requires { MayStand self.old name slot }
        ensures { self.new ≡ set self.old name slot }
    {
        let other = if name.index() < self.slots.len() {
            mem::replace(&mut self.slots[name.index()], slot)
        } else {
            slot
        };
        match other {
            Slot::Open(_handle) => unreachable!(),
            Slot::Empty | Slot::Stopped(_) | Slot::Waited(_) => {}
        }
    }

    /// The slots, in the order of their names.
    pub fn into_slots(self) -> Vec<Slot>
        ensures { result.items ≡ self }
    {
        let Slots { slots } = self;
        slots
    }
}
