//! The tickets of the handles that made a change.
ghost use Rattle.std.specs.Prelude.{◌≡◌, []};

use shared_journal::{JournalName, Record, SharedTicket, Unrecorded};
use std::alloc::Global;
use std::marker::Model;

/// The tickets of the handles that a change stopped, in order, for a caller to keep or to use again. Only the calls of this crate that change
/// a volume add to it; each of them empties it first. A refused change leaves those of the handles that it had stopped by then.
#[derive(Drop)]
pub struct Tickets<J: JournalName, R: Record = Unrecorded> {
    pub(crate) list: Vec<SharedTicket<J, R>>,
}

impl<J: JournalName, R: Record> Model for Tickets<J, R> {
    ghost use Rattle.std.specs.Prelude.{List};
    ghost use Rattle.locked_journal.specs.Known.{TicketKnown};

    ghost Value = { List TicketKnown };

    ghost view = { λ t. t.list.items };
}

impl<J: JournalName, R: Record> Tickets<J, R> {
    /// None. It takes no memory.
    pub fn new(alloc: Global) -> Self
        ensures { result ≡ [] }
    {
        Tickets {
            list: Vec::new(alloc),
        }
    }

    /// Leaves none, and keeps their memory.
    pub fn clear(&mut self)
        ensures { self.new ≡ [] }
    {
        self.list.clear();
    }

    /// The tickets, each to be waited for.
    pub fn into_list(self) -> Vec<SharedTicket<J, R>>
        ensures { result.items ≡ self }
    {
        let Tickets { list } = self;
        list
    }
}
