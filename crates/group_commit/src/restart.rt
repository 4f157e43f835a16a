//! What a restart leaves: the handle is stopped, and another is in the running transaction.
ghost use Rattle.std.specs.Prelude.{◌≡◌, IfErr, IfOk};
ghost use Rattle.journal_world.specs.Front.{next_handle};
ghost use Rattle.group_commit.specs.Extension.{RestartRefused, Restarts};
ghost use Rattle.journal_front.specs.Front.{IsOpenHandle};

use crate::journal::Journal;
use crate::ticket::Ticket;
use block_device::Device;
use journal_front::{Handle, Record};
use journal_model::JournalError;

impl<D: Device, R: Record> Journal<D, R> {
    /// Stops a handle and makes a new one with `n` credits and a new number, in the transaction that then runs.
    ///
    /// # Errors
    ///
    /// Those of `try_start`. The handle is stopped all the same, and its ticket comes back.
    /// Source: journalling.rst (`journal_restart`).
    pub fn restart(&mut self, handle: Handle, n: u64) -> Result<Handle, (Ticket, JournalError)>
        ensures ok { IfOk result (λ other. Restarts D.state handle n self.old self.new
            × (other ≡ record { number = next_handle self.old.journal.front; tid = self.old.journal.front.running.tid; left = n })) }
        ensures open { IfOk result (IsOpenHandle self.new.journal.front) }
        ensures err { IfErr result (λ e. (e.0 ≡ record { handle = handle.number; tid = handle.tid }) × RestartRefused D.state handle n self.old self.new e.1) }
        ensures device { self.new.device ≡ self.old.device }
    {
        let ticket = self.stop(handle);
        match self.try_start(n) {
            Ok(other) => Ok(other),
            Err(e) => Err((ticket, e)),
        }
    }
}
