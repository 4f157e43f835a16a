//! Direct writes: bytes go straight home, past the log, to a block that the transactions leave to home; a flush of home makes them durable.
//! Source: this project's own, by what journal.rst says of revokes (a block that is no longer journalled may be written in place).
ghost use Rattle.std.specs.Prelude.{◌≡◌, length};
ghost use Rattle.journal_steps.specs.Verbs.{SyncsDirectly, WritesDirectly};

use crate::journal::Journal;
use block_device::Device;
use journal_front::Record;
use journal_model::{BlockNo, JournalError};
use journal_steps::steps;

impl<D: Device, R: Record> Journal<D, R> {
    /// Writes one block directly home, past the log. No uncommitted transaction may have an entry of the block, and its last entry in
    /// the others since the opening, released ones too, must be a revoke or none. It is durable after a `sync_direct` that answers Ok.
    /// It makes one device call, takes no memory, and is no slower after more transactions.
    ///
    /// # Errors
    ///
    /// `Aborted`; `BadBlock` as in `write`; `NotDirect` if an entry forbids it: nothing changes. `Device`: home reads, and a crash
    /// leaves, the old bytes or these.
    /// Source: this project's own, by what journal.rst says of revokes.
    pub fn write_direct(&mut self, block: BlockNo, bytes: &[u8]) -> Result<(), JournalError>
        requires { length bytes.now ≡ (D.state self.old.device).shape.block_size }
        ensures { WritesDirectly D.state D.honest self.old block bytes.now self.new result }
    {
        steps::write_direct(&mut self.front, &mut self.engine, block, bytes)
    }

    /// Flushes the home area: every earlier direct write that answered Ok is durable.
    ///
    /// # Errors
    ///
    /// `Aborted`. `Device`: nothing more is durable.
    /// Source: this project's own; a flush request (the kernel's writeback_cache_control.rst).
    pub fn sync_direct(&mut self) -> Result<(), JournalError>
        ensures { SyncsDirectly D.state D.honest self.old self.new result }
    {
        steps::sync_direct(&mut self.front, &mut self.engine)
    }
}
