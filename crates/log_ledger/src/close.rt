//! Which superblock a close writes: that of a clean log with the next transaction's number.
//! Source: fs/jbd2/journal.c by behaviour (a journal that is destroyed is marked empty); journal.rst (s_start 0).
ghost use Rattle.std.specs.Prelude.{◌≡◌, ◌+◌, length};
ghost use Rattle.journal_model.specs.Disk.{Shape};
ghost use Rattle.log_epochs.specs.EngineSteps.{closed_superblock};
ghost use Rattle.log_ledger.specs.Ledger.{CanRunOn, engine_of};

use crate::ledger::Ledger;
use crate::text::TextWriter;

impl Ledger {
    /// The number of the first transaction that is not committed.
    pub fn next_number(&self) -> u32
        requires { CanRunOn self.now (length self.now.superblock.items) }
        ensures { result ≡ self.now.first + self.now.committed }
    {
        self.first + self.committed as u32
    }

    /// Builds the superblock of the clean log that a close leaves.
    pub fn write_closed(&self, writer: &mut TextWriter)
        requires { CanRunOn self.now (length writer.old) }
        ensures closed { (shape : Shape) → writer.new ≡ closed_superblock (engine_of shape self.now) }
        ensures size { length writer.new ≡ length writer.old }
    {
        let number = self.next_number();
        writer.write_superblock(&self.superblock, number, 0);
    }
}
