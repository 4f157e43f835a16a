//! Which device call of a commit is due: the superblock of a clean log, the transaction's blocks, its commit block, each
//! after the flush of what it relies on.
//! Source: fs/jbd2/commit.c by behaviour; that each step is one device call is this project's own.
ghost use Rattle.std.specs.Prelude.{◌≡◌, ◌≢◌, ◌+◌, ◌-◌, ◌<◌, ◌≤◌, if◌then◌else◌, nat_lt, length, slice_get, IfSome, Some};
ghost use Rattle.journal_model.specs.Disk.{Shape};
ghost use Rattle.journal_world.specs.declared.stage.Stage.TheVariants.{Idle, Blocks, CommitFlush, CommitWrite, SuperblockWrite};
ghost use Rattle.journal_world.specs.Call.Call.{Flush};
ghost use Rattle.journal_world.specs.Engine.{call_due, due_blocks, stepped, stepped_from, write_block};
ghost use Rattle.journal_world.specs.Sound.{IsPlain};
ghost use Rattle.log_ledger.specs.declared.progress.Progress.TheVariants.{Step, Done};
ghost use Rattle.log_ledger.specs.Due.{Fits, call_of};
ghost use Rattle.log_ledger.specs.Steps.{IsProgress};
ghost use Rattle.log_ledger.specs.Ledger.{CanRunOn, HasKept, HasPlan, Runs, engine_of};

use crate::due::Due;
use crate::ledger::Ledger;
use crate::plan::LogPlan;
use crate::progress::Progress;
use crate::text::TextWriter;
use journal_model::{Area, Batch, Tid};
use journal_world::Stage;
use log_format::Super;

impl Ledger {
    /// The batch being committed.
    pub fn batch_due(&self) -> &Batch
        requires due { self.now.committed < length self.now.accepted.items }
        requires kept { HasKept self.now }
        requires unreleased { self.now.released ≤ self.now.committed }
        ensures { slice_get self.now.accepted.items self.now.committed ≡ Some result.now }
    {
        self.batch(self.committed)
    }

    fn number_due(&self) -> u32
        requires can_run { CanRunOn self.now (length self.now.superblock.items) }
        requires due { self.now.committed < length self.now.accepted.items }
        ensures { result ≡ self.now.first + self.now.committed }
    {
        self.first + self.committed as u32
    }

    fn blocks_due(&self) -> u64
        requires can_run { CanRunOn self.now (length self.now.superblock.items) }
        ensures { (shape : Shape) → shape.block_size ≡ length self.now.superblock.items → result ≡ length (due_blocks (engine_of shape self.now)) }
    {
        self.ring.head() - self.start
    }

    /// The due call. `writer` builds the block of a write, by the batch's plan.
    pub fn due(&self, writer: &mut TextWriter, plan: &LogPlan) -> Due
        requires can_run { CanRunOn self.now (length writer.old) }
        requires plan { (shape : Shape) → HasPlan (engine_of shape self.now) plan.now }
        ensures due { (shape : Shape) → shape.block_size ≡ length writer.old → call_of result writer.new ≡ call_due (engine_of shape self.now) }
        ensures fits { (shape : Shape) → IsPlain (engine_of shape self.now) → shape.block_size ≡ length writer.old → Fits shape result writer.new }
        ensures size { length writer.new ≡ length writer.old }
    {
        match self.stage {
            Stage::Idle => Due::Nothing,
            Stage::SuperblockWrite => {
                let start = self.ring.place(self.start);
                let number = self.number_due();
                writer.write_superblock(&self.superblock, number, start as u32);
                Due::Write(Area::Log, 0)
            }
            Stage::Blocks(k) if k + 1 < self.blocks_due() => self.due_block(writer, plan, k),
            Stage::CommitWrite => self.due_block(writer, plan, self.blocks_due() - 1),
            Stage::SuperblockFlush | Stage::Blocks(_) | Stage::CommitFlush => Due::Flush(Area::Log),
        }
    }

    /// The area of the due call, if that is a flush.
    pub fn commit_flush(&self) -> Option<Area>
        requires can_run { CanRunOn self.now (length self.now.superblock.items) }
        ensures { IfSome result (λ area. (shape : Shape) → shape.block_size ≡ length self.now.superblock.items → call_due (engine_of shape self.now) ≡ Some (Flush area)) }
    {
        match self.stage {
            Stage::Idle | Stage::SuperblockWrite | Stage::CommitWrite => None,
            Stage::Blocks(k) if k + 1 < self.blocks_due() => None,
            Stage::SuperblockFlush | Stage::Blocks(_) | Stage::CommitFlush => Some(Area::Log),
        }
    }

    fn due_block(&self, writer: &mut TextWriter, plan: &LogPlan, k: u64) -> Due
        requires can_run { CanRunOn self.now (length writer.old) }
        requires plan { (shape : Shape) → HasPlan (engine_of shape self.now) plan.now }
        requires due { self.now.committed < length self.now.accepted.items }
        requires there { (shape : Shape) → shape.block_size ≡ length writer.old → k < length (due_blocks (engine_of shape self.now)) }
        ensures due { (shape : Shape) → shape.block_size ≡ length writer.old → call_of result writer.new ≡ Some (write_block (engine_of shape self.now) k) }
        ensures fits { (shape : Shape) → IsPlain (engine_of shape self.now) → shape.block_size ≡ length writer.old → Fits shape result writer.new }
        ensures size { length writer.new ≡ length writer.old }
    {
        writer.write_block(self.layout, &self.uuid, self.batch_due(), plan, k);
        Due::Write(Area::Log, self.ring.place(self.start + k))
    }

    /// Records that the due device call succeeded.
    pub fn advance(&mut self) -> Progress
        requires can_run { CanRunOn self.old (length self.old.superblock.items) }
        ensures stepped { (shape : Shape) → shape.block_size ≡ length self.old.superblock.items → engine_of shape self.new ≡ stepped (engine_of shape self.old) }
        ensures runs { (shape : Shape) → Runs shape self.old → Runs shape self.new }
        ensures progress { self.old.stage ≢ Idle → (shape : Shape) → IsProgress result (engine_of shape self.old) (engine_of shape self.new) }
    {
        match self.stage {
            Stage::Idle => Progress::Idle,
            Stage::SuperblockWrite => self.start_log(),
            Stage::SuperblockFlush => self.go_to(Stage::Blocks(0)),
            Stage::Blocks(k) => {
                let next = self.after_block(k);
                self.go_to(next)
            }
            Stage::CommitWrite => self.go_to(Stage::CommitFlush),
            Stage::CommitFlush => self.finish(),
        }
    }

    fn go_to(&mut self, stage: Stage) -> Progress
        ensures stage { self.new ≡ record self.old { stage = stage } }
        ensures step { result ≡ Step }
    {
        self.stage = stage;
        Progress::Step
    }

    /// The superblock now names the log's first transaction.
    fn start_log(&mut self) -> Progress
        requires can_run { CanRunOn self.old (length self.old.superblock.items) }
        requires stage { self.old.stage ≡ SuperblockWrite }
        ensures stepped { (shape : Shape) → shape.block_size ≡ length self.old.superblock.items → engine_of shape self.new ≡ stepped_from (engine_of shape self.old) SuperblockWrite }
        ensures ring { self.new.ring ≡ self.old.ring }
        ensures pending { self.new.pending ≡ self.old.pending }
        ensures kept { self.new.kept.items ≡ self.old.kept.items }
        ensures step { result ≡ Step }
    {
        let start = self.ring.place(self.start);
        let number = self.number_due();
        Super::write(&mut self.superblock, number, start as u32);
        self.started = true;
        self.go_to(Stage::SuperblockFlush)
    }

    /// The stage after block `k`, or after the flush of all but the commit block.
    fn after_block(&self, k: u64) -> Stage
        requires can_run { CanRunOn self.now (length self.now.superblock.items) }
        requires stage { self.now.stage ≡ Blocks k }
        ensures { (shape : Shape) → shape.block_size ≡ length self.now.superblock.items →
            result ≡ (if nat_lt (k + 1) (length (due_blocks (engine_of shape self.now))) then Blocks (k + 1) else CommitWrite) }
    {
        if k + 1 < self.blocks_due() {
            Stage::Blocks(k + 1)
        } else {
            Stage::CommitWrite
        }
    }

    /// One more transaction is committed.
    fn finish(&mut self) -> Progress
        requires can_run { CanRunOn self.old (length self.old.superblock.items) }
        requires stage { self.old.stage ≡ CommitFlush }
        ensures stepped { (shape : Shape) → shape.block_size ≡ length self.old.superblock.items → engine_of shape self.new ≡ stepped_from (engine_of shape self.old) CommitFlush }
        ensures runs { (shape : Shape) → Runs shape self.old → Runs shape self.new }
        ensures done { result ≡ Done (self.old.first + self.old.committed) }
    {
        let number = self.number_due();
        let batch = &self.kept[self.committed - self.released];
        self.pending.commit(batch.entries.as_slice(), Tid(number));
        self.start = self.ring.head();
        self.committed += 1;
        self.stage = Stage::Idle;
        Progress::Done(Tid(number))
    }
}
