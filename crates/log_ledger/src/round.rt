//! Which device call of a checkpoint round is due: copies go home, home is flushed, and the superblock names the new
//! tail. Its flush frees log blocks.
//! Source: fs/jbd2/checkpoint.c by behaviour; the order of the copies and that each step is one device call are this
//! project's own.
ghost use Rattle.std.specs.Prelude.{◌≡◌, ◌≢◌, ◌+◌, ◌-◌, ◌<◌, ℕ, [], IfSome, IsTrue, false, length};
ghost use Rattle.log_model.specs.Chain.{ring_place};
ghost use Rattle.journal_model.specs.Disk.{Shape};
ghost use Rattle.journal_world.specs.declared.round.Round.TheVariants.{Idle as NoRound, TailWrite, TailFlush};
ghost use Rattle.journal_world.specs.Checkpoint.{HasRound, begun};
ghost use Rattle.log_ledger.specs.declared.due.Due.TheVariants.{Flush};
ghost use Rattle.log_ledger.specs.declared.progress.Progress.TheVariants.{Step, Done};
ghost use Rattle.log_ledger.specs.Due.{Fits};
ghost use Rattle.log_ledger.specs.Steps.{IsRoundProgress};
ghost use Rattle.log_ledger.specs.Ledger.{CanRunOn, HasKept, IsPlaced, Runs, engine_of};
ghost use Rattle.log_ledger.specs.Rounds.{HasDue, HasGone, IsDueHome};

use crate::due::Due;
use crate::ledger::Ledger;
use crate::progress::Progress;
use crate::text::TextWriter;
use checkpoint::{HomeCopy, Version};
use journal_model::{Area, Entry, Tid};
use journal_world::Round;
use log_format::Super;

impl Ledger {
    /// Begins a round if none is under way and some committed transaction is unreleased; it releases all committed by
    /// now. Answers whether a round is under way.
    pub fn begin_round(&mut self) -> bool
        requires can_run { CanRunOn self.old (length self.old.superblock.items) }
        ensures begun { IsTrue result → (shape : Shape) → Runs shape self.old →
            HasRound (engine_of shape self.old) × (engine_of shape self.new ≡ begun (engine_of shape self.old)) × Runs shape self.new }
        ensures nothing { result ≡ false → (self.old.round ≡ NoRound) × (self.old.released ≡ self.old.committed) × (self.new ≡ self.old) }
        ensures round { IsTrue result → self.new.round ≢ NoRound }
    {
        if let Round::Idle = self.round {
            if self.released == self.committed {
                return false;
            }
            self.bound = self.committed;
            self.bound_position = self.start;
            self.round = Round::Copies {
                transaction: 0,
                block: 0,
            };
        }
        true
    }

    /// The round's due call. `writer` builds the block of a write.
    pub fn round_due(&self, writer: &mut TextWriter) -> Due
        requires can_run { CanRunOn self.now (length writer.old) }
        requires round { self.now.round ≢ NoRound }
        ensures due { (shape : Shape) → Runs shape self.now → HasDue (engine_of shape self.now) result writer.new }
        ensures fits { (shape : Shape) → Runs shape self.now → Fits shape result writer.new }
        ensures size { length writer.new ≡ length writer.old }
    {
        match self.round {
            Round::Idle => Due::Nothing,
            Round::Copies { .. } => match self.pending.next(self.last_of_round()) {
                Some(copy) => self.home_write(writer, copy),
                None => Due::Flush(Area::Home),
            },
            Round::TailWrite => {
                let number = self.number_behind();
                writer.write_superblock(&self.superblock, number, self.new_tail());
                Due::Write(Area::Log, 0)
            }
            Round::TailFlush => Due::Flush(Area::Log),
        }
    }

    /// The area of the round's due call, if that is a flush.
    pub fn round_flush(&self) -> Option<Area>
        requires can_run { CanRunOn self.now (length self.now.superblock.items) }
        ensures { IfSome result (λ area. (shape : Shape) → Runs shape self.now → HasDue (engine_of shape self.now) (Flush area) []) }
    {
        match self.round {
            Round::Copies { .. } => match self.pending.next(self.last_of_round()) {
                Some(_) => None,
                None => Some(Area::Home),
            },
            Round::TailFlush => Some(Area::Log),
            Round::Idle | Round::TailWrite => None,
        }
    }

    /// Records that the round's device call succeeded.
    pub fn advance_round(&mut self) -> Progress
        requires can_run { CanRunOn self.old (length self.old.superblock.items) }
        requires round { self.old.round ≢ NoRound }
        ensures gone { (shape : Shape) → Runs shape self.old → HasGone shape self.old self.new }
        ensures progress { (shape : Shape) → IsRoundProgress result (engine_of shape self.new) }
    {
        match self.round {
            Round::Idle => Progress::Idle,
            Round::Copies { .. } => match self.pending.next(self.last_of_round()) {
                Some(copy) => self.wrote_home(copy),
                None => self.go_round(Round::TailWrite),
            },
            Round::TailWrite => self.wrote_tail(),
            Round::TailFlush => self.release(),
        }
    }

    /// The last transaction that the round releases.
    fn last_of_round(&self) -> Tid
        requires can_run { CanRunOn self.now (length self.now.superblock.items) }
        requires round { self.now.round ≢ NoRound }
        ensures last { result ≡ self.now.first + self.now.bound - 1 }
        ensures some { 0 < self.now.bound }
    {
        Tid(self.first + (self.bound - 1) as u32)
    }

    fn number_behind(&self) -> u32
        requires can_run { CanRunOn self.now (length self.now.superblock.items) }
        ensures { result ≡ self.now.first + self.now.bound }
    {
        self.first + self.bound as u32
    }

    /// The log place where the log begins once the round's transactions are released.
    fn new_tail(&self) -> u32
        ensures { result ≡ ring_place self.now.ring.ring self.now.bound_position }
    {
        self.ring.place(self.bound_position) as u32
    }

    /// The bytes of a pending copy.
    pub fn copy(&self, version: Version) -> &[u8]
        requires kept { HasKept self.now }
        requires placed { (shape : Shape) × (i : ℕ) × (b : ℕ) × (version.tid ≡ self.now.first + i) × IsPlaced (engine_of shape self.now) i b version.place }
        ensures { (shape : Shape) (i b : ℕ) → version.tid ≡ self.now.first + i → (placed : IsPlaced (engine_of shape self.now) i b version.place) →
            result.now ≡ placed.bytes }
    {
        let batch = self.batch((version.tid.0 - self.first) as usize);
        match &batch.entries.as_slice()[version.place].1 {
            Entry::Copy(block) => block.bytes(),
            Entry::Revoke => &[],
        }
    }

    fn home_write(&self, writer: &mut TextWriter, copy: HomeCopy) -> Due
        requires can_run { CanRunOn self.now (length writer.old) }
        requires next { IsDueHome self.now copy }
        ensures due { (shape : Shape) → Runs shape self.now → HasDue (engine_of shape self.now) result writer.new }
        ensures fits { (shape : Shape) → Runs shape self.now → Fits shape result writer.new }
        ensures size { length writer.new ≡ length writer.old }
    {
        writer.put(self.copy(copy.version));
        Due::Write(Area::Home, copy.block.0)
    }

    fn go_round(&mut self, round: Round) -> Progress
        ensures round { self.new ≡ record self.old { round = round } }
        ensures step { result ≡ Step }
    {
        self.round = round;
        Progress::Step
    }

    fn wrote_home(&mut self, copy: HomeCopy) -> Progress
        requires can_run { CanRunOn self.old (length self.old.superblock.items) }
        requires next { IsDueHome self.old copy }
        ensures gone { (shape : Shape) → Runs shape self.old → HasGone shape self.old self.new }
        ensures round { self.new.round ≢ NoRound }
        ensures step { result ≡ Step }
    {
        self.pending.wrote();
        self.go_round(Round::Copies {
            transaction: u64::from(copy.version.tid.0 - self.first),
            block: copy.block.0 + 1,
        })
    }

    fn wrote_tail(&mut self) -> Progress
        requires can_run { CanRunOn self.old (length self.old.superblock.items) }
        requires round { self.old.round ≡ TailWrite }
        ensures gone { (shape : Shape) → Runs shape self.old → HasGone shape self.old self.new }
        ensures round { self.new.round ≡ TailFlush }
        ensures step { result ≡ Step }
    {
        let number = self.number_behind();
        let start = self.new_tail();
        Super::write(&mut self.superblock, number, start);
        self.go_round(Round::TailFlush)
    }

    /// Ring blocks of the round's transactions are free, and their copies no longer pending.
    fn release(&mut self) -> Progress
        requires can_run { CanRunOn self.old (length self.old.superblock.items) }
        requires round { self.old.round ≡ TailFlush }
        ensures gone { (shape : Shape) → Runs shape self.old → HasGone shape self.old self.new }
        ensures progress { (shape : Shape) → IsRoundProgress result (engine_of shape self.new) }
    {
        let last = self.last_of_round();
        self.pending.release(last);
        self.ring.release(self.bound_position - self.ring.tail());
        self.kept.drain(..self.bound - self.released);
        self.released = self.bound;
        self.round = Round::Idle;
        Progress::Done(last)
    }
}
