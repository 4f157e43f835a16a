//! The engine of a journal: a contract for each of its calls, as steps of the machine.
ghost use Rattle.std.specs.Prelude.{◌≡◌, ◌≢◌, ◌+◌, ◌≤◌, ◌↔◌, ℕ, List, IsTrue, false, length, is_some, IfOk, IfErr, IfSome, MatchResult, OnOk};
ghost use Rattle.journal_model.specs.declared.refusal.JournalError.TheVariants.{Device as DeviceFailed, Memory};
ghost use Rattle.journal_model.specs.Layout.{IsLayout};
ghost use Rattle.journal_model.specs.Transaction.{copied, revoked};
ghost use Rattle.log_model.specs.Opening.{ring_of};
ghost use Rattle.log_model.specs.Room.{need};
ghost use Rattle.log_model.specs.Superblock.{super_in};
ghost use Rattle.block_device.specs.State.{EachMoment, MakesAtMostOneCall};
ghost use Rattle.journal_world.specs.declared.stage.Stage.TheVariants.{Idle};
ghost use Rattle.journal_world.specs.Checkpoint.{IsPending, IsRead};
ghost use Rattle.journal_world.specs.Engine.{Accepts, HasRoom};
ghost use Rattle.journal_world.specs.Journal.{fresh_engine};
ghost use Rattle.journal_world.specs.Opening.{IsOpenedLog};
ghost use Rattle.journal_world.specs.Sound.{IsPlain, OpensBetween};
ghost use Rattle.log_ledger.specs.declared.progress.Progress.TheVariants.{Idle as NoProgress};
ghost use Rattle.log_ledger.specs.Steps.{MayHandOver};
ghost use Rattle.block_device.specs.Call.{MakesOneCall, OnlyReads};
ghost use Rattle.log_engine.specs.Close.{CloseDid, CloseRefused, IsAllReleased, IsClosedLog, IsDuringClose, MakesCloseCalls};
ghost use Rattle.log_engine.specs.Engine.{AcceptRefused, HasPending, IsDuringCommit, IsDuringRound, MayTouch, ReadRefused, RoundDid, RoundRefused, StepDid, StepRefused};
ghost use Rattle.log_engine.specs.Left.{LeavesFewer, commit_calls, round_calls};
ghost use Rattle.log_engine.specs.Rounds.{IsRoundDue};

use crate::call::make_call;
use crate::close::write_first;
use block_device::{Device, Durable, Syncing};
use block_tables::LastEffects;
use checkpoint::Pending;
use journal_model::{Area, Batch, BlockNo, JournalError, LogLayout};
use journal_world::{Round, Stage};
use log_format::Super;
use log_ledger::{Due, Ledger, LogPlan, Progress, TextWriter};
use recovery::Opened;
use std::alloc::Global;
use std::marker::Model;

/// The transactions of an opened log, and its device.
///
/// In the errors of its calls, `Aborted` means that the device failed in an earlier call, and nothing changes. `Device` means that it
/// failed in this one, and the journal is then aborted.
#[derive(Drop)]
pub struct Engine<D: Device> {
    pub(crate) device: D,
    pub(crate) ledger: Ledger,
    /// The plan of the batch being committed.
    pub(crate) plan: LogPlan,
    /// The last effect on each block of the batches handed over.
    pub(crate) effects: LastEffects,
    pub(crate) writer: TextWriter,
}

impl<D: Device> Model for Engine<D> {
    ghost use Rattle.std.specs.Prelude.{◌≡◌, length};
    ghost use Rattle.journal_world.specs.Sound.{Sound};
    ghost use Rattle.log_ledger.specs.Ledger.{HasPlan, Runs, engine_of};
    ghost use Rattle.log_engine.specs.Close.{KeepsClean};
    ghost use Rattle.log_engine.specs.Engine.{EngineValue, HasEffects};

    ghost Value = { EngineValue D };

    ghost view = { λ e. record { device = e.device; engine = engine_of (D.state e.device).shape e.ledger } };

    ghost invariant = { λ e. Runs (D.state e.device).shape e.ledger
        × (length e.writer ≡ (D.state e.device).shape.block_size)
        × (D.honest e.device → Sound (engine_of (D.state e.device).shape e.ledger) (D.state e.device).disk)
        × (D.honest e.device → KeepsClean (engine_of (D.state e.device).shape e.ledger) (D.state e.device).disk)
        × HasPlan (engine_of (D.state e.device).shape e.ledger) e.plan
        × HasEffects (engine_of (D.state e.device).shape e.ledger) e.effects };
}

impl<D: Device> Engine<D> {
    /// The engine of an opened log. It takes memory for all pending copies that the ring can hold.
    ///
    /// # Errors
    ///
    /// `Memory`: the opened log comes back.
    pub fn new(alloc: Global, opened: Opened<D>) -> Result<Self, (Opened<D>, JournalError)>
        ensures ok { IfOk result (λ e. (e.device ≡ opened.device) × (e.engine ≡ fresh_engine (D.state opened.device).shape opened.superblock opened.next)) }
        ensures plain { IfOk result (λ e. IsPlain e.engine) }
        ensures log { IfOk result (λ e. D.honest opened.device →
            IsOpenedLog (D.state opened.device).shape (D.state opened.device).disk opened.superblock opened.next) }
        ensures err { IfErr result (λ e. (e.0 ≡ opened) × (e.1 ≡ Memory)) }
    {
        let Ok(writer) = TextWriter::new(alloc, opened.layout()) else {
            return Err((opened, JournalError::Memory));
        };
        let Ok(pending) = Pending::new(alloc, ring_blocks(opened.superblock())) else {
            return Err((opened, JournalError::Memory));
        };
        let (device, superblock, next) = opened.into_parts();
        Ok(Engine {
            device,
            ledger: Ledger::new(alloc, superblock, next.0, pending),
            plan: LogPlan::new(alloc),
            effects: LastEffects::new(alloc),
            writer,
        })
    }

    /// Gives callers' proofs what every engine keeps, and does nothing: its fields agree, its shape is the device's, and if reads were
    /// correct each crash image opens.
    pub fn recall_invariant(&self)
        ensures plain { IsPlain self.now.engine }
        ensures opens { D.honest self.now.device →
            OpensBetween self.now.engine.shape self.now.engine.accepted self.now.engine.committed (length self.now.engine.accepted) (D.state self.now.device).disk }
        ensures shape { self.now.engine.shape ≡ (D.state self.now.device).shape }
    {
        let _ledger = &self.ledger;
    }

    /// Whether the device has failed.
    pub fn is_aborted(&self) -> bool
        ensures { result ≡ self.now.engine.aborted }
    {
        self.ledger.aborted
    }

    /// How many batches are committed.
    pub fn committed(&self) -> usize
        ensures { result ≡ self.now.engine.committed }
    {
        self.ledger.committed
    }

    /// Whether no commit is under way.
    pub fn is_idle(&self) -> bool
        ensures { IsTrue result ↔ (self.now.engine.stage ≡ Idle) }
    {
        matches!(self.ledger.stage, Stage::Idle)
    }

    /// Its device, for calls that change nothing.
    pub fn device(&self) -> &D
        ensures { result.now ≡ self.now.device }
    {
        &self.device
    }

    /// Blocks of the home area.
    pub fn home_blocks(&self) -> u64
        ensures home { result ≡ self.now.engine.shape.home_blocks }
        ensures device { result ≡ (D.state self.now.device).shape.home_blocks }
    {
        self.device.blocks(Area::Home)
    }

    /// Bytes per block.
    pub fn block_size(&self) -> usize
        ensures size { result ≡ self.now.engine.shape.block_size }
        ensures device { result ≡ (D.state self.now.device).shape.block_size }
    {
        self.device.block_size()
    }

    /// The log's layout.
    pub fn layout(&self) -> LogLayout
        ensures layout { result ≡ self.now.engine.layout }
        ensures taken { IsLayout result }
    {
        self.ledger.layout
    }

    /// Blocks of the ring.
    pub fn ring_blocks(&self) -> u64
        ensures { result ≡ self.now.engine.ring.blocks }
    {
        self.ledger.ring.blocks()
    }

    /// The ring position of the next transaction, or of the one being committed. It counts blocks over all laps, and never falls.
    pub fn position(&self) -> u64
        ensures { result ≡ self.now.engine.start }
    {
        self.ledger.start
    }

    /// Whether a checkpoint round is due: one is under way, or committed transactions that are not released take at least half of the ring,
    /// or are 128. So a commit in a hundred at most waits for a round's flush of home, unless the ring is short.
    pub fn is_round_due(&self) -> bool
        ensures { IsTrue result ↔ IsRoundDue self.now.engine }
    {
        let taken = self.ledger.start.saturating_sub(self.ledger.ring.tail());
        let unreleased = self.ledger.committed.saturating_sub(self.ledger.released);
        taken >= self.ledger.ring.blocks() / 2
            || unreleased >= 128
            || !matches!(self.ledger.round, Round::Idle)
    }

    /// How many log blocks a transaction of so many copies and revokes needs, if the ring has as many free. A committed transaction's
    /// blocks become free when a checkpoint round that releases it ends.
    pub fn room_for(&self, copies: usize, revokes: usize) -> Option<u64>
        requires { self.now.engine.stage ≡ Idle }
        ensures blocks { IfSome result (λ n. n ≡ need self.now.engine.layout copies revokes) }
        ensures room { IsTrue (is_some result) ↔
            (self.now.engine.start + need self.now.engine.layout copies revokes ≤ self.now.engine.tail + self.now.engine.ring.blocks) }
    {
        self.ledger.room_for(copies, revokes)
    }

    /// Reserves all memory for accepting a batch of at most so many entries, even while another is being committed; the next `accept`
    /// requests none. The engine's value stays, whatever the answer.
    ///
    /// # Errors
    ///
    /// `Memory`.
    pub fn reserve(&mut self, entries: usize) -> Result<(), JournalError>
        ensures err { IfErr result (λ e. e ≡ Memory) }
        ensures same { self.new ≡ self.old }
    {
        self.plan.reserve(entries)?;
        self.effects.reserve(entries)?;
        self.ledger.reserve()?;
        Ok(())
    }

    /// Takes the entries of the next transaction, which is then to be committed. No commit may be under way, the batch has the next
    /// number, and its entries are of different allowed blocks. They need `blocks` log blocks, which the ring has free (`room_for`). It
    /// takes all memory of the commit, whose time is then in proportion to its log blocks and entries.
    ///
    /// # Errors
    ///
    /// The batch comes back, and nothing changes. `Aborted`, `Memory`.
    pub fn accept(&mut self, batch: Batch, blocks: u64) -> Result<(), (Batch, JournalError)>
        requires may { MayHandOver self.old.engine batch }
        requires room { HasRoom self.old.engine batch }
        requires blocks { blocks ≡ need self.old.engine.layout (length (copied batch.entries)) (length (revoked batch.entries)) }
        ensures ok { OnOk result (Accepts self.old.engine batch self.new.engine) }
        ensures err { IfErr result (λ e. (e.0 ≡ batch) × AcceptRefused self.old.engine e.1 × (self.new ≡ self.old)) }
        ensures device { self.new.device ≡ self.old.device }
    {
        if self.ledger.aborted {
            return Err((batch, JournalError::Aborted));
        }
        if self.plan.make(batch.entries.as_slice()).is_err() {
            return Err((batch, JournalError::Memory));
        }
        if self.effects.reserve(batch.entries.len()).is_err() {
            return Err((batch, JournalError::Memory));
        }
        if let Err(batch) = self.ledger.take(batch, blocks) {
            return Err((batch, JournalError::Memory));
        }
        self.effects.note(self.ledger.batch_due());
        Ok(())
    }

    /// Makes the commit's next device call, if one is due. It takes no memory.
    ///
    /// # Errors
    ///
    /// `Aborted`, `Device`.
    pub fn commit_step(&mut self) -> Result<Progress, JournalError>
        ensures ok { IfOk result (λ p. StepDid p self.old.engine (D.state self.old.device).disk self.new.engine (D.state self.new.device).disk) }
        ensures err { IfErr result (λ e. StepRefused self.old.engine (D.state self.old.device) self.new.engine (D.state self.new.device) e) }
        ensures no_fault { OnOk result ((D.state self.new.device).faults ≡ (D.state self.old.device).faults) }
        ensures fewer { IfOk result (λ p. LeavesFewer commit_calls p self.old.engine self.new.engine) }
        ensures device { MakesOneCall D.state D.honest (IsDuringCommit self.old.engine (D.state self.old.device).disk) self.old.device self.new.device }
    {
        if self.ledger.aborted {
            return Err(JournalError::Aborted);
        }
        let due = self.ledger.due(&mut self.writer, &self.plan);
        if let Due::Nothing = due {
            return Ok(Progress::Idle);
        }
        if make_call(&mut self.device, due, self.writer.bytes()).is_err() {
            self.ledger.aborted = true;
            return Err(JournalError::Device);
        }
        Ok(self.ledger.advance())
    }

    /// Makes the checkpoint round's next device call, if one is due; none if it answers `Idle`. A round begins if a committed
    /// transaction is not released, and releases all that are committed then; commit steps may come in between. It takes no memory.
    ///
    /// # Errors
    ///
    /// `Aborted`, `Device`.
    /// Source: fs/jbd2/checkpoint.c by behaviour.
    pub fn checkpoint_step(&mut self) -> Result<Progress, JournalError>
        ensures ok { IfOk result (λ p. RoundDid p self.old.engine (D.state self.old.device).disk self.new.engine (D.state self.new.device).disk) }
        ensures err { IfErr result (λ e. RoundRefused self.old.engine (D.state self.old.device) self.new.engine (D.state self.new.device) e) }
        ensures no_fault { OnOk result ((D.state self.new.device).faults ≡ (D.state self.old.device).faults) }
        ensures fewer { IfOk result (λ p. LeavesFewer round_calls p self.old.engine self.new.engine) }
        ensures idle { IfOk result (λ p. p ≡ NoProgress → self.new.device ≡ self.old.device) }
        ensures device { MakesOneCall D.state D.honest (IsDuringRound self.old.engine (D.state self.old.device).disk) self.old.device self.new.device }
    {
        if self.ledger.aborted {
            return Err(JournalError::Aborted);
        }
        if !self.ledger.begin_round() {
            return Ok(Progress::Idle);
        }
        let due = self.ledger.round_due(&mut self.writer);
        if make_call(&mut self.device, due, self.writer.bytes()).is_err() {
            self.ledger.aborted = true;
            return Err(JournalError::Device);
        }
        Ok(self.ledger.advance_round())
    }

    /// If the next device call of a commit or a round is a flush, begins it, and returns what waits for it without the engine. The call is
    /// still to be made, and then need not wait.
    ///
    /// Source: fs/jbd2/commit.c by behaviour: nobody's reads wait for a commit's flush.
    pub fn begin_flush(&mut self, area: Area) -> Option<Syncing>
        ensures engine { self.new.engine ≡ self.old.engine }
        ensures device { D.state self.new.device ≡ D.state self.old.device }
        ensures honest { D.honest self.new.device → D.honest self.old.device }
    {
        self.device.begin_flush(area)
    }

    /// The area that the commit's next device call flushes, if that is a flush.
    pub fn commit_flush(&self) -> Option<Area> {
        self.ledger.commit_flush()
    }

    /// The area that the round's next device call flushes, if that is a flush.
    pub fn round_flush(&self) -> Option<Area> {
        self.ledger.round_flush()
    }

    /// Takes what came of such a wait.
    pub fn end_flush(&mut self, durable: Durable)
        ensures engine { self.new.engine ≡ self.old.engine }
        ensures device { D.state self.new.device ≡ D.state self.old.device }
        ensures honest { D.honest self.new.device → D.honest self.old.device }
    {
        self.device.end_flush(durable);
    }

    /// Reads one block: its newest committed copy, else what home reads. A pending copy needs no device call.
    ///
    /// # Errors
    ///
    /// `Aborted`, `BadBlock` (home has no such block, or its number is not below 2^32, in a log with 64-bit numbers 2^48): nothing
    /// changes. `Device`: the buffer's bytes are unspecified.
    pub fn read(&mut self, block: BlockNo, into: &mut [u8]) -> Result<(), JournalError>
        requires { length into.old ≡ (D.state self.old.device).shape.block_size }
        ensures may { OnOk result ((self.old.engine.aborted ≡ false) × MayTouch self.old.engine block) }
        ensures ok { OnOk result ((D.honest self.new.device → IsRead self.old.engine (D.state self.old.device).disk block into.new) × (self.new.engine ≡ self.old.engine)) }
        ensures pending { OnOk result ((i : ℕ) (v : List ℕ) → IsPending self.old.engine i block v → (into.new ≡ v) × (self.new ≡ self.old)) }
        ensures err { IfErr result (λ e. ReadRefused D.state self.old block self.new e) }
        ensures untouched { IfErr result (λ e. e ≢ DeviceFailed → into.new ≡ into.old) }
        ensures device { OnlyReads D.state D.honest self.old.device self.new.device }
        ensures calls { MakesAtMostOneCall (D.state self.old.device) (D.state self.new.device) }
        ensures no_fault { OnOk result ((D.state self.new.device).faults ≡ (D.state self.old.device).faults) }
        ensures length { length into.new ≡ length into.old }
    {
        if self.ledger.aborted {
            return Err(JournalError::Aborted);
        }
        if !block.is_allowed(self.ledger.layout, self.device.blocks(Area::Home)) {
            return Err(JournalError::BadBlock);
        }
        if let Some(version) = self.ledger.pending.lookup(block) {
            into.copy_from_slice(self.ledger.copy(version));
            return Ok(());
        }
        if self.device.read(Area::Home, block.0, into).is_err() {
            self.ledger.aborted = true;
            return Err(JournalError::Device);
        }
        Ok(())
    }

    /// Whether a copy of the block is pending: the newest committed one, not released. One look-up decides, without a device call.
    pub fn has_pending(&self, block: BlockNo) -> bool
        ensures { IsTrue result ↔ HasPending self.now.engine block }
    {
        self.ledger.pending.lookup(block).is_some()
    }

    /// Closes the log, asked once all that was handed over is committed and released, and hands out the device. Where the
    /// log is not clean it writes the superblock of a clean log, with the number that the next transaction would have as s_sequence, and
    /// flushes the log; a clean log it leaves alone. Every crash image of any moment opens to all transactions. It takes no memory.
    ///
    /// # Errors
    ///
    /// The device comes back. `Aborted` after a device failure: nothing was done. `Device` where the device fails: open it
    /// again.
    /// Source: fs/jbd2/journal.c by behaviour; that the superblock is flushed is this project's own.
    pub fn close(self) -> Result<D, (D, JournalError)>
        requires { IsAllReleased self.engine }
        ensures ok { IfOk result (λ device. CloseDid D.state self device) }
        ensures err { IfErr result (λ e. CloseRefused D.state self e.0 e.1) }
        ensures closed { IfOk result (λ device. D.honest self.device → IsClosedLog self.engine (D.state device).disk) }
        ensures moments { D.honest self.device → MatchResult result
            (λ device. EachMoment (IsDuringClose self.engine (D.state self.device).disk) (D.state self.device) (D.state device))
            (λ e. EachMoment (IsDuringClose self.engine (D.state self.device).disk) (D.state self.device) (D.state e.0)) }
        ensures no_fault { IfOk result (λ device. (D.state device).faults ≡ (D.state self.device).faults) }
        ensures shape { MatchResult result
            (λ device. (D.state device).shape ≡ (D.state self.device).shape)
            (λ e. (D.state e.0).shape ≡ (D.state self.device).shape) }
        ensures calls { MatchResult result (λ device. MakesCloseCalls D.state self device) (λ e. MakesCloseCalls D.state self e.0) }
        ensures honest { MatchResult result (λ device. D.honest device → D.honest self.device) (λ e. D.honest e.0 → D.honest self.device) }
    {
        let Engine {
            mut device,
            ledger,
            plan: _,
            effects: _,
            mut writer,
        } = self;
        if ledger.aborted {
            return Err((device, JournalError::Aborted));
        }
        if !ledger.started {
            return Ok(device);
        }
        ledger.write_closed(&mut writer);
        match write_first(&mut device, writer.bytes()) {
            Ok(()) => Ok(device),
            Err(_) => Err((device, JournalError::Device)),
        }
    }

    /// The device, and how many transactions are committed.
    pub fn into_parts(self) -> (D, usize)
        ensures device { result.0 ≡ self.device }
        ensures committed { result.1 ≡ self.engine.committed }
        ensures opens { D.honest self.device →
            OpensBetween self.engine.shape self.engine.accepted self.engine.committed (length self.engine.accepted) (D.state self.device).disk }
    {
        let Engine {
            device,
            ledger,
            plan: _,
            effects: _,
            writer: _,
        } = self;
        (device, ledger.committed)
    }
}

/// Blocks of the ring of a log with this superblock.
fn ring_blocks(superblock: &[u8]) -> usize
    requires long { 1024 ≤ length superblock.now }
    requires order { (super_in superblock.now).s_first ≤ (super_in superblock.now).s_maxlen }
    ensures { result ≡ (ring_of (super_in superblock.now)).blocks }
{
    let fields = Super::fields(superblock);
    (fields.s_maxlen - fields.s_first) as usize
}
