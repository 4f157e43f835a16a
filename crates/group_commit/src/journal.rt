//! The journal of one thread: a front and an engine, and the calls on them.
ghost use Rattle.std.specs.Prelude.{◌≡◌, ◌<◌, ◌≤◌, ◌≢◌, ◌↔◌, true, false, length, [], IfOk, IfErr, MatchResult, OnOk, IsTrue};
ghost use Rattle.journal_model.specs.declared.refusal.JournalError.TheVariants.{Aborted, Memory};
ghost use Rattle.journal_model.specs.Record.{IsLegal};
ghost use Rattle.journal_world.specs.declared.stage.Stage.TheVariants.{Idle};
ghost use Rattle.journal_world.specs.Sound.{IsPlain};
ghost use Rattle.journal_world.specs.Journal.{IsFresh, batch_of};
ghost use Rattle.journal_world.specs.Journal.Event.{Seal};
ghost use Rattle.log_epochs.specs.JournalWorld.{Begins};
ghost use Rattle.group_commit.specs.Begun.{world_of_new};
ghost use Rattle.block_device.specs.Call.{MakesOneCall};
ghost use Rattle.log_engine.specs.Close.{IsAllReleased};
ghost use Rattle.log_engine.specs.Left.{commit_calls};
ghost use Rattle.log_engine.specs.Rounds.{IsRoundDue};
ghost use Rattle.journal_steps.specs.declared.turn.CheckTurn.TheVariants.{Idle as IdleCheck};
ghost use Rattle.journal_steps.specs.Journal.{Agrees, CheckTurnDid, CheckTurnRefused, Does, HasRoomFor, IsDuringCheckTurn, IsDuringTurn, LeavesFewerRounds, OpensNow, Requests, TurnDid, TurnRefused};
ghost use Rattle.journal_steps.specs.Legal.{KeepsLegal};
ghost use Rattle.group_commit.specs.AllTurns.{IsReadyToSeal};
ghost use Rattle.group_commit.specs.Stops.{StopsHandles, StopsOneHandle};
ghost use Rattle.group_commit.specs.Close.{SealRefused, locked_journal};
ghost use Rattle.group_commit.specs.Values.{StatusIs};
ghost use Rattle.journal_steps.specs.Verbs.{LeftByRead, Reads, ReadsNewest};
ghost use Rattle.group_commit.specs.Closes.{IsClosedWell, IsNotClosed, LogIsClosed, LogIsNotClosed};

use crate::close::finish;
use crate::known_front::{Itself, KnownFront};
use crate::ticket::{Receipt, Ticket};
use block_device::Device;
use journal_front::{Front, Handle, Record, Unrecorded};
use journal_model::{Batch, BlockNo, JournalError, Status, Tid};
use journal_steps::{CheckTurn, Turn, steps};
use log_engine::Engine;
use log_ring::Layout;
use recovery::Opened;
use std::alloc::Global;
use std::marker::PhantomData;

/// A journal on an opened log.
///
/// In the errors of its calls, `Aborted` means that the device failed in an earlier call, and nothing changes (`restart` stops its
/// handle). `Device` means that it failed in this one: the journal is then aborted, until the device is opened again.
pub type Journal<D, R = Unrecorded> = KnownFront<D, Itself, R>;

/// The parts of a journal that has ended.
#[derive(Drop)]
pub struct Parts<D, R = Unrecorded> {
    /// The device.
    pub device: D,
    /// The transactions sealed since the opening, as the journal recorded them.
    pub sealed: R,
    /// How many of them are committed.
    pub committed: u64,
}

impl<D: Device, R: Record> Journal<D, R> {
    /// Makes a journal on an opened log.
    ///
    /// # Errors
    ///
    /// `Memory`: the opened log comes back.
    pub fn new(alloc: Global, opened: Opened<D>) -> Result<Self, (Opened<D>, JournalError)>
        ensures fresh { IfOk result (λ r. IsFresh (D.state opened.device).shape opened.superblock opened.next r.journal) }
        ensures device { IfOk result (λ r. r.device ≡ opened.device) }
        ensures begins { IfOk result (λ r. D.honest opened.device → Begins (world_of_new D.state opened.device r)) }
        ensures err { IfErr result (λ e. (e.0 ≡ opened) × (e.1 ≡ Memory)) }
    {
        let next = opened.next();
        let engine = Engine::new(alloc, opened)?;
        let layout = engine.layout();
        let credits = Layout::capacity(layout, engine.ring_blocks());
        let front = Front::new(alloc, layout, engine.home_blocks(), credits, next);
        Ok(KnownFront {
            front,
            engine,
            of: PhantomData,
        })
    }

    /// Bytes per block.
    pub fn block_size(&self) -> usize
        ensures { result ≡ (D.state self.now.device).shape.block_size }
    {
        self.engine.block_size()
    }

    /// The number of blocks of the home area.
    pub fn home_blocks(&self) -> u64
        ensures { result ≡ (D.state self.now.device).shape.home_blocks }
    {
        self.engine.home_blocks()
    }

    /// Its device, for calls that change nothing.
    pub fn device(&self) -> &D
        ensures { result.now ≡ self.now.device }
    {
        self.engine.device()
    }

    /// The most credits that can be held at once; one transaction can have as many.
    pub fn capacity(&self) -> u64
        ensures { result ≡ self.now.journal.front.capacity }
    {
        self.front.capacity()
    }

    /// Reads one block of the home area: the running transaction's copy, else the copy being committed, else the newest committed copy,
    /// else what home reads. The read becomes a step of the handle's transaction and takes no credit. The caller isolates handles from
    /// each other. Only a block without a copy, or whose copy was released, needs a device call.
    ///
    /// # Errors
    ///
    /// The buffer stays, and so does the journal, except after `Device`. The first of: `Aborted`, `BadBlock` (as in `write`),
    /// `NoCredit` (the handle is not open here), `Revoked` (the block's last uncommitted entry is a revoke), `Memory` (for the step),
    /// `Device`.
    /// Source: journalling.rst (handles see the running transaction).
    pub fn read(
        &mut self,
        handle: &mut Handle,
        block: BlockNo,
        into: &mut [u8],
    ) -> Result<(), JournalError>
        requires { length into.old ≡ (D.state self.old.device).shape.block_size }
        ensures reads { Reads D.state D.honest self.old handle.old block into.old into.new self.new result }
        ensures left { LeftByRead D.state D.honest self.old self.new result }
        ensures legal { KeepsLegal D.honest self.new }
        ensures handle { handle.new ≡ handle.old }
    {
        steps::read(&mut self.front, &mut self.engine, handle, block, into)
    }

    /// Reads the bytes that `read` would give, by the same device calls, without a handle. It records no step, makes no transaction and
    /// takes no memory.
    ///
    /// # Errors
    ///
    /// `Aborted`, `BadBlock`, `Revoked` as in `read`: nothing changes. `Device`: the buffer's bytes are unspecified.
    /// Source: this project's own (a file system reads its cache of buffers, and asks no journal).
    pub fn read_newest(&mut self, block: BlockNo, into: &mut [u8]) -> Result<(), JournalError>
        requires { length into.old ≡ (D.state self.old.device).shape.block_size }
        ensures reads { ReadsNewest D.state D.honest self.old block into.old into.new self.new result }
        ensures left { LeftByRead D.state D.honest self.old self.new result }
    {
        steps::read_newest(&mut self.front, &mut self.engine, block, into)
    }

    /// Ends all open handles, whoever holds them, and takes back their unused credits; each of them changes nothing from then on. It always
    /// succeeds, even after a device failure.
    /// Source: this project's own, for the close of a journal whose handles nobody has any more.
    pub fn stop_all(&mut self)
        ensures stops { StopsHandles D.state self.old self.new }
        ensures none { self.new.journal.front.open_handles ≡ [] }
        ensures device { self.new.device ≡ self.old.device }
    {
        while self.stop_first() {}
    }

    /// Ends the open handle that joined first. It returns whether one was open.
    fn stop_first(&mut self) -> bool
        ensures some { result ≡ true → StopsOneHandle D.state self.old self.new }
        ensures none { result ≡ false → (self.old.journal.front.open_handles ≡ []) × (self.new ≡ self.old) }
    {
        self.front.stop_first()
    }

    /// Requests the commit of the ticket's transaction: if it is running, it takes no further handles.
    ///
    /// # Errors
    ///
    /// `Aborted`.
    /// Source: fs/jbd2/journal.c by behaviour (`jbd2_log_start_commit`).
    pub fn request(&mut self, ticket: &Ticket) -> Result<(), JournalError>
        ensures ok { OnOk result (Requests D.state ticket.now.tid self.old self.new) }
        ensures err { IfErr result (λ e. (e ≡ Aborted) × (self.old.journal.front.aborted ≡ true) × (self.new ≡ self.old)) }
        ensures device { self.new.device ≡ self.old.device }
    {
        self.request_commit(ticket.tid())
    }

    /// Locks the running transaction if a handle has joined it, so that it can be sealed once its handles have stopped. It answers the
    /// transaction's number, even if no handle has joined.
    ///
    /// # Errors
    ///
    /// `Aborted`.
    /// Source: fs/jbd2/commit.c by behaviour (a transaction that is `T_LOCKED`).
    pub fn lock(&mut self) -> Result<Tid, JournalError>
        ensures current { IfOk result (λ tid. tid ≡ self.old.journal.front.running.tid) }
        ensures locks { OnOk result (Requests D.state self.old.journal.front.running.tid self.old self.new) }
        ensures err { IfErr result (λ e. (e ≡ Aborted) × (self.old.journal.front.aborted ≡ true) × (self.new ≡ self.old)) }
        ensures device { self.new.device ≡ self.old.device }
    {
        let tid = self.front.tid();
        self.request_commit(tid)?;
        Ok(tid)
    }

    /// Whether the commit mark has reached the ticket's transaction.
    pub fn status(&self, ticket: &Ticket) -> Status
        ensures { StatusIs result ticket.now.tid self.now.journal.front }
    {
        if ticket.tid() <= self.front.mark() {
            Status::Committed
        } else {
            Status::Open
        }
    }

    /// The receipt of a ticket whose transaction is committed. Take commit turns first, until `status` says so.
    ///
    /// # Errors
    ///
    /// `Aborted`: the ticket comes back.
    /// Source: fs/jbd2/journal.c by behaviour (`jbd2_log_wait_commit`).
    pub fn wait(&mut self, ticket: Ticket) -> Result<Receipt, (Ticket, JournalError)>
        requires { ticket.tid ≤ self.old.journal.front.mark }
        ensures ok { IfOk result (λ receipt. (receipt ≡ ticket) × (self.old.journal.front.aborted ≡ false)) }
        ensures err { IfErr result (λ e. (e.0 ≡ ticket) × (e.1 ≡ Aborted) × (self.old.journal.front.aborted ≡ true)) }
        ensures same { self.new ≡ self.old }
    {
        if self.front.is_aborted() {
            return Err((ticket, JournalError::Aborted));
        }
        Ok(Receipt::new(ticket.handle(), ticket.tid()))
    }

    /// Takes the next commit step: one device call of a commit, or the seal of a transaction that is locked without open handles.
    ///
    /// # Errors
    ///
    /// `Aborted`, `Device`. `NeedSpace` (too few free ring blocks) and `Memory`: the transaction stays as it is.
    /// Source: fs/jbd2/commit.c by behaviour; that each step is one device call is this project's own.
    pub fn commit_turn(&mut self) -> Result<Turn, JournalError>
        ensures ok { IfOk result (λ turn. TurnDid D.state turn self.old self.new) }
        ensures err { IfErr result (λ e. TurnRefused D.state self.old self.new e) }
        ensures no_fault { OnOk result ((D.state self.new.device).faults ≡ (D.state self.old.device).faults) }
        ensures device { MakesOneCall D.state D.honest (IsDuringTurn self.old.journal (D.state self.old.device).disk) self.old.device self.new.device }
    {
        steps::commit_turn(&mut self.front, &mut self.engine)
    }

    /// Takes one step of the commit under way.
    pub(crate) fn commit_step(&mut self) -> Result<Turn, JournalError>
        requires running { self.old.journal.engine.aborted ≡ false }
        requires busy { self.old.journal.engine.stage ≢ Idle }
        requires plain { IsPlain self.old.journal.engine }
        ensures ok { IfOk result (λ turn. TurnDid D.state turn self.old self.new) }
        ensures err { IfErr result (λ e. TurnRefused D.state self.old self.new e) }
        ensures fewer { OnOk result (commit_calls self.new.journal.engine < commit_calls self.old.journal.engine) }
        ensures no_fault { OnOk result ((D.state self.new.device).faults ≡ (D.state self.old.device).faults) }
        ensures device { MakesOneCall D.state D.honest (IsDuringTurn self.old.journal (D.state self.old.device).disk) self.old.device self.new.device }
    {
        steps::commit_step(&mut self.front, &mut self.engine)
    }

    /// Takes the next checkpoint step: at most one device call, and none if it answers `Idle`. A round writes committed copies home,
    /// then frees the log blocks of the transactions committed when it began.
    ///
    /// # Errors
    ///
    /// `Aborted`, `Device`.
    /// Source: fs/jbd2/checkpoint.c by behaviour; that each step is one device call is this project's own.
    pub fn checkpoint_turn(&mut self) -> Result<CheckTurn, JournalError>
        ensures ok { IfOk result (λ turn. CheckTurnDid D.state turn self.old self.new) }
        ensures err { IfErr result (λ e. CheckTurnRefused D.state self.old self.new e) }
        ensures fewer { IfOk result (λ turn. LeavesFewerRounds turn self.old.journal.engine self.new.journal.engine) }
        ensures idle { IfOk result (λ turn. turn ≡ IdleCheck → self.new.device ≡ self.old.device) }
        ensures no_fault { OnOk result ((D.state self.new.device).faults ≡ (D.state self.old.device).faults) }
        ensures device { MakesOneCall D.state D.honest (IsDuringCheckTurn self.old.journal (D.state self.old.device).disk) self.old.device self.new.device }
    {
        steps::checkpoint_turn(&mut self.front, &mut self.engine)
    }

    /// Whether a handle is open.
    pub fn has_open_handles(&self) -> bool
        ensures some { IsTrue result ↔ (0 < length self.now.journal.front.open_handles) }
        ensures none { result ≡ false → self.now.journal.front.open_handles ≡ [] }
    {
        self.front.has_open_handles()
    }

    /// Whether the device has failed.
    pub fn is_aborted(&self) -> bool
        ensures { result ≡ self.now.journal.engine.aborted }
    {
        self.engine.is_aborted()
    }

    pub(crate) fn is_idle(&self) -> bool
        ensures { IsTrue result ↔ (self.now.journal.engine.stage ≡ Idle) }
    {
        self.engine.is_idle()
    }

    pub(crate) fn is_round_due(&self) -> bool
        ensures { IsTrue result ↔ IsRoundDue self.now.journal.engine }
    {
        self.engine.is_round_due()
    }

    /// The ring position of the next transaction, or of the one being committed.
    pub(crate) fn position(&self) -> u64
        ensures { result ≡ self.now.journal.engine.start }
    {
        self.engine.position()
    }

    pub(crate) fn has_joined(&self) -> bool
        ensures { IsTrue result ↔ (0 < length self.now.journal.front.running.handles) }
    {
        self.front.has_joined()
    }

    pub(crate) fn is_ready(&self) -> bool
        ensures { IsTrue result ↔ IsReadyToSeal self.now.journal.front }
    {
        self.front.is_locked() && !self.front.has_open_handles()
    }

    pub(crate) fn has_room(&self) -> bool
        requires { self.now.journal.engine.stage ≡ Idle }
        ensures { IsTrue result ↔ HasRoomFor self.now.journal }
    {
        steps::room_for(&self.front, &self.engine).is_some()
    }

    /// The running transaction's entries, with all memory reserved for their seal, whatever commit or checkpoint steps come first.
    pub(crate) fn ready_batch(&mut self) -> Result<Batch, JournalError>
        ensures ok { IfOk result (λ batch. batch ≡ batch_of self.old.journal.front.running) }
        ensures err { IfErr result (λ e. e ≡ Memory) }
        ensures same { self.new ≡ self.old }
    {
        steps::ready_batch(&self.front, &mut self.engine)
    }

    /// Locks and seals the running transaction, which has these entries and no open handle.
    pub(crate) fn seal_running(&mut self, batch: Batch) -> Result<(), JournalError>
        requires running { self.old.journal.engine.aborted ≡ false }
        requires idle { self.old.journal.engine.stage ≡ Idle }
        requires joined { 0 < length self.old.journal.front.running.handles }
        requires stopped { self.old.journal.front.open_handles ≡ [] }
        requires batch { batch ≡ batch_of self.old.journal.front.running }
        ensures ok { OnOk result (Does D.state (locked_journal self.old) Seal self.new) }
        ensures err { IfErr result (λ e. SealRefused self.old.journal e × (self.new ≡ locked_journal self.old)) }
        ensures all { self.old.journal.engine.committed ≡ length self.old.journal.front.sealed }
        ensures told { self.old.journal.front.aborted ≡ false }
        ensures device { self.new.device ≡ self.old.device }
    {
        self.engine.recall_invariant();
        self.front.lock();
        steps::seal_batch(&mut self.front, &mut self.engine, batch)?;
        Ok(())
    }

    /// Closes the journal: seals the running transaction if a handle has joined it, commits everything and writes it home, and closes the
    /// log. The next opening finds a clean log, and writes nothing. No handle may be open. It makes the device calls of its turns, and a
    /// write and a flush if the log is not clean. At each moment the crash image opens as between them.
    ///
    /// # Errors
    ///
    /// The journal's parts come back. What was sealed and committed stays so, and every crash image of the device opens as they say.
    /// `Aborted`: the device had failed before, and nothing was done. `Device`: it fails now. `Memory`: it ran out for the seal of the running
    /// transaction. The close requests all its memory before its first device call, so nothing was done. (The contract also allows this
    /// refusal after the commit under way.)
    /// Source: fs/jbd2/journal.c by behaviour (`jbd2_journal_destroy`).
    pub fn close(self) -> Result<Parts<D, R>, (Parts<D, R>, JournalError)>
        requires { self.journal.front.open_handles ≡ [] }
        ensures { MatchResult result
            (λ parts. IsClosedWell D.state D.honest self parts.device (R.transactions parts.sealed) parts.committed)
            (λ e. IsNotClosed D.state D.honest self e.0.device (R.transactions e.0.sealed) e.0.committed e.1) }
    {
        let mut journal = self;
        match finish(&mut journal) {
            Ok(()) => journal.close_log(),
            Err(e) => Err((journal.into_parts(), e)),
        }
    }

    /// Closes the log of a journal that is all sealed and released.
    fn close_log(self) -> Result<Parts<D, R>, (Parts<D, R>, JournalError)>
        requires running { self.journal.engine.aborted ≡ false }
        requires all { IsAllReleased self.journal.engine }
        ensures { MatchResult result
            (λ parts. LogIsClosed D.state D.honest self parts.device (R.transactions parts.sealed) parts.committed)
            (λ e. LogIsNotClosed D.state D.honest self e.0.device (R.transactions e.0.sealed) e.0.committed e.1) }
    {
        self.engine.recall_invariant();
        let KnownFront {
            front,
            engine,
            of: _,
        } = self;
        let sealed = front.into_sealed();
        let committed = engine.committed() as u64;
        match engine.close() {
            Ok(device) => Ok(Parts {
                device,
                sealed,
                committed,
            }),
            Err((device, e)) => Err((
                Parts {
                    device,
                    sealed,
                    committed,
                },
                e,
            )),
        }
    }

    /// Ends the journal, and answers its parts.
    pub fn into_parts(self) -> Parts<D, R>
        ensures device { result.device ≡ self.device }
        ensures sealed { R.transactions result.sealed ≡ self.journal.front.sealed }
        ensures committed { result.committed ≡ self.journal.engine.committed }
        ensures agrees { Agrees self.journal }
        ensures opens { D.honest self.device → OpensNow self.journal (D.state self.device).disk }
        ensures legal { D.honest self.device → IsLegal (R.transactions result.sealed) }
    {
        let KnownFront {
            front,
            engine,
            of: _,
        } = self;
        let (device, committed) = engine.into_parts();
        Parts {
            device,
            sealed: front.into_sealed(),
            committed: committed as u64,
        }
    }
}
