//! Performs a script's operations on a journal, with handles, tickets and receipts by name.
ghost use Rattle.std.specs.Prelude.{◌≡◌, ◌↔◌, ◌++◌, Contains, IfErr, IfOk, IsTrue, MatchResult, drop, length, min, replicate, take};
ghost use Rattle.journal_model.specs.declared.refusal.JournalError.TheVariants.{Memory, NeedSpace};
ghost use Rattle.script_client.specs.declared.outcome.OperationOutcome.TheVariants.{Done, Refused};
ghost use Rattle.script_client.specs.Performed.{IsIdle, block_from, told_of};

use crate::client::{HomeFact, ScriptClient, Waited};
use crate::outcome::{OperationOutcome, PRINTED_BYTES};
use crate::slots::{Slot, Slots};
use block_device::Device;
use group_commit::{CheckTurn, Handle, Receipt, Status, Ticket, Turn};
use journal_model::{BlockNo, JournalError, Tid};
use journal_script::{HANDLE_NAMES, HandleName, Operation};
use recovery::Opened;
use std::alloc::{AllocError, Global};

/// More turns than a commit can take: a turn is a seal or one device call, and there are few more of these than ring blocks, of which a log
/// has fewer than 1,048,576.
const MOST_TURNS: u32 = 2_000_000;

/// A client, and what the names of its script stand for.
pub struct Interpreter<'a, D: Device, H: HomeFact> {
    alloc: Global,
    client: ScriptClient<'a, D, H>,
    slots: Slots,
    /// The greatest transaction for which a wait came to `Open`.
    open_wait: Option<Tid>,
}

fn copy_front(to: &mut [u8], from: &[u8])
    ensures { to.new ≡ take (min (length to.old) (length from.now)) from.now ++ drop (min (length to.old) (length from.now)) to.old }
{
    let n = to.len().min(from.len());
    to[..n].copy_from_slice(&from[..n]);
}

fn front_of(bytes: &[u8]) -> [u8; PRINTED_BYTES]
    ensures { result ≡ block_from 8 bytes.now }
{
    let mut begins = [0; PRINTED_BYTES];
    copy_front(&mut begins, bytes);
    begins
}

fn block_of(alloc: Global, size: usize, bytes: &[u8]) -> Result<Vec<u8>, AllocError>
    ensures { IfOk result (λ block. block.items ≡ block_from size bytes.now) }
{
    let mut block = vec![in alloc; 0; size]?;
    copy_front(&mut block, bytes);
    Ok(block)
}

fn done_or_refused(answer: Result<(), JournalError>) -> OperationOutcome
    ensures { MatchResult answer (λ _. result ≡ Done) (λ e. result ≡ Refused e) }
{
    match answer {
        Ok(()) => OperationOutcome::Done,
        Err(e) => OperationOutcome::Refused(e),
    }
}

fn is_idle(turn: Turn) -> bool
    ensures { IsTrue result ↔ IsIdle turn }
{
    matches!(turn, Turn::Idle | Turn::Waiting)
}

fn is_idle_check(turn: CheckTurn) -> bool
    ensures { IsTrue result ↔ (turn ≡ CheckTurn.Idle) }
{
    matches!(turn, CheckTurn::Idle)
}

/// Whether an operation was refused since the ring had no room for it.
fn lacks_room(outcome: &OperationOutcome) -> bool
    ensures { IsTrue result ↔ (outcome.now ≡ Refused NeedSpace) }
{
    matches!(outcome, OperationOutcome::Refused(JournalError::NeedSpace))
}

/// Whether checkpoint turns were taken up to the first that had nothing to do.
fn is_round_done(outcome: &OperationOutcome) -> bool
    ensures { IsTrue result ↔ (outcome.now ≡ OperationOutcome.CheckTurn CheckTurn.Idle) }
{
    matches!(outcome, OperationOutcome::CheckTurn(CheckTurn::Idle))
}

fn told(tid: Tid, status: Status) -> OperationOutcome
    ensures { result ≡ told_of tid status }
{
    match status {
        Status::Committed => OperationOutcome::Committed(tid),
        Status::Open => OperationOutcome::Open,
    }
}

impl<'a, D: Device + Drop, H: HomeFact> Interpreter<'a, D, H> {
    ghost use Rattle.journal_script.specs.Named.{IsDirectOf};
    ghost use Rattle.script_client.specs.Ended.{StopsHandles};
    ghost use Rattle.script_client.specs.Names.{stands_for};
    ghost use Rattle.script_client.specs.Performed.{HasDone, HasDoneAfterRound, HasDoneAs, HasRequested, HasRestarted, HasStarted, HasStatus, HasStopped, HasTouched, HasWaited, IsBegun, IsTouch, Locks, ReadsBlock, SyncsDirectly, TakesCheckTurns, TakesOneCheckTurn, TakesOneTurn, TakesTurns, TellsAgain, Touches, WaitsFor, WritesBlock, WritesDirectly};
    ghost use Rattle.script_client.specs.Shown.{IsLeftOf, IsSameButJournal};

    /// Makes an interpreter for `operations` over a new journal on an opened log.
    ///
    /// # Errors
    ///
    /// `Memory`: the opened log comes back.
    pub fn new(
        alloc: Global,
        opened: Opened<D>,
        operations: &'a [Operation],
    ) -> Result<Self, (Opened<D>, JournalError)>
        requires { D.honest opened.device → H.holds (D.state opened.device).shape (D.state opened.device).disk }
        ensures begun { IfOk result (λ interpreter. IsBegun D.state opened operations.now (record { client = interpreter.client; names = interpreter.slots })) }
        ensures err { IfErr result (λ e. (e.0 ≡ opened) × (e.1 ≡ Memory)) }
    {
        let room = match Vec::with_capacity(alloc, usize::from(HANDLE_NAMES)) {
            Ok(room) => room,
            Err(_) => return Err((opened, JournalError::Memory)),
        };
        match ScriptClient::new(alloc, opened, operations) {
            Ok(client) => Ok(Interpreter {
                alloc,
                client,
                slots: Slots::of(room),
                open_wait: None,
            }),
            Err(refused) => {
                room.destroy_empty();
                Err(refused)
            }
        }
    }

    /// Runs one operation.
    pub fn perform(&mut self, operation: &Operation) -> OperationOutcome
        requires { Contains self.old.client.operations operation.now }
        ensures done { HasDone D.state D.honest operation.now result (record { client = self.old.client; names = self.old.slots }) (record { client = self.new.client; names = self.new.slots }) }
        ensures operations { self.new.client.operations ≡ self.old.client.operations }
    {
        match operation {
            Operation::Start(name, credits) => self.start(*name, *credits),
            Operation::Write(name, _, _) => self.touch(*name, operation),
            Operation::Revoke(name, _) => self.touch(*name, operation),
            Operation::Read(name, _) => self.touch(*name, operation),
            Operation::Extend(name, _) => self.touch(*name, operation),
            Operation::Restart(name, credits) => self.restart(*name, *credits),
            Operation::Stop(name) => self.stop(*name),
            Operation::Request(name) => self.request(*name),
            Operation::Lock => self.lock(),
            Operation::Turn => self.turn(),
            Operation::Commit => self.commit(),
            Operation::CheckpointTurn => self.checkpoint_turn(),
            Operation::Check => self.check(),
            Operation::Status(name) => self.status(*name),
            Operation::Wait(name) => self.wait(*name),
            Operation::WriteDirect(block, bytes) => self.write_direct(*block, bytes),
            Operation::SyncDirect => self.sync_direct(),
        }
    }

    /// Runs one of its operations as `perform` does. With `makes_room`, an operation for which the ring has no room is run once more, after
    /// checkpoint turns up to the first that has nothing to do. If such a turn is refused, its refusal is the outcome.
    pub fn perform_as(&mut self, operation: &Operation, makes_room: bool) -> OperationOutcome
        requires { Contains self.old.client.operations operation.now }
        ensures done { HasDoneAs makes_room D.state D.honest operation.now result (record { client = self.old.client; names = self.old.slots }) (record { client = self.new.client; names = self.new.slots }) }
        ensures operations { self.new.client.operations ≡ self.old.client.operations }
    {
        if makes_room {
            let outcome = self.perform(operation);
            if lacks_room(&outcome) {
                self.perform_after_round(operation)
            } else {
                outcome
            }
        } else {
            self.perform(operation)
        }
    }

    /// Takes checkpoint turns up to the first that has nothing to do, and runs one of its operations.
    fn perform_after_round(&mut self, operation: &Operation) -> OperationOutcome
        requires { Contains self.old.client.operations operation.now }
        ensures done { HasDoneAfterRound D.state D.honest operation.now result (record { client = self.old.client; names = self.old.slots }) (record { client = self.new.client; names = self.new.slots }) }
        ensures operations { self.new.client.operations ≡ self.old.client.operations }
    {
        let checked = self.check();
        if is_round_done(&checked) {
            self.perform(operation)
        } else {
            checked
        }
    }

    /// The greatest transaction for which a wait came to `Open`, if one did.
    pub fn open_wait(&self) -> Option<Tid> {
        self.open_wait
    }

    /// Stops the open handles.
    pub fn into_stopped(self) -> ScriptClient<'a, D, H>
        ensures operations { result.operations ≡ self.entry.client.operations }
        ensures left { IsLeftOf self.entry.client result.journal.device result.journal.journal.front.sealed result.shown }
        ensures running { result.journal.journal.front.running ≡ self.entry.client.journal.journal.front.running }
        ensures stops { StopsHandles D.state self.entry.client.journal result.journal }
    {
        let Interpreter {
            alloc: _,
            mut client,
            slots,
            open_wait: _,
        } = self;
        let mut slots = slots.into_slots();
        while let Some(slot) = slots.pop() {
            match slot {
                Slot::Open(handle) => {
                    let _ = client.stop(handle);
                }
                Slot::Empty | Slot::Stopped(_) | Slot::Waited(_) => {}
            }
        }
        slots.destroy_empty();
        client
    }

    /// Starts a handle, if its name stands for no open one. After a refusal the name stands for nothing.
    fn start(&mut self, name: HandleName, credits: u64) -> OperationOutcome
        ensures rest { IsSameButJournal self.old.client self.new.client }
        ensures done { HasStarted D.state name credits result (record { client = self.old.client; names = self.old.slots }) (record { client = self.new.client; names = self.new.slots }) }
    {
        if !self.slots.is_free(name) {
            return OperationOutcome::Skipped;
        }
        match self.client.start(credits) {
            Ok(handle) => {
                let tid = handle.tid();
                self.slots.put(name, Slot::Open(handle));
                OperationOutcome::Transaction(tid)
            }
            Err(e) => {
                self.slots.put(name, Slot::Empty);
                OperationOutcome::Refused(e)
            }
        }
    }

    fn touch(&mut self, name: HandleName, operation: &Operation) -> OperationOutcome
        requires { IsTouch operation.now }
        ensures rest { IsSameButJournal self.old.client self.new.client }
        ensures done { HasTouched D.state D.honest operation.now name (stands_for self.old.slots name) result (record { client = self.old.client; names = self.old.slots }) (record { client = self.new.client; names = self.new.slots }) }
    {
        match self.slots.take(name) {
            Slot::Open(mut handle) => {
                let outcome = self.touch_by(&mut handle, operation);
                self.slots.put(name, Slot::Open(handle));
                outcome
            }
            other => {
                self.slots.put(name, other);
                OperationOutcome::Skipped
            }
        }
    }

    fn touch_by(&mut self, handle: &mut Handle, operation: &Operation) -> OperationOutcome
        requires { IsTouch operation.now }
        ensures rest { IsSameButJournal self.old.client self.new.client }
        ensures done { Touches D.state D.honest operation.now result handle.old handle.new self.old.client.journal self.new.client.journal }
        ensures slots { self.new.slots ≡ self.old.slots }
    {
        match operation {
            Operation::Write(_, block, bytes) => self.write(handle, *block, bytes),
            Operation::Revoke(_, block) => done_or_refused(self.client.revoke(handle, *block)),
            Operation::Extend(_, credits) => done_or_refused(self.client.extend(handle, *credits)),
            Operation::Read(_, block) => self.read(handle, *block),
            _ => unreachable!(),
        }
    }

    fn write(&mut self, handle: &mut Handle, block: BlockNo, bytes: &[u8]) -> OperationOutcome
        ensures rest { IsSameButJournal self.old.client self.new.client }
        ensures done { WritesBlock D.state block bytes.now result handle.old handle.new self.old.client.journal self.new.client.journal }
        ensures slots { self.new.slots ≡ self.old.slots }
    {
        match block_of(self.alloc, self.client.block_size(), bytes) {
            Ok(whole) => done_or_refused(self.client.write(handle, block, &whole)),
            Err(_) => OperationOutcome::Refused(JournalError::Memory),
        }
    }

    fn read(&mut self, handle: &mut Handle, block: BlockNo) -> OperationOutcome
        ensures rest { IsSameButJournal self.old.client self.new.client }
        ensures done { ReadsBlock D.state D.honest block result handle.old self.old.client.journal self.new.client.journal }
        ensures handle { handle.new ≡ handle.old }
        ensures slots { self.new.slots ≡ self.old.slots }
    {
        match vec![in self.alloc; 0; self.client.block_size()] {
            Ok(mut bytes) => match self.client.read(handle, block, &mut bytes) {
                Ok(()) => OperationOutcome::Begins(front_of(&bytes)),
                Err(e) => OperationOutcome::Refused(e),
            },
            Err(_) => OperationOutcome::Refused(JournalError::Memory),
        }
    }

    /// Restarts a handle. After a refusal the name stands for the stopped handle's ticket.
    fn restart(&mut self, name: HandleName, credits: u64) -> OperationOutcome
        ensures rest { IsSameButJournal self.old.client self.new.client }
        ensures done { HasRestarted D.state name credits (stands_for self.old.slots name) result (record { client = self.old.client; names = self.old.slots }) (record { client = self.new.client; names = self.new.slots }) }
    {
        match self.slots.take(name) {
            Slot::Open(handle) => match self.client.restart(handle, credits) {
                Ok(handle) => {
                    let tid = handle.tid();
                    self.slots.put(name, Slot::Open(handle));
                    OperationOutcome::Transaction(tid)
                }
                Err((ticket, e)) => {
                    self.slots.put(name, Slot::Stopped(ticket));
                    OperationOutcome::Refused(e)
                }
            },
            other => {
                self.slots.put(name, other);
                OperationOutcome::Skipped
            }
        }
    }

    fn stop(&mut self, name: HandleName) -> OperationOutcome
        ensures rest { IsSameButJournal self.old.client self.new.client }
        ensures done { HasStopped D.state name (stands_for self.old.slots name) result (record { client = self.old.client; names = self.old.slots }) (record { client = self.new.client; names = self.new.slots }) }
    {
        match self.slots.take(name) {
            Slot::Open(handle) => {
                let ticket = self.client.stop(handle);
                let tid = ticket.tid();
                self.slots.put(name, Slot::Stopped(ticket));
                OperationOutcome::Transaction(tid)
            }
            other => {
                self.slots.put(name, other);
                OperationOutcome::Skipped
            }
        }
    }

    /// Requests a commit; for a receipt, whose transaction is committed, the journal need not be asked.
    fn request(&mut self, name: HandleName) -> OperationOutcome
        ensures rest { IsSameButJournal self.old.client self.new.client }
        ensures done { HasRequested D.state (stands_for self.old.slots name) result (record { client = self.old.client; names = self.old.slots }) (record { client = self.new.client; names = self.new.slots }) }
    {
        match self.slots.get(name) {
            Some(Slot::Stopped(ticket)) => done_or_refused(self.client.request(ticket)),
            Some(Slot::Waited(_)) if self.client.is_aborted() => OperationOutcome::Refused(
                JournalError::Aborted,
            ),
            Some(Slot::Waited(_)) => OperationOutcome::Done,
            _ => OperationOutcome::Skipped,
        }
    }

    fn lock(&mut self) -> OperationOutcome
        ensures rest { IsSameButJournal self.old.client self.new.client }
        ensures done { Locks D.state result self.old.client.journal self.new.client.journal }
        ensures slots { self.new.slots ≡ self.old.slots }
    {
        match self.client.lock() {
            Ok(tid) => OperationOutcome::Transaction(tid),
            Err(e) => OperationOutcome::Refused(e),
        }
    }

    fn turn(&mut self) -> OperationOutcome
        ensures rest { IsSameButJournal self.old.client self.new.client }
        ensures done { TakesOneTurn D.state result self.old.client.journal self.new.client.journal }
        ensures slots { self.new.slots ≡ self.old.slots }
    {
        match self.client.commit_turn() {
            Ok(turn) => OperationOutcome::Turn(turn),
            Err(e) => OperationOutcome::Refused(e),
        }
    }

    fn checkpoint_turn(&mut self) -> OperationOutcome
        ensures rest { IsSameButJournal self.old.client self.new.client }
        ensures done { TakesOneCheckTurn D.state result self.old.client.journal self.new.client.journal }
        ensures slots { self.new.slots ≡ self.old.slots }
    {
        match self.client.checkpoint_turn() {
            Ok(turn) => OperationOutcome::CheckTurn(turn),
            Err(e) => OperationOutcome::Refused(e),
        }
    }

    /// Takes checkpoint turns up to the first that has nothing to do.
    fn check(&mut self) -> OperationOutcome
        ensures rest { IsSameButJournal self.old.client self.new.client }
        ensures done { TakesCheckTurns D.state result self.old.client.journal self.new.client.journal }
        ensures slots { self.new.slots ≡ self.old.slots }
    {
        for _ in 0..MOST_TURNS {
            match self.client.checkpoint_turn() {
                Ok(turn) => {
                    if is_idle_check(turn) {
                        return OperationOutcome::CheckTurn(CheckTurn::Idle);
                    }
                }
                Err(e) => return OperationOutcome::Refused(e),
            }
        }
        OperationOutcome::CheckTurn(CheckTurn::Idle)
    }

    /// Takes commit turns up to the first that has nothing to do.
    fn commit(&mut self) -> OperationOutcome
        ensures rest { IsSameButJournal self.old.client self.new.client }
        ensures done { TakesTurns D.state result self.old.client.journal self.new.client.journal }
        ensures slots { self.new.slots ≡ self.old.slots }
    {
        for _ in 0..MOST_TURNS {
            match self.client.commit_turn() {
                Ok(turn) => {
                    if is_idle(turn) {
                        return OperationOutcome::Transaction(self.client.mark());
                    }
                }
                Err(e) => return OperationOutcome::Refused(e),
            }
        }
        OperationOutcome::Transaction(self.client.mark())
    }

    /// The status of a name's transaction; a committed one is noted.
    fn status(&mut self, name: HandleName) -> OperationOutcome
        ensures done { HasStatus (stands_for self.old.slots name) result (record { client = self.old.client; names = self.old.slots }) (record { client = self.new.client; names = self.new.slots }) }
        ensures operations { self.new.client.operations ≡ self.old.client.operations }
    {
        match self.slots.get(name) {
            Some(Slot::Stopped(ticket)) => told(ticket.tid(), self.client.status(ticket)),
            Some(Slot::Waited(receipt)) => told(receipt.tid(), self.client.confirm(receipt)),
            _ => OperationOutcome::Skipped,
        }
    }

    /// Takes the receipt of a committed transaction, and notes it. Does not wait for an open one.
    fn wait(&mut self, name: HandleName) -> OperationOutcome
        ensures done { HasWaited name (stands_for self.old.slots name) result (record { client = self.old.client; names = self.old.slots }) (record { client = self.new.client; names = self.new.slots }) }
        ensures operations { self.new.client.operations ≡ self.old.client.operations }
    {
        match self.slots.take(name) {
            Slot::Stopped(ticket) => {
                let (outcome, slot) = self.wait_for(ticket);
                self.slots.put(name, slot);
                outcome
            }
            Slot::Waited(receipt) => {
                let outcome = self.wait_again(&receipt);
                self.slots.put(name, Slot::Waited(receipt));
                outcome
            }
            other => {
                self.slots.put(name, other);
                OperationOutcome::Skipped
            }
        }
    }

    /// The answer to a wait by a receipt: its transaction, noted again, or `Aborted` as for every ticket of an aborted journal.
    fn wait_again(&mut self, receipt: &Receipt) -> OperationOutcome
        ensures done { TellsAgain receipt.now.tid result self.old.client self.new.client }
        ensures slots { self.new.slots ≡ self.old.slots }
    {
        if self.client.is_aborted() {
            return OperationOutcome::Refused(JournalError::Aborted);
        }
        match self.client.confirm(receipt) {
            Status::Committed => OperationOutcome::Transaction(receipt.tid()),
            Status::Open => OperationOutcome::Open,
        }
    }

    /// Takes the receipt for a ticket, if its transaction is committed. Returns also the name's new slot.
    fn wait_for(&mut self, ticket: Ticket) -> (OperationOutcome, Slot)
        ensures done { WaitsFor ticket result.0 result.1 self.old.client self.new.client }
        ensures slots { self.new.slots ≡ self.old.slots }
    {
        match self.client.wait(ticket) {
            Waited::Committed(receipt) => {
                (
                    OperationOutcome::Transaction(receipt.tid()),
                    Slot::Waited(receipt),
                )
            }
            Waited::Open(ticket) => {
                self.note_open(ticket.tid());
                (OperationOutcome::Open, Slot::Stopped(ticket))
            }
            Waited::Refused(ticket, e) => (OperationOutcome::Refused(e), Slot::Stopped(ticket)),
        }
    }

    /// Notes that a wait for a transaction came to `Open`.
    fn note_open(&mut self, tid: Tid)
        ensures client { self.new.client ≡ self.old.client }
        ensures slots { self.new.slots ≡ self.old.slots }
    {
        self.open_wait = match self.open_wait {
            Some(other) => Some(Tid(other.0.max(tid.0))),
            None => Some(tid),
        };
    }

    fn write_direct(&mut self, block: BlockNo, bytes: &[u8]) -> OperationOutcome
        requires { IsDirectOf self.old.client.operations block }
        ensures rest { IsSameButJournal self.old.client self.new.client }
        ensures done { WritesDirectly D.state block bytes.now result self.old.client.journal self.new.client.journal }
        ensures slots { self.new.slots ≡ self.old.slots }
    {
        match block_of(self.alloc, self.client.block_size(), bytes) {
            Ok(whole) => done_or_refused(self.client.write_direct(block, &whole)),
            Err(_) => OperationOutcome::Refused(JournalError::Memory),
        }
    }

    fn sync_direct(&mut self) -> OperationOutcome
        ensures rest { IsSameButJournal self.old.client self.new.client }
        ensures done { SyncsDirectly D.state result self.old.client.journal self.new.client.journal }
        ensures slots { self.new.slots ≡ self.old.slots }
    {
        done_or_refused(self.client.sync_direct())
    }
}
