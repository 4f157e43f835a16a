//! Performs a script's operations on a shared journal.
ghost use Rattle.std.specs.Prelude.{◌≡◌, length, true, IfOk};

use crate::outcome::{PRINTED_BYTES, SharedOutcome};
use crate::slots::{SharedSlot, SharedSlots};
use journal_model::{BlockNo, JournalError, Sealed, Tid};
use journal_script::{HandleName, Operation};
use script_run::RunDevice;
use shared_journal::{
    CheckTurn, Journal, JournalName, Seat, SharedHandle, SharedReceipt, SharedTicket, Status, Turn,
};
use std::alloc::{AllocError, Global};
use std::sync::Wait;

/// More turns than a commit takes.
const MOST_TURNS: u32 = 2_000_000;

/// A client of a journal, and the slots of a script's names.
pub(crate) struct SharedInterpreter<'j, J: JournalName, R: Wait> {
    rt: &'j R,
    alloc: Global,
    journal: &'j Journal<J, RunDevice, Vec<Sealed>>,
    seat: Seat<J>,
    slots: SharedSlots<'j, J>,
    /// The greatest acknowledged transaction.
    acknowledged: Option<Tid>,
    ghost direct: { J.name.direct ≡ true },
}

fn copy_front(to: &mut [u8], from: &[u8])
    ensures { length to.new ≡ length to.old }
{
    let n = to.len().min(from.len());
    to[..n].copy_from_slice(&from[..n]);
}

fn front_of(bytes: &[u8]) -> [u8; PRINTED_BYTES] {
    let mut begins = [0; PRINTED_BYTES];
    copy_front(&mut begins, bytes);
    begins
}

fn block_of(alloc: Global, size: usize, bytes: &[u8]) -> Result<Vec<u8>, AllocError>
    ensures { IfOk result (λ block. length block.items ≡ size) }
{
    let mut block = vec![in alloc; 0; size]?;
    copy_front(&mut block, bytes);
    Ok(block)
}

/// The number of names up to the greatest one that an operation starts a handle for.
fn names_in(operations: &[Operation]) -> usize {
    let mut names = 0;
    for operation in operations {
        if let Operation::Start(name, _) = operation {
            names = name.index().saturating_add(1).max(names);
        }
    }
    names
}

fn done_or_refused(answer: Result<(), JournalError>) -> SharedOutcome {
    match answer {
        Ok(()) => SharedOutcome::Done,
        Err(e) => SharedOutcome::Refused(e),
    }
}

impl<'j, J: JournalName, R: Wait> SharedInterpreter<'j, J, R> {
    /// An interpreter of these operations on a journal, with empty slots.
    ///
    /// # Errors
    ///
    /// `Memory`.
    pub(crate) fn new(
        rt: &'j R,
        alloc: Global,
        journal: &'j Journal<J, RunDevice, Vec<Sealed>>,
        seat: Seat<J>,
        operations: &[Operation],
    ) -> Result<Self, JournalError>
        requires { J.name.direct ≡ true }
    {
        let names = names_in(operations);
        let room = Vec::with_capacity(alloc, names)?;
        Ok(SharedInterpreter {
            rt,
            alloc,
            journal,
            seat,
            slots: SharedSlots::of(room, names),
            acknowledged: None,
        })
    }

    /// Performs an operation.
    pub(crate) fn perform(&mut self, operation: &Operation) -> SharedOutcome {
        match operation {
            Operation::Start(name, credits) => self.start(*name, *credits),
            Operation::Write(name, _, _) => self.touch(*name, operation),
            Operation::Revoke(name, _) => self.touch(*name, operation),
            Operation::Read(name, _) => self.touch(*name, operation),
            Operation::Extend(name, _) => self.touch(*name, operation),
            Operation::Restart(name, credits) => self.restart(*name, *credits),
            Operation::Stop(name) => self.stop(*name),
            Operation::Request(name) => self.request(*name),
            Operation::Lock => self.lock(),
            Operation::Turn => self.turn(),
            Operation::Commit => self.commit(),
            Operation::CheckpointTurn => self.checkpoint_turn(),
            Operation::Check => self.check(),
            Operation::Status(name) => self.status(*name),
            Operation::Wait(name) => self.wait(*name),
            Operation::WriteDirect(block, bytes) => self.write_direct(*block, bytes),
            Operation::SyncDirect => done_or_refused(self.journal.sync_direct(self.rt)),
        }
    }

    /// Stops the open handles, and returns the greatest acknowledged transaction.
    pub(crate) fn finish(self) -> Option<Tid> {
        let SharedInterpreter {
            rt,
            alloc: _,
            journal,
            seat: _,
            slots,
            acknowledged,
        } = self;
        let mut slots = slots.into_slots();
        while let Some(slot) = slots.pop() {
            match slot {
                SharedSlot::Open(handle) => {
                    let _ = journal.stop(rt, handle);
                }
                SharedSlot::Empty | SharedSlot::Stopped(_) | SharedSlot::Waited(_) => {}
            }
        }
        slots.destroy_empty();
        acknowledged
    }

    fn take(&mut self, name: HandleName) -> SharedSlot<'j, J> {
        self.slots.replace(name, SharedSlot::Empty)
    }

    /// Fills a name's slot. It stops an open handle there, which no script asks for.
    fn put(&mut self, name: HandleName, slot: SharedSlot<'j, J>) {
        match self.slots.replace(name, slot) {
            SharedSlot::Open(handle) => {
                let _ = self.journal.stop(self.rt, handle);
            }
            SharedSlot::Empty | SharedSlot::Stopped(_) | SharedSlot::Waited(_) => {}
        }
    }

    fn acknowledge(&mut self, tid: Tid) {
        self.acknowledged = self.acknowledged.max(Some(tid));
    }

    /// Starts a handle unless its name has an open one. A refusal leaves the slot empty.
    fn start(&mut self, name: HandleName, credits: u64) -> SharedOutcome {
        if !self.slots.is_free(name) {
            return SharedOutcome::Skipped;
        }
        match self.journal.try_start(self.rt, &mut self.seat, credits) {
            Ok(handle) => {
                let tid = handle.tid();
                self.put(name, SharedSlot::Open(handle));
                SharedOutcome::Transaction(tid)
            }
            Err(e) => {
                self.put(name, SharedSlot::Empty);
                SharedOutcome::Refused(e)
            }
        }
    }

    fn touch(&mut self, name: HandleName, operation: &Operation) -> SharedOutcome {
        match self.take(name) {
            SharedSlot::Open(handle) => {
                let mut handle = handle;
                let outcome = self.touch_by(&mut handle, operation);
                self.put(name, SharedSlot::Open(handle));
                outcome
            }
            other => {
                self.put(name, other);
                SharedOutcome::Skipped
            }
        }
    }

    fn touch_by(
        &mut self,
        handle: &mut SharedHandle<'j, J, Vec<Sealed>>,
        operation: &Operation,
    ) -> SharedOutcome {
        match operation {
            Operation::Write(_, block, bytes) => self.write(handle, *block, bytes),
            Operation::Revoke(_, block) => {
                done_or_refused(self.journal.revoke(self.rt, handle, *block))
            }
            Operation::Extend(_, credits) => self.extend(handle, *credits),
            Operation::Read(_, block) => self.read(handle, *block),
            _ => SharedOutcome::Skipped,
        }
    }

    fn write(
        &mut self,
        handle: &mut SharedHandle<'j, J, Vec<Sealed>>,
        block: BlockNo,
        bytes: &[u8],
    ) -> SharedOutcome {
        match block_of(self.alloc, self.journal.block_size(), bytes) {
            Ok(whole) => { done_or_refused(self.journal.write(self.rt, handle, block, &whole)) }
            Err(_) => SharedOutcome::Refused(JournalError::Memory),
        }
    }

    fn read(
        &mut self,
        handle: &mut SharedHandle<'j, J, Vec<Sealed>>,
        block: BlockNo,
    ) -> SharedOutcome {
        match vec![in self.alloc; 0; self.journal.block_size()] {
            Ok(mut bytes) => match self.journal.read(self.rt, handle, block, &mut bytes) {
                Ok(()) => SharedOutcome::Begins(front_of(&bytes)),
                Err(e) => SharedOutcome::Refused(e),
            },
            Err(_) => SharedOutcome::Refused(JournalError::Memory),
        }
    }

    /// Reserves credits and adds them to a handle; if the handle refuses them, they return.
    fn extend(
        &mut self,
        handle: &mut SharedHandle<'j, J, Vec<Sealed>>,
        credits: u64,
    ) -> SharedOutcome {
        match self.journal.reserve(&mut self.seat, credits) {
            Ok(granted) => match self.journal.extend(self.rt, handle, granted) {
                Ok(()) => SharedOutcome::Done,
                Err((granted, e)) => {
                    self.journal.give_back(granted);
                    SharedOutcome::Refused(e)
                }
            },
            Err(e) => SharedOutcome::Refused(e),
        }
    }

    /// Restarts a handle. A refusal leaves the stopped handle's ticket in the slot.
    fn restart(&mut self, name: HandleName, credits: u64) -> SharedOutcome {
        match self.take(name) {
            SharedSlot::Open(handle) => self.restart_open(name, handle, credits),
            other => {
                self.put(name, other);
                SharedOutcome::Skipped
            }
        }
    }

    fn restart_open(
        &mut self,
        name: HandleName,
        handle: SharedHandle<'j, J, Vec<Sealed>>,
        credits: u64,
    ) -> SharedOutcome {
        match self
            .journal
            .try_restart(self.rt, handle, &mut self.seat, credits)
        {
            Ok(handle) => {
                let tid = handle.tid();
                self.put(name, SharedSlot::Open(handle));
                SharedOutcome::Transaction(tid)
            }
            Err((ticket, e)) => {
                self.put(name, SharedSlot::Stopped(ticket));
                SharedOutcome::Refused(e)
            }
        }
    }

    fn stop(&mut self, name: HandleName) -> SharedOutcome {
        match self.take(name) {
            SharedSlot::Open(handle) => {
                let ticket = self.journal.stop(self.rt, handle);
                let tid = ticket.tid();
                self.put(name, SharedSlot::Stopped(ticket));
                SharedOutcome::Transaction(tid)
            }
            other => {
                self.put(name, other);
                SharedOutcome::Skipped
            }
        }
    }

    /// Requests a commit. A receipt's transaction is committed, so only an abort refuses it.
    fn request(&mut self, name: HandleName) -> SharedOutcome {
        match self.take(name) {
            SharedSlot::Stopped(ticket) => {
                let mut ticket = ticket;
                let asked = self.journal.request(self.rt, &mut ticket);
                self.put(name, SharedSlot::Stopped(ticket));
                done_or_refused(asked)
            }
            SharedSlot::Waited(receipt) => {
                self.put(name, SharedSlot::Waited(receipt));
                done_or_refused(self.unless_aborted())
            }
            other => {
                self.put(name, other);
                SharedOutcome::Skipped
            }
        }
    }

    /// Refuses after a device failure, as the journal refuses every ticket.
    fn unless_aborted(&self) -> Result<(), JournalError> {
        if self.journal.is_aborted(self.rt) {
            Err(JournalError::Aborted)
        } else {
            Ok(())
        }
    }

    fn lock(&mut self) -> SharedOutcome {
        match self.journal.lock(self.rt) {
            Ok(tid) => SharedOutcome::Transaction(tid),
            Err(e) => SharedOutcome::Refused(e),
        }
    }

    fn turn(&mut self) -> SharedOutcome {
        match self.journal.commit_turn(self.rt) {
            Ok(turn) => SharedOutcome::Turn(turn),
            Err(e) => SharedOutcome::Refused(e),
        }
    }

    fn checkpoint_turn(&mut self) -> SharedOutcome {
        match self.journal.checkpoint_turn(self.rt) {
            Ok(turn) => SharedOutcome::CheckTurn(turn),
            Err(e) => SharedOutcome::Refused(e),
        }
    }

    fn check(&mut self) -> SharedOutcome {
        for _ in 0..MOST_TURNS {
            match self.journal.checkpoint_turn(self.rt) {
                Ok(CheckTurn::Idle) => return SharedOutcome::CheckTurn(CheckTurn::Idle),
                Ok(_) => {}
                Err(e) => return SharedOutcome::Refused(e),
            }
        }
        SharedOutcome::CheckTurn(CheckTurn::Idle)
    }

    fn commit(&mut self) -> SharedOutcome {
        for _ in 0..MOST_TURNS {
            match self.journal.commit_turn(self.rt) {
                Ok(Turn::Idle | Turn::Waiting) => return self.mark(),
                Ok(_) => {}
                Err(e) => return SharedOutcome::Refused(e),
            }
        }
        self.mark()
    }

    /// The last transaction that the journal reports committed.
    fn mark(&mut self) -> SharedOutcome {
        SharedOutcome::Transaction(self.journal.seen(&mut self.seat))
    }

    /// The status of a name's transaction; a committed one is noted.
    fn status(&mut self, name: HandleName) -> SharedOutcome {
        match self.take(name) {
            SharedSlot::Stopped(ticket) => {
                let status = self.journal.status(&ticket, &mut self.seat);
                let told = self.told(ticket.tid(), status);
                self.put(name, SharedSlot::Stopped(ticket));
                told
            }
            SharedSlot::Waited(receipt) => {
                self.acknowledge(receipt.tid());
                self.put(name, SharedSlot::Waited(receipt));
                SharedOutcome::Committed
            }
            other => {
                self.put(name, other);
                SharedOutcome::Skipped
            }
        }
    }

    fn told(&mut self, tid: Tid, status: Status) -> SharedOutcome {
        match status {
            Status::Committed => {
                self.acknowledge(tid);
                SharedOutcome::Committed
            }
            Status::Open => SharedOutcome::Open,
        }
    }

    /// Takes the receipt of a committed transaction and notes it, but does not wait for an open one.
    fn wait(&mut self, name: HandleName) -> SharedOutcome {
        match self.take(name) {
            SharedSlot::Stopped(ticket) => self.wait_for(name, ticket),
            SharedSlot::Waited(receipt) => {
                let told = self.acknowledge_receipt(&receipt);
                self.put(name, SharedSlot::Waited(receipt));
                told
            }
            other => {
                self.put(name, other);
                SharedOutcome::Skipped
            }
        }
    }

    /// Takes a ticket's receipt, if its transaction is committed.
    fn wait_for(
        &mut self,
        name: HandleName,
        ticket: SharedTicket<J, Vec<Sealed>>,
    ) -> SharedOutcome {
        if matches!(self.journal.status(&ticket, &mut self.seat), Status::Open) {
            self.put(name, SharedSlot::Stopped(ticket));
            return SharedOutcome::Open;
        }
        if let Err(e) = self.unless_aborted() {
            self.put(name, SharedSlot::Stopped(ticket));
            return SharedOutcome::Refused(e);
        }
        match self.journal.wait(self.rt, ticket) {
            Ok(receipt) => {
                let mut receipt = receipt;
                self.journal.audit(self.rt, &mut receipt);
                let told = self.acknowledge_receipt(&receipt);
                self.put(name, SharedSlot::Waited(receipt));
                told
            }
            Err((ticket, e)) => {
                self.put(name, SharedSlot::Stopped(ticket));
                SharedOutcome::Refused(e)
            }
        }
    }

    /// Notes a receipt's transaction and answers it, or answers `Aborted` if the journal is aborted.
    fn acknowledge_receipt(&mut self, receipt: &SharedReceipt<J, Vec<Sealed>>) -> SharedOutcome {
        if let Err(e) = self.unless_aborted() {
            return SharedOutcome::Refused(e);
        }
        self.acknowledge(receipt.tid());
        SharedOutcome::Transaction(receipt.tid())
    }

    fn write_direct(&mut self, block: BlockNo, bytes: &[u8]) -> SharedOutcome {
        match block_of(self.alloc, self.journal.block_size(), bytes) {
            Ok(whole) => { done_or_refused(self.journal.write_direct(self.rt, block, &whole)) }
            Err(_) => SharedOutcome::Refused(JournalError::Memory),
        }
    }
}
