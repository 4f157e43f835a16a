//! Which blocks a transaction of `bench` writes, and how it is made durable.
ghost use Rattle.std.specs.Prelude.{◌≡◌, ◌≤◌, IfOk, []};
ghost use Rattle.commit_times.specs.Closed.{IsLeftClosed};

use block_device::Device;
use group_commit::{Handle, Journal, Receipt, Ticket};
use jbench_words::numbers::LAST_TAKEN;
use journal_model::{BlockNo, JournalError};
use rand_core::{Rng, SeedableRng};
use rand_xoshiro::Xoshiro256PlusPlus;
use recovery::Opened;
use std::alloc::Global;

/// What each transaction writes: one block at a drawn place in each of as many parts of home as it has copies.
#[derive(Drop)]
pub(crate) struct BenchPlan {
    copies: u64,
    /// Blocks of each part.
    part: u64,
    generator: Xoshiro256PlusPlus,
}

impl BenchPlan {
    /// Plans transactions of `copies` blocks of this home area, at places drawn from a seed.
    ///
    /// # Errors
    ///
    /// `BadBlock`: home has fewer blocks.
    pub(crate) fn new(copies: u64, home_blocks: u64, seed: u64) -> Result<BenchPlan, JournalError> {
        match home_blocks.checked_div(copies) {
            Some(part) if part > 0 => Ok(BenchPlan {
                copies,
                part,
                generator: Xoshiro256PlusPlus::seed_from_u64(seed),
            }),
            _ => Err(JournalError::BadBlock),
        }
    }

    /// How many blocks each transaction has.
    pub(crate) fn copies(&self) -> u64 {
        self.copies
    }

    /// The next block in this part, and the byte that fills it.
    pub(crate) fn draw(&mut self, number: u64) -> (BlockNo, u8) {
        let drawn = self.generator.next_u64();
        let place = drawn.checked_rem(self.part).unwrap_or(0);
        let block = number.saturating_mul(self.part).saturating_add(place);
        let [fill, ..] = drawn.to_be_bytes();
        (BlockNo(block), fill)
    }
}

/// A journal on an opened log.
#[derive(Drop)]
pub(crate) struct Work<D: Device> {
    journal: Journal<D>,
    /// The next transaction's number.
    next: u64,
    /// The bytes of the block that was written last.
    bytes: Vec<u8>,
}

impl<D: Device + Drop> Work<D> {
    /// Makes a journal on an opened log.
    ///
    /// # Errors
    ///
    /// `Memory`.
    pub(crate) fn new(alloc: Global, opened: Opened<D>) -> Result<Self, JournalError> {
        let next = u64::from(opened.next().0);
        match Journal::new(alloc, opened) {
            Ok(journal) => Ok(Work {
                next,
                bytes: Vec::new(alloc),
                journal,
            }),
            Err((_, e)) => Err(e),
        }
    }

    /// Writes the blocks of the next transaction through one handle, and stops that.
    ///
    /// # Errors
    ///
    /// Those of a start and a write. `TooMany`: a transaction can't have so many blocks. `SequenceEnd`: no later opening would take the
    /// transaction.
    pub(crate) fn change(&mut self, plan: &mut BenchPlan) -> Result<Ticket, JournalError> {
        if self.next > u64::from(LAST_TAKEN) {
            return Err(JournalError::SequenceEnd);
        }
        let mut handle = self.journal.try_start(plan.copies)?;
        let written = self.write_all(&mut handle, plan);
        let ticket = self.journal.stop(handle);
        self.next = u64::from(ticket.tid().0) + 1;
        match written {
            Ok(()) => Ok(ticket),
            Err(e) => Err(e),
        }
    }

    fn write_all(&mut self, handle: &mut Handle, plan: &mut BenchPlan) -> Result<(), JournalError> {
        for number in 0..plan.copies {
            let (block, fill) = plan.draw(number);
            self.write(handle, block, fill)?;
        }
        Ok(())
    }

    fn write(&mut self, handle: &mut Handle, block: BlockNo, fill: u8) -> Result<(), JournalError> {
        self.bytes.resize(self.journal.block_size(), 0)?;
        self.bytes.fill(fill);
        self.journal.write(handle, block, &self.bytes)
    }

    /// Commits the transaction of a ticket, with the rounds that `Journal::commit` makes.
    ///
    /// # Errors
    ///
    /// Those of a commit.
    pub(crate) fn commit(&mut self, ticket: Ticket) -> Result<Receipt, JournalError>
        ensures { IfOk result (λ receipt. receipt.tid ≤ self.new.journal.journal.front.mark) }
    {
        match self.journal.commit(ticket) {
            Ok(receipt) => Ok(receipt),
            Err((_, e)) => Err(e),
        }
    }

    /// Closes the journal, as `close` does.
    ///
    /// # Errors
    ///
    /// `NotRunning`: a handle is open. Those of a close.
    pub(crate) fn close(self) -> Result<D, JournalError>
        ensures { IfOk result (λ device. D.honest device → IsLeftClosed (D.state device)) }
    {
        let Work {
            journal,
            next: _,
            bytes: _,
        } = self;
        if journal.has_open_handles() {
            return Err(JournalError::NotRunning);
        }
        close(journal)
    }
}

/// Closes a journal, and returns its device, whose log is clean.
///
/// # Errors
///
/// Those of a close.
pub(crate) fn close<D: Device + Drop>(journal: Journal<D>) -> Result<D, JournalError>
    requires { journal.journal.front.open_handles ≡ [] }
    ensures { IfOk result (λ device. D.honest device → IsLeftClosed (D.state device)) }
{
    journal.recall_invariant();
    match journal.close() {
        Ok(parts) => Ok(parts.device),
        Err((_, e)) => Err(e),
    }
}
