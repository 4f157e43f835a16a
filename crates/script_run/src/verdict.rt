//! Judges what an opening gave back, by what the run recorded.
ghost use Rattle.std.specs.Prelude.{◌≡◌, ◌↔◌, ◌+◌, ◌<◌, All, Contains, IfOk, IsTrue, None, count_by, length, nat_le, replicate};
ghost use Rattle.std.specs.BTreeSet.{keys};
ghost use Rattle.journal_model.specs.declared.number.Area.TheVariants.{Home};
ghost use Rattle.journal_model.specs.Disk.{reading};
ghost use Rattle.log_model.specs.Opening.{greatest_number, numbered_below};
ghost use Rattle.log_model.specs.Superblock.{greatest_length};
ghost use Rattle.journal_model.specs.Transaction.{entry_of};
ghost use Rattle.block_device.specs.Call.{OnlyReads};
ghost use Rattle.script_run.specs.LastEntries.{entry_in};
ghost use Rattle.script_run.specs.Numbers.{HasNumbersLeft};
ghost use Rattle.script_run.specs.Verdict.{IsAsLeft, IsLeft, IsLeftBy, IsRight, owed};

use crate::blocks::read_block;
use crate::last_entries::last_entries;
use block_device::Device;
use journal_model::layout::{GREATEST_LENGTH, GREATEST_NUMBER};
use journal_model::{Area, JournalError, Op, Sealed, Tid};
use journal_script::NamedBlocks;
use std::alloc::Global;
use std::collections::BTreeMap;

/// What a run recorded.
#[derive(Debug, Drop)]
pub struct RunRecord {
    /// The sealed transactions, in order.
    pub sealed: Vec<Sealed>,
    /// The greatest transaction that was acknowledged.
    pub acknowledged: Option<Tid>,
}

impl RunRecord {
    /// How many recorded transactions have a number below `end`.
    pub fn count_below(&self, end: u64) -> usize
        ensures { result ≡ numbered_below end self.now.sealed.items }
    {
        self.sealed
            .iter()
            .filter(|transaction| u64::from(transaction.tid.0) < end)
            .count()
    }

    fn count_up_to(&self, tid: Tid) -> usize
        ensures { result ≡ count_by (λ t. nat_le t.tid tid) self.now.sealed.items }
    {
        self.sealed
            .iter()
            .filter(|transaction| transaction.tid.0 <= tid.0)
            .count()
    }

    /// How many recorded transactions must be there: those up to the greatest acknowledged one.
    fn count_acknowledged(&self) -> usize
        ensures { result ≡ owed self.now.acknowledged self.now.sealed.items }
    {
        match self.acknowledged {
            Some(tid) => self.count_up_to(tid),
            None => 0,
        }
    }

    /// Whether the recorded transactions, and as many more as the longest log has blocks, stay below the greatest number; false without
    /// any.
    pub fn has_numbers_left(&self) -> bool
        ensures { IsTrue result ↔ HasNumbersLeft self.now.sealed.items }
    {
        match self.sealed.first() {
            Some(first) => are_left_behind(first.tid, self.sealed.len()),
            None => false,
        }
    }

    /// Whether an opening that found the first `n` recorded transactions is right: nothing acknowledged is lost, nothing unsealed is there,
    /// and each named block is as those `n` left it. Without an entry a block must be zeros, unless a direct write names it; after a revoke
    /// it may hold anything.
    ///
    /// # Errors
    ///
    /// `BadBlock`: home has no such block. `Device`. `Memory`.
    pub fn judge<D: Device>(
        &self,
        alloc: Global,
        device: &mut D,
        named: &NamedBlocks,
        n: usize,
    ) -> Result<bool, JournalError>
        ensures { IfOk result (λ right. D.honest device.new → IsTrue right ↔
            IsRight self.now.sealed.items self.now.acknowledged named.now n (D.state device.old).shape.block_size (reading (D.state device.old).disk Home)) }
    {
        if n < self.count_acknowledged() || n > self.sealed.len() {
            return Ok(false);
        }
        self.are_as_left(alloc, device, named, n)
    }

    fn are_as_left<D: Device>(
        &self,
        alloc: Global,
        device: &mut D,
        named: &NamedBlocks,
        n: usize,
    ) -> Result<bool, JournalError>
        ensures { IfOk result (λ right. D.honest device.new → IsTrue right ↔
            All (IsAsLeft self.now.sealed.items (keys named.now.directs) n (D.state device.old).shape.block_size (reading (D.state device.old).disk Home)) (keys named.now.blocks)) }
    {
        let last = last_entries(alloc, &self.sealed, n)?;
        are_left(alloc, device, named, &last)
    }
}

fn are_left<D: Device>(
    alloc: Global,
    device: &mut D,
    named: &NamedBlocks,
    last: &BTreeMap<u64, &Op>,
) -> Result<bool, JournalError>
    ensures { IfOk result (λ right. D.honest device.new → IsTrue right ↔
        All (IsLeft (entry_in last.now) (keys named.now.directs) (D.state device.old).shape.block_size (reading (D.state device.old).disk Home)) (keys named.now.blocks)) }
{
    for block in &named.blocks {
        if !is_left(alloc, device, *block, named, last)? {
            return Ok(false);
        }
    }
    Ok(true)
}

fn is_left<D: Device>(
    alloc: Global,
    device: &mut D,
    block: u64,
    named: &NamedBlocks,
    last: &BTreeMap<u64, &Op>,
) -> Result<bool, JournalError>
    ensures right { IfOk result (λ right. D.honest device.new → IsTrue right ↔
        IsLeft (entry_in last.now) (keys named.now.directs) (D.state device.old).shape.block_size (reading (D.state device.old).disk Home) block) }
    ensures device { OnlyReads D.state D.honest device.old device.new }
{
    let home = read_block(alloc, device, Area::Home, block)?;
    Ok(are_bytes_left(last, named, block, home.bytes()))
}

fn are_bytes_left(last: &BTreeMap<u64, &Op>, named: &NamedBlocks, block: u64, bytes: &[u8]) -> bool
    ensures { IsTrue result ↔ IsLeftBy (entry_in last.now block) (Contains (keys named.now.directs) block) (length bytes.now) bytes.now }
{
    match last.get(&block) {
        Some(op) => are_left_by(op, named, block, bytes),
        None => are_untouched(named, block, bytes),
    }
}

fn are_left_by(op: &Op, named: &NamedBlocks, block: u64, bytes: &[u8]) -> bool
    ensures { IsTrue result ↔ IsLeftBy (entry_of op.now) (Contains (keys named.now.directs) block) (length bytes.now) bytes.now }
{
    match op {
        Op::Write(written) => written.bytes() == bytes,
        Op::Revoke => true,
        Op::Read(_) => are_untouched(named, block, bytes),
    }
}

/// Whether a block without an entry may have these bytes: zeros, unless a direct write names it.
fn are_untouched(named: &NamedBlocks, block: u64, bytes: &[u8]) -> bool
    ensures { IsTrue result ↔ IsLeftBy None (Contains (keys named.now.directs) block) (length bytes.now) bytes.now }
{
    named.is_direct(block) || are_zeros(bytes)
}

fn are_zeros(bytes: &[u8]) -> bool
    ensures { IsTrue result ↔ (bytes.now ≡ replicate (length bytes.now) 0) }
{
    bytes.iter().all(|byte| *byte == 0)
}

/// Whether `count` transactions from `first` on leave as many numbers as the longest log has blocks.
fn are_left_behind(first: Tid, count: usize) -> bool
    ensures { IsTrue result ↔ (first + count + greatest_length + 1 < greatest_number) }
{
    u64::from(first.0)
        .saturating_add(count as u64)
        .saturating_add(u64::from(GREATEST_LENGTH) + 1)
        < u64::from(GREATEST_NUMBER)
}
