//! What an engine keeps apart from its device.
ghost use Rattle.std.specs.Prelude.{◌≡◌, ◌+◌, ◌<◌, ◌≤◌, ◌↔◌, IsTrue, if◌then◌else◌, is_some, length, slice_index_or, IfErr, IfSome, OnErr, OnOk};
ghost use Rattle.journal_model.specs.Transaction.{copied, revoked};
ghost use Rattle.log_model.specs.Room.{need};
ghost use Rattle.journal_model.specs.Disk.{Shape};
ghost use Rattle.log_model.specs.Superblock.{least_ring, super_in};
ghost use Rattle.journal_world.specs.declared.stage.Stage.TheVariants.{Idle, Blocks, SuperblockWrite};
ghost use Rattle.journal_world.specs.Engine.{HasRoom, accepting};
ghost use Rattle.journal_world.specs.Journal.{fresh_engine};
ghost use Rattle.log_ledger.specs.Steps.{MayHandOver};
ghost use Rattle.log_ledger.specs.Ledger.{CanRunOn, HasKept, Runs, engine_of};

use checkpoint::Pending;
use journal_model::{Batch, History, LogLayout};
use journal_world::{Round, Stage};
use log_format::Super;
use log_ring::Ring;
use std::alloc::{AllocError, Global};
use std::collections::VecDeque;

/// More copies, or more revokes, fit no ring.
const MOST_OF_EITHER: u64 = 1 << 32;

/// The accepted transactions, how far they are committed and released, and what they take of the ring.
#[derive(Drop)]
pub struct Ledger {
    /// The ring, with what unreleased transactions have taken.
    pub ring: Ring,
    /// The ring position of the next transaction, or of the one being committed.
    pub start: u64,
    pub layout: LogLayout,
    pub uuid: [u8; 16],
    /// Block 0 of the log, as last written.
    pub superblock: Vec<u8>,
    /// Whether it names the log's first transaction.
    pub started: bool,
    /// The number of the first transaction since the opening.
    pub first: u32,
    /// The transactions handed over since then.
    pub accepted: History<Batch>,
    /// The accepted batches that no round has released.
    pub kept: VecDeque<Batch>,
    pub committed: usize,
    pub stage: Stage,
    /// The newest copies of committed, unreleased transactions.
    pub pending: Pending,
    pub released: usize,
    /// How many are released after the checkpoint round; without a round `released`.
    pub bound: usize,
    /// The ring position after these.
    pub bound_position: u64,
    pub round: Round,
    /// The device has failed.
    pub aborted: bool,
}

impl Ledger {
    /// The ledger of a log just opened, without transactions. It takes no memory.
    pub fn new(alloc: Global, superblock: Vec<u8>, first: u32, pending: Pending) -> Self
        requires some { 0 < (super_in superblock.items).s_first }
        requires ring { (super_in superblock.items).s_first + least_ring ≤ (super_in superblock.items).s_maxlen }
        requires long { 1024 ≤ length superblock.items }
        ensures engine { (shape : Shape) → engine_of shape result ≡ fresh_engine shape superblock.items first }
        ensures pending { result.pending ≡ pending }
        ensures head { result.ring.head ≡ 0 }
        ensures kept { HasKept result }
    {
        let fields = Super::fields(&superblock);
        let uuid = fields.s_uuid;
        Ledger {
            ring: Ring::new(fields.s_first, fields.s_maxlen),
            start: 0,
            layout: fields.layout(),
            uuid,
            superblock,
            started: false,
            first,
            accepted: History::new(),
            kept: VecDeque::new(alloc),
            committed: 0,
            stage: Stage::Idle,
            pending,
            released: 0,
            bound: 0,
            bound_position: 0,
            round: Round::Idle,
            aborted: false,
        }
    }

    /// The log blocks that the transaction needs, if as many are free; else `None`.
    pub fn room_for(&self, copies: usize, revokes: usize) -> Option<u64>
        requires can_run { CanRunOn self.now (length self.now.superblock.items) }
        requires idle { self.now.stage ≡ Idle }
        ensures blocks { IfSome result (λ n. n ≡ need self.now.layout copies revokes) }
        ensures room { IsTrue (is_some result) ↔ (self.now.start + need self.now.layout copies revokes ≤ self.now.ring.tail + self.now.ring.ring.blocks) }
    {
        if copies as u64 > MOST_OF_EITHER || revokes as u64 > MOST_OF_EITHER {
            return None;
        }
        let blocks = Ring::need(self.layout, copies as u64, revokes as u64);
        if blocks > self.ring.free() {
            return None;
        }
        Some(blocks)
    }

    /// An unreleased batch, by its place among the accepted ones.
    pub(crate) fn batch(&self, place: usize) -> &Batch
        requires kept { HasKept self.now }
        requires unreleased { self.now.released ≤ place }
        requires there { place < length self.now.accepted.items }
        ensures { result.now ≡ slice_index_or self.now.accepted.items place result.now }
    {
        &self.kept[place - self.released]
    }

    /// Reserves memory for one more batch, so that its `take` requests none; nothing else changes.
    pub fn reserve(&mut self) -> Result<(), AllocError>
        ensures engine { (shape : Shape) → engine_of shape self.new ≡ engine_of shape self.old }
        ensures ring { self.new.ring ≡ self.old.ring }
        ensures pending { self.new.pending ≡ self.old.pending }
        ensures kept { self.new.kept.items ≡ self.old.kept.items }
    {
        self.kept.reserve(1)
    }

    /// Takes a batch that needs `blocks` free log blocks; it is then to be committed. If memory runs out it comes back, and
    /// nothing changes.
    pub fn take(&mut self, batch: Batch, blocks: u64) -> Result<(), Batch>
        requires room { (shape : Shape) × Runs shape self.old × MayHandOver (engine_of shape self.old) batch × HasRoom (engine_of shape self.old) batch }
        requires blocks { blocks ≡ need self.old.layout (length (copied batch.entries)) (length (revoked batch.entries)) }
        ensures ok { OnOk result ((shape : Shape) → engine_of shape self.new ≡ accepting (engine_of shape self.old) batch) }
        ensures head { OnOk result (self.new.ring.head ≡ self.old.ring.head + blocks) }
        ensures pending { self.new.pending ≡ self.old.pending }
        ensures kept { HasKept self.new }
        ensures err { IfErr result (λ b. b ≡ batch) }
        ensures same { OnErr result (((shape : Shape) → engine_of shape self.new ≡ engine_of shape self.old) × (self.new.ring ≡ self.old.ring)) }
    {
        if self.kept.reserve(1).is_err() {
            return Err(batch);
        }
        self.accepted.push(&batch);
        self.kept.push_back_reserved(batch);
        let _never_fails = self.ring.take(blocks);
        self.stage = first_stage(self.started);
        Ok(())
    }
}

fn first_stage(started: bool) -> Stage
    ensures { result ≡ (if started then Blocks 0 else SuperblockWrite) }
{
    if started {
        Stage::Blocks(0)
    } else {
        Stage::SuperblockWrite
    }
}
