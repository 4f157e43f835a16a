//! A transaction until its seal: its number, its handles, their steps, and the entries that these leave. While its predecessor is being
//! committed, it keeps that one's entries too.
ghost use Rattle.std.specs.Prelude.{◌≡◌, ◌+◌, ◌-◌, ◌<◌, ◌^◌, ◌++◌, ◌∷◌, ◌↔◌, [], true, false, IsTrue, length, nat_eq, vec_capacity, IfErr, IfOk, None, OnOk, Some};
ghost use Rattle.std.specs.Map.{lookup};
ghost use Rattle.std.specs.Option.{option_copied};
ghost use Rattle.journal_model.specs.declared.refusal.JournalError.TheVariants.{Memory};
ghost use Rattle.journal_model.specs.Transaction.{copied, effect, entries, entry_of, later, revoked};
ghost use Rattle.journal_front.specs.Transaction.{LacksCredit, MayTouch, TouchRefused, Touches, batch_of, begun, cost, finishing, joined_by, locking, noting, reserving, revoke_step, touch_of, write_step};

use crate::known::KnownTransaction;
use crate::record::Record;
use frozen_copy::VersionCache;
use journal_model::{
    Batch, Block, BlockNo, Entry, HandleNo, Items, JournalError, Op, Sealed, Step, Tid,
};
use std::alloc::Global;
use std::marker::{Model, PhantomData};

/// Whether a write or revoke of a block is its first touch in the transaction.
/// Source: journalling.rst (the credits of `journal_start`).
#[derive(Clone, Copy, Debug, PartialEq, Eq)]
pub enum Touch {
    /// It adds an entry, and costs its handle one credit.
    First,
    /// It changes the block's entry in place, and costs nothing.
    Later,
}

impl Touch {
    /// The credits that it costs: 1 or 0.
    pub fn cost(self) -> u64
        ensures { result ≡ cost self }
    {
        match self {
            Touch::First => 1,
            Touch::Later => 0,
        }
    }
}

/// A transaction that is not sealed.
///
/// A refused call changes nothing. If `R` keeps no data, it holds one copy for each block that it touches and none of the steps: a
/// later write drops the earlier bytes.
#[derive(Drop)]
pub struct Transaction<R: Record> {
    alloc: Global,
    known: KnownTransaction,
    /// In the order of their joins; none if the record keeps no data.
    handles: Items<HandleNo>,
    /// In order; none if the record keeps no data.
    steps: Vec<Step>,
    joined: bool,
    /// Its entries in the order of first touches, and its predecessor's while that is being committed.
    versions: VersionCache,
    locked: bool,
    /// There is room for one more step.
    reserved: bool,
    of: PhantomData<R>,
}

impl<R: Record> Model for Transaction<R> {
    ghost use Rattle.journal_front.specs.Transaction.{OpenTransaction};

    ghost Value = { OpenTransaction };

    ghost use Rattle.journal_front.specs.TransactionView.{KeepsTransaction, transaction_of};

    ghost view = { transaction_of };

    ghost invariant = { KeepsTransaction R.KEEPS };
}

/// Makes room for one more step, if the record keeps data.
fn room_for_step<R: Record>(steps: &mut Vec<Step>) -> Result<(), JournalError>
    ensures room { OnOk result (R.KEEPS ≡ true → length steps.new.items < vec_capacity steps.new) }
    ensures same { steps.new.items ≡ steps.old.items }
    ensures kept { length steps.old.items < vec_capacity steps.old → length steps.new.items < vec_capacity steps.new }
    ensures err { IfErr result (λ e. e ≡ Memory) }
{
    if R::KEEPS {
        steps.try_reserve(1)?;
    }
    Ok(())
}

/// Keeps a step if the record keeps data; else drops it.
fn keep_step<R: Record>(steps: &mut Vec<Step>, step: Step)
    requires { R.KEEPS ≡ true → length steps.old.items < vec_capacity steps.old }
    ensures kept { R.KEEPS ≡ true → steps.new.items ≡ steps.old.items ++ step ∷ [] }
    ensures dropped { R.KEEPS ≡ false → steps.new.items ≡ steps.old.items }
{
    if R::KEEPS {
        steps.push_reserved(step);
    }
}

impl<R: Record> Transaction<R> {
    /// A running transaction of this number, without handles. It takes no memory.
    pub fn new(alloc: Global, tid: Tid) -> Self
        ensures { result ≡ begun tid [] }
    {
        Transaction {
            alloc,
            known: KnownTransaction::new(tid),
            handles: Items::new(alloc),
            steps: Vec::new(alloc),
            joined: false,
            versions: VersionCache::new(alloc),
            locked: false,
            reserved: false,
            of: PhantomData,
        }
    }

    /// Its number.
    pub fn tid(&self) -> Tid
        ensures { result ≡ self.now.transaction.tid }
    {
        self.known.tid()
    }

    /// Whether a handle has joined it.
    pub fn is_joined(&self) -> bool
        ensures { IsTrue result ↔ (0 < length self.now.transaction.handles) }
    {
        self.joined
    }

    /// Whether it is locked.
    pub fn is_locked(&self) -> bool
        ensures { result ≡ self.now.locked }
    {
        self.locked
    }

    /// How many blocks its steps touch: the credits paid for them.
    pub fn len(&self) -> usize
        ensures { result ≡ length (entries self.now.transaction.steps) }
    {
        self.versions.running().len()
    }

    /// How many of its entries are copies, and how many revokes. It visits each entry.
    pub fn counts(&self) -> (usize, usize)
        ensures copies { result.0 ≡ length (copied (entries self.now.transaction.steps)) }
        ensures revokes { result.1 ≡ length (revoked (entries self.now.transaction.steps)) }
    {
        let entries = self.versions.running();
        let all = entries.len();
        let mut copies = 0;
        for (_, entry) in entries.iter() {
            if let Entry::Copy(_) = entry {
                copies += 1;
            }
        }
        (copies, all - copies)
    }

    /// The block's entry, which its last write or revoke leaves.
    pub fn get(&self, block: BlockNo) -> Option<&Entry>
        ensures { option_copied result ≡ effect block self.now.transaction.steps }
    {
        self.versions.running().get(&block)
    }

    /// The block's newer entry: its own, else its predecessor's while that is being committed.
    pub fn newest(&self, block: BlockNo) -> Option<&Entry>
        ensures { option_copied result ≡ later (lookup (nat_eq block) self.now.committing) (effect block self.now.transaction.steps) }
    {
        self.versions.get(block)
    }

    /// Whether a touch of the block would be its first.
    pub fn touch(&self, block: BlockNo) -> Touch
        ensures { result ≡ touch_of (effect block self.now.transaction.steps) }
    {
        match self.get(block) {
            None => Touch::First,
            Some(_) => Touch::Later,
        }
    }

    /// Adds a handle to an unlocked transaction.
    ///
    /// # Errors
    ///
    /// `Memory`: the handle has not joined.
    pub fn join(&mut self, handle: HandleNo) -> Result<(), JournalError>
        requires { self.old.locked ≡ false }
        ensures ok { OnOk result (self.new ≡ joined_by self.old handle) }
        ensures err { IfErr result (λ e. (e ≡ Memory) × (self.new ≡ self.old)) }
    {
        if R::KEEPS {
            self.handles.push(handle)?;
        }
        self.known.join(handle);
        self.joined = true;
        Ok(())
    }

    /// Locks it if a handle has joined it: it takes no further ones.
    /// Source: fs/jbd2/commit.c (T_LOCKED).
    pub fn lock(&mut self)
        ensures joined { 0 < length self.old.transaction.handles → self.new ≡ locking self.old }
        ensures empty { length self.old.transaction.handles ≡ 0 → self.new ≡ self.old }
    {
        if self.joined {
            self.locked = true;
        }
    }

    /// Makes room for one call of `register`.
    ///
    /// # Errors
    ///
    /// `Memory`: nothing changes.
    pub fn reserve(&mut self) -> Result<(), JournalError>
        ensures ok { OnOk result (self.new ≡ reserving self.old) }
        ensures err { IfErr result (λ e. (e ≡ Memory) × (self.new ≡ self.old)) }
    {
        room_for_step::<R>(&mut self.steps)?;
        self.reserved = true;
        Ok(())
    }

    /// Adds a step that touches no block; `reserve` made room for it.
    pub fn register(&mut self, step: Step)
        requires room { self.old.reserved ≡ true }
        requires untouched { entry_of step.op ≡ None }
        ensures { self.new ≡ noting self.old step }
    {
        self.reserved = false;
        self.known.register(&step);
        keep_step::<R>(&mut self.steps, step);
    }

    /// Adds a step that leaves this entry, and is paid for. The list of steps grows first, so that nothing changes if the entry has no
    /// room.
    fn register_touch(&mut self, step: Step, entry: Entry) -> Result<(), JournalError>
        requires { entry_of step.op ≡ Some entry }
        ensures ok { OnOk result (self.new ≡ noting self.old step) }
        ensures err { IfErr result (λ e. (e ≡ Memory) × (self.new ≡ self.old)) }
    {
        room_for_step::<R>(&mut self.steps)?;
        self.versions.write(step.block, entry)?;
        self.reserved = false;
        self.known.register(&step);
        keep_step::<R>(&mut self.steps, step);
        Ok(())
    }

    /// Which touch this would be, if `left` credits allow it.
    fn paid_touch(&self, left: u64, block: BlockNo) -> Result<Touch, JournalError>
        ensures ok { IfOk result (λ touch. MayTouch self.now left block touch) }
        ensures err { IfErr result (λ e. LacksCredit self.now left block e) }
    {
        let touch = self.touch(block);
        if touch.cost() > left {
            return Err(JournalError::NoCredit);
        }
        Ok(touch)
    }

    /// Writes one block for a handle with `left` credits, and answers which touch this is.
    ///
    /// # Errors
    ///
    /// Nothing changes. `NoCredit` at a first touch without a credit; else `Memory`.
    /// Source: journalling.rst (`journal_get_write_access`, `journal_dirty_metadata`).
    pub fn touch_write(
        &mut self,
        handle: HandleNo,
        left: u64,
        block: BlockNo,
        bytes: &[u8],
    ) -> Result<Touch, JournalError>
        ensures ok { IfOk result (λ touch. Touches self.old left (write_step handle block bytes.now) touch self.new) }
        ensures err { IfErr result (λ e. TouchRefused self.old left block e × (self.new ≡ self.old)) }
    {
        let touch = self.paid_touch(left, block)?;
        let copy = Block::copy_of(self.alloc, bytes)?;
        let op = Op::Write(copy.try_clone()?);
        self.register_touch(Step { handle, block, op }, Entry::Copy(copy))?;
        Ok(touch)
    }

    /// Revokes a block for a handle with `left` credits, and answers which touch this is. If the block's entry is a revoke already, no
    /// entry changes.
    ///
    /// # Errors
    ///
    /// Those of `touch_write`; nothing changes.
    /// Source: journalling.rst (`journal_revoke`), fs/jbd2/revoke.c by behaviour.
    pub fn touch_revoke(
        &mut self,
        handle: HandleNo,
        left: u64,
        block: BlockNo,
    ) -> Result<Touch, JournalError>
        ensures ok { IfOk result (λ touch. Touches self.old left (revoke_step handle block) touch self.new) }
        ensures err { IfErr result (λ e. TouchRefused self.old left block e × (self.new ≡ self.old)) }
    {
        let touch = self.paid_touch(left, block)?;
        let op = Op::Revoke;
        self.register_touch(Step { handle, block, op }, Entry::Revoke)?;
        Ok(touch)
    }

    /// A copy of its entries, to be written to the log. The transaction stays, as the batch may still be refused. It makes one request
    /// for memory, however many they are.
    ///
    /// # Errors
    ///
    /// `Memory`.
    pub fn batch(&self) -> Result<Batch, JournalError>
        ensures ok { IfOk result (λ batch. batch ≡ batch_of self.now.transaction) }
        ensures err { IfErr result (λ e. e ≡ Memory) }
    {
        let versions = self.versions.running();
        let room = Vec::with_capacity(self.alloc, versions.len())?;
        let mut entries = Items::from_vec(room);
        for (block, entry) in versions.iter() {
            entries.push((*block, entry.try_clone()?))?;
        }
        Ok(Batch {
            tid: self.known.tid(),
            entries,
        })
    }

    /// Seals it: `into` records it, and the next transaction begins in its place, keeping these entries as its predecessor's. It must
    /// be locked, its predecessor finished, a next number left, and the record must have room. It takes no memory and can't be refused.
    pub fn seal(&mut self, into: &mut R)
        requires locked { self.old.locked ≡ true }
        requires number { self.old.transaction.tid < 2 ^ 32 - 1 }
        requires finished { self.old.committing ≡ [] }
        requires room { R.has_room into.old }
        ensures sealed { R.transactions into.new ≡ R.transactions into.old ++ self.old.transaction ∷ [] }
        ensures next { self.new ≡ begun (self.old.transaction.tid + 1) (entries self.old.transaction.steps) }
    {
        let tid = self.known.tid();
        let known = std::mem::replace(&mut self.known, KnownTransaction::new(Tid(tid.0 + 1)));
        let handles = std::mem::replace(&mut self.handles, Items::new(self.alloc));
        let steps = std::mem::replace(&mut self.steps, Vec::new(self.alloc));
        self.joined = false;
        self.versions.seal();
        self.locked = false;
        self.reserved = false;
        let steps = Items::from_vec(steps);
        into.register(
            &known,
            Sealed {
                tid,
                handles,
                steps,
            },
        );
    }

    /// Drops its predecessor's entries, as that is finished.
    pub fn finish(&mut self)
        ensures { self.new ≡ finishing self.old }
    {
        self.versions.finish();
    }
}
