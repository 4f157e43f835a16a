//! The front: the running transaction, its open handles, the credits and the sealed transactions. It calls no other part.
ghost use Rattle.std.specs.Prelude.{◌≡◌, ◌+◌, ◌-◌, ◌<◌, ◌≤◌, ◌↔◌, nat_eq, true, false, [], IsTrue, length, None, OnOk, IfOk, IfErr, Some};
ghost use Rattle.std.specs.Map.{lookup};
ghost use Rattle.std.specs.Option.{option_copied};
ghost use Rattle.journal_model.specs.declared.refusal.JournalError.TheVariants.{Aborted, Memory};
ghost use Rattle.journal_model.specs.Layout.{IsLayout};
ghost use Rattle.log_model.specs.Opening.{greatest_number};
ghost use Rattle.journal_model.specs.Transaction.{copied, entries, last_effect, revoked};
ghost use Rattle.journal_world.specs.Front.{FrontHappens, IsOpen, IsUntouched, aborting, finishing, fresh_front, held, next_handle, reading_block, sealing, unfinished};
ghost use Rattle.journal_world.specs.Front.FrontEvent.{ExtendHandle, GiveBack, Join, Lock, Raise, Reserve, RevokeBlock, StopHandle, WriteBlock};
ghost use Rattle.journal_world.specs.Journal.{batch_of};
ghost use Rattle.journal_front.specs.Front.{ExtendRefused, IsKeptOut, IsOpenHandle, JoinRefused, MayExtend, MayStep, MayTouch, RequestsCommit, ReserveRefused, Spends, StopsOne, TouchRefused};

use crate::Transaction;
use crate::handle::{Credits, Handle};
use crate::record::Record;
use indexmap::IndexMap;
use journal_model::layout::GREATEST_NUMBER;
use journal_model::{
    Batch, Block, BlockNo, Entry, HandleNo, JournalError, LogLayout, Op, Step, Tid,
};
use std::alloc::Global;
use std::marker::Model;

/// The front of a journal. It alone makes credits and handles, and takes only its own. Its owner can seal its transaction and
/// acknowledge commits.
#[derive(Drop)]
pub struct Front<R: Record> {
    alloc: Global,
    layout: LogLayout,
    home_blocks: u64,
    capacity: u64,
    /// Credits held: in no handle yet, unused in open handles, and one for each entry.
    held: u64,
    /// Credits in no handle yet.
    reserved: u64,
    /// The last transaction known to be committed.
    finished: u32,
    /// The last transaction acknowledged as committed.
    mark: u32,
    sealed: R,
    /// It also keeps the last sealed transaction's entries until that is finished.
    running: Transaction<R>,
    /// In the order of their joins, each with its unused credits.
    open_handles: IndexMap<HandleNo, u64>,
    /// How many handle numbers were given out.
    given: u64,
    aborted: bool,
}

impl<R: Record> Model for Front<R> {
    ghost use Rattle.journal_world.specs.Front.{Front as FrontValue};

    ghost Value = { FrontValue };

    ghost use Rattle.journal_front.specs.FrontView.{front_of, KeepsFront};

    ghost view = { front_of R.transactions };

    ghost invariant = { KeepsFront R.transactions R.has_room };
}

impl<R: Record> Front<R> {
    /// The front of a journal whose first transaction has the number `first`. It takes no memory.
    pub fn new(
        alloc: Global,
        layout: LogLayout,
        home_blocks: u64,
        capacity: u64,
        first: Tid,
    ) -> Self
        requires layout { IsLayout layout }
        requires some { 0 < first }
        requires number { first ≤ greatest_number }
        ensures { result ≡ fresh_front layout home_blocks capacity first }
    {
        Front {
            alloc,
            layout,
            home_blocks,
            capacity,
            held: 0,
            reserved: 0,
            finished: first.0 - 1,
            mark: first.0 - 1,
            sealed: R::new(alloc),
            running: Transaction::new(alloc, first),
            open_handles: IndexMap::new(alloc),
            given: 0,
            aborted: false,
        }
    }

    /// The most credits that can be held at once.
    pub fn capacity(&self) -> u64
        ensures { result ≡ self.now.capacity }
    {
        self.capacity
    }

    /// How many credits are held.
    pub fn held(&self) -> u64
        ensures { result ≡ held self.now }
    {
        self.held
    }

    /// Grants `n` credits. It answers `TooMany` if one transaction can never have so many, `Full` if the credits held leave fewer.
    pub fn reserve(&mut self, n: u64) -> Result<Credits, JournalError>
        ensures ok { IfOk result (λ credits. (credits ≡ n) × FrontHappens self.old (Reserve n) self.new) }
        ensures err { IfErr result (λ e. ReserveRefused self.old n e × (self.new ≡ self.old)) }
    {
        if n > self.capacity {
            return Err(JournalError::TooMany);
        }
        if n > self.capacity.saturating_sub(self.held) {
            return Err(JournalError::Full);
        }
        self.held += n;
        self.reserved += n;
        Ok(Credits::new(n))
    }

    /// Takes back `n` credits that are in no handle. If there are fewer, nothing changes.
    pub fn give_back(&mut self, n: u64)
        ensures granted { n ≤ self.old.reserved → FrontHappens self.old (GiveBack n) self.new }
        ensures other { self.old.reserved < n → self.new ≡ self.old }
    {
        if n <= self.reserved {
            self.held -= n;
            self.reserved -= n;
        }
    }

    /// Makes a handle with `n` of the credits in no handle.
    pub fn join(&mut self, n: u64) -> Result<Handle, JournalError>
        ensures ok { IfOk result (λ handle. FrontHappens self.old (Join n) self.new
            × (handle ≡ record { number = next_handle self.old; tid = self.old.running.tid; left = n })) }
        ensures open { IfOk result (IsOpenHandle self.new) }
        ensures err { IfErr result (λ e. JoinRefused self.old n e × (self.new ≡ self.old)) }
    {
        if self.aborted {
            return Err(JournalError::Aborted);
        }
        if self.running.is_locked() {
            return Err(JournalError::NotRunning);
        }
        let tid = self.running.tid();
        if tid.0 > GREATEST_NUMBER || self.given == u64::MAX {
            return Err(JournalError::SequenceEnd);
        }
        if n > self.reserved {
            return Err(JournalError::NoCredit);
        }
        self.sealed.make_room()?;
        self.open_handles.reserve(1)?;
        let number = HandleNo(self.given + 1);
        self.running.join(number)?;
        match self.open_handles.insert(number, n) {
            Ok(_) => {}
            Err(_) => unreachable!(),
        }
        self.reserved -= n;
        self.given += 1;
        Ok(Handle::new(number, tid, n))
    }

    /// Whether the handle is open, with the credits that it states.
    pub fn is_open(&self, handle: &Handle) -> bool
        ensures { IsTrue result ↔ IsOpenHandle self.now handle.now }
    {
        match self.open_handles.get(&handle.number()) {
            Some(left) => *left == handle.left() && self.running.tid() == handle.tid(),
            None => false,
        }
    }

    /// Whether home has this block and the log can hold its number.
    pub fn may_touch(&self, block: BlockNo) -> bool
        ensures { IsTrue result ↔ MayTouch self.now block }
    {
        block.is_allowed(self.layout, self.home_blocks)
    }

    /// Whether the front knows of a device failure.
    pub fn is_aborted(&self) -> bool
        ensures { result ≡ self.now.aborted }
    {
        self.aborted
    }

    /// Sets whether the device has failed. This call, `abort`, `seal` and `finish` are for the owner of the front's engine, with which
    /// the front must agree.
    pub fn learn(&mut self, aborted: bool)
        ensures { self.new ≡ record self.old { aborted = aborted } }
    {
        self.aborted = aborted;
    }

    /// Records that the device has failed.
    pub fn abort(&mut self)
        ensures { self.new ≡ aborting self.old }
    {
        self.aborted = true;
    }

    /// The block's last entry in the unfinished transactions: the running one's, else the sealed one's.
    pub fn newest(&self, block: BlockNo) -> Option<&Entry>
        ensures { option_copied result ≡ last_effect block (unfinished self.now) }
    {
        self.running.newest(block)
    }

    /// Whether no unfinished transaction has an entry of the block.
    pub fn is_untouched(&self, block: BlockNo) -> bool
        ensures { IsTrue result ↔ IsUntouched self.now block }
    {
        self.newest(block).is_none()
    }

    /// Whether a handle may make a step on the block; its credit for a first touch is not tested.
    ///
    /// # Errors
    ///
    /// The first of: `Aborted`, `BadBlock` (the block may not be touched), `NoCredit` (the handle is not open).
    pub fn admit(&self, handle: &Handle, block: BlockNo) -> Result<(), JournalError>
        ensures ok { OnOk result (MayStep self.now handle.now block) }
        ensures err { IfErr result (λ e. IsKeptOut self.now handle.now block e) }
    {
        if self.aborted {
            return Err(JournalError::Aborted);
        }
        if !self.may_touch(block) {
            return Err(JournalError::BadBlock);
        }
        if !self.is_open(handle) {
            return Err(JournalError::NoCredit);
        }
        Ok(())
    }

    /// Writes one block in the handle's transaction, or changes nothing. A first touch takes one credit.
    pub fn write(
        &mut self,
        handle: &mut Handle,
        block: BlockNo,
        bytes: &[u8],
    ) -> Result<(), JournalError>
        requires { length bytes.now ≡ self.old.layout.block_size }
        ensures ok { OnOk result (FrontHappens self.old (WriteBlock handle.old.number block bytes.now) self.new) }
        ensures open { OnOk result (IsOpenHandle self.old handle.old × IsOpenHandle self.new handle.new) }
        ensures spends { OnOk result (Spends self.old block handle.old handle.new) }
        ensures err { IfErr result (λ e. TouchRefused self.old handle.old block e × (self.new ≡ self.old) × (handle.new ≡ handle.old)) }
    {
        self.admit(handle, block)?;
        let touch = self
            .running
            .touch_write(handle.number(), handle.left(), block, bytes)?;
        handle.pay(touch);
        match self.open_handles.insert(handle.number(), handle.left()) {
            Ok(_) => Ok(()),
            Err(_) => unreachable!(),
        }
    }

    /// Revokes a block in the handle's transaction, or changes nothing. A first touch takes one credit.
    pub fn revoke(&mut self, handle: &mut Handle, block: BlockNo) -> Result<(), JournalError>
        ensures ok { OnOk result (FrontHappens self.old (RevokeBlock handle.old.number block) self.new) }
        ensures open { OnOk result (IsOpenHandle self.old handle.old × IsOpenHandle self.new handle.new) }
        ensures spends { OnOk result (Spends self.old block handle.old handle.new) }
        ensures err { IfErr result (λ e. TouchRefused self.old handle.old block e × (self.new ≡ self.old) × (handle.new ≡ handle.old)) }
    {
        self.admit(handle, block)?;
        let touch = self
            .running
            .touch_revoke(handle.number(), handle.left(), block)?;
        handle.pay(touch);
        match self.open_handles.insert(handle.number(), handle.left()) {
            Ok(_) => Ok(()),
            Err(_) => unreachable!(),
        }
    }

    /// Makes room for a read's step, and a buffer of one block.
    ///
    /// # Errors
    ///
    /// `Memory`: nothing changes.
    pub fn room_for_read(&mut self) -> Result<Vec<u8>, JournalError>
        ensures length { IfOk result (λ bytes. length bytes.items ≡ self.old.layout.block_size) }
        ensures same { self.new ≡ self.old }
        ensures err { IfErr result (λ e. e ≡ Memory) }
    {
        self.running.reserve()?;
        Ok(vec![in self.alloc; 0; self.layout.block_size]?)
    }

    /// Records that an open handle read these bytes of a block.
    ///
    /// # Errors
    ///
    /// `Memory`: nothing changes. After `room_for_read` one step takes no memory.
    pub fn register_read(
        &mut self,
        handle: &Handle,
        block: BlockNo,
        bytes: Block,
    ) -> Result<(), JournalError>
        requires { MayStep self.old handle.now block }
        ensures ok { OnOk result (self.new ≡ reading_block self.old handle.now.number block bytes) }
        ensures open { IsOpen self.old handle.now.number }
        ensures err { IfErr result (λ e. (e ≡ Memory) × (self.new ≡ self.old)) }
    {
        self.running.reserve()?;
        let op = Op::Read(bytes);
        let handle = handle.number();
        self.running.register(Step { handle, block, op });
        Ok(())
    }

    /// Whether an open handle may get `n` further credits.
    fn admit_more(&self, handle: &Handle, n: u64) -> Result<(), JournalError>
        ensures ok { OnOk result (MayExtend self.now handle.now n) }
        ensures err { IfErr result (λ e. ExtendRefused self.now handle.now n e) }
    {
        if self.aborted {
            Err(JournalError::Aborted)
        } else if self.is_locked() {
            Err(JournalError::NotRunning)
        } else if self.reserved < n {
            Err(JournalError::NoCredit)
        } else if self.is_open(handle) {
            Ok(())
        } else {
            Err(JournalError::NoCredit)
        }
    }

    /// Gives an open handle `n` of the credits in no handle.
    pub fn extend(&mut self, handle: &mut Handle, n: u64) -> Result<(), JournalError>
        ensures ok { OnOk result (FrontHappens self.old (ExtendHandle handle.old.number n) self.new) }
        ensures open { OnOk result (IsOpenHandle self.new handle.new) }
        ensures handle { OnOk result (handle.new ≡ record handle.old { left = handle.old.left + n }) }
        ensures err { IfErr result (λ e. ExtendRefused self.old handle.old n e × (self.new ≡ self.old) × (handle.new ≡ handle.old)) }
    {
        self.admit_more(handle, n)?;
        handle.extend(n);
        match self.open_handles.insert(handle.number(), handle.left()) {
            Ok(_) => {}
            Err(_) => unreachable!(),
        }
        self.reserved -= n;
        Ok(())
    }

    /// Stops an open handle, which has `left` unused credits.
    pub fn stop(&mut self, handle: HandleNo, left: u64)
        requires { lookup (nat_eq handle) self.old.open_handles ≡ Some left }
        ensures { FrontHappens self.old (StopHandle handle) self.new }
    {
        self.open_handles.shift_remove(&handle);
        self.held -= left;
    }

    /// Stops the open handle that joined first, whoever holds it. It returns whether one was open.
    pub fn stop_first(&mut self) -> bool
        ensures some { result ≡ true → StopsOne self.old self.new }
        ensures none { result ≡ false → (self.old.open_handles ≡ []) × (self.new ≡ self.old) }
        ensures given { self.new.given ≡ self.old.given }
        ensures running { self.new.running ≡ self.old.running }
    {
        let first = match self.open_handles.get_index(0) {
            Some((handle, left)) => Some((*handle, *left)),
            None => None,
        };
        match first {
            Some((handle, left)) => {
                self.stop(handle, left);
                true
            }
            None => false,
        }
    }

    /// Locks the running transaction if a handle has joined it: it takes no further handles.
    pub fn lock(&mut self)
        requires { self.old.aborted ≡ false }
        ensures joined { 0 < length self.old.running.handles → FrontHappens self.old Lock self.new }
        ensures empty { length self.old.running.handles ≡ 0 → self.new ≡ self.old }
    {
        self.running.lock();
    }

    /// Requests the commit of the transaction with this number: if it is running and a handle has joined it, it takes no further handles.
    ///
    /// # Errors
    ///
    /// `Aborted` after a device failure: nothing changes.
    /// Source: fs/jbd2/journal.c by behaviour (`jbd2_log_start_commit`).
    pub fn request_commit(&mut self, tid: Tid) -> Result<(), JournalError>
        ensures ok { OnOk result (RequestsCommit tid self.old self.new) }
        ensures err { IfErr result (λ e. (e ≡ Aborted) × (self.old.aborted ≡ true) × (self.new ≡ self.old)) }
    {
        if self.is_aborted() {
            return Err(JournalError::Aborted);
        }
        if tid == self.tid() {
            self.lock();
        }
        Ok(())
    }

    /// Whether the running transaction is locked.
    pub fn is_locked(&self) -> bool
        ensures { result ≡ self.now.locked }
    {
        self.running.is_locked()
    }

    /// Whether a handle has joined the running transaction.
    pub fn has_joined(&self) -> bool
        ensures { IsTrue result ↔ (0 < length self.now.running.handles) }
    {
        self.running.is_joined()
    }

    /// Whether a handle is open.
    pub fn has_open_handles(&self) -> bool
        ensures some { IsTrue result ↔ (0 < length self.now.open_handles) }
        ensures none { result ≡ false → self.now.open_handles ≡ [] }
    {
        !self.open_handles.is_empty()
    }

    /// The running transaction's number.
    pub fn tid(&self) -> Tid
        ensures { result ≡ self.now.running.tid }
    {
        self.running.tid()
    }

    /// The number of the last transaction acknowledged as committed.
    pub fn mark(&self) -> Tid
        ensures { result ≡ self.now.mark }
    {
        Tid(self.mark)
    }

    /// How many entries the running transaction has.
    pub fn entries(&self) -> usize
        ensures { result ≡ length (entries self.now.running.steps) }
    {
        self.running.len()
    }

    /// How many of them are copies, and how many revokes.
    pub fn counts(&self) -> (usize, usize)
        ensures copies { result.0 ≡ length (copied (entries self.now.running.steps)) }
        ensures revokes { result.1 ≡ length (revoked (entries self.now.running.steps)) }
    {
        self.running.counts()
    }

    /// A copy of the running transaction's entries. It fails with `Memory` only.
    pub fn batch(&self) -> Result<Batch, JournalError>
        ensures ok { IfOk result (λ batch. batch ≡ batch_of self.now.running) }
        ensures err { IfErr result (λ e. e ≡ Memory) }
    {
        self.running.batch()
    }

    /// Seals the running transaction and begins the next. Hand `batch` to the engine first.
    pub fn seal(&mut self)
        requires locked { self.old.locked ≡ true }
        requires number { self.old.running.tid ≤ greatest_number }
        requires finished { self.old.finished + 1 ≡ self.old.running.tid }
        ensures { self.new ≡ sealing self.old }
    {
        let entries = self.running.len() as u64;
        self.running.seal(&mut self.sealed);
        self.held = self.held.saturating_sub(entries);
    }

    /// Records one more commit by the engine. The mark does not rise yet.
    pub fn finish(&mut self)
        requires { self.old.finished + 1 < self.old.running.tid }
        ensures { self.new ≡ finishing self.old }
    {
        self.finished += 1;
        self.running.finish();
    }

    /// Acknowledges the transactions up to this one, which are finished. The mark never falls.
    pub fn raise(&mut self, tid: Tid)
        requires { tid ≤ self.old.finished }
        ensures { FrontHappens self.old (Raise tid) self.new }
    {
        if self.mark < tid.0 {
            self.mark = tid.0;
        }
    }

    /// The sealed transactions.
    pub fn into_sealed(self) -> R
        ensures { R.transactions result ≡ self.sealed }
    {
        let Front {
            alloc: _,
            layout: _,
            home_blocks: _,
            capacity: _,
            held: _,
            reserved: _,
            finished: _,
            mark: _,
            sealed,
            running: _,
            open_handles: _,
            given: _,
            aborted: _,
        } = self;
        sealed
    }
}
