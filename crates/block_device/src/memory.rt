//! A device in memory, as the list of its calls.
ghost use Rattle.std.specs.Prelude.{◌≡◌, IfOk, map};
ghost use Rattle.block_device.specs.MemInvariant.{survives_crash, unnumbered, survivors, Forgets, Remembers};

use crate::memory_index::MemIndex;
use crate::stored::StoredBlock;
use crate::{Device, DeviceFault};
use journal_model::Area;
use std::alloc::{AllocError, Global};
use std::marker::Model;

/// An accepted write.
#[derive(Drop)]
pub struct Write {
    pub area: Area,
    /// The block's number in its area, counted from 0.
    pub block: u64,
    /// Counted from 1; 0 for a write that a crash left.
    pub number: u64,
    /// One block long.
    pub bytes: StoredBlock,
}

/// An accepted call.
#[derive(Drop)]
pub enum Call {
    Wrote(Write),
    Flushed(Area),
}

impl Call {
    /// The same call, sharing the bytes of a write. It fails as `Block::try_clone` does.
    fn try_clone(&self) -> Result<Self, AllocError>
        ensures { IfOk result (λ copy. copy ≡ self.now) }
    {
        match self {
            Call::Wrote(write) => Ok(Call::Wrote(Write {
                area: write.area,
                block: write.block,
                number: write.number,
                bytes: write.bytes.try_clone()?,
            })),
            Call::Flushed(area) => Ok(Call::Flushed(*area)),
        }
    }
}

/// A device in memory with a volatile cache. Unwritten blocks read as zeros; neither they nor writes of zeros take memory
/// for bytes.
#[derive(Drop)]
pub struct MemDevice {
    alloc: Global,
    size: usize,
    log: u64,
    home: u64,
    calls: Vec<Call>,
    index: MemIndex,
    log_flushed: u64,
    home_flushed: u64,
    writes: u64,
    faults: u64,
    calls_made: u64,
}

impl Model for MemDevice {
    ghost use Rattle.block_device.specs.Memory.{MemState};

    ghost Value = { MemState };

    ghost use Rattle.block_device.specs.MemInvariant.{mem_view, IsIndexed};

    ghost view = { mem_view };

    ghost invariant = { IsIndexed };
}

impl MemDevice {
    ghost use Rattle.std.specs.Prelude.{◌≡◌, ◌<◌, ◌+◌, ◌-◌, ◌^◌, ℕ, length, [], ◌∷◌, ◌++◌, OnOk, OnErr};
    ghost use Rattle.block_device.specs.declared.memory.Call.TheVariants.{Wrote, Flushed};
    ghost use Rattle.block_device.specs.State.{one_more_call, one_more_fault};
    ghost use Rattle.journal_model.specs.declared.number.Area.{Area};
    ghost use Rattle.journal_model.specs.Disk.{Leaves, reading};
    ghost use Rattle.block_device.specs.Memory.{state_of, writes_of, crashed};

    /// A device of `log` and `home` blocks of `size` bytes, all zeros. It takes no memory.
    pub fn new(alloc: Global, size: usize, log: u64, home: u64) -> Self
        ensures { result ≡ record { shape = record { block_size = size; log_blocks = log; home_blocks = home }; calls = []; faults = 0; calls_made = 0 } }
    {
        MemDevice {
            alloc,
            size,
            log,
            home,
            calls: Vec::new(alloc),
            index: MemIndex::new(alloc),
            log_flushed: 0,
            home_flushed: 0,
            writes: 0,
            faults: 0,
            calls_made: 0,
        }
    }

    /// An independent device with the same blocks, cache and counts.
    ///
    /// # Errors
    ///
    /// `AllocError`: memory ran out.
    pub fn try_clone(&self) -> Result<Self, AllocError>
        ensures { IfOk result (λ copy. copy ≡ self.now) }
    {
        let calls = copy_of_calls(self.alloc, &self.calls)?;
        let index = self.index.try_clone()?;
        Ok(MemDevice {
            alloc: self.alloc,
            size: self.size,
            log: self.log,
            home: self.home,
            calls,
            index,
            log_flushed: self.log_flushed,
            home_flushed: self.home_flushed,
            writes: self.writes,
            faults: self.faults,
            calls_made: self.calls_made,
        })
    }

    /// The number of the last write since the device was made or crashed, or 0.
    pub fn writes(&self) -> u64
        ensures { result ≡ writes_of self.now.calls }
    {
        self.writes
    }

    /// Crashes the device, without memory. Each block keeps its unflushed write with the greatest number in `keep`, else
    /// its flushed content. Later writes are numbered from 1 again.
    pub fn crash(self, keep: &[u64]) -> Self
        ensures image { (a : Area) (n : ℕ) → (state_of result).disk a n ≡ record { reads = crashed keep.now self a n; others = [] } }
        ensures allowed { Leaves (state_of self).disk (reading (state_of result).disk) }
        ensures fresh { (state_of result).past ≡ [] }
        ensures numbers { writes_of result.calls ≡ 0 }
        ensures shape { result.shape ≡ self.shape }
        ensures faults { result.faults ≡ self.faults }
        ensures calls { result.calls_made ≡ self.calls_made }
    {
        let MemDevice {
            alloc,
            size,
            log,
            home,
            mut calls,
            mut index,
            log_flushed,
            home_flushed,
            writes: _,
            faults,
            calls_made,
        } = self;
        forget(&calls, &mut index);
        keep_survivors(&mut calls, keep, log_flushed, home_flushed);
        remember(&calls, &mut index);
        MemDevice {
            alloc,
            size,
            log,
            home,
            calls,
            index,
            log_flushed: 0,
            home_flushed: 0,
            writes: 0,
            faults,
            calls_made,
        }
    }

    fn count_call(&mut self)
        ensures { self.new ≡ record self.old { calls_made = one_more_call self.old.calls_made } }
    {
        self.calls_made = self.calls_made.saturating_add(1);
    }

    fn fault(&mut self) -> DeviceFault
        ensures { self.new ≡ record self.old { faults = one_more_fault self.old.faults } }
    {
        self.faults = self.faults.saturating_add(1);
        DeviceFault
    }

    /// If memory runs out, nothing changes.
    fn note_write(&mut self, area: Area, block: u64, bytes: &[u8]) -> Result<(), AllocError>
        requires size { length bytes.now ≡ self.old.shape.block_size }
        requires number { writes_of self.old.calls < 2 ^ 64 - 1 }
        ensures ok { OnOk result (self.new ≡ record self.old {
          calls = self.old.calls
              ++ Wrote (record { area = area; block = block; number = writes_of self.old.calls + 1; bytes = bytes.now }) ∷ [];
        }) }
        ensures err { OnErr result (self.new ≡ self.old) }
    {
        let bytes = StoredBlock::copy_of(self.alloc, bytes)?;
        self.calls.try_reserve(1)?;
        self.index.note(area, block, self.calls.len())?;
        self.writes += 1;
        self.calls.push_reserved(Call::Wrote(Write {
            area,
            block,
            number: self.writes,
            bytes,
        }));
        Ok(())
    }

    /// If memory runs out, nothing changes.
    fn note_flush(&mut self, area: Area) -> Result<(), AllocError>
        ensures ok { OnOk result (self.new ≡ record self.old { calls = self.old.calls ++ Flushed area ∷ [] }) }
        ensures err { OnErr result (self.new ≡ self.old) }
    {
        self.calls.push(Call::Flushed(area))?;
        match area {
            Area::Log => self.log_flushed = self.writes,
            Area::Home => self.home_flushed = self.writes,
        }
        Ok(())
    }
}

impl Device for MemDevice {
    ghost use Rattle.std.specs.Prelude.{◌≡◌, ◌<◌, ◌+◌, ◌-◌, ◌^◌, length, [], ◌∷◌, ◌++◌, IsOk, IsErr, OnOk, OnErr};
    ghost use Rattle.journal_model.specs.Disk.{written, flushed};
    ghost use Rattle.block_device.specs.declared.memory.Call.TheVariants.{Wrote, Flushed};
    ghost use Rattle.block_device.specs.Memory.{state_of, writes_of};
    ghost use Rattle.block_device.specs.State.{blocks_in, one_more_call, one_more_fault, CountsCall, CountsFaults, HoldsWholeBlocks, Stays, Moves, Writes};

    ghost state = { λ d. state_of d };

    ghost honest = { λ _. Unit {0} };

    fn read(&mut self, area: Area, n: u64, into: &mut [u8]) -> Result<(), DeviceFault>
        requires block { length into.old ≡ self.old.shape.block_size }
        requires there { n < blocks_in self.old.shape area }
        ensures bytes { OnOk result (Unit {0} → into.new ≡ ((state_of self.old).disk area n).reads) }
        ensures stays { Stays (state_of self.old) (state_of self.new) }
        ensures faults { CountsFaults result (state_of self.old) (state_of self.new) }
        ensures calls { CountsCall (state_of self.old) (state_of self.new) }
        ensures honest { Unit {0} → Unit {0} }

        // It takes no memory, so it never fails.
        ensures read { IsOk result × (self.new ≡ record self.old { calls_made = one_more_call self.old.calls_made }) }
    {
        match self.index.newest(area, n) {
            Some(i) => match &self.calls[i] {
                Call::Wrote(write) => write.bytes.copy_to(into),
                Call::Flushed(_) => unreachable!(),
            },
            None => into.fill(0),
        }
        self.count_call();
        Ok(())
    }

    fn write(&mut self, area: Area, n: u64, bytes: &[u8]) -> Result<(), DeviceFault>
        requires block { length bytes.now ≡ self.old.shape.block_size }
        requires there { n < blocks_in self.old.shape area }
        ensures ok { OnOk result (Moves (state_of self.old) (state_of self.new) (written (state_of self.old).disk area n bytes.now)) }
        ensures writes { Writes (state_of self.old) (state_of self.new) area n bytes.now }
        ensures faults { CountsFaults result (state_of self.old) (state_of self.new) }
        ensures calls { CountsCall (state_of self.old) (state_of self.new) }
        ensures honest { Unit {0} → Unit {0} }

        // An accepted write has the next number; a refused one changes only the counts.
        ensures taken { OnOk result (self.new ≡ record self.old {
          calls = self.old.calls
              ++ Wrote (record { area = area; block = n; number = writes_of self.old.calls + 1; bytes = bytes.now }) ∷ [];
          calls_made = one_more_call self.old.calls_made;
        }) }
        ensures refused { OnErr result (self.new ≡ record self.old {
          faults = one_more_fault self.old.faults;
          calls_made = one_more_call self.old.calls_made;
        }) }
        // No number is left.
        ensures full { writes_of self.old.calls ≡ 2 ^ 64 - 1 → IsErr result }
    {
        self.count_call();
        if self.writes == u64::MAX {
            return Err(self.fault());
        }
        match self.note_write(area, n, bytes) {
            Ok(()) => Ok(()),
            Err(_) => Err(self.fault()),
        }
    }

    fn flush(&mut self, area: Area) -> Result<(), DeviceFault>
        ensures ok { OnOk result (Moves (state_of self.old) (state_of self.new) (flushed (state_of self.old).disk area)) }
        ensures err { OnErr result (Stays (state_of self.old) (state_of self.new)) }
        ensures faults { CountsFaults result (state_of self.old) (state_of self.new) }
        ensures calls { CountsCall (state_of self.old) (state_of self.new) }
        ensures honest { Unit {0} → Unit {0} }

        ensures taken { OnOk result (self.new ≡ record self.old {
          calls = self.old.calls ++ Flushed area ∷ [];
          calls_made = one_more_call self.old.calls_made;
        }) }
        ensures refused { OnErr result (self.new ≡ record self.old {
          faults = one_more_fault self.old.faults;
          calls_made = one_more_call self.old.calls_made;
        }) }
    {
        self.count_call();
        match self.note_flush(area) {
            Ok(()) => Ok(()),
            Err(_) => Err(self.fault()),
        }
    }

    fn blocks(&self, area: Area) -> u64 {
        match area {
            Area::Log => self.log,
            Area::Home => self.home,
        }
    }

    fn block_size(&self) -> usize {
        self.size
    }
}

fn copy_of_calls(alloc: Global, calls: &[Call]) -> Result<Vec<Call>, AllocError>
    ensures { IfOk result (λ copies. copies.items ≡ calls.now) }
{
    let mut copies = Vec::new(alloc);
    for call in calls {
        copies.push(call.try_clone()?)?;
    }
    Ok(copies)
}

/// Whether a call is a write that was flushed, or is kept.
fn survives(call: &Call, keep: &[u64], log_flushed: u64, home_flushed: u64) -> bool
    ensures { result ≡ survives_crash keep.now log_flushed home_flushed call.now }
{
    match call {
        Call::Flushed(_) => false,
        Call::Wrote(write) => {
            let flushed = match write.area {
                Area::Log => log_flushed,
                Area::Home => home_flushed,
            };
            write.number <= flushed || keep.contains(&write.number)
        }
    }
}

/// Notes the written blocks as unwritten.
fn forget(calls: &[Call], index: &mut MemIndex)
    ensures { Forgets calls.now index.old index.new }
{
    for call in calls {
        if let Call::Wrote(write) = call {
            index.reset(write.area, write.block, None);
        }
    }
}

/// Keeps the writes that survive a crash, without their numbers.
fn keep_survivors(calls: &mut Vec<Call>, keep: &[u64], log_flushed: u64, home_flushed: u64)
    ensures { calls.new.items ≡ survivors keep.now log_flushed home_flushed calls.old.items }
{
    calls.retain(|call| survives(call, keep, log_flushed, home_flushed));
    drop_numbers(calls);
}

/// Takes the numbers from the writes.
fn drop_numbers(calls: &mut [Call])
    ensures { calls.new ≡ map unnumbered calls.old }
{
    for call in calls.iter_mut() {
        if let Call::Wrote(write) = call {
            write.number = 0;
        }
    }
}

/// Notes for each written block its last call.
fn remember(calls: &[Call], index: &mut MemIndex)
    ensures { Remembers calls.now index.old index.new }
{
    for (i, call) in calls.iter().enumerate() {
        if let Call::Wrote(write) = call {
            index.reset(write.area, write.block, Some(i));
        }
    }
}
