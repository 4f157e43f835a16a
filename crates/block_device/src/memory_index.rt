//! Which write of each block of a device in memory is the newest.
ghost use Rattle.std.specs.Prelude.{◌≡◌, ℕ, ◌==◌, if◌then◌else◌, Some, None, option_map, IfOk, OnOk, OnErr};
ghost use Rattle.std.specs.Ordering.{nat_cmp};
ghost use Rattle.std.specs.BTreeMap.{get};
ghost use Rattle.journal_model.specs.declared.number.Area.{Area};

use journal_model::Area;
use std::alloc::{AllocError, Global};
use std::collections::BTreeMap;

/// The place of each block's newest write in the list of calls.
#[derive(Drop)]
pub struct MemIndex {
    log: BTreeMap<u64, Option<usize>>,
    home: BTreeMap<u64, Option<usize>>,
}

impl MemIndex {
    ghost use Rattle.block_device.specs.MemIndex.{noted_in, newest_in, NotesOnly, NotesSame};

    /// An empty index. It takes no memory.
    pub fn new(alloc: Global) -> Self
        ensures { (a : Area) (n : ℕ) → noted_in result a n ≡ None }
    {
        MemIndex {
            log: BTreeMap::new(alloc),
            home: BTreeMap::new(alloc),
        }
    }

    /// The same notes once more. It fails if memory runs out.
    pub fn try_clone(&self) -> Result<Self, AllocError>
        ensures { IfOk result (λ copy. NotesSame self.now copy) }
    {
        Ok(MemIndex {
            log: self.log.clone()?,
            home: self.home.clone()?,
        })
    }

    pub fn newest(&self, area: Area, block: u64) -> Option<usize>
        ensures { result ≡ newest_in self.now area block }
    {
        match area {
            Area::Log => self.log.get(&block).copied().unwrap_or(None),
            Area::Home => self.home.get(&block).copied().unwrap_or(None),
        }
    }

    /// If memory runs out, nothing changes.
    pub fn note(&mut self, area: Area, block: u64, call: usize) -> Result<(), AllocError>
        ensures ok { OnOk result (NotesOnly self.old self.new area block (λ _. Some (Some call))) }
        ensures err { OnErr result (NotesSame self.old self.new) }
    {
        match area {
            Area::Log => self.log.insert(block, Some(call))?,
            Area::Home => self.home.insert(block, Some(call))?,
        };
        Ok(())
    }

    /// Changes the note of a block that has one, without memory.
    pub fn reset(&mut self, area: Area, block: u64, call: Option<usize>)
        ensures { NotesOnly self.old self.new area block (option_map (λ _. call)) }
    {
        match area {
            Area::Log => reset_in(&mut self.log, block, call),
            Area::Home => reset_in(&mut self.home, block, call),
        }
    }
}

/// Sets the value of a key that is there.
fn reset_in(map: &mut BTreeMap<u64, Option<usize>>, key: u64, value: Option<usize>)
    ensures { (k : ℕ) → get nat_cmp map.new k ≡ (if k == key then option_map (λ _. value) (get nat_cmp map.old k) else get nat_cmp map.old k) }
{
    if let Some(slot) = map.get_mut(&key) {
        *slot = value;
    }
}
