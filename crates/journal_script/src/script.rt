//! A script's operations, and the text that begins the line of each.
ghost use Rattle.std.specs.Prelude.{ℕ, ◌≡◌, [], ◌⊎◌, ◌<◌, ◌↔◌, Contains, IfOk, IfSome, IsSome, IsTrue, OnOk, Some};
ghost use Rattle.std.specs.Fmt.{WritesOnOk};
ghost use Rattle.journal_script.specs.Line.{behind_blank};

use crate::measures::Measures;
use journal_model::BlockNo;
use std::alloc::{AllocError, Global};
use std::collections::BTreeSet;
use std::fmt;
use std::marker::Model;

/// The most operations of a script.
pub const MOST_OPERATIONS: usize = 100_000;

/// How many names of handles there are.
pub const HANDLE_NAMES: u16 = 10_000;

/// A script's own name of a handle, 0 to 9999.
#[derive(Clone, Copy)]
pub struct HandleName(u16);

impl Model for HandleName {
    ghost use Rattle.std.specs.Prelude.{ℕ};

    ghost Value = { ℕ };

    ghost view = { λ h. h.0 };

    ghost inverse = { λ n. record { 0 = n } };
}

/// One operation of a script.
#[derive(Drop)]
pub enum Operation {
    /// Starts a handle with this many credits.
    Start(HandleName, u64),
    /// Writes a home block: these bytes, then zeros.
    Write(HandleName, BlockNo, Vec<u8>),
    /// Revokes a home block: no copy so far is to come back.
    Revoke(HandleName, BlockNo),
    /// Reads a home block, as its handle's transaction sees it.
    Read(HandleName, BlockNo),
    /// Adds this many credits to a handle.
    Extend(HandleName, u64),
    /// Stops a handle, and starts one with this many credits in its place.
    Restart(HandleName, u64),
    /// Stops a handle.
    Stop(HandleName),
    /// Requests the commit of a stopped handle's transaction.
    Request(HandleName),
    /// Locks the running transaction.
    Lock,
    /// Takes one commit turn.
    Turn,
    /// Takes commit turns until nothing is left to do.
    Commit,
    /// Takes one checkpoint turn.
    CheckpointTurn,
    /// Takes checkpoint turns until every committed transaction is released.
    Check,
    /// Asks whether a stopped handle's transaction is committed.
    Status(HandleName),
    /// Takes a stopped handle's receipt, if its transaction is committed.
    Wait(HandleName),
    /// Writes a home block directly, past the log: these bytes, then zeros.
    WriteDirect(BlockNo, Vec<u8>),
    /// Makes direct writes durable.
    SyncDirect,
}

/// The blocks that a script names, whether its operations run or not.
#[derive(Drop)]
pub struct NamedBlocks {
    /// The home blocks that any operation names.
    pub blocks: BTreeSet<u64>,
    /// The blocks that direct writes name, also those that home lacks.
    pub directs: BTreeSet<u64>,
}

/// A script: its operations have the right forms, and name handles in the right state.
#[derive(Drop)]
pub struct Script {
    /// The measures of its device.
    pub measures: Measures,
    /// Its operations, in order.
    pub operations: Vec<Operation>,
}

impl HandleName {
    /// The name with this number, if it is below `HANDLE_NAMES`.
    pub fn new(number: u64) -> Option<HandleName>
        ensures name { IfSome result (λ name. name ≡ number) }
        ensures found { IsSome result ↔ (number < 10_000) }
    {
        match u16::try_from(number) {
            Ok(small) if small < HANDLE_NAMES => Some(HandleName(small)),
            _ => None,
        }
    }

    /// Its number, below `HANDLE_NAMES`.
    pub fn index(self) -> usize
        ensures { result ≡ self }
    {
        usize::from(self.0)
    }
}

impl Operation {
    ghost use Rattle.std.specs.BTreeSet.{keys};
    ghost use Rattle.journal_script.specs.Named.{block_in, direct_in};
    ghost use Rattle.journal_script.specs.Line.{handle_in, number_in, word_of};

    /// The handle that it names, if any.
    pub fn handle(&self) -> Option<HandleName>
        ensures { result ≡ handle_in self.now }
    {
        match self {
            Operation::Start(handle, _)
            | Operation::Write(handle, _, _)
            | Operation::Revoke(handle, _)
            | Operation::Read(handle, _)
            | Operation::Extend(handle, _)
            | Operation::Restart(handle, _)
            | Operation::Stop(handle)
            | Operation::Request(handle)
            | Operation::Status(handle)
            | Operation::Wait(handle) => Some(*handle),
            Operation::Lock
            | Operation::Turn
            | Operation::Commit
            | Operation::CheckpointTurn
            | Operation::Check
            | Operation::WriteDirect(..)
            | Operation::SyncDirect => None,
        }
    }

    /// The home block that it names, if any.
    pub fn block(&self) -> Option<BlockNo>
        ensures { result ≡ block_in self.now }
    {
        match self {
            Operation::Write(_, block, _)
            | Operation::Revoke(_, block)
            | Operation::Read(_, block)
            | Operation::WriteDirect(block, _) => Some(*block),
            _ => None,
        }
    }

    fn direct_block(&self) -> Option<BlockNo>
        ensures { result ≡ direct_in self.now }
    {
        match self {
            Operation::WriteDirect(block, _) => Some(*block),
            _ => None,
        }
    }

    fn note_block(&self, home_blocks: u64, named: &mut BTreeSet<u64>) -> Result<(), AllocError>
        ensures keeps { OnOk result ((b : ℕ) → Contains (keys named.old) b → Contains (keys named.new) b) }
        ensures notes { OnOk result ((b : ℕ) → block_in self.now ≡ Some b → b < home_blocks → Contains (keys named.new) b) }
    {
        match self.block() {
            Some(BlockNo(block)) if block < home_blocks => {
                named.insert(block)?;
                Ok(())
            }
            _ => Ok(()),
        }
    }

    fn note_direct(&self, directs: &mut BTreeSet<u64>) -> Result<(), AllocError>
        ensures keeps { OnOk result ((b : ℕ) → Contains (keys directs.old) b → Contains (keys directs.new) b) }
        ensures notes { OnOk result ((b : ℕ) → direct_in self.now ≡ Some b → Contains (keys directs.new) b) }
        ensures no_others { OnOk result ((b : ℕ) → Contains (keys directs.new) b → Contains (keys directs.old) b ⊎ (direct_in self.now ≡ Some b)) }
    {
        match self.direct_block() {
            Some(BlockNo(block)) => {
                directs.insert(block)?;
                Ok(())
            }
            None => Ok(()),
        }
    }

    fn word(&self) -> &'static str
        ensures { result.now ≡ word_of self.now }
    {
        match self {
            Operation::Start(..) => "start",
            Operation::Write(..) => "write",
            Operation::Revoke(..) => "revoke",
            Operation::Read(..) => "read",
            Operation::Extend(..) => "extend",
            Operation::Restart(..) => "restart",
            Operation::Stop(_) => "stop",
            Operation::Request(_) => "request",
            Operation::Lock => "lock",
            Operation::Turn => "turn",
            Operation::Commit => "commit",
            Operation::CheckpointTurn => "ckturn",
            Operation::Check => "check",
            Operation::Status(_) => "status",
            Operation::Wait(_) => "wait",
            Operation::WriteDirect(..) => "direct",
            Operation::SyncDirect => "sync",
        }
    }

    fn number(&self) -> Option<u64>
        ensures { result ≡ number_in self.now }
    {
        match self {
            Operation::Start(_, number)
            | Operation::Extend(_, number)
            | Operation::Restart(_, number)
            | Operation::Write(_, BlockNo(number), _)
            | Operation::Revoke(_, BlockNo(number))
            | Operation::Read(_, BlockNo(number))
            | Operation::WriteDirect(BlockNo(number), _) => Some(*number),
            _ => None,
        }
    }
}

impl Script {
    ghost use Rattle.journal_script.specs.Named.{AreNamedBy};

    /// The blocks that its operations name, whether these run or not.
    pub fn named_blocks(&self, alloc: Global) -> Result<NamedBlocks, AllocError>
        ensures { IfOk result (AreNamedBy self.now) }
    {
        let mut blocks = BTreeSet::new(alloc);
        let mut directs = BTreeSet::new(alloc);
        for operation in &self.operations {
            operation.note_block(self.measures.home_blocks, &mut blocks)?;
            operation.note_direct(&mut directs)?;
        }
        Ok(NamedBlocks { blocks, directs })
    }
}

impl NamedBlocks {
    ghost use Rattle.std.specs.BTreeSet.{keys};

    /// No blocks.
    pub fn none(alloc: Global) -> Self
        ensures blocks { keys result.blocks ≡ [] }
        ensures directs { keys result.directs ≡ [] }
    {
        NamedBlocks {
            blocks: BTreeSet::new(alloc),
            directs: BTreeSet::new(alloc),
        }
    }

    /// Whether a direct write names the block.
    pub fn is_direct(&self, block: u64) -> bool
        ensures { IsTrue result ↔ Contains (keys self.now.directs) block }
    {
        self.directs.contains(&block)
    }
}

impl fmt::Display for HandleName {
    ghost use Rattle.std.specs.Fmt.{decimal};

    ghost output = { λ name. Some (decimal name) };

    fn fmt<W: fmt::Write>(&self, f: &mut fmt::Formatter<W>) -> fmt::Result {
        write!(f, "{}", self.0)
    }
}

/// The left side of the operation's line.
impl fmt::Display for Operation {
    ghost use Rattle.journal_script.specs.Line.{operation_text};

    ghost output = { λ operation. Some (operation_text operation) };

    fn fmt<W: fmt::Write>(&self, f: &mut fmt::Formatter<W>) -> fmt::Result {
        f.write_str(self.word())?;
        write_handle(f, self.handle())?;
        write_number(f, self.number())
    }
}

fn write_handle<W: fmt::Write>(f: &mut fmt::Formatter<W>, handle: Option<HandleName>) -> fmt::Result
    ensures { WritesOnOk W.write_str_gives f.old result (behind_blank handle) f.new }
{
    match handle {
        Some(handle) => write!(f, " {handle}"),
        None => Ok(()),
    }
}

fn write_number<W: fmt::Write>(f: &mut fmt::Formatter<W>, number: Option<u64>) -> fmt::Result
    ensures { WritesOnOk W.write_str_gives f.old result (behind_blank number) f.new }
{
    match number {
        Some(number) => write!(f, " {number}"),
        None => Ok(()),
    }
}
