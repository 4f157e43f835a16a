//! The numbers of blocks, transactions and handles, and which blocks a transaction may touch.
ghost use Rattle.std.specs.Prelude.{◌↔◌, IsTrue};
ghost use Rattle.journal_model.specs.Block.{IsAllowedBlock};
ghost use Rattle.journal_model.specs.Layout.{IsLayout};

use crate::log_layout::LogLayout;
use std::marker::Model;

/// One of the two parts of the disk that a journal works on.
#[derive(Clone, Copy, Debug, PartialEq, Eq, Hash)]
pub enum Area {
    /// The log: the superblock at block 0, then the ring.
    Log,
    /// The home area: the volume that the journal protects.
    Home,
}

/// The number of a home block, counted from 0.
#[derive(Clone, Copy, Debug, PartialEq, Eq, PartialOrd, Ord, Hash)]
pub struct BlockNo(pub u64);

impl Model for BlockNo {
    ghost use Rattle.std.specs.Prelude.{ℕ};

    ghost Value = { ℕ };

    ghost view = { λ b. b.0 };

    ghost inverse = { λ n. record { 0 = n } };
}

impl BlockNo {
    /// Whether a transaction may touch the block: it is one of `home_blocks`, a tag can spell it, and it has at most 48 bits.
    /// Source: journal.rst, "Descriptor Block" (the width of a block number); the 48 bits are this project's own.
    pub fn is_allowed(self, layout: LogLayout, home_blocks: u64) -> bool
        requires { IsLayout layout }
        ensures { IsTrue result ↔ IsAllowedBlock layout home_blocks self }
    {
        self.0 < home_blocks && self.0 < layout.block_limit()
    }
}

/// The number of a transaction, as in the headers of its log blocks.
#[derive(Clone, Copy, Debug, PartialEq, Eq, PartialOrd, Ord, Hash)]
pub struct Tid(pub u32);

impl Model for Tid {
    ghost use Rattle.std.specs.Prelude.{ℕ};

    ghost Value = { ℕ };

    ghost view = { λ t. t.0 };

    ghost inverse = { λ n. record { 0 = n } };
}

/// The number of a handle, unique in its journal.
#[derive(Clone, Copy, Debug, PartialEq, Eq, PartialOrd, Ord, Hash)]
pub struct HandleNo(pub u64);

impl Model for HandleNo {
    ghost use Rattle.std.specs.Prelude.{ℕ};

    ghost Value = { ℕ };

    ghost view = { λ h. h.0 };

    ghost inverse = { λ n. record { 0 = n } };
}
