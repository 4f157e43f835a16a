//! The fields and ring places of a log whose superblock was accepted.
ghost use Rattle.std.specs.Prelude.{◌≡◌, ◌<◌, ◌+◌, ◌^◌, ◌≤◌, ◌==◌};
ghost use Rattle.log_model.specs.Chain.{place_from};
ghost use Rattle.log_model.specs.Opening.{layout_of, ring_of};
ghost use Rattle.log_model.specs.Superblock.{least_ring};

use journal_model::LogLayout;
use log_format::Super;
use log_ring::Ring;
use std::marker::Model;

/// A log whose superblock was accepted. Contracts see the fields.
#[derive(Drop)]
pub struct Log {
    fields: Super,
    ring: Ring,
}

impl Model for Log {
    ghost use Rattle.std.specs.Prelude.{◌≡◌};
    ghost use Rattle.log_model.specs.Opening.{ring_of};
    ghost use Rattle.log_model.specs.Superblock.{Super as Fields};

    ghost Value = { Fields };

    ghost view = { λ l. l.fields };

    ghost invariant = { λ l. l.ring.ring ≡ ring_of l.fields };
}

impl Log {
    /// The log of these fields, with at least 16 ring blocks.
    pub fn new(fields: Super) -> Self
        requires behind { 0 < fields.s_first }
        requires least { fields.s_first + least_ring ≤ fields.s_maxlen }
        ensures { result ≡ fields }
    {
        Log {
            ring: Ring::new(fields.s_first, fields.s_maxlen),
            fields,
        }
    }

    pub fn fields(&self) -> &Super
        ensures { result.now ≡ self.now }
    {
        &self.fields
    }

    pub fn layout(&self) -> LogLayout
        ensures { result ≡ layout_of self.now }
    {
        self.fields.layout()
    }

    /// Whether the log holds no transaction.
    pub fn is_clean(&self) -> bool
        ensures { result ≡ (self.now.s_start == 0) }
    {
        self.fields.s_start == 0
    }

    /// The number of the log's first transaction; in a clean log, the number before the next one.
    pub fn first_number(&self) -> u64
        ensures value { result ≡ self.now.s_sequence }
        ensures small { result < 2 ^ 32 }
    {
        u64::from(self.fields.s_sequence)
    }

    /// The number of ring blocks.
    pub fn blocks(&self) -> u64
        ensures { result ≡ (ring_of self.now).blocks }
    {
        self.ring.blocks()
    }

    /// The log place of ring block `k`, counted from the begin of the log (in a clean log, of the ring).
    pub fn place(&self, k: u64) -> u64
        ensures place { result ≡ place_from (ring_of self.now) self.now.s_start k }
        ensures ring { self.now.s_first ≤ result }
        ensures there { result < self.now.s_maxlen }
    {
        self.ring.advance(u64::from(self.fields.s_start), k)
    }
}
