//! A device that counts its calls by kind.
ghost use Rattle.std.specs.Prelude.{◌≡◌};
ghost use Rattle.commit_times.specs.Counting.{calls_on, sum_of, with_call};

use block_device::{Device, DeviceFault, Durable, Syncing};
use journal_model::Area;

/// The calls on an area, by kind.
#[derive(Clone, Copy)]
pub(crate) struct Calls {
    /// Reads of one block.
    pub(crate) reads: u64,
    /// Writes of one block.
    pub(crate) writes: u64,
    /// Flushes of the area.
    pub(crate) flushes: u64,
}

const NONE: Calls = Calls {
    reads: 0,
    writes: 0,
    flushes: 0,
};

const READ: Calls = Calls { reads: 1, ..NONE };

const WRITE: Calls = Calls { writes: 1, ..NONE };

const FLUSH: Calls = Calls { flushes: 1, ..NONE };

impl Calls {
    fn plus(self, others: Calls) -> Calls
        ensures { result ≡ sum_of self others }
    {
        Calls {
            reads: self.reads.saturating_add(others.reads),
            writes: self.writes.saturating_add(others.writes),
            flushes: self.flushes.saturating_add(others.flushes),
        }
    }
}

/// A device that makes each call on the one inside it, and counts it.
#[derive(Drop)]
pub(crate) struct Counted<D> {
    device: D,
    log: Calls,
    home: Calls,
}

impl<D> Counted<D> {
    /// A device that counts from now on.
    pub(crate) fn new(device: D) -> Self
        ensures { result.device ≡ device }
    {
        Counted {
            device,
            log: NONE,
            home: NONE,
        }
    }

    /// The device inside.
    pub(crate) fn into_device(self) -> D
        ensures { result ≡ self.device }
    {
        let Counted {
            device,
            log: _,
            home: _,
        } = self;
        device
    }

    /// The calls on an area.
    pub(crate) fn calls(&self, area: Area) -> Calls
        ensures { result ≡ calls_on area self.now }
    {
        match area {
            Area::Log => self.log,
            Area::Home => self.home,
        }
    }

    fn count(&mut self, area: Area, call: Calls)
        ensures counts { self.new ≡ with_call area call self.old }
        ensures device { self.new.device ≡ self.old.device }
    {
        match area {
            Area::Log => self.log = self.log.plus(call),
            Area::Home => self.home = self.home.plus(call),
        }
    }
}

impl<D: Device> Device for Counted<D> {
    ghost use Rattle.block_device.specs.State.{CountsFaults, Moves, Stays, Writes, blocks_in};
    ghost use Rattle.journal_model.specs.Disk.{flushed, written};

    ghost state = { λ s. D.state s.device };

    ghost honest = { λ s. D.honest s.device };

    fn read(&mut self, area: Area, n: u64, into: &mut [u8]) -> Result<(), DeviceFault> {
        self.count(area, READ);
        self.device.read(area, n, into)
    }

    fn write(&mut self, area: Area, n: u64, bytes: &[u8]) -> Result<(), DeviceFault> {
        self.count(area, WRITE);
        self.device.write(area, n, bytes)
    }

    fn flush(&mut self, area: Area) -> Result<(), DeviceFault> {
        self.count(area, FLUSH);
        self.device.flush(area)
    }

    fn begin_flush(&mut self, area: Area) -> Option<Syncing> {
        self.device.begin_flush(area)
    }

    fn end_flush(&mut self, durable: Durable) {
        self.device.end_flush(durable);
    }

    fn blocks(&self, area: Area) -> u64 {
        self.device.blocks(area)
    }

    fn block_size(&self) -> usize {
        self.device.block_size()
    }
}
