//! A device that reports its calls, so that a user sees a command's progress.
ghost use Rattle.std.specs.Prelude.{◌≡◌, length, OnOk, OnErr};

use block_device::{Device, DeviceFault};
use jbench_words::watch::{Watch, WatchStep};
use journal_model::Area;

/// A device that reports each read and write before it passes the call on.
#[derive(Drop)]
pub struct Watched<D, W> {
    device: D,
    watch: W,
}

impl<D: Drop, W> Watched<D, W> {
    /// A device that reports its reads and writes to `watch`.
    pub fn new(device: D, watch: W) -> Self
        ensures { result ≡ record { device = device; watch = watch } }
    {
        Watched { device, watch }
    }

    /// The inner device and the watch.
    pub fn into_parts(self) -> (D, W)
        ensures { result ≡ (self.device, self.watch) }
    {
        let Watched { device, watch } = self;
        (device, watch)
    }
}

impl<D: Device, W: Watch> Device for Watched<D, W> {
    ghost use Rattle.block_device.specs.State.{CountsFaults, Moves, Stays, Writes, blocks_in};
    ghost use Rattle.journal_model.specs.Disk.{flushed, written};

    ghost state = { λ s. D.state s.device };

    ghost honest = { λ s. D.honest s.device };

    fn read(&mut self, area: Area, n: u64, into: &mut [u8]) -> Result<(), DeviceFault> {
        let blocks = self.device.blocks(area);
        self.watch.goes_on(WatchStep::Reads { area, n, blocks });
        self.device.read(area, n, into)
    }

    fn write(&mut self, area: Area, n: u64, bytes: &[u8]) -> Result<(), DeviceFault> {
        self.watch.goes_on(WatchStep::Writes { area });
        self.device.write(area, n, bytes)
    }

    fn flush(&mut self, area: Area) -> Result<(), DeviceFault> {
        self.device.flush(area)
    }

    fn blocks(&self, area: Area) -> u64 {
        self.device.blocks(area)
    }

    fn block_size(&self) -> usize {
        self.device.block_size()
    }
}
