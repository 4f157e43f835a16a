//! A device that crashes at one chosen write.
ghost use Rattle.std.specs.Prelude.{◌≡◌, ◌≢◌, ◌<◌, ◌-◌, ◌↔◌, false, true, length, IsOk, IsErr, OnOk, OnErr};
ghost use Rattle.block_device.specs.State.{one_more_call, one_more_fault};

use crate::{Device, DeviceFault};
use journal_model::Area;

/// A device that crashes at one of its writes. That write enters the cache and answers a fault. Later calls answer a
/// fault and do nothing.
#[derive(Drop)]
pub struct StopAt<D> {
    device: D,
    left: u64,
    stopped: bool,
    faults: u64,
    calls: u64,
}

impl<D: Device> StopAt<D> {
    ghost use Rattle.block_device.specs.Stop.{inner_of, left_of, is_stopped};

    /// Crashes at write `k`, counted from 1 among the writes that succeed from now on; with 0 never.
    pub fn new(device: D, k: u64) -> Self
        ensures { result ≡ record { device = device; left = k; stopped = false; faults = 0; calls = 0 } }
    {
        StopAt {
            device,
            left: k,
            stopped: false,
            faults: 0,
            calls: 0,
        }
    }

    /// The inner device, as the crash left it.
    pub fn into_inner(self) -> D
        ensures { result ≡ inner_of self }
    {
        let StopAt {
            device,
            left: _,
            stopped: _,
            faults: _,
            calls: _,
        } = self;
        device
    }

    /// Whether the device has crashed.
    pub fn is_stopped(&self) -> bool
        ensures { result ≡ is_stopped self.now }
    {
        self.stopped
    }

    /// Counts a call; after the crash it answers a fault.
    fn running(&mut self) -> Result<(), DeviceFault>
        ensures ok { IsOk result ↔ (is_stopped self.old ≡ false) }
        ensures running { OnOk result (self.new ≡ record self.old { calls = one_more_call self.old.calls }) }
        ensures stopped { OnErr result (self.new ≡ record self.old { faults = one_more_fault self.old.faults; calls = one_more_call self.old.calls }) }
    {
        self.calls = self.calls.saturating_add(1);
        if self.stopped {
            return Err(self.fault());
        }
        Ok(())
    }

    /// Counts a write in the cache; the last one answers a fault.
    fn count_write(&mut self) -> Result<(), DeviceFault>
        ensures last { IsErr result ↔ (left_of self.old ≡ 1) }
        ensures other { OnOk result (self.new ≡ record self.old { left = self.old.left - 1 }) }
        ensures stops { OnErr result (self.new ≡ record self.old { stopped = true; faults = one_more_fault self.old.faults }) }
    {
        if self.left == 1 {
            self.stopped = true;
            return Err(self.fault());
        }
        self.left = self.left.saturating_sub(1);
        Ok(())
    }

    fn fault(&mut self) -> DeviceFault
        ensures { self.new ≡ record self.old { faults = one_more_fault self.old.faults } }
    {
        self.faults = self.faults.saturating_add(1);
        DeviceFault
    }
}

impl<D: Device> Device for StopAt<D> {
    ghost use Rattle.block_device.specs.Stop.{inner_of, left_of, is_stopped, stopping, PassesOn, UsesWrite, IsSilent};
    ghost use Rattle.block_device.specs.State.{blocks_in, CountsCall, CountsFaults, Stays, Moves, Writes};
    ghost use Rattle.journal_model.specs.Disk.{written, flushed};

    ghost state = { stopping D.state };

    ghost honest = { λ s. D.honest s.device };

    fn read(&mut self, area: Area, n: u64, into: &mut [u8]) -> Result<(), DeviceFault>
        requires block { length into.old ≡ (D.state (inner_of self.old)).shape.block_size }
        requires there { n < blocks_in (D.state (inner_of self.old)).shape area }
        ensures bytes { OnOk result (D.honest (inner_of self.new) → into.new ≡ ((D.state (inner_of self.old)).disk area n).reads) }
        ensures stays { Stays (stopping D.state self.old) (stopping D.state self.new) }
        ensures faults { CountsFaults result (stopping D.state self.old) (stopping D.state self.new) }
        ensures calls { CountsCall (stopping D.state self.old) (stopping D.state self.new) }
        ensures honest { D.honest (inner_of self.new) → D.honest (inner_of self.old) }

        ensures silent { IsSilent result self.old self.new }
        ensures running { is_stopped self.old ≡ false →
            PassesOn self.old self.new × CountsFaults result (D.state (inner_of self.old)) (D.state (inner_of self.new)) }
    {
        self.running()?;
        self.device.read(area, n, into)
    }

    fn write(&mut self, area: Area, n: u64, bytes: &[u8]) -> Result<(), DeviceFault>
        requires block { length bytes.now ≡ (D.state (inner_of self.old)).shape.block_size }
        requires there { n < blocks_in (D.state (inner_of self.old)).shape area }
        ensures ok { OnOk result (Moves (stopping D.state self.old) (stopping D.state self.new) (written (D.state (inner_of self.old)).disk area n bytes.now)) }
        ensures writes { Writes (stopping D.state self.old) (stopping D.state self.new) area n bytes.now }
        ensures faults { CountsFaults result (stopping D.state self.old) (stopping D.state self.new) }
        ensures calls { CountsCall (stopping D.state self.old) (stopping D.state self.new) }
        ensures honest { D.honest (inner_of self.new) → D.honest (inner_of self.old) }

        ensures silent { IsSilent result self.old self.new }
        // The write at which the device crashes is not answered Ok.
        ensures counts { is_stopped self.old ≡ false → OnOk result ((left_of self.old ≢ 1) × UsesWrite self.old self.new) }
        // That one entered the cache.
        ensures last { is_stopped self.old ≡ false → is_stopped self.new ≡ true →
            IsErr result × (left_of self.old ≡ 1)
            × Moves (D.state (inner_of self.old)) (D.state (inner_of self.new)) (written (D.state (inner_of self.old)).disk area n bytes.now) }
        // Any other fault is the inner device's.
        ensures inside { is_stopped self.old ≡ false → is_stopped self.new ≡ false →
            OnErr result (PassesOn self.old self.new × CountsFaults result (D.state (inner_of self.old)) (D.state (inner_of self.new))) }
    {
        self.running()?;
        self.device.write(area, n, bytes)?;
        self.count_write()
    }

    fn flush(&mut self, area: Area) -> Result<(), DeviceFault>
        ensures ok { OnOk result (Moves (stopping D.state self.old) (stopping D.state self.new) (flushed (D.state (inner_of self.old)).disk area)) }
        ensures err { OnErr result (Stays (stopping D.state self.old) (stopping D.state self.new)) }
        ensures faults { CountsFaults result (stopping D.state self.old) (stopping D.state self.new) }
        ensures calls { CountsCall (stopping D.state self.old) (stopping D.state self.new) }
        ensures honest { D.honest (inner_of self.new) → D.honest (inner_of self.old) }

        ensures silent { IsSilent result self.old self.new }
        ensures running { is_stopped self.old ≡ false →
            PassesOn self.old self.new × CountsFaults result (D.state (inner_of self.old)) (D.state (inner_of self.new)) }
    {
        self.running()?;
        self.device.flush(area)
    }

    fn blocks(&self, area: Area) -> u64 {
        self.device.blocks(area)
    }

    fn block_size(&self) -> usize {
        self.device.block_size()
    }
}
