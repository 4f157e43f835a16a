//! A device that fails in one chosen call.
ghost use Rattle.std.specs.Prelude.{◌≡◌, ◌<◌, ◌↔◌, length, IsErr, OnOk, OnErr};
ghost use Rattle.block_device.specs.State.{one_more_call, one_more_fault};

use crate::{Device, DeviceFault};
use journal_model::Area;

/// A device whose one chosen call answers a fault and does nothing. All others go to the inner device. `blocks` and `block_size` are no
/// calls.
#[derive(Drop)]
pub struct FailOnce<D> {
    device: D,
    fails_at: u64,
    calls: u64,
    faults: u64,
}

impl<D: Device> FailOnce<D> {
    ghost use Rattle.block_device.specs.Fail.{FailsNext, inner_of, calls_of};

    /// Makes call `k` fail, counted from 1 from now on; with 0 none fails.
    pub fn new(device: D, k: u64) -> Self
        ensures { result ≡ record { device = device; fails_at = k; calls = 0; faults = 0 } }
    {
        FailOnce {
            device,
            fails_at: k,
            calls: 0,
            faults: 0,
        }
    }

    /// The inner device, as the calls left it.
    pub fn into_inner(self) -> D
        ensures { result ≡ inner_of self }
    {
        let FailOnce {
            device,
            fails_at: _,
            calls: _,
            faults: _,
        } = self;
        device
    }

    /// The calls so far, with the failed one. The count stays at 2^64 - 1.
    pub fn calls(&self) -> u64
        ensures { result ≡ calls_of self.now }
    {
        self.calls
    }

    /// Counts a call; the chosen one answers the fault.
    fn count_call(&mut self) -> Result<(), DeviceFault>
        ensures fails { IsErr result ↔ FailsNext self.old }
        ensures passes { OnOk result (self.new ≡ record self.old { calls = one_more_call self.old.calls }) }
        ensures lost { OnErr result (self.new ≡ record self.old { calls = one_more_call self.old.calls; faults = one_more_fault self.old.faults }) }
    {
        let fails = self.fails_at > 0 && self.calls == self.fails_at - 1;
        self.calls = self.calls.saturating_add(1);
        if fails {
            self.faults = self.faults.saturating_add(1);
            return Err(DeviceFault);
        }
        Ok(())
    }
}

impl<D: Device> Device for FailOnce<D> {
    ghost use Rattle.block_device.specs.Fail.{FailsNext, IsLost, PassesOn, inner_of, failing};
    ghost use Rattle.block_device.specs.State.{blocks_in, CountsCall, CountsFaults, Stays, Moves, Writes};
    ghost use Rattle.journal_model.specs.Disk.{written, flushed};

    ghost state = { failing D.state };

    ghost honest = { λ s. D.honest s.device };

    fn read(&mut self, area: Area, n: u64, into: &mut [u8]) -> Result<(), DeviceFault>
        requires block { length into.old ≡ (D.state (inner_of self.old)).shape.block_size }
        requires there { n < blocks_in (D.state (inner_of self.old)).shape area }
        ensures bytes { OnOk result (D.honest (inner_of self.new) → into.new ≡ ((D.state (inner_of self.old)).disk area n).reads) }
        ensures stays { Stays (failing D.state self.old) (failing D.state self.new) }
        ensures faults { CountsFaults result (failing D.state self.old) (failing D.state self.new) }
        ensures calls { CountsCall (failing D.state self.old) (failing D.state self.new) }
        ensures honest { D.honest (inner_of self.new) → D.honest (inner_of self.old) }

        // The chosen call does nothing, and leaves the buffer.
        ensures lost { FailsNext self.old → IsLost result self.old self.new × (into.new ≡ into.old) }
        // Any other fault is the inner device's.
        ensures passes { ¬ FailsNext self.old →
            PassesOn self.old self.new × CountsFaults result (D.state (inner_of self.old)) (D.state (inner_of self.new)) }
    {
        self.count_call()?;
        self.device.read(area, n, into)
    }

    fn write(&mut self, area: Area, n: u64, bytes: &[u8]) -> Result<(), DeviceFault>
        requires block { length bytes.now ≡ (D.state (inner_of self.old)).shape.block_size }
        requires there { n < blocks_in (D.state (inner_of self.old)).shape area }
        ensures ok { OnOk result (Moves (failing D.state self.old) (failing D.state self.new) (written (D.state (inner_of self.old)).disk area n bytes.now)) }
        ensures writes { Writes (failing D.state self.old) (failing D.state self.new) area n bytes.now }
        ensures faults { CountsFaults result (failing D.state self.old) (failing D.state self.new) }
        ensures calls { CountsCall (failing D.state self.old) (failing D.state self.new) }
        ensures honest { D.honest (inner_of self.new) → D.honest (inner_of self.old) }

        ensures lost { FailsNext self.old → IsLost result self.old self.new }
        ensures passes { ¬ FailsNext self.old →
            PassesOn self.old self.new × CountsFaults result (D.state (inner_of self.old)) (D.state (inner_of self.new)) }
    {
        self.count_call()?;
        self.device.write(area, n, bytes)
    }

    fn flush(&mut self, area: Area) -> Result<(), DeviceFault>
        ensures ok { OnOk result (Moves (failing D.state self.old) (failing D.state self.new) (flushed (D.state (inner_of self.old)).disk area)) }
        ensures err { OnErr result (Stays (failing D.state self.old) (failing D.state self.new)) }
        ensures faults { CountsFaults result (failing D.state self.old) (failing D.state self.new) }
        ensures calls { CountsCall (failing D.state self.old) (failing D.state self.new) }
        ensures honest { D.honest (inner_of self.new) → D.honest (inner_of self.old) }

        ensures lost { FailsNext self.old → IsLost result self.old self.new }
        ensures passes { ¬ FailsNext self.old →
            PassesOn self.old self.new × CountsFaults result (D.state (inner_of self.old)) (D.state (inner_of self.new)) }
    {
        self.count_call()?;
        self.device.flush(area)
    }

    fn blocks(&self, area: Area) -> u64 {
        self.device.blocks(area)
    }

    fn block_size(&self) -> usize {
        self.device.block_size()
    }
}
