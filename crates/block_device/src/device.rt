//! What a device must do, and its fault.
ghost use Rattle.std.specs.Prelude.{◌≡◌, ◌<◌, ℕ, length, OnOk, OnErr};
ghost use Rattle.block_device.specs.State.{DeviceState, blocks_in, CountsCall, CountsFaults, HoldsWholeBlocks, Stays, Moves, Writes};
ghost use Rattle.journal_model.specs.Disk.{written, flushed};

use crate::syncing::{Durable, Syncing};
use journal_model::{Area, JournalError};
use std::error::Error;
use std::fmt;

/// The device failed during a call.
#[derive(Clone, Copy, Debug, PartialEq, Eq)]
pub struct DeviceFault;

impl fmt::Display for DeviceFault {
    fn fmt<W: fmt::Write>(&self, f: &mut fmt::Formatter<W>) -> fmt::Result {
        f.write_str("the device failed")
    }
}

impl Error for DeviceFault {}

impl From<DeviceFault> for JournalError {
    ghost use Rattle.std.specs.Prelude.{◌≡◌};
    ghost use Rattle.journal_model.specs.declared.refusal.JournalError.TheVariants.{Device};

    ghost from_gives = { λ _ e. e ≡ Device };

    fn from(_e: DeviceFault) -> Self {
        JournalError::Device
    }
}

/// A disk with a log area, a home area and a volatile cache; blocks are numbered from 0 in each area.
///
/// A block is written whole or not at all, and survives a crash independently of others. Each call changes the disk at
/// most once, and the earlier disk joins the past. Each read, write and flush is counted, whatever it answers.
pub trait Device {
    /// What each block reads, what a crash may leave, earlier disks, failures and calls.
    ghost state: { Self → DeviceState };

    /// Each read so far gave what the disk reads. Over files this ends for good once others write them or the medium
    /// loses bytes.
    ghost honest: { Self → Type 0 };

    /// Reads block `n` of an area into a buffer of one block.
    ///
    /// # Errors
    ///
    /// The read failed: the buffer's bytes are unspecified, and nothing else changed.
    fn read(&mut self, area: Area, n: u64, into: &mut [u8]) -> Result<(), DeviceFault>
        requires block { length into.old ≡ (state self.old).shape.block_size }
        requires there { n < blocks_in (state self.old).shape area }
        ensures bytes { OnOk result (honest self.new → into.new ≡ ((state self.old).disk area n).reads) }
        ensures stays { Stays (state self.old) (state self.new) }
        ensures faults { CountsFaults result (state self.old) (state self.new) }
        ensures calls { CountsCall (state self.old) (state self.new) }
        ensures honest { honest self.new → honest self.old };

    /// Writes block `n` of an area.
    ///
    /// # Errors
    ///
    /// The write failed: the block reads as before or as the bytes, and a crash may keep either.
    fn write(&mut self, area: Area, n: u64, bytes: &[u8]) -> Result<(), DeviceFault>
        requires block { length bytes.now ≡ (state self.old).shape.block_size }
        requires there { n < blocks_in (state self.old).shape area }
        ensures ok { OnOk result (Moves (state self.old) (state self.new) (written (state self.old).disk area n bytes.now)) }
        ensures writes { Writes (state self.old) (state self.new) area n bytes.now }
        ensures faults { CountsFaults result (state self.old) (state self.new) }
        ensures calls { CountsCall (state self.old) (state self.new) }
        ensures honest { honest self.new → honest self.old };

    /// Makes every block of an area durable as it reads.
    ///
    /// # Errors
    ///
    /// The flush failed: nothing more is durable than before.
    fn flush(&mut self, area: Area) -> Result<(), DeviceFault>
        ensures ok { OnOk result (Moves (state self.old) (state self.new) (flushed (state self.old).disk area)) }
        ensures err { OnErr result (Stays (state self.old) (state self.new)) }
        ensures faults { CountsFaults result (state self.old) (state self.new) }
        ensures calls { CountsCall (state self.old) (state self.new) }
        ensures honest { honest self.new → honest self.old };

    /// Hands the system what was written, and returns what waits for an area's flush without the device, if the device has that. It is no
    /// call that counts, and the disk stays. A failure shows in the flush.
    fn begin_flush(&mut self, _area: Area) -> Option<Syncing>
        ensures begun { state self.new ≡ state self.old }
        ensures honest { honest self.new → honest self.old }
    {
        None
    }

    /// Takes what came of such a wait. The area's next flush need not wait if nothing was written to it since the wait began.
    fn end_flush(&mut self, _durable: Durable)
        ensures ended { state self.new ≡ state self.old }
        ensures honest { honest self.new → honest self.old }
    {}

    /// The number of blocks of an area.
    fn blocks(&self, area: Area) -> u64
        ensures { result ≡ blocks_in (state self.now).shape area };

    /// The bytes of a block.
    fn block_size(&self) -> usize
        ensures size { result ≡ (state self.now).shape.block_size }
        ensures whole { HoldsWholeBlocks (state self.now) };
}
