//! A buffer of one block that takes no memory.
ghost use Rattle.std.specs.Prelude.{◌≡◌, ◌<◌, ◌≤◌, length, OnOk};
ghost use Rattle.journal_model.specs.Disk.{reading};
ghost use Rattle.log_model.specs.Escape.{unescaped};
ghost use Rattle.log_model.specs.Superblock.{widened};
ghost use Rattle.block_device.specs.Call.{OnlyReads};
ghost use Rattle.block_device.specs.State.{CountsCall, CountsFaults, blocks_in};
ghost use Rattle.log_format.specs.Size.{IsBlockSize};
ghost use Rattle.log_scan.specs.Finding.{most_bytes};

use block_device::{Device, DeviceFault};
use journal_model::Area;
use log_format::{Super, unescape};
use std::marker::Model;

/// A block of at most 4096 bytes, held in place. Contracts see the block.
#[derive(Drop)]
pub struct BlockBuffer {
    bytes: [u8; BlockBuffer::MOST_BYTES],
    size: usize,
}

impl Model for BlockBuffer {
    ghost use Rattle.std.specs.Prelude.{ℕ, ◌≤◌, List, take};
    ghost use Rattle.log_scan.specs.Finding.{most_bytes};

    ghost Value = { List ℕ };

    ghost view = { λ b. take b.size b.bytes };

    ghost invariant = { λ b. b.size ≤ most_bytes };
}

impl BlockBuffer {
    /// The greatest block size.
    pub const MOST_BYTES: usize = 4096;

    /// A block of `size` zeros.
    pub fn new(size: usize) -> Self
        requires { size ≤ most_bytes }
        ensures { length result ≡ size }
    {
        BlockBuffer {
            bytes: [0; BlockBuffer::MOST_BYTES],
            size,
        }
    }

    pub fn bytes(&self) -> &[u8]
        ensures { result.now ≡ self.now }
    {
        &self.bytes[..self.size]
    }

    /// Reads block `n` of an area.
    ///
    /// # Errors
    ///
    /// The read failed: the content is unspecified.
    pub fn read<D: Device>(&mut self, device: &mut D, area: Area, n: u64) -> Result<(), DeviceFault>
        requires size { length self.old ≡ (D.state device.old).shape.block_size }
        requires there { n < blocks_in (D.state device.old).shape area }
        ensures size { length self.new ≡ length self.old }
        ensures bytes { OnOk result (D.honest device.new → self.new ≡ reading (D.state device.old).disk area n) }
        ensures device { OnlyReads D.state D.honest device.old device.new }
        ensures faults { CountsFaults result (D.state device.old) (D.state device.new) }
        ensures calls { CountsCall (D.state device.old) (D.state device.new) }
    {
        device.read(area, n, &mut self.bytes[..self.size])
    }

    /// Gives a superblock (1024, 2048 or 4096 bytes) the features of 64-bit block numbers.
    pub fn widen(&mut self)
        requires { IsBlockSize (length self.old) }
        ensures size { length self.new ≡ length self.old }
        ensures bytes { self.new ≡ widened self.old }
    {
        Super::widen(&mut self.bytes[..self.size]);
    }

    /// Restores the magic at the front if `escaped`; the block has 1024, 2048 or 4096 bytes.
    pub fn unescape(&mut self, escaped: bool)
        requires { IsBlockSize (length self.old) }
        ensures size { length self.new ≡ length self.old }
        ensures bytes { self.new ≡ unescaped escaped self.old }
    {
        unescape(&mut self.bytes[..self.size], escaped);
    }
}
