//! Reads one block of a device.
ghost use Rattle.std.specs.Prelude.{◌≡◌, ◌<◌, IfOk, OnOk, length};
ghost use Rattle.journal_model.specs.Disk.{reading};
ghost use Rattle.block_device.specs.Call.{OnlyReads};
ghost use Rattle.block_device.specs.State.{blocks_in};

use block_device::Device;
use journal_model::{Area, Block, JournalError};
use std::alloc::Global;

/// Reads block `n` of an area.
///
/// # Errors
///
/// `BadBlock`: the area has no such block. `Device`. `Memory`.
pub fn read_block<D: Device>(
    alloc: Global,
    device: &mut D,
    area: Area,
    n: u64,
) -> Result<Block, JournalError>
    ensures bytes { IfOk result (λ block. D.honest device.new → block ≡ reading (D.state device.old).disk area n) }
    ensures size { IfOk result (λ block. length block ≡ (D.state device.old).shape.block_size) }
    ensures there { OnOk result (n < blocks_in (D.state device.old).shape area) }
    ensures device { OnlyReads D.state D.honest device.old device.new }
{
    if n >= device.blocks(area) {
        return Err(JournalError::BadBlock);
    }
    block_device::read_block(alloc, device, area, n)
}
