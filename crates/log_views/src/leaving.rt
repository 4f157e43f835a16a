//! The view of a home block as an opening would leave it.
ghost use Rattle.std.specs.Prelude.{◌≡◌, ◌<◌, ℕ, List, length, IfOk, OnOk};
ghost use Rattle.journal_model.specs.declared.number.Area.TheVariants.{Home, Log};
ghost use Rattle.journal_model.specs.Disk.{written};
ghost use Rattle.block_device.specs.Call.{OnlyReads};
ghost use Rattle.block_device.specs.Memory.{state_of};
ghost use Rattle.block_device.specs.State.{blocks_in};
ghost use Rattle.log_views.specs.Leaving.{HasCopied, IsLeftIn};

use block_device::{Device, DeviceFault, MemDevice, read_block};
use journal_model::{Area, Block, JournalError};
use recovery::open;
use std::alloc::Global;

/// Block `n` of the home area as an opening of this device's log would leave it. It copies log and block into memory and opens the log
/// there; nothing is written to the device.
///
/// # Errors
///
/// `BadBlock`: home has no such block. Those of an opening. `Device`: a read failed. `Memory`: memory holds the log's nonzero blocks
/// and the home blocks that the opening writes.
pub fn block_left<D: Device>(alloc: Global, device: &mut D, n: u64) -> Result<Block, JournalError>
    ensures left { IfOk result (λ block. D.honest device.new → IsLeftIn (D.state device.old) n block) }
    ensures device { OnlyReads D.state D.honest device.old device.new }
{
    if n >= device.blocks(Area::Home) {
        return Err(JournalError::BadBlock);
    }
    let copy = copied(alloc, device, n)?;
    match open(alloc, copy) {
        Ok(opened) => {
            let mut left = opened.into_device();
            read_block(alloc, &mut left, Area::Home, n)
        }
        Err((_, e)) => Err(e),
    }
}

/// A copy in memory of the log and of home block `n`; other home blocks are zeros.
fn copied<D: Device>(alloc: Global, device: &mut D, n: u64) -> Result<MemDevice, JournalError>
    requires there { n < (D.state device.old).shape.home_blocks }
    ensures shape { IfOk result (λ copy. copy.shape ≡ (D.state device.old).shape) }
    ensures copied { IfOk result (λ copy. D.honest device.new → HasCopied (D.state device.old).shape.log_blocks (D.state device.old).disk (state_of copy).disk
        × (((state_of copy).disk Home n).reads ≡ ((D.state device.old).disk Home n).reads)) }
    ensures device { OnlyReads D.state D.honest device.old device.new }
{
    let size = device.block_size();
    let (log, home) = (device.blocks(Area::Log), device.blocks(Area::Home));
    let mut copy = MemDevice::new(alloc, size, log, home);
    let mut block = vec![in alloc; 0; size]?;
    copy_block(device, &mut copy, Area::Home, n, &mut block)?;
    copy_log(device, &mut copy, &mut block)?;
    Ok(copy)
}

/// Copies the log, block by block through this buffer.
fn copy_log<D: Device>(
    device: &mut D,
    copy: &mut MemDevice,
    block: &mut [u8],
) -> Result<(), DeviceFault>
    requires block { length block.old ≡ (D.state device.old).shape.block_size }
    requires shape { copy.old.shape ≡ (D.state device.old).shape }
    ensures shape { copy.new.shape ≡ copy.old.shape }
    ensures copied { OnOk result (D.honest device.new → HasCopied (D.state device.old).shape.log_blocks (D.state device.old).disk (state_of copy.new).disk) }
    ensures home { OnOk result ((n : ℕ) → (state_of copy.new).disk Home n ≡ (state_of copy.old).disk Home n) }
    ensures device { OnlyReads D.state D.honest device.old device.new }
{
    for n in 0..device.blocks(Area::Log) {
        copy_block(device, copy, Area::Log, n, block)?;
    }
    Ok(())
}

/// Copies one block.
fn copy_block<D: Device>(
    device: &mut D,
    copy: &mut MemDevice,
    area: Area,
    n: u64,
    block: &mut [u8],
) -> Result<(), DeviceFault>
    requires block { length block.old ≡ (D.state device.old).shape.block_size }
    requires shape { copy.old.shape ≡ (D.state device.old).shape }
    requires there { n < blocks_in (D.state device.old).shape area }
    ensures size { length block.new ≡ length block.old }
    ensures shape { copy.new.shape ≡ copy.old.shape }
    ensures copied { OnOk result (D.honest device.new → (state_of copy.new).disk ≡ written (state_of copy.old).disk area n ((D.state device.old).disk area n).reads) }
    ensures other { OnOk result ((bytes : List ℕ) × ((state_of copy.new).disk ≡ written (state_of copy.old).disk area n bytes)) }
    ensures device { OnlyReads D.state D.honest device.old device.new }
{
    device.read(area, n, block)?;
    copy.write(area, n, block)
}
