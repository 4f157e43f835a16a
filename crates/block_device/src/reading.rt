//! Reading one block of a device into a `Block`.
ghost use Rattle.std.specs.Prelude.{◌≡◌, ◌<◌, IfOk, MatchResult, length};
ghost use Rattle.journal_model.specs.Disk.{reading};
ghost use Rattle.block_device.specs.Call.{OnlyReads};
ghost use Rattle.block_device.specs.State.{IsFailure, blocks_in};

use crate::Device;
use journal_model::{Area, Block, JournalError};
use std::alloc::Global;

/// Block `n` of an area that has it, in memory for one block.
///
/// # Errors
///
/// `Device`: the read failed. `Memory`: nothing was read.
pub fn read_block<D: Device>(
    alloc: Global,
    device: &mut D,
    area: Area,
    n: u64,
) -> Result<Block, JournalError>
    requires { n < blocks_in (D.state device.old).shape area }
    ensures bytes { IfOk result (λ block. D.honest device.new → block ≡ reading (D.state device.old).disk area n) }
    ensures size { IfOk result (λ block. length block ≡ (D.state device.old).shape.block_size) }
    ensures faults { MatchResult result (λ _. (D.state device.new).faults ≡ (D.state device.old).faults) (IsFailure (D.state device.old) (D.state device.new)) }
    ensures device { OnlyReads D.state D.honest device.old device.new }
{
    let mut bytes = vec![in alloc; 0; device.block_size()]?;
    device.read(area, n, &mut bytes)?;
    Ok(Block::new(bytes)?)
}
