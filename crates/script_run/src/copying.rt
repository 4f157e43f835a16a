//! Copies the crash image of a run to another device, so that other programs can judge it.
ghost use Rattle.std.specs.Prelude.{◌≡◌, ◌<◌, ◌↔◌, ◌⊎◌, length, IfErr, IfOk, IsTrue, OnOk, true};
ghost use Rattle.std.specs.BTreeSet.{keys};
ghost use Rattle.journal_model.specs.Disk.{written};
ghost use Rattle.block_device.specs.Memory.{state_of};
ghost use Rattle.block_device.specs.State.{blocks_in};
ghost use Rattle.script_run.specs.Copying.{CallsUntilFailure, CopyRefused, HasCopied, IsCopiedRun, IsCopy, IsCopyTried, IsOnlyRead, IsTriedRun};
ghost use Rattle.script_run.specs.Left.{IsLeftVerdict};

use crate::running::{CrashedRun, judge_left, named_in, run_operations};
use crate::stops::{Stop, Stops};
use block_device::{Device, DeviceFault, MemDevice};
use journal_model::{Area, JournalError};
use journal_script::{NamedBlocks, Script};
use script_client::Fault;
use std::alloc::Global;
use std::io::Write;

/// Runs a script as `run` does, and copies the crash image to a device of the script's measures, durably, before it is opened. So the
/// verdict is on what that device has.
///
/// # Errors
///
/// Those of `run`. `Fault::Refused` with `Device`: `to` has another shape, or fails; then only the operations' lines were written. Without
/// an end of the run, `to` is unchanged.
pub fn run_copied<D: Device>(
    alloc: Global,
    script: &Script,
    stops: &Stops<'_>,
    to: &mut D,
    out: &mut impl Write,
) -> Result<bool, Fault>
    ensures run { IfOk result (IsCopiedRun script.now stops.now (D.state to.new)) }
    ensures right { IfOk result (λ right. right ≡ true) }
    ensures tried { (D.state to.new ≡ D.state to.old) ⊎ IsTriedRun script.now stops.now (D.state to.old) (D.state to.new) }
{
    let named = named_in(alloc, script)?;
    let stopped = run_operations(alloc, script, stops.run.at_write, stops.failing_call, out)?;
    let left = stopped.crash(stops.run.keep);
    judge_copied(alloc, left, to, stops.opening, &named, out)
}

/// Copies a crash image to a device of the same shape, durably, and then dumps, opens and judges it as `judge_left` does.
///
/// # Errors
///
/// Those of `judge_left`, after a whole copy; or those of `copy_image`, and then nothing was printed.
pub fn judge_copied<D: Device>(
    alloc: Global,
    left: CrashedRun,
    to: &mut D,
    opening: Stop<'_>,
    named: &NamedBlocks,
    out: &mut impl Write,
) -> Result<bool, Fault>
    ensures verdict { IfOk result (IsLeftVerdict left.image opening.entry left.recorded.sealed.items left.recorded.acknowledged named.now) }
    ensures copy { IfOk result (λ _. IsCopy left.image (D.state to.new)) }
    ensures tried { IsCopyTried left.image (D.state to.old) (D.state to.new) }
{
    let mut left = left;
    copy_image(alloc, &mut left.image, to)?;
    judge_left(alloc, left, opening, named, out)
}

/// Writes each block of an image to a device of the same shape, by number, the log first, and flushes both areas. Takes memory for one
/// block.
///
/// # Errors
///
/// `Device`: the shapes differ, and the device was not touched; or a write or a flush failed. `Memory`.
pub fn copy_image<D: Device>(
    alloc: Global,
    image: &mut MemDevice,
    to: &mut D,
) -> Result<(), JournalError>
    ensures same { IsOnlyRead image.old image.new }
    ensures copy { OnOk result (IsCopy image.old (D.state to.new)) }
    ensures refused { IfErr result (CopyRefused image.old (D.state to.old) (D.state to.new)) }
    ensures no_fault { OnOk result ((D.state to.new).faults ≡ (D.state to.old).faults) }
    ensures shape { (D.state to.new).shape ≡ (D.state to.old).shape }
    ensures honest { D.honest to.new → D.honest to.old }
{
    if !are_alike(image, to) {
        return Err(JournalError::Device);
    }
    let mut block = vec![in alloc; 0; image.block_size()]?;
    copy_areas(image, to, &mut block)?;
    Ok(())
}

fn are_alike<D: Device>(image: &MemDevice, to: &D) -> bool
    ensures { IsTrue result ↔ ((D.state to.now).shape ≡ image.now.shape) }
{
    to.block_size() == image.block_size()
        && to.blocks(Area::Log) == image.blocks(Area::Log)
        && to.blocks(Area::Home) == image.blocks(Area::Home)
}

fn copy_areas<D: Device>(
    image: &mut MemDevice,
    to: &mut D,
    block: &mut [u8],
) -> Result<(), DeviceFault>
    requires block { length block.old ≡ image.old.shape.block_size }
    requires shape { (D.state to.old).shape ≡ image.old.shape }
    ensures same { IsOnlyRead image.old image.new }
    ensures copy { OnOk result (IsCopy image.old (D.state to.new)) }
    ensures device { CallsUntilFailure D.state D.honest result to.old to.new }
{
    copy_area(image, to, Area::Log, block)?;
    copy_area(image, to, Area::Home, block)?;
    to.flush(Area::Log)?;
    to.flush(Area::Home)
}

fn copy_area<D: Device>(
    image: &mut MemDevice,
    to: &mut D,
    area: Area,
    block: &mut [u8],
) -> Result<(), DeviceFault>
    requires block { length block.old ≡ image.old.shape.block_size }
    requires shape { (D.state to.old).shape ≡ image.old.shape }
    ensures same { IsOnlyRead image.old image.new }
    ensures copied { OnOk result (HasCopied area (blocks_in image.old.shape area) (state_of image.old).disk (D.state to.old).disk (D.state to.new).disk) }
    ensures device { CallsUntilFailure D.state D.honest result to.old to.new }
{
    for n in 0..image.blocks(area) {
        copy_block(image, to, area, n, block)?;
    }
    Ok(())
}

fn copy_block<D: Device>(
    image: &mut MemDevice,
    to: &mut D,
    area: Area,
    n: u64,
    block: &mut [u8],
) -> Result<(), DeviceFault>
    requires block { length block.old ≡ image.old.shape.block_size }
    requires shape { (D.state to.old).shape ≡ image.old.shape }
    requires there { n < blocks_in image.old.shape area }
    ensures same { IsOnlyRead image.old image.new }
    ensures copied { OnOk result ((D.state to.new).disk ≡ written (D.state to.old).disk area n ((state_of image.old).disk area n).reads) }
    ensures device { CallsUntilFailure D.state D.honest result to.old to.new }
{
    image.read(area, n, block)?;
    to.write(area, n, block)
}
