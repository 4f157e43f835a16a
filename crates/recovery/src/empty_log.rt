//! Making an empty log: zeros first, then the superblock.
ghost use Rattle.std.specs.Prelude.{◌≡◌, ◌≢◌, ◌+◌, ◌<◌, ◌≤◌, length, OnOk, IfErr, MatchResult};
ghost use Rattle.journal_model.specs.declared.number.Area.TheVariants.{Log};
ghost use Rattle.journal_model.specs.declared.refusal.JournalError.TheVariants.{Device as DeviceFailed};
ghost use Rattle.log_model.specs.Superblock.{greatest_length, least_length};
ghost use Rattle.log_format.specs.Size.{IsBlockSize};
ghost use Rattle.block_device.specs.State.{EachMoment, IsDeviceFailure};
ghost use Rattle.recovery.specs.Making.{IsMakingMoment, IsZeroingMoment};
ghost use Rattle.recovery.specs.Opening.{FormatRefused, HasZeros, IsFormatted};

use block_device::Device;
use journal_model::layout::{GREATEST_LENGTH, LEAST_LENGTH};
use journal_model::{Area, JournalError};
use log_format::Super;

/// Bytes of the largest block.
const MOST_BYTES: usize = 4096;

/// Makes an empty log of `maxlen` blocks, 17 to 1,048,576, the superblock among them, with this UUID. All of its blocks after the
/// superblock become zeros; the rest of the area after the log is made durable as it reads, and home isn't touched. The superblock is
/// written once the zeros are durable. So a crash within this call, or after a device failure, leaves the whole empty log, or block 0 as
/// a crash before could have left it; the ring's blocks may be zeros then. It makes one write for each block, two flushes, and no other call.
///
/// # Errors
///
/// `BadBlockSize` where the device's blocks don't have 1024, 2048 or 4096 bytes, `BadLength` where the length is outside its
/// limits or above the log area's blocks: no call is made. `Device` where the device failed.
/// Source: journal.rst, "Super Block"; the zeros are this project's own.
pub fn format<D: Device>(
    device: &mut D,
    maxlen: u32,
    uuid: &[u8; 16],
    wide: bool,
) -> Result<(), JournalError>
    ensures ok { OnOk result (IsFormatted (D.state device.old).shape maxlen uuid.now wide (D.state device.old).disk (D.state device.new).disk) }
    ensures err { IfErr result (λ e. FormatRefused maxlen (D.state device.old) (D.state device.new) e) }
    // Whatever the answer is: home stays, and the superblock comes last.
    ensures moments { EachMoment (IsMakingMoment (D.state device.old).shape maxlen uuid.now wide (D.state device.old).disk) (D.state device.old) (D.state device.new) }
    ensures no_fault { OnOk result ((D.state device.new).faults ≡ (D.state device.old).faults) }
    ensures calls { (D.state device.new).calls ≤ (D.state device.old).calls + (maxlen + 2) }
    ensures untouched { IfErr result (λ e. e ≢ DeviceFailed → device.new ≡ device.old) }
    ensures shape { (D.state device.new).shape ≡ (D.state device.old).shape }
    ensures honest { D.honest device.new → D.honest device.old }
{
    let size = device.block_size();
    if size != 1024 && size != 2048 && size != 4096 {
        return Err(JournalError::BadBlockSize);
    }
    if maxlen < LEAST_LENGTH
        || maxlen > GREATEST_LENGTH
        || u64::from(maxlen) > device.blocks(Area::Log)
    {
        return Err(JournalError::BadLength);
    }
    let mut buffer = [0; MOST_BYTES];
    write_log(device, &mut buffer[..size], maxlen, uuid, wide)
}

/// Writes an empty log from a buffer of one block: zeros after the superblock's place, then the superblock.
fn write_log<D: Device>(
    device: &mut D,
    block: &mut [u8],
    maxlen: u32,
    uuid: &[u8; 16],
    wide: bool,
) -> Result<(), JournalError>
    requires block { length block.old ≡ (D.state device.old).shape.block_size }
    requires allowed { IsBlockSize (D.state device.old).shape.block_size }
    requires least { least_length ≤ maxlen }
    requires most { maxlen ≤ greatest_length }
    requires there { maxlen ≤ (D.state device.old).shape.log_blocks }
    ensures ok { OnOk result (IsFormatted (D.state device.old).shape maxlen uuid.now wide (D.state device.old).disk (D.state device.new).disk) }
    ensures moments { EachMoment (IsMakingMoment (D.state device.old).shape maxlen uuid.now wide (D.state device.old).disk) (D.state device.old) (D.state device.new) }
    ensures faults { MatchResult result (λ _. (D.state device.new).faults ≡ (D.state device.old).faults) (λ e. IsDeviceFailure (D.state device.old) (D.state device.new) e) }
    ensures calls { (D.state device.new).calls ≤ (D.state device.old).calls + (maxlen + 2) }
    ensures shape { (D.state device.new).shape ≡ (D.state device.old).shape }
    ensures honest { D.honest device.new → D.honest device.old }
{
    block.fill(0);
    write_zeros(device, block, u64::from(maxlen))?;
    device.flush(Area::Log)?;
    Super::format(block, maxlen, uuid, wide);
    device.write(Area::Log, 0, block)?;
    device.flush(Area::Log)?;
    Ok(())
}

/// Writes zeros to the log's blocks after the superblock.
fn write_zeros<D: Device>(device: &mut D, zeros: &[u8], maxlen: u64) -> Result<(), JournalError>
    requires block { length zeros.now ≡ (D.state device.old).shape.block_size }
    requires some { 0 < maxlen }
    requires there { maxlen ≤ (D.state device.old).shape.log_blocks }
    ensures ok { OnOk result (HasZeros zeros.now maxlen (D.state device.old).disk (D.state device.new).disk) }
    ensures moments { EachMoment (IsZeroingMoment zeros.now maxlen (D.state device.old).disk) (D.state device.old) (D.state device.new) }
    ensures faults { MatchResult result (λ _. (D.state device.new).faults ≡ (D.state device.old).faults) (λ e. IsDeviceFailure (D.state device.old) (D.state device.new) e) }
    ensures calls { (D.state device.new).calls + 1 ≤ (D.state device.old).calls + maxlen }
    ensures shape { (D.state device.new).shape ≡ (D.state device.old).shape }
    ensures honest { D.honest device.new → D.honest device.old }
{
    for n in 1..maxlen {
        device.write(Area::Log, n, zeros)?;
    }
    Ok(())
}
