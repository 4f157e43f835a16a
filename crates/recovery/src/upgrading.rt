//! Upgrading an empty log to 64-bit block numbers.
ghost use Rattle.std.specs.Prelude.{◌≡◌, ◌≢◌, ◌+◌, ◌<◌, ◌≤◌, ℕ, List, length, IfErr, IfOk, MatchResult, OnErr, OnOk};
ghost use Rattle.journal_model.specs.declared.refusal.JournalError.TheVariants.{BadLength, Device as DeviceFailed};
ghost use Rattle.log_model.specs.Superblock.{super_in, wide_features, widened};
ghost use Rattle.block_device.specs.State.{EachMoment, IsDeviceFailure};
ghost use Rattle.log_format.specs.Size.{IsBlockSize};
ghost use Rattle.log_epochs.specs.UpgradeRun.{IsUpgradeMoment};
ghost use Rattle.recovery.specs.Calls.{HasBegun, HasMade};
ghost use Rattle.recovery.specs.Upgrade.{IsKeptNarrow, IsUpgradeBroken, IsUpgraded, LeadsThroughUpgrade, UpgradeRefused, upgrade_calls};

use crate::examine::read_super;
use block_device::Device;
use journal_model::{Area, JournalError};
use log_format::Super;
use log_scan::BlockBuffer;
use std::alloc::Global;

/// Gives an empty log block numbers of 64 bits: its superblock gets their feature, and every other byte of it stays. The answer is the
/// log's s_sequence. Nothing is read but block 0, and home isn't touched. The calls that it makes are those of `upgrade_calls`
/// (`specs/Upgrade.antt`): a flush of the log, one write of the superblock, a flush of the log; with the read there is no other call. From
/// the first flush on, every crash image opens to the same transactions, and the next one has the same number.
///
/// # Errors
///
/// The first that applies: `BadMagic` to `ErrnoSet`: the superblock; `AlreadyWide` where its block numbers have 64 bits; `NotEmpty`
/// where the log is not clean. `Memory` comes only where the device's blocks are larger than 4096 bytes, which no log's are, so
/// that block 0 is read in memory. With each of these one block at most is read, and nothing is written. `BadLength` where the log area has no block: no call is
/// made. `Device` where the device failed: the superblock may have been written.
/// Source: this project's own.
pub fn upgrade<D: Device>(alloc: Global, device: &mut D) -> Result<u32, JournalError>
    ensures upgraded { IfOk result (λ sequence. D.honest device.new → IsUpgraded (D.state device.old) (D.state device.new) sequence) }
    // In a machine of any past that nobody works in, it is a run of moves, from its begin to the device handed out.
    ensures run { IfOk result (λ _. D.honest device.new → (block : List ℕ) × LeadsThroughUpgrade (D.state device.old).shape block (D.state device.old).disk (D.state device.new).disk) }
    ensures broken { OnErr result (D.honest device.new → IsUpgradeBroken (D.state device.old) (D.state device.new)) }
    ensures moments { D.honest device.new → EachMoment (IsUpgradeMoment (D.state device.old).shape (D.state device.old).disk) (D.state device.old) (D.state device.new) }
    ensures refused { IfErr result (UpgradeRefused (D.honest device.new) (D.state device.old) (D.state device.new)) }
    ensures no_log { MatchResult result
        (λ _. 0 < (D.state device.old).shape.log_blocks)
        (λ e. (D.state device.old).shape.log_blocks ≡ 0 → (device.new ≡ device.old) × (e ≡ BadLength)) }
    ensures no_fault { OnOk result ((D.state device.new).faults ≡ (D.state device.old).faults) }
    ensures calls { (D.state device.new).calls ≤ (D.state device.old).calls + 4 }
    ensures reads { IfErr result (λ e. e ≢ DeviceFailed → (D.state device.new).calls ≤ (D.state device.old).calls + 1) }
    ensures shape { (D.state device.new).shape ≡ (D.state device.old).shape }
    ensures honest { D.honest device.new → D.honest device.old }
{
    if device.blocks(Area::Log) == 0 {
        return Err(JournalError::BadLength);
    }
    let (block, log) = read_super(alloc, device)?;
    may_be_upgraded(log.fields())?;
    let sequence = log.fields().s_sequence;
    let mut block = block;
    write_widened(device, &mut block)?;
    Ok(sequence)
}

/// Whether a log with this accepted superblock may be upgraded.
fn may_be_upgraded(fields: &Super) -> Result<(), JournalError>
    ensures ok { OnOk result ((fields.now.s_feature_incompat ≢ wide_features) × (fields.now.s_start ≡ 0)) }
    ensures err { IfErr result (IsKeptNarrow fields.now) }
{
    if fields.has_wide_numbers() {
        return Err(JournalError::AlreadyWide);
    }
    if fields.s_start != 0 {
        return Err(JournalError::NotEmpty);
    }
    Ok(())
}

/// Makes the log durable as read, then writes a wide log's superblock, durably.
fn write_widened<D: Device>(
    device: &mut D,
    superblock: &mut BlockBuffer,
) -> Result<(), JournalError>
    requires size { length superblock.old ≡ (D.state device.old).shape.block_size }
    requires allowed { IsBlockSize (length superblock.old) }
    requires there { 0 < (D.state device.old).shape.log_blocks }
    ensures made { OnOk result (HasMade (upgrade_calls superblock.old) (D.state device.old) (D.state device.new)) }
    ensures begun { OnErr result (HasBegun (upgrade_calls superblock.old) (D.state device.old) (D.state device.new)) }
    ensures faults { MatchResult result (λ _. (D.state device.new).faults ≡ (D.state device.old).faults) (IsDeviceFailure (D.state device.old) (D.state device.new)) }
    ensures calls { (D.state device.new).calls ≤ (D.state device.old).calls + 3 }
    ensures shape { (D.state device.new).shape ≡ (D.state device.old).shape }
    ensures honest { D.honest device.new → D.honest device.old }
{
    device.flush(Area::Log)?;
    superblock.widen();
    device.write(Area::Log, 0, superblock.bytes())?;
    Ok(device.flush(Area::Log)?)
}
