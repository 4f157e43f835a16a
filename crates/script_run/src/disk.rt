//! The disk of a run, and the device over it.
ghost use Rattle.std.specs.Prelude.{◌≡◌, IfOk};
ghost use Rattle.block_device.specs.Memory.{state_of};
ghost use Rattle.script_client.specs.Told.{IsZeroHome};
ghost use Rattle.script_run.specs.Disks.{IsEmptyLog, IsOpenedAnew, run_device_over, run_state};

use block_device::{FailOnce, MemDevice, StopAt};
use journal_model::JournalError;
use journal_script::Measures;
use recovery::{Opened, format, open};
use std::alloc::Global;

/// `StopAt` and `FailOnce` take this for no stop and no failure.
pub(crate) const NEVER: u64 = 0;

/// The device of a run: a disk in memory that may lose power at one of its writes, and one of whose calls may fail.
pub type RunDevice = FailOnce<StopAt<MemDevice>>;

/// Makes a disk in memory with an empty log of these measures, all durable. Its writes are numbered from 1.
///
/// # Errors
///
/// `Device`: no memory for its blocks. `BadBlockSize`, `BadLength`: the measures exceed their limits.
pub fn empty_disk(alloc: Global, measures: &Measures) -> Result<MemDevice, JournalError>
    ensures { IfOk result (λ disk. IsEmptyLog measures.now (state_of disk)) }
{
    let log_blocks = u64::from(measures.log_blocks);
    let mut device = MemDevice::new(alloc, measures.block_size, log_blocks, measures.home_blocks);
    format(
        &mut device,
        measures.log_blocks,
        &measures.uuid,
        measures.wide,
    )?;
    // All is flushed, so this loses nothing, and numbers the writes from 1 again.
    Ok(device.crash(&[]))
}

/// A device over a disk that stops at write `stop` and fails call `fail`, if given, both counted from now on.
pub fn run_device(disk: MemDevice, stop: Option<u64>, fail: Option<u64>) -> RunDevice
    ensures { result ≡ run_device_over disk stop fail }
{
    FailOnce::new(
        StopAt::new(disk, stop.unwrap_or(NEVER)),
        fail.unwrap_or(NEVER),
    )
}

/// Opens an empty log of these measures, over a device that stops at write `stop` and fails call `fail`, if given. Both are counted from 1
/// after the opening, which makes no write.
///
/// # Errors
///
/// Those of `empty_disk`, and `Memory`.
pub fn empty_log(
    alloc: Global,
    measures: &Measures,
    stop: Option<u64>,
    fail: Option<u64>,
) -> Result<Opened<RunDevice>, JournalError>
    ensures anew { IfOk result (IsOpenedAnew measures.now stop fail) }
    ensures home { IfOk result (λ opened. IsZeroHome (run_state opened.device).shape (run_state opened.device).disk) }
{
    let disk = empty_disk(alloc, measures)?;
    match open(alloc, disk) {
        Ok(opened) => Ok(with_stops(opened, stop, fail)),
        Err((_, e)) => Err(e),
    }
}

fn with_stops(opened: Opened<MemDevice>, stop: Option<u64>, fail: Option<u64>) -> Opened<RunDevice>
    ensures device { result.device ≡ run_device_over opened.device stop fail }
    ensures superblock { result.superblock ≡ opened.superblock }
    ensures next { result.next ≡ opened.next }
{
    let report = opened.report();
    let (disk, superblock, next) = opened.into_parts();
    Opened::from_parts(run_device(disk, stop, fail), superblock, next, report)
}
