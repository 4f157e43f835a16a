//! Counts the device calls of a run in which none fails.
ghost use Rattle.std.specs.Prelude.{IfOk};
ghost use Rattle.script_sweep.specs.Swept.{MakesCalls};

use journal_script::Script;
use script_client::perform;
use script_run::{AfterFailure, AnyHome, Fault, RunDevice, empty_log};
use std::alloc::Global;
use std::io;

/// How many device calls (reads, writes and flushes) a script's operations make after the opening of the empty log, without a stop or a
/// failure.
///
/// # Errors
///
/// `Fault::Refused`: memory ran out.
pub fn calls_of_run(alloc: Global, script: &Script) -> Result<u64, Fault>
    ensures { IfOk result (MakesCalls script.now) }
{
    let opened = empty_log(alloc, &script.measures, None, None)?;
    let performed = perform::<RunDevice, AnyHome, _>(
        alloc,
        opened,
        &script.operations,
        AfterFailure::End,
        &mut io::sink(),
    )?;
    Ok(performed.device.calls())
}
