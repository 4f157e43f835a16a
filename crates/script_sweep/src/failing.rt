//! Sweeps failing calls, from call to call.
ghost use Rattle.std.specs.Prelude.{◌≡◌, ◌+◌, IfOk, OnOk};
ghost use Rattle.block_device.specs.Memory.{writes_of};
ghost use Rattle.script_sweep.specs.Steps.{Steps};
ghost use Rattle.script_sweep.specs.Places.{choices_of};
ghost use Rattle.script_sweep.specs.Sweeping.{FailsCall, FailsChoice, IsFailureSweep, none_wrong};

use crate::counts::{FailureCounts, NotRight};
use crate::judging::{Ran, left_by, named_blocks};
use crate::place::{Event, SweepPlace, choices};
use crate::swept::Swept;
use jbench_words::watch::{Watch, WatchStep};
use journal_script::{NamedBlocks, Script};
use script_run::Fault;
use std::alloc::Global;
use std::io::Write;

/// Runs a script once for each device call that it makes. That call fails and does nothing, the script goes on, and the device stops at the
/// end. Each choice of the last four writes gives an image, which is opened and judged. Of a wrong opening `err` gets the options by which
/// `run` shows it, the record, and what was found.
///
/// # Errors
///
/// `Fault::Refused`: memory ran out, or the run has no numbers left. `Fault::Output`: `err` can't be written.
pub fn sweep_failures<J: Swept>(
    alloc: Global,
    journal: &J,
    script: &Script,
    watch: &mut impl Watch,
    err: &mut impl Write,
) -> Result<FailureCounts, Fault>
    ensures swept { IfOk result (IsFailureSweep J.keeps script.now) }
    ensures right { IfOk result (λ counts. J.keeps → counts.not_right ≡ none_wrong) }
{
    let named = named_blocks(alloc, script)?;
    let calls = journal.calls(alloc, script)?;
    let mut counts = FailureCounts::of_calls(calls);
    let swept = fail_calls(alloc, journal, script, &named, &mut counts, watch, err);
    watch.ends();
    swept?;
    Ok(counts)
}

fn fail_calls<J: Swept>(
    alloc: Global,
    journal: &J,
    script: &Script,
    named: &NamedBlocks,
    counts: &mut FailureCounts,
    watch: &mut impl Watch,
    err: &mut impl Write,
) -> Result<(), Fault>
    ensures swept { OnOk result (Steps (λ i. FailsCall J.keeps script.now named.now (i + 1)) counts.old.calls counts.old.not_right counts.new.not_right) }
    ensures calls { counts.new.calls ≡ counts.old.calls }
{
    let calls = counts.calls;
    for before in 0..calls {
        let call = before + 1;
        watch.goes_on(WatchStep::FailsAt { call, calls });
        let stopped = journal.run(alloc, script, None, Some(call))?;
        let ran = Ran {
            alloc,
            journal,
            stopped: &stopped,
            named,
        };
        ran.judge_failure(call, &mut counts.not_right, err)?;
    }
    Ok(())
}

impl<J: Swept> Ran<'_, J> {
    /// Judges all crash images of a run whose call `k` failed.
    fn judge_failure<E: Write>(
        &self,
        k: u64,
        not_right: &mut NotRight,
        err: &mut E,
    ) -> Result<(), Fault>
        ensures { OnOk result (Steps (FailsChoice J.keeps self.now.stopped.now self.now.named.now) (choices_of (writes_of self.now.stopped.now.device.calls)) not_right.old not_right.new) }
    {
        for bits in 0..choices(self.stopped.device.writes()) {
            self.judge_choice(k, bits, not_right, err)?;
        }
        Ok(())
    }

    /// Judges the crash image that keeps this choice of the last writes.
    fn judge_choice<E: Write>(
        &self,
        k: u64,
        bits: u64,
        not_right: &mut NotRight,
        err: &mut E,
    ) -> Result<(), Fault>
        ensures { OnOk result (FailsChoice J.keeps self.now.stopped.now self.now.named.now bits not_right.old not_right.new) }
    {
        let device = &self.stopped.device;
        let (image, keep) = left_by(self.alloc, device, device.writes(), bits)?;
        let place = SweepPlace {
            event: Event::Failure(k),
            keep: &keep,
        };
        self.judge_image(place, &image, not_right, err)?;
        Ok(())
    }
}
