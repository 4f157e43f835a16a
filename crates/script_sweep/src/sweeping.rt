//! Sweeps stops, from stop to stop.
ghost use Rattle.std.specs.Prelude.{◌≡◌, ◌+◌, IfOk, OnOk, Some};
ghost use Rattle.script_sweep.specs.Steps.{Steps};
ghost use Rattle.script_sweep.specs.Places.{choices_of};
ghost use Rattle.script_sweep.specs.Sweeping.{IsSweep, JudgesAgain, SweepsAgain, SweepsChoice, SweepsFound, SweepsImage, SweepsOpening, SweepsStop, capped, images_of, none_wrong};

use crate::counts::{Counts, NotRight};
use crate::judging::{ImageFinding, Ran, copy_of, left_by, named_blocks};
use crate::place::{Event, SweepPlace, choices};
use crate::swept::Swept;
use block_device::MemDevice;
use jbench_words::watch::{Watch, WatchStep};
use journal_script::{NamedBlocks, Script};
use recovery::Report;
use script_run::{Attempt, Fault, OpenedImage, judge_reopened};
use std::alloc::Global;
use std::io::Write;

/// Runs a script with a stop at each of its writes. Each choice of the last four writes gives an image, which is opened. That opening is
/// stopped at each of its writes in the same way, and its crash images are opened. Each opening is judged. Of a wrong one `err` gets the
/// options by which `run` shows it, the record, and what was found.
///
/// # Errors
///
/// `Fault::Refused`: memory ran out, or the run has no numbers left. `Fault::Output`: `err` can't be written.
pub fn sweep<J: Swept>(
    alloc: Global,
    journal: &J,
    script: &Script,
    watch: &mut impl Watch,
    err: &mut impl Write,
) -> Result<Counts, Fault>
    ensures swept { IfOk result (IsSweep J.keeps script.now) }
    ensures images { IfOk result (λ counts. counts.images ≡ capped (images_of counts.writes)) }
    ensures right { IfOk result (λ counts. J.keeps → counts.not_right ≡ none_wrong) }
{
    let named = named_blocks(alloc, script)?;
    let whole = journal.run(alloc, script, None, None)?;
    let mut counts = Counts::of_writes(whole.device.writes());
    let swept = sweep_stops(alloc, journal, script, &named, &mut counts, watch, err);
    watch.ends();
    swept?;
    Ok(counts)
}

fn sweep_stops<J: Swept>(
    alloc: Global,
    journal: &J,
    script: &Script,
    named: &NamedBlocks,
    counts: &mut Counts,
    watch: &mut impl Watch,
    err: &mut impl Write,
) -> Result<(), Fault>
    ensures { OnOk result (Steps (λ i. SweepsStop J.keeps script.now named.now (i + 1)) counts.old.writes counts.old counts.new) }
{
    let writes = counts.writes;
    for before in 0..writes {
        let write = before + 1;
        watch.goes_on(WatchStep::StopsAt { write, writes });
        let stopped = journal.run(alloc, script, Some(write), None)?;
        let ran = Ran {
            alloc,
            journal,
            stopped: &stopped,
            named,
        };
        ran.sweep_stop(write, counts, err)?;
    }
    Ok(())
}

/// Where a run stopped, and what the opening of its crash image found.
#[derive(Clone, Copy)]
struct First<'a> {
    place: SweepPlace<'a>,
    report: Report,
}

impl<J: Swept> Ran<'_, J> {
    fn sweep_stop<E: Write>(&self, k: u64, counts: &mut Counts, err: &mut E) -> Result<(), Fault>
        ensures { OnOk result (Steps (SweepsChoice J.keeps self.now.stopped.now self.now.named.now k) (choices_of k) counts.old counts.new) }
    {
        for bits in 0..choices(k) {
            self.sweep_choice(k, bits, counts, err)?;
        }
        Ok(())
    }

    /// Sweeps the crash image that keeps this choice of the last writes.
    fn sweep_choice<E: Write>(
        &self,
        k: u64,
        bits: u64,
        counts: &mut Counts,
        err: &mut E,
    ) -> Result<(), Fault>
        ensures { OnOk result (SweepsChoice J.keeps self.now.stopped.now self.now.named.now k bits counts.old counts.new) }
    {
        let (image, keep) = left_by(self.alloc, &self.stopped.device, k, bits)?;
        counts.images = counts.images.saturating_add(1);
        let place = SweepPlace {
            event: Event::Stop(k),
            keep: &keep,
        };
        self.sweep_image(place, &image, counts, err)
    }

    fn sweep_image<E: Write>(
        &self,
        place: SweepPlace<'_>,
        image: &MemDevice,
        counts: &mut Counts,
        err: &mut E,
    ) -> Result<(), Fault>
        ensures { OnOk result (SweepsImage J.keeps self.now.stopped.now self.now.named.now image.now counts.old counts.new) }
    {
        match self.judge_image(place, image, &mut counts.not_right, err)? {
            Some(found) => self.sweep_openings(place, image, found, counts, err),
            None => Ok(()),
        }
    }

    fn sweep_openings<E: Write>(
        &self,
        place: SweepPlace<'_>,
        image: &MemDevice,
        found: ImageFinding,
        counts: &mut Counts,
        err: &mut E,
    ) -> Result<(), Fault>
        ensures { OnOk result (SweepsFound J.keeps self.now.stopped.now self.now.named.now image.now (Some found) counts.old counts.new) }
    {
        let first = First {
            place,
            report: found.report,
        };
        for before in 0..found.writes {
            self.sweep_opening(first, image, before + 1, counts, err)?;
        }
        Ok(())
    }

    /// Sweeps all crash images of a stop at write `j` of an opening.
    fn sweep_opening<E: Write>(
        &self,
        first: First<'_>,
        image: &MemDevice,
        j: u64,
        counts: &mut Counts,
        err: &mut E,
    ) -> Result<(), Fault>
        ensures { OnOk result (SweepsOpening J.keeps self.now.stopped.now self.now.named.now image.now first.entry.report j counts.old counts.new) }
    {
        match self.journal.open_to(self.alloc, copy_of(image)?, j) {
            Ok(Attempt::Stopped(device)) => {
                self.sweep_stopped_opening(first, j, &device, counts, err)
            }
            // Not reached: the opening of this image made that write.
            Ok(Attempt::Whole(_)) => Ok(()),
            Err(e) => self.note_refusal(first.place, None, e, &mut counts.not_right, err),
        }
    }

    fn sweep_stopped_opening<E: Write>(
        &self,
        first: First<'_>,
        j: u64,
        device: &MemDevice,
        counts: &mut Counts,
        err: &mut E,
    ) -> Result<(), Fault>
        ensures { OnOk result (Steps (SweepsAgain J.keeps self.now.stopped.now self.now.named.now first.entry.report j device.now) (choices_of j) counts.old counts.new) }
    {
        for bits in 0..choices(j) {
            self.sweep_again(first, j, bits, device, counts, err)?;
        }
        Ok(())
    }

    /// Opens the crash image that keeps this choice of the last writes, and judges it by what the first image's log held.
    fn sweep_again<E: Write>(
        &self,
        first: First<'_>,
        j: u64,
        bits: u64,
        device: &MemDevice,
        counts: &mut Counts,
        err: &mut E,
    ) -> Result<(), Fault>
        ensures { OnOk result (SweepsAgain J.keeps self.now.stopped.now self.now.named.now first.entry.report j device.now bits counts.old counts.new) }
    {
        let (left, keep) = left_by(self.alloc, device, j, bits)?;
        counts.again = counts.again.saturating_add(1);
        let again = SweepPlace {
            event: Event::StopOfOpening(j),
            keep: &keep,
        };
        match self.journal.open(self.alloc, left) {
            Ok(opened) => self.judge_again(first, again, opened, &mut counts.not_right, err),
            Err(e) => self.note_refusal(first.place, Some(again), e, &mut counts.not_right, err),
        }
    }

    fn judge_again<E: Write>(
        &self,
        first: First<'_>,
        again: SweepPlace<'_>,
        opened: OpenedImage,
        not_right: &mut NotRight,
        err: &mut E,
    ) -> Result<(), Fault>
        ensures { OnOk result (JudgesAgain self.now.stopped.now self.now.named.now first.entry.report opened not_right.old not_right.new) }
    {
        let mut lines = Vec::new(self.alloc);
        let recorded = &self.stopped.recorded;
        let right = judge_reopened(
            self.alloc,
            opened,
            first.report,
            recorded,
            self.named,
            &mut lines,
        )?;
        self.note_verdict(first.place, Some(again), right, &lines, not_right, err)
    }
}
