//! Opens and judges the crash images of a run, and counts and prints each that is not right.
ghost use Rattle.std.specs.Prelude.{◌≡◌, ◌≢◌, IfOk, IsTrue, OnOk, false, true};
ghost use Rattle.journal_model.specs.declared.refusal.JournalError.TheVariants.{Device, Memory, SequenceEnd};
ghost use Rattle.journal_script.specs.Named.{AreNamedBy};
ghost use Rattle.script_run.specs.Left.{IsCrashOf};
ghost use Rattle.script_run.specs.Numbers.{HasNumbersLeft};
ghost use Rattle.script_sweep.specs.Places.{kept_of};
ghost use Rattle.script_sweep.specs.Sweeping.{CountsRefusal, IsJudged, JudgesFirst};
ghost use Rattle.script_sweep.specs.Swept.{one_more};

use crate::counts::NotRight;
use crate::place::{SweepPlace, choice};
use crate::swept::Swept;
use block_device::MemDevice;
use journal_model::JournalError;
use journal_script::{NamedBlocks, Script};
use recovery::Report;
use script_run::{Fault, OpenedImage, StoppedRun, judge_opened};
use std::alloc::Global;
use std::io;
use std::io::Write;

/// A run that stopped, on a journal, and the blocks that its script names.
#[derive(Clone, Copy)]
pub(crate) struct Ran<'a, J> {
    pub(crate) alloc: Global,
    pub(crate) journal: &'a J,
    /// The stopped run.
    pub(crate) stopped: &'a StoppedRun,
    /// The blocks that the script names.
    pub(crate) named: &'a NamedBlocks,
}

/// What an opening of an image found, and how many writes it made.
#[derive(Clone, Copy)]
pub(crate) struct ImageFinding {
    pub(crate) report: Report,
    pub(crate) writes: u64,
}

impl<J: Swept> Ran<'_, J> {
    /// Opens and judges a crash image. `None`: it was refused.
    ///
    /// # Errors
    ///
    /// `Fault::Refused`: memory ran out, or a refusal is not of the image's contents. `Fault::Output`: `err` can't be written.
    pub(crate) fn judge_image<E: Write>(
        &self,
        place: SweepPlace<'_>,
        image: &MemDevice,
        not_right: &mut NotRight,
        err: &mut E,
    ) -> Result<Option<ImageFinding>, Fault>
        ensures { IfOk result (λ found. IsJudged J.keeps self.now.stopped.now self.now.named.now image.now not_right.old found not_right.new) }
    {
        match self.journal.open(self.alloc, copy_of(image)?) {
            Ok(opened) => {
                let found = ImageFinding {
                    report: opened.report,
                    writes: opened.device.writes(),
                };
                self.judge_first(place, opened, not_right, err)?;
                Ok(Some(found))
            }
            Err(e) => {
                self.note_refusal(place, None, e, not_right, err)?;
                Ok(None)
            }
        }
    }

    fn judge_first<E: Write>(
        &self,
        place: SweepPlace<'_>,
        opened: OpenedImage,
        not_right: &mut NotRight,
        err: &mut E,
    ) -> Result<(), Fault>
        ensures { OnOk result (JudgesFirst self.now.stopped.now self.now.named.now opened not_right.old not_right.new) }
    {
        let mut lines = Vec::new(self.alloc);
        let recorded = &self.stopped.recorded;
        let right = judge_opened(self.alloc, opened, recorded, self.named, &mut lines)?;
        self.note_verdict(place, None, right, &lines, not_right, err)
    }

    /// Counts and prints a false verdict; `lines` have what the opening found.
    pub(crate) fn note_verdict<E: Write>(
        &self,
        place: SweepPlace<'_>,
        again: Option<SweepPlace<'_>>,
        right: bool,
        lines: &[u8],
        not_right: &mut NotRight,
        err: &mut E,
    ) -> Result<(), Fault>
        ensures right { right ≡ true → not_right.new ≡ not_right.old }
        ensures wrong { right ≡ false → not_right.new ≡ record not_right.old { wrong = one_more not_right.old.wrong } }
    {
        if right {
            return Ok(());
        }
        not_right.wrong = not_right.wrong.saturating_add(1);
        self.name(place, again, err)?;
        err.write_all(lines)?;
        Ok(())
    }

    /// Counts and prints a refused image. Fails if the refusal is not of the image's contents.
    pub(crate) fn note_refusal<E: Write>(
        &self,
        place: SweepPlace<'_>,
        again: Option<SweepPlace<'_>>,
        e: JournalError,
        not_right: &mut NotRight,
        err: &mut E,
    ) -> Result<(), Fault>
        ensures { OnOk result (CountsRefusal self.now.stopped.now e not_right.old not_right.new) }
    {
        if !self.is_of_content(e) {
            return Err(Fault::Refused(e));
        }
        not_right.refused = not_right.refused.saturating_add(1);
        self.name(place, again, err)?;
        writeln!(err, "refused {} {}", e.number(), e.name())?;
        Ok(())
    }

    /// Whether a refusal is of the image's contents: memory and the device did not fail, and the run had numbers left.
    fn is_of_content(&self, e: JournalError) -> bool
        ensures device { IsTrue result → e ≢ Device }
        ensures memory { IsTrue result → e ≢ Memory }
        ensures numbers { IsTrue result → e ≡ SequenceEnd → HasNumbersLeft self.now.stopped.now.recorded.sealed.items }
    {
        match e {
            JournalError::Memory | JournalError::Device => false,
            JournalError::SequenceEnd => self.stopped.recorded.has_numbers_left(),
            _ => true,
        }
    }

    fn name<E: Write>(
        &self,
        place: SweepPlace<'_>,
        again: Option<SweepPlace<'_>>,
        err: &mut E,
    ) -> io::Result<()> {
        write!(err, "not right:{place}")?;
        if let Some(again) = again {
            write!(err, "{again}")?;
        }
        let recorded = &self.stopped.recorded;
        match recorded.acknowledged {
            Some(tid) => write!(err, ", acknowledged {}", tid.0)?,
            None => write!(err, ", acknowledged none")?,
        }
        writeln!(err, ", sealed {}", recorded.sealed.len())
    }
}

pub(crate) fn copy_of(device: &MemDevice) -> Result<MemDevice, JournalError>
    ensures { IfOk result (λ copy. copy ≡ device.now) }
{
    match device.try_clone() {
        Ok(copy) => Ok(copy),
        Err(e) => Err(JournalError::from(e)),
    }
}

/// The crash image that keeps this choice of the last writes up to write `k`, and the kept writes.
pub(crate) fn left_by(
    alloc: Global,
    device: &MemDevice,
    k: u64,
    bits: u64,
) -> Result<(MemDevice, Vec<u64>), JournalError>
    ensures { IfOk result (λ left. IsCrashOf device.now (kept_of k bits) left.0) }
{
    let keep = choice(alloc, k, bits)?;
    let image = crashed(device, &keep)?;
    Ok((image, keep))
}

fn crashed(device: &MemDevice, keep: &[u64]) -> Result<MemDevice, JournalError>
    ensures { IfOk result (IsCrashOf device.now keep.now) }
{
    Ok(copy_of(device)?.crash(keep))
}

pub(crate) fn named_blocks(alloc: Global, script: &Script) -> Result<NamedBlocks, JournalError>
    ensures { IfOk result (AreNamedBy script.now) }
{
    match script.named_blocks(alloc) {
        Ok(named) => Ok(named),
        Err(e) => Err(JournalError::from(e)),
    }
}
