//! What a journal must do to be swept.
ghost use Rattle.std.specs.Prelude.{IfErr, IfOk};
ghost use Rattle.journal_model.specs.Disk.{reading};
ghost use Rattle.block_device.specs.Memory.{state_of};
ghost use Rattle.script_run.specs.OpenedImages.{IsOpenedImage, IsUnopened};
ghost use Rattle.script_run.specs.Reopening.{IsAttempt};
ghost use Rattle.script_sweep.specs.Swept.{HasRun, MakesCalls};

use crate::calls::calls_of_run;
use block_device::MemDevice;
use journal_model::JournalError;
use journal_script::Script;
use script_run::{Attempt, Fault, OpenedImage, StoppedRun, open_image, open_to, run_operations};
use std::alloc::Global;
use std::io;

/// A journal as a sweep uses it: it runs a script, and opens crash images.
pub trait Swept {
    /// That it keeps the contracts of this project's journal.
    ghost keeps: { Type 0 };

    /// Runs a script over a device in memory that stops at write `stop`, or at the end. Call `failing_call`, if given, fails and does
    /// nothing, and the operations go on. Both are counted from 1 after the first opening.
    ///
    /// # Errors
    ///
    /// `Fault::Refused`: memory ran out.
    fn run(
        &self,
        alloc: Global,
        script: &Script,
        stop: Option<u64>,
        failing_call: Option<u64>,
    ) -> Result<StoppedRun, Fault>
        ensures { IfOk result (λ stopped. keeps → HasRun script.now stop failing_call stopped) };

    /// How many device calls (reads, writes and flushes) a run of a script makes after the first opening, if none fails.
    ///
    /// # Errors
    ///
    /// `Fault::Refused`: memory ran out.
    fn calls(&self, alloc: Global, script: &Script) -> Result<u64, Fault>
        ensures { IfOk result (λ calls. keeps → MakesCalls script.now calls) };

    /// Opens a crash image.
    ///
    /// # Errors
    ///
    /// Those of an opening: `Memory`, `Device`, or a refusal of the image's contents.
    fn open(&self, alloc: Global, image: MemDevice) -> Result<OpenedImage, JournalError>
        ensures opened { IfOk result (λ opened. keeps → IsOpenedImage image.shape (state_of image).disk opened) }
        ensures err { IfErr result (λ e. keeps → IsUnopened image.shape (reading (state_of image).disk) e) };

    /// Opens a crash image over a device that stops at write `k` of the opening, counted from 1.
    ///
    /// # Errors
    ///
    /// Those of an opening that failed before that write.
    fn open_to(&self, alloc: Global, image: MemDevice, k: u64) -> Result<Attempt, JournalError>
        ensures attempt { IfOk result (λ attempt. keeps → IsAttempt (state_of image) k attempt) }
        ensures err { IfErr result (λ e. keeps → IsUnopened image.shape (reading (state_of image).disk) e) };
}

/// The journal of this project.
#[derive(Clone, Copy, Debug)]
pub struct ThisJournal;

impl Swept for ThisJournal {
    ghost keeps = { Unit {0} };

    fn run(
        &self,
        alloc: Global,
        script: &Script,
        stop: Option<u64>,
        failing_call: Option<u64>,
    ) -> Result<StoppedRun, Fault> {
        run_operations(alloc, script, stop, failing_call, &mut io::sink())
    }

    fn calls(&self, alloc: Global, script: &Script) -> Result<u64, Fault> {
        calls_of_run(alloc, script)
    }

    fn open(&self, alloc: Global, image: MemDevice) -> Result<OpenedImage, JournalError> {
        open_image(alloc, image)
    }

    fn open_to(&self, alloc: Global, image: MemDevice, k: u64) -> Result<Attempt, JournalError> {
        open_to(alloc, image, k)
    }
}
