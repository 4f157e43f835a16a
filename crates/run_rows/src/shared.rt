//! The journal that threads share, as a sweep uses it.
use block_device::MemDevice;
use journal_model::JournalError;
use journal_script::Script;
use script_run::{Attempt, Fault, OpenedImage, StoppedRun, open_image, open_to};
use script_sweep::Swept;
use std::alloc::Global;
use std::sync::Wait;

/// The journal that threads share.
#[derive(Clone, Copy)]
pub struct SharedJournal<'a, R>(pub &'a R);

impl<R: Wait> Swept for SharedJournal<'_, R> {
    ghost keeps = { ⊥ };

    fn run(
        &self,
        alloc: Global,
        script: &Script,
        stop: Option<u64>,
        failing_call: Option<u64>,
    ) -> Result<StoppedRun, Fault> {
        let mut out = Vec::new(alloc);
        shared_runs::run_operations(self.0, alloc, script, stop, failing_call, &mut out)
    }

    fn calls(&self, alloc: Global, script: &Script) -> Result<u64, Fault> {
        shared_runs::calls_of_run(self.0, alloc, script)
    }

    fn open(&self, alloc: Global, image: MemDevice) -> Result<OpenedImage, JournalError> {
        open_image(alloc, image)
    }

    fn open_to(&self, alloc: Global, image: MemDevice, k: u64) -> Result<Attempt, JournalError> {
        open_to(alloc, image, k)
    }
}
