//! The journals on which rows run scripts.
use block_device::Device;
use journal_script::{Operation, Script};
use recovery::Opened;
use script_run::{AfterFailure, AnyHome, Fault, RunDevice, StoppedRun, Stops};
use std::alloc::Global;
use std::sync::Wait;

/// A journal that runs scripts as `script_run` does.
pub trait Runner {
    /// Runs a script, prints its lines and the verdict, and answers the verdict.
    ///
    /// # Errors
    ///
    /// Those of `script_run::run`.
    fn run(
        &self,
        alloc: Global,
        script: &Script,
        stops: &Stops<'_>,
        out: &mut Vec<u8>,
    ) -> Result<bool, Fault>;

    /// As `run`, and copies the crash image to a device.
    ///
    /// # Errors
    ///
    /// Those of `script_run::run_copied`.
    fn run_copied<D: Device>(
        &self,
        alloc: Global,
        script: &Script,
        stops: &Stops<'_>,
        to: &mut D,
        out: &mut Vec<u8>,
    ) -> Result<bool, Fault>;

    /// Runs a script's operations on an empty log.
    ///
    /// # Errors
    ///
    /// Those of `script_run::run_operations`.
    fn run_operations(
        &self,
        alloc: Global,
        script: &Script,
        stop: Option<u64>,
        failing_call: Option<u64>,
        out: &mut Vec<u8>,
    ) -> Result<StoppedRun, Fault>;

    /// Runs operations on an opened log.
    ///
    /// # Errors
    ///
    /// Those of `script_run::run_operations_over`.
    fn run_operations_over(
        &self,
        alloc: Global,
        opened: Opened<RunDevice>,
        operations: &[Operation],
        out: &mut Vec<u8>,
    ) -> Result<StoppedRun, Fault>;
}

/// The journal of one thread.
#[derive(Clone, Copy)]
pub struct OneThreadRunner;

impl Runner for OneThreadRunner {
    fn run(
        &self,
        alloc: Global,
        script: &Script,
        stops: &Stops<'_>,
        out: &mut Vec<u8>,
    ) -> Result<bool, Fault> {
        script_run::run(alloc, script, stops, out)
    }

    fn run_copied<D: Device>(
        &self,
        alloc: Global,
        script: &Script,
        stops: &Stops<'_>,
        to: &mut D,
        out: &mut Vec<u8>,
    ) -> Result<bool, Fault> {
        script_run::run_copied(alloc, script, stops, to, out)
    }

    fn run_operations(
        &self,
        alloc: Global,
        script: &Script,
        stop: Option<u64>,
        failing_call: Option<u64>,
        out: &mut Vec<u8>,
    ) -> Result<StoppedRun, Fault> {
        script_run::run_operations(alloc, script, stop, failing_call, out)
    }

    fn run_operations_over(
        &self,
        alloc: Global,
        opened: Opened<RunDevice>,
        operations: &[Operation],
        out: &mut Vec<u8>,
    ) -> Result<StoppedRun, Fault> {
        script_run::run_operations_over::<AnyHome, _>(
            alloc,
            opened,
            operations,
            AfterFailure::End,
            None,
            out,
        )
    }
}

/// The journal that threads share.
#[derive(Clone, Copy)]
pub struct SharedRunner<'a, R>(pub &'a R);

impl<R: Wait> Runner for SharedRunner<'_, R> {
    fn run(
        &self,
        alloc: Global,
        script: &Script,
        stops: &Stops<'_>,
        out: &mut Vec<u8>,
    ) -> Result<bool, Fault> {
        shared_runs::run(self.0, alloc, script, stops, out)
    }

    fn run_copied<D: Device>(
        &self,
        alloc: Global,
        script: &Script,
        stops: &Stops<'_>,
        to: &mut D,
        out: &mut Vec<u8>,
    ) -> Result<bool, Fault> {
        shared_runs::run_copied(self.0, alloc, script, stops, to, out)
    }

    fn run_operations(
        &self,
        alloc: Global,
        script: &Script,
        stop: Option<u64>,
        failing_call: Option<u64>,
        out: &mut Vec<u8>,
    ) -> Result<StoppedRun, Fault> {
        shared_runs::run_operations(self.0, alloc, script, stop, failing_call, out)
    }

    fn run_operations_over(
        &self,
        alloc: Global,
        opened: Opened<RunDevice>,
        operations: &[Operation],
        out: &mut Vec<u8>,
    ) -> Result<StoppedRun, Fault> {
        shared_runs::run_operations_over(
            self.0,
            alloc,
            opened,
            operations,
            AfterFailure::End,
            None,
            out,
        )
    }
}
