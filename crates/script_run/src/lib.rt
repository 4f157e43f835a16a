//! Runs scripts over a device in memory that stops at a write or fails a call, and judges what openings of the crash image give back.
#![tactic(auto)]

mod blocks;
mod copying;
mod disk;
mod last_entries;
mod limit;
mod opening;
mod reopening;
mod running;
mod stops;
mod verdict;

pub use copying::{copy_image, judge_copied, run_copied};
pub use disk::{RunDevice, empty_disk, empty_log, run_device};
pub use opening::{OpenedImage, judge_opened, open_image};
pub use reopening::{Attempt, judge_reopened, open_to};
pub use running::{
    CrashedRun, StoppedRun, judge, judge_left, run, run_operations, run_operations_over,
};
pub use script_client::{AfterFailure, AnyHome, Fault, HomeFact, ZeroHome};
pub use stops::{Stop, Stops};
pub use verdict::RunRecord;
