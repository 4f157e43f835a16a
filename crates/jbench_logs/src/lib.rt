//! Formats, dumps, recovers and upgrades a log, over a device.
//!
//! `logs` has `format`, `dump`, `recover` and `upgrade`. `damage` opens damaged logs and logs that are ahead, `plans` says what openings
//! would do, and `recovering` picks one for `recover`. `objects` has the parts of what is printed as JSON, and `features` names the features
//! of a superblock. `overwriting` says whether a log may be overwritten, `reasons` explains a refusal, `ways_out` says what an owner can
//! do, and `watched` is a device that reports its calls. `jbench_files` opens the files of devices.
#![tactic(auto)]

pub mod damage;
pub mod features;
pub mod logs;
pub mod objects;
pub mod overwriting;
pub mod plans;
mod reasons;
pub mod recovering;
pub mod watched;
pub mod ways_out;
