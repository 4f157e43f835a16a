//! Makes a log, and opens one: it tests the log, replays the transactions that a crash left, and leaves it clean.
//!
//! `examine` tests superblock and ring, `gathering` collects the revokes and newest copies, `replaying` writes these home and marks the
//! log clean; `opening` joins them. `planning` says what an opening would do, `empty_log` formats, `upgrading` widens an empty log's
//! block numbers. `specs/Calls.antt` lists the calls of an opening, `specs/Opening.antt` its answers; `laws` ties the calls to the
//! definition of replay.
#![tactic(auto)]

mod empty_log;
mod examine;
mod gathering;
pub mod laws;
mod opening;
mod planning;
mod replaying;
mod upgrading;

pub use block_device::{Device, MemDevice};
pub use empty_log::format;
pub use examine::{lowest_ahead, read_super};
pub use gathering::{Tables, gather};
pub use journal_model::{JournalError, Tid};
pub use opening::{Opened, Report, number_from, open};
pub use planning::{Plan, count_copies, plan_opening};
pub use replaying::{clean_log, replay};
pub use upgrading::upgrade;
