//! Decides how a run of a script of clients is judged: each client in a thread of its own over one journal, and four verdicts on the
//! result.
//!
//! `plans` translates clients for the service. `running` runs them over a disk in memory and ends their journal. `told` has the journal's
//! answers to them, as plain values. `verdicts` judges that by the journal's record, and `recovery_verdict` by a crash image of the disk.
//! `command` reads the script and prints the verdicts.
#![tactic(auto)]

mod command;
mod plans;
mod recovery_verdict;
mod running;
mod told;
mod verdicts;

pub use command::threads;
pub use running::{Ended, RefusedClient, run};
pub use told::{ToldHandle, ToldReceipt};
pub use verdicts::Verdicts;
