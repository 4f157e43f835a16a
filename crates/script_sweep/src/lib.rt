//! Sweeps: a script is run with a stop at each of its writes, and with each choice of what the last writes leave. Each crash image is
//! opened, with stops in the same way, and every opening is judged. Or each device call of the script fails in turn, and the crash images
//! are opened and judged.
#![tactic(auto)]

mod calls;
mod counts;
mod failing;
mod judging;
mod place;
mod sweeping;
mod swept;

pub use calls::calls_of_run;
pub use counts::{Counts, FailureCounts, NotRight};
pub use failing::sweep_failures;
pub use script_run::{Attempt, Fault, OpenedImage, StoppedRun};
pub use sweeping::sweep;
pub use swept::{Swept, ThisJournal};
