//! Reads, writes and trims byte ranges of a volume through a session of `volume_service`.
//!
//! `reading` and `writing` take ranges that begin and end anywhere; a write keeps the rest of a block as a read finds it. `trimming`
//! revokes whole blocks. `numbers` starts their handles, `tickets` has what these leave, `stopped` the numbers that tell a caller when its
//! changes are committed. `leaving` ends a change of many handles that nobody waits for any more.
#![tactic(auto)]

mod leaving;
mod numbers;
mod reading;
mod stopped;
mod tickets;
mod trimming;
mod writing;

pub use leaving::Leaving;
pub use numbers::{LAST_TAKEN, numbers_left};
pub use reading::read_range;
pub use stopped::{Committed, Stopped};
pub use tickets::Tickets;
pub use trimming::{revoke_blocks, trim_range};
pub use writing::{write_range, write_zeros};
