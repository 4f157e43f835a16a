//! Scans a log block by block: what stands at each place of the ring, and where the chain of complete transactions ends.
//!
//! One block is held at a time, and no call takes memory. `specs/Scanning.antt` says what a scan finds.
#![tactic(auto)]

mod buffer;
mod cursor;
mod finding;
mod log;
mod scanning;

pub use buffer::BlockBuffer;
pub use cursor::Cursor;
pub use finding::{Finder, Found};
pub use log::Log;
pub use scanning::{ChainEnd, find_end, scan};
