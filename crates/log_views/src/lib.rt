//! Views of a log, which write nothing: how much of its ring is used (`ring`), one copy by its place (`copies`), and a home block as an
//! opening would leave it (`leaving`, on a copy in memory).
#![tactic(auto)]

mod copies;
mod leaving;
mod ring;

pub use copies::{Copy, copy_at};
pub use leaving::block_left;
pub use ring::{RingUse, read_log, ring_use};
