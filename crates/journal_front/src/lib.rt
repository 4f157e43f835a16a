//! The front of a journal: the transaction that handles join, and the record of sealed ones. It knows no device and no engine.
//!
//! A front alone makes, changes and ends credits and handles. Its owner can do so, and seal its transaction: keep it out of callers'
//! reach, as `group_commit::Journal` does. The owner chooses how sealed transactions are recorded (`record`).
//!
//! A transaction (`transaction`) takes handles until it is locked, and their steps until it is sealed. It has one entry for each block
//! touched, left by the last write or revoke, in the order of the first touches.
#![tactic(auto)]

mod front;
mod handle;
mod known;
pub mod laws;
mod record;
mod transaction;

pub use front::Front;
pub use handle::{Credits, Handle};
pub use known::KnownTransaction;
pub use record::{Record, Unrecorded};
pub use transaction::{Touch, Transaction};
