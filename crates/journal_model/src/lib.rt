//! The terms of the journal: numbers, blocks, entries, transactions, refusals, the disk that may crash, and the log format's
//! numbers.
//!
//! `specs/` defines what all promises use; `log_model` has the definitions about logs.
#![tactic(auto)]

mod block;
pub mod disk_laws;
mod entry;
mod history;
pub mod layout;
mod list;
mod log_layout;
mod number;
mod refusal;
mod status;
mod transaction;
pub mod transaction_laws;

pub use block::Block;
pub use entry::{Batch, Content, Entry};
pub use history::History;
pub use list::Items;
pub use log_layout::LogLayout;
pub use number::{Area, BlockNo, HandleNo, Tid};
pub use refusal::{JournalError, RefusalName};
pub use status::Status;
pub use transaction::{Op, Sealed, Step};
