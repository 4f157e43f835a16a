//! The pending copies of a journal: committed copies of home blocks that are not yet known to be durable at home.
//!
//! A commit adds copies and drops those that its entries replace or revoke; a round writes them home, oldest
//! transactions first, and releases them. Only places are kept here, no bytes.
#![tactic(auto)]

mod copies;
mod pending;
mod steps;
mod version;

pub use pending::Pending;
pub use version::{HomeCopy, Version};
