//! The entries of the running transaction and of the one being committed, where both may have one of a block. A write by the running
//! one leaves those of the other, and a seal copies nothing.
#![tactic(auto)]

mod cache;

pub use cache::VersionCache;
