//! Which promises hold over the whole life of a log, in epochs from one opening to the next.
//!
//! The specs define an opening as a machine of steps, an engine with its device, and the journal above it. Nothing here
//! runs.
#![tactic(auto)]

pub mod laws;
