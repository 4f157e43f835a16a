//! The journal as a pure machine: its state beside a disk, its atomic steps, and what every run keeps.
//!
//! Nothing here runs. Contracts of the crates that run the journal cite these steps, so the laws hold of what they
//! do.
#![tactic(auto)]

pub mod laws;
mod round;
mod stage;

pub use round::Round;
pub use stage::Stage;
