//! The steps of a journal that need both its front and its engine: reads, seals, commit and checkpoint turns, and direct writes. Each
//! borrows both.
#![tactic(auto)]

pub mod steps;
mod turn;

pub use turn::{CheckTurn, Turn};
