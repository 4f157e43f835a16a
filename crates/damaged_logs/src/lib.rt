//! Opens a log in spite of damage, or of blocks ahead, and says what this would do. `specs/Before.antt` says which
//! transactions are taken.
#![tactic(auto)]

mod before_damage;
mod planning;
mod surveying;

pub use before_damage::open_before_damage;
pub use planning::plan_before_damage;
