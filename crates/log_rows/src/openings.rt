//! Rows of openings and upgrades: of one log, of each that differs from it in a byte, and of random ones.
mod before_damage;
mod calls;
mod changes;
mod drawing;
mod forgetting;
mod opening;
mod planning;
mod random;
mod tally;
mod told;
mod upgrading;

pub use before_damage::openings_before_damage;
pub use calls::opening_calls;
pub use changes::changed_bytes;
pub use forgetting::forgetful_openings;
pub use opening::{failed_openings, openings, second_openings};
pub use planning::plans;
pub use random::random_logs;
pub use upgrading::{failed_upgrades, stopped_upgrades, upgrades};
