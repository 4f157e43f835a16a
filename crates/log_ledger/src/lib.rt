//! What an engine keeps apart from its device: accepted transactions, how far they are committed and released, and pending
//! copies. It says which device call is due and builds the block to write, but makes no call.
#![tactic(auto)]

mod close;
mod commit;
mod due;
mod ledger;
mod plan;
mod progress;
mod round;
mod text;

pub use due::Due;
pub use ledger::Ledger;
pub use plan::LogPlan;
pub use progress::Progress;
pub use text::TextWriter;
