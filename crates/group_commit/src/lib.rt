//! The journal of one thread: handles join a running transaction and write blocks through it; turns seal it, commit it to the log and
//! acknowledge it.
//!
//! It is a plain value: calls take `&mut self`, with no lock or thread. The engine (`log_engine`) commits batches and writes them home;
//! the front (`journal_front`) turns handles and writes into batches; `journal_steps` has the steps that need both. `recovery` opens
//! the log that a journal is made of, and what a crash leaves. The caller chooses how sealed transactions are recorded (`Record`).
//!
//! A journal is a `KnownFront`: a front with what is known of its engine, here the engine itself. The calls that a front answers by itself
//! stand there once, also for a front apart from its engine (`locked_journal`). Credits and handles come of a journal's calls alone, and
//! only a turn or a close seals a transaction, unless a caller changes one of its two public fields, and then has to show that front and
//! engine still agree.
#![tactic(auto)]

mod all_turns;
mod close;
mod direct;
mod journal;
mod known_front;
mod restart;
mod ticket;

pub use block_device::{Device, DeviceFault, MemDevice};
pub use journal::{Journal, Parts};
pub use journal_front::{Credits, Front, Handle, Record, Unrecorded};
pub use journal_model::{
    Area, Block, BlockNo, HandleNo, JournalError, Op, Sealed, Status, Step, Tid,
};
pub use journal_steps::{CheckTurn, Turn};
pub use known_front::{Itself, KnownFront, KnowsEngine};
pub use ticket::{Receipt, Ticket};
