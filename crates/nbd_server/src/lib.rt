//! A journal as a block device: NBD over one reader and one writer.
//!
//! `serving` runs a connection as tasks: `connection` reads requests and performs the short ones, `long_changes` and `long_reads` perform the
//! others, and `flusher` waits for commits and gives the answers that are owed after them. `handshake` comes before the requests; `asked` has
//! one, `taken` one that the volume takes with the bytes after it, and `answering` performs it. `replies` has the answers and when each may
//! be given, `queue` and `handing` what goes from task to task, `export` what is served, and `done` how it went. `ahead` has
//! what waits to be read fetched, and `interval` commits what nobody waits for.
#![tactic(auto)]

mod ahead;
mod answering;
mod asked;
mod connection;
mod done;
mod export;
mod flusher;
mod handing;
mod handshake;
mod long_changes;
mod long_reads;
mod queue;
mod replies;
mod serving;
mod taken;

pub use ahead::{NoPrefetch, Prefetch};
pub use answering::{change, perform};
pub use asked::{Asked, Gone, Payload};
pub use done::{Confirmed, Done};
pub use export::Export;
pub use flusher::release;
pub use replies::{Answer, Due, Output, ReadReply, Reply};
pub use serving::{Served, serve};
pub use taken::Taken;
pub use volume_service::{Every, Interval, NoInterval};
