//! Devices that may crash: the trait that the journal is proved over, a device in memory, one that stops at a write, and one
//! that fails once.
//!
//! Contracts see a device as a `DeviceState`. Not proved, and not provable here: a real disk writes each block whole or not
//! at all, and its flush makes blocks durable.
#![tactic(auto)]

mod device;
mod fail;
mod laws;
mod memory;
mod memory_index;
mod reading;
mod stop;
mod stored;
mod syncing;

pub use device::{Device, DeviceFault};
pub use fail::FailOnce;
pub use laws::a_crash_meets_one_of_the_moments;
pub use memory::{Call, MemDevice, Write};
pub use reading::read_block;
pub use stop::StopAt;
pub use stored::StoredBlock;
pub use syncing::{Durable, Syncing};
