//! A device over a log file and a home file, or over a log file alone.
//!
//! Contracts see it as a `DeviceState` of `block_device`, replayed from its calls on the files and their answers. The premises that
//! `device` names are not proved, and not provable here: for instance, that a real disk writes each block whole or not at all, and that its
//! flush makes data durable.
#![tactic(auto)]

mod ahead;
mod apart;
mod calls;
mod device;
mod durability;
mod failure;
mod fetching;
mod gathered;
mod history;
mod laws;
mod length;
mod locks;
mod unmeasured;

pub use block_device::{Device, DeviceFault};
pub use device::{Contents, FileDevice, UnknownContents};
pub use durability::make_durable;
pub use failure::{FailedCall, Failure};
pub use fetching::Fetcher;
pub use journal_model::Area;
pub use laws::{answers_that_agree_keep_the_premise, what_is_gathered_may_be_lost};
pub use length::length_of;
pub use locks::{ReadLock, Unlocked, WriteLock, lock, lock_shared};
pub use unmeasured::Unmeasured;
