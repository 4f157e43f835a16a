//! A device over a log file and a home file, and the locks that keep other programs off them.

pub use file_device::{
    Contents, FailedCall, Failure, FileDevice, ReadLock, UnknownContents, Unlocked, Unmeasured,
    WriteLock, lock, lock_shared, make_durable,
};
