//! Opens and locks the files of a log for the commands of `jbench`, and makes devices over them.
//!
//! `regular` opens and identifies regular files and block devices, `locked` locks one, and `pairs` opens a log's two files. `ready` prepares
//! a log for a device, `room` reserves disk space, and `devices` makes devices; `unfit` says why none is made. No byte of a log's files is
//! read or written before the lock; `waiting` waits for locks, and `holder` names the process that took one. `users` names who else uses a
//! file or a block device, `layers` what is below it, `contents` what another program keeps there, and `nodes` reads the system's folder on
//! it. `text` reads a script, which is not locked.
#![tactic(auto)]

mod contents;
mod devices;
mod holder;
mod layers;
mod lines;
mod locked;
mod nodes;
mod pairs;
mod ready;
mod regular;
mod room;
mod text;
mod unfit;
mod users;
mod waiting;

pub use devices::{
    Cleared, LogCleared, Unmade, device_before, device_of, device_to_read, home_bytes, make_device,
    make_log_device, open_log, open_log_to_write, say_failure,
};
pub use locked::{FileLock, LockedFile};
pub use pairs::{
    HomeFile, KeptHome, KeptPair, LockedPair, LogFile, LogPair, ReadPair, Unopened,
    open_or_make_image, open_or_make_log, open_or_make_pair, open_script,
};
pub use regular::{
    Identity, RegularFile, Sectors, names_device, open_again, open_to_read, sectors_at,
};
pub use text::{ScriptText, TextFile, open_text};
pub use unfit::Unfit;
pub use waiting::open_pair_within;
