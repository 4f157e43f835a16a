//! The library under one name: what a program takes of it, passed on from the crates that have it. There is no code here.
//!
//! At the top stand the journal of one thread, opening its log, devices in memory, and what all journals share. `threads` has the journal
//! that threads share, `files` the device over files, `nbd` the volume as a block device.
#![tactic(auto)]

pub mod files;
pub mod nbd;
pub mod threads;

pub use block_device::{Device, DeviceFault, FailOnce, MemDevice, StopAt};
pub use damaged_logs::{open_before_damage, plan_before_damage};
pub use group_commit::{
    CheckTurn, Credits, Handle, Journal, Parts, Receipt, Record, Ticket, Turn, Unrecorded,
};
pub use journal_front::KnownTransaction;
pub use journal_model::{
    Area, Block, BlockNo, HandleNo, History, Items, JournalError, LogLayout, Op, RefusalName,
    Sealed, Status, Step, Tid,
};
pub use recovery::{Opened, Plan, Report, format, open, plan_opening, upgrade};
