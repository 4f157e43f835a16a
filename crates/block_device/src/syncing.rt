//! The wait for a flush, apart from the device.
//!
//! No proof sees what a sync does: a `Durable` is made of one that answered Ok, and of nothing else.
use journal_model::Area;
use std::fs::File;
use std::sync::Arc;

/// Waits until an area's file is durable, without its device, which others may use meanwhile.
#[derive(Drop)]
pub struct Syncing {
    file: Arc<File>,
    area: Area,
    changes: u64,
}

/// An area's file was made durable, with as many of its changes as its device had made when the wait began.
#[derive(Drop)]
pub struct Durable {
    area: Area,
    changes: u64,
}

impl Syncing {
    /// A wait for an area's file, which its device has changed so often.
    pub fn new(file: Arc<File>, area: Area, changes: u64) -> Syncing {
        Syncing {
            file,
            area,
            changes,
        }
    }

    /// Waits. `None` if the sync fails: the device's own sync then tells of that.
    pub fn wait(self) -> Option<Durable> {
        let Syncing {
            file,
            area,
            changes,
        } = self;
        match file.sync_data() {
            Ok(()) => Some(Durable { area, changes }),
            Err(_) => None,
        }
    }
}

impl Durable {
    /// The area.
    pub fn area(&self) -> Area {
        self.area
    }

    /// How often the device had changed its file.
    pub fn changes(&self) -> u64 {
        self.changes
    }
}
