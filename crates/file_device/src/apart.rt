//! Syncs that are waited for apart from a device.
use block_device::{Durable, Syncing};
use journal_model::Area;
use std::fs::File;
use std::mem;
use std::os::unix::fs::MetadataExt;
use std::sync::Arc;

/// An area's file, opened once more: the system then tells this opening of a failed sync, and the device's too.
#[derive(Drop)]
struct SecondOpening {
    file: Option<Arc<File>>,
    /// How often the device has changed the file, or tried to.
    changes: u64,
    /// That it was made durable, the last time that somebody waited for that.
    durable: Option<Durable>,
}

impl SecondOpening {
    fn new() -> SecondOpening {
        SecondOpening {
            file: None,
            changes: 0,
            durable: None,
        }
    }

    fn begin(&self, area: Area) -> Option<Syncing> {
        if self.changes == u64::MAX {
            return None;
        }
        let file = Arc::clone(self.file.as_ref()?).ok()?;
        Some(Syncing::new(file, area, self.changes))
    }

    /// That it was made durable, if it has not changed since that wait began. Asked once.
    fn take(&mut self) -> Option<Durable> {
        let durable = mem::replace(&mut self.durable, None)?;
        if durable.changes() == self.changes {
            Some(durable)
        } else {
            None
        }
    }
}

/// The files of a device, opened once more.
#[derive(Drop)]
pub(crate) struct Apart {
    log: SecondOpening,
    home: SecondOpening,
}

impl Apart {
    /// None is.
    pub(crate) fn new() -> Apart {
        Apart {
            log: SecondOpening::new(),
            home: SecondOpening::new(),
        }
    }

    fn of(&mut self, area: Area) -> &mut SecondOpening {
        match area {
            Area::Log => &mut self.log,
            Area::Home => &mut self.home,
        }
    }

    /// From now on waits for an area go by this file.
    pub(crate) fn give(&mut self, area: Area, file: Arc<File>) {
        self.of(area).file = Some(file);
    }

    /// The device has changed an area's file, or tried to.
    pub(crate) fn note_change(&mut self, area: Area) {
        let opening = self.of(area);
        opening.changes = opening.changes.saturating_add(1);
    }

    /// What waits for an area's file, if it is open once more.
    pub(crate) fn begin(&mut self, area: Area) -> Option<Syncing> {
        self.of(area).begin(area)
    }

    /// Takes what came of such a wait.
    pub(crate) fn end(&mut self, durable: Durable) {
        let opening = self.of(durable.area());
        opening.durable = Some(durable);
    }

    /// That an area's file was made durable with all its changes, if somebody waited for that since this was last asked.
    pub(crate) fn take(&mut self, area: Area) -> Option<Durable> {
        self.of(area).take()
    }
}

/// Whether these are openings of one file.
pub(crate) fn are_openings_of_one(one: &File, other: &File) -> bool {
    let (Ok(one), Ok(other)) = (one.metadata(), other.metadata()) else {
        return false;
    };
    one.dev() == other.dev() && one.ino() == other.ino()
}
