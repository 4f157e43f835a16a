//! Brings bytes of home into the system's memory before they are read.
use std::fs::File;
use std::os::unix::fs::FileExt;

/// How many bytes one call reads.
const PIECE: usize = 4096;

/// Reads home through a file of its own, and keeps nothing. It is no call of the device: it changes nothing and hands out nothing. What it
/// reads the system has in its memory afterwards, so the device's read of it need not wait for the disk.
#[derive(Drop)]
pub struct Fetcher {
    pub(crate) home: File,
}

impl Fetcher {
    /// Reads these bytes, as far as the system does it.
    pub fn fetch(&self, offset: u64, length: u64) {
        let mut unused = [0; PIECE];
        let mut at = offset;
        for _ in 0..length.div_ceil(PIECE as u64) {
            let Ok(_read) = self.home.read_at(&mut unused, at) else {
                return;
            };
            at = at.saturating_add(PIECE as u64);
        }
    }
}
