//! How long a file or a block device is.
use std::fs::File;
use std::io;
use std::io::{Seek, SeekFrom};
use std::os::unix::fs::FileTypeExt;

/// The bytes of a regular file or a block device; the system tells a device's only by its end. Moves the file's position.
///
/// # Errors
///
/// The system's answer.
pub fn length_of(file: &File) -> io::Result<u64> {
    let metadata = file.metadata()?;
    if !metadata.file_type().is_block_device() {
        return Ok(metadata.len());
    }
    let mut end = file;
    end.seek(SeekFrom::End(0))
}
