//! Which other program keeps something on a block device, by the magic at its beginning.
use std::fs::File;
use std::io;
use std::io::ErrorKind;
use std::os::unix::fs::FileExt;

/// The bytes of the longest magic.
const MOST_BYTES: usize = 10;

/// A magic: these bytes at this place.
#[derive(Clone, Copy)]
struct Magic {
    at: u64,
    bytes: &'static [u8],
    /// What shows it.
    of: &'static str,
}

const LVM: &str = "an LVM volume";

const GPT: &str = "a GPT partition table";

const SWAP: &str = "swap space";

const MD: &str = "a part of an md device";

fn shown_by(at: u64, bytes: &'static [u8], of: &'static str) -> Magic {
    Magic { at, bytes, of }
}

/// The magics that are known. A GPT has an MBR before it, so that comes last.
/// Source: libblkid, `superblocks` and `partitions`.
fn magics() -> [Magic; 17] {
    [
        shown_by(0, b"XFSB", "an XFS file system"),
        shown_by(0, b"LUKS\xba\xbe", "a LUKS volume"),
        shown_by(1080, b"\x53\xef", "an ext2, ext3 or ext4 file system"),
        shown_by(1024, b"\x10\x20\xf5\xf2", "an F2FS file system"),
        shown_by(65_600, b"_BHRfS_M", "a btrfs file system"),
        shown_by(0, b"LABELONE", LVM),
        shown_by(512, b"LABELONE", LVM),
        shown_by(1024, b"LABELONE", LVM),
        shown_by(1536, b"LABELONE", LVM),
        shown_by(4086, b"SWAPSPACE2", SWAP),
        shown_by(65_526, b"SWAPSPACE2", SWAP),
        shown_by(0, b"\xfc\x4e\x2b\xa9", MD),
        shown_by(4096, b"\xfc\x4e\x2b\xa9", MD),
        shown_by(512, b"EFI PART", GPT),
        shown_by(4096, b"EFI PART", GPT),
        shown_by(32_769, b"CD001", "an ISO 9660 file system"),
        shown_by(510, b"\x55\xaa", "an MBR partition table or a boot sector"),
    ]
}

/// What another program keeps there, by the first magic that is found.
///
/// # Errors
///
/// It can't be read.
pub(crate) fn content_of(file: &File) -> io::Result<Option<&'static str>> {
    for magic in &magics() {
        if is_at(file, magic)? {
            return Ok(Some(magic.of));
        }
    }
    Ok(None)
}

/// Whether this magic is there.
fn is_at(file: &File, magic: &Magic) -> io::Result<bool> {
    let mut room = [0; MOST_BYTES];
    let count = magic.bytes.len().min(MOST_BYTES);
    match file.read_exact_at(&mut room[..count], magic.at) {
        Ok(()) => Ok(room.starts_with(magic.bytes)),
        Err(e) if e.kind() == ErrorKind::UnexpectedEof => Ok(false),
        Err(e) => Err(e),
    }
}
