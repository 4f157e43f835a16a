//! Opens regular files and block devices, keeps their content, and tells them apart.
ghost use Rattle.std.specs.Prelude.{◌≡◌, ◌≤◌, ◌↔◌, false, true, IfOk, IsOk};
ghost use Rattle.std.specs.Fs.{asks_create_new, asks_truncate};
ghost use Rattle.jbench_files.specs.Apart.{AreApart};

use crate::nodes::{DeviceNumber, physical_sector_of, sector_of, text_of};
use file_device::length_of;
use std::fs::{File, Files, Metadata, OpenOptions};
use std::io::ErrorKind;
use std::os::unix::fs::{FileTypeExt, MetadataExt};
use std::path::Path;
use std::{fs, io};

/// The system's identity of a file. Two that exist at once differ in it. A block device has one under all its nodes.
#[derive(Clone, Copy, Debug, PartialEq, Eq)]
pub struct Identity {
    is_device: bool,
    /// The block device, or the one that a file's file system is on.
    device: DeviceNumber,
    /// A file's inode; 0 for a block device.
    inode: u64,
}

impl Identity {
    pub(crate) fn of(metadata: &Metadata) -> Identity {
        if metadata.file_type().is_block_device() {
            Identity::of_device(DeviceNumber::of(metadata.rdev()))
        } else {
            Identity {
                is_device: false,
                device: DeviceNumber::of(metadata.dev()),
                inode: metadata.ino(),
            }
        }
    }

    /// That of a block device.
    pub(crate) fn of_device(device: DeviceNumber) -> Identity
        ensures { (result.is_device ≡ true) × (result.device ≡ device) }
    {
        Identity {
            is_device: true,
            device,
            inode: 0,
        }
    }

    /// The device's number, if it is a block device.
    pub(crate) fn device(self) -> Option<DeviceNumber> {
        if self.is_device {
            Some(self.device)
        } else {
            None
        }
    }

    /// Bytes of a logical sector, if it is a block device, or else 0.
    fn sector<R: Files<File = File>>(self, rt: &R) -> u64 {
        if self.is_device {
            sector_of(rt, self.device)
        } else {
            0
        }
    }
}

/// Bytes of a sector of a block device.
#[derive(Clone, Copy, Debug, PartialEq, Eq)]
pub struct Sectors {
    /// The least that the device reads or writes.
    pub logical: u64,
    /// The least that the disk itself writes.
    pub physical: u64,
}

/// The sectors of the block device at a path, as the system tells them; `None` if none is there.
pub fn sectors_at<R: Files<File = File>>(rt: &R, path: &str) -> Option<Sectors> {
    match fs::metadata(rt, path) {
        Ok(metadata) if metadata.file_type().is_block_device() => {
            let device = DeviceNumber::of(metadata.rdev());
            Some(Sectors {
                logical: sector_of(rt, device),
                physical: physical_sector_of(rt, device),
            })
        }
        _ => None,
    }
}

/// Where the system keeps the locks of a file: its inode, or that of the node that a device was opened by.
#[derive(Clone, Copy)]
pub(crate) struct LockPlace {
    /// The device that its file system is on.
    pub(crate) device: DeviceNumber,
    pub(crate) inode: u64,
}

impl LockPlace {
    fn of(metadata: &Metadata) -> LockPlace {
        LockPlace {
            device: DeviceNumber::of(metadata.dev()),
            inode: metadata.ino(),
        }
    }
}

/// An open regular file or block device, and its identity. A script's file may be a pipe.
#[derive(Drop)]
pub struct RegularFile {
    pub(crate) file: File,
    pub(crate) identity: Identity,
    pub(crate) place: LockPlace,
    /// Bytes of a logical sector, of a block device.
    sector: u64,
    /// This program made the file; only `open_new` sets it.
    is_made: bool,
}

impl RegularFile {
    /// A file that was opened, and whether it was made then.
    ///
    /// # Errors
    ///
    /// It is neither a regular file nor a block device, or the system has no data on it.
    fn of<R: Files<File = File>>(rt: &R, file: File, is_made: bool) -> io::Result<RegularFile>
        ensures { IfOk result (λ regular. regular.is_made ≡ is_made) }
    {
        let metadata = file.metadata()?;
        require_storage(&metadata)?;
        let identity = Identity::of(&metadata);
        Ok(RegularFile {
            file,
            identity,
            place: LockPlace::of(&metadata),
            sector: identity.sector(rt),
            is_made,
        })
    }

    /// Whether it is a block device.
    pub(crate) fn is_device(&self) -> bool
        ensures { result ≡ self.now.identity.is_device }
    {
        self.identity.is_device
    }

    /// Its number, if it is a block device.
    pub(crate) fn device(&self) -> Option<DeviceNumber> {
        self.identity.device()
    }

    /// Fails if it is a block device with longer logical sectors than these blocks: a crash could tear a block.
    ///
    /// # Errors
    ///
    /// `InvalidInput`: it is.
    pub(crate) fn require_blocks(&self, size: usize) -> io::Result<()>
        ensures { IsOk result ↔ self.now.sector ≤ size }
    {
        require_sector(self.sector, size as u64)
    }

    /// Whether this program made it.
    pub(crate) fn is_made(&self) -> bool
        ensures { result ≡ self.now.is_made }
    {
        self.is_made
    }

    /// Whether both are the same file.
    pub fn is(&self, other: &RegularFile) -> bool
        ensures { result ≡ false ↔ AreApart self.now other.now }
    {
        self.identity == other.identity
    }

    /// This file, if it differs from the other.
    ///
    /// # Errors
    ///
    /// `InvalidInput`: they are the same.
    pub fn other_than(self, other: &RegularFile) -> io::Result<RegularFile>
        ensures same { IfOk result (λ file. file ≡ self) }
        ensures apart { IfOk result (λ file. AreApart other.now file) }
    {
        if other.is(&self) {
            Err(given_twice())
        } else {
            Ok(self)
        }
    }

    /// Fails if the file has fewer bytes.
    ///
    /// # Errors
    ///
    /// `InvalidInput`: it has, with both numbers. Otherwise the system's answer.
    pub(crate) fn require_bytes(&self, bytes: u64) -> io::Result<()> {
        require_room(length_of(&self.file)?, bytes)
    }

    /// Fails if the file has bytes: another program may have used it before it was locked.
    ///
    /// # Errors
    ///
    /// `AlreadyExists`: it has. Otherwise the system's answer.
    pub(crate) fn require_empty(&self) -> io::Result<()> {
        if self.file.metadata()?.len() == 0 {
            Ok(())
        } else {
            Err(io::Error::from(ErrorKind::AlreadyExists))
        }
    }

    pub fn into_file(self) -> File
        ensures { result ≡ self.file }
    {
        self.file
    }
}

/// Fails if a file or a device has fewer bytes than are wanted.
///
/// # Errors
///
/// `InvalidInput`: it has, with both numbers.
pub(crate) fn require_room(bytes: u64, wanted: u64) -> io::Result<()>
    ensures { IsOk result ↔ wanted ≤ bytes }
{
    if bytes < wanted {
        let line = text_of(format_args!("it has {bytes} bytes, and {wanted} are wanted"));
        Err(io::Error::new(ErrorKind::InvalidInput, line.text()))
    } else {
        Ok(())
    }
}

/// Fails if a sector is longer than a block.
fn require_sector(sector: u64, block: u64) -> io::Result<()>
    ensures { IsOk result ↔ sector ≤ block }
{
    if block < sector {
        let line = text_of(format_args!(
            "sectors of {sector} bytes are longer than blocks of {block}"
        ));
        Err(io::Error::new(ErrorKind::InvalidInput, line.text()))
    } else {
        Ok(())
    }
}

/// The system's path of standard input.
const STANDARD_INPUT: &str = "/dev/stdin";

/// The path of a file that this program made; only `make` creates one. It cannot be dropped, so a refused command says that the file stays.
/// Files are never removed: another program may use them by then, with a log in them.
pub(crate) struct Made<'a> {
    path: &'a str,
}

impl<'a> Made<'a> {
    /// Keeps the file, whose name is durable.
    pub(crate) fn keep(self, _named: &Named) {
        let Made { path: _ } = self;
    }

    /// The path of the file, which stays after a refusal.
    pub(crate) fn stays(self) -> &'a str {
        let Made { path } = self;
        path
    }
}

/// Why a log's file is refused, and its path if it was made for that: it then stays, empty.
#[derive(Drop)]
pub(crate) struct Unclaimed<'a> {
    pub(crate) error: io::Error,
    pub(crate) made: Option<&'a str>,
}

impl From<io::Error> for Unclaimed<'_> {
    fn from(error: io::Error) -> Self {
        Unclaimed { error, made: None }
    }
}

/// Proof that the names of a log's files are durable; only `sync_folders` makes one.
#[derive(Drop)]
pub(crate) struct Named(());

/// Makes the names in the folders of these paths durable.
///
/// # Errors
///
/// The path whose folder cannot be opened and synced, and why.
pub(crate) fn sync_folders<'a, R: Files<File = File>>(
    rt: &R,
    paths: [&'a str; 2],
) -> Result<Named, (&'a str, io::Error)> {
    for path in paths {
        if let Err(error) = sync_folder(rt, path) {
            return Err((path, error));
        }
    }
    Ok(Named(()))
}

/// Makes the names in this path's folder durable.
fn sync_folder<R: Files<File = File>>(rt: &R, path: &str) -> io::Result<()> {
    match fs::open(rt, folder_of(path)) {
        Ok(folder) => folder.sync_all(),
        Err(e) => Err(e),
    }
}

/// The folder of this path's file.
fn folder_of(path: &str) -> &str {
    match Path::new(path).parent() {
        Some(folder) if !folder.as_str().is_empty() => folder.as_str(),
        _ => ".",
    }
}

/// The file can hold no script, nor what only a regular file may.
pub(crate) fn no_regular_file() -> io::Error {
    io::Error::new(ErrorKind::InvalidInput, "it is no regular file")
}

/// The file can hold no log.
fn no_storage() -> io::Error {
    io::Error::new(
        ErrorKind::InvalidInput,
        "it is neither a regular file nor a block device",
    )
}

/// The file is no block device.
pub(crate) fn no_device() -> io::Error {
    io::Error::new(ErrorKind::InvalidInput, "it is no block device")
}

/// One file was given for two.
pub(crate) fn given_twice() -> io::Error {
    io::Error::new(ErrorKind::InvalidInput, "it is given twice")
}

/// Opens a regular file or block device to read. The kind is tested first, as opening a pipe would wait for its writer.
///
/// # Errors
///
/// The path names neither, or it cannot be read.
pub fn open_to_read<R: Files<File = File>>(rt: &R, path: &str) -> io::Result<RegularFile> {
    require_storage(&fs::metadata(rt, path)?)?;
    open_as(rt, OpenOptions::new().read(true), path)
}

/// Opens a regular file or a block device once more, to sync it.
///
/// # Errors
///
/// Those of `open_to_read`.
pub fn open_again<R: Files<File = File>>(rt: &R, path: &str) -> io::Result<File> {
    let RegularFile { file, .. } = open_to_read(rt, path)?;
    Ok(file)
}

/// Opens a script to read: a regular file, a pipe, or standard input for the path `-`.
///
/// # Errors
///
/// The path names no such file, or it cannot be read.
pub(crate) fn open_input<R: Files<File = File>>(rt: &R, path: &str) -> io::Result<RegularFile> {
    let is_input = path == "-";
    let place = if is_input { STANDARD_INPUT } else { path };
    require_text(&fs::metadata(rt, place)?, is_input)?;
    let file = OpenOptions::new().read(true).open(rt, place)?;
    let metadata = file.metadata()?;
    Ok(RegularFile {
        file,
        identity: Identity::of(&metadata),
        place: LockPlace::of(&metadata),
        sector: 0,
        is_made: false,
    })
}

/// Fails if the file of these data is no script: it must be a regular file or a pipe; standard input may be anything but a folder.
fn require_text(metadata: &Metadata, is_input: bool) -> io::Result<()> {
    let is_taken = metadata.is_file() || metadata.file_type().is_fifo();
    if is_taken || is_input && !metadata.is_dir() {
        Ok(())
    } else {
        Err(no_regular_file())
    }
}

/// Opens a regular file or block device to read and write. Its content stays.
///
/// # Errors
///
/// The path names neither, or it cannot be read and written.
pub(crate) fn open_there<R: Files<File = File>>(rt: &R, path: &str) -> io::Result<RegularFile> {
    require_storage(&fs::metadata(rt, path)?)?;
    open_as(rt, OpenOptions::new().read(true).write(true), path)
}

/// Makes a file to read and write.
///
/// # Errors
///
/// The path names a file; none can be made; or the system has no data on the made file.
pub(crate) fn make<'a, R: Files<File = File>>(
    rt: &R,
    path: &'a str,
) -> Result<(RegularFile, Made<'a>), Unclaimed<'a>>
    ensures { IfOk result (λ r. r.0.is_made ≡ true) }
{
    open_new(
        rt,
        OpenOptions::new().read(true).write(true).create_new(true),
        path,
    )
}

/// Opens a file in a mode that fails if it exists.
fn open_new<'a, R: Files<File = File>>(
    rt: &R,
    how: &OpenOptions,
    path: &'a str,
) -> Result<(RegularFile, Made<'a>), Unclaimed<'a>>
    requires new { asks_create_new how.now ≡ true }
    requires stays { asks_truncate how.now ≡ false }
    ensures { IfOk result (λ r. r.0.is_made ≡ true) }
{
    let file = how.open(rt, path)?;
    match RegularFile::of(rt, file, true) {
        Ok(file) => Ok((file, Made { path })),
        Err(error) => Err(Unclaimed {
            error,
            made: Some(path),
        }),
    }
}

/// Opens a file in a mode that keeps its content.
fn open_as<R: Files<File = File>>(rt: &R, how: &OpenOptions, path: &str) -> io::Result<RegularFile>
    requires { asks_truncate how.now ≡ false }
{
    RegularFile::of(rt, how.open(rt, path)?, false)
}

/// Fails if the file of these data is neither a regular file nor a block device.
fn require_storage(metadata: &Metadata) -> io::Result<()> {
    if metadata.is_file() || metadata.file_type().is_block_device() {
        Ok(())
    } else {
        Err(no_storage())
    }
}

/// Whether the path names a block device now.
pub fn names_device<R: Files<File = File>>(rt: &R, path: &str) -> bool {
    match fs::metadata(rt, path) {
        Ok(metadata) => metadata.file_type().is_block_device(),
        Err(_) => false,
    }
}

/// Fails if the path names neither a regular file nor a block device, and no file can be made for lack of a folder. Opens and makes nothing.
///
/// # Errors
///
/// The path names another kind of file; its folder is missing. Otherwise the system's answer.
pub(crate) fn require_place<R: Files<File = File>>(rt: &R, path: &str) -> io::Result<()> {
    match fs::metadata(rt, path) {
        Err(e) if e.kind() == ErrorKind::NotFound && !path.is_empty() => {
            require_folder(rt, folder_of(path))
        }
        looked => require_storage(&looked?),
    }
}

/// As `require_place`, for a path that may not name a block device.
pub(crate) fn require_file_place<R: Files<File = File>>(rt: &R, path: &str) -> io::Result<()> {
    if names_device(rt, path) {
        return Err(no_regular_file());
    }
    require_place(rt, path)
}

/// Fails if the path names no folder.
fn require_folder<R: Files<File = File>>(rt: &R, path: &str) -> io::Result<()> {
    if fs::metadata(rt, path)?.is_dir() {
        Ok(())
    } else {
        Err(io::Error::from(ErrorKind::NotADirectory))
    }
}

/// Fails if the path names no block device, and no regular file of at least this many bytes. Opens nothing.
///
/// # Errors
///
/// `InvalidInput`: the path names another kind of file, or a shorter one. Otherwise the system's answer.
pub(crate) fn require_kept<R: Files<File = File>>(
    rt: &R,
    path: &str,
    bytes: u64,
) -> io::Result<()> {
    let metadata = fs::metadata(rt, path)?;
    require_storage(&metadata)?;
    if metadata.is_file() {
        require_room(metadata.len(), bytes)
    } else {
        Ok(())
    }
}
