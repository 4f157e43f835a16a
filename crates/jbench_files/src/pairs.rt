//! Opens a log's two files, and locks each before it reads either.
ghost use Rattle.std.specs.Prelude.{◌≡◌, ◌<◌, ◌≤◌, true, IfErr, IfOk, IfSome, IsOk};
ghost use Rattle.journal_model.specs.declared.number.Area.TheVariants.{Home, Log};
ghost use Rattle.jbench_files.specs.Apart.{AreApart};
ghost use Rattle.jbench_files.specs.Wanted.{IsAsWanted};
ghost use Rattle.jbench_words.specs.declared.fault.CommandStatus.TheVariants.{Refused};

use crate::contents::content_of;
use crate::layers::require_unshared;
use crate::locked::{FileLock, LockedFile, require_name, take};
use crate::regular::{
    Made, Named, RegularFile, Unclaimed, given_twice, make, no_device, no_regular_file, open_there,
    require_file_place, require_kept, require_place, sync_folders,
};
use crate::text::{TextFile, open_text};
use crate::unfit::Unfit;
use file_device::{ReadLock, WriteLock, length_of};
use jbench_words::fault::{CommandStatus, refuse_file};
use jbench_words::words::LogPaths;
use std::fs::{File, Files};
use std::io;
use std::io::{ErrorKind, Write};
use std::marker::PhantomData;

/// A log's two distinct files, each with its lock.
#[derive(Drop)]
pub struct LockedPair<L> {
    log: LockedFile<L>,
    home: LockedFile<L>,
    pub ghost are_two: { AreApart log.file home.file },
}

/// A log's two files, to write.
pub type LogPair = LockedPair<WriteLock>;

/// A log's two files, to read.
pub type ReadPair = LockedPair<ReadLock>;

/// A log's two files, of which the log is made and home stays; only `open_or_make_log` opens such a pair.
#[derive(Drop)]
pub struct KeptPair {
    pair: LogPair,
}

impl KeptPair {
    pub fn pair(&self) -> &LogPair
        ensures { result.now ≡ self.now.pair }
    {
        &self.pair
    }

    pub(crate) fn into_pair(self) -> LogPair
        ensures { result ≡ self.pair }
    {
        self.pair
    }
}

/// A log's file, from a pair; locked until it is dropped.
#[derive(Drop)]
pub struct LogFile<L> {
    file: File,
    lock: PhantomData<L>,
}

/// A home area's file, from a pair; locked until it is dropped.
#[derive(Drop)]
pub struct HomeFile {
    file: File,
}

impl<L: Drop> LockedPair<L> {
    fn new(log: LockedFile<L>, home: LockedFile<L>) -> LockedPair<L>
        requires { AreApart log.file home.file }
        ensures log { result.log ≡ log }
        ensures home { result.home ≡ home }
    {
        LockedPair { log, home }
    }

    /// Whether the log's file is empty.
    ///
    /// # Errors
    ///
    /// The system has no data on it.
    pub fn is_log_empty(&self) -> io::Result<bool> {
        Ok(length_of(&self.log.file().file)? == 0)
    }

    /// After a refusal, prints which of the two files stay that this program made.
    ///
    /// # Errors
    ///
    /// The line could not be written.
    pub fn say_made(&self, paths: LogPaths<'_>, err: &mut impl Write) -> io::Result<()> {
        let log = self.log.file().is_made().then_some(paths.log);
        let home = self.home.file().is_made().then_some(paths.home);
        say_made(err, [log, home])
    }

    /// Says of a block device of these two that is to be overwritten what another program keeps there, if its beginning shows that, and
    /// which files stay that were made. Returns whether one does, or can't be read. `with_home` says whether home is looked at too.
    ///
    /// # Errors
    ///
    /// The lines could not be written.
    pub fn say_foreign(
        &self,
        paths: LogPaths<'_>,
        with_home: bool,
        err: &mut impl Write,
    ) -> io::Result<bool> {
        let is_kept = say_foreign(self.log.file(), paths.log, err)?
            || with_home && say_foreign(self.home.file(), paths.home, err)?;
        if is_kept {
            self.say_made(paths, err)?;
        }
        Ok(is_kept)
    }

    /// Fails if either is a block device whose logical sectors are longer than these blocks; the error has its area.
    pub(crate) fn require_blocks(&self, size: usize) -> Result<(), Unfit>
        ensures both { IsOk result → (self.now.log.file.sector ≤ size) × (self.now.home.file.sector ≤ size) }
        ensures log { IfErr result (λ unfit. unfit.area ≡ Log → size < self.now.log.file.sector) }
        ensures home { IfErr result (λ unfit. unfit.area ≡ Home → size < self.now.home.file.sector) }
    {
        match self.log.file().require_blocks(size) {
            Ok(()) => match self.home.file().require_blocks(size) {
                Ok(()) => Ok(()),
                Err(error) => Err(Unfit::of_home(error)),
            },
            Err(error) => Err(Unfit::of_log(error)),
        }
    }

    /// Fails if home has fewer bytes than a block.
    pub(crate) fn require_home(&self, size: usize) -> Result<(), Unfit>
        ensures { IfErr result (λ unfit. unfit.area ≡ Home) }
    {
        match self.home.file().require_bytes(size as u64) {
            Ok(()) => Ok(()),
            Err(error) => Err(Unfit::of_home(error)),
        }
    }

    pub(crate) fn log_file(&self) -> &File {
        &self.log.file().file
    }

    /// The log's file once more, with the same lock.
    pub(crate) fn log_again(&self) -> io::Result<File> {
        self.log.file().file.try_clone()
    }

    /// The files of the log and of home, locked until they are dropped.
    pub fn into_files(self) -> (LogFile<L>, HomeFile)
        ensures log { result.0.file ≡ self.log.file.file }
        ensures home { result.1.file ≡ self.home.file.file }
    {
        let LockedPair { log, home } = self;
        let log = LogFile {
            file: log.into_file(),
            lock: PhantomData,
        };
        let home = HomeFile {
            file: home.into_file(),
        };
        (log, home)
    }
}

impl<L: Drop> LogFile<L> {
    pub(crate) fn file(&self) -> &File
        ensures { result.now ≡ self.now.file }
    {
        &self.file
    }

    pub fn into_file(self) -> File
        ensures { result ≡ self.file }
    {
        let LogFile { file, lock: _ } = self;
        file
    }
}

impl HomeFile {
    pub fn file(&self) -> &File
        ensures { result.now ≡ self.now.file }
    {
        &self.file
    }

    pub fn into_file(self) -> File
        ensures { result ≡ self.file }
    {
        self.file
    }
}

/// Prints what another program keeps on a block device, if it is one and its beginning shows that, or that it can't be read; returns
/// whether it printed.
fn say_foreign(file: &RegularFile, path: &str, err: &mut impl Write) -> io::Result<bool> {
    if !file.is_device() {
        return Ok(false);
    }
    match content_of(&file.file) {
        Ok(Some(content)) => {
            writeln!(err, "jbench: keeps {path}: it holds {content}")?;
            writeln!(err, "  format --force loses that")?;
            Ok(true)
        }
        Ok(None) => Ok(false),
        Err(e) => {
            refuse_file(err, path, e)?;
            Ok(true)
        }
    }
}

/// A file that cannot be opened.
#[derive(Drop)]
pub struct Unopened<'a> {
    pub path: &'a str,
    pub error: io::Error,
    /// The paths of the log and the home area, if they were made before that. These files stay, empty.
    pub made: [Option<&'a str>; 2],
}

impl<'a> Unopened<'a> {
    /// The refusal of this path; nothing was made.
    fn new(path: &'a str, error: io::Error) -> Unopened<'a> {
        Unopened {
            path,
            error,
            made: [None, None],
        }
    }

    /// The refusal of the log at this path.
    fn of_log(path: &'a str, refused: Unclaimed<'a>) -> Unopened<'a> {
        let Unclaimed { error, made } = refused;
        Unopened {
            path,
            error,
            made: [made, None],
        }
    }

    /// The refusal of the home area at this path, after its log was opened.
    fn of_home<F: Drop>(
        path: &'a str,
        refused: Unclaimed<'a>,
        log: OpenedFile<'a, F>,
    ) -> Unopened<'a> {
        let Unclaimed { error, made } = refused;
        Unopened {
            path,
            error,
            made: [log.stays(), made],
        }
    }

    /// Whether another program has its lock.
    pub(crate) fn is_held(&self) -> bool {
        self.error.kind() == ErrorKind::WouldBlock
    }

    /// Prints why the file cannot be opened, and which files were made and stay; answers `Refused`.
    ///
    /// # Errors
    ///
    /// The lines could not be written.
    pub fn refuse(self, err: &mut impl Write) -> io::Result<CommandStatus>
        ensures { IfOk result (λ status. status ≡ Refused) }
    {
        let Unopened { path, error, made } = self;
        let status = refuse_file(err, path, error)?;
        say_made(err, made)?;
        Ok(status)
    }
}

/// Prints which files were made and stay.
fn say_made(err: &mut impl Write, made: [Option<&str>; 2]) -> io::Result<()> {
    for path in made {
        if let Some(path) = path {
            writeln!(err, "  {path} was made, empty, and stays")?;
        }
    }
    Ok(())
}

/// An opened file; `made` is set if it was made.
struct OpenedFile<'a, F> {
    file: F,
    made: Option<Made<'a>>,
}

impl<'a, F: Drop> OpenedFile<'a, F> {
    /// Drops the file. Returns its path if it was made: it stays.
    fn stays(self) -> Option<&'a str> {
        let OpenedFile { file: _, made } = self;
        path_of(made)
    }

    /// The file, whose name is durable.
    fn keep(self, named: &Named) -> F
        ensures { result ≡ self.entry.file }
    {
        let OpenedFile { file, made } = self;
        match made {
            Some(made) => made.keep(named),
            None => {}
        }
        file
    }
}

/// The path of a made file, which stays.
fn path_of(made: Option<Made<'_>>) -> Option<&str> {
    match made {
        Some(made) => Some(made.stays()),
        None => None,
    }
}

/// Opens a script as `open_text` does; it must be neither file of this log.
///
/// # Errors
///
/// The path names no script's file, it cannot be read, or it is a file of the log.
pub fn open_script<'a, R: Files<File = File>>(
    rt: &R,
    path: &'a str,
    files: &LogPair,
) -> io::Result<TextFile<'a>>
    ensures path { IfOk result (λ script. script.path.now ≡ path.now) }
    ensures apart { IfOk result (λ script. AreApart files.now.log.file script.file × AreApart files.now.home.file script.file) }
{
    let script = open_text(rt, path)?.other_than(files.log.file())?;
    script.other_than(files.home.file())
}

/// Opens a log's two distinct files, and takes each one's lock as it opens it. Their content stays.
///
/// # Errors
///
/// The first that is neither a regular file nor a block device, cannot be read (and written, for a write lock), is the same as the other or
/// shares bytes with it, as far as the system tells, or has a lock of another program that excludes this one; of a write lock also those of
/// `take`. `NotFound`: the log's path names another file by the time home is opened.
pub(crate) fn open_pair<'a, L: FileLock, R: Files<File = File>>(
    rt: &R,
    paths: LogPaths<'a>,
) -> Result<LockedPair<L>, Unopened<'a>> {
    let log: LockedFile<L> = match open_locked(rt, paths.log, None) {
        Ok(log) => log,
        Err(error) => return Err(Unopened::new(paths.log, error)),
    };
    let home = match open_locked(rt, paths.home, Some(log.file())) {
        Ok(home) => home,
        Err(error) => return Err(Unopened::new(paths.home, error)),
    };
    // One file at both paths, renamed between the openings, would pass for two.
    match require_name(rt, paths.log, log.file()) {
        Ok(()) => Ok(LockedPair::new(log, home)),
        Err(error) => Err(Unopened::new(paths.log, error)),
    }
}

/// Opens an existing file, which must differ from the other, and takes its lock.
fn open_locked<L: FileLock, R: Files<File = File>>(
    rt: &R,
    path: &str,
    other: Option<&RegularFile>,
) -> io::Result<LockedFile<L>>
    ensures { IfOk result (λ locked. IfSome other.entry (λ other. AreApart other.now locked.file)) }
{
    let file = L::open(rt, path)?;
    if let Some(other) = other {
        require_other_bytes(rt, other, &file)?;
    }
    match other {
        Some(other) => L::take(rt, path, file.other_than(other)?),
        None => L::take(rt, path, file),
    }
}

/// Fails if a home area's file is another one than the log's, and shares bytes with it.
fn require_other_bytes<R: Files<File = File>>(
    rt: &R,
    log: &RegularFile,
    home: &RegularFile,
) -> io::Result<()> {
    if log.is(home) {
        Ok(())
    } else {
        require_unshared(rt, log, home)
    }
}

/// What is wanted of a file that is opened to write.
#[derive(Clone, Copy)]
enum WantedFile {
    /// It is made if it is missing.
    Any,
    /// So is this, and it is no block device.
    File,
    /// It is made; one that exists is refused.
    New,
    /// It exists, and stays.
    Kept(KeptHome),
}

/// What is wanted of a home area that exists and stays.
#[derive(Clone, Copy)]
pub struct KeptHome {
    /// The fewest bytes that it has.
    pub bytes: u64,
    /// Whether it has to be a block device.
    pub is_device: bool,
}

/// What is wanted of a log's two files that are opened to write; they differ from this script.
#[derive(Clone, Copy)]
struct WantedPair<'a> {
    log: WantedFile,
    home: WantedFile,
    script: Option<&'a RegularFile>,
}

/// Opens a log's two files to read and write, makes each that is missing, and locks both. They are distinct, and their content stays. Their
/// folders are synced, so that a crash keeps their names. Home may be a block device only `with_home_device`.
///
/// # Errors
///
/// The first of the two that is refused: it is neither a regular file nor a block device that may be opened, cannot be read and written or
/// made, is the other or shares bytes with it, is locked by another program, has bytes that the system names a user of, or its folder cannot
/// be synced. Nothing is
/// made if either path already shows that it will be refused. A made file stays: another program may use it by then, with a log in it. With
/// `has_to_be_new` `AlreadyExists`: the file exists, or has bytes before it is locked.
pub fn open_or_make_pair<'a, R: Files<File = File>>(
    rt: &R,
    paths: LogPaths<'a>,
    has_to_be_new: bool,
    with_home_device: bool,
) -> Result<LogPair, Unopened<'a>>
    ensures { IfOk result (λ pair. has_to_be_new ≡ true → (pair.log.file.is_made ≡ true) × (pair.home.file.is_made ≡ true)) }
{
    let (log, home) = match (has_to_be_new, with_home_device) {
        (true, _) => (WantedFile::New, WantedFile::New),
        (false, true) => (WantedFile::Any, WantedFile::Any),
        (false, false) => (WantedFile::Any, WantedFile::File),
    };
    claim_pair(
        rt,
        paths,
        WantedPair {
            log,
            home,
            script: None,
        },
    )
}

/// Opens or makes two files for a log as `open_or_make_pair` does, neither of them a block device, nor this script.
///
/// # Errors
///
/// Those of `open_or_make_pair`; or a path names the script's file.
pub fn open_or_make_image<'a, R: Files<File = File>>(
    rt: &R,
    paths: LogPaths<'a>,
    script: &RegularFile,
) -> Result<LogPair, Unopened<'a>>
    ensures { IfOk result (λ pair. AreApart script.now pair.log.file × AreApart script.now pair.home.file) }
{
    claim_pair(
        rt,
        paths,
        WantedPair {
            log: WantedFile::File,
            home: WantedFile::File,
            script: Some(script),
        },
    )
}

/// Opens a log's file, or makes it, and opens the home area, which must exist as is wanted. They are distinct, opened to read and write, and
/// locked. Their content stays. Their folders are synced.
///
/// # Errors
///
/// Those of `open_or_make_pair`, where `has_to_be_new` is of the log alone; or home is missing, too short, or no device where it has to be.
pub fn open_or_make_log<'a, R: Files<File = File>>(
    rt: &R,
    paths: LogPaths<'a>,
    home: KeptHome,
    has_to_be_new: bool,
) -> Result<KeptPair, Unopened<'a>>
    ensures new { IfOk result (λ kept. has_to_be_new ≡ true → kept.pair.log.file.is_made ≡ true) }
    ensures device { IfOk result (λ kept. home.is_device ≡ true → kept.pair.home.file.identity.is_device ≡ true) }
{
    let log = if has_to_be_new {
        WantedFile::New
    } else {
        WantedFile::Any
    };
    let pair = claim_pair(
        rt,
        paths,
        WantedPair {
            log,
            home: WantedFile::Kept(home),
            script: None,
        },
    )?;
    Ok(KeptPair { pair })
}

/// Opens a log's two files to read and write, or makes them, as is wanted, and locks both. Their folders are synced.
fn claim_pair<'a, R: Files<File = File>>(
    rt: &R,
    paths: LogPaths<'a>,
    wanted: WantedPair<'_>,
) -> Result<LogPair, Unopened<'a>>
    ensures script { IfOk result (λ pair. IfSome wanted.entry.script (λ script. AreApart script.now pair.log.file × AreApart script.now pair.home.file)) }
    ensures log { IfOk result (λ pair. IsAsWanted wanted.entry.log pair.log.file) }
    ensures home { IfOk result (λ pair. IsAsWanted wanted.entry.home pair.home.file) }
{
    for (path, of_it) in [(paths.log, wanted.log), (paths.home, wanted.home)] {
        if let Err(error) = require_wanted(rt, path, of_it) {
            return Err(Unopened::new(path, error));
        }
    }
    match claim(rt, paths.log, wanted.log, wanted.script, None) {
        Ok(log) => claim_home(rt, paths, wanted, log),
        Err(refused) => Err(Unopened::of_log(paths.log, refused)),
    }
}

/// Fails if a path already shows that its file is not as wanted. Opens and makes nothing.
fn require_wanted<R: Files<File = File>>(rt: &R, path: &str, wanted: WantedFile) -> io::Result<()> {
    match wanted {
        WantedFile::Any | WantedFile::New => require_place(rt, path),
        WantedFile::File => require_file_place(rt, path),
        WantedFile::Kept(home) => require_kept(rt, path, home.bytes),
    }
}

/// Opens the home area's file after the log's, or makes it, as is wanted.
fn claim_home<'a, R: Files<File = File>>(
    rt: &R,
    paths: LogPaths<'a>,
    wanted: WantedPair<'_>,
    log: OpenedFile<'a, LockedFile<WriteLock>>,
) -> Result<LogPair, Unopened<'a>>
    ensures log { IfOk result (λ pair. pair.log ≡ log.entry.file) }
    ensures home { IfOk result (λ pair. IsAsWanted wanted.entry.home pair.home.file) }
    ensures script { IfOk result (λ pair. IfSome wanted.entry.script (λ script. AreApart script.now pair.home.file)) }
{
    match claim(
        rt,
        paths.home,
        wanted.home,
        wanted.script,
        Some(log.file.file()),
    ) {
        Ok(home) => named(rt, paths, log, home),
        Err(refused) => Err(Unopened::of_home(paths.home, refused, log)),
    }
}

/// Opens a log's file or makes it, as is wanted, distinct from these others, and locks it.
fn claim<'a, R: Files<File = File>>(
    rt: &R,
    path: &'a str,
    wanted: WantedFile,
    script: Option<&RegularFile>,
    log: Option<&RegularFile>,
) -> Result<OpenedFile<'a, LockedFile<WriteLock>>, Unclaimed<'a>>
    ensures script { IfOk result (λ claimed. IfSome script.entry (λ script. AreApart script.now claimed.file.file)) }
    ensures log { IfOk result (λ claimed. IfSome log.entry (λ log. AreApart log.now claimed.file.file)) }
    ensures wanted { IfOk result (λ claimed. IsAsWanted wanted claimed.file.file) }
{
    let opened = match open_wanted(rt, path, wanted) {
        Ok(opened) => opened,
        Err(refused) => return Err(refused_beside(rt, path, log, refused)),
    };
    let opened = apart_from(script, opened)?;
    let claimed = locked(rt, path, unshared(rt, log, apart_from(log, opened)?)?)?;
    match require_bytes_of(claimed.file.file(), wanted) {
        Ok(()) => Ok(claimed),
        Err(error) => Err(Unclaimed {
            error,
            made: claimed.stays(),
        }),
    }
}

/// Fails if a locked file has not the bytes that are wanted; a new one has none: another program may have used it between its making and
/// its lock.
fn require_bytes_of(file: &RegularFile, wanted: WantedFile) -> io::Result<()> {
    match wanted {
        WantedFile::Any | WantedFile::File => Ok(()),
        WantedFile::New => file.require_empty(),
        WantedFile::Kept(home) => file.require_bytes(home.bytes),
    }
}

/// Why a path is refused: it names the log's file, which may have been made just now, or the other cause.
fn refused_beside<'a, R: Files<File = File>>(
    rt: &R,
    path: &str,
    log: Option<&RegularFile>,
    refused: Unclaimed<'a>,
) -> Unclaimed<'a> {
    match log {
        Some(log) if require_name(rt, path, log).is_ok() => Unclaimed {
            error: given_twice(),
            made: refused.made,
        },
        _ => refused,
    }
}

/// Locks a file that was opened by this path.
fn locked<'a, R: Files<File = File>>(
    rt: &R,
    path: &str,
    opened: OpenedFile<'a, RegularFile>,
) -> Result<OpenedFile<'a, LockedFile<WriteLock>>, Unclaimed<'a>>
    ensures { IfOk result (λ locked. locked.file.file ≡ opened.entry.file) }
{
    let OpenedFile { file, made } = opened;
    match take(rt, path, file) {
        Ok(file) => Ok(OpenedFile { file, made }),
        Err(error) => Err(Unclaimed {
            error,
            made: path_of(made),
        }),
    }
}

/// Opens a file to read and write, or makes it, as is wanted. Its content stays.
fn open_wanted<'a, R: Files<File = File>>(
    rt: &R,
    path: &'a str,
    wanted: WantedFile,
) -> Result<OpenedFile<'a, RegularFile>, Unclaimed<'a>>
    ensures { IfOk result (λ opened. IsAsWanted wanted opened.file) }
{
    match wanted {
        WantedFile::New => made(rt, path),
        WantedFile::Kept(home) => {
            let file = open_there(rt, path)?;
            if home.is_device && !file.is_device() {
                return Err(Unclaimed::from(no_device()));
            }
            Ok(OpenedFile { file, made: None })
        }
        WantedFile::Any => there_or_made(rt, path),
        WantedFile::File => {
            let opened = there_or_made(rt, path)?;
            if opened.file.is_device() {
                return Err(Unclaimed {
                    error: no_regular_file(),
                    made: opened.stays(),
                });
            }
            Ok(opened)
        }
    }
}

/// Opens a file to read and write, or makes it if it is missing.
fn there_or_made<'a, R: Files<File = File>>(
    rt: &R,
    path: &'a str,
) -> Result<OpenedFile<'a, RegularFile>, Unclaimed<'a>> {
    match open_there(rt, path) {
        Ok(file) => Ok(OpenedFile { file, made: None }),
        Err(e) if e.kind() == ErrorKind::NotFound => made(rt, path),
        Err(e) => Err(Unclaimed::from(e)),
    }
}

/// Makes a file to read and write.
fn made<'a, R: Files<File = File>>(
    rt: &R,
    path: &'a str,
) -> Result<OpenedFile<'a, RegularFile>, Unclaimed<'a>>
    ensures { IfOk result (λ opened. opened.file.is_made ≡ true) }
{
    let (file, made) = make(rt, path)?;
    Ok(OpenedFile {
        file,
        made: Some(made),
    })
}

/// This file, if it differs from the other.
fn apart_from<'a>(
    other: Option<&RegularFile>,
    opened: OpenedFile<'a, RegularFile>,
) -> Result<OpenedFile<'a, RegularFile>, Unclaimed<'a>>
    ensures same { IfOk result (λ same. same ≡ opened.entry) }
    ensures apart { IfOk result (λ apart. IfSome other.entry (λ other. AreApart other.now apart.file)) }
{
    match other {
        Some(other) if other.is(&opened.file) => Err(Unclaimed {
            error: given_twice(),
            made: opened.stays(),
        }),
        _ => Ok(opened),
    }
}

/// This file, if it shares no bytes with the log's.
fn unshared<'a, R: Files<File = File>>(
    rt: &R,
    log: Option<&RegularFile>,
    opened: OpenedFile<'a, RegularFile>,
) -> Result<OpenedFile<'a, RegularFile>, Unclaimed<'a>>
    ensures { IfOk result (λ same. same ≡ opened.entry) }
{
    let Some(log) = log else {
        return Ok(opened);
    };
    match require_unshared(rt, log, &opened.file) {
        Ok(()) => Ok(opened),
        Err(error) => Err(Unclaimed {
            error,
            made: opened.stays(),
        }),
    }
}

/// These two files, if the log still has its name; their names become durable. One file at both paths, renamed between the openings, would
/// pass for two.
fn named<'a, R: Files<File = File>>(
    rt: &R,
    paths: LogPaths<'a>,
    log: OpenedFile<'a, LockedFile<WriteLock>>,
    home: OpenedFile<'a, LockedFile<WriteLock>>,
) -> Result<LogPair, Unopened<'a>>
    requires { AreApart log.file.file home.file.file }
    ensures { IfOk result (λ pair. (pair.log ≡ log.entry.file) × (pair.home ≡ home.entry.file)) }
{
    match sync_names(rt, paths, log.file.file()) {
        Ok(durable) => Ok(LockedPair::new(log.keep(&durable), home.keep(&durable))),
        Err((path, error)) => Err(Unopened {
            path,
            error,
            made: [log.stays(), home.stays()],
        }),
    }
}

/// Makes the names in both folders durable, if the log's path still names this file.
fn sync_names<'a, R: Files<File = File>>(
    rt: &R,
    paths: LogPaths<'a>,
    log: &RegularFile,
) -> Result<Named, (&'a str, io::Error)> {
    match require_name(rt, paths.log, log) {
        Ok(()) => sync_folders(rt, [paths.log, paths.home]),
        Err(error) => Err((paths.log, error)),
    }
}
