//! A device over files, and what is assumed of them.
//!
//! Contracts compute its state from its calls on the files and their answers. That list exists in proofs alone (`FileState`, in
//! `specs/Files.antt`). The clauses on the disk hold of real files under premises that no proof shows:
//!
//! - Each function of `calls` makes the call that it notes, on that file, and notes its answer. One that noted a sync without a sync, or a
//!   read with other bytes, would prove as well.
//! - A file gives back what it took, and nobody else writes it while the device exists. If a read shows otherwise, also one ahead, `honest`
//!   is lost, and with it the clause on the bytes of reads; all other clauses stand.
//! - A sync that answers Ok has made durable all that the file took, and what it gave.
//! - A crash leaves each block whole, as before a write or after it. The same holds, block by block, of a call that writes several and
//!   fails or is cut by a crash; no other block changes.
//! - A value of a `Contents` type stands for one pair of files.
ghost use Rattle.std.specs.Prelude.{◌≡◌, ◌<◌, ◌*◌, ◌/◌, ◌↔◌, false, true, IsOk, OnOk, OnErr};
ghost use Rattle.block_device.specs.State.{one_more_fault};
ghost use Rattle.file_device.specs.Files.{FileContents, counted};

use crate::ahead::{Ahead, MOST_BYTES, copy_block};
use crate::apart::{Apart, are_openings_of_one};
use crate::calls::NotedFiles;
use crate::failure::{FailedCall, Failure};
use crate::fetching::Fetcher;
use crate::gathered::Gathered;
use crate::unmeasured::Unmeasured;
use block_device::{Device, DeviceFault, Durable, Syncing};
use journal_model::Area;
use std::alloc::Global;
use std::fs::File;
use std::marker::{Model, PhantomData};
use std::sync::Arc;

/// What is assumed of a device's files. No code can read it: a function over any `C: Contents` is proved for any contents, and for both
/// effects of a failed write.
pub trait Contents: Drop {
    /// What the files hold when the device is made, or a crash may leave instead, since earlier writes may be unsynced; and whether the
    /// bytes of a failed write are read from then on.
    ghost contents: { FileContents };
}

/// For a program that makes a device over files. Code with clauses takes any `C: Contents` instead: a clause at this type says nothing of
/// files that hold anything.
#[derive(Drop)]
pub struct UnknownContents;

impl Contents for UnknownContents {
    ghost use Rattle.std.specs.Prelude.{false, []};

    ghost contents = { record { first = λ _ _. record { reads = []; others = [] }; failed_write_reads = false } };
}

/// A device over a log file and a home file, or over a log file alone; then home has no block.
///
/// Block `n` of an area starts at byte `n` times the block size of its file. An area has the whole blocks of its file; bytes after the last
/// are never touched. Lengths are read once, when the device is made. A flush makes the area's file durable (fdatasync), if there is one.
///
/// Reads: for a reader that goes over an area from block to block, leaving out a few at most, one system call fills a buffer of 64 KiB. A
/// write to that area, and each flush, empties it. If that call fails, the block is read alone, and the next read tries again.
///
/// Writes: consecutive blocks of an area are gathered in a buffer of 64 KiB. One system call writes them when a write can't be gathered
/// with them, either area is flushed, or the device is dropped. Each write to the log is gathered; one to home is if it follows the
/// previous write and there is room. Gathered blocks are read from the buffer. If their write fails, the write or flush that caused it
/// fails, and they are read from the buffer for good. A failure at the drop shows nowhere: flush before. A killed program loses what is
/// gathered, which no flush has promised, and no earlier write. Another opening of a file sees gathered blocks after a flush at the latest.
/// Drop a device before its files are opened again, or it overwrites what was done there.
///
/// The two buffers are all the memory that it takes. Without memory for them, nothing is read ahead and each block is written alone.
///
/// After a failed write or flush each further one answers a fault and makes no call, since the system may have dropped what it was handed:
/// open the files again to see what is there. A failed read changes nothing.
///
/// It may go to another thread, so threads can share a journal over files.
pub struct FileDevice<C: Contents> {
    contents: PhantomData<C>,
    files: NotedFiles,
    size: usize,
    log_bytes: u64,
    home_bytes: u64,
    has_failed: bool,
    faults: u64,
    calls_made: u64,
    ahead: Ahead,
    gathered: Gathered,
    apart: Apart,
    failure: Option<Failure>,
}

impl<C: Contents> Drop for FileDevice<C> {
    fn drop(mut self) {
        if !self.has_failed {
            let _ = self.hand_on();
        }
        let FileDevice {
            contents: _,
            files: _,
            size: _,
            log_bytes: _,
            home_bytes: _,
            has_failed: _,
            faults: _,
            calls_made: _,
            ahead: _,
            gathered: _,
            apart: _,
            failure: _,
        } = self;
    }
}

impl<C: Contents> Model for FileDevice<C> {
    ghost use Rattle.file_device.specs.Files.{FileState};

    ghost Value = { FileState };

    ghost use Rattle.std.specs.Prelude.{◌++◌};
    ghost use Rattle.file_device.specs.NotedFiles.{calls_of};
    ghost use Rattle.file_device.specs.Ahead.{KeepsAhead};
    ghost use Rattle.file_device.specs.Gathered.{KeepsGathered, due_of};
    ghost use Rattle.file_device.specs.Files.{KeepsBlocks};

    ghost view = { λ d. record {
      block_size = d.size;
      log_file = d.files.log;
      home_file = d.files.home;
      log_bytes = d.log_bytes;
      home_bytes = d.home_bytes;
      gathered = due_of d.size d.gathered;
      calls = calls_of d.files;
      has_failed = d.has_failed;
      faults = d.faults;
      calls_made = d.calls_made;
    } };

    ghost invariant = { λ d.
        KeepsBlocks d.size (due_of d.size d.gathered ++ calls_of d.files)
        × KeepsAhead C.contents d.size (due_of d.size d.gathered ++ calls_of d.files) d.ahead
        × KeepsGathered d.size d.gathered };
}

fn place_of(n: u64, size: usize, length: u64) -> u64
    requires size { 0 < size }
    requires there { n < length / size }
    ensures { result ≡ n * size }
{
    n * size as u64
}

impl<C: Contents> FileDevice<C> {
    ghost use Rattle.std.specs.Prelude.{◌≡◌, ◌<◌, ◌≤◌, [], ◌∷◌, length, true, IfErr, IfOk, IsNone, IsSome, IsTrue, OnErr, OnOk};
    ghost use Rattle.block_device.specs.State.{blocks_in, one_more_fault};
    ghost use Rattle.journal_model.specs.declared.number.Area.TheVariants.{Home, Log};
    ghost use Rattle.file_device.specs.Ahead.{HasRead, HasFailedRead};
    ghost use Rattle.file_device.specs.Calls.{Wrote, WriteFailed};
    ghost use Rattle.file_device.specs.Files.{FailsToHandOn, FailsToWrite, HasAgreed, bytes_in, file_shape, file_state, files_disk, handed_on, new_device};

    /// Makes a device with blocks of `block_size` bytes over two files, each a regular one or a block device, open for reading, and for
    /// writing if the device is to be written. Their names and lengths are not synced here. The value of `C` is consumed, so that it stands
    /// for one device's files.
    ///
    /// # Errors
    ///
    /// The system can't tell the length of a file; `Unmeasured` has its area and the system's answer. Both files are closed.
    pub fn new(
        alloc: Global,
        contents: C,
        block_size: usize,
        log: File,
        home: Option<File>,
    ) -> Result<Self, Unmeasured>
        requires block { 0 < block_size }
        ensures new { IfOk result (λ device. device ≡ new_device block_size log home device.log_bytes device.home_bytes) }
        ensures lone { IsNone home → IfOk result (λ device. device.home_bytes ≡ 0) }
        ensures refused { IfErr result (λ e. e.area ≡ Home → IsSome home) }
    {
        FileDevice::with_log_of(alloc, contents, block_size, log, u64::MAX, home)
    }

    /// Makes a device as `new` does, whose log area has at most the first `log_bytes` bytes of its file.
    ///
    /// # Errors
    ///
    /// Those of `new`.
    pub fn with_log_of(
        alloc: Global,
        _contents: C,
        block_size: usize,
        log: File,
        log_bytes: u64,
        home: Option<File>,
    ) -> Result<Self, Unmeasured>
        requires block { 0 < block_size }
        ensures new { IfOk result (λ device. device ≡ new_device block_size log home device.log_bytes device.home_bytes) }
        ensures most { IfOk result (λ device. device.log_bytes ≤ log_bytes) }
        ensures lone { IsNone home → IfOk result (λ device. device.home_bytes ≡ 0) }
        ensures refused { IfErr result (λ e. e.area ≡ Home → IsSome home) }
    {
        let mut files = NotedFiles::new(log, home);
        let log_bytes = files.measure(Area::Log, log_bytes)?;
        let home_bytes = files.measure(Area::Home, u64::MAX)?;
        Ok(FileDevice {
            contents: PhantomData,
            files,
            size: block_size,
            log_bytes,
            home_bytes,
            has_failed: false,
            faults: 0,
            calls_made: 0,
            ahead: Ahead::new(alloc),
            gathered: Gathered::new(alloc),
            apart: Apart::new(),
            failure: None,
        })
    }

    /// Has flushes of an area waited for by another opening of its file (`Device::begin_flush`). It takes no other file, and none without
    /// memory.
    pub fn sync_by(&mut self, alloc: Global, area: Area, file: File)
        ensures { self.new ≡ self.old }
    {
        if !self.files.is(area, &file) {
            return;
        }
        if let Ok(file) = Arc::new(alloc, file) {
            self.apart.give(area, file);
        }
    }

    /// What fetches bytes of home; `None` if there is no home, or the system opens no more files.
    pub fn fetcher(&self) -> Option<Fetcher> {
        Some(Fetcher {
            home: self.files.home_again()?,
        })
    }

    /// The last system call that failed, if any, and the system's answer.
    pub fn failure(&self) -> Option<&Failure> {
        self.failure.as_ref()
    }

    /// Notes that block `n` of an area is asked for. Returns whether this step and the last were to a near block.
    fn note_asked(&mut self, area: Area, n: u64) -> bool
        ensures { self.new ≡ self.old }
    {
        let is_near = self.ahead.is_near(area, n);
        let goes_on = is_near && self.ahead.is_steady;
        self.ahead.next_area = area;
        self.ahead.next = n.saturating_add(1);
        self.ahead.is_steady = is_near;
        goes_on
    }

    fn hand_out(&mut self, area: Area, n: u64, into: &mut [u8]) -> bool
        requires block { length into.old ≡ self.old.block_size }
        ensures same { self.new ≡ self.old }
        ensures bytes { IsTrue result → HasAgreed C.contents self.new → into.new ≡ ((file_state C.contents self.new).disk area n).reads }
    {
        let Some(k) = self.ahead.place(area, n) else {
            return false;
        };
        copy_block(&self.ahead.bytes, self.size, k, into);
        true
    }

    /// Reads from block `n` of an area on as many blocks as the buffer holds; none if blocks of the area are gathered, or without memory.
    fn read_ahead(&mut self, area: Area, n: u64)
        requires there { n < blocks_in (file_shape self.old) area }
        ensures { HasRead self.old self.new }
    {
        if !self.gathered.is_free_of(area) {
            return;
        }
        let size = self.size;
        let length = self.length(area);
        let room = (MOST_BYTES / size) as u64;
        let count = room.min(length / size as u64 - n);
        let at = place_of(n, size, length);
        let FileDevice { files, ahead, .. } = self;
        ahead.count = 0;
        if ahead.bytes.resize(count as usize * size, 0).is_err() {
            return;
        }
        ahead.count = match files.read_blocks(area, at, size, &mut ahead.bytes) {
            Ok(()) => count,
            Err(_) => 0,
        };
        ahead.area = area;
        ahead.first = n;
    }

    /// Reads a block that is not gathered, and reads ahead for a reader that goes on from block to block.
    fn read_file(&mut self, area: Area, n: u64, into: &mut [u8]) -> Result<(), DeviceFault>
        requires block { length into.old ≡ self.old.block_size }
        requires there { n < blocks_in (file_state C.contents self.old).shape area }
        requires apart { (file_state C.contents self.old).disk area n ≡ files_disk C.contents self.old area n }
        ensures bytes { OnOk result (HasAgreed C.contents self.new → into.new ≡ ((file_state C.contents self.old).disk area n).reads) }
        ensures ok { OnOk result (HasRead self.old self.new) }
        ensures err { OnErr result (HasFailedRead self.old self.new area (n * self.old.block_size)) }
    {
        let goes_on = self.note_asked(area, n);
        if self.hand_out(area, n, into) {
            return Ok(());
        }
        if goes_on {
            self.read_ahead(area, n);
            if self.hand_out(area, n, into) {
                return Ok(());
            }
        }
        self.read_block(area, n, into)
    }

    fn read_block(&mut self, area: Area, n: u64, into: &mut [u8]) -> Result<(), DeviceFault>
        requires block { length into.old ≡ self.old.block_size }
        requires there { n < blocks_in (file_state C.contents self.old).shape area }
        requires apart { (file_state C.contents self.old).disk area n ≡ files_disk C.contents self.old area n }
        ensures bytes { OnOk result (HasAgreed C.contents self.new → into.new ≡ ((file_state C.contents self.old).disk area n).reads) }
        ensures ok { OnOk result (HasRead self.old self.new) }
        ensures err { OnErr result (HasFailedRead self.old self.new area (n * self.old.block_size)) }
    {
        let at = place_of(n, self.size, self.length(area));
        match self.files.read(area, at, into) {
            Ok(()) => Ok(()),
            Err(error) => Err(self.fail_to_read(Failure::new(area, FailedCall::Read(at), error))),
        }
    }

    fn hand_back(&self, area: Area, n: u64, into: &mut [u8]) -> bool
        requires block { length into.old ≡ self.now.block_size }
        ensures bytes { IsTrue result → into.new ≡ ((file_state C.contents self.now).disk area n).reads }
        ensures apart { result ≡ false → (file_state C.contents self.now).disk area n ≡ files_disk C.contents self.now area n }
        ensures size { length into.new ≡ length into.old }
    {
        let Some(k) = self.gathered.place(area, n) else {
            return false;
        };
        copy_block(&self.gathered.bytes, self.size, k, into);
        true
    }

    /// Gathers block `n` of an area, if it follows the gathered ones and there is room.
    fn gather(&mut self, area: Area, n: u64, bytes: &[u8]) -> bool
        requires block { length bytes.now ≡ self.old.block_size }
        requires there { n < blocks_in (file_state C.contents self.old).shape area }
        ensures taken { IsTrue result → self.new ≡ record self.old { gathered = Wrote area (n * self.old.block_size) bytes.now ∷ self.old.gathered } }
        ensures left { result ≡ false → self.new ≡ self.old }
    {
        self.ahead.forget(area);
        self.gathered.push(area, n, bytes)
    }

    /// Gathers block `n` of the log as the first one. Home blocks are not: they may be written in any order.
    fn gather_first(&mut self, area: Area, n: u64, bytes: &[u8]) -> bool
        requires none { self.old.gathered ≡ [] }
        requires block { length bytes.now ≡ self.old.block_size }
        requires there { n < blocks_in (file_state C.contents self.old).shape area }
        ensures taken { IsTrue result → self.new ≡ record self.old { gathered = Wrote area (n * self.old.block_size) bytes.now ∷ self.old.gathered } }
        ensures left { result ≡ false → self.new ≡ self.old }
    {
        match area {
            Area::Log => {
                self.gathered.begin_at(area, n);
                self.gather(area, n, bytes)
            }
            Area::Home => false,
        }
    }

    fn write_block(&mut self, area: Area, n: u64, bytes: &[u8]) -> Result<(), DeviceFault>
        requires none { self.old.gathered ≡ [] }
        requires block { length bytes.now ≡ self.old.block_size }
        requires there { n < blocks_in (file_state C.contents self.old).shape area }
        ensures ok { OnOk result (self.new ≡ record self.old { calls = Wrote area (n * self.old.block_size) bytes.now ∷ self.old.calls }) }
        ensures err { OnErr result (self.new ≡ record self.old {
          calls = WriteFailed area (n * self.old.block_size) bytes.now ∷ self.old.calls;
          has_failed = true;
          faults = one_more_fault self.old.faults;
        }) }
    {
        self.ahead.forget(area);
        self.gathered.begin_at(area, n.saturating_add(1));
        self.apart.note_change(area);
        let at = place_of(n, self.size, self.length(area));
        match self.files.write(area, at, bytes) {
            Ok(()) => Ok(()),
            Err(error) => Err(self.fail(Failure::new(area, FailedCall::Write(at), error))),
        }
    }

    fn hand_on(&mut self) -> Result<(), DeviceFault>
        ensures ok { OnOk result (self.new ≡ handed_on self.old) }
        ensures err { OnErr result (FailsToHandOn self.old self.new) }
    {
        match self.write_gathered() {
            Ok(()) => Ok(()),
            Err(failure) => Err(self.fail(failure)),
        }
    }

    /// Writes the gathered blocks. A failure is not counted.
    fn write_gathered(&mut self) -> Result<(), Failure>
        ensures ok { OnOk result (self.new ≡ handed_on self.old) }
        ensures err { OnErr result (FailsToWrite self.old self.new) }
    {
        if self.gathered.count == 0 {
            return Ok(());
        }
        let size = self.size;
        let FileDevice {
            files,
            gathered,
            apart,
            ..
        } = self;
        let at = gathered.first * size as u64;
        apart.note_change(gathered.area);
        if let Err(error) = files.write_blocks(gathered.area, at, size, &gathered.bytes) {
            return Err(Failure::new(gathered.area, FailedCall::Write(at), error));
        }
        gathered.begin_at(gathered.area, gathered.first.saturating_add(gathered.count));
        Ok(())
    }

    fn length(&self, area: Area) -> u64
        ensures { result ≡ bytes_in self.now area }
    {
        match area {
            Area::Log => self.log_bytes,
            Area::Home => self.home_bytes,
        }
    }

    fn count_call(&mut self)
        ensures { self.new ≡ counted self.old }
    {
        self.calls_made = self.calls_made.saturating_add(1);
    }

    /// Counts a call, and answers a fault if a write or a flush has failed.
    fn check_usable(&mut self) -> Result<(), DeviceFault>
        ensures some { 0 < self.old.block_size }
        ensures ok { IsOk result ↔ (self.old.has_failed ≡ false) }
        ensures usable { OnOk result (self.new ≡ counted self.old) }
        ensures failed { OnErr result (self.new ≡ record (counted self.old) { faults = one_more_fault self.old.faults }) }
    {
        self.count_call();
        if self.has_failed {
            return Err(self.fault());
        }
        Ok(())
    }

    /// Counts a failed write or flush, the last that is tried, and keeps the system's answer.
    fn fail(&mut self, failure: Failure) -> DeviceFault
        ensures { self.new ≡ record self.old { has_failed = true; faults = one_more_fault self.old.faults } }
    {
        self.has_failed = true;
        self.failure = Some(failure);
        self.fault()
    }

    /// Counts a failed read, and keeps the system's answer.
    fn fail_to_read(&mut self, failure: Failure) -> DeviceFault
        ensures { self.new ≡ record self.old { faults = one_more_fault self.old.faults } }
    {
        self.failure = Some(failure);
        self.fault()
    }

    fn fault(&mut self) -> DeviceFault
        ensures { self.new ≡ record self.old { faults = one_more_fault self.old.faults } }
    {
        self.faults = self.faults.saturating_add(1);
        DeviceFault
    }
}

impl<C: Contents> Device for FileDevice<C> {
    ghost use Rattle.std.specs.Prelude.{◌≡◌, ◌<◌, ◌*◌, ◌∷◌, length, IsErr, OnOk, OnErr};
    ghost use Rattle.journal_model.specs.Disk.{written, flushed};
    ghost use Rattle.file_device.specs.Ahead.{HasRead, HasFailedRead};
    ghost use Rattle.file_device.specs.Calls.{Wrote, WriteFailed, Synced, SyncFailed};
    ghost use Rattle.file_device.specs.Files.{asked, file_state, handed_on, FailsAt, GathersRun, HasAgreed, IsRefused, Takes};
    ghost use Rattle.block_device.specs.State.{blocks_in, CountsCall, CountsFaults, HoldsWholeBlocks, Stays, Moves, Writes};

    ghost state = { λ d. file_state C.contents d };

    ghost honest = { λ d. HasAgreed C.contents d };

    fn read(&mut self, area: Area, n: u64, into: &mut [u8]) -> Result<(), DeviceFault>
        requires block { length into.old ≡ self.old.block_size }
        requires there { n < blocks_in (file_state C.contents self.old).shape area }
        ensures bytes { OnOk result (HasAgreed C.contents self.new → into.new ≡ ((file_state C.contents self.old).disk area n).reads) }
        ensures stays { Stays (file_state C.contents self.old) (file_state C.contents self.new) }
        ensures faults { CountsFaults result (file_state C.contents self.old) (file_state C.contents self.new) }
        ensures calls { CountsCall (file_state C.contents self.old) (file_state C.contents self.new) }
        ensures honest { HasAgreed C.contents self.new → HasAgreed C.contents self.old }

        // The files were only read. The device stays usable after a failed read.
        ensures gave { OnOk result (HasRead (counted self.old) self.new) }
        ensures failed { OnErr result (HasFailedRead (counted self.old) self.new area (n * self.old.block_size)) }
    {
        self.count_call();
        if self.hand_back(area, n, into) {
            return Ok(());
        }
        self.read_file(area, n, into)
    }

    fn write(&mut self, area: Area, n: u64, bytes: &[u8]) -> Result<(), DeviceFault>
        requires block { length bytes.now ≡ self.old.block_size }
        requires there { n < blocks_in (file_state C.contents self.old).shape area }
        ensures ok { OnOk result (Moves (file_state C.contents self.old) (file_state C.contents self.new) (written (file_state C.contents self.old).disk area n bytes.now)) }
        ensures writes { Writes (file_state C.contents self.old) (file_state C.contents self.new) area n bytes.now }
        ensures faults { CountsFaults result (file_state C.contents self.old) (file_state C.contents self.new) }
        ensures calls { CountsCall (file_state C.contents self.old) (file_state C.contents self.new) }
        ensures honest { HasAgreed C.contents self.new → HasAgreed C.contents self.old }

        // The file took the bytes after all that was gathered, or they are gathered with it. Or one of these writes failed, and no write or
        // flush follows.
        ensures took { OnOk result (Takes self.old self.new (Wrote area (n * self.old.block_size) bytes.now)) }
        ensures failed { self.old.has_failed ≡ false →
            OnErr result (FailsAt self.old self.new (WriteFailed area (n * self.old.block_size) bytes.now)) }
        ensures refused { IsRefused result self.old self.new }
    {
        self.check_usable()?;
        if self.gather(area, n, bytes) {
            return Ok(());
        }
        self.hand_on()?;
        if self.gather_first(area, n, bytes) {
            return Ok(());
        }
        self.write_block(area, n, bytes)
    }

    fn flush(&mut self, area: Area) -> Result<(), DeviceFault>
        ensures ok { OnOk result (Moves (file_state C.contents self.old) (file_state C.contents self.new) (flushed (file_state C.contents self.old).disk area)) }
        ensures err { OnErr result (Stays (file_state C.contents self.old) (file_state C.contents self.new)) }
        ensures faults { CountsFaults result (file_state C.contents self.old) (file_state C.contents self.new) }
        ensures calls { CountsCall (file_state C.contents self.old) (file_state C.contents self.new) }
        ensures honest { HasAgreed C.contents self.new → HasAgreed C.contents self.old }

        // What was gathered is written, and then the file synced. Or one of these calls failed, and no write or flush follows.
        ensures synced { OnOk result (self.new ≡ asked (handed_on self.old) (Synced area)) }
        ensures failed { self.old.has_failed ≡ false → OnErr result (FailsAt self.old self.new (SyncFailed area)) }
        ensures refused { IsRefused result self.old self.new }
    {
        self.check_usable()?;
        self.hand_on()?;
        self.ahead.count = 0;
        let durable = self.apart.take(area);
        match self.files.sync(area, durable) {
            Ok(()) => Ok(()),
            Err(error) => Err(self.fail(Failure::new(area, FailedCall::Sync, error))),
        }
    }

    fn begin_flush(&mut self, area: Area) -> Option<Syncing> {
        if self.has_failed {
            return None;
        }
        match self.write_gathered() {
            Ok(()) => self.apart.begin(area),
            Err(failure) => {
                self.has_failed = true;
                self.failure = Some(failure);
                None
            }
        }
    }

    fn end_flush(&mut self, durable: Durable) {
        self.apart.end(durable);
    }

    fn blocks(&self, area: Area) -> u64 {
        self.length(area) / self.size as u64
    }

    fn block_size(&self) -> usize
        ensures size { result ≡ (file_state C.contents self.now).shape.block_size }
        ensures whole { HoldsWholeBlocks (file_state C.contents self.now) }

        // What is gathered is at most a few consecutive blocks.
        ensures gathered { GathersRun self.now }
    {
        self.size
    }
}
