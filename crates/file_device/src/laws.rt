//! Laws: the premise of a device over files can be met, and gathered blocks may be lost in a crash.
ghost use Rattle.std.specs.Prelude.{◌≡◌, ◌⊎◌, ℕ, ◌<◌, ◌*◌, List, Option};
ghost use Rattle.std.specs.declared.fs.File.{File};
ghost use Rattle.journal_model.specs.declared.number.Area.{Area};
ghost use Rattle.journal_model.specs.Disk.{Image, IsOneOf, Leaves, held};
ghost use Rattle.file_device.specs.Calls.{Read, ReadFailed, Wrote, WriteFailed, GatheredFailed, Synced, SyncFailed};
ghost use Rattle.file_device.specs.Files.{FileContents, FileState, new_device, asked, file_state, files_disk, handed_on, GathersRun, HasAgreed};

/// The premise can be met and kept, whatever the files hold. A new device satisfies it. A read that gives what the file has keeps it, and
/// so do all other calls, whatever their answers, and the write of gathered blocks.
pub fn answers_that_agree_keep_the_premise()
    ensures new { (contents : FileContents) (size : ℕ) (log : File) (home : Option File) (log_bytes home_bytes : ℕ) →
        HasAgreed contents (new_device size log home log_bytes home_bytes) }
    ensures read { (contents : FileContents) (s : FileState) (area : Area) (n : ℕ) → 0 < s.block_size → HasAgreed contents s →
        HasAgreed contents (asked s (Read area (n * s.block_size) (files_disk contents s area n).reads)) }
    ensures failed_read { (contents : FileContents) (s : FileState) (area : Area) (at : ℕ) → HasAgreed contents s →
        HasAgreed contents (asked s (ReadFailed area at)) }
    ensures write { (contents : FileContents) (s : FileState) (area : Area) (at : ℕ) (bytes : List ℕ) → HasAgreed contents s →
        HasAgreed contents (asked s (Wrote area at bytes)) }
    ensures failed_write { (contents : FileContents) (s : FileState) (area : Area) (at : ℕ) (bytes : List ℕ) → HasAgreed contents s →
        HasAgreed contents (asked s (WriteFailed area at bytes)) }
    ensures gathered { (contents : FileContents) (s : FileState) → GathersRun s → HasAgreed contents s →
        HasAgreed contents (handed_on s) }
    ensures failed_gathered { (contents : FileContents) (s : FileState) (area : Area) (at : ℕ) (bytes : List ℕ) → HasAgreed contents s →
        HasAgreed contents (asked s (GatheredFailed area at bytes)) }
    ensures flush { (contents : FileContents) (s : FileState) (area : Area) → HasAgreed contents s →
        HasAgreed contents (asked s (Synced area)) }
    ensures failed_flush { (contents : FileContents) (s : FileState) (area : Area) → HasAgreed contents s →
        HasAgreed contents (asked s (SyncFailed area)) }
{}

/// A crash may lose or write gathered blocks, each by itself, and so may a failed or cut call that writes them. An image is a crash image
/// of the device's disk if each block is a value that the files may be left with, or what the device reads.
pub fn what_is_gathered_may_be_lost()
    ensures { (contents : FileContents) (s : FileState) (image : Image) → GathersRun s →
        ((a : Area) (n : ℕ) → IsOneOf (held (files_disk contents s a n)) (image a n) ⊎ (image a n ≡ ((file_state contents s).disk a n).reads)) →
        Leaves (file_state contents s).disk image }
{}
