//! What a disk may hold after a crash. Each function states one law; no body runs.
ghost use Rattle.std.specs.Prelude.{◌≡◌, ◌⊎◌, ℕ, List, true};
ghost use Rattle.journal_model.specs.declared.number.Area.{Area};
ghost use Rattle.journal_model.specs.Disk.{Disk, Image, IsOneOf, Leaves, held, written, handed_over, flushed, reading, disk_of, same_area};

/// A crash may leave what is read.
pub fn what_is_read_may_be_left()
    ensures { (disk : Disk) → Leaves disk (reading disk) }
{}

/// After a flush of an area a crash leaves its blocks as they read, and of the other area what it might have left
/// before.
pub fn a_flush_makes_its_area_durable()
    ensures own { (disk : Disk) (a : Area) (image : Image) (n : ℕ) → Leaves (flushed disk a) image → image a n ≡ (disk a n).reads }
    ensures other { (disk : Disk) (a b : Area) (image : Image) (n : ℕ) → (same_area b a ≡ true → ⊥) → Leaves (flushed disk a) image →
        IsOneOf (held (disk b n)) (image b n) }
{}

/// After a write, also a failed one that was handed over, a crash leaves of the block the new value or one that it
/// might have left before. The failed one reads as before.
pub fn a_write_may_be_left_or_not()
    ensures written { (disk : Disk) (a : Area) (n : ℕ) (v u : List ℕ) →
        IsOneOf (held (written disk a n v a n)) u → (u ≡ v) ⊎ IsOneOf (held (disk a n)) u }
    ensures handed_over { (disk : Disk) (a : Area) (n : ℕ) (v u : List ℕ) →
        IsOneOf (held (handed_over disk a n v a n)) u → (u ≡ v) ⊎ IsOneOf (held (disk a n)) u }
    ensures reads { (disk : Disk) (a : Area) (n : ℕ) (v : List ℕ) → (handed_over disk a n v a n).reads ≡ (disk a n).reads }
{}

/// After a crash each block reads as the image has it, and another crash leaves nothing else.
pub fn a_crash_is_durable()
    ensures { (image again : Image) (a : Area) (n : ℕ) → Leaves (disk_of image) again → again a n ≡ image a n }
{}
