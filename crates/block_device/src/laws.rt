//! Which disks a crash since some moment may have met.
ghost use Rattle.std.specs.Prelude.{◌≡◌, List, ◌∷◌, ◌++◌};
ghost use Rattle.journal_model.specs.Disk.{Disk, Image, IsOneOf, Leaves};
ghost use Rattle.block_device.specs.State.{DeviceState, MayHaveLeft};

/// What a crash since a moment may have left was left by the present disk, or by one that joined the past since. So
/// the fact of `EachMoment` holds of the disk that the crash met.
pub fn a_crash_meets_one_of_the_moments()
    ensures { (old new : DeviceState) (image : Image) (since : List Disk) → new.past ≡ since ++ old.past →
        MayHaveLeft old new image → (disk : Disk) × IsOneOf (new.disk ∷ since) disk × Leaves disk image }
{}
