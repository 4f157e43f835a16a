//! What a crash may leave, as a program over any device knows it.
ghost use Rattle.std.specs.Prelude.{◌≡◌, ◌⊎◌, ◌<◌, ◌↔◌, ℕ, List, OnOk, length};
ghost use Rattle.journal_model.specs.declared.number.Area.TheVariants.{Log, Home};
ghost use Rattle.journal_model.specs.Disk.{Image, IsOneOf, Leaves, held};

use block_device::{Device, DeviceFault};
use journal_model::Area;

/// Two writes, a flush of the log, and another write of the same log block. A crash leaves exactly one of two values of the log block, and
/// of the home block the new value or what might have been left there before.
pub fn known_images<D: Device>(
    device: &mut D,
    first: &[u8],
    home: &[u8],
    second: &[u8],
) -> Result<(), DeviceFault>
    requires first { length first.now ≡ (D.state device.old).shape.block_size }
    requires home { length home.now ≡ (D.state device.old).shape.block_size }
    requires second { length second.now ≡ (D.state device.old).shape.block_size }
    requires log_block { 1 < (D.state device.old).shape.log_blocks }
    requires home_block { 2 < (D.state device.old).shape.home_blocks }
    ensures log { OnOk result ((v : List ℕ) →
        IsOneOf (held ((D.state device.new).disk Log 1)) v ↔ ((v ≡ second.now) ⊎ (v ≡ first.now))) }
    ensures home { OnOk result ((v : List ℕ) →
        IsOneOf (held ((D.state device.new).disk Home 2)) v ↔ ((v ≡ home.now) ⊎ IsOneOf (held ((D.state device.old).disk Home 2)) v)) }
    ensures image { OnOk result ((image : Image) → Leaves (D.state device.new).disk image →
        (image Log 1 ≡ second.now) ⊎ (image Log 1 ≡ first.now)) }
    ensures reads { OnOk result (((D.state device.new).disk Log 1).reads ≡ second.now) }
{
    device.write(Area::Log, 1, first)?;
    device.write(Area::Home, 2, home)?;
    device.flush(Area::Log)?;
    device.write(Area::Log, 1, second)?;
    Ok(())
}
