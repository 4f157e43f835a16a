//! The device calls of a close: the write of block 0 of the log, and a flush of the log.
//! Source: fs/jbd2/journal.c by behaviour (a journal that is destroyed is marked empty).
ghost use Rattle.std.specs.Prelude.{◌≡◌, ◌+◌, ◌<◌, ◌≤◌, length, OnOk, OnErr};
ghost use Rattle.journal_model.specs.declared.number.Area.TheVariants.{Log};
ghost use Rattle.journal_model.specs.Disk.{flushed, written};
ghost use Rattle.block_device.specs.State.{CountsFaults, EachMoment};
ghost use Rattle.journal_world.specs.Call.{IsAfterFault};
ghost use Rattle.journal_world.specs.Call.Call.{Write};
ghost use Rattle.log_engine.specs.Close.{IsWritingFirst};

use block_device::{Device, DeviceFault};
use journal_model::Area;

/// Writes block 0 of the log, then flushes the log.
pub(crate) fn write_first<D: Device>(device: &mut D, block: &[u8]) -> Result<(), DeviceFault>
    requires size { length block.now ≡ (D.state device.old).shape.block_size }
    requires there { 0 < (D.state device.old).shape.log_blocks }
    ensures ok { OnOk result ((D.state device.new).disk ≡ flushed (written (D.state device.old).disk Log 0 block.now) Log) }
    ensures err { OnErr result (IsAfterFault (Write Log 0 block.now) (D.state device.old).disk (D.state device.new).disk) }
    ensures moments { EachMoment (IsWritingFirst block.now (D.state device.old).disk) (D.state device.old) (D.state device.new) }
    ensures shape { (D.state device.new).shape ≡ (D.state device.old).shape }
    ensures faults { CountsFaults result (D.state device.old) (D.state device.new) }
    ensures calls { (D.state device.new).calls ≤ (D.state device.old).calls + 2 }
    ensures honest { D.honest device.new → D.honest device.old }
{
    device.write(Area::Log, 0, block)?;
    device.flush(Area::Log)
}
