//! The device call of a step: how it is made, and what it leaves.
ghost use Rattle.std.specs.Prelude.{◌≡◌, Some, OnOk, OnErr};
ghost use Rattle.block_device.specs.State.{CountsFaults, MakesAtMostOneCall};
ghost use Rattle.journal_world.specs.Call.{Call, IsAfterFault, after_success};
ghost use Rattle.log_ledger.specs.Due.{Fits, call_of};
ghost use Rattle.block_device.specs.Call.{IsOneMoment};

use block_device::{Device, DeviceFault};
use log_ledger::Due;

/// Makes one device call.
pub(crate) fn make_call<D: Device>(
    device: &mut D,
    due: Due,
    bytes: &[u8],
) -> Result<(), DeviceFault>
    requires fits { Fits (D.state device.old).shape due bytes.now }
    ensures ok { (call : Call) → call_of due bytes.now ≡ Some call → OnOk result ((D.state device.new).disk ≡ after_success call (D.state device.old).disk) }
    ensures err { (call : Call) → call_of due bytes.now ≡ Some call → OnErr result (IsAfterFault call (D.state device.old).disk (D.state device.new).disk) }
    ensures moment { IsOneMoment (D.state device.old) (D.state device.new) }
    ensures calls { MakesAtMostOneCall (D.state device.old) (D.state device.new) }
    ensures shape { (D.state device.new).shape ≡ (D.state device.old).shape }
    ensures faults { CountsFaults result (D.state device.old) (D.state device.new) }
    ensures honest { D.honest device.new → D.honest device.old }
{
    match due {
        Due::Nothing => Ok(()),
        Due::Write(area, place) => device.write(area, place, bytes),
        Due::Flush(area) => device.flush(area),
    }
}
