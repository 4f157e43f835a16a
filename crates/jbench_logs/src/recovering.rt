//! The command `recover` over devices: picks the opening that its words ask for.
ghost use Rattle.std.specs.Prelude.{◌≡◌, ◌≢◌, IfOk, false};
ghost use Rattle.jbench_words.specs.declared.fault.CommandStatus.TheVariants.{Fine, Refused};
ghost use Rattle.jbench_logs.specs.Done.{IsRefusalOf, IsRefusedBy, PassesAs, Recovers, SaysOpened};

use crate::damage::recover_before_damage;
use crate::{logs, plans};
use block_device::Device;
use jbench_words::fault::CommandStatus;
use jbench_words::watch::Watch;
use jbench_words::words::RecoverWords;
use std::alloc::Global;
use std::io;
use std::io::Write;

/// Opens a device's log, opens it even if it is damaged or ahead, or says what either would do, as the words ask. `watch` learns of each
/// read and write, and of their end before anything is printed. The device comes back.
///
/// # Errors
///
/// The output could not be written.
pub fn recover<D: Device + Drop, H: Watch + Drop, W: Write, E: Write + Drop>(
    alloc: Global,
    words: &RecoverWords<'_>,
    device: D,
    watch: H,
    out: &mut W,
    err: E,
) -> io::Result<(CommandStatus, D)>
    ensures done { IfOk result (λ done. done.0 ≡ Fine → D.honest done.1 → Recovers words.now.dry_run words.now.before_damage (D.state device) (D.state done.1)) }
    ensures says { words.now.dry_run ≡ false → words.now.before_damage ≡ false →
        IfOk result (λ done. done.0 ≡ Fine → SaysOpened words.now.json (D.honest done.1) (D.state device) (D.state done.1) (W.contents out.old) (W.contents out.new)) }
    // Whatever the answer: each moment is one of the opening, and a dry run changes nothing.
    ensures moments { IfOk result (λ done. PassesAs words.now.dry_run words.now.before_damage (D.honest done.1) (D.state device) (D.state done.1)) }
    ensures refused { IfOk result (λ done. done.0 ≢ Fine → (done.0 ≡ Refused) × IsRefusedBy (IsRefusalOf words.now.before_damage) D.state D.honest (D.state device) done.1) }
{
    if words.dry_run {
        plans::plan(alloc, words, device, watch, out, err)
    } else if words.before_damage {
        recover_before_damage(alloc, words, device, watch, out, err)
    } else {
        logs::recover(alloc, words, device, watch, out, err)
    }
}
