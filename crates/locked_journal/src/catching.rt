//! How a front catches up with an engine that went on alone.
ghost use Rattle.std.specs.Prelude.{◌≡◌, ◌+◌, ◌-◌, ◌<◌, ◌≤◌};
ghost use Rattle.journal_world.specs.Front.{finishing, raising};
ghost use Rattle.journal_steps.specs.Values.{together};
ghost use Rattle.locked_journal.specs.Sides.{CatchesUp, IsBehind};

use block_device::Device;
use journal_front::{Front, Record};
use journal_model::Tid;
use log_engine::Engine;

/// Finishes and acknowledges the last sealed transaction, which is committed, unless it is finished.
fn finish_last<R: Record>(front: &mut Front<R>)
    requires mark { front.old.mark ≡ front.old.finished }
    requires last { front.old.running.tid ≤ front.old.finished + 2 }
    ensures one { front.old.finished + 1 < front.old.running.tid → front.new ≡ raising (finishing front.old) (front.old.running.tid - 1) }
    ensures none { front.old.running.tid ≤ front.old.finished + 1 → front.new ≡ front.old }
{
    let tid = front.tid().0;
    if u64::from(front.mark().0) + 1 < u64::from(tid) {
        front.finish();
        front.raise(Tid(tid - 1));
    }
}

pub(crate) fn catch_up<D: Device, R: Record>(front: &mut Front<R>, engine: &Engine<D>)
    requires { IsBehind front.old engine.now.engine }
    ensures { CatchesUp (record { front = front.old; engine = engine.now.engine }) (D.state engine.now.device).disk (together front.new engine.now).journal }
{
    engine.recall_invariant();
    front.learn(engine.is_aborted());
    if !engine.is_idle() {
        return;
    }
    finish_last(front);
}
