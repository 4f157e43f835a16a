//! Finds each block's last operation that left an entry, in one pass over a run's transactions.
ghost use Rattle.std.specs.Prelude.{◌≡◌, ℕ, ◌==◌, [], ◌∷◌, if◌then◌else◌, IfOk, OnOk, is_some, take};
ghost use Rattle.journal_model.specs.Transaction.{effect, entry_of, last_effect, later};
ghost use Rattle.script_run.specs.LastEntries.{entry_in};

use journal_model::{Op, Sealed, Step};
use std::alloc::{AllocError, Global};
use std::collections::BTreeMap;

/// Each block's last operation that left an entry, in the first `n` transactions at most. Fails if memory runs out.
pub(crate) fn last_entries<'a>(
    alloc: Global,
    history: &'a [Sealed],
    n: usize,
) -> Result<BTreeMap<u64, &'a Op>, AllocError>
    ensures { IfOk result (λ last. (b : ℕ) → entry_in last b ≡ last_effect b (take n history.now)) }
{
    entries_of(alloc, &history[..n.min(history.len())])
}

fn entries_of<'a>(alloc: Global, history: &'a [Sealed]) -> Result<BTreeMap<u64, &'a Op>, AllocError>
    ensures { IfOk result (λ last. (b : ℕ) → entry_in last b ≡ last_effect b history.now) }
{
    let mut last = BTreeMap::new(alloc);
    for transaction in history {
        note_steps(&mut last, transaction.steps.as_slice())?;
    }
    Ok(last)
}

fn note_steps<'a>(last: &mut BTreeMap<u64, &'a Op>, steps: &'a [Step]) -> Result<(), AllocError>
    ensures { OnOk result ((b : ℕ) → entry_in last.new b ≡ later (entry_in last.old b) (effect b steps.now)) }
{
    for step in steps {
        note_step(last, step)?;
    }
    Ok(())
}

fn note_step<'a>(last: &mut BTreeMap<u64, &'a Op>, step: &'a Step) -> Result<(), AllocError>
    ensures { OnOk result ((b : ℕ) → entry_in last.new b ≡ later (entry_in last.old b) (effect b (step.now ∷ []))) }
{
    match step.op {
        Op::Write(_) | Op::Revoke => note(last, step.block.0, &step.op),
        Op::Read(_) => Ok(()),
    }
}

fn note<'a>(last: &mut BTreeMap<u64, &'a Op>, block: u64, op: &'a Op) -> Result<(), AllocError>
    ensures { OnOk result ((b : ℕ) → entry_in last.new b ≡ (if block == b then entry_of op.now else entry_in last.old b)) }
{
    last.insert(block, op)?;
    Ok(())
}
