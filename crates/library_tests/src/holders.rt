//! How many references the bytes of a write have: they are copied once, and let go when nobody needs them.
ghost use Rattle.std.specs.Prelude.{◌≡◌, false};

use crate::expected::expect;
use journal_front::{Record, Transaction, Unrecorded};
use journal_model::{Block, BlockNo, Entry, HandleNo, JournalError, Sealed, Tid};
use std::alloc::Global;
use std::test::Fail;

const BLOCK: BlockNo = BlockNo(7);

/// Writes a block through a handle, and returns one more reference to its bytes.
fn written<R: Record>(transaction: &mut Transaction<R>, byte: u8) -> Result<Block, JournalError> {
    let _touch = transaction.touch_write(HandleNo(1), 1, BLOCK, &[byte])?;
    match transaction.get(BLOCK) {
        Some(Entry::Copy(copy)) => Ok(copy.try_clone()?),
        _ => Err(JournalError::BadBlock),
    }
}

fn sealed<R: Record>(alloc: Global, transaction: &mut Transaction<R>) -> Result<R, JournalError> {
    let mut record = R::new(alloc);
    record.make_room()?;
    transaction.lock();
    transaction.finish();
    if !transaction.is_locked() || transaction.tid().0 > 2 {
        return Err(JournalError::NotRunning);
    }
    transaction.seal(&mut record);
    Ok(record)
}

/// After a write, after the entries are handed over, after the seal, after these entries are dropped, after the record is dropped, and
/// after the commit.
fn held_by_turns(
    alloc: Global,
    transaction: &mut Transaction<Vec<Sealed>>,
) -> Result<[usize; 6], JournalError>
    requires { transaction.old.locked ≡ false }
{
    transaction.join(HandleNo(1))?;
    let bytes = written(transaction, 1)?;
    let running = bytes.holders();
    let batch = transaction.batch()?;
    let handed = bytes.holders();
    let record = sealed(alloc, transaction)?;
    let kept = bytes.holders();
    drop(batch);
    let recorded = bytes.holders();
    drop(record);
    let committing = bytes.holders();
    transaction.finish();
    Ok([running, handed, kept, recorded, committing, bytes.holders()])
}

#[test]
fn a_write_copies_its_bytes_once(rt: HostRuntime) -> Result<(), Fail> {
    let mut transaction = Transaction::new(rt.alloc(), Tid(2));
    let told = held_by_turns(rt.alloc(), &mut transaction);
    expect(&rt, &told, &Ok([3, 4, 4, 3, 2, 1]));
    Ok(())
}

/// The bytes of a write after a second one, those of the second, and these after the seal.
fn unrecorded(
    alloc: Global,
    transaction: &mut Transaction<Unrecorded>,
) -> Result<[usize; 3], JournalError>
    requires { transaction.old.locked ≡ false }
{
    transaction.join(HandleNo(1))?;
    let first = written(transaction, 1)?;
    let last = written(transaction, 2)?;
    let running = [first.holders(), last.holders()];
    let _record = sealed(alloc, transaction)?;
    Ok([running[0], running[1], last.holders()])
}

#[test]
fn a_record_for_contracts_alone_keeps_the_last_write(rt: HostRuntime) -> Result<(), Fail> {
    let mut transaction = Transaction::new(rt.alloc(), Tid(2));
    let told = unrecorded(rt.alloc(), &mut transaction);
    expect(&rt, &told, &Ok([1, 2, 2]));
    Ok(())
}
