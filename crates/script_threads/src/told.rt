//! The journal's answers to its clients, as plain values.
ghost use Rattle.std.specs.Prelude.{◌≡◌, IfOk};
ghost use Rattle.std.specs.List.{AllZip};
ghost use Rattle.script_threads.specs.Runs.{IsTold, named_by};

use journal_model::{HandleNo, Tid};
use shared_journal::{JournalName, Record, SharedReceipt};
use std::alloc::{AllocError, Global};
use volume_service::{ClientOutcome, HandleOutcome};

/// What a receipt names.
#[derive(Clone, Copy, Debug)]
pub struct ToldReceipt {
    pub tid: Tid,
    pub handle: HandleNo,
}

/// The journal's answers for one handle.
#[derive(Clone, Copy, Debug)]
pub struct ToldHandle {
    pub tid: Tid,
    /// Its receipt, if the client waited for it.
    pub receipt: Option<ToldReceipt>,
}

/// The answers for each client's handles.
pub(crate) fn told_of<J: JournalName, R: Record>(
    alloc: Global,
    clients: &[ClientOutcome<J, R>],
) -> Result<Vec<Vec<ToldHandle>>, AllocError>
    ensures { IfOk result (λ told. AllZip (λ c ts. AllZip (λ h t. IsTold h.tid h.receipt t) c.handles.items ts.items) clients.now told.items) }
{
    let mut told = Vec::new(alloc);
    for client in clients {
        let handles = told_client(alloc, &client.handles)?;
        told.push(handles)?;
    }
    Ok(told)
}

fn told_client<J: JournalName, R: Record>(
    alloc: Global,
    handles: &[HandleOutcome<J, R>],
) -> Result<Vec<ToldHandle>, AllocError>
    ensures { IfOk result (λ told. AllZip (λ h t. IsTold h.tid h.receipt t) handles.now told.items) }
{
    let mut told = Vec::new(alloc);
    for handle in handles {
        let receipt = told_receipt(&handle.receipt);
        told.push(ToldHandle {
            tid: handle.tid,
            receipt,
        })?;
    }
    Ok(told)
}

fn told_receipt<J: JournalName, R: Record>(
    receipt: &Option<SharedReceipt<J, R>>,
) -> Option<ToldReceipt>
    ensures { result ≡ named_by receipt.now }
{
    match receipt {
        Some(receipt) => Some(ToldReceipt {
            tid: receipt.tid(),
            handle: receipt.handle(),
        }),
        None => None,
    }
}
