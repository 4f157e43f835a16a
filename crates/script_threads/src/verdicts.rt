//! Decides each verdict on the journal's answers to its clients.
ghost use Rattle.std.specs.Prelude.{◌≡◌, ◌↔◌, ◌⊎◌, ◌≤◌, ℕ, Some, true, All, Contains, IfSome, IsTrue};
ghost use Rattle.script_threads.specs.Verdicts.{AreAllTrue, AreCreditsRight, HasReceiptIn, HasReceiptUpTo, IsOfClient, IsOfHandle, IsReceiptOf, IsUpTo, NeverFall, StandsIn};
ghost use Rattle.script_threads.specs.declared.told.ToldReceipt.{ToldReceipt};

use crate::told::{ToldHandle, ToldReceipt};
use journal_model::{Sealed, Tid};

/// The verdicts on a run of clients.
#[derive(Clone, Copy, Debug, PartialEq, Eq)]
pub struct Verdicts {
    /// The credit word is the number of entries of the unsealed transaction, and within the capacity.
    pub credits: bool,
    /// Each receipt's handle stands in the receipt's transaction, which is committed in the record.
    pub receipts: bool,
    /// Each client's handles have transactions that never fall.
    pub order: bool,
    /// The crash image opens to all transactions of receipts, and to none that was not sealed; each block that a client names is as they
    /// left it.
    pub recovery: bool,
}

impl Verdicts {
    /// Whether all four are true.
    pub fn are_right(&self) -> bool
        ensures { IsTrue result ↔ AreAllTrue self.now }
    {
        self.credits && self.receipts && self.order && self.recovery
    }
}

/// Whether the credit word is the number of entries, and within the capacity.
pub(crate) fn credits_are_right(word: u64, entries: u64, capacity: u64) -> bool
    ensures { IsTrue result ↔ AreCreditsRight word entries capacity }
{
    word == entries && word <= capacity
}

/// Whether each receipt's handle stands in one of these transactions, the receipt's.
pub(crate) fn receipts_stand(clients: &[Vec<ToldHandle>], committed: &[Sealed]) -> bool
    ensures { IsTrue result ↔ All (λ c. All (λ h. HasReceiptIn committed.now h.receipt) c.items) clients.now }
{
    for client in clients {
        if !client_stands(client, committed) {
            return false;
        }
    }
    true
}

/// `receipts_stand` for one client.
fn client_stands(handles: &[ToldHandle], committed: &[Sealed]) -> bool
    ensures { IsTrue result ↔ All (λ h. HasReceiptIn committed.now h.receipt) handles.now }
{
    for handle in handles {
        if !handle_stands(&handle.receipt, committed) {
            return false;
        }
    }
    true
}

/// `receipts_stand` for one handle; true without a receipt.
fn handle_stands(receipt: &Option<ToldReceipt>, committed: &[Sealed]) -> bool
    ensures { IsTrue result ↔ HasReceiptIn committed.now receipt.now }
{
    match receipt {
        Some(receipt) => stands_in(receipt, committed),
        None => true,
    }
}

/// `receipts_stand` for one receipt.
fn stands_in(receipt: &ToldReceipt, committed: &[Sealed]) -> bool
    ensures { IsTrue result ↔ StandsIn committed.now receipt.now }
{
    for transaction in committed {
        if is_receipt_of(transaction, receipt) {
            return true;
        }
    }
    false
}

/// Whether the transaction is the receipt's, and has its handle.
fn is_receipt_of(transaction: &Sealed, receipt: &ToldReceipt) -> bool
    ensures { IsTrue result ↔ IsReceiptOf transaction.now receipt.now }
{
    transaction.tid == receipt.tid && transaction.handles.as_slice().contains(&receipt.handle)
}

/// Whether each client's handles have transactions that never fall.
pub(crate) fn never_fall(clients: &[Vec<ToldHandle>]) -> bool
    ensures { IsTrue result ↔ All (λ c. NeverFall c.items) clients.now }
{
    for client in clients {
        if !client_never_falls(client) {
            return false;
        }
    }
    true
}

/// `never_fall` for one client.
fn client_never_falls(handles: &[ToldHandle]) -> bool
    ensures { IsTrue result ↔ NeverFall handles.now }
{
    for place in 1..handles.len() {
        let (before, now) = (handles[place - 1].tid, handles[place].tid);
        if now.0 < before.0 {
            return false;
        }
    }
    true
}

/// The greatest transaction of any receipt.
pub(crate) fn greatest_receipt(clients: &[Vec<ToldHandle>]) -> Option<Tid>
    ensures all { All (λ c. All (λ h. HasReceiptUpTo result h.receipt) c.items) clients.now }
    ensures some { IfSome result (IsOfClient clients.now) }
{
    let mut greatest = None;
    for client in clients {
        greatest = greater_receipt(greatest, client);
    }
    greatest
}

/// The greatest transaction of these handles' receipts and `least`.
fn greater_receipt(least: Option<Tid>, handles: &[ToldHandle]) -> Option<Tid>
    ensures all { All (λ h. HasReceiptUpTo result h.receipt) handles.now }
    ensures keeps { (tid : ℕ) → IsUpTo least tid → IsUpTo result tid }
    ensures some { IfSome result (λ tid. (least ≡ Some tid) ⊎ IsOfHandle handles.now tid) }
{
    let mut greatest = least;
    for handle in handles {
        greatest = later(greatest, handle.receipt);
    }
    greatest
}

/// The later of `greatest` and the receipt's transaction.
fn later(greatest: Option<Tid>, receipt: Option<ToldReceipt>) -> Option<Tid>
    ensures it { HasReceiptUpTo result receipt }
    ensures keeps { (tid : ℕ) → IsUpTo greatest tid → IsUpTo result tid }
    ensures some { (result ≡ greatest) ⊎ ((r : ToldReceipt) × (receipt ≡ Some r) × (result ≡ Some r.tid)) }
{
    match (greatest, receipt) {
        (Some(tid), Some(receipt)) if tid.0 < receipt.tid.0 => Some(receipt.tid),
        (None, Some(receipt)) => Some(receipt.tid),
        _ => greatest,
    }
}
