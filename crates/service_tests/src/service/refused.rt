//! Clients whose run may be refused any one request for memory. The gate refuses none: `tests/refused-memory/refused_memory.py` runs
//! this test once for each request, and refuses it.
use super::{LOG_BLOCKS, Summary, try_run, two_clients};
use block_device::{Device, MemDevice};
use journal_model::{Area, JournalError, Sealed, Tid};
use recovery::Opened;
use shared_journal::{UnnamedJournal, create};
use std::alloc::Global;
use std::marker::Brand;
use std::process::Abort;
use std::test::Fail;
use test_logs::BLOCK_SIZE;
use volume_service::OpenGate;

/// Asserts that a refusal is for memory: the call's own, or that of the device, which is in memory.
fn want<R: Abort>(rt: &R, e: JournalError) {
    assert!(rt; e == JournalError::Memory || e == JournalError::Device);
}

/// A new log in memory, made again if that is refused.
fn formatted<R: Abort>(rt: &R, alloc: Global) -> MemDevice {
    let mut device = MemDevice::new(alloc, BLOCK_SIZE, u64::from(LOG_BLOCKS), 64);
    if let Err(e) = recovery::format(&mut device, LOG_BLOCKS, &[7; 16], false) {
        want(rt, e);
        assert!(rt; recovery::format(&mut device, LOG_BLOCKS, &[7; 16], false).is_ok());
    }
    device
}

/// Opens a log, again if that is refused.
fn opened<R: Abort>(rt: &R, alloc: Global, device: MemDevice) -> Opened<MemDevice> {
    let device = match recovery::open(alloc, device) {
        Ok(opened) => return opened,
        Err((device, e)) => {
            want(rt, e);
            device
        }
    };
    let Ok(opened) = recovery::open(alloc, device) else {
        panic!(rt; "a log is refused once more")
    };
    opened
}

/// Makes an unnamed journal on a log, again if that is refused.
fn unnamed_again<R: Abort>(
    rt: &R,
    alloc: Global,
    opened: Opened<MemDevice>,
) -> UnnamedJournal<MemDevice, Vec<Sealed>> {
    let opened = match create(alloc, opened) {
        Ok(unnamed) => return unnamed,
        Err((opened, e)) => {
            assert!(rt; e == JournalError::Memory);
            opened
        }
    };
    let Ok(unnamed) = create(alloc, opened) else {
        panic!(rt; "a journal is refused once more")
    };
    unnamed
}

fn first_byte<R: Abort>(rt: &R, device: &mut MemDevice, block: u64) -> u8 {
    let mut bytes = [0; BLOCK_SIZE];
    let is_read = device.block_size() == BLOCK_SIZE
        && block < device.blocks(Area::Home)
        && device.read(Area::Home, block, &mut bytes).is_ok();
    assert!(rt; is_read);
    bytes[0]
}

/// Judges the clients. Without a refusal each has two receipts. One that is refused Memory ends alone: the other has its two. If the device
/// failed, both may end with Aborted. Only entries hold credits, so no handle is open.
fn judge<R: Abort>(rt: &R, summary: &Summary) {
    match summary.why {
        None => assert_eq!(rt; (summary.handles, summary.receipts), (4, 4)),
        Some(JournalError::Memory) => {
            assert!(rt; summary.refused == 1 && summary.receipts >= 2);
        }
        Some(e) => assert!(rt; e == JournalError::Aborted),
    }
    assert!(rt; summary.tally.word == summary.tally.entries);
}

/// From the crash image: the number after its last transaction, and the first bytes of blocks 3 and 4.
fn left<R: Abort>(rt: &R, alloc: Global, device: MemDevice) -> (u64, u8, u8) {
    let opened = opened(rt, alloc, device.crash(&[]));
    let ends_at = opened.report().ends_at;
    let mut device = opened.into_device();
    let third = first_byte(rt, &mut device, 3);
    (ends_at, third, first_byte(rt, &mut device, 4))
}

/// Judges the crash image. It opens to each transaction with a receipt. The last writes of a client without a refusal are there: of the
/// first 2 in block 3; of the second 3 in block 4 and 4 in block 3.
fn judge_left<R: Abort>(rt: &R, alloc: Global, summary: &Summary, device: MemDevice) {
    let (ends_at, third, fourth) = left(rt, alloc, device);
    let acknowledged = summary.acknowledged.unwrap_or(Tid(0));
    assert!(rt; ends_at > u64::from(acknowledged.0));
    let is_last = third == 2 || third == 4;
    match summary.why {
        None => assert!(rt; is_last && fourth == 3),
        Some(JournalError::Memory) => assert!(rt; is_last || third == 1 && fourth == 3),
        Some(_) => {}
    }
}

/// Prints how many clients were refused something, and what, if both were run.
#[test]
fn a_client_without_memory_ends_alone(rt: HostRuntime) -> Result<(), Fail> {
    let alloc = rt.alloc();
    let Ok(plans) = two_clients(alloc) else {
        return Ok(());
    };
    let opened = opened(&rt, alloc, formatted(&rt, alloc));
    let unnamed = unnamed_again(&rt, alloc, opened);
    match try_run::<Brand, _, _, _>(&rt, alloc, unnamed, &plans, &OpenGate) {
        Ok((summary, device)) => {
            judge(&rt, &summary);
            judge_left(&rt, alloc, &summary, device);
            println!(rt; "refused={} {:?}", summary.refused, summary.why)?;
        }
        Err(e) => assert!(&rt; e == JournalError::Memory),
    }
    Ok(())
}
