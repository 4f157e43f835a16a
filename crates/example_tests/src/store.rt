//! The store of one thread over a device in memory that loses its power.

use crate::expected::expect;
use anyhow::Result;
use keelsoursop::{Device, Journal, MemDevice, StopAt};
use std::alloc::Global;
use std::test::Fail;
use store_example::{close, get, open, put};

/// A new store's device.
pub(crate) fn new_device(alloc: Global) -> Result<MemDevice> {
    let mut device = MemDevice::new(alloc, 1024, 33, 64);
    keelsoursop::format(&mut device, 33, &[0xaa; 16], false)?;
    Ok(device)
}

/// Puts two values under key 7. Returns the last one acknowledged, or 0.
fn put_two<D: Device + Drop>(alloc: Global, store: &mut Journal<D>) -> Result<u8> {
    let mut acknowledged = 0;
    for byte in 1..=2u8 {
        let value = vec![in alloc; byte; 1024]?;
        if put(alloc, store, 7, &value).is_ok() {
            acknowledged = byte;
        }
    }
    Ok(acknowledged)
}

/// What a key of a store has, or 0.
fn found<D: Device + Drop>(alloc: Global, store: &mut Journal<D>, key: usize) -> Result<u8> {
    match get(alloc, store, key)? {
        Some(bytes) => Ok(bytes.first().copied().unwrap_or(0)),
        None => Ok(0),
    }
}

/// What key 7 of the store of a device has, or 0.
fn found_on(alloc: Global, device: MemDevice) -> Result<u8> {
    let mut store = open(alloc, device)?;
    found(alloc, &mut store, 7)
}

/// Puts two values while the power goes away at write `k`. Returns the last one acknowledged, and the one that the store has after the crash.
fn stopped_at(alloc: Global, k: u64) -> Result<(u8, u8)> {
    let mut store = open(alloc, StopAt::new(new_device(alloc)?, k))?;
    let acknowledged = put_two(alloc, &mut store)?;
    let left = store.into_parts().device.into_inner().crash(&[]);
    Ok((acknowledged, found_on(alloc, left)?))
}

/// Wherever it stops, the store has the value acknowledged last, or one put after it.
#[test]
fn what_was_acknowledged_is_there(rt: HostRuntime) -> Result<(), Fail> {
    for k in 1..=40u64 {
        let Ok((acknowledged, found)) = stopped_at(rt.alloc(), k) else {
            return Err("a call is refused".into());
        };
        expect(&rt, &(acknowledged <= found && found <= 2), &true);
    }
    Ok(())
}

/// Puts a value of its own under each of two keys.
fn put_two_keys<D: Device + Drop>(alloc: Global, store: &mut Journal<D>) -> Result<()> {
    for key in 1..=2u8 {
        let value = vec![in alloc; key + 10; 1024]?;
        put(alloc, store, usize::from(key), &value)?;
    }
    Ok(())
}

/// A put changes its own key, and a close keeps both.
fn two_keys(alloc: Global) -> Result<(u8, u8)> {
    let mut store = open(alloc, new_device(alloc)?)?;
    put_two_keys(alloc, &mut store)?;
    let told = (found(alloc, &mut store, 1)?, found(alloc, &mut store, 3)?);
    close(store)?;
    Ok(told)
}

#[test]
fn each_key_has_its_own_value(rt: HostRuntime) -> Result<(), Fail> {
    let Ok(told) = two_keys(rt.alloc()) else {
        return Err("a call is refused".into());
    };
    expect(&rt, &told, &(11, 0));
    Ok(())
}
