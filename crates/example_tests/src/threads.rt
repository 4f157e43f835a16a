//! The store of four threads over a device in memory.

use crate::expected::expect;
use crate::store::new_device;
use anyhow::Result;
use crossbeam_channel::{Receiver, Sender, unbounded};
use std::alloc::Global;
use std::sync::Wait;
use std::test::Fail;
use std::thread::Threads;
use threads_example::{Request, serve};

/// Asks for twenty keys at once, more than a transaction of the log can change, then for other values of the first three, then for what key
/// 19 has. Its sender is dropped then, so the servers end.
fn ask<W: Wait>(
    rt: &W,
    alloc: Global,
    requests: Sender<Request>,
    reply: Sender<Option<Vec<u8>>>,
) -> Result<()> {
    let value = vec![in alloc; 7u8; 1024]?;
    requests.send(rt, Request::PutAll { keys: 20, value })?;
    for key in 0..3usize {
        let value = vec![in alloc; 8u8; 1024]?;
        requests.send(rt, Request::Put { key, value })?;
    }
    requests.send(rt, Request::Get { key: 19, reply })?;
    Ok(())
}

/// Serves these requests over a new store. Returns how many were done, and the first byte of key 19, or 0.
fn serve_all<W: Threads + Wait + Sync>(rt: &W, alloc: Global) -> Result<(usize, u8)> {
    let (requests, to_serve) = unbounded(alloc)?;
    let (reply, replies) = unbounded(alloc)?;
    ask(rt, alloc, requests, reply)?;
    let done = serve(rt, alloc, new_device(alloc)?, to_serve)?;
    Ok((done, first_byte(rt, &replies)))
}

fn first_byte<W: Wait>(rt: &W, replies: &Receiver<Option<Vec<u8>>>) -> u8 {
    match replies.recv(rt) {
        Ok(Some(bytes)) => bytes.first().copied().unwrap_or(0),
        _ => 0,
    }
}

/// All requests are done. The read may come before the first change: then there is nothing.
#[test]
fn four_threads_serve_requests(rt: HostRuntime) -> Result<(), Fail> {
    let Ok((done, found)) = serve_all(&rt, rt.alloc()) else {
        return Err("a call is refused".into());
    };
    expect(&rt, &(done, found == 7 || found == 0), &(5, true));
    Ok(())
}
