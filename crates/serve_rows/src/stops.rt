//! Serves a row with a stop at each device write, and opens crash images. Each image has to open to home after the first changes, however
//! many. The result is `torn`, whether some image does not; `lost`, whether some image lacks a change that a commit confirmed; and
//! `enough`, whether there were at least as many stops as such homes.
use crate::connection::{home_of, new_log, serve_on};
use crate::given::ConnectionRow;
use block_device::{MemDevice, StopAt};
use log_rows::RowError;
use nbd_protocol::numbers::{WRITE, WRITE_ZEROES};
use nbd_protocol::{REPLY_BYTES, REQUEST_BYTES, Request, write_reply};
use nbd_server::Confirmed;
use std::alloc::{AllocError, Global};
use std::sync::Wait;
use std::thread::Threads;

/// The most stops that are tried.
const MOST_WRITES: u64 = 400;

/// Home after each number of a row's changes, each change's cookie, and how many changes come before each answer that waits for a commit.
#[derive(Drop)]
struct Model {
    homes: Vec<Vec<u8>>,
    changes: Vec<u64>,
    flushes: Vec<(u64, usize)>,
}

impl Model {
    /// Before the first change.
    fn new(alloc: Global, home: &Vec<u8>) -> Result<Model, AllocError> {
        let mut homes = Vec::new(alloc);
        homes.push(home.clone()?)?;
        Ok(Model {
            homes,
            changes: Vec::new(alloc),
            flushes: Vec::new(alloc),
        })
    }

    /// After a change with this cookie, home is this.
    fn changed(&mut self, cookie: u64, home: &Vec<u8>) -> Result<(), AllocError> {
        self.homes.push(home.clone()?)?;
        self.changes.push(cookie)?;
        Ok(())
    }

    /// The answer with this cookie waits for a commit: it covers all changes so far.
    fn flushed(&mut self, cookie: u64) -> Result<(), AllocError> {
        self.flushes.push((cookie, self.changes.len()))?;
        Ok(())
    }

    /// How many changes come before the first without a success answer.
    fn answered(&self, out: &[u8]) -> usize {
        let refused = |cookie: &u64| !is_answered_well(out, *cookie);
        self.changes
            .iter()
            .position(refused)
            .unwrap_or(self.changes.len())
    }

    /// How many changes must survive.
    fn safe(&self, committed: &[Confirmed], out: &[u8]) -> usize {
        let mut safe = 0;
        for answer in committed {
            for (cookie, changes) in &self.flushes {
                if *cookie == answer.cookie {
                    safe = safe.max(*changes);
                }
            }
        }
        safe.min(self.answered(out))
    }
}

fn model_of(alloc: Global, given: &ConnectionRow<'_>, home: Vec<u8>) -> Result<Model, RowError> {
    let mut now = home;
    let mut model = Model::new(alloc, &now)?;
    let mut rest = given.stream.get(given.before..).unwrap_or(&[]);
    for _ in 0..given.stream.len() {
        if rest.len() < REQUEST_BYTES {
            break;
        }
        let (head, after) = rest.split_at(REQUEST_BYTES);
        let Some(request) = Request::read(head) else {
            return Err(RowError::Unread);
        };
        rest = after;
        if request.command == WRITE || request.command == WRITE_ZEROES {
            rest = change(&mut now, &request, after)?;
            model.changed(request.cookie, &now)?;
        }
        if request.wants_commit() {
            model.flushed(request.cookie)?;
        }
    }
    Ok(model)
}

/// Makes a request's change of home. Returns the bytes after the request.
fn change<'a>(
    home: &mut Vec<u8>,
    request: &Request,
    after: &'a [u8],
) -> Result<&'a [u8], RowError> {
    let (from, length) = (request.offset as usize, request.length as usize);
    let Some(room) = home
        .as_mut_slice()
        .get_mut(from..from.saturating_add(length))
    else {
        return Err(RowError::Unread);
    };
    if request.command == WRITE_ZEROES {
        room.fill(0);
        return Ok(after);
    }
    let Some((bytes, rest)) = after.split_at_checked(length) else {
        return Err(RowError::Unread);
    };
    room.copy_from_slice(bytes);
    Ok(rest)
}

/// The result of a row.
pub fn found<T: Threads + Wait + Sync>(
    threads: &T,
    alloc: Global,
    given: &ConnectionRow<'_>,
) -> Result<String, RowError> {
    let mut device = new_log(alloc)?;
    let model = model_of(alloc, given, home_of(alloc, &mut device)?)?;
    let (mut is_torn, mut is_lost, mut stops) = (false, false, 0);
    for k in 1..=MOST_WRITES {
        let left = serve_on(threads, alloc, given, StopAt::new(new_log(alloc)?, k))?;
        if !left.device.is_stopped() {
            break;
        }
        stops = k;
        let safe = model.safe(&left.done.committed, &left.out);
        let device = left.device.into_inner();
        for kept in [0, 1, 2] {
            match changes_in(alloc, &model, &device, kept)? {
                None => is_torn = true,
                Some(changes) if changes < safe => is_lost = true,
                Some(_) => {}
            }
        }
    }
    let (torn, lost) = (some_or_none(is_torn), some_or_none(is_lost));
    let enough = stops >= model.homes.len() as u64;
    Ok(format!(in alloc; "torn={torn} lost={lost} enough={enough}")?)
}

fn some_or_none(some: bool) -> &'static str {
    if some { "some" } else { "none" }
}

/// Whether the request with this cookie succeeded.
fn is_answered_well(out: &[u8], cookie: u64) -> bool {
    let mut reply = [0; REPLY_BYTES];
    write_reply(&mut reply, 0, cookie);
    for at in 0..out.len() {
        if out[at..].starts_with(&reply) {
            return true;
        }
    }
    false
}

/// Which of a device's writes an image keeps: none, all, or the last.
fn writes_kept(alloc: Global, writes: u64, kept: u8) -> Result<Vec<u64>, AllocError> {
    let mut keep = Vec::new(alloc);
    let first = match kept {
        0 => writes.saturating_add(1),
        1 => 1,
        _ => writes,
    };
    for write in first..=writes {
        keep.push(write)?;
    }
    Ok(keep)
}

/// The number of changes in a crash image, the greatest if several fit; `None` if it is torn. It keeps none, all, or the last of the
/// unflushed writes.
fn changes_in(
    alloc: Global,
    model: &Model,
    device: &MemDevice,
    kept: u8,
) -> Result<Option<usize>, RowError> {
    let keep = writes_kept(alloc, device.writes(), kept)?;
    let image = device.try_clone()?.crash(&keep);
    let Ok(opened) = recovery::open(alloc, image) else {
        return Ok(None);
    };
    let mut device = opened.into_device();
    let home = home_of(alloc, &mut device)?;
    Ok(
        model
            .homes
            .iter()
            .rposition(|one| one.as_slice() == home.as_slice()),
    )
}
