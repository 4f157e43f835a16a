//! Serves a row over a new log in memory. Lines tell the result: `out` the answered bytes; `end` how the connection ended and how many
//! requests it had; `committed` the cookies of answers that confirmed a commit; `home` the content of home.
use crate::client::{Answers, RowClient};
use crate::given::ConnectionRow;
use crate::spelling::spell;
use block_device::{Device, MemDevice};
use journal_model::Area;
use log_rows::RowError;
use nbd_server::{Done, Export, NoInterval, NoPrefetch, Output, Served, serve};
use shared_journal::{UnnamedJournal, Unrecorded};
use std::alloc::Global;
use std::fmt::Write;
use std::io;
use std::io::{ErrorKind, Read};
use std::sync::Wait;
use std::sync::atomic::AtomicUsize;
use std::thread::Threads;

/// In bytes.
const BLOCK_SIZE: usize = 1024;

/// Blocks of the log: a handle has at most six credits.
const LOG_BLOCKS: u32 = 33;

/// As many that a read of all is long enough for the task that sends long answers.
pub const HOME_BLOCKS: u64 = 64;

/// How many answers that confirm a commit are kept.
const KEEP: usize = 64;

/// A device in memory with a new log.
pub fn new_log(alloc: Global) -> Result<MemDevice, RowError> {
    let mut device = MemDevice::new(alloc, BLOCK_SIZE, u64::from(LOG_BLOCKS), HOME_BLOCKS);
    match recovery::format(&mut device, LOG_BLOCKS, &[0xaa; 16], false) {
        Ok(()) => Ok(device),
        Err(_) => Err(RowError::Unread),
    }
}

/// A connection's end, its answers, and its device.
#[derive(Drop)]
pub struct EndedConnection<D: Drop> {
    pub done: Done,
    pub out: Vec<u8>,
    pub closed: bool,
    pub device: D,
}

/// Serves a row over a device's log.
pub fn serve_on<D: Device + Send + Drop, T: Threads + Wait + Sync>(
    threads: &T,
    alloc: Global,
    given: &ConnectionRow<'_>,
    device: D,
) -> Result<EndedConnection<D>, RowError> {
    let Ok(unnamed) = UnnamedJournal::<D, Unrecorded>::open(alloc, device) else {
        return Err(RowError::Unread);
    };
    let sent = AtomicUsize::new(0);
    let export = Export {
        name: given.name,
        read_only: given.read_only,
        nameable: u64::MAX,
    };
    let client = RowClient::new(given, &sent);
    let answers = Answers::new(Vec::new(alloc), &sent);
    let (served, answers) = serve_client(threads, alloc, unnamed, export, client, answers)?;
    Ok(EndedConnection {
        done: served.done,
        out: answers.into_sent(),
        closed: served.closed.is_ok(),
        device: served.parts.device,
    })
}

/// Serves a client, and gives its answers back. A function of its own, since the type of the output names the client's.
fn serve_client<
    D: Device + Send + Drop,
    I: Read + Send + Drop,
    O: io::Write + Send + Drop,
    T: Threads + Wait + Sync,
>(
    threads: &T,
    alloc: Global,
    unnamed: UnnamedJournal<D, Unrecorded>,
    export: Export<'_>,
    client: I,
    answers: O,
) -> Result<(Served<D, Unrecorded>, O), RowError> {
    let out = Output::new(answers);
    let Ok(served) = serve(
        threads,
        alloc,
        unnamed,
        export,
        KEEP,
        client,
        &out,
        &NoPrefetch,
        &NoInterval,
    ) else {
        return Err(RowError::Memory);
    };
    Ok((served, out.into_inner()))
}

/// All bytes of home.
pub fn home_of<D: Device>(alloc: Global, device: &mut D) -> Result<Vec<u8>, RowError> {
    let mut home = Vec::new(alloc);
    for block in 0..device.blocks(Area::Home) {
        let bytes = home_block(alloc, device, block)?;
        home.extend_from_slice(&bytes)?;
    }
    Ok(home)
}

/// One block of home.
fn home_block<D: Device>(alloc: Global, device: &mut D, block: u64) -> Result<Vec<u8>, RowError> {
    if block >= device.blocks(Area::Home) {
        return Err(RowError::Unread);
    }
    let mut bytes = vec![in alloc; 0u8; device.block_size()]?;
    device.read(Area::Home, block, bytes.as_mut_slice())?;
    Ok(bytes)
}

/// The result of a row.
pub fn found<T: Threads + Wait + Sync>(
    threads: &T,
    alloc: Global,
    given: &ConnectionRow<'_>,
) -> Result<String, RowError> {
    let left = serve_on(threads, alloc, given, new_log(alloc)?)?;
    let mut device = left.device;
    let home = home_of(alloc, &mut device)?;
    let mut text = String::new(alloc);
    write!(text, "out")?;
    spell(&mut text, &left.out)?;
    write!(
        text,
        "\nend {} requests={} closed={}\ncommitted",
        ending(&left.done),
        left.done.requests,
        left.closed
    )?;
    for answer in &left.done.committed {
        write!(text, " {}", answer.cookie)?;
    }
    write!(text, "\nhome")?;
    spell(&mut text, &home)?;
    Ok(text)
}

/// How a connection ended.
fn ending(done: &Done) -> &'static str {
    match &done.end {
        Ok(()) => "well",
        Err(e) => match e.kind() {
            ErrorKind::UnexpectedEof => "within",
            ErrorKind::InvalidData => "malformed",
            _ => "otherwise",
        },
    }
}
