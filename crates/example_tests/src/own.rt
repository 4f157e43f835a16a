//! Clients of a type of the caller's own, over a device in memory.
ghost use Rattle.std.specs.Prelude.{◌≡◌};

use crate::expected::expect;
use keelsoursop::threads::{
    Client, Gate, JournalName, NoInterval, OpenGate, Session, UnnamedJournal, serve_clients,
};
use keelsoursop::{BlockNo, Device, JournalError, MemDevice, Record};
use std::alloc::Global;
use std::marker::Brand;
use std::sync::Wait;
use std::test::Fail;
use std::thread::Threads;
use test_logs::formatted;
use thread_tests::journals::unnamed_on;

/// Writes a block and revokes the next, asks whether they keep a copy, writes the second through another handle and waits for it, and reads
/// the first block.
#[derive(Clone, Copy, Debug)]
struct Looker {
    alloc: Global,
    block: u64,
}

/// The client's number, the most credits, the first write's byte, the result of a read into a short buffer, and what was told of both blocks.
type Told = (
    usize,
    u64,
    Option<u8>,
    Result<(), JournalError>,
    [Result<bool, JournalError>; 2],
);

impl<J: JournalName, D: Device, R: Record, G: Gate> Client<J, D, R, G> for Looker {
    type Answer = Result<Told, JournalError>;

    fn run<W: Wait>(
        self,
        rt: &W,
        session: &mut Session<'_, J, D, R, G>,
    ) -> Result<Told, JournalError>
        ensures { Unit {0} }
    {
        let mut bytes = vec![in self.alloc; 7u8; session.block_size()]?;
        let next = BlockNo(self.block.saturating_add(1));
        let mut handle = session.start(rt, 2)?;
        let wrote = session.write(rt, &mut handle, BlockNo(self.block), &bytes);
        let revoked = session.revoke(rt, &mut handle, next);
        let kept = [
            session.keeps_copy(rt, BlockNo(self.block)),
            session.keeps_copy(rt, next),
        ];
        let _ticket = session.stop(rt, handle);
        wrote?;
        revoked?;
        let mut handle = session.start(rt, 1)?;
        let wrote = session.write(rt, &mut handle, next, &bytes);
        let ticket = session.stop(rt, handle);
        wrote?;
        let Ok(_receipt) = session.wait(rt, ticket) else {
            return Err(JournalError::Aborted);
        };
        bytes.as_mut_slice().fill(0);
        session.read_newest(rt, BlockNo(self.block), bytes.as_mut_slice())?;
        let short = session.read_newest(rt, BlockNo(self.block), &mut []);
        Ok((
            session.number(),
            session.capacity(),
            bytes.first().copied(),
            short,
            kept,
        ))
    }
}

/// Runs two clients, and closes the journal. Returns their answers, and whether the close succeeded.
fn look<J: JournalName + Send + Sync, R: Threads + Wait + Sync>(
    rt: &R,
    alloc: Global,
    unnamed: UnnamedJournal<MemDevice>,
) -> Result<(Vec<Result<Told, JournalError>>, bool), JournalError>
    requires name { unnamed.name ≡ J.name }
{
    let (journal, seat) = unnamed.named::<J>();
    let served = match lookers(alloc) {
        Ok(lookers) => serve_clients(rt, alloc, &journal, seat, lookers, &OpenGate, &NoInterval),
        Err(e) => Err(e),
    };
    let closed = journal.close().is_ok();
    Ok((served?.answers, closed))
}

fn lookers(alloc: Global) -> Result<Vec<Looker>, JournalError> {
    let mut lookers = Vec::new(alloc);
    lookers.push(Looker { alloc, block: 3 })?;
    lookers.push(Looker { alloc, block: 8 })?;
    Ok(lookers)
}

/// The same over a new log in memory.
fn run_on<R: Threads + Wait + Sync>(
    rt: &R,
    alloc: Global,
) -> Result<(Vec<Result<Told, JournalError>>, bool), JournalError> {
    let unnamed = unnamed_on(alloc, formatted(alloc, 33, 64)?)?;
    look::<Brand, _>(rt, alloc, unnamed)
}

#[test]
fn clients_of_a_type_of_ones_own_run(rt: HostRuntime) -> Result<(), Fail> {
    let short = Err(JournalError::BadBlock);
    let kept = [Ok(true), Ok(false)];
    let Ok((told, closed)) = run_on(&rt, rt.alloc()) else {
        return Err("the clients are not run".into());
    };
    expect(&rt, &told.len(), &2);
    expect(&rt, &told.first(), &Some(&Ok((0, 6, Some(7), short, kept))));
    expect(&rt, &told.last(), &Some(&Ok((1, 6, Some(7), short, kept))));
    expect(&rt, &closed, &true);
    Ok(())
}
