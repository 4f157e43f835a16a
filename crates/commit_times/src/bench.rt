//! The command `bench`, over devices.
ghost use Rattle.std.specs.Prelude.{◌≡◌, ◌≤◌, IfOk, IfSome};
ghost use Rattle.commit_times.specs.Closed.{IsLeftClosed};

use crate::counted::{Calls, Counted};
use crate::tally::{Ranked, TimesTally};
use crate::work::{BenchPlan, Work};
use block_device::Device;
use group_commit::Receipt;
use jbench_words::fault::{self, Fault};
use jbench_words::watch::{Watch, WatchStep};
use jbench_words::words::BenchWords;
use journal_model::{Area, JournalError};
use recovery::Opened;
use std::alloc::Global;
use std::io;
use std::io::Write;
use std::time::{Clock, Duration, Instant};

/// The shares of 100 commits whose times are in `COLUMNS`.
const SHARES: [u8; 9] = [1, 5, 10, 25, 50, 75, 90, 95, 99];

/// The names of the values of `--csv`.
const COLUMNS: &str =
    "threads,blocks_each,transactions,commits,taken_ns,transactions_per_second,blocks_per_second,\
commit_1of100_ns,commit_5of100_ns,commit_10of100_ns,commit_25of100_ns,commit_50of100_ns,commit_75of100_ns,commit_90of100_ns,\
commit_95of100_ns,commit_99of100_ns,commit_greatest_ns,log_reads,log_writes,log_flushes,home_reads,home_writes,home_flushes";

/// The seed of the drawn places.
pub(crate) const SEED: u64 = 1;

/// What was done, and how long it took.
#[derive(Drop)]
pub(crate) struct Times {
    pub(crate) tally: TimesTally,
    /// From the opened log to the last commit.
    pub(crate) taken: Duration,
}

impl Times {
    pub(crate) fn new(alloc: Global) -> Times {
        Times {
            tally: TimesTally::new(alloc),
            taken: Duration::ZERO,
        }
    }

    /// This and another client's work.
    ///
    /// # Errors
    ///
    /// `Memory`.
    pub(crate) fn and(self, other: Times) -> Result<Times, JournalError> {
        let mut done = self;
        done.tally.add_all(&other.tally)?;
        done.taken = done.taken.max(other.taken);
        Ok(done)
    }
}

/// Opens the log of a device, commits transactions one by one as the words say, each of the given number of copies, and closes the journal.
/// Prints how many transactions there were and how many per second, how long commits took, and the device's calls. Notifies `watch` each
/// second. The device comes back if all was done; its journal is then closed. Else one line on `err` says why.
///
/// # Errors
///
/// The output can't be written.
pub fn bench<D: Device + Drop, C: Clock, H: Watch + Drop, W: Write + Drop, E: Write + Drop>(
    alloc: Global,
    words: &BenchWords<'_>,
    device: D,
    clock: &C,
    watch: H,
    out: W,
    err: E,
) -> io::Result<Option<D>>
    ensures { IfOk result (λ done. IfSome done (λ device. D.honest device → IsLeftClosed (D.state device))) }
{
    let (mut watch, mut out) = (watch, out);
    let home_blocks = device.blocks(Area::Home);
    match do_and_say(alloc, words, device, clock, &mut watch, &mut out) {
        Ok(device) => Ok(Some(device)),
        Err(fault) => {
            refuse(words, home_blocks, fault, err)?;
            Ok(None)
        }
    }
}

/// Prints why it cannot go on, and if home has fewer blocks than a transaction is to have, that.
///
/// # Errors
///
/// The fault is one of output, or the lines could not be written.
pub(crate) fn refuse<E: Write + Drop>(
    words: &BenchWords<'_>,
    home_blocks: u64,
    fault: Fault,
    mut err: E,
) -> io::Result<()> {
    if let Fault::Output(e) = fault {
        return Err(e);
    }
    fault::refuse(&mut err, words.paths.log, &fault)?;
    if home_blocks < words.copies {
        writeln!(
            err,
            "  HOME has {home_blocks} blocks, and each transaction was to write {}: give fewer --copies",
            words.copies
        )?;
    }
    Ok(())
}

fn do_and_say<D: Device + Drop, C: Clock, H: Watch, W: Write>(
    alloc: Global,
    words: &BenchWords<'_>,
    device: D,
    clock: &C,
    watch: &mut H,
    out: &mut W,
) -> Result<D, Fault>
    ensures { IfOk result (λ device. D.honest device → IsLeftClosed (D.state device)) }
{
    let mut plan = BenchPlan::new(words.copies, device.blocks(Area::Home), SEED)?;
    let work = open(alloc, Counted::new(device))?;
    let (done, device) = do_all(alloc, words, work, &mut plan, clock, watch)?;
    let commits = done.tally.commits();
    say(words, done, commits, &device, out)?;
    Ok(device.into_device())
}

fn open<D: Device + Drop>(alloc: Global, device: D) -> Result<Work<D>, JournalError> {
    match recovery::open(alloc, device) {
        Ok(opened) => new_work(alloc, opened),
        Err((_, e)) => Err(e),
    }
}

fn new_work<D: Device + Drop>(alloc: Global, opened: Opened<D>) -> Result<Work<D>, JournalError> {
    Work::new(alloc, opened)
}

fn now<C: Clock>(clock: &C) -> Result<Instant, Fault> {
    Instant::now(clock).map_err(Fault::of_clock)
}

#[derive(Drop)]
struct Run<D: Device> {
    work: Work<D>,
    tally: TimesTally,
    /// When the run began.
    begun: Instant,
    /// From there to the last commit.
    taken: Duration,
}

impl<D: Device + Drop> Run<D> {
    /// Commits the next transaction, and times it. Returns its receipt.
    fn commit<C: Clock>(&mut self, plan: &mut BenchPlan, clock: &C) -> Result<Receipt, Fault>
        ensures { IfOk result (λ receipt. receipt.tid ≤ self.new.work.journal.journal.front.mark) }
    {
        let ticket = self.work.change(plan)?;
        let asked = now(clock)?;
        let receipt = self.work.commit(ticket)?;
        self.note(asked, now(clock)?)?;
        Ok(receipt)
    }

    /// Notes a commit by the times of its request and its end.
    fn note(&mut self, asked: Instant, committed: Instant) -> Result<(), Fault>
        ensures { self.new.work ≡ self.old.work }
    {
        self.tally.add(committed.duration_since(asked))?;
        self.taken = committed.duration_since(self.begun);
        Ok(())
    }
}

fn do_all<D: Device + Drop, C: Clock, H: Watch>(
    alloc: Global,
    words: &BenchWords<'_>,
    work: Work<D>,
    plan: &mut BenchPlan,
    clock: &C,
    watch: &mut H,
) -> Result<(Times, D), Fault>
    ensures { IfOk result (λ ended. D.honest ended.1 → IsLeftClosed (D.state ended.1)) }
{
    let mut run = begin(alloc, work, clock)?;
    do_transactions(&mut run, words, plan, clock, watch)?;
    end(run)
}

fn begin<D: Device + Drop, C: Clock>(
    alloc: Global,
    work: Work<D>,
    clock: &C,
) -> Result<Run<D>, Fault> {
    match now(clock) {
        Ok(begun) => Ok(Run {
            work,
            tally: TimesTally::new(alloc),
            begun,
            taken: Duration::ZERO,
        }),
        Err(e) => Err(e),
    }
}

fn do_transactions<D: Device + Drop, C: Clock, H: Watch>(
    run: &mut Run<D>,
    words: &BenchWords<'_>,
    plan: &mut BenchPlan,
    clock: &C,
    watch: &mut H,
) -> Result<(), Fault> {
    for _ in 0..words.most_transactions() {
        if is_over(run.taken, words.most_time()) {
            break;
        }
        one_more(run, plan, clock, watch)?;
    }
    Ok(())
}

fn one_more<D: Device + Drop, C: Clock, H: Watch>(
    run: &mut Run<D>,
    plan: &mut BenchPlan,
    clock: &C,
    watch: &mut H,
) -> Result<(), Fault> {
    let before = run.taken.as_secs();
    run.commit(plan, clock)?;
    let second = run.taken.as_secs();
    if second > before {
        watch.goes_on(WatchStep::Second {
            second,
            transactions: run.tally.commits(),
        });
    }
    Ok(())
}

fn end<D: Device + Drop>(run: Run<D>) -> Result<(Times, D), Fault>
    ensures { IfOk result (λ ended. D.honest ended.1 → IsLeftClosed (D.state ended.1)) }
{
    let Run {
        work,
        tally,
        begun: _,
        taken,
    } = run;
    let device = work.close()?;
    Ok((Times { tally, taken }, device))
}

fn is_over(taken: Duration, most: Option<Duration>) -> bool {
    most.is_some_and(|most| taken >= most)
}

fn a_second(count: u64, taken: Duration) -> u128 {
    u128::from(count) * 1_000_000_000 / taken.as_nanos().max(1)
}

/// Prints the results as the words say.
pub(crate) fn say<D, W: Write>(
    words: &BenchWords<'_>,
    done: Times,
    commits: u64,
    device: &Counted<D>,
    out: &mut W,
) -> Result<(), Fault> {
    if words.csv {
        say_values(words, done, commits, device, out)
    } else {
        say_lines(words, done, device, out)
    }
}

fn say_values<D, W: Write>(
    words: &BenchWords<'_>,
    done: Times,
    commits: u64,
    device: &Counted<D>,
    out: &mut W,
) -> Result<(), Fault> {
    let transactions = done.tally.commits();
    let blocks = transactions.saturating_mul(words.copies);
    let taken = done.taken;
    let (log, home) = (device.calls(Area::Log), device.calls(Area::Home));
    writeln!(out, "{COLUMNS}")?;
    write!(
        out,
        "{},{},{transactions},{commits},{},{},{}",
        words.threads.unwrap_or(0),
        words.copies,
        taken.as_nanos(),
        a_second(transactions, taken),
        a_second(blocks, taken)
    )?;
    say_shares(&done.tally.into_ranked(), out)?;
    writeln!(
        out,
        ",{},{},{},{},{},{}",
        log.reads, log.writes, log.flushes, home.reads, home.writes, home.flushes
    )?;
    Ok(())
}

/// Prints the times that shares of the commits did not exceed, and the greatest, each after a comma.
fn say_shares<W: Write>(ranked: &Ranked, out: &mut W) -> io::Result<()> {
    for share in SHARES {
        write!(out, ",{}", ranked.of_hundred(share))?;
    }
    write!(out, ",{}", ranked.greatest())
}

fn say_lines<D, W: Write>(
    words: &BenchWords<'_>,
    done: Times,
    device: &Counted<D>,
    out: &mut W,
) -> Result<(), Fault> {
    let transactions = done.tally.commits();
    let blocks = transactions.saturating_mul(words.copies);
    let taken = done.taken;
    writeln!(
        out,
        "transactions {transactions} in {} microseconds, {} a second",
        taken.as_micros(),
        a_second(transactions, taken)
    )?;
    writeln!(out, "blocks {blocks}, {} a second", a_second(blocks, taken))?;
    say_latency(&done.tally.into_ranked(), out)?;
    say_calls("log", device.calls(Area::Log), out)?;
    say_calls("home", device.calls(Area::Home), out)?;
    Ok(())
}

fn say_latency<W: Write>(ranked: &Ranked, out: &mut W) -> io::Result<()> {
    writeln!(
        out,
        "commit nanoseconds median={} 99of100={} greatest={}",
        ranked.of_hundred(50),
        ranked.of_hundred(99),
        ranked.greatest()
    )
}

fn say_calls<W: Write>(area: &str, calls: Calls, out: &mut W) -> io::Result<()> {
    writeln!(
        out,
        "{area} reads={} writes={} flushes={}",
        calls.reads, calls.writes, calls.flushes
    )
}
