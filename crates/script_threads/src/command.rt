//! The command `threads`: reads a script of clients, runs them in threads, and prints the verdicts.
ghost use Rattle.std.specs.Prelude.{◌≡◌, IfOk};
ghost use Rattle.jbench_words.specs.declared.fault.CommandStatus.TheVariants.{Fine, Refused, VerdictFalse};
ghost use Rattle.script_threads.specs.Runs.{HasFoundFalse, HasRunRight, HasRunWrong, HasServed};
ghost use Rattle.script_threads.specs.Verdicts.{AreAllTrue};

use crate::running::{Ended, RefusedClient, run};
use crate::verdicts::Verdicts;
use jbench_words::fault::{self, CommandStatus, Fault};
use journal_script::{ClientScript, ScriptError, read_clients};
use std::alloc::Global;
use std::io;
use std::io::Write;
use std::sync::Wait;
use std::thread::Threads;

/// Runs the clients of a text's script in threads, and prints the numbers of clients, handles and receipts, and the verdicts. If clients are
/// refused something, it prints only one line for each on `err`. If the command can't go on, one line there says why; for a bad script a
/// second line, indented by two spaces, says where and what is wrong. `path` names the script's file.
///
/// # Errors
///
/// The output can't be written.
pub fn threads<T: Threads + Wait + Sync, W: Write + Drop, E: Write + Drop>(
    rt: &T,
    alloc: Global,
    path: &str,
    text: &[u8],
    out: W,
    err: E,
) -> io::Result<CommandStatus>
    ensures done { IfOk result (λ status. status ≡ Fine → HasServed text.now) }
    ensures wrong { IfOk result (λ status. status ≡ VerdictFalse → HasFoundFalse text.now) }
{
    let mut err = err;
    match read_clients(alloc, text) {
        Ok(script) => serve_script(rt, alloc, path, &script, out, err),
        Err(ScriptError::BadScript(bad)) => {
            writeln!(err, "jbench: bad script\n  {bad}")?;
            Ok(CommandStatus::Refused)
        }
        Err(ScriptError::Memory) => {
            fault::refuse(&mut err, path, &Fault::from(ScriptError::Memory))
        }
    }
}

/// Runs the clients of a script.
fn serve_script<T: Threads + Wait + Sync, W: Write + Drop, E: Write + Drop>(
    rt: &T,
    alloc: Global,
    path: &str,
    script: &ClientScript,
    out: W,
    err: E,
) -> io::Result<CommandStatus>
    ensures done { IfOk result (λ status. status ≡ Fine → HasRunRight script.now) }
    ensures wrong { IfOk result (λ status. status ≡ VerdictFalse → HasRunWrong script.now) }
{
    let mut err = err;
    match run(rt, alloc, script) {
        Ok(Ended::Refused(clients)) => print_refused(&clients, err),
        Ok(Ended::Judged(verdicts)) => print_verdicts(script, &verdicts, out),
        Err(e) => fault::refuse(&mut err, path, &Fault::Refused(e)),
    }
}

/// Prints each refused client, and its refusal.
fn print_refused<E: Write + Drop>(clients: &[RefusedClient], err: E) -> io::Result<CommandStatus>
    ensures { IfOk result (λ status. status ≡ Refused) }
{
    let mut err = err;
    for client in clients {
        let why = client.why;
        writeln!(
            err,
            "jbench: client {} refused {} {}",
            client.number,
            why.number(),
            why.name()
        )?;
    }
    Ok(CommandStatus::Refused)
}

/// Prints the counts and the verdicts.
fn print_verdicts<W: Write + Drop>(
    script: &ClientScript,
    verdicts: &Verdicts,
    out: W,
) -> io::Result<CommandStatus>
    ensures fine { IfOk result (λ status. status ≡ Fine → AreAllTrue verdicts.now) }
    ensures wrong { IfOk result (λ status. status ≡ VerdictFalse → ¬ AreAllTrue verdicts.now) }
{
    let mut out = out;
    writeln!(out, "clients {}", script.clients.len())?;
    writeln!(out, "handles {}", script.handles())?;
    writeln!(out, "receipts {}", script.waits())?;
    print_verdict(&mut out, "credits", verdicts.credits)?;
    print_verdict(&mut out, "receipts", verdicts.receipts)?;
    print_verdict(&mut out, "order", verdicts.order)?;
    print_verdict(&mut out, "recovery", verdicts.recovery)?;
    out.flush()?;
    Ok(status_of(verdicts))
}

fn print_verdict<W: Write>(out: &mut W, name: &str, right: bool) -> io::Result<()> {
    writeln!(out, "verdict {name} {}", if right { "ok" } else { "false" })
}

/// The exit status for these verdicts.
fn status_of(verdicts: &Verdicts) -> CommandStatus
    ensures fine { result ≡ Fine → AreAllTrue verdicts.now }
    ensures wrong { result ≡ VerdictFalse → ¬ AreAllTrue verdicts.now }
{
    if verdicts.are_right() {
        CommandStatus::Fine
    } else {
        CommandStatus::VerdictFalse
    }
}
