//! The command `check`: says whether a script of operations or clients is good.
ghost use Rattle.std.specs.Prelude.{◌≡◌, ◌≢◌, IfOk, IsOk};
ghost use Rattle.jbench_words.specs.declared.fault.CommandStatus.TheVariants.{Fine, Refused};
ghost use Rattle.jbench_commands.specs.Runs.{HasTakenEither, IsGoodOf};

use jbench_words::fault::{self, CommandStatus, Fault};
use journal_script::{BadScript, ClientScript, Script, ScriptError};
use std::alloc::Global;
use std::io;
use std::io::Write;

/// The key of scripts of clients alone.
const CLIENTS: &str = "clients";

#[derive(Drop)]
enum Good {
    /// A script for `run`.
    Operations(Script),
    /// A script for `threads`.
    Clients(ClientScript),
}

/// Says whether a text is a script. `out` gets the count of operations, or the counts of clients, handles and receipts; `err` gets the bad
/// key or operation and why. A text with the key `clients` is tested for `threads`, any other for `run`.
///
/// # Errors
///
/// The output could not be written.
pub fn check<W: Write + Drop, E: Write + Drop>(
    alloc: Global,
    text: &[u8],
    out: W,
    err: E,
) -> io::Result<CommandStatus>
    ensures good { IfOk result (λ status. status ≡ Fine → HasTakenEither text.now) }
    ensures other { IfOk result (λ status. status ≢ Fine → status ≡ Refused) }
{
    let mut err = err;
    let read = read_either(alloc, text);
    print(read, out, &mut err)
}

/// Reads a script of either kind: one of clients if their key is the fault of a script of operations.
fn read_either(alloc: Global, text: &[u8]) -> Result<Good, ScriptError>
    ensures { IfOk result (IsGoodOf text.now) }
{
    match journal_script::read(alloc, text) {
        Ok(script) => Ok(Good::Operations(script)),
        Err(e) => {
            if names_clients(&e) {
                read_clients(alloc, text)
            } else {
                Err(e)
            }
        }
    }
}

/// Whether the key of clients is the fault of a script of operations.
fn names_clients(error: &ScriptError) -> bool {
    match error {
        ScriptError::BadScript(BadScript::UnknownKey(name)) => name.as_str() == CLIENTS,
        _ => false,
    }
}

fn read_clients(alloc: Global, text: &[u8]) -> Result<Good, ScriptError>
    ensures { IfOk result (IsGoodOf text.now) }
{
    match journal_script::read_clients(alloc, text) {
        Ok(script) => Ok(Good::Clients(script)),
        Err(e) => Err(e),
    }
}

/// Prints the result of reading a script.
fn print<W: Write + Drop, E: Write>(
    read: Result<Good, ScriptError>,
    out: W,
    err: &mut E,
) -> io::Result<CommandStatus>
    ensures good { IfOk result (λ status. status ≡ Fine → IsOk read) }
    ensures taken { IfOk result (λ status. IsOk read → status ≡ Fine) }
    ensures other { IfOk result (λ status. status ≢ Fine → status ≡ Refused) }
{
    match read {
        Ok(good) => say_good(&good, out),
        Err(ScriptError::BadScript(bad)) => {
            writeln!(err, "jbench: bad script: {bad}")?;
            Ok(CommandStatus::Refused)
        }
        Err(ScriptError::Memory) => fault::refuse(err, "", &Fault::from(ScriptError::Memory)),
    }
}

fn say_good<W: Write + Drop>(good: &Good, out: W) -> io::Result<CommandStatus>
    ensures { IfOk result (λ status. status ≡ Fine) }
{
    let mut out = out;
    match good {
        Good::Operations(script) => {
            writeln!(out, "good operations={}", script.operations.len())?;
        }
        Good::Clients(script) => writeln!(
            out,
            "good clients={} handles={} receipts={}",
            script.clients.len(),
            script.handles(),
            script.waits()
        )?,
    }
    Ok(CommandStatus::Fine)
}
