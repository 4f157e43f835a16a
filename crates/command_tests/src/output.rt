//! A command's output as one text, for tests to compare.
use jbench_words::fault::CommandStatus;
use std::alloc::Global;
use std::str::from_utf8;
use std::test::Fail;

/// A command's output as one text: what it printed, a bar and its message, then its status.
///
/// # Errors
///
/// The output is not UTF-8, or memory ran out.
pub(crate) fn text_of(
    alloc: Global,
    out: &[u8],
    err: &[u8],
    status: CommandStatus,
) -> Result<String, Fail> {
    let out = from_utf8(out)?;
    let err = from_utf8(err)?;
    Ok(format!(in alloc; "{out}| {err}{}", name_of(status))?)
}

fn name_of(status: CommandStatus) -> &'static str {
    match status {
        CommandStatus::Fine => "Fine",
        CommandStatus::Refused => "Refused",
        CommandStatus::VerdictFalse => "VerdictFalse",
    }
}
