//! Rows of texts that are scripts, or are not.
use crate::texts::write_hex;
use journal_script::{Measures, Operation, Script, ScriptError, read};
use log_rows::RowError;
use std::alloc::{AllocError, Global};
use std::fmt::Write;

fn script_of(alloc: Global, text: &[u8]) -> Result<Option<Script>, RowError> {
    match read(alloc, text) {
        Ok(script) => Ok(Some(script)),
        Err(ScriptError::BadScript(_)) => Ok(None),
        Err(ScriptError::Memory) => Err(RowError::Memory),
    }
}

/// The script that a row gives.
///
/// # Errors
///
/// `Unread`: the text is no script. `Memory`.
pub fn given_script(alloc: Global, text: &str) -> Result<Script, RowError> {
    script_of(alloc, text.as_bytes())?.ok_or(RowError::Unread)
}

/// The bytes of a text in which `\xff` stands for the byte 255.
fn bytes_of(alloc: Global, text: &str) -> Result<Vec<u8>, AllocError> {
    let mut bytes = Vec::new(alloc);
    for (i, part) in text.split(r"\xff").enumerate() {
        if i > 0 {
            bytes.push(0xff)?;
        }
        bytes.extend_from_slice(part.as_bytes())?;
    }
    Ok(bytes)
}

/// Whether a text is a script, and its measures: `no script`, or like `block 1024, log 33, home 64, uuid aa...`, with `, wide` for 64-bit
/// block numbers.
pub fn script(alloc: Global, given: &str) -> Result<String, RowError> {
    let bytes = bytes_of(alloc, given)?;
    match script_of(alloc, &bytes)? {
        Some(script) => Ok(measures_text(alloc, &script.measures)?),
        None => Ok(String::from_str(alloc, "no script")?),
    }
}

/// Measures in words.
pub fn measures_text(alloc: Global, measures: &Measures) -> Result<String, AllocError> {
    let mut text = format!(in alloc;
        "block {}, log {}, home {}, uuid ",
        measures.block_size, measures.log_blocks, measures.home_blocks
    )?;
    write_hex(&mut text, &measures.uuid)?;
    if measures.wide {
        text.push_str(", wide")?;
    }
    Ok(text)
}

/// A script's operations, one a line: the word, handle and number, and the bytes that a write gives, through a handle or direct.
pub fn operations(alloc: Global, given: &str) -> Result<String, RowError> {
    let script = given_script(alloc, given)?;
    let mut all = String::new(alloc);
    for operation in &script.operations {
        write_operation(&mut all, operation)?;
    }
    Ok(all)
}

fn write_operation(all: &mut String, operation: &Operation) -> Result<(), AllocError> {
    write!(all, "{operation}")?;
    if let Operation::Write(_, _, bytes) | Operation::WriteDirect(_, bytes) = operation {
        all.push(' ')?;
        write_hex(all, bytes)?;
    }
    all.push('\n')
}
