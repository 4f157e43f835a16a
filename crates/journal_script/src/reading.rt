//! Reads a script from the bytes of its file.
ghost use Rattle.std.specs.Prelude.{◌≡◌, ◌≤◌, [], ◌∷◌, IfOk, IfSome, OnOk, Some, codes, false, length, map, replicate};
ghost use Rattle.serde_json.specs.Data.{boolean, string};
ghost use Rattle.serde_json.specs.Find.{get};
ghost use Rattle.serde_json.specs.Read.{read as read_text};
ghost use Rattle.serde_json.specs.View.{view};
ghost use Rattle.journal_script.specs.Line.{word_of};
ghost use Rattle.journal_script.specs.Measures.{AreLimited, most_home_blocks};
ghost use Rattle.journal_script.specs.Names.{name_word};
ghost use Rattle.journal_script.specs.Text.{AgreesWith, AreArguments, AreOperations, HasOperations, IsAt, IsDefaultElse, IsElse, IsHexOf, IsOperation, IsScriptOf, IsTextOf, key_name, list_value, number_value};
ghost use Rattle.journal_script.specs.declared.error.Key.TheVariants.{Home, Operations, Uuid, Wide};

use crate::error::{
    BadOperation, BadScript, Disagreement, Key, OperationFault, OperationName, ScriptError,
};
use crate::measures::{DEFAULTS, LENGTHS, Measures, homes, is_block_size, uuid_of};
use crate::order;
use crate::script::{HandleName, MOST_OPERATIONS, Operation, Script};
use hex::FromHexError;
use journal_model::BlockNo;
use serde_json::{Map, Value};
use std::alloc::{AllocError, Global};

/// An error shows at most this many bytes of an operation's text.
const TOLD_BYTES: usize = 100;

/// Why a value is no operation.
#[derive(Clone, Copy)]
pub(crate) enum Unread {
    Bad(OperationFault),
    Memory,
}

/// Reads a script.
///
/// # Errors
///
/// `BadScript`: no JSON object; no key `ops` with a list of at most 100,000 operations; a key other than that and `block`, `length`,
/// `home`, `uuid` and `wide`, or outside its limits; an operation of another form, or with a handle in the wrong state. `Memory`.
pub fn read(alloc: Global, text: &[u8]) -> Result<Script, ScriptError>
    ensures operations { IfOk result (λ script. length script.operations.items ≤ 100_000) }
    ensures measures { IfOk result (λ script. AreLimited script.measures) }
    ensures text { IfOk result (λ script. IsTextOf text.now script.operations.items script.measures) }
    ensures script { IfOk result (λ script. IsScriptOf text.now script.operations.items script.measures) }
{
    let value = read_value(alloc, text)?;
    match value.as_object() {
        Some(members) => read_members(alloc, &value, members),
        None => Err(ScriptError::BadScript(BadScript::NoObject)),
    }
}

/// Reads the operations of a script for a device at hand. Its keys for a device must agree with it.
///
/// # Errors
///
/// Those of `read`. `BadScript`: a key disagrees with the device.
pub fn read_over(
    alloc: Global,
    text: &[u8],
    device: &Measures,
) -> Result<Vec<Operation>, ScriptError>
    ensures few { IfOk result (λ operations. length operations.items ≤ 100_000) }
    ensures text { IfOk result (λ operations. IsTextOf text.now operations.items device.now) }
{
    let value = read_value(alloc, text)?;
    match value.as_object() {
        Some(members) => read_members_over(alloc, &value, members, device),
        None => Err(ScriptError::BadScript(BadScript::NoObject)),
    }
}

fn read_members_over(
    alloc: Global,
    value: &Value,
    members: &Map<String, Value>,
    device: &Measures,
) -> Result<Vec<Operation>, ScriptError>
    ensures few { IfOk result (λ operations. length operations.items ≤ 100_000) }
    ensures has { IfOk result (λ operations. HasOperations (view value.now) operations.items) }
    ensures agrees { OnOk result (AgreesWith (view value.now) device.now) }
{
    require_known_keys(alloc, members)?;
    require_device(alloc, value, device)?;
    read_ordered(alloc, list_of(value)?, device.block_size)
}

fn require_device(alloc: Global, value: &Value, device: &Measures) -> Result<(), ScriptError>
    ensures { OnOk result (AgreesWith (view value.now) device.now) }
{
    require_number(alloc, value, Key::Block, device.block_size as u64)?;
    require_number(alloc, value, Key::Length, u64::from(device.log_blocks))?;
    require_number(alloc, value, Key::Home, device.home_blocks)?;
    require_uuid(alloc, value, &device.uuid)?;
    require_width(alloc, value, device.wide)
}

fn require_number(alloc: Global, value: &Value, key: Key, number: u64) -> Result<(), ScriptError>
    ensures { OnOk result (IsAt (get (key_name key) (view value.now)) (number_value number)) }
{
    let Some(found) = value.get(key.name()) else {
        return Ok(());
    };
    match found.as_u64() {
        Some(other) if other == number => Ok(()),
        _ => Err(disagrees(
            key,
            format!(in alloc; "{number}"),
            text_of(alloc, Some(found)),
        )),
    }
}

fn disagrees(
    key: Key,
    device: Result<String, AllocError>,
    script: Result<String, AllocError>,
) -> ScriptError {
    match (device, script) {
        (Ok(device), Ok(script)) => ScriptError::BadScript(BadScript::Disagrees(Disagreement {
            key,
            device,
            script,
        })),
        _ => ScriptError::Memory,
    }
}

fn require_uuid(alloc: Global, value: &Value, uuid: &[u8; 16]) -> Result<(), ScriptError>
    ensures { OnOk result (IfSome (get (key_name Uuid) (view value.now)) (IsHexOf uuid.now)) }
{
    let Some(found) = value.get(Key::Uuid.name()) else {
        return Ok(());
    };
    if read_uuid(alloc, value)? == *uuid {
        Ok(())
    } else {
        Err(disagrees(
            Key::Uuid,
            quoted_digits(alloc, uuid),
            text_of(alloc, Some(found)),
        ))
    }
}

fn quoted_digits(alloc: Global, uuid: &[u8; 16]) -> Result<String, AllocError> {
    let mut text = format!(in alloc; "\"")?;
    for byte in uuid {
        text.push_str(&format!(in alloc; "{byte:02x}")?)?;
    }
    text.push('"')?;
    Ok(text)
}

fn require_width(alloc: Global, value: &Value, wide: bool) -> Result<(), ScriptError>
    ensures { OnOk result (IsAt (get (key_name Wide) (view value.now)) (boolean wide)) }
{
    let Some(found) = value.get(Key::Wide.name()) else {
        return Ok(());
    };
    if read_width(value)? == wide {
        Ok(())
    } else {
        Err(disagrees(
            Key::Wide,
            format!(in alloc; "{wide}"),
            text_of(alloc, Some(found)),
        ))
    }
}

fn require_known_keys(alloc: Global, members: &Map<String, Value>) -> Result<(), ScriptError> {
    for (name, _) in members.iter() {
        if Key::named(name.as_str()).is_none() {
            return Err(unknown_key(alloc, name.as_str()));
        }
    }
    Ok(())
}

pub(crate) fn unknown_key(alloc: Global, name: &str) -> ScriptError {
    match String::from_str(alloc, name) {
        Ok(name) => ScriptError::BadScript(BadScript::UnknownKey(name)),
        Err(e) => ScriptError::from(e),
    }
}

fn bad_key(key: Key) -> ScriptError {
    ScriptError::BadScript(BadScript::Key(key))
}

fn read_members(
    alloc: Global,
    value: &Value,
    members: &Map<String, Value>,
) -> Result<Script, ScriptError>
    ensures operations { IfOk result (λ script. length script.operations.items ≤ 100_000) }
    ensures measures { IfOk result (λ script. AreLimited script.measures) }
    ensures has { IfOk result (λ script. HasOperations (view value.now) script.operations.items) }
    ensures agrees { IfOk result (λ script. AgreesWith (view value.now) script.measures) }
    ensures defaults { IfOk result (λ script. IsDefaultElse (view value.now) script.measures) }
{
    require_known_keys(alloc, members)?;
    let measures = read_measures(alloc, value)?;
    let operations = read_ordered(alloc, list_of(value)?, measures.block_size)?;
    Ok(Script {
        measures,
        operations,
    })
}

fn read_ordered(
    alloc: Global,
    list: &[Value],
    block_size: usize,
) -> Result<Vec<Operation>, ScriptError>
    ensures count { IfOk result (λ operations. length operations.items ≡ length list.now) }
    ensures are { IfOk result (λ operations. AreOperations operations.items (map view list.now)) }
{
    let operations = read_operations(alloc, list, block_size)?;
    match order::first_misplaced(alloc, &operations)? {
        Some((place, misplaced)) => Err(bad_operation(
            alloc,
            place,
            list.get(place),
            OperationFault::Misplaced(misplaced),
        )),
        None => Ok(operations),
    }
}

fn bad_operation(
    alloc: Global,
    place: usize,
    value: Option<&Value>,
    fault: OperationFault,
) -> ScriptError {
    match text_of(alloc, value) {
        Ok(text) => ScriptError::BadScript(BadScript::Operation(BadOperation {
            number: place.saturating_add(1),
            text,
            fault,
        })),
        Err(e) => ScriptError::from(e),
    }
}

/// The beginning of a value's text, or all if it is short.
fn text_of(alloc: Global, value: Option<&Value>) -> Result<String, AllocError> {
    let Some(value) = value else {
        return Ok(String::new(alloc));
    };
    let text = format!(in alloc; "{value}")?;
    match text.char_indices().find(|(place, _)| *place >= TOLD_BYTES) {
        Some((place, _)) => format!(in alloc; "{}..", text.get(..place).unwrap_or("")),
        None => Ok(text),
    }
}

/// The byte order marks of UTF-8 and UTF-16, which editors put before a text.
const MARKS: [&[u8]; 3] = [b"\xef\xbb\xbf", b"\xff\xfe", b"\xfe\xff"];

pub(crate) fn read_value(alloc: Global, text: &[u8]) -> Result<Value, ScriptError>
    ensures { IfOk result (λ value. read_text text.now ≡ Some (view value)) }
{
    if MARKS.iter().any(|mark| text.starts_with(mark)) {
        return Err(ScriptError::BadScript(BadScript::ByteOrderMark));
    }
    match Value::from_slice(alloc, text) {
        Ok(value) => Ok(value),
        Err(e) if e.is_memory() => Err(ScriptError::Memory),
        Err(e) => Err(ScriptError::BadScript(BadScript::NoJson(e.line(), e.column()))),
    }
}

pub(crate) fn read_measures(alloc: Global, value: &Value) -> Result<Measures, ScriptError>
    ensures limited { IfOk result (λ measures. AreLimited measures) }
    ensures agrees { IfOk result (λ measures. AgreesWith (view value.now) measures) }
    ensures defaults { IfOk result (λ measures. IsDefaultElse (view value.now) measures) }
{
    let block_size = read_number(value, Key::Block, DEFAULTS.block_size as u64, (1024, 4096))?;
    if !is_block_size(block_size) {
        return Err(bad_key(Key::Block));
    }
    let wide = read_width(value)?;
    Ok(Measures {
        block_size: block_size as usize,
        log_blocks: read_number(
            value,
            Key::Length,
            u64::from(DEFAULTS.log_blocks),
            (u64::from(LENGTHS.0), u64::from(LENGTHS.1)),
        )? as u32,
        home_blocks: read_home(value, wide)?,
        uuid: read_uuid(alloc, value)?,
        wide,
    })
}

/// The number of a key, within these limits; the default if the key is absent.
fn read_number(
    value: &Value,
    key: Key,
    default: u64,
    limits: (u64, u64),
) -> Result<u64, ScriptError>
    requires least { limits.0 ≤ default }
    requires most { default ≤ limits.1 }
    ensures least { IfOk result (λ number. limits.0 ≤ number) }
    ensures most { IfOk result (λ number. number ≤ limits.1) }
    ensures is { IfOk result (λ number. IsAt (get (key_name key) (view value.now)) (number_value number)) }
    ensures default { IfOk result (λ number. IsElse (get (key_name key) (view value.now)) (number ≡ default)) }
{
    let Some(found) = value.get(key.name()) else {
        return Ok(default);
    };
    match found.as_u64() {
        Some(number) if limits.0 <= number && number <= limits.1 => Ok(number),
        _ => Err(bad_key(key)),
    }
}

fn read_home(value: &Value, wide: bool) -> Result<u64, ScriptError>
    ensures least { IfOk result (λ blocks. 1 ≤ blocks) }
    ensures most { IfOk result (λ blocks. blocks ≤ most_home_blocks wide) }
    ensures is { IfOk result (λ blocks. IsAt (get (key_name Home) (view value.now)) (number_value blocks)) }
    ensures default { IfOk result (λ blocks. IsElse (get (key_name Home) (view value.now)) (blocks ≡ 64)) }
{
    match read_number(value, Key::Home, DEFAULTS.home_blocks, homes(wide)) {
        Ok(blocks) => Ok(blocks),
        Err(_) if wide => Err(ScriptError::BadScript(BadScript::WideHome)),
        Err(e) => Err(e),
    }
}

fn read_uuid(alloc: Global, value: &Value) -> Result<[u8; 16], ScriptError>
    ensures is { IfOk result (λ uuid. IfSome (get (key_name Uuid) (view value.now)) (IsHexOf uuid)) }
    ensures default { IfOk result (λ uuid. IsElse (get (key_name Uuid) (view value.now)) (uuid ≡ replicate 16 0xaa)) }
{
    let Some(found) = value.get(Key::Uuid.name()) else {
        return Ok(DEFAULTS.uuid);
    };
    let Some(digits) = found.as_str() else {
        return Err(bad_key(Key::Uuid));
    };
    match uuid_of(alloc, digits)? {
        Some(uuid) => Ok(uuid),
        None => Err(bad_key(Key::Uuid)),
    }
}

fn read_width(value: &Value) -> Result<bool, ScriptError>
    ensures is { IfOk result (λ wide. IsAt (get (key_name Wide) (view value.now)) (boolean wide)) }
    ensures default { IfOk result (λ wide. IsElse (get (key_name Wide) (view value.now)) (wide ≡ false)) }
{
    let Some(found) = value.get(Key::Wide.name()) else {
        return Ok(DEFAULTS.wide);
    };
    match found.as_bool() {
        Some(wide) => Ok(wide),
        None => Err(bad_key(Key::Wide)),
    }
}

fn list_of(value: &Value) -> Result<&[Value], ScriptError>
    ensures few { IfOk result (λ list. length list.now ≤ 100_000) }
    ensures listed { IfOk result (λ list. get (key_name Operations) (view value.now) ≡ Some (list_value (map view list.now))) }
{
    let Some(operations) = value.get(Key::Operations.name()) else {
        return Err(bad_key(Key::Operations));
    };
    match operations.as_array() {
        Some(list) if list.len() <= MOST_OPERATIONS => Ok(list.as_slice()),
        _ => Err(bad_key(Key::Operations)),
    }
}

fn read_operations(
    alloc: Global,
    list: &[Value],
    block_size: usize,
) -> Result<Vec<Operation>, ScriptError>
    ensures count { IfOk result (λ operations. length operations.items ≡ length list.now) }
    ensures are { IfOk result (λ operations. AreOperations operations.items (map view list.now)) }
{
    let mut operations = Vec::with_capacity(alloc, list.len())?;
    for value in list {
        match read_operation(alloc, value, block_size) {
            Ok(operation) => operations.push(operation)?,
            Err(Unread::Memory) => return Err(ScriptError::Memory),
            Err(Unread::Bad(fault)) => {
                return Err(bad_operation(alloc, operations.len(), Some(value), fault));
            }
        }
    }
    Ok(operations)
}

fn read_operation(alloc: Global, value: &Value, block_size: usize) -> Result<Operation, Unread>
    ensures { IfOk result (λ operation. IsOperation operation (view value.now)) }
{
    match value.as_array() {
        Some(words) => operation_of(alloc, words.as_slice(), block_size),
        None => Err(Unread::Bad(OperationFault::NoName)),
    }
}

fn operation_of(alloc: Global, words: &[Value], block_size: usize) -> Result<Operation, Unread>
    ensures { IfOk result (λ operation. IsOperation operation (list_value (map view words.now))) }
{
    match words {
        [] => Err(Unread::Bad(OperationFault::NoName)),
        [name, arguments @ ..] => operation_called(alloc, name_of(name)?, arguments, block_size),
    }
}

fn name_of(value: &Value) -> Result<OperationName, Unread>
    ensures { IfOk result (λ name. view value.now ≡ string (name_word name)) }
{
    let Some(text) = value.as_str() else {
        return Err(Unread::Bad(OperationFault::NoName));
    };
    match OperationName::called(text) {
        Some(name) => Ok(name),
        None => Err(Unread::Bad(OperationFault::UnknownName)),
    }
}

fn operation_called(
    alloc: Global,
    name: OperationName,
    arguments: &[Value],
    block_size: usize,
) -> Result<Operation, Unread>
    ensures named { IfOk result (λ operation. word_of operation ≡ name_word name) }
    ensures arguments { IfOk result (λ operation. AreArguments operation (map view arguments.now)) }
{
    match arguments {
        [] => plain_operation(name),
        [handle] => handle_operation(name, handle),
        [first, second] => pair_operation(alloc, name, first, second, block_size),
        [handle, block, hex] => write_operation(alloc, name, handle, block, hex, block_size),
        _ => Err(wrong_form(name)),
    }
}

fn wrong_form(name: OperationName) -> Unread {
    Unread::Bad(OperationFault::Form(name))
}

fn plain_operation(name: OperationName) -> Result<Operation, Unread>
    ensures named { IfOk result (λ operation. word_of operation ≡ name_word name) }
    ensures arguments { IfOk result (λ operation. AreArguments operation []) }
{
    match name {
        OperationName::Lock => Ok(Operation::Lock),
        OperationName::Turn => Ok(Operation::Turn),
        OperationName::Commit => Ok(Operation::Commit),
        OperationName::CheckpointTurn => Ok(Operation::CheckpointTurn),
        OperationName::Check => Ok(Operation::Check),
        OperationName::SyncDirect => Ok(Operation::SyncDirect),
        _ => Err(wrong_form(name)),
    }
}

fn handle_operation(name: OperationName, handle: &Value) -> Result<Operation, Unread>
    ensures named { IfOk result (λ operation. word_of operation ≡ name_word name) }
    ensures arguments { IfOk result (λ operation. AreArguments operation (view handle.now ∷ [])) }
{
    match name {
        OperationName::Stop => Ok(Operation::Stop(handle_of(handle)?)),
        OperationName::Request => Ok(Operation::Request(handle_of(handle)?)),
        OperationName::Status => Ok(Operation::Status(handle_of(handle)?)),
        OperationName::Wait => Ok(Operation::Wait(handle_of(handle)?)),
        _ => Err(wrong_form(name)),
    }
}

fn pair_operation(
    alloc: Global,
    name: OperationName,
    first: &Value,
    second: &Value,
    block_size: usize,
) -> Result<Operation, Unread>
    ensures named { IfOk result (λ operation. word_of operation ≡ name_word name) }
    ensures arguments { IfOk result (λ operation. AreArguments operation (view first.now ∷ view second.now ∷ [])) }
{
    match name {
        OperationName::WriteDirect => direct_operation(alloc, first, second, block_size),
        _ => number_operation(name, first, second),
    }
}

fn direct_operation(
    alloc: Global,
    block: &Value,
    hex: &Value,
    block_size: usize,
) -> Result<Operation, Unread>
    ensures word { IfOk result (λ operation. word_of operation ≡ codes "direct") }
    ensures arguments { IfOk result (λ operation. AreArguments operation (view block.now ∷ view hex.now ∷ [])) }
{
    let block = BlockNo(number_of(block)?);
    let bytes = bytes_of(alloc, hex, block_size)?;
    Ok(Operation::WriteDirect(block, bytes))
}

fn number_operation(
    name: OperationName,
    handle: &Value,
    number: &Value,
) -> Result<Operation, Unread>
    ensures named { IfOk result (λ operation. word_of operation ≡ name_word name) }
    ensures arguments { IfOk result (λ operation. AreArguments operation (view handle.now ∷ view number.now ∷ [])) }
{
    match name {
        OperationName::Start => {
            let handle = handle_of(handle)?;
            Ok(Operation::Start(handle, number_of(number)?))
        }
        OperationName::Extend => {
            let handle = handle_of(handle)?;
            Ok(Operation::Extend(handle, number_of(number)?))
        }
        OperationName::Restart => {
            let handle = handle_of(handle)?;
            Ok(Operation::Restart(handle, number_of(number)?))
        }
        OperationName::Revoke => {
            let handle = handle_of(handle)?;
            let number = number_of(number)?;
            Ok(Operation::Revoke(handle, BlockNo(number)))
        }
        OperationName::Read => {
            let handle = handle_of(handle)?;
            let number = number_of(number)?;
            Ok(Operation::Read(handle, BlockNo(number)))
        }
        _ => Err(wrong_form(name)),
    }
}

fn write_operation(
    alloc: Global,
    name: OperationName,
    handle: &Value,
    block: &Value,
    hex: &Value,
    block_size: usize,
) -> Result<Operation, Unread>
    ensures named { IfOk result (λ operation. word_of operation ≡ name_word name) }
    ensures arguments { IfOk result (λ operation. AreArguments operation (view handle.now ∷ view block.now ∷ view hex.now ∷ [])) }
{
    let OperationName::Write = name else {
        return Err(wrong_form(name));
    };
    let handle = handle_of(handle)?;
    let block = BlockNo(number_of(block)?);
    let bytes = bytes_of(alloc, hex, block_size)?;
    Ok(Operation::Write(handle, block, bytes))
}

fn number_of(value: &Value) -> Result<u64, Unread>
    ensures { IfOk result (λ number. view value.now ≡ number_value number) }
{
    match value.as_u64() {
        Some(number) => Ok(number),
        None => Err(Unread::Bad(OperationFault::Number)),
    }
}

fn handle_of(value: &Value) -> Result<HandleName, Unread>
    ensures { IfOk result (λ name. view value.now ≡ number_value name) }
{
    let Some(number) = value.as_u64() else {
        return Err(Unread::Bad(OperationFault::Handle));
    };
    match HandleName::new(number) {
        Some(name) => Ok(name),
        None => Err(Unread::Bad(OperationFault::Handle)),
    }
}

fn digits_of(value: &Value) -> Result<&str, Unread>
    ensures { IfOk result (λ digits. view value.now ≡ string digits.now) }
{
    match value.as_str() {
        Some(digits) => Ok(digits),
        None => Err(Unread::Bad(OperationFault::Digits)),
    }
}

/// The bytes of a hex text, at most `most`.
pub(crate) fn bytes_of(alloc: Global, value: &Value, most: usize) -> Result<Vec<u8>, Unread>
    ensures most { IfOk result (λ bytes. length bytes.items ≤ most) }
    ensures hex { IfOk result (λ bytes. IsHexOf bytes.items (view value.now)) }
{
    let digits = digits_of(value)?;
    if digits.len() / 2 > most {
        return Err(Unread::Bad(OperationFault::TooManyBytes));
    }
    match hex::decode(alloc, digits) {
        Ok(bytes) => Ok(bytes),
        Err(FromHexError::OutOfMemory) => Err(Unread::Memory),
        Err(_) => Err(Unread::Bad(OperationFault::Digits)),
    }
}
