//! Reads a script of clients: what each client does, handle by handle, and whether a journal of these measures can serve it.
ghost use Rattle.std.specs.Prelude.{◌≡◌, ◌≤◌, ◌<◌, ◌-◌, ◌++◌, ℕ, [], ◌∷◌, All, Contains, IfOk, OnOk, Some, codes, length, map, min, sum_by, vec_len};
ghost use Rattle.std.specs.BTreeSet.{keys};
ghost use Rattle.std.specs.List.{AllZip};
ghost use Rattle.log_model.specs.Room.{IsCapacity};
ghost use Rattle.serde_json.specs.Find.{as_str, get};
ghost use Rattle.serde_json.specs.View.{view};
ghost use Rattle.journal_script.specs.Clients.{AreClientArguments, CanBeServed, HasClients, HasCredits, AreServable, HasTouched, HasTouchedAll, IsClient, IsClientOperation, IsClientScriptOf, IsOfBlock, IsServable, client_operations, client_word, handles_of, layout_of, open_part, so_far, touched, waits_of};
ghost use Rattle.journal_script.specs.declared.clients.ClientOperation.{ClientOperation};
ghost use Rattle.journal_script.specs.declared.clients.ClientOperation.TheVariants.{Start, Stop, Touches, Wait};
ghost use Rattle.journal_script.specs.declared.clients.ClientTouch.TheVariants.{Revoke};
ghost use Rattle.journal_script.specs.Measures.{AreLimited};
ghost use Rattle.journal_script.specs.Text.{AgreesWith, IsDefaultElse, list_value, number_value};

use crate::error::{BadClient, BadScript, ClientFault, ScriptError};
use crate::measures::Measures;
use crate::reading::{Unread, bytes_of, read_measures, read_value, unknown_key};
use crate::script::MOST_OPERATIONS;
use journal_model::{BlockNo, LogLayout};
use log_ring::Layout;
use serde_json::{Map, Value};
use std::alloc::{AllocError, AllocFailed, Global};
use std::collections::BTreeSet;

/// The most clients of a script.
pub const MOST_CLIENTS: usize = 64;

const CLIENTS: &str = "clients";

const KEYS: [&str; 6] = ["block", "length", "home", "uuid", "wide", CLIENTS];

/// What a client's handle does with a home block.
#[derive(Drop)]
pub enum ClientTouch {
    /// Writes it: these bytes, then zeros.
    Write(BlockNo, Vec<u8>),
    /// Revokes it: no copy so far is to come back.
    Revoke(BlockNo),
}

/// One handle of a client, from its start to its stop.
#[derive(Drop)]
pub struct ClientHandle {
    /// The credits that it asks for.
    pub credits: u64,
    /// Its writes and revokes, in order.
    pub touches: Vec<ClientTouch>,
    /// Whether the client waits for its commit.
    pub waits: bool,
}

/// Clients, and the measures of their shared device.
#[derive(Drop)]
pub struct ClientScript {
    /// The measures of their device.
    pub measures: Measures,
    /// The handles of each client, in order.
    pub clients: Vec<Vec<ClientHandle>>,
}

/// One operation of a client.
#[derive(Drop)]
pub enum ClientOperation {
    /// Starts a handle with this many credits.
    Start(u64),
    /// Writes or revokes a block.
    Touches(ClientTouch),
    /// Stops the handle.
    Stop,
    /// Waits for the commit of the stopped handle.
    Wait,
}

#[derive(Clone, Copy)]
enum Unfit {
    Bad(ClientFault),
    Memory,
}

impl From<AllocError> for Unfit {
    fn from(_e: AllocError) -> Unfit {
        Unfit::Memory
    }
}

impl<T: Drop> From<AllocFailed<T>> for Unfit {
    fn from(_e: AllocFailed<T>) -> Unfit {
        Unfit::Memory
    }
}

impl From<Unread> for Unfit {
    fn from(unread: Unread) -> Unfit {
        match unread {
            Unread::Bad(_) => Unfit::Bad(ClientFault::Form),
            Unread::Memory => Unfit::Memory,
        }
    }
}

/// The limits for a client's handles; `capacity` is the most credits.
#[derive(Clone, Copy)]
struct Limits {
    block_size: usize,
    home_blocks: u64,
    capacity: u64,
}

#[derive(Drop)]
struct OpenHandle {
    credits: u64,
    touches: Vec<ClientTouch>,
}

/// The handles of one client, as far as they are read.
#[derive(Drop)]
struct Reading {
    /// The stopped handles.
    handles: Vec<ClientHandle>,
    /// The open handle.
    open: Option<OpenHandle>,
}

impl ClientTouch {
    /// The block that it touches.
    pub fn block(&self) -> BlockNo
        ensures { result ≡ touched self.now }
    {
        match self {
            ClientTouch::Write(block, _) | ClientTouch::Revoke(block) => *block,
        }
    }
}

impl ClientScript {
    /// How many handles the clients start.
    pub fn handles(&self) -> usize
        ensures { result ≡ min (sum_by length (handles_of self.now)) usize.MAX }
    {
        let mut count = 0usize;
        for client in &self.clients {
            count = count.saturating_add(client.len());
        }
        count
    }

    /// How many handles the clients wait for.
    pub fn waits(&self) -> usize
        ensures { result ≡ min (sum_by waits_of (handles_of self.now)) usize.MAX }
    {
        let mut count = 0usize;
        for client in &self.clients {
            count = count.saturating_add(waits_of(client));
        }
        count
    }

    /// The home blocks that the clients touch.
    pub fn blocks(&self, alloc: Global) -> Result<BTreeSet<u64>, AllocError>
        ensures { IfOk result (λ blocks. All (λ handles. HasTouchedAll handles (keys blocks)) (handles_of self.now)) }
    {
        let mut blocks = BTreeSet::new(alloc);
        for client in &self.clients {
            note_client(client, &mut blocks)?;
        }
        Ok(blocks)
    }
}

fn waits_of(client: &[ClientHandle]) -> usize
    ensures { result ≡ waits_of client.now }
{
    client.iter().filter(|handle| handle.waits).count()
}

fn note_client(client: &[ClientHandle], blocks: &mut BTreeSet<u64>) -> Result<(), AllocError>
    ensures keeps { OnOk result ((b : ℕ) → Contains (keys blocks.old) b → Contains (keys blocks.new) b) }
    ensures notes { OnOk result (HasTouchedAll client.now (keys blocks.new)) }
{
    for handle in client {
        note_blocks(&handle.touches, blocks)?;
    }
    Ok(())
}

fn note_blocks(touches: &[ClientTouch], blocks: &mut BTreeSet<u64>) -> Result<(), AllocError>
    ensures keeps { OnOk result ((b : ℕ) → Contains (keys blocks.old) b → Contains (keys blocks.new) b) }
    ensures notes { OnOk result (HasTouched touches.now (keys blocks.new)) }
{
    for touch in touches {
        note_block(touch.block(), blocks)?;
    }
    Ok(())
}

fn note_block(block: BlockNo, blocks: &mut BTreeSet<u64>) -> Result<(), AllocError>
    ensures keeps { OnOk result ((b : ℕ) → Contains (keys blocks.old) b → Contains (keys blocks.new) b) }
    ensures notes { OnOk result (Contains (keys blocks.new) block) }
{
    blocks.insert(block.0)?;
    Ok(())
}

/// Reads a script of clients.
///
/// # Errors
///
/// `BadScript`, for the text: no JSON object; no key `clients` with 1 to 64 lists of at most 100,000 operations in all; a key that is
/// neither that nor one of `run`'s for a device; such a key outside its limits. For an operation: not `["start", n]`, `["write", b, hex]`,
/// `["revoke", b]`, `["stop"]` or `["wait"]`; a start while a handle is open; a touch or a stop while none is; a `wait` that does not
/// follow a `stop`; no stop at the end; more credits than a transaction of this log can have, or fewer than the handle touches blocks; a
/// block that home lacks. `Memory`.
pub fn read_clients(alloc: Global, text: &[u8]) -> Result<ClientScript, ScriptError>
    ensures measures { IfOk result (λ script. AreLimited script.measures) }
    ensures some { IfOk result (λ script. 0 < vec_len script.clients) }
    ensures few { IfOk result (λ script. vec_len script.clients ≤ 64) }
    ensures text { IfOk result (IsClientScriptOf text.now) }
    ensures servable { IfOk result CanBeServed }
{
    let value = read_value(alloc, text)?;
    match value.as_object() {
        Some(members) => read_client_members(alloc, &value, members),
        None => Err(ScriptError::BadScript(BadScript::NoObject)),
    }
}

fn require_client_keys(alloc: Global, members: &Map<String, Value>) -> Result<(), ScriptError> {
    for (name, _) in members.iter() {
        if !is_client_key(name.as_str()) {
            return Err(unknown_key(alloc, name.as_str()));
        }
    }
    Ok(())
}

fn is_client_key(name: &str) -> bool {
    KEYS.contains(&name)
}

fn read_client_members(
    alloc: Global,
    value: &Value,
    members: &Map<String, Value>,
) -> Result<ClientScript, ScriptError>
    ensures measures { IfOk result (λ script. AreLimited script.measures) }
    ensures some { IfOk result (λ script. 0 < vec_len script.clients) }
    ensures few { IfOk result (λ script. vec_len script.clients ≤ 64) }
    ensures has { IfOk result (λ script. HasClients (view value.now) (handles_of script)) }
    ensures agrees { IfOk result (λ script. AgreesWith (view value.now) script.measures) }
    ensures defaults { IfOk result (λ script. IsDefaultElse (view value.now) script.measures) }
    ensures servable { IfOk result CanBeServed }
{
    require_client_keys(alloc, members)?;
    let measures = read_measures(alloc, value)?;
    let lists = lists_of(value)?;
    let clients = read_all(alloc, lists, limits_of(&measures))?;
    Ok(ClientScript { measures, clients })
}

fn limits_of(measures: &Measures) -> Limits
    requires { AreLimited measures.now }
    ensures home { result.home_blocks ≡ measures.now.home_blocks }
    ensures capacity { IsCapacity (layout_of measures.now) (measures.now.log_blocks - 1) result.capacity }
{
    let layout = if measures.wide {
        LogLayout::wide(measures.block_size)
    } else {
        LogLayout::narrow(measures.block_size)
    };
    Limits {
        block_size: measures.block_size,
        home_blocks: measures.home_blocks,
        capacity: Layout::capacity(layout, u64::from(measures.log_blocks - 1)),
    }
}

fn lists_of(value: &Value) -> Result<&[Value], ScriptError>
    ensures some { IfOk result (λ lists. 0 < length lists.now) }
    ensures few { IfOk result (λ lists. length lists.now ≤ 64) }
    ensures listed { IfOk result (λ lists. get (codes "clients") (view value.now) ≡ Some (list_value (map view lists.now))) }
{
    let Some(clients) = value.get(CLIENTS) else {
        return Err(ScriptError::BadScript(BadScript::Clients));
    };
    match clients.as_array() {
        Some(list) if !list.is_empty() && list.len() <= MOST_CLIENTS => Ok(list.as_slice()),
        _ => Err(ScriptError::BadScript(BadScript::Clients)),
    }
}

fn read_all(
    alloc: Global,
    lists: &[Value],
    limits: Limits,
) -> Result<Vec<Vec<ClientHandle>>, ScriptError>
    ensures count { IfOk result (λ clients. vec_len clients ≡ length lists.now) }
    ensures are { IfOk result (λ clients. AllZip IsClient (map (λ c. c.items) clients.items) (map view lists.now)) }
    ensures servable { IfOk result (λ clients. All (All (IsServable limits.capacity limits.home_blocks)) (map (λ c. c.items) clients.items)) }
{
    let mut clients = Vec::with_capacity(alloc, lists.len())?;
    let mut left = MOST_OPERATIONS;
    for list in lists {
        let operations = operations_in(list, left)?;
        left -= operations.len();
        let handles = read_client(alloc, operations, clients.len(), limits)?;
        clients.push(handles)?;
    }
    Ok(clients)
}

fn operations_in(list: &Value, most: usize) -> Result<&[Value], ScriptError>
    ensures few { IfOk result (λ operations. length operations.now ≤ most) }
    ensures is { IfOk result (λ operations. view list.now ≡ list_value (map view operations.now)) }
{
    match list.as_array() {
        Some(operations) if operations.len() <= most => Ok(operations.as_slice()),
        _ => Err(ScriptError::BadScript(BadScript::Clients)),
    }
}

fn read_client(
    alloc: Global,
    operations: &[Value],
    client: usize,
    limits: Limits,
) -> Result<Vec<ClientHandle>, ScriptError>
    ensures are { IfOk result (λ handles. AllZip IsClientOperation (client_operations handles.items) (map view operations.now)) }
    ensures servable { IfOk result (λ handles. All (IsServable limits.capacity limits.home_blocks) handles.items) }
{
    let mut reading = Reading {
        handles: Vec::new(alloc),
        open: None,
    };
    for place in 0..operations.len() {
        match read_next(alloc, &operations[place], limits, reading) {
            Ok(next) => reading = next,
            Err(e) => return Err(bad_client(client, place, e)),
        }
    }
    match reading.open {
        None => Ok(reading.handles),
        Some(_) => Err(bad_client(client, operations.len(), Unfit::Bad(ClientFault::StaysOpen))),
    }
}

fn bad_client(client: usize, place: usize, unfit: Unfit) -> ScriptError {
    match unfit {
        Unfit::Bad(fault) => ScriptError::BadScript(BadScript::Client(BadClient {
            client: client.saturating_add(1),
            number: place.saturating_add(1),
            fault,
        })),
        Unfit::Memory => ScriptError::Memory,
    }
}

fn read_next(
    alloc: Global,
    value: &Value,
    limits: Limits,
    reading: Reading,
) -> Result<Reading, Unfit>
    requires { AreServable limits.capacity limits.home_blocks reading }
    ensures servable { IfOk result (AreServable limits.capacity limits.home_blocks) }
    ensures more { IfOk result (λ next. (operation : ClientOperation) × IsClientOperation operation (view value.now) × (so_far next ≡ so_far reading ++ operation ∷ [])) }
{
    match read_operation(alloc, value, limits)? {
        ClientOperation::Start(credits) => started(alloc, reading, credits, limits),
        ClientOperation::Touches(touch) => touched_by(reading, touch, limits),
        ClientOperation::Stop => stopped(alloc, reading, limits),
        ClientOperation::Wait => awaited(reading, limits),
    }
}

fn started(alloc: Global, reading: Reading, credits: u64, limits: Limits) -> Result<Reading, Unfit>
    requires { AreServable limits.capacity limits.home_blocks reading }
    ensures servable { IfOk result (AreServable limits.capacity limits.home_blocks) }
    ensures more { IfOk result (λ next. so_far next ≡ so_far reading ++ Start credits ∷ []) }
{
    if reading.open.is_some() {
        return Err(Unfit::Bad(ClientFault::IsOpen));
    }
    if credits > limits.capacity {
        return Err(Unfit::Bad(ClientFault::TooManyCredits));
    }
    Ok(Reading {
        handles: reading.handles,
        open: Some(OpenHandle {
            credits,
            touches: Vec::new(alloc),
        }),
    })
}

fn touched_by(reading: Reading, touch: ClientTouch, limits: Limits) -> Result<Reading, Unfit>
    requires servable { AreServable limits.capacity limits.home_blocks reading }
    requires there { touched touch < limits.home_blocks }
    ensures servable { IfOk result (AreServable limits.capacity limits.home_blocks) }
    ensures more { IfOk result (λ next. so_far next ≡ so_far reading ++ Touches touch ∷ []) }
{
    let Reading { handles, open } = reading;
    let Some(mut handle) = open else {
        return Err(Unfit::Bad(ClientFault::NotOpen));
    };
    handle.touches.push(touch)?;
    Ok(Reading {
        handles,
        open: Some(handle),
    })
}

fn stopped(alloc: Global, reading: Reading, limits: Limits) -> Result<Reading, Unfit>
    requires { AreServable limits.capacity limits.home_blocks reading }
    ensures servable { IfOk result (AreServable limits.capacity limits.home_blocks) }
    ensures more { IfOk result (λ next. so_far next ≡ so_far reading ++ Stop ∷ []) }
{
    let Reading { mut handles, open } = reading;
    let Some(handle) = open else {
        return Err(Unfit::Bad(ClientFault::NotOpen));
    };
    require_credits(alloc, &handle)?;
    handles.push(ClientHandle {
        credits: handle.credits,
        touches: handle.touches,
        waits: false,
    })?;
    Ok(Reading {
        handles,
        open: None,
    })
}

fn require_credits(alloc: Global, handle: &OpenHandle) -> Result<(), Unfit>
    ensures { OnOk result (HasCredits handle.now) }
{
    let mut blocks = BTreeSet::new(alloc);
    note_blocks(&handle.touches, &mut blocks)?;
    if blocks.len() as u64 <= handle.credits {
        Ok(())
    } else {
        Err(Unfit::Bad(ClientFault::TooFewCredits))
    }
}

/// Notes that the client waits for the last handle, which is stopped.
fn awaited(reading: Reading, limits: Limits) -> Result<Reading, Unfit>
    requires { AreServable limits.capacity limits.home_blocks reading }
    ensures servable { IfOk result (AreServable limits.capacity limits.home_blocks) }
    ensures more { IfOk result (λ next. so_far next ≡ so_far reading ++ Wait ∷ []) }
{
    let Reading { mut handles, open } = reading;
    if open.is_some() {
        return Err(Unfit::Bad(ClientFault::IsOpen));
    }
    match handles.pop() {
        Some(mut handle) if !handle.waits => {
            handle.waits = true;
            handles.push(handle)?;
            Ok(Reading {
                handles,
                open: None,
            })
        }
        _ => Err(Unfit::Bad(ClientFault::NothingToWaitFor)),
    }
}

fn read_operation(alloc: Global, value: &Value, limits: Limits) -> Result<ClientOperation, Unfit>
    ensures is { IfOk result (λ operation. IsClientOperation operation (view value.now)) }
    ensures there { IfOk result (IsOfBlock limits.home_blocks) }
{
    match value.as_array() {
        Some(words) => operation_of(alloc, words.as_slice(), limits),
        None => Err(Unfit::Bad(ClientFault::Form)),
    }
}

fn operation_of(alloc: Global, words: &[Value], limits: Limits) -> Result<ClientOperation, Unfit>
    ensures is { IfOk result (λ operation. IsClientOperation operation (list_value (map view words.now))) }
    ensures there { IfOk result (IsOfBlock limits.home_blocks) }
{
    match words {
        [name] => plain_operation(name),
        [name, number] => number_operation(name, number, limits),
        [name, block, hex] => write_operation(alloc, name, block, hex, limits),
        _ => Err(Unfit::Bad(ClientFault::Form)),
    }
}

fn plain_operation(name: &Value) -> Result<ClientOperation, Unfit>
    ensures named { IfOk result (λ operation. as_str (view name.now) ≡ Some (client_word operation)) }
    ensures arguments { IfOk result (λ operation. AreClientArguments operation []) }
    ensures there { IfOk result (IsOfBlock 0) }
{
    match name.as_str() {
        Some("stop") => Ok(ClientOperation::Stop),
        Some("wait") => Ok(ClientOperation::Wait),
        _ => Err(Unfit::Bad(ClientFault::Form)),
    }
}

fn number_operation(name: &Value, number: &Value, limits: Limits) -> Result<ClientOperation, Unfit>
    ensures named { IfOk result (λ operation. as_str (view name.now) ≡ Some (client_word operation)) }
    ensures arguments { IfOk result (λ operation. AreClientArguments operation (view number.now ∷ [])) }
    ensures there { IfOk result (IsOfBlock limits.home_blocks) }
{
    let number = whole_number(number)?;
    match name.as_str() {
        Some("start") => Ok(ClientOperation::Start(number)),
        Some("revoke") => revoke_operation(number, limits),
        _ => Err(Unfit::Bad(ClientFault::Form)),
    }
}

fn revoke_operation(number: u64, limits: Limits) -> Result<ClientOperation, Unfit>
    ensures is { IfOk result (λ operation. operation ≡ Touches (Revoke number)) }
    ensures there { IfOk result (IsOfBlock limits.home_blocks) }
{
    if number < limits.home_blocks {
        Ok(ClientOperation::Touches(ClientTouch::Revoke(BlockNo(number))))
    } else {
        Err(Unfit::Bad(ClientFault::NoBlock))
    }
}

fn write_operation(
    alloc: Global,
    name: &Value,
    block: &Value,
    hex: &Value,
    limits: Limits,
) -> Result<ClientOperation, Unfit>
    ensures named { IfOk result (λ operation. as_str (view name.now) ≡ Some (client_word operation)) }
    ensures arguments { IfOk result (λ operation. AreClientArguments operation (view block.now ∷ view hex.now ∷ [])) }
    ensures there { IfOk result (IsOfBlock limits.home_blocks) }
{
    let Some("write") = name.as_str() else {
        return Err(Unfit::Bad(ClientFault::Form));
    };
    let block = block_of(block, limits)?;
    let bytes = bytes_of(alloc, hex, limits.block_size)?;
    Ok(ClientOperation::Touches(ClientTouch::Write(block, bytes)))
}

fn whole_number(value: &Value) -> Result<u64, Unfit>
    ensures { IfOk result (λ number. view value.now ≡ number_value number) }
{
    match value.as_u64() {
        Some(number) => Ok(number),
        None => Err(Unfit::Bad(ClientFault::Form)),
    }
}

fn block_of(value: &Value, limits: Limits) -> Result<BlockNo, Unfit>
    ensures is { IfOk result (λ block. view value.now ≡ number_value block) }
    ensures there { IfOk result (λ block. block < limits.home_blocks) }
{
    let number = whole_number(value)?;
    if number < limits.home_blocks {
        Ok(BlockNo(number))
    } else {
        Err(Unfit::Bad(ClientFault::NoBlock))
    }
}
