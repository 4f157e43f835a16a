//! Why a text is no script.
use crate::order::Misplaced;
use crate::script::HANDLE_NAMES;
use std::alloc::{AllocError, AllocFailed};
use std::fmt;

/// Why a text gives no script.
#[derive(Drop)]
pub enum ScriptError {
    /// The text is no script.
    BadScript(BadScript),
    /// Memory ran out.
    Memory,
}

/// What is wrong with a text that is no script.
#[derive(Drop)]
pub enum BadScript {
    /// It begins with a byte order mark.
    ByteOrderMark,
    /// It is not JSON from this line and column on, counted from 1.
    NoJson(usize, usize),
    /// It is no JSON object.
    NoObject,
    /// It has this key, which scripts lack.
    UnknownKey(String),
    /// It lacks this key, or the key has none of its values.
    Key(Key),
    /// The blocks of its home area exceed the limit for block numbers of 64 bits.
    WideHome,
    /// A key disagrees with the device at hand.
    Disagrees(Disagreement),
    /// This operation is none, or can't stand there.
    Operation(BadOperation),
    /// Its list of clients is missing, empty or too long, has an element that is no list, or too many operations.
    Clients,
    /// An operation of a client is none or can't stand there, or a client ends too early.
    Client(BadClient),
}

/// A key that disagrees with the device at hand.
#[derive(Drop)]
pub struct Disagreement {
    /// The key that disagrees.
    pub key: Key,
    /// What the device has, as a script would say it.
    pub device: String,
    /// What the script says: the whole text if short, else its beginning.
    pub script: String,
}

/// An operation of a client that is none, or can't stand there.
#[derive(Clone, Copy)]
pub struct BadClient {
    /// The client's number, from 1.
    pub client: usize,
    /// The operation's number among the client's, from 1.
    pub number: usize,
    /// Why it is none, or can't stand there.
    pub fault: ClientFault,
}

/// What is wrong with an operation of a client.
#[derive(Clone, Copy)]
pub enum ClientFault {
    /// It has none of the forms of operations.
    Form,
    /// Home has no such block.
    NoBlock,
    /// A handle is open.
    IsOpen,
    /// No handle is open.
    NotOpen,
    /// It asks for more credits than a transaction of the log can have.
    TooManyCredits,
    /// The handle touches more blocks than it has credits.
    TooFewCredits,
    /// It follows no stop of a handle that is not waited for yet.
    NothingToWaitFor,
    /// The client ends with an open handle.
    StaysOpen,
}

/// A key of a script.
#[derive(Clone, Copy)]
pub enum Key {
    /// `ops`, the operations.
    Operations,
    /// `block`, the bytes of a block.
    Block,
    /// `length`, the blocks of the log.
    Length,
    /// `home`, the blocks of the home area.
    Home,
    /// `uuid`, the journal's UUID.
    Uuid,
    /// `wide`, whether block numbers have 64 bits.
    Wide,
}

/// An operation that is none, or can't stand there.
#[derive(Drop)]
pub struct BadOperation {
    /// Its number in the list, from 1.
    pub number: usize,
    /// Its whole text if short, else the beginning.
    pub text: String,
    /// Why it is none, or can't stand there.
    pub fault: OperationFault,
}

/// What is wrong with an operation.
#[derive(Clone, Copy)]
pub enum OperationFault {
    /// It is no list that begins with a name.
    NoName,
    /// No operation has its name.
    UnknownName,
    /// It lacks the form of this name's operation.
    Form(OperationName),
    /// Its handle is no number of a handle.
    Handle,
    /// Its credits or its block are no number.
    Number,
    /// Its bytes are not pairs of hex digits.
    Digits,
    /// It has more bytes than a block.
    TooManyBytes,
    /// Its handle is in the wrong state.
    Misplaced(Misplaced),
}

/// The name of an operation.
#[derive(Clone, Copy)]
pub enum OperationName {
    /// `start`
    Start,
    /// `write`
    Write,
    /// `revoke`
    Revoke,
    /// `read`
    Read,
    /// `extend`
    Extend,
    /// `restart`
    Restart,
    /// `stop`
    Stop,
    /// `request`
    Request,
    /// `lock`
    Lock,
    /// `turn`
    Turn,
    /// `commit`
    Commit,
    /// `ckturn`
    CheckpointTurn,
    /// `check`
    Check,
    /// `status`
    Status,
    /// `wait`
    Wait,
    /// `direct`
    WriteDirect,
    /// `sync`
    SyncDirect,
}

const NAMES: [OperationName; 17] = [
    OperationName::Start,
    OperationName::Write,
    OperationName::Revoke,
    OperationName::Read,
    OperationName::Extend,
    OperationName::Restart,
    OperationName::Stop,
    OperationName::Request,
    OperationName::Lock,
    OperationName::Turn,
    OperationName::Commit,
    OperationName::CheckpointTurn,
    OperationName::Check,
    OperationName::Status,
    OperationName::Wait,
    OperationName::WriteDirect,
    OperationName::SyncDirect,
];

impl OperationName {
    ghost use Rattle.std.specs.Prelude.{◌≡◌, IfSome};
    ghost use Rattle.journal_script.specs.Names.{name_word};

    pub(crate) fn called(text: &str) -> Option<OperationName>
        ensures { IfSome result (λ name. text.now ≡ name_word name) }
    {
        for name in &NAMES {
            if name.word() == text {
                return Some(*name);
            }
        }
        None
    }

    fn word(self) -> &'static str
        ensures { result.now ≡ name_word self }
    {
        match self {
            OperationName::Start => "start",
            OperationName::Write => "write",
            OperationName::Revoke => "revoke",
            OperationName::Read => "read",
            OperationName::Extend => "extend",
            OperationName::Restart => "restart",
            OperationName::Stop => "stop",
            OperationName::Request => "request",
            OperationName::Lock => "lock",
            OperationName::Turn => "turn",
            OperationName::Commit => "commit",
            OperationName::CheckpointTurn => "ckturn",
            OperationName::Check => "check",
            OperationName::Status => "status",
            OperationName::Wait => "wait",
            OperationName::WriteDirect => "direct",
            OperationName::SyncDirect => "sync",
        }
    }

    fn form(self) -> &'static str {
        match self {
            OperationName::Start => r#"["start", H, n]"#,
            OperationName::Write => r#"["write", H, b, hex]"#,
            OperationName::Revoke => r#"["revoke", H, b]"#,
            OperationName::Read => r#"["read", H, b]"#,
            OperationName::Extend => r#"["extend", H, n]"#,
            OperationName::Restart => r#"["restart", H, n]"#,
            OperationName::Stop => r#"["stop", H]"#,
            OperationName::Request => r#"["request", H]"#,
            OperationName::Lock => r#"["lock"]"#,
            OperationName::Turn => r#"["turn"]"#,
            OperationName::Commit => r#"["commit"]"#,
            OperationName::CheckpointTurn => r#"["ckturn"]"#,
            OperationName::Check => r#"["check"]"#,
            OperationName::Status => r#"["status", H]"#,
            OperationName::Wait => r#"["wait", H]"#,
            OperationName::WriteDirect => r#"["direct", b, hex]"#,
            OperationName::SyncDirect => r#"["sync"]"#,
        }
    }
}

impl Key {
    ghost use Rattle.std.specs.Prelude.{◌≡◌};
    ghost use Rattle.journal_script.specs.Text.{key_name};

    pub(crate) fn named(name: &str) -> Option<Key> {
        match name {
            "ops" => Some(Key::Operations),
            "block" => Some(Key::Block),
            "length" => Some(Key::Length),
            "home" => Some(Key::Home),
            "uuid" => Some(Key::Uuid),
            "wide" => Some(Key::Wide),
            _ => None,
        }
    }

    pub(crate) fn name(self) -> &'static str
        ensures { result.now ≡ key_name self }
    {
        match self {
            Key::Operations => "ops",
            Key::Block => "block",
            Key::Length => "length",
            Key::Home => "home",
            Key::Uuid => "uuid",
            Key::Wide => "wide",
        }
    }

    fn wanted(self) -> &'static str {
        match self {
            Key::Operations => "a list of at most 100000 operations is wanted",
            Key::Block => "1024, 2048 or 4096 is wanted",
            Key::Length => "a number from 17 to 1048576 is wanted",
            Key::Home => "a number from 1 to 1048576 is wanted",
            Key::Uuid => "32 hex digits are wanted",
            Key::Wide => "true or false is wanted",
        }
    }
}

impl From<BadScript> for ScriptError {
    fn from(bad: BadScript) -> ScriptError {
        ScriptError::BadScript(bad)
    }
}

impl From<AllocError> for ScriptError {
    ghost use Rattle.std.specs.Prelude.{◌≡◌};
    ghost use Rattle.journal_script.specs.declared.error.ScriptError.TheVariants.{Memory};

    ghost from_gives = { λ _ e. e ≡ Memory };

    fn from(_e: AllocError) -> ScriptError {
        ScriptError::Memory
    }
}

impl<T: Drop> From<AllocFailed<T>> for ScriptError {
    ghost use Rattle.std.specs.Prelude.{◌≡◌};
    ghost use Rattle.journal_script.specs.declared.error.ScriptError.TheVariants.{Memory};

    ghost from_gives = { λ _ e. e ≡ Memory };

    fn from(_e: AllocFailed<T>) -> ScriptError {
        ScriptError::Memory
    }
}

/// One line: which key or operation is wrong, and why.
impl fmt::Display for BadScript {
    fn fmt<W: fmt::Write>(&self, f: &mut fmt::Formatter<W>) -> fmt::Result {
        match self {
            BadScript::ByteOrderMark => {
                f.write_str("it begins with a byte order mark: text in UTF-8 without one is wanted")
            }
            BadScript::NoJson(line, column) => {
                write!(f, "it is no JSON from line {line} column {column} on")
            }
            BadScript::NoObject => f.write_str("it is no JSON object"),
            BadScript::UnknownKey(name) => write_key(f, name.as_str(), "a script has no such key"),
            BadScript::Key(key) => write_key(f, key.name(), key.wanted()),
            BadScript::WideHome => {
                write_key(
                    f,
                    Key::Home.name(),
                    "a number from 1 to 1099511627776 is wanted",
                )
            }
            BadScript::Disagrees(other) => other.fmt(f),
            BadScript::Operation(bad) => bad.fmt(f),
            BadScript::Clients => f.write_str(
                "key \"clients\": a list of 1 to 64 lists with at most 100000 operations is wanted",
            ),
            BadScript::Client(bad) => bad.fmt(f),
        }
    }
}

fn write_key<W: fmt::Write>(f: &mut fmt::Formatter<W>, name: &str, wrong: &str) -> fmt::Result {
    write!(f, "key {name:?}: {wrong}")
}

impl fmt::Display for Disagreement {
    fn fmt<W: fmt::Write>(&self, f: &mut fmt::Formatter<W>) -> fmt::Result {
        write!(
            f,
            "key {:?}: the files have {}, and the script says {}",
            self.key.name(),
            self.device,
            self.script
        )
    }
}

impl fmt::Display for BadClient {
    fn fmt<W: fmt::Write>(&self, f: &mut fmt::Formatter<W>) -> fmt::Result {
        write!(
            f,
            "client {} operation {}: {}",
            self.client, self.number, self.fault
        )
    }
}

impl fmt::Display for ClientFault {
    fn fmt<W: fmt::Write>(&self, f: &mut fmt::Formatter<W>) -> fmt::Result {
        f.write_str(match self {
            ClientFault::Form => {
                r#"["start", n], ["write", b, hex], ["revoke", b], ["stop"] or ["wait"] is wanted"#
            }
            ClientFault::NoBlock => "home has no such block",
            ClientFault::IsOpen => "a handle is open",
            ClientFault::NotOpen => "no handle is open",
            ClientFault::TooManyCredits => "a transaction of this log has fewer credits",
            ClientFault::TooFewCredits => "its handle touches more blocks than it has credits",
            ClientFault::NothingToWaitFor => "it does not follow a stop",
            ClientFault::StaysOpen => "a handle is open at the end",
        })
    }
}

impl fmt::Display for BadOperation {
    fn fmt<W: fmt::Write>(&self, f: &mut fmt::Formatter<W>) -> fmt::Result {
        write!(f, "operation {} {}: {}", self.number, self.text, self.fault)
    }
}

impl fmt::Display for OperationFault {
    fn fmt<W: fmt::Write>(&self, f: &mut fmt::Formatter<W>) -> fmt::Result {
        match self {
            OperationFault::NoName => f.write_str("a list that begins with a name is wanted"),
            OperationFault::UnknownName => f.write_str("no operation has this name"),
            OperationFault::Form(name) => write!(f, "its form is {}", name.form()),
            OperationFault::Handle => {
                write!(f, "a handle is a number from 0 to {}", HANDLE_NAMES - 1)
            }
            OperationFault::Number => f.write_str(
                "a number from 0 to 18446744073709551615 is wanted",
            ),
            OperationFault::Digits => f.write_str("bytes are hex digits, two for each"),
            OperationFault::TooManyBytes => f.write_str("a block has fewer bytes"),
            OperationFault::Misplaced(misplaced) => misplaced.fmt(f),
        }
    }
}
