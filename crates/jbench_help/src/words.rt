//! A command's words, and those that several commands have.

/// A command's word: a required value, an option `--NAME` with a value, or a flag `--NAME`.
pub(crate) struct Word {
    pub(crate) name: &'static str,
    /// The value's name in the help; empty for a flag.
    pub(crate) value: &'static str,
    pub(crate) is_option: bool,
    pub(crate) help: &'static str,
}

/// A required value: its name, its name in the help, and its help.
macro_rules! required {
    ($name:literal, $value:literal, $help:literal) => {
        Word {
            name: $name,
            value: $value,
            is_option: false,
            help: $help,
        }
    };
}

/// An option with a value: its name, the value's name in the help, and its help.
macro_rules! option {
    ($name:literal, $value:literal, $help:literal) => {
        Word {
            name: $name,
            value: $value,
            is_option: true,
            help: $help,
        }
    };
}

/// A flag: its name and its help.
macro_rules! flag {
    ($name:literal, $help:literal) => {
        option! { $name, "", $help }
    };
}

pub(crate) use flag;
pub(crate) use option;
pub(crate) use required;

pub(crate) const LOG: Word = required! { "log", "LOG", "The file of the log" };

pub(crate) const HOME: Word = required! { "home_file", "HOME", "The file of the home area" };

pub(crate) const SCRIPT: Word =
    required! { "script", "SCRIPT", "The file that holds the script, or - for standard input" };

pub(crate) const WAIT: Word =
    option! { "wait", "SECONDS", "Wait at most so long for a file that another program has, 1 to 86400 [default: not at all]" };

pub(crate) const JSON: Word = flag! { "json", "Print one JSON object" };
