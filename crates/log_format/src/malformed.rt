//! The error of a block that is not well formed.
use std::error::Error;
use std::fmt::{self, Display, Formatter, Write};

/// A descriptor or revoke block is not well formed, by tests that are this project's own.
#[derive(Clone, Copy, Debug, PartialEq, Eq)]
pub struct Malformed;

impl Display for Malformed {
    fn fmt<W: Write>(&self, f: &mut Formatter<W>) -> fmt::Result {
        f.write_str("malformed block")
    }
}

impl Error for Malformed {}
