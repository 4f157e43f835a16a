//! Rows of copies that begin with the magic, or do not.
ghost use Rattle.std.specs.Prelude.{◌≡◌, length};

use crate::RowError;
use crate::formats::blocks::USUAL;
use crate::spelling::block_of;
use crate::telling::block_text;
use crate::words::cut;
use log_format::{escape, unescape};
use std::alloc::Global;

/// Escapes a copy, and says whether that changed it.
fn told_escape(copy: &mut [u8]) -> &'static str
    requires { length copy.old ≡ 1024 }
{
    if escape(copy) { "escaped: " } else { "left: " }
}

fn does(copy: &mut [u8], name: &str) -> Result<&'static str, RowError>
    requires { length copy.old ≡ 1024 }
{
    match name {
        "escape" => Ok(told_escape(copy)),
        "unescape" => {
            unescape(copy, true);
            Ok("")
        }
        "plain" => {
            unescape(copy, false);
            Ok("")
        }
        _ => Err(RowError::Unread),
    }
}

/// Copies and the magic. Given: `escape`, `unescape` for a copy whose tag says that it is escaped, or `plain` for one whose tag does not;
/// `|`; and a block of 1024 bytes. Found: the resulting block, and before it, for `escape`, whether it was escaped.
pub fn escapes(alloc: Global, given: &str) -> Result<String, RowError> {
    let (name, words) = cut(given, " | ")?;
    let mut copy = block_of(alloc, &USUAL, words)?;
    if copy.len() != 1024 {
        return Err(RowError::Unread);
    }
    let told = does(&mut copy, name)?;
    let block = block_text(alloc, &copy)?;
    Ok(format!(in alloc; "{told}{block}")?)
}
