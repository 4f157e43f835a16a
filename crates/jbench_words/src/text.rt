//! Reads the text of a script.
ghost use Rattle.std.specs.Prelude.{◌≡◌, IfOk, IfSome};

use crate::fault::Fault;
use std::alloc::Global;
use std::io::Read;

/// Reads a script's bytes to their end.
///
/// # Errors
///
/// `Fault::of_file` of the reader's answer, or of a lack of memory. The bytes read so far are lost.
pub fn read_text<R: Read + Drop>(alloc: Global, mut reader: R) -> Result<Vec<u8>, Fault>
    ensures { IfOk result (λ text. IfSome (R.remaining reader) (λ bytes. text.items ≡ bytes)) }
{
    let mut text = Vec::new(alloc);
    match reader.read_to_end(&mut text) {
        Ok(_) => Ok(text),
        Err(e) => Err(Fault::of_file(e)),
    }
}
