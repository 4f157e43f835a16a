//! What stands in the log for a copy that begins with the magic.
ghost use Rattle.std.specs.Prelude.{◌≡◌, length};
ghost use Rattle.log_model.specs.Escape.{escaped, unescaped};
ghost use Rattle.journal_model.specs.Layout.{begins_with_magic};
ghost use Rattle.log_format.specs.Size.{IsBlockSize};

use journal_model::layout::MAGIC;

/// Escapes a copy of 1024, 2048 or 4096 bytes: a magic at its front becomes zeros. Answers whether it did, for
/// flag 1 of the copy's tag.
/// Source: journal.rst, "Data Block".
pub fn escape(copy: &mut [u8]) -> bool
    requires { IsBlockSize (length copy.old) }
    ensures copy { copy.new ≡ escaped copy.old }
    ensures answer { result ≡ begins_with_magic copy.old }
{
    let begins = copy.starts_with(&MAGIC);
    if begins {
        copy[..4].fill(0);
    }
    begins
}

/// Unescapes a stored copy of 1024, 2048 or 4096 bytes: if `flag`, flag 1 of its tag, is set, the magic replaces
/// its first four bytes.
/// Source: journal.rst, "Data Block".
pub fn unescape(copy: &mut [u8], flag: bool)
    requires { IsBlockSize (length copy.old) }
    ensures { copy.new ≡ unescaped flag copy.old }
{
    if flag {
        copy[..4].copy_from_slice(&MAGIC);
    }
}
