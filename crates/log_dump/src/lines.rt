//! The lines of a dump: how each is printed.
ghost use Rattle.std.specs.Prelude.{◌≡◌, ◌+◌, ◌++◌, ◌∷◌, [], OnOk, codes, length, map};
ghost use Rattle.std.specs.Fmt.{decimal};
ghost use Rattle.std.specs.Io.KnownBytes.{Appends};
ghost use Rattle.std.specs.List.{join_with_byte};
ghost use Rattle.log_model.specs.Dump.{comma, copy_caption, super_line, width_word};
ghost use Rattle.log_dump.specs.Lines.{ended, listed, placed_line};

use journal_model::BlockNo;
use log_format::Super;
use log_model::Tag;
use std::io;
use std::io::Write;

/// Prints the superblock's line.
pub(crate) fn write_super<W: Write>(out: &mut W, fields: &Super) -> io::Result<()>
    ensures { OnOk result (Appends (W.contents out.old) (W.contents out.new) (ended (super_line fields.now))) }
{
    let width = width_word(fields);
    writeln!(
        out,
        "super blocksize={} maxlen={} first={} sequence={} start={}{width}",
        fields.s_blocksize, fields.s_maxlen, fields.s_first, fields.s_sequence, fields.s_start
    )
}

/// The superblock line's word for the width of block numbers.
fn width_word(fields: &Super) -> &'static str
    ensures { result.now ≡ width_word fields.now }
{
    if fields.has_wide_numbers() {
        " wide"
    } else {
        ""
    }
}

/// Prints the last line of a clean log, with its s_sequence.
pub(crate) fn write_empty<W: Write>(out: &mut W, sequence: u32) -> io::Result<()>
    ensures { OnOk result (Appends (W.contents out.old) (W.contents out.new) (ended (codes "empty sequence=" ++ decimal sequence))) }
{
    writeln!(out, "empty sequence={sequence}")
}

/// Prints the last line of any other log: the number after its last complete transaction, and how many it has.
pub(crate) fn write_end<W: Write>(out: &mut W, sequence: u64, transactions: u64) -> io::Result<()>
    ensures { OnOk result (Appends (W.contents out.old) (W.contents out.new) (ended (codes "end sequence=" ++ decimal sequence ++ codes " transactions=" ++ decimal transactions))) }
{
    writeln!(out, "end sequence={sequence} transactions={transactions}")
}

/// Prints the line of a commit block.
pub(crate) fn write_commit<W: Write>(out: &mut W, place: u64, sequence: u64) -> io::Result<()>
    ensures { OnOk result (Appends (W.contents out.old) (W.contents out.new) (ended (placed_line place (codes "commit " ++ decimal sequence)))) }
{
    writeln!(out, "{place} commit {sequence}")
}

/// Prints the line of a descriptor with so many tags.
pub(crate) fn write_descriptor<W: Write>(
    out: &mut W,
    place: u64,
    sequence: u64,
    tags: usize,
) -> io::Result<()>
    ensures { OnOk result (Appends (W.contents out.old) (W.contents out.new) (ended (placed_line place (codes "descriptor " ++ decimal sequence ++ codes " tags=" ++ decimal tags)))) }
{
    writeln!(out, "{place} descriptor {sequence} tags={tags}")
}

/// Prints the line of the copy that this tag names.
pub(crate) fn write_copy<W: Write>(
    out: &mut W,
    place: u64,
    sequence: u64,
    tag: &Tag,
) -> io::Result<()>
    ensures { OnOk result (Appends (W.contents out.old) (W.contents out.new) (ended (placed_line place (copy_caption sequence tag.now)))) }
{
    let escaped = if tag.escaped { " escaped" } else { "" };
    writeln!(
        out,
        "{place} copy {sequence} block={}{escaped}",
        tag.block.0
    )
}

/// Prints the line of a revoke block with these numbers.
pub(crate) fn write_revokes<W: Write>(
    out: &mut W,
    place: u64,
    sequence: u64,
    numbers: &[BlockNo],
) -> io::Result<()>
    ensures { OnOk result (Appends (W.contents out.old) (W.contents out.new) (ended (placed_line place (codes "revoke " ++ decimal sequence ++ codes " blocks=" ++ join_with_byte comma (map decimal numbers.now))))) }
{
    write!(out, "{place} revoke {sequence} blocks=")?;
    write_numbers(out, numbers)?;
    writeln!(out)
}

/// Prints numbers, with commas between them.
fn write_numbers<W: Write>(out: &mut W, numbers: &[BlockNo]) -> io::Result<()>
    ensures { OnOk result (Appends (W.contents out.old) (W.contents out.new) (join_with_byte comma (map decimal numbers.now))) }
{
    for i in 0..numbers.len() {
        let number = numbers[i];
        write_listed(out, i, number.0)?;
    }
    Ok(())
}

/// Prints a number of a list, after a comma unless it is the first.
fn write_listed<W: Write>(out: &mut W, i: usize, number: u64) -> io::Result<()>
    ensures { OnOk result (Appends (W.contents out.old) (W.contents out.new) (listed i number)) }
{
    if i == 0 {
        write!(out, "{number}")
    } else {
        write!(out, ",{number}")
    }
}
