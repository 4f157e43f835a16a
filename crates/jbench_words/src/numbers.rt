//! Which transaction numbers a later opening takes.
use journal_model::layout::GREATEST_NUMBER;

/// The last transaction that a later opening takes while it is not home: the number after it has to be below the greatest.
pub const LAST_TAKEN: u32 = GREATEST_NUMBER - 2;
