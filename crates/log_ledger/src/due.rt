//! Which device call a step makes.
use journal_model::Area;

/// The device call that a step makes, if any.
#[derive(Clone, Copy)]
pub enum Due {
    Nothing,
    /// Write the built block to this place of an area.
    Write(Area, u64),
    Flush(Area),
}
