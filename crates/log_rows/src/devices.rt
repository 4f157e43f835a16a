//! Rows of devices in memory.
mod images;
mod memory;

pub use images::known_images;
pub use memory::{crashed_images, memory_calls};
