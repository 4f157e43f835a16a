//! Which volume is served, and under which name.

/// An export: a whole volume with a name.
#[derive(Clone, Copy, Debug)]
pub struct Export<'a> {
    /// The export's name; the empty name means it too.
    pub name: &'a str,
    /// Whether changes are refused.
    pub read_only: bool,
    /// How many blocks of home the log can name. No more are offered, since a change of another would be refused.
    pub nameable: u64,
}

/// An export with its volume.
#[derive(Clone, Copy, Debug)]
pub(crate) struct Volume<'a> {
    pub(crate) export: Export<'a>,
    pub(crate) description: &'a str,
    /// In bytes.
    pub(crate) size: u64,
    /// In bytes.
    pub(crate) block_size: usize,
}

impl Volume<'_> {
    /// Whether a client's name means this export.
    pub(crate) fn is_named(&self, name: &[u8]) -> bool {
        name.is_empty() || name == self.export.name.as_bytes()
    }
}
