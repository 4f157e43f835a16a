//! What a reader finds in a log: tags, pieces, and the text of a transaction.
use journal_model::{Block, BlockNo, Items};

/// A tag of a descriptor block: it names the home block of one copy.
#[derive(Clone, Copy, Debug, PartialEq, Eq)]
pub struct Tag {
    pub block: BlockNo,
    /// Flag 1: the copy began with the magic, which stands as zeros in the log.
    pub escaped: bool,
    /// Flag 2: no UUID follows.
    pub same_uuid: bool,
    /// Flag 8: the last tag of its descriptor.
    pub last: bool,
}

impl Tag {
    /// An unused tag, to fill a list.
    pub const UNUSED: Tag = Tag {
        block: BlockNo(0),
        escaped: false,
        same_uuid: false,
        last: false,
    };
}

/// A revoke block, or a descriptor block with its copies.
#[derive(Debug, Drop)]
pub enum Piece {
    /// A revoke block, and the home blocks that it revokes.
    Revokes(Block, Items<BlockNo>),
    /// A descriptor block, its tags, and their copies as they stand in the log.
    Copies(Block, Items<Tag>, Items<Block>),
}

/// The log blocks of one transaction.
#[derive(Debug, Drop)]
pub struct Text {
    /// In log order.
    pub pieces: Items<Piece>,
    pub commit: Block,
}
