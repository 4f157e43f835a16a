//! Which numbers a log is written with: block types, field sizes and limits.

/// The first four bytes of a superblock and of each descriptor, commit and revoke block.
/// Source: journal.rst, "Block Header".
pub const MAGIC: [u8; 4] = [0xc0, 0x3b, 0x39, 0x98];

/// Bytes of the header of the log's own blocks: magic, type and sequence.
pub const HEADER_BYTES: usize = 12;

/// The block type of a descriptor.
pub const DESCRIPTOR_TYPE: u32 = 1;

/// The block type of a commit block.
pub const COMMIT_TYPE: u32 = 2;

/// The block type of a version 2 superblock, the only version that is accepted.
pub const SUPER_TYPE: u32 = 4;

/// The block type of a revoke block.
pub const REVOKE_TYPE: u32 = 5;

/// Bytes of a revoke block before its numbers: the header and the count of used bytes.
pub const REVOKE_HEADER_BYTES: usize = 16;

/// Bytes of a UUID in a descriptor.
pub const UUID_BYTES: usize = 16;

/// Bytes of a block number in a log of 32-bit numbers, the fewest of any log.
pub const NUMBER_BYTES: usize = 4;

/// Bytes of a tag in such a log, without a UUID.
pub const TAG_BYTES: usize = 8;

/// The fewest blocks of a log, with its superblock. The limits of the length are this project's own.
pub const LEAST_LENGTH: u32 = 17;

/// The most blocks of a log, with its superblock.
pub const GREATEST_LENGTH: u32 = 1_048_576;

/// The greatest transaction number. It is this project's own.
pub const GREATEST_NUMBER: u32 = 0xffff_fff0;
