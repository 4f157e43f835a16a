//! Which superblocks an opening accepts, and how one is written.
ghost use Rattle.std.specs.Prelude.{ℕ, ◌≡◌, ◌≤◌, ◌-◌, ◌==◌, ◌&&◌, ◌||◌, nat_le, nat_lt, length, IfOk, MatchResult, Some, None};
ghost use Rattle.journal_model.specs.Layout.{super_type, type_in};
ghost use Rattle.log_model.specs.Opening.{layout_of};
ghost use Rattle.journal_model.specs.Disk.{Shape};
ghost use Rattle.log_model.specs.Superblock.{features_of, wide_features, formatted_super, greatest_length, is_block_size, least_length, least_ring, revoke_feature, super_in, super_refusal, widened, with_tail};
ghost use Rattle.log_format.specs.Accepted.{IsAccepted};
ghost use Rattle.log_format.specs.Size.{IsBlockSize};

use crate::Header;
use crate::header::number_in;
use byteorder::{BigEndian, ByteOrder};
use journal_model::layout::{GREATEST_LENGTH, LEAST_LENGTH, MAGIC, SUPER_TYPE};
use journal_model::{JournalError, LogLayout};
use std::marker::Model;

/// The incompatible feature of each log: revoke blocks.
const REVOKE_FEATURE: u32 = 1;

/// The incompatible features of a log of 64-bit block numbers.
const WIDE_FEATURES: u32 = 3;

const LEAST_RING: u32 = 16;

/// The fields of a superblock, by their names in jbd2.
/// Source: journal.rst, "Super Block".
#[derive(Clone, Copy)]
pub struct Super {
    /// Bytes in a block.
    pub s_blocksize: u32,
    /// Blocks in the log, with the superblock.
    pub s_maxlen: u32,
    /// The first block of the ring.
    pub s_first: u32,
    /// The number of the log's first transaction; in a clean log, the number before the next one.
    pub s_sequence: u32,
    /// The log block where it begins; 0 in a clean log.
    pub s_start: u32,
    /// An error that a journal noted, or 0.
    pub s_errno: u32,
    pub s_feature_compat: u32,
    pub s_feature_incompat: u32,
    /// Compatible for reading only.
    pub s_feature_ro_compat: u32,
    pub s_uuid: [u8; 16],
    /// The number of file systems that use the log.
    pub s_nr_users: u32,
}

impl Model for Super {
    ghost use Rattle.log_model.specs.Superblock.{Super as Fields};

    ghost Value = { Fields };

    ghost view = { λ s. record { s_blocksize = s.s_blocksize; s_maxlen = s.s_maxlen; s_first = s.s_first; s_sequence = s.s_sequence; s_start = s.s_start; s_errno = s.s_errno; s_feature_compat = s.s_feature_compat; s_feature_incompat = s.s_feature_incompat; s_feature_ro_compat = s.s_feature_ro_compat; s_uuid = s.s_uuid; s_nr_users = s.s_nr_users } };

    ghost inverse = { λ s. record { s_blocksize = s.s_blocksize; s_maxlen = s.s_maxlen; s_first = s.s_first; s_sequence = s.s_sequence; s_start = s.s_start; s_errno = s.s_errno; s_feature_compat = s.s_feature_compat; s_feature_incompat = s.s_feature_incompat; s_feature_ro_compat = s.s_feature_ro_compat; s_uuid = s.s_uuid; s_nr_users = s.s_nr_users } };
}

impl Super {
    /// Reads the superblock from `block`, block 0 of a log and one device block long, with `log_blocks` blocks in the log area.
    /// Neither s_sequence nor the header's sequence is tested.
    ///
    /// # Errors
    ///
    /// A log area without a block is `BadLength`. Else the first that applies:
    /// - `BadMagic`: the block does not begin with the magic;
    /// - `BadType`: its type is not 4;
    /// - `BadBlockSize`: s_blocksize is not 1024, 2048 or 4096, or not the device's;
    /// - `BadLength`: s_maxlen is below 17, above 1,048,576 or above `log_blocks`;
    /// - `BadFirst`: s_first is 0, or leaves fewer than 16 blocks for the ring;
    /// - `BadFeature`: other features than revoke blocks, alone or with 64-bit numbers, or not exactly one user;
    /// - `BadStart`: s_start is neither 0 nor in the ring;
    /// - `ErrnoSet`: s_errno is not 0.
    ///
    /// Source: journal.rst, "Super Block"; the limits and the order of the tests are this project's own.
    pub fn read(block: &[u8], log_blocks: u64) -> Result<Self, JournalError>
        ensures tests { (home_blocks : ℕ) →
            let shape : Shape = record { block_size = length block.now; log_blocks = log_blocks; home_blocks = home_blocks } in
            MatchResult result (λ _. super_refusal shape block.now ≡ None) (λ e. super_refusal shape block.now ≡ Some e) }
        ensures fields { IfOk result (λ s. s ≡ super_in block.now) }
        ensures accepted { IfOk result (λ s. IsAccepted (length block.now) log_blocks s) }
    {
        if log_blocks == 0 {
            return Err(JournalError::BadLength);
        }
        if !block.starts_with(&MAGIC) {
            return Err(JournalError::BadMagic);
        }
        if !has_super_type(block) {
            return Err(JournalError::BadType);
        }
        if !is_block_size(block.len()) {
            return Err(JournalError::BadBlockSize);
        }
        let fields = Super::fields(block);
        if !fields.has_block_size(block.len()) {
            return Err(JournalError::BadBlockSize);
        }
        if !fields.has_length(log_blocks) {
            return Err(JournalError::BadLength);
        }
        if !fields.has_ring() {
            return Err(JournalError::BadFirst);
        }
        if !fields.has_features() {
            return Err(JournalError::BadFeature);
        }
        if !fields.has_start() {
            return Err(JournalError::BadStart);
        }
        if !fields.has_no_error() {
            return Err(JournalError::ErrnoSet);
        }
        Ok(fields)
    }

    /// Writes the superblock of an empty log over all of `block`, whose length (1024, 2048 or 4096 bytes) is the log's block size.
    /// The log has `maxlen` blocks with the superblock, and its ring begins at block 1. s_sequence is 1, so the first transaction
    /// gets the number 2.
    /// Source: journal.rst, "Super Block".
    pub fn format(block: &mut [u8], maxlen: u32, uuid: &[u8; 16], wide: bool)
        requires { IsBlockSize (length block.old) }
        ensures { block.new ≡ formatted_super (length block.old) maxlen uuid.now wide }
    {
        let header = Header {
            block_type: SUPER_TYPE,
            sequence: 0,
        };
        header.write(block);
        let features = features_of(wide);
        let fields = [block.len() as u32, maxlen, 1, 1, 0, 0, 0, features, 0];
        BigEndian::write_u32_into(&fields, &mut block[0x0c..0x30]);
        block[0x30..0x40].copy_from_slice(uuid);
        BigEndian::write_u32(&mut block[0x40..], 1);
        block[0x44..].fill(0);
    }

    /// Writes s_sequence and s_start into a superblock (1024, 2048 or 4096 bytes), and changes no other byte: the log's first
    /// transaction and the log block where it begins. In a clean log `start` is 0, and `sequence` the number before the next
    /// transaction's.
    /// Source: journal.rst, "Super Block".
    pub fn write(block: &mut [u8], sequence: u32, start: u32)
        requires { IsBlockSize (length block.old) }
        ensures { block.new ≡ with_tail block.old sequence start }
    {
        BigEndian::write_u32(&mut block[0x18..], sequence);
        BigEndian::write_u32(&mut block[0x1c..], start);
    }

    /// Gives a superblock (1024, 2048 or 4096 bytes) the features of 64-bit block numbers, and changes no other byte.
    /// Source: this project's own.
    pub fn widen(block: &mut [u8])
        requires { IsBlockSize (length block.old) }
        ensures { block.new ≡ widened block.old }
    {
        BigEndian::write_u32(&mut block[0x28..], WIDE_FEATURES);
    }

    /// The superblock fields in the first 1024 bytes of a log, untested: they tell s_blocksize if a device's block size is not
    /// known. `Super::read` makes the tests.
    /// Source: journal.rst, "Super Block".
    pub fn fields(block: &[u8]) -> Self
        requires { 1024 ≤ length block.now }
        ensures { result ≡ super_in block.now }
    {
        let mut s_uuid = [0; 16];
        s_uuid.copy_from_slice(&block[0x30..0x40]);
        Super {
            s_blocksize: number_in(block, 0x0c),
            s_maxlen: number_in(block, 0x10),
            s_first: number_in(block, 0x14),
            s_sequence: number_in(block, 0x18),
            s_start: number_in(block, 0x1c),
            s_errno: number_in(block, 0x20),
            s_feature_compat: number_in(block, 0x24),
            s_feature_incompat: number_in(block, 0x28),
            s_feature_ro_compat: number_in(block, 0x2c),
            s_uuid,
            s_nr_users: number_in(block, 0x40),
        }
    }

    /// Whether block numbers have 64 bits.
    /// Source: journal.rst, "Super Block" (the features).
    pub fn has_wide_numbers(&self) -> bool
        ensures { result ≡ (self.now.s_feature_incompat == wide_features) }
    {
        self.s_feature_incompat == WIDE_FEATURES
    }

    /// The layout of the log.
    /// Source: journal.rst, "Super Block" (the features).
    pub fn layout(&self) -> LogLayout
        ensures { result ≡ layout_of self.now }
    {
        let block_size = self.s_blocksize as usize;
        if self.has_wide_numbers() {
            LogLayout::wide(block_size)
        } else {
            LogLayout::narrow(block_size)
        }
    }

    fn has_block_size(&self, block_size: usize) -> bool
        ensures { result ≡ (is_block_size self.now.s_blocksize && (self.now.s_blocksize == block_size)) }
    {
        let size = self.s_blocksize as usize;
        is_block_size(size) && size == block_size
    }

    fn has_length(&self, log_blocks: u64) -> bool
        ensures { result ≡ (nat_le least_length self.now.s_maxlen && nat_le self.now.s_maxlen greatest_length && nat_le self.now.s_maxlen log_blocks) }
    {
        let maxlen = self.s_maxlen;
        LEAST_LENGTH <= maxlen && maxlen <= GREATEST_LENGTH && u64::from(maxlen) <= log_blocks
    }

    fn has_ring(&self) -> bool
        ensures { result ≡ (nat_lt 0 self.now.s_first && nat_le least_ring (self.now.s_maxlen - self.now.s_first)) }
    {
        0 < self.s_first && LEAST_RING <= self.s_maxlen.saturating_sub(self.s_first)
    }

    fn has_features(&self) -> bool
        ensures { result ≡ ((self.now.s_feature_compat == 0) && (self.now.s_feature_ro_compat == 0) && ((self.now.s_feature_incompat == revoke_feature) || (self.now.s_feature_incompat == wide_features)) && (self.now.s_nr_users == 1)) }
    {
        self.s_feature_compat == 0
            && self.s_feature_ro_compat == 0
            && (self.s_feature_incompat == REVOKE_FEATURE
                || self.s_feature_incompat == WIDE_FEATURES)
            && self.s_nr_users == 1
    }

    fn has_start(&self) -> bool
        ensures { result ≡ ((self.now.s_start == 0) || (nat_le self.now.s_first self.now.s_start && nat_lt self.now.s_start self.now.s_maxlen)) }
    {
        self.s_start == 0 || (self.s_first <= self.s_start && self.s_start < self.s_maxlen)
    }

    fn has_no_error(&self) -> bool
        ensures { result ≡ (self.now.s_errno == 0) }
    {
        self.s_errno == 0
    }
}

fn features_of(wide: bool) -> u32
    ensures { result ≡ features_of wide }
{
    if wide { WIDE_FEATURES } else { REVOKE_FEATURE }
}

/// A block too short for a type has none.
fn has_super_type(block: &[u8]) -> bool
    ensures { result ≡ (type_in block.now == super_type) }
{
    block.len() >= 8 && number_in(block, 4) == SUPER_TYPE
}

fn is_block_size(size: usize) -> bool
    ensures { result ≡ is_block_size size }
{
    size == 1024 || size == 2048 || size == 4096
}
