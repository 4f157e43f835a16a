//! What stands at one place of a log.
ghost use Rattle.std.specs.Prelude.{◌≡◌, ℕ, ◌<◌, ◌≤◌, length, take, slice_get, Some, IfOk, OnOk, MatchResult};
ghost use Rattle.log_model.specs.Chain.{place_from};
ghost use Rattle.journal_model.specs.Disk.{reading};
ghost use Rattle.log_model.specs.Escape.{unescaped};
ghost use Rattle.journal_model.specs.Layout.{HasHeader, IsLayout, descriptor_type, revoke_type, sequence_in};
ghost use Rattle.log_model.specs.Opening.{layout_of, ring_of};
ghost use Rattle.block_device.specs.Call.{OnlyReads};
ghost use Rattle.block_device.specs.State.{CountsCall, IsDeviceFailure};
ghost use Rattle.log_format.specs.Accepted.{IsAccepted};
ghost use Rattle.log_format.specs.Size.{count_of};
ghost use Rattle.log_scan.specs.Finding.{Fits, IsFound, IsSequenceOf, MakesCalls, Says, blocks_from, limit_of, log_block, reads_of};

use crate::buffer::BlockBuffer;
use crate::log::Log;
use block_device::Device;
use journal_model::layout::{
    COMMIT_TYPE, DESCRIPTOR_TYPE, HEADER_BYTES, NUMBER_BYTES, REVOKE_HEADER_BYTES, REVOKE_TYPE,
    TAG_BYTES,
};
use journal_model::{Area, BlockNo, JournalError, LogLayout};
use log_format::{Descriptor, Header, RevokeBlock};
use log_model::Tag;
use std::marker::Model;

const MOST_TAGS: usize = (BlockBuffer::MOST_BYTES - HEADER_BYTES) / TAG_BYTES;

const MOST_NUMBERS: usize = (BlockBuffer::MOST_BYTES - REVOKE_HEADER_BYTES) / NUMBER_BYTES;

/// What stands where a block of some transaction is due.
#[derive(Clone, Copy)]
pub enum Found {
    /// A revoke block with so many numbers.
    RevokeBlock(usize),
    /// A descriptor with so many tags, and as many copies after it in the ring.
    Descriptor(usize),
    CommitBlock,
    /// A malformed descriptor or revoke block of the transaction.
    Malformed,
    /// No block of the transaction, a descriptor whose copies do not fit the ring, or the ring's end.
    Nothing,
}

/// Reads log blocks one by one and finds what they are. It keeps the tags of the last descriptor and the numbers of the last
/// revoke block.
#[derive(Drop)]
pub struct Finder {
    layout: LogLayout,
    block: BlockBuffer,
    tags: [Tag; MOST_TAGS],
    numbers: [BlockNo; MOST_NUMBERS],
}

impl Model for Finder {
    ghost use Rattle.std.specs.Prelude.{◌≡◌, length};
    ghost use Rattle.journal_model.specs.Layout.{IsLayout};
    ghost use Rattle.log_scan.specs.Finding.{FinderValue, greatest_numbers, greatest_tags};

    ghost Value = { FinderValue };

    ghost view = { λ f. record { layout = f.layout; block = f.block; tags = f.tags; numbers = f.numbers } };

    ghost invariant = { λ f. IsLayout f.layout × (length f.block ≡ f.layout.block_size)
        × (length f.tags ≡ greatest_tags)
        × (length f.numbers ≡ greatest_numbers) };
}

impl Finder {
    /// A finder for logs of this layout. It takes no memory.
    pub fn new(layout: LogLayout) -> Self
        requires { IsLayout layout }
        ensures { result.layout ≡ layout }
    {
        Finder {
            layout,
            block: BlockBuffer::new(layout.block_size),
            tags: [Tag::UNUSED; MOST_TAGS],
            numbers: [BlockNo(0); MOST_NUMBERS],
        }
    }

    /// The tags of the last descriptor found.
    pub fn tags(&self, count: usize) -> &[Tag]
        requires { count ≤ length self.now.tags }
        ensures { result.now ≡ take count self.now.tags }
    {
        &self.tags[..count]
    }

    /// The numbers of the last revoke block found.
    pub fn numbers(&self, count: usize) -> &[BlockNo]
        requires { count ≤ length self.now.numbers }
        ensures { result.now ≡ take count self.now.numbers }
    {
        &self.numbers[..count]
    }

    /// Tag `k` of the last descriptor found.
    pub fn tag(&self, k: usize) -> Tag
        requires { k < length self.now.tags }
        ensures { slice_get self.now.tags k ≡ Some result }
    {
        let tags = &self.tags[..];
        tags[k]
    }

    /// The block read last.
    pub fn block(&self) -> &[u8]
        ensures block { result.now ≡ self.now.block }
        ensures size { length result.now ≡ self.now.layout.block_size }
    {
        self.block.bytes()
    }

    /// Reads the copy at a position of the lap, unescaped. The tags found last stay.
    ///
    /// # Errors
    ///
    /// `Device`: the read failed, and the block is unspecified.
    pub fn read_copy<D: Device>(
        &mut self,
        device: &mut D,
        log: &Log,
        position: u64,
        escaped: bool,
    ) -> Result<(), JournalError>
        requires layout { self.old.layout ≡ layout_of log.now }
        requires accepted { IsAccepted (D.state device.old).shape.block_size (D.state device.old).shape.log_blocks log.now }
        ensures layout { self.new.layout ≡ self.old.layout }
        ensures copy { OnOk result (D.honest device.new → self.new.block ≡ unescaped escaped (log_block (reading (D.state device.old).disk) (place_from (ring_of log.now) log.now.s_start position))) }
        ensures tags { self.new.tags ≡ self.old.tags }
        ensures numbers { self.new.numbers ≡ self.old.numbers }
        ensures faults { MatchResult result (λ _. (D.state device.new).faults ≡ (D.state device.old).faults) (IsDeviceFailure (D.state device.old) (D.state device.new)) }
        ensures calls { CountsCall (D.state device.old) (D.state device.new) }
        ensures device { OnlyReads D.state D.honest device.old device.new }
    {
        self.block.read(device, Area::Log, log.place(position))?;
        self.block.unescape(escaped);
        Ok(())
    }

    /// Reads the block at a log place, and answers its header's sequence; `None` without the magic. Tags and numbers found
    /// last stay.
    ///
    /// # Errors
    ///
    /// `Device`: the read failed, and the block is unspecified.
    pub fn sequence_at<D: Device>(
        &mut self,
        device: &mut D,
        place: u64,
    ) -> Result<Option<u32>, JournalError>
        requires size { self.old.layout.block_size ≡ (D.state device.old).shape.block_size }
        requires there { place < (D.state device.old).shape.log_blocks }
        ensures layout { self.new.layout ≡ self.old.layout }
        ensures sequence { IfOk result (λ found. D.honest device.new → IsSequenceOf (log_block (reading (D.state device.old).disk) place) found) }
        ensures tags { self.new.tags ≡ self.old.tags }
        ensures numbers { self.new.numbers ≡ self.old.numbers }
        ensures faults { MatchResult result (λ _. (D.state device.new).faults ≡ (D.state device.old).faults) (IsDeviceFailure (D.state device.old) (D.state device.new)) }
        ensures device { OnlyReads D.state D.honest device.old device.new }
    {
        self.block.read(device, Area::Log, place)?;
        Ok(Header::read(self.block.bytes()).map(|header| header.sequence))
    }

    /// Reads the block at a position of the lap, and says what it is to the transaction `sequence`. A descriptor or revoke
    /// block that names a block at or above a known `home_blocks` is malformed.
    ///
    /// # Errors
    ///
    /// `Device`: the read failed, and the buffers are unspecified.
    pub fn look<D: Device>(
        &mut self,
        device: &mut D,
        log: &Log,
        home_blocks: Option<u64>,
        position: u64,
        sequence: u64,
    ) -> Result<Found, JournalError>
        requires layout { self.old.layout ≡ layout_of log.now }
        requires accepted { IsAccepted (D.state device.old).shape.block_size (D.state device.old).shape.log_blocks log.now }
        ensures layout { self.new.layout ≡ self.old.layout }
        ensures fits { IfOk result (Fits (limit_of log.now home_blocks) (ring_of log.now).blocks position self.new) }
        ensures found { IfOk result (λ found. D.honest device.new → IsFound (layout_of log.now) (limit_of log.now home_blocks) sequence (blocks_from log.now (reading (D.state device.old).disk) position) self.new found) }
        ensures faults { MatchResult result (λ _. (D.state device.new).faults ≡ (D.state device.old).faults) (IsDeviceFailure (D.state device.old) (D.state device.new)) }
        ensures calls { IfOk result (λ found. MakesCalls (reads_of found) (D.state device.old) (D.state device.new)) }
        ensures device { OnlyReads D.state D.honest device.old device.new }
    {
        if position >= log.blocks() {
            return Ok(Found::Nothing);
        }
        self.block.read(device, Area::Log, log.place(position))?;
        Ok(self.parse(home_blocks, sequence, log.blocks() - position - 1))
    }

    /// Finds the kind of the block, with `behind` blocks after it in the ring.
    fn parse(&mut self, home_blocks: Option<u64>, sequence: u64, behind: u64) -> Found
        ensures says { Says self.old.layout (count_of self.old.layout home_blocks) sequence behind self.old.block self.new result }
        ensures block { self.new.block ≡ self.old.block }
        ensures layout { self.new.layout ≡ self.old.layout }
    {
        let Some(header) = Header::read(self.block.bytes()) else {
            return Found::Nothing;
        };
        if u64::from(header.sequence) != sequence {
            return Found::Nothing;
        }
        match header.block_type {
            DESCRIPTOR_TYPE => self.parse_descriptor(home_blocks, behind),
            COMMIT_TYPE => Found::CommitBlock,
            REVOKE_TYPE => self.parse_revokes(home_blocks),
            _ => Found::Nothing,
        }
    }

    fn parse_descriptor(&mut self, home_blocks: Option<u64>, behind: u64) -> Found
        requires { HasHeader descriptor_type (sequence_in self.old.block) self.old.block }
        ensures says { Says self.old.layout (count_of self.old.layout home_blocks) (sequence_in self.old.block) behind self.old.block self.new result }
        ensures block { self.new.block ≡ self.old.block }
        ensures layout { self.new.layout ≡ self.old.layout }
    {
        match Descriptor::read(self.layout, self.block.bytes(), home_blocks, &mut self.tags) {
            Ok(tags) if tags as u64 <= behind => Found::Descriptor(tags),
            Ok(_) => Found::Nothing,
            Err(_) => Found::Malformed,
        }
    }

    fn parse_revokes(&mut self, home_blocks: Option<u64>) -> Found
        requires { HasHeader revoke_type (sequence_in self.old.block) self.old.block }
        ensures says { (behind : ℕ) → Says self.old.layout (count_of self.old.layout home_blocks) (sequence_in self.old.block) behind self.old.block self.new result }
        ensures block { self.new.block ≡ self.old.block }
        ensures layout { self.new.layout ≡ self.old.layout }
    {
        match RevokeBlock::read(
            self.layout,
            self.block.bytes(),
            home_blocks,
            &mut self.numbers,
        ) {
            Ok(numbers) => Found::RevokeBlock(numbers),
            Err(_) => Found::Malformed,
        }
    }
}
