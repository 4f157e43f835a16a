//! How the log blocks of a transaction are built, one at a time.
ghost use Rattle.std.specs.Prelude.{◌≡◌, ◌+◌, ◌^◌, ◌<◌, ◌≤◌, true, length, IfOk, All};
ghost use Rattle.log_model.specs.Descriptor.{descriptor_block};
ghost use Rattle.journal_model.specs.Layout.{Layout as LayoutOf, IsLayout, every_number, header_bytes, tags_of};
ghost use Rattle.journal_model.specs.Transaction.{copied, revoked};
ghost use Rattle.log_model.specs.OwnText.{own_text, tags_from};
ghost use Rattle.log_model.specs.Superblock.{with_tail};
ghost use Rattle.log_model.specs.Text.{text_blocks};
ghost use Rattle.log_format.specs.Size.{IsBlockSize};
ghost use Rattle.journal_world.specs.Engine.{block_at};
ghost use Rattle.log_ring.specs.Parts.{FitsPart, part_block};
ghost use Rattle.log_ledger.specs.Text.{IsLong, IsPlanOf, IsStored, IsWholeCopy, copies_at, is_escaped};

use crate::plan::LogPlan;
use journal_model::{Batch, BlockNo, Entry, LogLayout};
use log_format::{CommitBlock, Descriptor, Header, RevokeBlock, Super, escape};
use log_model::Tag;
use log_ring::{Layout, Part};
use std::alloc::{AllocError, Global};
use std::marker::Model;

/// Builds log blocks in a buffer of one block.
#[derive(Drop)]
pub struct TextWriter {
    block: Vec<u8>,
    tags: Vec<Tag>,
}

impl Model for TextWriter {
    ghost use Rattle.std.specs.Prelude.{List, ℕ, length};
    ghost use Rattle.log_ledger.specs.Text.{HasRoomFor};

    ghost Value = { List ℕ };

    ghost view = { λ w. w.block.items };

    ghost invariant = { λ w. HasRoomFor (length w.block.items) (length w.tags.items) };
}

/// The most tags of a descriptor of this block size, for either width of block numbers.
fn most_tags(layout: LogLayout) -> usize
    requires { IsLayout layout }
    ensures { (l : LayoutOf) → IsLayout l → layout.block_size ≡ l.block_size → tags_of l ≤ result }
{
    Layout::tags_of(LogLayout::narrow(layout.block_size)) as usize
}

impl TextWriter {
    /// A writer for logs of this layout.
    ///
    /// # Errors
    ///
    /// `AllocError`: memory ran out.
    pub fn new(alloc: Global, layout: LogLayout) -> Result<Self, AllocError>
        requires { IsLayout layout }
        ensures { IfOk result (λ w. length w ≡ layout.block_size) }
    {
        Ok(TextWriter {
            block: vec![in alloc; 0; layout.block_size]?,
            tags: vec![in alloc; Tag::UNUSED; most_tags(layout)]?,
        })
    }

    /// The block built last.
    pub fn bytes(&self) -> &[u8]
        ensures { result.now ≡ self.now }
    {
        &self.block
    }

    /// Builds block `k` of a transaction, counted from 0.
    pub(crate) fn write_block(
        &mut self,
        layout: LogLayout,
        uuid: &[u8; 16],
        batch: &Batch,
        plan: &LogPlan,
        k: u64,
    )
        requires taken { IsLayout layout }
        requires size { length self.old ≡ layout.block_size }
        requires plan { IsPlanOf batch.now.entries plan.now }
        requires whole { All (λ c. length c.1 ≡ layout.block_size) (copied batch.now.entries) }
        requires spelled { All (λ p. p.0 < every_number layout) batch.now.entries }
        requires few { length batch.now.entries ≤ 2 ^ 32 }
        requires there { k < length (text_blocks (own_text layout uuid.now batch.now.tid batch.now.entries)) }
        ensures block { self.new ≡ block_at (text_blocks (own_text layout uuid.now batch.now.tid batch.now.entries)) k }
        ensures size { length self.new ≡ length self.old }
    {
        write_log_block(
            layout,
            &mut self.block,
            &mut self.tags,
            uuid,
            batch.tid.0,
            batch.entries.as_slice(),
            plan,
            k,
        );
    }

    pub(crate) fn put(&mut self, bytes: &[u8])
        requires { length bytes.now ≡ length self.old }
        ensures block { self.new ≡ bytes.now }
        ensures size { length self.new ≡ length self.old }
    {
        self.block.copy_from_slice(bytes);
    }

    pub(crate) fn write_superblock(&mut self, superblock: &[u8], sequence: u32, start: u32)
        requires { length superblock.now ≡ length self.old }
        ensures block { self.new ≡ with_tail superblock.now sequence start }
        ensures size { length self.new ≡ length self.old }
    {
        self.block.copy_from_slice(superblock);
        Super::write(&mut self.block, sequence, start);
    }
}

fn write_log_block(
    layout: LogLayout,
    block: &mut [u8],
    tags: &mut [Tag],
    uuid: &[u8; 16],
    sequence: u32,
    entries: &[(BlockNo, Entry)],
    plan: &LogPlan,
    k: u64,
)
    requires taken { IsLayout layout }
    requires size { length block.old ≡ layout.block_size }
    requires room { tags_of layout ≤ length tags.old }
    requires plan { IsPlanOf entries.now plan.now }
    requires whole { All (λ c. length c.1 ≡ layout.block_size) (copied entries.now) }
    requires spelled { All (λ p. p.0 < every_number layout) entries.now }
    requires few { length entries.now ≤ 2 ^ 32 }
    requires there { k < length (text_blocks (own_text layout uuid.now sequence entries.now)) }
    ensures { block.new ≡ block_at (text_blocks (own_text layout uuid.now sequence entries.now)) k }
{
    let text = Layout::new(layout, plan.copies.len() as u64, plan.revokes.len() as u64);
    write_part(
        layout,
        block,
        tags,
        uuid,
        sequence,
        entries,
        plan,
        text.part(k),
    );
}

fn write_part(
    layout: LogLayout,
    block: &mut [u8],
    tags: &mut [Tag],
    uuid: &[u8; 16],
    sequence: u32,
    entries: &[(BlockNo, Entry)],
    plan: &LogPlan,
    part: Part,
)
    requires taken { IsLayout layout }
    requires size { length block.old ≡ layout.block_size }
    requires room { tags_of layout ≤ length tags.old }
    requires plan { IsPlanOf entries.now plan.now }
    requires whole { All (λ c. length c.1 ≡ layout.block_size) (copied entries.now) }
    requires spelled { All (λ p. p.0 < every_number layout) entries.now }
    requires part { FitsPart layout (length (copied entries.now)) (length (revoked entries.now)) part }
    ensures { block.new ≡ part_block layout uuid.now sequence entries.now part }
{
    match part {
        Part::Revokes { first, numbers } => {
            let first = first as usize;
            let group = &plan.revokes[first..first + numbers as usize];
            RevokeBlock::write(layout, block, sequence, group);
        }
        Part::Descriptor { first, tags: count } => {
            let first = first as usize;
            let group = &plan.copies[first..first + count as usize];
            write_descriptor(layout, block, tags, uuid, sequence, entries, group);
        }
        Part::Copy(k) => {
            let place = plan.copies[k as usize];
            write_copy(block, &entries[place].1);
        }
        Part::Commit => CommitBlock::write(block, sequence),
    }
}

fn write_descriptor(
    layout: LogLayout,
    block: &mut [u8],
    tags: &mut [Tag],
    uuid: &[u8; 16],
    sequence: u32,
    entries: &[(BlockNo, Entry)],
    places: &[usize],
)
    requires taken { IsLayout layout }
    requires size { length block.old ≡ layout.block_size }
    requires room { tags_of layout ≤ length tags.old }
    requires long { All (λ c. header_bytes ≤ length c.1) (copies_at entries.now places.now) }
    requires spelled { All (λ c. c.0 < every_number layout) (copies_at entries.now places.now) }
    requires few { length places.now ≤ tags_of layout }
    ensures { block.new ≡ descriptor_block layout uuid.now sequence (tags_from true (copies_at entries.now places.now)) }
{
    let tags = &mut tags[..places.len()];
    make_tags(tags, entries, places);
    Descriptor::write(layout, block, uuid, sequence, tags);
}

fn make_tags(tags: &mut [Tag], entries: &[(BlockNo, Entry)], places: &[usize])
    requires room { length tags.old ≡ length places.now }
    requires long { All (λ c. header_bytes ≤ length c.1) (copies_at entries.now places.now) }
    ensures { tags.new ≡ tags_from true (copies_at entries.now places.now) }
{
    for i in 0..places.len() {
        let place = places[i];
        tags[i] = Tag {
            block: entries[place].0,
            escaped: begins_with_magic(&entries[place].1),
            same_uuid: i > 0,
            last: i + 1 == places.len(),
        };
    }
}

fn begins_with_magic(entry: &Entry) -> bool
    requires { IsLong entry.now }
    ensures { result ≡ is_escaped entry.now }
{
    match entry {
        Entry::Copy(copy) => Header::read(copy.bytes()).is_some(),
        Entry::Revoke => false,
    }
}

fn write_copy(block: &mut [u8], entry: &Entry)
    requires size { IsBlockSize (length block.old) }
    requires copy { IsWholeCopy (length block.old) entry.now }
    ensures { IsStored entry.now block.new }
{
    if let Entry::Copy(copy) = entry {
        block.copy_from_slice(copy.bytes());
        escape(block);
    }
}
