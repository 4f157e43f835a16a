//! Draws logs as texts, as `logs` spells them.
//!
//! A log has 17 to 33 blocks, and up to 15 home blocks. Its area has old copies, commit blocks and zeros. It has up to seven transactions
//! of up to three pieces each, as far as the ring has room. Then bytes of some blocks are changed, some rings get a block with a number
//! near the log's, and some superblocks a wrong field. A wide log has block numbers of 64 bits, and is drawn in the same way.
//! `models/openings.py` draws the same logs from the same seed.
ghost use Rattle.std.specs.Prelude.{◌<◌};

use rand_core::{Rng, SeedableRng};
use rand_xoshiro::SplitMix64;
use std::alloc::{AllocError, Global};
use std::fmt::Write;

/// Numbers from a seed, one after another.
#[derive(Drop)]
pub struct Draws {
    generator: SplitMix64,
}

impl Draws {
    /// The numbers of this seed.
    pub fn new(seed: u64) -> Draws {
        Draws {
            generator: SplitMix64::seed_from_u64(seed),
        }
    }

    fn below(&mut self, end: u64) -> u64
        requires { 0 < end }
        ensures { result < end }
    {
        self.generator.next_u64() % end
    }

    fn once_in(&mut self, times: u64) -> bool
        requires { 0 < times }
    {
        self.below(times) == 0
    }
}

#[derive(Clone, Copy)]
struct DrawnMeasures {
    /// The first block of the ring, and the one after its last.
    first: u64,
    maxlen: u64,
    /// Blocks of the log's area.
    area: u64,
    /// Blocks of home.
    home: u64,
    /// Where the log begins.
    start: u64,
    /// The number that it begins with.
    sequence: u64,
    /// Whether block numbers have 64 bits.
    wide: bool,
}

/// A drawn log.
#[derive(Drop)]
pub struct RandomLog {
    measures: DrawnMeasures,
    /// How many blocks of the ring were written, from the log's start on.
    used: u64,
    /// The words of each block.
    blocks: Vec<String>,
}

/// A log's first number: small, or near the end of the numbers.
fn draw_sequence(draws: &mut Draws) -> u64 {
    match draws.below(16) {
        0 => 0xffff_fffc + draws.below(4),
        1 => 0xffff_ffe8 + draws.below(8),
        _ => draws.below(100),
    }
}

impl DrawnMeasures {
    fn draw(draws: &mut Draws, wide: bool) -> DrawnMeasures {
        let maxlen = 17 + draws.below(17);
        let first = 1 + draws.below(maxlen - 16);
        let area = maxlen + draws.below(2);
        let home = 4 + draws.below(12);
        let start = first + draws.below((maxlen - first).max(1));
        let sequence = draw_sequence(draws);
        DrawnMeasures {
            first,
            maxlen,
            area,
            home,
            start,
            sequence,
            wide,
        }
    }

    /// The log's first number plus `more`, in four bytes; 0 follows the greatest.
    fn number(&self, more: u64) -> u64 {
        self.sequence.saturating_add(more) % 0x1_0000_0000
    }

    /// The place of a position, which counts ring blocks from the log's start.
    fn place(&self, position: u64) -> usize {
        let ring = self.maxlen.saturating_sub(self.first).max(1);
        let begin = self.start.saturating_sub(self.first);
        self.first
            .saturating_add(begin.saturating_add(position) % ring) as usize
    }
}

/// A copy: a few bytes at its front and one further on; zeros; or the beginning of a log block.
fn draw_copy(
    alloc: Global,
    draws: &mut Draws,
    measures: &DrawnMeasures,
) -> Result<String, AllocError> {
    match draws.below(40) {
        0 => format!(in alloc; "commit={}", measures.number(draws.below(3))),
        1..=3 => Ok(String::new(alloc)),
        4..=7 => format!(in alloc; "bytes=00000000{:02x}", draws.below(256)),
        _ => {
            let front = draws.below(65536);
            let place = if draws.once_in(8) {
                1023
            } else {
                2 + draws.below(14)
            };
            format!(in alloc; "bytes={front:04x} @{place}={:02x}", draws.below(256))
        }
    }
}

/// A block before the log is written; outside the ring its number may be a great one.
fn draw_old_block(
    alloc: Global,
    draws: &mut Draws,
    measures: &DrawnMeasures,
    place: u64,
) -> Result<String, AllocError> {
    match draws.below(6) {
        0 => draw_copy(alloc, draws, measures),
        1 if place < measures.first || measures.maxlen <= place => {
            String::from_str(alloc, "commit=0xffffffff")
        }
        1 => {
            let older = measures.sequence.saturating_sub(draws.below(4));
            format!(in alloc; "commit={older}")
        }
        _ => Ok(String::new(alloc)),
    }
}

fn draw_old_blocks(
    alloc: Global,
    draws: &mut Draws,
    measures: &DrawnMeasures,
) -> Result<Vec<String>, AllocError> {
    let mut blocks = Vec::new(alloc);
    for place in 0..measures.area {
        blocks.push(draw_old_block(alloc, draws, measures, place)?)?;
    }
    Ok(blocks)
}

/// No bit, all bits, one bit or any bits.
fn draw_byte(draws: &mut Draws) -> u64 {
    match draws.below(4) {
        0 => 0,
        1 => 0xff,
        2 => 1 << draws.below(8),
        _ => draws.below(256),
    }
}

/// A home block; sometimes home lacks it.
fn draw_home_block(draws: &mut Draws, measures: &DrawnMeasures) -> u64 {
    let block = draws.below(measures.home.max(1));
    if draws.once_in(64) {
        block.saturating_add(measures.home)
    } else {
        block
    }
}

fn draw_revoke_block(
    alloc: Global,
    draws: &mut Draws,
    measures: &DrawnMeasures,
    tid: u64,
) -> Result<String, AllocError> {
    let count = draws.below(4);
    let bytes = if measures.wide { 8 } else { 4 };
    let mut words = format!(in alloc; "revoke={tid} used={}", 16 + bytes * count)?;
    for _ in 0..count {
        write!(words, " {}", draw_home_block(draws, measures))?;
    }
    Ok(words)
}

fn add_tag(
    words: &mut String,
    draws: &mut Draws,
    measures: &DrawnMeasures,
    is_last: bool,
) -> Result<(), AllocError> {
    let block = draw_home_block(draws, measures);
    let escaped = u64::from(draws.once_in(4));
    let flags = if is_last { escaped + 8 } else { escaped };
    if draws.once_in(2) {
        write!(words, " {block}/{flags:04x} uuid")
    } else {
        write!(words, " {block}/{:04x}", flags + 2)
    }
}

fn draw_descriptor(
    alloc: Global,
    draws: &mut Draws,
    measures: &DrawnMeasures,
    tid: u64,
    count: u64,
) -> Result<String, AllocError> {
    let mut words = format!(in alloc; "descriptor={tid}")?;
    for i in 0..count {
        add_tag(&mut words, draws, measures, i + 1 == count)?;
    }
    Ok(words)
}

fn wrong_field(
    alloc: Global,
    draws: &mut Draws,
    measures: &DrawnMeasures,
) -> Result<String, AllocError> {
    let text = match draws.below(9) {
        0 => "@0=00",
        1 => "@4=00000003",
        2 => "s_blocksize=2048",
        3 => return format!(in alloc; "s_maxlen={}", measures.area.saturating_add(1)),
        4 => "s_first=0",
        5 => "s_feature_incompat=2",
        6 => "s_nr_users=2",
        7 => return format!(in alloc; "s_start={}", measures.maxlen),
        _ => "s_errno=5",
    };
    String::from_str(alloc, text)
}

fn draw_superblock(
    alloc: Global,
    draws: &mut Draws,
    measures: &DrawnMeasures,
    is_clean: bool,
) -> Result<String, AllocError> {
    let start = if is_clean { 0 } else { measures.start };
    let DrawnMeasures {
        first,
        maxlen,
        sequence,
        ..
    } = *measures;
    let mut words = format!(in alloc;
        "super s_maxlen={maxlen} s_first={first} s_sequence={sequence} s_start={start}"
    )?;
    if draws.once_in(8) {
        write!(words, " {}", wrong_field(alloc, draws, measures)?)?;
    }
    Ok(words)
}

impl RandomLog {
    /// The next log of these draws, with block numbers of 64 bits or 32.
    pub fn draw(alloc: Global, draws: &mut Draws, wide: bool) -> Result<RandomLog, AllocError> {
        let measures = DrawnMeasures::draw(draws, wide);
        let mut log = RandomLog {
            measures,
            used: 0,
            blocks: draw_old_blocks(alloc, draws, &measures)?,
        };
        let is_clean = draws.once_in(8);
        let transactions = if is_clean { 0 } else { draws.below(8) };
        for i in 0..transactions {
            log.write_transaction(alloc, draws, measures.number(i))?;
        }
        log.damage(alloc, draws)?;
        log.put(0, draw_superblock(alloc, draws, &measures, is_clean)?);
        Ok(log)
    }

    fn put(&mut self, place: usize, words: String) {
        if let Some(block) = self.blocks.get_mut(place) {
            *block = words;
        }
    }

    fn write(&mut self, words: String) {
        let measures = self.measures;
        let used = self.used;
        if used < measures.maxlen.saturating_sub(measures.first) {
            self.put(measures.place(used), words);
            self.used = used.saturating_add(1);
        }
    }

    /// Writes revoke blocks and copies, and mostly a commit block.
    fn write_transaction(
        &mut self,
        alloc: Global,
        draws: &mut Draws,
        tid: u64,
    ) -> Result<(), AllocError> {
        for _ in 0..draws.below(4) {
            self.write_piece(alloc, draws, tid)?;
        }
        if !draws.once_in(16) {
            self.write(format!(in alloc; "commit={tid}")?);
        }
        Ok(())
    }

    fn write_piece(
        &mut self,
        alloc: Global,
        draws: &mut Draws,
        tid: u64,
    ) -> Result<(), AllocError> {
        let measures = self.measures;
        if draws.once_in(3) {
            self.write(draw_revoke_block(alloc, draws, &measures, tid)?);
            return Ok(());
        }
        let count = 1 + draws.below(3);
        self.write(draw_descriptor(alloc, draws, &measures, tid, count)?);
        for _ in 0..count {
            self.write(draw_copy(alloc, draws, &measures)?);
        }
        Ok(())
    }

    /// Changes up to two bytes, and once in eight times puts a block with a number near the log's.
    fn damage(&mut self, alloc: Global, draws: &mut Draws) -> Result<(), AllocError> {
        let measures = self.measures;
        let bytes = draws.below(4).saturating_sub(1);
        for _ in 0..bytes {
            self.change_byte(draws)?;
        }
        if draws.once_in(8) {
            let place = measures.place(draws.below(measures.maxlen.max(1)));
            let number = measures.number(draws.below(12));
            self.put(place, format!(in alloc; "commit={number}")?);
        }
        Ok(())
    }

    /// Changes a byte at the front of a written block, or of one of the next two.
    fn change_byte(&mut self, draws: &mut Draws) -> Result<(), AllocError> {
        let (measures, used) = (self.measures, self.used);
        let place = measures.place(draws.below(used.saturating_add(2)));
        let at = draws.below(32);
        let byte = draw_byte(draws);
        match self.blocks.get_mut(place) {
            Some(words) => write!(words, " @{at}={byte:02x}"),
            None => Ok(()),
        }
    }

    /// The text of the log.
    pub fn text(&self, alloc: Global) -> Result<String, AllocError> {
        let DrawnMeasures {
            area,
            home,
            wide,
            ..
        } = self.measures;
        let width = if wide { " wide" } else { "" };
        let mut all = format!(in alloc; "device log={area} home={home}{width}")?;
        for (place, words) in self.blocks.iter().enumerate() {
            if !words.is_empty() {
                write!(all, "\n{place}: {words}")?;
            }
        }
        Ok(all)
    }
}
