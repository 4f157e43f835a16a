//! Rows of openings of drawn logs: well formed, damaged, and with any superblock.
use crate::RowError;
use crate::logs::log_of;
use crate::openings::drawing::{Draws, RandomLog};
use crate::openings::opening::told_of;
use crate::openings::tally::AnswerTally;
use crate::words::{split_width, values};
use std::alloc::Global;

/// The name of an answer: the number and name of a refusal without a place, else the first word.
fn name_of(answer: &str) -> &str {
    let words = if answer.starts_with("refusal") { 3 } else { 1 };
    match answer.match_indices(' ').nth(words - 1) {
        Some((end, _)) => answer.get(..end).unwrap_or(answer),
        None => answer,
    }
}

fn open_one(
    alloc: Global,
    draws: &mut Draws,
    wide: bool,
    tally: &mut AnswerTally,
) -> Result<(), RowError> {
    let spelled = RandomLog::draw(alloc, draws, wide)?.text(alloc)?;
    let told = told_of(alloc, &log_of(alloc, spelled.as_str())?)?;
    Ok(tally.add(alloc, &told, name_of(told.answer.as_str()))?)
}

/// Openings of random logs. Given: `seed=N images=N`, and `wide` for block numbers of 64 bits. Found: the number of images, the writes of
/// their openings, how often each answer comes, without places, and a digest of the answers, writes and home blocks of each image's
/// opening and of a second one.
pub fn random_logs(alloc: Global, given: &str) -> Result<String, RowError> {
    let (given, wide) = split_width(given);
    let [seed, images] = values::<2>(given, "seed images")?;
    let mut draws = Draws::new(seed);
    let mut tally = AnswerTally::new(alloc);
    for _ in 0..images {
        open_one(alloc, &mut draws, wide, &mut tally)?;
    }
    tally.text(alloc)
}
