//! What openings of many images answer and leave.
use crate::RowError;
use crate::openings::told::ReopeningResult;
use sha2::{Digest, Sha256};
use std::alloc::{AllocError, Global};
use std::fmt::Write;

/// How many images had each answer, in the order of the first; and a digest of the whole results.
#[derive(Drop)]
pub struct AnswerTally {
    images: u64,
    writes: u64,
    answers: Vec<(String, u64)>,
    results: Sha256,
}

impl AnswerTally {
    /// No image.
    pub fn new(alloc: Global) -> AnswerTally {
        AnswerTally {
            images: 0,
            writes: 0,
            answers: Vec::new(alloc),
            results: Sha256::new(),
        }
    }

    /// Adds an image with this result, whose answer is counted under this name.
    pub fn add(
        &mut self,
        alloc: Global,
        told: &ReopeningResult,
        name: &str,
    ) -> Result<(), AllocError> {
        self.images = self.images.saturating_add(1);
        self.writes = self.writes.saturating_add(told.writes);
        let mut result = String::new(alloc);
        told.add_to(&mut result)?;
        self.results.update(result.as_bytes());
        self.count(alloc, name)
    }

    fn count(&mut self, alloc: Global, name: &str) -> Result<(), AllocError> {
        for (other, count) in self.answers.iter_mut() {
            if other.as_str() == name {
                *count = count.saturating_add(1);
                return Ok(());
            }
        }
        Ok(self.answers.push((String::from_str(alloc, name)?, 1))?)
    }

    /// The result of a row that went through these images.
    pub fn text(self, alloc: Global) -> Result<String, RowError> {
        let AnswerTally {
            images,
            writes,
            answers,
            results,
        } = self;
        let mut all = format!(in alloc; "{images} images, writes {writes}\n")?;
        for (answer, count) in &answers {
            writeln!(all, "{count} {answer}")?;
        }
        all.push_str("sha256 ")?;
        all.push_str(hex::encode(alloc, &results.finalize())?.as_str())?;
        Ok(all)
    }
}
