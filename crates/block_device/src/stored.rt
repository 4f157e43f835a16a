//! The bytes of a written block; zeros take no memory.
ghost use Rattle.std.specs.Prelude.{◌≡◌, ◌↔◌, IfOk, IsTrue, length, replicate};

use journal_model::Block;
use std::alloc::{AllocError, Global};
use std::marker::Model;

/// Contracts see the list of bytes.
#[derive(Drop)]
pub struct StoredBlock {
    form: Form,
}

#[derive(Drop)]
enum Form {
    /// So many zeros.
    Zeros(usize),
    Bytes(Block),
}

impl Model for StoredBlock {
    ghost use Rattle.std.specs.Prelude.{List, ℕ};

    ghost Value = { List ℕ };

    ghost use Rattle.block_device.specs.Stored.{bytes_of};

    ghost view = { λ b. bytes_of b.form };
}

impl StoredBlock {
    /// A copy of these bytes. It fails if memory runs out; zeros take none.
    pub(crate) fn copy_of(alloc: Global, bytes: &[u8]) -> Result<Self, AllocError>
        ensures { IfOk result (λ stored. stored ≡ bytes.now) }
    {
        let form = if are_zeros(bytes) {
            Form::Zeros(bytes.len())
        } else {
            Form::Bytes(Block::copy_of(alloc, bytes)?)
        };
        Ok(StoredBlock { form })
    }

    /// The same bytes, shared. It fails as `Block::try_clone` does.
    pub(crate) fn try_clone(&self) -> Result<Self, AllocError>
        ensures { IfOk result (λ copy. copy ≡ self.now) }
    {
        let form = match &self.form {
            Form::Zeros(size) => Form::Zeros(*size),
            Form::Bytes(block) => Form::Bytes(block.try_clone()?),
        };
        Ok(StoredBlock { form })
    }

    pub(crate) fn copy_to(&self, into: &mut [u8])
        requires { length into.old ≡ length self.now }
        ensures { into.new ≡ self.now }
    {
        match &self.form {
            Form::Zeros(_) => into.fill(0),
            Form::Bytes(block) => into.copy_from_slice(block.bytes()),
        }
    }
}

fn are_zeros(bytes: &[u8]) -> bool
    ensures { IsTrue result ↔ (bytes.now ≡ replicate (length bytes.now) 0) }
{
    bytes.iter().all(|byte| *byte == 0)
}
