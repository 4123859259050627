//! Why bytes gave no block.
ghost use Rattle.std.specs.Prelude.{◌≡◌};

use lsm_bytes::NoMemory;
use std::alloc::{AllocError, AllocFailed};

/// Why bytes gave no block.
#[derive(Clone, Copy, Debug, PartialEq, Eq)]
pub enum BlockError {
    /// The bytes aren't the contents of a block. They begin with entries up to `place`, counted from the contents'
    /// start; there stands neither an entry that could follow those, nor the restarts that would end the block.
    Malformed { place: usize },
    /// Memory was wanted and not there.
    NoMemory,
}

impl From<NoMemory> for BlockError {
    ghost use Rattle.lsm_block.specs.declared.errors.BlockError.TheVariants.{NoMemory};

    ghost from_gives = { λ _ r. r ≡ NoMemory };

    fn from(_: NoMemory) -> Self {
        BlockError::NoMemory
    }
}
