//! Faults of blocks and of block lists.
ghost use Rattle.std.specs.Prelude.{◌≡◌};
ghost use Rattle.block_blobs.specs.declared.block_fault.BlockFault.TheVariants.{NoMemory};

use std::alloc::{AllocError, AllocFailed};
use thiserror::Error;

/// Why a block cannot be put, or why a block list cannot be resolved or committed.
#[derive(Clone, Copy, Debug, PartialEq, Eq, Error)]
pub enum BlockFault {
    /// The id is not 1 to 64 bytes. No call of this crate answers it: a `BlockId` is 1 to 64 bytes.
    #[error("an id is not good")]
    Id,
    /// The uncommitted blocks of the blob have ids of another length.
    #[error("the uncommitted blocks have ids of another length")]
    Length,
    /// The blob has 50,000 uncommitted blocks and the id is new, or a list has more than 50,000
    /// entries.
    #[error("too many blocks")]
    TooMany,
    /// The blocks of a list have more than 268,435,456 bytes together.
    #[error("the blocks of the list are too large together")]
    TooLarge,
    /// The block of the entry at this position, counted from 0, is not found.
    #[error("the block of entry {0} is not found")]
    NotFound(usize),
    /// Memory ran out, or content can have no further owner.
    #[error("out of memory")]
    NoMemory,
}

impl From<AllocError> for BlockFault {
    ghost from_gives = { λ _ fault. fault ≡ NoMemory };

    fn from(_error: AllocError) -> Self {
        BlockFault::NoMemory
    }
}

impl<T: Drop> From<AllocFailed<T>> for BlockFault {
    ghost from_gives = { λ _ fault. fault ≡ NoMemory };

    fn from(_error: AllocFailed<T>) -> Self {
        BlockFault::NoMemory
    }
}
