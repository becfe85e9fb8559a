//! The content of a block list: what was found for its entries.
ghost use Rattle.std.specs.Prelude.{◌≡◌, ◌<◌, ◌≤◌, IfOk, IfErr, OnOk, MatchOption, None};
ghost use Rattle.stamp_values.specs.Limits.{blob_limit};
ghost use Rattle.stamp_types.specs.Changes.{blocks_len};
ghost use Rattle.block_blobs.specs.BlockLists as lists;
ghost use Rattle.block_blobs.specs.Faults.{IsFault};
ghost use Rattle.block_blobs.specs.FoundBlocks as found;

use crate::block_fault::BlockFault;
use crate::block_room::BlockRoom;
use stamp_types::{BLOB_LIMIT, Block, ENTRIES_LIMIT, Items, Pieces};
use std::alloc::{AllocError, Global};

/// Where the blocks of a block list are.
#[derive(Drop)]
pub enum ListContent {
    /// The list takes all uncommitted blocks, in the order of their ids. They are in the blob, and a
    /// commit moves them into this room.
    AllUncommitted(BlockRoom),
    /// These blocks, in the order of the list and without their ids. Their content is shared with the
    /// blob.
    Blocks(Items<Block<Pieces>>),
}

/// What was found for the entries of a block list. A commit makes it the content.
#[derive(Drop)]
pub struct FoundBlocks {
    pub content: ListContent,
    /// How many bytes the blocks have together.
    pub len: u64,
}

/// How many bytes the blocks have together, or `None` if they have more than 268,435,456 bytes.
pub(crate) fn total_len(blocks: &[Block<Pieces>]) -> Option<u64>
    ensures { MatchOption result (blob_limit < blocks_len blocks.now)
        (λ n. (n ≡ blocks_len blocks.now) × (n ≤ blob_limit)) }
{
    let mut left = BLOB_LIMIT;
    for block in blocks {
        let len = block.content.len();
        if len > left {
            return None;
        }
        left -= len;
    }
    Some(BLOB_LIMIT - left)
}

impl FoundBlocks {
    /// No blocks. Takes no memory.
    pub fn nothing(alloc: Global) -> Self
        ensures { result ≡ found.nothing_found }
    {
        Self {
            content: ListContent::Blocks(Items::new(Vec::new(alloc))),
            len: 0,
        }
    }

    /// All uncommitted blocks, which are so many and have so many bytes together.
    ///
    /// `AllocError` if memory runs out for the room of the list.
    pub(crate) fn all(alloc: Global, count: usize, len: u64) -> Result<Self, AllocError>
        ensures { IfOk result (λ made. made ≡ found.all_uncommitted count len) }
    {
        Ok(Self {
            content: ListContent::AllUncommitted(BlockRoom::new(alloc, count)?),
            len,
        })
    }

    /// These blocks, for a list of so many entries. `TooMany` for more than 50,000 entries, or else
    /// `TooLarge` if the blocks have more than 268,435,456 bytes together.
    pub(crate) fn new(blocks: Vec<Block<Pieces>>, count: usize) -> Result<Self, BlockFault>
        ensures value { IfOk result (λ made. made ≡ found.these_blocks blocks.items) }
        ensures fits { OnOk result (lists.list_fault None count (blocks_len blocks.items) ≡ None) }
        ensures fault { IfErr result
            (IsFault (lists.list_fault None count (blocks_len blocks.items))) }
    {
        if count > ENTRIES_LIMIT {
            return Err(BlockFault::TooMany);
        }
        match total_len(&blocks) {
            Some(len) => Ok(Self {
                content: ListContent::Blocks(Items::new(blocks)),
                len,
            }),
            None => Err(BlockFault::TooLarge),
        }
    }
}
