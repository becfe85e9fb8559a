//! What resolving a list of wanted blocks gives.

use crate::found_blocks::FoundBlocks;
use stamp_types::{BlockSource, Items};

/// Where the blocks of a list of wanted blocks are found, and the blocks themselves.
#[derive(Drop)]
pub struct Resolved {
    /// The source of each block, in the order of the list.
    pub sources: Items<BlockSource>,
    /// The blocks, for the commit of the list.
    pub blocks: FoundBlocks,
}
