//! Room for the blocks of a list.
ghost use Rattle.std.specs.Prelude.{◌≡◌, ◌≤◌, IfOk, length, map};
ghost use Rattle.block_blobs.specs.BlockLists.{block_of_entry};

use stamp_types::{Block, BlockId, Pieces};
use std::alloc::{AllocError, Global};
use std::collections::btree_map::IntoIter;
use std::marker::Model;

/// An empty list that has room for blocks. Contracts see for how many blocks it has room.
#[derive(Drop)]
pub struct BlockRoom {
    blocks: Vec<Block<Pieces>>,
}

impl Model for BlockRoom {
    ghost use Rattle.std.specs.Prelude.{◌≡◌, ℕ, [], vec_capacity};

    ghost Value = { ℕ };

    ghost view = { λ r. vec_capacity r.blocks };

    ghost invariant = { λ r. r.blocks.items ≡ [] };
}

impl BlockRoom {
    /// Room for so many blocks.
    ///
    /// `AllocError` if memory runs out.
    pub(crate) fn new(alloc: Global, count: usize) -> Result<Self, AllocError>
        ensures { IfOk result (λ room. room ≡ count) }
    {
        Ok(Self {
            blocks: Vec::with_capacity(alloc, count)?,
        })
    }

    /// The blocks, each with its id, in a list. They move into the room, so no memory is taken.
    pub(crate) fn filled(self, blocks: IntoIter<BlockId, Pieces>) -> Vec<Block<Pieces>>
        requires { length blocks ≤ self }
        ensures { result.items ≡ map block_of_entry blocks }
    {
        let mut later = blocks;
        let mut list = self.blocks;
        while let Some((id, content)) = later.next() {
            let id = Some(id);
            list.push_reserved(Block { id, content });
        }
        list
    }
}
