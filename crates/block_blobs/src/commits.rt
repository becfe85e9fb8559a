//! What a commit makes of a block list: the blocks that were found get their ids and become the content.
ghost use Rattle.std.specs.Prelude.{◌≡◌, IsTrue, None};
ghost use Rattle.stamp_types.specs.Changes.{are_blocks, blocks_len};
ghost use Rattle.stamp_types.specs.World.{taken_blocks};
ghost use Rattle.block_blobs.specs.BlobChanges.{blob_of_list};
ghost use Rattle.block_blobs.specs.BlockLists as lists;
ghost use Rattle.block_blobs.specs.FoundBlocks.{AreBlocksOf};

use crate::blob_row::BlobRow;
use crate::found_blocks::{FoundBlocks, ListContent};
use stamp_types::{Block, BlockId, Committed, Items, Pieces, PutBlockList, Taken};
use std::alloc::Global;

// Gives the block at this place the id, if there is a block.
fn name(blocks: &mut Vec<Block<Pieces>>, place: usize, id: BlockId)
    ensures { blocks.new.items ≡ lists.named_at place id blocks.old.items }
{
    if let Some(block) = blocks.get_mut(place) {
        block.id = Some(id);
    }
}

// The blocks with the ids of the entries, the first block with the first id. The ids move.
fn named(entries: Vec<Taken>, blocks: Vec<Block<Pieces>>) -> Vec<Block<Pieces>>
    ensures { result.items ≡ lists.named_blocks entries.items blocks.items }
{
    let mut left = entries;
    let mut blocks = blocks;
    while let Some(entry) = left.pop() {
        name(&mut blocks, left.len(), entry.id);
    }
    blocks
}

impl BlobRow {
    // The blocks that a list of these entries takes, with how many bytes they have together. The ids
    // and the content move. If the list takes all uncommitted blocks, none of them stays.
    #[tactic(auto, using(crate::proofs::CommitLemmas::named_are_taken, crate::proofs::CommitLemmas::taken_are_blocks, crate::proofs::CommitLemmas::room_for_all, crate::proofs::CommitLemmas::moved_are_taken))]
    fn taken(
        &mut self,
        alloc: Global,
        entries: Vec<Taken>,
        found: FoundBlocks,
    ) -> (Vec<Block<Pieces>>, u64)
        requires fits { lists.taken_fault self.old entries.items ≡ None }
        requires found { AreBlocksOf self.old entries.items found }
        ensures value { result.0.items ≡ taken_blocks self.old entries.items }
        ensures len { result.1 ≡ blocks_len result.0.items }
        ensures valid { IsTrue (are_blocks result.0.items) }
    {
        self.keeps_pieces();
        let FoundBlocks { content, len } = found;
        match content {
            ListContent::AllUncommitted(room) => {
                drop(entries);
                (room.filled(self.take_uncommitted(alloc)), len)
            }
            ListContent::Blocks(blocks) => (named(entries, blocks.into_vec()), len),
        }
    }

    /// Makes the blocks of a list the content, in their order, with kept headers and metadata of the
    /// Put Block List and `count` as the ETag. Nothing of the old committed part stays, and no
    /// uncommitted block. No block is looked up, no byte of content is copied, and no id. Takes no
    /// memory.
    ///
    /// `found` is what `resolve` or `listed` found for the entries of the list in this blob.
    pub fn commit(&mut self, alloc: Global, list: PutBlockList, found: FoundBlocks, count: u64)
        requires fits { lists.taken_fault self.old list.entries ≡ None }
        requires found { AreBlocksOf self.old list.entries found }
        ensures { self.new ≡ blob_of_list count list self.old }
    {
        let PutBlockList {
            blob: _,
            moment,
            props,
            metadata,
            entries,
        } = list;
        let (blocks, len) = self.taken(alloc, entries.into_vec(), found);
        let committed = Committed {
            etag: count,
            made: moment,
            props,
            metadata,
            blocks: Items::new(blocks),
        };
        self.write(committed, len);
        self.drop_uncommitted(alloc);
    }
}
