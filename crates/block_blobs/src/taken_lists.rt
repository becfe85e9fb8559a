//! Lists whose entries say where their blocks are, as a log has them.
ghost use Rattle.std.specs.Prelude.{◌≡◌, IfOk, IfErr, OnOk, None};
ghost use Rattle.std.specs.Option.{option_map};
ghost use Rattle.block_blobs.specs.BlockLists as lists;
ghost use Rattle.block_blobs.specs.Faults.{IsFault};
ghost use Rattle.block_blobs.specs.FoundBlocks.{AreBlocksOf};

use crate::blob_row::BlobRow;
use crate::block_fault::BlockFault;
use crate::committed_blocks::CommittedBlocks;
use crate::found_blocks::FoundBlocks;
use crate::lookups::push_unnamed;
use crate::next_blocks::NextBlocks;
use stamp_types::{Block, Pieces, Taken};
use std::alloc::Global;

impl BlobRow {
    // The blocks of the entries, in their order, without their ids. `NotFound` with the position of
    // the first entry whose block is not found. The content of each block has one more owner.
    fn unnamed_blocks<'a>(
        &'a self,
        alloc: Global,
        entries: &'a [Taken],
    ) -> Result<Vec<Block<Pieces>>, BlockFault>
        ensures value { IfOk result (λ blocks.
            blocks.items ≡ lists.unnamed_blocks self.now entries.now) }
        ensures all { OnOk result (lists.first_absent self.now entries.now ≡ None) }
        ensures missing { IfErr result
            (IsFault (option_map BlockFault.NotFound (lists.first_absent self.now entries.now))) }
    {
        let mut committed = CommittedBlocks::new(self.committed_blocks());
        let mut next = NextBlocks::new(self.uncommitted_blocks());
        let mut blocks = Vec::with_capacity(alloc, entries.len())?;
        for (i, entry) in entries.iter().enumerate() {
            let content = self.content(alloc, &mut committed, &mut next, entry.from, &entry.id)?;
            let Some(content) = content else {
                return Err(BlockFault::NotFound(i));
            };
            push_unnamed(&mut blocks, content)?;
        }
        Ok(blocks)
    }

    /// The blocks of a list of these entries, as `commit` takes them ("Put Block List"). The content
    /// of each block has one more owner.
    ///
    /// `NotFound` with the position of the first entry whose block is not where the entry says, or else
    /// `TooMany` for more than 50,000 entries, or else `TooLarge` if the blocks, each as often as it is
    /// listed, have more than 268,435,456 bytes together. `NoMemory` if memory runs out, or if content
    /// can have no further owner.
    #[tactic(auto, using(crate::proofs::ListFaults::unnamed_len, crate::proofs::ListFaults::each_listed))]
    pub fn listed(&self, alloc: Global, entries: &[Taken]) -> Result<FoundBlocks, BlockFault>
        ensures value { IfOk result (λ found. AreBlocksOf self.now entries.now found) }
        ensures fits { OnOk result (lists.taken_fault self.now entries.now ≡ None) }
        ensures fault { IfErr result (IsFault (lists.taken_fault self.now entries.now)) }
    {
        let blocks = self.unnamed_blocks(alloc, entries)?;
        let found = FoundBlocks::new(blocks, entries.len())?;
        Ok(found)
    }
}
