//! Look-ups of blocks by their ids, among the uncommitted or the committed blocks of a blob.
ghost use Rattle.std.specs.Prelude.{◌≡◌, ◌++◌, ◌∷◌, [], IfOk, OnOk};
ghost use Rattle.std.specs.Option.{option_copied};
ghost use Rattle.stamp_types.specs.World.{content_from, whole_block};
ghost use Rattle.block_blobs.specs.BlockLists.{EachInOnePiece};
ghost use Rattle.block_blobs.specs.FirstBlocks.{blocks_of};

use crate::blob_row::BlobRow;
use crate::committed_blocks::CommittedBlocks;
use crate::next_blocks::NextBlocks;
use stamp_types::{Block, BlockId, BlockSource, Pieces};
use std::alloc::{AllocError, Global};

/// Puts a block without an id after the blocks. Its content has one more owner.
pub(crate) fn push_unnamed(
    blocks: &mut Vec<Block<Pieces>>,
    content: &Pieces,
) -> Result<(), AllocError>
    ensures { OnOk result (blocks.new.items
        ≡ blocks.old.items ++ whole_block content.now ∷ []) }
{
    let content = content.clone()?;
    blocks.push(Block { id: None, content })?;
    Ok(())
}

impl BlobRow {
    /// The committed blocks, or no blocks if there is no committed part.
    pub(crate) fn committed_blocks(&self) -> &[Block<Pieces>]
        ensures { result.now ≡ blocks_of self.now.committed }
    {
        match self.committed() {
            Some(committed) => committed.blocks.as_slice(),
            None => &[],
        }
    }

    /// Says that each block that a list may take is in one piece.
    pub(crate) fn keeps_pieces(&self)
        ensures { EachInOnePiece self.now }
    {
        self.uncommitted_blocks().keeps_limits();
        let _committed = self.committed();
    }

    /// The content of the block of an id, if there is one in the source.
    #[tactic(auto, using(crate::proofs::FirstContents::in_blocks))]
    pub(crate) fn content<'a>(
        &'a self,
        alloc: Global,
        committed: &mut CommittedBlocks<'a>,
        next: &mut NextBlocks<'a>,
        from: BlockSource,
        id: &'a BlockId,
    ) -> Result<Option<&'a Pieces>, AllocError>
        requires committed { committed.old ≡ blocks_of self.now.committed }
        requires uncommitted { next.old ≡ self.now.uncommitted }
        ensures content { IfOk result (λ content.
            option_copied content ≡ content_from from id.now self.now) }
        ensures same_committed { committed.new ≡ committed.old }
        ensures same { next.new ≡ next.old }
    {
        match from {
            BlockSource::Uncommitted => Ok(next.content(id)),
            BlockSource::Committed => committed.content(alloc, id),
        }
    }
}
