//! Committed blocks that are looked up by their ids.
ghost use Rattle.std.specs.Prelude.{◌≡◌, IfOk, find};
ghost use Rattle.std.specs.Option.{option_copied, option_map};
ghost use Rattle.stamp_types.specs.World.{has_block_id};

use crate::first_blocks::{FirstBlocks, first_blocks, first_content};
use stamp_types::{Block, BlockId, Pieces};
use std::alloc::{AllocError, Global};
use std::marker::Model;

/// The committed blocks of a blob, for look-ups by their ids. The index of the blocks is made when a
/// block is first asked for, so a list that asks for no committed block makes no index. Contracts see
/// the blocks.
#[derive(Drop)]
pub(crate) struct CommittedBlocks<'a> {
    blocks: &'a [Block<Pieces>],
    index: Option<FirstBlocks<'a>>,
}

impl<'a> Model for CommittedBlocks<'a> {
    ghost use Rattle.std.specs.Prelude.{IfSome, List, map};
    ghost use Rattle.std.specs.Coded.{coded_list};
    ghost use Rattle.std.specs.Map.Iter.{deref_pair};
    ghost use Rattle.stamp_types.specs.ContentCodes.{content_code};
    ghost use Rattle.stamp_types.specs.WorldCodes.{block_code};
    ghost use Rattle.stamp_types.specs.declared.committed.Block.{Block};
    ghost use Rattle.stamp_types.specs.declared.piece.Piece.{Piece};
    ghost use Rattle.block_blobs.specs.FirstBlocks.{IsIndex};

    ghost Value = { List (Block (List Piece)) };

    ghost coded = { coded_list (block_code content_code) };

    ghost view = { λ c. c.blocks.now };

    ghost invariant = { λ c. IfSome c.index (λ first.
        IsIndex c.blocks.now (map deref_pair first.entries)) };
}

impl<'a> CommittedBlocks<'a> {
    /// The blocks, without an index. Takes no memory.
    pub(crate) fn new(blocks: &'a [Block<Pieces>]) -> Self
        ensures { result ≡ blocks.now }
    {
        Self {
            blocks,
            index: None,
        }
    }

    /// The content of the first block of an id.
    ///
    /// `AllocError` if memory runs out for the index.
    #[tactic(auto, using(crate::proofs::FirstContents::find_first))]
    pub(crate) fn content(
        &mut self,
        alloc: Global,
        id: &'a BlockId,
    ) -> Result<Option<&'a Pieces>, AllocError>
        ensures content { IfOk result (λ content. option_copied content
            ≡ option_map (λ block. block.content) (find (has_block_id id.now) self.old)) }
        ensures same { self.new ≡ self.old }
    {
        if self.index.is_none() {
            self.index = Some(first_blocks(alloc, self.blocks)?);
        }
        match &self.index {
            Some(index) => Ok(first_content(index, id)),
            None => unreachable!("the index was made above"),
        }
    }
}
