//! The uncommitted blocks of a blob.
ghost use Rattle.std.specs.Prelude.{◌≡◌, ◌==◌, ◌≤◌, ◌++◌, ◌∷◌, [], ℕ, List, IsSome, false, IsTrue, IfOk, IfErr, OnOk, OnErr, MatchOption, None, length, map};
ghost use Rattle.std.specs.List.{list_all};
ghost use Rattle.std.specs.Option.{option_copied};
ghost use Rattle.std.specs.FinMap as finite;
ghost use Rattle.stamp_values.specs.Limits.{uncommitted_limit};
ghost use Rattle.stamp_types.specs.Changes.{is_in_one_piece, are_uncommitted, has_ids_of_one_length};
ghost use Rattle.stamp_types.specs.World.{uncommitted_entry, same_pieces};
ghost use Rattle.block_blobs.specs.Faults.{IsFault};
ghost use Rattle.block_blobs.specs.StoredRows.{listed_block, listed_blocks};
ghost use Rattle.block_blobs.specs.UncommittedBlocks as blocks;
ghost use Rattle.block_blobs.specs.UncommittedBlocks.{block_count, are_in_one_piece};

use crate::block_fault::BlockFault;
use crate::content_by_id::ContentById;
use stamp_types::{BlockId, Items, Pieces, UNCOMMITTED_LIMIT, UncommittedBlock};
use std::alloc::{AllocError, Global};
use std::collections::btree_map::{IntoIter, Iter};
use std::marker::Model;
use std::mem;

/// At most 50,000 blocks, each in one piece, under ids of one length. Contracts see the map from
/// the ids to the content.
#[derive(Drop)]
pub(crate) struct Uncommitted {
    blocks: ContentById,
    // how many bytes each id has, if there is a block
    id_len: usize,
}

impl Model for Uncommitted {
    ghost use Rattle.std.specs.Prelude.{◌≤◌, List, IsTrue};
    ghost use Rattle.std.specs.FinMap.{FinMap};
    ghost use Rattle.stamp_values.specs.Limits.{uncommitted_limit};
    ghost use Rattle.stamp_values.specs.Order.{name_cmp};
    ghost use Rattle.stamp_types.specs.declared.piece.Piece.{Piece};
    ghost use Rattle.stamp_types.specs.ContentCodes.{blocks_code};
    ghost use Rattle.block_blobs.specs.UncommittedBlocks.{block_count, are_in_one_piece, have_ids_of_length};

    ghost Value = { FinMap name_cmp (List Piece) };

    ghost coded = { blocks_code };

    ghost view = { λ u. u.blocks };

    ghost invariant = { λ u. (block_count u.blocks ≤ uncommitted_limit)
        × IsTrue (are_in_one_piece u.blocks) × IsTrue (have_ids_of_length u.id_len u.blocks) };
}

// How many bytes each id has, if the ids have one length. 0 if there is no block.
#[tactic(auto, using(crate::proofs::StoredBlocks::each_as_long_as_first))]
fn id_len_of(blocks: &[UncommittedBlock]) -> usize
    requires { IsTrue (has_ids_of_one_length blocks.now) }
    ensures { IsTrue (list_all (λ block. length block.id == result) blocks.now) }
{
    match blocks.first() {
        Some(block) => block.id.as_slice().len(),
        None => 0,
    }
}

// The blocks by their ids, from the last block to the first. The ids and the content move.
fn tree_of(alloc: Global, blocks: Vec<UncommittedBlock>) -> Result<ContentById, AllocError>
    ensures { IfOk result (λ tree. tree
        ≡ finite.from_entries (map (uncommitted_entry same_pieces) blocks.items)) }
{
    let mut left = blocks;
    let mut tree = ContentById::new(alloc);
    while let Some(block) = left.pop() {
        tree.insert(block.id, block.content)?;
    }
    Ok(tree)
}

// Puts a copy of a block after the blocks. The content has one more owner.
fn push_copy(
    blocks: &mut Vec<UncommittedBlock>,
    id: &BlockId,
    content: &Pieces,
) -> Result<(), AllocError>
    ensures { OnOk result (blocks.new.items
        ≡ blocks.old.items ++ listed_block (id.now, content.now) ∷ []) }
{
    let id = id.clone()?;
    let content = match content.clone() {
        Ok(content) => content,
        Err(fault) => {
            drop(id);
            return Err(fault);
        }
    };
    blocks.push(UncommittedBlock { id, content })?;
    Ok(())
}

// Copies of the blocks in the order of their ids. The content is shared.
fn copied(alloc: Global, blocks: &ContentById) -> Result<Vec<UncommittedBlock>, AllocError>
    ensures { IfOk result (λ copies. copies.items ≡ listed_blocks blocks.now) }
{
    let mut later = blocks.iter();
    let mut copies = Vec::with_capacity(alloc, blocks.len())?;
    while let Some((id, content)) = later.next() {
        push_copy(&mut copies, id, content)?;
    }
    Ok(copies)
}

impl Uncommitted {
    /// No blocks. Takes no memory.
    pub(crate) fn new(alloc: Global) -> Self
        ensures { result ≡ finite.empty }
    {
        Self {
            blocks: ContentById::new(alloc),
            id_len: 0,
        }
    }

    /// The blocks of the row of a checkpoint. The ids and the content move.
    ///
    /// `AllocError` if memory runs out for the tree.
    pub(crate) fn stored(alloc: Global, blocks: Items<UncommittedBlock>) -> Result<Self, AllocError>
        requires { IsTrue (are_uncommitted blocks) }
        ensures { IfOk result (λ stored. stored
            ≡ finite.from_entries (map (uncommitted_entry same_pieces) blocks)) }
    {
        let id_len = id_len_of(blocks.as_slice());
        Ok(Self {
            blocks: tree_of(alloc, blocks.into_vec())?,
            id_len,
        })
    }

    pub(crate) fn len(&self) -> usize
        ensures count { result ≡ block_count self.now }
        ensures bound { result ≤ uncommitted_limit }
    {
        let _id_len = self.id_len;
        self.blocks.len()
    }

    /// The content of the block of an id.
    pub(crate) fn get(&self, id: &BlockId) -> Option<&Pieces>
        ensures { option_copied result ≡ finite.get self.now id.now }
    {
        self.blocks.get(id)
    }

    /// Says that each block is in one piece, and that the ids have one length.
    pub(crate) fn keeps_limits(&self)
        ensures pieces { IsTrue (are_in_one_piece self.now) }
        ensures lengths { (id : List ℕ) → IsSome (finite.get self.now id)
            → blocks.has_other_length id self.now ≡ false }
    {
        let _id_len = self.id_len;
    }

    /// The ids with their content, in the order of the ids.
    pub(crate) fn iter(&self) -> Iter<'_, BlockId, Pieces>
        ensures { result ≡ finite.entries self.now }
    {
        self.blocks.iter()
    }

    /// Copies of the blocks in the order of their ids, as the row of a checkpoint has them. The
    /// content is shared.
    ///
    /// `AllocError` if memory runs out, or if the content of a block can have no further owner.
    #[tactic(auto, using(crate::proofs::RowLemmas::good_blocks))]
    pub(crate) fn listed(&self, alloc: Global) -> Result<Items<UncommittedBlock>, AllocError>
        ensures value { IfOk result (λ blocks. blocks ≡ listed_blocks self.now) }
        ensures valid { IfOk result (λ blocks. IsTrue (are_uncommitted blocks)) }
    {
        let _id_len = self.id_len;
        Ok(Items::new(copied(alloc, &self.blocks)?))
    }

    /// Takes the blocks, in the order of their ids. No block stays. Takes no memory.
    pub(crate) fn take(&mut self, alloc: Global) -> IntoIter<BlockId, Pieces>
        ensures blocks { result ≡ finite.entries self.old }
        ensures left { self.new ≡ finite.empty }
    {
        let Self { blocks, .. } = mem::replace(self, Self::new(alloc));
        blocks.into_iter()
    }

    // Whether the blocks have ids of another length than this id.
    fn has_other_length(&self, id: &BlockId) -> bool
        ensures { result ≡ blocks.has_other_length id.now self.now }
    {
        self.blocks.len() > 0 && id.as_slice().len() != self.id_len
    }

    // Whether the id is new, and there is no room for one more block.
    fn is_one_too_many(&self, id: &BlockId) -> bool
        ensures { result ≡ blocks.is_one_too_many id.now self.now }
    {
        self.blocks.len() >= UNCOMMITTED_LIMIT && self.blocks.get(id).is_none()
    }

    /// Why no block can be put under this id, if no block can be put under it.
    pub(crate) fn fault(&self, id: &BlockId) -> Option<BlockFault>
        ensures { result ≡ blocks.block_fault id.now self.now }
    {
        if self.has_other_length(id) {
            return Some(BlockFault::Length);
        }
        if self.is_one_too_many(id) {
            return Some(BlockFault::TooMany);
        }
        None
    }

    // Replaces the content of the block of an id. If the id has no block, the new content is given
    // back.
    fn replace(&mut self, id: &BlockId, content: Pieces) -> Option<Pieces>
        requires fits { blocks.block_fault id.now self.old ≡ None }
        requires piece { IsTrue (is_in_one_piece content) }
        ensures { MatchOption result (self.new ≡ finite.insert self.old id.now content)
            (λ back. (back ≡ content) × (self.new ≡ self.old)) }
    {
        self.blocks.replace(id, content)
    }

    // Puts a block for which there is room, and whose id has the length of the other ids.
    fn insert(&mut self, id: BlockId, content: Pieces) -> Result<(), AllocError>
        requires fits { blocks.block_fault id self.old ≡ None }
        requires piece { IsTrue (is_in_one_piece content) }
        ensures put { OnOk result (self.new ≡ finite.insert self.old id content) }
        ensures refused { OnErr result (self.new ≡ self.old) }
    {
        let len = id.as_slice().len();
        self.blocks.insert(id, content)?;
        self.id_len = len;
        Ok(())
    }

    /// Puts a block under an id. If the id has a block, the new content replaces the old content, and
    /// the id is not copied.
    pub(crate) fn put(&mut self, id: &BlockId, content: Pieces) -> Result<(), BlockFault>
        requires { IsTrue (is_in_one_piece content) }
        ensures put { OnOk result (self.new ≡ finite.insert self.old id.now content) }
        ensures refused { OnErr result (self.new ≡ self.old) }
        ensures fits { OnOk result (blocks.block_fault id.now self.old ≡ None) }
        ensures fault { IfErr result (IsFault (blocks.block_fault id.now self.old)) }
    {
        if let Some(fault) = self.fault(id) {
            return Err(fault);
        }
        if let Some(content) = self.replace(id, content) {
            self.insert(id.clone()?, content)?;
        }
        Ok(())
    }
}
