//! The row of a blob in a box.
ghost use Rattle.std.specs.Prelude.{◌≡◌, IfOk, IsTrue, OnOk, OnErr, None};
ghost use Rattle.stamp_types.specs.Changes.{is_in_one_piece};
ghost use Rattle.stamp_types.specs.World.{no_blob};
ghost use Rattle.block_blobs.specs.BlobChanges.{blob_of_list, blob_with_block, blob_with_metadata};
ghost use Rattle.block_blobs.specs.BlockLists.{taken_fault};
ghost use Rattle.block_blobs.specs.FoundBlocks.{AreBlocksOf};
ghost use Rattle.block_blobs.specs.UncommittedBlocks.{block_fault};

use block_blobs::{BlobRow, BlockFault, FoundBlocks};
use stamp_types::{BlockId, Pieces, PutBlockList, SetMetadata};
use std::alloc::{AllocError, Global};
use std::marker::Model;

/// The row of a blob in a box of its own, seen as the blob.
///
/// A tree moves half of a leaf's values when it gets one more name. A box is much shorter than a
/// row, so less memory moves.
#[derive(Drop)]
pub(crate) struct Row {
    blob: Box<BlobRow>,
}

impl Model for Row {
    ghost use Rattle.std.specs.Box.{box_value};
    ghost use Rattle.std.specs.Prelude.{List};
    ghost use Rattle.stamp_types.specs.declared.piece.Piece.{Piece};
    ghost use Rattle.stamp_types.specs.ContentCodes.{content_code};
    ghost use Rattle.stamp_types.specs.World.{Blob};
    ghost use Rattle.stamp_types.specs.WorldCodes.{blob_code};

    ghost Value = { Blob (List Piece) };

    ghost coded = { blob_code content_code };

    ghost view = { λ r. box_value r.blob };
}

impl Row {
    /// Puts a blob into a box.
    pub(crate) fn new(alloc: Global, blob: BlobRow) -> Result<Self, AllocError>
        ensures { IfOk result (λ row. row ≡ blob) }
    {
        Ok(Self {
            blob: Box::new(alloc, blob)?,
        })
    }

    /// A blob that never was, in a box.
    pub(crate) fn empty(alloc: Global) -> Result<Self, AllocError>
        ensures { IfOk result (λ row. row ≡ no_blob) }
    {
        Self::new(alloc, BlobRow::new(alloc))
    }

    /// A blob of one uncommitted block, in a box.
    #[tactic(auto, using(crate::proofs::NewRows::block_fits_empty))]
    pub(crate) fn of_block(alloc: Global, id: &BlockId, content: Pieces) -> Result<Self, AllocError>
        requires { IsTrue (is_in_one_piece content) }
        ensures { IfOk result (λ row. row ≡ blob_with_block id.now content no_blob) }
    {
        let mut row = match Self::empty(alloc) {
            Ok(row) => row,
            Err(fault) => {
                drop(content);
                return Err(fault);
            }
        };
        match row.put_block(id, content) {
            Ok(()) => Ok(row),
            Err(fault) => {
                drop(row);
                Err(fault)
            }
        }
    }

    /// A blob that a list makes of nothing, in a box.
    pub(crate) fn of_list(
        alloc: Global,
        list: PutBlockList,
        found: FoundBlocks,
        count: u64,
    ) -> Result<Self, AllocError>
        requires fits { taken_fault no_blob list.entries ≡ None }
        requires found { AreBlocksOf no_blob list.entries found }
        ensures { IfOk result (λ row. row ≡ blob_of_list count list no_blob) }
    {
        let mut row = match Self::empty(alloc) {
            Ok(row) => row,
            Err(fault) => {
                drop(found);
                drop(list);
                return Err(fault);
            }
        };
        row.commit(alloc, list, found, count);
        Ok(row)
    }

    pub(crate) fn blob(&self) -> &BlobRow
        ensures { result.now ≡ self.now }
    {
        &self.blob
    }

    /// Replaces the metadata of the committed part, as `BlobRow::set_metadata` does.
    pub(crate) fn set_metadata(&mut self, set: SetMetadata, count: u64)
        ensures { self.new ≡ blob_with_metadata count set self.old }
    {
        self.blob.set_metadata(set, count);
    }

    /// Puts a block that the blob takes, as `BlobRow::put_block` does. If memory runs out, the blob is
    /// as it was.
    pub(crate) fn put_block(&mut self, id: &BlockId, content: Pieces) -> Result<(), AllocError>
        requires fits { block_fault id.now self.old.uncommitted ≡ None }
        requires piece { IsTrue (is_in_one_piece content) }
        ensures put { OnOk result (self.new ≡ blob_with_block id.now content self.old) }
        ensures refused { OnErr result (self.new ≡ self.old) }
    {
        match self.blob.put_block(id, content) {
            Ok(()) => Ok(()),
            Err(BlockFault::NoMemory) => Err(AllocError),
            Err(_) => unreachable!("the caller has seen that the block fits"),
        }
    }

    /// Makes the blocks that were found for a list the content, as `BlobRow::commit` does.
    pub(crate) fn commit(
        &mut self,
        alloc: Global,
        list: PutBlockList,
        found: FoundBlocks,
        count: u64,
    )
        requires fits { taken_fault self.old list.entries ≡ None }
        requires found { AreBlocksOf self.old list.entries found }
        ensures { self.new ≡ blob_of_list count list self.old }
    {
        self.blob.commit(alloc, list, found, count);
    }
}
