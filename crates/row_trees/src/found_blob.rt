//! What rows find of one blob.
ghost use Rattle.std.specs.Prelude.{◌≡◌, IfErr, IfOk, IsTrue, None, OnOk};
ghost use Rattle.std.specs.Option.{option_copied};
ghost use Rattle.stamp_types.specs.Changes.{is_committed};
ghost use Rattle.stamp_types.specs.World.{no_blob};
ghost use Rattle.block_blobs.specs.BlobChanges.{content_len};
ghost use Rattle.block_blobs.specs.Faults.{IsFault};
ghost use Rattle.row_trees.specs.FoundParts.{blob_found, has_uncommitted};

use block_blobs::{BlobRow, BlockFault, FoundBlocks, Resolved};
use stamp_types::{BlockId, Committed, Pieces, Taken, Wanted};
use std::alloc::Global;
use std::marker::Model;

/// What rows find of one blob, seen as the blob. A blob of a name that was never used has no
/// committed part and no uncommitted blocks.
///
/// A request is judged and answered by what was found, so that it walks to its blob once.
#[derive(Drop)]
pub struct FoundBlob<'a> {
    // the row of the blob, if it has one
    row: Option<&'a BlobRow>,
}

impl<'a> Model for FoundBlob<'a> {
    ghost use Rattle.std.specs.Prelude.{List};
    ghost use Rattle.std.specs.Option.{option_copied};
    ghost use Rattle.stamp_types.specs.declared.piece.Piece.{Piece};
    ghost use Rattle.stamp_types.specs.ContentCodes.{content_code};
    ghost use Rattle.stamp_types.specs.World.{Blob};
    ghost use Rattle.stamp_types.specs.WorldCodes.{blob_code};
    ghost use Rattle.row_trees.specs.FoundParts.{blob_found};

    ghost Value = { Blob (List Piece) };

    ghost coded = { blob_code content_code };

    ghost view = { λ f. blob_found (option_copied f.row) };
}

impl<'a> FoundBlob<'a> {
    ghost use Rattle.block_blobs.specs.BlockLists as lists;
    ghost use Rattle.block_blobs.specs.FoundBlocks.{AreBlocksOf};
    ghost use Rattle.block_blobs.specs.ResolvedLists.{resolved};
    ghost use Rattle.block_blobs.specs.UncommittedBlocks as blocks;

    /// A blob of a name that was never used.
    pub fn nothing() -> Self
        ensures { result ≡ no_blob }
    {
        FoundBlob { row: None }
    }

    /// The same once more: what was found is lent twice, and no row is looked up again.
    pub fn again(&self) -> Self
        ensures { result ≡ self.now }
    {
        FoundBlob { row: self.row }
    }

    /// The blob of this row.
    pub(crate) fn of(row: &'a BlobRow) -> Self
        ensures { result ≡ row.now }
    {
        FoundBlob { row: Some(row) }
    }

    /// The row of the blob, if the blob has one.
    pub fn row(&self) -> Option<&'a BlobRow>
        ensures { self.now ≡ blob_found (option_copied result) }
    {
        self.row
    }

    /// What readers of the blob see, if the blob has a committed part.
    pub fn committed(&self) -> Option<&'a Committed<Pieces>>
        ensures value { option_copied result ≡ self.now.committed }
        ensures blocks { IsTrue (is_committed self.now.committed) }
    {
        match self.row {
            Some(row) => row.committed(),
            None => None,
        }
    }

    /// How many bytes the content has. 0 if the blob has no committed part.
    pub fn len(&self) -> u64
        ensures { result ≡ content_len self.now.committed }
    {
        match self.row {
            Some(row) => row.len(),
            None => 0,
        }
    }

    /// Whether the blob has an uncommitted block.
    #[tactic(auto, using(crate::proofs::NewRows::has_no_block))]
    pub fn has_uncommitted(&self) -> bool
        ensures { result ≡ has_uncommitted self.now }
    {
        match self.row {
            Some(row) => row.uncommitted_len() > 0,
            None => false,
        }
    }

    /// Why no block can be put under this id, as `BlobRow::block_fault` says it. Takes no memory.
    #[tactic(auto, using(crate::proofs::NewRows::block_fits_empty))]
    pub fn block_fault(&self, id: &BlockId) -> Option<BlockFault>
        ensures { result ≡ blocks.block_fault id.now self.now.uncommitted }
    {
        match self.row {
            Some(row) => row.block_fault(id),
            None => None,
        }
    }

    /// Where each wanted block is found, and the blocks, as `BlobRow::resolve` says it. A blob without
    /// a row has no block.
    ///
    /// `NotFound`, `TooMany`, `TooLarge` and `NoMemory` come as `BlobRow::resolve` answers them.
    pub fn resolve(&self, alloc: Global, wanted: &[Wanted]) -> Result<Resolved, BlockFault>
        ensures value { IfOk result (λ found. found ≡ resolved self.now wanted.now) }
        ensures fits { OnOk result (lists.wanted_fault self.now wanted.now ≡ None) }
        ensures fault { IfErr result (IsFault (lists.wanted_fault self.now wanted.now)) }
    {
        match self.row {
            Some(row) => row.resolve(alloc, wanted),
            None => BlobRow::new(alloc).resolve(alloc, wanted),
        }
    }

    /// The blocks of a list whose entries say where they are, as `BlobRow::listed` says it.
    ///
    /// `NotFound`, `TooMany`, `TooLarge` and `NoMemory` come as `BlobRow::listed` answers them.
    pub fn listed(&self, alloc: Global, entries: &[Taken]) -> Result<FoundBlocks, BlockFault>
        ensures value { IfOk result (λ found. AreBlocksOf self.now entries.now found) }
        ensures fits { OnOk result (lists.taken_fault self.now entries.now ≡ None) }
        ensures fault { IfErr result (IsFault (lists.taken_fault self.now entries.now)) }
    {
        match self.row {
            Some(row) => row.listed(alloc, entries),
            None => BlobRow::new(alloc).listed(alloc, entries),
        }
    }
}
