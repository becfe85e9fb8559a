//! A blob.
ghost use Rattle.std.specs.Prelude.{ℕ, List, IsSome, false, ◌≡◌, ◌≢◌, ◌≤◌, IsTrue, IfOk, IfErr, IfSome, OnOk, OnErr, Some, None, [], ◌∷◌, map};
ghost use Rattle.std.specs.Option.{option_copied};
ghost use Rattle.std.specs.FinMap as finite;
ghost use Rattle.stamp_values.specs.Limits.{uncommitted_limit};
ghost use Rattle.stamp_types.specs.Changes.{is_in_one_piece, is_committed, is_stored_blob, are_blocks, are_uncommitted, blocks_len};
ghost use Rattle.stamp_types.specs.World.{no_blob, whole_block, uncommitted_entry, same_pieces};
ghost use Rattle.block_blobs.specs.BlobChanges as blobs;
ghost use Rattle.block_blobs.specs.Faults.{IsFault};
ghost use Rattle.block_blobs.specs.StoredRows.{is_left, row_of};
ghost use Rattle.stamp_values.specs.Names.{is_blob};

use crate::block_fault::BlockFault;
use crate::found_blocks::total_len;
use crate::uncommitted::Uncommitted;
use stamp_types::{
    Block, BlockId, Committed, Items, Moment, Pieces, PutBlob, SetMetadata, StoredBlob, Text,
    UncommittedBlock,
};
use std::alloc::{AllocError, Global};
use std::collections::btree_map::{IntoIter, Iter};
use std::marker::Model;

/// A blob: its committed part, if it has a committed part, and its uncommitted blocks. Contracts see
/// it as the blob of the world, with its content in pieces.
#[derive(Drop)]
pub struct BlobRow {
    committed: Option<Committed<Pieces>>,
    // how many bytes the committed part has
    content_len: u64,
    uncommitted: Uncommitted,
}

impl Model for BlobRow {
    ghost use Rattle.std.specs.Prelude.{◌≡◌, List, IsTrue};
    ghost use Rattle.stamp_types.specs.declared.piece.Piece.{Piece};
    ghost use Rattle.stamp_types.specs.Changes.{is_committed};
    ghost use Rattle.stamp_types.specs.ContentCodes.{content_code};
    ghost use Rattle.stamp_types.specs.World.{Blob};
    ghost use Rattle.stamp_types.specs.WorldCodes.{blob_code};
    ghost use Rattle.block_blobs.specs.BlobChanges as blobs;

    ghost Value = { Blob (List Piece) };

    ghost coded = { blob_code content_code };

    ghost view = { λ r. record { committed = r.committed; uncommitted = r.uncommitted } };

    ghost invariant = { λ r. IsTrue (is_committed r.committed)
        × (r.content_len ≡ blobs.content_len r.committed) };
}

// The blocks of content that Put Blob brings: one block without an id.
#[tactic(auto, using(crate::proofs::Blocks::are_blocks_whole))]
fn whole(alloc: Global, content: Pieces) -> Result<Items<Block<Pieces>>, AllocError>
    ensures value { IfOk result (λ blocks. blocks ≡ whole_block content ∷ []) }
    ensures valid { IfOk result (λ blocks. IsTrue (are_blocks blocks)) }
{
    let _pieces = content.as_slice();
    Ok(Items::new(vec![in alloc; Block { id: None, content }]?))
}

// How many bytes the content has. 0 if there is no committed part.
#[tactic(auto, using(crate::proofs::Blocks::within_blob))]
fn content_len(committed: &Option<Committed<Pieces>>) -> u64
    requires { IsTrue (is_committed committed.now) }
    ensures { result ≡ blobs.content_len committed.now }
{
    let Some(committed) = committed else {
        return 0;
    };
    match total_len(committed.blocks.as_slice()) {
        Some(len) => len,
        None => unreachable!("the length of committed content fits 64 bits"),
    }
}

impl BlobRow {
    ghost use Rattle.block_blobs.specs.UncommittedBlocks as blocks;
    ghost use Rattle.block_blobs.specs.UncommittedBlocks.{block_count, are_in_one_piece};
    ghost use Rattle.block_blobs.specs.BlobChanges.{blob_with_block, blob_of_put, blob_with_metadata};

    /// A blob that never was. Takes no memory.
    pub fn new(alloc: Global) -> Self
        ensures { result ≡ no_blob }
    {
        Self {
            committed: None,
            content_len: 0,
            uncommitted: Uncommitted::new(alloc),
        }
    }

    /// A blob as the row of a checkpoint says it. The committed part and the uncommitted blocks move.
    ///
    /// `AllocError` if memory runs out for the tree of uncommitted blocks.
    pub fn stored(
        alloc: Global,
        committed: Option<Committed<Pieces>>,
        uncommitted: Items<UncommittedBlock>,
    ) -> Result<Self, AllocError>
        requires committed { IsTrue (is_committed committed) }
        requires uncommitted { IsTrue (are_uncommitted uncommitted) }
        ensures { IfOk result (λ row. row ≡ record {
          committed = committed;
          uncommitted = finite.from_entries (map (uncommitted_entry same_pieces) uncommitted);
        }) }
    {
        let content_len = content_len(&committed);
        match Uncommitted::stored(alloc, uncommitted) {
            Ok(uncommitted) => Ok(Self {
                committed,
                content_len,
                uncommitted,
            }),
            Err(fault) => {
                drop(committed);
                Err(fault)
            }
        }
    }

    /// The row of a checkpoint that says this blob under this name, as `stored` reads it. The name
    /// moves into the row. The row has texts and ids of its own, and shares the content. If the name
    /// is good and something is left of the blob, the row is an act of a good change.
    ///
    /// `AllocError` if memory runs out, or if the content of a block can have no further owner.
    #[tactic(auto, using(crate::proofs::RowLemmas::good_row))]
    pub fn row(&self, alloc: Global, name: Text) -> Result<StoredBlob, AllocError>
        ensures row { IfOk result (λ row. row ≡ row_of name self.now) }
        ensures valid { IsTrue (is_blob name) → IsTrue (is_left self.now)
            → IfOk result (λ row. IsTrue (is_stored_blob row)) }
    {
        let committed = match self.committed.clone() {
            Ok(committed) => committed,
            Err(fault) => {
                drop(name);
                return Err(fault);
            }
        };
        match self.uncommitted.listed(alloc) {
            Ok(uncommitted) => Ok(StoredBlob {
                blob: name,
                committed,
                uncommitted,
            }),
            Err(fault) => {
                drop(committed);
                drop(name);
                Err(fault)
            }
        }
    }

    /// What readers of the blob see, if the blob has a committed part.
    pub fn committed(&self) -> Option<&Committed<Pieces>>
        ensures value { option_copied result ≡ self.now.committed }
        ensures blocks { IsTrue (is_committed self.now.committed) }
    {
        let _len = self.content_len;
        self.committed.as_ref()
    }

    /// How many bytes the content has. 0 if the blob has no committed part.
    pub fn len(&self) -> u64
        ensures { result ≡ blobs.content_len self.now.committed }
    {
        self.content_len
    }

    /// The uncommitted blocks, each with its id and its content, in the order of the ids.
    pub fn uncommitted(&self) -> Iter<'_, BlockId, Pieces>
        ensures entries { result ≡ finite.entries self.now.uncommitted }
        ensures pieces { IsTrue (are_in_one_piece self.now.uncommitted) }
        ensures lengths { (id : List ℕ) → IsSome (finite.get self.now.uncommitted id)
            → blocks.has_other_length id self.now.uncommitted ≡ false }
    {
        self.uncommitted.keeps_limits();
        self.uncommitted.iter()
    }

    /// How many uncommitted blocks there are.
    pub fn uncommitted_len(&self) -> usize
        ensures count { result ≡ block_count self.now.uncommitted }
        ensures bound { result ≤ uncommitted_limit }
    {
        self.uncommitted.len()
    }

    /// Why no block can be put under this id, if no block can be put under it: `Length` if the
    /// uncommitted blocks have ids of another length, or else `TooMany` if the id is new and there are
    /// 50,000 uncommitted blocks. Takes no memory.
    pub fn block_fault(&self, id: &BlockId) -> Option<BlockFault>
        ensures { result ≡ blocks.block_fault id.now self.now.uncommitted }
    {
        self.uncommitted.fault(id)
    }

    /// Puts an uncommitted block under an id, which replaces the uncommitted block of that id
    /// ("Put Block"). No byte of content is copied, and the id is copied only if it is new.
    ///
    /// `Length` if the uncommitted blocks have ids of another length, or else `TooMany` if the id is
    /// new and there are 50,000 uncommitted blocks. `NoMemory` if memory runs out. After a fault
    /// the blob is as it was.
    pub fn put_block(&mut self, id: &BlockId, content: Pieces) -> Result<(), BlockFault>
        requires { IsTrue (is_in_one_piece content) }
        ensures put { OnOk result (self.new ≡ blob_with_block id.now content self.old) }
        ensures refused { OnErr result (self.new ≡ self.old) }
        ensures fits { OnOk result (blocks.block_fault id.now self.old.uncommitted ≡ None) }
        ensures fault { IfErr result (IsFault (blocks.block_fault id.now self.old.uncommitted)) }
    {
        self.uncommitted.put(id, content)?;
        Ok(())
    }

    /// The uncommitted blocks.
    pub(crate) fn uncommitted_blocks(&self) -> &Uncommitted
        ensures { result.now ≡ self.now.uncommitted }
    {
        &self.uncommitted
    }

    /// Takes all uncommitted blocks out of the blob, in the order of their ids. Takes no memory.
    pub(crate) fn take_uncommitted(&mut self, alloc: Global) -> IntoIter<BlockId, Pieces>
        ensures blocks { result ≡ finite.entries self.old.uncommitted }
        ensures left { self.new
            ≡ record { committed = self.old.committed; uncommitted = finite.empty } }
    {
        self.uncommitted.take(alloc)
    }

    /// Writes a committed part of so many bytes. Nothing of the old committed part stays.
    pub(crate) fn write(&mut self, committed: Committed<Pieces>, len: u64)
        requires blocks { IsTrue (are_blocks committed.blocks) }
        requires len { len ≡ blocks_len committed.blocks }
        ensures { self.new
            ≡ record { committed = Some committed; uncommitted = self.old.uncommitted } }
    {
        self.committed = Some(committed);
        self.content_len = len;
    }

    /// Drops all uncommitted blocks. Takes no memory.
    pub(crate) fn drop_uncommitted(&mut self, alloc: Global)
        ensures { self.new
            ≡ record { committed = self.old.committed; uncommitted = finite.empty } }
    {
        self.uncommitted = Uncommitted::new(alloc);
    }

    /// Replaces the blob by what a Put Blob brings: content in one block without an id, kept headers
    /// and metadata, with `count` as the ETag. No uncommitted block stays.
    ///
    /// `AllocError` if memory runs out for the list of one block. The blob is then as it was.
    pub fn replace(&mut self, alloc: Global, put: PutBlob, count: u64) -> Result<(), AllocError>
        ensures replaced { OnOk result (self.new ≡ blob_of_put count put) }
        ensures refused { OnErr result (self.new ≡ self.old) }
    {
        let PutBlob {
            blob: _,
            moment,
            props,
            metadata,
            content,
        } = put;
        let len = content.len();
        let blocks = match whole(alloc, content) {
            Ok(blocks) => blocks,
            Err(fault) => {
                drop(metadata);
                drop(props);
                return Err(fault);
            }
        };
        let committed = Committed {
            etag: count,
            made: moment,
            props,
            metadata,
            blocks,
        };
        self.write(committed, len);
        self.drop_uncommitted(alloc);
        Ok(())
    }

    /// Replaces the metadata of the committed part, with `count` as the ETag ("Set Blob Metadata").
    /// A blob without a committed part stays as it is. Takes no memory.
    pub fn set_metadata(&mut self, set: SetMetadata, count: u64)
        ensures { self.new ≡ blob_with_metadata count set self.old }
    {
        if let Some(committed) = &mut self.committed {
            committed.etag = count;
            committed.made = set.moment;
            committed.metadata = set.metadata;
        }
    }

    /// Drops the committed part and all uncommitted blocks. Takes no memory.
    pub fn remove(&mut self, alloc: Global)
        ensures { self.new ≡ no_blob }
    {
        self.committed = None;
        self.content_len = 0;
        self.drop_uncommitted(alloc);
    }
}
