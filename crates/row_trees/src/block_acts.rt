//! What Put Block and Put Block List do to a container.
ghost use Rattle.std.specs.Prelude.{◌≡◌, ◌<◌, IsTrue, OnOk, OnErr, None};
ghost use Rattle.stamp_types.specs.declared.act.Act.TheVariants as act;
ghost use Rattle.stamp_types.specs.Changes.{is_in_one_piece};
ghost use Rattle.stamp_types.specs.World.{blob_in, changed, same_pieces};
ghost use Rattle.block_blobs.specs.BlockLists.{taken_fault};
ghost use Rattle.block_blobs.specs.FoundBlocks.{AreBlocksOf};
ghost use Rattle.block_blobs.specs.UncommittedBlocks.{block_fault};
ghost use Rattle.row_trees.specs.Fits.{count_limit};

use crate::acts::bytes_of;
use crate::container::Container;
use crate::row::Row;
use block_blobs::FoundBlocks;
use stamp_types::{PutBlock, PutBlockList, Text};
use std::alloc::{AllocError, Global};

impl Container {
    /// Puts a block into the blob of its name. If the name has no row, the row is made.
    ///
    /// `AllocError` if memory runs out for the row, or for one more id. The container is then as it
    /// was.
    #[tactic(auto, using(crate::proofs::BlockActs::block_on_row, crate::proofs::BlockActs::block_without_row, crate::proofs::BlockActs::blob_of_row, crate::proofs::BlockActs::blob_without_row, crate::proofs::BlockActs::same_row))]
    pub(crate) fn put_block(&mut self, alloc: Global, put: PutBlock) -> Result<(), AllocError>
        requires count { self.old.count < count_limit }
        requires fits { block_fault put.id (blob_in self.old put.blob).uncommitted ≡ None }
        requires piece { IsTrue (is_in_one_piece put.content) }
        ensures changed { OnOk result (self.new ≡ changed same_pieces (act.PutBlock put) self.old) }
        ensures refused { OnErr result (self.new ≡ self.old) }
    {
        let PutBlock { blob, id, content } = put;
        match self.blobs.get_mut(blob.as_str().as_bytes()) {
            Some(row) => {
                let done = row.put_block(&id, content);
                drop(id);
                drop(blob);
                done?;
            }
            None => {
                let row = Row::of_block(alloc, &id, content);
                drop(id);
                match row {
                    Ok(row) => {
                        self.blobs.insert(bytes_of(blob), row)?;
                    }
                    Err(fault) => {
                        drop(blob);
                        return Err(fault);
                    }
                }
            }
        }
        self.count += 1;
        Ok(())
    }

    /// Makes the blocks that were found for a list the content of the blob of its name. If the name has
    /// no row, the row is made.
    ///
    /// `AllocError` if memory runs out for a new row. The container is then as it was.
    #[tactic(auto, using(crate::proofs::BlockActs::list_on_row, crate::proofs::BlockActs::list_without_row, crate::proofs::BlockActs::blob_of_row, crate::proofs::BlockActs::blob_without_row, crate::proofs::BlockActs::same_row, crate::proofs::BlockActs::found_in_row))]
    pub(crate) fn put_block_list(
        &mut self,
        alloc: Global,
        list: PutBlockList,
        found: FoundBlocks,
    ) -> Result<(), AllocError>
        requires count { self.old.count < count_limit }
        requires fits { taken_fault (blob_in self.old list.blob) list.entries ≡ None }
        requires found { AreBlocksOf (blob_in self.old list.blob) list.entries found }
        ensures changed { OnOk result
            (self.new ≡ changed same_pieces (act.PutBlockList list) self.old) }
        ensures refused { OnErr result (self.new ≡ self.old) }
    {
        let count = self.count + 1;
        let name = list.blob;
        // A row has no name of its own: the name moves to the row's key.
        let unnamed = PutBlockList {
            blob: Text::empty(alloc),
            ..list
        };
        match self.blobs.get_mut(name.as_str().as_bytes()) {
            Some(row) => {
                row.commit(alloc, unnamed, found, count);
                drop(name);
            }
            None => match Row::of_list(alloc, unnamed, found, count) {
                Ok(row) => {
                    self.blobs.insert(bytes_of(name), row)?;
                }
                Err(fault) => {
                    drop(name);
                    return Err(fault);
                }
            },
        }
        self.count = count;
        Ok(())
    }
}
