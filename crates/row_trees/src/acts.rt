//! What each change does to a container.
ghost use Rattle.std.specs.Prelude.{◌≡◌, ◌<◌, IsOk, IsSome, IsTrue, OnOk, OnErr};
ghost use Rattle.std.specs.FinMap as finite;
ghost use Rattle.stamp_types.specs.declared.act.Act.TheVariants as act;
ghost use Rattle.stamp_types.specs.Changes.{is_act, is_stored_blob};
ghost use Rattle.stamp_types.specs.Pieces.{pieces_len};
ghost use Rattle.stamp_types.specs.World.{changed, part_value, same_pieces};
ghost use Rattle.block_blobs.specs.StoredRows.{blob_of_row};
ghost use Rattle.row_trees.specs.Fits.{count_limit, deletes, fits};
ghost use Rattle.row_trees.specs.ListedBlocks.{AreFoundFor};

use crate::container::Container;
use crate::row::Row;
use block_blobs::{BlobRow, FoundBlocks};
use stamp_types::{
    Acl, Act, Bytes, ContainerRow, CreateContainer, DeleteBlob, Policies, PutBlob, SetAcl,
    SetContainerMetadata, SetMetadata, Standing, StoredBlob, Text,
};
use stamp_values::Named;
use std::alloc::{AllocError, Global};
use std::mem;

/// The bytes of a name, which are not copied.
pub(crate) fn bytes_of(name: Text) -> Bytes
    ensures { result ≡ name }
{
    Bytes::new(name.into_string().into_bytes())
}

impl Container {
    fn create(&mut self, alloc: Global, create: CreateContainer)
        requires { self.old.count < count_limit }
        ensures { self.new ≡ changed same_pieces (act.CreateContainer create) self.old }
    {
        self.count += 1;
        self.standing = Some(Standing {
            etag: self.count,
            made: create.moment,
            metadata: create.metadata,
            acl: Acl {
                level: create.level,
                policies: Policies::empty(alloc),
            },
        });
    }

    fn set_container_metadata(&mut self, set: SetContainerMetadata)
        requires { self.old.count < count_limit }
        ensures { self.new ≡ changed same_pieces (act.SetContainerMetadata set) self.old }
    {
        self.count += 1;
        if let Some(standing) = &mut self.standing {
            standing.etag = self.count;
            standing.made = set.moment;
            standing.metadata = set.metadata;
        }
    }

    fn set_acl(&mut self, set: SetAcl)
        requires { self.old.count < count_limit }
        ensures { self.new ≡ changed same_pieces (act.SetAcl set) self.old }
    {
        self.count += 1;
        if let Some(standing) = &mut self.standing {
            standing.etag = self.count;
            standing.made = set.moment;
            standing.acl = set.acl;
        }
    }

    fn delete(&mut self, alloc: Global)
        requires { self.old.count < count_limit }
        ensures { self.new ≡ changed same_pieces act.DeleteContainer self.old }
    {
        self.count += 1;
        self.standing = None;
        self.blobs = Named::new(alloc);
    }

    fn put_blob(&mut self, alloc: Global, put: PutBlob) -> Result<(), AllocError>
        requires { self.old.count < count_limit }
        ensures changed { OnOk result (self.new ≡ changed same_pieces (act.PutBlob put) self.old) }
        ensures refused { OnErr result (self.new ≡ self.old) }
    {
        let count = self.count + 1;
        let name = bytes_of(put.blob);
        let mut row = BlobRow::new(alloc);
        // A row has no name of its own: the name moves to the row's key.
        let unnamed = PutBlob {
            blob: Text::empty(alloc),
            ..put
        };
        if let Err(fault) = row.replace(alloc, unnamed, count) {
            drop(row);
            drop(name);
            return Err(fault);
        }
        let row = match Row::new(alloc, row) {
            Ok(row) => row,
            Err(fault) => {
                drop(name);
                return Err(fault);
            }
        };
        self.blobs.insert(name, row)?;
        self.count = count;
        Ok(())
    }

    #[tactic(auto, using(block_blobs::proofs::BlobsAfter::blobs_after_set_metadata))]
    fn set_metadata(&mut self, set: SetMetadata)
        requires { self.old.count < count_limit }
        ensures { self.new ≡ changed same_pieces (act.SetMetadata set) self.old }
    {
        self.count += 1;
        if let Some(row) = self.blobs.get_mut(set.blob.as_str().as_bytes()) {
            row.set_metadata(set, self.count);
        }
    }

    fn delete_blob(&mut self, delete: DeleteBlob)
        requires { self.old.count < count_limit }
        ensures { self.new ≡ changed same_pieces (act.DeleteBlob delete) self.old }
    {
        self.count += 1;
        self.blobs.remove(delete.blob.as_str().as_bytes());
    }

    fn take_row(&mut self, row: ContainerRow)
        ensures { self.new ≡ changed same_pieces (act.ContainerRow row) self.old }
    {
        self.count = row.count;
        self.standing = row.standing;
    }

    #[tactic(auto, using(crate::proofs::Parts::same_committed, crate::proofs::FitLemmas::uncommitted_of_row))]
    fn store_blob(&mut self, alloc: Global, row: StoredBlob) -> Result<(), AllocError>
        requires { IsTrue (is_stored_blob row) }
        ensures changed { OnOk result
            (self.new ≡ changed same_pieces (act.StoredBlob row) self.old) }
        ensures refused { OnErr result (self.new ≡ self.old) }
    {
        let StoredBlob {
            blob,
            committed,
            uncommitted,
        } = row;
        let row = BlobRow::stored(alloc, committed, uncommitted)?;
        self.blobs.insert(bytes_of(blob), Row::new(alloc, row)?)?;
        Ok(())
    }

    /// Puts a row in the place of the row that its name has, which is dropped. Takes no memory.
    #[tactic(auto, using(crate::proofs::RowSwaps::stored_blob_is))]
    pub(crate) fn replace_row(&mut self, row: &StoredBlob, new: Row)
        requires there { IsSome (finite.get self.old.blobs row.now.blob) }
        requires made { new ≡ blob_of_row row.now }
        ensures { self.new ≡ changed same_pieces (act.StoredBlob row.now) self.old }
    {
        match self.blobs.get_mut(row.blob.as_str().as_bytes()) {
            Some(old) => drop(mem::replace(old, new)),
            None => unreachable!("the caller has seen that the blob has a row"),
        }
    }

    /// Makes a change that fits. What the change holds moves into the container, and so do the blocks
    /// that were found for it, if it commits a list.
    ///
    /// `AllocError` if memory runs out for a new row, its list of blocks or the tree of its
    /// uncommitted blocks. The container is then as it was.
    #[tactic(auto, using(crate::proofs::FitLemmas::room_for_change, crate::proofs::BlockFits::fits_block, crate::proofs::BlockFits::fits_list, crate::proofs::BlockFits::block_piece))]
    pub(crate) fn take(
        &mut self,
        alloc: Global,
        act: Act,
        found: FoundBlocks,
    ) -> Result<(), AllocError>
        requires fits { IsTrue (fits (part_value pieces_len self.old) act) }
        requires valid { IsTrue (is_act act) }
        requires found { AreFoundFor self.old act found }
        ensures changed { OnOk result (self.new ≡ changed same_pieces act self.old) }
        ensures refused { OnErr result (self.new ≡ self.old) }
        ensures deletes { IsTrue (deletes act) → IsOk result }
    {
        match act {
            Act::CreateContainer(create) => self.create(alloc, create),
            Act::SetContainerMetadata(set) => self.set_container_metadata(set),
            Act::SetAcl(set) => self.set_acl(set),
            Act::DeleteContainer => self.delete(alloc),
            Act::PutBlob(put) => self.put_blob(alloc, put)?,
            Act::SetMetadata(set) => self.set_metadata(set),
            Act::DeleteBlob(delete) => self.delete_blob(delete),
            Act::PutBlock(put) => self.put_block(alloc, put)?,
            Act::PutBlockList(list) => self.put_block_list(alloc, list, found)?,
            Act::ContainerRow(row) => self.take_row(row),
            Act::StoredBlob(row) => self.store_blob(alloc, row)?,
        }
        Ok(())
    }
}
