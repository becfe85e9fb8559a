//! What rows find of one container.
ghost use Rattle.std.specs.Prelude.{◌≡◌, IfOk, IsTrue};
ghost use Rattle.std.specs.Option.{option_copied};
ghost use Rattle.stamp_types.specs.Changes.{is_committed};
ghost use Rattle.stamp_types.specs.World.{blob_in};
ghost use Rattle.row_trees.specs.Access.{acl_of};
ghost use Rattle.row_trees.specs.RowRecords.{container_row_of};

use crate::container::Container;
use crate::found_blob::FoundBlob;
use stamp_types::{Acl, Committed, ContainerRow, Pieces, Standing, Text};
use std::alloc::AllocError;
use std::marker::Model;

/// What rows find of one container, seen as the container's part of the world. A container that
/// never was has no changes and no blobs.
///
/// A request is judged and answered by what was found, so that it walks to its container once.
#[derive(Drop)]
pub struct Found<'a> {
    // the container, if it exists or was deleted
    pub(crate) container: Option<&'a Container>,
}

impl<'a> Model for Found<'a> {
    ghost use Rattle.std.specs.Prelude.{List};
    ghost use Rattle.std.specs.Option.{option_copied};
    ghost use Rattle.stamp_types.specs.declared.piece.Piece.{Piece};
    ghost use Rattle.stamp_types.specs.World.{Part};
    ghost use Rattle.row_trees.specs.BlobRows.{container_code};
    ghost use Rattle.row_trees.specs.FoundParts.{part_found};

    ghost Value = { Part (List Piece) };

    ghost coded = { container_code };

    ghost view = { λ f. part_found (option_copied f.container) };
}

impl<'a> Found<'a> {
    /// The same once more: what was found is lent twice, and no row is looked up again.
    pub fn again(&self) -> Self
        ensures { result ≡ self.now }
    {
        Found {
            container: self.container,
        }
    }

    /// How many changes the container has seen: 0 if the container never was.
    pub fn count(&self) -> u64
        ensures { result ≡ self.now.count }
    {
        match self.container {
            Some(container) => container.count(),
            None => 0,
        }
    }

    /// What the container has beside its blobs, if the container exists.
    pub fn standing(&self) -> Option<&'a Standing>
        ensures { option_copied result ≡ self.now.standing }
    {
        let container = self.container?;
        container.standing()
    }

    /// The level and the policies of the container, if the container exists.
    pub fn acl(&self) -> Option<&'a Acl>
        ensures { option_copied result ≡ acl_of self.now }
    {
        let standing = self.standing()?;
        Some(&standing.acl)
    }

    /// The row of a checkpoint that says the container without its blobs: what a container that was
    /// deleted leaves is its count. A container that never was has the count 0, and is not written
    /// to a checkpoint.
    ///
    /// `AllocError` if memory runs out for the texts of the row.
    pub fn row(&self) -> Result<ContainerRow, AllocError>
        ensures { IfOk result (λ row. row ≡ container_row_of self.now) }
    {
        match self.container {
            Some(container) => container.row(),
            None => Ok(ContainerRow {
                count: 0,
                standing: None,
            }),
        }
    }

    /// What was found of a blob.
    #[tactic(auto, using(crate::proofs::Parts::blob_of_no_part))]
    pub fn seen(&self, name: &Text) -> FoundBlob<'a>
        ensures { result ≡ blob_in self.now name.now }
    {
        match self.container {
            Some(container) => container.seen(name),
            None => FoundBlob::nothing(),
        }
    }

    /// What readers of a blob see, if the blob has a committed part.
    pub fn committed(&self, name: &Text) -> Option<&'a Committed<Pieces>>
        ensures value { option_copied result ≡ (blob_in self.now name.now).committed }
        ensures blocks { IsTrue (is_committed (option_copied result)) }
    {
        self.seen(name).committed()
    }
}
