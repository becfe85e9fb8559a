//! A container with its blobs.
ghost use Rattle.std.specs.Prelude.{◌≡◌, IfOk};
ghost use Rattle.std.specs.Option.{option_copied};

use crate::found_blob::FoundBlob;
use crate::row::Row;
use stamp_types::{ContainerRow, Standing, Text};
use stamp_values::Named;
use std::alloc::{AllocError, Global};
use std::marker::Model;

/// A container that exists or was deleted, and its blobs, seen as the container's part of the
/// world. A container that was deleted keeps its count.
#[derive(Drop)]
pub(crate) struct Container {
    // how many changes the container has seen
    pub(crate) count: u64,
    // what the container has beside its blobs, if it exists
    pub(crate) standing: Option<Standing>,
    pub(crate) blobs: Named<Row>,
}

impl Model for Container {
    ghost use Rattle.std.specs.Prelude.{List};
    ghost use Rattle.stamp_types.specs.declared.piece.Piece.{Piece};
    ghost use Rattle.stamp_types.specs.World.{Part};
    ghost use Rattle.row_trees.specs.BlobRows.{container_code};

    ghost Value = { Part (List Piece) };

    ghost coded = { container_code };

    ghost view = { λ c. record { count = c.count; standing = c.standing; blobs = c.blobs } };
}

impl Container {
    ghost use Rattle.stamp_types.specs.World.{blob_in, no_part};
    ghost use Rattle.row_trees.specs.RowRecords.{container_row_of};

    /// A container that never was. Takes no memory.
    pub(crate) fn none(alloc: Global) -> Self
        ensures { result ≡ no_part }
    {
        Self {
            count: 0,
            standing: None,
            blobs: Named::new(alloc),
        }
    }

    pub(crate) fn count(&self) -> u64
        ensures { result ≡ self.now.count }
    {
        self.count
    }

    /// What the container has beside its blobs, if it exists.
    pub(crate) fn standing(&self) -> Option<&Standing>
        ensures { option_copied result ≡ self.now.standing }
    {
        self.standing.as_ref()
    }

    /// The row of a checkpoint that says the container without its blobs. It has texts of its own.
    pub(crate) fn row(&self) -> Result<ContainerRow, AllocError>
        ensures { IfOk result (λ row. row ≡ container_row_of self.now) }
    {
        Ok(ContainerRow {
            count: self.count,
            standing: self.standing.clone()?,
        })
    }

    /// What the container has of a blob.
    pub(crate) fn seen(&self, name: &Text) -> FoundBlob<'_>
        ensures { result ≡ blob_in self.now name.now }
    {
        match self.blobs.get(name.as_str().as_bytes()) {
            Some(row) => FoundBlob::of(row.blob()),
            None => FoundBlob::nothing(),
        }
    }
}
