//! The row of a blob that is made before it is needed, so that it can be swapped in without memory.
ghost use Rattle.std.specs.Prelude.{◌≡◌, IfOk, IsTrue};
ghost use Rattle.stamp_types.specs.Changes.{is_stored_blob};
ghost use Rattle.block_blobs.specs.StoredRows.{blob_of_row};

use crate::row::Row;
use block_blobs::BlobRow;
use stamp_types::{Committed, Items, Pieces, StoredBlob, UncommittedBlock};
use std::alloc::{AllocError, Global};
use std::marker::Model;

/// The row of a blob that is not in its container yet, seen as the blob.
///
/// A record of a row is logged only once its new row exists. So no lack of memory comes between the record and the rows.
#[derive(Drop)]
pub struct NewRow {
    pub(crate) row: Row,
}

impl Model for NewRow {
    ghost use Rattle.std.specs.Prelude.{List};
    ghost use Rattle.stamp_types.specs.declared.piece.Piece.{Piece};
    ghost use Rattle.stamp_types.specs.ContentCodes.{content_code};
    ghost use Rattle.stamp_types.specs.World.{Blob};
    ghost use Rattle.stamp_types.specs.WorldCodes.{blob_code};

    ghost Value = { Blob (List Piece) };

    ghost coded = { blob_code content_code };

    ghost view = { λ n. n.row };
}

// The committed part and the uncommitted blocks of a row, with texts and ids of their own.
fn copies_of(
    row: &StoredBlob,
) -> Result<(Option<Committed<Pieces>>, Items<UncommittedBlock>), AllocError>
    ensures committed { IfOk result (λ copies. copies.0 ≡ row.now.committed) }
    ensures uncommitted { IfOk result (λ copies. copies.1 ≡ row.now.uncommitted) }
{
    let committed = row.committed.clone()?;
    match row.uncommitted.clone() {
        Ok(uncommitted) => Ok((committed, uncommitted)),
        Err(fault) => {
            drop(committed);
            Err(fault)
        }
    }
}

impl NewRow {
    /// The blob that a row of a checkpoint says. It has texts and ids of its own, and shares the content.
    ///
    /// `AllocError` if memory runs out, or if the content of a block can have no further owner.
    #[tactic(auto, using(crate::proofs::FitLemmas::uncommitted_of_row))]
    pub fn of(alloc: Global, row: &StoredBlob) -> Result<Self, AllocError>
        requires { IsTrue (is_stored_blob row.now) }
        ensures { IfOk result (λ new. new ≡ blob_of_row row.now) }
    {
        let (committed, uncommitted) = copies_of(row)?;
        let blob = BlobRow::stored(alloc, committed, uncommitted)?;
        Ok(Self {
            row: Row::new(alloc, blob)?,
        })
    }
}
