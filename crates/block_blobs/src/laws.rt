//! Laws of blobs. Each law is the contract of a function that does nothing.
ghost use Rattle.std.specs.Prelude.{◌≡◌, ℕ, List, All, IsTrue, None, Some, option_map, length};
ghost use Rattle.stamp_values.specs.declared.block.Wanted.{Wanted};
ghost use Rattle.std.specs.FinMap.{get};
ghost use Rattle.stamp_types.specs.declared.act.Act.TheVariants as act;
ghost use Rattle.stamp_types.specs.declared.act.PutBlob.{PutBlob};
ghost use Rattle.stamp_types.specs.declared.act.PutBlock.{PutBlock};
ghost use Rattle.stamp_types.specs.declared.act.PutBlockList.{PutBlockList};
ghost use Rattle.stamp_types.specs.declared.act.SetMetadata.{SetMetadata};
ghost use Rattle.stamp_types.specs.declared.act.StoredBlob.{StoredBlob};
ghost use Rattle.stamp_types.specs.Changes.{is_stored_blob};
ghost use Rattle.stamp_types.specs.declared.piece.Piece.{Piece};
ghost use Rattle.stamp_types.specs.World.{Blob, Part, blob_in, blobs_after, content_from, same_pieces, with_blob};
ghost use Rattle.block_blobs.specs.BlobChanges.{blob_of_list, blob_of_put, blob_with_block, blob_with_metadata};
ghost use Rattle.block_blobs.specs.StoredRows.{blob_of_row, row_of};
ghost use Rattle.block_blobs.specs.BlockLists.{first_absent, first_missing, found_entries, taken_fault, wanted_fault};

/// If all wanted blocks are found, as many entries are found as blocks are wanted, and no block of
/// these entries is absent. A list that can be resolved can be committed. If no block of a list is
/// absent, the new content has as many blocks as the list has entries. Two blobs that have the same
/// content for each entry of a list become equal by it.
pub fn a_commit_is_its_list<C>()
    ensures found { (b : Blob C) (wanted : List Wanted) → first_missing b wanted ≡ None
        → length (found_entries b wanted) ≡ length wanted }
    ensures there { (b : Blob C) (wanted : List Wanted)
        → first_absent b (found_entries b wanted) ≡ None }
    ensures fits { (b : Blob (List Piece)) (wanted : List Wanted) → wanted_fault b wanted ≡ None
        → taken_fault b (found_entries b wanted) ≡ None }
    ensures count { (n : ℕ) (a : PutBlockList) (b : Blob C) → first_absent b a.entries ≡ None
        → option_map (λ c. length c.blocks) (blob_of_list n a b).committed
        ≡ Some (length a.entries) }
    ensures alike { (n : ℕ) (a : PutBlockList) (b d : Blob C)
        → All (λ t. content_from t.from t.id b ≡ content_from t.from t.id d) a.entries
        → blob_of_list n a b ≡ blob_of_list n a d }
{}

/// Each change of a blob changes the blobs of its container by that blob alone. Put Blob, Put Block and
/// Put Block List leave it under its name. So does Set Blob Metadata if the container has the blob, and
/// else the blobs stay as they were. `n` is the count of the container after the change.
pub fn a_container_changes_by_its_blob()
    ensures put { (n : ℕ) (a : PutBlob) (p : Part (List Piece))
        → blobs_after same_pieces n (act.PutBlob a) p ≡ with_blob p a.blob (blob_of_put n a) }
    ensures metadata { (n : ℕ) (a : SetMetadata) (p : Part (List Piece)) (b : Blob (List Piece))
        → get p.blobs a.blob ≡ Some b
        → blobs_after same_pieces n (act.SetMetadata a) p
        ≡ with_blob p a.blob (blob_with_metadata n a b) }
    ensures absent { (n : ℕ) (a : SetMetadata) (p : Part (List Piece))
        → get p.blobs a.blob ≡ None → blobs_after same_pieces n (act.SetMetadata a) p ≡ p.blobs }
    ensures block { (n : ℕ) (a : PutBlock) (p : Part (List Piece))
        → blobs_after same_pieces n (act.PutBlock a) p
        ≡ with_blob p a.blob (blob_with_block a.id a.content (blob_in p a.blob)) }
    ensures list { (n : ℕ) (a : PutBlockList) (p : Part (List Piece))
        → blobs_after same_pieces n (act.PutBlockList a) p
        ≡ with_blob p a.blob (blob_of_list n a (blob_in p a.blob)) }
{}

/// The row that a blob gives to a checkpoint makes the blob again, under its name and whatever was
/// there. No other blob of the container changes. `n` is the count of the container after the row. A
/// good row is the row that the blob gives which it made.
pub fn a_row_makes_its_blob_again()
    ensures blob { (name : List ℕ) (b : Blob (List Piece)) → blob_of_row (row_of name b) ≡ b }
    ensures container { (n : ℕ) (name : List ℕ) (b : Blob (List Piece)) (p : Part (List Piece))
        → blobs_after same_pieces n (act.StoredBlob (row_of name b)) p ≡ with_blob p name b }
    ensures row { (r : StoredBlob) → IsTrue (is_stored_blob r) → row_of r.blob (blob_of_row r) ≡ r }
{}
