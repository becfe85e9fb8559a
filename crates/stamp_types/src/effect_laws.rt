//! Laws of what each change leaves, what it takes away and what is new. Each law is the contract of
//! a function that does nothing.
ghost use Rattle.std.specs.Prelude.{◌≡◌, ◌≢◌, ℕ, ◌+◌, List, [], ◌∷◌, ◌++◌, All, Some, None, false, map, option_map};
ghost use Rattle.std.specs.FinMap as finite;
ghost use Rattle.stamp_types.specs.ActKinds.{is_row};
ghost use Rattle.stamp_types.specs.World.{Blob, Part, blob_in, changed, committed_value, content_from};
ghost use Rattle.stamp_types.specs.EffectKinds.{AreThere, EtagsAtMost, blob_dated, blob_named, blob_stamp, blocks_and_props, container_dated, container_stamp, listed_content, props_and_metadata, stamp_if};
ghost use Rattle.stamp_types.specs.declared.act.Act.{Act};
ghost use Rattle.stamp_types.specs.declared.act.Act.TheVariants as act;
ghost use Rattle.stamp_types.specs.declared.act.ContainerRow.{ContainerRow};
ghost use Rattle.stamp_types.specs.declared.act.DeleteBlob.{DeleteBlob};
ghost use Rattle.stamp_types.specs.declared.act.PutBlob.{PutBlob};
ghost use Rattle.stamp_types.specs.declared.act.PutBlock.{PutBlock};
ghost use Rattle.stamp_types.specs.declared.act.PutBlockList.{PutBlockList};
ghost use Rattle.stamp_types.specs.declared.act.SetAcl.{SetAcl};
ghost use Rattle.stamp_types.specs.declared.act.SetContainerMetadata.{SetContainerMetadata};
ghost use Rattle.stamp_types.specs.declared.act.SetMetadata.{SetMetadata};
ghost use Rattle.stamp_types.specs.declared.act.StoredBlob.{StoredBlob};
ghost use Rattle.stamp_types.specs.declared.committed.Block.{Block};
ghost use Rattle.stamp_types.specs.declared.committed.Committed.{Committed};
ghost use Rattle.stamp_types.specs.declared.piece.Piece.{Piece};
ghost use Rattle.stamp_values.specs.declared.block.BlockSource.TheVariants as source;

/// A change of a blob reaches that blob alone. The container's ETag, moment, access and metadata
/// stay as they were, and so does each blob of another name.
pub fn a_blob_change_reaches_its_own_blob_alone<C>()
    ensures container { (f : List Piece → C) (a : Act) (p : Part C) (name : List ℕ)
        → blob_named a ≡ Some name → (changed f a p).standing ≡ p.standing }
    ensures others { (f : List Piece → C) (a : Act) (p : Part C) (name other : List ℕ)
        → blob_named a ≡ Some name → other ≢ name
        → finite.get (changed f a p).blobs other ≡ finite.get p.blobs other }
{}

/// At the same count of changes, what Put Blob wrote is the same whatever the blob was before: one
/// block without an id, and no uncommitted block. After Set Container Metadata no old metadata is
/// left, and access and blobs stay as they were.
pub fn what_is_replaced_leaves_no_trace<C>()
    ensures blob { (f : List Piece → C) (a : PutBlob) (p q : Part C) → p.count ≡ q.count
        → blob_in (changed f (act.PutBlob a) p) a.blob
        ≡ blob_in (changed f (act.PutBlob a) q) a.blob }
    ensures content { (f : List Piece → C) (a : PutBlob) (p : Part C)
        → option_map (λ c. map (λ block. block.id) c.blocks)
        (blob_in (changed f (act.PutBlob a) p) a.blob).committed
        ≡ Some (None ∷ []) }
    ensures bytes { (f : List Piece → C) (a : PutBlob) (p : Part C)
        → option_map (λ c. map (λ block. block.content) c.blocks)
        (blob_in (changed f (act.PutBlob a) p) a.blob).committed
        ≡ Some (f a.content ∷ []) }
    ensures uncommitted { (f : List Piece → C) (a : PutBlob) (p : Part C)
        → (blob_in (changed f (act.PutBlob a) p) a.blob).uncommitted ≡ finite.empty }
    ensures metadata { (f : List Piece → C) (a : SetContainerMetadata) (p : Part C)
        → option_map (λ s. s.metadata) (changed f (act.SetContainerMetadata a) p).standing
        ≡ option_map (λ s. a.metadata) p.standing }
    ensures access { (f : List Piece → C) (a : SetContainerMetadata) (p : Part C)
        → option_map (λ s. s.acl) (changed f (act.SetContainerMetadata a) p).standing
        ≡ option_map (λ s. s.acl) p.standing }
    ensures blobs { (f : List Piece → C) (a : SetContainerMetadata) (p : Part C)
        → (changed f (act.SetContainerMetadata a) p).blobs ≡ p.blobs }
{}

/// Set Blob Metadata leaves the blocks of a blob, the headers that are kept with it and its
/// uncommitted blocks as they were. The blob has the new metadata. If a blob has no committed part,
/// all blobs of the container stay as they were.
pub fn set_metadata_changes_metadata_alone<C>()
    ensures stays { (f : List Piece → C) (a : SetMetadata) (p : Part C)
        → option_map blocks_and_props (blob_in (changed f (act.SetMetadata a) p) a.blob).committed
        ≡ option_map blocks_and_props (blob_in p a.blob).committed }
    ensures new { (f : List Piece → C) (a : SetMetadata) (p : Part C)
        → option_map (λ c. c.metadata) (blob_in (changed f (act.SetMetadata a) p) a.blob).committed
        ≡ option_map (λ c. a.metadata) (blob_in p a.blob).committed }
    ensures uncommitted { (f : List Piece → C) (a : SetMetadata) (p : Part C)
        → (blob_in (changed f (act.SetMetadata a) p) a.blob).uncommitted
        ≡ (blob_in p a.blob).uncommitted }
    ensures absent { (f : List Piece → C) (a : SetMetadata) (p : Part C)
        → (blob_in p a.blob).committed ≡ None → (changed f (act.SetMetadata a) p).blobs ≡ p.blobs }
{}

/// A blob that was deleted is as a blob that never was, and so is each blob of a container that was
/// deleted. The container's count goes on.
pub fn a_deleted_blob_is_as_one_that_never_was<C>()
    ensures blob { (f : List Piece → C) (a : DeleteBlob) (p : Part C)
        → finite.get (changed f (act.DeleteBlob a) p).blobs a.blob ≡ None }
    ensures container { (f : List Piece → C) (p : Part C) (name : List ℕ)
        → finite.get (changed f act.DeleteContainer p).blobs name ≡ None }
    ensures gone { (f : List Piece → C) (p : Part C)
        → (changed f act.DeleteContainer p).standing ≡ None }
    ensures counted { (f : List Piece → C) (p : Part C)
        → (changed f act.DeleteContainer p).count ≡ p.count + 1 }
{}

/// Put Block leaves what readers of the blob see as it was. The block's id has the new content, and
/// each other id has the content that it had.
pub fn an_uncommitted_block_is_not_seen<C>()
    ensures seen { (f : List Piece → C) (a : PutBlock) (p : Part C)
        → (blob_in (changed f (act.PutBlock a) p) a.blob).committed ≡ (blob_in p a.blob).committed }
    ensures new { (f : List Piece → C) (a : PutBlock) (p : Part C)
        → finite.get (blob_in (changed f (act.PutBlock a) p) a.blob).uncommitted a.id
        ≡ Some (f a.content) }
    ensures others { (f : List Piece → C) (a : PutBlock) (p : Part C) (id : List ℕ) → id ≢ a.id
        → finite.get (blob_in (changed f (act.PutBlock a) p) a.blob).uncommitted id
        ≡ finite.get (blob_in p a.blob).uncommitted id }
{}

/// If the blob has a block for each entry of a Put Block List, each block that it commits has the
/// id of its entry, and the content of the uncommitted block of that id or of the first committed
/// block of that id, as the entry says. The kept headers and the metadata are new, and no block
/// stays uncommitted.
pub fn a_commit_takes_blocks_that_were_there<C>()
    ensures ids { (f : List Piece → C) (a : PutBlockList) (p : Part C)
        → AreThere (blob_in p a.blob) a.entries
        → option_map (λ c. map (λ block. block.id) c.blocks)
        (blob_in (changed f (act.PutBlockList a) p) a.blob).committed
        ≡ Some (map (λ e. Some e.id) a.entries) }
    ensures contents { (f : List Piece → C) (a : PutBlockList) (p : Part C)
        → AreThere (blob_in p a.blob) a.entries
        → option_map (λ c. map (λ block. Some block.content) c.blocks)
        (blob_in (changed f (act.PutBlockList a) p) a.blob).committed
        ≡ Some (map (λ e. content_from e.from e.id (blob_in p a.blob)) a.entries) }
    ensures uncommitted { (b : Blob C) (id : List ℕ)
        → content_from source.Uncommitted id b ≡ finite.get b.uncommitted id }
    ensures committed { (b : Blob C) (c : Committed C) (before after : List (Block C))
        (block : Block C) (id : List ℕ)
        → b.committed ≡ Some c → c.blocks ≡ before ++ block ∷ after → block.id ≡ Some id
        → All (λ other. other.id ≢ Some id) before
        → content_from source.Committed id b ≡ Some block.content }
    ensures old { (f : List Piece → C) (a : PutBlockList) (p : Part C)
        → option_map props_and_metadata
        (blob_in (changed f (act.PutBlockList a) p) a.blob).committed
        ≡ Some (a.props, a.metadata) }
    ensures left { (f : List Piece → C) (a : PutBlockList) (p : Part C)
        → (blob_in (changed f (act.PutBlockList a) p) a.blob).uncommitted ≡ finite.empty }
{}

/// If a change gives an ETag, that ETag has the container's new count and the moment of the change.
/// If no ETag was over the count before a change that is not a row of a checkpoint, no ETag is over
/// the count after it. A change that gives the container an ETag leaves its blobs as they were, and
/// Set Container ACL leaves the container's metadata.
pub fn a_change_is_counted_and_dated<C>()
    ensures container { (f : List Piece → C) (a : Act) (p : Part C) (t : ℕ)
        → container_dated a ≡ Some t
        → option_map container_stamp (changed f a p).standing
        ≡ stamp_if (p.count + 1) t (changed f a p).standing }
    ensures blobs { (f : List Piece → C) (a : Act) (p : Part C) (t : ℕ) → container_dated a ≡ Some t
        → (changed f a p).blobs ≡ p.blobs }
    ensures blob { (f : List Piece → C) (a : Act) (p : Part C) (name : List ℕ) (t : ℕ)
        → blob_named a ≡ Some name → blob_dated a ≡ Some t
        → option_map blob_stamp (blob_in (changed f a p) name).committed
        ≡ stamp_if (p.count + 1) t (blob_in (changed f a p) name).committed }
    ensures bounded { (f : List Piece → C) (a : Act) (p : Part C) → is_row a ≡ false
        → EtagsAtMost p.count p → EtagsAtMost (p.count + 1) (changed f a p) }
    ensures acl { (f : List Piece → C) (a : SetAcl) (p : Part C)
        → option_map (λ s. s.metadata) (changed f (act.SetAcl a) p).standing
        ≡ option_map (λ s. s.metadata) p.standing }
{}

/// After the row of a stored blob, the blob has exactly the row's committed part and the row's
/// uncommitted blocks. After the row of a container, the container has exactly the row's count of
/// changes and what the row says that exists of it beside its blobs. The blobs stay as they were.
pub fn a_stored_blob_is_what_its_row_says<C>()
    ensures container { (f : List Piece → C) (a : ContainerRow) (p : Part C)
        → changed f (act.ContainerRow a) p
        ≡ record { count = a.count; standing = a.standing; blobs = p.blobs } }
    ensures committed { (f : List Piece → C) (a : StoredBlob) (p : Part C)
        → (blob_in (changed f (act.StoredBlob a) p) a.blob).committed
        ≡ option_map (committed_value f) a.committed }
    ensures uncommitted { (f : List Piece → C) (a : StoredBlob) (p : Part C) (id : List ℕ)
        → finite.get (blob_in (changed f (act.StoredBlob a) p) a.blob).uncommitted id
        ≡ listed_content f id a.uncommitted }
{}
