//! Laws of what stays until it is written again. Each law is the contract of a function that does
//! nothing.
ghost use Rattle.std.specs.Prelude.{◌≡◌, ◌⊎◌, ℕ, IsTrue, List, ◌∷◌, ◌++◌, Option, Some, None, map};
ghost use Rattle.std.specs.Option.{option_map};
ghost use Rattle.stamp_values.specs.declared.key.Key.{Key};
ghost use Rattle.stamp_values.specs.declared.meta.Meta.{Meta};
ghost use Rattle.stamp_values.specs.declared.op.Op.TheVariants.{DeleteBlob, GetBlob, GetMetadata, PutBlob, PutBlockList, SetMetadata};
ghost use Rattle.stamp_types.specs.declared.args.Kept.{Kept};
ghost use Rattle.stamp_types.specs.declared.code.Code.TheVariants.{BlobNotFound, ContainerNotFound};
ghost use Rattle.stamp_types.specs.declared.header.Header.TheVariants as header;
ghost use Rattle.stamp_types.specs.declared.rule.Rule.TheVariants.{O1, O3};
ghost use Rattle.stamp_types.specs.EffectKinds.{blocks_and_props};
ghost use Rattle.stamp_types.specs.PropsFields.{kept_fields};
ghost use Rattle.stamp_types.specs.Replies.{denied};
ghost use Rattle.stamp_types.specs.Requests.{Asked, IsAsk};
ghost use Rattle.stamp_types.specs.World.{World, blob_in, part_at};
ghost use Rattle.access_rules.specs.declared.keys.Keys.{Keys};
ghost use Rattle.range_rows.specs.Frames.{date_headers, kept_lines};
ghost use Rattle.range_rows.specs.ObjectRules.{needs_blob};
ghost use Rattle.range_rows.specs.Readings.{wanted_blocks};
ghost use Rattle.range_rows.specs.RequestChanges.{put_props};
ghost use Rattle.stamp_model.specs.Blocks.{reads_committed, wanted_bytes};
ghost use Rattle.stamp_model.specs.Effects.{effect};
ghost use Rattle.stamp_model.specs.Kept.{LeavesBlob, LeavesContent, LeavesSeen, SparesAbsence, SparesContent, SparesSeen};
ghost use Rattle.stamp_model.specs.Runs.{Timed, IsAdmitted, IsOn, world_after_one, world_after_all, reply_to_one};
ghost use Rattle.stamp_model.specs.Overrides.{overrides_of};

/// A blob is changed by its own requests. A request leaves a blob as it was, with its uncommitted
/// blocks, unless it writes this very blob, or makes or deletes its container. Put Block leaves what
/// readers see of the blob, and Set Blob Metadata leaves its content and the headers that are kept
/// with it.
pub fn a_blob_is_changed_by_its_own_requests()
    ensures blob { (keys : Option Keys) (w : World (List ℕ)) (q : Asked) (t : ℕ) (key : Key)
        (name : List ℕ)
        → LeavesBlob key name q
        → blob_in (part_at (effect keys w q t) key) name ≡ blob_in (part_at w key) name }
    ensures seen { (keys : Option Keys) (w : World (List ℕ)) (q : Asked) (t : ℕ) (key : Key)
        (name : List ℕ)
        → LeavesSeen key name q
        → (blob_in (part_at (effect keys w q t) key) name).committed
        ≡ (blob_in (part_at w key) name).committed }
    ensures content { (keys : Option Keys) (w : World (List ℕ)) (q : Asked) (t : ℕ) (key : Key)
        (name : List ℕ)
        → LeavesContent key name q
        → option_map blocks_and_props (blob_in (part_at (effect keys w q t) key) name).committed
        ≡ option_map blocks_and_props (blob_in (part_at w key) name).committed }
{}

/// What was written last is read, whatever came between that was refused or did not ask to write it
/// again. If a Put Blob or a Put Block List is accepted, and each request after it leaves the content
/// of the blob or is refused where it comes, a Get Blob without a range that no rule refuses has that
/// content and the headers that were kept with it. If a Set Blob Metadata is accepted, and each
/// request after it leaves what readers see of the blob or is refused, a Get Blob Metadata that no
/// rule refuses has these metadata, and the ETag and the moment that the reply to the Set Blob
/// Metadata gave. A request that reads only what is committed of a blob has the reply that it would
/// have had before requests that leave what readers see of the blob or are refused, if no rule
/// refuses it before or after them. After an accepted Delete Blob, and requests that give the blob
/// no content or are refused, O1 or O3 refuses each request that needs the blob and that permission
/// admits.
pub fn what_was_written_last_is_read()
    ensures body { (w : World (List ℕ)) (key : Key) (name : List ℕ)
        (put : Timed) (middle : List Timed) (get : Timed)
        → IsAsk put.request.ask → IsOn PutBlob key name put.request
        → (reply_to_one w put).rule ≡ None
        → SparesContent key name (world_after_one w put) middle → IsOn GetBlob key name get.request
        → get.request.ask.args.range ≡ None
        → (reply_to_one (world_after_all w (put ∷ middle)) get).rule ≡ None
        → (reply_to_one (world_after_all w (put ∷ middle)) get).body
        ≡ put.request.body }
    ensures kept { (w : World (List ℕ)) (key : Key) (name : List ℕ)
        (kept : Kept) (put : Timed) (middle : List Timed) (get : Timed)
        → IsOn PutBlob key name put.request → put.request.ask.args.kept ≡ Some kept
        → (reply_to_one w put).rule ≡ None
        → SparesContent key name (world_after_one w put) middle → IsOn GetBlob key name get.request
        → get.request.ask.args.range ≡ None
        → (reply_to_one (world_after_all w (put ∷ middle)) get).rule ≡ None
        → (metadata : List Meta) × (etag : ℕ) × (made : ℕ)
        × ((reply_to_one (world_after_all w (put ∷ middle)) get).headers
        ≡ kept_lines (overrides_of get.request.ask) (put_props put.request kept) ++ map header.Meta metadata
        ++ header.BlobType ∷ header.AcceptRanges ∷ date_headers etag made) }
    ensures list { (w : World (List ℕ)) (key : Key) (name : List ℕ)
        (list : Timed) (middle : List Timed) (get : Timed)
        → IsAsk list.request.ask → IsOn PutBlockList key name list.request
        → (reply_to_one w list).rule ≡ None
        → SparesContent key name (world_after_one w list) middle → IsOn GetBlob key name get.request
        → get.request.ask.args.range ≡ None
        → (reply_to_one (world_after_all w (list ∷ middle)) get).rule ≡ None
        → (reply_to_one (world_after_all w (list ∷ middle)) get).body
        ≡ wanted_bytes (blob_in (part_at w key) name) (wanted_blocks list.request) }
    ensures kept_list { (w : World (List ℕ)) (key : Key) (name : List ℕ)
        (kept : Kept) (list : Timed) (middle : List Timed) (get : Timed)
        → IsOn PutBlockList key name list.request → list.request.ask.args.kept ≡ Some kept
        → (reply_to_one w list).rule ≡ None
        → SparesContent key name (world_after_one w list) middle → IsOn GetBlob key name get.request
        → get.request.ask.args.range ≡ None
        → (reply_to_one (world_after_all w (list ∷ middle)) get).rule ≡ None
        → (metadata : List Meta) × (etag : ℕ) × (made : ℕ)
        × ((reply_to_one (world_after_all w (list ∷ middle)) get).headers
        ≡ kept_lines (overrides_of get.request.ask) (kept_fields kept None) ++ map header.Meta metadata
        ++ header.BlobType ∷ header.AcceptRanges ∷ date_headers etag made) }
    ensures metadata { (w : World (List ℕ)) (key : Key) (name : List ℕ)
        (set : Timed) (middle : List Timed) (get : Timed)
        → IsOn SetMetadata key name set.request → (reply_to_one w set).rule ≡ None
        → SparesSeen key name (world_after_one w set) middle → IsOn GetMetadata key name get.request
        → (reply_to_one (world_after_all w (set ∷ middle)) get).rule ≡ None
        → (reply_to_one (world_after_all w (set ∷ middle)) get).headers
        ≡ map header.Meta set.request.ask.args.metadata ++ (reply_to_one w set).headers }
    ensures later { (w : World (List ℕ)) (name : List ℕ)
        (middle : List Timed) (read : Timed)
        → read.request.ask.blob ≡ Some name
        → IsTrue (reads_committed read.request.ask.op read.request.ask.args.kinds)
        → SparesSeen read.request.ask.key name w middle
        → (reply_to_one w read).rule ≡ None
        → (reply_to_one (world_after_all w middle) read).rule ≡ None
        → reply_to_one (world_after_all w middle) read ≡ reply_to_one w read }
    ensures deleted { (w : World (List ℕ)) (key : Key) (name : List ℕ)
        (delete : Timed) (middle : List Timed) (read : Timed)
        → IsOn DeleteBlob key name delete.request → (reply_to_one w delete).rule ≡ None
        → SparesAbsence key name (world_after_one w delete) middle → read.request.ask.key ≡ key
        → read.request.ask.blob ≡ Some name → IsTrue (needs_blob read.request.ask.op)
        → IsAdmitted (world_after_all w (delete ∷ middle)) read
        → (reply_to_one (world_after_all w (delete ∷ middle)) read
        ≡ denied (record { rule = O1; code = ContainerNotFound }))
        ⊎ (reply_to_one (world_after_all w (delete ∷ middle)) read
        ≡ denied (record { rule = O3; code = BlobNotFound })) }
{}
