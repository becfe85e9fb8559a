//! Laws of what a success says of its request. Each law is the contract of a function that does
//! nothing.
ghost use Rattle.std.specs.Prelude.{◌≡◌, ◌≢◌, ◌<◌, ◌≤◌, ℕ, ◌+◌, IsSome, List, [], ◌∷◌, ◌++◌, Option, Contains, Some, None, codes, filter, length, map, unwrap_or};
ghost use Rattle.md5.specs.Md5.{md5};
ghost use Rattle.stamp_values.specs.declared.block.BlockKinds.TheVariants as kinds;
ghost use Rattle.stamp_values.specs.declared.condition.ByteRange.{ByteRange};
ghost use Rattle.stamp_values.specs.declared.key.Key.{Key};
ghost use Rattle.stamp_values.specs.declared.level.Level.TheVariants.{Closed};
ghost use Rattle.stamp_values.specs.declared.op.Op.TheVariants.{BlobProperties, ContainerProperties, CreateContainer, DeleteBlob, GetBlob, GetBlockList, PutBlob, PutBlock, PutBlockList};
ghost use Rattle.stamp_types.specs.declared.args.Kept.{Kept};
ghost use Rattle.stamp_types.specs.declared.code.Code.TheVariants.{ContainerAlreadyExists, InvalidRange, Md5Mismatch};
ghost use Rattle.stamp_types.specs.declared.header.Header.TheVariants as header;
ghost use Rattle.stamp_types.specs.declared.rule.Rule.TheVariants.{O2, O5, O6};
ghost use Rattle.stamp_types.specs.Replies.{denied};
ghost use Rattle.stamp_types.specs.Requests.{Asked, IsAsk};
ghost use Rattle.stamp_types.specs.World.{World, blob_in, part_at};
ghost use Rattle.access_rules.specs.declared.keys.Keys.{Keys};
ghost use Rattle.body_forms.specs.WrittenLists.{ListedBlock, block_list_text};
ghost use Rattle.range_rows.specs.Frames.{date_headers};
ghost use Rattle.range_rows.specs.SentContent.{with_content};
ghost use Rattle.range_rows.specs.Readings.{wanted_blocks};
ghost use Rattle.stamp_model.specs.Blocks.{wanted_bytes};
ghost use Rattle.stamp_model.specs.Conditions.{without_content_md5};
ghost use Rattle.stamp_model.specs.Ranges.{is_of_both, without_range};
ghost use Rattle.stamp_model.specs.Responses.{reply};
ghost use Rattle.stamp_model.specs.Runs.{Timed, IsAdmitted, IsIn, IsOn, world_after_one, reply_to_one};
ghost use Rattle.stamp_model.specs.Statuses.{success_status};
ghost use Rattle.stamp_model.specs.Overrides.{overrides_of};

/// A damaged body is refused. If no rule refuses a request that has a Content-MD5, its body has this
/// MD5. If no rule refuses a Put Blob that has an x-ms-blob-content-md5, its body has this MD5 too. If no
/// rule refuses a request without its Content-MD5, and its body has another MD5, the request with its
/// Content-MD5 is refused by O5 with Md5Mismatch.
pub fn a_damaged_body_is_refused()
    ensures content_md5 { (keys : Option Keys) (w : World (List ℕ)) (q : Asked) (t : ℕ)
        (bound : Option Key) (sum : List ℕ)
        → (reply keys w q t bound).rule ≡ None → q.ask.args.content_md5 ≡ Some sum
        → md5 q.body ≡ sum }
    ensures blob_md5 { (keys : Option Keys) (w : World (List ℕ)) (q : Asked) (t : ℕ)
        (bound : Option Key) (kept : Kept) (sum : List ℕ)
        → (reply keys w q t bound).rule ≡ None → q.ask.op ≡ PutBlob
        → q.ask.args.kept ≡ Some kept → kept.md5 ≡ Some sum → md5 q.body ≡ sum }
    ensures told { (keys : Option Keys) (w : World (List ℕ)) (q : Asked) (t : ℕ)
        (bound : Option Key) (sum : List ℕ)
        → (reply keys w (without_content_md5 q) t bound).rule ≡ None
        → q.ask.args.content_md5 ≡ Some sum → md5 q.body ≢ sum
        → reply keys w q t bound ≡ denied (record { rule = O5; code = Md5Mismatch }) }
{}

/// A blob is read with the MD5 of its bytes: after an accepted Put Blob, the reply to a Get Blob
/// without a range that comes next has a Content-MD5, which is the MD5 of the body of that reply.
pub fn a_blob_is_read_with_the_md5_of_its_bytes()
    ensures { (w : World (List ℕ)) (key : Key) (name : List ℕ) (put get : Timed)
        → IsAsk put.request.ask → IsOn PutBlob key name put.request
        → IsOn GetBlob key name get.request → get.request.ask.args.range ≡ None
        → (reply_to_one w put).rule ≡ None
        → (reply_to_one (world_after_one w put) get).rule ≡ None
        → Contains (reply_to_one (world_after_one w put) get).headers
        (header.ContentMd5 (md5 (reply_to_one (world_after_one w put) get).body)) }
{}

/// If no rule refuses a request, its reply has the status of its operation: 201 if the operation
/// makes something, 202 if it deletes something, 206 if the request has a range, and else 200.
pub fn a_success_has_the_status_of_its_operation()
    ensures { (keys : Option Keys) (w : World (List ℕ)) (q : Asked) (t : ℕ) (bound : Option Key)
        → (reply keys w q t bound).rule ≡ None
        → (reply keys w q t bound).status ≡ success_status q.ask.op q.ask.args.range }
{}

/// Get Blob Properties tells what Get Blob tells. If no rule refuses either of the two, the Get Blob
/// has no range, and their tokens override the same headers with the same texts, the second reply is
/// the first reply with its body: the status, the headers and the length are the same. A request
/// without a token overrides no header.
pub fn properties_are_what_get_blob_tells()
    ensures { (w : World (List ℕ)) (key : Key) (name : List ℕ) (properties get : Timed)
        → IsOn BlobProperties key name properties.request → IsOn GetBlob key name get.request
        → get.request.ask.args.range ≡ None
        → overrides_of get.request.ask ≡ overrides_of properties.request.ask
        → (reply_to_one w properties).rule ≡ None → (reply_to_one w get).rule ≡ None
        → reply_to_one w get ≡ with_content (reply_to_one w properties) (reply_to_one w get).body }
{}

/// A range is refused only past the end. If no rule refuses a request without its range, and the
/// first byte of the range is a byte of that reply, no rule refuses the request with its range. If the
/// first byte comes after the last byte of that reply, the request with its range is refused by O6
/// with InvalidRange.
pub fn a_range_is_refused_only_past_the_end()
    ensures within { (keys : Option Keys) (w : World (List ℕ)) (q : Asked) (t : ℕ)
        (bound : Option Key) (range : ByteRange)
        → IsAsk q.ask → q.ask.args.range ≡ Some range
        → (reply keys w (without_range q) t bound).rule ≡ None
        → range.first < length (reply keys w (without_range q) t bound).body
        → (reply keys w q t bound).rule ≡ None }
    ensures past { (keys : Option Keys) (w : World (List ℕ)) (q : Asked) (t : ℕ)
        (bound : Option Key) (range : ByteRange)
        → IsAsk q.ask → q.ask.args.range ≡ Some range
        → (reply keys w (without_range q) t bound).rule ≡ None
        → length (reply keys w (without_range q) t bound).body ≤ range.first
        → reply keys w q t bound ≡ denied (record { rule = O6; code = InvalidRange }) }
{}

/// A part has the other headers of the whole. If no rule refuses a request with a range, its reply
/// has the headers of the reply to the same request without its range, in their order, beside
/// Content-MD5 and Content-Range.
pub fn a_part_has_the_other_headers_of_the_whole()
    ensures { (keys : Option Keys) (w : World (List ℕ)) (q : Asked) (t : ℕ) (bound : Option Key)
        (range : ByteRange)
        → IsAsk q.ask → q.ask.args.range ≡ Some range → (reply keys w q t bound).rule ≡ None
        → filter is_of_both (reply keys w q t bound).headers
        ≡ filter is_of_both (reply keys w (without_range q) t bound).headers }
{}

/// A container is made as it is asked for. If a Create Container is accepted, its container has the
/// metadata and the level that were asked for, and no policy; it is closed if no level was asked for.
/// The reply to a Get Container Properties that comes next has these metadata, and the ETag and the
/// moment of the reply to the Create Container. A Create Container of a container that exists is
/// refused by O2, if permission admits it.
pub fn a_container_is_made_as_it_is_asked_for()
    ensures made { (w : World (List ℕ)) (key : Key) (create : Timed)
        → IsIn CreateContainer key create.request → (reply_to_one w create).rule ≡ None
        → (part_at (world_after_one w create) key).standing
        ≡ Some (record {
          etag = (part_at w key).count + 1;
          made = create.moment;
          metadata = create.request.ask.args.metadata;
          acl = record { level = unwrap_or create.request.ask.args.level Closed; policies = [] };
        }) }
    ensures create { (w : World (List ℕ)) (key : Key) (create : Timed)
        → IsIn CreateContainer key create.request → (reply_to_one w create).rule ≡ None
        → (reply_to_one w create).headers ≡ date_headers ((part_at w key).count + 1) create.moment }
    ensures properties { (w : World (List ℕ)) (key : Key) (create get : Timed)
        → IsIn CreateContainer key create.request → IsIn ContainerProperties key get.request
        → (reply_to_one w create).rule ≡ None
        → (reply_to_one (world_after_one w create) get).rule ≡ None
        → (reply_to_one (world_after_one w create) get).headers
        ≡ map header.Meta create.request.ask.args.metadata ++ (reply_to_one w create).headers }
    ensures exists { (w : World (List ℕ)) (key : Key) (create : Timed)
        → IsIn CreateContainer key create.request → IsSome (part_at w key).standing
        → IsAdmitted w create
        → reply_to_one w create ≡ denied (record { rule = O2; code = ContainerAlreadyExists }) }
{}

/// Only a blob that readers see is deleted: if a Delete Blob is accepted, readers saw its blob before
/// it.
pub fn only_a_blob_that_is_seen_is_deleted()
    ensures { (w : World (List ℕ)) (key : Key) (name : List ℕ) (delete : Timed)
        → IsOn DeleteBlob key name delete.request → (reply_to_one w delete).rule ≡ None
        → IsSome (blob_in (part_at w key) name).committed }
{}

/// The reply to an accepted Put Block has the MD5 of its body, and no other header.
pub fn a_put_block_is_answered_with_its_md5()
    ensures { (w : World (List ℕ)) (key : Key) (put : Timed)
        → IsIn PutBlock key put.request → (reply_to_one w put).rule ≡ None
        → (reply_to_one w put).headers ≡ header.ContentMd5 (md5 put.request.body) ∷ [] }
{}

/// A block list shows the kinds that are asked for: a Get Block List that no rule refuses shows the
/// list of committed blocks, the list of uncommitted blocks, or both lists, as it asks. If it is the
/// next request after an accepted Put Block List, its headers are its content type, the length of the
/// content that was committed, and the ETag and the moment of the reply to the Put Block List.
pub fn a_block_list_shows_the_kinds_that_are_asked_for()
    ensures committed { (w : World (List ℕ)) (key : Key) (name : List ℕ) (read : Timed)
        → IsOn GetBlockList key name read.request → (reply_to_one w read).rule ≡ None
        → read.request.ask.args.kinds ≡ Some kinds.Committed
        → (blocks : List ListedBlock)
        × ((reply_to_one w read).body ≡ block_list_text (Some blocks) None) }
    ensures uncommitted { (w : World (List ℕ)) (key : Key) (name : List ℕ) (read : Timed)
        → IsOn GetBlockList key name read.request → (reply_to_one w read).rule ≡ None
        → read.request.ask.args.kinds ≡ Some kinds.Uncommitted
        → (blocks : List ListedBlock)
        × ((reply_to_one w read).body ≡ block_list_text None (Some blocks)) }
    ensures all { (w : World (List ℕ)) (key : Key) (name : List ℕ) (read : Timed)
        → IsOn GetBlockList key name read.request → (reply_to_one w read).rule ≡ None
        → read.request.ask.args.kinds ≡ Some kinds.All
        → (committed : List ListedBlock) × (uncommitted : List ListedBlock)
        × ((reply_to_one w read).body ≡ block_list_text (Some committed) (Some uncommitted)) }
    ensures headers { (w : World (List ℕ)) (key : Key) (name : List ℕ) (list read : Timed)
        → IsAsk list.request.ask → IsOn PutBlockList key name list.request
        → (reply_to_one w list).rule ≡ None → IsOn GetBlockList key name read.request
        → (reply_to_one (world_after_one w list) read).rule ≡ None
        → (reply_to_one (world_after_one w list) read).headers
        ≡ header.ContentType (codes "application/xml")
        ∷ header.BlobLength (length (wanted_bytes (blob_in (part_at w key) name) (wanted_blocks list.request)))
        ∷ date_headers ((part_at w key).count + 1) list.moment }
{}
