//! Laws of blocks and of block lists. Each law is the contract of a function that does nothing.
ghost use Rattle.std.specs.Prelude.{◌≡◌, ◌≢◌, ℕ, ◌+◌, IsTrue, All, List, [], ◌∷◌, ◌++◌, Some, None, length, map};
ghost use Rattle.std.specs.FinMap as finite;
ghost use Rattle.md5.specs.Md5.{md5};
ghost use Rattle.stamp_values.specs.declared.block.BlockSource.TheVariants as source;
ghost use Rattle.stamp_values.specs.declared.key.Key.{Key};
ghost use Rattle.stamp_values.specs.declared.op.Op.{Op};
ghost use Rattle.stamp_values.specs.declared.op.Op.TheVariants.{BlobProperties, DeleteBlob, GetBlob, GetBlockList, PutBlob, PutBlock, PutBlockList};
ghost use Rattle.stamp_values.specs.declared.signing.Credential.TheVariants.{Anonymous};
ghost use Rattle.stamp_types.specs.declared.args.Kept.{Kept};
ghost use Rattle.stamp_types.specs.declared.code.Code.TheVariants.{BlobNotFound};
ghost use Rattle.stamp_types.specs.declared.header.Header.TheVariants as header;
ghost use Rattle.stamp_types.specs.declared.rule.Rule.{Rule};
ghost use Rattle.stamp_types.specs.declared.rule.Rule.TheVariants.{O3};
ghost use Rattle.stamp_types.specs.PropsFields.{kept_fields};
ghost use Rattle.stamp_types.specs.Replies.{denied};
ghost use Rattle.stamp_types.specs.Requests.{IsAsk};
ghost use Rattle.stamp_types.specs.World.{World, blob_in, content_from, part_at};
ghost use Rattle.block_blobs.specs.BlockLists.{first_missing};
ghost use Rattle.body_forms.specs.WrittenLists.{ListedBlock, block_list_text};
ghost use Rattle.range_rows.specs.Frames.{date_headers, kept_lines};
ghost use Rattle.range_rows.specs.ShownBlocks.{if_shown, shows_committed, shows_uncommitted};
ghost use Rattle.range_rows.specs.Readings.{wanted_blocks};
ghost use Rattle.stamp_model.specs.Blocks.{ListsUncommitted, reads_committed, takes_blocks, wanted_bytes, wanted_listed};
ghost use Rattle.stamp_model.specs.Runs.{Timed, IsAdmitted, IsOn, world_after_one, world_after_all, reply_to_one};
ghost use Rattle.stamp_model.specs.Overrides.{overrides_of};

/// A commit is seen whole or not at all. A Put Block, accepted or refused, changes no reply to a
/// request that reads only what is committed: such a request has the reply that it would have had
/// without the Put Block. The same is so of any number of Put Blocks in turn, and of each request
/// without a credential, whatever it asks for. After a Put Block each blob has the ETag that it had.
/// An accepted Put Block is one change of its container. It leaves its body as the uncommitted block
/// of its id, and leaves each uncommitted block of another id as it was.
///
/// If a Put Block List is accepted, each block that it wants is found in the blob as it was before.
/// The reply to a Get Blob without a range that comes next has the content of these blocks, as the
/// blob had it before, in the order of the list, and the ETag and the moment of the reply to the Put
/// Block List; the reply to a Get Blob Properties has the length of that content. If a Put Block List
/// is refused, all containers stay as they are.
pub fn a_commit_is_seen_whole_or_not_at_all()
    ensures unseen { (w : World (List ℕ)) (put read : Timed)
        → put.request.ask.op ≡ PutBlock → IsAsk read.request.ask
        → IsTrue (reads_committed read.request.ask.op read.request.ask.args.kinds)
        → reply_to_one (world_after_one w put) read ≡ reply_to_one w read }
    ensures unseen_all { (w : World (List ℕ)) (puts : List Timed)
        (read : Timed)
        → All (λ put. put.request.ask.op ≡ PutBlock) puts → IsAsk read.request.ask
        → IsTrue (reads_committed read.request.ask.op read.request.ask.args.kinds)
        → reply_to_one (world_after_all w puts) read ≡ reply_to_one w read }
    ensures public { (w : World (List ℕ)) (put read : Timed)
        → put.request.ask.op ≡ PutBlock → IsAsk read.request.ask
        → read.request.ask.credential ≡ Anonymous
        → reply_to_one (world_after_one w put) read ≡ reply_to_one w read }
    ensures committed { (w : World (List ℕ)) (put : Timed) (key : Key)
        (name : List ℕ)
        → put.request.ask.op ≡ PutBlock
        → (blob_in (part_at (world_after_one w put) key) name).committed
        ≡ (blob_in (part_at w key) name).committed }
    ensures counted { (w : World (List ℕ)) (key : Key) (name id : List ℕ)
        (put : Timed)
        → IsOn PutBlock key name put.request → put.request.ask.args.block ≡ Some id
        → (reply_to_one w put).rule ≡ None
        → (part_at (world_after_one w put) key).count ≡ (part_at w key).count + 1 }
    ensures put { (w : World (List ℕ)) (key : Key) (name id : List ℕ)
        (put : Timed)
        → IsOn PutBlock key name put.request → put.request.ask.args.block ≡ Some id
        → (reply_to_one w put).rule ≡ None
        → content_from source.Uncommitted id
        (blob_in (part_at (world_after_one w put) key) name) ≡ Some put.request.body }
    ensures other { (w : World (List ℕ)) (key : Key) (name id other : List ℕ)
        (put : Timed)
        → IsOn PutBlock key name put.request → put.request.ask.args.block ≡ Some id
        → (reply_to_one w put).rule ≡ None → other ≢ id
        → content_from source.Uncommitted other
        (blob_in (part_at (world_after_one w put) key) name)
        ≡ content_from source.Uncommitted other (blob_in (part_at w key) name) }
    ensures found { (w : World (List ℕ)) (key : Key) (name : List ℕ)
        (list : Timed)
        → IsOn PutBlockList key name list.request → (reply_to_one w list).rule ≡ None
        → first_missing (blob_in (part_at w key) name) (wanted_blocks list.request) ≡ None }
    ensures body { (w : World (List ℕ)) (key : Key) (name : List ℕ)
        (list get : Timed)
        → IsAsk list.request.ask → IsOn PutBlockList key name list.request
        → IsOn GetBlob key name get.request → get.request.ask.args.range ≡ None
        → (reply_to_one w list).rule ≡ None
        → (reply_to_one (world_after_one w list) get).rule ≡ None
        → (reply_to_one (world_after_one w list) get).body
        ≡ wanted_bytes (blob_in (part_at w key) name) (wanted_blocks list.request) }
    ensures length { (w : World (List ℕ)) (key : Key) (name : List ℕ)
        (list get : Timed)
        → IsAsk list.request.ask → IsOn PutBlockList key name list.request
        → IsOn BlobProperties key name get.request → (reply_to_one w list).rule ≡ None
        → (reply_to_one (world_after_one w list) get).rule ≡ None
        → (reply_to_one (world_after_one w list) get).length
        ≡ length (wanted_bytes (blob_in (part_at w key) name) (wanted_blocks list.request)) }
    ensures list { (w : World (List ℕ)) (key : Key) (name : List ℕ)
        (list : Timed)
        → IsAsk list.request.ask → IsOn PutBlockList key name list.request
        → (reply_to_one w list).rule ≡ None
        → (reply_to_one w list).headers
        ≡ header.ContentMd5 (md5 list.request.body)
        ∷ date_headers ((part_at w key).count + 1) list.moment }
    ensures get { (w : World (List ℕ)) (key : Key) (name : List ℕ)
        (kept : Kept) (list get : Timed)
        → IsOn PutBlockList key name list.request → list.request.ask.args.kept ≡ Some kept
        → IsOn GetBlob key name get.request → get.request.ask.args.range ≡ None
        → (reply_to_one w list).rule ≡ None
        → (reply_to_one (world_after_one w list) get).rule ≡ None
        → (reply_to_one (world_after_one w list) get).headers
        ≡ kept_lines (overrides_of get.request.ask) (kept_fields kept None)
        ++ map header.Meta list.request.ask.args.metadata
        ++ header.BlobType ∷ header.AcceptRanges
        ∷ date_headers ((part_at w key).count + 1) list.moment }
    ensures refused { (w : World (List ℕ)) (list : Timed) (rule : Rule)
        → list.request.ask.op ≡ PutBlockList → (reply_to_one w list).rule ≡ Some rule
        → world_after_one w list ≡ w }
{}

/// No uncommitted block outlives a commit. After an accepted Put Blob, Put Block List or Delete Blob,
/// the blob has no uncommitted block. After a Delete Blob, O3 refuses each Get Block List of the blob
/// that permission admits.
pub fn no_block_outlives_its_commit()
    ensures gone { (w : World (List ℕ)) (key : Key) (name : List ℕ) (o : Op)
        (commit : Timed)
        → IsAsk commit.request.ask → IsTrue (takes_blocks o) → IsOn o key name commit.request
        → (reply_to_one w commit).rule ≡ None
        → (blob_in (part_at (world_after_one w commit) key) name).uncommitted
        ≡ finite.empty }
    ensures deleted { (w : World (List ℕ)) (key : Key) (name : List ℕ)
        (delete list : Timed)
        → IsOn DeleteBlob key name delete.request → IsOn GetBlockList key name list.request
        → (reply_to_one w delete).rule ≡ None
        → IsAdmitted (world_after_one w delete) list
        → reply_to_one (world_after_one w delete) list
        ≡ denied (record { rule = O3; code = BlobNotFound }) }
{}

/// A block list shows the blocks of the kinds that are asked for. If the next request after an
/// accepted Put Block List is a Get Block List of the blob, and no rule refuses it, the committed
/// blocks are the wanted blocks, each with its number of bytes, in the order of the list, and there is
/// no uncommitted block. After an accepted Put Blob it shows no block, since the block of a blob that
/// was put whole has no id. If a Get Block List that no rule refuses asks for the uncommitted blocks,
/// it shows those of the blob, each once, with its number of bytes, in the order of the ids.
pub fn a_block_list_shows_the_blocks()
    ensures committed { (w : World (List ℕ)) (key : Key) (name : List ℕ)
        (list read : Timed)
        → IsAsk list.request.ask → IsOn PutBlockList key name list.request
        → (reply_to_one w list).rule ≡ None → IsOn GetBlockList key name read.request
        → (reply_to_one (world_after_one w list) read).rule ≡ None
        → (reply_to_one (world_after_one w list) read).body
        ≡ block_list_text
        (if_shown (shows_committed read.request.ask.args.kinds)
        (map (wanted_listed (blob_in (part_at w key) name)) (wanted_blocks list.request)))
        (if_shown (shows_uncommitted read.request.ask.args.kinds) []) }
    ensures whole { (w : World (List ℕ)) (key : Key) (name : List ℕ)
        (put read : Timed)
        → IsAsk put.request.ask → IsOn PutBlob key name put.request
        → (reply_to_one w put).rule ≡ None → IsOn GetBlockList key name read.request
        → (reply_to_one (world_after_one w put) read).rule ≡ None
        → (reply_to_one (world_after_one w put) read).body
        ≡ block_list_text (if_shown (shows_committed read.request.ask.args.kinds) [])
        (if_shown (shows_uncommitted read.request.ask.args.kinds) []) }
    ensures uncommitted { (w : World (List ℕ)) (key : Key) (name : List ℕ)
        (read : Timed)
        → IsOn GetBlockList key name read.request → (reply_to_one w read).rule ≡ None
        → (committed : List ListedBlock) × (us : List ListedBlock)
        × ListsUncommitted (blob_in (part_at w key) name) us
        × ((reply_to_one w read).body
        ≡ block_list_text (if_shown (shows_committed read.request.ask.args.kinds) committed)
        (if_shown (shows_uncommitted read.request.ask.args.kinds) us)) }
{}
