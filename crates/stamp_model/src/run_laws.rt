//! Laws of requests that are answered in turn. Each law is the contract of a function that does
//! nothing.
ghost use Rattle.std.specs.Prelude.{◌≡◌, ℕ, ◌+◌, IsTrue, List, [], ◌∷◌, ◌++◌, Some, None, length, map};
ghost use Rattle.md5.specs.Md5.{md5};
ghost use Rattle.stamp_values.specs.declared.key.Key.{Key};
ghost use Rattle.stamp_values.specs.declared.op.Op.TheVariants.{BlobProperties, ContainerProperties, CreateContainer, DeleteBlob, DeleteContainer, GetAcl, GetBlob, GetMetadata, PutBlob, SetAcl, SetContainerMetadata, SetMetadata};
ghost use Rattle.stamp_types.specs.declared.args.Kept.{Kept};
ghost use Rattle.stamp_types.specs.declared.code.Code.TheVariants.{BlobNotFound, ContainerNotFound};
ghost use Rattle.stamp_types.specs.declared.header.Header.TheVariants as header;
ghost use Rattle.stamp_types.specs.declared.reply.Reply.{Reply};
ghost use Rattle.stamp_types.specs.declared.rule.Rule.{Rule};
ghost use Rattle.stamp_types.specs.declared.rule.Rule.TheVariants.{O1, O3};
ghost use Rattle.stamp_types.specs.Replies.{denied};
ghost use Rattle.stamp_types.specs.Requests.{IsAsk};
ghost use Rattle.stamp_types.specs.World.{World, part_at};
ghost use Rattle.range_rows.specs.Frames.{date_headers, kept_lines};
ghost use Rattle.range_rows.specs.ObjectRules.{needs_blob, needs_container};
ghost use Rattle.range_rows.specs.RequestChanges.{put_props};
ghost use Rattle.stamp_model.specs.Runs.{Timed, AreAnswered, IsAdmitted, IsIn, IsOn, world_after_one, world_after_all, reply_to_one, replies_to};
ghost use Rattle.stamp_model.specs.ShownAcls.{ShowsAcl};
ghost use Rattle.stamp_model.specs.Overrides.{overrides_of};

/// Each request has one reply, which follows from what the requests before it left. So the replies
/// to the first requests do not depend on what comes after these requests.
pub fn each_request_has_the_reply_of_its_position()
    ensures count { (w : World (List ℕ)) (rs : List Timed)
        → length (replies_to w rs) ≡ length rs }
    ensures some { (w : World (List ℕ)) (front : List Timed) (r : Timed)
        (rest : List Timed)
        → AreAnswered w front r rest (replies_to w front)
        (reply_to_one (world_after_all w front) r)
        (replies_to (world_after_all w (front ++ r ∷ [])) rest) }
    ensures once { (w : World (List ℕ)) (front : List Timed) (r : Timed)
        (rest : List Timed) (before : List Reply) (answer : Reply) (after : List Reply)
        → AreAnswered w front r rest before answer after
        → answer ≡ reply_to_one (world_after_all w front) r }
    ensures front { (w : World (List ℕ)) (front : List Timed) (r : Timed)
        (rest : List Timed) (before : List Reply) (answer : Reply) (after : List Reply)
        → AreAnswered w front r rest before answer after → before ≡ replies_to w front }
{}

/// A reply names no rule only if the request's own route admits the request: by the account's keys,
/// or by what its container gives to all callers, as the requests before it left that container.
pub fn only_what_the_own_route_admits_is_answered()
    ensures { (w : World (List ℕ)) (front : List Timed) (r : Timed)
        (rest : List Timed) (before : List Reply) (answer : Reply) (after : List Reply)
        → AreAnswered w front r rest before answer after → answer.rule ≡ None
        → IsAdmitted (world_after_all w front) r }
{}

/// If a request is refused, it changes no other reply: without it, all requests before it and after
/// it have the replies that they have with it, and the containers are the same in the end.
pub fn a_refused_request_changes_no_other_reply()
    ensures replies { (w : World (List ℕ)) (front : List Timed) (r : Timed)
        (rest : List Timed) (before : List Reply) (answer : Reply) (after : List Reply)
        (rule : Rule)
        → AreAnswered w front r rest before answer after → answer.rule ≡ Some rule
        → replies_to w (front ++ rest) ≡ before ++ after }
    ensures world { (w : World (List ℕ)) (front : List Timed) (r : Timed)
        (rest : List Timed) (before : List Reply) (answer : Reply) (after : List Reply)
        (rule : Rule)
        → AreAnswered w front r rest before answer after → answer.rule ≡ Some rule
        → world_after_all w (front ++ rest) ≡ world_after_all w (front ++ r ∷ rest) }
{}

/// What is written is read by the request that comes next. Each clause begins with a request that is
/// accepted: its reply names no rule. After a Put Blob, the reply to a Get Blob without a range has
/// the body that was put, and the ETag and the moment of the reply to the Put Blob; the reply to a Get Blob Properties
/// has the length of that body. After Set Blob Metadata or Set Container Metadata, the metadata that
/// were set are read, with the ETag and the moment of the reply to that request. After a Set Container
/// ACL, the level that was asked for and exactly the policies of the body are read. After a Delete
/// Blob, each request that needs the blob and that permission admits is refused by O3. After a Delete
/// Container, each request that needs the container and that permission admits is refused by O1. If
/// the container is then made again, each request that needs a blob of it and that permission admits
/// is refused by O3. What a Put Block and a Put Block List write has a law of its own,
/// `a_commit_is_seen_whole_or_not_at_all`.
pub fn what_is_written_is_read()
    ensures body { (w : World (List ℕ)) (key : Key) (name : List ℕ)
        (put get : Timed)
        → IsAsk put.request.ask → IsOn PutBlob key name put.request
        → IsOn GetBlob key name get.request → get.request.ask.args.range ≡ None
        → (reply_to_one w put).rule ≡ None
        → (reply_to_one (world_after_one w put) get).rule ≡ None
        → (reply_to_one (world_after_one w put) get).body ≡ put.request.body }
    ensures put { (w : World (List ℕ)) (key : Key) (name : List ℕ)
        (kept : Kept) (put : Timed)
        → IsOn PutBlob key name put.request → put.request.ask.args.kept ≡ Some kept
        → (reply_to_one w put).rule ≡ None
        → (reply_to_one w put).headers
        ≡ header.ContentMd5 (md5 put.request.body)
        ∷ date_headers ((part_at w key).count + 1) put.moment }
    ensures get { (w : World (List ℕ)) (key : Key) (name : List ℕ)
        (kept : Kept) (put get : Timed)
        → IsOn PutBlob key name put.request → put.request.ask.args.kept ≡ Some kept
        → IsOn GetBlob key name get.request → get.request.ask.args.range ≡ None
        → (reply_to_one w put).rule ≡ None
        → (reply_to_one (world_after_one w put) get).rule ≡ None
        → (reply_to_one (world_after_one w put) get).headers
        ≡ kept_lines (overrides_of get.request.ask) (put_props put.request kept)
        ++ map header.Meta put.request.ask.args.metadata
        ++ header.BlobType ∷ header.AcceptRanges
        ∷ date_headers ((part_at w key).count + 1) put.moment }
    ensures length { (w : World (List ℕ)) (key : Key) (name : List ℕ)
        (put get : Timed)
        → IsAsk put.request.ask → IsOn PutBlob key name put.request
        → IsOn BlobProperties key name get.request → (reply_to_one w put).rule ≡ None
        → (reply_to_one (world_after_one w put) get).rule ≡ None
        → (reply_to_one (world_after_one w put) get).length
        ≡ length put.request.body }
    ensures set { (w : World (List ℕ)) (key : Key) (name : List ℕ)
        (set : Timed)
        → IsOn SetMetadata key name set.request → (reply_to_one w set).rule ≡ None
        → (reply_to_one w set).headers
        ≡ date_headers ((part_at w key).count + 1) set.moment }
    ensures metadata { (w : World (List ℕ)) (key : Key) (name : List ℕ)
        (set get : Timed)
        → IsOn SetMetadata key name set.request → IsOn GetMetadata key name get.request
        → (reply_to_one w set).rule ≡ None
        → (reply_to_one (world_after_one w set) get).rule ≡ None
        → (reply_to_one (world_after_one w set) get).headers
        ≡ map header.Meta set.request.ask.args.metadata ++ (reply_to_one w set).headers }
    ensures set_container { (w : World (List ℕ)) (key : Key) (set : Timed)
        → IsIn SetContainerMetadata key set.request → (reply_to_one w set).rule ≡ None
        → (reply_to_one w set).headers
        ≡ date_headers ((part_at w key).count + 1) set.moment }
    ensures properties { (w : World (List ℕ)) (key : Key) (set get : Timed)
        → IsIn SetContainerMetadata key set.request
        → IsIn ContainerProperties key get.request → (reply_to_one w set).rule ≡ None
        → (reply_to_one (world_after_one w set) get).rule ≡ None
        → (reply_to_one (world_after_one w set) get).headers
        ≡ map header.Meta set.request.ask.args.metadata ++ (reply_to_one w set).headers }
    ensures set_acl { (w : World (List ℕ)) (key : Key) (set : Timed)
        → IsIn SetAcl key set.request → (reply_to_one w set).rule ≡ None
        → (reply_to_one w set).headers
        ≡ date_headers ((part_at w key).count + 1) set.moment }
    ensures acl { (w : World (List ℕ)) (key : Key) (set get : Timed)
        → IsIn SetAcl key set.request → IsIn GetAcl key get.request
        → (reply_to_one w set).rule ≡ None
        → (reply_to_one (world_after_one w set) get).rule ≡ None
        → ShowsAcl set.request (reply_to_one w set)
        (reply_to_one (world_after_one w set) get) }
    ensures deleted_blob { (w : World (List ℕ)) (key : Key) (name : List ℕ)
        (delete read : Timed)
        → IsOn DeleteBlob key name delete.request → (reply_to_one w delete).rule ≡ None
        → read.request.ask.key ≡ key → read.request.ask.blob ≡ Some name
        → IsTrue (needs_blob read.request.ask.op)
        → IsAdmitted (world_after_one w delete) read
        → reply_to_one (world_after_one w delete) read
        ≡ denied (record { rule = O3; code = BlobNotFound }) }
    ensures deleted_container { (w : World (List ℕ)) (key : Key)
        (delete ask : Timed)
        → IsIn DeleteContainer key delete.request → (reply_to_one w delete).rule ≡ None
        → ask.request.ask.key ≡ key → IsTrue (needs_container ask.request.ask.op)
        → IsAdmitted (world_after_one w delete) ask
        → reply_to_one (world_after_one w delete) ask
        ≡ denied (record { rule = O1; code = ContainerNotFound }) }
    ensures made_again { (w : World (List ℕ)) (key : Key)
        (delete create read : Timed)
        → IsIn DeleteContainer key delete.request → IsIn CreateContainer key create.request
        → (reply_to_one w delete).rule ≡ None
        → (reply_to_one (world_after_one w delete) create).rule ≡ None
        → read.request.ask.key ≡ key → IsTrue (needs_blob read.request.ask.op)
        → IsAdmitted (world_after_all w (delete ∷ create ∷ [])) read
        → reply_to_one (world_after_all w (delete ∷ create ∷ [])) read
        ≡ denied (record { rule = O3; code = BlobNotFound }) }
{}
