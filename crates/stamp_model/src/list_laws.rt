//! Laws of lists. Each law is the contract of a function that does nothing.
ghost use Rattle.std.specs.Prelude.{◌≡◌, ◌+◌, ℕ, IsSome, IsTrue, List, Option, None, Some, true};
ghost use Rattle.stamp_values.specs.Operations.{lists_names};
ghost use Rattle.stamp_values.specs.declared.key.Key.{Key};
ghost use Rattle.stamp_values.specs.declared.level.Level.TheVariants as level;
ghost use Rattle.stamp_values.specs.declared.op.Op.{Op};
ghost use Rattle.stamp_values.specs.declared.op.Op.TheVariants.{DeleteBlob, GetBlob, ListBlobs, ListContainers, PutBlock};
ghost use Rattle.stamp_values.specs.declared.signing.Credential.TheVariants.{Anonymous, Token};
ghost use Rattle.stamp_types.specs.declared.code.Code.TheVariants.{ContainerNotFound};
ghost use Rattle.stamp_types.specs.declared.rule.Rule.TheVariants.{O1};
ghost use Rattle.stamp_types.specs.declared.standing.Standing.{Standing};
ghost use Rattle.stamp_types.specs.Replies.{denied};
ghost use Rattle.stamp_types.specs.Requests.{Asked, IsAsk};
ghost use Rattle.stamp_types.specs.World.{World, part_at};
ghost use Rattle.sas_token.specs.declared.token.Resource.TheVariants as resource;
ghost use Rattle.access_rules.specs.declared.keys.Keys.{Keys};
ghost use Rattle.access_rules.specs.Routes.{Admits, ByKey, ByToken};
ghost use Rattle.row_trees.specs.Access.{acl_of};
ghost use Rattle.list_pages.specs.Lists.{shown_container};
ghost use Rattle.list_pages.specs.Ranges.{key_of};
ghost use Rattle.stamp_model.specs.Listed.{IsTold, ListsContainer, ListsNames, ListsNever, ListsOnce, leaves_blob};
ghost use Rattle.stamp_model.specs.Responses.{reply};
ghost use Rattle.stamp_model.specs.SeenContainers.{is_under};
ghost use Rattle.stamp_model.specs.Runs.{Timed, IsOn, reply_to_one, world_after_one};
ghost use Rattle.stamp_model.specs.Overrides.{overrides_of};
ghost use Rattle.range_rows.specs.Replaced.{nothing_replaced};

/// What is written is listed. Let a List Blobs without a delimiter be refused by no rule. If the page of
/// its reply reaches the name of a blob that a Get Blob reads, the page has one entry of the name, with
/// the ETag, the moment, the content type and the length that the Get Blob tells, if its token overrides
/// no header. So it is after each
/// Put Blob, Put Block List and Set Blob Metadata that is accepted: the entry has the number and the
/// moment of that change. After an accepted Delete Blob no page has the name.
pub fn what_is_written_is_listed()
    ensures told { (w : World (List ℕ)) (key : Key) (name : List ℕ) (list get : Timed)
        → ListsNames key list.request → (reply_to_one w list).rule ≡ None
        → IsOn GetBlob key name get.request → get.request.ask.args.range ≡ None
        → overrides_of get.request.ask ≡ nothing_replaced → (reply_to_one w get).rule ≡ None
        → ListsOnce list.request name (reply_to_one w list) (IsTold (reply_to_one w get)) }
    ensures written { (w : World (List ℕ)) (key : Key) (name : List ℕ) (o : Op)
        (write list : Timed)
        → IsTrue (leaves_blob o) → IsAsk write.request.ask → IsOn o key name write.request
        → (reply_to_one w write).rule ≡ None → ListsNames key list.request
        → (reply_to_one (world_after_one w write) list).rule ≡ None
        → ListsOnce list.request name (reply_to_one (world_after_one w write) list)
        (λ shown. (shown.etag ≡ (part_at w key).count + 1) × (shown.made ≡ write.moment)) }
    ensures deleted { (w : World (List ℕ)) (key : Key) (name : List ℕ) (delete list : Timed)
        → IsOn DeleteBlob key name delete.request → (reply_to_one w delete).rule ≡ None
        → ListsNames key list.request
        → (reply_to_one (world_after_one w delete) list).rule ≡ None
        → ListsNever list.request name (reply_to_one (world_after_one w delete) list) }
{}

/// A list of containers is of its account. The reply to a List Containers depends on which containers
/// of its account exist, and on their ETags, moments and metadata. It depends on no blob, no level, no
/// policy, and on no container of another account. If it is refused by no rule, and its page reaches a
/// name before the bound, the page shows the account's container of this name, if the container exists.
pub fn a_list_of_containers_is_of_its_account()
    ensures shown { (w : World (List ℕ)) (name : List ℕ) (list : Timed)
        → IsAsk list.request.ask → list.request.ask.op ≡ ListContainers
        → (reply_to_one w list).rule ≡ None
        → IsTrue (is_under list.bound (key_of list.request.ask.key.account name))
        → ListsContainer list.request list.bound name
        (part_at w (key_of list.request.ask.key.account name)) (reply_to_one w list) }
    ensures own { (keys : Option Keys) (w v : World (List ℕ)) (q : Asked) (t : ℕ) (bound : Option Key)
        → IsAsk q.ask → q.ask.op ≡ ListContainers
        → ((key : Key) → key.account ≡ q.ask.key.account
        → shown_container (part_at w key) ≡ shown_container (part_at v key))
        → reply keys w q t bound ≡ reply keys v q t bound }
{}

/// A list shows what its route may see. A list of blobs that no rule refuses was asked for by a key of
/// the account, without a credential at the level `container`, or by a token for the container with l.
/// A list of containers that no rule refuses was asked for by a key. A list of blobs that its own route
/// admits is refused by O1 alone, and only if its container does not exist. A list of containers that
/// its own route admits is refused by no rule.
pub fn a_list_shows_what_its_route_may_see()
    ensures public { (keys : Option Keys) (w : World (List ℕ)) (q : Asked) (t : ℕ)
        (bound : Option Key)
        → q.ask.op ≡ ListBlobs → q.ask.credential ≡ Anonymous
        → (reply keys w q t bound).rule ≡ None
        → (s : Standing) × ((part_at w q.ask.key).standing ≡ Some s)
        × (s.acl.level ≡ level.Container) }
    ensures token { (keys : Option Keys) (w : World (List ℕ)) (q : Asked) (t : ℕ)
        (bound : Option Key)
        → IsAsk q.ask → q.ask.op ≡ ListBlobs → q.ask.credential ≡ Token
        → (reply keys w q t bound).rule ≡ None
        → (by : ByToken keys (acl_of (part_at w q.ask.key)) q.ask t)
        × (by.token.resource ≡ resource.Container) × IsTrue by.fields.letters.list }
    ensures containers { (keys : Option Keys) (w : World (List ℕ)) (q : Asked) (t : ℕ)
        (bound : Option Key)
        → q.ask.op ≡ ListContainers → (reply keys w q t bound).rule ≡ None
        → ByKey keys q.ask t }
    ensures blobs_given { (keys : Option Keys) (w : World (List ℕ)) (q : Asked) (t : ℕ)
        (bound : Option Key)
        → IsAsk q.ask → q.ask.op ≡ ListBlobs
        → Admits keys (acl_of (part_at w q.ask.key)) q.ask.credential q.ask t
        → IsSome (part_at w q.ask.key).standing → (reply keys w q t bound).rule ≡ None }
    ensures absent { (keys : Option Keys) (w : World (List ℕ)) (q : Asked) (t : ℕ)
        (bound : Option Key)
        → q.ask.op ≡ ListBlobs
        → Admits keys (acl_of (part_at w q.ask.key)) q.ask.credential q.ask t
        → (part_at w q.ask.key).standing ≡ None
        → reply keys w q t bound ≡ denied (record { rule = O1; code = ContainerNotFound }) }
    ensures containers_given { (keys : Option Keys) (w : World (List ℕ)) (q : Asked) (t : ℕ)
        (bound : Option Key)
        → IsAsk q.ask → q.ask.op ≡ ListContainers
        → Admits keys (acl_of (part_at w q.ask.key)) q.ask.credential q.ask t
        → (reply keys w q t bound).rule ≡ None }
{}

/// A Put Block leaves every list: a List Blobs or a List Containers has the reply after a Put Block,
/// accepted or refused, that it would have had before.
pub fn a_put_block_leaves_every_list()
    ensures { (w : World (List ℕ)) (put list : Timed)
        → put.request.ask.op ≡ PutBlock → IsAsk list.request.ask
        → lists_names list.request.ask.op ≡ true
        → reply_to_one (world_after_one w put) list ≡ reply_to_one w list }
{}
