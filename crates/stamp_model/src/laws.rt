//! Laws of effects and replies. Each law is the contract of a function that does nothing.
ghost use Rattle.std.specs.Prelude.{◌≡◌, ◌≢◌, ◌≤◌, ◌⊎◌, ℕ, ◌+◌, List, Option, Some, None, IsSome, IsTrue, false, find};
ghost use Rattle.stamp_values.specs.Operations.{is_op, names_container};
ghost use Rattle.stamp_values.specs.declared.key.Key.{Key};
ghost use Rattle.stamp_values.specs.declared.op.Op.TheVariants as op;
ghost use Rattle.stamp_values.specs.declared.level.Level.{Level};
ghost use Rattle.stamp_values.specs.declared.level.Level.TheVariants as level;
ghost use Rattle.stamp_values.specs.declared.signing.Credential.TheVariants.{Anonymous};
ghost use Rattle.stamp_values.specs.Levels.{level_number};
ghost use Rattle.stamp_types.specs.declared.piece.Piece.{Piece};
ghost use Rattle.stamp_types.specs.declared.rule.Rule.{Rule};
ghost use Rattle.stamp_types.specs.declared.standing.Standing.{Standing};
ghost use Rattle.stamp_types.specs.declared.status.Status.TheVariants.{NotFound};
ghost use Rattle.stamp_types.specs.Contents.{EachContent};
ghost use Rattle.stamp_types.specs.EffectKinds.{EtagsAtMost};
ghost use Rattle.stamp_types.specs.Requests.{Asked, IsAsk};
ghost use Rattle.stamp_types.specs.World.{Part, World, part_at, world_value};
ghost use Rattle.access_rules.specs.declared.keys.Keys.{Keys};
ghost use Rattle.access_rules.specs.Needs.{need_of};
ghost use Rattle.access_rules.specs.Routes.{Admits};
ghost use Rattle.range_rows.specs.NamedBlobs.{has_listed, target_blob};
ghost use Rattle.range_rows.specs.ObjectRules.{named_blob, object_refusal};
ghost use Rattle.range_rows.specs.SentContent.{sizes};
ghost use Rattle.row_trees.specs.Access.{acl_of};
ghost use Rattle.stamp_model.specs.Refusals.{refusing_rule, refuses, rules_in_order};
ghost use Rattle.stamp_model.specs.Effects.{alters_access, alters_container, change, effect, effect_as};
ghost use Rattle.stamp_model.specs.SeenContainers.{is_seen, is_under, routed};
ghost use Rattle.stamp_model.specs.Responses.{answer_of, reply, tells_blob, tells_container, tells_nothing};

/// The container of a request's key decides what that container is after the request. If the
/// operation names a container, the container also decides the reply to the request.
pub fn an_own_container_decides_effect_and_reply()
    ensures reply { (keys : Option Keys) (w v : World (List ℕ)) (q : Asked) (t : ℕ)
        (bound : Option Key)
        → IsTrue (names_container q.ask.op) → part_at w q.ask.key ≡ part_at v q.ask.key
        → reply keys w q t bound ≡ reply keys v q t bound }
    ensures effect { (keys : Option Keys) (w v : World (List ℕ)) (q : Asked) (t : ℕ)
        → part_at w q.ask.key ≡ part_at v q.ask.key
        → part_at (effect keys w q t) q.ask.key ≡ part_at (effect keys v q t) q.ask.key }
{}

/// A reply depends on the containers that its request sees, and on no other container. A request that
/// names a container sees this container. A List Containers sees the containers of its account from
/// its marker on, up to the bound, which is the first key that is not listed; so it has one reply in
/// all worlds that agree on these. Its marker comes before the bound.
pub fn a_reply_depends_on_what_its_request_sees()
    ensures { (keys : Option Keys) (w v : World (List ℕ)) (q : Asked) (t : ℕ)
        (bound : Option Key)
        → IsAsk q.ask
        → (names_container q.ask.op ≡ false → IsTrue (is_under bound (routed q)))
        → ((key : Key) → IsTrue (is_seen q bound key) → part_at w key ≡ part_at v key)
        → reply keys w q t bound ≡ reply keys v q t bound }
{}

/// An effect changes the container that the request names, and leaves every other container as it
/// is.
pub fn an_effect_reaches_its_own_container_alone()
    ensures own { (keys : Option Keys) (w : World (List ℕ)) (q : Asked) (t : ℕ)
        → part_at (effect keys w q t) q.ask.key ≡ change keys (part_at w q.ask.key) q t }
    ensures others { (keys : Option Keys) (w : World (List ℕ)) (q : Asked) (t : ℕ) (k : Key)
        → k ≢ q.ask.key → part_at (effect keys w q t) k ≡ part_at w k }
{}

/// The rule that refuses is the first rule that holds, in the order of all rules.
pub fn the_refusal_is_the_first_rule_of_all()
    ensures { (keys : Option Keys) (p : Part ℕ) (q : Asked) (t : ℕ)
        → refusing_rule keys p q t ≡ find (refuses keys p q t) rules_in_order }
{}

/// A reply names the rule that refuses its request. If no rule refuses the request, the reply names
/// no rule. A refused request changes nothing.
pub fn a_refused_request_changes_nothing()
    ensures named { (keys : Option Keys) (w : World (List ℕ)) (q : Asked) (t : ℕ)
        (bound : Option Key)
        → (reply keys w q t bound).rule ≡ refusing_rule keys (sizes (part_at w q.ask.key)) q t }
    ensures unchanged { (keys : Option Keys) (w : World (List ℕ)) (q : Asked) (t : ℕ)
        (bound : Option Key) (rule : Rule)
        → (reply keys w q t bound).rule ≡ Some rule → effect keys w q t ≡ w }
{}

/// A reply names no rule if and only if two things are so: the request's own route admits the request, as
/// that route is defined; and the object does not refuse the request. A reply that names no rule is what
/// the operation answers from the containers as they are after the effect.
pub fn success_is_what_the_own_route_admits()
    ensures admitted { (keys : Option Keys) (w : World (List ℕ)) (q : Asked) (t : ℕ)
        (bound : Option Key)
        → (reply keys w q t bound).rule ≡ None
        → Admits keys (acl_of (part_at w q.ask.key)) q.ask.credential q.ask t }
    ensures unopposed { (keys : Option Keys) (w : World (List ℕ)) (q : Asked) (t : ℕ)
        (bound : Option Key)
        → (reply keys w q t bound).rule ≡ None
        → object_refusal (sizes (part_at w q.ask.key)) q ≡ None }
    ensures unnamed { (keys : Option Keys) (w : World (List ℕ)) (q : Asked) (t : ℕ)
        (bound : Option Key)
        → Admits keys (acl_of (part_at w q.ask.key)) q.ask.credential q.ask t
        → object_refusal (sizes (part_at w q.ask.key)) q ≡ None
        → (reply keys w q t bound).rule ≡ None }
    ensures answered { (keys : Option Keys) (w : World (List ℕ)) (q : Asked) (t : ℕ)
        (bound : Option Key)
        → (reply keys w q t bound).rule ≡ None
        → reply keys w q t bound ≡ answer_of (effect keys w q t) q bound }
{}

/// A request without a credential gets a reply that names no rule only if the container exists and
/// its level is enough for the operation; a closed container refuses each such request. If the
/// container does not exist, the reply to this request says that the resource was not found (404),
/// and a closed container gives the same reply.
pub fn public_access_is_what_the_container_gives()
    ensures given { (keys : Option Keys) (w : World (List ℕ)) (q : Asked) (t : ℕ)
        (bound : Option Key)
        → q.ask.credential ≡ Anonymous → (reply keys w q t bound).rule ≡ None
        → (need : Level) × (s : Standing) × ((need_of q.ask.op q.ask.args.kinds).level ≡ Some need)
        × ((part_at w q.ask.key).standing ≡ Some s)
        × (level_number need ≤ level_number s.acl.level) }
    ensures same { (keys : Option Keys) (w v : World (List ℕ)) (q : Asked) (t : ℕ)
        (bound : Option Key) (s : Standing)
        → q.ask.credential ≡ Anonymous → (part_at w q.ask.key).standing ≡ None
        → (part_at v q.ask.key).standing ≡ Some s → s.acl.level ≡ level.Closed
        → reply keys w q t bound ≡ reply keys v q t bound }
    ensures status { (keys : Option Keys) (w : World (List ℕ)) (q : Asked) (t : ℕ)
        (bound : Option Key)
        → q.ask.credential ≡ Anonymous → (part_at w q.ask.key).standing ≡ None
        → (reply keys w q t bound).status ≡ NotFound }
    ensures closed { (keys : Option Keys) (w : World (List ℕ)) (q : Asked) (t : ℕ)
        (bound : Option Key) (s : Standing)
        → q.ask.credential ≡ Anonymous → (part_at w q.ask.key).standing ≡ Some s
        → s.acl.level ≡ level.Closed → IsSome (reply keys w q t bound).rule }
{}

/// If nothing refuses a request, what its answer tells of exists after the request. An answer that
/// tells of a container is of a container that exists. An answer that tells of a blob is of a blob
/// that readers see, if the request fits its operation. An answer that tells of blocks is of a blob
/// that has what is listed. The answer to a Delete Container, a Delete Blob or a Put Block is the same
/// whatever containers the stamp has.
pub fn an_answer_is_of_what_exists()
    ensures container { (keys : Option Keys) (w : World (List ℕ)) (q : Asked) (t : ℕ)
        (bound : Option Key)
        → (reply keys w q t bound).rule ≡ None → IsTrue (tells_container q.ask.op)
        → IsSome (part_at (effect keys w q t) q.ask.key).standing }
    ensures blob { (keys : Option Keys) (w : World (List ℕ)) (q : Asked) (t : ℕ)
        (bound : Option Key)
        → IsAsk q.ask → (reply keys w q t bound).rule ≡ None → IsTrue (tells_blob q.ask.op)
        → IsSome (named_blob (part_at (effect keys w q t) q.ask.key) q.ask) }
    ensures blocks { (keys : Option Keys) (w : World (List ℕ)) (q : Asked) (t : ℕ)
        (bound : Option Key)
        → (reply keys w q t bound).rule ≡ None → IsTrue (is_op op.GetBlockList q.ask.op)
        → IsTrue (has_listed q.ask.args.kinds
        (target_blob (part_at (effect keys w q t) q.ask.key) q.ask)) }
    ensures nothing { (w v : World (List ℕ)) (q : Asked) (bound : Option Key)
        → IsTrue (tells_nothing q.ask.op) → answer_of w q bound ≡ answer_of v q bound }
{}

/// Content may be read before a request or after it, by any function that keeps the size of each
/// content of the container: the rules and the change see only the size of the content. So rows of
/// pieces are changed as containers of bytes are changed.
pub fn content_is_read_before_or_after_a_request<C, D>()
    ensures { (read : C → D) (size : C → ℕ) (other : D → ℕ) (f : List Piece → C)
        (keys : Option Keys) (w : World C) (q : Asked) (t : ℕ)
        → EachContent (λ c. other (read c) ≡ size c) (part_at w q.ask.key)
        → world_value read (effect_as size f keys w q t)
        ≡ effect_as other (λ ps. read (f ps)) keys (world_value read w) q t }
{}

/// A container is changed by its own operations: a request of any other operation leaves what a
/// container has beside its blobs as it was. The level and the policies of a container are altered
/// by Create Container, Set Container ACL and Delete Container alone.
pub fn a_container_is_changed_by_its_own_operations()
    ensures standing { (keys : Option Keys) (w : World (List ℕ)) (q : Asked) (t : ℕ) (k : Key)
        → alters_container q.ask.op ≡ false
        → (part_at (effect keys w q t) k).standing ≡ (part_at w k).standing }
    ensures access { (keys : Option Keys) (w : World (List ℕ)) (q : Asked) (t : ℕ) (k : Key)
        → alters_access q.ask.op ≡ false
        → acl_of (part_at (effect keys w q t) k) ≡ acl_of (part_at w k) }
{}

/// Counts only rise: after a request the count of a container is the count before it, or one more.
/// If no ETag of the container or of its blobs was over the count before the request, no ETag is
/// over the count after it.
pub fn counts_only_rise()
    ensures count { (keys : Option Keys) (w : World (List ℕ)) (q : Asked) (t : ℕ) (k : Key)
        → ((part_at (effect keys w q t) k).count ≡ (part_at w k).count)
        ⊎ ((part_at (effect keys w q t) k).count ≡ (part_at w k).count + 1) }
    ensures etags { (keys : Option Keys) (w : World (List ℕ)) (q : Asked) (t : ℕ) (k : Key)
        → EtagsAtMost (part_at w k).count (part_at w k)
        → EtagsAtMost (part_at (effect keys w q t) k).count (part_at (effect keys w q t) k) }
{}

/// A request without a credential changes nothing, whatever the level of its container is.
pub fn nobody_writes_without_a_credential()
    ensures { (keys : Option Keys) (w : World (List ℕ)) (q : Asked) (t : ℕ)
        → q.ask.credential ≡ Anonymous → effect keys w q t ≡ w }
{}
