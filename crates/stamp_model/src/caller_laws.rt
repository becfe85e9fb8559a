//! Laws of what a reply tells its caller. Each law is the contract of a function that does nothing.
ghost use Rattle.std.specs.Prelude.{◌≡◌, ℕ, IsTrue, List, Option, Some, false};
ghost use Rattle.std.specs.Option.{option_map};
ghost use Rattle.stamp_values.specs.Operations.{writes};
ghost use Rattle.stamp_values.specs.declared.key.Key.{Key};
ghost use Rattle.stamp_types.specs.declared.rule.Rule.{Rule};
ghost use Rattle.stamp_types.specs.declared.rule.Rule.TheVariants.{P2};
ghost use Rattle.stamp_types.specs.Requests.{Asked};
ghost use Rattle.stamp_types.specs.World.{World, part_at};
ghost use Rattle.access_rules.specs.declared.keys.Keys.{Keys};
ghost use Rattle.access_rules.specs.Routes.{Admits};
ghost use Rattle.row_trees.specs.Access.{acl_of};
ghost use Rattle.stamp_model.specs.Effects.{effect};
ghost use Rattle.stamp_model.specs.Refusals.{is_object_rule, sees_no_container};
ghost use Rattle.stamp_model.specs.Responses.{reply};

/// A request that reads changes nothing.
pub fn a_read_changes_nothing()
    ensures { (keys : Option Keys) (w : World (List ℕ)) (q : Asked) (t : ℕ)
        → writes q.ask.op ≡ false → effect keys w q t ≡ w }
{}

/// A caller without a valid credential learns nothing of containers. If K1 to K5, S1 to S4 or P1 refuses a
/// request, the reply is the same whatever containers the stamp has: the keys, the request and the
/// moment decide it. P2 gives a request one reply, whatever the container is, so this reply tells that
/// P2 refuses and no more. Whether P2 refuses is decided by the level of the container, if it exists.
pub fn a_caller_without_a_valid_credential_learns_nothing()
    ensures same { (keys : Option Keys) (w v : World (List ℕ)) (q : Asked) (t : ℕ)
        (bound : Option Key) (rule : Rule)
        → IsTrue (sees_no_container rule) → (reply keys w q t bound).rule ≡ Some rule
        → reply keys v q t bound ≡ reply keys w q t bound }
    ensures closed { (keys : Option Keys) (w v : World (List ℕ)) (q : Asked) (t : ℕ)
        (bound : Option Key)
        → (reply keys w q t bound).rule ≡ Some P2 → (reply keys v q t bound).rule ≡ Some P2
        → reply keys v q t bound ≡ reply keys w q t bound }
    ensures level { (keys : Option Keys) (w v : World (List ℕ)) (q : Asked) (t : ℕ)
        (bound : Option Key)
        → (reply keys w q t bound).rule ≡ Some P2
        → option_map (λ acl. acl.level) (acl_of (part_at v q.ask.key))
        ≡ option_map (λ acl. acl.level) (acl_of (part_at w q.ask.key))
        → reply keys v q t bound ≡ reply keys w q t bound }
{}

/// Only admitted callers are told of the object: a reply that names a rule O goes to a request that
/// its own route admits.
pub fn only_admitted_callers_are_told_of_the_object()
    ensures { (keys : Option Keys) (w : World (List ℕ)) (q : Asked) (t : ℕ)
        (bound : Option Key) (rule : Rule)
        → IsTrue (is_object_rule rule) → (reply keys w q t bound).rule ≡ Some rule
        → Admits keys (acl_of (part_at w q.ask.key)) q.ask.credential q.ask t }
{}
