//! Laws of stored policies and of tokens. Each law is the contract of a function that does nothing.
ghost use Rattle.std.specs.Prelude.{◌≡◌, ◌≢◌, ◌⊎◌, ◌↔◌, ◌||◌, ◌++◌, ◌∷◌, [], ℕ, All, IsSome, IsTrue, List, Option, Some, None, false};
ghost use Rattle.stamp_values.specs.declared.key.Key.{Key};
ghost use Rattle.stamp_values.specs.declared.op.Op.TheVariants.{DeleteContainer, SetAcl};
ghost use Rattle.stamp_values.specs.declared.signing.Credential.TheVariants.{Token};
ghost use Rattle.stamp_types.specs.Requests.{Asked};
ghost use Rattle.stamp_types.specs.World.{World, part_at};
ghost use Rattle.stamp_types.specs.declared.ask.Ask.{Ask};
ghost use Rattle.stamp_types.specs.declared.past.Past.{Past};
ghost use Rattle.stamp_types.specs.declared.rule.Rule.{Rule};
ghost use Rattle.sas_token.specs.Tokens.{IsToken, Sent};
ghost use Rattle.container_acl.specs.JoinedFields.{acl_or_closed, policy_with};
ghost use Rattle.access_rules.specs.Routes.{ByToken};
ghost use Rattle.access_rules.specs.Rules.{first_rule};
ghost use Rattle.access_rules.specs.declared.keys.Keys.{Keys};
ghost use Rattle.row_trees.specs.Access.{acl_of};
ghost use Rattle.stamp_model.specs.Effects.{alters_access, effect};
ghost use Rattle.stamp_model.specs.Histories.{IsLegal, replay};
ghost use Rattle.stamp_model.specs.Withdrawals.{acl_given, gives_policy, is_before_fields, withdraws_policy};

/// A policy is as it was set last: after a legal history, the level and the policies of a container
/// are those that its last Create Container, Set Container ACL or Delete Container gave, whatever came
/// before.
pub fn a_policy_is_as_it_was_set_last()
    ensures { (pairs : List Keys) (key : Key) (front rest : List Past) (e : Past)
        → IsLegal pairs key (front ++ e ∷ rest) → IsTrue (alters_access e.request.ask.op)
        → All (λ later. alters_access later.request.ask.op ≡ false) rest
        → acl_of (replay pairs (front ++ e ∷ rest)) ≡ acl_given e.request }
{}

/// A policy that was withdrawn opens nothing. If an entry of a legal history is a Delete Container, or
/// a Set Container ACL without this id, and no entry after it is a Set Container ACL with this id, then
/// at the end one of S2 to S5 refuses each request on that container by a token that names the id,
/// under all keys and at every moment. Each front part of a legal history is legal, so this holds at
/// each place after the entry.
pub fn a_withdrawn_policy_opens_nothing()
    ensures { (pairs : List Keys) (key : Key) (front rest : List Past) (e : Past) (id : List ℕ)
        → IsLegal pairs key (front ++ e ∷ rest) → IsTrue (withdraws_policy id e.request)
        → All (λ later. gives_policy id later.request ≡ false) rest
        → (keys : Option Keys) (q : Ask) (t : ℕ) (token : Sent)
        → q.credential ≡ Token → IsToken q.signing.query token → token.id ≡ id → id ≢ []
        → (rule : Rule) × IsTrue (is_before_fields rule)
        × (first_rule keys (acl_of (replay pairs (front ++ e ∷ rest))) q t ≡ Some rule) }
{}

/// What the words of the laws on policies mean. A request withdraws the policy of an id if and only if it is a Delete Container, or a Set
/// Container ACL after which the container has no policy of this id. It gives the policy if and only if it is a Set Container ACL after which
/// the container has one.
pub fn a_set_acl_gives_a_policy_or_withdraws_it()
    ensures withdraws { (id : List ℕ) (q : Asked)
        → IsTrue (withdraws_policy id q) ↔ ((q.ask.op ≡ DeleteContainer)
        ⊎ ((q.ask.op ≡ SetAcl) × (policy_with (acl_or_closed (acl_given q)) id ≡ None))) }
    ensures gives { (id : List ℕ) (q : Asked)
        → IsTrue (gives_policy id q) ↔ ((q.ask.op ≡ SetAcl)
        × IsSome (policy_with (acl_or_closed (acl_given q)) id)) }
{}

/// A token writes by its letters: if a request by a token changes anything, the token admits it, and
/// w or d is among the permissions that the token and its policy give.
pub fn a_token_writes_by_its_letters()
    ensures { (keys : Option Keys) (w : World (List ℕ)) (q : Asked) (t : ℕ)
        → q.ask.credential ≡ Token → effect keys w q t ≢ w
        → (by : ByToken keys (acl_of (part_at w q.ask.key)) q.ask t)
        × IsTrue (by.fields.letters.write || by.fields.letters.delete) }
{}
