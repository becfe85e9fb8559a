//! Laws of the definitions.
ghost use Rattle.std.specs.Prelude.{◌≡◌, ◌≢◌, ◌↔◌, ◌||◌, ℕ, IsTrue, Option, Some, None};
ghost use Rattle.stamp_values.specs.declared.acl.Acl.{Acl};
ghost use Rattle.stamp_values.specs.declared.level.Level.TheVariants as level;
ghost use Rattle.stamp_values.specs.declared.signing.Credential.TheVariants.{Anonymous};
ghost use Rattle.stamp_types.specs.Operations.{writes};
ghost use Rattle.stamp_types.specs.declared.ask.Ask.{Ask};
ghost use Rattle.stamp_types.specs.declared.rule.Rule.TheVariants.{P1};
ghost use Rattle.stamp_values.specs.Acls.{closed_acl};
ghost use Rattle.access_rules.specs.declared.keys.Keys.{Keys};
ghost use Rattle.access_rules.specs.Openings.{reads_blob_data, reads_container_data};
ghost use Rattle.access_rules.specs.Rules.{first_rule};
ghost use Rattle.access_rules.specs.Routes.{Admits};

/// No rule holds if and only if the request's own route admits the request.
pub fn no_rule_holds_if_and_only_if_the_own_route_admits()
    ensures { (keys : Option Keys) (acl : Option Acl) (q : Ask) (t : ℕ)
        → (first_rule keys acl q t ≡ None) ↔ Admits keys acl q.credential q t }
{}

/// A request on a container that does not exist is refused by the rule that would refuse it on a closed container without stored
/// policies. That nobody without a credential can tell a closed container from one that does not exist, whatever policies it has,
/// is the clause `same` of stamp_model's law `public_access_is_what_the_container_gives`.
pub fn a_container_that_does_not_exist_is_as_closed()
    ensures { (keys : Option Keys) (q : Ask) (t : ℕ)
        → first_rule keys None q t ≡ first_rule keys (Some closed_acl) q t }
{}

/// What a container opens to requests without a credential. A container that does not exist opens nothing, and neither does a
/// closed container. The level of blobs opens Get Blob, Get Blob Properties, Get Blob Metadata, and Get Block List of the
/// committed blocks. The level of containers opens these operations, and also Get Container Properties and List Blobs.
pub fn each_level_opens_what_it_names()
    ensures absent { (keys : Option Keys) (q : Ask) (t : ℕ)
        → q.credential ≡ Anonymous → first_rule keys None q t ≢ None }
    ensures closed { (keys : Option Keys) (acl : Acl) (q : Ask) (t : ℕ)
        → q.credential ≡ Anonymous → acl.level ≡ level.Closed
        → first_rule keys (Some acl) q t ≢ None }
    ensures blob { (keys : Option Keys) (acl : Acl) (q : Ask) (t : ℕ)
        → q.credential ≡ Anonymous → acl.level ≡ level.Blob
        → (first_rule keys (Some acl) q t ≡ None) ↔ IsTrue (reads_blob_data q.op q.args.kinds) }
    ensures container { (keys : Option Keys) (acl : Acl) (q : Ask) (t : ℕ)
        → q.credential ≡ Anonymous → acl.level ≡ level.Container
        → (first_rule keys (Some acl) q t ≡ None)
        ↔ IsTrue (reads_blob_data q.op q.args.kinds || reads_container_data q.op) }
{}

/// Nobody writes by public access: without a credential P1 refuses each operation that writes, whatever the container says.
pub fn nobody_writes_by_public_access()
    ensures { (keys : Option Keys) (acl : Option Acl) (q : Ask) (t : ℕ)
        → q.credential ≡ Anonymous → IsTrue (writes q.op) → first_rule keys acl q t ≡ Some P1 }
{}
