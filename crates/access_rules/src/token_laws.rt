//! Laws of shared access signatures. Each law is the contract of a function that does nothing.
ghost use Rattle.std.specs.Prelude.{◌≡◌, ◌≢◌, ◌≤◌, ℕ, IsTrue, Option, None, Some};
ghost use Rattle.stamp_values.specs.Letters.{Permissions};
ghost use Rattle.stamp_values.specs.declared.acl.Acl.{Acl};
ghost use Rattle.stamp_values.specs.declared.block.BlockKinds.{BlockKinds};
ghost use Rattle.stamp_values.specs.declared.op.Op.{Op};
ghost use Rattle.stamp_values.specs.declared.signing.Credential.TheVariants.{Token};
ghost use Rattle.stamp_types.specs.Requests.{IsAsk};
ghost use Rattle.stamp_types.specs.declared.ask.Ask.{Ask};
ghost use Rattle.sas_token.specs.declared.token.Resource.{Resource};
ghost use Rattle.access_rules.specs.declared.keys.Keys.{Keys};
ghost use Rattle.access_rules.specs.declared.needs.Letter.{Letter};
ghost use Rattle.access_rules.specs.Needs.{need_of};
ghost use Rattle.access_rules.specs.Openings.{is_about_containers, names_operation};
ghost use Rattle.access_rules.specs.Routes.{ByToken};
ghost use Rattle.access_rules.specs.Rules.{first_rule};
ghost use Rattle.access_rules.specs.TokenParts.{allows};

/// Each letter opens what it names. If a token admits a request, a permission that the token and its policy give names the
/// operation: r the reads of a blob and of its blocks; w Put Blob, Set Blob Metadata, Put Block and Put Block List; d Delete Blob;
/// l List Blobs, by a token for the container. And if a permission names an operation, the letter that the operation needs is among
/// the permissions, whichever kinds of blocks are asked for.
pub fn each_letter_opens_what_it_names()
    ensures no_more { (keys : Option Keys) (acl : Option Acl) (q : Ask) (t : ℕ)
        → IsAsk q → (by : ByToken keys acl q t)
        → IsTrue (names_operation by.fields.letters by.token.resource q.op) }
    ensures no_less { (p : Permissions) (r : Resource) (o : Op) (k : Option BlockKinds)
        → IsTrue (names_operation p r o)
        → (letter : Letter) × ((need_of o k).letter ≡ Some letter) × IsTrue (allows letter p) }
{}

/// No token reaches a container itself: whatever its permissions are, a rule refuses to make, show, alter or delete a container,
/// to show or set who may read it, and to list the containers of an account.
pub fn no_token_reaches_a_container_itself()
    ensures { (keys : Option Keys) (acl : Option Acl) (q : Ask) (t : ℕ)
        → q.credential ≡ Token → IsTrue (is_about_containers q.op) → first_rule keys acl q t ≢ None }
{}

/// A token has one time: if it admits a request at two moments, it admits the request at each moment between them.
pub fn a_token_has_one_time()
    ensures { (keys : Option Keys) (acl : Option Acl) (q : Ask) (t u v : ℕ)
        → q.credential ≡ Token → t ≤ u → u ≤ v → first_rule keys acl q t ≡ None
        → first_rule keys acl q v ≡ None → first_rule keys acl q u ≡ None }
{}
