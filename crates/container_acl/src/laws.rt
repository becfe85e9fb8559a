//! Laws of tokens and stored policies. Each law is the contract of a function that does nothing.
ghost use Rattle.std.specs.Prelude.{◌≡◌, ◌≢◌, ◌↔◌, ◌∷◌, ◌++◌, ℕ, List, Some, None, Ok, Err, All, IsTrue, IsFalse};
ghost use Rattle.stamp_values.specs.declared.acl.Acl.{Acl};
ghost use Rattle.stamp_values.specs.declared.policy.Policy.{Policy};
ghost use Rattle.sas_token.specs.Tokens.{Sent};
ghost use Rattle.container_acl.specs.declared.fields.Fields.{Fields};
ghost use Rattle.container_acl.specs.declared.fields.FieldFault.{FieldFault};
ghost use Rattle.container_acl.specs.JoinedFields.{fields_with, policy_with, policy_of, has_cause, has_earlier_cause, HaveOneGiver};

/// A policy that is found is one of the container's policies, and its id is the id that was looked for. If no policy is found, no
/// policy of the container has this id.
pub fn a_policy_is_found_by_its_id()
    ensures found { (acl : Acl) (id : List ℕ) (p : Policy) → policy_with acl id ≡ Some p
        → (front : List Policy) × (rest : List Policy) × (acl.policies ≡ front ++ p ∷ rest) × (p.id ≡ id) }
    ensures absent { (acl : Acl) (id : List ℕ) → policy_with acl id ≡ None
        → All (λ p. p.id ≢ id) acl.policies }
{}

/// If a token has fields, each of them is the token's own or its policy's own, and is never given by both. The expiry and the
/// permissions are given.
pub fn each_field_has_one_giver()
    ensures { (acl : Acl) (t : Sent) (f : Fields) → fields_with acl t ≡ Ok f
        → HaveOneGiver t (policy_of acl t) f }
{}

/// A token has a fault in a container if and only if the cause of this fault exists, and no cause of a fault that comes before it
/// exists.
pub fn each_fault_has_its_cause()
    ensures { (acl : Acl) (t : Sent) (fault : FieldFault) → (fields_with acl t ≡ Err fault)
        ↔ (IsTrue (has_cause fault acl t) × IsFalse (has_earlier_cause fault acl t)) }
{}
