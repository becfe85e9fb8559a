//! Laws of histories under the key pairs of their account, of which there may be more later. Each law is
//! the contract of a function that does nothing.
ghost use Rattle.std.specs.Prelude.{◌≡◌, ◌↔◌, ℕ, List, [], ◌∷◌, ◌++◌, Some, IsSome, IsTrue, slice_get};
ghost use Rattle.stamp_values.specs.declared.key.Key.{Key};
ghost use Rattle.stamp_types.specs.declared.past.Past.{Past};
ghost use Rattle.stamp_types.specs.World.{Part};
ghost use Rattle.access_rules.specs.declared.keys.Keys.{Keys};
ghost use Rattle.access_rules.specs.Rotation.{are_numbered};
ghost use Rattle.stamp_model.specs.Histories.{IsAccepted, IsLegalFrom, NoneIsLater, pair_of, replay_from};
ghost use Rattle.stamp_model.specs.KeyPairs.{HaveTheirPairs};

/// What happened is judged by the keys of its time. If each entry of a history has a pair of its epoch
/// among the pairs of the account, the history replays to the same container under these pairs and
/// under these pairs with more pairs after them, and it is legal under both or under neither. The
/// same is so of one entry and whether it is accepted.
pub fn a_history_does_not_see_later_pairs()
    ensures pair { (pairs more : List Keys) (epoch : ℕ) → IsSome (pair_of pairs epoch)
        → pair_of (pairs ++ more) epoch ≡ pair_of pairs epoch }
    ensures replay { (pairs more : List Keys) (start : Part (List ℕ)) (history : List Past)
        → HaveTheirPairs pairs history
        → replay_from (pairs ++ more) start history ≡ replay_from pairs start history }
    ensures accepted { (pairs more : List Keys) (key : Key) (p : Part (List ℕ)) (e : Past)
        → IsSome (pair_of pairs e.epoch)
        → IsAccepted (pairs ++ more) key p e ↔ IsAccepted pairs key p e }
    ensures legal { (pairs more : List Keys) (key : Key) (start : Part (List ℕ))
        (history : List Past)
        → HaveTheirPairs pairs history
        → IsLegalFrom (pairs ++ more) key start history ↔ IsLegalFrom pairs key start history }
{}

/// The pairs of an account are numbered by their epochs, 0, 1, 2 and so on. Then the pair of an epoch is
/// the pair at this place, and the last pair is the pair of its own epoch. If no entry of a history is
/// of a later epoch than the last pair, each entry has a pair of its epoch.
pub fn each_epoch_has_its_pair()
    ensures place { (pairs : List Keys) (epoch : ℕ) → IsTrue (are_numbered pairs)
        → pair_of pairs epoch ≡ slice_get pairs epoch }
    ensures last { (pairs : List Keys) (last : Keys) → IsTrue (are_numbered (pairs ++ last ∷ []))
        → pair_of (pairs ++ last ∷ []) last.epoch ≡ Some last }
    ensures each { (pairs : List Keys) (last : Keys) (history : List Past)
        → IsTrue (are_numbered (pairs ++ last ∷ [])) → NoneIsLater last.epoch history
        → HaveTheirPairs (pairs ++ last ∷ []) history }
{}
