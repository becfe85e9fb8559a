//! Laws of pairs of keys that follow each other. Each law is the contract of a function that does nothing.
ghost use Rattle.std.specs.Prelude.{◌≡◌, ◌+◌, ◌++◌, ◌∷◌, [], ℕ, IsTrue, List, Some, slice_get};
ghost use Rattle.access_rules.specs.declared.keys.Keys.{Keys};
ghost use Rattle.access_rules.specs.declared.rotation.Which.{Which};
ghost use Rattle.access_rules.specs.Rotation.{are_numbered, rotated};

/// The pairs of an account are numbered by their epochs. A pair of the epoch 0 by itself is numbered. If pairs are numbered, they
/// stay so with the pair after the last one at their end, and the epoch of each pair is its place among them.
pub fn each_pair_has_its_place_as_epoch()
    ensures first { (pair : Keys) → pair.epoch ≡ 0 → IsTrue (are_numbered (pair ∷ [])) }
    ensures next { (pairs : List Keys) (last : Keys) (which : Which) (key : List ℕ)
        → IsTrue (are_numbered (pairs ++ last ∷ []))
        → IsTrue (are_numbered (pairs ++ last ∷ rotated last which key (last.epoch + 1) ∷ [])) }
    ensures place { (pairs : List Keys) (pair : Keys) (place : ℕ)
        → IsTrue (are_numbered pairs) → slice_get pairs place ≡ Some pair → pair.epoch ≡ place }
{}
