//! Laws of the accepted changes of a container. Each law is the contract of a function that does
//! nothing.
ghost use Rattle.std.specs.Prelude.{◌≡◌, ◌↔◌, ℕ, ◌+◌, List, [], ◌∷◌, ◌++◌, Some, IsSome, length};
ghost use Rattle.stamp_values.specs.declared.key.Key.{Key};
ghost use Rattle.stamp_values.specs.declared.op.Op.TheVariants.{CreateContainer};
ghost use Rattle.stamp_types.specs.declared.past.Past.{Past};
ghost use Rattle.stamp_types.specs.World.{Part, World, part_at};
ghost use Rattle.access_rules.specs.declared.keys.Keys.{Keys};
ghost use Rattle.stamp_model.specs.Effects.{effect};
ghost use Rattle.stamp_model.specs.Histories.{IsLegal, IsLegalFrom, IsAccepted, NoneIsLater, after_entry, last_making_or_deletion, pair_of, replay, replay_from};

/// If a request is accepted after a legal history, and no entry of the history is of a later epoch
/// than the request, the history with the request at its end is legal. If the request's container
/// is what the history replays to, that container is after the request's effect what the longer
/// history replays to. The clause `own` says this of the container whose history it is: an accepted
/// request names no other container.
pub fn an_accepted_request_continues_a_legal_history()
    ensures legal { (pairs : List Keys) (key : Key) (start : Part (List ℕ)) (history : List Past)
        (e : Past)
        → IsLegalFrom pairs key start history → NoneIsLater e.epoch history
        → IsAccepted pairs key (replay_from pairs start history) e
        → IsLegalFrom pairs key start (history ++ e ∷ []) }
    ensures replay { (pairs : List Keys) (w : World (List ℕ)) (start : Part (List ℕ))
        (history : List Past) (e : Past)
        → part_at w e.request.ask.key ≡ replay_from pairs start history
        → part_at (effect (pair_of pairs e.epoch) w e.request e.moment) e.request.ask.key
        ≡ replay_from pairs start (history ++ e ∷ []) }
    ensures own { (pairs : List Keys) (key : Key) (w : World (List ℕ)) (start : Part (List ℕ))
        (history : List Past) (e : Past)
        → IsAccepted pairs key (replay_from pairs start history) e
        → part_at w key ≡ replay_from pairs start history
        → part_at (effect (pair_of pairs e.epoch) w e.request e.moment) key
        ≡ replay_from pairs start (history ++ e ∷ []) }
{}

/// An accepted request is one change of its container. So a legal history has as many entries as
/// the container has seen changes since the start of the history. If the history begins with a
/// container that never was, the number of entries is the container's count. Then its first entry
/// makes the container, and the container exists if and only if the last entry that makes it or
/// deletes it makes it. The key pair of an epoch has that epoch.
pub fn each_entry_is_one_change()
    ensures one { (pairs : List Keys) (key : Key) (p : Part (List ℕ)) (e : Past)
        → IsAccepted pairs key p e → (after_entry pairs p e).count ≡ p.count + 1 }
    ensures counted { (pairs : List Keys) (key : Key) (start : Part (List ℕ)) (history : List Past)
        → IsLegalFrom pairs key start history
        → (replay_from pairs start history).count ≡ start.count + length history }
    ensures all { (pairs : List Keys) (key : Key) (history : List Past) → IsLegal pairs key history
        → (replay pairs history).count ≡ length history }
    ensures first { (pairs : List Keys) (key : Key) (e : Past) (rest : List Past)
        → IsLegal pairs key (e ∷ rest) → e.request.ask.op ≡ CreateContainer }
    ensures exists { (pairs : List Keys) (key : Key) (history : List Past)
        → IsLegal pairs key history
        → IsSome (replay pairs history).standing
        ↔ (last_making_or_deletion history ≡ Some CreateContainer) }
    ensures epoch { (pairs : List Keys) (epoch : ℕ) (pair : Keys) → pair_of pairs epoch ≡ Some pair
        → pair.epoch ≡ epoch }
{}

/// A history without entries is legal, and so is each front part of a legal history.
pub fn a_front_part_of_a_legal_history_is_legal()
    ensures none { (pairs : List Keys) (key : Key) (start : Part (List ℕ))
        → IsLegalFrom pairs key start [] }
    ensures front { (pairs : List Keys) (key : Key) (start : Part (List ℕ))
        (history more : List Past)
        → IsLegalFrom pairs key start (history ++ more) → IsLegalFrom pairs key start history }
{}
