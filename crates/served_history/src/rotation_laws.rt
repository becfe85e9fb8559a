//! What a rotation leaves of the keys of an account. A law about definitions is the contract of a function that does nothing.
ghost use Rattle.std.specs.Prelude.{◌≡◌, ◌≢◌, ◌≤◌, ◌+◌, ◌++◌, ◌∷◌, ℕ, All, List, None, Some};
ghost use Rattle.stamp_values.specs.declared.key.Key.{Key};
ghost use Rattle.stamp_types.specs.declared.reply.Reply.{Reply};
ghost use Rattle.stamp_types.specs.Requests.{Asked};
ghost use Rattle.access_rules.specs.declared.keys.Keys.{Keys};
ghost use Rattle.access_rules.specs.declared.rotation.Which.{Which};
ghost use Rattle.access_rules.specs.Rotation.{rotated};
ghost use Rattle.stamp_model.specs.Runs.{IsAdmitted};
ghost use Rattle.stamp_model.specs.SeenContainers.{routed};
ghost use Rattle.slot_state.specs.Pairs.{epoch_of};
ghost use Rattle.served_history.specs.declared.entry.Entry.{Entry};
ghost use Rattle.served_history.specs.declared.entry.Entry.TheVariants.{Rotated};
ghost use Rattle.served_history.specs.Growth.{IsEntered};
ghost use Rattle.served_history.specs.Histories.{IsHistory, IsServed, owner, pair_for, timed_at, world_left};
ghost use Rattle.served_history.specs.Rotations.{GivesKey, HasKey};

/// After a rotation the slot judges requests on each of its keys by the pair that it judged by before, with one key replaced, and with the
/// epoch that is higher by one. The pairs of other accounts stay.
pub fn a_rotation_replaces_one_key()
    ensures replaced { (slot : ℕ) (front known : List Entry) (account : List ℕ) (which : Which) (new : List ℕ) (known' : List Entry) (key : Key) (old : Keys)
        → IsEntered slot front known (Rotated slot account which new) known' → owner front key ≡ slot
        → pair_for front key account ≡ Some old
        → pair_for known' key account ≡ Some (rotated old which new (old.epoch + 1)) }
    ensures others { (slot : ℕ) (front known : List Entry) (account : List ℕ) (which : Which) (new : List ℕ) (known' : List Entry) (key : Key) (other : List ℕ)
        → IsEntered slot front known (Rotated slot account which new) known' → owner front key ≡ slot
        → other ≢ account
        → pair_for known' key other ≡ pair_for front key other }
{}

/// Who knows a rotation gets no answer by the pair that it replaced: each later request of the connection is judged by a pair whose epoch is
/// no less than that of the pair after all that the connection knows. A key that is not of that pair is not of the pair that judges, unless
/// a rotation that the connection did not know gave it again. This holds of each slot that entered the rotation: if the slot had the key of
/// the request then, a key that the rotation replaced is not of the pair that judges, unless a later rotation gave it again. If the reply
/// names no rule, the pair that judged has admitted the request. The entries that are known are a history (`what_is_known_is_a_history`).
pub fn who_knows_a_rotation_gets_no_answer_by_the_replaced_pair()
    ensures epoch { (known known' : List Entry) (q : Asked) (t : ℕ) (reply : Reply)
        (turn : IsServed known q t reply known') → IsHistory known → IsHistory known'
        → epoch_of (pair_for known (routed q) q.ask.key.account)
        ≤ epoch_of (pair_for (known ++ turn.others) (routed q) q.ask.key.account) }
    ensures replaced { (known known' : List Entry) (q : Asked) (t : ℕ) (reply : Reply)
        (turn : IsServed known q t reply known') → IsHistory known → IsHistory known' → (key : List ℕ)
        → ¬ HasKey (pair_for known (routed q) q.ask.key.account) key
        → All (λ e. ¬ GivesKey q.ask.key.account key e) turn.others
        → ¬ HasKey (pair_for (known ++ turn.others) (routed q) q.ask.key.account) key }
    ensures entered { (known known' : List Entry) (q : Asked) (t : ℕ) (reply : Reply)
        (turn : IsServed known q t reply known') → IsHistory known → IsHistory known'
        → (front rest : List Entry) (slot : ℕ) (which : Which) (new : List ℕ) (old : Keys) (key : List ℕ)
        → known ≡ front ++ Rotated slot q.ask.key.account which new ∷ rest → owner front (routed q) ≡ slot
        → pair_for front (routed q) q.ask.key.account ≡ Some old
        → ¬ HasKey (Some (rotated old which new (old.epoch + 1))) key
        → All (λ e. ¬ GivesKey q.ask.key.account key e) rest
        → All (λ e. ¬ GivesKey q.ask.key.account key e) turn.others
        → ¬ HasKey (pair_for (known ++ turn.others) (routed q) q.ask.key.account) key }
    ensures admitted { (known known' : List Entry) (q : Asked) (t : ℕ) (reply : Reply)
        (turn : IsServed known q t reply known') → reply.rule ≡ None
        → IsAdmitted (world_left (known ++ turn.others)) (timed_at (known ++ turn.others) q t) }
{}
