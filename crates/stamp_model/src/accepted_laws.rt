//! Laws of the requests of a run that change a container. Each law is the contract of a function that
//! does nothing.
ghost use Rattle.std.specs.Prelude.{◌≡◌, ℕ, List, ◌∷◌, ◌++◌, map};
ghost use Rattle.stamp_values.specs.declared.key.Key.{Key};
ghost use Rattle.stamp_types.specs.declared.past.Past.{Past};
ghost use Rattle.stamp_types.specs.World.{Part, World, part_at};
ghost use Rattle.access_rules.specs.declared.keys.Keys.{Keys};
ghost use Rattle.stamp_model.specs.Histories.{IsLegalFrom, replay_from};
ghost use Rattle.stamp_model.specs.AcceptedRequests.{EpochsRise, IsChange, accepted_at, timed_by};
ghost use Rattle.stamp_model.specs.Runs.{Timed, part_after_all, world_after_all};

/// A run is the replay of its accepted requests. After requests in turn, a container is what those
/// of them that change it make of it, one after the other; and each of them is on this container,
/// and changes it as those before it left it. A history replays as its entries do, each judged by
/// the pair of its epoch. If a history is legal, and the container is as it was before the first
/// entry, each entry is among the requests that change the container. Of entries on any containers
/// whose epochs do not fall, those that change the container are a legal history.
pub fn a_run_is_the_replay_of_its_accepted_requests()
    ensures run { (w : World (List ℕ)) (key : Key) (rs : List Timed)
        → part_at (world_after_all w rs) key ≡ part_after_all (part_at w key) (accepted_at key w rs) }
    ensures each { (w : World (List ℕ)) (key : Key) (rs front : List Timed) (r : Timed)
        (rest : List Timed)
        → accepted_at key w rs ≡ front ++ r ∷ rest
        → IsChange key (part_after_all (part_at w key) front) r }
    ensures history { (pairs : List Keys) (start : Part (List ℕ)) (history : List Past)
        → replay_from pairs start history ≡ part_after_all start (map (timed_by pairs) history) }
    ensures legal { (pairs : List Keys) (key : Key) (w : World (List ℕ)) (history : List Past)
        → IsLegalFrom pairs key (part_at w key) history
        → accepted_at key w (map (timed_by pairs) history) ≡ map (timed_by pairs) history }
    ensures entries { (pairs : List Keys) (key : Key) (w : World (List ℕ)) (entries : List Past)
        → EpochsRise entries
        → (history : List Past) × IsLegalFrom pairs key (part_at w key) history
        × (map (timed_by pairs) history
        ≡ accepted_at key w (map (timed_by pairs) entries)) }
{}
