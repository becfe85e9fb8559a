//! Laws of the world and of changes. Each law is the contract of a function that does nothing.
ghost use Rattle.std.specs.Prelude.{◌≡◌, ◌≢◌, ℕ, ◌+◌, List, [], Some, None, false, option_map};
ghost use Rattle.std.specs.FinMap as finite;
ghost use Rattle.stamp_types.specs.World.{Part, World, part_at, part_value, world_value, changed, changed_in, same_pieces};
ghost use Rattle.stamp_types.specs.ActKinds.{is_row, sets_access};
ghost use Rattle.stamp_types.specs.Changes.{KeyedAct};
ghost use Rattle.stamp_values.specs.declared.key.Key.{Key};
ghost use Rattle.stamp_types.specs.declared.act.Act.{Act};
ghost use Rattle.stamp_types.specs.declared.act.Act.TheVariants as act;
ghost use Rattle.stamp_types.specs.declared.act.CreateContainer.{CreateContainer};
ghost use Rattle.stamp_types.specs.declared.act.SetAcl.{SetAcl};
ghost use Rattle.stamp_types.specs.declared.piece.Piece.{Piece};
ghost use Rattle.stamp_types.specs.declared.standing.Standing.{Standing};

/// The container is the same whether the pieces of its content are read as bytes before a change or
/// after it.
pub fn content_is_read_before_or_after_a_change()
    ensures part { (f : List Piece → List ℕ) (a : Act) (p : Part (List Piece))
        → part_value f (changed same_pieces a p) ≡ changed f a (part_value f p) }
    ensures world { (f : List Piece → List ℕ) (w : World (List Piece)) (c : KeyedAct)
        → world_value f (changed_in same_pieces w c) ≡ changed_in f (world_value f w) c }
{}

/// A change reaches its own container, and no other container.
pub fn a_change_reaches_its_own_container_alone<C>()
    ensures own { (f : List Piece → C) (w : World C) (c : KeyedAct)
        → part_at (changed_in f w c) c.key ≡ changed f c.act (part_at w c.key) }
    ensures others { (f : List Piece → C) (w : World C) (c : KeyedAct) (k : Key) → k ≢ c.key
        → part_at (changed_in f w c) k ≡ part_at w k }
{}

/// Each change raises the count of its container by one, unless it is a row of a checkpoint.
pub fn each_change_is_counted<C>()
    ensures { (f : List Piece → C) (a : Act) (p : Part C) → is_row a ≡ false
        → (changed f a p).count ≡ p.count + 1 }
{}

/// Only a change that sets access, as `sets_access` says, alters the level and the policies. A new
/// container has the level that was asked for and no policies. A container has what was set last,
/// and nothing is left of a container that was deleted.
pub fn access_is_what_was_set_last<C>()
    ensures stays { (f : List Piece → C) (a : Act) (p : Part C) → sets_access a ≡ false
        → option_map (λ s. s.acl) (changed f a p).standing ≡ option_map (λ s. s.acl) p.standing }
    ensures created { (f : List Piece → C) (a : CreateContainer) (p : Part C)
        → option_map (λ s. s.acl) (changed f (act.CreateContainer a) p).standing
        ≡ Some (record { level = a.level; policies = [] }) }
    ensures set { (f : List Piece → C) (a : SetAcl) (p : Part C) (s : Standing)
        → p.standing ≡ Some s
        → option_map (λ s. s.acl) (changed f (act.SetAcl a) p).standing ≡ Some a.acl }
    ensures deleted { (f : List Piece → C) (p : Part C)
        → ((changed f act.DeleteContainer p).standing ≡ None)
        × ((changed f act.DeleteContainer p).blobs ≡ finite.empty) }
{}
