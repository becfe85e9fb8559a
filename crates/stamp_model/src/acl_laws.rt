//! A law of Set Container ACL. It is the contract of a function that does nothing.
ghost use Rattle.std.specs.Prelude.{◌≡◌, ℕ, List, Option};
ghost use Rattle.std.specs.Option.{option_map};
ghost use Rattle.stamp_values.specs.declared.key.Key.{Key};
ghost use Rattle.stamp_values.specs.declared.op.Op.TheVariants.{SetAcl};
ghost use Rattle.stamp_types.specs.Requests.{Asked};
ghost use Rattle.stamp_types.specs.World.{World, part_at};
ghost use Rattle.access_rules.specs.declared.keys.Keys.{Keys};
ghost use Rattle.stamp_model.specs.Effects.{effect};

/// A Set Container ACL reaches no content: it leaves all blobs of each container, with their
/// uncommitted blocks, and the metadata of each container.
pub fn an_acl_reaches_no_content()
    ensures blobs { (keys : Option Keys) (w : World (List ℕ)) (q : Asked) (t : ℕ) (k : Key)
        → q.ask.op ≡ SetAcl → (part_at (effect keys w q t) k).blobs ≡ (part_at w k).blobs }
    ensures metadata { (keys : Option Keys) (w : World (List ℕ)) (q : Asked) (t : ℕ) (k : Key)
        → q.ask.op ≡ SetAcl
        → option_map (λ s. s.metadata) (part_at (effect keys w q t) k).standing
        ≡ option_map (λ s. s.metadata) (part_at w k).standing }
{}
