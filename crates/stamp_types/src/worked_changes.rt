//! A worked list of changes, whose end the checker computes.
ghost use Rattle.std.specs.Prelude.{◌≡◌, [], ◌∷◌, ◌++◌, Some, None, length, ℕ, List};
ghost use Rattle.std.specs.FinMap as finite;
ghost use Rattle.stamp_types.specs.Pieces.{held};
ghost use Rattle.stamp_types.specs.World.{no_part, blob_in};
ghost use Rattle.stamp_types.specs.WorkedChanges.{after_changes, first_blob, first_changes, first_id, last_changes, one_meta, plain_props, second_blob};
ghost use Rattle.stamp_values.specs.declared.level.Level.TheVariants as level;

/// What nine changes of a container leave in the end, with each ETag and each moment, and what its
/// blob has after the first five changes.
pub fn worked_changes_end_as_written()
    ensures container { (after_changes held (first_changes ++ last_changes) no_part).standing
        ≡ Some (record {
          etag = 1;
          made = 10;
          metadata = [];
          acl = record { level = level.Blob; policies = [] };
        }) }
    ensures count { (after_changes held (first_changes ++ last_changes) no_part).count ≡ 9 }
    ensures gone { finite.get (after_changes held (first_changes ++ last_changes) no_part).blobs
        second_blob
        ≡ None }
    ensures seen { (blob_in (after_changes held first_changes no_part) first_blob).committed
        ≡ Some (record {
          etag = 2;
          made = 20;
          props = plain_props;
          metadata = [];
          blocks = record { id = None; content = 1 ∷ [] } ∷ [];
        }) }
    ensures unseen { finite.get
        (blob_in (after_changes held first_changes no_part) first_blob).uncommitted first_id
        ≡ Some (3 ∷ []) }
    ensures left { blob_in (after_changes held (first_changes ++ last_changes) no_part) first_blob
        ≡ record {
          committed = Some (record {
            etag = 7;
            made = 40;
            props = plain_props;
            metadata = one_meta;
            blocks = record { id = Some first_id; content = 3 ∷ [] } ∷ [];
          });
          uncommitted = finite.empty;
        } }
{}
