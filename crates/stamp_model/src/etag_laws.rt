//! What ETags of blobs are worth. The law is the contract of a function that does nothing.
ghost use Rattle.std.specs.Prelude.{◌≡◌, ℕ, List, ◌++◌, Option, Some};
ghost use Rattle.stamp_values.specs.declared.key.Key.{Key};
ghost use Rattle.stamp_types.specs.declared.committed.Committed.{Committed};
ghost use Rattle.stamp_types.specs.declared.past.Past.{Past};
ghost use Rattle.stamp_types.specs.EffectKinds.{EtagsAtMost};
ghost use Rattle.stamp_types.specs.Requests.{Asked};
ghost use Rattle.stamp_types.specs.World.{World, blob_in, part_at};
ghost use Rattle.access_rules.specs.declared.keys.Keys.{Keys};
ghost use Rattle.stamp_model.specs.Effects.{effect};
ghost use Rattle.stamp_model.specs.Etags.{IsSeenBeforeOrNewer};
ghost use Rattle.stamp_model.specs.Histories.{replay};
ghost use Rattle.stamp_model.specs.Runs.{Timed, world_after_all};

/// One ETag names one state of a blob. After a request readers see of a blob what they saw before,
/// or nothing, or what has an ETag above the count of before. So if no ETag was over the count,
/// and the blob has the same ETag before the request and after it, readers see the same of it.
/// Along the entries of a history, a blob that has the same ETag at two moments is the same at
/// both, and at each moment between them. The same is so along requests in turn, if no ETag was
/// over the count before the first of them.
pub fn an_etag_names_one_state()
    ensures request { (keys : Option Keys) (w : World (List ℕ)) (q : Asked) (t : ℕ) (k : Key)
        (name : List ℕ)
        → IsSeenBeforeOrNewer (part_at w k) (part_at (effect keys w q t) k) name }
    ensures one { (keys : Option Keys) (w : World (List ℕ)) (q : Asked) (t : ℕ) (k : Key)
        (name : List ℕ) (before after : Committed (List ℕ))
        → EtagsAtMost (part_at w k).count (part_at w k)
        → (blob_in (part_at w k) name).committed ≡ Some before
        → (blob_in (part_at (effect keys w q t) k) name).committed ≡ Some after
        → before.etag ≡ after.etag → before ≡ after }
    ensures history { (pairs : List Keys) (front middle rest : List Past) (name : List ℕ)
        (first last : Committed (List ℕ))
        → (blob_in (replay pairs front) name).committed ≡ Some first
        → (blob_in (replay pairs (front ++ middle ++ rest)) name).committed ≡ Some last
        → first.etag ≡ last.etag
        → (blob_in (replay pairs (front ++ middle)) name).committed ≡ Some first }
    ensures run { (w : World (List ℕ)) (key : Key) (front middle rest : List Timed)
        (name : List ℕ) (first last : Committed (List ℕ))
        → EtagsAtMost (part_at w key).count (part_at w key)
        → (blob_in (part_at (world_after_all w front) key) name).committed ≡ Some first
        → (blob_in (part_at (world_after_all w (front ++ middle ++ rest)) key) name).committed
        ≡ Some last
        → first.etag ≡ last.etag
        → (blob_in (part_at (world_after_all w (front ++ middle)) key) name).committed
        ≡ Some first }
{}
