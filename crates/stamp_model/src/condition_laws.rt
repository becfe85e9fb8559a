//! Laws of conditions and of ranges. Each law is the contract of a function that does nothing.
ghost use Rattle.std.specs.Prelude.{◌≡◌, ◌≢◌, ℕ, IsTrue, false, List, ◌++◌, Option, Some, None};
ghost use Rattle.stamp_values.specs.Operations.{writes};
ghost use Rattle.stamp_values.specs.declared.condition.ByteRange.{ByteRange};
ghost use Rattle.stamp_values.specs.declared.condition.Condition.TheVariants as condition;
ghost use Rattle.stamp_values.specs.declared.key.Key.{Key};
ghost use Rattle.stamp_types.specs.declared.committed.Committed.{Committed};
ghost use Rattle.stamp_types.specs.declared.code.Code.TheVariants as code;
ghost use Rattle.stamp_types.specs.declared.past.Past.{Past};
ghost use Rattle.stamp_types.specs.declared.rule.Rule.TheVariants.{O4};
ghost use Rattle.stamp_types.specs.declared.status.Status.TheVariants.{NotModified};
ghost use Rattle.stamp_types.specs.EffectKinds.{EtagsAtMost};
ghost use Rattle.stamp_types.specs.Replies.{denied};
ghost use Rattle.stamp_types.specs.Requests.{Asked, IsAsk};
ghost use Rattle.stamp_types.specs.World.{World, blob_in, part_at};
ghost use Rattle.access_rules.specs.declared.keys.Keys.{Keys};
ghost use Rattle.stamp_model.specs.Conditions.{FailsIfMatch, FailsIfNoneMatch, HasJudgedConditions, MeetsConditions, MeetsIfMatch, without_conditions};
ghost use Rattle.stamp_model.specs.Effects.{effect};
ghost use Rattle.stamp_model.specs.Histories.{IsAccepted, replay};
ghost use Rattle.stamp_model.specs.Ranges.{IsPartOf, without_range};
ghost use Rattle.stamp_model.specs.Responses.{reply};
ghost use Rattle.stamp_model.specs.Runs.{Timed, world_after_all, reply_to_one};

/// A conditional write changes what its caller saw. If a request changes anything, its conditions
/// were true of the container as it was before the change. The same is so if the reply names no
/// rule, also for a request that only reads. Along the entries of a history, if a caller saw a
/// blob, and an entry with the ETag of that blob in If-Match is accepted later, the blob was still
/// as the caller saw it when that entry changed it. The same is so of a later request among
/// requests in turn, if the reply to the later request names no rule, and if no ETag of the
/// container is above its count at first.
pub fn a_conditional_write_changes_what_its_caller_saw()
    ensures changed { (keys : Option Keys) (w : World (List ℕ)) (q : Asked) (t : ℕ)
        → IsAsk q.ask → effect keys w q t ≢ w → MeetsConditions (part_at w q.ask.key) q.ask }
    ensures answered { (keys : Option Keys) (w : World (List ℕ)) (q : Asked) (t : ℕ)
        (bound : Option Key)
        → IsAsk q.ask → (reply keys w q t bound).rule ≡ None
        → MeetsConditions (part_at w q.ask.key) q.ask }
    ensures seen { (pairs : List Keys) (key : Key) (front middle : List Past) (e : Past)
        (name : List ℕ) (seen : Committed (List ℕ))
        → IsAsk e.request.ask → e.request.ask.blob ≡ Some name
        → e.request.ask.args.if_match ≡ Some (condition.Count seen.etag)
        → (blob_in (replay pairs front) name).committed ≡ Some seen
        → IsAccepted pairs key (replay pairs (front ++ middle)) e
        → (blob_in (replay pairs (front ++ middle)) name).committed ≡ Some seen }
    ensures run { (w : World (List ℕ)) (front middle : List Timed) (r : Timed)
        (name : List ℕ) (seen : Committed (List ℕ))
        → EtagsAtMost (part_at w r.request.ask.key).count (part_at w r.request.ask.key)
        → IsAsk r.request.ask → r.request.ask.blob ≡ Some name
        → r.request.ask.args.if_match ≡ Some (condition.Count seen.etag)
        → (blob_in (part_at (world_after_all w front) r.request.ask.key) name).committed
        ≡ Some seen
        → (reply_to_one (world_after_all w (front ++ middle)) r).rule ≡ None
        → (blob_in (part_at (world_after_all w (front ++ middle)) r.request.ask.key) name).committed
        ≡ Some seen }
{}

/// A failed condition is told, If-Match before If-None-Match. The request's own route admits it, its
/// container exists, and readers see the blob if the operation is on a blob that they have to see. If
/// its If-Match is not true, the reply is a refusal with ConditionNotMet (412), whether its
/// If-None-Match is true or not. If its If-Match is true and its If-None-Match is not, a request that
/// reads is told that the blob is not modified (304). A request that writes is told that the blob
/// exists if the condition is `*`, and else that a condition is not met.
pub fn a_failed_condition_is_told()
    ensures match_fails { (keys : Option Keys) (w : World (List ℕ)) (q : Asked) (t : ℕ)
        (bound : Option Key)
        → HasJudgedConditions keys (part_at w q.ask.key) q t
        → FailsIfMatch (part_at w q.ask.key) q.ask
        → reply keys w q t bound ≡ denied (record { rule = O4; code = code.ConditionNotMet }) }
    ensures not_modified { (keys : Option Keys) (w : World (List ℕ)) (q : Asked) (t : ℕ)
        (bound : Option Key)
        → HasJudgedConditions keys (part_at w q.ask.key) q t
        → MeetsIfMatch (part_at w q.ask.key) q.ask
        → FailsIfNoneMatch (part_at w q.ask.key) q.ask → writes q.ask.op ≡ false
        → reply keys w q t bound ≡ denied (record { rule = O4; code = code.NotModified }) }
    ensures status { (keys : Option Keys) (w : World (List ℕ)) (q : Asked) (t : ℕ)
        (bound : Option Key)
        → HasJudgedConditions keys (part_at w q.ask.key) q t
        → MeetsIfMatch (part_at w q.ask.key) q.ask
        → FailsIfNoneMatch (part_at w q.ask.key) q.ask → writes q.ask.op ≡ false
        → (reply keys w q t bound).status ≡ NotModified }
    ensures blob_exists { (keys : Option Keys) (w : World (List ℕ)) (q : Asked) (t : ℕ)
        (bound : Option Key)
        → HasJudgedConditions keys (part_at w q.ask.key) q t
        → MeetsIfMatch (part_at w q.ask.key) q.ask
        → FailsIfNoneMatch (part_at w q.ask.key) q.ask → IsTrue (writes q.ask.op)
        → q.ask.args.if_none_match ≡ Some condition.Any
        → reply keys w q t bound ≡ denied (record { rule = O4; code = code.BlobAlreadyExists }) }
    ensures none_match_fails { (keys : Option Keys) (w : World (List ℕ)) (q : Asked) (t : ℕ)
        (bound : Option Key) (etag : ℕ)
        → HasJudgedConditions keys (part_at w q.ask.key) q t
        → MeetsIfMatch (part_at w q.ask.key) q.ask
        → FailsIfNoneMatch (part_at w q.ask.key) q.ask → IsTrue (writes q.ask.op)
        → q.ask.args.if_none_match ≡ Some (condition.Count etag)
        → reply keys w q t bound ≡ denied (record { rule = O4; code = code.ConditionNotMet }) }
{}

/// A condition never lets more by. If no rule refuses a request, its reply and its effect are the
/// same without its conditions. The same is so if the conditions are true of the container, whether
/// another rule refuses the request or not: conditions that are true make no difference.
pub fn a_condition_never_lets_more_by()
    ensures reply { (keys : Option Keys) (w : World (List ℕ)) (q : Asked) (t : ℕ)
        (bound : Option Key)
        → (reply keys w q t bound).rule ≡ None
        → reply keys w (without_conditions q) t bound ≡ reply keys w q t bound }
    ensures effect { (keys : Option Keys) (w : World (List ℕ)) (q : Asked) (t : ℕ)
        (bound : Option Key)
        → (reply keys w q t bound).rule ≡ None
        → effect keys w (without_conditions q) t ≡ effect keys w q t }
    ensures met_reply { (keys : Option Keys) (w : World (List ℕ)) (q : Asked) (t : ℕ)
        (bound : Option Key)
        → MeetsConditions (part_at w q.ask.key) q.ask
        → reply keys w (without_conditions q) t bound ≡ reply keys w q t bound }
    ensures met_effect { (keys : Option Keys) (w : World (List ℕ)) (q : Asked) (t : ℕ)
        → MeetsConditions (part_at w q.ask.key) q.ask
        → effect keys w (without_conditions q) t ≡ effect keys w q t }
{}

/// A part is a part of the whole. If no rule refuses a request with a range, no rule refuses the
/// same request without its range, and the bytes of the first reply are the bytes of the second
/// reply from the range's first byte to its last byte. The first reply has status 206, says in
/// Content-Range which bytes it has, and has no Content-MD5.
pub fn a_part_is_a_part_of_the_whole()
    ensures { (keys : Option Keys) (w : World (List ℕ)) (q : Asked) (t : ℕ) (bound : Option Key)
        (range : ByteRange)
        → IsAsk q.ask → q.ask.args.range ≡ Some range → (reply keys w q t bound).rule ≡ None
        → IsPartOf range (reply keys w q t bound) (reply keys w (without_range q) t bound) }
{}
