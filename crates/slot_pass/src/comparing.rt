//! Where a list differs from the beginning of another list.
ghost use Rattle.std.specs.Prelude.{◌≡◌, ◌↔◌, IfNone, IfSome, IsTrue, slice_get};
ghost use Rattle.std.specs.Arc.{arc_value};
ghost use mathlib.Core.List.{IsPrefix};
ghost use Rattle.slot_pass.specs.Differences.{DiffersAt};

use access_rules::Keys;
use slot_state::PairList;
use stamp_types::Past;
use std::sync::Arc;

/// The first place where the front is not a beginning of the history; none if it is a beginning. Takes no memory.
#[tactic(auto, using(crate::proofs::ListLemmas::taken_at))]
pub(crate) fn front_differs(front: &[Past], history: &[Past]) -> Option<usize>
    ensures begins { IfNone result (IsPrefix front.now history.now) }
    ensures differs { IfSome result (λ place. DiffersAt front.now history.now place) }
{
    for at in 0..front.len() {
        if at >= history.len() || !front[at].same(&history[at]) {
            return Some(at);
        }
    }
    None
}

// Whether both are the same pair: the same account, the same two keys and the same epoch.
fn is_same_pair(pair: &Arc<Keys>, other: &Arc<Keys>) -> bool
    ensures { IsTrue result ↔ (arc_value pair.now ≡ arc_value other.now) }
{
    pair.epoch == other.epoch
        && pair.account == other.account
        && pair.first == other.first
        && pair.second == other.second
}

// Whether both lists have the same pair at this place, or both have none.
#[tactic(auto, using(crate::proofs::ListLemmas::both_there, crate::proofs::ListLemmas::first_there, crate::proofs::ListLemmas::second_there, crate::proofs::ListLemmas::none_there))]
fn agree(pairs: &PairList, others: &PairList, at: usize) -> bool
    ensures { IsTrue result ↔ (slice_get others.now at ≡ slice_get pairs.now at) }
{
    match pairs.get(at) {
        Some(pair) => match others.get(at) {
            Some(other) => is_same_pair(pair, other),
            None => false,
        },
        None => match others.get(at) {
            Some(_other) => false,
            None => true,
        },
    }
}

/// The first place where the pairs are not a beginning of the other pairs; none if they are a beginning. Takes no memory.
#[tactic(auto, using(crate::proofs::ListLemmas::one_more_at, crate::proofs::ListLemmas::taken_at))]
pub(crate) fn pairs_differ(pairs: &PairList, others: &PairList) -> Option<usize>
    ensures begins { IfNone result (IsPrefix pairs.now others.now) }
    ensures differs { IfSome result (λ place. DiffersAt pairs.now others.now place) }
{
    for at in 0..pairs.len() {
        if !agree(pairs, others, at) {
            return Some(at);
        }
    }
    None
}
