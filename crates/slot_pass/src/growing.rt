//! How a front gets all that may be in it after a call, and then loses what is not.
ghost use Rattle.std.specs.Prelude.{◌≡◌, IsTrue, OnErr, OnOk, false};
ghost use mathlib.Core.List.{IsPrefix};
ghost use Rattle.slot_pass.specs.Spares.{AgreesAt, CanBecome, IsOtherAt, with_last};

use crate::front::Front;
use slot_state::PairList;
use stamp_types::Past;
use std::alloc::{AllocError, Global};

// One more entry, if there is one.
fn push_if(front: &mut Front, entry: Option<Past>) -> Result<(), AllocError>
    ensures added { OnOk result (front.new ≡ with_last front.old entry) }
    ensures refused { OnErr result (front.new ≡ front.old) }
{
    match entry {
        Some(entry) => front.push(entry),
        None => Ok(()),
    }
}

// Both entries, as far as there are any. If memory runs out, the front may have the first of them.
#[tactic(auto, using(crate::proofs::SpareLemmas::begun_one, crate::proofs::SpareLemmas::begun_none))]
fn push_both(front: &mut Front, doubt: Option<Past>, own: Option<Past>) -> Result<(), AllocError>
    ensures added { OnOk result (front.new ≡ with_last (with_last front.old doubt) own) }
    ensures begun { OnErr result (IsPrefix front.old front.new) }
{
    match push_if(front, doubt) {
        Ok(()) => push_if(front, own),
        Err(fault) => {
            drop(own);
            Err(fault)
        }
    }
}

// What the history has after the front, and then both entries. If memory runs out, the front may have some of it.
#[tactic(auto, using(crate::proofs::SpareLemmas::begun_after, crate::proofs::SpareLemmas::begun_none))]
fn lengthen(
    front: &mut Front,
    alloc: Global,
    history: &[Past],
    doubt: Option<Past>,
    own: Option<Past>,
) -> Result<(), AllocError>
    requires { IsPrefix front.old history.now }
    ensures whole { OnOk result (front.new ≡ with_last (with_last history.now doubt) own) }
    ensures begun { OnErr result (IsPrefix front.old front.new) }
{
    match front.catch_up(alloc, history) {
        Ok(()) => push_both(front, doubt, own),
        Err(fault) => {
            drop(doubt);
            drop(own);
            Err(fault)
        }
    }
}

// The same. If memory runs out, the front is as it was.
#[tactic(auto, using(crate::proofs::ListLemmas::begins_with))]
fn extend(
    front: &mut Front,
    alloc: Global,
    history: &[Past],
    doubt: Option<Past>,
    own: Option<Past>,
) -> Result<(), AllocError>
    requires { IsPrefix front.old history.now }
    ensures whole { OnOk result (front.new ≡ with_last (with_last history.now doubt) own) }
    ensures same { OnErr result (front.new ≡ front.old) }
{
    let shown = front.len();
    match lengthen(front, alloc, history, doubt, own) {
        Ok(()) => Ok(()),
        Err(fault) => {
            front.cut(shown);
            Err(fault)
        }
    }
}

/// Gives a caller's pairs and front all that they may have after a call: the pairs of the account, the history, the change in doubt and the
/// entry of the request.
///
/// `AllocError` if memory runs out. Both are then as they were.
pub(crate) fn grow(
    pairs: &mut PairList,
    front: &mut Front,
    alloc: Global,
    all_pairs: &PairList,
    history: &[Past],
    doubt: Option<Past>,
    own: Option<Past>,
) -> Result<(), AllocError>
    requires { IsPrefix front.old history.now }
    ensures pairs { OnOk result (pairs.new ≡ all_pairs.now) }
    ensures front { OnOk result (front.new ≡ with_last (with_last history.now doubt) own) }
    ensures same { OnErr result ((pairs.new ≡ pairs.old) × (front.new ≡ front.old)) }
{
    let Ok(copy) = all_pairs.copied() else {
        drop(doubt);
        drop(own);
        return Err(AllocError);
    };
    if let Err(fault) = extend(front, alloc, history, doubt, own) {
        drop(copy);
        return Err(fault);
    }
    *pairs = copy;
    Ok(())
}

// Whether front and history have different entries at this place.
fn is_other(front: &[Past], place: usize, history: &[Past]) -> bool
    ensures other { IsTrue result → IsOtherAt front.now history.now place }
    ensures same { result ≡ false → AgreesAt front.now history.now place }
{
    place < front.len() && place < history.len() && !front[place].same(&history[place])
}

/// Takes from the front what is not in the history: the change in doubt, the entry of the request, or both. Takes no memory.
#[tactic(auto, using(crate::proofs::SpareLemmas::stays, crate::proofs::SpareLemmas::leaves))]
pub(crate) fn fit(front: &mut Front, known: usize, history: &[Past])
    requires { CanBecome known front.old history.now }
    ensures { front.new ≡ history.now }
{
    if is_other(front.as_slice(), known, history) {
        front.remove(known);
        front.cut(history.len());
        return;
    }
    front.cut(history.len());
}
