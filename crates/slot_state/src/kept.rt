//! Histories that are kept as lists.
ghost use Rattle.std.specs.Prelude.{◌≡◌, ◌≢◌, ◌↔◌, ◌++◌, ◌∷◌, [], IfOk, IsTrue, None, OnErr, OnOk};
ghost use Rattle.std.specs.FinMap as finite;
ghost use Rattle.slot_state.specs.HistoryMaps.{history_at, with_entry, without_last, front};

use crate::history::History;
use stamp_types::{Key, Past};
use stamp_values::Keyed;
use std::alloc::{AllocError, Global};

// The history of one entry.
fn first_of(alloc: Global, entry: &Past) -> Result<History, AllocError>
    ensures { IfOk result (λ history. history ≡ entry.now ∷ []) }
{
    let mut history = History::new(alloc);
    let entry = entry.clone()?;
    history.push(entry)?;
    Ok(history)
}

// The first entry of a container.
#[tactic(auto, using(crate::proofs::MapLemmas::first_noted))]
fn note_first(lists: &mut Keyed<History>, alloc: Global, entry: &Past) -> Result<(), AllocError>
    requires first { finite.get lists.old entry.now.request.ask.key ≡ None }
    ensures noted { OnOk result (lists.new ≡ with_entry lists.old entry.now) }
    ensures refused { OnErr result (lists.new ≡ lists.old) }
{
    let history = first_of(alloc, entry)?;
    let own = entry.request.ask().key.clone()?;
    lists.insert(own, history)?;
    Ok(())
}

// One more entry of a container that has some.
fn go_on(history: &mut History, entry: &Past) -> Result<(), AllocError>
    ensures noted { OnOk result (history.new ≡ history.old ++ entry.now ∷ []) }
    ensures refused { OnErr result (history.new ≡ history.old) }
{
    let entry = entry.clone()?;
    history.push(entry)
}

/// One more entry, which is the last of its container.
#[tactic(auto, using(crate::proofs::MapLemmas::same_histories))]
pub(crate) fn push(
    lists: &mut Keyed<History>,
    alloc: Global,
    entry: &Past,
) -> Result<(), AllocError>
    ensures noted { OnOk result (lists.new ≡ with_entry lists.old entry.now) }
    ensures refused { OnErr result (lists.new ≡ lists.old) }
{
    match lists.get_mut(&entry.request.ask().key) {
        Some(history) => go_on(history, entry),
        None => note_first(lists, alloc, entry),
    }
}

// Whether no entry is left.
fn none_left(history: &History) -> bool
    ensures { IsTrue result ↔ (history.now ≡ []) }
{
    history.as_slice().is_empty()
}

// The last entry of a list is gone; whether none is left.
#[tactic(auto, using(crate::proofs::MapLemmas::front_of, crate::proofs::MapLemmas::none_left_of))]
fn shorten(history: &mut History) -> bool
    requires { history.old ≢ [] }
    ensures shorter { history.new ≡ front history.old }
    ensures none { IsTrue result ↔ (front history.old ≡ []) }
{
    history.take_back();
    none_left(history)
}

// The last entry of a container is gone; whether none is left.
fn shorten_at(lists: &mut Keyed<History>, key: &Key) -> bool
    requires { history_at lists.old key.now ≢ [] }
    ensures shorter { lists.new ≡ finite.insert lists.old key.now (front (history_at lists.old key.now)) }
    ensures none { IsTrue result ↔ (front (history_at lists.old key.now) ≡ []) }
{
    match lists.get_mut(key) {
        Some(history) => shorten(history),
        None => unreachable!("the container has a history"),
    }
}

/// The last entry of a container is gone; a list of one entry is gone with it.
#[tactic(auto, using(crate::proofs::MapLemmas::with_rest, crate::proofs::MapLemmas::with_none))]
pub(crate) fn take_back(lists: &mut Keyed<History>, key: &Key)
    requires { history_at lists.old key.now ≢ [] }
    ensures { lists.new ≡ without_last lists.old key.now }
{
    if shorten_at(lists, key) {
        lists.remove(key);
    }
}
