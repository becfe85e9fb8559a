//! Which slot a lock lends: no clause of a lock says it, so it is seen each time.
ghost use Rattle.std.specs.Prelude.{◌≡◌, ◌≤◌, length, true};
ghost use Rattle.partition_map.specs.Spans.{AreSpans, first_key, slot_of};
ghost use Rattle.slot_state.specs.Slots.{covers};
ghost use Rattle.stamp_locks.specs.Lent as lent;
ghost use Rattle.stamp_locks.specs.Lent.{BeginsSpan};

use partition_map::Spans;
use slot_state::KeptHistories;
use stamp_types::Key;
use std::alloc::Global;
use stored_rows::KeyRange;
use stored_slot::StoredSlot;

// Whether this is the first key of the slot.
fn is_first_key(slot: &StoredSlot<KeptHistories>, key: &Key) -> bool
    ensures { result ≡ lent.is_first_key slot.now key.now }
{
    slot.covers(key) && !slot.is_inside(key)
}

// Whether the range of the slot begins with the first key of the span with this number.
#[tactic(auto, using(crate::proofs::NumberLemmas::begins_first, crate::proofs::NumberLemmas::begins_later))]
fn begins_span(slot: &StoredSlot<KeptHistories>, alloc: Global, spans: &Spans, at: usize) -> bool
    requires { at ≤ length spans.now }
    ensures { result ≡ true → slot.now.from ≡ first_key spans.now at }
{
    if at == 0 {
        let all = KeyRange::all(alloc);
        return is_first_key(slot, &all.from);
    }
    match spans.bound(at - 1) {
        Some(first) => is_first_key(slot, first),
        None => false,
    }
}

/// Whether the slot begins with the first key of the span with this number.
pub(crate) fn is_numbered(
    slot: &StoredSlot<KeptHistories>,
    alloc: Global,
    spans: &Spans,
    at: usize,
) -> bool
    requires rise { AreSpans spans.now }
    requires within { at ≤ length spans.now }
    ensures { result ≡ true → BeginsSpan spans.now at slot.now }
{
    begins_span(slot, alloc, spans, at)
}

/// Whether the slot begins with the first key of the span that has this key, and has this key too.
pub(crate) fn is_for(
    slot: &StoredSlot<KeptHistories>,
    alloc: Global,
    spans: &Spans,
    key: &Key,
) -> bool
    requires { AreSpans spans.now }
    ensures begins { result ≡ true → BeginsSpan spans.now (slot_of spans.now key.now) slot.now }
    ensures covered { result ≡ true → covers slot.now key.now ≡ true }
{
    slot.covers(key) && is_numbered(slot, alloc, spans, spans.find(key))
}
