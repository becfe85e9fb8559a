//! How a slot of a core is split.
ghost use Rattle.std.specs.Prelude.{◌≡◌, ◌<◌, OnErr, OnOk, length, slice_index_or, true, vec_capacity, vec_len};
ghost use Rattle.std.specs.List.{remove};
ghost use Rattle.extent_seal.specs.Counting.{Grows};
ghost use Rattle.stored_rows.specs.Counting.{FailsStored};
ghost use Rattle.core_run.specs.Cores.{no_slot};
ghost use Rattle.slot_state.specs.Slots as slots_of;
ghost use Rattle.stored_slot.specs.Served.{Faulted};
ghost use Rattle.stamp_core.specs.CoreSteps.{AreHalved, IsSplit};
ghost use Rattle.stamp_core.specs.Ranges.{HaveSpans};

use crate::tending::fault_of_slot;
use core_run::{Outcome, StepFault};
use extent_node::Wire;
use partition_map::Spans;
use slot_state::Histories;
use stamp_types::Key;
use std::alloc::{AllocError, Global};
use stored_rows::StoredFault;
use stored_slot::StoredSlot;

// Puts the two halves of a slot in its place, in which there is room for one slot more.
fn halve_reserved<H: Histories, W: Wire>(
    slots: &mut Vec<StoredSlot<H>>,
    alloc: Global,
    at: usize,
    middle: &Key,
    wire: &mut W,
) -> Result<(), StoredFault>
    requires within { at < length slots.old.items }
    requires room { vec_len slots.old < vec_capacity slots.old }
    requires inside { slots_of.is_inside (slice_index_or slots.old.items at no_slot) middle.now ≡ true }
    ensures halved { AreHalved slots.old.items at middle.now result slots.new.items }
    ensures counted { FailsStored result (W.faults wire.old) (W.faults wire.new) }
{
    match slots[at].split(alloc, middle, wire) {
        Ok(upper) => match slots.insert(at + 1, upper) {
            Ok(()) => Ok(()),
            Err(_) => unreachable!("there is room for one slot more"),
        },
        Err(fault) => Err(fault),
    }
}

// Puts the two halves of a slot in its place. Room for one slot more is made first.
#[tactic(auto, using(stored_rows::proofs::CountLemmas::grows_not))]
fn halve<H: Histories, W: Wire>(
    slots: &mut Vec<StoredSlot<H>>,
    alloc: Global,
    at: usize,
    middle: &Key,
    wire: &mut W,
) -> Result<(), StoredFault>
    requires within { at < length slots.old.items }
    requires inside { slots_of.is_inside (slice_index_or slots.old.items at no_slot) middle.now ≡ true }
    ensures halved { AreHalved slots.old.items at middle.now result slots.new.items }
    ensures counted { FailsStored result (W.faults wire.old) (W.faults wire.new) }
{
    match slots.reserve(1) {
        Ok(()) => halve_reserved(slots, alloc, at, middle, wire),
        Err(_) => Err(StoredFault::NoMemory),
    }
}

// Puts the two halves of a slot in its place, whose span was split. If the slot fails, the two spans are joined again.
fn halve_or_join<H: Histories, W: Wire>(
    slots: &mut Vec<StoredSlot<H>>,
    spans: &mut Spans,
    alloc: Global,
    at: usize,
    middle: &Key,
    wire: &mut W,
) -> Result<(), StoredFault>
    requires within { at < length slots.old.items }
    requires inside { slots_of.is_inside (slice_index_or slots.old.items at no_slot) middle.now ≡ true }
    requires split { at < length spans.old }
    ensures halved { AreHalved slots.old.items at middle.now result slots.new.items }
    ensures same_spans { OnOk result (spans.new ≡ spans.old) }
    ensures joined { OnErr result (spans.new ≡ remove spans.old at) }
    ensures counted { FailsStored result (W.faults wire.old) (W.faults wire.new) }
{
    let halved = halve(slots, alloc, at, middle, wire);
    if halved.is_err() {
        spans.join(at);
    }
    halved
}

/// Splits the span of a slot, and then the slot, which settles its doubt first. If the slot fails, its two spans are joined again.
///
/// `Map` with the first cause that refuses the split, or if memory runs out for the split point: then nothing is settled. `Busy` if nodes are
/// out of reach, and `NoMemory` if memory runs out for the halves of the slot.
pub(crate) fn split<H: Histories, W: Wire>(
    slots: &mut Vec<StoredSlot<H>>,
    spans: &mut Spans,
    alloc: Global,
    at: usize,
    middle: &Key,
    wire: &mut W,
) -> Result<Outcome, StepFault>
    requires before { HaveSpans slots.old.items spans.old }
    ensures after { HaveSpans slots.new.items spans.new }
    ensures split { IsSplit slots.old.items spans.old at middle.now (Faulted (W.faults wire.old) (W.faults wire.new)) result slots.new.items spans.new }
    ensures grown { Grows (W.faults wire.old) (W.faults wire.new) }
{
    if let Err(fault) = spans.split(at, middle) {
        return Err(StepFault::Map(fault));
    }
    match halve_or_join(slots, spans, alloc, at, middle, wire) {
        Ok(()) => Ok(Outcome::Made),
        Err(fault) => Err(fault_of_slot(fault)),
    }
}
