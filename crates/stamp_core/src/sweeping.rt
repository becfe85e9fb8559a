//! The sweep of the first slot that is sweeping or wasteful.
ghost use Rattle.std.specs.Prelude.{◌≡◌};
ghost use Rattle.extent_seal.specs.Counting.{Grows};
ghost use Rattle.stored_slot.specs.Served.{Faulted};
ghost use Rattle.stamp_core.specs.Ranges.{HaveSpans};
ghost use Rattle.stamp_core.specs.Sweeps.{IsSweptSlot, SweepsFirst};

use extent_node::Wire;
use partition_map::Spans;
use slot_state::Histories;
use std::alloc::Global;
use stored_rows::StepLimit;
use stored_slot::{StoredSlot, SweepStep};

/// The number of the first slot that is sweeping or wasteful, or the number of slots if no slot is.
pub(crate) fn first_to_sweep<H: Histories>(slots: &[StoredSlot<H>]) -> usize {
    match slots
        .iter()
        .position(|slot| slot.is_sweeping() || slot.is_wasteful())
    {
        Some(at) => at,
        None => slots.len(),
    }
}

// Makes a step of a sweep of a slot.
fn sweep_slot<H: Histories, W: Wire>(
    slot: &mut StoredSlot<H>,
    alloc: Global,
    limit: StepLimit,
    wire: &mut W,
) -> Option<SweepStep>
    ensures swept { IsSweptSlot result slot.old (Faulted (W.faults wire.old) (W.faults wire.new)) slot.new }
    ensures grown { Grows (W.faults wire.old) (W.faults wire.new) }
{
    match slot.sweep(alloc, limit, wire) {
        Ok(swept) => Some(swept),
        Err(_fault) => None,
    }
}

/// Makes a step of a sweep of the slot with this number, if a slot has it.
pub(crate) fn sweep_at<H: Histories, W: Wire>(
    slots: &mut Vec<StoredSlot<H>>,
    spans: &Spans,
    at: usize,
    alloc: Global,
    limit: StepLimit,
    wire: &mut W,
) -> Option<SweepStep>
    requires before { HaveSpans slots.old.items spans.now }
    ensures after { HaveSpans slots.new.items spans.now }
    ensures swept { SweepsFirst result slots.old.items (Faulted (W.faults wire.old) (W.faults wire.new)) slots.new.items }
    ensures grown { Grows (W.faults wire.old) (W.faults wire.new) }
{
    let _spans = spans;
    if at >= slots.len() {
        return None;
    }
    sweep_slot(&mut slots[at], alloc, limit, wire)
}
