//! The cares of one slot: each step on a slot, beside serving requests and splitting the slot.
ghost use Rattle.std.specs.Prelude.{◌≡◌, IfOk};
ghost use Rattle.extent_seal.specs.Counting.{Grows};
ghost use Rattle.stored_rows.specs.Repairs.{IsRepairOf, fault_of, unnamed};
ghost use Rattle.stored_slot.specs.Served.{Faulted};
ghost use Rattle.stamp_core.specs.CoreSteps as steps;
ghost use Rattle.stamp_core.specs.CoreSteps.{IsTended, IsTendedAt, repair_answer, slot_answer};
ghost use Rattle.stamp_core.specs.declared.care.CoreCare.TheVariants as care;
ghost use Rattle.stamp_core.specs.Ranges.{HaveSpans};
ghost use Rattle.stamp_core.specs.Tending.{IsOf, care_answer};

use crate::care::CoreCare;
use crate::tended::{Tended, Untended};
use core_run::{Outcome, StepFault};
use extent_node::{Node, Wire};
use partition_map::Spans;
use partition_stream::{Replaced, StreamName};
use slot_state::Histories;
use std::alloc::Global;
use stored_rows::{AllSealed, Repaired, StoredFault, Unrepaired};
use stored_slot::{StoredSlot, SweepStep};

/// Why a step on a slot fails.
pub(crate) fn fault_of_slot(fault: StoredFault) -> StepFault
    ensures { result ≡ steps.fault_of_slot fault }
{
    match fault {
        StoredFault::Busy => StepFault::Busy,
        StoredFault::NoMemory => StepFault::NoMemory,
    }
}

// Why a repair fails.
fn fault_of_repair(fault: Unrepaired) -> StepFault
    ensures { result ≡ steps.fault_of_repair (fault_of fault) }
{
    match fault {
        Unrepaired::NoSuchExtent(_none) => StepFault::NoSuchExtent,
        Unrepaired::Unreachable => StepFault::Unreachable,
        Unrepaired::NoMemory => StepFault::NoMemory,
    }
}

// A settle that ended so.
fn settled(called: Result<(), StoredFault>) -> Result<Tended, Untended>
    ensures answer { care_answer result ≡ slot_answer called }
    ensures given { IfOk result (IsOf care.Settle) }
{
    match called {
        Ok(()) => Ok(Tended::Settled),
        Err(fault) => Err(Untended::Slot(fault)),
    }
}

// A seal that ended so.
fn sealed(called: Result<AllSealed, StoredFault>) -> Result<Tended, Untended>
    ensures answer { care_answer result ≡ slot_answer called }
    ensures given { IfOk result (IsOf care.Seal) }
{
    match called {
        Ok(sealed) => Ok(Tended::Sealed(sealed)),
        Err(fault) => Err(Untended::Slot(fault)),
    }
}

// A load that ended so.
fn loaded(called: Result<(), StoredFault>) -> Result<Tended, Untended>
    ensures answer { care_answer result ≡ slot_answer called }
    ensures given { IfOk result (IsOf care.Load) }
{
    match called {
        Ok(()) => Ok(Tended::Loaded),
        Err(fault) => Err(Untended::Slot(fault)),
    }
}

// A checkpoint that ended so.
fn checkpointed(called: Result<Replaced, StoredFault>) -> Result<Tended, Untended>
    ensures answer { care_answer result ≡ slot_answer called }
    ensures given { IfOk result (IsOf care.Checkpoint) }
{
    match called {
        Ok(replaced) => Ok(Tended::Checkpointed(replaced)),
        Err(fault) => Err(Untended::Slot(fault)),
    }
}

// A sweep that ended so.
fn swept(called: Result<SweepStep, StoredFault>) -> Result<Tended, Untended>
    ensures answer { care_answer result ≡ slot_answer called }
    ensures given { IfOk result (IsOf care.Compact) }
{
    match called {
        Ok(swept) => Ok(Tended::Swept(swept)),
        Err(fault) => Err(Untended::Slot(fault)),
    }
}

// A repair that ended so.
fn repaired(
    called: Result<Repaired, Unrepaired>,
    stream: StreamName,
    extent: u64,
    node: Node,
) -> Result<Tended, Untended>
    requires own { IsRepairOf stream extent node called }
    ensures answer { care_answer result ≡ repair_answer (unnamed called) }
    ensures given { IfOk result (IsOf (care.Repair stream extent node)) }
{
    let (_stream, _extent, _node) = (stream, extent, node);
    match called {
        Ok(repaired) => Ok(Tended::Repaired(repaired)),
        Err(fault) => Err(Untended::Repair(fault)),
    }
}

/// The answer of a step of the machine that took a care. The value that the slot gave is dropped.
pub(crate) fn made(tended: Result<Tended, Untended>) -> Result<Outcome, StepFault>
    ensures { result ≡ care_answer tended }
{
    match tended {
        Ok(given) => {
            drop(given);
            Ok(Outcome::Made)
        }
        Err(Untended::NoSuchSlot) => Err(StepFault::NoSuchSlot),
        Err(Untended::Slot(fault)) => Err(fault_of_slot(fault)),
        Err(Untended::Repair(fault)) => Err(fault_of_repair(fault)),
    }
}

// Takes this care of a slot.
#[tactic(auto, using(stored_rows::proofs::CountLemmas::grows_not))]
fn tend_slot<H: Histories, W: Wire>(
    slot: &mut StoredSlot<H>,
    care: CoreCare,
    alloc: Global,
    wire: &mut W,
) -> Result<Tended, Untended>
    ensures tended { IsTended care slot.old (Faulted (W.faults wire.old) (W.faults wire.new)) (care_answer result) slot.new }
    ensures given { IfOk result (IsOf care) }
    ensures grown { Grows (W.faults wire.old) (W.faults wire.new) }
{
    match care {
        CoreCare::Settle => settled(slot.settle(alloc, wire)),
        CoreCare::Seal => sealed(slot.seal(alloc, wire)),
        CoreCare::Load => loaded(slot.load(alloc, wire)),
        CoreCare::Checkpoint => checkpointed(slot.checkpoint(alloc, wire)),
        CoreCare::Compact => swept(slot.compact(alloc, wire)),
        CoreCare::Unload => Ok(Tended::Unloaded(slot.unload())),
        CoreCare::Move { server } => Ok(Tended::Moved(slot.move_to(server))),
        CoreCare::Repair {
            stream,
            extent,
            node,
        } => repaired(
            slot.repair(alloc, stream, extent, node, wire),
            stream,
            extent,
            node,
        ),
    }
}

/// Takes this care of the slot with this number.
///
/// `NoSuchSlot` if no slot has the number.
#[tactic(auto, using(stored_rows::proofs::CountLemmas::grows_not))]
pub(crate) fn tend<H: Histories, W: Wire>(
    slots: &mut Vec<StoredSlot<H>>,
    spans: &Spans,
    at: usize,
    care: CoreCare,
    alloc: Global,
    wire: &mut W,
) -> Result<Tended, Untended>
    requires before { HaveSpans slots.old.items spans.now }
    ensures after { HaveSpans slots.new.items spans.now }
    ensures tended { IsTendedAt slots.old.items at care (Faulted (W.faults wire.old) (W.faults wire.new)) (care_answer result) slots.new.items }
    ensures given { IfOk result (IsOf care) }
    ensures grown { Grows (W.faults wire.old) (W.faults wire.new) }
{
    let _spans = spans;
    if at >= slots.len() {
        return Err(Untended::NoSuchSlot);
    }
    tend_slot(&mut slots[at], care, alloc, wire)
}
