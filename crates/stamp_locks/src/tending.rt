//! The cares of a slot that its lock lends: each step on it, beside serving and cutting it.
ghost use Rattle.std.specs.Prelude.{◌≡◌, ◌≢◌, ◌≤◌, Err, length};
ghost use Rattle.partition_map.specs.Spans.{AreSpans};
ghost use Rattle.stored_rows.specs.Counting.{FailsStored};
ghost use Rattle.stored_slot.specs.Settled.{LeavesSettled};
ghost use Rattle.stamp_locks.specs.Lent as lent;
ghost use Rattle.stamp_locks.specs.Lent.{IsTended, TendsLent};
ghost use Rattle.stamp_locks.specs.declared.faults.TendFault.TheVariants as tend_fault;

use crate::care::Care;
use crate::faults::TendFault;
use crate::locked::Locked;
use crate::numbered::is_numbered;
use extent_node::Wire;
use partition_map::Spans;
use partition_stream::Replaced;
use slot_state::KeptHistories;
use std::alloc::Global;
use stored_rows::{Repaired, StoredFault, Unloaded, Unrepaired};
use stored_slot::{StoredSlot, SweepStep};

/// A value that a care took out of a slot: streams that a checkpoint replaced, streams that a sweep gave up, or rows that were in memory. To drop it
/// takes time for each block, or for each row.
#[derive(Drop)]
pub(crate) enum TakenOut {
    Checkpoint(Replaced),
    Sweep(SweepStep),
    Rows(Unloaded),
}

// The answer of a care whose call of the slot ended so.
fn told_slot(called: Result<(), StoredFault>) -> Result<(), TendFault>
    ensures { result ≡ lent.told_slot called }
{
    match called {
        Ok(()) => Ok(()),
        Err(fault) => Err(TendFault::Slot(fault)),
    }
}

// The answer of a repair that ended so.
fn told_repair(called: Result<Repaired, Unrepaired>) -> Result<(), TendFault>
    ensures { result ≡ lent.told_repair called }
{
    match called {
        Ok(_repaired) => Ok(()),
        Err(fault) => Err(TendFault::Repair(fault)),
    }
}

// Seals the open extents.
fn seal<W: Wire>(
    slot: &mut StoredSlot<KeptHistories>,
    wire: &mut W,
    alloc: Global,
) -> Result<(), StoredFault>
    ensures left { LeavesSettled result slot.old slot.new }
    ensures counted { FailsStored result (W.faults wire.old) (W.faults wire.new) }
{
    match slot.seal(alloc, wire) {
        Ok(_sealed) => Ok(()),
        Err(fault) => Err(fault),
    }
}

// Takes the rows out of memory, and keeps them.
fn unload(slot: &mut StoredSlot<KeptHistories>, taken: &mut Option<TakenOut>)
    ensures { slot.new ≡ slot.old }
{
    drop(taken.replace(TakenOut::Rows(slot.unload())));
}

// Writes the rows as a checkpoint, and keeps what it replaced.
fn checkpoint<W: Wire>(
    slot: &mut StoredSlot<KeptHistories>,
    wire: &mut W,
    alloc: Global,
    taken: &mut Option<TakenOut>,
) -> Result<(), StoredFault>
    ensures left { LeavesSettled result slot.old slot.new }
    ensures counted { FailsStored result (W.faults wire.old) (W.faults wire.new) }
{
    match slot.checkpoint(alloc, wire) {
        Ok(old) => {
            drop(taken.replace(TakenOut::Checkpoint(old)));
            Ok(())
        }
        Err(fault) => Err(fault),
    }
}

// Sweeps the streams, and keeps what the sweep gave up.
fn compact<W: Wire>(
    slot: &mut StoredSlot<KeptHistories>,
    wire: &mut W,
    alloc: Global,
    taken: &mut Option<TakenOut>,
) -> Result<(), StoredFault>
    ensures left { LeavesSettled result slot.old slot.new }
    ensures counted { FailsStored result (W.faults wire.old) (W.faults wire.new) }
{
    match slot.compact(alloc, wire) {
        Ok(swept) => {
            drop(taken.replace(TakenOut::Sweep(swept)));
            Ok(())
        }
        Err(fault) => Err(fault),
    }
}

// Takes this care of a slot. What is taken out is kept, so that it can be dropped after the lock.
#[tactic(auto, using(crate::proofs::TendLemmas::repaired))]
fn tend_lent<W: Wire>(
    slot: &mut StoredSlot<KeptHistories>,
    wire: &mut W,
    alloc: Global,
    care: Care,
    taken: &mut Option<TakenOut>,
) -> Result<(), TendFault>
    ensures { TendsLent care slot.old (W.faults wire.old) (W.faults wire.new) result slot.new }
{
    match care {
        Care::Settle => told_slot(slot.settle(alloc, wire)),
        Care::Seal => told_slot(seal(slot, wire, alloc)),
        Care::Load => told_slot(slot.load(alloc, wire)),
        Care::Checkpoint => told_slot(checkpoint(slot, wire, alloc, taken)),
        Care::Compact => told_slot(compact(slot, wire, alloc, taken)),
        Care::Unload => {
            unload(slot, taken);
            Ok(())
        }
        Care::Repair {
            stream,
            extent,
            node,
        } => told_repair(slot.repair(alloc, stream, extent, node, wire)),
    }
}

/// Takes this care of the slot with this number, as it is told outside of the lock. What is taken out is kept.
///
/// `Slot` with `NoMemory` also if the slot does not begin with the first key of its span. The slot is then as it was.
#[tactic(auto, using(crate::proofs::TendLemmas::told_tended, crate::proofs::TendLemmas::exists_still))]
pub(crate) fn tend<W: Wire + Drop>(
    locked: &mut Locked<W>,
    alloc: Global,
    spans: &Spans,
    at: usize,
    care: Care,
    taken: &mut Option<TakenOut>,
) -> Result<(), TendFault>
    requires rise { AreSpans spans.now }
    requires within { at ≤ length spans.now }
    ensures tended { IsTended W.faults at care result }
    ensures found { result ≢ Err tend_fault.NoSuchSlot }
{
    if !is_numbered(&locked.slot, alloc, spans, at) {
        return Err(TendFault::Slot(StoredFault::NoMemory));
    }
    tend_lent(&mut locked.slot, &mut locked.wire, alloc, care, taken)
}
