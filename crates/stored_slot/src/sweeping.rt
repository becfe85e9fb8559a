//! Sweeps of a slot: its rows are written again in steps, and then what was there before is given up.
ghost use Rattle.std.specs.Prelude.{◌≡◌, IfOk, IfSome, None, OnOk, true};
ghost use Rattle.stored_rows.specs.Counting.{FailsStored};
ghost use Rattle.stored_rows.specs.Ranges.{covers};
ghost use Rattle.stored_rows.specs.States.{AreFoundIn, doubt_of, own_doubt_of};
ghost use Rattle.stored_slot.specs.Parts.{AreClear, AreOfSlot, AreSettled, slot_of};
ghost use Rattle.stored_slot.specs.Settled.{LeavesSettled};
ghost use Rattle.stored_slot.specs.Sweeps as sweeps;
ghost use Rattle.stored_slot.specs.Sweeps.{KeepsContainers};

use crate::parts::SlotParts;
use extent_node::Wire;
use slot_state::Histories;
use stamp_types::Change;
use std::alloc::Global;
use stored_rows::{
    FoundForChange, Progress, StepLimit, StoredFault, StoredRows, SweptAway, TakeFault,
};

/// Says that a slot made a step of a sweep. Only a slot makes this value.
#[derive(Drop)]
pub struct StepMade(());

/// How far a sweep is after a step. Only the step of a slot makes such a value.
#[derive(Drop)]
pub enum SweepStep {
    /// Rows are left.
    RowsLeft(StepMade),
    /// Each row was written. All that came before is given up. To drop it takes time for each of its blocks, so a caller may drop it once it holds no
    /// lock.
    Over(SweptAway),
    /// The sweep ended early, and gave nothing up.
    Stopped(StepMade),
}

// The answer of a slot if a row was not written. If it is not known whether a row is kept, the row is in doubt, and each container is as it was.
fn row_fault(fault: TakeFault) -> StoredFault
    ensures { result ≡ sweeps.row_fault fault }
{
    match fault {
        TakeFault::Busy | TakeFault::Doubt => StoredFault::Busy,
        TakeFault::NoMemory => StoredFault::NoMemory,
    }
}

/// The answer to a change if the rows that it reads were not written.
pub(crate) fn fault_before(fault: StoredFault) -> TakeFault
    ensures { result ≡ sweeps.fault_before fault }
{
    match fault {
        StoredFault::Busy => TakeFault::Busy,
        StoredFault::NoMemory => TakeFault::NoMemory,
    }
}

// Writes the rows that a change reads. All that was found for the change is then to be found anew.
fn touch<W: Wire>(
    stored: &mut StoredRows,
    change: &Change,
    wire: &mut W,
) -> Result<Option<FoundForChange>, StoredFault>
    requires sure { doubt_of stored.old ≡ None }
    requires covered { covers stored.old.range change.now.key ≡ true }
    ensures beside { KeepsContainers stored.old stored.new }
    ensures sure { OnOk result (doubt_of stored.new ≡ None) }
    ensures anew { IfOk result (λ found. found ≡ None) }
    ensures counted { FailsStored result (W.faults wire.old) (W.faults wire.new) }
{
    match stored.touch(change, wire) {
        Ok(()) => Ok(None),
        Err(fault) => Err(row_fault(fault)),
    }
}

/// Makes stored rows ready for a change: the doubt of a row ends, and if a sweep is under way, it writes the rows that the change reads. Gives what was
/// found for the change, unless it is to be found anew.
///
/// Busy: nodes that were needed did not answer. NoMemory: memory ran out.
pub(crate) fn make_way<W: Wire>(
    stored: &mut StoredRows,
    change: &Change,
    found: FoundForChange,
    wire: &mut W,
) -> Result<Option<FoundForChange>, StoredFault>
    requires own { own_doubt_of stored.old ≡ None }
    requires covered { covers stored.old.range change.now.key ≡ true }
    requires found { AreFoundIn stored.old change.now found.blocks }
    ensures beside { KeepsContainers stored.old stored.new }
    ensures sure { OnOk result (doubt_of stored.new ≡ None) }
    ensures found { IfOk result (λ o. IfSome o (λ f. AreFoundIn stored.new change.now f.blocks)) }
    ensures counted { FailsStored result (W.faults wire.old) (W.faults wire.new) }
{
    match stored.end_row_doubt(wire) {
        Ok(was_in_doubt) => {
            if !was_in_doubt && !stored.is_sweeping() {
                return Ok(Some(found));
            }
            drop(found);
            touch(stored, change, wire)
        }
        Err(fault) => {
            drop(found);
            Err(fault)
        }
    }
}

// Ends a sweep that has written each row.
fn end(stored: &mut StoredRows) -> SweepStep
    requires sure { doubt_of stored.old ≡ None }
    ensures beside { KeepsContainers stored.old stored.new }
{
    match stored.sweep_end() {
        Some(away) => SweepStep::Over(away),
        None => SweepStep::Stopped(StepMade(())),
    }
}

// Writes the next rows of a sweep, and ends it if each row is written.
#[tactic(auto, using(crate::proofs::SweepLemmas::row_counted, crate::proofs::SweepLemmas::touched_beside))]
fn go_on<W: Wire>(
    stored: &mut StoredRows,
    limit: StepLimit,
    wire: &mut W,
) -> Result<SweepStep, StoredFault>
    requires sure { doubt_of stored.old ≡ None }
    ensures beside { KeepsContainers stored.old stored.new }
    ensures counted { FailsStored result (W.faults wire.old) (W.faults wire.new) }
{
    match stored.sweep_step(limit, wire) {
        Ok(Progress::RowsLeft) => Ok(SweepStep::RowsLeft(StepMade(()))),
        Ok(Progress::Done) => Ok(end(stored)),
        Ok(Progress::NoSweep) => Ok(SweepStep::Stopped(StepMade(()))),
        Err(fault) => Err(row_fault(fault)),
    }
}

// Begins a sweep, if none is under way, and makes a step of it.
fn step<W: Wire>(
    stored: &mut StoredRows,
    limit: StepLimit,
    wire: &mut W,
) -> Result<SweepStep, StoredFault>
    requires sure { doubt_of stored.old ≡ None }
    ensures beside { KeepsContainers stored.old stored.new }
    ensures counted { FailsStored result (W.faults wire.old) (W.faults wire.new) }
{
    match stored.sweep_begin(wire) {
        Ok(()) => go_on(stored, limit, wire),
        Err(fault) => Err(fault),
    }
}

impl<H: Histories> SlotParts<H> {
    // Ends the doubt of a row, if there is one, on a slot without a doubt of its own.
    fn end_row_doubt<W: Wire>(&mut self, wire: &mut W) -> Result<(), StoredFault>
        requires before { AreSettled H.held self.old }
        ensures after { AreSettled H.held self.new }
        ensures same { slot_of H.held self.new ≡ slot_of H.held self.old }
        ensures loaded { self.new.stored.is_loaded ≡ self.old.stored.is_loaded }
        ensures clear { OnOk result (AreClear self.new) }
        ensures counted { FailsStored result (W.faults wire.old) (W.faults wire.new) }
    {
        match self.stored.end_row_doubt(wire) {
            Ok(_was_in_doubt) => Ok(()),
            Err(fault) => Err(fault),
        }
    }

    /// Settles a doubt, if there is one, and ends the doubt of a row that a sweep has written: what writes or seals the streams needs both.
    pub(crate) fn clear<W: Wire>(&mut self, alloc: Global, wire: &mut W) -> Result<(), StoredFault>
        requires before { AreOfSlot H.held self.old }
        ensures after { AreOfSlot H.held self.new }
        ensures left { LeavesSettled result (slot_of H.held self.old) (slot_of H.held self.new) }
        ensures clear { OnOk result (AreClear self.new) }
        ensures counted { FailsStored result (W.faults wire.old) (W.faults wire.new) }
    {
        match self.settle(alloc, wire) {
            Ok(()) => self.end_row_doubt(wire),
            Err(fault) => Err(fault),
        }
    }

    /// Settles a doubt, if there is one, loads the rows, if they are not loaded, and ends the doubt of a row that a sweep has written.
    pub(crate) fn load_clear<W: Wire>(
        &mut self,
        alloc: Global,
        wire: &mut W,
    ) -> Result<(), StoredFault>
        requires before { AreOfSlot H.held self.old }
        ensures after { AreOfSlot H.held self.new }
        ensures left { LeavesSettled result (slot_of H.held self.old) (slot_of H.held self.new) }
        ensures loaded { OnOk result (self.new.stored.is_loaded ≡ true) }
        ensures clear { OnOk result (AreClear self.new) }
        ensures counted { FailsStored result (W.faults wire.old) (W.faults wire.new) }
    {
        match self.load(alloc, wire) {
            Ok(()) => self.end_row_doubt(wire),
            Err(fault) => Err(fault),
        }
    }

    /// Makes a step of a sweep. A doubt is settled first, and the rows are loaded.
    pub(crate) fn sweep<W: Wire>(
        &mut self,
        alloc: Global,
        limit: StepLimit,
        wire: &mut W,
    ) -> Result<SweepStep, StoredFault>
        requires before { AreOfSlot H.held self.old }
        ensures after { AreOfSlot H.held self.new }
        ensures left { LeavesSettled result (slot_of H.held self.old) (slot_of H.held self.new) }
        ensures counted { FailsStored result (W.faults wire.old) (W.faults wire.new) }
    {
        match self.load_clear(alloc, wire) {
            Ok(()) => step(&mut self.stored, limit, wire),
            Err(fault) => Err(fault),
        }
    }
}
