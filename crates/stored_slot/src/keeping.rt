//! Steps of a slot that change nothing of what it keeps, except that they settle a doubt first.
ghost use Rattle.std.specs.Prelude.{◌≡◌, ◌≤◌, [], true, Err, OnOk, length};
ghost use Rattle.partition_stream.specs.Repairs.{stream_of};
ghost use Rattle.partition_stream.specs.Streams.{AreSealed, logged};
ghost use Rattle.stream_manager.specs.declared.faults.RepairFault.TheVariants.{NoSuchExtent};
ghost use Rattle.stored_rows.specs.Counting.{FailsStored};
ghost use Rattle.stored_rows.specs.Repairs.{FailsRepair, HasCopyOn, IsRepairOf, unnamed};
ghost use Rattle.stored_slot.specs.Parts.{AreOfSlot, slot_of};
ghost use Rattle.stored_slot.specs.Settled.{LeavesRepaired, LeavesSettled, repair_fault_of};

use crate::parts::SlotParts;
use extent_node::{Node, Wire};
use partition_stream::{Replaced, StreamName};
use slot_state::Histories;
use std::alloc::Global;
use stored_rows::{AllSealed, Repaired, StoredFault, Unrepaired};

// What a repair answers if the doubt cannot be settled.
fn repair_fault(fault: StoredFault) -> Unrepaired
    ensures { result ≡ repair_fault_of fault }
{
    match fault {
        StoredFault::Busy => Unrepaired::Unreachable,
        StoredFault::NoMemory => Unrepaired::NoMemory,
    }
}

impl<H: Histories> SlotParts<H> {
    /// Settles a doubt, if there is one, and then loads the rows, if they are not loaded.
    pub(crate) fn load<W: Wire>(&mut self, alloc: Global, wire: &mut W) -> Result<(), StoredFault>
        requires before { AreOfSlot H.held self.old }
        ensures after { AreOfSlot H.held self.new }
        ensures left { LeavesSettled result (slot_of H.held self.old) (slot_of H.held self.new) }
        ensures loaded { OnOk result (self.new.stored.is_loaded ≡ true) }
        ensures counted { FailsStored result (W.faults wire.old) (W.faults wire.new) }
    {
        match self.settle(alloc, wire) {
            Ok(()) => self.stored.load(wire),
            Err(fault) => Err(fault),
        }
    }

    /// Settles a doubt, if there is one, and then seals the streams.
    pub(crate) fn seal<W: Wire>(
        &mut self,
        alloc: Global,
        wire: &mut W,
    ) -> Result<AllSealed, StoredFault>
        requires before { AreOfSlot H.held self.old }
        ensures after { AreOfSlot H.held self.new }
        ensures left { LeavesSettled result (slot_of H.held self.old) (slot_of H.held self.new) }
        ensures sealed { OnOk result (AreSealed self.new.stored.streams) }
        ensures counted { FailsStored result (W.faults wire.old) (W.faults wire.new) }
    {
        match self.clear(alloc, wire) {
            Ok(()) => self.stored.seal(wire),
            Err(fault) => Err(fault),
        }
    }

    /// Settles a doubt, if there is one, loads the rows, if they are not loaded, and then writes them as a checkpoint: they take the place of
    /// the log and of the older rows, which are answered.
    pub(crate) fn checkpoint<W: Wire>(
        &mut self,
        alloc: Global,
        wire: &mut W,
    ) -> Result<Replaced, StoredFault>
        requires before { AreOfSlot H.held self.old }
        ensures after { AreOfSlot H.held self.new }
        ensures left { LeavesSettled result (slot_of H.held self.old) (slot_of H.held self.new) }
        ensures emptied { OnOk result ((logged self.new.stored.streams).log ≡ []) }
        ensures counted { FailsStored result (W.faults wire.old) (W.faults wire.new) }
    {
        match self.load_clear(alloc, wire) {
            Ok(()) => self.stored.checkpoint(wire),
            Err(fault) => Err(fault),
        }
    }

    /// Settles a doubt, if there is one, and then gives the node a copy of a sealed extent of one stream, if it has no copy.
    ///
    /// NoSuchExtent: after the settle no sealed extent of the stream has this number.
    pub(crate) fn repair<W: Wire>(
        &mut self,
        alloc: Global,
        part: StreamName,
        extent: u64,
        node: Node,
        wire: &mut W,
    ) -> Result<Repaired, Unrepaired>
        requires before { AreOfSlot H.held self.old }
        ensures after { AreOfSlot H.held self.new }
        ensures own { IsRepairOf part extent node result }
        ensures left { LeavesRepaired (unnamed result) (slot_of H.held self.old) (slot_of H.held self.new) }
        ensures copied { OnOk result (HasCopyOn node extent (stream_of part self.new.stored.streams)) }
        ensures refused { unnamed result ≡ Err NoSuchExtent → length (stream_of part self.new.stored.streams).sealed ≤ extent }
        ensures counted { FailsRepair (unnamed result) (W.faults wire.old) (W.faults wire.new) }
    {
        match self.settle(alloc, wire) {
            Ok(()) => self.stored.repair(part, extent, node, wire),
            Err(fault) => Err(repair_fault(fault)),
        }
    }
}
