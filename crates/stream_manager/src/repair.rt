//! The repair of a sealed extent, on a node that has no copy of it.
ghost use Rattle.std.specs.Prelude.{◌≡◌, ◌↔◌, ◌≤◌, ◌<◌, Some, Err, OnOk, OnErr, length, map};
ghost use Rattle.std.specs.List.{slice_get};
ghost use Rattle.extent_seal.specs.Counting.{Grows, all_faults};
ghost use Rattle.extent_seal.specs.Extents.{Closed};
ghost use Rattle.stream_manager.specs.Extents.{closed_blocks};
ghost use Rattle.stream_manager.specs.Repairs.{CountsRepair, IsUnheardFault, with_copy_at};
ghost use Rattle.stream_manager.specs.declared.faults.RepairFault.TheVariants.{NoSuchExtent, Unreachable};

use crate::faults::RepairFault;
use crate::handle::Handle;
use extent_node::{Node, Wire};
use std::alloc::Global;

/// Gives the node a copy of one of the extents, if this extent exists and the node has no copy.
pub(crate) fn repair_at<W: Wire>(
    handles: &mut Vec<Handle>,
    extent: u64,
    node: Node,
    alloc: Global,
    wire: &mut W,
) -> Result<(), RepairFault>
    ensures refused { (result ≡ Err NoSuchExtent) ↔ (length handles.old.items ≤ extent) }
    ensures repaired { OnOk result (handles.new.items ≡ with_copy_at node extent handles.old.items) }
    ensures same { OnErr result (handles.new.items ≡ handles.old.items) }
    ensures blocks { map closed_blocks handles.new.items ≡ map closed_blocks handles.old.items }
    ensures counted { (e : Closed) → slice_get handles.old.items extent ≡ Some e → CountsRepair result node e (W.calls wire.old) (W.calls wire.new) (W.faults wire.old) (W.faults wire.new) }
    ensures faulty { result ≡ Err Unreachable → all_faults (W.faults wire.old) < all_faults (W.faults wire.new) }
    ensures unheard { IsUnheardFault result → wire.new ≡ wire.old }
    ensures grown { Grows (W.faults wire.old) (W.faults wire.new) }
{
    if extent >= handles.len() as u64 {
        return Err(RepairFault::NoSuchExtent);
    }
    match handles[extent as usize].repair(node, alloc, wire) {
        Ok(()) => Ok(()),
        Err(fault) => Err(RepairFault::from(fault)),
    }
}
