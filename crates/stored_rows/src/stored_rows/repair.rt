//! The repair of a sealed extent of one of the streams.
ghost use Rattle.std.specs.Prelude.{◌≡◌};

use super::StoredRows;
use crate::repaired::{NoExtent, Repaired, Unrepaired};
use extent_node::{Node, Wire};
use partition_stream::StreamName;
use stream_manager::RepairFault;

impl StoredRows {
    ghost use Rattle.std.specs.Prelude.{◌≡◌, ◌↔◌, ◌≤◌, Some, Err, OnOk, OnErr, length};
    ghost use Rattle.std.specs.List.{slice_get};
    ghost use Rattle.extent_seal.specs.Extents.{Closed};
    ghost use Rattle.stream_manager.specs.Repairs.{CountsRepair, IsUnheardFault, repaired};
    ghost use Rattle.stream_manager.specs.declared.faults.RepairFault.TheVariants.{NoSuchExtent};
    ghost use Rattle.partition_stream.specs.Repairs.{LeavesOthers, stream_of};
    ghost use Rattle.partition_stream.specs.Streams.{HaveSameLimits};
    ghost use Rattle.stored_rows.specs.Repairs.{FailsRepair, HasCopyOn, IsRepairOf, unnamed};
    ghost use Rattle.stored_rows.specs.States.{MeansTheSame, doubt_of};

    // Gives the node a copy of a whole sealed extent of one stream, if it has no copy.
    #[tactic(auto, using(crate::proofs::RepairLemmas::copied_on))]
    fn copy_extent<W: Wire>(
        &mut self,
        part: StreamName,
        extent: u64,
        node: Node,
        wire: &mut W,
    ) -> Result<(), RepairFault>
        ensures refused { (result ≡ Err NoSuchExtent) ↔ (length (stream_of part self.old.streams).sealed ≤ extent) }
        ensures repaired { OnOk result (stream_of part self.new.streams ≡ repaired node extent (stream_of part self.old.streams)) }
        ensures copied { OnOk result (HasCopyOn node extent (stream_of part self.new.streams)) }
        ensures others { LeavesOthers part self.old.streams self.new.streams }
        ensures left { OnErr result (self.new ≡ self.old) }
        ensures same { MeansTheSame self.old self.new }
        ensures limits { HaveSameLimits self.old.streams self.new.streams }
        ensures doubt { doubt_of self.new ≡ doubt_of self.old }
        ensures called { (e : Closed) → slice_get (stream_of part self.old.streams).sealed extent ≡ Some e → CountsRepair result node e (W.calls wire.old) (W.calls wire.new) (W.faults wire.old) (W.faults wire.new) }
        ensures counted { FailsRepair result (W.faults wire.old) (W.faults wire.new) }
        ensures unheard { IsUnheardFault result → wire.new ≡ wire.old }
    {
        self.streams.repair(part, extent, node, wire)
    }

    /// Gives the node a copy of a whole sealed extent of one stream, if it has no copy. No byte is copied. No container changes, and a
    /// change that is in doubt stays in doubt, whatever the answer is.
    ///
    /// The other nodes, which have a copy, are asked in the order 0, 1, 2 until one of them answers yes. Then each block of the extent is
    /// put to the node once. If the node has a copy, no node is called.
    ///
    /// The answer is of the stream, the extent and the node that were named. After a fault the streams are as they were. NoSuchExtent: no
    /// sealed extent of the stream has this number. Unreachable: each node with a copy was asked once and answered no, or a put was not
    /// Done. NoSuchExtent and NoMemory: no node was called.
    pub fn repair<W: Wire>(
        &mut self,
        part: StreamName,
        extent: u64,
        node: Node,
        wire: &mut W,
    ) -> Result<Repaired, Unrepaired>
        ensures own { IsRepairOf part extent node result }
        ensures refused { (unnamed result ≡ Err NoSuchExtent) ↔ (length (stream_of part self.old.streams).sealed ≤ extent) }
        ensures repaired { OnOk result (stream_of part self.new.streams ≡ repaired node extent (stream_of part self.old.streams)) }
        ensures copied { OnOk result (HasCopyOn node extent (stream_of part self.new.streams)) }
        ensures others { LeavesOthers part self.old.streams self.new.streams }
        ensures left { OnErr result (self.new ≡ self.old) }
        ensures same { MeansTheSame self.old self.new }
        ensures limits { HaveSameLimits self.old.streams self.new.streams }
        ensures doubt { doubt_of self.new ≡ doubt_of self.old }
        ensures called { (e : Closed) → slice_get (stream_of part self.old.streams).sealed extent ≡ Some e → CountsRepair (unnamed result) node e (W.calls wire.old) (W.calls wire.new) (W.faults wire.old) (W.faults wire.new) }
        ensures counted { FailsRepair (unnamed result) (W.faults wire.old) (W.faults wire.new) }
        ensures unheard { IsUnheardFault (unnamed result) → wire.new ≡ wire.old }
    {
        match self.copy_extent(part, extent, node, wire) {
            Ok(()) => Ok(Repaired { part, extent, node }),
            Err(RepairFault::NoSuchExtent) => {
                Err(Unrepaired::NoSuchExtent(NoExtent { part, extent }))
            }
            Err(RepairFault::Unreachable) => Err(Unrepaired::Unreachable),
            Err(RepairFault::NoMemory) => Err(Unrepaired::NoMemory),
        }
    }
}
