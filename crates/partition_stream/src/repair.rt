//! The repair of a sealed extent of one of the three streams.
ghost use Rattle.std.specs.Prelude.{◌≡◌};

use crate::streams::Streams;
use extent_node::{Node, Wire};
use stream_manager::RepairFault;

/// One of the three streams of a partition (SOSP 2011, section 5.3).
#[derive(Clone, Copy, Debug, PartialEq, Eq)]
pub enum StreamName {
    /// The log of changes.
    Log,
    /// The data to which changes refer.
    Blobs,
    /// The rows of the last checkpoint.
    Rows,
}

impl Streams {
    ghost use Rattle.std.specs.Prelude.{◌≡◌, ◌↔◌, ◌≤◌, ◌<◌, Some, Err, OnOk, OnErr, length};
    ghost use Rattle.std.specs.List.{slice_get};
    ghost use Rattle.extent_seal.specs.Counting.{Grows, all_faults};
    ghost use Rattle.extent_seal.specs.Extents.{Closed};
    ghost use Rattle.stream_manager.specs.Repairs.{CountsRepair, IsUnheardFault, repaired};
    ghost use Rattle.stream_manager.specs.declared.faults.RepairFault.TheVariants.{NoSuchExtent, Unreachable};
    ghost use Rattle.partition_stream.specs.Repairs.{LeavesOthers, stream_of};
    ghost use Rattle.partition_stream.specs.Streams.{HaveSameBlocks, HaveSameLimits, logged};

    /// Gives the node a copy of a whole sealed extent of one stream, if it has no copy. No byte is copied. The changes, the doubt and the
    /// data are as they were, whatever the answer is.
    ///
    /// The other nodes, which have a copy, are asked in the order 0, 1, 2 until one of them answers yes. Then each block of the extent is
    /// put to the node once. If the node has a copy, no node is called.
    ///
    /// After a fault the streams are as they were. NoSuchExtent: no sealed extent of the stream has this number. Unreachable: each node
    /// with a copy was asked once and answered no, or a put was not Done. NoSuchExtent and NoMemory: no node was called.
    #[tactic(auto, using(crate::proofs::RepairLemmas::kept_repaired, crate::proofs::RepairLemmas::logged_repaired))]
    pub fn repair<W: Wire>(
        &mut self,
        part: StreamName,
        extent: u64,
        node: Node,
        wire: &mut W,
    ) -> Result<(), RepairFault>
        ensures refused { (result ≡ Err NoSuchExtent) ↔ (length (stream_of part self.old).sealed ≤ extent) }
        ensures repaired { OnOk result (stream_of part self.new ≡ repaired node extent (stream_of part self.old)) }
        ensures others { LeavesOthers part self.old self.new }
        ensures same { OnErr result (self.new ≡ self.old) }
        ensures logged { logged self.new ≡ logged self.old }
        ensures blocks { HaveSameBlocks self.old self.new }
        ensures last { self.new.log.last ≡ self.old.log.last }
        ensures limits { HaveSameLimits self.old self.new }
        ensures counted { (e : Closed) → slice_get (stream_of part self.old).sealed extent ≡ Some e → CountsRepair result node e (W.calls wire.old) (W.calls wire.new) (W.faults wire.old) (W.faults wire.new) }
        ensures faulty { result ≡ Err Unreachable → all_faults (W.faults wire.old) < all_faults (W.faults wire.new) }
        ensures unheard { IsUnheardFault result → wire.new ≡ wire.old }
        ensures grown { Grows (W.faults wire.old) (W.faults wire.new) }
    {
        match part {
            StreamName::Log => self.log.repair(extent, node, wire),
            StreamName::Blobs => self.blobs.repair(extent, node, wire),
            StreamName::Rows => self.rows.repair(extent, node, wire),
        }
    }
}
