//! The names of the steps on one slot, beside serving requests and splitting the slot.
use extent_node::Node;
use partition_stream::StreamName;

/// A step on one slot.
#[derive(Clone, Copy)]
pub enum CoreCare {
    /// Keep or drop the change that is in doubt.
    Settle,
    /// Seal the open extents.
    Seal,
    /// Read the rows from the streams.
    Load,
    /// Write the rows as a checkpoint, and begin the log anew.
    Checkpoint,
    /// Sweep the streams: write all rows again, and give up all that was there before.
    Compact,
    /// Drop the rows from memory.
    Unload,
    /// Give the slot to another server.
    Move {
        server: u32,
    },
    /// Copy a sealed extent of one of the streams to a node, unless the node has the whole extent.
    Repair {
        stream: StreamName,
        extent: u64,
        node: Node,
    },
}
