//! Steps, and what they answer.
use access_rules::Which;
use extent_node::Node;
use hmac_sign::SigningKey;
use partition_map::MapFault;
use partition_stream::StreamName;
use stamp_types::{Key, Moment, Reply, Request, Text};

/// A step. A slot is named by its number, which is the number of its span. The machine has no extents, no logs and no rows in memory, so it
/// says of a Seal, Load, Checkpoint, Compact or Repair that was made that the slot's doubt was settled, and no more.
#[derive(Drop)]
pub enum Step {
    /// Answer a request at a moment.
    Serve {
        request: Request,
        moment: Moment,
    },
    /// Fetch the reply of a ticket.
    Fetch {
        ticket: u64,
    },
    /// Split a slot at a key, which is the first key of the upper half.
    Split {
        slot: usize,
        middle: Key,
    },
    /// Keep or drop the change of a slot that is in doubt.
    Settle {
        slot: usize,
    },
    /// Seal the open extents of a slot.
    Seal {
        slot: usize,
    },
    /// Give a slot to another server.
    Move {
        slot: usize,
        server: u32,
    },
    /// Drop the rows of a slot from memory.
    Unload {
        slot: usize,
    },
    /// Read the rows of a slot from its streams.
    Load {
        slot: usize,
    },
    /// Write the rows of a slot as a checkpoint, and begin its log anew.
    Checkpoint {
        slot: usize,
    },
    /// Write what a slot has to new streams, and give up the old extents.
    Compact {
        slot: usize,
    },
    /// Copy a sealed extent of one of the streams of a slot to a node, unless the node has the whole extent.
    Repair {
        slot: usize,
        stream: StreamName,
        extent: u64,
        node: Node,
    },
    /// Replace a key of an account.
    Rotate {
        account: Text,
        which: Which,
        key: SigningKey,
    },
}

/// What a step answers if it is made.
#[derive(Drop)]
pub enum Outcome {
    /// The reply to the request of a Serve, or the reply of a ticket.
    Reply(Reply),
    /// The reply is held by the ticket of this number.
    Later(u64),
    /// The step was made.
    Made,
    /// The epoch of the key pair that is now in force.
    Epoch(u64),
}

/// Why a step was not made.
#[derive(Clone, Copy, Debug, PartialEq, Eq)]
pub enum StepFault {
    /// No slot has this number.
    NoSuchSlot,
    /// The stream of the slot has no sealed extent of this number.
    NoSuchExtent,
    /// No ticket of this number holds a reply.
    NoSuchTicket,
    /// The stamp has no such account.
    NoAccount,
    /// The spans refuse the split.
    Map(MapFault),
    /// Nodes that the step needs are out of reach.
    Busy,
    /// The nodes with the bytes are out of reach.
    Unreachable,
    /// No epoch comes after the epoch of the key pair in force.
    Last,
    /// Memory ran out.
    NoMemory,
}
