//! What a repair answers.

use extent_node::Node;
use partition_stream::StreamName;

/// The node has a copy of this sealed extent of this stream: a repair gave it one, or found one.
///
/// Only [`StoredRows::repair`](crate::StoredRows::repair) makes such a value, of what it was called with, so whoever has one has made this
/// repair.
#[derive(Clone, Copy)]
pub struct Repaired {
    pub(crate) part: StreamName,
    pub(crate) extent: u64,
    pub(crate) node: Node,
}

/// This stream had no sealed extent with this number when a repair looked for it. Only [`StoredRows::repair`](crate::StoredRows::repair)
/// makes such a value.
#[derive(Clone, Copy)]
pub struct NoExtent {
    pub(crate) part: StreamName,
    pub(crate) extent: u64,
}

/// Why a node did not get a copy of an extent of stored rows.
#[derive(Clone, Copy)]
pub enum Unrepaired {
    /// No sealed extent has this number. No node was called.
    NoSuchExtent(NoExtent),
    /// Each node with a copy was asked and answered no, or a block was put to the node and the delivery was not Done.
    Unreachable,
    /// Memory ran out before a node was called.
    NoMemory,
}
