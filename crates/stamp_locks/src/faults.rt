//! Why calls on the slots of a stamp failed.
use partition_map::MapFault;
use std::alloc::AllocError;
use stored_rows::{StoredFault, Unrepaired};

/// Why a care of a slot failed.
#[derive(Clone, Copy)]
pub enum TendFault {
    /// No slot has the number.
    NoSuchSlot,
    /// Nodes that were needed did not answer, or memory ran out.
    Slot(StoredFault),
    /// The repair failed.
    Repair(Unrepaired),
}

/// Why a slot was not given to another partition server.
#[derive(Clone, Copy, PartialEq, Eq)]
pub enum MoveFault {
    /// No slot has the number.
    NoSuchSlot,
    /// The slot does not begin with the first key of its span, which is answered as lack of memory. A move takes no memory.
    NoMemory,
}

/// Why a slot was not split.
#[derive(Clone, Copy)]
pub enum SplitError {
    /// The spans do not allow the split, or memory ran out for the split point.
    Map(MapFault),
    /// Nodes that were needed did not answer, or memory ran out for the halves of the slot.
    Slot(StoredFault),
}
