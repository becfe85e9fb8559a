//! The value that a care of a slot gives, and why a care is not taken.
use partition_stream::Replaced;
use stored_rows::{AllSealed, Repaired, StoredFault, Unloaded, Unrepaired};
use stored_slot::SweepStep;

/// The value that a care of a slot gives. Only the call of the slot that takes the care makes the value in it: so a body that answers `Sealed` has sealed
/// the streams of a slot, and a body that answers `Repaired` has made this repair.
#[derive(Drop)]
pub enum Tended {
    /// The slot has no change in doubt.
    Settled,
    /// The streams of the slot are sealed.
    Sealed(AllSealed),
    /// The rows of the slot are in memory.
    Loaded,
    /// The rows are written as a checkpoint. These are the log and the older rows.
    Checkpointed(Replaced),
    /// A step of a sweep is made. This is how far the sweep is, with what it gave up at its end.
    Swept(SweepStep),
    /// The slot has no rows in memory. These are the rows that it had.
    Unloaded(Unloaded),
    /// Another server has the slot. These are the rows that were in memory.
    Moved(Unloaded),
    /// The node has a copy of the extent.
    Repaired(Repaired),
}

/// Why a care of a slot was not taken.
pub enum Untended {
    /// No slot has this number.
    NoSuchSlot,
    /// The slot could not be tended.
    Slot(StoredFault),
    /// The extent could not be repaired.
    Repair(Unrepaired),
}
