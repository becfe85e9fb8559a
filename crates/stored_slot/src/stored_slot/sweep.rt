//! The sweep of a slot, and whether it is worth its time.
ghost use Rattle.stored_rows.specs.Counting.{FailsStored};
ghost use Rattle.stored_slot.specs.Settled.{LeavesSettled};

use super::StoredSlot;
use crate::sweeping::SweepStep;
use extent_node::Wire;
use slot_state::Histories;
use std::alloc::Global;
use stored_rows::{StepLimit, StoredFault};

// A step that writes all rows that are left.
const ALL_ROWS: StepLimit = StepLimit {
    rows: u32::MAX,
    blocks: u64::MAX,
    bytes: u64::MAX,
};

impl<H: Histories> StoredSlot<H> {
    /// Settles a doubt, if there is one, and makes a step of a sweep: the next rows are written again, up to the limit, and once each row is
    /// written, all that was there before the sweep began is given up. Begins a sweep if none is under way. No byte of content is copied.
    ///
    /// The rows are loaded first, if they are not in memory. After a fault nothing is changed, except that a doubt may have ended; the sweep goes on
    /// with the next step. Busy: nodes that were needed did not answer, a row was tried twice, or it is not known whether a row is kept: each
    /// container is the same either way. NoMemory: memory ran out.
    pub fn sweep<W: Wire>(
        &mut self,
        alloc: Global,
        limit: StepLimit,
        wire: &mut W,
    ) -> Result<SweepStep, StoredFault>
        ensures left { LeavesSettled result self.old self.new }
        ensures counted { FailsStored result (W.faults wire.old) (W.faults wire.new) }
    {
        self.parts.sweep(alloc, limit, wire)
    }

    /// The same for all rows at once: what was there before the sweep began is given up. A sweep that is under way is ended, so what became garbage
    /// since it began stays.
    pub fn compact<W: Wire>(
        &mut self,
        alloc: Global,
        wire: &mut W,
    ) -> Result<SweepStep, StoredFault>
        ensures left { LeavesSettled result self.old self.new }
        ensures counted { FailsStored result (W.faults wire.old) (W.faults wire.new) }
    {
        self.sweep(alloc, ALL_ROWS, wire)
    }

    /// Whether a sweep is under way. No answer depends on it.
    pub fn is_sweeping(&self) -> bool {
        self.parts.stored.is_sweeping()
    }

    /// Whether the streams have more bytes to which no container refers than a third of the bytes that exist and 16 MiB, so that a sweep is worth its
    /// time. No answer depends on it.
    pub fn is_wasteful(&self) -> bool {
        self.parts.stored.is_wasteful()
    }

    /// Whether the streams have more than 1 MiB and a sixteenth of what exists to which no container refers, so that a sweep is worth its time if
    /// memory is short. No answer depends on it.
    pub fn has_garbage(&self) -> bool {
        self.parts.stored.has_garbage()
    }
}
