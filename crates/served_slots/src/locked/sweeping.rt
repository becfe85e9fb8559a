//! The steps of a sweep of a slot, whose lock is held for one step.
ghost use Rattle.std.specs.Prelude.{◌≡◌};

use super::LockedSlot;
use crate::steadily::sweep_steadily;
use served_history::Account;
use std::alloc::Global;
use stored_rows::{StepLimit, SweptAway};
use stored_slot::SweepStep;

/// How far a sweep is after a step.
#[derive(Drop)]
pub(crate) enum Swept {
    /// Rows are left.
    RowsLeft,
    /// The sweep is over, and gave this up, which may be dropped once no lock is held. `None` if there was no memory for the box: then it was dropped
    /// at once.
    Over(Option<Box<SweptAway>>),
    /// It gave nothing up: memory ran out, or the sweep ended early, or the slot is of no use any more.
    Failed,
}

impl<A: Account> LockedSlot<A> {
    /// Whether a sweep is under way or worth its time: the slot has many bytes of content and rows to which nothing refers, or a few if memory is
    /// short. A slot of no use is not swept.
    pub(crate) fn is_to_sweep(&self, is_short: bool) -> bool {
        if self.history.is_none() {
            return false;
        }
        self.slot.is_sweeping() || self.slot.is_wasteful() || is_short && self.slot.has_garbage()
    }

    // Makes a step of a sweep.
    fn step(&mut self, alloc: Global, limit: StepLimit) -> Option<SweepStep>
        ensures { self.new ≡ self.old }
    {
        let Some(_own) = &self.history else {
            return None;
        };
        sweep_steadily(&mut self.slot, alloc, limit)
    }

    /// Makes a step of a sweep, up to the limit. Begins a sweep if none is under way.
    ///
    /// It is not inlined, and what is given up is in a box: it is large, and each request would write its zeros.
    #[inline(never)]
    pub(crate) fn sweep(&mut self, alloc: Global, limit: StepLimit) -> Swept
        ensures { self.new ≡ self.old }
    {
        match self.step(alloc, limit) {
            Some(SweepStep::RowsLeft(_made)) => Swept::RowsLeft,
            Some(SweepStep::Over(away)) => Swept::Over(Box::new(alloc, away).ok()),
            Some(SweepStep::Stopped(_made)) => Swept::Failed,
            None => Swept::Failed,
        }
    }
}

#[cfg(test)]
impl<A: Account> LockedSlot<A> {
    // Whether a sweep is under way.
    pub(crate) fn is_sweeping(&self) -> bool {
        self.slot.is_sweeping()
    }
}
