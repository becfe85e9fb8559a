//! Sweeps of the slots, beside the steps that requests make.

use super::Slots;
use crate::effort::{AT_REST, IN_NEED};
use crate::locked::sweeping::Swept;
use partition_map::MOST_SLOTS;
use served_history::Account;
use std::alloc::Global;
use std::sync::Wait;
use stored_rows::{StepLimit, SweptAway};

/// The most steps of one sweep. No sweep is known to need so many.
const MOST_STEPS: u32 = 4_194_304;

/// How a step left a slot.
#[derive(Clone, Copy, PartialEq, Eq)]
enum Tended {
    /// It was not to be swept.
    Calm,
    /// Rows are left.
    RowsLeft,
    /// Its sweep is over.
    Over,
    /// The step gave nothing up.
    Failed,
}

impl<A: Account> Slots<A> {
    // The garbage that the sweep of a request gave up: it is dropped at once if memory is short, and else by the next call that tends garbage, so that no client
    // waits for that.
    pub(crate) fn put_away<R: Wait>(&self, rt: &R, away: Option<Box<SweptAway>>, is_short: bool) {
        if is_short {
            drop(away);
        } else {
            self.garbage.leave(rt, away);
        }
    }

    // Makes a step of a sweep of the slot with this number, if it is to be swept. Waits for the locks of table and slot, and holds them for this step.
    // The garbage of the step is dropped while no lock is held. `None` if no slot has the number.
    fn step<R: Wait>(
        &self,
        rt: &R,
        alloc: Global,
        at: usize,
        limit: StepLimit,
        is_short: bool,
    ) -> Option<Tended> {
        let table = self.table.read(rt);
        let mut locked = table.locked_at(rt, at)?;
        if !locked.is_to_sweep(is_short) {
            return Some(Tended::Calm);
        }
        match locked.sweep(alloc, limit) {
            Swept::RowsLeft => Some(Tended::RowsLeft),
            Swept::Failed => Some(Tended::Failed),
            Swept::Over(away) => {
                drop(locked);
                drop(table);
                drop(away);
                Some(Tended::Over)
            }
        }
    }

    // Makes steps of a sweep of the slot with this number until the sweep is over, if memory is short and the slot has a little to which nothing refers.
    // Other threads may make steps of the same sweep meanwhile. It is Calm only if no step was made.
    fn sweep_whole<R: Wait>(&self, rt: &R, alloc: Global, at: usize) -> Option<Tended> {
        let mut tended = self.step(rt, alloc, at, IN_NEED, true)?;
        for _ in 0..MOST_STEPS {
            if tended != Tended::RowsLeft {
                return Some(tended);
            }
            tended = match self.step(rt, alloc, at, IN_NEED, true)? {
                Tended::Calm => Tended::Over,
                other => other,
            };
        }
        Some(tended)
    }

    // The same twice, if the first sweep is over: it may have begun before the last bytes were wasted. Returns whether the slot was to be swept.
    fn collect_at<R: Wait>(&self, rt: &R, alloc: Global, at: usize) -> Option<bool> {
        match self.sweep_whole(rt, alloc, at)? {
            Tended::Calm => Some(false),
            Tended::RowsLeft | Tended::Failed => Some(true),
            Tended::Over => {
                let _ = self.sweep_whole(rt, alloc, at);
                Some(true)
            }
        }
    }

    /// Drops what sweeps gave up, and sweeps each slot that has a little to which nothing refers, step by step. Between steps the locks are given back.
    /// Returns whether anything was dropped, or a slot was swept, or was to be and memory ran out for that.
    pub(crate) fn collect<R: Wait>(&self, rt: &R, alloc: Global) -> bool {
        let mut is_any = self.garbage.drop_left(rt);
        for at in 0..MOST_SLOTS {
            match self.collect_at(rt, alloc, at) {
                Some(is_swept) => is_any = is_any || is_swept,
                None => break,
            }
        }
        is_any
    }

    /// Drops what sweeps of requests gave up, and makes one step of a sweep of each slot that is to be swept: a sweep is under way, or the slot has much
    /// to which nothing refers, or memory is short and it has a little. Returns whether a slot may be left that is to be swept.
    ///
    /// A server calls it now and then, so that a slot is swept to which no request comes that writes. It waits for the lock of each slot in turn. The
    /// lock of the table is given back after each step, so a split waits for one step at most.
    pub fn tend_garbage<R: Wait>(&self, rt: &R, alloc: Global, is_short: bool) -> bool {
        let _dropped = self.garbage.drop_left(rt);
        let mut is_left = false;
        for at in 0..MOST_SLOTS {
            match self.step(rt, alloc, at, AT_REST, is_short) {
                Some(tended) => is_left = is_left || tended != Tended::Calm,
                None => break,
            }
        }
        is_left
    }
}

#[cfg(test)]
impl<A: Account> Slots<A> {
    // Drops what a sweep of a request gave up. Returns whether there was anything.
    pub(crate) fn drop_left<R: Wait>(&self, rt: &R) -> bool {
        self.garbage.drop_left(rt)
    }

    // Whether a sweep of the first slot is under way. Waits for the locks of table and slot.
    pub(crate) fn is_sweeping<R: Wait>(&self, rt: &R) -> bool {
        match self.table.read(rt).locked_at(rt, 0) {
            Some(locked) => locked.is_sweeping(),
            None => false,
        }
    }

    // Whether the first slot is to be swept. Waits for the locks of table and slot.
    pub(crate) fn is_to_sweep<R: Wait>(&self, rt: &R, is_short: bool) -> bool {
        match self.table.read(rt).locked_at(rt, 0) {
            Some(locked) => locked.is_to_sweep(is_short),
            None => false,
        }
    }
}
