//! The room of long replies, and the order in which connections wait for it and for other things.

use crate::order::WaitOrder;
use crate::place::{Held, Phase};
use std::alloc::{AllocError, Global};

/// As so many bytes a long reply counts while it is made, since nobody knows yet how long it gets. A page of 5,000 blobs with metadata
/// is about as long.
const IN_THE_MAKING: u64 = 33_554_432;

/// In which order connections wait, and how many bytes the long replies have that are made and not written.
///
/// A reply is made only if less than the limit is taken. So all replies together have at most as much as the limit and one reply more.
#[derive(Drop)]
pub(crate) struct Waits {
    pub(crate) order: WaitOrder,
    limit: u64,
    /// How many bytes are taken.
    taken: u64,
    /// How many of them are taken by requests that their route is not known to admit.
    others: u64,
}

// What a connection holds while its reply is made.
fn in_the_making(phase: Phase) -> Held {
    Held {
        bytes: IN_THE_MAKING,
        others: if phase == Phase::Room {
            0
        } else {
            IN_THE_MAKING
        },
    }
}

impl Waits {
    /// Nobody waits, for so many places. Long replies may have so many bytes, those of requests that their route is not known to admit a
    /// quarter of that.
    pub(crate) fn new(alloc: Global, places: usize, limit: u64) -> Result<Self, AllocError> {
        Ok(Self {
            order: WaitOrder::new(alloc, places)?,
            limit,
            taken: 0,
            others: 0,
        })
    }

    // Whether a reply may be made.
    fn has_room(&self, phase: Phase) -> bool {
        self.taken < self.limit && (phase == Phase::Room || self.others < self.limit / 4)
    }

    // Whether a connection waits for this room.
    fn is_awaited(&self, phase: Phase) -> bool {
        self.order.next(phase, None).is_some()
    }

    /// Whether a connection waits for room.
    pub(crate) fn has_waiting(&self) -> bool {
        self.is_awaited(Phase::Room) || self.is_awaited(Phase::OthersRoom)
    }

    /// Notes what a connection holds now, and what it held before.
    pub(crate) fn exchange(&mut self, before: Held, now: Held) {
        self.taken = self
            .taken
            .saturating_add(now.bytes)
            .saturating_sub(before.bytes);
        self.others = self
            .others
            .saturating_add(now.others)
            .saturating_sub(before.others);
    }

    /// Takes room for a reply of a request that its route is not known to admit, if there is room and nobody waits for it. Returns what its
    /// connection holds then: nothing if there is no room. What it held before is given back in any case.
    pub(crate) fn begin(&mut self, before: Held) -> Held {
        self.exchange(before, Held::nothing());
        if !self.has_room(Phase::OthersRoom) || self.has_waiting() {
            return Held::nothing();
        }
        let held = in_the_making(Phase::OthersRoom);
        self.exchange(Held::nothing(), held);
        held
    }

    // The place that waits for this room first, and what it holds from now on. `None` if there is no room or nobody waits.
    fn next_of(&mut self, phase: Phase) -> Option<(usize, Held)> {
        if !self.has_room(phase) {
            return None;
        }
        let index = self.order.next(phase, None)?;
        self.order.remove(index);
        let held = in_the_making(phase);
        self.exchange(Held::nothing(), held);
        Some((index, held))
    }

    /// The place that waits first and for which there is room, and what it holds from now on. It no longer waits then. Those that their route
    /// may admit come first.
    pub(crate) fn next(&mut self) -> Option<(usize, Held)> {
        match self.next_of(Phase::Room) {
            Some(next) => Some(next),
            None => self.next_of(Phase::OthersRoom),
        }
    }
}
