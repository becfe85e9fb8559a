//! The order in which connections began to wait.

use crate::place::Phase;
use std::alloc::{AllocError, Global};

/// How many lists there are.
const LISTS: usize = 5;

/// The places before and after a place.
#[derive(Clone, Copy, Drop)]
struct Neighbours {
    before: usize,
    after: usize,
}

/// Five lists of places: those of connections that are idle, those that wait inside a head, those that wait inside a body, those that wait for
/// the room of the admitted, and those that wait for the room of others. In each list the connection that began to wait first comes first. A place is in one list at
/// most.
///
/// Each list is a ring through a number that is not a place. What is in no list is a ring of its own. So no change depends on how many places
/// there are.
#[derive(Drop)]
pub(crate) struct WaitOrder {
    ring: Vec<Neighbours>,
    places: usize,
}

impl WaitOrder {
    /// Empty lists, for so many places.
    pub(crate) fn new(alloc: Global, places: usize) -> Result<Self, AllocError> {
        let mut ring = Vec::with_capacity(alloc, places.saturating_add(LISTS))?;
        for index in 0..places.saturating_add(LISTS) {
            ring.push(Neighbours {
                before: index,
                after: index,
            })?;
        }
        Ok(Self { ring, places })
    }

    // The number through which the ring of a list goes. `None` if nobody asks for this order.
    fn list(&self, phase: Phase) -> Option<usize> {
        match phase {
            Phase::Idle => Some(self.places),
            Phase::Head => Some(self.places.wrapping_add(1)),
            Phase::Room => Some(self.places.wrapping_add(2)),
            Phase::OthersRoom => Some(self.places.wrapping_add(3)),
            Phase::Body => Some(self.places.wrapping_add(4)),
            Phase::Reply => None,
        }
    }

    // The neighbours of a place.
    fn neighbours(&self, index: usize) -> Neighbours {
        match self.ring.get(index) {
            Some(neighbours) => *neighbours,
            None => Neighbours {
                before: index,
                after: index,
            },
        }
    }

    // Makes two places neighbours.
    fn join(&mut self, before: usize, after: usize) {
        if let Some(neighbours) = self.ring.get_mut(before) {
            neighbours.after = after;
        }
        if let Some(neighbours) = self.ring.get_mut(after) {
            neighbours.before = before;
        }
    }

    /// Takes a place out of its list.
    pub(crate) fn remove(&mut self, index: usize) {
        let Neighbours { before, after } = self.neighbours(index);
        self.join(before, after);
        self.join(index, index);
    }

    /// Notes that the connection of a place begins to wait in this phase.
    pub(crate) fn begin(&mut self, index: usize, phase: Phase) {
        self.remove(index);
        if let Some(list) = self.list(phase) {
            let last = self.neighbours(list).before;
            self.join(last, index);
            self.join(index, list);
        }
    }

    /// The place that comes after another one, or the first place if no other one is given.
    pub(crate) fn next(&self, phase: Phase, other: Option<usize>) -> Option<usize> {
        let next = self.neighbours(other.or(self.list(phase))?).after;
        if next < self.places { Some(next) } else { None }
    }
}
