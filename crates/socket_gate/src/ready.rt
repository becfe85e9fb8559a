//! Which connections have something to do, and which workers wait for them.

use std::alloc::{AllocError, Global};
use std::collections::VecDeque;
use std::sync::atomic::{AtomicBool, AtomicUsize, Ordering};
use std::sync::{Condvar, Mutex, Wait};

/// The places whose connections have something to do, in the order in which that was found out.
#[derive(Drop)]
struct Queue {
    indices: VecDeque<usize>,
    is_closed: bool,
}

/// Hands places from the thread that polls to the workers.
#[derive(Drop)]
pub(crate) struct ReadyQueue {
    queue: Mutex<Queue>,
    changed: Condvar,
    /// How many places are in the queue.
    length: AtomicUsize,
    /// How many workers wait for a place.
    idle: AtomicUsize,
    /// Whether a connection waits for the room of long replies.
    is_room_awaited: AtomicBool,
}

impl ReadyQueue {
    /// No place has something to do. There is room for so many places.
    pub(crate) fn new(alloc: Global, room: usize) -> Result<Self, AllocError> {
        Ok(Self {
            queue: Mutex::new(Queue {
                indices: VecDeque::with_capacity(alloc, room)?,
                is_closed: false,
            }),
            changed: Condvar::new(),
            length: AtomicUsize::new(0),
            idle: AtomicUsize::new(0),
            is_room_awaited: AtomicBool::new(false),
        })
    }

    /// Hands a place to the next worker that is free. Returns whether there was room for it.
    pub(crate) fn push<R: Wait>(&self, rt: &R, index: usize) -> bool {
        // It is counted before a worker can take it, so that the count is never below zero.
        self.length.fetch_add(1, Ordering::SeqCst);
        let pushed = self.queue.lock(rt).indices.push_back(index).is_ok();
        if pushed {
            self.changed.notify_one();
        } else {
            self.length.fetch_sub(1, Ordering::SeqCst);
        }
        pushed
    }

    /// Waits for a place that has something to do. `None` if there will be none.
    pub(crate) fn pop<R: Wait>(&self, rt: &R) -> Option<usize> {
        let mut queue = self.queue.lock(rt);
        self.idle.fetch_add(1, Ordering::SeqCst);
        let mut popped = None;
        for _ in rt.forever() {
            popped = queue.indices.pop_front();
            if popped.is_some() || queue.is_closed {
                break;
            }
            queue = self.changed.wait(rt, queue);
        }
        self.idle.fetch_sub(1, Ordering::SeqCst);
        if popped.is_some() {
            self.length.fetch_sub(1, Ordering::SeqCst);
        }
        popped
    }

    /// Says that there will be no more places. Each worker that waits for one ends.
    pub(crate) fn close<R: Wait>(&self, rt: &R) {
        self.queue.lock(rt).is_closed = true;
        self.changed.notify_all();
    }

    /// Notes whether a connection waits for the room of long replies.
    pub(crate) fn note_room(&self, is_awaited: bool) {
        self.is_room_awaited.store(is_awaited, Ordering::SeqCst);
    }

    /// Whether a connection waits for the room of long replies.
    pub(crate) fn is_room_awaited(&self) -> bool {
        self.is_room_awaited.load(Ordering::SeqCst)
    }

    /// Whether more connections have something to do than workers are free.
    pub(crate) fn is_short(&self) -> bool {
        self.length.load(Ordering::SeqCst) > self.idle.load(Ordering::SeqCst)
    }

    /// Whether a worker may wait for its connection a little: no other connection has something to do, and another worker is free.
    pub(crate) fn is_calm(&self) -> bool {
        self.length.load(Ordering::SeqCst) == 0 && self.idle.load(Ordering::SeqCst) > 0
    }
}
