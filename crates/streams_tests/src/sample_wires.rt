//! Wires with written answers, for tests.

use extent_node::{Delivery, Script};
use std::alloc::Global;
use std::process::Abort;

pub(crate) const D: Delivery = Delivery::Done;

pub(crate) const R: Delivery = Delivery::Refused;

pub(crate) const L: Delivery = Delivery::Lost;

pub(crate) const YES: [bool; 3] = [true, true, true];

/// The deliveries of so many blocks that are Done, and then of one that gets this delivery in both tries.
pub(crate) fn stopped_after(
    rt: &impl Abort,
    alloc: Global,
    blocks: usize,
    last: Delivery,
) -> Vec<Delivery> {
    let mut puts = Vec::with_capacity(alloc, 32).expect(rt, "memory");
    for _block in 0..blocks {
        for _node in 0..3 {
            puts.push(D).expect(rt, "memory");
        }
    }
    for _put in 0..6 {
        puts.push(last).expect(rt, "memory");
    }
    puts
}

/// Answers of nodes: each of `count` reads is answered by the first node, and then no node answers.
pub(crate) fn lost_after(rt: &impl Abort, alloc: Global, count: usize) -> Vec<bool> {
    let mut asks = Vec::with_capacity(alloc, 12).expect(rt, "memory");
    for _ask in 0..count {
        asks.push(true).expect(rt, "memory");
    }
    for _ask in 0..3 {
        asks.push(false).expect(rt, "memory");
    }
    asks
}

/// A wire that gives these deliveries and answers in turn.
pub(crate) fn script(rt: &impl Abort, alloc: Global, puts: &[Delivery], asks: &[bool]) -> Script {
    Script::new(
        alloc,
        puts.to_vec(alloc).expect(rt, "memory"),
        asks.to_vec(alloc).expect(rt, "memory"),
    )
}
