//! Lists of slots over streams, whose text is written while they are served or when their tickets are fetched.
use crate::requests::{CREATE, CREATE_EARLIER, CREATED, LIST, LIST_FROM_M};
use crate::samples::{begins, sent};
use crate::stored_samples::{Streamed, make_of_rows, make_streamed, rows, split};
use extent_node::Node;
use partition_stream::StreamName;
use std::alloc::Global;
use std::process::Abort;

// The reply to a list of two containers.
fn listed(rt: &impl Abort, alloc: Global, slot: &mut Streamed) -> Vec<u8> {
    assert!(rt; begins(rt, alloc, slot, CREATE, CREATED));
    assert!(rt; begins(rt, alloc, slot, CREATE_EARLIER, CREATED));
    sent(rt, alloc, slot, LIST)
}

#[test]
fn a_gathered_list_is_the_same_by_its_ticket(rt: HostRuntime) {
    let mut slot = make_streamed(&rt, rt.alloc(), &[], &[]);
    let written = listed(&rt, rt.alloc(), &mut *slot);
    assert_eq!(rt; slot.tickets, 0);
    let mut gathering = make_of_rows(
        &rt,
        rt.alloc(),
        rows(rt.alloc()).gathering_lists(),
        &[],
        &[],
    );
    let gathered = listed(&rt, rt.alloc(), &mut *gathering);
    assert_eq!(rt; gathering.tickets, 1);
    assert!(rt; written == gathered && written.ends_with(b"</EnumerationResults>"));
}

// How many tickets the slot has given once it lists its containers again.
fn tickets_after_list(rt: &impl Abort, alloc: Global, slot: &mut Streamed) -> u64 {
    drop(sent(rt, alloc, slot, LIST));
    slot.tickets
}

// Node Two does not answer the seal of the log.
const ASKS: [bool; 3] = [true, true, false];

// Node Two gets a copy of the first extent of the log.
fn repair(rt: &impl Abort, alloc: Global, slot: &mut Streamed) {
    let called = slot.wire.called().len();
    let repaired = slot
        .slot
        .repair(alloc, StreamName::Log, 0, Node::Two, &mut slot.wire);
    assert!(rt; repaired.is_ok());
    // Node Zero is asked, and the records of both containers are put to node Two.
    assert_eq!(rt; slot.wire.called().len(), called + 3);
}

// Seals the slot, repairs it, writes a checkpoint, sweeps it, takes its rows out of memory, and moves it. After each of these the slot lists
// its containers again.
fn care_for(rt: &impl Abort, alloc: Global, slot: &mut Streamed) {
    assert!(rt; slot.slot.settle(alloc, &mut slot.wire).is_ok());
    assert!(rt; slot.slot.seal(alloc, &mut slot.wire).is_ok());
    assert_eq!(rt; tickets_after_list(rt, alloc, slot), 2);
    repair(rt, alloc, slot);
    assert_eq!(rt; tickets_after_list(rt, alloc, slot), 3);
    assert!(rt; slot.slot.checkpoint(alloc, &mut slot.wire).is_ok());
    assert_eq!(rt; tickets_after_list(rt, alloc, slot), 4);
    assert!(rt; slot.slot.compact(alloc, &mut slot.wire).is_ok());
    assert_eq!(rt; tickets_after_list(rt, alloc, slot), 5);
    drop(slot.slot.unload());
    assert!(rt; slot.slot.load(alloc, &mut slot.wire).is_ok());
    assert_eq!(rt; tickets_after_list(rt, alloc, slot), 6);
    drop(slot.slot.move_to(1));
    assert_eq!(rt; tickets_after_list(rt, alloc, slot), 7);
}

#[test]
fn lists_stay_gathered_in_both_halves_of_a_slot(rt: HostRuntime) {
    let alloc = rt.alloc();
    let mut lower = make_of_rows(&rt, alloc, rows(alloc).gathering_lists(), &[], &ASKS);
    drop(listed(&rt, alloc, &mut *lower));
    assert_eq!(rt; lower.tickets, 1);
    care_for(&rt, alloc, &mut *lower);
    let mut upper = split(&rt, alloc, &mut *lower, "m").expect(&rt, "the nodes answer");
    assert_eq!(rt; tickets_after_list(&rt, alloc, &mut *lower), 8);
    drop(sent(&rt, alloc, &mut *upper, LIST_FROM_M));
    assert_eq!(rt; upper.tickets, 1);
}
