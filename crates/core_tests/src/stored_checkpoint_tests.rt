//! Checkpoints of a slot over streams (SOSP 2011, section 5.3).
use crate::requests::{
    CREATE, CREATE_LATER, CREATED, DELETE_CONTAINER, GET, LIST, MISSING, PUT_BLOCK,
};
use crate::samples::{begins, ends, says, sent};
use crate::stored_samples::{D, L, R, Streamed, make_streamed, put_hello, split};
use extent_node::Delivery;
use std::alloc::Global;
use std::process::Abort;

// What the reply to a second Create Container of the same name begins with.
const CONFLICT: &[u8] = b"HTTP/1.1 409 Conflict\r\n";

// Whether a checkpoint of the slot is made.
fn checkpoint(alloc: Global, slot: &mut Streamed) -> bool {
    match slot.slot.checkpoint(alloc, &mut slot.wire) {
        Ok(replaced) => {
            drop(replaced);
            true
        }
        Err(_fault) => false,
    }
}

// Whether a checkpoint is made that calls nodes so many times.
fn checkpoint_by(rt: &impl Abort, alloc: Global, slot: &mut Streamed, calls: usize) {
    let called = slot.wire.called().len();
    assert!(rt; checkpoint(alloc, slot));
    assert!(rt; slot.wire.called().len().checked_sub(called) == Some(calls));
}

/// Loads the rows again, from so many records: one node is asked for each.
pub(crate) fn reload(rt: &impl Abort, alloc: Global, slot: &mut Streamed, records: usize) {
    slot.slot.unload();
    let called = slot.wire.called().len();
    assert!(rt; slot.slot.load(alloc, &mut slot.wire).is_ok());
    assert!(rt; slot.wire.called().len().checked_sub(called) == Some(records));
}

// The replies are the same before a checkpoint, after it, and after the rows are loaded from it.
fn replies_stay(rt: &impl Abort, alloc: Global, slot: &mut Streamed) {
    put_hello(rt, alloc, slot);
    let blob = sent(rt, alloc, slot, GET);
    let list = sent(rt, alloc, slot, LIST);
    // The rows of the container and of the blob, to each node.
    checkpoint_by(rt, alloc, slot, 6);
    assert!(rt; sent(rt, alloc, slot, GET) == blob);
    assert!(rt; sent(rt, alloc, slot, LIST) == list);
    reload(rt, alloc, slot, 2);
    assert!(rt; sent(rt, alloc, slot, GET) == blob);
    assert!(rt; sent(rt, alloc, slot, LIST) == list);
}

#[test]
fn replies_are_the_same_after_a_checkpoint(rt: HostRuntime) {
    let mut slot = make_streamed(&rt, rt.alloc(), &[], &[]);
    replies_stay(&rt, rt.alloc(), &mut *slot);
}

// Changes after a checkpoint are in the log after its rows, and in the rows of the next checkpoint.
fn change_between(rt: &impl Abort, alloc: Global, slot: &mut Streamed) {
    put_hello(rt, alloc, slot);
    assert!(rt; checkpoint(alloc, slot));
    assert!(rt; begins(rt, alloc, slot, CREATE_LATER, CREATED));
    assert!(rt; begins(rt, alloc, slot, PUT_BLOCK, CREATED));
    // The two rows, and the two changes.
    reload(rt, alloc, slot, 4);
    let blob = sent(rt, alloc, slot, GET);
    let list = sent(rt, alloc, slot, LIST);
    // The rows of two containers, of a blob, and of a blob that has only the block.
    checkpoint_by(rt, alloc, slot, 12);
    reload(rt, alloc, slot, 4);
    assert!(rt; sent(rt, alloc, slot, GET) == blob);
    assert!(rt; sent(rt, alloc, slot, LIST) == list);
    assert!(rt; ends(rt, alloc, slot, GET, b"\r\n\r\nhello"));
}

#[test]
fn a_change_between_two_checkpoints_is_kept(rt: HostRuntime) {
    let mut slot = make_streamed(&rt, rt.alloc(), &[], &[]);
    change_between(&rt, rt.alloc(), &mut *slot);
}

// The container is created, deleted, and created again: its ETag tells the third change, also after a checkpoint of the deletion.
fn count_goes_on(rt: &impl Abort, alloc: Global, slot: &mut Streamed) {
    assert!(rt; begins(rt, alloc, slot, CREATE, CREATED));
    assert!(rt;
        begins(
            rt,
            alloc,
            slot,
            DELETE_CONTAINER,
            b"HTTP/1.1 202 Accepted\r\n"
        )
    );
    checkpoint_by(rt, alloc, slot, 3);
    assert!(rt; begins(rt, alloc, slot, GET, MISSING));
    reload(rt, alloc, slot, 1);
    assert!(rt; says(rt, alloc, slot, CREATE, "ETag: \"0x0000000000000003\"\r\n"));
}

#[test]
fn a_deleted_container_keeps_its_count(rt: HostRuntime) {
    let mut slot = make_streamed(&rt, rt.alloc(), &[], &[]);
    count_goes_on(&rt, rt.alloc(), &mut *slot);
}

// A checkpoint whose row of the blob is excluded twice is not made: its log is as it was, and is read again. The next checkpoint is made.
fn row_fails(rt: &impl Abort, alloc: Global, slot: &mut Streamed) {
    put_hello(rt, alloc, slot);
    assert!(rt; !checkpoint(alloc, slot));
    reload(rt, alloc, slot, 2);
    assert!(rt; ends(rt, alloc, slot, GET, b"\r\n\r\nhello"));
    assert!(rt; checkpoint(alloc, slot));
    reload(rt, alloc, slot, 2);
    assert!(rt; ends(rt, alloc, slot, GET, b"\r\n\r\nhello"));
}

// The deliveries of a Create Container and of a Put Blob, then of the container's row, and then six of the blob's row.
fn deliveries_then(rt: &impl Abort, alloc: Global, last: Delivery) -> Vec<Delivery> {
    let mut puts = Vec::with_capacity(alloc, 18).expect(rt, "memory");
    for _put in 0..12 {
        puts.push(D).expect(rt, "memory");
    }
    for _put in 0..6 {
        puts.push(last).expect(rt, "memory");
    }
    puts
}

#[test]
fn a_checkpoint_whose_row_is_refused_is_not_made(rt: HostRuntime) {
    let puts = deliveries_then(&rt, rt.alloc(), R);
    let mut slot = make_streamed(&rt, rt.alloc(), puts.as_slice(), &[]);
    row_fails(&rt, rt.alloc(), &mut *slot);
}

// All answers of the blob's row are lost, and no node says what it has.
#[test]
fn a_checkpoint_whose_row_is_lost_is_not_made(rt: HostRuntime) {
    let puts = deliveries_then(&rt, rt.alloc(), L);
    let mut slot = make_streamed(&rt, rt.alloc(), puts.as_slice(), &[false, false, false]);
    row_fails(&rt, rt.alloc(), &mut *slot);
}

// A checkpoint settles first. As long as no node answers, it is not made, and the doubt stays. Then the change is kept.
fn checkpoint_a_doubt(rt: &impl Abort, alloc: Global, slot: &mut Streamed) {
    assert!(rt; says(rt, alloc, slot, CREATE, "Refused by rule N2."));
    assert!(rt; !checkpoint(alloc, slot));
    assert!(rt; checkpoint(alloc, slot));
    reload(rt, alloc, slot, 1);
    assert!(rt; begins(rt, alloc, slot, CREATE, CONFLICT));
}

#[test]
fn a_checkpoint_settles_a_doubt_first(rt: HostRuntime) {
    let asks = [false, false, false, false, false, false, true, false, false];
    let mut slot = make_streamed(&rt, rt.alloc(), &[D, R, R], &asks);
    checkpoint_a_doubt(&rt, rt.alloc(), &mut *slot);
}

// Each half of a slot has a checkpoint of its own containers. The rows of the other half are not written again.
fn checkpoint_halves(rt: &impl Abort, alloc: Global, lower: &mut Streamed) {
    put_hello(rt, alloc, lower);
    assert!(rt; begins(rt, alloc, lower, CREATE_LATER, CREATED));
    let mut upper = split(rt, alloc, lower, "q").expect(rt, "an upper half");
    checkpoint_by(rt, alloc, lower, 6);
    checkpoint_by(rt, alloc, &mut *upper, 3);
    reload(rt, alloc, lower, 2);
    reload(rt, alloc, &mut *upper, 1);
    assert!(rt; ends(rt, alloc, lower, GET, b"\r\n\r\nhello"));
    assert!(rt; begins(rt, alloc, &mut *upper, CREATE_LATER, CONFLICT));
}

#[test]
fn each_half_has_a_checkpoint_of_its_own(rt: HostRuntime) {
    let mut slot = make_streamed(&rt, rt.alloc(), &[], &[]);
    checkpoint_halves(&rt, rt.alloc(), &mut *slot);
}
