//! Sweeps of a slot over streams: each row is written again, and what was there before is given up (SOSP 2011, section 5.3).
use crate::requests::{
    CREATE, CREATE_LATER, CREATED, DELETE_CONTAINER, GET, GET_B, LIST, PUT, PUT_BLOCK, PUT_LIST,
};
use crate::samples::{begins, ends, says, sent};
use crate::stored_checkpoint_tests::reload;
use crate::stored_samples::{D, R, Streamed, make_streamed, put_hello, split};
use extent_node::{Delivery, Script};
use std::alloc::Global;
use std::process::Abort;
use stored_rows::StepLimit;
use stored_slot::SweepStep;

// What the reply to a second Create Container of the same name begins with.
const CONFLICT: &[u8] = b"HTTP/1.1 409 Conflict\r\n";

// Whether a whole sweep of the slot is made, in one step.
fn sweep(alloc: Global, slot: &mut Streamed) -> bool {
    match slot.slot.compact(alloc, &mut slot.wire) {
        Ok(SweepStep::Over(away)) => {
            drop(away);
            true
        }
        _ => false,
    }
}

// From now on the wire gives these deliveries, and then Done and yes.
fn give(rt: &impl Abort, alloc: Global, slot: &mut Streamed, puts: &[Delivery]) {
    let puts = puts.to_vec(alloc).expect(rt, "memory");
    slot.wire = Script::new(alloc, puts, Vec::new(alloc));
}

// The replies are the same before a sweep, after it, and after the rows are loaded again. A block that was put before it is committed after it.
fn replies_stay(rt: &impl Abort, alloc: Global, slot: &mut Streamed) {
    put_hello(rt, alloc, slot);
    assert!(rt; begins(rt, alloc, slot, PUT, CREATED));
    assert!(rt; begins(rt, alloc, slot, PUT_BLOCK, CREATED));
    let blob = sent(rt, alloc, slot, GET);
    let list = sent(rt, alloc, slot, LIST);
    let called = slot.wire.called().len();
    assert!(rt; sweep(alloc, slot));
    // Each node is asked for the log and for the data. Then the rows of the container and of two blobs are put to each node. The block of each blob
    // is read from one node, and put to each.
    assert_eq!(rt; slot.wire.called().len(), called + 3 * 2 + 3 * 3 + 2 * 4);
    assert!(rt; sent(rt, alloc, slot, GET) == blob);
    assert!(rt; sent(rt, alloc, slot, LIST) == list);
    reload(rt, alloc, slot, 3);
    assert!(rt; sent(rt, alloc, slot, GET) == blob);
    assert!(rt; sent(rt, alloc, slot, LIST) == list);
    assert!(rt; begins(rt, alloc, slot, PUT_LIST, CREATED));
    assert!(rt; ends(rt, alloc, slot, GET_B, b"\r\n\r\nabc"));
}

#[test]
fn replies_are_the_same_after_a_sweep(rt: HostRuntime) {
    let mut slot = make_streamed(&rt, rt.alloc(), &[], &[]);
    replies_stay(&rt, rt.alloc(), &mut *slot);
}

// The container is created, deleted, and created again: its ETag tells the third change, also after a sweep of the deletion.
fn count_goes_on(rt: &impl Abort, alloc: Global, slot: &mut Streamed) {
    assert!(rt; begins(rt, alloc, slot, CREATE, CREATED));
    assert!(rt;
        begins(
            rt,
            alloc,
            slot,
            DELETE_CONTAINER,
            b"HTTP/1.1 202 Accepted\r\n"
        )
    );
    assert!(rt; sweep(alloc, slot));
    reload(rt, alloc, slot, 1);
    assert!(rt; says(rt, alloc, slot, CREATE, "ETag: \"0x0000000000000003\"\r\n"));
}

#[test]
fn a_deleted_container_keeps_its_count_over_a_sweep(rt: HostRuntime) {
    let mut slot = make_streamed(&rt, rt.alloc(), &[], &[]);
    count_goes_on(&rt, rt.alloc(), &mut *slot);
}

// The deliveries of `blocks` blocks that are Done, and then of one that no node takes.
fn refused_after(rt: &impl Abort, alloc: Global, blocks: usize) -> Vec<Delivery> {
    let mut puts = Vec::with_capacity(alloc, 24).expect(rt, "memory");
    for _block in 0..blocks {
        for _node in 0..3 {
            puts.push(D).expect(rt, "memory");
        }
    }
    for _put in 0..6 {
        puts.push(R).expect(rt, "memory");
    }
    puts
}

// A sweep puts the container's row, the block, and the blob's row, and each of them is refused once. The sweep goes on where it was: beside its two
// records the log then has the container's row.
fn refuse_each_block(rt: &impl Abort, alloc: Global, slot: &mut Streamed) {
    put_hello(rt, alloc, slot);
    for (blocks, records) in [(0, 2), (1, 3), (1, 3)] {
        let puts = refused_after(rt, alloc, blocks);
        give(rt, alloc, slot, puts.as_slice());
        assert!(rt; !sweep(alloc, slot));
        assert!(rt; ends(rt, alloc, slot, GET, b"\r\n\r\nhello"));
        reload(rt, alloc, slot, records);
        assert!(rt; ends(rt, alloc, slot, GET, b"\r\n\r\nhello"));
    }
    assert!(rt; sweep(alloc, slot));
    reload(rt, alloc, slot, 2);
    assert!(rt; ends(rt, alloc, slot, GET, b"\r\n\r\nhello"));
}

#[test]
fn a_sweep_that_is_refused_changes_no_reply(rt: HostRuntime) {
    let mut slot = make_streamed(&rt, rt.alloc(), &[], &[]);
    refuse_each_block(&rt, rt.alloc(), &mut *slot);
}

// A sweep settles first. As long as no node answers, it is not made, and the doubt stays. Then the change is kept.
fn sweep_a_doubt(rt: &impl Abort, alloc: Global, slot: &mut Streamed) {
    assert!(rt; says(rt, alloc, slot, CREATE, "Refused by rule N2."));
    assert!(rt; !sweep(alloc, slot));
    assert!(rt; sweep(alloc, slot));
    reload(rt, alloc, slot, 1);
    assert!(rt; begins(rt, alloc, slot, CREATE, CONFLICT));
}

#[test]
fn a_sweep_settles_a_doubt_first(rt: HostRuntime) {
    let asks = [false, false, false, false, false, false, true, false, false];
    let mut slot = make_streamed(&rt, rt.alloc(), &[D, R, R], &asks);
    sweep_a_doubt(&rt, rt.alloc(), &mut *slot);
}

// Each half of a slot is swept by itself. The other half keeps its containers.
fn sweep_a_half(rt: &impl Abort, alloc: Global, lower: &mut Streamed) {
    put_hello(rt, alloc, lower);
    assert!(rt; begins(rt, alloc, lower, CREATE_LATER, CREATED));
    let mut upper = split(rt, alloc, lower, "q").expect(rt, "an upper half");
    assert!(rt; sweep(alloc, lower));
    assert!(rt; begins(rt, alloc, &mut *upper, CREATE_LATER, CONFLICT));
    assert!(rt; sweep(alloc, &mut *upper));
    reload(rt, alloc, lower, 2);
    reload(rt, alloc, &mut *upper, 1);
    assert!(rt; ends(rt, alloc, lower, GET, b"\r\n\r\nhello"));
    assert!(rt; begins(rt, alloc, &mut *upper, CREATE_LATER, CONFLICT));
}

#[test]
fn each_half_is_swept_by_itself(rt: HostRuntime) {
    let mut slot = make_streamed(&rt, rt.alloc(), &[], &[]);
    sweep_a_half(&rt, rt.alloc(), &mut *slot);
}

// Writes one row of a sweep, and begins it before. Rows are left.
fn step(alloc: Global, slot: &mut Streamed) -> bool {
    let one = StepLimit {
        rows: 1,
        blocks: 2_000,
        bytes: 4_194_304,
    };
    matches!(
        slot.slot.sweep(alloc, one, &mut slot.wire),
        Ok(SweepStep::RowsLeft(_made))
    )
}

// A sweep that has written the row of the first container goes on in both halves of a split. The upper half ends it first.
fn split_a_sweep(rt: &impl Abort, alloc: Global, lower: &mut Streamed) {
    put_hello(rt, alloc, lower);
    assert!(rt; begins(rt, alloc, lower, CREATE_LATER, CREATED));
    assert!(rt; step(alloc, lower));
    let mut upper = split(rt, alloc, lower, "q").expect(rt, "an upper half");
    assert!(rt; lower.slot.is_sweeping() && upper.slot.is_sweeping());
    assert!(rt; sweep(alloc, &mut *upper));
    assert!(rt; lower.slot.is_sweeping() && !upper.slot.is_sweeping());
    assert!(rt; ends(rt, alloc, lower, GET, b"\r\n\r\nhello"));
    assert!(rt; sweep(alloc, lower));
    assert!(rt; !lower.slot.is_sweeping());
    // The row that was written before the split, and one row of each half.
    reload(rt, alloc, lower, 2);
    reload(rt, alloc, &mut *upper, 2);
    assert!(rt; ends(rt, alloc, lower, GET, b"\r\n\r\nhello"));
    assert!(rt; begins(rt, alloc, &mut *upper, CREATE_LATER, CONFLICT));
}

#[test]
fn a_sweep_goes_on_in_both_halves_of_a_slot(rt: HostRuntime) {
    let mut slot = make_streamed(&rt, rt.alloc(), &[], &[]);
    split_a_sweep(&rt, rt.alloc(), &mut *slot);
}
