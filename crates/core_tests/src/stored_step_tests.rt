//! Steps of a sweep of a slot between requests, while answers of nodes are lost (SOSP 2011, sections 4.3 and 5.3).
use crate::core_samples::PUT_WORLD;
use crate::requests::{
    CREATE_EARLIER, CREATE_LATER, CREATED, GET, GET_B, PUT, PUT_BLOCK, PUT_LIST,
};
use crate::samples::{begins, ends, says, sent};
use crate::stored_checkpoint_tests::reload;
use crate::stored_samples::{D, L, Streamed, make_streamed, put_hello};
use extent_node::Script;
use std::alloc::Global;
use std::process::Abort;
use stored_rows::StepLimit;
use stored_slot::SweepStep;

// The beginning of the reply to a second Create Container of the same name.
const CONFLICT: &[u8] = b"HTTP/1.1 409 Conflict\r\n";

// One row in each step.
const ONE: StepLimit = StepLimit {
    rows: 1,
    blocks: 2_000,
    bytes: 4_194_304,
};

// How a step ended.
#[derive(Debug, PartialEq, Eq, Clone, Copy)]
enum Stepped {
    RowsLeft,
    Over,
    Stopped,
    Fault,
}

fn step(alloc: Global, slot: &mut Streamed) -> Stepped {
    match slot.slot.sweep(alloc, ONE, &mut slot.wire) {
        Ok(SweepStep::RowsLeft(_made)) => Stepped::RowsLeft,
        Ok(SweepStep::Over(_away)) => Stepped::Over,
        Ok(SweepStep::Stopped(_made)) => Stepped::Stopped,
        Err(_fault) => Stepped::Fault,
    }
}

// From now on so many puts are Done, and the answer to the next one is lost. So many asks are not answered, and all later calls are answered.
fn lose(rt: &impl Abort, alloc: Global, slot: &mut Streamed, done: usize, silent: usize) {
    let mut puts = vec![in alloc; D; done].expect(rt, "memory");
    puts.push(L).expect(rt, "memory");
    let asks = vec![in alloc; false; silent].expect(rt, "memory");
    slot.wire = Script::new(alloc, puts, asks);
}

// Whether the reply has the text.
fn has(reply: &[u8], text: &str) -> bool {
    match str::from_utf8(reply) {
        Ok(reply) => reply.contains(text),
        Err(_) => false,
    }
}

// Sends the request until it is made. After the answer N1 it is not made. After the answer N2 it is in doubt: the answer of a node was lost, but each
// node has the record, so it is made.
fn make(rt: &impl Abort, alloc: Global, slot: &mut Streamed, request: &[u8]) {
    for _time in 0..4 {
        let reply = sent(rt, alloc, slot, request);
        if reply.starts_with(CREATED) || has(reply.as_slice(), "Refused by rule N2.") {
            return;
        }
        assert!(rt; has(reply.as_slice(), "Refused by rule N1."));
    }
    panic!(rt; "the nodes answer again")
}

// Two containers: `alpha` is empty, and `pics` has a blob and an uncommitted block. These are three changes of `pics`.
fn fill(rt: &impl Abort, alloc: Global, slot: &mut Streamed) {
    assert!(rt; begins(rt, alloc, slot, CREATE_EARLIER, CREATED));
    put_hello(rt, alloc, slot);
    assert!(rt; begins(rt, alloc, slot, PUT_BLOCK, CREATED));
}

// A step before each change: the blob gets other content, the block is committed, and a container is created. The sweep goes on over each of them.
fn change_between(rt: &impl Abort, alloc: Global, slot: &mut Streamed) {
    for request in [PUT_WORLD, PUT_LIST, CREATE_LATER] {
        let _stepped = step(alloc, slot);
        make(rt, alloc, slot, request);
        assert!(rt; slot.slot.is_sweeping());
    }
}

// Makes steps until the sweep is over.
fn step_to_the_end(rt: &impl Abort, alloc: Global, slot: &mut Streamed) {
    for _step in 0..20 {
        match step(alloc, slot) {
            Stepped::Over => return,
            Stepped::Stopped => panic!(rt; "the sweep goes on"),
            Stepped::RowsLeft | Stepped::Fault => {}
        }
    }
    panic!(rt; "a sweep ends")
}

// Both blobs and all three containers are as the changes leave them.
fn is_changed(rt: &impl Abort, alloc: Global, slot: &mut Streamed) {
    assert!(rt; ends(rt, alloc, slot, GET, b"\r\n\r\nworld"));
    assert!(rt; ends(rt, alloc, slot, GET_B, b"\r\n\r\nabc"));
    assert!(rt; begins(rt, alloc, slot, CREATE_EARLIER, CONFLICT));
    assert!(rt; begins(rt, alloc, slot, CREATE_LATER, CONFLICT));
}

// A sweep begins, and later loses an answer. A second sweep leaves the rows of three containers and of two blobs, and nothing else. Five changes of
// `pics` are counted, so the next one is the sixth.
fn sweep_with_loss(
    rt: &impl Abort,
    alloc: Global,
    slot: &mut Streamed,
    done: usize,
    silent: usize,
) {
    fill(rt, alloc, slot);
    assert_eq!(rt; step(alloc, slot), Stepped::RowsLeft);
    lose(rt, alloc, slot, done, silent);
    change_between(rt, alloc, slot);
    step_to_the_end(rt, alloc, slot);
    is_changed(rt, alloc, slot);
    step_to_the_end(rt, alloc, slot);
    reload(rt, alloc, slot, 5);
    is_changed(rt, alloc, slot);
    assert!(rt; says(rt, alloc, slot, PUT, "ETag: \"0x0000000000000006\"\r\n"));
}

// The answer to each put in turn is lost, and then so many asks are not answered.
fn lose_each_answer(rt: &impl Abort, alloc: Global, silent: usize) {
    for done in 0..36 {
        let mut slot = make_streamed(rt, alloc, &[], &[]);
        sweep_with_loss(rt, alloc, &mut *slot, done, silent);
    }
}

#[test]
fn a_sweep_in_steps_keeps_each_change_over_a_lost_answer(rt: HostRuntime) {
    lose_each_answer(&rt, rt.alloc(), 0);
}

// No node says what it has, until later calls.
#[test]
fn a_sweep_in_steps_keeps_each_change_over_a_doubt(rt: HostRuntime) {
    lose_each_answer(&rt, rt.alloc(), 3);
    lose_each_answer(&rt, rt.alloc(), 6);
}
