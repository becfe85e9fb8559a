//! Slots over streams that are split and moved (SOSP 2011, section 5).
use crate::requests::{
    CREATE, CREATE_EARLIER, CREATED, GET, GET_B, LIST, LIST_FROM_M, PUT, PUT_BLOCK, PUT_LIST,
};
use crate::samples::{begins, ends, key, says};
use crate::stored_samples::{D, R, Streamed, make_streamed, split};
use std::alloc::Global;
use std::process::Abort;

// What the reply to a second Create Container of the same name begins with.
const CONFLICT: &[u8] = b"HTTP/1.1 409 Conflict\r\n";

// A slot with the containers `alpha` and `pics`, and a blob in `pics`.
fn fill(rt: &impl Abort, alloc: Global, whole: &mut Streamed) {
    assert!(rt; begins(rt, alloc, whole, CREATE_EARLIER, CREATED));
    assert!(rt; begins(rt, alloc, whole, CREATE, CREATED));
    assert!(rt; begins(rt, alloc, whole, PUT, CREATED));
}

// The container `alpha` is listed up to the bound, and the list goes on at the bound.
fn ends_at_m(rt: &impl Abort, alloc: Global, lower: &mut Streamed) {
    assert!(rt; says(rt, alloc, lower, LIST, "<Name>alpha</Name>"));
    assert!(rt; says(rt, alloc, lower, LIST, "<NextMarker>m</NextMarker>"));
    assert!(rt; !says(rt, alloc, lower, LIST, "<Name>pics</Name>"));
}

// The upper half lists `pics`, and has its blob.
fn has_pics(rt: &impl Abort, alloc: Global, upper: &mut Streamed) {
    assert!(rt; says(rt, alloc, upper, LIST_FROM_M, "<Name>pics</Name>"));
    assert!(rt; says(rt, alloc, upper, LIST_FROM_M, "<NextMarker></NextMarker>"));
    assert!(rt; ends(rt, alloc, upper, GET, b"\r\n\r\nhello"));
}

// The upper half takes a block of `pics` and its commit.
fn takes_a_block(rt: &impl Abort, alloc: Global, upper: &mut Streamed) {
    assert!(rt; begins(rt, alloc, upper, PUT_BLOCK, CREATED));
    assert!(rt; begins(rt, alloc, upper, PUT_LIST, CREATED));
    assert!(rt; ends(rt, alloc, upper, GET_B, b"\r\n\r\nabc"));
}

// Rows that are dropped from memory are read from the extents that both halves share.
fn load_again(rt: &impl Abort, alloc: Global, half: &mut Streamed) {
    half.slot.unload();
    assert!(rt; half.slot.load(alloc, &mut half.wire).is_ok());
}

// Neither half can be split at `m` again.
fn are_parted_at_m(rt: &impl Abort, alloc: Global, lower: &Streamed, upper: &Streamed) {
    let middle = key(rt, alloc, "m");
    assert!(rt; !lower.slot.is_inside(&middle) && !upper.slot.is_inside(&middle));
    assert!(rt; !lower.slot.covers(&middle) && upper.slot.covers(&middle));
}

#[test]
fn a_split_gives_each_container_to_one_half(rt: HostRuntime) {
    let alloc = rt.alloc();
    let mut lower = make_streamed(&rt, alloc, &[], &[]);
    fill(&rt, alloc, &mut *lower);
    let mut upper = split(&rt, alloc, &mut *lower, "m").expect(&rt, "the nodes answer");
    are_parted_at_m(&rt, alloc, &*lower, &*upper);
    ends_at_m(&rt, alloc, &mut *lower);
    has_pics(&rt, alloc, &mut *upper);
    takes_a_block(&rt, alloc, &mut *upper);
}

#[test]
fn both_halves_are_loaded_again(rt: HostRuntime) {
    let alloc = rt.alloc();
    let mut lower = make_streamed(&rt, alloc, &[], &[]);
    fill(&rt, alloc, &mut *lower);
    let mut upper = split(&rt, alloc, &mut *lower, "m").expect(&rt, "the nodes answer");
    load_again(&rt, alloc, &mut *lower);
    load_again(&rt, alloc, &mut *upper);
    ends_at_m(&rt, alloc, &mut *lower);
    has_pics(&rt, alloc, &mut *upper);
}

// The log has an open extent, and no node answers its seal. The slot has both containers as before, and is split when nodes answer.
#[test]
fn a_split_wants_a_node_for_the_seal(rt: HostRuntime) {
    let alloc = rt.alloc();
    let mut whole = make_streamed(&rt, alloc, &[], &[false, false, false]);
    fill(&rt, alloc, &mut *whole);
    assert!(rt; split(&rt, alloc, &mut *whole, "m").is_none());
    assert!(rt; says(&rt, alloc, &mut *whole, LIST, "<Name>alpha</Name>"));
    assert!(rt; says(&rt, alloc, &mut *whole, LIST, "<Name>pics</Name>"));
    assert!(rt; split(&rt, alloc, &mut *whole, "m").is_some());
}

// A split settles first. As long as no node answers, nothing is split. Then the change is kept, and its container is in the upper half.
fn split_a_doubt(rt: &impl Abort, alloc: Global, lower: &mut Streamed) {
    assert!(rt; says(rt, alloc, lower, CREATE, "Refused by rule N2."));
    assert!(rt; split(rt, alloc, lower, "m").is_none());
    let mut upper = split(rt, alloc, lower, "m").expect(rt, "a node answers");
    assert!(rt; begins(rt, alloc, &mut *upper, CREATE, CONFLICT));
}

#[test]
fn a_split_settles_a_doubt_first(rt: HostRuntime) {
    let asks = [false, false, false, false, false, false, true, false, false];
    let mut lower = make_streamed(&rt, rt.alloc(), &[D, R, R], &asks);
    split_a_doubt(&rt, rt.alloc(), &mut *lower);
}

#[test]
fn a_slot_that_moved_is_loaded_by_a_request(rt: HostRuntime) {
    let alloc = rt.alloc();
    let mut slot = make_streamed(&rt, alloc, &[], &[]);
    fill(&rt, alloc, &mut *slot);
    slot.slot.move_to(1);
    has_pics(&rt, alloc, &mut *slot);
}

// A move settles nothing: the next request does.
fn move_a_doubt(rt: &impl Abort, alloc: Global, slot: &mut Streamed) {
    assert!(rt; says(rt, alloc, slot, CREATE, "Refused by rule N2."));
    let called = slot.wire.called().len();
    slot.slot.move_to(1);
    assert_eq!(rt; slot.wire.called().len(), called);
    assert!(rt; begins(rt, alloc, slot, CREATE, CONFLICT));
}

#[test]
fn a_move_keeps_a_doubt(rt: HostRuntime) {
    let asks = [false, false, false, true, false, false];
    let mut slot = make_streamed(&rt, rt.alloc(), &[D, R, R], &asks);
    move_a_doubt(&rt, rt.alloc(), &mut *slot);
}
