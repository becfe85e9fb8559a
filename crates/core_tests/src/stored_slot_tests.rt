//! Slots over streams under written deliveries (SOSP 2011, sections 4.3 and 5).
use crate::requests::{CREATE, CREATED, GET};
use crate::samples::{begins, ends, key, says};
use crate::stored_samples::{D, L, R, Streamed, make_streamed, put_hello};
use std::alloc::Global;
use std::process::Abort;

// What the reply to a second Create Container of the same name begins with.
const CONFLICT: &[u8] = b"HTTP/1.1 409 Conflict\r\n";

fn create_once(rt: &impl Abort, alloc: Global, slot: &mut Streamed) {
    assert!(rt; begins(rt, alloc, slot, CREATE, CREATED));
    assert!(rt; begins(rt, alloc, slot, CREATE, CONFLICT));
}

#[test]
fn a_create_takes_three_deliveries(rt: HostRuntime) {
    let mut slot = make_streamed(&rt, rt.alloc(), &[D, D, D], &[]);
    create_once(&rt, rt.alloc(), &mut *slot);
    assert_eq!(rt; slot.wire.called().len(), 3);
}

#[test]
fn a_create_is_made_if_its_first_answer_is_lost(rt: HostRuntime) {
    let mut slot = make_streamed(&rt, rt.alloc(), &[L], &[]);
    create_once(&rt, rt.alloc(), &mut *slot);
}

#[test]
fn a_create_is_made_if_a_node_refuses_it(rt: HostRuntime) {
    let mut slot = make_streamed(&rt, rt.alloc(), &[R], &[]);
    create_once(&rt, rt.alloc(), &mut *slot);
}

// Both tries of the record are refused by all nodes, so the change is not counted.
fn refuse(rt: &impl Abort, alloc: Global, slot: &mut Streamed) {
    assert!(rt; says(rt, alloc, slot, CREATE, "Refused by rule N1."));
    create_once(rt, alloc, slot);
}

#[test]
fn a_create_that_is_refused_twice_leaves_nothing(rt: HostRuntime) {
    let mut slot = make_streamed(&rt, rt.alloc(), &[R, R, R, R, R, R], &[]);
    refuse(&rt, rt.alloc(), &mut *slot);
}

// One node took the record, and then no node answers. The next request settles the doubt: a node that answers has the record.
fn keep_a_doubt(rt: &impl Abort, alloc: Global, slot: &mut Streamed) {
    assert!(rt; says(rt, alloc, slot, CREATE, "Refused by rule N2."));
    assert!(rt; begins(rt, alloc, slot, CREATE, CONFLICT));
}

#[test]
fn a_doubt_is_kept(rt: HostRuntime) {
    let asks = [false, false, false, true, false, false];
    let mut slot = make_streamed(&rt, rt.alloc(), &[D, R, R], &asks);
    keep_a_doubt(&rt, rt.alloc(), &mut *slot);
}

// A settle fails as long as no node answers, and the doubt stays. Then it is kept, since a node that answers has the record.
fn settle_a_doubt(rt: &impl Abort, alloc: Global, slot: &mut Streamed) {
    assert!(rt; says(rt, alloc, slot, CREATE, "Refused by rule N2."));
    assert!(rt; slot.slot.settle(alloc, &mut slot.wire).is_err());
    assert!(rt; slot.slot.settle(alloc, &mut slot.wire).is_ok());
    assert!(rt; begins(rt, alloc, slot, CREATE, CONFLICT));
}

#[test]
fn a_settle_keeps_a_doubt_that_a_node_has(rt: HostRuntime) {
    let asks = [false, false, false, false, false, false, true, false, false];
    let mut slot = make_streamed(&rt, rt.alloc(), &[D, R, R], &asks);
    settle_a_doubt(&rt, rt.alloc(), &mut *slot);
}

// A slot whose doubt cannot be settled serves nothing. Then a node answers that has no record.
fn drop_a_doubt(rt: &impl Abort, alloc: Global, slot: &mut Streamed) {
    assert!(rt; says(rt, alloc, slot, CREATE, "Refused by rule N2."));
    assert!(rt; says(rt, alloc, slot, GET, "Refused by rule N1."));
    create_once(rt, alloc, slot);
}

#[test]
fn a_doubt_is_dropped(rt: HostRuntime) {
    let asks = [false, false, false, false, false, false, false, true, false];
    let mut slot = make_streamed(&rt, rt.alloc(), &[D, R, R], &asks);
    drop_a_doubt(&rt, rt.alloc(), &mut *slot);
}

// The content is in the open extent of the data, and is read while the request is served.
fn get_at_once(rt: &impl Abort, alloc: Global, slot: &mut Streamed) {
    put_hello(rt, alloc, slot);
    assert!(rt; ends(rt, alloc, slot, GET, b"\r\n\r\nhello"));
    assert_eq!(rt; slot.tickets, 0);
}

#[test]
fn content_in_the_open_extent_is_read_at_once(rt: HostRuntime) {
    let mut slot = make_streamed(&rt, rt.alloc(), &[], &[]);
    get_at_once(&rt, rt.alloc(), &mut *slot);
}

// The content is in a sealed extent, and a ticket gives it, also after the rows were loaded again.
fn get_later(rt: &impl Abort, alloc: Global, slot: &mut Streamed) {
    put_hello(rt, alloc, slot);
    assert!(rt; slot.slot.seal(alloc, &mut slot.wire).is_ok());
    assert!(rt; ends(rt, alloc, slot, GET, b"\r\n\r\nhello"));
    assert_eq!(rt; slot.tickets, 1);
    slot.slot.unload();
    assert!(rt; ends(rt, alloc, slot, GET, b"\r\n\r\nhello"));
    assert_eq!(rt; slot.tickets, 2);
}

#[test]
fn content_in_a_sealed_extent_is_read_by_a_ticket(rt: HostRuntime) {
    let mut slot = make_streamed(&rt, rt.alloc(), &[], &[]);
    get_later(&rt, rt.alloc(), &mut *slot);
}

// The rows that were in memory have the container, and are given once.
fn unload_rows(rt: &impl Abort, alloc: Global, slot: &mut Streamed) {
    put_hello(rt, alloc, slot);
    let unloaded = slot.slot.unload();
    let rows = unloaded.rows().expect(rt, "rows that were in memory");
    assert_eq!(rt; rows.find(&key(rt, alloc, "pics")).count(), 2);
    assert!(rt; slot.slot.unload().rows().is_none());
    assert!(rt; ends(rt, alloc, slot, GET, b"\r\n\r\nhello"));
    assert!(rt; slot.slot.move_to(1).rows().is_some());
}

#[test]
fn an_unloaded_slot_hands_its_rows_out(rt: HostRuntime) {
    let mut slot = make_streamed(&rt, rt.alloc(), &[], &[]);
    unload_rows(&rt, rt.alloc(), &mut *slot);
}

// Rows that are not in memory are read from the streams, and the request is served if the nodes answer.
fn load_first(rt: &impl Abort, alloc: Global, slot: &mut Streamed) {
    put_hello(rt, alloc, slot);
    slot.slot.unload();
    assert!(rt; says(rt, alloc, slot, GET, "Refused by rule N1."));
    assert!(rt; ends(rt, alloc, slot, GET, b"\r\n\r\nhello"));
}

#[test]
fn rows_that_are_not_loaded_are_loaded_first(rt: HostRuntime) {
    let mut slot = make_streamed(&rt, rt.alloc(), &[], &[false, false, false]);
    load_first(&rt, rt.alloc(), &mut *slot);
}

// A load fails as long as no node answers. After a load a request needs a node for the content only.
fn load_by_itself(rt: &impl Abort, alloc: Global, slot: &mut Streamed) {
    put_hello(rt, alloc, slot);
    slot.slot.unload();
    assert!(rt; slot.slot.load(alloc, &mut slot.wire).is_err());
    assert!(rt; slot.slot.load(alloc, &mut slot.wire).is_ok());
    let called = slot.wire.called().len();
    assert!(rt; ends(rt, alloc, slot, GET, b"\r\n\r\nhello"));
    assert_eq!(rt; slot.wire.called().len(), called + 1);
}

#[test]
fn rows_are_loaded_if_a_node_answers(rt: HostRuntime) {
    let mut slot = make_streamed(&rt, rt.alloc(), &[], &[false, false, false]);
    load_by_itself(&rt, rt.alloc(), &mut *slot);
}
