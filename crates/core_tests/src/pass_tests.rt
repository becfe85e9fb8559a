//! What a caller was shown, and how later answers follow from it.
use crate::pass_samples::{Passing, exchanged, new_passing};
use crate::requests::{CREATE, CREATED, GET, GET_BY_POLICY, PUT, PUT_BLOCK, PUT_POLICY, WITHDRAW};
use crate::samples::{begins, key, pair_with, pairs, says, sent_if};
use crate::stored_samples::{D, R};
use slot_pass::{AfterFault, MeetFault, Order, Pass, meet};
use std::alloc::Global;
use std::process::Abort;

const OK: &[u8] = b"HTTP/1.1 200 OK\r\n";

// A caller who made the container and put a blob.
fn caller(rt: &impl Abort, alloc: Global) -> Box<Passing> {
    let mut first = new_passing(rt, alloc, "pics", pairs(rt, alloc), &[], &[]);
    assert!(rt; begins(rt, alloc, &mut *first, CREATE, CREATED));
    assert!(rt; begins(rt, alloc, &mut *first, PUT, CREATED));
    first
}

#[test]
fn a_pass_gets_the_entries_of_its_calls(rt: HostRuntime) {
    let mut first = caller(&rt, rt.alloc());
    assert!(rt; begins(&rt, rt.alloc(), &mut *first, GET, OK));
    assert_eq!(rt; first.pass.front().len(), 2);
    assert_eq!(rt; first.pass.pairs().len(), 1);
}

// The second caller reads, and then puts a block. The first caller's front begins the second caller's.
fn meets(rt: &impl Abort, alloc: Global, slot: &mut Passing) {
    let first = exchanged(slot, Pass::new(alloc, key(rt, alloc, "pics")));
    assert!(rt; begins(rt, alloc, slot, GET, OK));
    assert!(rt; meet(&first, &slot.pass) == Ok(Order::Same));
    assert!(rt; begins(rt, alloc, slot, PUT_BLOCK, CREATED));
    assert!(rt; meet(&first, &slot.pass) == Ok(Order::First));
    assert!(rt; meet(&slot.pass, &first) == Ok(Order::Second));
}

#[test]
fn the_pass_of_a_later_caller_is_longer(rt: HostRuntime) {
    meets(&rt, rt.alloc(), &mut *caller(&rt, rt.alloc()));
}

// The caller's pass at another slot: why the slot does not answer.
fn fault_elsewhere(
    rt: &impl Abort,
    alloc: Global,
    first: &mut Passing,
    other: &mut Passing,
) -> Option<AfterFault> {
    let shown = exchanged(first, Pass::new(alloc, key(rt, alloc, "pics")));
    exchanged(other, shown);
    sent_if(rt, alloc, other, GET);
    assert_eq!(rt; other.pass.front().len(), 2);
    other.fault
}

#[test]
fn a_front_of_another_slot_is_alien(rt: HostRuntime) {
    let mut first = caller(&rt, rt.alloc());
    let mut other = new_passing(&rt, rt.alloc(), "pics", pairs(&rt, rt.alloc()), &[], &[]);
    let fault = fault_elsewhere(&rt, rt.alloc(), &mut *first, &mut *other);
    assert!(rt; fault == Some(AfterFault::Alien(0)));
}

#[test]
fn pairs_of_another_slot_are_named_first(rt: HostRuntime) {
    let mut first = caller(&rt, rt.alloc());
    let mut pairs = Vec::new(rt.alloc());
    let pair = pair_with(&rt, rt.alloc(), "devstoreaccount1", b"new1", 0);
    pairs.push(pair).expect(&rt, "memory");
    let mut other = new_passing(&rt, rt.alloc(), "pics", pairs, &[], &[]);
    let fault = fault_elsewhere(&rt, rt.alloc(), &mut *first, &mut *other);
    assert!(rt; fault == Some(AfterFault::Pairs(0)));
}

#[test]
fn fronts_of_two_slots_differ_at_a_place(rt: HostRuntime) {
    let first = caller(&rt, rt.alloc());
    let mut other = new_passing(&rt, rt.alloc(), "pics", pairs(&rt, rt.alloc()), &[], &[]);
    assert!(rt; begins(&rt, rt.alloc(), &mut *other, CREATE, CREATED));
    assert!(rt; begins(&rt, rt.alloc(), &mut *other, PUT_BLOCK, CREATED));
    assert!(rt; meet(&first.pass, &other.pass) == Err(MeetFault::Differ(1)));
    let alpha = Pass::new(rt.alloc(), key(&rt, rt.alloc(), "alpha"));
    assert!(rt; meet(&first.pass, &alpha) == Err(MeetFault::Keys));
}

// A token of the policy opens the blob until the policy is withdrawn. A caller who was shown nothing gets the same denial.
fn withdraws(rt: &impl Abort, alloc: Global, slot: &mut Passing) {
    assert!(rt; begins(rt, alloc, slot, PUT_POLICY, OK));
    assert!(rt; begins(rt, alloc, slot, GET_BY_POLICY, OK));
    assert!(rt; begins(rt, alloc, slot, WITHDRAW, OK));
    assert!(rt; says(rt, alloc, slot, GET_BY_POLICY, "Refused by rule S5."));
    exchanged(slot, Pass::new(alloc, key(rt, alloc, "pics")));
    assert!(rt; says(rt, alloc, slot, GET_BY_POLICY, "Refused by rule S5."));
    assert_eq!(rt; slot.pass.front().len(), 4);
}

#[test]
fn who_was_shown_a_withdrawal_is_refused(rt: HostRuntime) {
    withdraws(&rt, rt.alloc(), &mut *caller(&rt, rt.alloc()));
}

// One node took the record, and then no node answers. The next call settles the doubt, and its pass has the entry.
fn keeps_a_doubt(rt: &impl Abort, alloc: Global, slot: &mut Passing) {
    assert!(rt; says(rt, alloc, slot, CREATE, "Refused by rule N2."));
    assert_eq!(rt; slot.pass.front().len(), 0);
    assert!(rt; begins(rt, alloc, slot, PUT, CREATED));
    assert_eq!(rt; slot.pass.front().len(), 2);
}

#[test]
fn a_kept_doubt_is_in_the_front(rt: HostRuntime) {
    let asks = [false, false, false, true, false, false];
    let mut slot = new_passing(
        &rt,
        rt.alloc(),
        "pics",
        pairs(&rt, rt.alloc()),
        &[D, R, R],
        &asks,
    );
    keeps_a_doubt(&rt, rt.alloc(), &mut *slot);
}
