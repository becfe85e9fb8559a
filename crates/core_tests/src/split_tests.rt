//! Splits of a slot.

use crate::requests::{CREATE, CREATED, GET, GET_B, PUT, PUT_BLOCK, PUT_LIST};
use crate::samples::{begins, ends, key, pair};
use crate::stored_samples::{Streamed, changes, cut, empty_slot};
use slot_state::{AccountPairs, PairsFault};
use std::alloc::Global;
use std::process::Abort;

// The container leaves with the upper half: its blob is read there, and its list of two changes is there.
fn leaves(rt: &impl Abort, alloc: Global, lower: &mut Streamed) {
    assert!(rt; begins(rt, alloc, lower, CREATE, CREATED));
    assert!(rt; begins(rt, alloc, lower, PUT, CREATED));
    let mut upper = cut(rt, alloc, lower, "pics");
    assert!(rt; ends(rt, alloc, &mut *upper, GET, b"\r\n\r\nhello"));
    let pics = key(rt, alloc, "pics");
    assert!(rt; changes(&*upper, &pics) == 2);
    assert!(rt; upper.slot.covers(&pics));
    assert!(rt; changes(lower, &pics) == 0);
    assert!(rt; !lower.slot.covers(&pics));
}

// The block is put before the cut, and its list is committed after it. The container comes before the key of the cut, so it stays.
fn is_committed(rt: &impl Abort, alloc: Global, lower: &mut Streamed) {
    assert!(rt; begins(rt, alloc, lower, CREATE, CREATED));
    assert!(rt; begins(rt, alloc, lower, PUT_BLOCK, CREATED));
    let upper = cut(rt, alloc, lower, "picsa");
    assert!(rt; begins(rt, alloc, lower, PUT_LIST, CREATED));
    assert!(rt; ends(rt, alloc, lower, GET_B, b"\r\n\r\nabc"));
    let pics = key(rt, alloc, "pics");
    assert!(rt; changes(lower, &pics) == 3);
    assert!(rt; changes(&*upper, &pics) == 0);
}

#[test]
fn a_container_leaves_with_the_upper_half(rt: HostRuntime) {
    let mut lower = empty_slot(&rt, rt.alloc());
    leaves(&rt, rt.alloc(), &mut *lower);
}

#[test]
fn a_block_is_committed_after_a_split(rt: HostRuntime) {
    let mut lower = empty_slot(&rt, rt.alloc());
    is_committed(&rt, rt.alloc(), &mut *lower);
}

// A pair of a later epoch is refused, and so is a second pair of one account.
#[test]
fn the_first_pair_of_an_account_is_taken_once(rt: HostRuntime) {
    let alloc = rt.alloc();
    let mut pairs = AccountPairs::new(alloc);
    assert!(rt; pairs.add(alloc, pair(&rt, alloc, 1)) == Err(PairsFault::NotFirst));
    assert!(rt; pairs.add(alloc, pair(&rt, alloc, 0)) == Ok(()));
    assert!(rt; pairs.add(alloc, pair(&rt, alloc, 0)) == Err(PairsFault::Twice));
    let account = key(&rt, alloc, "").account;
    assert!(rt; pairs.of_account(&account).len() == 1);
    assert!(rt; pairs.epoch(&account) == 0);
}
