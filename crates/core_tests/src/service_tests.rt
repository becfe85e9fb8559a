//! Pairs that are refused, and a policy that is withdrawn between two requests.

use crate::requests::{CREATE, CREATED, GET_BY_POLICY, PUT, PUT_POLICY, WITHDRAW};
use crate::samples::{begins, ends, pair, says};
use crate::stored_samples::{Streamed, empty_slot};
use slot_state::{AccountPairs, PairsFault};
use std::alloc::Global;
use std::process::Abort;

// Why pairs of one account that have these epochs are refused.
fn fault_of(rt: &impl Abort, alloc: Global, epochs: &[u64]) -> Option<PairsFault> {
    let mut pairs = Vec::new(alloc);
    for epoch in epochs {
        pairs.push(pair(rt, alloc, *epoch)).expect(rt, "memory");
    }
    AccountPairs::of(alloc, pairs).map(drop).err()
}

// The same request with the token of the policy is answered while the container has the policy, and is refused afterwards (S5).
fn is_withdrawn(rt: &impl Abort, alloc: Global, served: &mut Streamed) {
    assert!(rt; begins(rt, alloc, served, CREATE, CREATED));
    assert!(rt; begins(rt, alloc, served, PUT, CREATED));
    assert!(rt; begins(rt, alloc, served, PUT_POLICY, b"HTTP/1.1 200 OK\r\n"));
    assert!(rt; ends(rt, alloc, served, GET_BY_POLICY, b"\r\n\r\nhello"));
    assert!(rt; begins(rt, alloc, served, WITHDRAW, b"HTTP/1.1 200 OK\r\n"));
    assert!(rt;
        begins(
            rt,
            alloc,
            served,
            GET_BY_POLICY,
            b"HTTP/1.1 403 Forbidden\r\n"
        )
    );
    assert!(rt; says(rt, alloc, served, GET_BY_POLICY, "Refused by rule S5."));
}

#[test]
fn the_last_pair_that_is_refused_names_the_cause(rt: HostRuntime) {
    let alloc = rt.alloc();
    assert!(rt; fault_of(&rt, alloc, &[0]).is_none());
    assert!(rt; fault_of(&rt, alloc, &[1]) == Some(PairsFault::NotFirst));
    assert!(rt; fault_of(&rt, alloc, &[0, 0]) == Some(PairsFault::Twice));
    assert!(rt; fault_of(&rt, alloc, &[0, 1]) == Some(PairsFault::NotFirst));
    assert!(rt; fault_of(&rt, alloc, &[1, 0, 0]) == Some(PairsFault::Twice));
}

#[test]
fn a_policy_is_withdrawn_between_two_requests(rt: HostRuntime) {
    let mut served = empty_slot(&rt, rt.alloc());
    is_withdrawn(&rt, rt.alloc(), &mut *served);
}
