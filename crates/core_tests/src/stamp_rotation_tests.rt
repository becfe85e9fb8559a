//! Keys of a stamp that are replaced while callers have passes. The signatures were made outside of this repository's code.
use crate::requests::{CREATE, CREATE_LATER, CREATED, GET, PUT, PUT_BY_NEW};
use crate::samples::{begins, key, says, sent_if, text};
use crate::stamp_samples::{Caller, caller_of, empty_stamp, front_len, steady};
use access_rules::Which;
use extent_node::{Script, Wire};
use hmac_sign::SigningKey;
use slot_pass::AfterFault;
use slot_state::RotateFault;
use stamp_locks::Stamp;
use std::alloc::Global;
use std::process::Abort;
use std::sync::Wait;

// Replaces a key of an account.
fn rotated<R: Wait + Abort>(
    rt: &R,
    alloc: Global,
    stamp: &Stamp<Script>,
    account: &str,
    which: Which,
    bytes: &[u8],
) -> Result<u64, RotateFault> {
    let account = text(rt, alloc, account);
    let key = SigningKey::new(bytes.to_vec(alloc).expect(rt, "memory"));
    stamp.rotate(rt, alloc, &account, which, key)
}

// How many key pairs the caller's pass shows.
fn pairs_len<R: Wait, W: Wire + Drop>(caller: &Caller<'_, R, W>) -> usize {
    match &caller.pass {
        Some(pass) => pass.pairs().len(),
        None => 0,
    }
}

// Both slots refuse the key that was replaced. The one slot takes the new pair before it serves, and the other slot takes two pairs.
fn closes_both_slots<R: Wait + Abort>(rt: &R, alloc: Global) {
    let stamp = empty_stamp(rt, alloc);
    let mut plain = Caller::new(rt, alloc, &stamp);
    assert!(rt; begins(rt, alloc, &mut plain, CREATE, CREATED));
    let middle = key(rt, alloc, "q");
    assert!(rt; stamp.split(rt, alloc, 0, &middle, steady(alloc)).is_ok());
    assert!(rt; rotated(rt, alloc, &stamp, "devstoreaccount1", Which::First, b"new1") == Ok(1));
    assert!(rt; says(rt, alloc, &mut plain, PUT, "Refused by rule K5."));
    assert!(rt; begins(rt, alloc, &mut plain, PUT_BY_NEW, CREATED));
    assert!(rt; rotated(rt, alloc, &stamp, "devstoreaccount1", Which::First, b"key1") == Ok(2));
    assert!(rt; says(rt, alloc, &mut plain, PUT_BY_NEW, "Refused by rule K5."));
    assert!(rt; begins(rt, alloc, &mut plain, PUT, CREATED));
    assert!(rt; begins(rt, alloc, &mut plain, CREATE_LATER, CREATED));
}

#[test]
fn each_slot_takes_the_new_pair_before_it_serves(rt: HostRuntime) {
    closes_both_slots(&rt, rt.alloc());
}

// A pass shows the new pair after the next call. Then a stamp that has only the old pair does not answer it.
fn shows_the_new_pair<R: Wait + Abort>(rt: &R, alloc: Global) {
    let stamp = empty_stamp(rt, alloc);
    let mut caller = caller_of(rt, alloc, &stamp, "pics");
    assert!(rt; begins(rt, alloc, &mut caller, CREATE, CREATED));
    assert_eq!(rt; pairs_len(&caller), 1);
    assert!(rt; rotated(rt, alloc, &stamp, "devstoreaccount1", Which::First, b"new1") == Ok(1));
    assert!(rt; says(rt, alloc, &mut caller, PUT, "Refused by rule K5."));
    assert_eq!(rt; pairs_len(&caller), 2);
    assert!(rt; begins(rt, alloc, &mut caller, PUT_BY_NEW, CREATED));
    assert_eq!(rt; front_len(&caller), 2);
    let fresh = empty_stamp(rt, alloc);
    let mut other = Caller::new(rt, alloc, &fresh);
    other.pass = caller.pass.take();
    sent_if(rt, alloc, &mut other, GET);
    assert!(rt; other.fault == Some(AfterFault::Pairs(1)));
    assert_eq!(rt; pairs_len(&other), 2);
}

#[test]
fn a_pass_shows_the_new_pair(rt: HostRuntime) {
    shows_the_new_pair(&rt, rt.alloc());
}

// The second key is replaced, and both the first and the new key open the stamp. Then the first key is replaced too.
fn replaces_the_second_key<R: Wait + Abort>(rt: &R, alloc: Global) {
    let stamp = empty_stamp(rt, alloc);
    let mut plain = Caller::new(rt, alloc, &stamp);
    assert!(rt; begins(rt, alloc, &mut plain, CREATE, CREATED));
    assert!(rt;
        rotated(
            rt,
            alloc,
            &stamp,
            "devstoreaccount1",
            Which::Second,
            b"new1"
        ) == Ok(1)
    );
    assert!(rt; begins(rt, alloc, &mut plain, PUT, CREATED));
    assert!(rt; begins(rt, alloc, &mut plain, PUT_BY_NEW, CREATED));
    assert!(rt; rotated(rt, alloc, &stamp, "devstoreaccount1", Which::First, b"key3") == Ok(2));
    assert!(rt; says(rt, alloc, &mut plain, PUT, "Refused by rule K5."));
    assert!(rt; begins(rt, alloc, &mut plain, PUT_BY_NEW, CREATED));
}

#[test]
fn the_key_that_is_named_is_replaced(rt: HostRuntime) {
    replaces_the_second_key(&rt, rt.alloc());
}

#[test]
fn keys_of_no_account_are_not_replaced(rt: HostRuntime) {
    let stamp = empty_stamp(&rt, rt.alloc());
    let told = rotated(&rt, rt.alloc(), &stamp, "nobody", Which::First, b"new1");
    assert!(rt; told == Err(RotateFault::NoAccount));
}
