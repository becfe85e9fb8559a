//! A key that is replaced in one slot over streams.

use crate::pair_tests::next_pair;
use crate::requests::{CREATE, CREATED, PUT, PUT_BY_NEW};
use crate::samples::{begins, says, text};
use crate::stored_samples::{Streamed, make_streamed};
use std::alloc::Global;
use std::process::Abort;
use std::sync::Arc;

// The old key opens nothing any more, and the new one does.
fn replaces_a_key(rt: &impl Abort, alloc: Global, slot: &mut Streamed) {
    assert!(rt; begins(rt, alloc, slot, CREATE, CREATED));
    assert!(rt; says(rt, alloc, slot, PUT_BY_NEW, "Refused by rule K5."));
    let account = text(rt, alloc, "devstoreaccount1");
    let pair = next_pair(rt, alloc, slot.slot.account_pairs(), &account);
    let pair = Arc::new(alloc, pair).expect(rt, "memory");
    assert!(rt; slot.slot.rotate(alloc, &account, pair).is_ok());
    assert!(rt; says(rt, alloc, slot, PUT, "Refused by rule K5."));
    assert!(rt; begins(rt, alloc, slot, PUT_BY_NEW, CREATED));
}

#[test]
fn a_slot_takes_a_key_of_its_own(rt: HostRuntime) {
    let mut slot = make_streamed(&rt, rt.alloc(), &[], &[]);
    replaces_a_key(&rt, rt.alloc(), &mut *slot);
}
