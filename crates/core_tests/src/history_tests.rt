//! Histories of both kinds, which are cut in two.

use crate::requests::{CREATE, CREATED};
use crate::samples::{begins, key};
use crate::stored_samples::{Streamed, empty_slot};
use slot_state::{Histories, KeptHistories, ProvedHistories};
use stamp_types::Past;
use std::alloc::Global;
use std::process::Abort;

// Whether the entry is taken, and the histories are cut at `m`.
fn is_cut<H: Histories>(rt: &impl Abort, alloc: Global, entry: &Past) -> bool {
    let mut histories = H::none(alloc);
    let middle = key(rt, alloc, "m");
    histories.push(alloc, entry).is_ok() && histories.halves(alloc, &middle).is_ok()
}

// The entries of the container `pics`, in histories of both kinds.
fn each_is_cut(rt: &impl Abort, alloc: Global, streamed: &Streamed) {
    let entries = streamed.slot.history(&key(rt, alloc, "pics"));
    assert!(rt; entries.len() == 1);
    for entry in entries {
        assert!(rt; is_cut::<KeptHistories>(rt, alloc, entry));
        assert!(rt; is_cut::<ProvedHistories>(rt, alloc, entry));
    }
}

#[test]
fn histories_are_cut_in_two(rt: HostRuntime) {
    let mut streamed = empty_slot(&rt, rt.alloc());
    assert!(rt; begins(&rt, rt.alloc(), &mut *streamed, CREATE, CREATED));
    each_is_cut(&rt, rt.alloc(), &*streamed);
}
