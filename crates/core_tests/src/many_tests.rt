//! As many slots as there may be spans.

use crate::requests::{CREATE, CREATE_LATER, CREATED, GET, PUT};
use crate::samples::{begins, ends, key};
use crate::stored_samples::{Streamed, changes, cut, empty_slot};
use partition_map::{MapFault, Spans};
use stamp_types::Key;
use std::alloc::Global;
use std::process::Abort;

/// The slots in the order of their keys, and their spans.
#[derive(Drop)]
struct Many {
    slots: Vec<Box<Streamed>>,
    spans: Spans,
}

// The container at which the slot with this number begins: two letters, of which the first rises with each tenth number.
fn first_of(rt: &impl Abort, alloc: Global, number: u8) -> String {
    let mut name = String::new(alloc);
    name.push(char::from(b'a' + number / 10))
        .expect(rt, "memory");
    name.push(char::from(b'a' + number % 10))
        .expect(rt, "memory");
    name
}

// Splits the last slot, and its span too.
fn split_last(rt: &impl Abort, alloc: Global, many: &mut Many, number: u8) {
    let name = first_of(rt, alloc, number);
    let middle = key(rt, alloc, name.as_str());
    let last = many.spans.len() - 1;
    assert!(rt; many.spans.split(last, &middle) == Ok(()));
    let Some(last) = many.slots.last_mut() else {
        panic!(rt; "no slot");
    };
    let upper = cut(rt, alloc, &mut **last, name.as_str());
    many.slots.push(upper).expect(rt, "memory");
}

// 256 slots, split from one slot with two containers.
fn most_slots(rt: &impl Abort, alloc: Global, whole: Box<Streamed>) -> Box<Many> {
    let mut slots = Vec::new(alloc);
    slots.push(whole).expect(rt, "memory");
    let spans = Spans::new(alloc);
    let mut many = Box::new(alloc, Many { slots, spans }).expect(rt, "memory");
    for number in 1..=255 {
        split_last(rt, alloc, &mut *many, number);
    }
    many
}

// How many slots cover the key.
fn owners(many: &Many, key: &Key) -> usize {
    let mut count: usize = 0;
    for slot in &many.slots {
        if slot.slot.covers(key) {
            count = count.saturating_add(1);
        }
    }
    count
}

// Whether one slot covers the key, and has the number of the key's span.
fn has_one_slot(many: &Many, key: &Key) -> bool {
    match many.slots.get(many.spans.find(key)) {
        Some(slot) => slot.slot.covers(key) && owners(many, key) == 1,
        None => false,
    }
}

fn each_has_one_slot(rt: &impl Abort, alloc: Global, many: &Many) {
    for container in [
        "", "a", "ab", "ab0", "pe", "pics", "pj", "video", "zf", "zz",
    ] {
        let key = key(rt, alloc, container);
        assert!(rt; has_one_slot(many, &key), "{container}");
    }
}

// The slot of `pics` has the blob. No other slot has a change of this container.
fn serves_as_before(rt: &impl Abort, alloc: Global, many: &mut Many) {
    let pics = key(rt, alloc, "pics");
    let place = many.spans.find(&pics);
    for (number, slot) in many.slots.iter_mut().enumerate() {
        if number == place {
            assert!(rt; ends(rt, alloc, &mut **slot, GET, b"\r\n\r\nhello"));
        } else {
            assert!(rt; changes(&**slot, &pics) == 0);
        }
    }
}

// A slot with the containers `pics` and `video`, and a blob.
fn two_containers(rt: &impl Abort, alloc: Global) -> Box<Streamed> {
    let mut whole = empty_slot(rt, alloc);
    assert!(rt; begins(rt, alloc, &mut *whole, CREATE, CREATED));
    assert!(rt; begins(rt, alloc, &mut *whole, PUT, CREATED));
    assert!(rt; begins(rt, alloc, &mut *whole, CREATE_LATER, CREATED));
    whole
}

#[test]
fn each_key_has_one_of_256_slots(rt: HostRuntime) {
    let alloc = rt.alloc();
    let mut many = most_slots(&rt, alloc, two_containers(&rt, alloc));
    let after = key(&rt, alloc, "zz");
    assert!(rt; many.spans.split(255, &after) == Err(MapFault::Full));
    each_has_one_slot(&rt, alloc, &*many);
    serves_as_before(&rt, alloc, &mut *many);
}
