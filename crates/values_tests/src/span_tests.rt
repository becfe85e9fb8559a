//! Spans of keys, up to the largest number of spans.
use crate::sample_values::key;
use partition_map::{MapFault, Spans};
use std::alloc::Global;
use std::process::Abort;

const ACCOUNT: &str = "devstoreaccount1";

// Splits the span of a slot at a container of the account.
fn split(
    rt: &impl Abort,
    alloc: Global,
    spans: &mut Spans,
    slot: usize,
    container: &str,
) -> Result<(), MapFault> {
    spans.split(slot, &key(rt, alloc, ACCOUNT, container))
}

// Spans that were split at two containers, the later container first.
fn three_spans(rt: &impl Abort, alloc: Global) -> Spans {
    let mut spans = Spans::new(alloc);
    split(rt, alloc, &mut spans, 0, "m").expect(rt, "a split");
    split(rt, alloc, &mut spans, 0, "c").expect(rt, "a split");
    spans
}

// Whether the span of the slot ends before the container of the account.
fn ends_at(rt: &impl Abort, alloc: Global, spans: &Spans, slot: usize, container: &str) -> bool {
    let wanted = key(rt, alloc, ACCOUNT, container);
    spans.bound(slot).is_some_and(|bound| bound.same(&wanted))
}

#[test]
fn one_span_has_all_keys(rt: HostRuntime) {
    let alloc = rt.alloc();
    let spans = Spans::new(alloc);
    for (account, container) in [("", ""), (ACCOUNT, "pics"), ("~", "~")] {
        let slot = spans.find(&key(&rt, alloc, account, container));
        assert!(rt; slot == 0, "{account} {container}");
    }
    assert!(rt; spans.len() == 1);
    assert!(rt; spans.bound(0).is_none());
}

#[test]
fn a_key_is_found_in_the_span_that_begins_last_before_it(rt: HostRuntime) {
    let alloc = rt.alloc();
    let spans = three_spans(&rt, alloc);
    for (account, container, wanted) in [
        ("", "", 0),
        ("devstoreaccount0", "z", 0),
        (ACCOUNT, "", 0),
        (ACCOUNT, "bz", 0),
        (ACCOUNT, "c", 1),
        (ACCOUNT, "c0", 1),
        (ACCOUNT, "lz", 1),
        (ACCOUNT, "m", 2),
        (ACCOUNT, "pics", 2),
        ("devstoreaccount2", "", 2),
    ] {
        let slot = spans.find(&key(&rt, alloc, account, container));
        assert!(rt; slot == wanted, "{account} {container}");
    }
}

#[test]
fn a_span_ends_at_the_next_split_point(rt: HostRuntime) {
    let alloc = rt.alloc();
    let spans = three_spans(&rt, alloc);
    assert!(rt; spans.len() == 3);
    assert!(rt; ends_at(&rt, alloc, &spans, 0, "c"));
    assert!(rt; ends_at(&rt, alloc, &spans, 1, "m"));
    assert!(rt; spans.bound(2).is_none());
    assert!(rt; spans.bound(3).is_none());
}

#[test]
fn a_refused_split_changes_nothing(rt: HostRuntime) {
    let alloc = rt.alloc();
    let mut spans = three_spans(&rt, alloc);
    for (slot, container, fault) in [
        (3, "z", MapFault::NoSuchSlot),
        (3, "m", MapFault::NoSuchSlot),
        (0, "c", MapFault::NotInside),
        (0, "d", MapFault::NotInside),
        (1, "b", MapFault::NotInside),
        (1, "c", MapFault::NotInside),
        (1, "m", MapFault::NotInside),
        (2, "m", MapFault::NotInside),
        (2, "l", MapFault::NotInside),
    ] {
        let refused = split(&rt, alloc, &mut spans, slot, container);
        assert!(rt; refused == Err(fault), "{slot} {container}");
    }
    let least = spans.split(0, &key(&rt, alloc, "", ""));
    assert!(rt; least == Err(MapFault::NotInside));
    assert!(rt; spans.len() == 3);
    assert!(rt; ends_at(&rt, alloc, &spans, 0, "c"));
    assert!(rt; ends_at(&rt, alloc, &spans, 1, "m"));
}

#[test]
fn a_join_undoes_a_split(rt: HostRuntime) {
    let alloc = rt.alloc();
    let mut spans = three_spans(&rt, alloc);
    split(&rt, alloc, &mut spans, 1, "g").expect(&rt, "a split");
    assert!(rt; ends_at(&rt, alloc, &spans, 1, "g"));
    assert!(rt; ends_at(&rt, alloc, &spans, 2, "m"));
    if spans.len() == 4 {
        spans.join(1);
    }
    assert!(rt; spans.len() == 3);
    assert!(rt; ends_at(&rt, alloc, &spans, 0, "c"));
    assert!(rt; ends_at(&rt, alloc, &spans, 1, "m"));
}

// The name of a container: two letters, in the order of the numbers.
fn name(rt: &impl Abort, alloc: Global, number: u8) -> String {
    let letters = [b'a' + number / 16, b'a' + number % 16];
    String::from_utf8(letters.to_vec(alloc).expect(rt, "memory")).expect(rt, "letters")
}

// The spans between 255 containers.
fn most_spans(rt: &impl Abort, alloc: Global) -> Spans {
    let mut spans = Spans::new(alloc);
    for number in 0..255_u8 {
        let name = name(rt, alloc, number);
        split(rt, alloc, &mut spans, usize::from(number), name.as_str()).expect(rt, "a split");
    }
    spans
}

#[test]
fn there_are_256_spans_and_no_more(rt: HostRuntime) {
    let alloc = rt.alloc();
    let mut spans = most_spans(&rt, alloc);
    assert!(rt; spans.len() == 256);
    for number in 0..255_u8 {
        let name = name(&rt, alloc, number);
        let slot = spans.find(&key(&rt, alloc, ACCOUNT, name.as_str()));
        assert!(rt; slot == usize::from(number) + 1);
    }
    assert!(rt; split(&rt, alloc, &mut spans, 256, "z") == Err(MapFault::NoSuchSlot));
    assert!(rt; split(&rt, alloc, &mut spans, 255, "a") == Err(MapFault::NotInside));
    assert!(rt; split(&rt, alloc, &mut spans, 255, "z") == Err(MapFault::Full));
    assert!(rt; split(&rt, alloc, &mut spans, 0, "A") == Err(MapFault::Full));
    assert!(rt; spans.len() == 256);
    if spans.len() > 1 {
        spans.join(0);
    }
    split(&rt, alloc, &mut spans, 254, "z").expect(&rt, "a split");
    assert!(rt; spans.len() == 256);
}
