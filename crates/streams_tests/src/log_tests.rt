//! Changes that are logged and read back under written deliveries (SOSP 2011, section 4.3).
use crate::partition_samples::{Told, is_next, keeps, log, log_at, next, settle, streams};
use crate::sample_wires::{D, R, YES, script};
use partition_stream::{Position, Streams};
use std::alloc::Global;
use std::process::Abort;

fn log_three(rt: &impl Abort, alloc: Global, streams: &mut Streams) {
    let mut wire = script(rt, alloc, &[], &[]);
    assert!(rt; keeps(rt, alloc, streams, &[]));
    assert!(rt; log(rt, alloc, streams, "one", &mut wire) == Told::Done);
    assert!(rt; log(rt, alloc, streams, "two", &mut wire) == Told::Done);
    assert!(rt; log(rt, alloc, streams, "three", &mut wire) == Told::Done);
    assert!(rt; keeps(rt, alloc, streams, &["one", "two", "three"]));
}

#[test]
fn changes_come_back_in_their_order(rt: HostRuntime) {
    // Each extent has one record.
    let mut streams = streams(&rt, rt.alloc(), 1);
    log_three(&rt, rt.alloc(), &mut *streams);
}

fn log_epochs(rt: &impl Abort, alloc: Global, streams: &mut Streams) {
    let mut wire = script(rt, alloc, &[], &[]);
    assert!(rt; log_at(rt, alloc, streams, "one", 0, &mut wire) == Told::Done);
    assert!(rt; log_at(rt, alloc, streams, "two", u64::MAX, &mut wire) == Told::Done);
    assert!(rt; log_at(rt, alloc, streams, "one", 7, &mut wire) == Told::Done);
    let mut position = Position::first();
    assert!(rt; is_next(streams, &mut position, "one", 0, &mut wire));
    assert!(rt; is_next(streams, &mut position, "two", u64::MAX, &mut wire));
    assert!(rt; is_next(streams, &mut position, "one", 7, &mut wire));
    assert!(rt; next(streams, &mut position, &mut wire) == Told::End);
    // A walk that has ended does not begin again.
    assert!(rt; next(streams, &mut position, &mut wire) == Told::End);
}

#[test]
fn changes_come_back_with_their_epochs(rt: HostRuntime) {
    let mut streams = streams(&rt, rt.alloc(), 1_000_000);
    log_epochs(&rt, rt.alloc(), &mut *streams);
}

fn keep_a_doubt(rt: &impl Abort, alloc: Global, streams: &mut Streams) {
    let asks = [false, false, false, true, false, false];
    let mut wire = script(rt, alloc, &[D, R, R], &asks);
    assert!(rt; log(rt, alloc, streams, "one", &mut wire) == Told::Doubt);
    assert!(rt; keeps(rt, alloc, streams, &[]));
    assert!(rt; settle(streams, &mut wire) == Told::Kept);
    assert!(rt; settle(streams, &mut wire) == Told::Clean);
    assert!(rt; keeps(rt, alloc, streams, &["one"]));
}

#[test]
fn a_doubt_is_kept(rt: HostRuntime) {
    let mut streams = streams(&rt, rt.alloc(), 1_000_000);
    keep_a_doubt(&rt, rt.alloc(), &mut *streams);
}

fn drop_a_doubt(rt: &impl Abort, alloc: Global, streams: &mut Streams) {
    let asks = [false, false, false, false, false, false, false, true, false];
    let mut wire = script(rt, alloc, &[D, R, R], &asks);
    assert!(rt; log(rt, alloc, streams, "one", &mut wire) == Told::Doubt);
    assert!(rt; settle(streams, &mut wire) == Told::Busy);
    assert!(rt; settle(streams, &mut wire) == Told::Dropped);
    assert!(rt; keeps(rt, alloc, streams, &[]));
}

#[test]
fn a_doubt_is_dropped(rt: HostRuntime) {
    let mut streams = streams(&rt, rt.alloc(), 1_000_000);
    drop_a_doubt(&rt, rt.alloc(), &mut *streams);
}

fn log_after_a_doubt(rt: &impl Abort, alloc: Global, streams: &mut Streams) {
    let asks = [false, false, false, true, false, false];
    let mut wire = script(rt, alloc, &[D, R, R], &asks);
    assert!(rt; log(rt, alloc, streams, "one", &mut wire) == Told::Doubt);
    assert!(rt; log(rt, alloc, streams, "two", &mut wire) == Told::Done);
    assert!(rt; keeps(rt, alloc, streams, &["one", "two"]));
}

#[test]
fn an_older_doubt_comes_before_a_new_change(rt: HostRuntime) {
    let mut streams = streams(&rt, rt.alloc(), 1_000_000);
    log_after_a_doubt(&rt, rt.alloc(), &mut *streams);
}

fn exclude_twice(rt: &impl Abort, alloc: Global, streams: &mut Streams) {
    let mut wire = script(rt, alloc, &[R, R, R, R, R, R], &YES);
    assert!(rt; log(rt, alloc, streams, "one", &mut wire) == Told::Busy);
    assert!(rt; log(rt, alloc, streams, "two", &mut wire) == Told::Done);
    assert!(rt; keeps(rt, alloc, streams, &["two"]));
}

#[test]
fn a_change_that_is_excluded_twice_is_busy(rt: HostRuntime) {
    let mut streams = streams(&rt, rt.alloc(), 1_000_000);
    exclude_twice(&rt, rt.alloc(), &mut *streams);
}

fn fail_a_read(rt: &impl Abort, alloc: Global, streams: &mut Streams) {
    let mut wire = script(rt, alloc, &[], &[false, false, false]);
    assert!(rt; log(rt, alloc, streams, "one", &mut wire) == Told::Done);
    let mut position = Position::first();
    assert!(rt; next(streams, &mut position, &mut wire) == Told::Unreachable);
    assert!(rt; wire.called().len() == 6);
    assert!(rt; next(streams, &mut position, &mut wire) == Told::Read);
    assert!(rt; next(streams, &mut position, &mut wire) == Told::End);
}

#[test]
fn a_read_that_fails_passes_no_change(rt: HostRuntime) {
    let mut streams = streams(&rt, rt.alloc(), 1_000_000);
    fail_a_read(&rt, rt.alloc(), &mut *streams);
}

// A hundred thousand names, of which every third is another one.
fn many_names(rt: &impl Abort, alloc: Global) -> Vec<&'static str> {
    let mut names = Vec::with_capacity(alloc, 100_000).expect(rt, "memory");
    for at in 0..100_000 {
        let name = if at % 3 == 0 { "one" } else { "two" };
        names.push(name).expect(rt, "memory");
    }
    names
}

fn log_many(rt: &impl Abort, alloc: Global, streams: &mut Streams) {
    let names = many_names(rt, alloc);
    let mut wire = script(rt, alloc, &[], &[]);
    for name in names.as_slice() {
        assert!(rt; log(rt, alloc, streams, name, &mut wire) == Told::Done);
    }
    assert!(rt; keeps(rt, alloc, streams, names.as_slice()));
}

#[test]
fn a_hundred_thousand_changes_come_back_in_their_order(rt: HostRuntime) {
    let mut streams = streams(&rt, rt.alloc(), 1_000_000);
    log_many(&rt, rt.alloc(), &mut *streams);
}
