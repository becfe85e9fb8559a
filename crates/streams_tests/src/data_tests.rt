//! Data that is put and read back.
ghost use Rattle.std.specs.Prelude.{◌≤◌, length};
ghost use Rattle.stamp_values.specs.Limits.{put_blob_limit};

use crate::partition_samples::{
    Told, first_is_placed, keeps, log, part, put, put_and_log_block, streams, try_put,
};
use crate::sample_wires::{D, R, script};
use partition_stream::Streams;
use stamp_types::Share;
use std::alloc::Global;
use std::process::Abort;

// Bytes that differ from place to place: the numbers from 0 to 250, again and again.
fn body(rt: &impl Abort, alloc: Global, len: usize) -> Share
    ensures { length result ≤ put_blob_limit }
{
    let mut bytes = Vec::with_capacity(alloc, len).expect(rt, "memory");
    for at in 0..len {
        bytes.push((at % 251) as u8).expect(rt, "memory");
    }
    let body = Share::new(alloc, bytes).expect(rt, "memory");
    assert!(rt; body.len() <= 67_108_864);
    body
}

fn put_and_read(rt: &impl Abort, alloc: Global, streams: &mut Streams) {
    let mut wire = script(rt, alloc, &[], &[]);
    let body = body(rt, alloc, 4_194_305);
    let placed = put(rt, alloc, streams, &body, &mut wire);
    assert!(rt; wire.called().len() == 6);
    assert!(rt; placed.len() == 4_194_305);
    assert!(rt; placed.as_slice().len() == 2);
    // 4,194,302 is 16,710 times 251 and 92.
    let end = part(rt, streams, &placed, 0, 4_194_302, 4_194_304, &mut wire);
    assert!(rt; end.as_slice() == &[92u8, 93][..]);
    // The first node answers, so no other node is asked.
    assert!(rt; wire.called().len() == 7);
    let last = part(rt, streams, &placed, 1, 0, 1, &mut wire);
    assert!(rt; last.as_slice() == &[94u8][..]);
    let nothing = part(rt, streams, &placed, 0, 5, 5, &mut wire);
    assert!(rt; nothing.is_empty());
}

#[test]
fn content_is_read_where_it_was_put(rt: HostRuntime) {
    let mut streams = streams(&rt, rt.alloc(), 268_435_456);
    put_and_read(&rt, rt.alloc(), &mut *streams);
}

fn put_nothing(rt: &impl Abort, alloc: Global, streams: &mut Streams) {
    let mut wire = script(rt, alloc, &[], &[]);
    let placed = put(rt, alloc, streams, &Share::empty(), &mut wire);
    assert!(rt; placed.len() == 0);
    assert!(rt; wire.called().len() == 0);
}

#[test]
fn no_content_has_no_piece(rt: HostRuntime) {
    let mut streams = streams(&rt, rt.alloc(), 1_000_000);
    put_nothing(&rt, rt.alloc(), &mut *streams);
}

fn put_in_doubt(rt: &impl Abort, alloc: Global, streams: &mut Streams) {
    let asks = [false, false, false];
    let mut wire = script(rt, alloc, &[D, D, D, D, R, R], &asks);
    assert!(rt; log(rt, alloc, streams, "one", &mut wire) == Told::Done);
    let body = body(rt, alloc, 3);
    // The block of the data is in doubt, and this is Busy.
    assert!(rt; try_put(rt, alloc, streams, &body, &mut wire) == Told::Busy);
    assert!(rt; keeps(rt, alloc, streams, &["one"]));
    // The next put settles it.
    assert!(rt; try_put(rt, alloc, streams, &body, &mut wire) == Told::Done);
}

fn put_excluded_twice(rt: &impl Abort, alloc: Global, streams: &mut Streams) {
    let mut wire = script(rt, alloc, &[R, R, R, R, R, R], &[]);
    let body = body(rt, alloc, 3);
    assert!(rt; try_put(rt, alloc, streams, &body, &mut wire) == Told::Busy);
    // Two times three puts, and three asks after each.
    assert!(rt; wire.called().len() == 12);
}

#[test]
fn data_that_is_excluded_twice_is_busy(rt: HostRuntime) {
    let mut streams = streams(&rt, rt.alloc(), 1_000_000);
    put_excluded_twice(&rt, rt.alloc(), &mut *streams);
}

#[test]
fn a_fault_of_the_data_leaves_the_log(rt: HostRuntime) {
    let mut streams = streams(&rt, rt.alloc(), 1_000_000);
    put_in_doubt(&rt, rt.alloc(), &mut *streams);
}

fn read_from_no_node(rt: &impl Abort, alloc: Global, streams: &mut Streams) {
    let mut wire = script(rt, alloc, &[], &[false, false, false]);
    let body = body(rt, alloc, 3);
    let placed = put(rt, alloc, streams, &body, &mut wire);
    let nothing = part(rt, streams, &placed, 0, 1, 3, &mut wire);
    assert!(rt; nothing.is_empty());
    assert!(rt; wire.called().len() == 6);
    let two = part(rt, streams, &placed, 0, 1, 3, &mut wire);
    assert!(rt; two.as_slice() == &[1u8, 2][..]);
}

#[test]
fn a_part_that_no_node_has_is_unreachable(rt: HostRuntime) {
    let mut streams = streams(&rt, rt.alloc(), 1_000_000);
    read_from_no_node(&rt, rt.alloc(), &mut *streams);
}

fn refer_to_data(rt: &impl Abort, alloc: Global, streams: &mut Streams) {
    let mut wire = script(rt, alloc, &[], &[]);
    let body = body(rt, alloc, 3);
    assert!(rt; put_and_log_block(rt, alloc, streams, &body, &mut wire));
    assert!(rt; first_is_placed(streams, 3, &mut wire));
}

#[test]
fn a_change_refers_to_the_data_that_was_put_first(rt: HostRuntime) {
    let mut streams = streams(&rt, rt.alloc(), 1_000_000);
    refer_to_data(&rt, rt.alloc(), &mut *streams);
}
