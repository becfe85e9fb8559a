//! Streams that are sealed and shared.
ghost use Rattle.stream_manager.specs.Streams.{laid};
ghost use Rattle.partition_stream.specs.Contents.{AreStored};
ghost use Rattle.partition_stream.specs.Streams.{AreSealed};

use crate::partition_samples::{Told, half, keeps, log, part, put, put_and_seal, streams};
use crate::sample_wires::{D, R, script};
use partition_stream::Streams;
use stamp_types::{Pieces, Share};
use std::alloc::Global;
use std::process::Abort;

fn go_on(rt: &impl Abort, alloc: Global, streams: &mut Streams, half: &mut Streams) {
    let mut wire = script(rt, alloc, &[], &[]);
    assert!(rt; keeps(rt, alloc, half, &["one"]));
    assert!(rt; log(rt, alloc, half, "two", &mut wire) == Told::Done);
    assert!(rt; log(rt, alloc, streams, "three", &mut wire) == Told::Done);
    assert!(rt; keeps(rt, alloc, half, &["one", "two"]));
    assert!(rt; keeps(rt, alloc, streams, &["one", "three"]));
}

fn log_and_seal(rt: &impl Abort, alloc: Global, streams: &mut Streams)
    ensures { AreSealed streams.new }
{
    let mut wire = script(rt, alloc, &[], &[]);
    assert!(rt; log(rt, alloc, streams, "one", &mut wire) == Told::Done);
    assert!(rt; streams.seal(&mut wire).is_ok());
    // Each node is asked once, for the log alone: the other streams have no block.
    assert!(rt; wire.called().len() == 6);
}

fn share_and_go_on(rt: &impl Abort, alloc: Global, streams: &mut Streams)
    requires { AreSealed streams.old }
{
    let mut half = half(rt, alloc, streams);
    go_on(rt, alloc, streams, &mut *half);
}

#[test]
fn both_halves_keep_the_changes_and_go_on(rt: HostRuntime) {
    let mut streams = streams(&rt, rt.alloc(), 1_000_000);
    log_and_seal(&rt, rt.alloc(), &mut *streams);
    share_and_go_on(&rt, rt.alloc(), &mut *streams);
}

fn read_in_half(rt: &impl Abort, alloc: Global, streams: &mut Streams, placed: &Pieces)
    requires sealed { AreSealed streams.old }
    requires stored { AreStored (laid streams.old.blobs) placed.now }
{
    let half = half(rt, alloc, streams);
    let mut wire = script(rt, alloc, &[], &[]);
    let eight = part(rt, &*half, placed, 0, 1, 2, &mut wire);
    assert!(rt; eight.as_slice() == &[8u8][..]);
}

#[test]
fn a_half_reads_the_data_of_before(rt: HostRuntime) {
    let mut streams = streams(&rt, rt.alloc(), 1_000_000);
    let placed = put_and_seal(&rt, rt.alloc(), &mut *streams);
    read_in_half(&rt, rt.alloc(), &mut *streams, &placed);
}

fn seal_a_doubt(rt: &impl Abort, alloc: Global, streams: &mut Streams) {
    let asks = [false, false, false, false, false, false, true, false, false];
    let mut wire = script(rt, alloc, &[D, R, R], &asks);
    assert!(rt; log(rt, alloc, streams, "one", &mut wire) == Told::Doubt);
    assert!(rt; streams.seal(&mut wire).is_err());
    assert!(rt; keeps(rt, alloc, streams, &[]));
    assert!(rt; streams.seal(&mut wire).is_ok());
    assert!(rt; keeps(rt, alloc, streams, &["one"]));
}

#[test]
fn a_seal_settles_a_doubt(rt: HostRuntime) {
    let mut streams = streams(&rt, rt.alloc(), 1_000_000);
    seal_a_doubt(&rt, rt.alloc(), &mut *streams);
}

fn seal_the_log_alone(rt: &impl Abort, alloc: Global, streams: &mut Streams) {
    // The doubt of the log, the seal of the log, the seal of the data.
    let asks = [false, false, false, true, false, false, false, false, false];
    let mut wire = script(rt, alloc, &[D, D, D, D, R, R], &asks);
    let bytes = vec![in alloc; 7u8].expect(rt, "memory");
    let body = Share::new(alloc, bytes).expect(rt, "memory");
    let placed = put(rt, alloc, streams, &body, &mut wire);
    assert!(rt; log(rt, alloc, streams, "one", &mut wire) == Told::Doubt);
    assert!(rt; streams.seal(&mut wire).is_err());
    assert!(rt; keeps(rt, alloc, streams, &["one"]));
    drop(placed);
}

#[test]
fn a_seal_begins_with_the_log(rt: HostRuntime) {
    let mut streams = streams(&rt, rt.alloc(), 1_000_000);
    seal_the_log_alone(&rt, rt.alloc(), &mut *streams);
}
