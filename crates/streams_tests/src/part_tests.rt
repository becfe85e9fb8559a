//! Parts of pieces that are read without the streams.
ghost use Rattle.stream_manager.specs.Streams.{laid};
ghost use Rattle.partition_stream.specs.Contents.{AreStored};

use crate::partition_samples::{kept_part, put_and_seal, put_three, streams};
use crate::sample_wires::script;
use partition_stream::{Part, Streams};
use stamp_types::{Pieces, Share};
use std::alloc::Global;
use std::process::Abort;

fn is_eight_and_nine(bytes: &Share) -> bool {
    bytes.as_slice() == &[8u8, 9][..]
}

// The bytes 8 and 9, to be read without the streams. So many nodes are asked for them now.
fn keep_two(
    rt: &impl Abort,
    alloc: Global,
    streams: &mut Streams,
    placed: &Pieces,
    asked: usize,
) -> Part
    requires { AreStored (laid streams.old.blobs) placed.now }
{
    let mut wire = script(rt, alloc, &[], &[]);
    let part = kept_part(rt, streams, placed, 1, 3, &mut wire);
    assert!(rt; wire.called().len() == asked);
    part
}

#[test]
fn a_part_of_the_last_extent_is_read_now(rt: HostRuntime) {
    let mut streams = streams(&rt, rt.alloc(), 1_000_000);
    let placed = put_three(&rt, rt.alloc(), &mut *streams);
    let part = keep_two(&rt, rt.alloc(), &mut *streams, &placed, 1);
    assert!(rt; part.bytes().is_some_and(is_eight_and_nine));
    let mut wire = script(&rt, rt.alloc(), &[], &[false, false, false]);
    let bytes = part.fetch(&mut wire).ok().expect(&rt, "bytes");
    assert!(rt; is_eight_and_nine(&bytes));
    assert!(rt; wire.called().len() == 0);
}

#[test]
fn a_part_of_a_sealed_extent_is_read_later(rt: HostRuntime) {
    let mut streams = streams(&rt, rt.alloc(), 1_000_000);
    let placed = put_and_seal(&rt, rt.alloc(), &mut *streams);
    let part = keep_two(&rt, rt.alloc(), &mut *streams, &placed, 0);
    drop(streams);
    assert!(rt; part.bytes().is_none());
    let mut wire = script(&rt, rt.alloc(), &[], &[false, false, false]);
    assert!(rt; part.fetch(&mut wire).is_err());
    assert!(rt; wire.called().len() == 3);
    let bytes = part.fetch(&mut wire).ok().expect(&rt, "bytes");
    assert!(rt; is_eight_and_nine(&bytes));
    assert!(rt; wire.called().len() == 4);
}
