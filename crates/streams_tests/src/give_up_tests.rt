//! Streams whose extents are given up.
ghost use Rattle.std.specs.Prelude.{◌<◌, length};

use crate::sample_wires::script;
use crate::stream_samples::{Told, answered, append, block, read};
use extent_node::Script;
use extent_seal::Sealed;
use std::alloc::Global;
use std::process::Abort;
use stream_manager::{Handle, HandleRoom, Stream};

// Appends the blocks 1, 2 and 3 of two bytes each. Two bytes are the limit, so each block gets an extent of its own.
fn append_three(rt: &impl Abort, alloc: Global, stream: &mut Stream, wire: &mut Script) {
    let one = block(rt, alloc, 1, 2);
    let two = block(rt, alloc, 2, 2);
    let three = block(rt, alloc, 3, 2);
    assert!(rt; append(stream, &one, wire) == Told::At(0, 0));
    assert!(rt; append(stream, &two, wire) == Told::At(1, 0));
    assert!(rt; append(stream, &three, wire) == Told::At(2, 0));
}

// Gives up an extent that has a block.
#[tactic(auto, using(stream_manager::proofs::ReadLemmas::count_of_extents, stream_manager::proofs::ReadLemmas::sealed_extent))]
fn give_up(rt: &impl Abort, stream: &mut Stream, extent: usize) -> Handle
    ensures { 0 < length result.blocks }
{
    assert!(rt; extent < stream.sealed_count());
    assert!(rt; 0 < stream.extent_len(extent));
    stream.give_up(extent)
}

// Gives up the first extents, and says how many handles came of this.
#[tactic(auto, using(stream_manager::proofs::GivenUpLemmas::filled_among))]
fn give_up_front(rt: &impl Abort, alloc: Global, stream: &mut Stream, count: usize) -> usize {
    assert!(rt; count <= stream.sealed_count());
    let mut room = HandleRoom::new(alloc, stream.filled_count()).expect(rt, "memory");
    stream.give_up_front(count, &mut room);
    room.len()
}

#[test]
fn an_extent_without_blocks_has_none(rt: HostRuntime) {
    let sealed = Sealed::none(rt.alloc());
    assert_eq!(rt; sealed.commit_len(), 0);
}

#[test]
fn an_extent_that_is_given_up_keeps_its_number(rt: HostRuntime) {
    let alloc = rt.alloc();
    let mut stream = Stream::new(alloc, 2);
    let mut wire = script(&rt, alloc, &[], &[]);
    append_three(&rt, alloc, &mut stream, &mut wire);
    let handle = give_up(&rt, &mut stream, 1);
    assert_eq!(rt; read(&stream, 0, 0, &mut wire), Told::Read(1, 2));
    assert_eq!(rt; read(&stream, 1, 0, &mut wire), Told::Nothing);
    assert_eq!(rt; read(&stream, 2, 0, &mut wire), Told::Read(3, 2));
    assert_eq!(rt; answered(handle.read(0, &mut wire)), Told::Read(2, 2));
    assert_eq!(rt; stream.filled_count(), 1);
    let four = block(&rt, alloc, 4, 2);
    assert_eq!(rt; append(&mut stream, &four, &mut wire), Told::At(3, 0));
}

#[test]
fn the_first_extent_that_is_given_up_keeps_its_number(rt: HostRuntime) {
    let alloc = rt.alloc();
    let mut stream = Stream::new(alloc, 2);
    let mut wire = script(&rt, alloc, &[], &[]);
    append_three(&rt, alloc, &mut stream, &mut wire);
    let handle = give_up(&rt, &mut stream, 0);
    drop(handle);
    assert_eq!(rt; read(&stream, 0, 0, &mut wire), Told::Nothing);
    assert_eq!(rt; read(&stream, 1, 0, &mut wire), Told::Read(2, 2));
    assert_eq!(rt; stream.sealed_count(), 2);
}

#[test]
fn the_first_extents_are_given_up_in_one_call(rt: HostRuntime) {
    let alloc = rt.alloc();
    let mut stream = Stream::new(alloc, 2);
    let mut wire = script(&rt, alloc, &[], &[]);
    append_three(&rt, alloc, &mut stream, &mut wire);
    assert_eq!(rt; give_up_front(&rt, alloc, &mut stream, 1), 1);
    assert_eq!(rt; read(&stream, 1, 0, &mut wire), Told::Read(2, 2));
    // Extent 0 has no block any more, so no handle comes of it.
    assert_eq!(rt; give_up_front(&rt, alloc, &mut stream, 2), 1);
    assert_eq!(rt; read(&stream, 1, 0, &mut wire), Told::Nothing);
    assert_eq!(rt; read(&stream, 2, 0, &mut wire), Told::Read(3, 2));
    assert_eq!(rt; stream.extent_count(), 3);
    assert_eq!(rt; stream.filled_count(), 0);
    let four = block(&rt, alloc, 4, 2);
    assert_eq!(rt; append(&mut stream, &four, &mut wire), Told::At(3, 0));
}

#[test]
fn a_stream_that_is_taken_leaves_one_without_blocks(rt: HostRuntime) {
    let alloc = rt.alloc();
    let mut stream = Stream::new(alloc, 2);
    let mut wire = script(&rt, alloc, &[], &[]);
    append_three(&rt, alloc, &mut stream, &mut wire);
    let taken = stream.take();
    assert_eq!(rt; read(&taken, 2, 0, &mut wire), Told::Read(3, 2));
    assert_eq!(rt; stream.extent_count(), 1);
    let four = block(&rt, alloc, 4, 2);
    assert_eq!(rt; append(&mut stream, &four, &mut wire), Told::At(0, 0));
}
