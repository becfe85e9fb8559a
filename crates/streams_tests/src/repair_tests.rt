//! Repairs of sealed extents, on nodes that have no copy of them.
use crate::partition_samples::{Told as Logged, log, streams};
use crate::sample_wires::{D, L, R, YES, script};
use crate::stream_samples::{Told, append, block, read};
use extent_node::{Call, Delivery, Node, Script};
use partition_stream::StreamName;
use std::alloc::Global;
use std::process::Abort;
use stream_manager::{RepairFault, Stream};

// A stream whose extent 0 is sealed and has two blocks. The nodes that are told here answered the seal.
fn sealed(rt: &impl Abort, alloc: Global, answers: [bool; 3]) -> Stream {
    let mut stream = Stream::new(alloc, 268_435_456);
    let mut wire = script(rt, alloc, &[], &answers);
    let one = block(rt, alloc, 7, 3);
    let two = block(rt, alloc, 8, 2);
    assert_eq!(rt; append(&mut stream, &one, &mut wire), Told::At(0, 0));
    assert_eq!(rt; append(&mut stream, &two, &mut wire), Told::At(0, 1));
    assert!(rt; stream.seal(&mut wire).is_ok());
    stream
}

const WITHOUT_TWO: [bool; 3] = [true, true, false];

#[test]
fn an_extent_that_is_not_sealed_is_no_such_extent(rt: HostRuntime) {
    let alloc = rt.alloc();
    let mut stream = sealed(&rt, alloc, WITHOUT_TWO);
    let mut wire = script(&rt, alloc, &[], &[]);
    assert_eq!(rt;
        stream.repair(99, Node::Two, &mut wire),
        Err(RepairFault::NoSuchExtent)
    );
    // The last extent takes blocks.
    assert_eq!(rt;
        stream.repair(1, Node::Two, &mut wire),
        Err(RepairFault::NoSuchExtent)
    );
    assert!(rt; wire.called().is_empty());
}

#[test]
fn a_repaired_node_answers_alone(rt: HostRuntime) {
    let alloc = rt.alloc();
    let mut stream = sealed(&rt, alloc, WITHOUT_TWO);
    let mut silent = script(&rt, alloc, &[], &[false, false]);
    assert_eq!(rt; read(&stream, 0, 1, &mut silent), Told::Unreachable);
    assert_eq!(rt; silent.called().len(), 2);
    let mut wire = script(&rt, alloc, &[], &[]);
    assert_eq!(rt; stream.repair(0, Node::Two, &mut wire), Ok(()));
    let calls = [
        Call::Ask(Node::Zero),
        Call::Put(Node::Two),
        Call::Put(Node::Two),
    ];
    assert!(rt; wire.called() == &calls[..]);
    let mut alone = script(&rt, alloc, &[], &[false, false, true]);
    assert_eq!(rt; read(&stream, 0, 1, &mut alone), Told::Read(8, 2));
}

#[test]
fn the_other_nodes_are_asked_in_their_order(rt: HostRuntime) {
    let alloc = rt.alloc();
    let mut stream = sealed(&rt, alloc, [false, true, true]);
    let mut wire = script(&rt, alloc, &[], &[false]);
    assert_eq!(rt; stream.repair(0, Node::Zero, &mut wire), Ok(()));
    let calls = [
        Call::Ask(Node::One),
        Call::Ask(Node::Two),
        Call::Put(Node::Zero),
        Call::Put(Node::Zero),
    ];
    assert!(rt; wire.called() == &calls[..]);
}

#[test]
fn silent_nodes_repair_nothing(rt: HostRuntime) {
    let alloc = rt.alloc();
    let mut stream = sealed(&rt, alloc, [false, true, true]);
    let mut wire = script(&rt, alloc, &[], &[false, false]);
    assert_eq!(rt;
        stream.repair(0, Node::Zero, &mut wire),
        Err(RepairFault::Unreachable)
    );
    let calls = [Call::Ask(Node::One), Call::Ask(Node::Two)];
    assert!(rt; wire.called() == &calls[..]);
    // The extent is as it was: node Zero is not asked for a block.
    assert_eq!(rt; read(&stream, 0, 0, &mut wire), Told::Read(7, 3));
    assert_eq!(rt; wire.called().len(), 3);
}

// A repair with these deliveries is Unreachable after so many puts, and the node has no copy.
fn fails_at(rt: &impl Abort, alloc: Global, puts: &[Delivery], count: usize) {
    let mut stream = sealed(rt, alloc, WITHOUT_TWO);
    let mut wire = script(rt, alloc, puts, &[]);
    assert_eq!(rt;
        stream.repair(0, Node::Two, &mut wire),
        Err(RepairFault::Unreachable)
    );
    assert!(rt; wire.called().len().checked_sub(1) == Some(count));
    let mut silent = script(rt, alloc, &[], &[false, false]);
    assert_eq!(rt; read(&stream, 0, 0, &mut silent), Told::Unreachable);
    assert_eq!(rt; silent.called().len(), 2);
}

#[test]
fn a_put_that_is_not_done_ends_the_repair(rt: HostRuntime) {
    let alloc = rt.alloc();
    fails_at(&rt, alloc, &[R], 1);
    fails_at(&rt, alloc, &[L], 1);
    fails_at(&rt, alloc, &[D, R], 2);
    fails_at(&rt, alloc, &[D, L], 2);
}

#[test]
fn a_node_with_a_copy_is_not_called(rt: HostRuntime) {
    let alloc = rt.alloc();
    let mut stream = sealed(&rt, alloc, WITHOUT_TWO);
    let mut wire = script(&rt, alloc, &[], &[false, false, false]);
    assert_eq!(rt; stream.repair(0, Node::Zero, &mut wire), Ok(()));
    assert!(rt; wire.called().is_empty());
}

#[test]
fn an_extent_without_blocks_is_repaired_by_an_ask(rt: HostRuntime) {
    let alloc = rt.alloc();
    let mut stream = Stream::new(alloc, 268_435_456);
    let mut wire = script(&rt, alloc, &[R], &WITHOUT_TWO);
    let one = block(&rt, alloc, 7, 3);
    // Node Zero refused the block, and answered the seal: the commit length of extent 0 is 0.
    assert_eq!(rt; append(&mut stream, &one, &mut wire), Told::At(1, 0));
    assert_eq!(rt; stream.extent_count(), 2);
    let mut wire = script(&rt, alloc, &[], &YES);
    assert_eq!(rt; stream.repair(0, Node::Two, &mut wire), Ok(()));
    assert!(rt; wire.called() == &[Call::Ask(Node::Zero)][..]);
    assert_eq!(rt; stream.repair(0, Node::Two, &mut wire), Ok(()));
    assert_eq!(rt; wire.called().len(), 1);
}

#[test]
fn a_shared_extent_is_repaired_for_one_stream(rt: HostRuntime) {
    let alloc = rt.alloc();
    let mut stream = sealed(&rt, alloc, WITHOUT_TWO);
    let other = stream.share().expect(&rt, "memory");
    let mut wire = script(&rt, alloc, &[], &[]);
    assert_eq!(rt; stream.repair(0, Node::Two, &mut wire), Ok(()));
    let mut alone = script(&rt, alloc, &[], &[false, false, true]);
    assert_eq!(rt; read(&stream, 0, 0, &mut alone), Told::Read(7, 3));
    let mut silent = script(&rt, alloc, &[], &[false, false]);
    assert_eq!(rt; read(&other, 0, 0, &mut silent), Told::Unreachable);
    assert_eq!(rt; silent.called().len(), 2);
}

#[test]
fn an_extent_of_the_log_is_repaired(rt: HostRuntime) {
    let alloc = rt.alloc();
    let mut streams = streams(&rt, alloc, 1_000_000);
    let mut wire = script(&rt, alloc, &[], &WITHOUT_TWO);
    assert!(rt; log(&rt, alloc, &mut *streams, "one", &mut wire) == Logged::Done);
    assert!(rt; streams.seal(&mut wire).is_ok());
    let mut wire: Script = script(&rt, alloc, &[], &[]);
    let answer = streams.repair(StreamName::Log, 0, Node::Two, &mut wire);
    assert_eq!(rt; answer, Ok(()));
    assert!(rt; wire.called() == &[Call::Ask(Node::Zero), Call::Put(Node::Two)][..]);
    // The seal left the data and the rows as they were: they have no sealed extent.
    let answer = streams.repair(StreamName::Blobs, 0, Node::Two, &mut wire);
    assert_eq!(rt; answer, Err(RepairFault::NoSuchExtent));
    let answer = streams.repair(StreamName::Rows, 0, Node::Two, &mut wire);
    assert_eq!(rt; answer, Err(RepairFault::NoSuchExtent));
}
