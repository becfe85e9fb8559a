//! Which nodes are called, by a put or by an ask, and in which order.
use crate::sample_wires::{D, R, script};
use crate::stream_samples::{Told, append, block, read};
use extent_node::{Call, Node};
use stream_manager::Stream;

// A block is put to each node, and then each node is asked.
const PUTS_AND_ASKS: [Call; 6] = [
    Call::Put(Node::Zero),
    Call::Put(Node::One),
    Call::Put(Node::Two),
    Call::Ask(Node::Zero),
    Call::Ask(Node::One),
    Call::Ask(Node::Two),
];

#[test]
fn puts_and_asks_go_to_each_node_in_order(rt: HostRuntime) {
    let alloc = rt.alloc();
    let mut stream = Stream::new(alloc, 268_435_456);
    let mut wire = script(&rt, alloc, &[D, R, D], &[]);
    let sample = block(&rt, alloc, 7, 3);
    assert_eq!(rt; append(&mut stream, &sample, &mut wire), Told::At(1, 0));
    let [zero, one, two, seal_zero, seal_one, seal_two] = PUTS_AND_ASKS;
    let calls = [
        zero, one, two, seal_zero, seal_one, seal_two, zero, one, two,
    ];
    assert!(rt; wire.called() == &calls[..]);
}

#[test]
fn a_discarded_replica_is_not_read(rt: HostRuntime) {
    let alloc = rt.alloc();
    let mut stream = Stream::new(alloc, 268_435_456);
    let mut wire = script(&rt, alloc, &[], &[false, true, true]);
    let sample = block(&rt, alloc, 7, 3);
    assert_eq!(rt; append(&mut stream, &sample, &mut wire), Told::At(0, 0));
    assert!(rt; stream.seal(&mut wire).is_ok());
    assert!(rt; wire.called() == &PUTS_AND_ASKS[..]);
    assert_eq!(rt; read(&stream, 0, 0, &mut wire), Told::Read(7, 3));
    assert_eq!(rt; wire.called().last().copied(), Some(Call::Ask(Node::One)));
    assert_eq!(rt; wire.called().len(), 7);
}

#[test]
fn a_read_asks_on_until_a_node_answers(rt: HostRuntime) {
    let alloc = rt.alloc();
    let mut stream = Stream::new(alloc, 268_435_456);
    let asks = [false, false, true, false, false, false];
    let mut wire = script(&rt, alloc, &[], &asks);
    let sample = block(&rt, alloc, 7, 3);
    assert_eq!(rt; append(&mut stream, &sample, &mut wire), Told::At(0, 0));
    assert_eq!(rt; read(&stream, 0, 0, &mut wire), Told::Read(7, 3));
    assert!(rt; wire.called() == &PUTS_AND_ASKS[..]);
    assert_eq!(rt; read(&stream, 0, 0, &mut wire), Told::Unreachable);
    assert_eq!(rt; wire.called().len(), 9);
}

#[test]
fn a_seal_of_nothing_calls_no_node(rt: HostRuntime) {
    let alloc = rt.alloc();
    let mut stream = Stream::new(alloc, 268_435_456);
    let mut wire = script(&rt, alloc, &[], &[]);
    assert!(rt; stream.seal(&mut wire).is_ok());
    assert_eq!(rt; wire.called().len(), 0);
    assert_eq!(rt; stream.extent_count(), 1);
}
