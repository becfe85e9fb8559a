//! Extents by their own calls.
use crate::sample_wires::{D, R, script};
use crate::stream_samples::block;
use extent_node::Node;
use extent_seal::{Appended, BlockOwners, OpenExtent};

#[test]
fn an_extent_is_read_before_and_after_its_seal(rt: HostRuntime) {
    let alloc = rt.alloc();
    let mut extent = OpenExtent::new(alloc);
    let mut wire = script(&rt, alloc, &[], &[]); // three nodes that do all that they are told
    let one = block(&rt, alloc, 7, 3); // three bytes 7
    let appended = extent.append(&one, &mut wire).expect(&rt, "memory");
    assert!(rt; matches!(appended, Appended::All)); // or `Short`: a node did not take it
    assert_eq!(rt; extent.len(), 1);
    // After a short append the caller seals, and appends no more.
    assert!(rt; !extent.is_short());
    let read = extent.read(0, &mut wire).ok().expect(&rt, "a block");
    assert!(rt; read == one);
    let sealed = extent.seal(&mut wire).ok().expect(&rt, "a node");
    assert_eq!(rt; sealed.commit_len(), 1);
    let read = sealed.read(0, &mut wire).ok().expect(&rt, "a block");
    assert!(rt; read == one);
    // Three puts, three asks of the seal, and one ask of each read.
    assert_eq!(rt; wire.called().len(), 8);
}

#[test]
fn a_block_is_appended_with_the_room_that_was_made(rt: HostRuntime) {
    let alloc = rt.alloc();
    let mut extent = OpenExtent::new(alloc);
    let mut wire = script(&rt, alloc, &[D, R, D], &[]);
    let one = block(&rt, alloc, 7, 3);
    let shares = BlockOwners::new(&one).expect(&rt, "memory");
    assert_eq!(rt; shares.len(), 3);
    extent.reserve().expect(&rt, "memory");
    let appended = extent.append_reserved(shares, &mut wire);
    assert!(rt; matches!(appended, Appended::Short));
    assert_eq!(rt; extent.replica(Node::Zero).len(), 1);
    assert_eq!(rt; extent.replica(Node::One).len(), 0);
    assert_eq!(rt; extent.len(), 0);
}
