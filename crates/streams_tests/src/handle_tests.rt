//! Handles of sealed extents.
use crate::sample_wires::script;
use crate::stream_samples::{Told, answered, append, block, handle_of};
use stream_manager::Stream;

#[test]
fn a_handle_reads_its_extent_without_the_stream(rt: HostRuntime) {
    let alloc = rt.alloc();
    let mut stream = Stream::new(alloc, 2);
    let mut wire = script(&rt, alloc, &[], &[]);
    let one = block(&rt, alloc, 1, 2);
    let two = block(&rt, alloc, 2, 1);
    assert_eq!(rt; append(&mut stream, &one, &mut wire), Told::At(0, 0));
    assert!(rt; stream.sealed_count() == 0);
    assert_eq!(rt; append(&mut stream, &two, &mut wire), Told::At(1, 0));
    assert!(rt; stream.sealed_count() == 1);
    let handle = handle_of(&rt, &mut stream, 0);
    assert_eq!(rt; append(&mut stream, &one, &mut wire), Told::At(2, 0));
    drop(stream);
    assert_eq!(rt; answered(handle.read(0, &mut wire)), Told::Read(1, 2));
}

#[test]
fn a_handle_asks_the_nodes_that_have_a_copy(rt: HostRuntime) {
    let alloc = rt.alloc();
    let mut stream = Stream::new(alloc, 268_435_456);
    let asks = [false, true, true, false, false];
    let mut wire = script(&rt, alloc, &[], &asks);
    let one = block(&rt, alloc, 7, 3);
    assert_eq!(rt; append(&mut stream, &one, &mut wire), Told::At(0, 0));
    assert!(rt; stream.seal(&mut wire).is_ok());
    let handle = handle_of(&rt, &mut stream, 0);
    assert_eq!(rt; answered(handle.read(0, &mut wire)), Told::Unreachable);
    // Three puts, and three asks of the seal. Node Zero did not answer the seal, so the read asks the two other nodes.
    assert_eq!(rt; wire.called().len(), 8);
    assert_eq!(rt; answered(handle.read(0, &mut wire)), Told::Read(7, 3));
    assert_eq!(rt; wire.called().len(), 9);
}
