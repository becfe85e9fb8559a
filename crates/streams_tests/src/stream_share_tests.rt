//! Streams that share extents.
use crate::sample_wires::script;
use crate::stream_samples::{Told, append, block, read};
use stream_manager::Stream;

#[test]
fn a_shared_stream_has_the_sealed_blocks(rt: HostRuntime) {
    let alloc = rt.alloc();
    let mut stream = Stream::new(alloc, 2);
    let mut wire = script(&rt, alloc, &[], &[]);
    let one = block(&rt, alloc, 1, 2);
    let two = block(&rt, alloc, 2, 2);
    assert_eq!(rt; append(&mut stream, &one, &mut wire), Told::At(0, 0));
    assert_eq!(rt; append(&mut stream, &two, &mut wire), Told::At(1, 0));
    assert!(rt; stream.seal(&mut wire).is_ok());
    let shared = stream.share().expect(&rt, "memory");
    assert_eq!(rt; read(&shared, 0, 0, &mut wire), Told::Read(1, 2));
    assert_eq!(rt; read(&shared, 1, 0, &mut wire), Told::Read(2, 2));
    assert_eq!(rt; shared.extent_count(), 3);
}

#[test]
fn two_streams_go_on_apart(rt: HostRuntime) {
    let alloc = rt.alloc();
    let mut stream = Stream::new(alloc, 2);
    let mut wire = script(&rt, alloc, &[], &[]);
    let one = block(&rt, alloc, 1, 2);
    let two = block(&rt, alloc, 2, 2);
    assert_eq!(rt; append(&mut stream, &one, &mut wire), Told::At(0, 0));
    assert!(rt; stream.seal(&mut wire).is_ok());
    let mut shared = stream.share().expect(&rt, "memory");
    assert_eq!(rt; append(&mut shared, &two, &mut wire), Told::At(1, 0));
    assert_eq!(rt; append(&mut stream, &one, &mut wire), Told::At(1, 0));
    assert_eq!(rt; read(&shared, 1, 0, &mut wire), Told::Read(2, 2));
    assert_eq!(rt; read(&stream, 1, 0, &mut wire), Told::Read(1, 2));
}
