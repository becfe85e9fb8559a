//! Appends and settles under written deliveries (SOSP 2011, section 4.3).
use crate::sample_wires::{D, L, R, script};
use crate::stream_samples::{Told, append, block, read, settle};
use stream_manager::Stream;

const YES: [bool; 3] = [true, true, true];

#[test]
fn an_excluded_block_is_tried_once_more(rt: HostRuntime) {
    let alloc = rt.alloc();
    let mut stream = Stream::new(alloc, 268_435_456);
    let mut wire = script(&rt, alloc, &[D, L, R, D, D, D], &YES);
    let one = block(&rt, alloc, 7, 3);
    assert_eq!(rt; append(&mut stream, &one, &mut wire), Told::At(1, 0));
    assert!(rt; stream.extent_count() == 2);
    assert_eq!(rt; stream.extent_len(0), 0);
    assert_eq!(rt; read(&stream, 0, 0, &mut wire), Told::Nothing);
    assert_eq!(rt; read(&stream, 1, 0, &mut wire), Told::Read(7, 3));
}

#[test]
fn a_block_that_all_nodes_took_is_kept(rt: HostRuntime) {
    let alloc = rt.alloc();
    let mut stream = Stream::new(alloc, 268_435_456);
    let mut wire = script(&rt, alloc, &[D, D, L], &YES);
    let one = block(&rt, alloc, 7, 3);
    assert_eq!(rt; append(&mut stream, &one, &mut wire), Told::At(0, 0));
    assert_eq!(rt; append(&mut stream, &one, &mut wire), Told::At(1, 0));
}

#[test]
fn a_doubt_is_kept(rt: HostRuntime) {
    let alloc = rt.alloc();
    let mut stream = Stream::new(alloc, 268_435_456);
    let asks = [false, false, false, true, false, false];
    let mut wire = script(&rt, alloc, &[D, R, R], &asks);
    let one = block(&rt, alloc, 7, 3);
    assert_eq!(rt; append(&mut stream, &one, &mut wire), Told::Doubt);
    assert_eq!(rt; settle(&mut stream, &mut wire), Told::At(0, 0));
    assert_eq!(rt; settle(&mut stream, &mut wire), Told::Clean);
}

#[test]
fn a_doubt_is_dropped(rt: HostRuntime) {
    let alloc = rt.alloc();
    let mut stream = Stream::new(alloc, 268_435_456);
    let asks = [false, false, false, false, true, false];
    let mut wire = script(&rt, alloc, &[D, R, R], &asks);
    let one = block(&rt, alloc, 7, 3);
    assert_eq!(rt; append(&mut stream, &one, &mut wire), Told::Doubt);
    assert_eq!(rt; settle(&mut stream, &mut wire), Told::Dropped);
    assert_eq!(rt; append(&mut stream, &one, &mut wire), Told::At(1, 0));
}

#[test]
fn an_append_keeps_an_older_doubt(rt: HostRuntime) {
    let alloc = rt.alloc();
    let mut stream = Stream::new(alloc, 268_435_456);
    let asks = [false, false, false, true, false, false];
    let mut wire = script(&rt, alloc, &[D, R, R], &asks);
    let (one, two) = (block(&rt, alloc, 7, 3), block(&rt, alloc, 8, 2));
    assert_eq!(rt; append(&mut stream, &one, &mut wire), Told::Doubt);
    let place = stream.next_place();
    assert!(rt; !stream.has_block(place));
    assert_eq!(rt; append(&mut stream, &two, &mut wire), Told::At(1, 0));
    assert!(rt; stream.has_block(place));
    assert_eq!(rt; read(&stream, 0, 0, &mut wire), Told::Read(7, 3));
}

#[test]
fn an_append_drops_an_older_doubt(rt: HostRuntime) {
    let alloc = rt.alloc();
    let mut stream = Stream::new(alloc, 268_435_456);
    let asks = [false, false, false, false, true, false];
    let mut wire = script(&rt, alloc, &[D, R, R], &asks);
    let (one, two) = (block(&rt, alloc, 7, 3), block(&rt, alloc, 8, 2));
    assert_eq!(rt; append(&mut stream, &one, &mut wire), Told::Doubt);
    let place = stream.next_place();
    assert_eq!(rt; append(&mut stream, &two, &mut wire), Told::At(1, 0));
    assert!(rt; !stream.has_block(place));
    assert_eq!(rt; read(&stream, 0, 0, &mut wire), Told::Nothing);
}

#[test]
fn a_block_that_is_excluded_twice_is_busy(rt: HostRuntime) {
    let alloc = rt.alloc();
    let mut stream = Stream::new(alloc, 268_435_456);
    let asks = [true, true, true, true, true, true];
    let mut wire = script(&rt, alloc, &[R, R, R, R, R, R], &asks);
    let one = block(&rt, alloc, 7, 3);
    assert_eq!(rt; append(&mut stream, &one, &mut wire), Told::Busy);
    assert_eq!(rt; read(&stream, 0, 0, &mut wire), Told::Nothing);
    assert_eq!(rt; read(&stream, 1, 0, &mut wire), Told::Nothing);
    assert_eq!(rt; append(&mut stream, &one, &mut wire), Told::At(2, 0));
}

#[test]
fn an_extent_has_one_block_of_any_size(rt: HostRuntime) {
    let alloc = rt.alloc();
    let mut stream = Stream::new(alloc, 8);
    let mut wire = script(&rt, alloc, &[], &[]);
    let too_large = block(&rt, alloc, 7, 16_777_217);
    assert_eq!(rt; append(&mut stream, &too_large, &mut wire), Told::TooLarge);
    assert_eq!(rt; wire.called().len(), 0);
    let large = block(&rt, alloc, 7, 16_777_216);
    assert_eq!(rt; append(&mut stream, &large, &mut wire), Told::At(0, 0));
    let small = block(&rt, alloc, 7, 1);
    assert_eq!(rt; append(&mut stream, &small, &mut wire), Told::At(1, 0));
}

#[test]
fn an_extent_is_filled_to_its_last_byte(rt: HostRuntime) {
    let alloc = rt.alloc();
    let mut stream = Stream::new(alloc, 8);
    let mut wire = script(&rt, alloc, &[], &[]);
    let five = block(&rt, alloc, 5, 5);
    let three = block(&rt, alloc, 3, 3);
    assert_eq!(rt; append(&mut stream, &five, &mut wire), Told::At(0, 0));
    assert_eq!(rt; append(&mut stream, &three, &mut wire), Told::At(0, 1));
    assert_eq!(rt; append(&mut stream, &three, &mut wire), Told::At(1, 0));
}
