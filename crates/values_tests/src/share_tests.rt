//! What no clause says about shared bytes: that each call can succeed, sums from outside, printed
//! text, and memory.

use crate::resident::resident;
use crate::sample_values::{long_metadata, long_props, long_share, share, shares};
use stamp_types::{Body, Gathering, Share};
use std::alloc::Global;
use std::process::Abort;

const HOLDS: usize = 1024 * 1024;

// RFC 1321, appendix A.5.
const SUM_OF_NOTHING: [u8; 16] = [
    0xd4, 0x1d, 0x8c, 0xd9, 0x8f, 0x00, 0xb2, 0x04, 0xe9, 0x80, 0x09, 0x98, 0xec, 0xf8, 0x42, 0x7e,
];

// RFC 1321, appendix A.5.
const SUM_OF_ABC: [u8; 16] = [
    0x90, 0x01, 0x50, 0x98, 0x3c, 0xd2, 0x4f, 0xb0, 0xd6, 0x96, 0x3f, 0x7d, 0x28, 0xe1, 0x7f, 0x72,
];

// As `printf hello | openssl md5` prints it; its Base64 is XUFAKrxLKna5cZ2REBfFkg==.
const SUM_OF_HELLO: [u8; 16] = [
    0x5d, 0x41, 0x40, 0x2a, 0xbc, 0x4b, 0x2a, 0x76, 0xb9, 0x71, 0x9d, 0x91, 0x10, 0x17, 0xc5, 0x92,
];

#[test]
fn slices_of_slices(rt: HostRuntime) {
    let alloc = rt.alloc();
    let whole = share(&rt, alloc, b"hello world");
    let end = whole.slice(6, 11).expect(&rt, "memory");
    let inner = end.slice(1, 4).expect(&rt, "memory");
    assert!(rt; end.as_slice() == b"world".as_slice());
    assert!(rt; inner.as_slice() == b"orl".as_slice());
}

#[test]
fn shares_and_bodies_are_copied(rt: HostRuntime) {
    let alloc = rt.alloc();
    let share = share(&rt, alloc, b"hello");
    assert!(rt; share.share().expect(&rt, "memory") == share);
    assert!(rt; share.clone().expect(&rt, "memory") == share);
    let body = Body::of(share);
    assert!(rt; body.share().expect(&rt, "memory") == body);
    assert!(rt; body.clone().expect(&rt, "memory") == body);
    assert!(rt; body.into_share().as_slice() == b"hello".as_slice());
}

#[test]
fn sums_are_md5(rt: HostRuntime) {
    let alloc = rt.alloc();
    assert!(rt; Body::empty().sum() == SUM_OF_NOTHING);
    assert!(rt; Body::of(share(&rt, alloc, b"abc")).sum() == SUM_OF_ABC);
}

// The sum of the bytes that these pieces are gathered into.
fn gathered_sum(
    rt: &impl Abort,
    alloc: Global,
    gathering: Gathering,
    pieces: &[&[u8]],
) -> [u8; 16] {
    let mut gathering = gathering;
    for piece in pieces {
        gathering.push(piece).expect(rt, "memory");
    }
    gathering.finish(alloc).expect(rt, "memory").sum()
}

#[test]
fn pieces_are_gathered(rt: HostRuntime) {
    let alloc = rt.alloc();
    let empty = Gathering::new(alloc);
    assert!(rt; gathered_sum(&rt, alloc, empty, &[b"a", b"", b"bc"]) == SUM_OF_ABC);
    let roomy = Gathering::with_room(alloc, 5).expect(&rt, "memory");
    assert!(rt; gathered_sum(&rt, alloc, roomy, &[b"hel", b"lo"]) == SUM_OF_HELLO);
}

#[test]
fn bytes_are_read_and_hashed(rt: HostRuntime) {
    let alloc = rt.alloc();
    let mut reader = b"hello".as_slice();
    let mut gathering = Gathering::new(alloc);
    // At most 3 bytes, and then at most 8 bytes.
    assert!(rt; gathering.read_from(&mut reader, 3) == Ok(3));
    assert!(rt; gathering.read_from(&mut reader, 8) == Ok(2));
    assert!(rt; gathering.read_from(&mut reader, 8) == Ok(0)); // the end of the reader
    // As `printf hello | openssl md5` prints it.
    assert!(rt; gathering.finish(alloc).expect(&rt, "memory").sum() == SUM_OF_HELLO);
}

#[test]
fn ranges_go_across_shares(rt: HostRuntime) {
    let alloc = rt.alloc();
    let shares = shares(&rt, alloc, &[b"hello", b"", b" ", b"world"]);
    assert!(rt; shares.len() == 11);
    let part = shares.range(alloc, 3, 8).expect(&rt, "memory");
    assert!(rt; part.joined(alloc).expect(&rt, "memory").as_slice() == b"lo wo".as_slice());
}

#[test]
fn shares_are_copied_and_written(rt: HostRuntime) {
    let alloc = rt.alloc();
    let shares = shares(&rt, alloc, &[b"hello", b"", b" world"]);
    let mut out = Vec::new(alloc);
    let copy = shares.clone().expect(&rt, "memory");
    copy.write_to(&mut out).expect(&rt, "memory");
    assert!(rt; out.as_slice() == b"hello world".as_slice());
}

#[test]
fn lengths_are_printed(rt: HostRuntime) {
    let alloc = rt.alloc();
    let body = Body::of(share(&rt, alloc, b"abc"));
    let shares = shares(&rt, alloc, &[b"ab", b"cd"]);
    let gathering = Gathering::new(alloc);
    let share = body.as_share();
    let printed = format!(in alloc; "{share:?}, {body:?}, {gathering:?}, {shares:?}");
    assert!(rt;
        printed.expect(&rt, "memory").as_str()
            == "Share of 3 bytes, Body of 3 bytes, Gathering of 0 bytes, Shares of 4 bytes"
    );
}

#[test]
fn shares_take_no_memory(rt: HostRuntime) {
    let alloc = rt.alloc();
    let body = Body::of(long_share(&rt, alloc, HOLDS));
    assert!(rt; body.len() == HOLDS);
    let before = resident(&rt).expect(&rt, "a status");
    assert!(rt; before >= 1024, "the body isn't counted");
    let mut bodies = Vec::new(alloc);
    let mut slices = Vec::new(alloc);
    for i in 0..1000 {
        let slice = body.as_share().slice(i, HOLDS - i).expect(&rt, "memory");
        bodies
            .push(body.share().expect(&rt, "memory"))
            .expect(&rt, "memory");
        slices.push(slice).expect(&rt, "memory");
    }
    let more = resident(&rt).expect(&rt, "a status").saturating_sub(before);
    assert!(rt; more < 8 * 1024, "{more} kB more than {before} kB");
    // All bodies and slices are still owned here.
    assert!(rt; bodies.len() + slices.len() == 2000);
}

#[test]
fn copies_of_metadata_take_no_memory(rt: HostRuntime) {
    let alloc = rt.alloc();
    let metadata = long_metadata(&rt, alloc);
    let before = resident(&rt).expect(&rt, "a status");
    let mut copies = Vec::new(alloc);
    for _turn in 0..1000 {
        copies
            .push(metadata.clone().expect(&rt, "memory"))
            .expect(&rt, "memory");
    }
    let more = resident(&rt).expect(&rt, "a status").saturating_sub(before);
    assert!(rt; more < 4 * 1024, "{more} kB more than {before} kB");
    // All copies are still owned here.
    assert!(rt; copies.len() == 1000 && copies.iter().all(|copy| *copy == metadata));
}

#[test]
fn copies_of_kept_headers_take_no_memory(rt: HostRuntime) {
    let alloc = rt.alloc();
    let props = long_props(&rt, alloc);
    let before = resident(&rt).expect(&rt, "a status");
    let mut copies = Vec::new(alloc);
    for _turn in 0..1000 {
        copies
            .push(props.clone().expect(&rt, "memory"))
            .expect(&rt, "memory");
    }
    let more = resident(&rt).expect(&rt, "a status").saturating_sub(before);
    assert!(rt; more < 4 * 1024, "{more} kB more than {before} kB");
    // All copies are still owned here.
    assert!(rt; copies.len() == 1000 && copies.iter().all(|copy| *copy == props));
}
