//! Frames whose bytes are from outside, and what is read of files of frames that a crash left. checks/models/frame_model.py computed the digests.

use crate::{WordDigest, read_frames, write_frame};
use std::alloc::Global;
use std::process::Abort;

// An entry of 16 bytes, one that ends inside a word, and one that ends with a word.
const FIRST: &[u8] = b"\0\0\0\0\0\0\0\x07\0\0\0\0\0\0\0\x02";

const SECOND: &[u8] = b"\0\0\0\0\0\0\0\x07\0\0\0\0\0\0\0\x02hello";

const THIRD: &[u8] = b"\0\0\0\0\0\0\0\x08\0\0\0\0\0\0\0\0\xff\xff\xff\xff\xff\xff\xff\xff";

// The three frames in segment 3.
const FRAMES: &[u8] =
    b"\0\0\0\0\0\0\0\x10\x14\x0d\x7e\x87\xad\x88\x7c\x78\0\0\0\0\0\0\0\x07\0\0\0\0\0\0\0\x02\0\0\0\0\0\0\0\x15\x80\x19\x3f\xa9\x7b\x72\xb0\xeb\0\0\0\0\0\0\0\x07\0\0\0\0\0\0\0\x02hello\0\0\0\0\0\0\0\x18\x85\x44\x2a\xac\xb1\xfe\x34\x5f\0\0\0\0\0\0\0\x08\0\0\0\0\0\0\0\0\xff\xff\xff\xff\xff\xff\xff\xff";

// Where the third frame begins.
const TWO_FRAMES: usize = 69;

fn digest() -> WordDigest {
    WordDigest {
        key: 0x0123_4567_89ab_cdef,
    }
}

// How many entries are read from the file of segment 3.
fn count(rt: &impl Abort, alloc: Global, file: &[u8]) -> usize {
    read_frames(alloc, &digest(), 3, file)
        .expect(rt, "memory")
        .len()
}

fn with_zeros(rt: &impl Abort, alloc: Global, file: &[u8], zeros: usize) -> Vec<u8> {
    let mut out = file.to_vec(alloc).expect(rt, "memory");
    for _ in 0..zeros {
        out.push(0).expect(rt, "memory");
    }
    out
}

#[test]
fn frames_are_written_and_read(rt: HostRuntime) {
    let alloc = rt.alloc();
    let digest = digest(); // of the key 0x0123_4567_89ab_cdef
    let mut file = Vec::new(alloc);
    // Three entries of at least 16 bytes, in segment 3, at the indices 0, 1 and 2.
    write_frame(&mut file, &digest, 3, 0, FIRST).expect(&rt, "memory");
    write_frame(&mut file, &digest, 3, 1, SECOND).expect(&rt, "memory");
    write_frame(&mut file, &digest, 3, 2, THIRD).expect(&rt, "memory");
    assert!(rt; file.as_slice() == FRAMES);
    // The entries are lent from the file.
    let entries = read_frames(alloc, &digest, 3, &file).expect(&rt, "memory");
    assert_eq!(rt; entries.len(), 3);
    assert!(rt; entries[0] == FIRST && entries[1] == SECOND && entries[2] == THIRD);
}

#[test]
fn a_file_that_was_filled_with_zeros_ends_where_its_frames_end(rt: HostRuntime) {
    let alloc = rt.alloc();
    assert_eq!(rt; count(&rt, alloc, &[]), 0);
    for zeros in [1, 31, 32, 100] {
        assert_eq!(rt; count(&rt, alloc, &with_zeros(&rt, alloc, &[], zeros)), 0);
        assert_eq!(rt;
            count(&rt, alloc, &with_zeros(&rt, alloc, FRAMES, zeros)),
            3
        );
    }
}

#[test]
fn a_frame_that_is_cut_or_torn_is_not_read(rt: HostRuntime) {
    let alloc = rt.alloc();
    for end in TWO_FRAMES..FRAMES.len() {
        let cut = &FRAMES[..end];
        assert_eq!(rt; count(&rt, alloc, cut), 2, "cut at {end}");
        let torn = with_zeros(&rt, alloc, cut, FRAMES.len() - end);
        assert_eq!(rt; count(&rt, alloc, &torn), 2, "zeros from {end}");
    }
}

#[test]
fn a_frame_with_a_flipped_bit_is_not_read(rt: HostRuntime) {
    let alloc = rt.alloc();
    for at in TWO_FRAMES..FRAMES.len() {
        let mut file = FRAMES.to_vec(alloc).expect(&rt, "memory");
        if let Some(byte) = file.get_mut(at) {
            *byte ^= 1;
        }
        assert_eq!(rt; count(&rt, alloc, &file), 2, "flipped at {at}");
    }
}

#[test]
fn a_frame_at_another_index_or_in_another_segment_is_not_read(rt: HostRuntime) {
    let alloc = rt.alloc();
    assert_eq!(rt; count(&rt, alloc, &FRAMES[TWO_FRAMES..]), 0);
    let other = read_frames(alloc, &digest(), 4, FRAMES).expect(&rt, "memory");
    assert!(rt; other.is_empty());
    let key = WordDigest { key: 0 };
    let unkeyed = read_frames(alloc, &key, 3, FRAMES).expect(&rt, "memory");
    assert!(rt; unkeyed.is_empty());
}
