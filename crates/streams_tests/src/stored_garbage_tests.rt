//! Garbage of rows that streams keep, before and after sweeps (SOSP 2011, section 5.3).
use crate::sample_acts::{put_hello, put_no_blocks};
use crate::sample_fields::{id, text};
use crate::sample_wires::script;
use crate::stored_checkpoint_tests::made;
use crate::stored_samples::{change_of, create, cut, stored};
use crate::stored_sweep_samples::{begin, end, step, steps, sweep};
use crate::stored_waste_tests::{
    content, delete, existing, fill, is_due_at, long_body, put_bytes, reload,
};
use stamp_types::{Act, Change, PutBlock, Share};
use std::alloc::Global;
use std::process::Abort;
use stored_rows::StoredRows;

// A mebibyte more than the 16 MiB that may be wasted.
const MANY: usize = 17_825_792;

// A change by which the blob is written again, by Put Blob or as a list of no blocks, or deleted, itself or with its container.
fn wasting(rt: &impl Abort, alloc: Global, way: usize) -> Change {
    match way {
        0 => change_of(rt, alloc, "pics", put_hello(rt, alloc)),
        1 => change_of(rt, alloc, "pics", put_no_blocks(rt, alloc)),
        2 => delete(rt, alloc),
        _ => change_of(rt, alloc, "pics", Act::DeleteContainer),
    }
}

fn waste_and_sweep(
    rt: &impl Abort,
    alloc: Global,
    stored: &mut StoredRows,
    body: &Share,
    way: usize,
) {
    made(rt, alloc, stored, create(rt, alloc, "pics"));
    made(rt, alloc, stored, put_bytes(rt, alloc, body, MANY));
    assert!(rt; !stored.is_wasteful());
    made(rt, alloc, stored, wasting(rt, alloc, way));
    assert!(rt; stored.is_wasteful() && stored.has_garbage());
    sweep(rt, alloc, stored);
    assert!(rt; !stored.is_wasteful() && !stored.has_garbage());
    // The same blob and its end once more, counted from the rows.
    if way == 3 {
        made(rt, alloc, stored, create(rt, alloc, "pics"));
    }
    made(rt, alloc, stored, put_bytes(rt, alloc, body, MANY));
    assert!(rt; !stored.is_wasteful());
    reload(rt, alloc, stored);
    assert!(rt; !stored.is_wasteful());
    made(rt, alloc, stored, wasting(rt, alloc, way));
    assert!(rt; stored.is_wasteful());
}

#[test]
fn content_to_which_nothing_refers_is_wasted(rt: HostRuntime) {
    let body = long_body(&rt, rt.alloc());
    for way in 0..4 {
        let mut stored = stored(&rt, rt.alloc());
        waste_and_sweep(&rt, rt.alloc(), &mut *stored, &body, way);
    }
}

// Changes of one kind and much garbage. After a sweep the streams count as the rows that exist, to the byte, also once the rows are counted again.
fn sweep_until_due(
    rt: &impl Abort,
    alloc: Global,
    stored: &mut StoredRows,
    body: &Share,
    kind: u64,
    more: u64,
) {
    let _written = fill(rt, alloc, stored, kind);
    made(rt, alloc, stored, put_bytes(rt, alloc, body, MANY));
    made(rt, alloc, stored, delete(rt, alloc));
    assert!(rt; stored.is_wasteful());
    sweep(rt, alloc, stored);
    assert!(rt; !stored.is_wasteful() && !stored.has_garbage());
    if more > 1 {
        reload(rt, alloc, stored);
        assert!(rt; !stored.is_wasteful() && !stored.has_garbage());
    }
    let written = existing(rt, alloc, stored);
    is_due_at(rt, alloc, stored, body, written, more % 2);
}

// As counted while the sweep wrote rows (0 and 1), and as counted again from the rows (2 and 3): at the byte before, and at this byte.
fn each_is_swept(rt: &impl Abort, alloc: Global, kind: u64, end: u64) {
    let body = long_body(rt, alloc);
    for more in 0..end {
        let mut stored = stored(rt, alloc);
        sweep_until_due(rt, alloc, &mut *stored, &body, kind, more);
    }
}

#[test]
fn a_sweep_leaves_no_garbage_of_headers_and_metadata(rt: HostRuntime) {
    each_is_swept(&rt, rt.alloc(), 0, 2);
}

#[test]
fn a_sweep_leaves_no_garbage_of_containers(rt: HostRuntime) {
    each_is_swept(&rt, rt.alloc(), 1, 2);
}

#[test]
fn a_sweep_leaves_no_garbage_of_lists(rt: HostRuntime) {
    each_is_swept(&rt, rt.alloc(), 2, 2);
}

#[test]
fn a_sweep_leaves_no_garbage_of_uncommitted_blocks(rt: HostRuntime) {
    each_is_swept(&rt, rt.alloc(), 3, 4);
}

#[test]
fn a_sweep_leaves_no_garbage_of_deleted_containers(rt: HostRuntime) {
    each_is_swept(&rt, rt.alloc(), 4, 2);
}

// The rest of a sweep. Afterwards the streams count as the rows that exist, to the byte.
fn go_on_until_due(
    rt: &impl Abort,
    alloc: Global,
    stored: &mut StoredRows,
    body: &Share,
    more: u64,
) {
    let _steps = steps(rt, alloc, stored);
    end(rt, stored);
    assert!(rt; !stored.is_wasteful() && !stored.has_garbage());
    let written = existing(rt, alloc, stored);
    is_due_at(rt, alloc, stored, body, written, more);
}

// The rows are counted again in the middle of a sweep: by a load, or by a cut that leaves all rows in the lower half or in the upper half. The sweep
// counts the uncommitted blocks to whose rows it comes later, and no block twice.
fn count_between(
    rt: &impl Abort,
    alloc: Global,
    stored: &mut StoredRows,
    body: &Share,
    way: u64,
    more: u64,
) {
    let mut wire = script(rt, alloc, &[], &[]);
    match way {
        0 => {
            reload(rt, alloc, stored);
            go_on_until_due(rt, alloc, stored, body, more);
        }
        1 => {
            let _upper = cut(rt, alloc, stored, "q", &mut wire).expect(rt, "an upper half");
            go_on_until_due(rt, alloc, stored, body, more);
        }
        _ => {
            let mut upper = cut(rt, alloc, stored, "pics", &mut wire).expect(rt, "an upper half");
            go_on_until_due(rt, alloc, &mut *upper, body, more);
        }
    }
}

// Uncommitted blocks and much garbage, and a sweep that has made so many steps.
fn sweep_some(rt: &impl Abort, alloc: Global, stored: &mut StoredRows, body: &Share, count: u64) {
    let _written = fill(rt, alloc, stored, 3);
    made(rt, alloc, stored, put_bytes(rt, alloc, body, MANY));
    made(rt, alloc, stored, delete(rt, alloc));
    let _asked = begin(rt, alloc, stored);
    let mut wire = script(rt, alloc, &[], &[]);
    for _step in 0..count {
        let _progress = step(rt, stored, &mut wire);
    }
}

#[test]
fn no_uncommitted_block_is_counted_twice(rt: HostRuntime) {
    let body = long_body(&rt, rt.alloc());
    for way in 0..3 {
        for count in 0..5 {
            for more in 0..2 {
                let mut stored = stored(&rt, rt.alloc());
                sweep_some(&rt, rt.alloc(), &mut *stored, &body, count);
                count_between(&rt, rt.alloc(), &mut *stored, &body, way, more);
            }
        }
    }
}

// The change that puts an uncommitted block of 4 MiB under an id of this letter.
fn put_long_block(rt: &impl Abort, alloc: Global, body: &Share, letter: u8) -> Change {
    let act = Act::PutBlock(PutBlock {
        blob: text(rt, alloc, "a.txt"),
        id: id(rt, alloc, &[letter]),
        content: content(rt, alloc, body, body.len()),
    });
    change_of(rt, alloc, "pics", act)
}

// Uncommitted blocks of 28 MiB are no garbage once a sweep came to them. Blocks that take their places make them garbage.
fn sweep_long_blocks(rt: &impl Abort, alloc: Global, stored: &mut StoredRows, body: &Share) {
    made(rt, alloc, stored, create(rt, alloc, "pics"));
    for _time in 0..2 {
        for letter in b'a'..=b'g' {
            made(rt, alloc, stored, put_long_block(rt, alloc, body, letter));
        }
        assert!(rt; stored.is_wasteful());
        for _again in 0..2 {
            sweep(rt, alloc, stored);
            assert!(rt; !stored.is_wasteful() && !stored.has_garbage());
        }
        reload(rt, alloc, stored);
        assert!(rt; !stored.is_wasteful() && !stored.has_garbage());
    }
}

#[test]
fn uncommitted_blocks_are_no_garbage_after_a_sweep(rt: HostRuntime) {
    let body = long_body(&rt, rt.alloc());
    let mut stored = stored(&rt, rt.alloc());
    sweep_long_blocks(&rt, rt.alloc(), &mut *stored, &body);
}
