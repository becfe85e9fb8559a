//! What no clause says about content, kept headers and changes: that each call can succeed.

use crate::sample_changes::{
    container_row, create_container, delete_blob, five_in, put_blob, put_block_list, set_acl,
    set_container_metadata, set_metadata, stored_blob,
};
use crate::sample_values::{block_id, key, long_share, text};
use stamp_types::{Act, Change, Kept, Key, Pieces, Props, PutBlock, Visible};
use std::alloc::Global;
use std::process::Abort;

fn cut(rt: &impl Abort, alloc: Global, count: usize) -> Pieces {
    let share = long_share(rt, alloc, count);
    assert!(rt; share.len() <= 67_108_864);
    Pieces::cut(alloc, &share).expect(rt, "memory")
}

#[test]
fn bytes_are_cut_into_slices(rt: HostRuntime) {
    let alloc = rt.alloc();
    let cases: [(usize, &[u64]); 3] = [
        (0, &[]),
        (4_194_304, &[4_194_304]),
        (4_194_305, &[4_194_304, 1]),
    ];
    for (count, lengths) in cases {
        let pieces = cut(&rt, alloc, count);
        assert!(rt;
            pieces
                .as_slice()
                .iter()
                .map(|piece| piece.len())
                .eq(lengths.iter().copied())
        );
    }
}

#[test]
fn a_type_left_empty_is_octet_stream(rt: HostRuntime) {
    let alloc = rt.alloc();
    let kept = Kept {
        content_type: Visible::empty(alloc),
        encoding: Visible::empty(alloc),
        language: Visible::empty(alloc),
        cache_control: Visible::empty(alloc),
        md5: None,
    };
    let props = Props::new(alloc, kept, Some([7; 16])).expect(&rt, "memory");
    assert_eq!(rt; props.content_type().as_str(), "application/octet-stream");
    assert!(rt; props.md5() == Some([7; 16]));
}

fn docs(rt: &impl Abort, alloc: Global) -> Key {
    key(rt, alloc, "acct", "docs")
}

#[test]
fn a_bad_account_is_refused(rt: HostRuntime) {
    let key = key(&rt, rt.alloc(), "ac", "docs");
    let change = Change::new(key, Act::DeleteContainer);
    assert!(rt; change.map(drop).is_none());
}

// Whether a copy of the change is equal to the change. Both are dropped by calls: at the end of a
// body, each kind of act is proved by itself, which takes a minute or more.
fn has_equal_copy(rt: &impl Abort, change: Change) -> bool {
    let copy = change.clone().expect(rt, "memory");
    let same = copy.same(&change);
    drop(copy);
    drop(change);
    same
}

fn is_copied(rt: &impl Abort, alloc: Global, act: Act) -> bool {
    let change = Change::new(docs(rt, alloc), act).expect(rt, "a good change");
    has_equal_copy(rt, change)
}

#[test]
fn changes_of_containers_are_copied(rt: HostRuntime) {
    let alloc = rt.alloc();
    assert!(rt; is_copied(&rt, alloc, create_container(&rt, alloc)));
    assert!(rt; is_copied(&rt, alloc, set_container_metadata(&rt, alloc)));
    assert!(rt; is_copied(&rt, alloc, set_acl(&rt, alloc)));
    assert!(rt; is_copied(&rt, alloc, Act::DeleteContainer));
    assert!(rt; is_copied(&rt, alloc, container_row(&rt, alloc)));
}

#[test]
fn changes_of_blobs_are_copied(rt: HostRuntime) {
    let alloc = rt.alloc();
    assert!(rt; is_copied(&rt, alloc, put_blob(&rt, alloc)));
    assert!(rt; is_copied(&rt, alloc, set_metadata(&rt, alloc)));
    assert!(rt; is_copied(&rt, alloc, delete_blob(&rt, alloc)));
    assert!(rt; is_copied(&rt, alloc, put_block_list(&rt, alloc)));
    assert!(rt; is_copied(&rt, alloc, stored_blob(&rt, alloc)));
}

// A change that puts a block of five bytes in the first extent. Five bytes in the second extent
// then replace its content.
fn put_elsewhere(rt: &impl Abort, alloc: Global, first: u64, second: u64) -> Change {
    let put = PutBlock {
        blob: text(rt, alloc, "a"),
        id: block_id(rt, alloc, b"0001"),
        content: five_in(rt, alloc, first),
    };
    let change = Change::new(docs(rt, alloc), Act::PutBlock(put)).expect(rt, "a good change");
    change.with_content(five_in(rt, alloc, second))
}

#[test]
fn content_is_replaced_by_its_places_and_copied(rt: HostRuntime) {
    let alloc = rt.alloc();
    let replaced = put_elsewhere(&rt, alloc, 3, 4);
    let made = put_elsewhere(&rt, alloc, 4, 4);
    let same = replaced.same(&made);
    drop(replaced);
    drop(made);
    assert!(rt; same);
    assert!(rt; has_equal_copy(&rt, put_elsewhere(&rt, alloc, 3, 4)));
}
