//! Rows that are made before they are swapped in.
use crate::change_tests::{has_blob, stored_as};
use crate::sample_requests::{key, make, text};
use row_trees::{NewRow, Rows};
use stamp_types::{Act, Change};
use std::alloc::Global;
use std::process::Abort;

const PICS: (&str, &str) = ("pantry", "pics");

// The change that stores the blob of this name, with this word as its content.
fn stored(rt: &impl Abort, alloc: Global, name: &str, word: &str) -> Change {
    let act = stored_as(rt, alloc, name, word);
    Change::new(key(rt, alloc, PICS.0, PICS.1), act).expect(rt, "a good change")
}

// Swaps the row of a change in.
fn swap(rt: &impl Abort, alloc: Global, rows: &mut Rows, change: &Change) {
    let Act::StoredBlob(row) = change.act() else {
        panic!(rt; "the row of a blob");
    };
    let new = NewRow::of(alloc, row).expect(rt, "memory");
    assert!(rt; rows.find(change.key()).seen(&row.blob).row().is_some());
    rows.replace_row(change.key(), row, new);
}

#[test]
fn a_new_row_takes_the_place_of_the_old_one(rt: HostRuntime) {
    let alloc = rt.alloc();
    let mut rows = Rows::new(alloc);
    make(&rt, alloc, &mut rows, stored(&rt, alloc, "a", "six"));
    make(&rt, alloc, &mut rows, stored(&rt, alloc, "b", "six"));
    let change = stored(&rt, alloc, "a", "nine");
    swap(&rt, alloc, &mut rows, &change);
    assert!(rt; has_blob(&rt, alloc, &rows, PICS, "a", Some((3, 5, "five", "nine"))));
    assert!(rt; has_blob(&rt, alloc, &rows, PICS, "b", Some((3, 5, "five", "six"))));
    assert!(rt;
        rows.find(change.key())
            .seen(&text(&rt, alloc, "a"))
            .has_uncommitted()
    );
    assert_eq!(rt; rows.count(change.key()), 0);
}
