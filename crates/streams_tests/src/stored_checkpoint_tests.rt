//! Checkpoints of rows that streams keep (SOSP 2011, section 5.3).
use crate::partition_samples::Told;
use crate::sample_wires::{L, R, script, stopped_after};
use crate::stored_samples::{
    Seen, checkpoint, create, cut, delete, load, look, look_in_rows, put, stored, take,
};
use extent_node::Delivery;
use stamp_types::Change;
use std::alloc::Global;
use std::process::Abort;
use stored_rows::StoredRows;

pub(crate) fn made(rt: &impl Abort, alloc: Global, stored: &mut StoredRows, change: Change) {
    let mut wire = script(rt, alloc, &[], &[]);
    assert_eq!(rt; take(rt, stored, change, &mut wire), Told::Done);
}

// A container with a blob, an empty one, and one that was deleted: five changes.
fn fill(rt: &impl Abort, alloc: Global, stored: &mut StoredRows) {
    made(rt, alloc, stored, create(rt, alloc, "pics"));
    made(rt, alloc, stored, put(rt, alloc, "pics"));
    made(rt, alloc, stored, create(rt, alloc, "other"));
    made(rt, alloc, stored, create(rt, alloc, "gone"));
    made(rt, alloc, stored, delete(rt, alloc, "gone"));
}

fn is_full(rt: &impl Abort, alloc: Global, stored: &StoredRows) {
    assert_eq!(rt; look(rt, alloc, stored, "pics"), Seen::Blob(2, 5));
    assert_eq!(rt; look(rt, alloc, stored, "other"), Seen::Empty(1));
    assert_eq!(rt; look(rt, alloc, stored, "gone"), Seen::Deleted(2));
}

// Writes the rows, with so many puts.
fn write(rt: &impl Abort, alloc: Global, stored: &mut StoredRows, puts: usize) {
    let mut wire = script(rt, alloc, &[], &[]);
    assert_eq!(rt; checkpoint(rt, stored, &mut wire), Told::Done);
    assert!(rt; wire.called().len() == puts);
}

/// Loads the rows again. One node is asked for each of so many records.
pub(crate) fn reload(rt: &impl Abort, alloc: Global, stored: &mut StoredRows, asked: usize) {
    let mut wire = script(rt, alloc, &[], &[]);
    stored.unload();
    assert_eq!(rt; load(stored, &mut wire), Told::Done);
    assert!(rt; wire.called().len() == asked);
}

// The rows of three containers and of a blob, to each node. Then one change more, and the rows of a second checkpoint.
fn write_twice(rt: &impl Abort, alloc: Global, stored: &mut StoredRows) {
    fill(rt, alloc, stored);
    write(rt, alloc, stored, 12);
    is_full(rt, alloc, stored);
    reload(rt, alloc, stored, 4);
    is_full(rt, alloc, stored);
    made(rt, alloc, stored, put(rt, alloc, "other"));
    reload(rt, alloc, stored, 5);
    assert_eq!(rt; look(rt, alloc, stored, "other"), Seen::Blob(2, 5));
    write(rt, alloc, stored, 15);
    reload(rt, alloc, stored, 5);
    assert_eq!(rt; look(rt, alloc, stored, "other"), Seen::Blob(2, 5));
    assert_eq!(rt; look(rt, alloc, stored, "gone"), Seen::Deleted(2));
}

#[test]
fn a_load_after_a_checkpoint_gives_the_same_rows(rt: HostRuntime) {
    let mut stored = stored(&rt, rt.alloc());
    write_twice(&rt, rt.alloc(), &mut *stored);
}

// After a checkpoint a container that was deleted is made again, and one that has a blob is deleted.
fn change_after(rt: &impl Abort, alloc: Global, stored: &mut StoredRows) {
    fill(rt, alloc, stored);
    write(rt, alloc, stored, 12);
    made(rt, alloc, stored, create(rt, alloc, "gone"));
    made(rt, alloc, stored, delete(rt, alloc, "pics"));
    reload(rt, alloc, stored, 6);
    assert_eq!(rt; look(rt, alloc, stored, "gone"), Seen::Empty(3));
    assert_eq!(rt; look(rt, alloc, stored, "pics"), Seen::Deleted(3));
    // The rows of three containers, to each node.
    write(rt, alloc, stored, 9);
    reload(rt, alloc, stored, 3);
    assert_eq!(rt; look(rt, alloc, stored, "gone"), Seen::Empty(3));
    assert_eq!(rt; look(rt, alloc, stored, "pics"), Seen::Deleted(3));
}

#[test]
fn changes_after_a_checkpoint_are_in_the_next_one(rt: HostRuntime) {
    let mut stored = stored(&rt, rt.alloc());
    change_after(&rt, rt.alloc(), &mut *stored);
}

// A checkpoint that stops at any of its rows leaves the log and the rows.
fn stop_at_each_row(rt: &impl Abort, alloc: Global, stored: &mut StoredRows, last: Delivery) {
    fill(rt, alloc, stored);
    for rows in 0..4 {
        let puts = stopped_after(rt, alloc, rows, last);
        let mut wire = script(rt, alloc, puts.as_slice(), &[false, false, false]);
        assert_eq!(rt; checkpoint(rt, stored, &mut wire), Told::Busy);
        is_full(rt, alloc, stored);
        reload(rt, alloc, stored, 5);
        is_full(rt, alloc, stored);
    }
    write(rt, alloc, stored, 12);
    reload(rt, alloc, stored, 4);
    is_full(rt, alloc, stored);
}

#[test]
fn a_checkpoint_whose_row_is_refused_changes_nothing(rt: HostRuntime) {
    let mut stored = stored(&rt, rt.alloc());
    stop_at_each_row(&rt, rt.alloc(), &mut *stored, R);
}

#[test]
fn a_checkpoint_whose_row_is_lost_changes_nothing(rt: HostRuntime) {
    let mut stored = stored(&rt, rt.alloc());
    stop_at_each_row(&rt, rt.alloc(), &mut *stored, L);
}

// The lower half has `gone` and `other`, and the upper half has `pics`. After its checkpoint the lower half reads its own rows only, and the
// upper half reads all changes.
fn write_the_lower_half(rt: &impl Abort, alloc: Global, lower: &mut StoredRows) {
    let mut wire = script(rt, alloc, &[], &[]);
    fill(rt, alloc, lower);
    let mut upper = cut(rt, alloc, lower, "pics", &mut wire).expect(rt, "an upper half");
    write(rt, alloc, lower, 6);
    reload(rt, alloc, lower, 2);
    assert_eq!(rt; look(rt, alloc, lower, "other"), Seen::Empty(1));
    assert_eq!(rt; look(rt, alloc, lower, "gone"), Seen::Deleted(2));
    assert_eq!(rt; look_in_rows(rt, alloc, lower, "pics"), Seen::Never);
    reload(rt, alloc, &mut *upper, 5);
    assert_eq!(rt; look(rt, alloc, &*upper, "pics"), Seen::Blob(2, 5));
}

#[test]
fn a_half_writes_its_own_rows(rt: HostRuntime) {
    let mut stored = stored(&rt, rt.alloc());
    write_the_lower_half(&rt, rt.alloc(), &mut *stored);
}
