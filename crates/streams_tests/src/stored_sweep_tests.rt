//! Sweeps of rows that streams keep: how they begin, and what ends one before each row is written again (SOSP 2011, section 5.3).
use crate::partition_samples::Told;
use crate::sample_wires::script;
use crate::stored_checkpoint_tests::{made, reload};
use crate::stored_samples::{
    Seen, checkpoint, create, cut, is_hello, look, part, put, stored, unload_and_take,
};
use crate::stored_sweep_samples::{begin, fill, is_full};
use std::alloc::Global;
use std::process::Abort;
use stored_rows::{StoredFault, StoredRows};

// A sweep that has rows left does not end.
fn goes_on(rt: &impl Abort, stored: &mut StoredRows) {
    assert!(rt; stored.is_sure());
    assert!(rt; stored.sweep_end().is_none());
    assert!(rt; stored.is_sweeping());
}

// Fills the rows, and begins a sweep: each node is asked for the log and for the data.
fn fill_and_begin(rt: &impl Abort, alloc: Global, stored: &mut StoredRows) {
    fill(rt, alloc, stored);
    assert_eq!(rt; begin(rt, alloc, stored), 6);
}

fn seal_and_mark(rt: &impl Abort, alloc: Global, stored: &mut StoredRows) {
    fill_and_begin(rt, alloc, stored);
    is_full(rt, alloc, stored);
    goes_on(rt, stored);
    // The content is sealed, so it is read later.
    let part = part(rt, alloc, stored, "pics", 0);
    assert!(rt; is_hello(rt, alloc, &part, 1));
    assert_eq!(rt; begin(rt, alloc, stored), 0);
    goes_on(rt, stored);
    reload(rt, alloc, stored, 6);
    is_full(rt, alloc, stored);
}

#[test]
fn a_sweep_begins_with_a_seal_and_goes_on_until_no_row_is_left(rt: HostRuntime) {
    let mut stored = stored(&rt, rt.alloc());
    seal_and_mark(&rt, rt.alloc(), &mut *stored);
}

fn begin_without_a_node(rt: &impl Abort, alloc: Global, stored: &mut StoredRows) {
    fill(rt, alloc, stored);
    assert!(rt; stored.is_sure());
    let mut wire = script(rt, alloc, &[], &[false, false, false]);
    let begun = stored.sweep_begin(&mut wire);
    assert!(rt; matches!(begun, Err(StoredFault::Busy)));
    assert!(rt; !stored.is_sweeping());
    is_full(rt, alloc, stored);
}

#[test]
fn a_sweep_whose_seal_no_node_answers_does_not_begin(rt: HostRuntime) {
    let mut stored = stored(&rt, rt.alloc());
    begin_without_a_node(&rt, rt.alloc(), &mut *stored);
}

// A container that is new has no row that could be lost, so a change of it lets the sweep go on.
fn change_untouched(rt: &impl Abort, alloc: Global, stored: &mut StoredRows) {
    fill_and_begin(rt, alloc, stored);
    made(rt, alloc, stored, create(rt, alloc, "new"));
    goes_on(rt, stored);
    made(rt, alloc, stored, put(rt, alloc, "pics"));
    assert!(rt; !stored.is_sweeping());
    assert!(rt; stored.is_sure());
    assert!(rt; stored.sweep_end().is_none());
    reload(rt, alloc, stored, 8);
    assert_eq!(rt; look(rt, alloc, stored, "pics"), Seen::Blob(4, 5));
}

#[test]
fn a_change_of_a_row_that_is_not_written_again_ends_a_sweep(rt: HostRuntime) {
    let mut stored = stored(&rt, rt.alloc());
    change_untouched(&rt, rt.alloc(), &mut *stored);
}

fn change_unloaded(rt: &impl Abort, alloc: Global, stored: &mut StoredRows) {
    fill_and_begin(rt, alloc, stored);
    let mut wire = script(rt, alloc, &[], &[]);
    let change = create(rt, alloc, "new");
    assert_eq!(rt; unload_and_take(rt, stored, change, &mut wire), Told::Done);
    assert!(rt; !stored.is_sweeping());
}

#[test]
fn a_change_without_rows_ends_a_sweep(rt: HostRuntime) {
    let mut stored = stored(&rt, rt.alloc());
    change_unloaded(&rt, rt.alloc(), &mut *stored);
}

fn write_anew(rt: &impl Abort, alloc: Global, stored: &mut StoredRows) {
    let mut wire = script(rt, alloc, &[], &[]);
    fill_and_begin(rt, alloc, stored);
    assert_eq!(rt; checkpoint(rt, stored, &mut wire), Told::Done);
    assert!(rt; !stored.is_sweeping());
    is_full(rt, alloc, stored);
    // Since the seal no block was put into the log or the data, so each node is asked for the new rows alone.
    assert_eq!(rt; begin(rt, alloc, stored), 3);
}

#[test]
fn a_checkpoint_ends_a_sweep(rt: HostRuntime) {
    let mut stored = stored(&rt, rt.alloc());
    write_anew(&rt, rt.alloc(), &mut *stored);
}

// A sweep that has written no row goes on in both halves of a cut, and in the halves of a half.
fn cut_under_way(rt: &impl Abort, alloc: Global, lower: &mut StoredRows) {
    fill_and_begin(rt, alloc, lower);
    let mut wire = script(rt, alloc, &[], &[]);
    let mut middle = cut(rt, alloc, lower, "other", &mut wire).expect(rt, "an upper half");
    let mut upper = cut(rt, alloc, &mut *middle, "pics", &mut wire).expect(rt, "an upper half");
    // Since the seal no block was put.
    assert!(rt; wire.called().is_empty());
    goes_on(rt, lower);
    goes_on(rt, &mut *middle);
    goes_on(rt, &mut *upper);
}

#[test]
fn a_sweep_goes_on_in_both_halves_of_a_cut(rt: HostRuntime) {
    let mut stored = stored(&rt, rt.alloc());
    cut_under_way(&rt, rt.alloc(), &mut *stored);
}

fn cut_at_rest(rt: &impl Abort, alloc: Global, stored: &mut StoredRows) {
    fill(rt, alloc, stored);
    let mut wire = script(rt, alloc, &[], &[]);
    let upper = cut(rt, alloc, stored, "pics", &mut wire).expect(rt, "an upper half");
    assert!(rt; !stored.is_sweeping() && !upper.is_sweeping());
}

#[test]
fn a_cut_begins_no_sweep(rt: HostRuntime) {
    let mut stored = stored(&rt, rt.alloc());
    cut_at_rest(&rt, rt.alloc(), &mut *stored);
}
