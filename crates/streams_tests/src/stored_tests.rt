//! Rows that are kept in streams: taken, thrown away, loaded, settled, sealed and cut (SOSP 2011, section 5).
use crate::partition_samples::Told;
use crate::sample_wires::{D, L, R, script};
use crate::stored_samples::{
    Seen, create, cut, delete, is_hello, key, load, look, look_in_rows, part, put, seal, settle,
    stored, take, unload_and_take,
};
use extent_node::Delivery;
use std::alloc::Global;
use std::process::Abort;
use stored_rows::StoredRows;

// Creates the container of this name.
fn make(rt: &impl Abort, alloc: Global, stored: &mut StoredRows, name: &str) {
    let mut wire = script(rt, alloc, &[], &[]);
    let change = create(rt, alloc, name);
    assert_eq!(rt; take(rt, stored, change, &mut wire), Told::Done);
    // The record of the log, to each node.
    assert!(rt; wire.called().len() == 3);
}

// Creates the container of this name, and puts the blob into it.
fn fill(rt: &impl Abort, alloc: Global, stored: &mut StoredRows, name: &str) {
    make(rt, alloc, stored, name);
    let mut wire = script(rt, alloc, &[], &[]);
    let change = put(rt, alloc, name);
    assert_eq!(rt; take(rt, stored, change, &mut wire), Told::Done);
    // The content and the record of the log, to each node.
    assert!(rt; wire.called().len() == 6);
}

// Loads the rows. So many nodes are asked.
fn reload(rt: &impl Abort, alloc: Global, stored: &mut StoredRows, asked: usize) {
    let mut wire = script(rt, alloc, &[], &[]);
    assert_eq!(rt; load(stored, &mut wire), Told::Done);
    assert!(rt; wire.called().len() == asked);
    assert!(rt; stored.is_loaded());
}

fn begin(rt: &impl Abort, alloc: Global, stored: &StoredRows) {
    assert!(rt; stored.is_loaded());
    assert!(rt; stored.is_sure());
    assert!(rt; !stored.covers(&key(rt, alloc, "bba")));
    assert!(rt; stored.covers(&key(rt, alloc, "bbb")));
    assert!(rt; stored.covers(&key(rt, alloc, "zzz")));
    assert_eq!(rt; look(rt, alloc, stored, "bbb"), Seen::Never);
    assert_eq!(rt; look_in_rows(rt, alloc, stored, "bbb"), Seen::Never);
}

#[test]
fn rows_begin_without_a_container(rt: HostRuntime) {
    let stored = stored(&rt, rt.alloc());
    begin(&rt, rt.alloc(), &*stored);
}

fn take_three(rt: &impl Abort, alloc: Global, stored: &mut StoredRows) {
    fill(rt, alloc, stored, "pics");
    assert_eq!(rt; look(rt, alloc, stored, "pics"), Seen::Blob(2, 5));
    assert_eq!(rt; look_in_rows(rt, alloc, stored, "pics"), Seen::Blob(2, 5));
    let mut wire = script(rt, alloc, &[], &[]);
    let change = delete(rt, alloc, "pics");
    assert_eq!(rt; take(rt, stored, change, &mut wire), Told::Done);
    assert_eq!(rt; look(rt, alloc, stored, "pics"), Seen::Deleted(3));
    assert_eq!(rt; look(rt, alloc, stored, "other"), Seen::Never);
}

#[test]
fn changes_are_made_one_after_the_other(rt: HostRuntime) {
    let mut stored = stored(&rt, rt.alloc());
    take_three(&rt, rt.alloc(), &mut *stored);
}

fn unload_and_load(rt: &impl Abort, alloc: Global, stored: &mut StoredRows) {
    fill(rt, alloc, stored, "pics");
    make(rt, alloc, stored, "other");
    stored.unload();
    assert!(rt; !stored.is_loaded());
    assert!(rt; stored.rows().is_none());
    // One node is asked for each of the three records.
    reload(rt, alloc, stored, 3);
    reload(rt, alloc, stored, 0);
    assert_eq!(rt; look(rt, alloc, stored, "pics"), Seen::Blob(2, 5));
    assert_eq!(rt; look(rt, alloc, stored, "other"), Seen::Empty(1));
    let part = part(rt, alloc, stored, "pics", 1);
    assert!(rt; is_hello(rt, alloc, &part, 0));
}

#[test]
fn a_load_gives_the_same_containers(rt: HostRuntime) {
    let mut stored = stored(&rt, rt.alloc());
    unload_and_load(&rt, rt.alloc(), &mut *stored);
}

fn take_without_rows(rt: &impl Abort, alloc: Global, stored: &mut StoredRows) {
    make(rt, alloc, stored, "pics");
    let mut wire = script(rt, alloc, &[], &[]);
    let change = put(rt, alloc, "pics");
    assert_eq!(rt; unload_and_take(rt, stored, change, &mut wire), Told::Done);
    assert!(rt; !stored.is_loaded());
    reload(rt, alloc, stored, 2);
    assert_eq!(rt; look(rt, alloc, stored, "pics"), Seen::Blob(2, 5));
}

#[test]
fn a_change_is_taken_without_rows(rt: HostRuntime) {
    let mut stored = stored(&rt, rt.alloc());
    take_without_rows(&rt, rt.alloc(), &mut *stored);
}

// The put of a blob whose record node 0 took, node 1 took without an answer, and node 2 refused. No node says then what it has. The
// settle after it hears these answers of the nodes, and ends so.
fn doubt(rt: &impl Abort, alloc: Global, stored: &mut StoredRows, answers: [bool; 3], end: Told) {
    make(rt, alloc, stored, "pics");
    let [zero, one, two] = answers;
    let asks = [false, false, false, false, false, false, zero, one, two];
    let mut wire = script(rt, alloc, &[D, D, D, D, L, R], &asks);
    let change = put(rt, alloc, "pics");
    assert_eq!(rt; take(rt, stored, change, &mut wire), Told::Doubt);
    assert!(rt; stored.has_doubt());
    assert_eq!(rt; look(rt, alloc, stored, "pics"), Seen::Empty(1));
    assert_eq!(rt; settle(stored, &mut wire), Told::Busy);
    assert!(rt; stored.has_doubt());
    assert_eq!(rt; look(rt, alloc, stored, "pics"), Seen::Empty(1));
    assert_eq!(rt; settle(stored, &mut wire), end);
    assert!(rt; stored.is_sure());
    assert_eq!(rt; settle(stored, &mut wire), Told::Clean);
}

fn keep_a_doubt(rt: &impl Abort, alloc: Global, stored: &mut StoredRows) {
    doubt(rt, alloc, stored, [false, true, false], Told::Kept);
    assert_eq!(rt; look(rt, alloc, stored, "pics"), Seen::Blob(2, 5));
    let held = part(rt, alloc, stored, "pics", 1);
    assert!(rt; is_hello(rt, alloc, &held, 0));
    stored.unload();
    reload(rt, alloc, stored, 2);
    assert_eq!(rt; look(rt, alloc, stored, "pics"), Seen::Blob(2, 5));
}

#[test]
fn a_doubt_is_kept_whole(rt: HostRuntime) {
    let mut stored = stored(&rt, rt.alloc());
    keep_a_doubt(&rt, rt.alloc(), &mut *stored);
}

fn drop_a_doubt(rt: &impl Abort, alloc: Global, stored: &mut StoredRows) {
    doubt(rt, alloc, stored, [false, false, true], Told::Dropped);
    assert_eq!(rt; look(rt, alloc, stored, "pics"), Seen::Empty(1));
    stored.unload();
    reload(rt, alloc, stored, 1);
    assert_eq!(rt; look(rt, alloc, stored, "pics"), Seen::Empty(1));
}

#[test]
fn a_doubt_is_dropped_whole(rt: HostRuntime) {
    let mut stored = stored(&rt, rt.alloc());
    drop_a_doubt(&rt, rt.alloc(), &mut *stored);
}

fn unload_a_doubt(rt: &impl Abort, alloc: Global, stored: &mut StoredRows) {
    let asks = [false, false, false, true, false, false];
    let mut wire = script(rt, alloc, &[D, R, R], &asks);
    let change = create(rt, alloc, "pics");
    assert_eq!(rt; unload_and_take(rt, stored, change, &mut wire), Told::Doubt);
    assert!(rt; stored.has_doubt());
    assert_eq!(rt; settle(stored, &mut wire), Told::Kept);
    assert!(rt; !stored.is_loaded());
    reload(rt, alloc, stored, 1);
    assert_eq!(rt; look(rt, alloc, stored, "pics"), Seen::Empty(1));
}

#[test]
fn a_doubt_is_settled_without_rows(rt: HostRuntime) {
    let mut stored = stored(&rt, rt.alloc());
    unload_a_doubt(&rt, rt.alloc(), &mut *stored);
}

const DOWN: [Delivery; 6] = [R, R, R, R, R, R];

const NO: [bool; 3] = [false, false, false];

fn fail(rt: &impl Abort, alloc: Global, stored: &mut StoredRows) {
    fill(rt, alloc, stored, "pics");
    let mut wire = script(rt, alloc, &DOWN, &NO);
    let change = put(rt, alloc, "pics");
    assert_eq!(rt; take(rt, stored, change, &mut wire), Told::Busy);
    let mut wire = script(rt, alloc, &[], &NO);
    assert_eq!(rt; seal(rt, stored, &mut wire), Told::Busy);
    let mut wire = script(rt, alloc, &[], &NO);
    assert!(rt; cut(rt, alloc, stored, "pics", &mut wire).is_none());
    assert!(rt; stored.is_loaded());
    assert!(rt; stored.is_sure());
    assert!(rt; stored.covers(&key(rt, alloc, "bbb")));
    assert_eq!(rt; look(rt, alloc, stored, "pics"), Seen::Blob(2, 5));
    stored.unload();
    let mut wire = script(rt, alloc, &[], &NO);
    assert_eq!(rt; load(stored, &mut wire), Told::Busy);
    assert!(rt; !stored.is_loaded());
    reload(rt, alloc, stored, 2);
    assert_eq!(rt; look(rt, alloc, stored, "pics"), Seen::Blob(2, 5));
}

#[test]
fn nodes_that_are_down_leave_all_as_it_was(rt: HostRuntime) {
    let mut stored = stored(&rt, rt.alloc());
    fail(&rt, rt.alloc(), &mut *stored);
}

fn seal_all(rt: &impl Abort, alloc: Global, stored: &mut StoredRows) {
    let mut wire = script(rt, alloc, &[], &[]);
    assert_eq!(rt; seal(rt, stored, &mut wire), Told::Done);
    assert!(rt; wire.called().len() == 0);
    fill(rt, alloc, stored, "pics");
    assert_eq!(rt; seal(rt, stored, &mut wire), Told::Done);
    // Each node is asked once for the log, and once for the data.
    assert!(rt; wire.called().len() == 6);
    assert_eq!(rt; look(rt, alloc, stored, "pics"), Seen::Blob(2, 5));
}

#[test]
fn a_seal_leaves_each_container(rt: HostRuntime) {
    let mut stored = stored(&rt, rt.alloc());
    seal_all(&rt, rt.alloc(), &mut *stored);
}

#[test]
fn content_that_is_sealed_is_read_without_the_rows(rt: HostRuntime) {
    let mut stored = stored(&rt, rt.alloc());
    seal_all(&rt, rt.alloc(), &mut *stored);
    let part = part(&rt, rt.alloc(), &mut *stored, "pics", 0);
    drop(stored);
    assert!(rt; is_hello(&rt, rt.alloc(), &part, 1));
}

// Two containers before the cut, and two after it.
fn fill_four(rt: &impl Abort, alloc: Global, stored: &mut StoredRows) {
    make(rt, alloc, stored, "bbb");
    fill(rt, alloc, stored, "low");
    fill(rt, alloc, stored, "middle");
    make(rt, alloc, stored, "top");
}

// The half covers its own containers and has them so. It covers no other, and has none of them.
fn has_own(
    rt: &impl Abort,
    alloc: Global,
    half: &StoredRows,
    own: &[(&str, Seen)],
    other: &[&str],
) {
    for (name, wanted) in own {
        assert_eq!(rt; look(rt, alloc, half, name), *wanted);
    }
    for name in other {
        assert!(rt; !half.covers(&key(rt, alloc, name)));
        assert_eq!(rt; look_in_rows(rt, alloc, half, name), Seen::Never);
    }
}

fn are_halves(rt: &impl Abort, alloc: Global, lower: &StoredRows, upper: &StoredRows) {
    let low = [("bbb", Seen::Empty(1)), ("low", Seen::Blob(2, 5))];
    let high = [("middle", Seen::Blob(2, 5)), ("top", Seen::Empty(1))];
    has_own(rt, alloc, lower, &low, &["middle", "top"]);
    has_own(rt, alloc, upper, &high, &["bbb", "low"]);
}

fn reads_hello(rt: &impl Abort, alloc: Global, stored: &mut StoredRows, name: &str) -> bool {
    let part = part(rt, alloc, stored, name, 0);
    is_hello(rt, alloc, &part, 1)
}

// The halves are those of the cut, and go on apart.
fn go_on(rt: &impl Abort, alloc: Global, lower: &mut StoredRows, upper: &mut StoredRows) {
    are_halves(rt, alloc, lower, upper);
    assert!(rt; reads_hello(rt, alloc, lower, "low"));
    assert!(rt; reads_hello(rt, alloc, upper, "middle"));
    make(rt, alloc, lower, "ccc");
    fill(rt, alloc, upper, "zzz");
    lower.unload();
    upper.unload();
    // The six changes from before the cut, and those of the half.
    reload(rt, alloc, lower, 7);
    reload(rt, alloc, upper, 8);
    are_halves(rt, alloc, lower, upper);
    assert_eq!(rt; look(rt, alloc, lower, "ccc"), Seen::Empty(1));
    assert_eq!(rt; look(rt, alloc, upper, "zzz"), Seen::Blob(2, 5));
}

fn cut_loaded(rt: &impl Abort, alloc: Global, stored: &mut StoredRows) {
    fill_four(rt, alloc, stored);
    let mut wire = script(rt, alloc, &[], &[]);
    assert!(rt; stored.end().is_none());
    let mut upper = cut(rt, alloc, stored, "middle", &mut wire).expect(rt, "a half");
    assert!(rt; stored.is_loaded() && upper.is_loaded());
    assert!(rt; stored.end() == Some(&key(rt, alloc, "middle")) && upper.end().is_none());
    go_on(rt, alloc, stored, &mut *upper);
}

#[test]
fn a_cut_puts_each_container_on_one_side(rt: HostRuntime) {
    let mut stored = stored(&rt, rt.alloc());
    cut_loaded(&rt, rt.alloc(), &mut *stored);
}

fn cut_unloaded(rt: &impl Abort, alloc: Global, stored: &mut StoredRows) {
    fill_four(rt, alloc, stored);
    stored.unload();
    let mut wire = script(rt, alloc, &[], &[]);
    let mut upper = cut(rt, alloc, stored, "middle", &mut wire).expect(rt, "a half");
    assert!(rt; !stored.is_loaded() && !upper.is_loaded());
    reload(rt, alloc, stored, 6);
    reload(rt, alloc, &mut *upper, 6);
    go_on(rt, alloc, stored, &mut *upper);
}

#[test]
fn halves_of_rows_that_are_not_loaded_are_loaded_later(rt: HostRuntime) {
    let mut stored = stored(&rt, rt.alloc());
    cut_unloaded(&rt, rt.alloc(), &mut *stored);
}
