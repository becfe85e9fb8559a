//! Steps of a sweep: each row is written again, and what was there before is given up (SOSP 2011, section 5.3).
use crate::partition_samples::{Told, taken};
use crate::sample_acts::{delete_blob, put_block, put_block_of, put_one_block, set_metadata};
use crate::sample_fields::pieces;
use crate::sample_wires::{L, R, script, stopped_after};
use crate::stored_checkpoint_tests::{made, reload};
use crate::stored_samples::{
    Seen, change_of, create, cut, is_hello, load, look, look_in_rows, part, put, settle, stored,
};
use crate::stored_sweep_samples::{
    ONE, begin, end, fill, is_full, reads_hello, step, steps, steps_upto, sweep, touch_and_take,
};
use std::alloc::Global;
use std::process::Abort;
use stored_rows::{Progress, StepLimit, StoredRows};

fn told(answer: Result<Progress, stored_rows::TakeFault>) -> Told {
    taken(answer.map(drop))
}

fn sweep_twice(rt: &impl Abort, alloc: Global, stored: &mut StoredRows) {
    fill(rt, alloc, stored);
    for _time in 0..2 {
        let _asked = begin(rt, alloc, stored);
        assert!(rt; stored.sweep_end().is_none());
        // The four rows, and each of the three containers is left.
        assert_eq!(rt; steps(rt, alloc, stored), 4 + 3);
        is_full(rt, alloc, stored);
        end(rt, stored);
        is_full(rt, alloc, stored);
        reads_hello(rt, alloc, stored);
        // The log has the four rows, and nothing else.
        reload(rt, alloc, stored, 4);
        is_full(rt, alloc, stored);
    }
}

#[test]
fn a_sweep_leaves_the_rows_that_exist(rt: HostRuntime) {
    let mut stored = stored(&rt, rt.alloc());
    sweep_twice(&rt, rt.alloc(), &mut *stored);
}

// How many steps of this limit come before the last one. The one block, of five bytes, is that of the last row.
fn count(rt: &impl Abort, alloc: Global, rows: u32, blocks: u64, bytes: u64) -> usize {
    let mut stored = stored(rt, alloc);
    fill(rt, alloc, &mut *stored);
    let _asked = begin(rt, alloc, &mut *stored);
    let limit = StepLimit {
        rows,
        blocks,
        bytes,
    };
    steps_upto(rt, alloc, &mut *stored, limit)
}

#[test]
fn a_step_ends_at_each_limit(rt: HostRuntime) {
    assert_eq!(rt; count(&rt, rt.alloc(), 100, 2, 6), 0);
    assert_eq!(rt; count(&rt, rt.alloc(), 3, 2, 6), 2);
    assert_eq!(rt; count(&rt, rt.alloc(), 100, 1, 6), 1);
    assert_eq!(rt; count(&rt, rt.alloc(), 100, 2, 5), 1);
}

// The same, if the one block is not committed.
fn count_uncommitted(rt: &impl Abort, alloc: Global, blocks: u64, bytes: u64) -> usize {
    let mut stored = stored(rt, alloc);
    made(rt, alloc, &mut *stored, create(rt, alloc, "pics"));
    let older = put_block_of(rt, alloc, pieces(rt, alloc, b"older"));
    made(rt, alloc, &mut *stored, change_of(rt, alloc, "pics", older));
    let _asked = begin(rt, alloc, &mut *stored);
    let limit = StepLimit {
        rows: 100,
        blocks,
        bytes,
    };
    steps_upto(rt, alloc, &mut *stored, limit)
}

#[test]
fn a_step_counts_uncommitted_blocks(rt: HostRuntime) {
    assert_eq!(rt; count_uncommitted(&rt, rt.alloc(), 2, 6), 0);
    assert_eq!(rt; count_uncommitted(&rt, rt.alloc(), 1, 6), 1);
    assert_eq!(rt; count_uncommitted(&rt, rt.alloc(), 2, 5), 1);
}

// A change after each number of steps, with all that it reads touched before.
fn change_between(rt: &impl Abort, alloc: Global, stored: &mut StoredRows, count: usize) {
    fill(rt, alloc, stored);
    let _asked = begin(rt, alloc, stored);
    let mut wire = script(rt, alloc, &[], &[]);
    for _step in 0..count {
        let _progress = step(rt, stored, &mut wire);
    }
    touch_and_take(rt, alloc, stored, create(rt, alloc, "new"));
    touch_and_take(rt, alloc, stored, put(rt, alloc, "new"));
    let named = set_metadata(rt, alloc);
    touch_and_take(rt, alloc, stored, change_of(rt, alloc, "pics", named));
    touch_and_take(rt, alloc, stored, create(rt, alloc, "gone"));
    touch_and_take(rt, alloc, stored, put(rt, alloc, "gone"));
    let _more = steps(rt, alloc, stored);
    end(rt, stored);
    is_changed(rt, alloc, stored);
    stored.unload();
    assert_eq!(rt; load(stored, &mut wire), Told::Done);
    is_changed(rt, alloc, stored);
    reads_hello(rt, alloc, stored);
}

fn is_changed(rt: &impl Abort, alloc: Global, stored: &StoredRows) {
    assert_eq!(rt; look(rt, alloc, stored, "new"), Seen::Blob(2, 5));
    assert_eq!(rt; look(rt, alloc, stored, "pics"), Seen::Blob(4, 5));
    assert_eq!(rt; look(rt, alloc, stored, "other"), Seen::Empty(1));
    assert_eq!(rt; look(rt, alloc, stored, "gone"), Seen::Blob(4, 5));
}

// An uncommitted block stays through a sweep, and is committed after it.
fn sweep_a_block(rt: &impl Abort, alloc: Global, stored: &mut StoredRows) {
    made(rt, alloc, stored, create(rt, alloc, "pics"));
    let older = put_block_of(rt, alloc, pieces(rt, alloc, b"older"));
    made(rt, alloc, stored, change_of(rt, alloc, "pics", older));
    let _asked = begin(rt, alloc, stored);
    let newer = put_block(rt, alloc);
    touch_and_take(rt, alloc, stored, change_of(rt, alloc, "pics", newer));
    let _more = steps(rt, alloc, stored);
    end(rt, stored);
    assert_eq!(rt; look(rt, alloc, stored, "pics"), Seen::Empty(3));
    let list = put_one_block(rt, alloc);
    made(rt, alloc, stored, change_of(rt, alloc, "pics", list));
    assert_eq!(rt; look(rt, alloc, stored, "pics"), Seen::Blob(4, 5));
    reads_hello(rt, alloc, stored);
}

#[test]
fn a_sweep_keeps_an_uncommitted_block(rt: HostRuntime) {
    let mut stored = stored(&rt, rt.alloc());
    sweep_a_block(&rt, rt.alloc(), &mut *stored);
}

// A change whose row was not touched ends the sweep, and nothing is given up.
fn change_untouched(rt: &impl Abort, alloc: Global, stored: &mut StoredRows) {
    fill(rt, alloc, stored);
    let _asked = begin(rt, alloc, stored);
    made(rt, alloc, stored, put(rt, alloc, "pics"));
    assert!(rt; !stored.is_sweeping());
    assert!(rt; stored.sweep_end().is_none());
    reload(rt, alloc, stored, 7);
    assert_eq!(rt; look(rt, alloc, stored, "pics"), Seen::Blob(4, 5));
}

#[test]
fn a_change_that_is_not_touched_ends_a_sweep(rt: HostRuntime) {
    let mut stored = stored(&rt, rt.alloc());
    change_untouched(&rt, rt.alloc(), &mut *stored);
}

// Each block of a sweep is refused once: the step is Busy, nothing is changed, and the sweep goes on.
fn refuse_each_block(rt: &impl Abort, alloc: Global, stored: &mut StoredRows, blocks: usize) {
    fill(rt, alloc, stored);
    let _asked = begin(rt, alloc, stored);
    let puts = stopped_after(rt, alloc, blocks, R);
    let mut wire = script(rt, alloc, puts.as_slice(), &[]);
    let mut busy = 0;
    for _step in 0..20 {
        assert!(rt; stored.is_sure());
        match told(stored.sweep_step(ONE, &mut wire)) {
            Told::Busy => busy += 1,
            other => assert_eq!(rt; other, Told::Done),
        }
        is_full(rt, alloc, stored);
    }
    assert_eq!(rt; busy, 1);
    end(rt, stored);
    is_full(rt, alloc, stored);
    reads_hello(rt, alloc, stored);
    reload(rt, alloc, stored, 4);
}

#[test]
fn a_sweep_whose_block_is_refused_goes_on(rt: HostRuntime) {
    for blocks in 0..5 {
        let mut stored = stored(&rt, rt.alloc());
        refuse_each_block(&rt, rt.alloc(), &mut *stored, blocks);
    }
}

// The first row is in doubt, and then it is kept or dropped.
fn doubt_a_row(rt: &impl Abort, alloc: Global, stored: &mut StoredRows, kept: bool) {
    fill(rt, alloc, stored);
    let _asked = begin(rt, alloc, stored);
    let mut wire = script(rt, alloc, &[L, R, R], &[false, false, false]);
    assert!(rt; stored.is_sure());
    assert_eq!(rt; told(stored.sweep_step(ONE, &mut wire)), Told::Doubt);
    is_full(rt, alloc, stored);
    assert!(rt; !stored.is_sure() && !stored.has_doubt());
    // A settle leaves the row, and its end asks the nodes.
    let asks = [kept, !kept, !kept];
    let mut wire = script(rt, alloc, &[], &asks);
    assert_eq!(rt; settle(stored, &mut wire), Told::Clean);
    assert!(rt; wire.called().is_empty());
    assert!(rt; !stored.has_doubt());
    assert!(rt; stored.end_row_doubt(&mut wire).ok() == Some(true));
    is_full(rt, alloc, stored);
    let _more = steps(rt, alloc, stored);
    end(rt, stored);
    is_full(rt, alloc, stored);
    reads_hello(rt, alloc, stored);
}

#[test]
fn a_row_in_doubt_changes_nothing(rt: HostRuntime) {
    for kept in [false, true] {
        let mut stored = stored(&rt, rt.alloc());
        doubt_a_row(&rt, rt.alloc(), &mut *stored, kept);
    }
}

// A part of a blob that was made before a sweep is read after it.
fn read_later(rt: &impl Abort, alloc: Global, stored: &mut StoredRows) {
    fill(rt, alloc, stored);
    let _asked = begin(rt, alloc, stored);
    let before = part(rt, alloc, stored, "pics", 0);
    touch_and_take(
        rt,
        alloc,
        stored,
        change_of(rt, alloc, "pics", delete_blob(rt, alloc)),
    );
    let _more = steps(rt, alloc, stored);
    end(rt, stored);
    assert!(rt; is_hello(rt, alloc, &before, 1));
    assert_eq!(rt; look(rt, alloc, stored, "pics"), Seen::Empty(4));
}

#[test]
fn a_part_that_was_made_before_a_sweep_is_read_after_it(rt: HostRuntime) {
    let mut stored = stored(&rt, rt.alloc());
    read_later(&rt, rt.alloc(), &mut *stored);
}

// After so many steps of a sweep: how many rows are written, and how many records each half has once both halves have gone on and have ended it. A row
// that was written before the cut is not written again, and each half has it.
fn records_after(steps: usize) -> (usize, usize, usize) {
    match steps {
        0 => (0, 2, 2),
        1 => (1, 2, 3),
        2 => (1, 2, 3),
        3 => (2, 2, 4),
        4 => (2, 2, 4),
        5 => (3, 3, 4),
        _ => (4, 4, 4),
    }
}

// The upper half of a cut after so many steps of a sweep: both halves are sweeping.
fn cut_after(
    rt: &impl Abort,
    alloc: Global,
    lower: &mut StoredRows,
    count: usize,
) -> Box<StoredRows> {
    fill(rt, alloc, lower);
    let _asked = begin(rt, alloc, lower);
    let mut wire = script(rt, alloc, &[], &[]);
    for _step in 0..count {
        let _progress = step(rt, lower, &mut wire);
    }
    let upper = cut(rt, alloc, lower, "pics", &mut wire).expect(rt, "an upper half");
    assert!(rt; lower.is_sweeping() && upper.is_sweeping());
    upper
}

fn is_lower(rt: &impl Abort, alloc: Global, lower: &StoredRows) {
    assert_eq!(rt; look(rt, alloc, lower, "other"), Seen::Empty(1));
    assert_eq!(rt; look(rt, alloc, lower, "gone"), Seen::Deleted(2));
    assert_eq!(rt; look_in_rows(rt, alloc, lower, "pics"), Seen::Never);
}

// The rest of a sweep of one half, and how many records the half has then.
fn go_on(rt: &impl Abort, alloc: Global, half: &mut StoredRows, records: usize) {
    let _steps = steps(rt, alloc, half);
    end(rt, half);
    reload(rt, alloc, half, records);
}

// The lower half ends the sweep first. Until the upper half ends it too, the upper half has all changes of both halves, and the content before the mark.
fn end_one_by_one(rt: &impl Abort, alloc: Global, lower: &mut StoredRows, count: usize) {
    let (written, of_lower, of_upper) = records_after(count);
    let mut upper = cut_after(rt, alloc, lower, count);
    go_on(rt, alloc, lower, of_lower);
    is_lower(rt, alloc, lower);
    reload(rt, alloc, &mut *upper, 6 + written);
    assert!(rt; upper.is_sweeping());
    assert_eq!(rt; look(rt, alloc, &*upper, "pics"), Seen::Blob(3, 5));
    let before = part(rt, alloc, &mut *upper, "pics", 0);
    assert!(rt; is_hello(rt, alloc, &before, 1));
    go_on(rt, alloc, &mut *upper, of_upper);
    assert_eq!(rt; look(rt, alloc, &*upper, "pics"), Seen::Blob(3, 5));
    // If the cut came after the row of the blob was written, its content is sealed.
    let sealed = count / 6;
    let after = part(rt, alloc, &mut *upper, "pics", 1 - sealed);
    assert!(rt; is_hello(rt, alloc, &after, sealed));
    is_lower(rt, alloc, lower);
}

#[test]
fn each_half_goes_on_with_a_sweep_and_ends_it(rt: HostRuntime) {
    for count in 0..8 {
        let mut stored = stored(&rt, rt.alloc());
        end_one_by_one(&rt, rt.alloc(), &mut *stored, count);
    }
}

// A row is touched before the cut. The upper half does not know it, and a change of each half is kept.
fn change_both_halves(rt: &impl Abort, alloc: Global, lower: &mut StoredRows) {
    fill(rt, alloc, lower);
    let _asked = begin(rt, alloc, lower);
    touch_and_take(rt, alloc, lower, put(rt, alloc, "pics"));
    let mut wire = script(rt, alloc, &[], &[]);
    let mut upper = cut(rt, alloc, lower, "pics", &mut wire).expect(rt, "an upper half");
    let named = set_metadata(rt, alloc);
    touch_and_take(rt, alloc, &mut *upper, change_of(rt, alloc, "pics", named));
    touch_and_take(rt, alloc, lower, create(rt, alloc, "gone"));
    // The row of `pics` and the put, then the row of `gone` and the create, and two rows of steps.
    go_on(rt, alloc, lower, 2 + 2 + 2);
    assert_eq!(rt; look(rt, alloc, lower, "gone"), Seen::Empty(3));
    assert_eq!(rt; look(rt, alloc, lower, "other"), Seen::Empty(1));
    // The row of `pics` and the put, then both rows and the metadata, and two rows of steps.
    go_on(rt, alloc, &mut *upper, 2 + 3 + 2);
    assert_eq!(rt; look(rt, alloc, &*upper, "pics"), Seen::Blob(5, 5));
    reads_hello(rt, alloc, &mut *upper);
}

#[test]
fn changes_of_both_halves_are_kept_by_a_sweep(rt: HostRuntime) {
    let mut stored = stored(&rt, rt.alloc());
    change_both_halves(&rt, rt.alloc(), &mut *stored);
}

// The lower half has `gone` and `other`, and the upper half has `pics`, which stays in the old data.
fn sweep_the_lower_half(rt: &impl Abort, alloc: Global, lower: &mut StoredRows) {
    let mut wire = script(rt, alloc, &[], &[]);
    fill(rt, alloc, lower);
    let mut upper = cut(rt, alloc, lower, "pics", &mut wire).expect(rt, "an upper half");
    sweep(rt, alloc, lower);
    reload(rt, alloc, lower, 2);
    assert_eq!(rt; look(rt, alloc, lower, "gone"), Seen::Deleted(2));
    assert_eq!(rt; look_in_rows(rt, alloc, lower, "pics"), Seen::Never);
    reload(rt, alloc, &mut *upper, 6);
    assert_eq!(rt; look(rt, alloc, &*upper, "pics"), Seen::Blob(3, 5));
}

#[test]
fn a_half_sweeps_its_own_containers(rt: HostRuntime) {
    let mut stored = stored(&rt, rt.alloc());
    sweep_the_lower_half(&rt, rt.alloc(), &mut *stored);
}

#[test]
fn changes_between_steps_are_kept(rt: HostRuntime) {
    for count in 0..8 {
        let mut stored = stored(&rt, rt.alloc());
        change_between(&rt, rt.alloc(), &mut *stored, count);
    }
}
