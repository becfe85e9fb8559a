//! Sweeps of rows that streams keep, row by row, for tests.
use crate::partition_samples::Told;
use crate::sample_wires::script;
use crate::stored_checkpoint_tests::made;
use crate::stored_samples::{Seen, create, delete, is_hello, look, part, put, take, test_change};
use extent_node::Script;
use stamp_types::Change;
use std::alloc::Global;
use std::process::Abort;
use stored_rows::{Progress, StepLimit, StoredRows};

/// One row in each step.
pub(crate) const ONE: StepLimit = StepLimit {
    rows: 1,
    blocks: 2_000,
    bytes: 67_108_864,
};

/// A container with a blob that was put twice, an empty one, and one that was deleted: six changes.
pub(crate) fn fill(rt: &impl Abort, alloc: Global, stored: &mut StoredRows) {
    made(rt, alloc, stored, create(rt, alloc, "pics"));
    made(rt, alloc, stored, put(rt, alloc, "pics"));
    made(rt, alloc, stored, put(rt, alloc, "pics"));
    made(rt, alloc, stored, create(rt, alloc, "other"));
    made(rt, alloc, stored, create(rt, alloc, "gone"));
    made(rt, alloc, stored, delete(rt, alloc, "gone"));
}

pub(crate) fn is_full(rt: &impl Abort, alloc: Global, stored: &StoredRows) {
    assert_eq!(rt; look(rt, alloc, stored, "pics"), Seen::Blob(3, 5));
    assert_eq!(rt; look(rt, alloc, stored, "other"), Seen::Empty(1));
    assert_eq!(rt; look(rt, alloc, stored, "gone"), Seen::Deleted(2));
}

/// The blob is the bytes `hello`, in the last extent.
pub(crate) fn reads_hello(rt: &impl Abort, alloc: Global, stored: &mut StoredRows) {
    let part = part(rt, alloc, stored, "pics", 1);
    assert!(rt; is_hello(rt, alloc, &part, 0));
}

/// Begins a sweep. The answer is how many nodes are asked.
pub(crate) fn begin(rt: &impl Abort, alloc: Global, stored: &mut StoredRows) -> usize {
    let mut wire = script(rt, alloc, &[], &[]);
    assert!(rt; stored.is_sure());
    assert!(rt; stored.sweep_begin(&mut wire).is_ok());
    assert!(rt; stored.is_sweeping());
    wire.called().len()
}

// A step up to a limit.
fn step_upto(
    rt: &impl Abort,
    stored: &mut StoredRows,
    limit: StepLimit,
    wire: &mut Script,
) -> Progress {
    assert!(rt; stored.is_sure());
    stored.sweep_step(limit, wire).ok().expect(rt, "a step")
}

/// One row more.
pub(crate) fn step(rt: &impl Abort, stored: &mut StoredRows, wire: &mut Script) -> Progress {
    step_upto(rt, stored, ONE, wire)
}

/// So many steps, each up to a limit, before the one that finds each row written.
pub(crate) fn steps_upto(
    rt: &impl Abort,
    alloc: Global,
    stored: &mut StoredRows,
    limit: StepLimit,
) -> usize {
    let mut wire = script(rt, alloc, &[], &[]);
    for count in 0..100 {
        if step_upto(rt, stored, limit, &mut wire) == Progress::Done {
            return count;
        }
    }
    panic!(rt; "a sweep ends")
}

/// So many steps of one row until each row is written.
pub(crate) fn steps(rt: &impl Abort, alloc: Global, stored: &mut StoredRows) -> usize {
    steps_upto(rt, alloc, stored, ONE)
}

/// Touches a change, and takes it.
pub(crate) fn touch_and_take(
    rt: &impl Abort,
    alloc: Global,
    stored: &mut StoredRows,
    change: Change,
) {
    let mut wire = script(rt, alloc, &[], &[]);
    test_change(rt, stored, &change);
    assert!(rt; stored.touch(&change, &mut wire).is_ok());
    assert_eq!(rt; take(rt, stored, change, &mut wire), Told::Done);
    assert!(rt; stored.is_sweeping());
}

/// Ends a sweep that has written each row.
pub(crate) fn end(rt: &impl Abort, stored: &mut StoredRows) {
    assert!(rt; stored.is_sure());
    let given = stored.sweep_end().expect(rt, "no row is left");
    drop(given);
    assert!(rt; !stored.is_sweeping());
}

/// A whole sweep.
pub(crate) fn sweep(rt: &impl Abort, alloc: Global, stored: &mut StoredRows) {
    let _asked = begin(rt, alloc, stored);
    let _steps = steps(rt, alloc, stored);
    end(rt, stored);
}
