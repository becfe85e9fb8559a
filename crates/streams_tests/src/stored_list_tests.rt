//! Rows of which lists are gathered: no call ends this, and both halves of a cut have it.
use crate::partition_samples::Told;
use crate::sample_wires::{R, script};
use crate::stored_samples::{
    checkpoint, create, cut, gathering, load, part, put, seal, settle, take,
};
use crate::stored_sweep_samples::{begin, end, steps};
use crate::ticket_tests::frame;
use body_forms::Draft;
use extent_node::{Delivery, Node};
use partition_stream::StreamName;
use stamp_types::Change;
use std::alloc::Global;
use std::process::Abort;
use stored_rows::StoredRows;

// Takes a change. The nodes take its blocks with these deliveries, and then give these answers.
fn takes(
    rt: &impl Abort,
    alloc: Global,
    stored: &mut StoredRows,
    change: Change,
    puts: &[Delivery],
) -> Told {
    let mut wire = script(rt, alloc, puts, &[false, false, false]);
    let told = take(rt, stored, change, &mut wire);
    assert!(rt; stored.gathers_lists());
    told
}

// A container with a blob, and a container whose record is in doubt until the settle keeps it.
fn fill(rt: &impl Abort, alloc: Global, stored: &mut StoredRows) {
    let change = create(rt, alloc, "pics");
    assert_eq!(rt; takes(rt, alloc, stored, change, &[]), Told::Done);
    let change = put(rt, alloc, "pics");
    assert_eq!(rt; takes(rt, alloc, stored, change, &[]), Told::Done);
    let change = create(rt, alloc, "other");
    let done = Delivery::Done;
    assert_eq!(rt;
        takes(rt, alloc, stored, change, &[done, R, R]),
        Told::Doubt
    );
    let mut wire = script(rt, alloc, &[], &[true, false, false]);
    assert_eq!(rt; settle(stored, &mut wire), Told::Kept);
    assert!(rt; stored.gathers_lists());
}

// Reads the blob by a part, and makes an answer.
fn read(rt: &impl Abort, alloc: Global, stored: &mut StoredRows) {
    drop(part(rt, alloc, stored, "pics", 1));
    assert!(rt; stored.gathers_lists());
    let mut wire = script(rt, alloc, &[], &[]);
    let frame = Draft::written(frame(rt, alloc));
    assert!(rt; stored.answer(frame, &[], true, &mut wire).is_ok());
    assert!(rt; stored.gathers_lists());
}

// Seals the streams, without node Two, which then gets a copy of the data.
fn seal_and_repair(rt: &impl Abort, alloc: Global, stored: &mut StoredRows) {
    let mut wire = script(rt, alloc, &[], &[true, false, false]);
    assert_eq!(rt; seal(rt, stored, &mut wire), Told::Done);
    assert!(rt; stored.gathers_lists());
    let mut wire = script(rt, alloc, &[], &[]);
    assert!(rt;
        stored
            .repair(StreamName::Blobs, 0, Node::Two, &mut wire)
            .is_ok()
    );
    // Node Zero is asked, and the block is put to node Two.
    assert_eq!(rt; wire.called().len(), 2);
    assert!(rt; stored.gathers_lists());
}

// Writes the rows anew, and then loads them again.
fn write_and_load(rt: &impl Abort, alloc: Global, stored: &mut StoredRows) {
    let mut wire = script(rt, alloc, &[], &[]);
    assert_eq!(rt; checkpoint(rt, stored, &mut wire), Told::Done);
    assert!(rt; stored.gathers_lists());
    stored.unload();
    assert!(rt; stored.gathers_lists());
    assert_eq!(rt; load(stored, &mut wire), Told::Done);
    assert!(rt; stored.gathers_lists());
}

// Begins a sweep, writes each row, ends the sweep, and cuts the rows.
fn sweep_and_cut(rt: &impl Abort, alloc: Global, stored: &mut StoredRows) {
    let mut wire = script(rt, alloc, &[], &[]);
    let _asked = begin(rt, alloc, stored);
    assert!(rt; stored.gathers_lists());
    let _steps = steps(rt, alloc, stored);
    assert!(rt; stored.gathers_lists());
    end(rt, stored);
    assert!(rt; stored.gathers_lists());
    let upper = cut(rt, alloc, stored, "pics", &mut wire).expect(rt, "a half");
    assert!(rt; stored.gathers_lists() && upper.gathers_lists());
}

#[test]
fn lists_stay_gathered_after_each_call_of_rows(rt: HostRuntime) {
    let alloc = rt.alloc();
    let mut stored = gathering(&rt, alloc);
    fill(&rt, alloc, &mut *stored);
    read(&rt, alloc, &mut *stored);
    seal_and_repair(&rt, alloc, &mut *stored);
    write_and_load(&rt, alloc, &mut *stored);
    sweep_and_cut(&rt, alloc, &mut *stored);
}
