//! Rows of a checkpoint: what is read from the record of a row gives this row again. The bytes are from
//! outside.

use crate::record_write_tests::{EPOCH, is_written};
use crate::sample_fields::{key, text};
use crate::sample_records::{container_row, stored_blob};
use log_record::read_change;
use row_trees::Rows;
use stamp_types::{Act, Change};
use std::alloc::Global;
use std::process::Abort;
use std::test::*;

// Makes the change of a record, which has to fit.
fn make(rt: &impl Abort, alloc: Global, rows: &mut Rows, record: &[u8]) {
    let (change, _epoch) = read_change(alloc, record).expect(rt, "a record");
    let fits = rows.fits(alloc, &change).expect(rt, "memory");
    assert!(rt; fits, "a change that does not fit");
    rows.take(alloc, change).expect(rt, "memory");
}

// A container with a blob, made of the records of their rows.
fn rows(rt: &impl Abort, alloc: Global) -> Rows {
    let mut rows = Rows::new(alloc);
    make(rt, alloc, &mut rows, container_row());
    make(rt, alloc, &mut rows, stored_blob());
    rows
}

// Whether the record of a change of the container is these bytes.
fn is_row(rt: &impl Abort, alloc: Global, act: Act, record: &[u8]) -> bool {
    let change = Change::new(key(rt, alloc), act).expect(rt, "a good change");
    is_written(rt, alloc, &change, EPOCH, record)
}

#[test]
fn a_container_gives_the_row_of_which_it_was_made(rt: HostRuntime) {
    let alloc = rt.alloc();
    let rows = rows(&rt, alloc);
    let row = rows.find(&key(&rt, alloc)).row().expect(&rt, "memory");
    assert!(rt; is_row(&rt, alloc, Act::ContainerRow(row), container_row()));
}

#[test]
fn a_blob_gives_the_row_of_which_it_was_made(rt: HostRuntime) {
    let alloc = rt.alloc();
    let rows = rows(&rt, alloc);
    let name = text(&rt, alloc, "a.txt");
    let found = rows.find(&key(&rt, alloc)).seen(&name);
    let blob = found.row().expect(&rt, "a blob");
    let row = blob.row(alloc, name).expect(&rt, "memory");
    assert!(rt; is_row(&rt, alloc, Act::StoredBlob(row), stored_blob()));
}

#[test]
fn a_container_that_never_was_has_no_record(rt: HostRuntime) {
    let alloc = rt.alloc();
    let row = Rows::new(alloc).find(&key(&rt, alloc)).row();
    let act = Act::ContainerRow(row.expect(&rt, "memory"));
    assert!(rt; Change::new(key(&rt, alloc), act).map(drop).is_none());
}
