//! Records of the samples with one byte changed: which of them are records is from outside.

use crate::record_read_tests::fault;
use crate::record_write_tests::{in_version_1, is_written};
use crate::{record_values as values, sample_records as records};
use log_record::{RecordFault, read_change, write_change};
use std::alloc::Global;
use std::ops::Range;
use std::process::Abort;
use std::test::*;

// The place at which the lists of blocks begin in the record of the row of a blob. That record is the longest:
// two tests share its places, so that neither test is slow.
const BLOCKS: usize = 152;

// Whether a row of the table has this value at this place.
fn has_value(rows: &[[u8; 4]], at: usize, value: u8) -> bool {
    for row in rows {
        let [first, last, least, most] = *row;
        if (usize::from(first)..=usize::from(last)).contains(&at)
            && (least..=most).contains(&value)
        {
            return true;
        }
    }
    false
}

// What a record with this value at this place is refused with, if no row of the table has the value.
fn fault_at(at: usize, value: u8) -> RecordFault {
    if at == 0 && value != 1 && value != 2 {
        RecordFault::Version
    } else {
        RecordFault::Form
    }
}

// Whether a record is the record of the change and of the epoch that are read of it. Of a record of version 1 the
// change is written in version 2, with the epoch 0.
fn is_written_again(rt: &impl Abort, alloc: Global, record: &[u8]) -> bool {
    let (change, epoch) = read_change(alloc, record).expect(rt, "a record");
    if record.starts_with(&[2]) {
        return is_written(rt, alloc, &change, epoch, record);
    }
    let written = write_change(alloc, &change, 0).expect(rt, "memory");
    epoch == 0 && in_version_1(rt, alloc, &written).as_slice() == record
}

// Whether the bytes, which have this value at this place, are judged as the table says.
fn is_value_judged(
    rt: &impl Abort,
    alloc: Global,
    bytes: &[u8],
    rows: &[[u8; 4]],
    at: usize,
    value: u8,
) -> bool {
    if has_value(rows, at, value) {
        is_written_again(rt, alloc, bytes)
    } else {
        fault(alloc, bytes) == Some(fault_at(at, value))
    }
}

// Whether the record with each value at one place is judged as the table says.
fn is_byte_judged(
    rt: &impl Abort,
    alloc: Global,
    record: &[u8],
    rows: &[[u8; 4]],
    at: usize,
) -> bool {
    let mut changed = record.to_vec(alloc).expect(rt, "memory");
    for value in 0..=u8::MAX {
        if let Some(byte) = changed.get_mut(at) {
            *byte = value;
        }
        if !is_value_judged(rt, alloc, &changed, rows, at, value) {
            return false;
        }
    }
    true
}

// Whether the record with each value at each of these places is judged as the table says.
fn are_bytes_judged(
    rt: &impl Abort,
    alloc: Global,
    record: &[u8],
    rows: &[[u8; 4]],
    places: Range<usize>,
) -> bool {
    for at in places {
        if !is_byte_judged(rt, alloc, record, rows, at) {
            return false;
        }
    }
    true
}

// Whether the record with each value at each of its places is judged as the table says.
fn is_judged(rt: &impl Abort, alloc: Global, record: &[u8], rows: &[[u8; 4]]) -> bool {
    are_bytes_judged(rt, alloc, record, rows, 0..record.len())
}

#[test]
fn other_bytes_of_changes_of_containers_are_judged(rt: HostRuntime) {
    let alloc = rt.alloc();
    assert!(rt;
        is_judged(
            &rt,
            alloc,
            records::create_container(),
            values::create_container()
        )
    );
    assert!(rt;
        is_judged(
            &rt,
            alloc,
            records::set_container_metadata(),
            values::set_container_metadata()
        )
    );
    assert!(rt; is_judged(&rt, alloc, records::set_acl(), values::set_acl()));
    assert!(rt;
        is_judged(
            &rt,
            alloc,
            records::delete_container(),
            values::delete_container()
        )
    );
}

#[test]
fn other_bytes_of_a_record_of_version_1_are_judged(rt: HostRuntime) {
    let record = records::delete_container_of_version_1();
    let rows = values::delete_container_of_version_1();
    assert!(rt; is_judged(&rt, rt.alloc(), record, rows));
}

#[test]
fn other_bytes_of_put_blobs_are_judged(rt: HostRuntime) {
    let alloc = rt.alloc();
    assert!(rt; is_judged(&rt, alloc, records::put_blob(), values::put_blob()));
}

#[test]
fn other_bytes_of_changes_of_blobs_are_judged(rt: HostRuntime) {
    let alloc = rt.alloc();
    assert!(rt; is_judged(&rt, alloc, records::set_metadata(), values::set_metadata()));
    assert!(rt; is_judged(&rt, alloc, records::delete_blob(), values::delete_blob()));
    assert!(rt; is_judged(&rt, alloc, records::put_block(), values::put_block()));
    assert!(rt;
        is_judged(
            &rt,
            alloc,
            records::put_block_list(),
            values::put_block_list()
        )
    );
}

#[test]
fn other_bytes_of_rows_of_containers_are_judged(rt: HostRuntime) {
    let alloc = rt.alloc();
    assert!(rt;
        is_judged(
            &rt,
            alloc,
            records::container_row(),
            values::container_row()
        )
    );
}

#[test]
fn other_bytes_of_rows_of_blobs_are_judged_before_the_blocks(rt: HostRuntime) {
    let (record, rows) = (records::stored_blob(), values::stored_blob());
    assert!(rt; are_bytes_judged(&rt, rt.alloc(), record, rows, 0..BLOCKS));
}

#[test]
fn other_bytes_of_blocks_in_rows_of_blobs_are_judged(rt: HostRuntime) {
    let (record, rows) = (records::stored_blob(), values::stored_blob());
    assert!(rt; are_bytes_judged(&rt, rt.alloc(), record, rows, BLOCKS..record.len()));
}
