//! Bytes that are not records: records without their end or with more bytes, and other versions.

use crate::sample_records::{
    committed_blob, container_row, create_container, delete_blob, delete_container,
    delete_container_of_version_1, deleted_container_row, put_blob, put_blob_of_no_pieces,
    put_blob_of_two_pieces, put_block, put_block_list, set_acl, set_acl_with_expiries,
    set_container_metadata, set_metadata, stored_blob, uncommitted_blob,
};
use log_record::{RecordFault, read_change};
use std::alloc::Global;
use std::test::*;

pub(crate) fn fault(alloc: Global, bytes: &[u8]) -> Option<RecordFault> {
    read_change(alloc, bytes).err()
}

// Whether each part before the last byte is refused for its form.
fn are_cuts_refused(alloc: Global, record: &[u8]) -> bool {
    for end in 0..record.len() {
        if fault(alloc, &record[..end]) != Some(RecordFault::Form) {
            return false;
        }
    }
    true
}

#[test]
fn a_record_without_its_end_is_refused(rt: HostRuntime) {
    let alloc = rt.alloc();
    assert!(rt; are_cuts_refused(alloc, create_container()));
    assert!(rt; are_cuts_refused(alloc, set_container_metadata()));
    assert!(rt; are_cuts_refused(alloc, set_acl()));
    assert!(rt; are_cuts_refused(alloc, delete_container()));
    assert!(rt; are_cuts_refused(alloc, delete_container_of_version_1()));
    assert!(rt; are_cuts_refused(alloc, put_blob()));
    assert!(rt; are_cuts_refused(alloc, set_metadata()));
    assert!(rt; are_cuts_refused(alloc, delete_blob()));
    assert!(rt; are_cuts_refused(alloc, put_block()));
    assert!(rt; are_cuts_refused(alloc, put_block_list()));
    assert!(rt; are_cuts_refused(alloc, container_row()));
    assert!(rt; are_cuts_refused(alloc, stored_blob()));
}

#[test]
fn a_record_of_another_form_without_its_end_is_refused(rt: HostRuntime) {
    let alloc = rt.alloc();
    assert!(rt; are_cuts_refused(alloc, set_acl_with_expiries()));
    assert!(rt; are_cuts_refused(alloc, put_blob_of_no_pieces()));
    assert!(rt; are_cuts_refused(alloc, put_blob_of_two_pieces()));
    assert!(rt; are_cuts_refused(alloc, deleted_container_row()));
    assert!(rt; are_cuts_refused(alloc, committed_blob()));
    assert!(rt; are_cuts_refused(alloc, uncommitted_blob()));
}

#[test]
fn a_byte_after_the_last_field_is_refused(rt: HostRuntime) {
    let alloc = rt.alloc();
    let bytes = b"\x02\x04\0\0\0\0\0\0\0\x07\0\0\0\x10devstoreaccount1\0\0\0\x04pics";
    assert!(rt; bytes.as_slice() == delete_container());
    let more = b"\x02\x04\0\0\0\0\0\0\0\x07\0\0\0\x10devstoreaccount1\0\0\0\x04pics\0";
    assert!(rt; fault(alloc, more) == Some(RecordFault::Form));
    let first = b"\x01\x04\0\0\0\x10devstoreaccount1\0\0\0\x04pics";
    assert!(rt; first.as_slice() == delete_container_of_version_1());
    let more = b"\x01\x04\0\0\0\x10devstoreaccount1\0\0\0\x04pics\0";
    assert!(rt; fault(alloc, more) == Some(RecordFault::Form));
}

#[test]
fn an_epoch_that_does_not_fit_the_version_is_refused(rt: HostRuntime) {
    let alloc = rt.alloc();
    let without = b"\x02\x04\0\0\0\x10devstoreaccount1\0\0\0\x04pics";
    assert!(rt; fault(alloc, without) == Some(RecordFault::Form));
    let with = b"\x01\x04\0\0\0\0\0\0\0\x07\0\0\0\x10devstoreaccount1\0\0\0\x04pics";
    assert!(rt; fault(alloc, with) == Some(RecordFault::Form));
}

#[test]
fn another_version_is_told(rt: HostRuntime) {
    let alloc = rt.alloc();
    assert!(rt; fault(alloc, b"\x01\x04") == Some(RecordFault::Form));
    assert!(rt; fault(alloc, b"\x02\x04") == Some(RecordFault::Form));
    assert!(rt;
        fault(
            alloc,
            b"\x03\x04\0\0\0\0\0\0\0\x07\0\0\0\x10devstoreaccount1\0\0\0\x04pics"
        ) == Some(RecordFault::Version)
    );
    assert!(rt; fault(alloc, b"\x00") == Some(RecordFault::Version));
    assert!(rt; fault(alloc, b"") == Some(RecordFault::Form));
}
