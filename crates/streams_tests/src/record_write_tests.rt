//! That changes of each kind are written as their records with their epochs, and that the records are read as
//! these changes, in both versions. The bytes are from outside.

use crate::sample_fields::key;
use crate::{sample_acts, sample_records};
use log_record::{read_change, write_change};
use stamp_types::{Act, Change};
use std::alloc::Global;
use std::process::Abort;
use std::test::*;

fn change(rt: &impl Abort, alloc: Global, act: Act) -> Change {
    Change::new(key(rt, alloc), act).expect(rt, "a good change")
}

/// The epoch of the samples.
pub(crate) const EPOCH: u64 = 7;

/// Whether the record of the change and of the epoch is these bytes.
pub(crate) fn is_written(
    rt: &impl Abort,
    alloc: Global,
    change: &Change,
    epoch: u64,
    record: &[u8],
) -> bool {
    let written = write_change(alloc, change, epoch).expect(rt, "memory");
    written.as_slice() == record
}

fn is_read(rt: &impl Abort, alloc: Global, change: &Change, epoch: u64, record: &[u8]) -> bool {
    let (read, number) = read_change(alloc, record).expect(rt, "a record");
    number == epoch && read.same(change)
}

/// The record of the same change in version 1: without the eight bytes of the epoch.
pub(crate) fn in_version_1(rt: &impl Abort, alloc: Global, record: &[u8]) -> Vec<u8> {
    assert!(rt; record.len() >= 10);
    let mut first = Vec::new(alloc);
    first.push(1).expect(rt, "memory");
    first.extend_from_slice(&record[1..2]).expect(rt, "memory");
    first.extend_from_slice(&record[10..]).expect(rt, "memory");
    first
}

// Whether the change is written as the record and read again, and whether the record of version 1 is read as the
// change with the epoch 0.
fn both_ways(rt: &impl Abort, alloc: Global, act: Act, record: &[u8]) -> bool {
    let change = change(rt, alloc, act);
    let first = in_version_1(rt, alloc, record);
    is_written(rt, alloc, &change, EPOCH, record)
        && is_read(rt, alloc, &change, EPOCH, record)
        && is_read(rt, alloc, &change, 0, &first)
}

#[test]
fn a_deleted_container_is_written_and_read(rt: HostRuntime) {
    let alloc = rt.alloc();
    assert!(rt;
        both_ways(
            &rt,
            alloc,
            Act::DeleteContainer,
            sample_records::delete_container()
        )
    );
}

#[test]
fn a_record_of_version_1_is_read(rt: HostRuntime) {
    let alloc = rt.alloc();
    let record = sample_records::delete_container_of_version_1();
    assert!(rt; in_version_1(&rt, alloc, sample_records::delete_container()).as_slice() == record);
    let change = change(&rt, alloc, Act::DeleteContainer);
    assert!(rt; is_read(&rt, alloc, &change, 0, record));
}

#[test]
fn a_long_epoch_is_written_and_read(rt: HostRuntime) {
    let alloc = rt.alloc();
    let record = sample_records::delete_container_of_a_long_epoch();
    let change = change(&rt, alloc, Act::DeleteContainer);
    assert!(rt; is_written(&rt, alloc, &change, 0x0102_0304_0506_0708, record));
    assert!(rt; is_read(&rt, alloc, &change, 0x0102_0304_0506_0708, record));
}

#[test]
fn a_created_container_is_written_and_read(rt: HostRuntime) {
    let act = sample_acts::create_container(&rt, rt.alloc());
    assert!(rt; both_ways(&rt, rt.alloc(), act, sample_records::create_container()));
}

#[test]
fn metadata_of_a_container_is_written_and_read(rt: HostRuntime) {
    let act = sample_acts::set_container_metadata(&rt, rt.alloc());
    assert!(rt;
        both_ways(
            &rt,
            rt.alloc(),
            act,
            sample_records::set_container_metadata()
        )
    );
}

#[test]
fn access_of_a_container_is_written_and_read(rt: HostRuntime) {
    let act = sample_acts::set_acl(&rt, rt.alloc());
    assert!(rt; both_ways(&rt, rt.alloc(), act, sample_records::set_acl()));
}

#[test]
fn a_put_blob_is_written_and_read(rt: HostRuntime) {
    let act = sample_acts::put_blob(&rt, rt.alloc());
    assert!(rt; both_ways(&rt, rt.alloc(), act, sample_records::put_blob()));
}

#[test]
fn metadata_of_a_blob_is_written_and_read(rt: HostRuntime) {
    let act = sample_acts::set_metadata(&rt, rt.alloc());
    assert!(rt; both_ways(&rt, rt.alloc(), act, sample_records::set_metadata()));
}

#[test]
fn a_deleted_blob_is_written_and_read(rt: HostRuntime) {
    let act = sample_acts::delete_blob(&rt, rt.alloc());
    assert!(rt; both_ways(&rt, rt.alloc(), act, sample_records::delete_blob()));
}

#[test]
fn a_put_block_is_written_and_read(rt: HostRuntime) {
    let act = sample_acts::put_block(&rt, rt.alloc());
    assert!(rt; both_ways(&rt, rt.alloc(), act, sample_records::put_block()));
}

#[test]
fn a_put_block_list_is_written_and_read(rt: HostRuntime) {
    let act = sample_acts::put_block_list(&rt, rt.alloc());
    assert!(rt; both_ways(&rt, rt.alloc(), act, sample_records::put_block_list()));
}

#[test]
fn a_row_of_a_container_is_written_and_read(rt: HostRuntime) {
    let act = sample_acts::container_row(&rt, rt.alloc());
    assert!(rt; both_ways(&rt, rt.alloc(), act, sample_records::container_row()));
}

#[test]
fn a_row_of_a_blob_is_written_and_read(rt: HostRuntime) {
    let act = sample_acts::stored_blob(&rt, rt.alloc());
    assert!(rt; both_ways(&rt, rt.alloc(), act, sample_records::stored_blob()));
}

#[test]
fn a_policy_with_an_expiry_is_written_and_read(rt: HostRuntime) {
    let act = sample_acts::set_acl_with_expiries(&rt, rt.alloc());
    assert!(rt;
        both_ways(
            &rt,
            rt.alloc(),
            act,
            sample_records::set_acl_with_expiries()
        )
    );
}

#[test]
fn content_of_no_pieces_is_written_and_read(rt: HostRuntime) {
    let act = sample_acts::put_blob_of_no_pieces(&rt, rt.alloc());
    assert!(rt;
        both_ways(
            &rt,
            rt.alloc(),
            act,
            sample_records::put_blob_of_no_pieces()
        )
    );
}

#[test]
fn content_of_two_pieces_is_written_and_read(rt: HostRuntime) {
    let act = sample_acts::put_blob_of_two_pieces(&rt, rt.alloc());
    assert!(rt;
        both_ways(
            &rt,
            rt.alloc(),
            act,
            sample_records::put_blob_of_two_pieces()
        )
    );
}

#[test]
fn a_row_of_a_deleted_container_is_written_and_read(rt: HostRuntime) {
    let act = sample_acts::deleted_container_row();
    assert!(rt;
        both_ways(
            &rt,
            rt.alloc(),
            act,
            sample_records::deleted_container_row()
        )
    );
}

#[test]
fn a_row_of_committed_blocks_alone_is_written_and_read(rt: HostRuntime) {
    let act = sample_acts::committed_blob(&rt, rt.alloc());
    assert!(rt; both_ways(&rt, rt.alloc(), act, sample_records::committed_blob()));
}

#[test]
fn a_row_of_uncommitted_blocks_alone_is_written_and_read(rt: HostRuntime) {
    let act = sample_acts::uncommitted_blob(&rt, rt.alloc());
    assert!(rt; both_ways(&rt, rt.alloc(), act, sample_records::uncommitted_blob()));
}

// The record of a Put Block List with as many entries as a list may have.
fn longest_list(rt: &impl Abort, alloc: Global) -> Vec<u8> {
    let mut record = sample_records::before_longest_list()
        .to_vec(alloc)
        .expect(rt, "memory");
    for _ in 0..50_000 {
        record
            .extend_from_slice(sample_records::entry_of_longest_list())
            .expect(rt, "memory");
    }
    record
}

#[test]
fn a_block_list_of_50000_entries_is_written_and_read(rt: HostRuntime) {
    let act = sample_acts::put_longest_list(&rt, rt.alloc());
    let record = longest_list(&rt, rt.alloc());
    assert!(rt; both_ways(&rt, rt.alloc(), act, &record));
}
