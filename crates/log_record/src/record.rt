//! Records of a log: one change each.
ghost use Rattle.std.specs.Prelude.{◌≡◌, ◌++◌, ◌∷◌, ◌≤◌, IfOk, IsOk, OnOk, length};
ghost use Rattle.log_record.specs.Fits.{IsRecorded};
ghost use Rattle.log_record.specs.Forms.{long_bytes};
ghost use Rattle.log_record.specs.Records as records;
ghost use Rattle.log_record.specs.Outcomes.{Gives, Fills, FillsBy, Tells, itself};
ghost use Rattle.log_record.specs.Records.{IsRecordOf, is_version, record_bytes};
ghost use Rattle.log_record.specs.Sizes.{IsPlacedChange};
ghost use Rattle.log_record.specs.ReadRecords.{keyed, keyed_at, epoch_at, parts_at, fields_of, change_of, record_of, ReadsAgain};

use crate::acts::{append_act, kind_of, read_act};
use crate::field::Recorded;
use crate::left::Left;
use crate::record_fault::RecordFault;
use stamp_types::{Act, Change};
use stamp_values::Key;
use std::alloc::{AllocError, Global};

// Appends the version, the kind and the epoch.
fn append_head(change: &Change, epoch: u64, out: &mut Vec<u8>) -> Result<(), AllocError>
    ensures { OnOk result (out.new.items
        ≡ out.old.items ++ 2 ∷ records.kind_of change.now.act ∷ long_bytes epoch) }
{
    out.extend_from_slice(&[2, kind_of(change.act())])?;
    epoch.append(out)
}

// Appends the record of the change and of its epoch.
fn append_record(change: &Change, epoch: u64, out: &mut Vec<u8>) -> Result<(), AllocError>
    ensures written { OnOk result (out.new.items
        ≡ out.old.items ++ record_bytes 2 change.now epoch) }
    ensures fits { IsOk result → IsRecorded change.now }
{
    append_head(change, epoch, out)?;
    change.key().append(out)?;
    append_act(change.act(), out)
}

// For how many bytes a record has room before it is written. Most records are shorter, so their room never grows.
const ROOM: usize = 256;

/// The record of the change and of its epoch, in version 2. If the content of the change is at
/// places, the record has at most 16,777,216 bytes, as many as a block of a stream.
///
/// `AllocError` if memory runs out.
#[tactic(auto, using(crate::proofs::SizeLemmas::written_within))]
pub fn write_change(alloc: Global, change: &Change, epoch: u64) -> Result<Vec<u8>, AllocError>
    ensures written { IfOk result (λ bytes. bytes.items ≡ record_bytes 2 change.now epoch) }
    ensures fits { IsOk result → IsRecorded change.now }
    ensures short { IfOk result (λ bytes.
        IsPlacedChange change.now → length bytes.items ≤ 16_777_216) }
{
    let mut out = Vec::with_capacity(alloc, ROOM)?;
    append_record(change, epoch, &mut out)?;
    Vec::from_slice(alloc, &out)
}

// Whether a record of this version is read.
fn is_version(version: u8) -> bool
    ensures { result ≡ is_version version }
{
    version == 1 || version == 2
}

// Takes the epoch, which records of version 1 do not have.
fn read_epoch(version: u8, left: &mut Left<'_>) -> Result<u64, RecordFault>
    ensures { Gives itself result left.new.bytes.now (epoch_at version left.old.bytes.now) }
{
    if version == 1 {
        return Ok(0);
    }
    left.number()
}

// Takes the account, the container and the fields of the kind of this number.
#[tactic(auto, unfolding(crate::specs::ReadRecords::keyed_at))]
fn read_keyed(alloc: Global, kind: u8, left: &mut Left<'_>) -> Result<(Key, Act), RecordFault>
    ensures { Gives (λ p. keyed p.0 p.1) result left.new.bytes.now
        (keyed_at kind left.old.bytes.now) }
{
    let key = Key::read(alloc, left)?;
    let act = read_act(alloc, kind, left)?;
    Ok((key, act))
}

// What a record says.
#[derive(Drop)]
struct Parts {
    key: Key,
    act: Act,
    epoch: u64,
}

// Takes the epoch, the account, the container and the fields of the kind of this number.
#[tactic(auto, unfolding(crate::specs::ReadRecords::parts_at))]
fn read_parts(
    alloc: Global,
    version: u8,
    kind: u8,
    left: &mut Left<'_>,
) -> Result<Parts, RecordFault>
    ensures { Gives (λ c. (keyed c.key c.act, c.epoch)) result left.new.bytes.now
        (parts_at version kind left.old.bytes.now) }
{
    let epoch = read_epoch(version, left)?;
    let (key, act) = read_keyed(alloc, kind, left)?;
    Ok(Parts { key, act, epoch })
}

// The key, the act and the epoch that the bytes after the version say.
#[tactic(auto, unfolding(crate::specs::ReadRecords::fields_of))]
fn read_fields(alloc: Global, version: u8, bytes: &[u8]) -> Result<Parts, RecordFault>
    ensures { FillsBy (λ c. (keyed c.key c.act, c.epoch)) result (fields_of version bytes.now) }
{
    let mut left = Left { bytes };
    let kind = left.byte()?;
    let parts = read_parts(alloc, version, kind, &mut left)?;
    if !left.bytes.is_empty() {
        drop(parts);
        return Err(RecordFault::Form);
    }
    Ok(parts)
}

// The change and the epoch that the bytes after the version say.
#[tactic(auto, unfolding(crate::specs::ReadRecords::change_of))]
fn read_after_version(
    alloc: Global,
    version: u8,
    bytes: &[u8],
) -> Result<(Change, u64), RecordFault>
    ensures { Fills result (change_of version bytes.now) }
{
    let Parts { key, act, epoch } = read_fields(alloc, version, bytes)?;
    match Change::new(key, act) {
        Some(change) => Ok((change, epoch)),
        None => Err(RecordFault::Form),
    }
}

// The change whose record the bytes are.
#[tactic(auto, unfolding(crate::specs::ReadRecords::record_of), using(crate::proofs::RecordLemmas::told))]
fn read_record(alloc: Global, bytes: &[u8]) -> Result<(Change, u64), RecordFault>
    ensures { Tells result (record_of bytes.now) }
{
    match bytes {
        [] => Err(RecordFault::Form),
        [version, rest @ ..] => {
            if !is_version(*version) {
                return Err(RecordFault::Version);
            }
            read_after_version(alloc, *version, rest)
        }
    }
}

/// The change whose record the bytes are, in version 1 or 2, and its epoch. Version 1 has no epoch, so
/// its epoch is 0.
///
/// `Form` if the bytes are not a record of a change, `Version` if their first byte is neither 1 nor 2,
/// and `NoMemory` if memory runs out.
pub fn read_change(alloc: Global, bytes: &[u8]) -> Result<(Change, u64), RecordFault>
    ensures read { IfOk result (λ r. IsRecordOf bytes.now r.0 r.1) }
    ensures again { ReadsAgain bytes.now result }
    ensures exact { Tells result (record_of bytes.now) }
{
    read_record(alloc, bytes)
}
