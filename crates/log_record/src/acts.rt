//! What changes do, in records: a number for the kind, and the fields of the kind.
ghost use Rattle.std.specs.Prelude.{◌≡◌, ◌++◌, OnOk, IsOk};
ghost use Rattle.log_record.specs.Fits.{FitsAct};
ghost use Rattle.log_record.specs.Outcomes.{Gives, itself};
ghost use Rattle.log_record.specs.Records as records;
ghost use Rattle.log_record.specs.ReadRecords.{act_at};

use crate::field::Recorded;
use crate::left::Left;
use crate::record_fault::RecordFault;
use stamp_types::{
    Act, ContainerRow, CreateContainer, DeleteBlob, PutBlob, PutBlock, PutBlockList, SetAcl,
    SetContainerMetadata, SetMetadata, StoredBlob,
};
use std::alloc::{AllocError, Global};

/// The number of the kind: 1 to 11.
pub(crate) fn kind_of(act: &Act) -> u8
    ensures { result ≡ records.kind_of act.now }
{
    match act {
        Act::CreateContainer(_) => 1,
        Act::SetContainerMetadata(_) => 2,
        Act::SetAcl(_) => 3,
        Act::DeleteContainer => 4,
        Act::PutBlob(_) => 5,
        Act::SetMetadata(_) => 6,
        Act::DeleteBlob(_) => 7,
        Act::PutBlock(_) => 8,
        Act::PutBlockList(_) => 9,
        Act::ContainerRow(_) => 10,
        Act::StoredBlob(_) => 11,
    }
}

/// Appends the fields of the kind.
///
/// `AllocError` if memory runs out.
pub(crate) fn append_act(act: &Act, out: &mut Vec<u8>) -> Result<(), AllocError>
    ensures written { OnOk result (out.new.items ≡ out.old.items ++ records.act_bytes act.now) }
    ensures fits { IsOk result → FitsAct act.now }
{
    match act {
        Act::CreateContainer(create) => create.append(out),
        Act::SetContainerMetadata(set) => set.append(out),
        Act::SetAcl(set) => set.append(out),
        Act::DeleteContainer => Ok(()),
        Act::PutBlob(put) => put.append(out),
        Act::SetMetadata(set) => set.append(out),
        Act::DeleteBlob(delete) => delete.append(out),
        Act::PutBlock(put) => put.append(out),
        Act::PutBlockList(put) => put.append(out),
        Act::ContainerRow(row) => row.append(out),
        Act::StoredBlob(row) => row.append(out),
    }
}

/// Takes the fields of the kind of this number. `Form` if no kind has this number.
#[tactic(auto, unfolding(crate::specs::ReadRecords::act_at))]
pub(crate) fn read_act(alloc: Global, kind: u8, left: &mut Left<'_>) -> Result<Act, RecordFault>
    ensures { Gives itself result left.new.bytes.now (act_at kind left.old.bytes.now) }
{
    match kind {
        1 => Ok(Act::CreateContainer(CreateContainer::read(alloc, left)?)),
        2 => Ok(Act::SetContainerMetadata(SetContainerMetadata::read(alloc, left)?)),
        3 => Ok(Act::SetAcl(SetAcl::read(alloc, left)?)),
        4 => Ok(Act::DeleteContainer),
        5 => Ok(Act::PutBlob(PutBlob::read(alloc, left)?)),
        6 => Ok(Act::SetMetadata(SetMetadata::read(alloc, left)?)),
        7 => Ok(Act::DeleteBlob(DeleteBlob::read(alloc, left)?)),
        8 => Ok(Act::PutBlock(PutBlock::read(alloc, left)?)),
        9 => Ok(Act::PutBlockList(PutBlockList::read(alloc, left)?)),
        10 => Ok(Act::ContainerRow(ContainerRow::read(alloc, left)?)),
        11 => Ok(Act::StoredBlob(StoredBlob::read(alloc, left)?)),
        _ => Err(RecordFault::Form),
    }
}
