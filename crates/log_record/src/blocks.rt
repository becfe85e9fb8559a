//! Blocks and committed parts of blobs in records.
ghost use Rattle.std.specs.Prelude.{◌≡◌, ◌++◌, OnOk, IsOk};
ghost use Rattle.log_record.specs.Forms.{string_bytes, FitsOption};
ghost use Rattle.log_record.specs.Fits as fits;
ghost use Rattle.log_record.specs.Outcomes.{Gives, Fills, itself};
ghost use Rattle.log_record.specs.Records as records;
ghost use Rattle.log_record.specs.ReadFields as reading;

use crate::field::{Recorded, append_string};
use crate::left::Left;
use crate::lists::{append_list, read_list};
use crate::record_fault::RecordFault;
use stamp_types::{Block, Committed, Pieces, Props, UncommittedBlock};
use stamp_values::{BlockId, BlockSource, Bytes, Items, Metadata, Moment, Taken};
use std::alloc::{AllocError, Global};

impl Recorded for BlockSource {
    ghost bytes = { records.source_bytes };

    ghost at = { reading.source_at };

    ghost Fits = { fits.FitsSource };

    fn append(&self, out: &mut Vec<u8>) -> Result<(), AllocError> {
        match self {
            BlockSource::Uncommitted => out.extend_from_slice(&[1]),
            BlockSource::Committed => out.extend_from_slice(&[2]),
        }
    }

    #[tactic(auto, unfolding(crate::specs::ReadFields::source_at))]
    fn read(_alloc: Global, left: &mut Left<'_>) -> Result<Self, RecordFault> {
        match left.byte()? {
            1 => Ok(BlockSource::Uncommitted),
            2 => Ok(BlockSource::Committed),
            _ => Err(RecordFault::Form),
        }
    }
}

impl Recorded for Taken {
    ghost bytes = { records.taken_bytes };

    ghost at = { reading.taken_at };

    ghost Fits = { fits.FitsTaken };

    fn append(&self, out: &mut Vec<u8>) -> Result<(), AllocError> {
        self.id.append(out)?;
        self.from.append(out)
    }

    #[tactic(auto, unfolding(crate::specs::ReadFields::taken_at))]
    fn read(alloc: Global, left: &mut Left<'_>) -> Result<Self, RecordFault> {
        let id = BlockId::read(alloc, left)?;
        let from = BlockSource::read(alloc, left)?;
        Ok(Self { id, from })
    }
}

// Appends the id as a string, or the empty string if there is no id.
fn append_optional_id(out: &mut Vec<u8>, id: &Option<BlockId>) -> Result<(), AllocError>
    ensures written { OnOk result
        (out.new.items ≡ out.old.items ++ string_bytes (records.id_text id.now)) }
    ensures fits { IsOk result → FitsOption fits.FitsId id.now }
{
    match id {
        None => append_string(out, &[]),
        Some(id) => id.append(out),
    }
}

// The id that the bytes are.
fn id_of(alloc: Global, bytes: &[u8]) -> Result<BlockId, RecordFault>
    ensures { Fills result (reading.id_of bytes.now) }
{
    let bytes = Vec::from_slice(alloc, bytes)?;
    match BlockId::new(Bytes::new(bytes)) {
        Some(id) => Ok(id),
        None => Err(RecordFault::Form),
    }
}

// The id that the bytes are, or `None` if there are no bytes.
fn optional_id_of(alloc: Global, bytes: &[u8]) -> Result<Option<BlockId>, RecordFault>
    ensures { Fills result (reading.optional_id_of bytes.now) }
{
    if bytes.is_empty() {
        return Ok(None);
    }
    let id = id_of(alloc, bytes)?;
    Ok(Some(id))
}

// Takes an id, or the empty string of a block that has no id.
#[tactic(auto, unfolding(crate::specs::ReadFields::optional_id_at))]
fn read_optional_id(alloc: Global, left: &mut Left<'_>) -> Result<Option<BlockId>, RecordFault>
    ensures { Gives itself result left.new.bytes.now (reading.optional_id_at left.old.bytes.now) }
{
    let bytes = left.string()?;
    optional_id_of(alloc, bytes)
}

impl Recorded for Block<Pieces> {
    ghost bytes = { records.block_bytes };

    ghost at = { reading.block_at };

    ghost Fits = { fits.FitsBlock };

    fn append(&self, out: &mut Vec<u8>) -> Result<(), AllocError> {
        append_optional_id(out, &self.id)?;
        self.content.append(out)
    }

    #[tactic(auto, unfolding(crate::specs::ReadFields::block_at))]
    fn read(alloc: Global, left: &mut Left<'_>) -> Result<Self, RecordFault> {
        let id = read_optional_id(alloc, left)?;
        let content = Pieces::read(alloc, left)?;
        Ok(Self { id, content })
    }
}

impl Recorded for Committed<Pieces> {
    ghost bytes = { records.committed_bytes };

    ghost at = { reading.committed_at };

    ghost Fits = { fits.FitsCommitted };

    fn append(&self, out: &mut Vec<u8>) -> Result<(), AllocError> {
        self.etag.append(out)?;
        self.made.append(out)?;
        self.props.append(out)?;
        self.metadata.append(out)?;
        append_list(self.blocks.as_slice(), out)
    }

    #[tactic(auto, unfolding(crate::specs::ReadFields::committed_at))]
    fn read(alloc: Global, left: &mut Left<'_>) -> Result<Self, RecordFault> {
        let etag = u64::read(alloc, left)?;
        let made = Moment::read(alloc, left)?;
        let props = Props::read(alloc, left)?;
        let metadata = Metadata::read(alloc, left)?;
        let blocks = Items::new(read_list(alloc, left)?);
        Ok(Self {
            etag,
            made,
            props,
            metadata,
            blocks,
        })
    }
}

impl Recorded for UncommittedBlock {
    ghost bytes = { records.uncommitted_bytes };

    ghost at = { reading.uncommitted_at };

    ghost Fits = { fits.FitsUncommitted };

    fn append(&self, out: &mut Vec<u8>) -> Result<(), AllocError> {
        self.id.append(out)?;
        self.content.append(out)
    }

    #[tactic(auto, unfolding(crate::specs::ReadFields::uncommitted_at))]
    fn read(alloc: Global, left: &mut Left<'_>) -> Result<Self, RecordFault> {
        let id = BlockId::read(alloc, left)?;
        let content = Pieces::read(alloc, left)?;
        Ok(Self { id, content })
    }
}
