//! What a change does to a blob, in records.
ghost use Rattle.std.specs.Prelude.{◌≡◌};
ghost use Rattle.log_record.specs.Fits as fits;
ghost use Rattle.log_record.specs.Records as records;
ghost use Rattle.log_record.specs.ReadRecords as kinds;

use crate::field::Recorded;
use crate::left::Left;
use crate::lists::{append_list, read_list};
use crate::record_fault::RecordFault;
use stamp_types::{DeleteBlob, Pieces, Props, PutBlob, PutBlock, PutBlockList, SetMetadata};
use stamp_values::{BlockId, Items, Metadata, Moment, Text};
use std::alloc::{AllocError, Global};

impl Recorded for PutBlob {
    ghost bytes = { records.put_blob_bytes };

    ghost at = { kinds.put_blob_at };

    ghost Fits = { fits.FitsPutBlob };

    fn append(&self, out: &mut Vec<u8>) -> Result<(), AllocError> {
        self.blob.append(out)?;
        self.moment.append(out)?;
        self.props.append(out)?;
        self.metadata.append(out)?;
        self.content.append(out)
    }

    #[tactic(auto, unfolding(crate::specs::ReadRecords::put_blob_at))]
    fn read(alloc: Global, left: &mut Left<'_>) -> Result<Self, RecordFault> {
        let blob = Text::read(alloc, left)?;
        let moment = Moment::read(alloc, left)?;
        let props = Props::read(alloc, left)?;
        let metadata = Metadata::read(alloc, left)?;
        let content = Pieces::read(alloc, left)?;
        Ok(Self {
            blob,
            moment,
            props,
            metadata,
            content,
        })
    }
}

impl Recorded for SetMetadata {
    ghost bytes = { records.set_metadata_bytes };

    ghost at = { kinds.set_metadata_at };

    ghost Fits = { fits.FitsSetMetadata };

    fn append(&self, out: &mut Vec<u8>) -> Result<(), AllocError> {
        self.blob.append(out)?;
        self.moment.append(out)?;
        self.metadata.append(out)
    }

    #[tactic(auto, unfolding(crate::specs::ReadRecords::set_metadata_at))]
    fn read(alloc: Global, left: &mut Left<'_>) -> Result<Self, RecordFault> {
        let blob = Text::read(alloc, left)?;
        let moment = Moment::read(alloc, left)?;
        let metadata = Metadata::read(alloc, left)?;
        Ok(Self {
            blob,
            moment,
            metadata,
        })
    }
}

impl Recorded for DeleteBlob {
    ghost bytes = { records.delete_blob_bytes };

    ghost at = { kinds.delete_blob_at };

    ghost Fits = { fits.FitsDeleteBlob };

    fn append(&self, out: &mut Vec<u8>) -> Result<(), AllocError> {
        self.blob.append(out)
    }

    #[tactic(auto, unfolding(crate::specs::ReadRecords::delete_blob_at))]
    fn read(alloc: Global, left: &mut Left<'_>) -> Result<Self, RecordFault> {
        let blob = Text::read(alloc, left)?;
        Ok(Self { blob })
    }
}

impl Recorded for PutBlock {
    ghost bytes = { records.put_block_bytes };

    ghost at = { kinds.put_block_at };

    ghost Fits = { fits.FitsPutBlock };

    fn append(&self, out: &mut Vec<u8>) -> Result<(), AllocError> {
        self.blob.append(out)?;
        self.id.append(out)?;
        self.content.append(out)
    }

    #[tactic(auto, unfolding(crate::specs::ReadRecords::put_block_at))]
    fn read(alloc: Global, left: &mut Left<'_>) -> Result<Self, RecordFault> {
        let blob = Text::read(alloc, left)?;
        let id = BlockId::read(alloc, left)?;
        let content = Pieces::read(alloc, left)?;
        Ok(Self { blob, id, content })
    }
}

impl Recorded for PutBlockList {
    ghost bytes = { records.put_block_list_bytes };

    ghost at = { kinds.put_block_list_at };

    ghost Fits = { fits.FitsPutBlockList };

    fn append(&self, out: &mut Vec<u8>) -> Result<(), AllocError> {
        self.blob.append(out)?;
        self.moment.append(out)?;
        self.props.append(out)?;
        self.metadata.append(out)?;
        append_list(self.entries.as_slice(), out)
    }

    #[tactic(auto, unfolding(crate::specs::ReadRecords::put_block_list_at))]
    fn read(alloc: Global, left: &mut Left<'_>) -> Result<Self, RecordFault> {
        let blob = Text::read(alloc, left)?;
        let moment = Moment::read(alloc, left)?;
        let props = Props::read(alloc, left)?;
        let metadata = Metadata::read(alloc, left)?;
        let entries = Items::new(read_list(alloc, left)?);
        Ok(Self {
            blob,
            moment,
            props,
            metadata,
            entries,
        })
    }
}
