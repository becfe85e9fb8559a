//! Rows of a checkpoint in records.
ghost use Rattle.std.specs.Prelude.{◌≡◌};
ghost use Rattle.log_record.specs.Fits as fits;
ghost use Rattle.log_record.specs.Records as records;
ghost use Rattle.log_record.specs.ReadFields as reading;
ghost use Rattle.log_record.specs.ReadRecords as kinds;

use crate::field::Recorded;
use crate::left::Left;
use crate::lists::{append_list, read_list};
use crate::record_fault::RecordFault;
use stamp_types::{ContainerRow, Standing, StoredBlob};
use stamp_values::{Acl, Items, Level, Metadata, Moment, Policies, Text};
use std::alloc::{AllocError, Global};

impl Recorded for Standing {
    ghost bytes = { records.standing_bytes };

    ghost at = { reading.standing_at };

    ghost Fits = { fits.FitsStanding };

    fn append(&self, out: &mut Vec<u8>) -> Result<(), AllocError> {
        self.etag.append(out)?;
        self.made.append(out)?;
        self.acl.level.append(out)?;
        self.metadata.append(out)?;
        self.acl.policies.append(out)
    }

    #[tactic(auto, unfolding(crate::specs::ReadFields::standing_at))]
    fn read(alloc: Global, left: &mut Left<'_>) -> Result<Self, RecordFault> {
        let etag = u64::read(alloc, left)?;
        let made = Moment::read(alloc, left)?;
        let level = Level::read(alloc, left)?;
        let metadata = Metadata::read(alloc, left)?;
        let policies = Policies::read(alloc, left)?;
        Ok(Self {
            etag,
            made,
            metadata,
            acl: Acl { level, policies },
        })
    }
}

impl Recorded for ContainerRow {
    ghost bytes = { records.container_row_bytes };

    ghost at = { kinds.container_row_at };

    ghost Fits = { fits.FitsContainerRow };

    fn append(&self, out: &mut Vec<u8>) -> Result<(), AllocError> {
        self.count.append(out)?;
        self.standing.append(out)
    }

    #[tactic(auto, unfolding(crate::specs::ReadRecords::container_row_at))]
    fn read(alloc: Global, left: &mut Left<'_>) -> Result<Self, RecordFault> {
        let count = u64::read(alloc, left)?;
        let standing = Option::read(alloc, left)?;
        Ok(Self { count, standing })
    }
}

impl Recorded for StoredBlob {
    ghost bytes = { records.stored_blob_bytes };

    ghost at = { kinds.stored_blob_at };

    ghost Fits = { fits.FitsStoredBlob };

    fn append(&self, out: &mut Vec<u8>) -> Result<(), AllocError> {
        self.blob.append(out)?;
        self.committed.append(out)?;
        append_list(self.uncommitted.as_slice(), out)
    }

    #[tactic(auto, unfolding(crate::specs::ReadRecords::stored_blob_at))]
    fn read(alloc: Global, left: &mut Left<'_>) -> Result<Self, RecordFault> {
        let blob = Text::read(alloc, left)?;
        let committed = Option::read(alloc, left)?;
        let uncommitted = Items::new(read_list(alloc, left)?);
        Ok(Self {
            blob,
            committed,
            uncommitted,
        })
    }
}
