//! What a change does to a container itself, in records.
ghost use Rattle.std.specs.Prelude.{◌≡◌};
ghost use Rattle.log_record.specs.Fits as fits;
ghost use Rattle.log_record.specs.Records as records;
ghost use Rattle.log_record.specs.ReadRecords as kinds;

use crate::field::Recorded;
use crate::left::Left;
use crate::record_fault::RecordFault;
use stamp_types::{CreateContainer, SetAcl, SetContainerMetadata};
use stamp_values::{Acl, Level, Metadata, Moment};
use std::alloc::{AllocError, Global};

impl Recorded for CreateContainer {
    ghost bytes = { records.create_container_bytes };

    ghost at = { kinds.create_container_at };

    ghost Fits = { fits.FitsCreateContainer };

    fn append(&self, out: &mut Vec<u8>) -> Result<(), AllocError> {
        self.moment.append(out)?;
        self.level.append(out)?;
        self.metadata.append(out)
    }

    #[tactic(auto, unfolding(crate::specs::ReadRecords::create_container_at))]
    fn read(alloc: Global, left: &mut Left<'_>) -> Result<Self, RecordFault> {
        let moment = Moment::read(alloc, left)?;
        let level = Level::read(alloc, left)?;
        let metadata = Metadata::read(alloc, left)?;
        Ok(Self {
            moment,
            level,
            metadata,
        })
    }
}

impl Recorded for SetContainerMetadata {
    ghost bytes = { records.set_container_metadata_bytes };

    ghost at = { kinds.set_container_metadata_at };

    ghost Fits = { fits.FitsSetContainerMetadata };

    fn append(&self, out: &mut Vec<u8>) -> Result<(), AllocError> {
        self.moment.append(out)?;
        self.metadata.append(out)
    }

    #[tactic(auto, unfolding(crate::specs::ReadRecords::set_container_metadata_at))]
    fn read(alloc: Global, left: &mut Left<'_>) -> Result<Self, RecordFault> {
        let moment = Moment::read(alloc, left)?;
        let metadata = Metadata::read(alloc, left)?;
        Ok(Self { moment, metadata })
    }
}

impl Recorded for SetAcl {
    ghost bytes = { records.set_acl_bytes };

    ghost at = { kinds.set_acl_at };

    ghost Fits = { fits.FitsSetAcl };

    fn append(&self, out: &mut Vec<u8>) -> Result<(), AllocError> {
        self.moment.append(out)?;
        self.acl.append(out)
    }

    #[tactic(auto, unfolding(crate::specs::ReadRecords::set_acl_at))]
    fn read(alloc: Global, left: &mut Left<'_>) -> Result<Self, RecordFault> {
        let moment = Moment::read(alloc, left)?;
        let acl = Acl::read(alloc, left)?;
        Ok(Self { moment, acl })
    }
}
