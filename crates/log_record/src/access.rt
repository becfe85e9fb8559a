//! Stored policies, and who may read a container, in records.
ghost use Rattle.log_record.specs.Fits as fits;
ghost use Rattle.log_record.specs.Records as records;
ghost use Rattle.log_record.specs.ReadFields as reading;

use crate::field::{Recorded, append_string};
use crate::left::Left;
use crate::lists::{append_list, read_list};
use crate::record_fault::RecordFault;
use stamp_values::{Acl, Items, Letters, Level, Policies, Policy, Text};
use std::alloc::{AllocError, Global};

impl Recorded for Letters {
    ghost bytes = { records.letters_bytes };

    ghost at = { reading.letters_at };

    ghost Fits = { fits.FitsLetters };

    fn append(&self, out: &mut Vec<u8>) -> Result<(), AllocError> {
        let letters = *self;
        append_string(out, letters.as_str().as_bytes())
    }

    #[tactic(auto, unfolding(crate::specs::ReadFields::letters_at))]
    fn read(_alloc: Global, left: &mut Left<'_>) -> Result<Self, RecordFault> {
        match Letters::read(left.string()?) {
            Some(letters) => Ok(letters),
            None => Err(RecordFault::Form),
        }
    }
}

impl Recorded for Policy {
    ghost bytes = { records.policy_bytes };

    ghost at = { reading.policy_at };

    ghost Fits = { fits.FitsPolicy };

    fn append(&self, out: &mut Vec<u8>) -> Result<(), AllocError> {
        self.id.append(out)?;
        self.start.append(out)?;
        self.expiry.append(out)?;
        self.letters.append(out)
    }

    #[tactic(auto, unfolding(crate::specs::ReadFields::policy_at))]
    fn read(alloc: Global, left: &mut Left<'_>) -> Result<Self, RecordFault> {
        let id = Text::read(alloc, left)?;
        let start = Option::read(alloc, left)?;
        let expiry = Option::read(alloc, left)?;
        let letters = Option::read(alloc, left)?;
        Ok(Self {
            id,
            start,
            expiry,
            letters,
        })
    }
}

impl Recorded for Policies {
    ghost bytes = { records.policies_bytes };

    ghost at = { reading.policies_at };

    ghost Fits = { fits.FitsPolicies };

    fn append(&self, out: &mut Vec<u8>) -> Result<(), AllocError> {
        append_list(self.as_slice(), out)
    }

    #[tactic(auto, unfolding(crate::specs::ReadFields::policies_at))]
    fn read(alloc: Global, left: &mut Left<'_>) -> Result<Self, RecordFault> {
        match Policies::new(Items::new(read_list(alloc, left)?)) {
            Some(policies) => Ok(policies),
            None => Err(RecordFault::Form),
        }
    }
}

impl Recorded for Acl {
    ghost bytes = { records.acl_bytes };

    ghost at = { reading.acl_at };

    ghost Fits = { fits.FitsAcl };

    fn append(&self, out: &mut Vec<u8>) -> Result<(), AllocError> {
        self.level.append(out)?;
        self.policies.append(out)
    }

    #[tactic(auto, unfolding(crate::specs::ReadFields::acl_at))]
    fn read(alloc: Global, left: &mut Left<'_>) -> Result<Self, RecordFault> {
        let level = Level::read(alloc, left)?;
        let policies = Policies::read(alloc, left)?;
        Ok(Self { level, policies })
    }
}
