//! Moments, levels, texts, ids, metadata and keys in records.
ghost use Rattle.std.specs.Prelude.{◌≡◌, MatchOption, true, false};
ghost use Rattle.stamp_values.specs.Texts.{is_utf8};
ghost use Rattle.log_record.specs.Forms.{string_bytes};
ghost use Rattle.log_record.specs.Fits as fits;
ghost use Rattle.log_record.specs.Records as records;
ghost use Rattle.log_record.specs.ReadFields as reading;

use crate::field::{Recorded, append_string};
use crate::left::Left;
use crate::lists::{append_list, read_list};
use crate::record_fault::RecordFault;
use stamp_values::{BlockId, Bytes, Items, Key, Level, Meta, Metadata, Moment, Text, Visible};
use std::alloc::{AllocError, Global};

impl Recorded for Moment {
    ghost bytes = { records.moment_bytes };

    ghost at = { reading.moment_at };

    ghost Fits = { fits.FitsMoment };

    fn append(&self, out: &mut Vec<u8>) -> Result<(), AllocError> {
        self.ticks().append(out)
    }

    #[tactic(auto, unfolding(crate::specs::ReadFields::moment_at))]
    fn read(_alloc: Global, left: &mut Left<'_>) -> Result<Self, RecordFault> {
        let ticks = left.number()?;
        if 2_534_023_007_999_999_999 < ticks {
            return Err(RecordFault::Form);
        }
        match Moment::new(ticks as i64) {
            Some(moment) => Ok(moment),
            None => Err(RecordFault::Form),
        }
    }
}

impl Recorded for Level {
    ghost bytes = { records.level_bytes };

    ghost at = { reading.level_at };

    ghost Fits = { fits.FitsLevel };

    fn append(&self, out: &mut Vec<u8>) -> Result<(), AllocError> {
        out.extend_from_slice(&[self.number()])
    }

    #[tactic(auto, unfolding(crate::specs::ReadFields::level_at))]
    fn read(_alloc: Global, left: &mut Left<'_>) -> Result<Self, RecordFault> {
        match left.byte()? {
            0 => Ok(Level::Closed),
            1 => Ok(Level::Blob),
            2 => Ok(Level::Container),
            _ => Err(RecordFault::Form),
        }
    }
}

// The text that the bytes are, if they are UTF-8.
fn utf8_text(bytes: &[u8]) -> Option<&str>
    ensures { MatchOption result (is_utf8 bytes.now ≡ false)
        (λ text. (is_utf8 bytes.now ≡ true) × (text.now ≡ bytes.now)) }
{
    match str::from_utf8(bytes) {
        Ok(text) => Some(text),
        Err(_error) => None,
    }
}

impl Recorded for Text {
    ghost bytes = { string_bytes };

    ghost at = { reading.text_at };

    ghost Fits = { fits.FitsText };

    #[tactic(auto, using(crate::proofs::TextLemmas::text_good))]
    fn append(&self, out: &mut Vec<u8>) -> Result<(), AllocError> {
        append_string(out, self.as_str().as_bytes())
    }

    #[tactic(auto, unfolding(crate::specs::ReadFields::text_at))]
    fn read(alloc: Global, left: &mut Left<'_>) -> Result<Self, RecordFault> {
        let Some(text) = utf8_text(left.string()?) else {
            return Err(RecordFault::Form);
        };
        match Text::new(String::from_str(alloc, text)?) {
            Some(text) => Ok(text),
            None => Err(RecordFault::Form),
        }
    }
}

impl Recorded for Visible {
    ghost bytes = { string_bytes };

    ghost at = { reading.visible_at };

    ghost Fits = { fits.FitsVisible };

    fn append(&self, out: &mut Vec<u8>) -> Result<(), AllocError> {
        self.as_text().append(out)
    }

    #[tactic(auto, unfolding(crate::specs::ReadFields::visible_at))]
    fn read(alloc: Global, left: &mut Left<'_>) -> Result<Self, RecordFault> {
        match Visible::new(Text::read(alloc, left)?) {
            Some(text) => Ok(text),
            None => Err(RecordFault::Form),
        }
    }
}

impl Recorded for BlockId {
    ghost bytes = { string_bytes };

    ghost at = { reading.id_at };

    ghost Fits = { fits.FitsId };

    fn append(&self, out: &mut Vec<u8>) -> Result<(), AllocError> {
        append_string(out, self.as_slice())
    }

    #[tactic(auto, unfolding(crate::specs::ReadFields::id_at))]
    fn read(alloc: Global, left: &mut Left<'_>) -> Result<Self, RecordFault> {
        let bytes = Vec::from_slice(alloc, left.string()?)?;
        match BlockId::new(Bytes::new(bytes)) {
            Some(id) => Ok(id),
            None => Err(RecordFault::Form),
        }
    }
}

impl Recorded for Meta {
    ghost bytes = { records.meta_bytes };

    ghost at = { reading.meta_at };

    ghost Fits = { fits.FitsMeta };

    fn append(&self, out: &mut Vec<u8>) -> Result<(), AllocError> {
        self.name.append(out)?;
        self.value.append(out)
    }

    #[tactic(auto, unfolding(crate::specs::ReadFields::meta_at))]
    fn read(alloc: Global, left: &mut Left<'_>) -> Result<Self, RecordFault> {
        let name = Text::read(alloc, left)?;
        let value = Visible::read(alloc, left)?;
        Ok(Self { name, value })
    }
}

impl Recorded for Metadata {
    ghost bytes = { records.metadata_bytes };

    ghost at = { reading.metadata_at };

    ghost Fits = { fits.FitsMetadata };

    fn append(&self, out: &mut Vec<u8>) -> Result<(), AllocError> {
        append_list(self.as_slice(), out)
    }

    #[tactic(auto, unfolding(crate::specs::ReadFields::metadata_at))]
    fn read(alloc: Global, left: &mut Left<'_>) -> Result<Self, RecordFault> {
        match Metadata::new(alloc, Items::new(read_list(alloc, left)?))? {
            Some(metadata) => Ok(metadata),
            None => Err(RecordFault::Form),
        }
    }
}

impl Recorded for Key {
    ghost bytes = { records.key_bytes };

    ghost at = { reading.key_at };

    ghost Fits = { fits.FitsKey };

    fn append(&self, out: &mut Vec<u8>) -> Result<(), AllocError> {
        self.account.append(out)?;
        self.container.append(out)
    }

    #[tactic(auto, unfolding(crate::specs::ReadFields::key_at))]
    fn read(alloc: Global, left: &mut Left<'_>) -> Result<Self, RecordFault> {
        let account = Text::read(alloc, left)?;
        let container = Text::read(alloc, left)?;
        Ok(Self { account, container })
    }
}
