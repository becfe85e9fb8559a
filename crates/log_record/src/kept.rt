//! The headers that are kept with a blob, in records.
ghost use Rattle.std.specs.Prelude.{◌≡◌, ◌++◌, IsOk, OnOk};
ghost use Rattle.log_record.specs.Forms.{string_bytes};
ghost use Rattle.log_record.specs.Fits as fits;
ghost use Rattle.log_record.specs.Outcomes.{Gives, Fills, itself};
ghost use Rattle.log_record.specs.Records as records;
ghost use Rattle.log_record.specs.ReadFields as reading;

use crate::field::{Recorded, append_string};
use crate::left::Left;
use crate::record_fault::RecordFault;
use base64_text::{base64_of_16, decoded_base64};
use stamp_types::Props;
use stamp_values::Visible;
use std::alloc::{AllocError, Global};

// Appends the Base64 of the MD5 as a string.
fn append_sum(out: &mut Vec<u8>, md5: &[u8; 16]) -> Result<(), AllocError>
    ensures written { OnOk result
        (out.new.items ≡ out.old.items ++ string_bytes (records.md5_text (Some md5.now))) }
    ensures fits { IsOk result → fits.FitsMd5 (Some md5.now) }
{
    append_string(out, &base64_of_16(md5))
}

// Appends the Base64 of the MD5 as a string, or the empty string if there is no MD5.
fn append_md5(out: &mut Vec<u8>, md5: Option<[u8; 16]>) -> Result<(), AllocError>
    ensures written { OnOk result
        (out.new.items ≡ out.old.items ++ string_bytes (records.md5_text md5)) }
    ensures fits { IsOk result → fits.FitsMd5 md5 }
{
    match md5 {
        None => append_string(out, &[]),
        Some(md5) => append_sum(out, &md5),
    }
}

// The MD5 that the bytes are, or `None` if there are no bytes.
fn sum_of(bytes: &[u8]) -> Result<Option<[u8; 16]>, RecordFault>
    ensures { Fills result (reading.sum_of bytes.now) }
{
    if bytes.is_empty() {
        return Ok(None);
    }
    match bytes.as_array::<16>() {
        Some(md5) => Ok(Some(*md5)),
        None => Err(RecordFault::Form),
    }
}

// The MD5 whose Base64 the text is.
fn md5_of(alloc: Global, text: &[u8]) -> Result<Option<[u8; 16]>, RecordFault>
    ensures { Fills result (reading.md5_of text.now) }
{
    match decoded_base64(alloc, text)? {
        Some(bytes) => sum_of(&bytes),
        None => Err(RecordFault::Form),
    }
}

// Takes an MD5.
#[tactic(auto, unfolding(crate::specs::ReadFields::md5_at))]
fn read_md5(alloc: Global, left: &mut Left<'_>) -> Result<Option<[u8; 16]>, RecordFault>
    ensures { Gives itself result left.new.bytes.now (reading.md5_at left.old.bytes.now) }
{
    let text = left.string()?;
    md5_of(alloc, text)
}

impl Recorded for Props {
    ghost bytes = { records.props_bytes };

    ghost at = { reading.props_at };

    ghost Fits = { fits.FitsProps };

    fn append(&self, out: &mut Vec<u8>) -> Result<(), AllocError> {
        self.content_type().append(out)?;
        self.encoding().append(out)?;
        self.language().append(out)?;
        append_md5(out, self.md5())?;
        self.cache_control().append(out)
    }

    #[tactic(auto, unfolding(crate::specs::ReadFields::props_at))]
    fn read(alloc: Global, left: &mut Left<'_>) -> Result<Self, RecordFault> {
        let content_type = Visible::read(alloc, left)?;
        let encoding = Visible::read(alloc, left)?;
        let language = Visible::read(alloc, left)?;
        let md5 = read_md5(alloc, left)?;
        let cache_control = Visible::read(alloc, left)?;
        match Props::from_parts(alloc, content_type, encoding, language, cache_control, md5)? {
            Some(props) => Ok(props),
            None => Err(RecordFault::Form),
        }
    }
}
