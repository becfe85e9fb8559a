//! Values that records have, and the numbers, strings and options among them.
ghost use Rattle.std.specs.Prelude.{◌≡◌, ◌++◌, ◌<◌, ◌^◌, ℕ, List, Option, IsOk, OnOk, length};
ghost use Rattle.std.specs.Int.{w32, w64};
ghost use Rattle.log_record.specs.Outcomes.{Gives, itself};
ghost use Rattle.log_record.specs.Reading.{number_at, option_at};
ghost use Rattle.log_record.specs.Forms.{short_bytes, long_bytes, string_bytes, option_bytes, FitsOption};

use crate::left::Left;
use crate::record_fault::RecordFault;
use std::alloc::{AllocError, Global};

/// A value that records have.
pub(crate) trait Recorded: Sized {
    /// The bytes of a value.
    ghost bytes: { Self → List ℕ };

    /// The value at the front of bytes, and the bytes after it.
    ghost at: { List ℕ → Option (Self × List ℕ) };

    /// The value is one that can be written.
    ghost Fits: { Self → Type 0 };

    /// Appends the bytes of the value.
    ///
    /// `AllocError` if memory runs out.
    fn append(&self, out: &mut Vec<u8>) -> Result<(), AllocError>
        ensures written { OnOk result (out.new.items ≡ out.old.items ++ bytes self.now) }
        ensures fits { IsOk result → Fits self.now };

    /// Takes the value at the front of what is left of a record. `Form` if no value is there.
    fn read(alloc: Global, left: &mut Left<'_>) -> Result<Self, RecordFault>
        ensures { Gives itself result left.new.bytes.now (at left.old.bytes.now) };
}

/// Appends the length of a string or of a list, as four bytes.
///
/// `AllocError` if memory runs out, or if four bytes cannot write the length: no value of a
/// container is so long.
#[tactic(auto, unfolding(crate::specs::Forms::short_bytes))]
pub(crate) fn append_len(out: &mut Vec<u8>, len: usize) -> Result<(), AllocError>
    ensures written { OnOk result (out.new.items ≡ out.old.items ++ short_bytes len) }
    ensures fits { IsOk result → len < 2 ^ 32 }
{
    match u32::try_from(len) {
        Ok(len) => out.extend_from_slice(&len.to_be_bytes()),
        Err(_) => Err(AllocError),
    }
}

/// Appends a string: its length, and then its bytes.
///
/// `AllocError` if memory runs out.
#[tactic(auto, unfolding(crate::specs::Forms::string_bytes))]
pub(crate) fn append_string(out: &mut Vec<u8>, bytes: &[u8]) -> Result<(), AllocError>
    ensures written { OnOk result (out.new.items ≡ out.old.items ++ string_bytes bytes.now) }
    ensures fits { IsOk result → length bytes.now < 2 ^ 32 }
{
    append_len(out, bytes.len())?;
    out.extend_from_slice(bytes)
}

impl Recorded for u64 {
    ghost bytes = { long_bytes };

    ghost at = { number_at w64 };

    ghost Fits = { λ n. n < 2 ^ 64 };

    #[tactic(auto, unfolding(crate::specs::Forms::long_bytes))]
    fn append(&self, out: &mut Vec<u8>) -> Result<(), AllocError> {
        let number = *self;
        out.extend_from_slice(&number.to_be_bytes())
    }

    fn read(_alloc: Global, left: &mut Left<'_>) -> Result<Self, RecordFault> {
        left.number()
    }
}

impl Recorded for u32 {
    ghost bytes = { short_bytes };

    ghost at = { number_at w32 };

    ghost Fits = { λ n. n < 2 ^ 32 };

    #[tactic(auto, unfolding(crate::specs::Forms::short_bytes))]
    fn append(&self, out: &mut Vec<u8>) -> Result<(), AllocError> {
        let number = *self;
        out.extend_from_slice(&number.to_be_bytes())
    }

    fn read(_alloc: Global, left: &mut Left<'_>) -> Result<Self, RecordFault> {
        left.short_number()
    }
}

impl<T: Recorded + Drop> Recorded for Option<T> {
    ghost bytes = { option_bytes T.bytes };

    ghost at = { option_at T.at };

    ghost Fits = { FitsOption T.Fits };

    fn append(&self, out: &mut Vec<u8>) -> Result<(), AllocError> {
        match self {
            None => out.extend_from_slice(&[0]),
            Some(value) => {
                out.extend_from_slice(&[1])?;
                value.append(out)
            }
        }
    }

    #[tactic(auto, unfolding(crate::specs::Reading::option_at))]
    fn read(alloc: Global, left: &mut Left<'_>) -> Result<Self, RecordFault> {
        match left.byte()? {
            0 => Ok(None),
            1 => Ok(Some(T::read(alloc, left)?)),
            _ => Err(RecordFault::Form),
        }
    }
}
