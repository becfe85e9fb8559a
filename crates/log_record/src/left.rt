//! The part of a record that is still to be read.
ghost use Rattle.std.specs.Prelude.{◌≡◌};
ghost use Rattle.std.specs.Int.{w32, w64};
ghost use Rattle.log_record.specs.Outcomes.{Gives, itself};
ghost use Rattle.log_record.specs.Reading.{front_at, number_at, byte_at, string_at};

use crate::record_fault::RecordFault;

/// The part of a record that is still to be read, from its front. After `Form` nothing more may be
/// read.
#[derive(Debug, Drop)]
pub(crate) struct Left<'a> {
    pub(crate) bytes: &'a [u8],
}

impl<'a> Left<'a> {
    /// Takes that many bytes. `Form` if there are fewer.
    pub(crate) fn front(&mut self, count: usize) -> Result<&'a [u8], RecordFault>
        ensures { Gives (λ s. s.now) result self.new.bytes.now (front_at count self.old.bytes.now) }
    {
        if self.bytes.len() < count {
            return Err(RecordFault::Form);
        }
        let (front, rest) = self.bytes.split_at(count);
        self.bytes = rest;
        Ok(front)
    }

    /// Takes one byte. `Form` if there is no byte.
    pub(crate) fn byte(&mut self) -> Result<u8, RecordFault>
        ensures { Gives itself result self.new.bytes.now (byte_at self.old.bytes.now) }
    {
        match self.bytes {
            [] => Err(RecordFault::Form),
            [first, rest @ ..] => {
                self.bytes = rest;
                Ok(*first)
            }
        }
    }

    /// Takes a number of four bytes. `Form` if there are fewer.
    pub(crate) fn short_number(&mut self) -> Result<u32, RecordFault>
        ensures { Gives itself result self.new.bytes.now (number_at w32 self.old.bytes.now) }
    {
        let front = self.front(4)?;
        Ok(u32::from_be_bytes([front[0], front[1], front[2], front[3]]))
    }

    /// Takes a number of eight bytes. `Form` if there are fewer.
    pub(crate) fn number(&mut self) -> Result<u64, RecordFault>
        ensures { Gives itself result self.new.bytes.now (number_at w64 self.old.bytes.now) }
    {
        let front = self.front(8)?;
        Ok(u64::from_be_bytes([
            front[0], front[1], front[2], front[3], front[4], front[5], front[6], front[7],
        ]))
    }

    /// Takes a string and lends its bytes. `Form` if its length goes past the end.
    #[tactic(auto, unfolding(crate::specs::Reading::string_at))]
    pub(crate) fn string(&mut self) -> Result<&'a [u8], RecordFault>
        ensures { Gives (λ s. s.now) result self.new.bytes.now (string_at self.old.bytes.now) }
    {
        let count = self.short_number()?;
        self.front(count as usize)
    }
}
