//! The part of a file that is still to be read.
ghost use Rattle.std.specs.Prelude.{◌≡◌};
ghost use Rattle.extent_frames.specs.ReadFrames.{IsTaken, first_bytes, first_number, first_entry, first_frame};

use crate::digest::Digest;
use crate::writing::LEAST_ENTRY;

/// The part of a file that is still to be read, from its front. After `None` nothing more may be read.
#[derive(Drop)]
pub(crate) struct Unread<'a> {
    pub(crate) bytes: &'a [u8],
}

impl<'a> Unread<'a> {
    /// Takes that many bytes. `None` if there are fewer.
    fn front(&mut self, count: usize) -> Option<&'a [u8]>
        ensures { IsTaken (λ s. s.now) result self.new.bytes.now (first_bytes count self.old.bytes.now) }
    {
        let (front, rest) = self.bytes.split_at_checked(count)?;
        self.bytes = rest;
        Some(front)
    }

    /// Takes a number of eight bytes. `None` if there are fewer.
    fn number(&mut self) -> Option<u64>
        ensures { IsTaken (λ n. n) result self.new.bytes.now (first_number self.old.bytes.now) }
    {
        let (number, rest) = self.bytes.split_first_chunk::<8>()?;
        self.bytes = rest;
        Some(u64::from_be_bytes(*number))
    }

    /// Takes the entry of a frame. `None` if no frame begins here.
    #[tactic(auto, unfolding(crate::specs::ReadFrames::first_frame))]
    pub(crate) fn frame<D: Digest>(
        &mut self,
        digest: &D,
        segment: u64,
        index: u64,
    ) -> Option<&'a [u8]>
        ensures { IsTaken (λ s. s.now) result self.new.bytes.now
            (first_frame (D.digest_of digest.now segment) index self.old.bytes.now) }
    {
        let len = self.number()?;
        let sum = self.number()?;
        if len < LEAST_ENTRY as u64 {
            return None;
        }
        let entry = self.front(len as usize)?;
        if sum == digest.digest(segment, index, entry) {
            Some(entry)
        } else {
            None
        }
    }
}
