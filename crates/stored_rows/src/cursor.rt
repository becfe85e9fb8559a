//! How far a sweep has come.
ghost use Rattle.std.specs.Prelude.{◌≡◌, ℕ, IfOk, List};
ghost use Rattle.stored_rows.specs.Swept.{PassSame, is_past, is_past_blob, is_upto};

use stamp_values::Key;
use std::alloc::AllocError;
use std::cmp::Ordering;

/// The rows that a sweep has written so far, in the order of the keys and names.
#[derive(Drop)]
pub(crate) enum Cursor {
    /// No row.
    Start,
    /// All rows of each container before this key, the own row of the container of this key, and the rows of its blobs up to this name, if
    /// there is one.
    In(Key, Option<Vec<u8>>),
    /// All rows of each container up to this key.
    After(Key),
    /// All rows.
    End,
}

// Whether the name is not after the last name, if there is one.
fn is_upto(last: &Option<Vec<u8>>, name: &[u8]) -> bool
    ensures { result ≡ is_upto last.now name.now }
{
    match last {
        Some(last) => name.cmp(last.as_slice()).is_le(),
        None => false,
    }
}

// The last name once more, if there is one.
fn name_of(last: &Option<Vec<u8>>) -> Result<Option<Vec<u8>>, AllocError>
    ensures { IfOk result (λ copy. (name : List ℕ) → is_upto copy name ≡ is_upto last.now name) }
{
    match last {
        Some(last) => Ok(Some(last.clone()?)),
        None => Ok(None),
    }
}

impl Cursor {
    /// A cursor that is past the same rows.
    ///
    /// `AllocError` if memory runs out.
    #[tactic(auto, using(crate::proofs::PartLemmas::pass_same, crate::proofs::PartLemmas::pass_in))]
    pub(crate) fn copied(&self) -> Result<Self, AllocError>
        ensures { IfOk result (PassSame self.now) }
    {
        match self {
            Self::Start => Ok(Self::Start),
            Self::In(at, last) => {
                let last = name_of(last)?;
                let at = at.clone()?;
                Ok(Self::In(at, last))
            }
            Self::After(at) => Ok(Self::After(at.clone()?)),
            Self::End => Ok(Self::End),
        }
    }

    /// Whether the row of the container is written.
    pub(crate) fn is_past(&self, key: &Key) -> bool
        ensures { result ≡ is_past self.now key.now }
    {
        match self {
            Self::Start => false,
            Self::In(at, _) | Self::After(at) => key.cmp(at).is_le(),
            Self::End => true,
        }
    }

    /// Whether the row of the blob is written.
    pub(crate) fn is_past_blob(&self, key: &Key, name: &[u8]) -> bool
        ensures { result ≡ is_past_blob self.now key.now name.now }
    {
        match self {
            Self::In(at, last) => match key.cmp(at) {
                Ordering::Less => true,
                Ordering::Equal => is_upto(last, name),
                Ordering::Greater => false,
            },
            _ => self.is_past(key),
        }
    }
}
