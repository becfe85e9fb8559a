//! Why a line of a file is refused.
ghost use Rattle.std.specs.Prelude.{◌≡◌};
ghost use Rattle.replay_cases.specs.declared.line_fault.LineFault.TheVariants.{NoMemory};

use std::alloc::{AllocError, AllocFailed};
use thiserror::Error;

/// Why a line is refused.
#[derive(Clone, Copy, Debug, PartialEq, Eq, Error)]
pub(crate) enum LineFault {
    /// No line begins with this word.
    #[error("unknown word")]
    Word,
    /// A backslash does not begin one of the escapes.
    #[error("bad escape")]
    Escape,
    /// The text is not a decimal number of at most 64 bits, or it asks for more bytes than can be counted.
    #[error("bad number")]
    Number,
    /// The text is not a moment.
    #[error("bad moment")]
    Moment,
    /// The text is not the name of an account.
    #[error("bad account")]
    Account,
    /// The text is not two keys in Base64.
    #[error("bad keys")]
    Keys,
    /// A connection does not end this way.
    #[error("bad end")]
    End,
    /// The name is not made of lower-case letters, digits and `_`.
    #[error("bad name")]
    Name,
    /// Another case, or another text, of the file has this name.
    #[error("the name is used twice")]
    NameTwice,
    /// No text before this line has this name.
    #[error("unknown text")]
    UnknownText,
    /// `is` comes before the first `text`.
    #[error("no text was begun")]
    NoText,
    /// The line is allowed in a case alone, and no case was begun.
    #[error("no case was begun")]
    NoCase,
    /// A case was begun and has no end, but the line is allowed between two cases alone, or the file ends.
    #[error("the case has no end")]
    NoEnd,
    /// The lines before the case did not give both an account and keys.
    #[error("no account or no keys were said")]
    NoKeys,
    /// No line of the case gave a moment.
    #[error("the case has no moment")]
    NoMoment,
    /// Out of memory.
    #[error("out of memory")]
    NoMemory,
}

impl From<AllocError> for LineFault {
    ghost from_gives = { λ _ fault. fault ≡ NoMemory };

    fn from(_error: AllocError) -> Self {
        LineFault::NoMemory
    }
}

impl<T: Drop> From<AllocFailed<T>> for LineFault {
    ghost from_gives = { λ _ fault. fault ≡ NoMemory };

    fn from(_error: AllocFailed<T>) -> Self {
        LineFault::NoMemory
    }
}
