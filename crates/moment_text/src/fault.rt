//! Why a text does not name a moment.
use thiserror::Error;

/// Why a text does not name a moment.
#[derive(Clone, Copy, Debug, PartialEq, Eq, Error)]
pub enum TimeFault {
    /// The text does not have the form of a time.
    #[error("the text has no shape of a time")]
    Form,
    /// The text has the form of a time, but the day or the time does not exist, or the year is outside 1970 to 9999.
    #[error("there is no such day or time")]
    Range,
    /// Memory ran out. No reader of this crate takes memory: the variant exists for callers that do.
    #[error("no memory")]
    NoMemory,
}
