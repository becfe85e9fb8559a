//! A case: what is sent, at which moments, what must come back, and how the connection must end.
ghost use Rattle.std.specs.Prelude.{◌≡◌};

use access_rules::Keys;
use http_front::{End, FrontFault};
use stamp_types::Moment;
use std::alloc::Global;

/// How many reads are allowed if the case does not say it.
const READS: u64 = 4_294_967_296;

/// When the container of a case is made.
#[derive(Clone, Copy, PartialEq, Eq)]
pub(crate) enum Made {
    /// At the first moment of the case.
    First,
    /// At this moment.
    At(Moment),
}

/// One case of a file.
#[derive(Drop)]
pub(crate) struct Case {
    pub(crate) name: String,
    /// The number of the line that begins the case.
    pub(crate) line: usize,
    /// The account and its first pair of keys.
    pub(crate) keys: Keys,
    /// When the container `pics` is made, if it is made before the case begins.
    pub(crate) made: Option<Made>,
    /// The moments of the clock, in order.
    pub(crate) moments: Vec<Moment>,
    pub(crate) sent: Vec<u8>,
    pub(crate) wanted: Vec<u8>,
    pub(crate) reads: u64,
    /// How many bytes a read gives at most, if only one way of reading is tried.
    pub(crate) piece: Option<usize>,
    /// How the connection must end.
    pub(crate) end: Result<End, FrontFault>,
    pub(crate) ghost first: { keys.epoch ≡ 0 },
}

impl Case {
    /// A case that sends nothing and wants nothing, and whose connection ends clean.
    pub(crate) fn new(
        alloc: Global,
        name: String,
        line: usize,
        keys: Keys,
        made: Option<Made>,
    ) -> Self
        requires { keys.epoch ≡ 0 }
    {
        Self {
            name,
            line,
            keys,
            made,
            moments: Vec::new(alloc),
            sent: Vec::new(alloc),
            wanted: Vec::new(alloc),
            reads: READS,
            piece: None,
            end: Ok(End::Clean),
        }
    }

    /// The moment at which the container is made, if it is made. `first` is the first moment of the case.
    pub(crate) fn made_at(&self, first: Moment) -> Option<Moment> {
        match self.made? {
            Made::First => Some(first),
            Made::At(moment) => Some(moment),
        }
    }
}
