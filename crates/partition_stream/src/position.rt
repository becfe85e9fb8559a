//! Positions in a walk over changes.
ghost use Rattle.std.specs.Prelude.{◌≡◌, []};
ghost use Rattle.partition_stream.specs.Positions.{changes_before};
ghost use Rattle.partition_stream.specs.Streams.{ThreeStreams};

/// How far a walk over the changes of streams has come: first over the rows of the last checkpoint, then over the log.
#[derive(Clone, Copy)]
pub struct Position {
    // Whether the rows are done.
    pub(crate) in_log: bool,
    // The number of the extent, and the index there of the next block.
    pub(crate) extent: usize,
    pub(crate) index: usize,
}

impl Position {
    /// The position before the first change.
    pub fn first() -> Self
        ensures { (s : ThreeStreams) → changes_before s result ≡ [] }
    {
        Self {
            in_log: false,
            extent: 0,
            index: 0,
        }
    }
}
