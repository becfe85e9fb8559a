//! Where a sweep of streams begins.

/// How many extents of the log and of the data were sealed when a sweep began. Changes that were logged since then, and content that was
/// put since then, are in the extents from these numbers on, if the last extents had no block.
#[derive(Clone, Copy)]
pub struct Mark {
    /// The number of sealed extents of the log.
    pub log: usize,
    /// The number of sealed extents of the data.
    pub blobs: usize,
}
