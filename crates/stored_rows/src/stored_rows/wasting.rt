//! Whether streams have so many bytes to which nothing refers that a sweep is worth its time.

use super::StoredRows;

impl StoredRows {
    /// Whether the bytes of the streams to which no container refers are more than a third of the bytes that exist and 16 MiB, so that a sweep is
    /// worth its time. Content counts, and each record by its length and 256 bytes more.
    ///
    /// No answer depends on it. It is counted as changes are taken and as a sweep writes rows, and again from the rows when they are loaded or cut.
    pub fn is_wasteful(&self) -> bool {
        self.waste.is_wasteful()
    }

    /// Whether the bytes of the streams to which no container refers are more than 1 MiB and a sixteenth of the bytes that exist, so that a
    /// sweep is worth its time if memory is short. No answer depends on it.
    pub fn has_garbage(&self) -> bool {
        self.waste.has_garbage()
    }
}
