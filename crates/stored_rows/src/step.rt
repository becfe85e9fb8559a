//! How far a step of a sweep goes, and how far it has come.

use crate::rewriting::stored_blob;
use crate::waste::{Size, blob_row_size, container_row_size};
use row_trees::Rows;
use stamp_types::{Change, Key, StoredBlob};

/// How much one step of a sweep writes again: it ends once it has written so much. One row is written, however large it is.
#[derive(Clone, Copy)]
pub struct StepLimit {
    /// Rows of containers and of blobs.
    pub rows: u32,
    /// Blocks of blobs, committed or not.
    pub blocks: u64,
    /// Bytes of content, which are not copied.
    pub bytes: u64,
}

// The rows of the step of a request that writes.
const FEW_ROWS: u32 = 4;

// The blocks of this step.
const FEW_BLOCKS: u64 = 2_000;

// The bytes of content of this step, if the request brings no more.
const FEW_BYTES: u64 = 4_194_304;

impl StepLimit {
    /// The step that a request makes before it writes, if it brings so many bytes of content: 4 rows, 2,000 blocks, and 4 MiB or as many bytes as the
    /// request brings. A request adds two rows at most and as much garbage as content, so a sweep gains on the requests.
    pub fn of_a_write(brought: u64) -> Self {
        Self {
            rows: FEW_ROWS,
            blocks: FEW_BLOCKS,
            bytes: brought.max(FEW_BYTES),
        }
    }
}

/// How far a sweep has come after a step.
#[derive(Clone, Copy, Debug, PartialEq, Eq)]
pub enum Progress {
    /// No sweep is under way.
    NoSweep,
    /// Rows are left.
    RowsLeft,
    /// Each row was written since the sweep began.
    Done,
}

/// The size of what was written again.
#[derive(Clone, Copy)]
pub(crate) struct Rewritten {
    pub(crate) blocks: u64,
    pub(crate) size: Size,
}

impl Rewritten {
    pub(crate) const fn none() -> Self {
        Self {
            blocks: 0,
            size: Size::none(),
        }
    }

    pub(crate) const fn and(self, other: Self) -> Self {
        Self {
            blocks: self.blocks.saturating_add(other.blocks),
            size: self.size.and(other.size),
        }
    }

    /// Whether a step that has written so much goes on.
    pub(crate) const fn is_within(self, limit: StepLimit) -> bool {
        self.blocks < limit.blocks && self.size.content() < limit.bytes
    }
}

// How many blocks the row of a blob has.
fn blocks_of(row: &StoredBlob) -> u64 {
    let uncommitted = row.uncommitted.as_slice().len() as u64;
    match &row.committed {
        Some(committed) => uncommitted.saturating_add(committed.blocks.as_slice().len() as u64),
        None => uncommitted,
    }
}

/// The size of the row of a blob.
pub(crate) fn row_size(row: &Change) -> Rewritten {
    match stored_blob(row.act()) {
        Some(stored) => Rewritten {
            blocks: blocks_of(stored),
            size: blob_row_size(row.key(), stored),
        },
        None => Rewritten::none(),
    }
}

/// The size of the own row of a container.
pub(crate) fn own_size(rows: &Rows, key: &Key) -> Rewritten {
    Rewritten {
        blocks: 0,
        size: container_row_size(key, &rows.find(key)),
    }
}
