//! Rows that are in memory no more.
ghost use Rattle.std.specs.Prelude.{◌≡◌};
ghost use Rattle.std.specs.Option.{option_copied};

use row_trees::Rows;

/// The rows that were in memory until they were unloaded, if they were. To drop them takes time for each row, so a caller may drop them once
/// it holds no lock.
///
/// Only [`StoredRows::unload`](crate::StoredRows::unload) makes such a value, so whoever has one has unloaded rows.
#[derive(Drop)]
pub struct Unloaded {
    pub(crate) rows: Option<Rows>,
}

impl Unloaded {
    /// The rows, if they were in memory.
    pub fn rows(&self) -> Option<&Rows>
        ensures { option_copied result ≡ self.now.rows }
    {
        self.rows.as_ref()
    }
}
