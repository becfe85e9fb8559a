//! Parts of block lists and of changes, for tests.
ghost use Rattle.std.specs.Prelude.{◌≡◌, None};

use stamp_types::{BlockId, ContainerRow, Lookup, Wanted};

// The entry that looks for the block of an id in this way.
pub(crate) fn entry(lookup: Lookup, id: BlockId) -> Wanted
    ensures { result ≡ record { id = id; lookup = lookup } }
{
    Wanted { id, lookup }
}

// The row of a container that was deleted by the last of so many changes.
pub(crate) fn deleted_row(count: u64) -> ContainerRow
    ensures { result ≡ record { count = count; standing = None } }
{
    ContainerRow {
        count,
        standing: None,
    }
}
