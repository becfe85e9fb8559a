//! Parts of requests and of changes, for tests.
ghost use Rattle.std.specs.Prelude.{◌≡◌, None, false};

use stamp_types::{PAGE_LIMIT, Page, Place};

// The longest page from the first name on.
pub(crate) fn page() -> Page
    ensures { result ≡ record { prefix = None; delimiter = None; marker = None; max = 5_000; metadata = false } }
{
    Page {
        prefix: None,
        delimiter: None,
        marker: None,
        max: PAGE_LIMIT,
        metadata: false,
    }
}

// The place of the first block of an extent.
pub(crate) fn first_place(extent: u64) -> Place
    ensures { result ≡ record { extent = extent; index = 0 } }
{
    Place { extent, index: 0 }
}
