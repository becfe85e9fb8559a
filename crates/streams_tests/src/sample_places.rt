//! Places in a stream, for tests.
ghost use Rattle.std.specs.Prelude.{◌≡◌};

use stamp_values::Place;

// The place of this index of this extent.
pub(crate) fn place(extent: u64, index: u64) -> Place
    ensures { result ≡ record { extent = extent; index = index } }
{
    Place { extent, index }
}
