//! Parts of replies, for tests.
ghost use Rattle.std.specs.Prelude.{◌≡◌};

use stamp_types::SentRange;

// The fifth and the sixth byte of the longest blob that 64 bits can count.
pub(crate) fn sent_range() -> SentRange
    ensures { result ≡ record { first = 4; last = 5; total = 18_446_744_073_709_551_615 } }
{
    SentRange {
        first: 4,
        last: 5,
        total: u64::MAX,
    }
}
