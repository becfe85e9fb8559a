//! Pairs of keys for tests.
ghost use Rattle.std.specs.Prelude.{◌≡◌};

use access_rules::Keys;
use hmac_sign::SigningKey;
use stamp_types::AccountName;

/// The pair of these two keys, of this epoch.
pub(crate) fn pair_of(
    account: AccountName,
    first: SigningKey,
    second: SigningKey,
    epoch: u64,
) -> Keys
    ensures account { result.account ≡ account }
    ensures epoch { result.epoch ≡ epoch }
{
    Keys {
        account,
        first,
        second,
        epoch,
    }
}
