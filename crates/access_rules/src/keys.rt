//! The keys of accounts.

use hmac_sign::SigningKey;
use stamp_types::AccountName;
use std::fmt;

/// The pair of keys of an account. A signature by either key is accepted. `epoch` is how often the pair was replaced.
#[derive(Clone, PartialEq, Eq, Drop)]
pub struct Keys {
    pub account: AccountName,
    pub first: SigningKey,
    pub second: SigningKey,
    pub epoch: u64,
}

// A derived `Debug` would print the account and the epoch.
impl fmt::Debug for Keys {
    ghost use Rattle.std.specs.Prelude.{Some, codes};

    ghost debug_output = { λ _. Some (codes "Keys(..)") };

    fn fmt<W: fmt::Write>(&self, f: &mut fmt::Formatter<W>) -> fmt::Result {
        f.write_str("Keys(..)")
    }
}
