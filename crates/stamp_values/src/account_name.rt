//! Names of accounts.
ghost use Rattle.std.specs.Prelude.{◌≡◌, ◌↔◌, IsSome, IfSome, IsTrue};
ghost use Rattle.stamp_values.specs.Names.{is_account};

use crate::names::account_ok;
use crate::text::Text;
use std::marker::Model;

/// The name of an account: 3 to 24 lower-case letters and digits.
#[derive(Clone, PartialEq, Eq, Drop)]
pub struct AccountName {
    text: Text,
}

impl Model for AccountName {
    ghost use Rattle.std.specs.Prelude.{List, ℕ, IsTrue};
    ghost use Rattle.stamp_values.specs.Names.{is_account};

    ghost Value = { List ℕ };

    ghost view = { λ n. n.text };

    ghost invariant = { λ n. IsTrue (is_account n.text) };

    ghost inverse = { λ t. record { text = t } };
}

impl AccountName {
    /// The name, or `None` if no account may have it.
    pub fn new(text: Text) -> Option<Self>
        ensures valid { IsSome result ↔ IsTrue (is_account text) }
        ensures value { IfSome result (λ n. n ≡ text) }
    {
        if account_ok(text.as_str().as_bytes()) {
            Some(Self { text })
        } else {
            None
        }
    }

    /// The name.
    pub fn as_str(&self) -> &str
        ensures value { result.now ≡ self.now }
        ensures named { IsTrue (is_account self.now) }
    {
        let _text = &self.text;
        self.text.as_str()
    }
}
