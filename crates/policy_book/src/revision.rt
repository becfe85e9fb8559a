//! Snapshots of what judges a request.
ghost use Rattle.std.specs.Prelude.{◌≡◌, option_copied, option_map};
ghost use Rattle.std.specs.Arc.{arc_value};

use access_rules::Keys;
use stamp_types::Acl;
use std::marker::Model;
use std::sync::Arc;

/// What a container says about who may read it, and the keys of its account, as they were at one moment. Both are shared.
#[derive(Drop)]
pub struct Revision {
    acl: Option<Arc<Acl>>,
    keys: Option<Arc<Keys>>,
}

impl Model for Revision {
    ghost use Rattle.std.specs.Prelude.{option_map};
    ghost use Rattle.std.specs.Arc.{arc_value};
    ghost use Rattle.policy_book.specs.Judgements.{Revised};

    ghost Value = { Revised };

    ghost view = { λ r. record { acl = option_map arc_value r.acl; keys = option_map arc_value r.keys } };
}

impl Revision {
    /// A snapshot. `acl` is `None` if the container does not exist, and `keys` is `None` if the stamp has no keys of the account.
    pub fn new(acl: Option<Arc<Acl>>, keys: Option<Arc<Keys>>) -> Self
        ensures { result ≡ record { acl = option_map arc_value acl; keys = option_map arc_value keys } }
    {
        Self { acl, keys }
    }

    /// What the container says about who may read it, if it existed.
    pub fn acl(&self) -> Option<&Acl>
        ensures { option_copied result ≡ self.now.acl }
    {
        match &self.acl {
            Some(acl) => Some(acl),
            None => None,
        }
    }

    /// The keys of the account, if the stamp had them.
    pub fn keys(&self) -> Option<&Keys>
        ensures { option_copied result ≡ self.now.keys }
    {
        match &self.keys {
            Some(keys) => Some(keys),
            None => None,
        }
    }
}
