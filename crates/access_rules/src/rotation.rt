//! Replacing a key of an account.
ghost use Rattle.std.specs.Prelude.{◌≡◌, ◌↔◌, ◌+◌, Err, IfOk};
ghost use Rattle.access_rules.specs.Rotation.{rotated};
ghost use Rattle.access_rules.specs.declared.rotation.KeysFault.TheVariants.{Last};

use crate::keys::Keys;
use hmac_sign::SigningKey;
use std::alloc::AllocError;

/// One of the two keys of an account.
#[derive(Clone, Copy, Debug, PartialEq, Eq)]
pub enum Which {
    First,
    Second,
}

/// Why no key was replaced.
#[derive(Clone, Copy, Debug, PartialEq, Eq)]
pub enum KeysFault {
    /// The epoch of the pair is 18,446,744,073,709,551,615, and no epoch comes after it.
    Last,
    /// Memory ran out.
    NoMemory,
}

impl From<AllocError> for KeysFault {
    ghost use Rattle.std.specs.Prelude.{◌≡◌};
    ghost use Rattle.access_rules.specs.declared.rotation.KeysFault.TheVariants.{NoMemory};

    ghost from_gives = { λ _ e. e ≡ NoMemory };

    fn from(_error: AllocError) -> Self {
        Self::NoMemory
    }
}

// The pair with one of its keys replaced, and with this epoch.
fn replaced(pair: &Keys, which: Which, key: SigningKey, epoch: u64) -> Result<Keys, AllocError>
    ensures { IfOk result (λ it. it ≡ rotated pair.now which key epoch) }
{
    let account = pair.account.clone()?;
    let (first, second) = match which {
        Which::First => (key, pair.second.clone()?),
        Which::Second => (pair.first.clone()?, key),
    };
    Ok(Keys {
        account,
        first,
        second,
        epoch,
    })
}

impl Keys {
    /// The pair after this one: one of its keys is replaced, and its epoch is one higher, also if the new key is the key that it
    /// replaces.
    ///
    /// `Last` if no epoch comes after the epoch of this pair, and `NoMemory` if memory runs out for the copies of the account and of
    /// the other key. This pair stays as it is.
    pub fn next(&self, which: Which, key: SigningKey) -> Result<Self, KeysFault>
        ensures next { IfOk result (λ it. it ≡ rotated self.now which key (self.now.epoch + 1)) }
        ensures last { (result ≡ Err Last) ↔ (self.now.epoch ≡ 18_446_744_073_709_551_615) }
    {
        let epoch = self.epoch;
        if epoch == u64::MAX {
            drop(key);
            return Err(KeysFault::Last);
        }
        let pair = replaced(self, which, key, epoch + 1)?;
        Ok(pair)
    }
}
