//! How a key of an account is replaced in the pairs of all accounts.
ghost use Rattle.std.specs.Prelude.{◌≡◌, IfErr, IfOk, true};
ghost use Rattle.std.specs.Arc.{arc_value};
ghost use Rattle.access_rules.specs.Rotation.{epoch_after, rotated};
ghost use Rattle.access_rules.specs.declared.rotation.KeysFault.TheVariants.{Last};
ghost use Rattle.slot_state.specs.NextPairs.{HasNewKey, HasNextPair, HasNoNextPair, last_epoch};

use crate::account_pairs::{AccountPairs, share};
use crate::rotate_fault::RotateFault;
use access_rules::{Keys, KeysFault, Which};
use hmac_sign::SigningKey;
use stamp_types::Text;
use std::alloc::{AllocError, Global};
use std::sync::Arc;

/// The pairs of all accounts with a new pair, and the epoch of that pair.
#[derive(Drop)]
pub struct Longer {
    pub pairs: Arc<AccountPairs>,
    pub epoch: u64,
}

// Whether the pair has this key in the place of the key that is replaced, and the other key of the old pair.
fn has_key(pair: &Keys, old: &Keys, which: Which, key: &SigningKey) -> bool
    ensures { result ≡ true → HasNewKey pair.now old.now which key.now }
{
    match which {
        Which::First => pair.first == *key && pair.second == old.second,
        Which::Second => pair.first == old.first && pair.second == *key,
    }
}

// Whether the pair is the one after the old pair, with this key in the place of the one that is replaced.
#[tactic(auto, using(crate::proofs::RotationLemmas::pair_is))]
fn comes_after(pair: &Keys, old: &Keys, which: Which, key: &SigningKey) -> bool
    ensures { result ≡ true → pair.now ≡ rotated old.now which key.now (epoch_after old.now.epoch) }
{
    if pair.account != old.account || pair.epoch <= old.epoch {
        return false;
    }
    pair.epoch - old.epoch == 1 && has_key(pair, old, which, key)
}

// A new pair: the one after the old pair, with one of its keys replaced.
fn new_pair(
    old: &Keys,
    alloc: Global,
    which: Which,
    key: &SigningKey,
) -> Result<Arc<Keys>, KeysFault>
    ensures made { IfOk result (λ pair. arc_value pair ≡ rotated old.now which key.now (epoch_after old.now.epoch)) }
    ensures last { IfErr result (λ fault. fault ≡ Last → old.now.epoch ≡ last_epoch) }
{
    let copy = key.clone()?;
    match old.next(which, copy) {
        Ok(pair) => {
            let shared = share(alloc, pair)?;
            Ok(shared)
        }
        Err(KeysFault::Last) => Err(KeysFault::Last),
        Err(KeysFault::NoMemory) => Err(KeysFault::NoMemory),
    }
}

// The pair after the old pair, with one of its keys replaced. If it was made before, for other pairs, it has one more owner.
fn pair_after(
    old: &Keys,
    alloc: Global,
    which: Which,
    key: &SigningKey,
    made: Option<&Arc<Keys>>,
) -> Result<Arc<Keys>, KeysFault>
    ensures made { IfOk result (λ pair. arc_value pair ≡ rotated old.now which key.now (epoch_after old.now.epoch)) }
    ensures last { IfErr result (λ fault. fault ≡ Last → old.now.epoch ≡ last_epoch) }
{
    if let Some(pair) = made {
        if comes_after(pair, old, which, key) {
            let shared = pair.clone()?;
            return Ok(shared);
        }
    }
    new_pair(old, alloc, which, key)
}

impl AccountPairs {
    /// These pairs after a key of the account's pair in force is replaced, as [`with_next`](AccountPairs::with_next) makes them. If the new pair
    /// was made before, for other pairs, it has one more owner.
    ///
    /// `NoAccount` if the account has no pair, `Last` if no epoch comes after the epoch of its pair in force, and `NoMemory` if memory runs out, or
    /// if a pair can have no further owner.
    #[tactic(auto, using(crate::proofs::RotationLemmas::made_next, crate::proofs::RotationLemmas::made_longer, crate::proofs::RotationLemmas::some_current))]
    pub fn rotated(
        &self,
        alloc: Global,
        account: &Text,
        which: Which,
        key: &SigningKey,
        made: Option<&Arc<Keys>>,
    ) -> Result<Longer, RotateFault>
        ensures made { IfOk result (λ longer. HasNextPair self.now account.now which key.now longer.epoch (arc_value longer.pairs)) }
        ensures refused { IfErr result (λ fault. HasNoNextPair self.now account.now fault) }
    {
        let Some(old) = self.current(account) else {
            return Err(RotateFault::NoAccount);
        };
        match pair_after(old, alloc, which, key, made) {
            Ok(pair) => {
                let epoch = pair.epoch;
                match self.with_next(alloc, account, pair) {
                    Ok(pairs) => Ok(Longer { pairs, epoch }),
                    Err(AllocError) => Err(RotateFault::NoMemory),
                }
            }
            Err(KeysFault::Last) => Err(RotateFault::Last),
            Err(KeysFault::NoMemory) => Err(RotateFault::NoMemory),
        }
    }
}
