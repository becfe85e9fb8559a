//! The key pairs of a slot after a rotation, made before any slot is changed.
ghost use Rattle.std.specs.Prelude.{IfErr, IfOk};
ghost use Rattle.std.specs.Arc.{arc_value};
ghost use Rattle.slot_state.specs.NextPairs.{HasNextPair, HasNoNextPair};

use access_rules::{Keys, Which};
use hmac_sign::SigningKey;
use slot_state::{AccountPairs, Longer, ProvedHistories, RotateFault};
use stamp_types::Text;
use std::alloc::{AllocError, Global};
use std::sync::Arc;
use stored_slot::StoredSlot;

/// A key that takes the place of one of the two keys of an account.
#[derive(Drop)]
pub(crate) struct KeyChange<'a> {
    pub(crate) account: &'a Text,
    pub(crate) which: Which,
    pub(crate) key: &'a SigningKey,
}

/// The pairs of the slot after a key of the account's pair in force is replaced. If the new pair was made before, for other pairs, it has one more
/// owner.
///
/// `NoAccount` if the account has no pair, `Last` if no epoch comes after the epoch of the pair in force, and `NoMemory` if memory runs out.
pub(crate) fn longer_in(
    slot: &StoredSlot<ProvedHistories>,
    alloc: Global,
    change: &KeyChange<'_>,
    made: Option<&Arc<Keys>>,
) -> Result<Longer, RotateFault>
    ensures made { IfOk result (λ longer. HasNextPair slot.now.pairs change.now.account.now change.now.which change.now.key.now longer.epoch (arc_value longer.pairs)) }
    ensures refused { IfErr result (λ fault. HasNoNextPair slot.now.pairs change.now.account.now fault) }
{
    slot.account_pairs()
        .rotated(alloc, change.account, change.which, change.key, made)
}

/// The pairs by which signatures are judged before a lock is taken, after the rotation; none if no epoch comes after their pair in force. No clause
/// says what they are: a slot judges a signature again if it has another pair.
pub(crate) fn judging_pairs(
    pairs: &AccountPairs,
    alloc: Global,
    account: &Text,
    which: Which,
    key: &SigningKey,
) -> Result<Option<Arc<AccountPairs>>, AllocError> {
    match pairs.rotated(alloc, account, which, key, None) {
        Ok(longer) => Ok(Some(longer.pairs)),
        Err(RotateFault::Last) => Ok(None),
        Err(RotateFault::NoAccount | RotateFault::NoMemory) => Err(AllocError),
    }
}

/// The account's pair in force among the next pairs, if there are next pairs.
pub(crate) fn made_pair<'a>(
    next: &'a Option<Arc<AccountPairs>>,
    account: &Text,
) -> Option<&'a Arc<Keys>> {
    match next {
        Some(pairs) => pairs.of_account(account).last(),
        None => None,
    }
}
