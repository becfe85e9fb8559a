//! How a key of an account is replaced, for all slots at once: the table has the next pair, and each slot takes it before it serves.
ghost use Rattle.std.specs.Prelude.{◌≡◌, OnOk, true};
ghost use Rattle.slot_state.specs.NextPairs.{IsNext};
ghost use Rattle.slot_state.specs.Pairs.{current_at, pairs_at};

use access_rules::Keys;
use slot_state::{AccountPairs, KeptHistories};
use stamp_types::Text;
use std::alloc::{AllocError, Global};
use std::sync::Arc;
use stored_slot::StoredSlot;

// Whether both are the same pair: the same account, the same two keys and the same epoch.
fn is_same_pair(pair: &Keys, other: &Keys) -> bool
    ensures { result ≡ true → pair.now ≡ other.now }
{
    pair.epoch == other.epoch
        && pair.account == other.account
        && pair.first == other.first
        && pair.second == other.second
}

// Whether the pair is the next one of the slot.
#[tactic(auto, using(crate::proofs::RotateLemmas::next_of))]
fn is_next(slot: &StoredSlot<KeptHistories>, account: &Text, pair: &Keys) -> bool
    ensures { result ≡ true → IsNext (pairs_at slot.now.pairs account.now) pair.now }
{
    if let Some(old) = slot.account_pairs().current(account) {
        if old.epoch < pair.epoch {
            if pair.epoch - old.epoch == 1 {
                return true;
            }
        }
    }
    false
}

// Whether the slot's pair in force is that of these pairs.
fn has_current(slot: &StoredSlot<KeptHistories>, account: &Text, pairs: &AccountPairs) -> bool
    ensures { result ≡ true → current_at slot.now.pairs account.now ≡ current_at pairs.now account.now }
{
    match slot.account_pairs().current(account) {
        Some(own) => match pairs.current(account) {
            Some(pair) => is_same_pair(own, pair),
            None => false,
        },
        None => match pairs.current(account) {
            Some(_pair) => false,
            None => true,
        },
    }
}

// The slot takes this pair of the account, which is its next one. It shares the pair.
//
// `AllocError` if memory runs out, or if the slot has another next pair, which is never so. The slot is then as it was.
fn take_pair(
    slot: &mut StoredSlot<KeptHistories>,
    alloc: Global,
    account: &Text,
    pair: &Arc<Keys>,
) -> Result<(), AllocError> {
    let pair = pair.clone()?;
    if !is_next(slot, account, &pair) {
        drop(pair);
        return Err(AllocError);
    }
    slot.rotate(alloc, account, pair)
}

/// The slot takes the pairs of the account that it does not have yet. Then its pair in force is that of these pairs.
///
/// `AllocError` if memory runs out, or if the slot has other pairs than these, which is never so. The slot may then have some of the pairs, each
/// of which is the next one.
pub(crate) fn bring_up(
    slot: &mut StoredSlot<KeptHistories>,
    alloc: Global,
    account: &Text,
    pairs: &AccountPairs,
) -> Result<(), AllocError>
    ensures { OnOk result (current_at slot.new.pairs account.now ≡ current_at pairs.now account.now) }
{
    let all = pairs.of_account(account);
    for at in slot.pairs(account).len()..all.len() {
        if let Some(pair) = all.get(at) {
            take_pair(slot, alloc, account, pair)?;
        }
    }
    if !has_current(slot, account, pairs) {
        return Err(AllocError);
    }
    Ok(())
}
