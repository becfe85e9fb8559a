//! How a key of an account is replaced, for all slots at once.
ghost use Rattle.std.specs.Prelude.{◌≡◌, ◌+◌, IfErr, IfOk, OnErr, OnOk};
ghost use Rattle.std.specs.Arc.{arc_value};
ghost use Rattle.slot_state.specs.NextPairs.{HasNextPair};
ghost use Rattle.stamp_core.specs.Ranges.{HaveSpans};
ghost use Rattle.stamp_core.specs.Rotations as rotations;
ghost use Rattle.stamp_core.specs.Rotations.{BeginPairs, HaveCaughtUp, IsRotated, TellsNoNextPair, pairs_of_all};

use access_rules::Which;
use core_run::{Outcome, StepFault};
use hmac_sign::SigningKey;
use partition_map::Spans;
use slot_state::{AccountPairs, Histories, Longer, RotateFault};
use stamp_types::Text;
use std::alloc::{AllocError, Global};
use std::sync::Arc;
use stored_slot::StoredSlot;

// The fault of a step for why no key is replaced.
fn told(fault: RotateFault) -> StepFault
    ensures { result ≡ rotations.told fault }
{
    match fault {
        RotateFault::NoAccount => StepFault::NoAccount,
        RotateFault::Last => StepFault::Last,
        RotateFault::NoMemory => StepFault::NoMemory,
    }
}

// The pairs of all accounts, after a key of one account is replaced.
#[tactic(auto, using(crate::proofs::RotateLemmas::not_made))]
fn next_pairs(
    pairs: &AccountPairs,
    alloc: Global,
    account: &Text,
    which: Which,
    key: &SigningKey,
) -> Result<Longer, StepFault>
    ensures made { IfOk result (λ longer.
        HasNextPair pairs.now account.now which key.now longer.epoch (arc_value longer.pairs)) }
    ensures refused { IfErr result (λ fault. TellsNoNextPair pairs.now account.now fault) }
{
    match pairs.rotated(alloc, account, which, key, None) {
        Ok(longer) => Ok(longer),
        Err(fault) => Err(told(fault)),
    }
}

// The same of the pairs that all slots have.
fn longer_pairs<H: Histories>(
    slots: &Vec<StoredSlot<H>>,
    spans: &Spans,
    alloc: Global,
    account: &Text,
    which: Which,
    key: &SigningKey,
) -> Result<Longer, StepFault>
    requires { HaveSpans slots.now.items spans.now }
    ensures made { IfOk result (λ longer.
        HasNextPair (pairs_of_all slots.now.items) account.now which key.now longer.epoch (arc_value longer.pairs)) }
    ensures refused { IfErr result (λ fault. TellsNoNextPair (pairs_of_all slots.now.items) account.now fault) }
{
    let _spans = spans;
    next_pairs(slots[0].account_pairs(), alloc, account, which, key)
}

// The slots from this number on take the longer pairs. The share of each slot is made before any slot is changed.
#[tactic(auto, using(crate::proofs::RotateLemmas::none_left, crate::proofs::RotateLemmas::still_within, crate::proofs::RotateLemmas::may_take))]
fn bring_up<H: Histories>(
    slots: &mut Vec<StoredSlot<H>>,
    at: usize,
    pairs: &Arc<AccountPairs>,
) -> Result<(), AllocError>
    requires { BeginPairs slots.old.items (arc_value pairs.now) }
    ensures caught_up { OnOk result (HaveCaughtUp slots.old.items at (arc_value pairs.now) slots.new.items) }
    ensures refused { OnErr result (slots.new ≡ slots.old) }
{
    if at >= slots.len() {
        return Ok(());
    }
    let share = pairs.clone()?;
    bring_up(slots, at + 1, pairs)?;
    slots[at].catch_up(share);
    Ok(())
}

/// Replaces a key of an account, for all slots at once. Answers the epoch of the new pair.
///
/// `NoAccount` if the stamp has no such account, `Last` if no epoch comes after the epoch of the pair in force, and `NoMemory` if memory runs
/// out. The slots are then as they were.
#[tactic(auto, using(crate::proofs::RotateLemmas::made_then_none))]
pub(crate) fn rotate<H: Histories>(
    slots: &mut Vec<StoredSlot<H>>,
    spans: &Spans,
    alloc: Global,
    account: &Text,
    which: Which,
    key: SigningKey,
) -> Result<Outcome, StepFault>
    requires before { HaveSpans slots.old.items spans.now }
    ensures after { HaveSpans slots.new.items spans.now }
    ensures rotated { IsRotated slots.old.items account.now which key result slots.new.items }
{
    match longer_pairs(slots, spans, alloc, account, which, &key) {
        Ok(longer) => match bring_up(slots, 0, &longer.pairs) {
            Ok(()) => Ok(Outcome::Epoch(longer.epoch)),
            Err(AllocError) => Err(StepFault::NoMemory),
        },
        Err(fault) => Err(fault),
    }
}
