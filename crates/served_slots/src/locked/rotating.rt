//! How a key of an account is replaced for all slots, each of which enters the rotation.
ghost use Rattle.std.specs.Prelude.{◌≡◌, ◌<◌, ◌^◌, Err, IfOk, IfSome, List, None, OnErr, true};
ghost use Rattle.std.specs.Arc.{arc_value};
ghost use Rattle.access_rules.specs.declared.rotation.KeysFault.TheVariants.{Last};
ghost use Rattle.slot_state.specs.NextPairs.{HasNextPair};
ghost use Rattle.served_history.specs.declared.entry.Entry.{Entry};
ghost use Rattle.served_history.specs.Histories.{count_of};
ghost use Rattle.served_slots.specs.Rotations.{HasLastEpoch, RotatesSlot, RotatesSlots};
ghost use Rattle.served_slots.specs.Slots.{IsLeftBy};

use crate::locked::LockedSlot;
use crate::next_pairs::{KeyChange, longer_in};
use crate::taking::take_and_enter;
use access_rules::{Keys, KeysFault};
use served_history::{Account, LogFront, SlotHistory};
use slot_state::{Longer, ProvedHistories, RotateFault};
use stamp_types::Key;
use std::alloc::Global;
use std::sync::{Arc, Mutex};
use stored_slot::StoredSlot;

/// The outcome of a rotation of slots whose longer pairs were made.
#[derive(Clone, Copy)]
pub(crate) struct Turn {
    /// The epoch of the new pair of the first of the slots that entered the rotation; none if no slot did.
    pub(crate) told: Option<u64>,
    /// Whether the history missed the entry of one of the slots, which is of no use any more.
    pub(crate) missed: bool,
}

// The pairs of the slot after the rotation; none if the slot is of no use.
//
// `Last` if no epoch comes after that of the slot's pair. `NoMemory` if memory runs out, or if the account has no pair, or if the slot has made as
// many entries as it may.
fn longer_of<A: Account>(
    slot: &StoredSlot<ProvedHistories>,
    history: &Option<SlotHistory<A>>,
    to: &Option<Key>,
    known: &LogFront<A>,
    alloc: Global,
    change: &KeyChange<'_>,
    made: Option<&Arc<Keys>>,
) -> Result<Option<Longer>, KeysFault>
    requires left { IfSome history.now (λ own. IsLeftBy own to.now slot.now) }
    ensures made { IfOk result (λ found. IfSome found (λ longer. HasNextPair slot.now.pairs change.now.account.now change.now.which change.now.key.now longer.epoch (arc_value longer.pairs))) }
    ensures room { IfOk result (λ found. IfSome found (λ longer. IfSome history.now (λ own. count_of own.slot own.log < 2 ^ 62))) }
    ensures passed { IfOk result (λ found. found ≡ None → history.now ≡ None) }
    ensures last { result ≡ Err Last → HasLastEpoch known.now change.now.account.now }
{
    let _end = to;
    let Some(own) = history else {
        return Ok(None);
    };
    if own.is_full() {
        return Err(KeysFault::NoMemory);
    }
    let mut both = own.front();
    both.learn(known);
    match longer_in(slot, alloc, change, made) {
        Ok(longer) => Ok(Some(longer)),
        Err(RotateFault::Last) => Err(KeysFault::Last),
        Err(RotateFault::NoAccount | RotateFault::NoMemory) => Err(KeysFault::NoMemory),
    }
}

// The slot takes its longer pairs, if it is of use, and enters the rotation. Answers the epoch of its new pair, or else the epoch that was told before.
// If the history misses the entry, the slot is of no use any more, and the answer says so.
fn enter_longer<A: Account>(
    slot: &mut StoredSlot<ProvedHistories>,
    history: &mut Option<SlotHistory<A>>,
    to: &Option<Key>,
    known: &mut LogFront<A>,
    change: &KeyChange<'_>,
    longer: Option<Longer>,
    before: Turn,
) -> Turn
    requires left { IfSome history.old (λ own. IsLeftBy own to.now slot.old) }
    requires next { IfSome longer (λ found. HasNextPair slot.old.pairs change.now.account.now change.now.which change.now.key.now found.epoch (arc_value found.pairs)) }
    requires room { IfSome longer (λ found. IfSome history.old (λ own. count_of own.slot own.log < 2 ^ 62)) }
    requires passed { longer ≡ None → history.old ≡ None }
    ensures left { IfSome history.new (λ own. IsLeftBy own to.now slot.new) }
    ensures slot { RotatesSlot history.old known.old change.now.account.now change.now.which change.now.key.now known.new result.missed history.new }
    ensures slots { (start : List Entry) → RotatesSlots start change.now.account.now change.now.which change.now.key.now before.told known.old
        → RotatesSlots start change.now.account.now change.now.which change.now.key.now result.told known.new }
    ensures missed { before.missed ≡ true → result.missed ≡ true }
{
    let Some(longer) = longer else {
        return before;
    };
    let Some(own) = history else {
        drop(longer);
        return before;
    };
    match take_and_enter(slot, own, to, known, change, longer) {
        Some(epoch) => Turn {
            told: Some(epoch),
            missed: before.missed,
        },
        None => {
            drop(history.take());
            Turn {
                told: before.told,
                missed: true,
            }
        }
    }
}

/// A key of the account is replaced for this slot and the slots after it. Each of them takes its longer pairs and enters the rotation, the last one
/// first; a slot of no use is passed over. Answers the epoch of the new pair of the first slot; none if all are of no use. Each slot whose next pair is
/// the one that was made before takes one more owner of it. If the history misses the entry of a slot, this slot is of no use any more, and the answer
/// says so.
///
/// `Last` if no epoch comes after that of a slot's pair. `NoMemory` if memory runs out, or if the account has no pair, or if a slot has made as many
/// entries as it may. Then no slot is changed: all longer pairs are made before the first slot takes its own.
pub(crate) fn rotate_from<A: Account>(
    locked: &mut LockedSlot<A>,
    rest: &mut [Mutex<LockedSlot<A>>],
    alloc: Global,
    known: &mut LogFront<A>,
    change: &KeyChange<'_>,
    made: Option<&Arc<Keys>>,
) -> Result<Turn, KeysFault>
    ensures rotated { IfOk result (λ turn. RotatesSlots known.old change.now.account.now change.now.which change.now.key.now turn.told known.new) }
    ensures slot { IfOk result (λ turn. (mid : List Entry) × RotatesSlot locked.old mid change.now.account.now change.now.which change.now.key.now known.new turn.missed locked.new) }
    ensures refused { OnErr result ((known.new ≡ known.old) × (locked.new ≡ locked.old)) }
    ensures last { result ≡ Err Last → HasLastEpoch known.old change.now.account.now }
{
    let longer = longer_of(
        &locked.slot,
        &locked.history,
        &locked.to,
        known,
        alloc,
        change,
        made,
    )?;
    let Some((next, others)) = rest.split_first_mut() else {
        return Ok(enter_longer(
            &mut locked.slot,
            &mut locked.history,
            &locked.to,
            known,
            change,
            longer,
            Turn {
                told: None,
                missed: false,
            },
        ));
    };
    let turn = rotate_from(next.get_mut(), others, alloc, known, change, made)?;
    Ok(enter_longer(
        &mut locked.slot,
        &mut locked.history,
        &locked.to,
        known,
        change,
        longer,
        turn,
    ))
}
