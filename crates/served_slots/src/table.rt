//! The table of the slots.
ghost use Rattle.std.specs.Prelude.{◌≡◌, ◌+◌, ◌<◌, ◌≤◌, Err, IfErr, IfOk, None, OnErr, OnOk, length, vec_capacity, vec_len};
ghost use Rattle.std.specs.Arc.{arc_value};
ghost use Rattle.access_rules.specs.declared.rotation.KeysFault.TheVariants.{Last};
ghost use Rattle.partition_map.specs.Spans.{split_refusal, with_point};
ghost use Rattle.slot_state.specs.Slots.{empty_slot};
ghost use Rattle.served_slots.specs.Rotations.{HasLastEpoch, HasRotated, RotatesSlots};
ghost use Rattle.served_slots.specs.Slots.{IsLeftBy};
ghost use Rattle.served_slots.specs.Steps.{refusal_at, split_at, split_cause};

use crate::entering::Missed;
use crate::locked::LockedSlot;
use crate::locked::rotating::{Turn, rotate_from};
use crate::next_pairs::KeyChange;
use crate::splitting::SplitFault;
use access_rules::{Keys, KeysFault, Which};
use hmac_sign::SigningKey;
use partition_map::{MapFault, Spans};
use served_history::{Account, LogFront, SlotHistory, SlotWord};
use slot_state::AccountPairs;
use stamp_types::{Key, Text};
use std::alloc::{AllocError, Global};
use std::sync::{Arc, Mutex, MutexGuard, Wait};

/// The spans of keys, a slot under a lock of its own for each, and the words of slots that are to come.
#[derive(Drop)]
pub(crate) struct Table<A: Account> {
    spans: Spans,
    slots: Vec<Mutex<LockedSlot<A>>>,
    spares: Vec<SlotWord<A>>,
    ghost one_each: { vec_len slots ≡ length spans + 1 },
}

// Cuts the slot of this lock. The upper half is answered.
fn cut_in<A: Account>(
    lock: &mut Mutex<LockedSlot<A>>,
    alloc: Global,
    middle: &Key,
    spares: &mut Vec<SlotWord<A>>,
) -> Result<LockedSlot<A>, Missed> {
    lock.get_mut().cut(alloc, middle, spares)
}

// Puts the two halves of a slot in its place, in which there is room for one slot more.
fn halve_reserved<A: Account>(
    slots: &mut Vec<Mutex<LockedSlot<A>>>,
    alloc: Global,
    at: usize,
    middle: &Key,
    spares: &mut Vec<SlotWord<A>>,
) -> Result<(), AllocError>
    requires within { at < vec_len slots.old }
    requires room { vec_len slots.old < vec_capacity slots.old }
    ensures more { OnOk result (vec_len slots.new ≡ vec_len slots.old + 1) }
    ensures same { OnErr result (vec_len slots.new ≡ vec_len slots.old) }
{
    match cut_in(&mut slots[at], alloc, middle, spares) {
        Ok(upper) => match slots.insert(at + 1, Mutex::new(upper)) {
            Ok(()) => Ok(()),
            Err(_) => unreachable!("there is room for one slot more"),
        },
        Err(_missed) => Err(AllocError),
    }
}

// Puts the two halves of a slot in its place. Room for one slot more is made first.
fn halve<A: Account>(
    slots: &mut Vec<Mutex<LockedSlot<A>>>,
    alloc: Global,
    at: usize,
    middle: &Key,
    spares: &mut Vec<SlotWord<A>>,
) -> Result<(), AllocError>
    requires within { at < vec_len slots.old }
    ensures more { OnOk result (vec_len slots.new ≡ vec_len slots.old + 1) }
    ensures same { OnErr result (vec_len slots.new ≡ vec_len slots.old) }
{
    match slots.reserve(1) {
        Ok(()) => halve_reserved(slots, alloc, at, middle, spares),
        Err(_) => Err(AllocError),
    }
}

// Splits the span of this slot, which has the key: another span begins with the key then.
#[tactic(auto, using(crate::proofs::SpanLemmas::has_slot))]
fn split_span(spans: &mut Spans, slot: usize, middle: &Key) -> Result<(), SplitFault>
    requires within { slot ≤ length spans.old }
    ensures split { OnOk result (spans.new ≡ with_point spans.old slot middle.now) }
    ensures allowed { OnOk result (split_refusal spans.old slot middle.now ≡ None) }
    ensures refused { IfErr result (λ fault. split_refusal spans.old slot middle.now ≡ split_cause fault) }
    ensures unchanged { OnErr result (spans.new ≡ spans.old) }
{
    match spans.split(slot, middle) {
        Ok(()) => Ok(()),
        Err(MapFault::NoSuchSlot) => unreachable!("the spans have this slot"),
        Err(MapFault::NotInside) => Err(SplitFault::FirstKey),
        Err(MapFault::Full) => Err(SplitFault::Full),
        Err(MapFault::NoMemory) => Err(SplitFault::NoMemory),
    }
}

// Replaces a key of the account for all these slots, or for none.
fn rotate_slots<A: Account>(
    slots: &mut [Mutex<LockedSlot<A>>],
    alloc: Global,
    known: &mut LogFront<A>,
    account: &Text,
    which: Which,
    key: &SigningKey,
    made: Option<&Arc<Keys>>,
) -> Result<Option<u64>, KeysFault>
    ensures rotated { IfOk result (λ told. RotatesSlots known.old account.now which key.now told known.new) }
    ensures refused { OnErr result (known.new ≡ known.old) }
    ensures last { result ≡ Err Last → HasLastEpoch known.old account.now }
{
    let Some((first, rest)) = slots.split_first_mut() else {
        return Ok(None);
    };
    let change = KeyChange {
        account,
        which,
        key,
    };
    match rotate_from(first.get_mut(), rest, alloc, known, &change, made) {
        Ok(
            Turn {
                told,
                missed: _missed,
            },
        ) => Ok(told),
        Err(fault) => Err(fault),
    }
}

impl<A: Account> Table<A> {
    /// One slot of all keys, without containers, for the accounts of these first key pairs.
    ///
    /// `AllocError` if memory runs out.
    pub(crate) fn new(
        alloc: Global,
        pairs: Arc<AccountPairs>,
        own: SlotHistory<A>,
        spares: Vec<SlotWord<A>>,
    ) -> Result<Self, AllocError>
        requires { IsLeftBy own None (empty_slot (arc_value pairs)) }
    {
        let slot = LockedSlot::new(alloc, pairs, own);
        let mut slots = Vec::new(alloc);
        slots.push(Mutex::new(slot))?;
        Ok(Self {
            spans: Spans::new(alloc),
            slots,
            spares,
        })
    }

    /// The lock of the slot that has the key.
    fn lock_of(&self, key: &Key) -> &Mutex<LockedSlot<A>> {
        &self.slots[self.spans.find(key)]
    }

    /// Waits for the lock of the slot that has the key.
    pub(crate) fn locked<R: Wait>(&self, rt: &R, key: &Key) -> MutexGuard<'_, LockedSlot<A>> {
        self.lock_of(key).lock(rt)
    }

    /// Waits for the lock of the slot with this number. `None` if no slot has it.
    pub(crate) fn locked_at<R: Wait>(
        &self,
        rt: &R,
        at: usize,
    ) -> Option<MutexGuard<'_, LockedSlot<A>>> {
        match self.slots.get(at) {
            Some(lock) => Some(lock.lock(rt)),
            None => None,
        }
    }

    /// Splits the span that has the key, and then its slot. If the slot fails, its two spans are joined again.
    ///
    /// `FirstKey` if a slot begins with the key, or else `Full` if there are 256 slots. Or else `NoMemory` if memory runs out, if no word is left
    /// for the upper half, or if the slot is of no use any more. After a fault the spans are as they were.
    #[tactic(auto, using(crate::proofs::SpanLemmas::refusal_of_found, crate::proofs::SpanLemmas::split_of_found))]
    pub(crate) fn split(&mut self, alloc: Global, middle: &Key) -> Result<(), SplitFault>
        ensures split { OnOk result (self.new.spans ≡ split_at self.old.spans middle.now) }
        ensures allowed { OnOk result (refusal_at self.old.spans middle.now ≡ None) }
        ensures refused { IfErr result (λ fault. refusal_at self.old.spans middle.now ≡ split_cause fault) }
        ensures unchanged { OnErr result (self.new.spans ≡ self.old.spans) }
    {
        let slot = self.spans.find(middle);
        split_span(&mut self.spans, slot, middle)?;
        let halved = halve(&mut self.slots, alloc, slot, middle, &mut self.spares);
        if halved.is_err() {
            self.spans.join(slot);
            return Err(SplitFault::NoMemory);
        }
        Ok(())
    }

    /// Replaces a key of the account for all slots, or for none. Answers the epoch of the new pair.
    ///
    /// `Last` if no epoch comes after that of a slot's pair. `NoMemory` if memory runs out, or if the stamp has no such account, or if a slot has made
    /// as many entries as it may, or if no slot is of use. A slot of no use is passed over.
    pub(crate) fn rotate(
        &mut self,
        alloc: Global,
        known: &mut LogFront<A>,
        account: &Text,
        which: Which,
        key: &SigningKey,
        made: Option<&Arc<Keys>>,
    ) -> Result<u64, KeysFault>
        ensures rotated { IfOk result (λ epoch. HasRotated known.old account.now which key.now epoch known.new) }
        ensures same { OnErr result (known.new ≡ known.old) }
        ensures last { result ≡ Err Last → HasLastEpoch known.old account.now }
    {
        match rotate_slots(&mut self.slots, alloc, known, account, which, key, made) {
            Ok(Some(epoch)) => Ok(epoch),
            Ok(None) => Err(KeysFault::NoMemory),
            Err(KeysFault::Last) => Err(KeysFault::Last),
            Err(KeysFault::NoMemory) => Err(KeysFault::NoMemory),
        }
    }
}
