//! What the lock of a slot has, and what is done with it while the lock is held.
ghost use Rattle.std.specs.Prelude.{◌≡◌, ◌<◌, ◌^◌, IfOk, IsTrue, None, OnErr, OnOk, Some, false, true};
ghost use Rattle.std.specs.Arc.{arc_value};
ghost use Rattle.policy_book.specs.Judgements.{IsOfAsk};
ghost use Rattle.range_rows.specs.Readings.{reading_of};
ghost use Rattle.stamp_model.specs.SeenContainers.{routed};
ghost use Rattle.slot_state.specs.Slots.{empty_slot, is_inside};
ghost use Rattle.served_history.specs.Histories.{IsServed, count_of};
ghost use Rattle.served_slots.specs.Audits.{AuditsLast};
ghost use Rattle.served_slots.specs.Slots.{IsLeftBy};
ghost use Rattle.served_slots.specs.Steps.{IfLost, IfNoMemory, IsPartedFrom, MakesOne};

pub(crate) mod rotating;
pub(crate) mod sweeping;

use crate::entering::{Missed, Upper, cut_and_enter, serve_and_enter};
use crate::steadily::first_slot;
use crate::told::Told;
use range_rows::Reading;
use served_history::{Account, LogFront, SlotHistory, SlotWord};
use slot_state::{AccountPairs, ProvedHistories, Ready};
use stamp_types::Key;
use std::alloc::{AllocError, Global};
use std::marker::Model;
use std::sync::Arc;
use stored_slot::StoredSlot;

/// A slot, the end of its range, and what it knows of the history. The containers of the slot are those that this history leaves.
///
/// It knows nothing of the history if the slot has a change that the history does not have. No thread makes that so, though no clause says so.
#[derive(Drop)]
pub(crate) struct LockedSlot<A: Account> {
    slot: StoredSlot<ProvedHistories>,
    to: Option<Key>,
    history: Option<SlotHistory<A>>,
}

impl<A: Account> Model for LockedSlot<A> {
    ghost use Rattle.std.specs.Prelude.{IfSome, Option};
    ghost use Rattle.served_history.specs.Growth.{SlotFront};
    ghost use Rattle.served_slots.specs.Slots.{IsLeftBy};

    ghost Value = { Option SlotFront };

    ghost view = { λ l. l.history };

    ghost invariant = { λ l. IfSome l.history (λ own. IsLeftBy own l.to l.slot) };
}

// The key once more. No byte of it is copied.
fn copy_of(key: &Key) -> Result<Key, AllocError>
    ensures { IfOk result (λ copy. copy ≡ key.now) }
{
    key.clone()
}

// Whether the slot can be cut at a key: the key is inside its range, a word is spare, and the slot may make one entry more.
fn can_cut<A: Account>(
    slot: &StoredSlot<ProvedHistories>,
    own: &SlotHistory<A>,
    middle: &Key,
    spares: &Vec<SlotWord<A>>,
) -> bool
    ensures inside { IsTrue result → is_inside slot.now middle.now ≡ true }
    ensures room { IsTrue result → count_of own.now.slot own.now.log < 2 ^ 62 }
{
    if own.is_full() {
        return false;
    }
    if spares.is_empty() {
        return false;
    }
    slot.is_inside(middle)
}

impl<A: Account> LockedSlot<A> {
    // What the lock of the upper half of a slot has.
    fn of(upper: Upper<A>) -> Self
        requires { IsLeftBy upper.own upper.to upper.slot }
        ensures { result ≡ Some upper.own }
    {
        let Upper { slot, to, own } = upper;
        Self {
            slot,
            to,
            history: Some(own),
        }
    }

    /// A slot of all keys, without containers, for these key pairs.
    pub(crate) fn new(alloc: Global, pairs: Arc<AccountPairs>, own: SlotHistory<A>) -> Self
        requires { IsLeftBy own None (empty_slot (arc_value pairs)) }
        ensures { result ≡ Some own }
    {
        let slot = first_slot(alloc, pairs);
        Self {
            slot,
            to: None,
            history: Some(own),
        }
    }

    /// The model's reply to a request after all entries before it, those of other slots too. The request is then the last entry that the
    /// slot and the connection know. If entries of the audit book are asked for, the one of the request is by what the history left before it.
    ///
    /// `NoMemory` if memory runs out, or if the slot does not have the key, or if it has made as many entries as it may: then nothing is
    /// changed. `Lost` if another thread has made an entry of this slot, now or before: then the slot is of no use any more.
    pub(crate) fn answer(
        &mut self,
        alloc: Global,
        known: &mut LogFront<A>,
        ready: &Ready<'_>,
        reading: Reading,
    ) -> Result<Told, Missed>
        requires first { ready.now.first ≡ routed ready.now.request.now }
        requires judged { IsOfAsk ready.now.judged ready.now.request.now.ask }
        requires read { reading ≡ reading_of ready.now.request.now }
        ensures served { IfOk result (λ told. IsServed known.old ready.now.request.now ready.now.moment told.replied known.new) }
        ensures audited { IfOk result (λ told. AuditsLast known.new ready.now.request.now ready.now.moment told.entry) }
        ensures unasked { IfOk result (λ told. ready.now.is_audited ≡ false → told.entry ≡ None) }
        ensures same { OnErr result (known.new ≡ known.old) }
        ensures made { OnOk result (MakesOne self.old known.new self.new) }
        ensures stays { IfNoMemory result (self.new ≡ self.old) }
        ensures ends { IfLost result (self.new ≡ None) }
    {
        let Some(own) = &mut self.history else {
            drop(reading);
            return Err(Missed::Lost);
        };
        match serve_and_enter(&mut self.slot, own, &self.to, alloc, known, ready, reading) {
            Ok(told) => Ok(told),
            Err(Missed::NoMemory) => Err(Missed::NoMemory),
            Err(Missed::Lost) => {
                drop(self.history.take());
                Err(Missed::Lost)
            }
        }
    }

    /// Cuts the slot at a key. The upper half is answered, with one of the spare words.
    ///
    /// `NoMemory` if the key is not inside the slot's range, if no word is spare, if the slot has made as many entries as it may, or if memory
    /// runs out: then nothing is changed. `Lost` if another thread has made an entry of this slot, now or before: then the slot is of no use any more.
    pub(crate) fn cut(
        &mut self,
        alloc: Global,
        middle: &Key,
        spares: &mut Vec<SlotWord<A>>,
    ) -> Result<LockedSlot<A>, Missed>
        ensures parted { IfOk result (λ upper. IsPartedFrom self.old middle.now self.new upper) }
        ensures stays { IfNoMemory result (self.new ≡ self.old) }
        ensures ends { IfLost result (self.new ≡ None) }
    {
        let Some(own) = &mut self.history else {
            return Err(Missed::Lost);
        };
        if !can_cut(&self.slot, own, middle, spares) {
            return Err(Missed::NoMemory);
        }
        let Ok(end) = copy_of(middle) else {
            return Err(Missed::NoMemory);
        };
        match cut_and_enter(
            &mut self.slot,
            own,
            &mut self.to,
            alloc,
            middle,
            end,
            spares,
        ) {
            Ok(upper) => Ok(LockedSlot::of(upper)),
            Err(Missed::NoMemory) => Err(Missed::NoMemory),
            Err(Missed::Lost) => {
                let lost = self.history.take();
                drop(lost);
                Err(Missed::Lost)
            }
        }
    }
}
