//! A request or a split on a slot whose containers are those that its history leaves, and its entry in the history.
ghost use Rattle.std.specs.Prelude.{◌≡◌, ◌+◌, ◌<◌, ◌^◌, IfOk, IfSome, MatchBool, None, OnErr, OnOk, false, true};
ghost use Rattle.policy_book.specs.Judgements.{IsOfAsk};
ghost use Rattle.range_rows.specs.Readings.{reading_of};
ghost use Rattle.stamp_model.specs.SeenContainers.{routed};
ghost use Rattle.slot_state.specs.Slots.{is_inside};
ghost use Rattle.served_history.specs.declared.entry.Entry.TheVariants.{Served};
ghost use Rattle.served_history.specs.Growth.{IsEntered};
ghost use Rattle.served_history.specs.Histories.{IsOwn, IsServed, count_of, owner};
ghost use Rattle.served_slots.specs.Audits.{AuditsLast};
ghost use Rattle.served_slots.specs.Slots.{IsLeftBy, IsParted, timed_in};
ghost use Rattle.served_slots.specs.Steps.{IfNoMemory, HasOneMore, UnlessLost};

use crate::steadily::{cut_steadily, tell_steadily};
use crate::told::Told;
use range_rows::Reading;
use served_history::{Account, LogFront, SlotHistory, SlotWord, TimedCall};
use slot_state::{ProvedHistories, Ready};
use stamp_types::{Key, Moment, Request};
use std::alloc::Global;
use stored_slot::StoredSlot;

/// Why a slot answered no request, or was not cut.
#[derive(Clone, Copy)]
pub(crate) enum Missed {
    /// Memory ran out, or the slot has made as many entries as it may, or it does not have the key, or no word is spare. The slot is as it was.
    NoMemory,
    /// The slot has a change that the history does not have. The slot is of no use any more.
    Lost,
}

// The request as the slot serves it: by the pair in force of its account, and up to the end of the slot's range.
#[tactic(auto, using(crate::proofs::EnterLemmas::call_is))]
fn call_of<'a>(
    slot: &'a StoredSlot<ProvedHistories>,
    to: &'a Option<Key>,
    request: &'a Request,
    moment: Moment,
) -> TimedCall<'a>
    ensures { result ≡ timed_in slot.now to.now request.now moment }
{
    let ask = request.ask();
    TimedCall {
        request,
        moment,
        keys: slot.pairs(&ask.key.account).current(),
        bound: to.as_ref(),
    }
}

// Enters a request that the slot has served.
fn enter<A: Account>(
    slot: &StoredSlot<ProvedHistories>,
    own: &mut SlotHistory<A>,
    to: &Option<Key>,
    known: &mut LogFront<A>,
    request: &Request,
    moment: Moment,
) -> bool
    requires room { count_of own.old.slot own.old.log < 2 ^ 62 }
    requires own { IsOwn own.old.log (Served own.old.slot (timed_in slot.now to.now request.now moment)) }
    ensures entered { MatchBool result (IsEntered own.old.slot own.old.log known.old (Served own.old.slot (timed_in slot.now to.now request.now moment)) known.new)
        (known.new ≡ known.old) }
    ensures slot { MatchBool result (own.new ≡ record own.old { log = known.new }) (own.new ≡ own.old) }
    ensures made { MatchBool result (count_of own.old.slot own.new.log ≡ count_of own.old.slot own.old.log + 1) (own.new ≡ own.old) }
{
    let call = call_of(slot, to, request, moment);
    own.enter(known, &call)
}

/// Serves a request whose body was read and whose signature was judged before, and enters it. The reply is the model's after all entries before
/// the request, those of other slots too. If entries of the audit book are asked for, the one of the request is by what the history left before it.
pub(crate) fn serve_and_enter<A: Account>(
    slot: &mut StoredSlot<ProvedHistories>,
    own: &mut SlotHistory<A>,
    to: &Option<Key>,
    alloc: Global,
    known: &mut LogFront<A>,
    ready: &Ready<'_>,
    reading: Reading,
) -> Result<Told, Missed>
    requires left { IsLeftBy own.old to.now slot.old }
    requires first { ready.now.first ≡ routed ready.now.request.now }
    requires judged { IsOfAsk ready.now.judged ready.now.request.now.ask }
    requires read { reading ≡ reading_of ready.now.request.now }
    ensures served { IfOk result (λ told. IsServed known.old ready.now.request.now ready.now.moment told.replied known.new) }
    ensures audited { IfOk result (λ told. AuditsLast known.new ready.now.request.now ready.now.moment told.entry) }
    ensures unasked { IfOk result (λ told. ready.now.is_audited ≡ false → told.entry ≡ None) }
    ensures same { OnErr result (known.new ≡ known.old) }
    ensures left { UnlessLost result (IsLeftBy own.new to.now slot.new) }
    ensures made { OnOk result (HasOneMore own.old known.new own.new) }
    ensures stays { OnErr result (own.new ≡ own.old) }
{
    let _ask = ready.request.ask();
    if own.is_full() {
        drop(reading);
        return Err(Missed::NoMemory);
    }
    if !slot.covers(&ready.first) {
        drop(reading);
        return Err(Missed::NoMemory);
    }
    let Ok(told) = tell_steadily(slot, alloc, ready, reading) else {
        return Err(Missed::NoMemory);
    };
    if !enter(slot, own, to, known, ready.request, ready.moment) {
        drop(told);
        return Err(Missed::Lost);
    }
    Ok(told)
}

// Enters a split of the slot at a key that it has, by one of the spare words. Gives what the upper slot knows.
//
// `None` if no word is left, or if the words say other numbers of entries than the slots made. Then the slot is of no use any more.
fn enter_split<A: Account>(
    own: &mut SlotHistory<A>,
    spares: &mut Vec<SlotWord<A>>,
    middle: &Key,
) -> Option<SlotHistory<A>>
    requires room { count_of own.old.slot own.old.log < 2 ^ 62 }
    requires own { owner own.old.log middle.now ≡ own.old.slot }
    ensures { IfSome result (λ upper. IsParted own.old middle.now own.new upper) }
{
    match spares.pop() {
        Some(spare) => own.split(spare, middle),
        None => None,
    }
}

/// A slot that was cut off: the upper half of another slot, the end of its range, and what it knows of the history.
#[derive(Drop)]
pub(crate) struct Upper<A: Account> {
    pub(crate) slot: StoredSlot<ProvedHistories>,
    pub(crate) to: Option<Key>,
    pub(crate) own: SlotHistory<A>,
}

/// Cuts a slot at a key inside its range, and enters the split by one of the spare words. `end` is this key once more: the end of the lower half's
/// range. The upper half is answered.
pub(crate) fn cut_and_enter<A: Account>(
    slot: &mut StoredSlot<ProvedHistories>,
    own: &mut SlotHistory<A>,
    to: &mut Option<Key>,
    alloc: Global,
    middle: &Key,
    end: Key,
    spares: &mut Vec<SlotWord<A>>,
) -> Result<Upper<A>, Missed>
    requires left { IsLeftBy own.old to.old slot.old }
    requires inside { is_inside slot.old middle.now ≡ true }
    requires room { count_of own.old.slot own.old.log < 2 ^ 62 }
    requires end { end ≡ middle.now }
    ensures left { UnlessLost result (IsLeftBy own.new to.new slot.new) }
    ensures upper { IfOk result (λ upper. IsLeftBy upper.own upper.to upper.slot) }
    ensures parted { IfOk result (λ upper. IsParted own.old middle.now own.new upper.own) }
    ensures stays { IfNoMemory result (own.new ≡ own.old) }
{
    let Ok(above) = cut_steadily(slot, alloc, middle) else {
        drop(end);
        return Err(Missed::NoMemory);
    };
    let Some(upper) = enter_split(own, spares, middle) else {
        drop(above);
        drop(end);
        return Err(Missed::Lost);
    };
    Ok(Upper {
        slot: above,
        to: to.replace(end),
        own: upper,
    })
}
