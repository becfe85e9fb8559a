//! What the lock of a slot has, and what is done with it while the lock is held.
ghost use Rattle.std.specs.Prelude.{◌≡◌, ◌≢◌, ◌≤◌, Err, IfErr, IfOk, None, Ok, OnErr, OnOk, false, length, true};
ghost use Rattle.partition_map.specs.Spans.{AreSpans, slot_of};
ghost use Rattle.policy_book.specs.Judgements.{IsOfAsk};
ghost use Rattle.range_rows.specs.Readings.{reading_of};
ghost use Rattle.stamp_model.specs.SeenContainers.{routed};
ghost use Rattle.slot_state.specs.HistoryMaps.{history_at};
ghost use Rattle.slot_state.specs.Pairs.{current_at, pairs_at};
ghost use Rattle.slot_state.specs.Slots as slots;
ghost use Rattle.stored_slot.specs.Served.{Faulted, SlotServes};
ghost use Rattle.stored_slot.specs.Settled.{CutsSettled};
ghost use Rattle.slot_pass.specs.After.{IsAfterFault};
ghost use Rattle.slot_pass.specs.Audits.{AuditsSettled};
ghost use Rattle.slot_pass.specs.Calls.{AnswersAfter};
ghost use Rattle.slot_pass.specs.Passes.{IsShown};
ghost use Rattle.stamp_locks.specs.Lent.{BeginsSpan, CutsSlot, FailsCut, HandlesBy, HasSlot, IsCutFault};
ghost use Rattle.stamp_locks.specs.Shown.{HandlesAfterBy, IsBack};
ghost use Rattle.stamp_locks.specs.declared.faults.MoveFault.TheVariants as move_fault;

use crate::faults::{MoveFault, SplitError};
use crate::numbered::{is_for, is_numbered};
use crate::rotating::bring_up;
use extent_node::Wire;
use partition_map::{MapFault, Spans};
use range_rows::Reading;
use slot_pass::{AfterCall, AfterFault, Pass, serve_after};
use slot_state::{AccountPairs, KeptHistories, Ready};
use stamp_types::Key;
use std::alloc::{AllocError, Global};
use stored_rows::{StoredFault, Unloaded};
use stored_slot::{Audited, StoredSlot};
use tickets::Answer;

/// A slot, and its wire to the nodes: what the lock of a slot has.
#[derive(Drop)]
pub(crate) struct Locked<W: Wire + Drop> {
    pub(crate) slot: StoredSlot<KeptHistories>,
    pub(crate) wire: W,
}

// What the slot has of a container is legal by the key pairs of its account. Does nothing.
fn show(slot: &StoredSlot<KeptHistories>, key: &Key)
    ensures { IsShown (pairs_at slot.now.pairs key.now.account) key.now (history_at slot.now.histories key.now) }
{
    let _history = slot.history(key);
}

impl<W: Wire + Drop> Locked<W> {
    // Serves the request. If an entry of the audit book is asked for, the request has one if it names a container and is let in.
    fn serve(&mut self, alloc: Global, ready: &Ready<'_>, reading: Reading) -> Audited
        requires covered { slots.covers self.old.slot (routed ready.now.request.now) ≡ true }
        requires judged { IsOfAsk ready.now.judged ready.now.request.now.ask }
        requires read { reading ≡ reading_of ready.now.request.now }
        ensures served { SlotServes self.old.slot ready.now.request.now ready.now.moment (Faulted (W.faults self.old.wire) (W.faults self.new.wire)) result.answer self.new.slot }
        ensures audited { AuditsSettled self.old.slot ready.now.request.now ready.now.moment result.answer result.entry }
        ensures unasked { ready.now.is_audited ≡ false → result.entry ≡ None }
    {
        let Self { slot, wire } = self;
        let judged = ready.judged.as_ref();
        let moment = ready.moment;
        if ready.is_audited {
            return slot.serve_audited(alloc, ready.request, judged, reading, moment, wire);
        }
        let answer = slot.serve_read(alloc, ready.request, judged, reading, moment, wire);
        Audited {
            answer,
            entry: None,
        }
    }

    // Serves the request by a slot that begins with the first key of the request's span.
    fn handle_found(
        &mut self,
        alloc: Global,
        spans: &Spans,
        pairs: &AccountPairs,
        ready: &Ready<'_>,
        reading: Reading,
    ) -> Audited
        requires begins { BeginsSpan spans.now (slot_of spans.now ready.now.first) self.old.slot }
        requires covered { slots.covers self.old.slot ready.now.first ≡ true }
        requires current { current_at self.old.slot.pairs ready.now.request.now.ask.key.account ≡ current_at pairs.now ready.now.request.now.ask.key.account }
        requires first { ready.now.first ≡ routed ready.now.request.now }
        requires judged { IsOfAsk ready.now.judged ready.now.request.now.ask }
        requires read { reading ≡ reading_of ready.now.request.now }
        ensures handled { HandlesBy W.faults pairs.now ready.now.request.now ready.now.moment result.answer result.entry }
        ensures unasked { ready.now.is_audited ≡ false → result.entry ≡ None }
    {
        let (_spans, _pairs) = (spans, pairs);
        show(&self.slot, &ready.request.ask().key);
        self.serve(alloc, ready, reading)
    }

    // Serves the request by a slot whose pair in force is that of these pairs, as it is told outside of the lock.
    fn handle_current(
        &mut self,
        alloc: Global,
        spans: &Spans,
        pairs: &AccountPairs,
        ready: &Ready<'_>,
        reading: Reading,
    ) -> Audited
        requires rise { AreSpans spans.now }
        requires current { current_at self.old.slot.pairs ready.now.request.now.ask.key.account ≡ current_at pairs.now ready.now.request.now.ask.key.account }
        requires first { ready.now.first ≡ routed ready.now.request.now }
        requires judged { IsOfAsk ready.now.judged ready.now.request.now.ask }
        requires read { reading ≡ reading_of ready.now.request.now }
        ensures handled { HandlesBy W.faults pairs.now ready.now.request.now ready.now.moment result.answer result.entry }
        ensures unasked { ready.now.is_audited ≡ false → result.entry ≡ None }
    {
        if !is_for(&self.slot, alloc, spans, &ready.first) {
            drop(reading);
            return Audited {
                answer: Answer::NoMemory,
                entry: None,
            };
        }
        self.handle_found(alloc, spans, pairs, ready, reading)
    }

    /// Serves the request by the slot whose number is that of the request's span, as it is told outside of the lock. First the slot takes those
    /// of the pairs of the request's account that it does not have.
    pub(crate) fn handle(
        &mut self,
        alloc: Global,
        spans: &Spans,
        pairs: &AccountPairs,
        ready: &Ready<'_>,
        reading: Reading,
    ) -> Audited
        requires rise { AreSpans spans.now }
        requires first { ready.now.first ≡ routed ready.now.request.now }
        requires judged { IsOfAsk ready.now.judged ready.now.request.now.ask }
        requires read { reading ≡ reading_of ready.now.request.now }
        ensures handled { HandlesBy W.faults pairs.now ready.now.request.now ready.now.moment result.answer result.entry }
        ensures unasked { ready.now.is_audited ≡ false → result.entry ≡ None }
    {
        match bring_up(
            &mut self.slot,
            alloc,
            &ready.request.ask().key.account,
            pairs,
        ) {
            Ok(()) => self.handle_current(alloc, spans, pairs, ready, reading),
            Err(AllocError) => {
                drop(reading);
                Audited {
                    answer: Answer::NoMemory,
                    entry: None,
                }
            }
        }
    }

    // Serves the request after what the pass shows.
    //
    // The faults are those of `serve_after`. Then the slot is as it was, and the pass comes back as it was.
    fn serve_after(
        &mut self,
        alloc: Global,
        pass: Pass,
        ready: &Ready<'_>,
    ) -> Result<(Audited, Pass), (Pass, AfterFault)>
        requires names { ready.now.request.now.ask.key ≡ pass.key }
        requires covered { slots.covers self.old.slot (routed ready.now.request.now) ≡ true }
        requires judged { IsOfAsk ready.now.judged ready.now.request.now.ask }
        ensures answered { IfOk result (λ r. AnswersAfter pass self.old.slot ready.now.request.now ready.now.moment (W.faults self.old.wire) (W.faults self.new.wire) r.0.answer r.1 self.new.slot) }
        ensures audited { IfOk result (λ r. AuditsSettled self.old.slot ready.now.request.now ready.now.moment r.0.answer r.0.entry) }
        ensures unasked { IfOk result (λ r. ready.now.is_audited ≡ false → r.0.entry ≡ None) }
        ensures fault { IfErr result (λ r. IsAfterFault pass self.old.slot r.1) }
        ensures back { IfErr result (λ r. r.0 ≡ pass) }
        ensures same { OnErr result (self.new.slot ≡ self.old.slot) }
    {
        let Self { slot, wire } = self;
        let mut pass = pass;
        let call = AfterCall {
            request: ready.request,
            judged: ready.judged.as_ref(),
            moment: ready.moment,
            is_audited: ready.is_audited,
        };
        match serve_after(slot, alloc, &mut pass, &call, wire) {
            Ok(audited) => Ok((audited, pass)),
            Err(fault) => Err((pass, fault)),
        }
    }

    // Serves the request after what the pass shows, by a slot that begins with the first key of the request's span.
    fn handle_shown_found(
        &mut self,
        alloc: Global,
        spans: &Spans,
        pairs: &AccountPairs,
        pass: Pass,
        ready: &Ready<'_>,
    ) -> Result<(Audited, Pass), (Pass, AfterFault)>
        requires begins { BeginsSpan spans.now (slot_of spans.now ready.now.first) self.old.slot }
        requires covered { slots.covers self.old.slot ready.now.first ≡ true }
        requires current { current_at self.old.slot.pairs ready.now.request.now.ask.key.account ≡ current_at pairs.now ready.now.request.now.ask.key.account }
        requires names { ready.now.request.now.ask.key ≡ pass.key }
        requires first { ready.now.first ≡ routed ready.now.request.now }
        requires judged { IsOfAsk ready.now.judged ready.now.request.now.ask }
        ensures handled { IfOk result (λ r. HandlesAfterBy W.faults pairs.now pass ready.now.request.now ready.now.moment r.0.answer r.0.entry r.1) }
        ensures unasked { IfOk result (λ r. ready.now.is_audited ≡ false → r.0.entry ≡ None) }
        ensures back { IfErr result (λ r. IsBack pass ready.now.request.now r.0 r.1) }
    {
        let (_spans, _pairs) = (spans, pairs);
        match self.serve_after(alloc, pass, ready) {
            Ok((audited, pass)) => Ok((audited, pass)),
            Err((pass, fault)) => Err((pass, fault)),
        }
    }

    // Serves the request after what the pass shows, by a slot whose pair in force is that of these pairs, as it is told outside of the lock.
    fn handle_shown(
        &mut self,
        alloc: Global,
        spans: &Spans,
        pairs: &AccountPairs,
        pass: Pass,
        ready: &Ready<'_>,
    ) -> Result<(Audited, Pass), (Pass, AfterFault)>
        requires rise { AreSpans spans.now }
        requires current { current_at self.old.slot.pairs ready.now.request.now.ask.key.account ≡ current_at pairs.now ready.now.request.now.ask.key.account }
        requires names { ready.now.request.now.ask.key ≡ pass.key }
        requires first { ready.now.first ≡ routed ready.now.request.now }
        requires judged { IsOfAsk ready.now.judged ready.now.request.now.ask }
        ensures handled { IfOk result (λ r. HandlesAfterBy W.faults pairs.now pass ready.now.request.now ready.now.moment r.0.answer r.0.entry r.1) }
        ensures unasked { IfOk result (λ r. ready.now.is_audited ≡ false → r.0.entry ≡ None) }
        ensures back { IfErr result (λ r. IsBack pass ready.now.request.now r.0 r.1) }
    {
        if !is_for(&self.slot, alloc, spans, &ready.first) {
            return Err((pass, AfterFault::NoMemory));
        }
        self.handle_shown_found(alloc, spans, pairs, pass, ready)
    }

    /// Serves the request after what the pass shows, by the slot whose number is that of the request's span, as it is told outside of the lock.
    /// First the slot takes those of the pairs of the request's account that it does not have.
    ///
    /// The faults are those of [`serve_after`], and `NoMemory` if memory runs out for the pairs. Then the pass comes back as it was.
    pub(crate) fn handle_after(
        &mut self,
        alloc: Global,
        spans: &Spans,
        pairs: &AccountPairs,
        pass: Pass,
        ready: &Ready<'_>,
    ) -> Result<(Audited, Pass), (Pass, AfterFault)>
        requires rise { AreSpans spans.now }
        requires names { ready.now.request.now.ask.key ≡ pass.key }
        requires first { ready.now.first ≡ routed ready.now.request.now }
        requires judged { IsOfAsk ready.now.judged ready.now.request.now.ask }
        ensures handled { IfOk result (λ r. HandlesAfterBy W.faults pairs.now pass ready.now.request.now ready.now.moment r.0.answer r.0.entry r.1) }
        ensures unasked { IfOk result (λ r. ready.now.is_audited ≡ false → r.0.entry ≡ None) }
        ensures back { IfErr result (λ r. IsBack pass ready.now.request.now r.0 r.1) }
    {
        match bring_up(
            &mut self.slot,
            alloc,
            &ready.request.ask().key.account,
            pairs,
        ) {
            Ok(()) => self.handle_shown(alloc, spans, pairs, pass, ready),
            Err(AllocError) => Err((pass, AfterFault::NoMemory)),
        }
    }

    /// Takes the rows of the slot with this number out of memory, for another partition server.
    ///
    /// `NoMemory` only if the slot does not begin with the first key of its span. The rows then stay in memory.
    pub(crate) fn take_rows(
        &mut self,
        alloc: Global,
        spans: &Spans,
        at: usize,
        server: u32,
    ) -> Result<Unloaded, MoveFault>
        requires rise { AreSpans spans.now }
        requires within { at ≤ length spans.now }
        ensures same { self.new ≡ self.old }
        ensures has { OnOk result (HasSlot at) }
        ensures found { result ≢ Err move_fault.NoSuchSlot }
    {
        if !is_numbered(&self.slot, alloc, spans, at) {
            return Err(MoveFault::NoMemory);
        }
        Ok(self.slot.move_to(server))
    }

    // Cuts the slot at a key. The upper half is answered, with this wire.
    //
    // After a fault the wire comes back. `Map` if the key is not inside the range of the slot, and `Slot` with the fault of the slot's split.
    fn cut(&mut self, alloc: Global, middle: &Key, wire: W) -> Result<Locked<W>, (W, SplitError)>
        ensures cut { IfOk result (λ upper. CutsSettled (Ok upper.slot) self.old.slot middle.now self.new.slot) }
        ensures wire { IfOk result (λ upper. upper.wire ≡ wire) }
        ensures back { IfErr result (λ r. r.0 ≡ wire) }
        ensures fault { IfErr result (λ r. FailsCut self.old.slot middle.now (W.faults self.old.wire) (W.faults self.new.wire) r.1 self.new.slot) }
    {
        if !self.slot.is_inside(middle) {
            return Err((wire, SplitError::Map(MapFault::NotInside)));
        }
        match self.slot.split(alloc, middle, &mut self.wire) {
            Ok(slot) => Ok(Locked { slot, wire }),
            Err(fault) => Err((wire, SplitError::Slot(fault))),
        }
    }

    /// The same with the slot of this number, as it is told outside of the lock. The spans are split at the key already.
    #[tactic(auto, using(crate::proofs::LentLemmas::told_cut, crate::proofs::LentLemmas::told_fault))]
    pub(crate) fn cut_at(
        &mut self,
        alloc: Global,
        spans: &Spans,
        at: usize,
        middle: &Key,
        wire: W,
    ) -> Result<Locked<W>, (W, SplitError)>
        requires rise { AreSpans spans.now }
        requires within { at ≤ length spans.now }
        ensures cut { OnOk result (CutsSlot spans.now at middle.now) }
        ensures back { IfErr result (λ r. r.0 ≡ wire) }
        ensures fault { IfErr result (λ r. IsCutFault W.faults r.1) }
    {
        if !is_numbered(&self.slot, alloc, spans, at) {
            return Err((wire, SplitError::Slot(StoredFault::NoMemory)));
        }
        match self.cut(alloc, middle, wire) {
            Ok(upper) => Ok(upper),
            Err(back) => Err(back),
        }
    }
}
