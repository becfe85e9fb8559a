//! The table of the slots.
ghost use Rattle.std.specs.Prelude.{◌≡◌, ◌+◌, ◌<◌, ◌≤◌, Err, IfErr, IfNone, IfOk, None, OnErr, OnOk, OnSome, false, length, vec_capacity, vec_len};
ghost use Rattle.std.proofs.Props.{props};
ghost use Rattle.std.specs.Arc.{arc_value};
ghost use Rattle.partition_map.specs.Spans.{AreSpans};
ghost use Rattle.range_rows.specs.Readings.{reading_of};
ghost use Rattle.slot_state.specs.NextPairs.{HasNextPair, HasNoNextPair};
ghost use Rattle.stamp_locks.specs.Lent.{CutsSlot, FailsSplit, HandlesBy, HasSlot, IsCutFault, IsSplit, IsTended};
ghost use Rattle.stamp_locks.specs.Shown.{HandlesAfterBy, IsBack};
ghost use Rattle.stamp_locks.specs.declared.faults.MoveFault.TheVariants as move_fault;
ghost use Rattle.stamp_locks.specs.declared.faults.TendFault.TheVariants as tend_fault;

use crate::care::Care;
use crate::faults::{MoveFault, SplitError, TendFault};
use crate::locked::Locked;
use crate::tending::{TakenOut, tend};
use access_rules::Which;
use extent_node::Wire;
use hmac_sign::SigningKey;
use partition_map::Spans;
use range_rows::Reading;
use slot_pass::{AfterFault, Pass};
use slot_state::{AccountPairs, Longer, Ready, RotateFault};
use stamp_types::{Key, Moment, Request, Text};
use std::alloc::{AllocError, Global};
use std::sync::{Arc, Mutex, Wait};
use stored_rows::{KeyRange, StoredFault, StoredRows, Unloaded};
use stored_slot::{Audited, EXTENT_BYTES, StoredSlot};
use tickets::Answer;

/// The spans of keys, a slot under a lock of its own for each, and the key pairs of all accounts.
#[derive(Drop)]
pub(crate) struct Table<W: Wire + Drop> {
    spans: Spans,
    slots: Vec<Mutex<Locked<W>>>,
    pairs: Arc<AccountPairs>,
    ghost one_each: { vec_len slots ≡ length spans + 1 },
    ghost rise: { AreSpans spans } by { Prim.hlevel props },
}

// Cuts the slot of this lock. The upper half is answered, with this wire.
fn cut_in<W: Wire + Drop>(
    lock: &mut Mutex<Locked<W>>,
    alloc: Global,
    spans: &Spans,
    at: usize,
    middle: &Key,
    wire: W,
) -> Result<Locked<W>, (W, SplitError)>
    requires rise { AreSpans spans.now }
    requires number { at ≤ length spans.now }
    ensures cut { OnOk result (CutsSlot spans.now at middle.now) }
    ensures back { IfErr result (λ r. r.0 ≡ wire) }
    ensures fault { IfErr result (λ r. IsCutFault W.faults r.1) }
{
    lock.get_mut().cut_at(alloc, spans, at, middle, wire)
}

// Puts the two halves of a slot in its place, in which there is room for one slot more.
fn halve_reserved<W: Wire + Drop>(
    slots: &mut Vec<Mutex<Locked<W>>>,
    alloc: Global,
    spans: &Spans,
    at: usize,
    middle: &Key,
    wire: W,
) -> Result<(), (W, SplitError)>
    requires within { at < vec_len slots.old }
    requires room { vec_len slots.old < vec_capacity slots.old }
    requires rise { AreSpans spans.now }
    requires number { at ≤ length spans.now }
    ensures cut { OnOk result (CutsSlot spans.now at middle.now) }
    ensures more { OnOk result (vec_len slots.new ≡ vec_len slots.old + 1) }
    ensures same { OnErr result (vec_len slots.new ≡ vec_len slots.old) }
    ensures back { IfErr result (λ r. r.0 ≡ wire) }
    ensures fault { IfErr result (λ r. IsCutFault W.faults r.1) }
{
    match cut_in(&mut slots[at], alloc, spans, at, middle, wire) {
        Ok(upper) => match slots.insert(at + 1, Mutex::new(upper)) {
            Ok(()) => Ok(()),
            Err(_) => unreachable!("there is room for one slot more"),
        },
        Err(back) => Err(back),
    }
}

// Puts the two halves of a slot in its place. Room for one slot more is made first.
fn halve<W: Wire + Drop>(
    slots: &mut Vec<Mutex<Locked<W>>>,
    alloc: Global,
    spans: &Spans,
    at: usize,
    middle: &Key,
    wire: W,
) -> Result<(), (W, SplitError)>
    requires within { at < vec_len slots.old }
    requires rise { AreSpans spans.now }
    requires number { at ≤ length spans.now }
    ensures cut { OnOk result (CutsSlot spans.now at middle.now) }
    ensures more { OnOk result (vec_len slots.new ≡ vec_len slots.old + 1) }
    ensures same { OnErr result (vec_len slots.new ≡ vec_len slots.old) }
    ensures back { IfErr result (λ r. r.0 ≡ wire) }
    ensures fault { IfErr result (λ r. IsCutFault W.faults r.1) }
{
    match slots.reserve(1) {
        Ok(()) => halve_reserved(slots, alloc, spans, at, middle, wire),
        Err(_) => Err((wire, SplitError::Slot(StoredFault::NoMemory))),
    }
}

impl<W: Wire + Drop> Table<W> {
    /// One slot of all keys, without containers, for these key pairs.
    ///
    /// `AllocError` if memory runs out.
    #[tactic(auto, using(crate::proofs::NumberLemmas::spans_none))]
    pub(crate) fn new(alloc: Global, pairs: AccountPairs, wire: W) -> Result<Self, AllocError> {
        let pairs = Arc::new(alloc, pairs)?;
        let shared = pairs.clone()?;
        let rows = StoredRows::new(alloc, EXTENT_BYTES, KeyRange::all(alloc));
        let slot = StoredSlot::of_rows(alloc, rows, shared);
        let mut slots = Vec::new(alloc);
        slots.push(Mutex::new(Locked { slot, wire }))?;
        Ok(Self {
            spans: Spans::new(alloc),
            slots,
            pairs,
        })
    }

    /// One request, by the slot of the span that has its first key.
    ///
    /// The answer is `NoMemory` also if memory runs out before the slot's lock is taken. An entry of the audit book is made if it is asked for and
    /// the request is let in.
    pub(crate) fn handle<R: Wait>(
        &self,
        rt: &R,
        alloc: Global,
        request: &Request,
        reading: Reading,
        moment: Moment,
        is_audited: bool,
    ) -> Audited
        requires { reading ≡ reading_of request.now }
        ensures handled { HandlesBy W.faults (arc_value self.now.pairs) request.now moment result.answer result.entry }
        ensures unasked { is_audited ≡ false → result.entry ≡ None }
    {
        let Ok(ready) = Ready::of(alloc, &self.pairs, request, moment, is_audited) else {
            drop(reading);
            return Audited {
                answer: Answer::NoMemory,
                entry: None,
            };
        };
        let mut locked = self.slots[self.spans.find(&ready.first)].lock(rt);
        locked.handle(alloc, &self.spans, &self.pairs, &ready, reading)
    }

    /// One request after what the pass shows, by the slot of the span that has its first key.
    ///
    /// The faults are those of [`Locked::handle_after`]. `NoMemory` also if memory runs out before the slot's lock is taken.
    pub(crate) fn handle_after<R: Wait>(
        &self,
        rt: &R,
        alloc: Global,
        pass: Pass,
        request: &Request,
        moment: Moment,
        is_audited: bool,
    ) -> Result<(Audited, Pass), (Pass, AfterFault)>
        requires { request.now.ask.key ≡ pass.key }
        ensures handled { IfOk result (λ r. HandlesAfterBy W.faults (arc_value self.now.pairs) pass request.now moment r.0.answer r.0.entry r.1) }
        ensures unasked { IfOk result (λ r. is_audited ≡ false → r.0.entry ≡ None) }
        ensures back { IfErr result (λ r. IsBack pass request.now r.0 r.1) }
    {
        let ready = match Ready::of(alloc, &self.pairs, request, moment, is_audited) {
            Ok(ready) => ready,
            Err(AllocError) => return Err((pass, AfterFault::NoMemory)),
        };
        let mut locked = self.slots[self.spans.find(&ready.first)].lock(rt);
        locked.handle_after(alloc, &self.spans, &self.pairs, pass, &ready)
    }

    // The lock of the slot with this number; none if no slot has the number.
    fn lock_at(&self, slot: usize) -> Option<&Mutex<Locked<W>>>
        ensures within { OnSome result (slot ≤ length self.now.spans) }
        ensures none { IfNone result (length self.now.spans < slot) }
    {
        self.slots.get(slot)
    }

    /// Takes a care of the slot with this number. What is taken out is kept.
    ///
    /// `NoSuchSlot` only if no slot has the number.
    pub(crate) fn tend<R: Wait>(
        &self,
        rt: &R,
        alloc: Global,
        slot: usize,
        care: Care,
        taken: &mut Option<TakenOut>,
    ) -> Result<(), TendFault>
        ensures tended { IsTended W.faults slot care result }
        ensures none { (result ≡ Err tend_fault.NoSuchSlot) → length self.now.spans < slot }
    {
        match self.lock_at(slot) {
            Some(lock) => tend(&mut lock.lock(rt), alloc, &self.spans, slot, care, taken),
            None => Err(TendFault::NoSuchSlot),
        }
    }

    /// Takes the rows of the slot with this number out of memory, for another partition server.
    ///
    /// `NoSuchSlot` only if no slot has the number, and `NoMemory` only if the slot does not begin with the first key of its span.
    pub(crate) fn take_rows<R: Wait>(
        &self,
        rt: &R,
        alloc: Global,
        slot: usize,
        server: u32,
    ) -> Result<Unloaded, MoveFault>
        ensures has { OnOk result (HasSlot slot) }
        ensures none { (result ≡ Err move_fault.NoSuchSlot) → length self.now.spans < slot }
    {
        match self.lock_at(slot) {
            Some(lock) => lock.lock(rt).take_rows(alloc, &self.spans, slot, server),
            None => Err(MoveFault::NoSuchSlot),
        }
    }

    /// Splits the span of a slot, and then the slot. If the slot fails, its two spans are joined again.
    ///
    /// The wire is the upper half's, and comes back after a fault. `Map` with the first cause that refuses the split, or if memory runs out for
    /// the split point, or if the key is not inside the slot's own range. `Slot` with the fault of the slot.
    #[tactic(auto, using(crate::proofs::NumberLemmas::spans_more, crate::proofs::NumberLemmas::number_more, crate::proofs::LentLemmas::told_split, crate::proofs::LentLemmas::told_failed))]
    pub(crate) fn split(
        &mut self,
        alloc: Global,
        slot: usize,
        middle: &Key,
        wire: W,
    ) -> Result<(), (W, SplitError)>
        ensures split { OnOk result (IsSplit slot middle.now) }
        ensures back { IfErr result (λ r. r.0 ≡ wire) }
        ensures fault { IfErr result (λ r. FailsSplit W.faults slot middle.now r.1) }
    {
        if let Err(fault) = self.spans.split(slot, middle) {
            return Err((wire, SplitError::Map(fault)));
        }
        let halved = halve(&mut self.slots, alloc, &self.spans, slot, middle, wire);
        if halved.is_err() {
            self.spans.join(slot);
        }
        halved
    }

    /// The account has one pair more, in which one of its keys is replaced. Answers the epoch of the new pair. Each slot takes the pair before it
    /// serves a request of the account.
    ///
    /// `NoAccount` if the stamp has no such account, `Last` if no epoch comes after the epoch of the pair in force, and `NoMemory` if memory
    /// runs out. The pairs are then as they were.
    pub(crate) fn rotate(
        &mut self,
        alloc: Global,
        account: &Text,
        which: Which,
        key: SigningKey,
    ) -> Result<u64, RotateFault>
        ensures rotated { IfOk result (λ epoch. HasNextPair (arc_value self.old.pairs) account.now which key epoch (arc_value self.new.pairs)) }
        ensures refused { IfErr result (λ fault. HasNoNextPair (arc_value self.old.pairs) account.now fault) }
        ensures same { OnErr result (self.new.pairs ≡ self.old.pairs) }
    {
        match self.pairs.rotated(alloc, account, which, &key, None) {
            Ok(longer) => {
                let Longer { pairs, epoch } = longer;
                self.pairs = pairs;
                Ok(epoch)
            }
            Err(fault) => Err(fault),
        }
    }
}
