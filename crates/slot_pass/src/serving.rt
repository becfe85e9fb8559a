//! A request that is served after what its caller was shown.
ghost use Rattle.std.specs.Prelude.{◌≡◌, IfErr, IfOk, None, OnErr, OnOk, false, true};
ghost use Rattle.std.specs.Option.{option_copied};
ghost use mathlib.Core.List.{IsPrefix};
ghost use Rattle.extent_seal.specs.Counting.{Grows};
ghost use Rattle.policy_book.specs.Judgements.{IsOfAsk};
ghost use Rattle.stamp_model.specs.SeenContainers.{routed};
ghost use Rattle.slot_state.specs.HistoryMaps.{history_at};
ghost use Rattle.slot_state.specs.Pairs.{epoch_of, in_force, pairs_at};
ghost use Rattle.slot_state.specs.Slots as slots;
ghost use Rattle.stored_slot.specs.Served.{Faulted};
ghost use Rattle.slot_pass.specs.After.{Begins, IsAfterFault, IsDoubtOf, IsEntryOf, IsReady, ServesOrNot, pass_of, pass_with};
ghost use Rattle.slot_pass.specs.Audits.{AuditsSettled};
ghost use Rattle.slot_pass.specs.Passes.{IsShown};
ghost use Rattle.slot_pass.specs.Spares.{CanBecome};

use crate::after_fault::AfterFault;
use crate::comparing::{front_differs, pairs_differ};
use crate::front::Front;
use crate::growing::{fit, grow};
use crate::pass::Pass;
use extent_node::Wire;
use policy_book::Judged;
use range_rows::Reading;
use slot_state::{KeptHistories, PairList};
use stamp_types::{Key, Moment, Past, Request};
use std::alloc::{AllocError, Global};
use stored_slot::{Audited, StoredSlot};
use tickets::Answer;

/// A request that a slot is asked to serve at a moment after a pass. Its signature may have been judged before.
#[derive(Drop)]
pub struct AfterCall<'a> {
    pub request: &'a Request,
    pub judged: Option<&'a Judged<'a>>,
    pub moment: Moment,
    /// Whether an entry of the audit book is made, if the request is let in.
    pub is_audited: bool,
}

// Whether what these parts of a pass show is a beginning of what the slot has. The pairs come first.
fn compare(
    slot: &StoredSlot<KeptHistories>,
    key: &Key,
    front: &Front,
    pairs: &PairList,
) -> Result<(), AfterFault>
    ensures pairs { OnOk result (IsPrefix pairs.now (pairs_at slot.now.pairs key.now.account)) }
    ensures front { OnOk result (IsPrefix front.now (history_at slot.now.histories key.now)) }
    ensures fault { IfErr result (λ fault. IsAfterFault (pass_of key.now front.now pairs.now) slot.now fault) }
{
    if let Some(place) = pairs_differ(pairs, slot.pairs(&key.account)) {
        return Err(AfterFault::Pairs(place));
    }
    match front_differs(front.as_slice(), slot.history(key)) {
        Some(place) => Err(AfterFault::Alien(place)),
        None => Ok(()),
    }
}

// The epoch of the last pair; 0 without a pair.
fn last_epoch(pairs: &PairList) -> u64
    ensures { result ≡ epoch_of (in_force pairs.now) }
{
    match pairs.current() {
        Some(pair) => pair.epoch,
        None => 0,
    }
}

// The entry that a request gets if it makes a change; none if its operation does not write.
fn own_entry(
    slot: &StoredSlot<KeptHistories>,
    request: &Request,
    moment: Moment,
) -> Result<Option<Past>, AllocError>
    ensures { IfOk result (λ own. IsEntryOf slot.now.pairs request.now moment own) }
{
    if !request.ask().op.writes() {
        return Ok(None);
    }
    let epoch = last_epoch(slot.pairs(&request.ask().key.account));
    let request = request.clone()?;
    Ok(Some(Past {
        request,
        moment,
        epoch,
    }))
}

// The slot's doubt, if it is a change of this container.
fn own_doubt(slot: &StoredSlot<KeptHistories>, key: &Key) -> Result<Option<Past>, AllocError>
    ensures { IfOk result (λ doubt. IsDoubtOf slot.now.doubt key.now doubt) }
{
    match slot.doubt() {
        None => Ok(None),
        Some(entry) if entry.request.ask().key.same(key) => {
            let entry = entry.clone()?;
            Ok(Some(entry))
        }
        Some(_entry) => Ok(None),
    }
}

// Gives pairs and front all that they may have after the request.
//
// `AllocError` if memory runs out. Both are then as they were.
#[tactic(auto, using(crate::proofs::AfterLemmas::ready_made))]
fn get_ready(
    slot: &StoredSlot<KeptHistories>,
    key: &Key,
    front: &mut Front,
    pairs: &mut PairList,
    alloc: Global,
    request: &Request,
    moment: Moment,
) -> Result<(), AllocError>
    requires { IsPrefix front.old (history_at slot.now.histories key.now) }
    ensures pairs { OnOk result (pairs.new ≡ pairs_at slot.now.pairs key.now.account) }
    ensures ready { OnOk result (IsReady slot.now key.now request.now moment front.new) }
    ensures same { OnErr result ((front.new ≡ front.old) × (pairs.new ≡ pairs.old)) }
{
    let doubt = own_doubt(slot, key)?;
    let own = match own_entry(slot, request, moment) {
        Ok(own) => own,
        Err(fault) => {
            drop(doubt);
            return Err(fault);
        }
    };
    let all_pairs = slot.pairs(&key.account);
    grow(
        pairs,
        front,
        alloc,
        all_pairs,
        slot.history(key),
        doubt,
        own,
    )
}

// Gives the front the slot's own history. Takes no memory.
fn follow(slot: &StoredSlot<KeptHistories>, key: &Key, front: &mut Front, known: usize)
    requires { CanBecome known front.old (history_at slot.now.histories key.now) }
    ensures front { front.new ≡ history_at slot.now.histories key.now }
    ensures shown { IsShown (pairs_at slot.now.pairs key.now.account) key.now front.new }
{
    fit(front, known, slot.history(key));
}

// Serves a request. If an entry of the audit book is asked for, the request has one if it names a container and is let in.
fn serve<W: Wire>(
    slot: &mut StoredSlot<KeptHistories>,
    alloc: Global,
    call: &AfterCall<'_>,
    wire: &mut W,
) -> Audited
    requires judged { IsOfAsk (option_copied call.now.judged) call.now.request.now.ask }
    requires covered { slots.covers slot.old (routed call.now.request.now) ≡ true }
    ensures answered { ServesOrNot slot.old call.now.request.now call.now.moment (Faulted (W.faults wire.old) (W.faults wire.new)) result.answer slot.new }
    ensures audited { AuditsSettled slot.old call.now.request.now call.now.moment result.answer result.entry }
    ensures unasked { call.now.is_audited ≡ false → result.entry ≡ None }
    ensures grown { Grows (W.faults wire.old) (W.faults wire.new) }
{
    let moment = call.moment;
    if !call.is_audited {
        let answer = slot.serve(alloc, call.request, call.judged, moment, wire);
        return Audited {
            answer,
            entry: None,
        };
    }
    match Reading::of(alloc, call.request) {
        Ok(reading) => slot.serve_audited(alloc, call.request, call.judged, reading, moment, wire),
        Err(AllocError) => Audited {
            answer: Answer::NoMemory,
            entry: None,
        },
    }
}

// Serves a request whose front is ready. Then the front is the slot's own history.
#[tactic(auto, using(crate::proofs::AfterLemmas::same_pairs))]
fn serve_ready<W: Wire>(
    slot: &mut StoredSlot<KeptHistories>,
    key: &Key,
    front: &mut Front,
    alloc: Global,
    call: &AfterCall<'_>,
    wire: &mut W,
) -> Audited
    requires names { call.now.request.now.ask.key ≡ key.now }
    requires ready { IsReady slot.old key.now call.now.request.now call.now.moment front.old }
    requires judged { IsOfAsk (option_copied call.now.judged) call.now.request.now.ask }
    requires covered { slots.covers slot.old (routed call.now.request.now) ≡ true }
    ensures answered { ServesOrNot slot.old call.now.request.now call.now.moment (Faulted (W.faults wire.old) (W.faults wire.new)) result.answer slot.new }
    ensures audited { AuditsSettled slot.old call.now.request.now call.now.moment result.answer result.entry }
    ensures unasked { call.now.is_audited ≡ false → result.entry ≡ None }
    ensures front { front.new ≡ history_at slot.new.histories key.now }
    ensures shown { IsShown (pairs_at slot.new.pairs key.now.account) key.now front.new }
    ensures pairs { slot.new.pairs ≡ slot.old.pairs }
    ensures grown { Grows (W.faults wire.old) (W.faults wire.new) }
{
    let known = slot.history(key).len();
    let audited = serve(slot, alloc, call, wire);
    follow(slot, key, front, known);
    audited
}

// One request after what these parts of a pass show.
#[tactic(auto, using(crate::proofs::AfterLemmas::holds_all, crate::proofs::AfterLemmas::shown_all))]
fn after<W: Wire>(
    slot: &mut StoredSlot<KeptHistories>,
    key: &Key,
    front: &mut Front,
    pairs: &mut PairList,
    alloc: Global,
    call: &AfterCall<'_>,
    wire: &mut W,
) -> Result<Audited, AfterFault>
    requires shown { IsShown pairs.old key.now front.old }
    requires names { call.now.request.now.ask.key ≡ key.now }
    requires judged { IsOfAsk (option_copied call.now.judged) call.now.request.now.ask }
    requires covered { slots.covers slot.old (routed call.now.request.now) ≡ true }
    ensures shown { IsShown pairs.new key.now front.new }
    ensures answered { IfOk result (λ a. ServesOrNot slot.old call.now.request.now call.now.moment (Faulted (W.faults wire.old) (W.faults wire.new)) a.answer slot.new) }
    ensures audited { IfOk result (λ a. AuditsSettled slot.old call.now.request.now call.now.moment a.answer a.entry) }
    ensures unasked { IfOk result (λ a. call.now.is_audited ≡ false → a.entry ≡ None) }
    ensures begins { OnOk result (Begins (pass_of key.now front.old pairs.old) slot.old) }
    ensures holds { OnOk result (pass_of key.now front.new pairs.new ≡ pass_with (pass_of key.now front.old pairs.old) slot.new) }
    ensures fault { IfErr result (λ fault. IsAfterFault (pass_of key.now front.old pairs.old) slot.old fault) }
    ensures same { OnErr result ((slot.new ≡ slot.old) × (pass_of key.now front.new pairs.new ≡ pass_of key.now front.old pairs.old)) }
    ensures untried { OnErr result (wire.new ≡ wire.old) }
    ensures grown { Grows (W.faults wire.old) (W.faults wire.new) }
{
    compare(slot, key, front, pairs)?;
    let Ok(()) = get_ready(slot, key, front, pairs, alloc, call.request, call.moment) else {
        return Err(AfterFault::NoMemory);
    };
    let audited = serve_ready(slot, key, front, alloc, call, wire);
    Ok(audited)
}

/// One step of the model, by a slot that has what the caller of the pass was shown. Then the pass shows all that the slot has of its
/// container: the accepted changes, and the key pairs of its account. The answer is that of [`StoredSlot::serve`], with the same conditions on
/// `judged`, and on the slot that the request goes to. The time is linear in the front. If an entry of the audit book is asked for, it is that of
/// [`StoredSlot::serve_audited`].
///
/// `Pairs` if the pass shows a key pair that is not the slot's, or else `Alien` if its front is not a beginning of the slot's accepted changes,
/// or else `NoMemory` if memory runs out for the new front. Then nothing is served, and slot and pass are as they were. If memory runs out
/// later, the answer is `NoMemory`, and the pass shows all that the slot has.
pub fn serve_after<W: Wire>(
    slot: &mut StoredSlot<KeptHistories>,
    alloc: Global,
    pass: &mut Pass,
    call: &AfterCall<'_>,
    wire: &mut W,
) -> Result<Audited, AfterFault>
    requires names { call.now.request.now.ask.key ≡ pass.old.key }
    requires judged { IsOfAsk (option_copied call.now.judged) call.now.request.now.ask }
    requires covered { slots.covers slot.old (routed call.now.request.now) ≡ true }
    ensures answered { IfOk result (λ a. ServesOrNot slot.old call.now.request.now call.now.moment (Faulted (W.faults wire.old) (W.faults wire.new)) a.answer slot.new) }
    ensures audited { IfOk result (λ a. AuditsSettled slot.old call.now.request.now call.now.moment a.answer a.entry) }
    ensures unasked { IfOk result (λ a. call.now.is_audited ≡ false → a.entry ≡ None) }
    ensures begins { OnOk result (Begins pass.old slot.old) }
    ensures holds { OnOk result (pass.new ≡ pass_with pass.old slot.new) }
    ensures fault { IfErr result (λ fault. IsAfterFault pass.old slot.old fault) }
    ensures same { OnErr result ((slot.new ≡ slot.old) × (pass.new ≡ pass.old)) }
    ensures untried { OnErr result (wire.new ≡ wire.old) }
    ensures grown { Grows (W.faults wire.old) (W.faults wire.new) }
{
    after(
        slot,
        &pass.key,
        &mut pass.front,
        &mut pass.pairs,
        alloc,
        call,
        wire,
    )
}
