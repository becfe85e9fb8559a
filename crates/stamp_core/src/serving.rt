//! One request on the slots of a core, and its entry of the audit book, if one is asked for.
ghost use Rattle.std.specs.Prelude.{◌≡◌, ◌≤◌, IfOk, length, true};
ghost use Rattle.std.specs.Option.{option_copied};
ghost use Rattle.extent_seal.specs.Counting.{Grows};
ghost use Rattle.policy_book.specs.Judgements.{IsOfAsk};
ghost use Rattle.range_rows.specs.Readings.{reading_of};
ghost use Rattle.partition_map.specs.Spans.{slot_of};
ghost use Rattle.stamp_model.specs.SeenContainers.{routed};
ghost use Rattle.slot_state.specs.Slots.{covers};
ghost use Rattle.stored_slot.specs.Audits.{SlotAudits};
ghost use Rattle.stored_slot.specs.Served.{Faulted};
ghost use Rattle.stamp_core.specs.CoreAudits.{IsAuditedBySlot};
ghost use Rattle.stamp_core.specs.CoreSteps.{IsServedBySlot};
ghost use Rattle.stamp_core.specs.Ranges.{HaveSpans};

use extent_node::Wire;
use partition_map::Spans;
use policy_book::Judged;
use range_rows::Reading;
use slot_state::{Histories, key_of_list};
use stamp_types::{Moment, Request};
use std::alloc::{AllocError, Global};
use stored_slot::{Audited, StoredSlot};
use tickets::Answer;

/// A request that a core is asked to serve at a moment. Its signature may have been judged before.
#[derive(Drop)]
pub(crate) struct Call<'a> {
    pub(crate) request: &'a Request,
    pub(crate) judged: Option<&'a Judged<'a>>,
    pub(crate) moment: Moment,
    /// Whether an entry of the audit book is made, if the request is let in.
    pub(crate) is_audited: bool,
}

/// The number of the slot that serves the request. Only a List Containers takes memory for it.
pub(crate) fn slot_for(spans: &Spans, alloc: Global, request: &Request) -> Result<usize, AllocError>
    ensures slot { IfOk result (λ at. at ≡ slot_of spans.now (routed request.now)) }
    ensures within { IfOk result (λ at. at ≤ length spans.now) }
{
    let ask = request.ask();
    if ask.op.names_container() {
        return Ok(spans.find(&ask.key));
    }
    let marked = key_of_list(alloc, ask)?;
    Ok(spans.find(&marked))
}

// The slot serves the request, and makes its entry if one is asked for.
fn audit_if<H: Histories, W: Wire>(
    slot: &mut StoredSlot<H>,
    alloc: Global,
    call: &Call<'_>,
    reading: Reading,
    wire: &mut W,
) -> Audited
    requires judged { IsOfAsk (option_copied call.now.judged) call.now.request.now.ask }
    requires read { reading ≡ reading_of call.now.request.now }
    requires covered { covers slot.old (routed call.now.request.now) ≡ true }
    ensures served { SlotAudits slot.old call.now.request.now call.now.moment (Faulted (W.faults wire.old) (W.faults wire.new)) result.answer result.entry slot.new }
    ensures grown { Grows (W.faults wire.old) (W.faults wire.new) }
{
    let moment = call.moment;
    if call.is_audited {
        return slot.serve_audited(alloc, call.request, call.judged, reading, moment, wire);
    }
    let answer = slot.serve_read(alloc, call.request, call.judged, reading, moment, wire);
    Audited {
        answer,
        entry: None,
    }
}

// The slot of this number serves the request.
fn serve_at<H: Histories, W: Wire>(
    slots: &mut Vec<StoredSlot<H>>,
    spans: &Spans,
    at: usize,
    alloc: Global,
    call: &Call<'_>,
    reading: Reading,
    wire: &mut W,
) -> Audited
    requires before { HaveSpans slots.old.items spans.now }
    requires slot { at ≡ slot_of spans.now (routed call.now.request.now) }
    requires judged { IsOfAsk (option_copied call.now.judged) call.now.request.now.ask }
    requires read { reading ≡ reading_of call.now.request.now }
    ensures after { HaveSpans slots.new.items spans.now }
    ensures audited { IsAuditedBySlot slots.old.items spans.now call.now.request.now call.now.moment (Faulted (W.faults wire.old) (W.faults wire.new)) result.answer result.entry slots.new.items }
    ensures grown { Grows (W.faults wire.old) (W.faults wire.new) }
{
    let _spans = spans;
    audit_if(&mut slots[at], alloc, call, reading, wire)
}

/// The slot whose span has the first key of the request serves it, and makes its entry if one is asked for.
///
/// NoMemory also if memory runs out for the first key of a List Containers. The slots are then as they were.
#[tactic(auto, using(stored_rows::proofs::CountLemmas::grows_not))]
pub(crate) fn serve_one<H: Histories, W: Wire>(
    slots: &mut Vec<StoredSlot<H>>,
    spans: &Spans,
    alloc: Global,
    call: &Call<'_>,
    reading: Reading,
    wire: &mut W,
) -> Audited
    requires before { HaveSpans slots.old.items spans.now }
    requires judged { IsOfAsk (option_copied call.now.judged) call.now.request.now.ask }
    requires read { reading ≡ reading_of call.now.request.now }
    ensures after { HaveSpans slots.new.items spans.now }
    ensures audited { IsAuditedBySlot slots.old.items spans.now call.now.request.now call.now.moment (Faulted (W.faults wire.old) (W.faults wire.new)) result.answer result.entry slots.new.items }
    ensures grown { Grows (W.faults wire.old) (W.faults wire.new) }
{
    match slot_for(spans, alloc, call.request) {
        Ok(at) => serve_at(slots, spans, at, alloc, call, reading, wire),
        Err(AllocError) => {
            drop(reading);
            Audited {
                answer: Answer::NoMemory,
                entry: None,
            }
        }
    }
}

/// The answer of the same call, without its entry.
pub(crate) fn answer_one<H: Histories, W: Wire>(
    slots: &mut Vec<StoredSlot<H>>,
    spans: &Spans,
    alloc: Global,
    call: &Call<'_>,
    reading: Reading,
    wire: &mut W,
) -> Answer
    requires before { HaveSpans slots.old.items spans.now }
    requires judged { IsOfAsk (option_copied call.now.judged) call.now.request.now.ask }
    requires read { reading ≡ reading_of call.now.request.now }
    ensures after { HaveSpans slots.new.items spans.now }
    ensures served { IsServedBySlot slots.old.items spans.now call.now.request.now call.now.moment (Faulted (W.faults wire.old) (W.faults wire.new)) result slots.new.items }
    ensures grown { Grows (W.faults wire.old) (W.faults wire.new) }
{
    let Audited { answer, entry } = serve_one(slots, spans, alloc, call, reading, wire);
    drop(entry);
    answer
}

/// The same of a request whose body is not read yet.
#[tactic(auto, using(stored_rows::proofs::CountLemmas::grows_not))]
pub(crate) fn serve_unread<H: Histories, W: Wire>(
    slots: &mut Vec<StoredSlot<H>>,
    spans: &Spans,
    alloc: Global,
    request: &Request,
    moment: Moment,
    wire: &mut W,
) -> Answer
    requires before { HaveSpans slots.old.items spans.now }
    ensures after { HaveSpans slots.new.items spans.now }
    ensures served { IsServedBySlot slots.old.items spans.now request.now moment (Faulted (W.faults wire.old) (W.faults wire.new)) result slots.new.items }
    ensures grown { Grows (W.faults wire.old) (W.faults wire.new) }
{
    let call = Call {
        request,
        judged: None,
        moment,
        is_audited: false,
    };
    match Reading::of(alloc, request) {
        Ok(reading) => answer_one(slots, spans, alloc, &call, reading, wire),
        Err(AllocError) => Answer::NoMemory,
    }
}
