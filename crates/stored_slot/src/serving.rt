//! One request on a slot.
ghost use Rattle.std.specs.Prelude.{◌≡◌, IfOk, true};
ghost use Rattle.std.specs.Arc.{arc_value};
ghost use Rattle.std.specs.Option.{option_copied};
ghost use Rattle.extent_seal.specs.Counting.{Grows};
ghost use Rattle.policy_book.specs.Judgements.{IsOfAsk};
ghost use Rattle.range_rows.specs.Readings.{reading_of};
ghost use Rattle.stamp_model.specs.SeenContainers.{routed};
ghost use Rattle.stored_rows.specs.States.{AreFoundIn};
ghost use Rattle.slot_state.specs.Slots as slots;
ghost use Rattle.slot_state.specs.Slots.{entry_of};
ghost use Rattle.stored_slot.specs.Parts.{AreOfSlot, AreSettled, DecidesOn, IsReplyOf, MakesChangeOf, slot_of};
ghost use Rattle.stored_slot.specs.Served.{Faulted, IsTakenAnswer, ServesUnrefused, SlotServes};

use crate::answering::{busy, denial, failed, reading};
use crate::changing::FoundChange;
use crate::deciding::WeighedDecision;
use crate::parts::SlotParts;
use crate::unknown_reply::UnknownReply;
use extent_node::Wire;
use policy_book::Judged;
use range_partition::FramedDecision;
use range_rows::{FramedAnswer, Reading};
use slot_state::{AccountPairs, Histories};
use stamp_types::{Moment, Past, Reply, Request};
use std::alloc::{AllocError, Global};
use stored_rows::{ChangeWeight, FoundForChange, TakeFault};
use tickets::Answer;

// All that a change needs before anything is put: its entry, and the reply if the outcome is unknown. After the first put, lack of memory would
// hide a doubt.
#[derive(Drop)]
struct Ready {
    entry: Past,
    unknown: UnknownReply,
}

// The answer to a request whose change was taken, is in doubt, or is neither. The slot keeps the reply to an unknown outcome, unless it is
// the answer.
fn taken_answer(
    alloc: Global,
    taken: Result<(), TakeFault>,
    frame: Reply,
    unknown: UnknownReply,
    kept: &mut Option<UnknownReply>,
) -> Answer
    ensures { IsTakenAnswer taken frame result }
{
    match taken {
        Ok(()) => {
            unknown.keep(kept);
            Answer::Done(frame)
        }
        Err(TakeFault::Doubt) => {
            drop(frame);
            Answer::Done(unknown.reply())
        }
        Err(TakeFault::Busy) => {
            unknown.keep(kept);
            drop(frame);
            busy(alloc)
        }
        Err(TakeFault::NoMemory) => {
            unknown.keep(kept);
            drop(frame);
            Answer::NoMemory
        }
    }
}

// The entry of a request that is served now. No byte of it is copied.
fn entry_now(pairs: &AccountPairs, request: &Request, moment: Moment) -> Result<Past, AllocError>
    ensures { IfOk result (λ entry. entry ≡ entry_of pairs.now request.now moment) }
{
    let epoch = pairs.epoch(&request.ask().key.account);
    let request = request.clone()?;
    Ok(Past {
        request,
        moment,
        epoch,
    })
}

// All that a change needs before anything is put. The reply to an unknown outcome is the one that the slot keeps, if it keeps one.
fn make_ready(
    pairs: &AccountPairs,
    kept: &mut Option<UnknownReply>,
    alloc: Global,
    request: &Request,
    moment: Moment,
) -> Result<Ready, AllocError>
    ensures { IfOk result (λ ready. ready.entry ≡ entry_of pairs.now request.now moment) }
{
    let entry = entry_now(pairs, request, moment)?;
    match UnknownReply::take_or_make(kept, alloc) {
        Ok(unknown) => Ok(Ready { entry, unknown }),
        Err(fault) => {
            drop(entry);
            Err(fault)
        }
    }
}

impl<H: Histories> SlotParts<H> {
    // Makes the change of a request that is served now, and answers it.
    fn answer_change<W: Wire>(
        &mut self,
        alloc: Global,
        ready: Ready,
        frame: Reply,
        made: FoundChange,
        wire: &mut W,
    ) -> Answer
        requires before { AreSettled H.held self.old }
        requires makes { MakesChangeOf H.held self.old ready.entry made.change }
        requires found { AreFoundIn self.old.stored made.change made.found.blocks }
        requires entry { ready.entry ≡ entry_of (arc_value self.old.pairs) ready.entry.request ready.entry.moment }
        requires reply { IsReplyOf H.held self.old ready.entry.request ready.entry.moment frame }
        ensures after { AreOfSlot H.held self.new }
        ensures served { ServesUnrefused (slot_of H.held self.old) ready.entry.request ready.entry.moment
            (Faulted (W.faults wire.old) (W.faults wire.new)) result (slot_of H.held self.new) }
        ensures grown { Grows (W.faults wire.old) (W.faults wire.new) }
    {
        let Ready { entry, unknown } = ready;
        let taken = self.change(alloc, entry, made, wire);
        taken_answer(alloc, taken, frame, unknown, &mut self.unknown)
    }

    // Serves a request that makes this change, with this reply.
    fn serve_change<W: Wire>(
        &mut self,
        alloc: Global,
        request: &Request,
        moment: Moment,
        frame: Reply,
        made: FoundChange,
        wire: &mut W,
    ) -> Answer
        requires before { AreSettled H.held self.old }
        requires makes { MakesChangeOf H.held self.old (entry_of (arc_value self.old.pairs) request.now moment) made.change }
        requires found { AreFoundIn self.old.stored made.change made.found.blocks }
        requires reply { IsReplyOf H.held self.old request.now moment frame }
        ensures after { AreOfSlot H.held self.new }
        ensures served { ServesUnrefused (slot_of H.held self.old) request.now moment
            (Faulted (W.faults wire.old) (W.faults wire.new)) result (slot_of H.held self.new) }
        ensures grown { Grows (W.faults wire.old) (W.faults wire.new) }
    {
        match make_ready(&self.pairs, &mut self.unknown, alloc, request, moment) {
            Ok(ready) => self.answer_change(alloc, ready, frame, made, wire),
            Err(AllocError) => {
                drop(made);
                drop(frame);
                Answer::NoMemory
            }
        }
    }

    // Writes the reply of a request that makes this change, and serves the request.
    fn serve_written<W: Wire>(
        &mut self,
        alloc: Global,
        request: &Request,
        moment: Moment,
        answer: FramedAnswer,
        made: FoundChange,
        wire: &mut W,
    ) -> Answer
        requires before { AreSettled H.held self.old }
        requires makes { MakesChangeOf H.held self.old (entry_of (arc_value self.old.pairs) request.now moment) made.change }
        requires found { AreFoundIn self.old.stored made.change made.found.blocks }
        requires reply { IsReplyOf H.held self.old request.now moment answer.frame }
        ensures after { AreOfSlot H.held self.new }
        ensures served { ServesUnrefused (slot_of H.held self.old) request.now moment
            (Faulted (W.faults wire.old) (W.faults wire.new)) result (slot_of H.held self.new) }
        ensures grown { Grows (W.faults wire.old) (W.faults wire.new) }
    {
        let FramedAnswer { frame, spans } = answer;
        drop(spans);
        match frame.write(alloc) {
            Ok(frame) => self.serve_change(alloc, request, moment, frame, made, wire),
            Err(AllocError) => {
                drop(made);
                Answer::NoMemory
            }
        }
    }

    // Serves a request on which this was decided. The weight is that of its change.
    fn serve_decided<W: Wire>(
        &mut self,
        alloc: Global,
        request: &Request,
        moment: Moment,
        decision: FramedDecision,
        weight: ChangeWeight,
        wire: &mut W,
    ) -> Answer
        requires before { AreSettled H.held self.old }
        requires decided { DecidesOn H.held self.old request.now moment decision }
        ensures after { AreOfSlot H.held self.new }
        ensures served { ServesUnrefused (slot_of H.held self.old) request.now moment
            (Faulted (W.faults wire.old) (W.faults wire.new)) result (slot_of H.held self.new) }
        ensures grown { Grows (W.faults wire.old) (W.faults wire.new) }
    {
        match decision {
            FramedDecision::Refused(refusal) => denial(alloc, refusal),
            FramedDecision::Allowed(answer, change, blocks) => match change {
                None => {
                    drop(blocks);
                    reading(&mut self.stored, alloc, answer, wire)
                }
                Some(change) => {
                    let found = FoundForChange { blocks, weight };
                    let made = FoundChange { change, found };
                    self.serve_written(alloc, request, moment, answer, made, wire)
                }
            },
        }
    }

    /// Serves a request on a slot without a doubt, whose rows are loaded.
    ///
    /// The reply of a change is made before anything is put. A change that is not counted leaves nothing; a change whose outcome is unknown is
    /// the slot's doubt, and its request is answered N2. The answer is NoMemory if memory runs out; then no change was made.
    pub(crate) fn serve_loaded<W: Wire>(
        &mut self,
        alloc: Global,
        request: &Request,
        judged: Option<&Judged<'_>>,
        reading: Reading,
        moment: Moment,
        wire: &mut W,
    ) -> Answer
        requires before { AreSettled H.held self.old }
        requires loaded { self.old.stored.is_loaded ≡ true }
        requires covered { slots.covers (slot_of H.held self.old) (routed request.now) ≡ true }
        requires judged { IsOfAsk (option_copied judged) request.now.ask }
        requires read { reading ≡ reading_of request.now }
        ensures after { AreOfSlot H.held self.new }
        ensures served { ServesUnrefused (slot_of H.held self.old) request.now moment
            (Faulted (W.faults wire.old) (W.faults wire.new)) result (slot_of H.held self.new) }
        ensures grown { Grows (W.faults wire.old) (W.faults wire.new) }
    {
        match self.decide(alloc, request, judged, reading, moment) {
            Ok(WeighedDecision { decision, weight }) => {
                self.serve_decided(alloc, request, moment, decision, weight, wire)
            }
            Err(AllocError) => Answer::NoMemory,
        }
    }

    /// One step of the model on a slot that streams keep. First the slot settles its doubt, if it has one, and loads its rows, if they are not
    /// loaded. If the settle or the load fails, the request fails, and nothing of the slot is served.
    pub(crate) fn serve<W: Wire>(
        &mut self,
        alloc: Global,
        request: &Request,
        judged: Option<&Judged<'_>>,
        reading: Reading,
        moment: Moment,
        wire: &mut W,
    ) -> Answer
        requires before { AreOfSlot H.held self.old }
        requires covered { slots.covers (slot_of H.held self.old) (routed request.now) ≡ true }
        requires judged { IsOfAsk (option_copied judged) request.now.ask }
        requires read { reading ≡ reading_of request.now }
        ensures after { AreOfSlot H.held self.new }
        ensures served { SlotServes (slot_of H.held self.old) request.now moment
            (Faulted (W.faults wire.old) (W.faults wire.new)) result (slot_of H.held self.new) }
        ensures grown { Grows (W.faults wire.old) (W.faults wire.new) }
    {
        match self.load(alloc, wire) {
            Ok(()) => self.serve_loaded(alloc, request, judged, reading, moment, wire),
            Err(fault) => {
                drop(reading);
                failed(alloc, fault)
            }
        }
    }
}
