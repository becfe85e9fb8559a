//! What is decided on a request, from the rows of a slot.
ghost use Rattle.std.specs.Prelude.{◌≡◌, IfOk, true};
ghost use Rattle.std.specs.Arc.{arc_value};
ghost use Rattle.std.specs.Option.{option_copied};
ghost use Rattle.stamp_types.specs.Requests.{IsRequest};
ghost use Rattle.stamp_types.specs.World.{part_at};
ghost use Rattle.policy_book.specs.Judgements.{IsOfAsk};
ghost use Rattle.range_rows.specs.Readings.{reading_of};
ghost use Rattle.stamp_model.specs.SeenContainers.{routed};
ghost use Rattle.range_partition.specs.Decisions.{AnswerCanBeSent, framed_of};
ghost use Rattle.slot_state.specs.Pairs.{current_at};
ghost use Rattle.slot_state.specs.Slots as slots;
ghost use Rattle.stored_slot.specs.Parts.{AreSettled, DecidesOn, slot_of};

use crate::parts::SlotParts;
use policy_book::Judged;
use range_partition::{FramedDecision, JudgedRequest, decide_frame};
use range_rows::{Reading, Target};
use row_trees::Rows;
use slot_state::Histories;
use stamp_types::{Moment, Request};
use std::alloc::{AllocError, Global};
use stored_rows::ChangeWeight;

/// A decision with the weight of its change. Both are made of what was found once in the rows.
#[derive(Drop)]
pub(crate) struct WeighedDecision {
    pub(crate) decision: FramedDecision,
    pub(crate) weight: ChangeWeight,
}

// The weight of the change of a decision, by what the decision was made of.
fn weight_of(alloc: Global, found: &Target<'_>, decision: &FramedDecision) -> ChangeWeight {
    match decision {
        FramedDecision::Allowed(_answer, Some(change), blocks) => {
            ChangeWeight::of(alloc, &found.container, found.blob(), blocks, change)
        }
        _ => ChangeWeight::none(),
    }
}

impl<H: Histories> SlotParts<H> {
    // The decision on a request, from the rows and from the pair in force of the request's account.
    fn decide_on_rows(
        &self,
        rows: &Rows,
        alloc: Global,
        request: &Request,
        judged: Option<&Judged<'_>>,
        reading: Reading,
        moment: Moment,
    ) -> Result<WeighedDecision, AllocError>
        requires judged { IsOfAsk (option_copied judged) request.now.ask }
        requires read { reading ≡ reading_of request.now }
        ensures decided { IfOk result (λ decided. decided.decision
            ≡ framed_of (current_at (arc_value self.now.pairs) request.now.ask.key.account) rows.now
            (part_at rows.now request.now.ask.key) request.now moment self.now.stored.range.to) }
        ensures sent { IfOk result (λ decided. AnswerCanBeSent decided.decision) }
        ensures fits { IsRequest request.now }
    {
        let ask = request.ask();
        let target = Target::of(rows.find(&ask.key), ask);
        let found = target.again();
        let pair = self.pairs.current(&ask.key.account);
        let bound = self.stored.end();
        let asked = JudgedRequest {
            request,
            judged,
            moment,
        };
        let decision = decide_frame(alloc, pair, &asked, rows, target, reading, bound)?;
        let weight = weight_of(alloc, &found, &decision);
        Ok(WeighedDecision { decision, weight })
    }

    /// The decision on a request, from the rows of a slot that are loaded, as the histories have it.
    ///
    /// `AllocError` if memory runs out.
    pub(crate) fn decide(
        &self,
        alloc: Global,
        request: &Request,
        judged: Option<&Judged<'_>>,
        reading: Reading,
        moment: Moment,
    ) -> Result<WeighedDecision, AllocError>
        requires before { AreSettled H.held self.now }
        requires loaded { self.now.stored.is_loaded ≡ true }
        requires covered { slots.covers (slot_of H.held self.now) (routed request.now) ≡ true }
        requires judged { IsOfAsk (option_copied judged) request.now.ask }
        requires read { reading ≡ reading_of request.now }
        ensures { IfOk result (λ decided. DecidesOn H.held self.now request.now moment decided.decision) }
    {
        self.stored.kept();
        match self.stored.rows() {
            Some(rows) => self.decide_on_rows(rows, alloc, request, judged, reading, moment),
            None => unreachable!("the rows are loaded"),
        }
    }
}
