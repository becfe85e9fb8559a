//! Requests that the core answers with their entries of the audit book.
ghost use Rattle.std.specs.Prelude.{◌≡◌};
ghost use Rattle.std.specs.Option.{option_copied};
ghost use Rattle.extent_seal.specs.Counting.{Grows, all_faults};
ghost use Rattle.policy_book.specs.Judgements.{IsOfAsk};
ghost use Rattle.range_rows.specs.Readings.{reading_of};
ghost use Rattle.core_run.specs.declared.step.Step.TheVariants.{Serve};
ghost use Rattle.core_run.specs.Cores.{StandsFor};
ghost use Rattle.core_run.specs.Machine.{Takes};
ghost use Rattle.core_run.specs.States.{State};
ghost use Rattle.stamp_core.specs.CoreAudits.{CoreAudits};
ghost use Rattle.stamp_core.specs.CoreSteps.{AnswersSteadily, told_answer, has_faults};

use super::Core;
use crate::auditing::{AuditedReply, entry_told};
use crate::serving::{Call, serve_one};
use crate::telling::tell_now;
use extent_node::Wire;
use policy_book::Judged;
use range_rows::Reading;
use slot_state::Histories;
use stamp_types::{Moment, Request};
use std::alloc::Global;
use stored_slot::Audited;

impl<H: Histories> Core<H> {
    /// One Serve step whose reply is told at once, with the entry of the request in the audit book if one is asked for.
    pub(crate) fn answer_by<W: Wire>(
        &mut self,
        alloc: Global,
        call: &Call<'_>,
        reading: Reading,
        wire: &mut W,
    ) -> AuditedReply
        requires judged { IsOfAsk (option_copied call.now.judged) call.now.request.now.ask }
        requires read { reading ≡ reading_of call.now.request.now }
        ensures taken { (s : State) → StandsFor self.old s
            → (s' : State) × (Takes s (Serve call.now.request.now call.now.moment) (has_faults (W.faults wire.old) (W.faults wire.new)) (told_answer result.reply) s' × StandsFor self.new s') }
        ensures steady { all_faults (W.faults wire.new) ≡ all_faults (W.faults wire.old) → AnswersSteadily self.old call.now.request.now call.now.moment result.reply self.new }
        ensures audited { CoreAudits self.old call.now.request.now call.now.moment result.reply result.entry }
        ensures grown { Grows (W.faults wire.old) (W.faults wire.new) }
    {
        let Audited { answer, entry } = serve_one(
            &mut self.slots,
            &self.spans,
            alloc,
            call,
            reading,
            wire,
        );
        let reply = tell_now(alloc, answer, wire);
        let entry = entry_told(&reply, entry);
        AuditedReply { reply, entry }
    }

    /// One Serve step, as `answer` makes it, with the entry of the request in the audit book.
    ///
    /// The entry is what the slot of the request was before it: how many changes its container had taken, who might read the container, and
    /// the pair in force. No entry is made if the request names no container, if it is refused, also by N1, or if memory runs out. A change whose
    /// outcome is unknown has its entry.
    pub fn answer_audited<W: Wire>(
        &mut self,
        alloc: Global,
        request: &Request,
        judged: Option<&Judged<'_>>,
        reading: Reading,
        moment: Moment,
        wire: &mut W,
    ) -> AuditedReply
        requires judged { IsOfAsk (option_copied judged) request.now.ask }
        requires read { reading ≡ reading_of request.now }
        ensures taken { (s : State) → StandsFor self.old s
            → (s' : State) × (Takes s (Serve request.now moment) (has_faults (W.faults wire.old) (W.faults wire.new)) (told_answer result.reply) s' × StandsFor self.new s') }
        ensures steady { all_faults (W.faults wire.new) ≡ all_faults (W.faults wire.old) → AnswersSteadily self.old request.now moment result.reply self.new }
        ensures audited { CoreAudits self.old request.now moment result.reply result.entry }
        ensures grown { Grows (W.faults wire.old) (W.faults wire.new) }
    {
        let call = Call {
            request,
            judged,
            moment,
            is_audited: true,
        };
        self.answer_by(alloc, &call, reading, wire)
    }
}
