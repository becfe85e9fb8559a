//! The core.
ghost use Rattle.std.specs.Prelude.{◌≡◌, ◌⊎◌, Bool, IfErr, IfOk, None, OnErr, length};
ghost use Rattle.std.specs.Arc.{arc_value};
ghost use Rattle.std.specs.Option.{option_copied};
ghost use Rattle.extent_seal.specs.Counting.{Grows, all_faults};
ghost use Rattle.stamp_types.specs.World.{no_part};
ghost use Rattle.stamp_values.specs.declared.key.Key.{Key};
ghost use Rattle.policy_book.specs.Judgements.{IsOfAsk};
ghost use Rattle.range_rows.specs.Readings.{reading_of};
ghost use Rattle.stored_rows.specs.Ranges.{all_keys};
ghost use Rattle.stored_rows.specs.States.{doubt_of, pieces_of};
ghost use Rattle.slot_state.specs.PairFaults.{pairs_fault};
ghost use Rattle.slot_state.specs.Pairs.{first_pairs};
ghost use Rattle.slot_state.specs.Slots.{empty_slot};
ghost use Rattle.slot_state.specs.declared.pairs_fault.PairsFault.TheVariants.{NoMemory};
ghost use Rattle.core_run.specs.Cores.{StandsFor, first_core};
ghost use Rattle.core_run.specs.States.{State, opening};
ghost use Rattle.core_run.specs.Machine.{IsRun, Takes};
ghost use Rattle.stamp_core.specs.CoreSteps.{AnswersSteadily, told_answer, has_faults, step_of};
ghost use Rattle.stamp_core.specs.Tending.{IsOf, care_answer};

mod audit;
mod sweep;

use crate::auditing::AuditedReply;
use crate::care::CoreCare;
use crate::open_tickets::OpenTickets;
use crate::rotating::rotate;
use crate::serving::{Call, answer_one, serve_unread};
use crate::splitting::split;
use crate::telling::{answered, tell};
use crate::tended::{Tended, Untended};
use crate::tending::{made, tend};
use access_rules::{Keys, Which};
use core_run::{Outcome, Step, StepFault};
use extent_node::Wire;
use hmac_sign::SigningKey;
use partition_map::Spans;
use policy_book::Judged;
use range_rows::Reading;
use slot_state::{AccountPairs, Histories, PairsFault};
use stamp_types::{Key, Moment, Reply, Request, Text};
use std::alloc::{AllocError, Global};
use std::marker::Model;
use std::sync::Arc;
use stored_rows::{KeyRange, StoredRows};
use stored_slot::{EXTENT_BYTES, StoredSlot};

/// Slots over streams, the spans of keys that they have, and the tickets that were given.
///
/// Contracts see the slots, the split points and the replies that the tickets hold (`CoreState` of `core_run`).
#[derive(Drop)]
pub struct Core<H: Histories> {
    slots: Vec<StoredSlot<H>>,
    spans: Spans,
    tickets: OpenTickets,
}

impl<H: Histories> Model for Core<H> {
    ghost use Rattle.core_run.specs.Cores.{CoreState, core_code};
    ghost use Rattle.stamp_core.specs.Ranges.{HaveSpans};

    ghost Value = { CoreState };

    ghost coded = { core_code };

    ghost view = { λ c. record { slots = c.slots.items; points = c.spans; tickets = c.tickets } };

    ghost invariant = { λ c. HaveSpans c.slots.items c.spans };
}

// A slot of all keys with these rows.
#[tactic(auto, using(crate::proofs::RangeLemmas::slot_of_all))]
fn first_slot<H: Histories>(
    alloc: Global,
    rows: StoredRows,
    pairs: Arc<AccountPairs>,
) -> StoredSlot<H>
    requires none { (key : Key) → pieces_of rows key ≡ no_part }
    requires sure { doubt_of rows ≡ None }
    requires whole { rows.range ≡ all_keys }
    ensures { result ≡ empty_slot (arc_value pairs) }
{
    StoredSlot::of_rows(alloc, rows, pairs)
}

// A core of one slot of all keys, without containers, for these key pairs.
fn first<H: Histories>(
    alloc: Global,
    rows: StoredRows,
    pairs: Arc<AccountPairs>,
) -> Result<Core<H>, AllocError>
    requires none { (key : Key) → pieces_of rows key ≡ no_part }
    requires sure { doubt_of rows ≡ None }
    requires whole { rows.range ≡ all_keys }
    ensures { IfOk result (λ core. core ≡ first_core (arc_value pairs)) }
{
    let slot = first_slot(alloc, rows, pairs);
    let mut slots = Vec::new(alloc);
    slots.push(slot)?;
    Ok(Core {
        slots,
        spans: Spans::new(alloc),
        tickets: OpenTickets::new(alloc),
    })
}

// A core for these key pairs, in an allocation that can be shared.
fn of_all<H: Histories>(alloc: Global, pairs: AccountPairs) -> Result<Core<H>, AllocError>
    ensures value { IfOk result (λ core. core ≡ first_core pairs) }
    ensures stands { IfOk result (λ core. StandsFor core (opening pairs)) }
{
    let pairs = Arc::new(alloc, pairs)?;
    let core = Core::of_pairs(alloc, pairs)?;
    Ok(core)
}

impl<H: Histories> Core<H> {
    ghost use Rattle.core_run.specs.declared.step.Step.TheVariants.{Fetch, Rotate, Serve, Split};

    /// A core of one slot of all keys, without containers, for these key pairs. The slot takes these rows, which are new, of all keys and
    /// without a container, and its extents have their limit. The core shares the pairs.
    ///
    /// `AllocError` if memory runs out for the slot.
    pub fn of_rows(
        alloc: Global,
        rows: StoredRows,
        pairs: Arc<AccountPairs>,
    ) -> Result<Self, AllocError>
        requires none { (key : Key) → pieces_of rows key ≡ no_part }
        requires sure { doubt_of rows ≡ None }
        requires whole { rows.range ≡ all_keys }
        ensures value { IfOk result (λ core. core ≡ first_core (arc_value pairs)) }
        ensures stands { IfOk result (λ core. StandsFor core (opening (arc_value pairs))) }
    {
        pairs.numbered();
        let core = first(alloc, rows, pairs)?;
        Ok(core)
    }

    /// The same, with at most `EXTENT_BYTES` bytes in an extent of two or more blocks.
    ///
    /// `AllocError` if memory runs out for the slot.
    pub fn of_pairs(alloc: Global, pairs: Arc<AccountPairs>) -> Result<Self, AllocError>
        ensures value { IfOk result (λ core. core ≡ first_core (arc_value pairs)) }
        ensures stands { IfOk result (λ core. StandsFor core (opening (arc_value pairs))) }
    {
        let rows = StoredRows::new(alloc, EXTENT_BYTES, KeyRange::all(alloc));
        let core = Core::of_rows(alloc, rows, pairs)?;
        Ok(core)
    }

    /// A core of one slot of all keys, without containers, for the accounts of these first pairs of keys.
    ///
    /// `NotFirst` if the epoch of a pair is not 0, `Twice` if two pairs are of one account, and `NoMemory` if memory runs out. If several
    /// pairs are refused, the last of them names the cause.
    pub fn new(alloc: Global, pairs: Vec<Keys>) -> Result<Self, PairsFault>
        ensures value { IfOk result (λ core. (core ≡ first_core (first_pairs pairs.items)) × (pairs_fault pairs.items ≡ None)) }
        ensures stands { IfOk result (λ core. StandsFor core (opening (first_pairs pairs.items))) }
        ensures refused { IfErr result (λ fault. (fault ≡ NoMemory) ⊎ (pairs_fault pairs.items ≡ Some fault)) }
    {
        let pairs = AccountPairs::of(alloc, pairs)?;
        let core = of_all(alloc, pairs)?;
        Ok(core)
    }

    /// One Serve step, on a request whose body was read before. The caller keeps the request, and may have judged its signature before:
    /// `judged` changes no reply, and if it is of the pair in force, no signature is worked out here.
    ///
    /// First the slot of the request settles its doubt, if it has one, and loads its rows, if they are not loaded. A reply whose content is in
    /// sealed extents is told by a ticket, which `fetch` takes. If memory runs out for the ticket, the reply is told at once.
    ///
    /// The reply is the denial of N1 if nodes that were needed did not answer, and the denial of N2 if it is not known whether the change was
    /// made. `NoMemory` if memory runs out. Then nothing is changed, except that a doubt may have ended; after N2 the change is in doubt.
    pub fn serve<W: Wire>(
        &mut self,
        alloc: Global,
        request: &Request,
        judged: Option<&Judged<'_>>,
        reading: Reading,
        moment: Moment,
        wire: &mut W,
    ) -> Result<Outcome, StepFault>
        requires judged { IsOfAsk (option_copied judged) request.now.ask }
        requires read { reading ≡ reading_of request.now }
        ensures taken { (s : State) → StandsFor self.old s
            → (s' : State) × (Takes s (Serve request.now moment) (has_faults (W.faults wire.old) (W.faults wire.new)) result s' × StandsFor self.new s') }
        ensures grown { Grows (W.faults wire.old) (W.faults wire.new) }
    {
        let call = Call {
            request,
            judged,
            moment,
            is_audited: false,
        };
        let answer = answer_one(&mut self.slots, &self.spans, alloc, &call, reading, wire);
        tell(&mut self.tickets, alloc, answer, wire)
    }

    /// One Serve step whose reply is told at once, without a ticket, on a request whose body was read before: for a service that hands each
    /// reply on. If the content of the reply is out of reach, the reply is the denial of N1.
    ///
    /// `AllocError` if memory runs out. If no call of the wire fails and no slot is in doubt, each reply is the model's, and after
    /// `AllocError` the core is as it was.
    pub fn answer<W: Wire>(
        &mut self,
        alloc: Global,
        request: &Request,
        judged: Option<&Judged<'_>>,
        reading: Reading,
        moment: Moment,
        wire: &mut W,
    ) -> Result<Reply, AllocError>
        requires judged { IsOfAsk (option_copied judged) request.now.ask }
        requires read { reading ≡ reading_of request.now }
        ensures taken { (s : State) → StandsFor self.old s
            → (s' : State) × (Takes s (Serve request.now moment) (has_faults (W.faults wire.old) (W.faults wire.new)) (told_answer result) s' × StandsFor self.new s') }
        ensures steady { all_faults (W.faults wire.new) ≡ all_faults (W.faults wire.old) → AnswersSteadily self.old request.now moment result self.new }
        ensures grown { Grows (W.faults wire.old) (W.faults wire.new) }
    {
        let call = Call {
            request,
            judged,
            moment,
            is_audited: false,
        };
        let AuditedReply { reply, entry } = self.answer_by(alloc, &call, reading, wire);
        drop(entry);
        reply
    }

    /// One Fetch step: the reply of a ticket, which ends.
    ///
    /// `NoSuchTicket` if the ticket was not given, or was fetched before. `Unreachable` if every node with a copy of some content answered no,
    /// and `NoMemory` if memory runs out: the ticket then stays.
    pub fn fetch<W: Wire>(&mut self, ticket: u64, wire: &mut W) -> Result<Outcome, StepFault>
        ensures taken { (s : State) → StandsFor self.old s
            → (s' : State) × (Takes s (Fetch ticket) (has_faults (W.faults wire.old) (W.faults wire.new)) result s' × StandsFor self.new s') }
        ensures grown { Grows (W.faults wire.old) (W.faults wire.new) }
    {
        let fetched = self.tickets.fetch(ticket, wire);
        answered(fetched)
    }

    /// One Split step: the slot of this number is split at a key, which is the first key of the upper half. The slot settles its doubt first.
    ///
    /// `Map` with the first cause that refuses the split, or if memory runs out for the split point: nothing is settled then. `Busy` if nodes
    /// that were needed did not answer, and `NoMemory` if memory runs out for the halves of the slot. After a fault nothing is changed, except
    /// that a doubt may have ended.
    pub fn split<W: Wire>(
        &mut self,
        alloc: Global,
        slot: usize,
        middle: &Key,
        wire: &mut W,
    ) -> Result<Outcome, StepFault>
        ensures taken { (s : State) → StandsFor self.old s
            → (s' : State) × (Takes s (Split slot middle.now) (has_faults (W.faults wire.old) (W.faults wire.new)) result s' × StandsFor self.new s') }
        ensures grown { Grows (W.faults wire.old) (W.faults wire.new) }
    {
        split(&mut self.slots, &mut self.spans, alloc, slot, middle, wire)
    }

    /// One Settle, Seal, Load, Checkpoint, Compact, Unload, Move or Repair step, on the slot with this number. All but Unload and Move settle
    /// the doubt of the slot first. The machine has no extents and no logs, so its answer `Made` says that the doubt was settled, and no more.
    /// But what the slot gave is handed on, and only its call makes such a value: so a step that says `Sealed` has sealed the streams, and so
    /// on. To drop what a checkpoint replaced or a sweep gave up takes time for each block.
    ///
    /// `NoSuchSlot` if no slot has the number. `Repair` with `NoSuchExtent` if the stream of a repair has no sealed extent of the number. `Busy`
    /// of the slot, or `Unreachable` of a repair, if nodes that were needed did not answer, and `NoMemory` if memory runs out. After a fault
    /// nothing is changed, except that a doubt may have ended.
    pub fn tend<W: Wire>(
        &mut self,
        alloc: Global,
        slot: usize,
        care: CoreCare,
        wire: &mut W,
    ) -> Result<Tended, Untended>
        ensures taken { (s : State) → StandsFor self.old s
            → (s' : State) × (Takes s (step_of slot care) (has_faults (W.faults wire.old) (W.faults wire.new)) (care_answer result) s' × StandsFor self.new s') }
        ensures given { IfOk result (IsOf care) }
        ensures grown { Grows (W.faults wire.old) (W.faults wire.new) }
    {
        tend(&mut self.slots, &self.spans, slot, care, alloc, wire)
    }

    // The same as a step of the machine. The value that the slot gave is dropped.
    fn tend_now<W: Wire>(
        &mut self,
        alloc: Global,
        slot: usize,
        care: CoreCare,
        wire: &mut W,
    ) -> Result<Outcome, StepFault>
        ensures taken { (s : State) → StandsFor self.old s
            → (s' : State) × (Takes s (step_of slot care) (has_faults (W.faults wire.old) (W.faults wire.new)) result s' × StandsFor self.new s') }
        ensures grown { Grows (W.faults wire.old) (W.faults wire.new) }
    {
        made(self.tend(alloc, slot, care, wire))
    }

    /// One Rotate step: a key of the account's pair in force is replaced, for all slots at once. Answers the epoch of the new pair. From now on
    /// requests are judged by the new pair. What was accepted before stays as it is, and a change in doubt is judged by the pair that was
    /// in force when it was served.
    ///
    /// `NoAccount` if the stamp has no such account, `Last` if no epoch comes after the epoch of the pair in force, and `NoMemory` if memory
    /// runs out. After a fault nothing is changed.
    pub fn rotate(
        &mut self,
        alloc: Global,
        account: &Text,
        which: Which,
        key: SigningKey,
    ) -> Result<Outcome, StepFault>
        ensures taken { (s : State) (faulted : Bool) → StandsFor self.old s
            → (s' : State) × (Takes s (Rotate account.now which key) faulted result s' × StandsFor self.new s') }
    {
        rotate(&mut self.slots, &self.spans, alloc, account, which, key)
    }

    // One Serve step, on a request whose body is not read yet.
    fn serve_now<W: Wire>(
        &mut self,
        alloc: Global,
        request: &Request,
        moment: Moment,
        wire: &mut W,
    ) -> Result<Outcome, StepFault>
        ensures taken { (s : State) → StandsFor self.old s
            → (s' : State) × (Takes s (Serve request.now moment) (has_faults (W.faults wire.old) (W.faults wire.new)) result s' × StandsFor self.new s') }
        ensures grown { Grows (W.faults wire.old) (W.faults wire.new) }
    {
        let answer = serve_unread(&mut self.slots, &self.spans, alloc, request, moment, wire);
        tell(&mut self.tickets, alloc, answer, wire)
    }

    /// One step: it answers what the machine may answer, and leaves what the machine leaves, from each state that the core stands for. That a
    /// call failed is what the wire counts during the step.
    ///
    /// The faults are those of [`serve`](Core::serve), [`fetch`](Core::fetch), [`split`](Core::split), [`tend`](Core::tend) and
    /// [`rotate`](Core::rotate). `NoMemory` also if memory runs out while the body of a Serve step is read: then the core is as it was.
    pub fn step<W: Wire>(
        &mut self,
        alloc: Global,
        step: Step,
        wire: &mut W,
    ) -> Result<Outcome, StepFault>
        ensures taken { (s : State) → StandsFor self.old s
            → (s' : State) × (Takes s step (has_faults (W.faults wire.old) (W.faults wire.new)) result s' × StandsFor self.new s') }
        ensures grown { Grows (W.faults wire.old) (W.faults wire.new) }
    {
        match step {
            Step::Serve { request, moment } => self.serve_now(alloc, &request, moment, wire),
            Step::Fetch { ticket } => self.fetch(ticket, wire),
            Step::Rotate {
                account,
                which,
                key,
            } => self.rotate(alloc, &account, which, key),
            Step::Split { slot, middle } => self.split(alloc, slot, &middle, wire),
            Step::Settle { slot } => self.tend_now(alloc, slot, CoreCare::Settle, wire),
            Step::Seal { slot } => self.tend_now(alloc, slot, CoreCare::Seal, wire),
            Step::Load { slot } => self.tend_now(alloc, slot, CoreCare::Load, wire),
            Step::Checkpoint { slot } => self.tend_now(alloc, slot, CoreCare::Checkpoint, wire),
            Step::Compact { slot } => self.tend_now(alloc, slot, CoreCare::Compact, wire),
            Step::Unload { slot } => self.tend_now(alloc, slot, CoreCare::Unload, wire),
            Step::Move { slot, server } => self.tend_now(
                alloc,
                slot,
                CoreCare::Move { server },
                wire,
            ),
            Step::Repair {
                slot,
                stream,
                extent,
                node,
            } => {
                let care = CoreCare::Repair {
                    stream,
                    extent,
                    node,
                };
                self.tend_now(alloc, slot, care, wire)
            }
        }
    }

    /// The steps in turn: from each state that the core stands for their answers are a run of the machine, in which the wire counts the calls
    /// that failed.
    ///
    /// `AllocError` if memory runs out for the answers. Then no step was made.
    pub fn run<W: Wire>(
        &mut self,
        alloc: Global,
        steps: Vec<Step>,
        wire: &mut W,
    ) -> Result<Vec<Result<Outcome, StepFault>>, AllocError>
        ensures ran { IfOk result (λ answers. (s : State) → StandsFor self.old s
            → (s' : State) × (IsRun s (all_faults (W.faults wire.old)) steps.items answers.items s' (all_faults (W.faults wire.new)) × StandsFor self.new s')) }
        ensures count { IfOk result (λ answers. length answers.items ≡ length steps.items) }
        ensures unchanged { OnErr result ((self.new ≡ self.old) × (W.faults wire.new ≡ W.faults wire.old)) }
        ensures grown { Grows (W.faults wire.old) (W.faults wire.new) }
    {
        let mut answers = Vec::with_capacity(alloc, steps.len())?;
        let mut later = steps.into_iter();
        while let Some(step) = later.next() {
            let answer = self.step(alloc, step, wire);
            if answers.push(answer).is_err() {
                unreachable!("there is room for each answer");
            }
        }
        Ok(answers)
    }
}
