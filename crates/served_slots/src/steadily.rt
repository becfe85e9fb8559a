//! What a slot does over nodes in memory, which answer each call.
ghost use Rattle.std.specs.Prelude.{◌≡◌, IfOk, None, OnErr, OnOk, false, true};
ghost use Rattle.std.specs.Arc.{arc_value};
ghost use Rattle.stamp_types.specs.World.{no_part};
ghost use Rattle.stamp_values.specs.declared.key.Key.{Key};
ghost use Rattle.extent_seal.specs.Counting.{Grows};
ghost use Rattle.policy_book.specs.Judgements.{IsOfAsk};
ghost use Rattle.range_rows.specs.Readings.{reading_of};
ghost use Rattle.stamp_model.specs.SeenContainers.{routed};
ghost use Rattle.stored_rows.specs.Ranges.{all_keys};
ghost use Rattle.stored_rows.specs.States.{doubt_of, pieces_of};
ghost use Rattle.slot_state.specs.Slots as slots;
ghost use Rattle.slot_state.specs.Slots.{empty_slot, lower_half, upper_half};
ghost use Rattle.stored_slot.specs.Audits.{SlotAudits};
ghost use Rattle.stored_slot.specs.Served.{Faulted};
ghost use Rattle.served_slots.specs.Audits.{AuditsInSlot};

use crate::replied::Replied;
use crate::told::Told;
use extent_node::Wire;
use range_rows::Reading;
use slot_state::{AccountPairs, ProvedHistories, Ready};
use stamp_types::Key;
use std::alloc::{AllocError, Global};
use std::sync::Arc;
use stored_rows::{KeyRange, StepLimit, StoredRows};
use stored_slot::{Audited, EXTENT_BYTES, Steady, StoredSlot, SweepStep};

// A slot of all keys with these rows.
#[tactic(auto, using(crate::proofs::FirstLemmas::slot_of_all))]
fn slot_of(alloc: Global, rows: StoredRows, pairs: Arc<AccountPairs>) -> StoredSlot<ProvedHistories>
    requires none { (key : Key) → pieces_of rows key ≡ no_part }
    requires sure { doubt_of rows ≡ None }
    requires whole { rows.range ≡ all_keys }
    ensures { result ≡ empty_slot (arc_value pairs) }
{
    StoredSlot::of_rows(alloc, rows, pairs)
}

/// A slot of all keys, without containers, for these key pairs. Takes no memory.
pub(crate) fn first_slot(alloc: Global, pairs: Arc<AccountPairs>) -> StoredSlot<ProvedHistories>
    ensures { result ≡ empty_slot (arc_value pairs) }
{
    let rows = StoredRows::new(alloc, EXTENT_BYTES, KeyRange::all(alloc)).gathering_lists();
    slot_of(alloc, rows, pairs)
}

// The slot serves a request. If an entry of the audit book is asked for, the request has one if it names a container and is let in.
fn audit_if<W: Wire>(
    slot: &mut StoredSlot<ProvedHistories>,
    alloc: Global,
    ready: &Ready<'_>,
    reading: Reading,
    wire: &mut W,
) -> Audited
    requires covered { slots.covers slot.old (routed ready.now.request.now) ≡ true }
    requires judged { IsOfAsk ready.now.judged ready.now.request.now.ask }
    requires read { reading ≡ reading_of ready.now.request.now }
    ensures served { SlotAudits slot.old ready.now.request.now ready.now.moment (Faulted (W.faults wire.old) (W.faults wire.new)) result.answer result.entry slot.new }
    ensures unasked { ready.now.is_audited ≡ false → result.entry ≡ None }
    ensures grown { Grows (W.faults wire.old) (W.faults wire.new) }
{
    let judged = ready.judged.as_ref();
    let moment = ready.moment;
    if ready.is_audited {
        return slot.serve_audited(alloc, ready.request, judged, reading, moment, wire);
    }
    let answer = slot.serve_read(alloc, ready.request, judged, reading, moment, wire);
    Audited {
        answer,
        entry: None,
    }
}

/// Serves a request: one step of the model. If entries of the audit book are asked for, the request has one if it names a container and is let in.
///
/// `AllocError` if memory runs out for the answer. Then the slot is as it was. If memory runs out for the entry only, the request is answered
/// without one.
pub(crate) fn tell_steadily(
    slot: &mut StoredSlot<ProvedHistories>,
    alloc: Global,
    ready: &Ready<'_>,
    reading: Reading,
) -> Result<Told, AllocError>
    requires covered { slots.covers slot.old (routed ready.now.request.now) ≡ true }
    requires judged { IsOfAsk ready.now.judged ready.now.request.now.ask }
    requires read { reading ≡ reading_of ready.now.request.now }
    requires sure { slot.old.doubt ≡ None }
    ensures served { IfOk result (λ told. slots.IsServed slot.old ready.now.request.now ready.now.moment slot.old.to told.replied slot.new) }
    ensures audited { IfOk result (λ told. AuditsInSlot slot.old ready.now.request.now ready.now.moment told.entry) }
    ensures unasked { IfOk result (λ told. ready.now.is_audited ≡ false → told.entry ≡ None) }
    ensures same { OnErr result (slot.new ≡ slot.old) }
{
    let wire = &mut Steady::new();
    let Audited { answer, entry } = audit_if(slot, alloc, ready, reading, wire);
    let Ok(replied) = Replied::of(answer) else {
        drop(entry);
        return Err(AllocError);
    };
    Ok(Told { replied, entry })
}

/// Cuts a slot at a key of its range: the upper half is answered.
///
/// `AllocError` if memory runs out. Then the slot is as it was.
pub(crate) fn cut_steadily(
    slot: &mut StoredSlot<ProvedHistories>,
    alloc: Global,
    middle: &Key,
) -> Result<StoredSlot<ProvedHistories>, AllocError>
    requires inside { slots.is_inside slot.old middle.now ≡ true }
    requires sure { slot.old.doubt ≡ None }
    ensures lower { OnOk result (slot.new ≡ lower_half slot.old middle.now) }
    ensures upper { IfOk result (λ upper. upper ≡ upper_half slot.old middle.now) }
    ensures same { OnErr result (slot.new ≡ slot.old) }
{
    let wire = &mut Steady::new();
    match slot.split(alloc, middle, wire) {
        Ok(upper) => Ok(upper),
        Err(_fault) => Err(AllocError),
    }
}

/// Makes a step of a sweep, up to the limit. `None` if memory runs out.
pub(crate) fn sweep_steadily(
    slot: &mut StoredSlot<ProvedHistories>,
    alloc: Global,
    limit: StepLimit,
) -> Option<SweepStep>
    requires { slot.old.doubt ≡ None }
    ensures { slot.new ≡ slot.old }
{
    let wire = &mut Steady::new();
    match slot.sweep(alloc, limit, wire) {
        Ok(step) => Some(step),
        Err(_fault) => None,
    }
}
