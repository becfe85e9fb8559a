//! Changes of a slot, each with its entry.
ghost use Rattle.std.specs.Prelude.{◌≡◌, ◌≢◌, [], IfSome, IsTrue, None, OnErr, OnOk, false, true};
ghost use Rattle.stamp_types.specs.ActKinds.{is_row};
ghost use Rattle.stamp_types.specs.Changes.{content_of};
ghost use Rattle.stamp_types.specs.Pieces.{is_held, pieces_len};
ghost use Rattle.stamp_types.specs.World.{part_value};
ghost use Rattle.row_trees.specs.Fits.{fits};
ghost use Rattle.stored_rows.specs.Counting.{FailsTake};
ghost use Rattle.stored_rows.specs.Ranges.{covers};
ghost use Rattle.stored_rows.specs.States.{AreFoundIn, IsTaken, doubt_of, pieces_of};
ghost use Rattle.slot_state.specs.HistoryMaps.{history_at, without_last};
ghost use Rattle.stored_slot.specs.Changes as changes;
ghost use Rattle.stored_slot.specs.Changes.{slot_taken};
ghost use Rattle.stored_slot.specs.Parts.{AreClear, AreOfSlot, AreSettled, MakesChangeOf, slot_of};

use crate::parts::SlotParts;
use crate::sweeping::{fault_before, make_way};
use extent_node::Wire;
use slot_state::Histories;
use stamp_types::{Change, Past};
use std::alloc::Global;
use stored_rows::{FoundForChange, StoredRows, TakeFault};

/// A change with what was found for it when the request was judged.
#[derive(Drop)]
pub(crate) struct FoundChange {
    pub(crate) change: Change,
    pub(crate) found: FoundForChange,
}

// Takes the change, or takes the last entry of its container back.
fn take_or_take_back<H: Histories, W: Wire>(
    histories: &mut H,
    stored: &mut StoredRows,
    entry: &Past,
    change: Change,
    found: Option<FoundForChange>,
    wire: &mut W,
) -> Result<(), TakeFault>
    requires entry { history_at (H.held histories.old) entry.now.request.ask.key ≢ [] }
    requires covered { covers stored.old.range change.key ≡ true }
    requires plain { is_row change.act ≡ false }
    requires held { IfSome (content_of change.act) (λ ps. IsTrue (is_held ps)) }
    requires fits { IsTrue (fits (part_value pieces_len (pieces_of stored.old change.key)) change.act) }
    requires found { IfSome found (λ f. AreFoundIn stored.old change f.blocks) }
    requires sure { doubt_of stored.old ≡ None }
    ensures taken { IsTaken result stored.old (change, entry.now.epoch) stored.new }
    ensures stays { OnOk result (H.held histories.new ≡ H.held histories.old) }
    ensures back { OnErr result (H.held histories.new ≡ without_last (H.held histories.old) entry.now.request.ask.key) }
    ensures counted { FailsTake result (W.faults wire.old) (W.faults wire.new) }
{
    let taken = stored.take(change, found, entry.epoch, wire);
    if taken.is_err() {
        histories.take_back(&entry.request.ask().key);
    }
    taken
}

// Pushes the entry and takes its change: both, or neither. The entry is pushed first, so nothing can fail after the change is logged.
#[tactic(auto, using(slot_state::proofs::MapLemmas::has_entry, stored_rows::proofs::CountLemmas::grows_not))]
fn take_entry<H: Histories, W: Wire>(
    histories: &mut H,
    stored: &mut StoredRows,
    alloc: Global,
    entry: &Past,
    change: Change,
    found: Option<FoundForChange>,
    wire: &mut W,
) -> Result<(), TakeFault>
    requires covered { covers stored.old.range change.key ≡ true }
    requires plain { is_row change.act ≡ false }
    requires held { IfSome (content_of change.act) (λ ps. IsTrue (is_held ps)) }
    requires fits { IsTrue (fits (part_value pieces_len (pieces_of stored.old change.key)) change.act) }
    requires found { IfSome found (λ f. AreFoundIn stored.old change f.blocks) }
    requires sure { doubt_of stored.old ≡ None }
    ensures taken { IsTaken result stored.old (change, entry.now.epoch) stored.new }
    ensures entered { H.held histories.new ≡ changes.with_taken result (H.held histories.old) entry.now }
    ensures counted { FailsTake result (W.faults wire.old) (W.faults wire.new) }
{
    match histories.push(alloc, entry) {
        Ok(()) => take_or_take_back(histories, stored, entry, change, found, wire),
        Err(_fault) => {
            drop(change);
            drop(found);
            Err(TakeFault::NoMemory)
        }
    }
}

// Keeps the entry, if its change is in doubt.
fn keep_doubt(doubt: &mut Option<Past>, taken: &Result<(), TakeFault>, entry: Past)
    requires { doubt.old ≡ None }
    ensures { doubt.new ≡ changes.doubted_entry taken.now entry }
{
    match taken {
        Ok(()) => drop(entry),
        Err(TakeFault::Doubt) => *doubt = Some(entry),
        Err(TakeFault::Busy) => drop(entry),
        Err(TakeFault::NoMemory) => drop(entry),
    }
}

impl<H: Histories> SlotParts<H> {
    // Makes a change of streams that have no doubt, with its entry.
    fn enter_change<W: Wire>(
        &mut self,
        alloc: Global,
        entry: Past,
        change: Change,
        found: Option<FoundForChange>,
        wire: &mut W,
    ) -> Result<(), TakeFault>
        requires before { AreSettled H.held self.old }
        requires clear { AreClear self.old }
        requires makes { MakesChangeOf H.held self.old entry change }
        requires found { IfSome found (λ f. AreFoundIn self.old.stored change f.blocks) }
        ensures after { AreOfSlot H.held self.new }
        ensures taken { slot_of H.held self.new ≡ slot_taken result (slot_of H.held self.old) entry }
        ensures counted { FailsTake result (W.faults wire.old) (W.faults wire.new) }
    {
        self.stored.kept();
        let taken = take_entry(
            &mut self.histories,
            &mut self.stored,
            alloc,
            &entry,
            change,
            found,
            wire,
        );
        keep_doubt(&mut self.doubt, &taken, entry);
        taken
    }

    /// Makes a change, with its entry. The doubt of a row ends before, and if a sweep is under way, the rows that the change reads are written again
    /// before. If the change is in doubt, the entry moves into the slot's doubt.
    ///
    /// After any other fault nothing is changed.
    pub(crate) fn change<W: Wire>(
        &mut self,
        alloc: Global,
        entry: Past,
        made: FoundChange,
        wire: &mut W,
    ) -> Result<(), TakeFault>
        requires before { AreSettled H.held self.old }
        requires makes { MakesChangeOf H.held self.old entry made.change }
        requires found { AreFoundIn self.old.stored made.change made.found.blocks }
        ensures after { AreOfSlot H.held self.new }
        ensures taken { slot_of H.held self.new ≡ slot_taken result (slot_of H.held self.old) entry }
        ensures counted { FailsTake result (W.faults wire.old) (W.faults wire.new) }
    {
        let FoundChange { change, found } = made;
        match make_way(&mut self.stored, &change, found, wire) {
            Ok(found) => self.enter_change(alloc, entry, change, found, wire),
            Err(fault) => {
                drop(entry);
                drop(change);
                Err(fault_before(fault))
            }
        }
    }
}
