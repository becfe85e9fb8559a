//! How a change of a slot that is in doubt ends.
ghost use Rattle.std.specs.Prelude.{◌≡◌, ◌≢◌, [], IsSome};
ghost use Rattle.stored_rows.specs.Counting.{FailsStored};
ghost use Rattle.stored_rows.specs.States.{SettlesRows, own_doubt_of};
ghost use Rattle.slot_state.specs.HistoryMaps.{history_at};
ghost use Rattle.stored_slot.specs.Parts.{AreOfSlot, slot_of};
ghost use Rattle.stored_slot.specs.Settled as settled;
ghost use Rattle.stored_slot.specs.Settled.{SettlesOrFails};

use crate::parts::SlotParts;
use extent_node::Wire;
use slot_state::Histories;
use stamp_types::Past;
use std::alloc::Global;
use stored_rows::{Ended, StoredFault, StoredRows};

// Whether the change that was in doubt is kept.
fn is_kept(ended: &Result<Ended, StoredFault>) -> bool
    ensures { result ≡ settled.keeps_change ended.now }
{
    matches!(ended, Ok(Ended::Kept))
}

// Settles a doubt, and takes the last entry of the container back unless the change is kept.
fn settle_or_take_back<H: Histories, W: Wire>(
    histories: &mut H,
    stored: &mut StoredRows,
    entry: &Past,
    wire: &mut W,
) -> Result<Ended, StoredFault>
    requires entry { history_at (H.held histories.old) entry.now.request.ask.key ≢ [] }
    ensures settled { SettlesRows result stored.old stored.new }
    ensures left { H.held histories.new ≡ settled.pushed_left (settled.keeps_change result) (H.held histories.old) entry.now.request.ask.key }
    ensures data { stored.new.streams.blobs ≡ stored.old.streams.blobs }
    ensures counted { FailsStored result (W.faults wire.old) (W.faults wire.new) }
{
    let ended = stored.settle(wire);
    if !is_kept(&ended) {
        histories.take_back(&entry.request.ask().key);
    }
    ended
}

// Settles the change of an entry, which is in doubt. The entry is pushed first, and is taken back unless the change is kept: so memory
// cannot run out for a change that is kept.
#[tactic(auto, using(slot_state::proofs::MapLemmas::has_entry, stored_rows::proofs::CountLemmas::grows_not))]
fn settle_entry<H: Histories, W: Wire>(
    histories: &mut H,
    stored: &mut StoredRows,
    alloc: Global,
    entry: &Past,
    wire: &mut W,
) -> Result<Ended, StoredFault>
    requires doubt { IsSome (own_doubt_of stored.old) }
    ensures settled { SettlesRows result stored.old stored.new }
    ensures entries { H.held histories.new ≡ settled.follows result (H.held histories.old) entry.now }
    ensures data { stored.new.streams.blobs ≡ stored.old.streams.blobs }
    ensures counted { FailsStored result (W.faults wire.old) (W.faults wire.new) }
{
    match histories.push(alloc, entry) {
        Ok(()) => settle_or_take_back(histories, stored, entry, wire),
        Err(_fault) => Err(StoredFault::NoMemory),
    }
}

impl<H: Histories> SlotParts<H> {
    /// Settles the change of a slot that is in doubt, if there is one: it is kept with the moment and the epoch at which it was served, or it
    /// is dropped.
    ///
    /// After a fault nothing is changed, and the doubt is as it was. Busy: nodes that were needed did not answer.
    pub(crate) fn settle<W: Wire>(&mut self, alloc: Global, wire: &mut W) -> Result<(), StoredFault>
        requires before { AreOfSlot H.held self.old }
        ensures after { AreOfSlot H.held self.new }
        ensures settled { SettlesOrFails result (slot_of H.held self.old) (slot_of H.held self.new) }
        ensures counted { FailsStored result (W.faults wire.old) (W.faults wire.new) }
    {
        match self.doubt.take() {
            None => Ok(()),
            Some(entry) => match settle_entry(
                &mut self.histories,
                &mut self.stored,
                alloc,
                &entry,
                wire,
            ) {
                Ok(_ended) => {
                    drop(entry);
                    Ok(())
                }
                Err(fault) => {
                    self.doubt = Some(entry);
                    Err(fault)
                }
            },
        }
    }
}
