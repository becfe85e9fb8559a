//! How a slot over streams is cut in two.
ghost use Rattle.std.specs.Prelude.{◌≡◌, IfOk, None, true};
ghost use Rattle.std.specs.Arc.{arc_value};
ghost use Rattle.std.specs.FinMap as finite;
ghost use Rattle.stamp_values.specs.Trees.{is_below, is_from};
ghost use Rattle.stored_rows.specs.Counting.{FailsStored};
ghost use Rattle.stored_rows.specs.Ranges.{covers};
ghost use Rattle.stored_rows.specs.States.{doubt_of};
ghost use Rattle.stored_slot.specs.Meanings.{AreOfStreams, AreReplays, slot_with};
ghost use Rattle.stored_slot.specs.Parts.{AreClear, AreOfSlot, AreSettled, slot_of};
ghost use Rattle.stored_slot.specs.Settled.{Cuts, CutsSettled};

use crate::parts::SlotParts;
use crate::stored_slot::StoredSlot;
use extent_node::Wire;
use slot_state::{AccountPairs, Histories};
use stamp_types::Key;
use std::alloc::{AllocError, Global};
use std::sync::Arc;
use stored_rows::{StoredFault, StoredRows};

// What is made for the two halves of a slot before anything is cut.
#[derive(Drop)]
struct Halves<H: Histories> {
    below: H,
    above: H,
    pairs: Arc<AccountPairs>,
}

// What the halves need, from what the slot has.
fn make_halves<H: Histories>(
    histories: &H,
    pairs: &Arc<AccountPairs>,
    alloc: Global,
    middle: &Key,
) -> Result<Halves<H>, AllocError>
    ensures below { IfOk result (λ ready. H.held ready.below ≡ finite.retain_keys (H.held histories.now) (is_below middle.now)) }
    ensures above { IfOk result (λ ready. H.held ready.above ≡ finite.retain_keys (H.held histories.now) (is_from middle.now)) }
    ensures pairs { IfOk result (λ ready. arc_value ready.pairs ≡ arc_value pairs.now) }
{
    let pairs = pairs.clone()?;
    let (below, above) = histories.halves(alloc, middle)?;
    Ok(Halves {
        below,
        above,
        pairs,
    })
}

// Cuts the streams and the rows, and then the histories. Nothing can fail after the streams are cut.
fn cut_with<H: Histories, W: Wire>(
    histories: &mut H,
    stored: &mut StoredRows,
    halves: Halves<H>,
    middle: &Key,
    wire: &mut W,
) -> Result<StoredSlot<H>, StoredFault>
    requires before { AreReplays (arc_value halves.pairs) (H.held histories.old) stored.old }
    requires below { H.held halves.below ≡ finite.retain_keys (H.held histories.old) (is_below middle.now) }
    requires above { H.held halves.above ≡ finite.retain_keys (H.held histories.old) (is_from middle.now) }
    requires sure { doubt_of stored.old ≡ None }
    requires covered { covers stored.old.range middle.now ≡ true }
    ensures after { AreOfStreams (arc_value halves.pairs) (H.held histories.new) stored.new None }
    ensures cut { Cuts result (slot_with (arc_value halves.pairs) (H.held histories.old) stored.old None) middle.now
        (slot_with (arc_value halves.pairs) (H.held histories.new) stored.new None) }
    ensures counted { FailsStored result (W.faults wire.old) (W.faults wire.new) }
{
    match stored.cut(middle, wire) {
        Ok(upper) => {
            let Halves {
                below,
                above,
                pairs,
            } = halves;
            *histories = below;
            let parts = SlotParts {
                histories: above,
                stored: upper,
                pairs,
                doubt: None,
                unknown: None,
            };
            Ok(StoredSlot { parts })
        }
        Err(fault) => {
            drop(halves);
            Err(fault)
        }
    }
}

impl<H: Histories> SlotParts<H> {
    // Cuts a slot without a doubt.
    fn cut_settled<W: Wire>(
        &mut self,
        alloc: Global,
        middle: &Key,
        wire: &mut W,
    ) -> Result<StoredSlot<H>, StoredFault>
        requires before { AreSettled H.held self.old }
        requires clear { AreClear self.old }
        requires covered { covers self.old.stored.range middle.now ≡ true }
        ensures after { AreOfSlot H.held self.new }
        ensures cut { Cuts result (slot_of H.held self.old) middle.now (slot_of H.held self.new) }
        ensures counted { FailsStored result (W.faults wire.old) (W.faults wire.new) }
    {
        match make_halves(&self.histories, &self.pairs, alloc, middle) {
            Ok(halves) => cut_with(&mut self.histories, &mut self.stored, halves, middle, wire),
            Err(AllocError) => Err(StoredFault::NoMemory),
        }
    }

    /// Settles a doubt, if there is one, and then cuts the slot at a key of its range: the upper half is answered.
    pub(crate) fn cut<W: Wire>(
        &mut self,
        alloc: Global,
        middle: &Key,
        wire: &mut W,
    ) -> Result<StoredSlot<H>, StoredFault>
        requires before { AreOfSlot H.held self.old }
        requires covered { covers self.old.stored.range middle.now ≡ true }
        ensures after { AreOfSlot H.held self.new }
        ensures cut { CutsSettled result (slot_of H.held self.old) middle.now (slot_of H.held self.new) }
        ensures counted { FailsStored result (W.faults wire.old) (W.faults wire.new) }
    {
        match self.clear(alloc, wire) {
            Ok(()) => self.cut_settled(alloc, middle, wire),
            Err(fault) => Err(fault),
        }
    }
}
