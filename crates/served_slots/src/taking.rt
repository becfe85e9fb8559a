//! A slot that takes longer key pairs, and enters the rotation.
ghost use Rattle.std.specs.Prelude.{◌≡◌, ◌<◌, ◌^◌, IfSome, None, OnSome};
ghost use Rattle.std.specs.Arc.{arc_value};
ghost use Rattle.slot_state.specs.NextPairs.{HasNextPair};
ghost use Rattle.served_history.specs.declared.entry.Entry.TheVariants.{Rotated};
ghost use Rattle.served_history.specs.Growth.{IsEntered};
ghost use Rattle.served_history.specs.Histories.{count_of};
ghost use Rattle.served_slots.specs.Rotations.{IsToldBy};
ghost use Rattle.served_slots.specs.Slots.{IsLeftBy};
ghost use Rattle.served_slots.specs.Steps.{HasOneMore};

use crate::next_pairs::KeyChange;
use served_history::{Account, LogFront, SlotHistory};
use slot_state::{Longer, ProvedHistories};
use stamp_types::Key;
use stored_slot::StoredSlot;

/// Enters that the slot replaced a key of the account, and gives the slot the pairs after that. Answers the epoch of the new pair. Takes no memory.
///
/// `None` if the slot's word says another number of entries than the slot made. No thread makes such an entry, though no clause says so. Then
/// nothing is entered, and the slot is of no use any more.
pub(crate) fn take_and_enter<A: Account>(
    slot: &mut StoredSlot<ProvedHistories>,
    own: &mut SlotHistory<A>,
    to: &Option<Key>,
    known: &mut LogFront<A>,
    change: &KeyChange<'_>,
    longer: Longer,
) -> Option<u64>
    requires left { IsLeftBy own.old to.now slot.old }
    requires next { HasNextPair slot.old.pairs change.now.account.now change.now.which change.now.key.now longer.epoch (arc_value longer.pairs) }
    requires room { count_of own.old.slot own.old.log < 2 ^ 62 }
    ensures left { OnSome result (IsLeftBy own.new to.now slot.new) }
    ensures entered { OnSome result (IsEntered own.old.slot own.old.log known.old (Rotated own.old.slot change.now.account.now change.now.which change.now.key.now) known.new) }
    ensures told { IfSome result (λ epoch. IsToldBy own.old.slot change.now.account.now epoch known.new) }
    ensures made { OnSome result (HasOneMore own.old known.new own.new) }
    ensures same { result ≡ None → known.new ≡ known.old }
{
    let _end = to;
    if !own.rotate(known, change.account, change.which, change.key) {
        drop(longer);
        return None;
    }
    let Longer { pairs, epoch } = longer;
    slot.catch_up(pairs);
    Some(epoch)
}
