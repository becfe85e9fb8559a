//! How a node gets the blocks of a sealed extent again.
ghost use Rattle.std.specs.Prelude.{◌≡◌, ◌||◌, true, false, not, List, IfOk, IfSome};
ghost use Rattle.extent_node.specs.Copies.{Block};
ghost use Rattle.std.specs.Option.{is_some};
ghost use Rattle.extent_node.specs.Faults.{CountsAskFault, CountsFault, CountsNone};
ghost use Rattle.extent_seal.specs.Counting.{AsksIf};
ghost use Rattle.extent_seal.specs.Repairs.{CountsCalls, CountsCallsUpTo};

use extent_node::{Node, Replica, Wire};
use std::alloc::{AllocError, Global};

/// A replica with the same blocks. No byte is copied.
#[tactic(auto, using(crate::proofs::RepairLemmas::take_next))]
pub(crate) fn copy_of(replica: &Replica, alloc: Global) -> Result<Replica, AllocError>
    ensures { IfOk result (λ r. r.blocks ≡ replica.now.blocks) }
{
    let mut copy = Replica::new(alloc);
    for i in 0..replica.len() {
        copy.reserve()?;
        copy.append_reserved(replica.block(i).share()?);
    }
    Ok(copy)
}

/// A replica with the same blocks, if there is a replica. No byte is copied.
pub(crate) fn copy_if(
    replica: &Option<Replica>,
    alloc: Global,
) -> Result<Option<Replica>, AllocError>
    ensures there { IfOk result (λ r. is_some r ≡ is_some replica.now) }
    ensures blocks { IfOk result (λ r. (blocks : List Block) → IfSome replica.now (λ o. o.blocks ≡ blocks) → IfSome r (λ k. k.blocks ≡ blocks)) }
{
    match replica {
        None => Ok(None),
        Some(replica) => Ok(Some(copy_of(replica, alloc)?)),
    }
}

/// Whether there is a replica, and its node answers. The node is not called without a replica.
pub(crate) fn answers<W: Wire>(replica: &Option<Replica>, node: Node, wire: &mut W) -> bool
    ensures there { (result ≡ true) → is_some replica.now ≡ true }
    ensures called { AsksIf node (is_some replica.now) (W.calls wire.old) (W.calls wire.new) }
    ensures counted { CountsAskFault node (result || not (is_some replica.now)) (W.faults wire.old) (W.faults wire.new) }
{
    match replica {
        None => false,
        Some(_) => wire.ask(node),
    }
}

/// Puts so many blocks to the node, one after the other, until a delivery is not Done. Whether each delivery was Done.
#[tactic(auto, using(crate::proofs::RepairLemmas::no_calls_more, crate::proofs::RepairLemmas::one_call_more, crate::proofs::RepairLemmas::no_fault_more, crate::proofs::RepairLemmas::one_fault_more, crate::proofs::RepairLemmas::calls_up_to))]
pub(crate) fn put_all<W: Wire>(node: Node, count: usize, wire: &mut W) -> bool
    ensures called { (result ≡ true) → CountsCalls node count (W.calls wire.old).puts (W.calls wire.new).puts }
    ensures counted { (result ≡ true) → CountsNone (W.faults wire.old).puts (W.faults wire.new).puts }
    ensures some_called { (result ≡ false) → CountsCallsUpTo node count (W.calls wire.old).puts (W.calls wire.new).puts }
    ensures some_failed { (result ≡ false) → CountsFault node false (W.faults wire.old).puts (W.faults wire.new).puts }
    ensures unasked { CountsNone (W.calls wire.old).asks (W.calls wire.new).asks }
    ensures unfailed { CountsNone (W.faults wire.old).asks (W.faults wire.new).asks }
{
    for _i in 0..count {
        if !wire.put(node).is_done() {
            return false;
        }
    }
    true
}
