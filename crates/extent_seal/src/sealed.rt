//! Extents that take no more blocks.
ghost use Rattle.std.specs.Prelude.{◌≡◌, ◌≢◌, ◌||◌, ◌<◌, not, Some, Err, length, IfOk, IsSome, IfSome};
ghost use Rattle.std.specs.List.{slice_get};
ghost use Rattle.std.specs.Option.{is_some};
ghost use Rattle.extent_node.specs.Faults.{CountsAskFault};
ghost use Rattle.extent_seal.specs.Counting.{AsksIf};
ghost use Rattle.extent_seal.specs.declared.sealed.ReadFault.TheVariants.{Unreachable};

use extent_node::{Node, Replica, Wire};
use stamp_values::Share;
use std::alloc::{AllocError, Global};
use std::marker::Model;

/// Why a block was not read, or a node did not get a copy of an extent.
#[derive(Clone, Copy, Debug, PartialEq, Eq)]
pub enum ReadFault {
    /// Every node with a copy was asked, and each answered no; or a block was put to the node that lacks a copy, and the delivery was not Done.
    Unreachable,
    /// Memory ran out, or the block cannot have another owner.
    NoMemory,
}

impl From<AllocError> for ReadFault {
    ghost use Rattle.std.specs.Prelude.{◌≡◌};
    ghost use Rattle.extent_seal.specs.declared.sealed.ReadFault.TheVariants.{NoMemory};

    ghost from_gives = { λ _ e. e ≡ NoMemory };

    fn from(_error: AllocError) -> Self {
        Self::NoMemory
    }
}

/// An extent that takes no more blocks: the replicas of the nodes that answered when it was sealed (SOSP 2011, section 4.3.2).
///
/// Its commit length is the number of its blocks. No call changes it.
#[derive(Drop)]
pub struct Sealed {
    pub(crate) zero: Option<Replica>,
    pub(crate) one: Option<Replica>,
    pub(crate) two: Option<Replica>,
}

impl Model for Sealed {
    ghost use Rattle.std.specs.Prelude.{◌≡◌, ◌||◌, true, IfSome};
    ghost use Rattle.std.specs.Option.{is_some};
    ghost use Rattle.extent_seal.specs.Extents.{Closed, first_kept};

    ghost Value = { Closed };

    ghost view = { λ s. record {
      blocks = first_kept s.zero s.one s.two;
      kept = record { zero = is_some s.zero; one = is_some s.one; two = is_some s.two };
    } };

    ghost invariant = { λ s.
        ((is_some s.zero || (is_some s.one || is_some s.two)) ≡ true)
        × (IfSome s.zero (λ r. r.blocks ≡ first_kept s.zero s.one s.two)
        × (IfSome s.one (λ r. r.blocks ≡ first_kept s.zero s.one s.two)
        × IfSome s.two (λ r. r.blocks ≡ first_kept s.zero s.one s.two))) };
}

// The block of the replica, if there is one and its node answers. No node is called without a replica.
fn asked<'a, W: Wire>(
    replica: &'a Option<Replica>,
    node: Node,
    index: usize,
    wire: &mut W,
) -> Option<&'a Share>
    requires { IfSome replica.now (λ r. index < length r.blocks) }
    ensures block { IfSome result (λ b. IfSome replica.now (λ r. slice_get r.blocks index ≡ Some b.now)) }
    ensures there { IsSome result → IsSome replica.now }
    ensures called { AsksIf node (is_some replica.now) (W.calls wire.old) (W.calls wire.new) }
    ensures counted { CountsAskFault node (is_some result || not (is_some replica.now)) (W.faults wire.old) (W.faults wire.new) }
{
    match replica {
        None => None,
        Some(replica) => {
            if wire.ask(node) {
                Some(replica.block(index))
            } else {
                None
            }
        }
    }
}

/// One more owner of the bytes of a block.
pub(crate) fn shared(block: &Share) -> Result<Share, ReadFault>
    ensures block { IfOk result (λ b. b ≡ block.now) }
    ensures reached { result ≢ Err Unreachable }
{
    block.share().map_err(|_| ReadFault::NoMemory)
}

impl Sealed {
    ghost use Rattle.extent_seal.specs.Extents.{no_blocks};

    /// An extent without blocks, of which each node has a copy. Takes no memory, and calls no node.
    pub fn none(alloc: Global) -> Self
        ensures { result ≡ no_blocks }
    {
        Self {
            zero: Some(Replica::new(alloc)),
            one: Some(Replica::new(alloc)),
            two: Some(Replica::new(alloc)),
        }
    }
}

impl Sealed {
    ghost use Rattle.std.specs.Prelude.{◌≡◌, ◌≢◌, ◌<◌, Some, Err, length, IfOk, IfSome};
    ghost use Rattle.std.specs.List.{slice_get};
    ghost use Rattle.std.specs.Option.{is_some};
    ghost use Rattle.extent_seal.specs.Counting.{AsksCopies, AsksNoOther, FailsCopies, Grows, SomeAnswers, all_faults};
    ghost use Rattle.extent_seal.specs.Extents.{answer_of};
    ghost use Rattle.extent_seal.specs.Heard.{AsksAreHeard};
    ghost use Rattle.extent_seal.specs.Repairs.{FirstAnswers};
    ghost use Rattle.extent_seal.specs.declared.sealed.ReadFault.TheVariants.{Unreachable};

    /// How many blocks there are: the commit length.
    pub fn commit_len(&self) -> usize
        ensures { result ≡ length self.now.blocks }
    {
        match (&self.zero, &self.one, &self.two) {
            (Some(replica), _, _) | (None, Some(replica), _) | (None, None, Some(replica)) => {
                replica.len()
            }
            (None, None, None) => 0,
        }
    }

    /// The block at an index below the commit length. No byte is copied.
    ///
    /// The nodes that have a copy are asked in the order 0, 1, 2 until one of them answers yes. A node whose replica was discarded
    /// is never called. Unreachable: every node with a copy was asked once and answered no. NoMemory: a node answered, and the block
    /// can have no further owner.
    pub fn read<W: Wire>(&self, index: usize, wire: &mut W) -> Result<Share, ReadFault>
        requires { index < length self.now.blocks }
        ensures read { IfOk result (λ b. slice_get self.now.blocks index ≡ Some b) }
        ensures called { result ≡ Err Unreachable → AsksCopies self.now.kept (W.calls wire.old) (W.calls wire.new) }
        ensures unreachable { result ≡ Err Unreachable → FailsCopies self.now.kept (W.faults wire.old) (W.faults wire.new) }
        ensures faulty { result ≡ Err Unreachable → all_faults (W.faults wire.old) < all_faults (W.faults wire.new) }
        ensures answered { result ≢ Err Unreachable → SomeAnswers self.now.kept (W.calls wire.old) (W.calls wire.new) (W.faults wire.old) (W.faults wire.new) }
        ensures first { result ≢ Err Unreachable → FirstAnswers self.now.kept (W.calls wire.old).asks (W.calls wire.new).asks (W.faults wire.old).asks (W.faults wire.new).asks }
        ensures heard { result ≢ Err Unreachable → AsksAreHeard (W.calls wire.old) (W.calls wire.new) (W.faults wire.old) (W.faults wire.new) }
        ensures discarded { AsksNoOther self.now.kept (W.calls wire.old) (W.calls wire.new) }
        ensures grown { Grows (W.faults wire.old) (W.faults wire.new) }
    {
        if let Some(block) = asked(&self.zero, Node::Zero, index, wire) {
            return shared(block);
        }
        if let Some(block) = asked(&self.one, Node::One, index, wire) {
            return shared(block);
        }
        if let Some(block) = asked(&self.two, Node::Two, index, wire) {
            return shared(block);
        }
        Err(ReadFault::Unreachable)
    }

    /// Lends the replica of a node, if the node has a copy.
    pub fn replica(&self, node: Node) -> Option<&Replica>
        ensures there { is_some result ≡ answer_of self.now.kept node }
        ensures blocks { IfSome result (λ r. r.now.blocks ≡ self.now.blocks) }
    {
        match node {
            Node::Zero => self.zero.as_ref(),
            Node::One => self.one.as_ref(),
            Node::Two => self.two.as_ref(),
        }
    }
}
