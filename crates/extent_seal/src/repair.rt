//! The repair of a sealed extent: a node that has no copy gets the whole extent.
ghost use Rattle.std.specs.Prelude.{◌≡◌};

use crate::copying::{answers, copy_if, copy_of, put_all};
use crate::sealed::{ReadFault, Sealed};
use extent_node::{Node, Replica, Wire};
use std::alloc::{AllocError, Global};

impl Sealed {
    ghost use Rattle.std.specs.Prelude.{◌≡◌, ◌<◌, true, false, Err, IfOk, OnOk, OnErr, length};
    ghost use Rattle.extent_node.specs.Faults.{CountsFault, CountsNone};
    ghost use Rattle.extent_seal.specs.Counting.{AsksCopies, FailsCopies, Grows, GrowsEach, all_faults, all_nodes};
    ghost use Rattle.extent_seal.specs.Extents.{answer_of};
    ghost use Rattle.extent_seal.specs.Repairs.{Copies, FailsToCopy, FirstAnswers, with_copy};
    ghost use Rattle.extent_seal.specs.declared.sealed.ReadFault.TheVariants.{NoMemory, Unreachable};

    // Whether a node with a copy answers. These nodes are asked in the order 0, 1, 2 until one of them answers yes.
    fn is_reached<W: Wire>(&self, wire: &mut W) -> bool
        ensures reached { (result ≡ true) → FirstAnswers self.now.kept (W.calls wire.old).asks (W.calls wire.new).asks (W.faults wire.old).asks (W.faults wire.new).asks }
        ensures called { (result ≡ false) → AsksCopies self.now.kept (W.calls wire.old) (W.calls wire.new) }
        ensures counted { (result ≡ false) → FailsCopies self.now.kept (W.faults wire.old) (W.faults wire.new) }
        ensures faulty { (result ≡ false) → all_nodes (W.faults wire.old).asks < all_nodes (W.faults wire.new).asks }
        ensures unput { CountsNone (W.calls wire.old).puts (W.calls wire.new).puts }
        ensures unfailed { CountsNone (W.faults wire.old).puts (W.faults wire.new).puts }
        ensures grown { GrowsEach (W.faults wire.old).asks (W.faults wire.new).asks }
    {
        if answers(&self.zero, Node::Zero, wire) {
            return true;
        }
        if answers(&self.one, Node::One, wire) {
            return true;
        }
        answers(&self.two, Node::Two, wire)
    }

    // A replica of the extent. No node is called.
    fn copied(&self, alloc: Global) -> Result<Replica, AllocError>
        ensures { IfOk result (λ r. r.blocks ≡ self.now.blocks) }
    {
        match (&self.zero, &self.one, &self.two) {
            (Some(replica), _, _) | (None, Some(replica), _) | (None, None, Some(replica)) => {
                copy_of(replica, alloc)
            }
            (None, None, None) => Ok(Replica::new(alloc)),
        }
    }

    // Keeps the replica as that of the node.
    fn keep(&mut self, node: Node, replica: Replica)
        requires { replica.blocks ≡ self.old.blocks }
        ensures { self.new ≡ with_copy node self.old }
    {
        match node {
            Node::Zero => self.zero = Some(replica),
            Node::One => self.one = Some(replica),
            Node::Two => self.two = Some(replica),
        }
    }

    // Asks the nodes that have a copy until one answers, and then puts each block to the node. Whether all of this went well.
    fn is_put<W: Wire>(&self, node: Node, wire: &mut W) -> bool
        ensures copied { (result ≡ true) → Copies node self.now (W.calls wire.old) (W.calls wire.new) (W.faults wire.old) (W.faults wire.new) }
        ensures failed { (result ≡ false) → FailsToCopy node self.now (W.calls wire.old) (W.calls wire.new) (W.faults wire.old) (W.faults wire.new) }
        ensures faulty { (result ≡ false) → all_faults (W.faults wire.old) < all_faults (W.faults wire.new) }
        ensures grown { Grows (W.faults wire.old) (W.faults wire.new) }
    {
        if !self.is_reached(wire) {
            return false;
        }
        put_all(node, self.commit_len(), wire)
    }

    /// Gives the node a copy of the whole extent, if it has no copy. No byte is copied.
    ///
    /// The nodes that have a copy are asked in the order 0, 1, 2 until one of them answers yes. Then each block is put to the node once.
    /// An extent without blocks is repaired by the asks. If the node has a copy, no node is called.
    ///
    /// After a fault the extent is as it was. Unreachable: each node with a copy was asked once and answered no, or a put was not Done,
    /// and no block was put after it. NoMemory: memory ran out before a node was called.
    pub fn repair<W: Wire>(
        &mut self,
        node: Node,
        alloc: Global,
        wire: &mut W,
    ) -> Result<(), ReadFault>
        ensures repaired { OnOk result (self.new ≡ with_copy node self.old) }
        ensures same { OnErr result (self.new ≡ self.old) }
        ensures lacking { OnErr result (answer_of self.old.kept node ≡ false) }
        ensures unused { answer_of self.old.kept node ≡ true → wire.new ≡ wire.old }
        ensures copied { OnOk result (answer_of self.old.kept node ≡ false → Copies node self.old (W.calls wire.old) (W.calls wire.new) (W.faults wire.old) (W.faults wire.new)) }
        ensures unreachable { result ≡ Err Unreachable → FailsToCopy node self.old (W.calls wire.old) (W.calls wire.new) (W.faults wire.old) (W.faults wire.new) }
        ensures faulty { result ≡ Err Unreachable → all_faults (W.faults wire.old) < all_faults (W.faults wire.new) }
        ensures unheard { result ≡ Err NoMemory → wire.new ≡ wire.old }
        ensures grown { Grows (W.faults wire.old) (W.faults wire.new) }
    {
        if self.replica(node).is_some() {
            return Ok(());
        }
        let replica = self.copied(alloc)?;
        if !self.is_put(node, wire) {
            return Err(ReadFault::Unreachable);
        }
        self.keep(node, replica);
        Ok(())
    }

    /// The same extent once more: the lists of blocks are copied, and no byte of a block. No node is called.
    ///
    /// `AllocError`: memory ran out, or a block can have no further owner.
    pub fn copy(&self, alloc: Global) -> Result<Self, AllocError>
        ensures { IfOk result (λ s. s ≡ self.now) }
    {
        let zero = copy_if(&self.zero, alloc)?;
        let one = copy_if(&self.one, alloc)?;
        let two = copy_if(&self.two, alloc)?;
        Ok(Self { zero, one, two })
    }
}
