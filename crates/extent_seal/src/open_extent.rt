//! Extents that take blocks.
ghost use Rattle.std.specs.Prelude.{◌≡◌, ◌<◌, OnOk, OnErr};
ghost use Rattle.extent_seal.specs.Extents.{least_room};

use crate::cutting::cut;
use crate::sealed::{ReadFault, Sealed, shared};
use crate::shares::BlockOwners;
use extent_node::{Node, Replica, Wire};
use stamp_values::Share;
use std::alloc::{AllocError, Global};
use std::marker::Model;

/// What became of a block that was appended.
#[derive(Clone, Copy)]
pub enum Appended {
    /// All three nodes took the block and said so, so the block is acknowledged.
    All,
    /// Some delivery was not Done.
    Short,
}

/// No node answered.
#[derive(Clone, Copy)]
pub struct NoReplica;

/// An extent that takes blocks: a replica on each of the three nodes (SOSP 2011, section 4.3.1).
///
/// Each replica is the acknowledged blocks, with or without the block that was tried last. The replicas share the bytes of the blocks.
#[derive(Drop)]
pub struct OpenExtent {
    zero: Replica,
    one: Replica,
    two: Replica,
    // How many blocks are acknowledged.
    acknowledged: usize,
    // The block of an append that was short, and the nodes that took it.
    tried: Option<Share>,
    took_zero: bool,
    took_one: bool,
    took_two: bool,
}

impl Model for OpenExtent {
    ghost use Rattle.std.specs.Prelude.{◌≡◌, ◌++◌, take, length};
    ghost use Rattle.extent_node.specs.Faults.{held};
    ghost use Rattle.extent_seal.specs.Extents.{Open, WithRoom, least_room};

    ghost Value = { WithRoom };

    ghost view = { λ e. record {
      extent = record {
        blocks = take e.acknowledged e.zero.blocks;
        tried = e.tried;
        took = record { zero = e.took_zero; one = e.took_one; two = e.took_two };
      };
      room = least_room e.zero e.one e.two;
    } };

    ghost invariant = { λ e.
        (e.zero.blocks ≡ take e.acknowledged e.zero.blocks ++ held e.took_zero e.tried)
        × ((e.one.blocks ≡ take e.acknowledged e.zero.blocks ++ held e.took_one e.tried)
        × ((e.two.blocks ≡ take e.acknowledged e.zero.blocks ++ held e.took_two e.tried)
        × (e.acknowledged ≡ length (take e.acknowledged e.zero.blocks)))) };
}

// Makes room for one more block in each replica. If it is refused, a replica without room has no room yet.
fn reserve(zero: &mut Replica, one: &mut Replica, two: &mut Replica) -> Result<(), AllocError>
    ensures zero { zero.new.blocks ≡ zero.old.blocks }
    ensures one { one.new.blocks ≡ one.old.blocks }
    ensures two { two.new.blocks ≡ two.old.blocks }
    ensures room { OnOk result (0 < least_room zero.new one.new two.new) }
    ensures refused { OnErr result (least_room zero.old one.old two.old ≡ 0) }
    ensures unchanged { OnErr result (least_room zero.new one.new two.new ≡ 0) }
{
    zero.reserve()?;
    one.reserve()?;
    two.reserve()?;
    Ok(())
}

impl OpenExtent {
    ghost use Rattle.std.specs.Prelude.{◌≡◌, ◌≢◌, ◌<◌, [], Some, None, Err, length, OnOk, OnErr, IfOk, IfErr};
    ghost use Rattle.std.specs.Option.{is_some};
    ghost use Rattle.std.specs.List.{slice_get};
    ghost use Rattle.extent_seal.specs.declared.sealed.ReadFault.TheVariants.{Unreachable};
    ghost use Rattle.extent_node.specs.Faults.{CountsNone};
    ghost use Rattle.extent_seal.specs.Extents.{all_three, answer_of, replica};
    ghost use Rattle.extent_seal.specs.Seals.{Seals, IsCommitted};
    ghost use Rattle.extent_seal.specs.Appends.{IsAppended};
    ghost use Rattle.extent_seal.specs.Heard.{AsksAreHeard};
    ghost use Rattle.extent_seal.specs.Repairs.{FirstAnswers};
    ghost use Rattle.extent_seal.specs.Counting.{AsksEach, CountsAppend, FailsEach, FailsUnless, Grows, PutsEach, SomeAnswers};

    /// An extent without blocks, and with room for none. Takes no memory.
    pub fn new(alloc: Global) -> Self
        ensures blocks { result.extent.blocks ≡ [] }
        ensures tried { result.extent.tried ≡ None }
        ensures room { result.room ≡ 0 }
    {
        Self {
            zero: Replica::new(alloc),
            one: Replica::new(alloc),
            two: Replica::new(alloc),
            acknowledged: 0,
            tried: None,
            took_zero: false,
            took_one: false,
            took_two: false,
        }
    }

    /// Makes room for one more block in each of the three replicas, if there is no room. The blocks stay as they are.
    ///
    /// `AllocError`: there was no room, and memory ran out. The extent is as it was.
    pub fn reserve(&mut self) -> Result<(), AllocError>
        ensures same { self.new.extent ≡ self.old.extent }
        ensures room { OnOk result (0 < self.new.room) }
        ensures refused { OnErr result (self.old.room ≡ 0) }
        ensures unchanged { OnErr result (self.new ≡ self.old) }
    {
        reserve(&mut self.zero, &mut self.one, &mut self.two)?;
        Ok(())
    }

    /// Puts the block to each of the three nodes, by `append_reserved`.
    ///
    /// Room in all three replicas and four owners of the block are taken before the first put. `AllocError`: no node was called, and
    /// the extent is as it was.
    pub fn append<W: Wire>(&mut self, block: &Share, wire: &mut W) -> Result<Appended, AllocError>
        requires { self.old.extent.tried ≡ None }
        ensures appended { IfOk result (λ a. IsAppended a self.old.extent block.now self.new.extent) }
        ensures called { IfOk result (λ a. PutsEach (W.calls wire.old) (W.calls wire.new)) }
        ensures counted { IfOk result (λ a. CountsAppend a self.new.extent.took (W.faults wire.old) (W.faults wire.new)) }
        ensures refused { OnErr result (self.new ≡ self.old) }
        ensures unheard { OnErr result (wire.new ≡ wire.old) }
    {
        let shares = BlockOwners::new(block)?;
        self.reserve()?;
        Ok(self.append_reserved(shares, wire))
    }

    /// Puts the block to each of the three nodes, with the room that was made. Takes no memory.
    ///
    /// The block is acknowledged if all three nodes take it and say so.
    pub fn append_reserved<W: Wire>(&mut self, block: BlockOwners, wire: &mut W) -> Appended
        requires clear { self.old.extent.tried ≡ None }
        requires room { 0 < self.old.room }
        ensures appended { IsAppended result self.old.extent block self.new.extent }
        ensures called { PutsEach (W.calls wire.old) (W.calls wire.new) }
        ensures counted { CountsAppend result self.new.extent.took (W.faults wire.old) (W.faults wire.new) }
    {
        let zero = self.zero.put(Node::Zero, block.zero, wire);
        let one = self.one.put(Node::One, block.one, wire);
        let two = self.two.put(Node::Two, block.two, wire);
        if zero.is_done() && one.is_done() && two.is_done() {
            self.acknowledged = self.zero.len();
            return Appended::All;
        }
        self.tried = Some(block.tried);
        self.took_zero = zero.is_taken();
        self.took_one = one.is_taken();
        self.took_two = two.is_taken();
        Appended::Short
    }

    /// Asks each node once, and keeps the replicas of the nodes that answer, cut to the smallest length among them. Takes no memory.
    ///
    /// `NoReplica`: no node answered, and the extent comes back as it was.
    pub fn seal<W: Wire>(self, wire: &mut W) -> Result<Sealed, (Self, NoReplica)>
        ensures sealed { IfOk result (λ s. Seals self.extent s) }
        ensures committed { IfOk result (λ s. IsCommitted self.extent s.blocks) }
        ensures called { AsksEach (W.calls wire.old) (W.calls wire.new) }
        ensures counted { IfOk result (λ s. FailsUnless s.kept (W.faults wire.old) (W.faults wire.new)) }
        ensures heard { IfOk result (λ s. AsksAreHeard (W.calls wire.old) (W.calls wire.new) (W.faults wire.old) (W.faults wire.new)) }
        ensures same { IfErr result (λ e. e.0 ≡ self) }
        ensures unanswered { IfErr result (λ e. FailsEach (W.faults wire.old) (W.faults wire.new)) }
    {
        let zero = wire.ask(Node::Zero);
        let one = wire.ask(Node::One);
        let two = wire.ask(Node::Two);
        if !zero && !one && !two {
            return Err((self, NoReplica));
        }
        let kept = cut(self.zero, self.one, self.two, (zero, one, two));
        Ok(Sealed {
            zero: kept.zero,
            one: kept.one,
            two: kept.two,
        })
    }

    /// How many blocks are acknowledged.
    pub fn len(&self) -> usize
        ensures { result ≡ length self.now.extent.blocks }
    {
        self.acknowledged
    }

    /// Whether an append was short.
    pub fn is_short(&self) -> bool
        ensures { result ≡ is_some self.now.extent.tried }
    {
        self.tried.is_some()
    }

    /// The acknowledged block at an index. No byte is copied.
    ///
    /// The nodes are asked in the order 0, 1, 2 until one of them answers yes. Unreachable: each was asked once and answered no.
    /// NoMemory: a node answered, and the block can have no further owner.
    pub fn read<W: Wire>(&self, index: usize, wire: &mut W) -> Result<Share, ReadFault>
        requires { index < length self.now.extent.blocks }
        ensures read { IfOk result (λ b. slice_get self.now.extent.blocks index ≡ Some b) }
        ensures called { result ≡ Err Unreachable → AsksEach (W.calls wire.old) (W.calls wire.new) }
        ensures unreachable { result ≡ Err Unreachable → FailsEach (W.faults wire.old) (W.faults wire.new) }
        ensures answered { result ≢ Err Unreachable → SomeAnswers all_three (W.calls wire.old) (W.calls wire.new) (W.faults wire.old) (W.faults wire.new) }
        ensures first { result ≢ Err Unreachable → FirstAnswers all_three (W.calls wire.old).asks (W.calls wire.new).asks (W.faults wire.old).asks (W.faults wire.new).asks }
        ensures heard { result ≢ Err Unreachable → AsksAreHeard (W.calls wire.old) (W.calls wire.new) (W.faults wire.old) (W.faults wire.new) }
        ensures unput { CountsNone (W.calls wire.old).puts (W.calls wire.new).puts }
        ensures grown { Grows (W.faults wire.old) (W.faults wire.new) }
    {
        if wire.ask(Node::Zero) {
            return shared(self.zero.block(index));
        }
        if wire.ask(Node::One) {
            return shared(self.one.block(index));
        }
        if wire.ask(Node::Two) {
            return shared(self.two.block(index));
        }
        Err(ReadFault::Unreachable)
    }

    /// Lends the replica of a node.
    pub fn replica(&self, node: Node) -> &Replica
        ensures { result.now.blocks ≡ replica self.now.extent (answer_of self.now.extent.took node) }
    {
        match node {
            Node::Zero => &self.zero,
            Node::One => &self.one,
            Node::Two => &self.two,
        }
    }
}
