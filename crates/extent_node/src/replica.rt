//! What one node has of an extent.
ghost use Rattle.std.specs.Prelude.{◌≡◌, ◌++◌, ◌∷◌, ◌<◌, [], Some, length, take, OnOk, OnErr};
ghost use Rattle.std.specs.List.{slice_get};

use crate::wire::{Delivery, Node, Wire};
use stamp_values::Share;
use std::alloc::{AllocError, Global};
use std::marker::Model;

/// What one node has of an extent: blocks in their order (SOSP 2011, section 4.1).
///
/// A block is shared with whoever else has it, also with the other replicas of this process. No byte is copied.
#[derive(Drop)]
pub struct Replica {
    blocks: Vec<Share>,
}

impl Model for Replica {
    ghost use Rattle.std.specs.Prelude.{◌-◌};
    ghost use Rattle.std.specs.Vec.{vec_len, vec_capacity};
    ghost use Rattle.extent_node.specs.Copies.{Copy};

    ghost Value = { Copy };

    ghost view = { λ r. record { blocks = r.blocks.items; room = vec_capacity r.blocks - vec_len r.blocks } };
}

impl Replica {
    ghost use Rattle.extent_node.specs.Faults.{CountsPut, CountsPutFault, is_done, is_taken, held};

    /// No blocks, and room for none. Takes no memory.
    pub fn new(alloc: Global) -> Self
        ensures blocks { result.blocks ≡ [] }
        ensures room { result.room ≡ 0 }
    {
        Self {
            blocks: Vec::new(alloc),
        }
    }

    /// Makes room for one more block, if there is no room. The blocks stay as they are.
    ///
    /// `AllocError`: there was no room, and memory ran out. The replica is as it was.
    pub fn reserve(&mut self) -> Result<(), AllocError>
        ensures same { self.new.blocks ≡ self.old.blocks }
        ensures room { OnOk result (0 < self.new.room) }
        ensures refused { OnErr result (self.old.room ≡ 0) }
        ensures unchanged { OnErr result (self.new ≡ self.old) }
    {
        self.blocks.reserve(1)?;
        Ok(())
    }

    /// Takes one more block, which there is room for.
    pub fn append_reserved(&mut self, block: Share)
        requires { 0 < self.old.room }
        ensures { self.new.blocks ≡ self.old.blocks ++ block ∷ [] }
    {
        self.blocks.push_reserved(block);
    }

    /// Puts the block to the node that this is the replica of. Room was made for it before, so the call takes no memory.
    ///
    /// The node has the block afterwards if and only if the delivery is Done or Lost. No node is asked.
    pub fn put<W: Wire>(&mut self, node: Node, block: Share, wire: &mut W) -> Delivery
        requires { 0 < self.old.room }
        ensures taken { self.new.blocks ≡ self.old.blocks ++ held (is_taken result) (Some block) }
        ensures called { CountsPut node (W.calls wire.old) (W.calls wire.new) }
        ensures counted { CountsPutFault node (is_done result) (W.faults wire.old) (W.faults wire.new) }
    {
        let delivery = wire.put(node);
        match delivery {
            Delivery::Done | Delivery::Lost => self.append_reserved(block),
            Delivery::Refused => {}
        }
        delivery
    }

    /// How many blocks there are.
    pub fn len(&self) -> usize
        ensures { result ≡ length self.now.blocks }
    {
        self.blocks.len()
    }

    /// Keeps the first `len` blocks. Takes no memory.
    pub fn cut(&mut self, len: usize)
        ensures { self.new.blocks ≡ take len self.old.blocks }
    {
        self.blocks.truncate(len);
    }

    /// Lends the block at a place.
    pub fn block(&self, index: usize) -> &Share
        requires { index < length self.now.blocks }
        ensures { slice_get self.now.blocks index ≡ Some result.now }
    {
        &self.blocks[index]
    }
}
