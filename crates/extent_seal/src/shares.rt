//! The shares of a block that an append needs.
ghost use Rattle.std.specs.Prelude.{◌≡◌, IfOk};

use stamp_values::Share;
use std::alloc::AllocError;
use std::marker::Model;

/// A block with all its owners that an append needs: one for each of the three replicas, and one to remember the block by.
///
/// It is seen as the block. No byte is copied.
#[derive(Drop)]
pub struct BlockOwners {
    pub(crate) zero: Share,
    pub(crate) one: Share,
    pub(crate) two: Share,
    pub(crate) tried: Share,
}

impl Model for BlockOwners {
    ghost use Rattle.std.specs.Prelude.{◌≡◌};
    ghost use Rattle.extent_node.specs.Copies.{Block};

    ghost Value = { Block };

    ghost view = { λ s. s.tried };

    ghost invariant = { λ s. (s.zero ≡ s.tried) × ((s.one ≡ s.tried) × (s.two ≡ s.tried)) };
}

impl BlockOwners {
    ghost use Rattle.std.specs.Prelude.{◌≡◌, length, IfOk};

    /// Four more owners of the bytes of the block.
    ///
    /// `AllocError` if the block cannot have four more owners.
    pub fn new(block: &Share) -> Result<Self, AllocError>
        ensures { IfOk result (λ s. s ≡ block.now) }
    {
        let zero = block.share()?;
        let one = block.share()?;
        let two = block.share()?;
        let tried = block.share()?;
        Ok(Self {
            zero,
            one,
            two,
            tried,
        })
    }

    /// How many bytes the block has.
    pub fn len(&self) -> usize
        ensures { result ≡ length self.now }
    {
        self.tried.len()
    }
}
