//! The extents that follow when the last one is sealed.
ghost use Rattle.std.specs.Prelude.{◌≡◌, ◌<◌, [], None, OnOk};

use extent_seal::OpenExtent;
use std::alloc::{AllocError, Global};
use std::marker::Model;
use std::mem;

/// Two extents without blocks, for which room can be made before they are needed.
#[derive(Drop)]
pub(crate) struct Spares {
    next: OpenExtent,
    after: OpenExtent,
}

impl Model for Spares {
    ghost use Rattle.std.specs.Prelude.{◌≡◌, [], None};
    ghost use Rattle.stream_manager.specs.Spares.{Rooms};

    ghost Value = { Rooms };

    ghost view = { λ s. record { next = s.next.room; after = s.after.room } };

    ghost invariant = { λ s.
        ((s.next.extent.blocks ≡ []) × (s.next.extent.tried ≡ None))
        × ((s.after.extent.blocks ≡ []) × (s.after.extent.tried ≡ None)) };
}

impl Spares {
    /// Two extents without room. Takes no memory.
    pub fn new(alloc: Global) -> Self
        ensures next { result.next ≡ 0 }
        ensures after { result.after ≡ 0 }
    {
        Self {
            next: OpenExtent::new(alloc),
            after: OpenExtent::new(alloc),
        }
    }

    /// Makes room for one block in each of them. If memory runs out, they keep the room that they have.
    pub fn reserve(&mut self) -> Result<(), AllocError>
        ensures next { OnOk result (0 < self.new.next) }
        ensures after { OnOk result (0 < self.new.after) }
    {
        self.next.reserve()?;
        self.after.reserve()?;
        Ok(())
    }

    /// The next extent, with its room. The extent after it is then the next one. Takes no memory.
    pub fn take(&mut self, alloc: Global) -> OpenExtent
        ensures blocks { result.extent.blocks ≡ [] }
        ensures tried { result.extent.tried ≡ None }
        ensures room { result.room ≡ self.old.next }
        ensures next { self.new.next ≡ self.old.after }
    {
        let after = mem::replace(&mut self.after, OpenExtent::new(alloc));
        mem::replace(&mut self.next, after)
    }
}
