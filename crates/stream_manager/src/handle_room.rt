//! Room for handles of extents that are given up.

use crate::handle::Handle;
use std::alloc::{AllocError, Global};
use std::marker::Model;

/// Handles of extents that were given up, and room for more. Contracts see the extents, and for how many more there is room.
///
/// The blocks of an extent stay in memory as long as there is a handle of it, so a caller may drop them once it holds no lock.
#[derive(Drop)]
pub struct HandleRoom {
    handles: Vec<Handle>,
}

impl Model for HandleRoom {
    ghost use Rattle.std.specs.Prelude.{◌-◌};
    ghost use Rattle.std.specs.Vec.{vec_len, vec_capacity};
    ghost use Rattle.stream_manager.specs.SealedExtents.{SealedList};

    ghost Value = { SealedList };

    ghost view = { λ r. record { extents = r.handles.items; room = vec_capacity r.handles - vec_len r.handles } };
}

impl HandleRoom {
    ghost use Rattle.std.specs.Prelude.{◌≡◌, ◌<◌, ◌+◌, ◌++◌, ◌∷◌, [], true, IfOk, length};
    ghost use Rattle.stream_manager.specs.GivenUp.{has_blocks, with_blocks};

    /// No handle, and room for so many.
    ///
    /// `AllocError` if memory runs out.
    pub fn new(alloc: Global, count: usize) -> Result<Self, AllocError>
        ensures empty { IfOk result (λ r. r.extents ≡ []) }
        ensures room { IfOk result (λ r. r.room ≡ count) }
    {
        Ok(Self {
            handles: Vec::with_capacity(alloc, count)?,
        })
    }

    /// How many handles there are.
    pub fn len(&self) -> usize
        ensures { result ≡ length self.now.extents }
    {
        self.handles.len()
    }

    /// Adds a handle whose extent has a block, and drops one without a block. Takes no memory.
    pub(crate) fn keep(&mut self, handle: Handle)
        requires { has_blocks handle ≡ true → 0 < self.old.room }
        ensures extents { self.new.extents ≡ self.old.extents ++ with_blocks (handle ∷ []) }
        ensures room { self.new.room + length (with_blocks (handle ∷ [])) ≡ self.old.room }
    {
        if handle.extent().commit_len() > 0 {
            self.handles.push_reserved(handle);
        }
    }
}
