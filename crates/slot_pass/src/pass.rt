//! What a caller was shown of a container.
ghost use Rattle.std.specs.Prelude.{◌≡◌};
ghost use Rattle.slot_pass.specs.Passes.{IsShown};

use crate::front::Front;
use slot_state::PairList;
use stamp_types::{Key, Past};
use std::alloc::Global;
use std::marker::Model;

/// A container, the accepted changes of it that a caller was shown, and the key pairs of its account that the caller was shown.
///
/// The changes are its front. They are legal by these pairs, and no change is of a later epoch than the last pair, always. Only
/// [`serve_after`](crate::serve_after) gives a pass another front or other pairs.
#[derive(Drop)]
pub struct Pass {
    pub(crate) key: Key,
    pub(crate) front: Front,
    pub(crate) pairs: PairList,
}

impl Model for Pass {
    ghost use Rattle.slot_pass.specs.Passes.{IsShown, PassState};

    ghost Value = { PassState };

    ghost view = { λ p. record { key = p.key; front = p.front; pairs = p.pairs } };

    ghost invariant = { λ p. IsShown p.pairs p.key p.front };
}

impl Pass {
    ghost use Rattle.slot_pass.specs.Passes.{new_pass};

    /// A pass of a container whose caller was shown nothing yet. Takes no memory.
    #[tactic(auto, using(crate::proofs::ShownLemmas::shown_nothing))]
    pub fn new(alloc: Global, key: Key) -> Self
        ensures { result ≡ new_pass key }
    {
        Self {
            key,
            front: Front::new(alloc),
            pairs: PairList::new(alloc),
        }
    }

    /// The key of the container.
    pub fn key(&self) -> &Key
        ensures { result.now ≡ self.now.key }
    {
        &self.key
    }

    /// The accepted changes of the container that the caller was shown, the oldest first.
    pub fn front(&self) -> &[Past]
        ensures { result.now ≡ self.now.front }
    {
        self.front.as_slice()
    }

    /// The key pairs of the container's account that the caller was shown, the oldest pair first.
    pub fn pairs(&self) -> &PairList
        ensures { result.now ≡ self.now.pairs }
    {
        &self.pairs
    }

    /// The front is legal by the pairs of the pass, and no entry is of a later epoch than the last pair. Does nothing.
    pub fn shown(&self)
        ensures { IsShown self.now.pairs self.now.key self.now.front }
    {
        let _front = &self.front;
    }
}
