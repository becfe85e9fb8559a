//! The accepted changes of a container that a caller was shown.
ghost use Rattle.std.specs.Prelude.{◌≡◌, ◌<◌, ◌++◌, ◌∷◌, [], IfOk, OnErr, OnOk, length, take};
ghost use Rattle.std.specs.List.{remove};
ghost use mathlib.Core.List.{IsPrefix};

use stamp_types::Past;
use std::alloc::{AllocError, Global};
use std::marker::Model;

/// Accepted changes of one container, the oldest first, seen as the list.
#[derive(Drop)]
pub struct Front {
    entries: Vec<Past>,
}

impl Model for Front {
    ghost use Rattle.std.specs.Prelude.{List};
    ghost use Rattle.stamp_types.specs.declared.past.Past.{Past};

    ghost Value = { List Past };

    ghost view = { λ f. f.entries.items };
}

// The entries once more. Each is one more owner of its request, of which no byte is copied.
fn copy_of(alloc: Global, entries: &[Past]) -> Result<Vec<Past>, AllocError>
    ensures { IfOk result (λ copy. copy.items ≡ entries.now) }
{
    entries.to_vec(alloc)
}

impl Front {
    /// No entries. Takes no memory.
    pub(crate) fn new(alloc: Global) -> Self
        ensures { result ≡ [] }
    {
        Self {
            entries: Vec::new(alloc),
        }
    }

    /// The entries, the oldest first.
    pub(crate) fn as_slice(&self) -> &[Past]
        ensures { result.now ≡ self.now }
    {
        &self.entries
    }

    /// How many entries there are.
    pub(crate) fn len(&self) -> usize
        ensures { result ≡ length self.now }
    {
        self.entries.len()
    }

    /// One more entry.
    ///
    /// `AllocError` if memory runs out. The entries are then as they were.
    pub(crate) fn push(&mut self, entry: Past) -> Result<(), AllocError>
        ensures added { OnOk result (self.new ≡ self.old ++ entry ∷ []) }
        ensures refused { OnErr result (self.new ≡ self.old) }
    {
        self.entries.push(entry)?;
        Ok(())
    }

    /// Appends what the history has after these entries.
    ///
    /// `AllocError` if memory runs out. The entries are then as they were.
    #[tactic(auto, using(crate::proofs::ListLemmas::caught_up))]
    pub(crate) fn catch_up(&mut self, alloc: Global, history: &[Past]) -> Result<(), AllocError>
        requires { IsPrefix self.old history.now }
        ensures whole { OnOk result (self.new ≡ history.now) }
        ensures refused { OnErr result (self.new ≡ self.old) }
    {
        let mut tail = copy_of(alloc, &history[self.entries.len()..])?;
        self.entries.append(&mut tail)
    }

    /// Takes the entry at this place out. Takes no memory.
    pub(crate) fn remove(&mut self, place: usize)
        requires { place < length self.old }
        ensures { self.new ≡ remove self.old place }
    {
        drop(self.entries.remove(place));
    }

    /// Keeps so many entries at most, the oldest ones. Takes no memory.
    pub(crate) fn cut(&mut self, len: usize)
        ensures { self.new ≡ take len self.old }
    {
        self.entries.truncate(len);
    }
}
