//! The accepted changes of one container.
ghost use Rattle.std.specs.Prelude.{◌≡◌, ◌++◌, ◌∷◌, [], ◌≢◌, OnErr, OnOk};

use stamp_types::Past;
use std::alloc::{AllocError, Global};
use std::marker::Model;

/// The accepted changes of one container in their order, seen as the list.
#[derive(Drop)]
pub struct History {
    entries: Vec<Past>,
}

impl Model for History {
    ghost use Rattle.std.specs.Prelude.{List};
    ghost use Rattle.stamp_types.specs.declared.past.Past.{Past};

    ghost Value = { List Past };

    ghost view = { λ h. h.entries.items };
}

impl History {
    /// No entries. Takes no memory.
    pub(crate) fn new(alloc: Global) -> Self
        ensures { result ≡ [] }
    {
        Self {
            entries: Vec::new(alloc),
        }
    }

    /// The entries, the oldest first.
    pub fn as_slice(&self) -> &[Past]
        ensures { result.now ≡ self.now }
    {
        &self.entries
    }

    /// One more entry.
    ///
    /// `AllocError` if memory runs out. The entries are then as they were.
    pub(crate) fn push(&mut self, entry: Past) -> Result<(), AllocError>
        ensures added { OnOk result (self.new ≡ self.old ++ entry ∷ []) }
        ensures refused { OnErr result (self.new ≡ self.old) }
    {
        self.entries.push(entry)?;
        Ok(())
    }

    /// Takes the last entry back. Takes no memory.
    pub(crate) fn take_back(&mut self) -> Past
        requires { self.old ≢ [] }
        ensures { self.old ≡ self.new ++ result ∷ [] }
    {
        match self.entries.pop() {
            Some(entry) => entry,
            None => unreachable!("the history has an entry"),
        }
    }
}

impl Clone for History {
    ghost is_clone = { λ x y. y ≡ x };

    /// A list of its own, whose entries are further owners of their requests.
    fn clone(&self) -> Result<Self, AllocError> {
        Ok(Self {
            entries: self.entries.clone()?,
        })
    }
}
