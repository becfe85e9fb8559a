//! Lists of values that any number of owners share.
ghost use Rattle.std.specs.Prelude.{◌≡◌, [], IfOk};
ghost use Rattle.std.specs.Cmp.Lexicographic.{pointwise, lists_per, lists_equiv};
ghost use Rattle.stamp_values.specs.Shares.{shared_items};

use crate::items::Items;
use crate::shared::Shared;
use std::alloc::{AllocError, Global};
use std::marker::Model;

/// A list of values that any number of owners share, seen as the list.
///
/// A copy is one more owner and takes no memory.
#[derive(Drop)]
pub(crate) struct SharedItems<T> {
    // `None` means the empty list, so no items take no memory.
    items: Option<Shared<Items<T>>>,
}

impl<T> Model for SharedItems<T> {
    ghost use Rattle.std.specs.Prelude.{List};
    ghost use Rattle.stamp_values.specs.Shares.{shared_items};

    ghost Value = { List T };

    ghost view = { λ s. shared_items s.items };
}

impl<T> SharedItems<T> {
    /// No items. Takes no memory.
    pub(crate) fn empty() -> Self
        ensures { result ≡ [] }
    {
        Self { items: None }
    }

    /// The items in their order.
    pub(crate) fn as_slice(&self) -> &[T]
        ensures { result.now ≡ self.now }
    {
        match &self.items {
            None => &[],
            Some(items) => items.get().as_slice(),
        }
    }
}

impl<T: Drop> SharedItems<T> {
    /// These items. They are moved. No items take no memory.
    ///
    /// `AllocError` if memory runs out. Then the items are dropped.
    pub(crate) fn new(alloc: Global, items: Items<T>) -> Result<Self, AllocError>
        ensures { IfOk result (λ s. s ≡ items) }
    {
        if items.as_slice().is_empty() {
            return Ok(Self::empty());
        }
        let items = Shared::new(alloc, items)?;
        Ok(Self { items: Some(items) })
    }
}

impl<T: Drop> Clone for SharedItems<T> {
    ghost is_clone = { λ x y. y ≡ x };

    fn clone(&self) -> Result<Self, AllocError> {
        match &self.items {
            None => Ok(Self { items: None }),
            Some(items) => Ok(Self {
                items: Some(items.share()?),
            }),
        }
    }
}

impl<T: PartialEq> PartialEq for SharedItems<T> {
    ghost eq = { pointwise T.eq };

    ghost laws = { lists_per T.laws };

    fn eq(&self, other: &Self) -> bool {
        self.as_slice() == other.as_slice()
    }
}

impl<T: Eq> Eq for SharedItems<T> {
    ghost laws = { lists_equiv T.Eq.laws };
}
