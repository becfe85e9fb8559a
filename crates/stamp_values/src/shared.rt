//! Values in memory that any number of owners share.
ghost use Rattle.std.specs.Prelude.{◌≡◌, IfOk, IfErr};

use std::alloc::{AllocError, AllocFailed, Global};
use std::marker::Model;
use std::sync::Arc;

/// A value in memory that any number of owners share, seen as the value.
///
/// A copy is one more owner and takes no memory. The value is kept as long as one of its owners is kept.
#[derive(Drop)]
pub struct Shared<T> {
    value: Arc<T>,
}

impl<T> Model for Shared<T> {
    ghost use Rattle.std.specs.Arc.{arc_value};

    ghost Value = { T };

    ghost view = { λ s. arc_value s.value };
}

impl<T> Shared<T> {
    /// This value. It is moved.
    ///
    /// If memory runs out, the value comes back as it was.
    pub fn new(alloc: Global, value: T) -> Result<Self, AllocFailed<T>>
        ensures whole { IfOk result (λ s. s ≡ value) }
        ensures refused { IfErr result (λ e. e.value ≡ value) }
    {
        Ok(Self {
            value: Arc::new(alloc, value)?,
        })
    }

    /// Lends the value.
    pub fn get(&self) -> &T
        ensures { result.now ≡ self.now }
    {
        &self.value
    }

    /// The same value, with one more owner.
    ///
    /// `AllocError` if the value cannot have another owner.
    pub fn share(&self) -> Result<Self, AllocError>
        ensures { IfOk result (λ s. s ≡ self.now) }
    {
        Ok(Self {
            value: Arc::try_clone(&self.value)?,
        })
    }
}

impl<T: Drop> Clone for Shared<T> {
    ghost is_clone = { λ x y. y ≡ x };

    fn clone(&self) -> Result<Self, AllocError> {
        self.share()
    }
}

impl<T: PartialEq> PartialEq for Shared<T> {
    ghost eq = { T.eq };

    ghost laws = { T.laws };

    fn eq(&self, other: &Self) -> bool {
        self.get() == other.get()
    }
}

impl<T: Eq> Eq for Shared<T> {
    ghost laws = { T.Eq.laws };
}
