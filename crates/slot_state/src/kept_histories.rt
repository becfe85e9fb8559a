//! Histories that are kept as lists.
ghost use Rattle.slot_state.specs.HistoryMaps.{NoneIsEmpty};

use crate::copied::copied;
use crate::histories::Histories;
use crate::history::History;
use crate::kept;
use stamp_types::{Key, Past};
use stamp_values::Keyed;
use std::alloc::{AllocError, Global};

/// Histories that are kept as lists. An entry is one more owner of its request.
#[derive(Drop)]
pub struct KeptHistories {
    lists: Keyed<History>,
    ghost no_empty_list: { NoneIsEmpty lists },
}

impl Histories for KeptHistories {
    ghost held = { λ s. s.lists };

    ghost none_is_empty = { λ s. s.no_empty_list };

    #[tactic(auto, using(crate::specs::Told::empty_none))]
    fn none(alloc: Global) -> Self {
        Self {
            lists: Keyed::new(alloc),
        }
    }

    #[tactic(auto, using(crate::specs::Told::entered_none))]
    fn push(&mut self, alloc: Global, entry: &Past) -> Result<(), AllocError> {
        kept::push(&mut self.lists, alloc, entry)
    }

    #[tactic(auto, using(crate::specs::Told::shortened_none))]
    fn take_back(&mut self, key: &Key) {
        kept::take_back(&mut self.lists, key)
    }

    #[tactic(auto, using(crate::specs::Told::retained_none))]
    fn halves(&self, alloc: Global, middle: &Key) -> Result<(Self, Self), AllocError> {
        let mut below = copied(alloc, &self.lists)?;
        let from = below.split_off(middle)?;
        Ok((Self { lists: below }, Self { lists: from }))
    }
}

impl KeptHistories {
    ghost use Rattle.std.specs.Prelude.{◌≡◌};
    ghost use Rattle.std.specs.FinMap as finite;
    ghost use Rattle.std.specs.Option.{option_copied};

    /// The accepted changes of a container, if it has any.
    pub fn history(&self, key: &Key) -> Option<&History>
        ensures { option_copied result ≡ finite.get (⟦<KeptHistories as Histories>⟧.held self.now) key.now }
    {
        self.lists.get(key)
    }
}
