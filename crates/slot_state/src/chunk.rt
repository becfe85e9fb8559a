//! Key pairs that are in one run of memory.
ghost use Rattle.std.specs.Prelude.{◌≡◌, ◌∷◌, ◌++◌, [], IfOk, OnOk, length, slice_get};
ghost use Rattle.std.specs.Arc.{arc_value};
ghost use Rattle.std.specs.Option.{option_copied, option_map};
ghost use Rattle.slot_state.specs.Pairs.{in_force};

use access_rules::Keys;
use std::alloc::{AllocError, Global};
use std::marker::Model;
use std::sync::Arc;

/// Some key pairs of one account in turn, seen as the list. Each pair is shared.
#[derive(Drop)]
pub(crate) struct Chunk {
    pairs: Vec<Arc<Keys>>,
}

impl Model for Chunk {
    ghost use Rattle.std.specs.Prelude.{List, map};
    ghost use Rattle.std.specs.Arc.{arc_value};
    ghost use Rattle.access_rules.specs.declared.keys.Keys.{Keys};

    ghost Value = { List Keys };

    ghost view = { λ c. map arc_value c.pairs.items };
}

impl Chunk {
    /// No pairs. Takes no memory.
    pub(crate) fn new(alloc: Global) -> Self
        ensures { result ≡ [] }
    {
        Self {
            pairs: Vec::new(alloc),
        }
    }

    /// One pair.
    ///
    /// `AllocError` if memory runs out.
    pub(crate) fn of(alloc: Global, pair: Arc<Keys>) -> Result<Self, AllocError>
        ensures { IfOk result (λ chunk. chunk ≡ arc_value pair ∷ []) }
    {
        let mut pairs = Vec::new(alloc);
        pairs.push(pair)?;
        Ok(Self { pairs })
    }

    /// The same pairs, which both chunks share.
    ///
    /// `AllocError` if memory runs out, or if a pair can have no further owner.
    #[tactic(auto, using(crate::proofs::PairLemmas::copy_read))]
    pub(crate) fn copied(&self) -> Result<Self, AllocError>
        ensures { IfOk result (λ copy. copy ≡ self.now) }
    {
        Ok(Self {
            pairs: self.pairs.clone()?,
        })
    }

    /// One more pair, which comes last.
    ///
    /// `AllocError` if memory runs out. The pairs are then as they were.
    #[tactic(auto, using(crate::proofs::PairLemmas::one_more_read))]
    pub(crate) fn push(&mut self, pair: Arc<Keys>) -> Result<(), AllocError>
        ensures { OnOk result (self.new ≡ self.old ++ arc_value pair ∷ []) }
    {
        self.pairs.push(pair)?;
        Ok(())
    }

    /// How many pairs there are.
    #[tactic(auto, using(crate::proofs::PairLemmas::len_read))]
    pub(crate) fn len(&self) -> usize
        ensures { result ≡ length self.now }
    {
        self.pairs.len()
    }

    /// The pair at this place; none if there are not so many pairs.
    #[tactic(auto, using(crate::proofs::PairLemmas::place_read))]
    pub(crate) fn get(&self, at: usize) -> Option<&Arc<Keys>>
        ensures { option_map arc_value (option_copied result) ≡ slice_get self.now at }
    {
        self.pairs.get(at)
    }

    /// The last pair.
    #[tactic(auto, using(crate::proofs::PairLemmas::in_force_read))]
    pub(crate) fn last(&self) -> Option<&Arc<Keys>>
        ensures { option_map arc_value (option_copied result) ≡ in_force self.now }
    {
        self.pairs.last()
    }
}
