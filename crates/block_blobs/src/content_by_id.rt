//! Content by the ids of blocks.
ghost use Rattle.std.specs.Prelude.{◌≡◌, IsSome, OnOk, OnErr, MatchOption, length};
ghost use Rattle.std.specs.Option.{option_copied};
ghost use Rattle.std.specs.FinMap as finite;

use stamp_types::{BlockId, Pieces};
use std::alloc::{AllocError, Global};
use std::collections::BTreeMap;
use std::collections::btree_map::{IntoIter, Iter};
use std::marker::Model;

/// Content by ids in a tree, seen as the map from the ids to the content. A call takes time with the
/// logarithm of the number of ids.
#[derive(Drop)]
pub(crate) struct ContentById {
    tree: BTreeMap<BlockId, Pieces>,
}

impl Model for ContentById {
    ghost use Rattle.std.specs.Prelude.{List};
    ghost use Rattle.std.specs.FinMap.{FinMap};
    ghost use Rattle.stamp_values.specs.Order.{name_cmp};
    ghost use Rattle.stamp_types.specs.declared.piece.Piece.{Piece};
    ghost use Rattle.stamp_types.specs.ContentCodes.{blocks_code};
    ghost use Rattle.block_blobs.specs.IdTrees.{id_map};

    ghost Value = { FinMap name_cmp (List Piece) };

    ghost coded = { blocks_code };

    ghost view = { λ c. id_map c.tree };
}

impl ContentById {
    /// No ids. Takes no memory.
    pub(crate) fn new(alloc: Global) -> Self
        ensures { result ≡ finite.empty }
    {
        Self {
            tree: BTreeMap::new(alloc),
        }
    }

    /// How many ids have content.
    #[tactic(auto, using(crate::proofs::IdTreeLemmas::counted))]
    pub(crate) fn len(&self) -> usize
        ensures { result ≡ length (finite.entries self.now) }
    {
        self.tree.len()
    }

    /// The content of an id, if the id has content.
    #[tactic(auto, using(crate::proofs::IdTreeLemmas::found))]
    pub(crate) fn get(&self, id: &BlockId) -> Option<&Pieces>
        ensures { option_copied result ≡ finite.get self.now id.now }
    {
        self.tree.get(id)
    }

    /// The ids with their content, in the order of the ids.
    #[tactic(auto, using(crate::proofs::IdTreeLemmas::listed))]
    pub(crate) fn iter(&self) -> Iter<'_, BlockId, Pieces>
        ensures { result ≡ finite.entries self.now }
    {
        self.tree.iter()
    }

    /// The ids with their content, in the order of the ids. Both move.
    #[tactic(auto, using(crate::proofs::IdTreeLemmas::listed))]
    pub(crate) fn into_iter(self) -> IntoIter<BlockId, Pieces>
        ensures { result ≡ finite.entries self }
    {
        self.tree.into_iter()
    }

    /// Replaces the content of an id. If the id has no content, the new content is given back.
    #[tactic(auto, using(crate::proofs::IdTreeLemmas::written, crate::proofs::IdTreeLemmas::found))]
    pub(crate) fn replace(&mut self, id: &BlockId, content: Pieces) -> Option<Pieces>
        ensures { MatchOption result
            ((self.new ≡ finite.insert self.old id.now content)
            × IsSome (finite.get self.old id.now))
            (λ back. (back ≡ content) × (self.new ≡ self.old)) }
    {
        let Some(kept) = self.tree.get_mut(id) else {
            return Some(content);
        };
        *kept = content;
        None
    }

    /// Puts content under an id, in the place of the content that the id had.
    ///
    /// `AllocError` if memory runs out for one more id. The ids and their content are then as they
    /// were.
    #[tactic(auto, using(crate::proofs::IdTreeLemmas::inserted))]
    pub(crate) fn insert(&mut self, id: BlockId, content: Pieces) -> Result<(), AllocError>
        ensures inserted { OnOk result (self.new ≡ finite.insert self.old id content) }
        ensures refused { OnErr result (self.new ≡ self.old) }
    {
        self.tree.insert(id, content)?;
        Ok(())
    }
}
