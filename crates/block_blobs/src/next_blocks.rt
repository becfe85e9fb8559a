//! Uncommitted blocks that are looked up one after another.
ghost use Rattle.std.specs.Prelude.{◌≡◌};
ghost use Rattle.std.specs.Option.{option_copied};
ghost use Rattle.std.specs.FinMap as finite;

use crate::uncommitted::Uncommitted;
use stamp_types::{BlockId, Pieces};
use std::cmp::Ordering;
use std::collections::btree_map::Iter;
use std::marker::Model;

/// The uncommitted blocks of a blob, for look-ups whose ids mostly rise, as in a list that names the
/// blocks in the order of their ids. Contracts see the map from the ids to the content.
#[derive(Drop)]
pub(crate) struct NextBlocks<'a> {
    blocks: &'a Uncommitted,
    // the block at which the next look-up begins, and the blocks after it
    next: Option<(&'a BlockId, &'a Pieces)>,
    later: Iter<'a, BlockId, Pieces>,
}

impl<'a> Model for NextBlocks<'a> {
    ghost use Rattle.std.specs.Prelude.{List};
    ghost use Rattle.std.specs.FinMap.{FinMap};
    ghost use Rattle.stamp_values.specs.Order.{name_cmp};
    ghost use Rattle.stamp_types.specs.declared.piece.Piece.{Piece};
    ghost use Rattle.stamp_types.specs.ContentCodes.{blocks_code};
    ghost use Rattle.block_blobs.specs.NextBlocks.{AreBlocks, from_next};

    ghost Value = { FinMap name_cmp (List Piece) };

    ghost coded = { blocks_code };

    ghost view = { λ n. n.blocks.now };

    ghost invariant = { λ n. AreBlocks n.blocks.now (from_next n.next n.later) };
}

impl<'a> NextBlocks<'a> {
    /// The blocks, with the block of the least id first.
    #[tactic(auto, using(crate::proofs::NextLemmas::first_next))]
    pub(crate) fn new(blocks: &'a Uncommitted) -> Self
        ensures { result ≡ blocks.now }
    {
        let mut later = blocks.iter();
        Self {
            blocks,
            next: later.next(),
            later,
        }
    }

    /// The content of the block of an id. Blocks of smaller ids are passed: a later look-up for one of
    /// these takes time with the logarithm of the number of blocks, and else each block is passed once.
    #[tactic(auto, using(crate::proofs::NextLemmas::later_next, crate::proofs::NextLemmas::later_fewer, crate::proofs::NextLemmas::next_found))]
    pub(crate) fn content(&mut self, id: &BlockId) -> Option<&'a Pieces>
        ensures content { option_copied result ≡ finite.get self.old id.now }
        ensures same { self.new ≡ self.old }
    {
        while let Some((next, content)) = self.next {
            match next.cmp(id) {
                Ordering::Less => self.next = self.later.next(),
                Ordering::Equal => {
                    self.next = self.later.next();
                    return Some(content);
                }
                Ordering::Greater => break,
            }
        }
        self.blocks.get(id)
    }
}
