//! Walks over the blobs of a container and over containers, each from a bound on.
ghost use Rattle.std.specs.Prelude.{◌≡◌};
ghost use Rattle.std.specs.FinMap as finite;
ghost use Rattle.std.specs.Iterator.{YieldsFirstBy, item_count};
ghost use Rattle.std.specs.List.{filter};
ghost use Rattle.row_trees.specs.Walks.{keyed_part, named_blob};
ghost use Rattle.stamp_values.specs.Trees.{is_from, is_name_from};

use crate::container::Container;
use crate::found::Found;
use crate::found_blob::FoundBlob;
use crate::row::Row;
use crate::rows::Rows;
use stamp_types::Key;
use std::collections::btree_map::Range;
use std::iter::Iterator;
use std::marker::Model;

/// A walk over the blobs of a container in the order of their names, seen as the list of the names
/// that are left with their blobs. A blob of uncommitted blocks alone is one of them.
#[derive(Drop)]
pub struct BlobWalk<'a> {
    // the rows that are left, if the container exists or was deleted
    left: Option<Range<'a, Vec<u8>, Row>>,
}

impl<'a> Model for BlobWalk<'a> {
    ghost use Rattle.std.specs.Prelude.{ℕ, List};
    ghost use Rattle.std.specs.Coded.{coded_list, coded_ℕ, coded×};
    ghost use Rattle.stamp_types.specs.declared.piece.Piece.{Piece};
    ghost use Rattle.stamp_types.specs.ContentCodes.{content_code};
    ghost use Rattle.stamp_types.specs.World.{Blob};
    ghost use Rattle.stamp_types.specs.WorldCodes.{blob_code};
    ghost use Rattle.row_trees.specs.Walks.{blobs_left};

    ghost Value = { List (List ℕ × Blob (List Piece)) };

    ghost coded = { coded_list (coded× (coded_list coded_ℕ) (blob_code content_code)) };

    ghost view = { λ w. blobs_left w.left };
}

impl<'a> Iterator for BlobWalk<'a> {
    type Item = (&'a [u8], FoundBlob<'a>);

    ghost next_gives = { YieldsFirstBy named_blob (λ left. left) };

    ghost remaining = { item_count (λ left. left) };

    fn next(&mut self) -> Option<(&'a [u8], FoundBlob<'a>)> {
        match &mut self.left {
            Some(left) => match left.next() {
                Some((name, row)) => Some((name.as_slice(), FoundBlob::of(row.blob()))),
                None => None,
            },
            None => None,
        }
    }
}

/// A walk over containers in the order of their keys, seen as the list of the keys that are left
/// with their containers. A container that was deleted is one of them.
#[derive(Drop)]
pub struct ContainerWalk<'a> {
    left: Range<'a, Key, Container>,
}

impl<'a> Model for ContainerWalk<'a> {
    ghost use Rattle.std.specs.Prelude.{List, map};
    ghost use Rattle.std.specs.Coded.{coded_list, coded×};
    ghost use Rattle.stamp_values.specs.Trees.{entry_key, key_code, own_key};
    ghost use Rattle.stamp_values.specs.declared.key.Key.{Key};
    ghost use Rattle.stamp_types.specs.declared.piece.Piece.{Piece};
    ghost use Rattle.stamp_types.specs.World.{Part};
    ghost use Rattle.row_trees.specs.BlobRows.{container_code};

    ghost Value = { List (Key × Part (List Piece)) };

    ghost coded = { coded_list (coded× key_code container_code) };

    ghost view = { λ w. map (entry_key own_key) w.left };
}

impl<'a> Iterator for ContainerWalk<'a> {
    type Item = (&'a Key, Found<'a>);

    ghost next_gives = { YieldsFirstBy keyed_part (λ left. left) };

    ghost remaining = { item_count (λ left. left) };

    fn next(&mut self) -> Option<(&'a Key, Found<'a>)> {
        match self.left.next() {
            Some((key, container)) => Some((
                key,
                Found {
                    container: Some(container),
                },
            )),
            None => None,
        }
    }
}

impl<'a> Found<'a> {
    /// A walk over the blobs of the container whose names are at the bound or past it. The bound is
    /// any bytes: it need not be a name.
    ///
    /// Takes time with the logarithm of the number of blobs, and no memory.
    #[tactic(auto, using(crate::proofs::Parts::no_blobs))]
    pub fn blobs_from(&self, bound: &Vec<u8>) -> BlobWalk<'a>
        ensures { result
            ≡ filter (λ e. is_name_from bound.now.items e.0) (finite.entries self.now.blobs) }
    {
        match self.container {
            Some(container) => BlobWalk {
                left: Some(container.blobs.range_from(bound)),
            },
            None => BlobWalk { left: None },
        }
    }
}

impl Rows {
    /// A walk over the containers whose keys are at the bound or past it. The bound need not be the
    /// key of a container.
    ///
    /// Takes time with the logarithm of the number of containers, and no memory.
    pub fn containers_from<'a>(&'a self, bound: &Key) -> ContainerWalk<'a>
        ensures { result ≡ filter (λ e. is_from bound.now e.0) (finite.entries self.now) }
    {
        ContainerWalk {
            left: self.containers.range_from(bound),
        }
    }
}
