//! Pages of the entries of lists.
ghost use Rattle.std.specs.Prelude.{◌≡◌};
ghost use Rattle.std.specs.Option.{option_map};
ghost use Rattle.list_pages.specs.Lists as lists;
ghost use Rattle.row_trees.specs.FoundParts.{sized};

use body_forms::{BlobEntry, ContainerEntry, LentBlob};
use row_trees::FoundBlob;
use std::marker::Model;

/// What a list shows of the blob, if the blob has a committed part.
#[tactic(auto, using(crate::proofs::Sizes::sizes_of_blocks))]
pub(crate) fn listed_blob<'a>(blob: &FoundBlob<'a>) -> Option<LentBlob<'a>>
    ensures { result ≡ option_map lists.shown_part (sized blob.now.committed) }
{
    match blob.committed() {
        Some(committed) => Some(LentBlob::new(committed, blob.len())),
        None => None,
    }
}

/// A page of a list, with its entries in the order of their texts. It lends its marker from the rows or from the bound.
#[derive(Drop)]
pub struct ListPage<'a, E> {
    entries: Vec<E>,
    next: Option<&'a [u8]>,
}

/// A page of a list of blobs.
pub type BlobPage<'a> = ListPage<'a, BlobEntry>;

/// A page of a list of containers.
pub type ContainerPage<'a> = ListPage<'a, ContainerEntry>;

impl<'a, E> Model for ListPage<'a, E> {
    ghost use Rattle.std.specs.Option.{option_map};
    ghost use Rattle.list_pages.specs.Pages.{PageWith};

    ghost Value = { PageWith E };

    ghost view = { λ p. record {
      entries = p.entries.items;
      next = option_map (λ t. t.now) p.next;
    } };
}

impl<'a, E> ListPage<'a, E> {
    pub(crate) fn new(entries: Vec<E>, next: Option<&'a [u8]>) -> Self
        ensures entries { result.entries ≡ entries.items }
        ensures next { result.next ≡ option_map (λ t. t.now) next.entry }
    {
        Self { entries, next }
    }

    /// The entries, in the order of their texts.
    pub fn entries(&self) -> &[E]
        ensures { result.now ≡ self.now.entries }
    {
        &self.entries
    }

    /// The entries. They are moved.
    pub(crate) fn into_entries(self) -> Vec<E>
        ensures { result.items ≡ self.entry.entries }
    {
        self.entries
    }

    /// The marker with which the list goes on, or `None` if this page ends it.
    pub fn next_marker(&self) -> Option<&'a [u8]>
        ensures { option_map (λ t. t.now) result ≡ self.now.next }
    {
        self.next
    }
}
