//! A law of pages that are not the last page of their list.
ghost use Rattle.std.specs.Prelude.{ℕ, List, None, Option};
ghost use Rattle.list_pages.specs.Containers.{end_of};
ghost use Rattle.list_pages.specs.FullPages.{IsFull};
ghost use Rattle.list_pages.specs.Lists.{page_of_blobs, page_of_containers};
ghost use Rattle.stamp_types.specs.declared.args.Page.{Page};
ghost use Rattle.stamp_types.specs.World.{Part, World};
ghost use Rattle.stamp_values.specs.declared.key.Key.{Key};

/// A page with a NextMarker has as many entries as were asked for. In a page of blobs, names and groups
/// count together. A page of containers can have fewer entries only if no container before the bound is
/// left out: then its NextMarker is the bound's container, and not its own.
pub fn a_page_with_a_next_marker_is_full()
    ensures blobs { (q : Page) (p : Part ℕ) → IsFull None q.max (page_of_blobs q p) }
    ensures containers { (account : List ℕ) (q : Page) (bound : Option Key) (w : World ℕ)
        → IsFull (end_of account bound) q.max (page_of_containers account q bound w) }
{}
