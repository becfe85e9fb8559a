//! Laws of lists and of their pages.
ghost use Rattle.std.specs.Prelude.{◌≡◌, ◌+◌, ℕ, [], IfSome, IsSome, IsTrue, List, None, Option, Some, length, map, true};
ghost use Rattle.std.specs.FinMap.{entries};
ghost use Rattle.std.specs.List.{AllByRecursion, filter};
ghost use Rattle.std.specs.declared.cmp.Ordering.TheVariants.{Less};
ghost use Rattle.list_pages.specs.Laws.{FollowingGivesAll, IsInBounds, IsOfSomeName, Reaches, entries_at, listed_text, own_entry, shown_at};
ghost use Rattle.list_pages.specs.Lists.{blob_list, container_list, given, page_of_blobs, page_of_containers, shown_blob, shown_container};
ghost use Rattle.list_pages.specs.Names.{begins_with};
ghost use Rattle.list_pages.specs.Pages.{with_value};
ghost use Rattle.list_pages.specs.Ranges.{AreSameInRange, bound_of, key_of};
ghost use Rattle.list_pages.specs.Rising.{Rises};
ghost use Rattle.stamp_types.specs.declared.act.Act.TheVariants as act;
ghost use Rattle.stamp_types.specs.declared.act.PutBlock.{PutBlock};
ghost use Rattle.stamp_types.specs.declared.args.Page.{Page};
ghost use Rattle.stamp_types.specs.Pieces.{pieces_len};
ghost use Rattle.stamp_types.specs.World.{Part, World, changed, changed_in, part_at};
ghost use Rattle.stamp_values.specs.Order.{key_cmp};
ghost use Rattle.stamp_values.specs.declared.key.Key.{Key};

/// Whoever begins a list without a marker, and asks with each NextMarker for any number of entries
/// from 1 on, gets the whole list, and the pages end. The list rises by the bytes of its texts, so
/// each entry is there once.
pub fn following_the_markers_gives_each_entry_once()
    ensures blobs { (q : Page) (p : Part ℕ)
        → FollowingGivesAll (λ q. page_of_blobs q p) q (blob_list q p) (length (blob_list q p)) }
    ensures containers { (account : List ℕ) (q : Page) (w : World ℕ)
        → FollowingGivesAll (λ q. page_of_containers account q None w) q
        (container_list account q w) (length (container_list account q w)) }
    ensures blobs_rise { (q : Page) (p : Part ℕ) → Rises (blob_list q p) }
    ensures containers_rise { (account : List ℕ) (q : Page) (w : World ℕ)
        → Rises (container_list account q w) }
{}

/// Each committed name with the prefix is under exactly one entry, and each entry is that of such a
/// name. Without a delimiter the entries are the names.
pub fn each_blob_is_under_one_entry()
    ensures under { (q : Page) (p : Part ℕ) (name : List ℕ) → IsSome (shown_at p name)
        → begins_with name (given q.prefix) ≡ true
        → length (entries_at (listed_text (given q.prefix) (given q.delimiter) name) (blob_list q p)) ≡ 1 }
    ensures of_names { (q : Page) (p : Part ℕ)
        → AllByRecursion (IsOfSomeName p (given q.prefix) (given q.delimiter)) (blob_list q p) }
    ensures names { (q : Page) (p : Part ℕ) → q.delimiter ≡ None
        → blob_list q p ≡ map (λ e. (e.0, Some e.1)) (filter (λ e. begins_with e.0 (given q.prefix))
        (with_value shown_blob (entries p.blobs))) }
{}

/// Without a delimiter a page of blobs has exactly one entry of each committed name that it reaches, which
/// shows the blob of that name, and no entry of a name without a committed part. A page of containers has
/// exactly one entry of each container that exists, that it reaches, and that comes before the bound.
pub fn a_page_has_each_name_that_it_reaches()
    ensures reached { (q : Page) (p : Part ℕ) (name : List ℕ) → q.delimiter ≡ None
        → Reaches q (page_of_blobs q p).next name
        → entries_at name (page_of_blobs q p).entries ≡ own_entry name (shown_at p name) }
    ensures none { (q : Page) (p : Part ℕ) (name : List ℕ) → q.delimiter ≡ None
        → shown_at p name ≡ None → entries_at name (page_of_blobs q p).entries ≡ [] }
    ensures containers { (account : List ℕ) (q : Page) (bound : Option Key) (w : World ℕ)
        (name : List ℕ)
        → IfSome bound (λ end. key_cmp (key_of account name) end ≡ Less)
        → Reaches q (page_of_containers account q bound w).next name
        → entries_at name (page_of_containers account q bound w).entries
        ≡ own_entry name (shown_container (part_at w (key_of account name))) }
{}

/// The entries of a page strictly rise, are at the marker or past it, begin with the prefix, and are
/// at most as many as were asked for. NextMarker is past each entry.
pub fn a_page_is_in_order_and_in_bounds()
    ensures blobs { (q : Page) (p : Part ℕ)
        → IsInBounds (given q.prefix) (given q.marker) q.max (page_of_blobs q p) }
    ensures containers { (account : List ℕ) (q : Page) (bound : Option Key) (w : World ℕ)
        → IsInBounds (given q.prefix) (given q.marker) q.max (page_of_containers account q bound w) }
{}

/// A page of containers depends on what is shown of the containers of its account: on which of them
/// exist, and on their ETags, moments and metadata. It depends on no blob, no level and no policy.
pub fn a_page_of_containers_is_of_its_account()
    ensures { (account : List ℕ) (q : Page) (bound : Option Key) (w v : World ℕ)
        → ((key : Key) → key.account ≡ account
        → shown_container (part_at w key) ≡ shown_container (part_at v key))
        → page_of_containers account q bound w ≡ page_of_containers account q bound v }
{}

/// Two worlds that have the same containers from the marker on and before the bound give the same
/// page. So a partition can answer from its own rows, if its range has the marker and ends at the
/// bound.
pub fn a_page_of_containers_depends_on_its_range()
    ensures { (account : List ℕ) (q : Page) (bound : Option Key) (w v : World ℕ)
        → IfSome bound (λ end. key_cmp (key_of account (given q.marker)) end ≡ Less)
        → AreSameInRange (key_of account (given q.marker)) bound w v
        → page_of_containers account q bound w ≡ page_of_containers account q bound v }
{}

/// Whatever the split points are: if each page is answered with the bound of the range that has its
/// marker, following the markers gives the list of the whole, and the pages end.
pub fn lists_of_ranges_are_one()
    ensures { (account : List ℕ) (q : Page) (splits : List Key) (w : World ℕ) → FollowingGivesAll
        (λ q. page_of_containers account q (bound_of splits (key_of account (given q.marker))) w) q
        (container_list account q w) (length (container_list account q w) + length splits) }
{}

/// A Put Block changes no page: a blob of uncommitted blocks alone is in no list, and a blob that has
/// a committed part is shown as before.
pub fn uncommitted_blocks_change_no_page()
    ensures blobs { (q : Page) (a : PutBlock) (p : Part ℕ)
        → page_of_blobs q (changed pieces_len (act.PutBlock a) p) ≡ page_of_blobs q p }
    ensures containers { (account : List ℕ) (q : Page) (bound : Option Key) (key : Key) (a : PutBlock)
        (w : World ℕ)
        → page_of_containers account q bound
        (changed_in pieces_len w (record { key = key; act = act.PutBlock a }))
        ≡ page_of_containers account q bound w }
{}
