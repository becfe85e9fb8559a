//! Pages of the blobs of a container.
ghost use Rattle.std.specs.Prelude.{◌≡◌, IfOk, IsTrue};
ghost use Rattle.std.specs.FinMap as finite;
ghost use Rattle.std.specs.List.{filter};
ghost use Rattle.list_pages.specs.Lists.{page_of_blobs, shown_row};
ghost use Rattle.list_pages.specs.Pages.{page_of_names};
ghost use Rattle.list_pages.specs.Seeks.{can_be_raised, later_of, raised};
ghost use Rattle.row_trees.specs.FoundParts.{sizes_found};
ghost use Rattle.stamp_values.specs.Trees.{is_name_from};

use crate::entries::{BlobPage, listed_blob};
use crate::names::{begins_with, given, group_of, is_from, later_of, raised};
use body_forms::BlobEntry;
use row_trees::{BlobWalk, Found};
use stamp_types::Page;
use std::alloc::{AllocError, Global};

// Where a page may begin: no name before the prefix or before the marker is on it.
fn start_of(alloc: Global, prefix: &[u8], marker: &[u8]) -> Result<Vec<u8>, AllocError>
    ensures { IfOk result (λ start. start.items ≡ later_of prefix.now marker.now) }
{
    Ok(later_of(prefix, marker).to_vec(alloc)?)
}

// The blobs after a group.
fn after<'a>(alloc: Global, found: &Found<'a>, group: &[u8]) -> Result<BlobWalk<'a>, AllocError>
    requires { IsTrue (can_be_raised group.now) }
    ensures { IfOk result (λ left. left
        ≡ filter (λ e. is_name_from (raised group.now) e.0) (finite.entries found.now.blobs)) }
{
    Ok(found.blobs_from(&raised(alloc, group)?))
}

// A page of the blobs under a prefix and a delimiter, from a marker on.
fn page_under<'a>(
    alloc: Global,
    found: &Found<'a>,
    prefix: &[u8],
    delimiter: &[u8],
    marker: &[u8],
    max: usize,
) -> Result<BlobPage<'a>, AllocError>
    requires { IsTrue (can_be_raised delimiter.now) }
    ensures { IfOk result (λ page. page ≡ page_of_names shown_row prefix.now delimiter.now marker.now max
        (finite.entries found.now.blobs)) }
{
    let start = start_of(alloc, prefix, marker)?;
    let mut entries = Vec::new(alloc);
    let mut left = found.blobs_from(&start);
    while let Some((name, blob)) = left.next() {
        if !begins_with(name, prefix) {
            // The walk begins at the prefix, so each name after this one is past the prefix too.
            if is_from(prefix, name) {
                return Ok(BlobPage::new(entries, None));
            }
            continue;
        }
        let Some(shown) = listed_blob(&blob) else {
            continue;
        };
        match group_of(prefix, delimiter, name) {
            None => {
                // The walk begins at the marker, so the name is at the marker or past it.
                if entries.len() >= max {
                    return Ok(BlobPage::new(entries, Some(name)));
                }
                entries.push(BlobEntry::blob(alloc, name, shown)?)?;
            }
            Some(group) => {
                // The walk goes on after the group, so the other names of the group cost nothing.
                left = after(alloc, found, group)?;
                if is_from(marker, group) {
                    if entries.len() >= max {
                        return Ok(BlobPage::new(entries, Some(group)));
                    }
                    entries.push(BlobEntry::group(alloc, group)?)?;
                }
            }
        }
    }
    Ok(BlobPage::new(entries, None))
}

/// A page of the blobs of a container: of the list of their names, in which the names of a group are
/// one entry, the first entries at the marker or past it. A blob without a committed part is in no
/// list and makes no group. A container that does not exist has an empty page. "List Blobs".
///
/// Takes time with the number of entries, with the number of blobs without a committed part that it
/// passes by, and for each group with the logarithm of the number of blobs. No byte of metadata is
/// copied, and each name is copied once. `AllocError` if memory runs out for the entries, or for the
/// bound of a group, or if metadata can have no further owner.
pub fn blob_page<'a>(
    alloc: Global,
    found: &Found<'a>,
    page: &Page,
) -> Result<BlobPage<'a>, AllocError>
    ensures { IfOk result (λ blobs. blobs ≡ page_of_blobs page.now (sizes_found found.now)) }
{
    let prefix = given(&page.prefix);
    let delimiter = given(&page.delimiter);
    let marker = given(&page.marker);
    page_under(alloc, found, prefix, delimiter, marker, page.max as usize)
}
