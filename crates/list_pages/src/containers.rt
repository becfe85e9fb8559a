//! Pages of the containers of an account.
ghost use Rattle.std.specs.Prelude.{◌≡◌, IfOk, IsTrue};
ghost use Rattle.std.specs.FinMap as finite;
ghost use Rattle.std.specs.Option.{option_copied, option_map};
ghost use Rattle.list_pages.specs.Containers as containers;
ghost use Rattle.list_pages.specs.Lists as lists;
ghost use Rattle.list_pages.specs.Containers.{page_of_account};
ghost use Rattle.list_pages.specs.Lists.{page_of_containers, shown_container};
ghost use Rattle.list_pages.specs.Seeks.{later_of};
ghost use Rattle.stamp_values.specs.Trees.{is_name_from};

use crate::entries::ContainerPage;
use crate::names::{begins_with, given, is_from};
use body_forms::ContainerEntry;
use row_trees::Rows;
use stamp_types::{Key, Page, Text};
use std::alloc::{AllocError, Global};

// The name at which the bound ends the containers of the account.
fn end_of<'a>(account: &Text, bound: Option<&'a Key>) -> Option<&'a [u8]>
    ensures { option_map (λ t. t.now) result
        ≡ containers.end_of account.now (option_copied bound.entry) }
{
    match bound {
        Some(bound) => {
            if bound.account == *account {
                Some(bound.container.as_str().as_bytes())
            } else {
                None
            }
        }
        None => None,
    }
}

// Whether a name is at the end or past it.
fn is_ended(end: Option<&[u8]>, name: &[u8]) -> bool
    ensures { result ≡ containers.is_ended (option_map (λ t. t.now) end.entry) name.now }
{
    match end {
        Some(end) => is_from(end, name),
        None => false,
    }
}

// Whether the container is not one of the account before the end.
fn is_out(account: &Text, end: Option<&[u8]>, key: &Key) -> bool
    ensures { result
        ≡ containers.is_out account.now (option_map (λ t. t.now) end.entry) key.now }
{
    !(key.account == *account && !is_ended(end, key.container.as_str().as_bytes()))
}

// A copy of a text that is given, or otherwise the empty text.
fn copy_of(alloc: Global, text: &Option<Text>) -> Result<Text, AllocError>
    ensures { IfOk result (λ copy. copy ≡ lists.given text.now) }
{
    match text {
        Some(text) => text.clone(),
        None => Ok(Text::empty(alloc)),
    }
}

// The later of prefix and marker.
fn first_name(alloc: Global, page: &Page) -> Result<Text, AllocError>
    ensures { IfOk result (λ name. name
        ≡ later_of (lists.given page.now.prefix) (lists.given page.now.marker)) }
{
    if is_from(given(&page.prefix), given(&page.marker)) {
        copy_of(alloc, &page.marker)
    } else {
        copy_of(alloc, &page.prefix)
    }
}

// Where a page may begin.
fn start_of(alloc: Global, account: &Text, page: &Page) -> Result<Key, AllocError>
    ensures account { IfOk result (λ start. start.account ≡ account.now) }
    ensures container { IfOk result (λ start. start.container
        ≡ later_of (lists.given page.now.prefix) (lists.given page.now.marker)) }
{
    let container = first_name(alloc, page)?;
    match account.clone() {
        Ok(account) => Ok(Key { account, container }),
        Err(fault) => {
            drop(container);
            Err(fault)
        }
    }
}

// The name of a container.
fn name_of(key: &Key) -> &[u8]
    ensures { result.now ≡ key.now.container }
{
    key.container.as_str().as_bytes()
}

// A page of the containers of the key's account from the key on and before the end. The key's
// container is at the prefix or past it.
fn page_from<'a>(
    alloc: Global,
    rows: &'a Rows,
    start: &Key,
    prefix: &[u8],
    max: usize,
    end: Option<&'a [u8]>,
) -> Result<ContainerPage<'a>, AllocError>
    requires { IsTrue (is_name_from prefix.now start.now.container) }
    ensures { IfOk result (λ page. page ≡ page_of_account shown_container start.now.account
        prefix.now start.now.container max (option_map (λ t. t.now) end.entry)
        (finite.entries rows.now)) }
{
    let mut entries = Vec::new(alloc);
    let mut left = rows.containers_from(start);
    while let Some((key, found)) = left.next() {
        if is_out(&start.account, end, key) {
            return Ok(ContainerPage::new(entries, end));
        }
        let name = name_of(key);
        if !begins_with(name, prefix) {
            // The walk begins at the prefix, so each name after this one is past the prefix too.
            if is_from(prefix, name) {
                return Ok(ContainerPage::new(entries, end));
            }
            continue;
        }
        let Some(standing) = found.standing() else {
            continue;
        };
        // The walk begins at the marker, so the name is at the marker or past it.
        if entries.len() >= max {
            return Ok(ContainerPage::new(entries, Some(name)));
        }
        entries.push(ContainerEntry::of(alloc, name, standing)?)?;
    }
    Ok(ContainerPage::new(entries, end))
}

/// A page of the containers of an account that exist: the first names with the prefix that are at
/// the marker or past it and, if the bound has this account, before the bound's container. If no
/// name is left out and the bound has this account, the next page begins at the bound's container.
/// "List Containers".
///
/// `bound` is the key at which the rows end, if keys after them are elsewhere. Takes time with the
/// number of entries and of deleted containers that it passes by, and once with the logarithm of
/// the number of containers. No byte of metadata is copied, and each name is copied once.
/// `AllocError` if memory runs out for the entries, or for the key at which the page begins, or if
/// metadata can have no further owner.
pub fn container_page<'a>(
    alloc: Global,
    rows: &'a Rows,
    account: &Text,
    page: &Page,
    bound: Option<&'a Key>,
) -> Result<ContainerPage<'a>, AllocError>
    ensures { IfOk result (λ containers. containers
        ≡ page_of_containers account.now page.now (option_copied bound.entry) rows.now) }
{
    let start = start_of(alloc, account, page)?;
    let end = end_of(account, bound);
    let prefix = given(&page.prefix);
    page_from(alloc, rows, &start, prefix, page.max as usize, end)
}
