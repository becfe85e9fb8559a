//! Replies to the two lists, gathered and not yet written.
ghost use Rattle.std.specs.Prelude.{◌≡◌, IfOk, true};
ghost use Rattle.std.specs.Option.{option_copied};
ghost use Rattle.stamp_values.specs.Operations.{lists_names};
ghost use Rattle.body_forms.specs.Drafts.{page_asked};
ghost use Rattle.row_trees.specs.FoundParts.{sizes_found};
ghost use Rattle.list_pages.specs.ListReplies as replies;

use crate::blobs::blob_page;
use crate::containers::container_page;
use crate::entries::{BlobPage, ContainerPage};
use body_forms::{Draft, Listing, page_asked};
use row_trees::{Found, Rows};
use stamp_types::{Key, Request};
use std::alloc::{AllocError, Global};

// The draft of the reply that tells a page of blobs.
fn blobs_draft(alloc: Global, request: &Request, blobs: BlobPage<'_>) -> Result<Draft, AllocError>
    requires { lists_names request.now.ask.op ≡ true }
    ensures { IfOk result (λ draft. draft ≡ replies.blobs_told (page_asked request.now) blobs.entry) }
{
    let next = blobs.next_marker();
    let listing = Listing::of_blobs(alloc, request, blobs.into_entries(), next)?;
    Ok(Draft::listed(listing))
}

// The draft of the reply that tells a page of containers.
fn containers_draft(
    alloc: Global,
    request: &Request,
    containers: ContainerPage<'_>,
) -> Result<Draft, AllocError>
    requires { lists_names request.now.ask.op ≡ true }
    ensures { IfOk result (λ draft.
        draft ≡ replies.containers_told (page_asked request.now) containers.entry) }
{
    let next = containers.next_marker();
    let listing = Listing::of_containers(alloc, request, containers.into_entries(), next)?;
    Ok(Draft::listed(listing))
}

/// The reply to a List Blobs that no rule refuses, from what rows find of the container that it names.
/// Its text is not written yet.
///
/// Takes time with what the page has and passes by, and memory with its entries (`blob_page`).
/// `AllocError` if memory runs out. "List Blobs".
pub fn blob_list_reply(
    alloc: Global,
    found: &Found<'_>,
    request: &Request,
) -> Result<Draft, AllocError>
    requires { lists_names request.now.ask.op ≡ true }
    ensures { IfOk result (λ draft.
        draft ≡ replies.blob_list_reply (sizes_found found.now) request.now) }
{
    let blobs = blob_page(alloc, found, page_asked(request))?;
    blobs_draft(alloc, request, blobs)
}

/// The reply to a List Containers that no rule refuses, from the rows of its account. Its text is not
/// written yet. `bound` is the key at which the rows end, if keys after them are elsewhere.
///
/// Takes time with what the page has and passes by, and memory with its entries (`container_page`).
/// `AllocError` if memory runs out. "List Containers".
pub fn container_list_reply(
    alloc: Global,
    rows: &Rows,
    request: &Request,
    bound: Option<&Key>,
) -> Result<Draft, AllocError>
    requires { lists_names request.now.ask.op ≡ true }
    ensures { IfOk result (λ draft. draft
        ≡ replies.container_list_reply rows.now request.now (option_copied bound.entry)) }
{
    let account = &request.ask().key.account;
    let containers = container_page(alloc, rows, account, page_asked(request), bound)?;
    containers_draft(alloc, request, containers)
}
