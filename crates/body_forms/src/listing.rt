//! A page of a list that is gathered, and whose text is written later.
ghost use Rattle.std.specs.Prelude.{◌≡◌, [], ◌∷◌, IfOk, true};
ghost use Rattle.std.specs.Option.{option_map};
ghost use Rattle.stamp_types.specs.Replies as texts;
ghost use Rattle.stamp_values.specs.Operations.{lists_names};
ghost use Rattle.body_forms.specs.Drafts as drafts;

use crate::list_entries::{BlobEntry, ContainerEntry};
use crate::written_pages::{write_blob_list, write_container_list};
use stamp_types::{Header, Items, Page, Reply, Request, text_reply};
use stamp_values::{Bytes, Visible};
use std::alloc::{AllocError, Global};
use std::marker::Model;

/// The entries of a page.
#[derive(Drop)]
enum Entries {
    Blobs(Items<BlobEntry>),
    Containers(Items<ContainerEntry>),
}

/// A page of a list that is gathered: its entries, the marker with which the list goes on, and the request that asked for it. Contracts see it as
/// the reply that tells the page.
///
/// It shares what it tells with the blobs and the containers, so the reply stays the same whatever is written or deleted after the page was
/// gathered. The text of the reply takes memory only once it is written.
#[derive(Drop)]
pub struct Listing {
    request: Request,
    entries: Entries,
    next: Option<Bytes>,
    ghost lists: { lists_names request.ask.op ≡ true },
}

impl Model for Listing {
    ghost use Rattle.stamp_types.specs.declared.reply.Reply.{Reply};
    ghost use Rattle.body_forms.specs.Drafts.{page_told};

    ghost Value = { Reply };

    ghost view = { λ l. page_told l.request l.entries l.next };
}

/// The page that a request asks for.
pub fn page_asked(request: &Request) -> &Page
    requires { lists_names request.now.ask.op ≡ true }
    ensures { result.now ≡ drafts.page_asked request.now }
{
    match &request.ask().args.page {
        Some(page) => page,
        None => unreachable!("each operation that lists names asks for a page"),
    }
}

// A copy of a marker.
fn marker_of(alloc: Global, next: Option<&[u8]>) -> Result<Option<Bytes>, AllocError>
    ensures { IfOk result (λ marker. marker ≡ option_map (λ t. t.now) next.entry) }
{
    match next {
        Some(next) => Ok(Some(Bytes::new(next.to_vec(alloc)?))),
        None => Ok(None),
    }
}

// The bytes of a marker.
fn marker_bytes(next: &Option<Bytes>) -> Option<&[u8]>
    ensures { option_map (λ t. t.now) result ≡ next.now }
{
    match next {
        Some(next) => Some(next.as_slice()),
        None => None,
    }
}

// The reply with this text in XML.
fn xml_reply(alloc: Global, text: Vec<u8>) -> Result<Reply, AllocError>
    ensures { IfOk result (λ reply.
        reply ≡ texts.text_reply (texts.xml_header ∷ []) text.items) }
{
    let mut headers = Vec::with_capacity(alloc, 1)?;
    headers.push(Header::ContentType(Visible::xml(alloc)?))?;
    text_reply(alloc, headers, text)
}

// The text of a page.
fn text_of(
    alloc: Global,
    page: &Page,
    entries: &Entries,
    next: Option<&[u8]>,
) -> Result<Vec<u8>, AllocError>
    ensures { IfOk result (λ text. text.items
        ≡ drafts.page_text page.now entries.now (option_map (λ t. t.now) next.entry)) }
{
    match entries {
        Entries::Blobs(entries) => write_blob_list(alloc, page, entries.as_slice(), next),
        Entries::Containers(entries) => write_container_list(alloc, page, entries.as_slice(), next),
    }
}

impl Listing {
    // The page with these entries that a request asks for.
    fn of(
        alloc: Global,
        request: &Request,
        entries: Entries,
        next: Option<&[u8]>,
    ) -> Result<Self, AllocError>
        requires { lists_names request.now.ask.op ≡ true }
        ensures { IfOk result (λ listing. listing
            ≡ drafts.page_told request.now entries (option_map (λ t. t.now) next.entry)) }
    {
        let next = marker_of(alloc, next)?;
        let request = request.clone()?;
        Ok(Self {
            request,
            entries,
            next,
        })
    }

    /// The page of these blobs and groups that a request asks for. `next` is the marker with which the list goes on, or `None` if this page ends it.
    ///
    /// `AllocError` if memory runs out for the marker, or if the request can have no further owner.
    pub fn of_blobs(
        alloc: Global,
        request: &Request,
        entries: Vec<BlobEntry>,
        next: Option<&[u8]>,
    ) -> Result<Self, AllocError>
        requires { lists_names request.now.ask.op ≡ true }
        ensures { IfOk result (λ listing. listing
            ≡ drafts.blobs_reply (drafts.page_asked request.now) entries.items (option_map (λ t. t.now) next.entry)) }
    {
        Self::of(alloc, request, Entries::Blobs(Items::new(entries)), next)
    }

    /// The page of these containers that a request asks for, as `of_blobs` gives a page of blobs.
    ///
    /// `AllocError` if memory runs out for the marker, or if the request can have no further owner.
    pub fn of_containers(
        alloc: Global,
        request: &Request,
        entries: Vec<ContainerEntry>,
        next: Option<&[u8]>,
    ) -> Result<Self, AllocError>
        requires { lists_names request.now.ask.op ≡ true }
        ensures { IfOk result (λ listing. listing
            ≡ drafts.containers_reply (drafts.page_asked request.now) entries.items (option_map (λ t. t.now) next.entry)) }
    {
        Self::of(
            alloc,
            request,
            Entries::Containers(Items::new(entries)),
            next,
        )
    }

    /// Writes the text of the reply. Takes time and memory with the text.
    ///
    /// `AllocError` if memory runs out. The page can be written again.
    pub fn write(&self, alloc: Global) -> Result<Reply, AllocError>
        ensures { IfOk result (λ reply. reply ≡ self.now) }
    {
        let page = page_asked(&self.request);
        let text = text_of(alloc, page, &self.entries, marker_bytes(&self.next))?;
        xml_reply(alloc, text)
    }
}
