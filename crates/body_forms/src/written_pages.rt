//! Writing lists of blobs and of containers.
ghost use Rattle.std.specs.Prelude.{◌≡◌, ◌++◌, IfOk, OnOk, codes, decimal, flat_map, option_map};
ghost use Rattle.moment_text.specs.Http.{http_text};
ghost use Rattle.stamp_values.specs.Etags.{etag_text};
ghost use Rattle.body_forms.specs.WrittenPages as pages;
ghost use Rattle.xml_text.specs.WrittenElements as written;

use crate::list_entries::{BlobEntry, ContainerEntry, ListedBlob, ListedContainer};
use itoa::Buffer;
use moment_text::write_http;
use stamp_types::{Metadata, Moment, Page};
use stamp_values::{Meta, Text, Visible, write_etag};
use std::alloc::{AllocError, Global};
use xml_text::{append_closing, append_element, append_filled, append_opening, append_prolog};

/// How many bytes a list without entries has at most, if what was asked for is short.
const LIST_ROOM: usize = 512;

/// How many bytes most entries have at most beside their texts: tags, a date, an ETag and a length.
const ENTRY_ROOM: usize = 320;

// The number of bytes, or the largest number of entries.
fn append_number(out: &mut Vec<u8>, name: &str, number: u64) -> Result<(), AllocError>
    ensures { OnOk result (out.new.items ≡ out.old.items ++ written.filled_text name.now (decimal number)) }
{
    let mut digits = Buffer::new();
    append_filled(out, name, digits.format(number).as_bytes())
}

// Nothing is written for a text that is absent.
fn append_given(out: &mut Vec<u8>, name: &str, text: &Option<Text>) -> Result<(), AllocError>
    ensures { OnOk result (out.new.items ≡ out.old.items ++ written.given_text name.now text.now) }
{
    match text {
        Some(text) => append_element(out, name, text.as_str().as_bytes()),
        None => Ok(()),
    }
}

fn append_metas(out: &mut Vec<u8>, metas: &[Meta]) -> Result<(), AllocError>
    ensures { OnOk result (out.new.items ≡ out.old.items ++ flat_map pages.meta_text metas.now) }
{
    for meta in metas {
        append_element(out, meta.name.as_str(), meta.value.as_str().as_bytes())?;
    }
    Ok(())
}

// Nothing is written if the metadata were not asked for.
#[tactic(auto, unfolding(xml_text::specs::WrittenElements::filled_text))]
fn append_metadata(out: &mut Vec<u8>, asked: bool, metadata: &Metadata) -> Result<(), AllocError>
    ensures { OnOk result (out.new.items ≡ out.old.items ++ pages.metadata_text asked metadata.now) }
{
    if !asked {
        return Ok(());
    }
    append_opening(out, "Metadata")?;
    append_metas(out, metadata.as_slice())?;
    append_closing(out, "Metadata")?;
    Ok(())
}

fn append_made(out: &mut Vec<u8>, made: Moment) -> Result<(), AllocError>
    ensures { OnOk result (out.new.items
        ≡ out.old.items ++ written.filled_text (codes "Last-Modified") (http_text made)) }
{
    append_filled(out, "Last-Modified", &write_http(made))
}

fn append_etag(out: &mut Vec<u8>, etag: u64) -> Result<(), AllocError>
    ensures { OnOk result (out.new.items
        ≡ out.old.items ++ written.filled_text (codes "Etag") (etag_text etag)) }
{
    append_filled(out, "Etag", &write_etag(etag))
}

#[tactic(auto, unfolding(crate::specs::WrittenPages::dates_text))]
fn append_dates(out: &mut Vec<u8>, made: Moment, etag: u64) -> Result<(), AllocError>
    ensures { OnOk result (out.new.items ≡ out.old.items ++ pages.dates_text made etag) }
{
    append_made(out, made)?;
    append_etag(out, etag)?;
    Ok(())
}

fn append_type(out: &mut Vec<u8>) -> Result<(), AllocError>
    ensures { OnOk result (out.new.items
        ≡ out.old.items ++ written.filled_text (codes "BlobType") (codes "BlockBlob")) }
{
    append_filled(out, "BlobType", b"BlockBlob")
}

fn append_content_type(out: &mut Vec<u8>, content_type: &Visible) -> Result<(), AllocError>
    ensures { OnOk result (out.new.items
        ≡ out.old.items ++ written.element_text (codes "Content-Type") content_type.now) }
{
    append_element(out, "Content-Type", content_type.as_str().as_bytes())
}

#[tactic(auto, unfolding(crate::specs::WrittenPages::content_text))]
fn append_content(out: &mut Vec<u8>, blob: &ListedBlob) -> Result<(), AllocError>
    ensures { OnOk result (out.new.items ≡ out.old.items ++ pages.content_text blob.now) }
{
    append_number(out, "Content-Length", blob.len())?;
    append_content_type(out, blob.content_type())?;
    append_type(out)?;
    Ok(())
}

#[tactic(auto, unfolding(crate::specs::WrittenPages::blob_properties_text))]
fn append_blob_properties(out: &mut Vec<u8>, blob: &ListedBlob) -> Result<(), AllocError>
    ensures { OnOk result (out.new.items ≡ out.old.items ++ pages.blob_properties_text blob.now) }
{
    append_opening(out, "Properties")?;
    append_dates(out, blob.made(), blob.etag())?;
    append_content(out, blob)?;
    append_closing(out, "Properties")?;
    Ok(())
}

#[tactic(auto, unfolding(crate::specs::WrittenPages::blob_text))]
fn append_blob(
    out: &mut Vec<u8>,
    asked: bool,
    name: &[u8],
    blob: &ListedBlob,
) -> Result<(), AllocError>
    ensures { OnOk result (out.new.items ≡ out.old.items ++ pages.blob_text asked name.now blob.now) }
{
    append_opening(out, "Blob")?;
    append_element(out, "Name", name)?;
    append_blob_properties(out, blob)?;
    append_metadata(out, asked, blob.metadata())?;
    append_closing(out, "Blob")?;
    Ok(())
}

#[tactic(auto, unfolding(crate::specs::WrittenPages::group_text, xml_text::specs::WrittenElements::filled_text))]
fn append_group(out: &mut Vec<u8>, text: &[u8]) -> Result<(), AllocError>
    ensures { OnOk result (out.new.items ≡ out.old.items ++ pages.group_text text.now) }
{
    append_opening(out, "BlobPrefix")?;
    append_element(out, "Name", text)?;
    append_closing(out, "BlobPrefix")?;
    Ok(())
}

fn append_blob_entry(out: &mut Vec<u8>, asked: bool, entry: &BlobEntry) -> Result<(), AllocError>
    ensures { OnOk result
        (out.new.items ≡ out.old.items ++ pages.entry_text (pages.blob_text asked) entry.now) }
{
    match entry.listed() {
        Some(blob) => append_blob(out, asked, entry.text(), blob),
        None => append_group(out, entry.text()),
    }
}

fn append_blob_entries(
    out: &mut Vec<u8>,
    asked: bool,
    entries: &[BlobEntry],
) -> Result<(), AllocError>
    ensures { OnOk result (out.new.items
        ≡ out.old.items ++ flat_map (pages.entry_text (pages.blob_text asked)) entries.now) }
{
    for entry in entries {
        append_blob_entry(out, asked, entry)?;
    }
    Ok(())
}

#[tactic(auto, unfolding(crate::specs::WrittenPages::container_properties_text, xml_text::specs::WrittenElements::filled_text))]
fn append_container_properties(
    out: &mut Vec<u8>,
    container: &ListedContainer,
) -> Result<(), AllocError>
    ensures { OnOk result (out.new.items
        ≡ out.old.items ++ pages.container_properties_text container.now) }
{
    append_opening(out, "Properties")?;
    append_dates(out, container.made(), container.etag())?;
    append_closing(out, "Properties")?;
    Ok(())
}

#[tactic(auto, unfolding(crate::specs::WrittenPages::container_text))]
fn append_container(
    out: &mut Vec<u8>,
    asked: bool,
    name: &[u8],
    container: &ListedContainer,
) -> Result<(), AllocError>
    ensures { OnOk result (out.new.items
        ≡ out.old.items ++ pages.container_text asked name.now container.now) }
{
    append_opening(out, "Container")?;
    append_element(out, "Name", name)?;
    append_container_properties(out, container)?;
    append_metadata(out, asked, container.metadata())?;
    append_closing(out, "Container")?;
    Ok(())
}

fn append_container_entries(
    out: &mut Vec<u8>,
    asked: bool,
    entries: &[ContainerEntry],
) -> Result<(), AllocError>
    ensures { OnOk result (out.new.items
        ≡ out.old.items ++ flat_map (pages.entry_text (pages.container_text asked)) entries.now) }
{
    for entry in entries {
        append_container(out, asked, entry.name(), entry.container())?;
    }
    Ok(())
}

#[tactic(auto, unfolding(crate::specs::WrittenPages::page_asked_text))]
fn append_asked(out: &mut Vec<u8>, page: &Page) -> Result<(), AllocError>
    ensures { OnOk result (out.new.items ≡ out.old.items ++ pages.page_asked_text page.now) }
{
    append_given(out, "Prefix", &page.prefix)?;
    append_given(out, "Marker", &page.marker)?;
    append_number(out, "MaxResults", u64::from(page.max))?;
    Ok(())
}

#[tactic(auto, unfolding(crate::specs::WrittenPages::next_text))]
fn append_next(out: &mut Vec<u8>, next: Option<&[u8]>) -> Result<(), AllocError>
    ensures { OnOk result
        (out.new.items ≡ out.old.items ++ pages.next_text (option_map (λ t. t.now) next.entry)) }
{
    match next {
        Some(next) => append_element(out, "NextMarker", next),
        None => append_element(out, "NextMarker", &[]),
    }
}

// How many bytes a list has at most with one entry more, if few bytes of its text are written as references.
fn room_with(room: usize, text: &[u8]) -> usize {
    room.saturating_add(ENTRY_ROOM).saturating_add(text.len())
}

fn room_for_blobs(entries: &[BlobEntry]) -> usize {
    let mut room = LIST_ROOM;
    for entry in entries {
        room = room_with(room, entry.text());
    }
    room
}

fn room_for_containers(entries: &[ContainerEntry]) -> usize {
    let mut room = LIST_ROOM;
    for entry in entries {
        room = room_with(room, entry.name());
    }
    room
}

#[tactic(auto, unfolding(crate::specs::WrittenPages::blobs_text))]
fn append_blobs(out: &mut Vec<u8>, page: &Page, entries: &[BlobEntry]) -> Result<(), AllocError>
    ensures { OnOk result
        (out.new.items ≡ out.old.items ++ pages.blobs_text page.now.metadata entries.now) }
{
    append_opening(out, "Blobs")?;
    append_blob_entries(out, page.metadata, entries)?;
    append_closing(out, "Blobs")?;
    Ok(())
}

#[tactic(auto, unfolding(crate::specs::WrittenPages::containers_text))]
fn append_containers(
    out: &mut Vec<u8>,
    page: &Page,
    entries: &[ContainerEntry],
) -> Result<(), AllocError>
    ensures { OnOk result
        (out.new.items ≡ out.old.items ++ pages.containers_text page.now.metadata entries.now) }
{
    append_opening(out, "Containers")?;
    append_container_entries(out, page.metadata, entries)?;
    append_closing(out, "Containers")?;
    Ok(())
}

/// Writes the body of a reply to List Blobs: what was asked for, the entries in the order that the caller gives, and the marker with which the
/// list goes on. Metadata are written if the page asks for them, also if a blob has none, and never for a group. `&`, `<` and `>` of texts are
/// written as references.
///
/// `AllocError` if memory runs out.
///
/// Blob service REST reference, 2012-02-12, List Blobs.
#[tactic(auto, unfolding(crate::specs::WrittenPages::blob_list_text))]
pub fn write_blob_list(
    alloc: Global,
    page: &Page,
    entries: &[BlobEntry],
    next: Option<&[u8]>,
) -> Result<Vec<u8>, AllocError>
    ensures { IfOk result (λ text. text.items
        ≡ pages.blob_list_text page.now entries.now (option_map (λ t. t.now) next.entry)) }
{
    let mut out = Vec::with_capacity(alloc, room_for_blobs(entries))?;
    append_prolog(&mut out)?;
    append_opening(&mut out, "EnumerationResults")?;
    append_asked(&mut out, page)?;
    append_given(&mut out, "Delimiter", &page.delimiter)?;
    append_blobs(&mut out, page, entries)?;
    append_next(&mut out, next)?;
    append_closing(&mut out, "EnumerationResults")?;
    Ok(out)
}

/// Writes the body of a reply to List Containers, as `write_blob_list` writes that of List Blobs. A delimiter is not told.
///
/// `AllocError` if memory runs out.
///
/// Blob service REST reference, 2012-02-12, List Containers.
#[tactic(auto, unfolding(crate::specs::WrittenPages::container_list_text))]
pub fn write_container_list(
    alloc: Global,
    page: &Page,
    entries: &[ContainerEntry],
    next: Option<&[u8]>,
) -> Result<Vec<u8>, AllocError>
    ensures { IfOk result (λ text. text.items
        ≡ pages.container_list_text page.now entries.now (option_map (λ t. t.now) next.entry)) }
{
    let mut out = Vec::with_capacity(alloc, room_for_containers(entries))?;
    append_prolog(&mut out)?;
    append_opening(&mut out, "EnumerationResults")?;
    append_asked(&mut out, page)?;
    append_containers(&mut out, page, entries)?;
    append_next(&mut out, next)?;
    append_closing(&mut out, "EnumerationResults")?;
    Ok(out)
}
