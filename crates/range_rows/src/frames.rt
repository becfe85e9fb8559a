//! The frames of replies to requests that were allowed: their status, their headers and their length.
ghost use Rattle.std.specs.Prelude.{◌≡◌, ◌∷◌, ◌++◌, IfOk, IsTrue, OnOk, map};
ghost use Rattle.std.specs.Option.{option_to_list};
ghost use Rattle.stamp_values.specs.Operations.{writes};
ghost use Rattle.stamp_values.specs.Texts.{is_visible};
ghost use Rattle.stamp_types.specs.declared.header.Header.TheVariants as header;
ghost use Rattle.stamp_types.specs.Changes.{blocks_len};
ghost use Rattle.stamp_types.specs.Pieces.{pieces_len};
ghost use Rattle.stamp_types.specs.Requests.{IsRequest};
ghost use Rattle.stamp_types.specs.World.{committed_value};
ghost use Rattle.stamp_types.specs.declared.status.Status.TheVariants as status;
ghost use Rattle.range_rows.specs.Frames as frames;
ghost use Rattle.range_rows.specs.Replaced.{or_own};

use crate::ranges::{range_end, sent_range};
use crate::replacements::{Replacements, shown, visible};
use stamp_types::{
    ByteRange, Committed, Header, Items, Meta, Metadata, Moment, Op, Pieces, Props, Reply, Request,
    SentRange, Shares, Status, Visible,
};
use std::alloc::{AllocError, Global};

// A header of a text that is kept with a blob, and that the request may replace.
#[derive(Clone, Copy)]
enum KeptHeader {
    Encoding,
    Language,
    CacheControl,
}

// The header with this text.
fn header_of(name: KeptHeader, text: Visible) -> Header
    ensures { result ≡ frames.header_of name text }
{
    match name {
        KeptHeader::Encoding => Header::ContentEncoding(text),
        KeptHeader::Language => Header::ContentLanguage(text),
        KeptHeader::CacheControl => Header::CacheControl(text),
    }
}

// Puts the line of a header after the headers, if the header has a text.
fn push_text(
    alloc: Global,
    headers: &mut Vec<Header>,
    name: KeptHeader,
    replacement: &[u8],
    own: &Visible,
) -> Result<(), AllocError>
    requires { IsTrue (is_visible replacement.now) }
    ensures { OnOk result (headers.new.items ≡ headers.old.items
        ++ frames.line_of (frames.header_of name) (or_own replacement.now own.now)) }
{
    if !replacement.is_empty() || !own.as_str().is_empty() {
        headers.push(header_of(name, shown(alloc, replacement, own)?))?;
    }
    Ok(())
}

fn push_disposition(
    alloc: Global,
    headers: &mut Vec<Header>,
    replacement: &[u8],
) -> Result<(), AllocError>
    requires { IsTrue (is_visible replacement.now) }
    ensures { OnOk result (headers.new.items
        ≡ headers.old.items ++ frames.line_of header.ContentDisposition replacement.now) }
{
    if !replacement.is_empty() {
        headers.push(Header::ContentDisposition(visible(alloc, replacement)?))?;
    }
    Ok(())
}

fn push_md5(headers: &mut Vec<Header>, sum: Option<[u8; 16]>) -> Result<(), AllocError>
    ensures { OnOk result
        (headers.new.items ≡ headers.old.items ++ map header.ContentMd5 (option_to_list sum)) }
{
    if let Some(sum) = sum {
        headers.push(Header::ContentMd5(sum))?;
    }
    Ok(())
}

// Puts the lines of the kept headers after the headers, with this MD5 and with what replaces some of
// them. A header whose text is empty has no line.
fn push_kept(
    alloc: Global,
    headers: &mut Vec<Header>,
    props: &Props,
    md5: Option<[u8; 16]>,
    replaced: &Replacements<'_>,
) -> Result<(), AllocError>
    ensures { OnOk result (headers.new.items
        ≡ headers.old.items ++ frames.kept_lines replaced.now (record props.now { md5 = md5 })) }
{
    let content_type = shown(alloc, replaced.content_type(), props.content_type())?;
    headers.push(Header::ContentType(content_type))?;
    let (encoding, own) = (replaced.encoding(), props.encoding());
    push_text(alloc, headers, KeptHeader::Encoding, encoding, own)?;
    let (language, own) = (replaced.language(), props.language());
    push_text(alloc, headers, KeptHeader::Language, language, own)?;
    push_md5(headers, md5)?;
    let (cache_control, own) = (replaced.cache_control(), props.cache_control());
    push_text(alloc, headers, KeptHeader::CacheControl, cache_control, own)?;
    push_disposition(alloc, headers, replaced.disposition())?;
    Ok(())
}

// Puts a line for each name after the headers.
fn push_metadata(headers: &mut Vec<Header>, metas: &[Meta]) -> Result<(), AllocError>
    ensures { OnOk result (headers.new.items ≡ headers.old.items ++ map header.Meta metas.now) }
{
    for meta in metas {
        headers.push(Header::Meta(meta.clone()?))?;
    }
    Ok(())
}

/// Puts two lines after the headers: which change wrote last, and when.
pub(crate) fn push_dates(
    headers: &mut Vec<Header>,
    etag: u64,
    made: Moment,
) -> Result<(), AllocError>
    ensures { OnOk result
        (headers.new.items ≡ headers.old.items ++ frames.date_headers etag made) }
{
    headers.push(Header::Etag(etag))?;
    headers.push(Header::LastModified(made))?;
    Ok(())
}

// Puts the last four lines of a blob after the headers: its type, that ranges of it may be asked
// for, which change wrote it last, and when.
fn push_blob(headers: &mut Vec<Header>, blob: &Committed<Pieces>) -> Result<(), AllocError>
    ensures { OnOk result (headers.new.items ≡ headers.old.items ++ header.BlobType
        ∷ header.AcceptRanges ∷ frames.date_headers blob.now.etag blob.now.made) }
{
    headers.push(Header::BlobType)?;
    headers.push(Header::AcceptRanges)?;
    push_dates(headers, blob.etag, blob.made)?;
    Ok(())
}

fn read_headers(
    alloc: Global,
    blob: &Committed<Pieces>,
    replaced: &Replacements<'_>,
) -> Result<Vec<Header>, AllocError>
    ensures { IfOk result (λ headers.
        headers.items ≡ frames.read_headers replaced.now blob.now) }
{
    let metas = blob.metadata.as_slice();
    // Room for the five kept headers, the metadata, and the last four lines. Few replies have a
    // Content-Disposition.
    let mut headers = Vec::with_capacity(alloc, metas.len() + 9)?;
    push_kept(alloc, &mut headers, &blob.props, blob.props.md5(), replaced)?;
    push_metadata(&mut headers, metas)?;
    push_blob(&mut headers, blob)?;
    Ok(headers)
}

// The headers of a part of a blob: which part it is, and no MD5, since that is the MD5 of all bytes.
fn part_headers(
    alloc: Global,
    sent: SentRange,
    blob: &Committed<Pieces>,
    replaced: &Replacements<'_>,
) -> Result<Vec<Header>, AllocError>
    ensures { IfOk result (λ headers.
        headers.items ≡ frames.part_headers replaced.now sent blob.now) }
{
    let metas = blob.metadata.as_slice();
    // Room for four kept headers, the range, the metadata, and the last four lines.
    let mut headers = Vec::with_capacity(alloc, metas.len() + 9)?;
    push_kept(alloc, &mut headers, &blob.props, None, replaced)?;
    headers.push(Header::ContentRange(sent))?;
    push_metadata(&mut headers, metas)?;
    push_blob(&mut headers, blob)?;
    Ok(headers)
}

// A reply that refuses nothing, with an empty body.
fn success_reply(alloc: Global, status: Status, headers: Vec<Header>, length: u64) -> Reply
    ensures { result ≡ frames.success_reply status headers.items length }
{
    Reply {
        status,
        code: None,
        rule: None,
        headers: Items::new(headers),
        length,
        body: Shares::empty(alloc),
    }
}

// The reply that says which change wrote last, and when.
fn dates_reply(alloc: Global, status: Status, etag: u64, made: Moment) -> Result<Reply, AllocError>
    ensures { IfOk result (λ reply.
        reply ≡ frames.success_reply status (frames.date_headers etag made) 0) }
{
    let mut headers = Vec::with_capacity(alloc, 2)?;
    push_dates(&mut headers, etag, made)?;
    Ok(success_reply(alloc, status, headers, 0))
}

fn put_reply(alloc: Global, sum: [u8; 16], etag: u64, made: Moment) -> Result<Reply, AllocError>
    ensures { IfOk result (λ reply. reply ≡ frames.put_reply sum etag made) }
{
    let mut headers = Vec::with_capacity(alloc, 3)?;
    headers.push(Header::ContentMd5(sum))?;
    push_dates(&mut headers, etag, made)?;
    Ok(success_reply(alloc, Status::Created, headers, 0))
}

fn block_reply(alloc: Global, sum: [u8; 16]) -> Result<Reply, AllocError>
    ensures { IfOk result (λ reply. reply ≡ frames.block_reply sum) }
{
    let mut headers = Vec::with_capacity(alloc, 1)?;
    headers.push(Header::ContentMd5(sum))?;
    Ok(success_reply(alloc, Status::Created, headers, 0))
}

/// The reply with the metadata by name, which change wrote last, and when.
pub(crate) fn metadata_reply(
    alloc: Global,
    metadata: &Metadata,
    etag: u64,
    made: Moment,
) -> Result<Reply, AllocError>
    ensures { IfOk result (λ reply. reply
        ≡ frames.success_reply status.Success
        (frames.metadata_headers metadata.now etag made) 0) }
{
    let metas = metadata.as_slice();
    let mut headers = Vec::with_capacity(alloc, metas.len() + 2)?;
    push_metadata(&mut headers, metas)?;
    push_dates(&mut headers, etag, made)?;
    Ok(success_reply(alloc, Status::Success, headers, 0))
}

/// The frame of the answer to a request that writes, from the number and the moment of its change.
pub(crate) fn write_frame(
    alloc: Global,
    request: &Request,
    etag: u64,
    moment: Moment,
) -> Result<Reply, AllocError>
    requires writes { IsTrue (writes request.now.ask.op) }
    ensures frame { IfOk result (λ reply. reply ≡ frames.write_frame request.now etag moment) }
    ensures fits { IsRequest request.now }
{
    match request.ask().op {
        Op::CreateContainer => dates_reply(alloc, Status::Created, etag, moment),
        Op::SetContainerMetadata | Op::SetAcl | Op::SetMetadata => {
            dates_reply(alloc, Status::Success, etag, moment)
        }
        Op::PutBlob | Op::PutBlockList => { put_reply(alloc, request.body().sum(), etag, moment) }
        Op::PutBlock => block_reply(alloc, request.body().sum()),
        Op::DeleteContainer | Op::DeleteBlob => {
            Ok(success_reply(alloc, Status::Accepted, Vec::new(alloc), 0))
        }
        _ => unreachable!("each other operation reads"),
    }
}

/// The frame of the whole blob, whose length was found with it.
#[tactic(auto, using(crate::proofs::AnswerLemmas::sizes_of_blocks))]
pub(crate) fn get_frame(
    alloc: Global,
    blob: &Committed<Pieces>,
    len: u64,
    replaced: &Replacements<'_>,
) -> Result<Reply, AllocError>
    requires { len ≡ blocks_len blob.now.blocks }
    ensures { IfOk result (λ reply.
        reply ≡ frames.get_frame replaced.now (committed_value pieces_len blob.now)) }
{
    let headers = read_headers(alloc, blob, replaced)?;
    Ok(success_reply(alloc, Status::Success, headers, len))
}

/// The frame of the part of the blob that the range asks for.
#[tactic(auto, using(crate::proofs::AnswerLemmas::sizes_of_blocks))]
pub(crate) fn part_frame(
    alloc: Global,
    range: ByteRange,
    blob: &Committed<Pieces>,
    len: u64,
    replaced: &Replacements<'_>,
) -> Result<Reply, AllocError>
    requires { len ≡ blocks_len blob.now.blocks }
    ensures { IfOk result (λ reply.
        reply ≡ frames.part_frame replaced.now range (committed_value pieces_len blob.now)) }
{
    let headers = part_headers(alloc, sent_range(range, len), blob, replaced)?;
    let part = range_end(range, len).saturating_sub(range.first);
    Ok(success_reply(alloc, Status::Partial, headers, part))
}
