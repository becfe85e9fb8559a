//! Header lines of replies.
ghost use Rattle.std.specs.Prelude.{◌≡◌, ◌++◌, OnOk, codes, decimal, flat_map};
ghost use Rattle.base64_text.specs.Base64.{base64_of};
ghost use Rattle.reply_form.specs.HeaderLines.{line, level_line, sent_range_text, reply_line};

use base64_text::base64_of_16;
use itoa::Buffer;
use moment_text::write_http;
use stamp_types::header_names::printed::{
    ACCEPT_RANGES, CACHE_CONTROL, CONTENT_DISPOSITION, CONTENT_ENCODING, CONTENT_LANGUAGE,
    CONTENT_MD5, CONTENT_TYPE, ETAG, LAST_MODIFIED,
};
use stamp_types::header_names::{BLOB_LENGTH, BLOB_PUBLIC_ACCESS, BLOB_TYPE, META_PREFIX};
use stamp_types::{Header, Level, Meta, SentRange, write_etag};
use std::alloc::AllocError;

/// Appends a line to `out`: the name, a colon and a space, the value, CR LF (RFC 9112, section 5).
///
/// `AllocError` if memory runs out.
#[tactic(auto, unfolding(crate::specs::HeaderLines::line))]
pub(crate) fn append_line(out: &mut Vec<u8>, name: &str, value: &[u8]) -> Result<(), AllocError>
    ensures { OnOk result (out.new.items ≡ out.old.items ++ line name.now value.now) }
{
    out.extend_from_slice(name.as_bytes())?;
    out.extend_from_slice(b": ")?;
    out.extend_from_slice(value)?;
    out.extend_from_slice(b"\r\n")
}

/// Appends a line to `out`. The line's value is a number in decimal.
///
/// `AllocError` if memory runs out.
pub(crate) fn append_number_line(
    out: &mut Vec<u8>,
    name: &str,
    number: u64,
) -> Result<(), AllocError>
    ensures { OnOk result (out.new.items ≡ out.old.items ++ line name.now (decimal number)) }
{
    let mut digits = Buffer::new();
    append_line(out, name, digits.format(number).as_bytes())
}

// The line of a name and value of the metadata. The name has a prefix.
#[tactic(auto, unfolding(crate::specs::HeaderLines::line))]
fn append_meta(out: &mut Vec<u8>, meta: &Meta) -> Result<(), AllocError>
    ensures { OnOk result
        (out.new.items
        ≡ out.old.items ++ line (codes "x-ms-meta-" ++ meta.now.name) meta.now.value) }
{
    out.extend_from_slice(META_PREFIX)?;
    append_line(out, meta.name.as_str(), meta.value.as_str().as_bytes())
}

// A mark, and after it a number in decimal.
fn append_marked(out: &mut Vec<u8>, mark: &str, number: u64) -> Result<(), AllocError>
    ensures { OnOk result (out.new.items ≡ out.old.items ++ mark.now ++ decimal number) }
{
    let mut digits = Buffer::new();
    out.extend_from_slice(mark.as_bytes())?;
    out.extend_from_slice(digits.format(number).as_bytes())
}

// The line that says which bytes of the blob are sent (RFC 9110, section 14.4).
#[tactic(auto, unfolding(crate::specs::HeaderLines::line))]
fn append_range(out: &mut Vec<u8>, range: SentRange) -> Result<(), AllocError>
    ensures { OnOk result
        (out.new.items ≡ out.old.items ++ line (codes "Content-Range") (sent_range_text range)) }
{
    append_marked(out, "Content-Range: bytes ", range.first)?;
    append_marked(out, "-", range.last)?;
    append_marked(out, "/", range.total)?;
    out.extend_from_slice(b"\r\n")
}

// The line of the level of a container. A closed container has no line.
fn append_level(out: &mut Vec<u8>, level: Level) -> Result<(), AllocError>
    ensures { OnOk result (out.new.items ≡ out.old.items ++ level_line level) }
{
    match level {
        Level::Closed => Ok(()),
        Level::Blob => append_line(out, BLOB_PUBLIC_ACCESS, b"blob"),
        Level::Container => append_line(out, BLOB_PUBLIC_ACCESS, b"container"),
    }
}

// The line of an MD5 (RFC 1864).
fn append_md5(out: &mut Vec<u8>, md5: &[u8; 16]) -> Result<(), AllocError>
    ensures { OnOk result
        (out.new.items ≡ out.old.items ++ line (codes "Content-MD5") (base64_of md5.now)) }
{
    append_line(out, CONTENT_MD5, &base64_of_16(md5))
}

/// Appends a header's line to `out`. The level of a closed container has no line.
///
/// `AllocError` if memory runs out.
pub(crate) fn append_header(out: &mut Vec<u8>, header: &Header) -> Result<(), AllocError>
    ensures { OnOk result (out.new.items ≡ out.old.items ++ reply_line header.now) }
{
    match header {
        Header::ContentType(value) => append_line(out, CONTENT_TYPE, value.as_str().as_bytes()),
        Header::ContentEncoding(value) => {
            append_line(out, CONTENT_ENCODING, value.as_str().as_bytes())
        }
        Header::ContentLanguage(value) => {
            append_line(out, CONTENT_LANGUAGE, value.as_str().as_bytes())
        }
        Header::ContentMd5(md5) => append_md5(out, md5),
        Header::CacheControl(value) => append_line(out, CACHE_CONTROL, value.as_str().as_bytes()),
        Header::ContentDisposition(value) => {
            append_line(out, CONTENT_DISPOSITION, value.as_str().as_bytes())
        }
        Header::ContentRange(range) => append_range(out, *range),
        Header::Meta(meta) => append_meta(out, meta),
        Header::BlobType => append_line(out, BLOB_TYPE, b"BlockBlob"),
        Header::AcceptRanges => append_line(out, ACCEPT_RANGES, b"bytes"),
        Header::PublicAccess(level) => append_level(out, *level),
        Header::BlobLength(length) => append_number_line(out, BLOB_LENGTH, *length),
        Header::Etag(count) => append_line(out, ETAG, &write_etag(*count)),
        Header::LastModified(moment) => append_line(out, LAST_MODIFIED, &write_http(*moment)),
    }
}

/// Appends the lines of the headers to `out`, in the order of the headers.
///
/// `AllocError` if memory runs out.
pub(crate) fn append_headers(out: &mut Vec<u8>, headers: &[Header]) -> Result<(), AllocError>
    ensures { OnOk result (out.new.items ≡ out.old.items ++ flat_map reply_line headers.now) }
{
    for header in headers {
        append_header(out, header)?;
    }
    Ok(())
}
