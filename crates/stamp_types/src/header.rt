//! Header lines of replies.

use crate::sent_range::SentRange;
use stamp_values::{Level, Meta, Moment, Visible};

/// A header line of a reply, by its name, with what its value is made of. Date, x-ms-version,
/// x-stamp-rule, Connection and Content-Length aren't among these headers: they are written from
/// the moment, the rule, the connection and the length.
#[derive(Clone, PartialEq, Eq, Drop)]
pub enum Header {
    ContentType(Visible),
    ContentEncoding(Visible),
    ContentLanguage(Visible),
    /// The 16 bytes of the MD5, which are written in Base64.
    ContentMd5([u8; 16]),
    CacheControl(Visible),
    ContentDisposition(Visible),
    ContentRange(SentRange),
    /// `x-ms-meta-`, the name; and the value.
    Meta(Meta),
    /// `x-ms-blob-type: BlockBlob`.
    BlobType,
    /// `Accept-Ranges: bytes`.
    AcceptRanges,
    /// `x-ms-blob-public-access`.
    PublicAccess(Level),
    /// `x-ms-blob-content-length`, in bytes.
    BlobLength(u64),
    /// The count whose ETag is written.
    Etag(u64),
    LastModified(Moment),
}
