//! What comes with a request.
ghost use Rattle.std.specs.Prelude.{◌≡◌, [], None};

use stamp_values::{BlockId, BlockKinds, ByteRange, Condition, Level, Metadata, Text, Visible};

/// The headers that a blob is to keep. A header that wasn't sent is empty, and so is the content
/// type: `Props::new` replaces an empty content type.
#[derive(PartialEq, Eq, Drop)]
pub struct Kept {
    pub content_type: Visible,
    pub encoding: Visible,
    pub language: Visible,
    pub cache_control: Visible,
    /// The value of x-ms-blob-content-md5 alone.
    pub md5: Option<[u8; 16]>,
}

/// The names that are to be listed ("List Containers", "List Blobs").
#[derive(PartialEq, Eq, Drop)]
pub struct Page {
    /// What each name begins with.
    pub prefix: Option<Text>,
    /// All names that are alike up to and including this text, after the prefix, are listed as one
    /// name.
    pub delimiter: Option<Text>,
    /// The point at which the page before this page ended.
    pub marker: Option<Text>,
    /// The largest number of names that are answered (`maxresults`).
    pub max: u32,
    /// Whether the metadata is also asked for (`include=metadata`).
    pub metadata: bool,
}

/// What comes with a request beside its path and its body. In a `Request`, nothing is here that the
/// operation has no use for.
#[derive(PartialEq, Eq, Drop)]
pub struct Args {
    pub if_match: Option<Condition>,
    pub if_none_match: Option<Condition>,
    /// The MD5 that the body is to have (Content-MD5).
    pub content_md5: Option<[u8; 16]>,
    pub range: Option<ByteRange>,
    pub kept: Option<Kept>,
    pub metadata: Metadata,
    pub level: Option<Level>,
    pub page: Option<Page>,
    /// The id of the block that is put.
    pub block: Option<BlockId>,
    /// The kinds of blocks that are listed.
    pub kinds: Option<BlockKinds>,
}

impl Args {
    /// Nothing comes with the request. Takes no memory.
    pub fn none() -> Self
        ensures conditions { (result.if_match ≡ None) × (result.if_none_match ≡ None) }
        ensures content_md5 { result.content_md5 ≡ None }
        ensures range { result.range ≡ None }
        ensures kept { result.kept ≡ None }
        ensures metadata { result.metadata ≡ [] }
        ensures level { result.level ≡ None }
        ensures page { result.page ≡ None }
        ensures block { result.block ≡ None }
        ensures kinds { result.kinds ≡ None }
    {
        Self {
            if_match: None,
            if_none_match: None,
            content_md5: None,
            range: None,
            kept: None,
            metadata: Metadata::empty(),
            level: None,
            page: None,
            block: None,
            kinds: None,
        }
    }
}
