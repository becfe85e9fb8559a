//! What a container has beside its blobs.

use stamp_values::{Acl, Metadata, Moment};

/// What a container has while it exists. `etag` is the count of its changes at which it was made,
/// or at which its metadata or its access was last set, and `made` is the moment of that change
/// (Last-Modified).
#[derive(Clone, PartialEq, Eq, Drop)]
pub struct Standing {
    pub etag: u64,
    pub made: Moment,
    pub metadata: Metadata,
    pub acl: Acl,
}
