//! Replies to Get Container ACL.
ghost use Rattle.std.specs.Prelude.{◌≡◌, ◌∷◌, ◌++◌, IfOk, OnOk};
ghost use Rattle.stamp_types.specs.Replies.{xml_header};
ghost use Rattle.range_rows.specs.Frames as frames;

use crate::frames::push_dates;
use body_forms::write_policies;
use stamp_types::{Header, Level, Reply, Standing, Visible, text_reply};
use std::alloc::{AllocError, Global};

// Puts the level of a container after the headers. A closed container has no such header.
fn push_level(headers: &mut Vec<Header>, level: Level) -> Result<(), AllocError>
    ensures { OnOk result
        (headers.new.items ≡ headers.old.items ++ frames.level_headers level) }
{
    if level != Level::Closed {
        headers.push(Header::PublicAccess(level))?;
    }
    Ok(())
}

// The headers of the reply: the type of its body, the level, which change wrote the container, and
// when.
fn acl_headers(alloc: Global, standing: &Standing) -> Result<Vec<Header>, AllocError>
    ensures { IfOk result (λ headers. headers.items
        ≡ xml_header ∷ frames.level_headers standing.now.acl.level
        ++ frames.date_headers standing.now.etag standing.now.made) }
{
    let mut headers = Vec::with_capacity(alloc, 4)?;
    headers.push(Header::ContentType(Visible::xml(alloc)?))?;
    push_level(&mut headers, standing.acl.level)?;
    push_dates(&mut headers, standing.etag, standing.made)?;
    Ok(headers)
}

/// The reply to Get Container ACL, from what the container has beside its blobs.
///
/// `AllocError` if memory runs out.
pub(crate) fn acl_reply(alloc: Global, standing: &Standing) -> Result<Reply, AllocError>
    ensures { IfOk result (λ reply. reply ≡ frames.acl_frame standing.now) }
{
    let headers = acl_headers(alloc, standing)?;
    let text = write_policies(alloc, &standing.acl.policies)?;
    let reply = text_reply(alloc, headers, text)?;
    Ok(reply)
}
