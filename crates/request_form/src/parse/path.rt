//! What the parts of a path name.
ghost use Rattle.std.specs.Prelude.{◌≡◌, drop};
ghost use Rattle.request_form.specs.Targets.{account_of, after_account, container_of, blob_of, path_kind_of};

use crate::parse::marks::{after, before};
use crate::parse::path_kind::PathKind;

// The path after its first byte.
fn tail(path: &[u8]) -> &[u8]
    ensures { result.now ≡ drop 1 path.now }
{
    match path {
        [_, rest @ ..] => rest,
        [] => &[],
    }
}

/// The account that a path names, as it was sent: its first part.
#[tactic(auto, unfolding(crate::specs::Targets::account_of))]
pub(crate) fn account(path: &[u8]) -> &[u8]
    ensures { result.now ≡ account_of path.now }
{
    before(tail(path), b'/')
}

#[tactic(auto, unfolding(crate::specs::Targets::after_account))]
fn after_account(path: &[u8]) -> &[u8]
    ensures { result.now ≡ after_account path.now }
{
    after(tail(path), b'/')
}

/// The container that a path names, as it was sent: its second part.
#[tactic(auto, unfolding(crate::specs::Targets::container_of))]
pub(crate) fn container(path: &[u8]) -> &[u8]
    ensures { result.now ≡ container_of path.now }
{
    before(after_account(path), b'/')
}

/// The blob that a path names, as it was sent: all that follows the container, slashes too.
#[tactic(auto, unfolding(crate::specs::Targets::blob_of))]
pub(crate) fn blob(path: &[u8]) -> &[u8]
    ensures { result.now ≡ blob_of path.now }
{
    after(after_account(path), b'/')
}

/// What a path names, by how many parts it has. An empty last part does not count.
#[tactic(auto, unfolding(crate::specs::Targets::path_kind_of))]
pub(crate) fn kind(path: &[u8]) -> PathKind
    ensures { result ≡ path_kind_of path.now }
{
    if tail(path).is_empty() {
        PathKind::Root
    } else if after_account(path).is_empty() {
        PathKind::Account
    } else if blob(path).is_empty() {
        PathKind::Container
    } else {
        PathKind::Blob
    }
}
