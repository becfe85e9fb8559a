//! Rule F5: the good names of a path.
ghost use Rattle.std.specs.Prelude.{◌≡◌, ◌&&◌, IfOk, MatchOption, not, false, true};
ghost use Rattle.stamp_values.specs.Names.{is_container};
ghost use Rattle.stamp_values.specs.Operations.{names_container};
ghost use Rattle.stamp_values.specs.Texts.{is_visible};
ghost use Rattle.request_form.specs.HeadForms.{container_by, key_by};
ghost use Rattle.request_form.specs.HeadReads.{AreNames, IsBlobName};
ghost use Rattle.request_form.specs.HeadRules.{has_bad_key, has_bad_name};
ghost use Rattle.request_form.specs.Targets.{container_of};

use crate::parse::path;
use crate::parse::texts::visible;
use name_rules::{NameFault, account_ok, blob_text, container_ok};
use stamp_types::{Key, Op, Text};
use std::alloc::{AllocError, Global};

/// The names of a path, which are good.
#[derive(Drop)]
pub struct Names {
    pub key: Key,
    pub blob: Option<Text>,
}

/// What a path has of the name of a blob.
#[derive(Drop)]
pub enum BlobName {
    /// The operation does not name a blob.
    NotAsked,
    /// The name, decoded.
    Good(Text),
    /// The name is not good.
    Bad,
}

// The key of two names, if both are visible.
fn key(alloc: Global, account: &[u8], container: &[u8]) -> Result<Option<Key>, AllocError>
    ensures { IfOk result (λ o. MatchOption o
        ((is_visible account.now && is_visible container.now) ≡ false)
        (λ k. k ≡ record { account = account.now; container = container.now })) }
{
    let Some(account) = visible(alloc, account)? else {
        return Ok(None);
    };
    let Some(container) = visible(alloc, container)? else {
        return Ok(None);
    };
    Ok(Some(Key {
        account: account.into_text(),
        container: container.into_text(),
    }))
}

// The name of the container of a path, or no bytes if the operation names no container. `None` if the operation names a container
// whose name is not good.
fn container_name(op: Op, path: &[u8]) -> Option<&[u8]>
    ensures { MatchOption result
        ((names_container op && not (is_container (container_of path.now))) ≡ true)
        (λ name. ((names_container op && not (is_container (container_of path.now))) ≡ false)
        × (name.now ≡ container_by op path.now)) }
{
    if !op.names_container() {
        return Some(b"");
    }
    let container = path::container(path);
    if container_ok(container) {
        Some(container)
    } else {
        None
    }
}

// The key that the operation names by a path, if it is good.
fn good_key(alloc: Global, op: Op, path: &[u8]) -> Result<Option<Key>, AllocError>
    ensures { IfOk result (λ o. MatchOption o (has_bad_key op path.now ≡ true)
        (λ k. (has_bad_key op path.now ≡ false) × (k ≡ key_by op path.now))) }
{
    let account = path::account(path);
    if !account_ok(account) {
        return Ok(None);
    }
    let Some(container) = container_name(op, path) else {
        return Ok(None);
    };
    match key(alloc, account, container)? {
        Some(key) => Ok(Some(key)),
        None => Ok(None),
    }
}

// The name of the blob, if the operation names a blob.
fn blob_name(alloc: Global, op: Op, path: &[u8]) -> Result<BlobName, AllocError>
    ensures { IfOk result (IsBlobName op path.now) }
{
    if !op.names_blob() {
        return Ok(BlobName::NotAsked);
    }
    match blob_text(alloc, path::blob(path)) {
        Ok(name) => Ok(BlobName::Good(name)),
        Err(NameFault::NoMemory) => Err(AllocError),
        Err(_) => Ok(BlobName::Bad),
    }
}

/// The key and the blob that the operation names by a path, by rule F5: `None` if the name of the account is not good, or the name of
/// a container or a blob that the operation names.
///
/// `AllocError` if memory runs out.
#[tactic(auto, unfolding(crate::specs::HeadRules::has_bad_name))]
pub(crate) fn read_names(alloc: Global, op: Op, path: &[u8]) -> Result<Option<Names>, AllocError>
    ensures { IfOk result (λ o.
        MatchOption o (has_bad_name op path.now ≡ true) (AreNames op path.now)) }
{
    let Some(key) = good_key(alloc, op, path)? else {
        return Ok(None);
    };
    let blob = match blob_name(alloc, op, path)? {
        BlobName::NotAsked => None,
        BlobName::Good(name) => Some(name),
        BlobName::Bad => return Ok(None),
    };
    Ok(Some(Names { key, blob }))
}
