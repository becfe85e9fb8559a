//! The string to sign of a request.
ghost use Rattle.std.specs.Prelude.{◌≡◌, ◌++◌, IfOk, OnOk, min};
ghost use Rattle.shared_key.specs.Rooms.{fields_room, room_of};
ghost use Rattle.shared_key.specs.Strings.{key_string, verb_text, canonicalized_resource};

use crate::{headers, query};
use stamp_values::{FieldList, Signing, Verb};
use std::alloc::{AllocError, Global};

fn verb_text(verb: Verb) -> &'static str
    ensures { result.now ≡ verb_text verb }
{
    match verb {
        Verb::Get => "GET",
        Verb::Head => "HEAD",
        Verb::Put => "PUT",
        Verb::Delete => "DELETE",
    }
}

// The room for fields, each with a colon and a line feed, or the greatest `usize` if they need more.
fn fields_room(fields: &FieldList) -> usize
    ensures { result ≡ min (fields_room fields.now) usize.MAX }
{
    fields
        .bytes_len()
        .saturating_add(fields.len().saturating_mul(2))
}

// The room for the string. It is at least the length of the string, so the string is put together in one allocation.
fn room(signing: &Signing, account: &[u8]) -> usize
    ensures { result ≡ min (room_of signing.now account.now) usize.MAX }
{
    fields_room(&signing.headers)
        .saturating_add(fields_room(&signing.query))
        .saturating_add(account.len())
        .saturating_add(signing.path.as_slice().len())
        .saturating_add(32)
}

fn write_resource(
    alloc: Global,
    out: &mut Vec<u8>,
    signing: &Signing,
    account: &[u8],
) -> Result<(), AllocError>
    ensures { OnOk result (out.new.items
        ≡ out.old.items ++ canonicalized_resource signing.now account.now) }
{
    out.push(b'/')?;
    out.extend_from_slice(account)?;
    out.extend_from_slice(signing.path.as_slice())?;
    query::write_canonicalized(alloc, out, &signing.query)
}

/// The string to sign of Shared Key (Blob service REST reference, 2012-02-12, Authentication for the
/// Azure Storage Services, versions 2009-09-19 and later).
///
/// Values are bytes and need not be a text. Each value of a header is written without the spaces and tabs at its ends, and
/// nothing is decoded. If a header name was sent twice, its first value counts. `AllocError` if memory runs out.
#[tactic(auto, unfolding(crate::specs::Strings::key_string))]
pub fn key_string(alloc: Global, signing: &Signing, account: &[u8]) -> Result<Vec<u8>, AllocError>
    ensures { IfOk result (λ string. string.items ≡ key_string signing.now account.now) }
{
    let mut out = Vec::with_capacity(alloc, room(signing, account))?;
    out.extend_from_slice(verb_text(signing.verb).as_bytes())?;
    out.push(b'\n')?;
    headers::write_standard(&mut out, &signing.headers)?;
    headers::write_canonicalized(alloc, &mut out, &signing.headers)?;
    write_resource(alloc, &mut out, signing, account)?;
    Ok(out)
}
