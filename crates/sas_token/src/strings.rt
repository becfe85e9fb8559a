//! The string to sign of a token.
ghost use Rattle.std.specs.Prelude.{◌≡◌, ◌≢◌, ◌++◌, ◌∷◌, [], IfOk, OnOk, IsSome, Option};
ghost use Rattle.std.specs.Option.{option_map};
ghost use Rattle.stamp_values.specs.Ascii.{line_feed};
ghost use Rattle.sas_token.specs.declared.token.Resource.TheVariants.{Blob};
ghost use Rattle.sas_token.specs.Tokens.{blob_text, front_string, back_string, overrides_text, resource_text, token_string};

use crate::reader::has_overrides;
use crate::token::{Overrides, Resource, Token};
use stamp_values::{Key, Text};
use std::alloc::{AllocError, Global};

// Puts the text and a line feed at the end.
fn append_line(out: &mut Vec<u8>, text: &[u8]) -> Result<(), AllocError>
    ensures { OnOk result (out.new.items ≡ out.old.items ++ (text.now ++ line_feed ∷ [])) }
{
    out.extend_from_slice(text)?;
    out.push(b'\n')?;
    Ok(())
}

// Puts a slash and the name at the end.
fn append_name(out: &mut Vec<u8>, name: &[u8]) -> Result<(), AllocError>
    ensures { OnOk result (out.new.items ≡ out.old.items ++ 47 ∷ name.now) }
{
    out.push(b'/')?;
    out.extend_from_slice(name)?;
    Ok(())
}

// Puts the blob's name with a slash before it at the end, if the token is for a blob.
fn append_blob(out: &mut Vec<u8>, resource: Resource, blob: Option<&Text>) -> Result<(), AllocError>
    ensures { OnOk result (out.new.items
        ≡ out.old.items ++ blob_text resource (option_map (λ b. b.now) blob.entry)) }
{
    match (resource, blob) {
        (Resource::Blob, Some(name)) => append_name(out, name.as_str().as_bytes()),
        _ => Ok(()),
    }
}

// Puts the line of the resource at the end.
fn append_resource(
    out: &mut Vec<u8>,
    resource: Resource,
    key: &Key,
    blob: Option<&Text>,
) -> Result<(), AllocError>
    ensures { OnOk result (out.new.items
        ≡ out.old.items ++ resource_text resource key.now (option_map (λ b. b.now) blob.entry)) }
{
    append_name(out, key.account.as_str().as_bytes())?;
    append_name(out, key.container.as_str().as_bytes())?;
    append_blob(out, resource, blob)?;
    Ok(())
}

// Puts the lines of the permissions, the start and the expiry at the end.
fn append_times(out: &mut Vec<u8>, token: &Token<'_>) -> Result<(), AllocError>
    ensures { OnOk result (out.new.items
        ≡ out.old.items ++ (token.now.permissions ++ line_feed ∷ (token.now.start_text
        ++ line_feed ∷ (token.now.expiry_text ++ line_feed ∷ [])))) }
{
    append_line(out, token.permissions)?;
    append_line(out, token.start_text)?;
    append_line(out, token.expiry_text)?;
    Ok(())
}

// Puts a line feed and the text at the end.
fn append_after_line(out: &mut Vec<u8>, text: &[u8]) -> Result<(), AllocError>
    ensures { OnOk result (out.new.items ≡ out.old.items ++ line_feed ∷ text.now) }
{
    out.push(b'\n')?;
    out.extend_from_slice(text)?;
    Ok(())
}

// Puts the lines of cache control, disposition and encoding at the end.
fn append_first_overrides(out: &mut Vec<u8>, overrides: &Overrides<'_>) -> Result<(), AllocError>
    ensures { OnOk result (out.new.items
        ≡ out.old.items ++ (line_feed ∷ overrides.now.cache_control
        ++ line_feed ∷ overrides.now.disposition ++ line_feed ∷ overrides.now.encoding)) }
{
    append_after_line(out, overrides.cache_control)?;
    append_after_line(out, overrides.disposition)?;
    append_after_line(out, overrides.encoding)?;
    Ok(())
}

// Puts the texts that replace headers at the end, each after a line feed.
#[tactic(auto, unfolding(crate::specs::Tokens::overrides_text))]
fn append_overrides(out: &mut Vec<u8>, overrides: &Overrides<'_>) -> Result<(), AllocError>
    ensures { OnOk result (out.new.items ≡ out.old.items ++ overrides_text overrides.now) }
{
    append_first_overrides(out, overrides)?;
    append_after_line(out, overrides.language)?;
    append_after_line(out, overrides.content_type)?;
    Ok(())
}

// Puts what the string has after its version at the end.
fn append_by_version(out: &mut Vec<u8>, token: &Token<'_>) -> Result<(), AllocError>
    ensures { OnOk result (out.new.items ≡ out.old.items ++ back_string token.now) }
{
    if has_overrides(token.version) {
        append_overrides(out, &token.overrides)
    } else {
        Ok(())
    }
}

// The lines that the strings of both versions have.
#[tactic(auto, unfolding(crate::specs::Tokens::front_string))]
fn front_string(
    alloc: Global,
    token: &Token<'_>,
    key: &Key,
    blob: Option<&Text>,
) -> Result<Vec<u8>, AllocError>
    requires container { key.now.container ≢ [] }
    requires name { token.now.resource ≡ Blob → IsSome blob }
    ensures { IfOk result (λ string.
        string.items ≡ front_string token.now key.now (option_map (λ b. b.now) blob.entry)) }
{
    let mut out = Vec::new(alloc);
    append_times(&mut out, token)?;
    append_resource(&mut out, token.resource, key, blob)?;
    out.push(b'\n')?;
    append_line(&mut out, token.id)?;
    out.extend_from_slice(token.version)?;
    Ok(out)
}

/// The string that the maker of a token signed: permissions, start, expiry, resource, id and version, each as it was sent, decoded,
/// with a line feed between two. In the newer version the texts that replace headers follow, each after a line feed.
///
/// The resource is the container of the key, or if the token is for a blob, the blob of this name in the container. `AllocError` if
/// memory runs out. Blob service REST reference, 2012-02-12 and 2013-08-15, Delegating Access with a Shared Access Signature.
#[tactic(auto, unfolding(crate::specs::Tokens::token_string))]
pub fn token_string(
    alloc: Global,
    token: &Token<'_>,
    key: &Key,
    blob: Option<&Text>,
) -> Result<Vec<u8>, AllocError>
    requires container { key.now.container ≢ [] }
    requires name { token.now.resource ≡ Blob → IsSome blob }
    ensures { IfOk result (λ string.
        string.items ≡ token_string token.now key.now (option_map (λ b. b.now) blob.entry)) }
{
    let mut out = front_string(alloc, token, key, blob)?;
    append_by_version(&mut out, token)?;
    Ok(out)
}
