//! Lines of entries.
ghost use Rattle.std.specs.Prelude.{◌≡◌, ◌++◌, OnOk, codes, decimal};
ghost use Rattle.access_rules.specs.TokenParts.{token_in};
ghost use Rattle.audit_lines.specs.Lines as lines;
ghost use Rattle.audit_lines.specs.Lines.{field, id_of, line_of};
ghost use Rattle.moment_text.specs.Civil.{time_at};
ghost use Rattle.moment_text.specs.Iso.{iso_text, to_fraction};

use crate::escaped::append_escaped;
use access_rules::{SignedBy, Way};
use itoa::Buffer;
use moment_text::write_iso;
use policy_book::Entry;
use sas_token::read_token;
use stamp_types::{Ask, Op, Text};
use std::alloc::{AllocError, Global};

// The word for a route.
#[tactic(auto, unfolding(crate::specs::Lines::way_word))]
fn way_word(way: Way) -> &'static str
    ensures { result.now ≡ lines.way_word way }
{
    match way {
        Way::Shared => "shared",
        Way::Token => "token",
        Way::Anonymous => "anonymous",
    }
}

// The word for an operation.
#[tactic(auto, unfolding(crate::specs::Lines::op_word))]
fn op_word(op: Op) -> &'static str
    ensures { result.now ≡ lines.op_word op }
{
    match op {
        Op::ListContainers => "ListContainers",
        Op::CreateContainer => "CreateContainer",
        Op::ContainerProperties => "ContainerProperties",
        Op::SetContainerMetadata => "SetContainerMetadata",
        Op::GetAcl => "GetAcl",
        Op::SetAcl => "SetAcl",
        Op::DeleteContainer => "DeleteContainer",
        Op::ListBlobs => "ListBlobs",
        Op::PutBlob => "PutBlob",
        Op::GetBlob => "GetBlob",
        Op::BlobProperties => "BlobProperties",
        Op::GetMetadata => "GetMetadata",
        Op::SetMetadata => "SetMetadata",
        Op::DeleteBlob => "DeleteBlob",
        Op::PutBlock => "PutBlock",
        Op::PutBlockList => "PutBlockList",
        Op::GetBlockList => "GetBlockList",
    }
}

// Appends a word and a space.
#[tactic(auto, unfolding(crate::specs::Lines::field))]
fn append_field(out: &mut Vec<u8>, word: &[u8]) -> Result<(), AllocError>
    ensures { OnOk result (out.new.items ≡ out.old.items ++ field word.now) }
{
    out.extend_from_slice(word)?;
    out.extend_from_slice(b" ")
}

// Appends a number in decimal.
fn append_number(out: &mut Vec<u8>, number: u64) -> Result<(), AllocError>
    ensures { OnOk result (out.new.items ≡ out.old.items ++ decimal number) }
{
    let mut digits = Buffer::new();
    out.extend_from_slice(digits.format(number).as_bytes())
}

// The key of the two that gives the signature that the request of the entry brings. 0 if there are no keys.
#[tactic(auto, using(crate::proofs::LineLemmas::first_number, crate::proofs::LineLemmas::other_number))]
fn key_number(entry: &Entry) -> u64
    ensures { result ≡ lines.key_number entry.now.revision.keys entry.now.request.ask }
{
    match entry.revision().keys() {
        None => 0,
        Some(_pair) => match entry.by() {
            SignedBy::First => 1,
            SignedBy::Second | SignedBy::Neither => 2,
        },
    }
}

// Appends the key that gives the signature.
fn append_key(out: &mut Vec<u8>, entry: &Entry) -> Result<(), AllocError>
    ensures { OnOk result (out.new.items ≡ out.old.items ++ lines.key_text entry.now.revision.keys entry.now.request.ask) }
{
    out.extend_from_slice(b"key")?;
    append_number(out, key_number(entry))
}

// The id of the stored policy that the token of the request names.
fn policy_id(ask: &Ask) -> &[u8]
    ensures { result.now ≡ id_of (token_in ask.now) }
{
    match read_token(&ask.signing.query) {
        Ok(token) => token.id,
        Err(_) => &[],
    }
}

// Appends the stored policy, or the key if the token names no policy.
fn append_policy(out: &mut Vec<u8>, id: &[u8], entry: &Entry) -> Result<(), AllocError>
    ensures { OnOk result (out.new.items
        ≡ out.old.items ++ lines.policy_text id.now entry.now.revision.keys entry.now.request.ask) }
{
    match id {
        [] => append_key(out, entry),
        [_, ..] => {
            out.extend_from_slice(b"policy=")?;
            append_escaped(out, id)
        }
    }
}

// Appends what the route of the entry allows the request by.
fn append_by(out: &mut Vec<u8>, entry: &Entry) -> Result<(), AllocError>
    ensures { OnOk result (out.new.items
        ≡ out.old.items ++ lines.by_text entry.now.way entry.now.revision.keys entry.now.request.ask) }
{
    match entry.way() {
        Way::Shared => append_key(out, entry),
        Way::Token => append_policy(out, policy_id(entry.request().ask()), entry),
        Way::Anonymous => out.extend_from_slice(b"-"),
    }
}

// Appends a slash and the name, escaped.
fn append_name(out: &mut Vec<u8>, name: &[u8]) -> Result<(), AllocError>
    ensures { OnOk result (out.new.items ≡ out.old.items ++ codes "/" ++ lines.escaped name.now) }
{
    out.extend_from_slice(b"/")?;
    append_escaped(out, name)
}

// Appends the blob, if the request names one.
fn append_blob(out: &mut Vec<u8>, blob: &Option<Text>) -> Result<(), AllocError>
    ensures { OnOk result (out.new.items ≡ out.old.items ++ lines.blob_in_path blob.now) }
{
    match blob {
        None => Ok(()),
        Some(name) => append_name(out, name.as_str().as_bytes()),
    }
}

// Appends account, container and blob.
fn append_path(out: &mut Vec<u8>, ask: &Ask) -> Result<(), AllocError>
    ensures { OnOk result (out.new.items ≡ out.old.items ++ lines.path_text ask.now) }
{
    append_name(out, ask.key.account.as_str().as_bytes())?;
    append_name(out, ask.key.container.as_str().as_bytes())?;
    append_blob(out, &ask.blob)
}

// Appends the moment and the route of the entry.
fn append_moment_and_way(alloc: Global, out: &mut Vec<u8>, entry: &Entry) -> Result<(), AllocError>
    ensures { OnOk result (out.new.items ≡ out.old.items
        ++ field (iso_text (to_fraction 7) (time_at entry.now.moment)) ++ field (lines.way_word entry.now.way)) }
{
    let text = write_iso(alloc, entry.moment())?;
    append_field(out, text.as_str().as_bytes())?;
    append_field(out, way_word(entry.way()).as_bytes())
}

// Appends the key or the policy, and a space.
#[tactic(auto, unfolding(crate::specs::Lines::field))]
fn append_by_field(out: &mut Vec<u8>, entry: &Entry) -> Result<(), AllocError>
    ensures { OnOk result (out.new.items
        ≡ out.old.items ++ field (lines.by_text entry.now.way entry.now.revision.keys entry.now.request.ask)) }
{
    append_by(out, entry)?;
    out.extend_from_slice(b" ")
}

// Appends the path, and a space.
#[tactic(auto, unfolding(crate::specs::Lines::field))]
fn append_path_field(out: &mut Vec<u8>, ask: &Ask) -> Result<(), AllocError>
    ensures { OnOk result (out.new.items ≡ out.old.items ++ field (lines.path_text ask.now)) }
{
    append_path(out, ask)?;
    out.extend_from_slice(b" ")
}

// Appends what the request of the entry is, and its place.
fn append_request(out: &mut Vec<u8>, entry: &Entry) -> Result<(), AllocError>
    ensures { OnOk result (out.new.items ≡ out.old.items ++ field (lines.op_word entry.now.request.ask.op)
        ++ field (lines.path_text entry.now.request.ask) ++ decimal entry.now.place ++ codes "\n") }
{
    let ask = entry.request().ask();
    append_field(out, op_word(ask.op).as_bytes())?;
    append_path_field(out, ask)?;
    append_number(out, entry.place())?;
    out.extend_from_slice(b"\n")
}

/// Appends the line of an entry: its moment, its route, the key or the stored policy that allowed it, the operation, the path, and the position,
/// with a space between each two, and a line feed at the end. No signature is made: the entry keeps which key gives it.
///
/// `AllocError` if memory runs out. Then some of the line may have been appended.
pub fn append_line(alloc: Global, out: &mut Vec<u8>, entry: &Entry) -> Result<(), AllocError>
    ensures { OnOk result (out.new.items ≡ out.old.items ++ line_of entry.now) }
{
    append_moment_and_way(alloc, out, entry)?;
    append_by_field(out, entry)?;
    append_request(out, entry)?;
    Ok(())
}
