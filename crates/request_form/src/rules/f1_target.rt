//! Rule F1: the request target.
ghost use Rattle.std.specs.Prelude.{◌≡◌, ◌≤◌, ◌==◌, ◌++◌, ◌∷◌, [], IfOk, MatchOption, OnOk, false, true, length, map, filter, not, take, drop, bytes_eq, codes, IsTrue, IsUtf8, slice_index};
ghost use Rattle.std.specs.List.{position_or_len, prefix_len};
ghost use Rattle.http_uri.specs.Uri.{uri_data};
ghost use Rattle.stamp_values.specs.Ascii.{number_sign, slash};
ghost use Rattle.request_form.specs.Targets.{address_limit, lowered, is_in_authority, origin_of, is_origin, path_of, query_text, query_of, target_of, parameter_of, is_nothing, pieces_of};

use crate::parse::marks::{after, before, position};
use http_uri::{Uri, UriError};
use name_rules::decoded;
use stamp_types::{Bytes, FieldList};
use std::alloc::{AllocError, Global};

/// A request target as it is read.
#[derive(Drop)]
pub struct Target {
    /// The path as it was sent, up to the first `?`.
    pub path: Bytes,
    /// The parameters in the order sent, each decoded: names in lower case.
    pub query: FieldList,
}

// How many bytes of an authority there are before the first other byte.
fn authority_len(bytes: &[u8]) -> usize
    ensures value { result ≡ prefix_len is_in_authority bytes.now }
    ensures bound { result ≤ length bytes.now }
{
    for (i, byte) in bytes.iter().enumerate() {
        if matches!(*byte, b'/' | b'?' | b'#') {
            return i;
        }
    }
    bytes.len()
}

// Whether the target begins with `http://`, in any case.
fn has_scheme(target: &[u8]) -> bool
    ensures value { result ≡ bytes_eq (lowered (take 7 target.now)) (codes "http://") }
    ensures long { IsTrue result → 7 ≤ length target.now }
{
    match target.get(..7) {
        Some(scheme) => scheme.eq_ignore_ascii_case(b"http://"),
        None => false,
    }
}

// The origin form of a target: what follows the authority of an absolute address, or else the target itself
// (RFC 9112, sections 3.2.1 and 3.2.2).
#[tactic(auto, unfolding(crate::specs::Targets::origin_of, crate::specs::Targets::authority_len))]
fn origin(target: &[u8]) -> &[u8]
    ensures value { result.now ≡ origin_of target.now }
    ensures short { length result.now ≤ length target.now }
    ensures utf8 { IsUtf8 target.now → IsUtf8 result.now }
{
    if !has_scheme(target) {
        return target;
    }
    let len = authority_len(&target[7..]);
    if len == 0 {
        return target;
    }
    &target[7 + len..]
}

// The address that a text spells which begins with `/` and has no `#`: the whole text is the address's path and query.
fn spelled(alloc: Global, origin: &[u8]) -> Result<Option<Uri>, AllocError>
    requires start { slice_index origin.now 0 ≡ slash }
    requires unsigned { position_or_len (λ b. b == number_sign) origin.now ≡ length origin.now }
    requires short { length origin.now ≤ address_limit }
    requires utf8 { IsUtf8 origin.now }
    ensures { IfOk result (λ o. MatchOption o (is_origin origin.now ≡ false)
        (λ a. (is_origin origin.now ≡ true) × (uri_data a ≡ origin.now))) }
{
    match Uri::from_bytes(alloc, origin) {
        Ok(address) => Ok(Some(address)),
        Err(UriError::Invalid(_)) => Ok(None),
        Err(UriError::OutOfMemory) => Err(AllocError),
    }
}

// The address of a text that is an origin form: the text begins with `/` and has only bytes of a path and a query (RFC 9112, section 3.2.1;
// RFC 3986, section 3). So it is not `*`, and it has no fragment.
#[tactic(auto, using(crate::proofs::TargetLemmas::is_origin_signed), unfolding(crate::specs::Targets::is_origin))]
fn address(alloc: Global, origin: &[u8]) -> Result<Option<Uri>, AllocError>
    requires short { length origin.now ≤ address_limit }
    requires utf8 { IsUtf8 origin.now }
    ensures { IfOk result (λ o. MatchOption o (is_origin origin.now ≡ false)
        (λ a. (is_origin origin.now ≡ true) × (uri_data a ≡ origin.now))) }
{
    // The reader of addresses takes `*`, and leaves out a fragment without an error.
    if origin.first() != Some(&b'/') || position(origin, b'#') < origin.len() {
        return Ok(None);
    }
    spelled(alloc, origin)
}

// The path of an origin form, as it was sent.
#[tactic(auto, using(crate::proofs::TargetLemmas::path_of_address))]
fn path(alloc: Global, address: &Uri) -> Result<Bytes, AllocError>
    requires { is_origin (uri_data address.now) ≡ true }
    ensures { IfOk result (λ b. b ≡ path_of (uri_data address.now)) }
{
    Ok(Bytes::new(address.path().as_bytes().to_vec(alloc)?))
}

// The query of an address, as it was sent; no bytes if it has no query.
#[tactic(auto, using(crate::proofs::TargetLemmas::query_text_some, crate::proofs::TargetLemmas::query_text_none))]
fn query_text(address: &Uri) -> &str
    ensures { result.now ≡ query_text (uri_data address.now) }
{
    match address.query() {
        Some(text) => text,
        None => "",
    }
}

// Puts the parameter of a piece at the end: the piece is cut at its first `=`, and each side is decoded.
fn push_parameter(alloc: Global, parameters: &mut FieldList, piece: &[u8]) -> Result<(), AllocError>
    ensures { OnOk result (parameters.new ≡ parameters.old ++ parameter_of piece.now ∷ []) }
{
    let name = decoded(alloc, before(piece, b'='))?;
    let value = decoded(alloc, after(piece, b'='))?;
    parameters.push(&name, &value)
}

// The parameters in the order sent. An empty piece between two `&` is not a parameter.
fn read_parameters(alloc: Global, query: &[u8]) -> Result<FieldList, AllocError>
    ensures { IfOk result (λ q.
        q ≡ map parameter_of (filter (λ piece. not (is_nothing piece)) (pieces_of query.now))) }
{
    let mut parameters = FieldList::new(alloc);
    for piece in query.split(|b| *b == b'&') {
        if !piece.is_empty() {
            push_parameter(alloc, &mut parameters, piece)?;
        }
    }
    Ok(parameters)
}

#[tactic(auto, unfolding(crate::specs::Targets::query_of))]
fn query(alloc: Global, address: &Uri) -> Result<FieldList, AllocError>
    ensures { IfOk result (λ q. q ≡ query_of (uri_data address.now)) }
{
    read_parameters(alloc, query_text(address).as_bytes())
}

/// The path and the parameters of a target, by rule F1: `None` if the target has no origin form.
///
/// `AllocError` if memory runs out.
#[tactic(auto, unfolding(crate::specs::Targets::target_of))]
pub(crate) fn read_target(alloc: Global, target: &[u8]) -> Result<Option<Target>, AllocError>
    requires short { length target.now ≤ address_limit }
    requires utf8 { IsUtf8 target.now }
    ensures { IfOk result (λ o. MatchOption o (is_origin (origin_of target.now) ≡ false)
        (λ t. (is_origin (origin_of target.now) ≡ true) × (t ≡ target_of target.now))) }
{
    let Some(address) = address(alloc, origin(target))? else {
        return Ok(None);
    };
    let path = path(alloc, &address)?;
    let query = query(alloc, &address)?;
    Ok(Some(Target { path, query }))
}
