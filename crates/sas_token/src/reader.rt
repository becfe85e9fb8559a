//! Reads a token out of a query.
ghost use Rattle.std.specs.Prelude.{◌≡◌, ◌≢◌, ◌↔◌, ℕ, IfOk, IfSome, IfNone, IsTrue, MatchResult, Ok, Err, Option, Some, codes};
ghost use Rattle.std.specs.List.{list_any};
ghost use Rattle.std.specs.Result.{result_ok};
ghost use Rattle.stamp_values.specs.Fields.{is_sent_twice};
ghost use Rattle.stamp_values.specs.Letters.{Permissions};
ghost use Rattle.sas_token.specs.declared.fault.TokenFault.{TokenFault as Fault};
ghost use Rattle.sas_token.specs.declared.token.Resource.{Resource as Kind};
ghost use Rattle.sas_token.specs.Tokens.{Sent, IsToken, IsFault, GivesLetters, GivesTime, are_visible, has_overrides, is_served, no_overrides, override_names, overrides_for, overrides_in, overrides_twice, parameter_names, resource_letter, text_under};
ghost use Rattle.sas_token.specs.TokenReading.{replaced_headers, token_of};

use crate::fault::TokenFault;
use crate::token::{Overrides, Resource, Token};
use moment_text::read_iso;
use stamp_values::{FieldList, Letters, Moment, is_visible};

const SERVED_VERSION: &[u8] = b"2012-02-12";

/// The version whose tokens may replace headers of the reply.
const NEWER_VERSION: &[u8] = b"2013-08-15";

/// Whether tokens of this version may replace headers of the reply.
pub(crate) fn has_overrides(version: &[u8]) -> bool
    ensures { result ≡ has_overrides version.now }
{
    version == NEWER_VERSION
}

fn is_served(version: &[u8]) -> bool
    ensures { result ≡ is_served version.now }
{
    version == SERVED_VERSION || has_overrides(version)
}

// Whether one of the seven parameters was sent more than once.
fn is_any_sent_twice(query: &FieldList) -> bool
    ensures { result ≡ list_any (is_sent_twice query.now) parameter_names }
{
    query.is_sent_twice(b"sv")
        || query.is_sent_twice(b"sr")
        || query.is_sent_twice(b"sp")
        || query.is_sent_twice(b"st")
        || query.is_sent_twice(b"se")
        || query.is_sent_twice(b"si")
        || query.is_sent_twice(b"sig")
}

// Whether one of the parameters that replace headers was sent more than once.
fn is_any_override_sent_twice(query: &FieldList) -> bool
    ensures { result ≡ list_any (is_sent_twice query.now) override_names }
{
    query.is_sent_twice(b"rscc")
        || query.is_sent_twice(b"rscd")
        || query.is_sent_twice(b"rsce")
        || query.is_sent_twice(b"rscl")
        || query.is_sent_twice(b"rsct")
}

// The same, if tokens of the query's version may replace headers.
fn has_override_twice(query: &FieldList) -> bool
    ensures { result ≡ overrides_twice query.now (text_under query.now (codes "sv")) }
{
    has_overrides(text_under(query, b"sv")) && is_any_override_sent_twice(query)
}

// The text under a name, or the empty text if none was sent.
fn text_under<'a>(query: &'a FieldList, name: &[u8]) -> &'a [u8]
    ensures { result.now ≡ text_under query.now name.now }
{
    match query.first(name) {
        Some(text) => text,
        None => &[],
    }
}

fn overrides_in(query: &FieldList) -> Overrides<'_>
    ensures { result ≡ overrides_in query.now }
{
    Overrides {
        cache_control: text_under(query, b"rscc"),
        disposition: text_under(query, b"rscd"),
        encoding: text_under(query, b"rsce"),
        language: text_under(query, b"rscl"),
        content_type: text_under(query, b"rsct"),
    }
}

// No header is replaced.
fn no_overrides<'a>() -> Overrides<'a>
    ensures { result ≡ no_overrides }
{
    Overrides {
        cache_control: &[],
        disposition: &[],
        encoding: &[],
        language: &[],
        content_type: &[],
    }
}

// What a token of this version replaces.
fn overrides_for<'a>(query: &'a FieldList, version: &[u8]) -> Overrides<'a>
    ensures { result ≡ overrides_for query.now version.now }
{
    if has_overrides(version) {
        overrides_in(query)
    } else {
        no_overrides()
    }
}

fn are_visible(overrides: &Overrides<'_>) -> bool
    ensures { result ≡ are_visible overrides.now }
{
    is_visible(overrides.cache_control)
        && is_visible(overrides.disposition)
        && is_visible(overrides.encoding)
        && is_visible(overrides.language)
        && is_visible(overrides.content_type)
}

fn read_resource(letter: &[u8]) -> Option<Resource>
    ensures read { IfSome result (λ r. letter.now ≡ resource_letter r) }
    ensures refused { IfNone result ((r : Kind) → letter.now ≢ resource_letter r) }
{
    if letter == b"b".as_slice() {
        return Some(Resource::Blob);
    }
    if letter == b"c".as_slice() {
        return Some(Resource::Container);
    }
    None
}

// The permissions of a text, if it gives any. `None` if the text is not letters in their order.
fn read_letters(text: &[u8]) -> Option<Option<Letters>>
    ensures read { IfSome result (λ p. GivesLetters text.now p) }
    ensures refused { IfNone result ((p : Option Permissions) → ¬ GivesLetters text.now p) }
{
    if text.is_empty() {
        return Some(None);
    }
    match Letters::read(text) {
        Some(letters) => Some(Some(letters)),
        None => None,
    }
}

// The moment that a text names, if it names one. `None` if the text is not a time.
fn read_time(text: &[u8]) -> Option<Option<Moment>>
    ensures read { IfSome result (λ m. GivesTime text.now m) }
    ensures refused { IfNone result ((m : Option ℕ) → ¬ GivesTime text.now m) }
{
    if text.is_empty() {
        return Some(None);
    }
    match read_iso(text) {
        Ok(moment) => Some(Some(moment)),
        Err(_) => None,
    }
}

fn read(query: &FieldList) -> Result<Token<'_>, TokenFault>
    ensures { MatchResult result (IsToken query.now) (IsFault query.now) }
{
    if is_any_sent_twice(query) || has_override_twice(query) {
        return Err(TokenFault::Twice);
    }
    let Some(version) = query.first(b"sv") else {
        return Err(TokenFault::Missing);
    };
    let Some(letter) = query.first(b"sr") else {
        return Err(TokenFault::Missing);
    };
    let Some(signature) = query.first(b"sig") else {
        return Err(TokenFault::Missing);
    };
    if !is_served(version) {
        return Err(TokenFault::Version);
    }
    let Some(resource) = read_resource(letter) else {
        return Err(TokenFault::Resource);
    };
    let permissions = text_under(query, b"sp");
    let Some(letters) = read_letters(permissions) else {
        return Err(TokenFault::Letters);
    };
    let start_text = text_under(query, b"st");
    let Some(start) = read_time(start_text) else {
        return Err(TokenFault::Time);
    };
    let expiry_text = text_under(query, b"se");
    let Some(expiry) = read_time(expiry_text) else {
        return Err(TokenFault::Time);
    };
    let overrides = overrides_for(query, version);
    if !are_visible(&overrides) {
        return Err(TokenFault::Header);
    }
    Ok(Token {
        version,
        resource,
        permissions,
        start_text,
        expiry_text,
        id: text_under(query, b"si"),
        signature,
        letters,
        start,
        expiry,
        overrides,
    })
}

/// The token that the query is. The query is decoded. Parameters that are not a token's may be anything.
///
/// The first of the faults `Twice`, `Missing`, `Version`, `Resource`, `Letters`, `Time` and `Header` that has a cause: `TokenFault` says
/// the cause of each. The call takes no memory. Blob service REST reference, 2012-02-12 and 2013-08-15, Delegating Access with a Shared
/// Access Signature.
#[tactic(auto, using(crate::proofs::TokenLemmas::token_read, crate::proofs::ReadingLemmas::token_value))]
pub fn read_token(query: &FieldList) -> Result<Token<'_>, TokenFault>
    ensures read { IfOk result (IsToken query.now) }
    ensures complete { (token : Sent) → IsToken query.now token → result ≡ Ok token }
    ensures refused { (fault : Fault) → (result ≡ Err fault) ↔ IsFault query.now fault }
    ensures no_memory { result ≢ Err TokenFault.NoMemory }
    // The same reading as a function.
    ensures value { result_ok result ≡ token_of query.now }
{
    read(query)
}

/// What the token that the query is replaces. A query that is not a token replaces nothing.
///
/// The call takes no memory. It reads the whole token only if the version is the newer one. Blob service REST reference,
/// 2013-08-15, Delegating Access with a Shared Access Signature.
#[tactic(auto, using(crate::proofs::ReadingLemmas::nothing_by_first, crate::proofs::ReadingLemmas::read_visible))]
pub fn replaced_headers(query: &FieldList) -> Overrides<'_>
    ensures value { result ≡ replaced_headers query.now }
    ensures visible { IsTrue (are_visible result) }
{
    if !has_overrides(text_under(query, b"sv")) {
        return no_overrides();
    }
    match read_token(query) {
        Ok(token) => token.overrides,
        Err(_fault) => no_overrides(),
    }
}
