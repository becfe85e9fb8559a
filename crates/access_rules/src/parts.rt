//! The parts of a request that the rules of the key route judge.
ghost use Rattle.std.specs.Prelude.{◌≡◌, not, IfOk, option_copied, option_map, bytes_eq};
ghost use Rattle.hmac_sign.specs.Signature.{signature_of};
ghost use Rattle.access_rules.specs.Parts.{claim_in, first_alone, keys_for, date_text, date_in, string_of, is_by_either, is_by_first, is_far, is_signed};

use crate::judgement::SignedBy;
use crate::keys::Keys;
use hmac_sign::SigningKey;
use moment_text::read_http;
use shared_key::{Authorization, key_string, read_authorization};
use stamp_types::header_names::{DATE, OWN_DATE};
use stamp_types::{Ask, Bytes, FieldList, Moment, Text};
use std::alloc::{AllocError, Global};

/// How far a date may be before or after the moment, in steps of 100 ns: 900 seconds, which are the 15 minutes of the reference.
const LEEWAY: u64 = 9_000_000_000;

/// What Authorization claims. `None` if the header was not sent exactly once, or not in its form.
pub(crate) fn claim_in(values: &[Bytes]) -> Option<Authorization<'_>>
    ensures { result ≡ claim_in values.now }
{
    read_authorization(values).ok()
}

/// The keys, if they are the keys of the account.
pub(crate) fn keys_for<'a>(keys: Option<&'a Keys>, account: &Text) -> Option<&'a Keys>
    ensures { option_copied result ≡ keys_for (option_copied keys.entry) account.now }
{
    let pair = keys?;
    if pair.account.as_str() == account.as_str() {
        Some(pair)
    } else {
        None
    }
}

// If x-ms-date was sent, it counts, even if it is not a date: then it is what was signed.
fn date_text(headers: &FieldList) -> Option<&[u8]>
    ensures { option_map (λ text. text.now) result ≡ date_text headers.now }
{
    headers
        .first(OWN_DATE.as_bytes())
        .or(headers.first(DATE.as_bytes()))
}

/// The moment that the request's date names. `None` if no date was sent, or if it is not a date of HTTP.
pub(crate) fn date_in(headers: &FieldList) -> Option<Moment>
    ensures { result ≡ date_in headers.now }
{
    read_http(date_text(headers)?).ok()
}

/// Whether the date is more than 900 seconds before the moment or after it.
pub(crate) fn is_far(now: Moment, date: Moment) -> bool
    ensures { result ≡ is_far now date }
{
    let (now, date) = (now.ticks(), date.ticks());
    date + LEEWAY < now || now + LEEWAY < date
}

// Whether the bytes are equal. If there are as many, all are compared: the time tells nobody where the first difference is, so nobody can guess a
// signature byte by byte.
#[tactic(auto, using(crate::proofs::CompareLemmas::one_byte_more))]
fn same_bytes(one: &[u8], other: &[u8]) -> bool
    ensures { result ≡ bytes_eq one.now other.now }
{
    if one.len() != other.len() {
        return false;
    }
    let mut same = true;
    for at in 0..one.len() {
        same &= one[at] == other[at];
    }
    same
}

// Whether the key gives the signature. Signatures are compared as texts, so a text that is not Base64 is only a wrong signature.
fn gives(key: &SigningKey, string: &[u8], signature: &[u8]) -> bool
    ensures { result ≡ bytes_eq signature.now (signature_of key.now string.now) }
{
    same_bytes(signature, &key.signature(string))
}

/// The key of the two that gives this signature for the string.
pub(crate) fn signer(keys: &Keys, string: &[u8], signature: &[u8]) -> SignedBy
    ensures either { is_by_either result ≡ is_signed keys.now string.now signature.now }
    ensures first { is_by_first result
        ≡ is_signed (first_alone keys.now) string.now signature.now }
{
    if gives(&keys.first, string, signature) {
        return SignedBy::First;
    }
    if gives(&keys.second, string, signature) {
        return SignedBy::Second;
    }
    SignedBy::Neither
}

/// The key of the two that gives this signature for the string to sign of the request.
pub(crate) fn key_signer(
    alloc: Global,
    keys: &Keys,
    ask: &Ask,
    signature: &[u8],
) -> Result<SignedBy, AllocError>
    ensures either { IfOk result (λ by.
        is_by_either by ≡ is_signed keys.now (string_of ask.now) signature.now) }
    ensures first { IfOk result (λ by.
        is_by_first by ≡ is_signed (first_alone keys.now) (string_of ask.now) signature.now) }
{
    let string = key_string(alloc, &ask.signing, ask.key.account.as_str().as_bytes())?;
    Ok(signer(keys, &string, signature))
}

/// Whether neither of the two keys gives the signature.
pub(crate) fn is_false(by: SignedBy) -> bool
    ensures { result ≡ not (is_by_either by) }
{
    match by {
        SignedBy::First | SignedBy::Second => false,
        SignedBy::Neither => true,
    }
}
