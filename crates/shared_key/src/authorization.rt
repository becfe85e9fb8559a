//! The header Authorization.
ghost use Rattle.std.specs.Prelude.{◌≡◌, ◌≢◌, ◌↔◌, ℕ, ◌≤◌, ◌+◌, ◌==◌, IfOk, Ok, List, [], ◌∷◌, length, drop, codes, Err, ◌⊎◌};
ghost use Rattle.std.specs.List.{position_or_len, before_first};
ghost use Rattle.shared_key.specs.Authorizations.{Claim, IsAuthorization, HasOtherScheme, HasNoClaim, unspaced, cut_claim};
ghost use Rattle.shared_key.specs.Readings.{claim_or_fault, authorization_of};

use stamp_values::Bytes;
use std::marker::Model;
use thiserror::Error;

/// Why the header Authorization is not read.
#[derive(Clone, Copy, Debug, PartialEq, Eq, Error)]
pub enum HeaderFault {
    /// The scheme is not SharedKey.
    #[error("the scheme of the authorization is not SharedKey")]
    Scheme,
    /// The header was not sent, or its value does not write an account and a signature.
    #[error("the authorization names no account or no signature")]
    Form,
    /// The header was sent more than once.
    #[error("there is more than one authorization")]
    Twice,
    /// Memory ran out. `read_authorization` takes no memory, and never answers this.
    #[error("out of memory")]
    NoMemory,
}

/// The account whose key signed, and the signature, as they were sent.
#[derive(Debug, Drop)]
pub struct Authorization<'a> {
    pub account: &'a [u8],
    pub signature: &'a [u8],
}

impl<'a> Model for Authorization<'a> {
    ghost use Rattle.shared_key.specs.Authorizations.{Claim};

    ghost Value = { Claim };

    ghost view = { λ a. record { account = a.account.now; signature = a.signature.now } };
}

// The index of the first byte that is `wanted`, or the length if no byte is.
fn position(bytes: &[u8], wanted: u8) -> usize
    ensures value { result ≡ position_or_len (λ b. b == wanted) bytes.now }
    ensures bound { result ≤ length bytes.now }
{
    for (i, byte) in bytes.iter().enumerate() {
        if *byte == wanted {
            return i;
        }
    }
    bytes.len()
}

// The bytes after index `at`.
fn bytes_after(bytes: &[u8], at: usize) -> &[u8]
    requires { at ≤ length bytes.now }
    ensures { result.now ≡ drop (at + 1) bytes.now }
{
    if at < bytes.len() {
        &bytes[at + 1..]
    } else {
        &[]
    }
}

fn without_spaces(bytes: &[u8]) -> &[u8]
    ensures { result.now ≡ unspaced bytes.now }
{
    let mut left = bytes;
    while let [first, rest @ ..] = left {
        if *first != b' ' {
            return left;
        }
        left = rest;
    }
    left
}

// The claim that a text gives: the account comes before the first colon, and the signature comes after it.
fn cut_claim(text: &[u8]) -> Authorization<'_>
    ensures { result ≡ cut_claim text.now }
{
    let colon = position(text, b':');
    Authorization {
        account: &text[..colon],
        signature: bytes_after(text, colon),
    }
}

fn read_value(value: &[u8]) -> Result<Authorization<'_>, HeaderFault>
    ensures { result ≡ claim_or_fault value.now }
{
    let end = position(value, b' ');
    if &value[..end] != b"SharedKey".as_slice() {
        return Err(HeaderFault::Scheme);
    }
    let claim = cut_claim(without_spaces(&value[end..]));
    if claim.account.is_empty() || claim.signature.is_empty() {
        return Err(HeaderFault::Form);
    }
    Ok(claim)
}

/// Reads the values of the header Authorization. There has to be one value: `SharedKey`, at least one space, the account, a
/// colon, the signature. The bytes are taken as they were sent, and case counts. The account has no colon and does not begin
/// with a space. The signature is all that follows the first colon.
///
/// The first of these faults is answered: `Twice`, `Scheme`, `Form`.
pub fn read_authorization(values: &[Bytes]) -> Result<Authorization<'_>, HeaderFault>
    ensures value { result ≡ authorization_of values.now }
    ensures read { IfOk result (λ claim. IsAuthorization values.now claim) }
    ensures complete { (claim : Claim) → IsAuthorization values.now claim
        → result ≡ Ok claim }
    ensures twice { (result ≡ Err HeaderFault.Twice) ↔ (2 ≤ length values.now) }
    ensures scheme { (result ≡ Err HeaderFault.Scheme) ↔ HasOtherScheme values.now }
    ensures form { (result ≡ Err HeaderFault.Form) ↔ HasNoClaim values.now }
    ensures memory { result ≢ Err HeaderFault.NoMemory }
{
    match values {
        [] => Err(HeaderFault::Form),
        [value] => read_value(value.as_slice()),
        [_, _, ..] => Err(HeaderFault::Twice),
    }
}
