//! The signature that a request brings, judged by itself.
ghost use Rattle.std.specs.Prelude.{◌≡◌, ◌↔◌, not, IfOk, IsErr, IsTrue, Some, option_copied, unwrap_or};
ghost use Rattle.stamp_types.specs.declared.ask.Ask.{Ask};
ghost use Rattle.access_rules.specs.declared.judgement.SignedBy.TheVariants.{Neither};
ghost use Rattle.access_rules.specs.declared.keys.Keys.{Keys};
ghost use Rattle.access_rules.specs.Parts.{is_by_either};
ghost use Rattle.access_rules.specs.Rules.{has_false_signature, has_signature, some_passes, token_asked};
ghost use Rattle.access_rules.specs.Signatures.{has_true_signature, signed_by, IsSigned};

use crate::judgement::SignedBy;
use crate::key_route::signer_of_claim;
use crate::keys::Keys;
use crate::token_parts::token_asked;
use crate::token_route::signer_of_token;
use sas_token::Token;
use stamp_types::{Ask, Credential, Request};
use std::alloc::{AllocError, Global};

/// The key of the two that gives the signature that the request brings, by the key of an account or by a token. `None` if there is no
/// signature to judge: the request brings none, the claim or the token is not in its form, `keys` are not the keys of the path's
/// account, or a token is not for what the request names.
///
/// Keys and what is asked alone decide: the answer is the same for any body and any container and at any moment, so it can be asked
/// for once the head is read, and before a lock is taken.
///
/// `AllocError` if memory runs out for the string to sign or for a signature.
pub fn signature_by(
    alloc: Global,
    keys: Option<&Keys>,
    ask: &Ask,
) -> Result<Option<SignedBy>, AllocError>
    ensures true_one { IfOk result (λ it.
        some_passes is_by_either it ≡ has_true_signature (option_copied keys.entry) ask.now) }
    ensures false_one { IfOk result (λ it. some_passes (λ by. not (is_by_either by)) it
        ≡ has_false_signature (option_copied keys.entry) ask.now) }
    ensures named { IfOk result (λ it.
        unwrap_or it Neither ≡ signed_by (option_copied keys.entry) ask.now) }
    ensures memory { IsErr result → IsTrue (has_signature (option_copied keys.entry) ask.now) }
{
    let token = token_asked(ask);
    signature_with(alloc, keys, ask, token.as_ref())
}

/// The answer of `signature_by`, if the token was read before: `token` is the answer of `token_asked`.
///
/// `AllocError` if memory runs out for the string to sign or for a signature.
#[tactic(auto, using(crate::proofs::SignerLemmas::named_signer, crate::proofs::TokenLemmas::asked_by_token))]
pub fn signature_with(
    alloc: Global,
    keys: Option<&Keys>,
    ask: &Ask,
    token: Option<&Token<'_>>,
) -> Result<Option<SignedBy>, AllocError>
    requires { option_copied token ≡ token_asked ask.now }
    ensures true_one { IfOk result (λ it.
        some_passes is_by_either it ≡ has_true_signature (option_copied keys.entry) ask.now) }
    ensures false_one { IfOk result (λ it. some_passes (λ by. not (is_by_either by)) it
        ≡ has_false_signature (option_copied keys.entry) ask.now) }
    ensures named { IfOk result (λ it.
        unwrap_or it Neither ≡ signed_by (option_copied keys.entry) ask.now) }
    ensures memory { IsErr result → IsTrue (has_signature (option_copied keys.entry) ask.now) }
{
    match &ask.credential {
        Credential::Shared(values) => signer_of_claim(alloc, keys, ask, values.as_slice()),
        Credential::Token => signer_of_token(alloc, keys, ask, token),
        Credential::Anonymous => Ok(None),
    }
}

/// Whether the signature that the request brings, by the key of an account or by a token, is true under these keys. `None` if there
/// is no signature to judge, as `signature_by` says.
///
/// Keys and what is asked alone decide. It says at once what `has_true_signature` and `has_false_signature` say.
///
/// `AllocError` if memory runs out for the string to sign or for a signature.
pub fn is_true_signature(
    alloc: Global,
    keys: Option<&Keys>,
    ask: &Ask,
) -> Result<Option<bool>, AllocError>
    ensures true_one { IfOk result (λ it.
        some_passes (λ is. is) it ≡ has_true_signature (option_copied keys.entry) ask.now) }
    ensures false_one { IfOk result (λ it.
        some_passes (λ is. not is) it ≡ has_false_signature (option_copied keys.entry) ask.now) }
    ensures memory { IsErr result → IsTrue (has_signature (option_copied keys.entry) ask.now) }
{
    match signature_by(alloc, keys, ask)? {
        Some(SignedBy::First | SignedBy::Second) => Ok(Some(true)),
        Some(SignedBy::Neither) => Ok(Some(false)),
        None => Ok(None),
    }
}

/// Whether the signature that the request brings, by the key of an account or by a token, is true under these keys.
///
/// The claim or the token has to be in its form, `keys` have to be the keys of the path's account, and a token has to be for what
/// the request names; else the answer is no. Keys and request alone decide: the answer is the same for any container and at any
/// moment, so it can be asked for before a lock is taken.
///
/// `AllocError` if memory runs out for the string to sign or for a signature.
pub fn has_true_signature(
    alloc: Global,
    keys: Option<&Keys>,
    request: &Request,
) -> Result<bool, AllocError>
    ensures value { IfOk result (λ it.
        it ≡ has_true_signature (option_copied keys.entry) request.now.ask) }
    ensures memory { IsErr result
        → IsTrue (has_signature (option_copied keys.entry) request.now.ask) }
{
    match is_true_signature(alloc, keys, request.ask())? {
        Some(is_true) => Ok(is_true),
        None => Ok(false),
    }
}

/// Whether the signature that the request brings, by the key of an account or by a token, is false: the rules K5 and S4 by
/// themselves.
///
/// The claim or the token has to be in its form, `keys` have to be the keys of the path's account, and a token has to be for what
/// the request names; else the answer is no, and a rule before K5 or S4 refuses the request. Keys and request alone decide: the
/// answer is the same for any container and at any moment, so it can be asked for before a lock is taken.
///
/// `AllocError` if memory runs out for the string to sign or for a signature.
pub fn has_false_signature(
    alloc: Global,
    keys: Option<&Keys>,
    request: &Request,
) -> Result<bool, AllocError>
    ensures value { IfOk result (λ it.
        it ≡ has_false_signature (option_copied keys.entry) request.now.ask) }
    ensures memory { IsErr result
        → IsTrue (has_signature (option_copied keys.entry) request.now.ask) }
{
    match is_true_signature(alloc, keys, request.ask())? {
        Some(is_true) => Ok(!is_true),
        None => Ok(false),
    }
}

/// A signature is true if and only if the signature part of the request's own route holds: the claim or the token can be read, the
/// pair is of the path's account, a token is for what the request names, and one of the two keys gives the signature.
pub fn a_true_signature_is_the_routes_own()
    ensures { (pair : Keys) (q : Ask)
        → IsTrue (has_true_signature (Some pair) q) ↔ IsSigned pair q }
{}
