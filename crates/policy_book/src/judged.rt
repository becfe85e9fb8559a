//! Judgements of signatures, with each outcome, and the key that gives a signature.
ghost use Rattle.std.specs.Prelude.{◌≡◌, ◌↔◌, IfOk, IsTrue, Some, option_copied};
ghost use Rattle.std.specs.Arc.{arc_value};
ghost use Rattle.access_rules.specs.KeyRoute.{early_of};
ghost use Rattle.access_rules.specs.Rules.{has_false_signature, token_asked};
ghost use Rattle.access_rules.specs.Signatures.{signed_by, IsSigned};
ghost use Rattle.policy_book.specs.Judgements.{signature_under};
ghost use Rattle.policy_book.specs.declared.judged.Signature.TheVariants as signature;

use access_rules::{EarlyJudgement, Keys, SignedBy, early_judgement, signature_with, token_asked};
use sas_token::Token;
use stamp_types::Request;
use std::alloc::{AllocError, Global};
use std::marker::Model;
use std::sync::Arc;

/// How a signature was judged under a pair of keys.
#[derive(Clone, Copy, PartialEq, Eq)]
pub enum Signature {
    /// One of the two keys gives it.
    True,
    /// Neither key gives it.
    False,
    /// There is no signature to judge: the request brings none, the claim or the token is not in its form, the keys are not those of
    /// the path's account, or the token is not for what the request names.
    Unjudged,
}

/// The judgement on the signature of a request under a pair of keys. It borrows the request, whose body does not matter, and shares
/// the pair. It also keeps which of the two keys gives the signature, the first of the rules K1 to K3 that holds or else the date of the
/// request, and the token by which the request asks. So nobody reads Authorization, the date or the query a second time.
///
/// It says nothing of a container, a policy or a moment.
#[derive(Drop)]
pub struct Judged<'a> {
    request: &'a Request,
    keys: Arc<Keys>,
    signature: Signature,
    by: SignedBy,
    early: EarlyJudgement,
    token: Option<Token<'a>>,
}

impl<'a> Model for Judged<'a> {
    ghost use Rattle.std.specs.Prelude.{◌≡◌, Some};
    ghost use Rattle.std.specs.Arc.{arc_value};
    ghost use Rattle.access_rules.specs.KeyRoute.{early_of};
    ghost use Rattle.access_rules.specs.Rules.{token_asked};
    ghost use Rattle.access_rules.specs.Signatures.{signed_by};
    ghost use Rattle.policy_book.specs.Judgements.{Judgement, signature_under};

    ghost Value = { Judgement };

    ghost view = { λ j. record { ask = j.request.now.ask; keys = arc_value j.keys; signature = j.signature } };

    ghost invariant = { λ j. (j.signature ≡ signature_under (arc_value j.keys) j.request.now.ask)
        × (j.by ≡ signed_by (Some (arc_value j.keys)) j.request.now.ask)
        × (j.early ≡ early_of (Some (arc_value j.keys)) j.request.now.ask)
        × (j.token ≡ token_asked j.request.now.ask) };
}

// How the signature of a request is judged, which key gives it, and what the keys and the request alone decide.
#[derive(Drop)]
struct Outcome {
    signature: Signature,
    by: SignedBy,
    early: EarlyJudgement,
}

// Whether a signature was judged false.
fn is_false(judged: Signature) -> bool
    ensures { IsTrue result ↔ (judged ≡ signature.False) }
{
    match judged {
        Signature::True | Signature::Unjudged => false,
        Signature::False => true,
    }
}

// How the signature of the request, whose token was read, is judged, which key gives it, and what the keys and the request alone decide.
// Neither key is named if there is no signature to judge.
#[tactic(auto, using(crate::proofs::JudgementLemmas::false_found))]
fn found(
    alloc: Global,
    keys: &Keys,
    request: &Request,
    token: Option<&Token<'_>>,
) -> Result<Outcome, AllocError>
    requires { option_copied token ≡ token_asked request.now.ask }
    ensures signature { IfOk result (λ f. f.signature ≡ signature_under keys.now request.now.ask) }
    ensures by { IfOk result (λ f. f.by ≡ signed_by (Some keys.now) request.now.ask) }
    ensures early { IfOk result (λ f. f.early ≡ early_of (Some keys.now) request.now.ask) }
{
    let (signature, by) = match signature_with(alloc, Some(keys), request.ask(), token)? {
        Some(SignedBy::First) => (Signature::True, SignedBy::First),
        Some(SignedBy::Second) => (Signature::True, SignedBy::Second),
        Some(SignedBy::Neither) => (Signature::False, SignedBy::Neither),
        None => (Signature::Unjudged, SignedBy::Neither),
    };
    let early = early_judgement(Some(keys), request.ask(), is_false(signature));
    Ok(Outcome {
        signature,
        by,
        early,
    })
}

/// Judges the signature of the request under the pair of keys.
///
/// `AllocError` if memory runs out for the string to sign or for a signature, or if the pair can have no further owner.
pub fn judge<'a>(
    alloc: Global,
    keys: &Arc<Keys>,
    request: &'a Request,
) -> Result<Judged<'a>, AllocError>
    ensures ask { IfOk result (λ j. j.ask ≡ request.now.ask) }
    ensures keys { IfOk result (λ j. j.keys ≡ arc_value keys.now) }
    ensures true_one { IfOk result (λ j.
        (j.signature ≡ signature.True) ↔ IsSigned (arc_value keys.now) request.now.ask) }
    ensures false_one { IfOk result (λ j. (j.signature ≡ signature.False)
        ↔ IsTrue (has_false_signature (Some (arc_value keys.now)) request.now.ask)) }
{
    let token = token_asked(request.ask());
    let outcome = found(alloc, keys, request, token.as_ref())?;
    let keys = keys.clone()?;
    Ok(Judged {
        request,
        keys,
        signature: outcome.signature,
        by: outcome.by,
        early: outcome.early,
        token,
    })
}

impl<'a> Judged<'a> {
    /// Whether the judgement is of this request, whose body does not matter.
    pub fn is_for(&self, request: &Request) -> bool
        ensures { IsTrue result ↔ (self.now.ask ≡ request.now.ask) }
    {
        self.request.same_ask(request)
    }

    /// The pair of keys under which the signature was judged.
    pub fn keys(&self) -> &Keys
        ensures { result.now ≡ self.now.keys }
    {
        &self.keys
    }

    /// How the signature was judged.
    pub fn signature(&self) -> Signature
        ensures value { result ≡ self.now.signature }
        ensures judged { self.now.signature ≡ signature_under self.now.keys self.now.ask }
    {
        let _request = &self.request;
        self.signature
    }

    /// The key of the two that gives the signature: the first key, if it gives it, or else the second. `Neither` if the signature is not
    /// judged true.
    pub fn by(&self) -> SignedBy
        ensures { result ≡ signed_by (Some self.now.keys) self.now.ask }
    {
        let _request = &self.request;
        self.by
    }

    /// The part that the pair of keys and the request alone decide, as `early_judgement` answers it.
    pub fn early(&self) -> EarlyJudgement
        ensures { result ≡ early_of (Some self.now.keys) self.now.ask }
    {
        let _request = &self.request;
        self.early
    }

    /// The token by which the request asks, as `token_asked` reads it. `None` if it asks by another route, or if its query is not a token.
    pub fn token(&self) -> Option<&Token<'a>>
        ensures { option_copied result ≡ token_asked self.now.ask }
    {
        let _request = &self.request;
        match &self.token {
            Some(token) => Some(token),
            None => None,
        }
    }
}
