//! The verdict on a request whose signature may have been judged before, and the key that gives its signature.
ghost use Rattle.std.specs.Prelude.{◌≡◌, ◌↔◌, IfOk, IsErr, IsOk, IsTrue, Some, option_copied};
ghost use Rattle.access_rules.specs.Rules.{needs_signature, verdict_of};
ghost use Rattle.access_rules.specs.Signatures.{signed_by};
ghost use Rattle.policy_book.specs.Judgements.{IsInForce, IsOfAsk};

use crate::judged::Judged;
use access_rules::{Keys, SignedBy, Verdict, signature_by, verdict, verdict_judged};
use stamp_types::{Acl, Moment, Request};
use std::alloc::{AllocError, Global};

// Whether both are the same pair: the same account, the same two keys and the same epoch.
fn is_same_pair(pair: &Keys, other: &Keys) -> bool
    ensures { IsTrue result ↔ (pair.now ≡ other.now) }
{
    pair.epoch == other.epoch
        && pair.account == other.account
        && pair.first == other.first
        && pair.second == other.second
}

// Whether the judgement is of the pair in force.
fn is_in_force(judged: &Judged<'_>, keys: Option<&Keys>) -> bool
    ensures { IsTrue result ↔ (option_copied keys.entry ≡ Some judged.now.keys) }
{
    match keys {
        Some(pair) => is_same_pair(pair, judged.keys()),
        None => false,
    }
}

/// Whether a request may be served at a moment: what `verdict` answers. A judgement changes no answer: one of the pair in force spares
/// the signature and the readings of Authorization, of the date and of the token, and the call then takes no memory. A judgement of another
/// pair, or of another epoch, is not used.
///
/// `AllocError` if memory runs out for the string to sign or for a signature.
#[tactic(auto, using(crate::proofs::JudgementLemmas::early_of_ask, crate::proofs::JudgementLemmas::token_of_ask))]
pub fn verdict_by(
    alloc: Global,
    keys: Option<&Keys>,
    acl: Option<&Acl>,
    request: &Request,
    now: Moment,
    judged: Option<&Judged<'_>>,
) -> Result<Verdict, AllocError>
    requires { IsOfAsk (option_copied judged) request.now.ask }
    ensures value { IfOk result (λ v.
        v ≡ verdict_of (option_copied keys.entry) (option_copied acl.entry) request.now.ask now) }
    ensures memory { IsErr result
        → IsTrue (needs_signature (option_copied keys.entry) request.now.ask now) }
    ensures spared { IsInForce (option_copied judged.entry) (option_copied keys.entry) → IsOk result }
{
    if let Some(judged) = judged {
        if is_in_force(judged, keys) {
            let early = judged.early();
            return Ok(verdict_judged(keys, acl, request, judged.token(), now, early));
        }
    }
    verdict(alloc, keys, acl, request, now)
}

/// The key of the pair in force that gives the signature of a request: the first, if it gives it, or else the second. `Neither` if there
/// is no true signature. A judgement of that pair spares the signature; one of another pair is not used.
///
/// `AllocError` if memory runs out for the string to sign or for a signature.
#[tactic(auto, using(crate::proofs::JudgementLemmas::signer_of_ask))]
pub fn signer_by(
    alloc: Global,
    keys: Option<&Keys>,
    request: &Request,
    judged: Option<&Judged<'_>>,
) -> Result<SignedBy, AllocError>
    requires { IsOfAsk (option_copied judged) request.now.ask }
    ensures value { IfOk result (λ by. by ≡ signed_by (option_copied keys.entry) request.now.ask) }
    ensures spared { IsInForce (option_copied judged.entry) (option_copied keys.entry) → IsOk result }
{
    match judged {
        Some(judged) if is_in_force(judged, keys) => Ok(judged.by()),
        _ => {
            let signer = signature_by(alloc, keys, request.ask())?;
            Ok(signer.unwrap_or(SignedBy::Neither))
        }
    }
}
