//! The verdict on a request.
ghost use Rattle.std.specs.Prelude.{◌≡◌, ℕ, IfOk, IsErr, IsTrue, Option, option_copied};
ghost use Rattle.stamp_values.specs.declared.signing.Credential.TheVariants as credential;
ghost use Rattle.access_rules.specs.declared.keys.Keys.{Keys};
ghost use Rattle.access_rules.specs.KeyRoute.{early_of};
ghost use Rattle.access_rules.specs.Rules.{has_false_signature, needs_signature, token_asked, verdict_of};
ghost use Rattle.access_rules.specs.Signatures.{has_true_signature};

use crate::judgement::{Dated, EarlyJudgement, Verdict, Way};
use crate::key_route::{by_judged_key, by_key, date_by_key};
use crate::keys::Keys;
use crate::needs::need_of;
use crate::token_parts::token_asked;
use crate::token_route::{by_judged_token, by_token};
use container_acl::permits;
use sas_token::Token;
use stamp_types::{Acl, Ask, Credential, Moment, Request, Rule};
use std::alloc::{AllocError, Global};

// A container that does not exist is refused like a closed container, so that nobody can tell the two apart.
fn by_public(acl: Option<&Acl>, ask: &Ask) -> Verdict
    requires { ask.now.credential ≡ credential.Anonymous }
    ensures { (keys : Option Keys) (t : ℕ)
        → result ≡ verdict_of keys (option_copied acl.entry) ask.now t }
{
    let Some(need) = need_of(ask.op, ask.args.kinds).level else {
        return Verdict::Deny(Rule::P1);
    };
    if acl.is_some_and(|acl| permits(acl, need)) {
        Verdict::Allow(Way::Anonymous)
    } else {
        Verdict::Deny(Rule::P2)
    }
}

/// Whether a request may be served at a moment.
///
/// `keys` are the keys that the stamp has for the request's account; keys of another account count as no keys. `acl` is what the
/// request's container says about who may read it; `None` means that the container does not exist. The answer is the first rule
/// that holds, in the order K1 to K5, S1 to S11, P1, P2. If no rule holds, the answer is the request's route. A request is judged by
/// its own route alone, so a bad signature is refused even if the container is public.
///
/// `AllocError` if memory runs out for the string to sign or for a signature. The public route takes no memory, and the other
/// routes only if no rule before the signature holds: K1 to K4, or S1 to S3. Blob service REST reference, 2012-02-12,
/// Authentication for the Azure Storage Services; Delegating Access with a Shared Access Signature; Set Container ACL.
pub fn verdict(
    alloc: Global,
    keys: Option<&Keys>,
    acl: Option<&Acl>,
    request: &Request,
    now: Moment,
) -> Result<Verdict, AllocError>
    ensures value { IfOk result (λ v.
        v ≡ verdict_of (option_copied keys.entry) (option_copied acl.entry) request.now.ask now) }
    ensures memory { IsErr result
        → IsTrue (needs_signature (option_copied keys.entry) request.now.ask now) }
{
    let ask = request.ask();
    match &ask.credential {
        Credential::Shared(values) => by_key(alloc, keys, ask, values.as_slice(), now),
        Credential::Token => by_token(alloc, keys, acl, ask, now),
        Credential::Anonymous => Ok(by_public(acl, ask)),
    }
}

/// The part of a judgement that the keys and the request alone decide, if it was judged whether its signature is false: `is_false` is what
/// `has_false_signature` answers. The call takes no memory.
pub fn early_judgement(keys: Option<&Keys>, ask: &Ask, is_false: bool) -> EarlyJudgement
    requires { is_false ≡ has_false_signature (option_copied keys) ask.now }
    ensures { result ≡ early_of (option_copied keys.entry) ask.now }
{
    let dated = match &ask.credential {
        Credential::Shared(values) => date_by_key(keys, ask, values.as_slice()),
        Credential::Token | Credential::Anonymous => Dated::Open(None),
    };
    EarlyJudgement { dated, is_false }
}

/// The verdict on a request of which it was decided before, under the same keys, what the keys and the request alone decide: `early` is
/// what `early_judgement` answers, and `token` what `token_asked` answers. The answer is the verdict that `verdict` gives. The call takes
/// no memory. It does not look at the query, at Authorization or at the headers.
#[tactic(auto, using(crate::proofs::TokenLemmas::asked_by_token))]
pub fn verdict_judged(
    keys: Option<&Keys>,
    acl: Option<&Acl>,
    request: &Request,
    token: Option<&Token<'_>>,
    now: Moment,
    early: EarlyJudgement,
) -> Verdict
    requires token { option_copied token ≡ token_asked request.now.ask }
    requires judged { early ≡ early_of (option_copied keys) request.now.ask }
    ensures { result
        ≡ verdict_of (option_copied keys.entry) (option_copied acl.entry) request.now.ask now }
{
    let ask = request.ask();
    match &ask.credential {
        Credential::Shared(_values) => by_judged_key(early, now),
        Credential::Token => by_judged_token(keys, acl, ask, token, now, early.is_false),
        Credential::Anonymous => by_public(acl, ask),
    }
}

/// The verdict on a request whose signature is true under these keys, as `has_true_signature` says. The answer is the verdict that
/// `verdict` gives. The call takes no memory.
#[tactic(auto, using(crate::proofs::SignatureLemmas::true_not_false))]
pub fn verdict_vouched(
    keys: Option<&Keys>,
    acl: Option<&Acl>,
    request: &Request,
    now: Moment,
) -> Verdict
    requires { IsTrue (has_true_signature (option_copied keys) request.now.ask) }
    ensures { result
        ≡ verdict_of (option_copied keys.entry) (option_copied acl.entry) request.now.ask now }
{
    let token = token_asked(request.ask());
    let early = early_judgement(keys, request.ask(), false);
    verdict_judged(keys, acl, request, token.as_ref(), now, early)
}
