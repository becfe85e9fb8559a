//! The key route: what is judged before the signature, the signature, and the verdict after it.
ghost use Rattle.std.specs.Prelude.{◌≡◌, ℕ, not, IfOk, IsErr, IsTrue, MatchResult, if◌then◌else◌, Option, Some, None, option_copied, option_map};
ghost use Rattle.stamp_values.specs.declared.acl.Acl.{Acl};
ghost use Rattle.stamp_values.specs.declared.signing.Credential.TheVariants as credential;
ghost use Rattle.stamp_types.specs.declared.rule.Rule.TheVariants.{K5};
ghost use Rattle.access_rules.specs.declared.judgement.Dated.TheVariants.{Open};
ghost use Rattle.access_rules.specs.declared.judgement.Way.TheVariants as way;
ghost use Rattle.access_rules.specs.KeyRoute as route;
ghost use Rattle.access_rules.specs.KeyRoute.{date_asked, date_or_rule, key_rule};
ghost use Rattle.access_rules.specs.Parts as parts;
ghost use Rattle.access_rules.specs.Parts.{first_alone, is_by_either, is_by_first};
ghost use Rattle.access_rules.specs.Rules.{has_false_claim, has_signature, needs_signature, rule_before_signature, some_passes, verdict_by, verdict_of};
ghost use Rattle.access_rules.specs.Signatures.{has_true_claim};

use crate::judgement::{Dated, EarlyJudgement, SignedBy, Verdict, Way};
use crate::keys::Keys;
use crate::parts::{claim_in, date_in, is_false, is_far, key_signer, keys_for};
use shared_key::Authorization;
use stamp_types::{Ask, Bytes, Moment, Rule};
use std::alloc::{AllocError, Global};

// The rest of the judgement, after the rules that need no moment: the claim of Authorization, the keys of the path's account, and the date.
#[derive(Drop)]
struct Claimed<'a> {
    claim: Authorization<'a>,
    pair: &'a Keys,
    date: Moment,
}

// The claim, the keys and the date, or the first rule of K1 to K3 that holds: each early return names it, since the rules before it were
// judged and do not hold.
fn before_moment<'a>(
    keys: Option<&'a Keys>,
    ask: &Ask,
    values: &'a [Bytes],
) -> Result<Claimed<'a>, Rule>
    requires { ask.now.credential ≡ credential.Shared values.now }
    ensures { MatchResult result
        (λ left. (route.rule_before_moment (option_copied keys.entry) ask.now ≡ None)
        × (parts.claim_of ask.now.credential ≡ Some left.claim)
        × (parts.keys_for (option_copied keys.entry) ask.now.key.account ≡ Some left.pair.now)
        × (parts.date_in ask.now.signing.headers ≡ Some left.date))
        (λ rule. route.rule_before_moment (option_copied keys.entry) ask.now ≡ Some rule) }
{
    let Some(claim) = claim_in(values) else {
        return Err(Rule::K1);
    };
    let Some(pair) = keys_for(keys, &ask.key.account) else {
        return Err(Rule::K2);
    };
    if claim.account != ask.key.account.as_str().as_bytes() {
        return Err(Rule::K2);
    }
    let Some(date) = date_in(&ask.signing.headers) else {
        return Err(Rule::K3);
    };
    Ok(Claimed { claim, pair, date })
}

// The claim, the keys and the date, or the first rule of K1 to K4 that holds.
#[tactic(auto, using(crate::proofs::JudgeLemmas::late_rule))]
fn before_signature<'a>(
    keys: Option<&'a Keys>,
    ask: &Ask,
    values: &'a [Bytes],
    now: Moment,
) -> Result<Claimed<'a>, Rule>
    requires { ask.now.credential ≡ credential.Shared values.now }
    ensures { MatchResult result
        (λ left. (rule_before_signature (option_copied keys.entry) ask.now now ≡ None)
        × (parts.claim_of ask.now.credential ≡ Some left.claim)
        × (parts.keys_for (option_copied keys.entry) ask.now.key.account ≡ Some left.pair.now))
        (λ rule. rule_before_signature (option_copied keys.entry) ask.now now ≡ Some rule) }
{
    let left = match before_moment(keys, ask, values) {
        Ok(left) => left,
        Err(rule) => return Err(rule),
    };
    if is_far(now, left.date) {
        return Err(Rule::K4);
    }
    Ok(left)
}

/// The date of a request that asks by a key, or the first rule of K1 to K3 that holds.
pub(crate) fn date_by_key(keys: Option<&Keys>, ask: &Ask, values: &[Bytes]) -> Dated
    requires { ask.now.credential ≡ credential.Shared values.now }
    ensures { result ≡ date_or_rule (route.rule_before_moment (option_copied keys.entry) ask.now) (date_asked ask.now) }
{
    match before_moment(keys, ask, values) {
        Ok(left) => Dated::Open(Some(left.date)),
        Err(rule) => Dated::Refused(rule),
    }
}

/// The key of the two that gives the signature that the values of Authorization claim. `None` if there is no claim, or if the stamp does
/// not have the keys of the path's account.
///
/// `AllocError` if memory runs out for the string to sign or for a signature.
#[tactic(auto, using(crate::proofs::SignerLemmas::first_for))]
pub(crate) fn signer_of_claim(
    alloc: Global,
    keys: Option<&Keys>,
    ask: &Ask,
    values: &[Bytes],
) -> Result<Option<SignedBy>, AllocError>
    requires { ask.now.credential ≡ credential.Shared values.now }
    ensures true_one { IfOk result (λ it.
        some_passes is_by_either it ≡ has_true_claim (option_copied keys.entry) ask.now) }
    ensures false_one { IfOk result (λ it.
        some_passes (λ by. not (is_by_either by)) it
        ≡ has_false_claim (option_copied keys.entry) ask.now) }
    ensures first { IfOk result (λ it. some_passes is_by_first it
        ≡ has_true_claim (option_map first_alone (option_copied keys.entry)) ask.now) }
    ensures memory { IsErr result → IsTrue (has_signature (option_copied keys.entry) ask.now) }
{
    let Some(claim) = claim_in(values) else {
        return Ok(None);
    };
    let Some(pair) = keys_for(keys, &ask.key.account) else {
        return Ok(None);
    };
    let by = key_signer(alloc, pair, ask, claim.signature)?;
    Ok(Some(by))
}

// The verdict after the signature was judged.
fn after_signature(is_false: bool) -> Verdict
    ensures { result ≡ verdict_by (if is_false then Some K5 else None) way.Shared }
{
    if is_false {
        Verdict::Deny(Rule::K5)
    } else {
        Verdict::Allow(Way::Shared)
    }
}

/// The verdict on a request that asks by a key.
///
/// `AllocError` if memory runs out for the string to sign or for a signature; then no rule before the signature holds.
pub(crate) fn by_key(
    alloc: Global,
    keys: Option<&Keys>,
    ask: &Ask,
    values: &[Bytes],
    now: Moment,
) -> Result<Verdict, AllocError>
    requires { ask.now.credential ≡ credential.Shared values.now }
    ensures value { (acl : Option Acl) → IfOk result (λ v.
        v ≡ verdict_of (option_copied keys.entry) acl ask.now now) }
    ensures memory { IsErr result → IsTrue (needs_signature (option_copied keys.entry) ask.now now) }
{
    let left = match before_signature(keys, ask, values, now) {
        Ok(left) => left,
        Err(rule) => return Ok(Verdict::Deny(rule)),
    };
    let by = key_signer(alloc, left.pair, ask, left.claim.signature)?;
    Ok(after_signature(is_false(by)))
}

// Whether the date is far from the moment.
fn is_any_far(now: Moment, date: Option<Moment>) -> bool
    ensures { result ≡ some_passes (parts.is_far now) date }
{
    match date {
        Some(date) => is_far(now, date),
        None => false,
    }
}

// The verdict after the rules that need no moment, of which none holds.
fn by_date(date: Option<Moment>, now: Moment, is_false: bool) -> Verdict
    ensures { result ≡ verdict_by (route.rule_by_date (Open date) now is_false) way.Shared }
{
    if is_any_far(now, date) {
        return Verdict::Deny(Rule::K4);
    }
    after_signature(is_false)
}

/// The verdict on a request that asks by a key, if it is known what the keys and the request alone decide. It compares the date with the
/// moment, and looks at nothing else.
pub(crate) fn by_judged_key(early: EarlyJudgement, now: Moment) -> Verdict
    ensures { result ≡ verdict_by (key_rule early now) way.Shared }
{
    let EarlyJudgement { dated, is_false } = early;
    match dated {
        Dated::Open(date) => by_date(date, now, is_false),
        Dated::Refused(rule) => Verdict::Deny(rule),
    }
}
