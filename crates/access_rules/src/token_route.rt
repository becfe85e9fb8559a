//! The signature route: what is judged before the signature, the signature, and the rules after it.
ghost use Rattle.std.specs.Prelude.{◌≡◌, ℕ, false, true, not, IfErr, IfOk, IsErr, IsTrue, if◌then◌else◌, Option, Some, option_copied, option_map};
ghost use Rattle.stamp_values.specs.declared.acl.Acl.{Acl};
ghost use Rattle.stamp_values.specs.declared.signing.Credential.TheVariants as credential;
ghost use Rattle.stamp_types.specs.declared.rule.Rule.TheVariants.{S4};
ghost use Rattle.access_rules.specs.declared.judgement.Way.TheVariants as way;
ghost use Rattle.access_rules.specs.Needs.{need_of};
ghost use Rattle.access_rules.specs.Parts.{first_alone, is_by_either, is_by_first, keys_for};
ghost use Rattle.access_rules.specs.Rules.{has_false_signature, has_false_token, has_signature, needs_signature, some_passes, verdict_by, verdict_of};
ghost use Rattle.access_rules.specs.Signatures.{has_true_token};
ghost use Rattle.access_rules.specs.TokenParts as parts;
ghost use Rattle.access_rules.specs.TokenRoute as route;

use crate::judgement::{SignedBy, Verdict, Way};
use crate::keys::Keys;
use crate::needs::need_of;
use crate::parts::{is_false, keys_for};
use crate::token_parts::{allows, names_resource, token_in, token_signer};
use container_acl::{FieldFault, Fields, fields_with};
use sas_token::Token;
use stamp_types::{Acl, Ask, Moment, Rule};
use std::alloc::{AllocError, Global};

// The rule on the letter that the operation needs.
fn rule_of_letter(ask: &Ask, fields: &Fields) -> Option<Rule>
    ensures { result
        ≡ route.rule_of_letter (need_of ask.now.op ask.now.args.kinds).letter fields.now }
{
    match need_of(ask.op, ask.args.kinds).letter {
        None => Some(Rule::S10),
        Some(letter) => {
            if allows(letter, fields.letters) {
                None
            } else {
                Some(Rule::S11)
            }
        }
    }
}

// The first rule that holds of what token and policy give together.
fn rule_of_fields(ask: &Ask, now: Moment, fields: &Fields) -> Option<Rule>
    ensures { result
        ≡ route.rule_of_fields (need_of ask.now.op ask.now.args.kinds).letter now fields.now }
{
    if let Some(start) = fields.start {
        if now.ticks() < start.ticks() {
            return Some(Rule::S8);
        }
    }
    if fields.expiry.ticks() <= now.ticks() {
        return Some(Rule::S9);
    }
    rule_of_letter(ask, fields)
}

// The first rule after the signature that holds: what token and policy give together, the moment, and the letter.
fn rule_after_signature(
    acl: Option<&Acl>,
    ask: &Ask,
    token: &Token<'_>,
    now: Moment,
) -> Option<Rule>
    ensures { result
        ≡ route.rule_after_signature (option_copied acl.entry) ask.now now token.now }
{
    match fields_with(acl, token) {
        Ok(fields) => rule_of_fields(ask, now, &fields),
        Err(FieldFault::Absent) => Some(Rule::S5),
        Err(FieldFault::Both) => Some(Rule::S6),
        Err(FieldFault::Lacks) => Some(Rule::S7),
    }
}

// The keys of the path's account, or the rule of S2 and S3 that holds of the token first.
fn pair_for<'a>(keys: Option<&'a Keys>, ask: &Ask, token: &Token<'_>) -> Result<&'a Keys, Rule>
    requires asks { ask.now.credential ≡ credential.Token }
    requires token { parts.token_in ask.now ≡ Some token.now }
    ensures known { IfOk result (λ pair.
        (keys_for (option_copied keys.entry) ask.now.key.account ≡ Some pair.now)
        × (parts.names_resource ask.now token.now.resource ≡ true)) }
    ensures refused { IfErr result (λ rule. (acl : Option Acl) (t : ℕ)
        → route.token_rule (option_copied keys.entry) acl ask.now t (parts.token_in ask.now)
        ≡ Some rule) }
    ensures unsigned { IsErr result
        → (has_true_token (option_copied keys.entry) ask.now ≡ false)
        × (has_false_token (option_copied keys.entry) ask.now ≡ false)
        × (has_true_token (option_map first_alone (option_copied keys.entry)) ask.now ≡ false) }
{
    let Some(pair) = keys_for(keys, &ask.key.account) else {
        return Err(Rule::S2);
    };
    if !names_resource(ask, token.resource) {
        return Err(Rule::S3);
    }
    Ok(pair)
}

/// The key of the two that gives the signature of the request's token, which was read before. `None` if one of the rules S1 to S3 holds.
///
/// `AllocError` if memory runs out for the string to sign or for a signature.
#[tactic(auto, using(crate::proofs::SignerLemmas::first_for))]
pub(crate) fn signer_of_token(
    alloc: Global,
    keys: Option<&Keys>,
    ask: &Ask,
    token: Option<&Token<'_>>,
) -> Result<Option<SignedBy>, AllocError>
    requires asks { ask.now.credential ≡ credential.Token }
    requires token { option_copied token ≡ parts.token_in ask.now }
    ensures true_one { IfOk result (λ it.
        some_passes is_by_either it ≡ has_true_token (option_copied keys.entry) ask.now) }
    ensures false_one { IfOk result (λ it.
        some_passes (λ by. not (is_by_either by)) it
        ≡ has_false_token (option_copied keys.entry) ask.now) }
    ensures first { IfOk result (λ it. some_passes is_by_first it
        ≡ has_true_token (option_map first_alone (option_copied keys.entry)) ask.now) }
    ensures memory { IsErr result → IsTrue (has_signature (option_copied keys.entry) ask.now) }
{
    let Some(token) = token else {
        return Ok(None);
    };
    let Ok(pair) = pair_for(keys, ask, token) else {
        return Ok(None);
    };
    let by = token_signer(alloc, pair, ask, token)?;
    Ok(Some(by))
}

// The first rule from S4 on that holds, if it is known whether the signature is false.
fn rule_from_signature(
    acl: Option<&Acl>,
    ask: &Ask,
    token: &Token<'_>,
    now: Moment,
    is_false: bool,
) -> Option<Rule>
    ensures { result ≡ if is_false then Some S4
        else route.rule_after_signature (option_copied acl.entry) ask.now now token.now }
{
    if is_false {
        return Some(Rule::S4);
    }
    rule_after_signature(acl, ask, token, now)
}

// The first rule of the signature route that holds.
fn rule_by_token(
    alloc: Global,
    keys: Option<&Keys>,
    acl: Option<&Acl>,
    ask: &Ask,
    now: Moment,
) -> Result<Option<Rule>, AllocError>
    requires { ask.now.credential ≡ credential.Token }
    ensures value { IfOk result (λ rule. rule ≡ route.token_rule (option_copied keys.entry)
        (option_copied acl.entry) ask.now now (parts.token_in ask.now)) }
    ensures memory { IsErr result → IsTrue (needs_signature (option_copied keys.entry) ask.now now) }
{
    let Some(token) = token_in(ask) else {
        return Ok(Some(Rule::S1));
    };
    let pair = match pair_for(keys, ask, &token) {
        Ok(pair) => pair,
        Err(rule) => return Ok(Some(rule)),
    };
    let by = token_signer(alloc, pair, ask, &token)?;
    Ok(rule_from_signature(acl, ask, &token, now, is_false(by)))
}

// The same, if the token was read before, and it is known whether the signature is false.
fn rule_by_judged_token(
    keys: Option<&Keys>,
    acl: Option<&Acl>,
    ask: &Ask,
    token: Option<&Token<'_>>,
    now: Moment,
    is_false: bool,
) -> Option<Rule>
    requires asks { ask.now.credential ≡ credential.Token }
    requires token { option_copied token ≡ parts.token_in ask.now }
    requires judged { is_false ≡ has_false_signature (option_copied keys) ask.now }
    ensures { result ≡ route.token_rule (option_copied keys.entry)
        (option_copied acl.entry) ask.now now (parts.token_in ask.now) }
{
    let Some(token) = token else {
        return Some(Rule::S1);
    };
    match pair_for(keys, ask, token) {
        Ok(_pair) => rule_from_signature(acl, ask, token, now, is_false),
        Err(rule) => Some(rule),
    }
}

// The verdict by the first rule that holds.
fn token_verdict(rule: Option<Rule>) -> Verdict
    ensures { result ≡ verdict_by rule way.Token }
{
    match rule {
        Some(rule) => Verdict::Deny(rule),
        None => Verdict::Allow(Way::Token),
    }
}

/// The verdict on a request that asks by a token.
///
/// `AllocError` if memory runs out for the string to sign or for a signature; then no rule before the signature holds.
#[tactic(auto, using(crate::proofs::TokenLemmas::first_token_rule))]
pub(crate) fn by_token(
    alloc: Global,
    keys: Option<&Keys>,
    acl: Option<&Acl>,
    ask: &Ask,
    now: Moment,
) -> Result<Verdict, AllocError>
    requires { ask.now.credential ≡ credential.Token }
    ensures value { IfOk result (λ v.
        v ≡ verdict_of (option_copied keys.entry) (option_copied acl.entry) ask.now now) }
    ensures memory { IsErr result → IsTrue (needs_signature (option_copied keys.entry) ask.now now) }
{
    let rule = rule_by_token(alloc, keys, acl, ask, now)?;
    Ok(token_verdict(rule))
}

/// The verdict on a request that asks by a token, if the token was read before, and it is known whether its signature is false.
#[tactic(auto, using(crate::proofs::TokenLemmas::first_token_rule))]
pub(crate) fn by_judged_token(
    keys: Option<&Keys>,
    acl: Option<&Acl>,
    ask: &Ask,
    token: Option<&Token<'_>>,
    now: Moment,
    is_false: bool,
) -> Verdict
    requires asks { ask.now.credential ≡ credential.Token }
    requires token { option_copied token ≡ parts.token_in ask.now }
    requires judged { is_false ≡ has_false_signature (option_copied keys) ask.now }
    ensures { result ≡ verdict_of (option_copied keys.entry) (option_copied acl.entry) ask.now now }
{
    token_verdict(rule_by_judged_token(keys, acl, ask, token, now, is_false))
}
