//! Reading stored policies.
ghost use Rattle.std.specs.Prelude.{◌≡◌, map, true, false, Ok, Some, None, IfErr, IfOk, MatchOption, MatchResult};
ghost use Rattle.std.specs.List.{list_any};
ghost use Rattle.stamp_values.specs.Texts.{is_utf8};
ghost use Rattle.body_forms.specs.PolicyReading.{body_policies, sent_view};
ghost use Rattle.body_forms.specs.PolicyValues.{values_view, policy_of, has_bad_id, have_bad_ids, policies_reading, SaysPolicies, SaysFault};
ghost use Rattle.body_forms.specs.PolicyValues as values;
ghost use Rattle.body_forms.specs.Outcomes.{FaultOf, OnForm, OnId};

use crate::body_fault::BodyFault;
use crate::sent_policies::{Sent, read_sent};
use moment_text::read_iso;
use stamp_values::{Items, Letters, Moment, POLICIES_LIMIT, Policies, Policy, Text, is_policy_id};
use std::alloc::{AllocError, Global};
use xml_text::{after_mark, after_prolog, is_clean_text, value_of};

/// The texts of a policy, without references and without white space at their ends.
#[derive(Drop)]
pub(crate) struct Values {
    pub(crate) id: Vec<u8>,
    pub(crate) start: Vec<u8>,
    pub(crate) expiry: Vec<u8>,
    pub(crate) permission: Vec<u8>,
}

fn values_of(alloc: Global, sent: &Sent<'_>) -> Result<Values, AllocError>
    ensures { IfOk result (λ v. values_view v ≡ sent_view sent.now) }
{
    let id = value_of(alloc, sent.id)?;
    let start = value_of(alloc, sent.given.start)?;
    let expiry = value_of(alloc, sent.given.expiry)?;
    let permission = value_of(alloc, sent.given.permission)?;
    Ok(Values {
        id,
        start,
        expiry,
        permission,
    })
}

fn all_values(alloc: Global, sent: &[Sent<'_>]) -> Result<Vec<Values>, AllocError>
    ensures { IfOk result (λ vs. map values_view vs.items ≡ map sent_view sent.now) }
{
    let mut values = Vec::with_capacity(alloc, sent.len())?;
    for policy in sent {
        let texts = values_of(alloc, policy)?;
        if values.push(texts).is_err() {
            return Err(AllocError);
        }
    }
    Ok(values)
}

// The moment that a text names.
#[tactic(auto, unfolding(crate::specs::PolicyValues::moment_of))]
fn moment_of(text: &[u8]) -> Option<Moment>
    ensures { result ≡ values.moment_of text.now }
{
    read_iso(text).ok()
}

#[tactic(auto, unfolding(crate::specs::PolicyValues::is_bad_time))]
fn is_bad_time(text: &[u8]) -> bool
    ensures { result ≡ values.is_bad_time text.now }
{
    match text {
        [] => false,
        [_, ..] => moment_of(text).is_none(),
    }
}

#[tactic(auto, unfolding(crate::specs::PolicyValues::are_bad_letters))]
fn are_bad_letters(text: &[u8]) -> bool
    ensures { result ≡ values.are_bad_letters text.now }
{
    match text {
        [] => false,
        [_, ..] => Letters::read(text).is_none(),
    }
}

#[tactic(auto, unfolding(crate::specs::PolicyValues::has_bad_time))]
fn has_bad_time(policy: &Values) -> bool
    ensures { result ≡ values.has_bad_time (values_view policy.now) }
{
    is_bad_time(&policy.start) || is_bad_time(&policy.expiry)
}

#[tactic(auto, unfolding(crate::specs::PolicyValues::has_bad_letters))]
fn has_bad_letters(policy: &Values) -> bool
    ensures { result ≡ values.has_bad_letters (values_view policy.now) }
{
    are_bad_letters(&policy.permission)
}

fn is_any_time_bad(policies: &[Values]) -> bool
    ensures { result ≡ list_any values.has_bad_time (map values_view policies.now) }
{
    let mut left = policies;
    while let [first, rest @ ..] = left {
        if has_bad_time(first) {
            return true;
        }
        left = rest;
    }
    false
}

fn are_any_letters_bad(policies: &[Values]) -> bool
    ensures { result ≡ list_any values.has_bad_letters (map values_view policies.now) }
{
    let mut left = policies;
    while let [first, rest @ ..] = left {
        if has_bad_letters(first) {
            return true;
        }
        left = rest;
    }
    false
}

// The text, if the bytes are UTF-8.
fn utf8_text(bytes: &[u8]) -> Option<&str>
    ensures { MatchOption result (is_utf8 bytes.now ≡ false)
        (λ text. (is_utf8 bytes.now ≡ true) × (text.now ≡ bytes.now)) }
{
    match str::from_utf8(bytes) {
        Ok(text) => Some(text),
        Err(_error) => None,
    }
}

// The id as a text.
#[tactic(auto, unfolding(crate::specs::PolicyValues::is_good_id))]
fn id_of(alloc: Global, id: &[u8]) -> Result<Text, BodyFault>
    ensures { MatchResult result
        (λ t. (values.is_good_id id.now ≡ true) × (t ≡ id.now))
        (OnId (values.is_good_id id.now ≡ false)) }
{
    if !is_policy_id(id) {
        return Err(BodyFault::Id);
    }
    let Some(text) = utf8_text(id) else {
        return Err(BodyFault::Id);
    };
    let text = String::from_str(alloc, text)?;
    Text::new(text).ok_or(BodyFault::Id)
}

// The policy that the texts say. What is bad is left out.
#[tactic(auto, unfolding(crate::specs::PolicyValues::policy_of, crate::specs::PolicyValues::has_bad_id))]
fn policy(alloc: Global, texts: &Values) -> Result<Policy, BodyFault>
    ensures { MatchResult result
        (λ p. (has_bad_id (values_view texts.now) ≡ false) × (p ≡ policy_of (values_view texts.now)))
        (OnId (has_bad_id (values_view texts.now) ≡ true)) }
{
    let id = id_of(alloc, &texts.id)?;
    Ok(Policy {
        id,
        start: moment_of(&texts.start),
        expiry: moment_of(&texts.expiry),
        letters: Letters::read(&texts.permission),
    })
}

// The policies that the texts say, if each id is good. What else is bad is left out.
fn all_policies(alloc: Global, texts: &[Values]) -> Result<Vec<Policy>, BodyFault>
    ensures { MatchResult result
        (λ ps. (list_any has_bad_id (map values_view texts.now) ≡ false)
        × (ps.items ≡ map policy_of (map values_view texts.now)))
        (OnId (list_any has_bad_id (map values_view texts.now) ≡ true)) }
{
    let mut policies = Vec::with_capacity(alloc, texts.len())?;
    for one in texts {
        let policy = policy(alloc, one)?;
        if policies.push(policy).is_err() {
            return Err(BodyFault::NoMemory);
        }
    }
    Ok(policies)
}

// Whether there are more policies than a container may have.
#[tactic(auto, using(crate::proofs::PolicyValueLemmas::mapped_length))]
fn are_too_many(sent: &[Sent<'_>]) -> bool
    ensures { result ≡ values.are_too_many (map sent_view sent.now) }
{
    POLICIES_LIMIT < sent.len()
}

// The policies, if the ids are good and no two ids are equal.
#[tactic(auto, using(crate::proofs::PolicyValueLemmas::ids_decide))]
fn with_distinct_ids(alloc: Global, texts: &[Values]) -> Result<Policies, BodyFault>
    requires { values.are_too_many (map values_view texts.now) ≡ false }
    ensures { MatchResult result
        (λ ps. (have_bad_ids (map values_view texts.now) ≡ false)
        × (ps ≡ map policy_of (map values_view texts.now)))
        (OnId (have_bad_ids (map values_view texts.now) ≡ true)) }
{
    let policies = all_policies(alloc, texts)?;
    match Policies::new(Items::new(policies)) {
        Some(policies) => Ok(policies),
        None => Err(BodyFault::Id),
    }
}

// The policies that the texts say, or the first fault of the texts.
#[tactic(auto, unfolding(crate::specs::PolicyValues::judged))]
fn judged_texts(alloc: Global, texts: &[Values]) -> Result<Policies, BodyFault>
    requires { values.are_too_many (map values_view texts.now) ≡ false }
    ensures { MatchResult result
        (λ ps. values.judged (map values_view texts.now) ≡ Ok ps)
        (FaultOf (values.judged (map values_view texts.now))) }
{
    let policies = with_distinct_ids(alloc, texts)?;
    if are_any_letters_bad(texts) {
        return Err(BodyFault::Letters);
    }
    if is_any_time_bad(texts) {
        return Err(BodyFault::Time);
    }
    Ok(policies)
}

// The policies that were sent, or the first fault of them.
#[tactic(auto, unfolding(crate::specs::PolicyValues::judged))]
fn judged(alloc: Global, sent: &[Sent<'_>]) -> Result<Policies, BodyFault>
    ensures { MatchResult result
        (λ ps. values.judged (map sent_view sent.now) ≡ Ok ps)
        (FaultOf (values.judged (map sent_view sent.now))) }
{
    if are_too_many(sent) {
        return Err(BodyFault::TooMany);
    }
    let texts = all_values(alloc, sent)?;
    judged_texts(alloc, &texts)
}

// The policies that were sent, as the body has them.
fn sent_by(alloc: Global, body: &[u8]) -> Result<Vec<Sent<'_>>, BodyFault>
    ensures { MatchResult result
        (λ ps. body_policies body.now ≡ Some (map sent_view ps.items))
        (OnForm (body_policies body.now ≡ None)) }
{
    if !is_clean_text(body) {
        return Err(BodyFault::Form);
    }
    let Some(text) = after_prolog(after_mark(body)) else {
        return Err(BodyFault::Form);
    };
    read_sent(alloc, text)
}

// The policies that the body says, by the reading as a function.
fn policies_of(alloc: Global, body: &[u8]) -> Result<Policies, BodyFault>
    ensures { MatchResult result
        (λ ps. policies_reading body.now ≡ Ok ps)
        (FaultOf (policies_reading body.now)) }
{
    if body.is_empty() {
        return Ok(Policies::empty(alloc));
    }
    let sent = sent_by(alloc, body)?;
    judged(alloc, &sent)
}

/// Reads the body of Set Container ACL: the stored policies in the order in which they were sent. A body of no bytes is no policies.
/// The whole body is read before a text is judged.
///
/// The faults in their order: `Form` if the body is not a list of policies, whatever its texts are. `TooMany` if there are more
/// than five policies. `Id` if an id does not have 1 to 64 characters, if it has a control character, or if two ids are equal.
/// `Letters` if permissions are given that are not letters in the order `rwdl`. `Time` if a start or an expiry is given that is
/// not a time. `NoMemory` if memory runs out.
///
/// Blob service REST reference, 2012-02-12, Set Container ACL; Extensible Markup Language 1.0.
pub fn read_policies(alloc: Global, body: &[u8]) -> Result<Policies, BodyFault>
    ensures read { IfOk result (λ policies. SaysPolicies body.now policies) }
    ensures fault { IfErr result (SaysFault body.now) }
    // The same reading as a function.
    ensures value { IfOk result (λ policies. policies_reading body.now ≡ Ok policies) }
    ensures refused { IfErr result (FaultOf (policies_reading body.now)) }
{
    policies_of(alloc, body)
}
