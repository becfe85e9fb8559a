//! Stored policies as they were sent, each with its texts as they are written.
ghost use Rattle.std.specs.Prelude.{◌≡◌, ◌≤◌, ◌<◌, ℕ, List, [], length, map, not, Some, None, IfOk, option_map, MatchResult};
ghost use Rattle.xml_text.specs.Reading as tags;
ghost use Rattle.xml_text.specs.ElementReading.{value_of};
ghost use Rattle.xml_text.specs.ElementReading as elements;
ghost use Rattle.body_forms.specs.Policies.{is_nil, at_most_one, exactly_one, no_access, policy_name, policies_name};
ghost use Rattle.body_forms.specs.Policies as policies;
ghost use Rattle.body_forms.specs.PolicyReading.{access_view, part_view, sent_view};
ghost use Rattle.body_forms.specs.PolicyReading as reading;
ghost use Rattle.body_forms.specs.Outcomes.{Finds, OnForm};

use crate::access_policy::{Access, access_from};
use crate::body_fault::BodyFault;
use std::alloc::Global;
use xml_text::{Kind, Tag, Tokens, content, is_tag};

/// The name of the root.
const POLICIES_NAME: &[u8] = b"SignedIdentifiers";

/// The name of a policy's element.
const POLICY_NAME: &[u8] = b"SignedIdentifier";

/// The name of the element of a policy's id.
const ID_NAME: &[u8] = b"Id";

/// An element inside a policy's element.
#[derive(Clone, Copy, Drop)]
pub(crate) enum Part<'a> {
    Id(&'a [u8]),
    Given(Access<'a>),
}

/// A policy with its texts as they are written.
#[derive(Clone, Copy, Drop)]
pub(crate) struct Sent<'a> {
    pub(crate) id: &'a [u8],
    pub(crate) given: Access<'a>,
}

// Takes the rest of the part of a policy that begins with this tag.
#[tactic(auto, unfolding(crate::specs::PolicyReading::part_at))]
fn part_from<'a>(alloc: Global, text: &mut Tokens<'a>, tag: Tag<'a>) -> Result<Part<'a>, BodyFault>
    ensures value { Finds part_view result text.new.left.now
        (reading.part_at (tags.tag_of tag.entry) text.old.left.now) }
    ensures within { IfOk result (λ _. length text.new.left.now ≤ length text.old.left.now) }
{
    if tag.name == ID_NAME {
        return match content(text, tag) {
            Some(written) => Ok(Part::Id(written)),
            None => Err(BodyFault::Form),
        };
    }
    let access = access_from(alloc, text, tag)?;
    Ok(Part::Given(access))
}

// Takes one part of a policy, or the end of the policy.
#[tactic(auto, unfolding(xml_text::specs::ElementReading::next_at))]
fn next_part<'a>(alloc: Global, text: &mut Tokens<'a>) -> Result<Option<Part<'a>>, BodyFault>
    ensures value { Finds (λ p. option_map part_view p) result text.new.left.now
        (elements.next_at policy_name reading.part_at text.old.left.now) }
    ensures shorter { IfOk result (λ _. length text.new.left.now < length text.old.left.now) }
{
    text.skip_white();
    let Some(tag) = text.tag() else {
        return Err(BodyFault::Form);
    };
    if is_tag(Kind::Closing, POLICY_NAME, tag) {
        return Ok(None);
    }
    let part = part_from(alloc, text, tag)?;
    Ok(Some(part))
}

// Takes the parts up to the end of the policy.
fn all_parts<'a>(alloc: Global, text: &mut Tokens<'a>) -> Result<Vec<Part<'a>>, BodyFault>
    ensures value { (n : ℕ) → length text.old.left.now < n → MatchResult result
        (λ ps. elements.elements_at policy_name reading.part_at n text.old.left.now
        ≡ Some (map part_view ps.items, text.new.left.now))
        (OnForm (elements.elements_at policy_name reading.part_at n text.old.left.now ≡ None)) }
    ensures within { IfOk result (λ _. length text.new.left.now ≤ length text.old.left.now) }
{
    let mut parts = Vec::new(alloc);
    'parts: loop {
        match next_part(alloc, text) {
            Err(fault) => return Err(fault),
            Ok(None) => return Ok(parts),
            Ok(Some(part)) => {
                if parts.push(part).is_err() {
                    return Err(BodyFault::NoMemory);
                }
            }
        }
    }
}

// Takes the rest of a policy after its first tag, and gives its parts.
#[tactic(auto, unfolding(xml_text::specs::ElementReading::inner_at))]
fn parts_inside<'a>(
    alloc: Global,
    text: &mut Tokens<'a>,
    tag: Tag<'a>,
) -> Result<Vec<Part<'a>>, BodyFault>
    ensures value { Finds (λ ps. map part_view ps.items) result text.new.left.now
        (elements.inner_at policy_name reading.part_at (tags.tag_of tag.entry) text.old.left.now) }
    ensures within { IfOk result (λ _. length text.new.left.now ≤ length text.old.left.now) }
{
    if is_tag(Kind::Opening, POLICY_NAME, tag) {
        all_parts(alloc, text)
    } else if is_tag(Kind::Empty, POLICY_NAME, tag) {
        Ok(Vec::new(alloc))
    } else {
        Err(BodyFault::Form)
    }
}

// Whether an id is among the parts.
#[tactic(auto, unfolding(crate::specs::Policies::ids))]
fn has_id(parts: &[Part<'_>]) -> bool
    ensures { result ≡ not (is_nil (policies.ids (map part_view parts.now))) }
{
    let mut left = parts;
    while let [first, rest @ ..] = left {
        if matches!(first, Part::Id(_)) {
            return true;
        }
        left = rest;
    }
    false
}

// The id among the parts. `None` if there is no id, or if there are two ids.
#[tactic(auto, unfolding(crate::specs::Policies::ids))]
fn only_id<'a>(parts: &[Part<'a>]) -> Option<&'a [u8]>
    ensures { option_map (λ t. value_of t.now) result
        ≡ exactly_one (policies.ids (map part_view parts.now)) }
{
    let mut left = parts;
    while let [first, rest @ ..] = left {
        if let Part::Id(written) = *first {
            return if has_id(rest) { None } else { Some(written) };
        }
        left = rest;
    }
    None
}

// Whether an AccessPolicy is among the parts.
#[tactic(auto, unfolding(crate::specs::Policies::accesses))]
fn has_access(parts: &[Part<'_>]) -> bool
    ensures { result ≡ not (is_nil (policies.accesses (map part_view parts.now))) }
{
    let mut left = parts;
    while let [first, rest @ ..] = left {
        if matches!(first, Part::Given(_)) {
            return true;
        }
        left = rest;
    }
    false
}

// What the AccessPolicy among the parts gives, which is nothing if there is no AccessPolicy. `None` if there are two.
#[tactic(auto, unfolding(crate::specs::Policies::accesses))]
fn only_access<'a>(parts: &[Part<'a>]) -> Option<Access<'a>>
    ensures { option_map access_view result
        ≡ at_most_one no_access (policies.accesses (map part_view parts.now)) }
{
    let mut left = parts;
    while let [first, rest @ ..] = left {
        if let Part::Given(access) = *first {
            return if has_access(rest) { None } else { Some(access) };
        }
        left = rest;
    }
    Some(Access {
        start: &[],
        expiry: &[],
        permission: &[],
    })
}

// The policy of these parts. `None` if there is no id, if there are two ids, or if there are two elements AccessPolicy.
#[tactic(auto, unfolding(crate::specs::Policies::sent_of))]
fn sent_by<'a>(parts: &[Part<'a>]) -> Option<Sent<'a>>
    ensures { option_map sent_view result ≡ policies.sent_of (map part_view parts.now) }
{
    let id = only_id(parts)?;
    let given = only_access(parts)?;
    Some(Sent { id, given })
}

// Takes the rest of a policy after its first tag.
#[tactic(auto, unfolding(crate::specs::PolicyReading::sent_at))]
fn sent_from<'a>(alloc: Global, text: &mut Tokens<'a>, tag: Tag<'a>) -> Result<Sent<'a>, BodyFault>
    ensures value { Finds sent_view result text.new.left.now
        (reading.sent_at (tags.tag_of tag.entry) text.old.left.now) }
    ensures within { IfOk result (λ _. length text.new.left.now ≤ length text.old.left.now) }
{
    let parts = parts_inside(alloc, text, tag)?;
    match sent_by(&parts) {
        Some(sent) => Ok(sent),
        None => Err(BodyFault::Form),
    }
}

// Takes one policy, or the end of the list.
#[tactic(auto, unfolding(xml_text::specs::ElementReading::next_at))]
fn next_sent<'a>(alloc: Global, text: &mut Tokens<'a>) -> Result<Option<Sent<'a>>, BodyFault>
    ensures value { Finds (λ p. option_map sent_view p) result text.new.left.now
        (elements.next_at policies_name reading.sent_at text.old.left.now) }
    ensures shorter { IfOk result (λ _. length text.new.left.now < length text.old.left.now) }
{
    text.skip_white();
    let Some(tag) = text.tag() else {
        return Err(BodyFault::Form);
    };
    if is_tag(Kind::Closing, POLICIES_NAME, tag) {
        return Ok(None);
    }
    let sent = sent_from(alloc, text, tag)?;
    Ok(Some(sent))
}

// Takes the policies up to the end of the list.
fn all_sent<'a>(alloc: Global, text: &mut Tokens<'a>) -> Result<Vec<Sent<'a>>, BodyFault>
    ensures value { (n : ℕ) → length text.old.left.now < n → MatchResult result
        (λ ps. elements.elements_at policies_name reading.sent_at n text.old.left.now
        ≡ Some (map sent_view ps.items, text.new.left.now))
        (OnForm (elements.elements_at policies_name reading.sent_at n text.old.left.now ≡ None)) }
{
    let mut policies = Vec::new(alloc);
    'policies: loop {
        match next_sent(alloc, text) {
            Err(fault) => return Err(fault),
            Ok(None) => return Ok(policies),
            Ok(Some(sent)) => {
                if policies.push(sent).is_err() {
                    return Err(BodyFault::NoMemory);
                }
            }
        }
    }
}

// Takes the rest of the root after its first tag, and gives its policies.
#[tactic(auto, unfolding(xml_text::specs::ElementReading::inner_at))]
fn policies_inside<'a>(
    alloc: Global,
    text: &mut Tokens<'a>,
    tag: Tag<'a>,
) -> Result<Vec<Sent<'a>>, BodyFault>
    ensures value { Finds (λ ps. map sent_view ps.items) result text.new.left.now
        (elements.inner_at policies_name reading.sent_at (tags.tag_of tag.entry) text.old.left.now) }
{
    if is_tag(Kind::Opening, POLICIES_NAME, tag) {
        all_sent(alloc, text)
    } else if is_tag(Kind::Empty, POLICIES_NAME, tag) {
        Ok(Vec::new(alloc))
    } else {
        Err(BodyFault::Form)
    }
}

/// The policies of a text that is a list of policies without a byte order mark and a prolog, in their order.
///
/// `Form` if the text is not such a list, and `NoMemory` if memory runs out.
#[tactic(auto, unfolding(xml_text::specs::ElementReading::root_of))]
pub(crate) fn read_sent(alloc: Global, text: &[u8]) -> Result<Vec<Sent<'_>>, BodyFault>
    ensures { MatchResult result
        (λ ps. reading.policies_of text.now ≡ Some (map sent_view ps.items))
        (OnForm (reading.policies_of text.now ≡ None)) }
{
    let mut left = Tokens { left: text };
    left.skip_white();
    let Some(tag) = left.tag() else {
        return Err(BodyFault::Form);
    };
    let policies = policies_inside(alloc, &mut left, tag)?;
    left.skip_white();
    if left.left.is_empty() {
        Ok(policies)
    } else {
        Err(BodyFault::Form)
    }
}
