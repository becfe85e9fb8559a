//! Writing stored policies.
ghost use Rattle.std.specs.Prelude.{◌≡◌, ◌++◌, All, IfOk, IfSome, IsOk, OnOk, Ok, codes, flat_map, option_map, true};
ghost use Rattle.stamp_values.specs.Letters.{has_permission, letters_text};
ghost use Rattle.stamp_values.specs.Texts.{is_utf8};
ghost use Rattle.xml_text.specs.Elements.{HasNoWhiteEnds};
ghost use Rattle.xml_text.specs.WrittenElements.{element_text, given_text};
ghost use Rattle.body_forms.specs.KeptPolicies.{IsMoment, HasKeptFields, IsPolicy};
ghost use Rattle.body_forms.specs.PolicyValues.{policies_reading};
ghost use Rattle.body_forms.specs.WrittenPolicies as written;

use moment_text::write_iso;
use stamp_values::{Letters, Moment, Policies, Policy, Text};
use std::alloc::{AllocError, Global};
use xml_text::{append_closing, append_element, append_opening, append_prolog};

/// How many bytes most bodies have at most.
const BODY_ROOM: usize = 1024;

// Nothing is written for a time that is absent.
fn append_moment(
    alloc: Global,
    out: &mut Vec<u8>,
    name: &str,
    moment: Option<Moment>,
) -> Result<(), AllocError>
    ensures written { OnOk result (out.new.items
        ≡ out.old.items ++ given_text name.now (option_map written.moment_text moment)) }
    ensures kept { IsOk result → IfSome moment IsMoment }
{
    match moment {
        Some(moment) => {
            // a moment is at most the last one of the year 9999
            let _within = moment.ticks();
            let text = write_iso(alloc, moment)?;
            append_element(out, name, text.as_bytes())
        }
        None => Ok(()),
    }
}

// Nothing is written for permissions that are absent.
fn append_letters(out: &mut Vec<u8>, letters: Option<Letters>) -> Result<(), AllocError>
    ensures written { OnOk result (out.new.items
        ≡ out.old.items ++ given_text (codes "Permission") (option_map letters_text letters)) }
    ensures kept { IsOk result → IfSome letters (λ l. has_permission l ≡ true) }
{
    match letters {
        Some(letters) => append_element(out, "Permission", letters.as_str().as_bytes()),
        None => Ok(()),
    }
}

#[tactic(auto, unfolding(crate::specs::WrittenPolicies::fields_text), using(crate::proofs::KeptLemmas::kept_fields))]
fn append_fields(alloc: Global, out: &mut Vec<u8>, policy: &Policy) -> Result<(), AllocError>
    ensures written { OnOk result (out.new.items ≡ out.old.items ++ written.fields_text policy.now) }
    ensures kept { IsOk result → HasKeptFields policy.now }
{
    append_moment(alloc, out, "Start", policy.start)?;
    append_moment(alloc, out, "Expiry", policy.expiry)?;
    append_letters(out, policy.letters)?;
    Ok(())
}

#[tactic(auto, unfolding(crate::specs::WrittenPolicies::access_text))]
fn append_access(alloc: Global, out: &mut Vec<u8>, policy: &Policy) -> Result<(), AllocError>
    ensures written { OnOk result (out.new.items ≡ out.old.items ++ written.access_text policy.now) }
    ensures kept { IsOk result → HasKeptFields policy.now }
{
    append_opening(out, "AccessPolicy")?;
    append_fields(alloc, out, policy)?;
    append_closing(out, "AccessPolicy")?;
    Ok(())
}

fn append_id(out: &mut Vec<u8>, id: &Text) -> Result<(), AllocError>
    ensures written { OnOk result (out.new.items
        ≡ out.old.items ++ element_text (codes "Id") id.now) }
    ensures kept { IsOk result → is_utf8 id.now ≡ true }
{
    append_element(out, "Id", id.as_str().as_bytes())
}

#[tactic(auto, unfolding(crate::specs::WrittenPolicies::identified_text), using(crate::proofs::KeptLemmas::kept_policy))]
fn append_identified(alloc: Global, out: &mut Vec<u8>, policy: &Policy) -> Result<(), AllocError>
    ensures written { OnOk result (out.new.items ≡ out.old.items ++ written.identified_text policy.now) }
    ensures kept { IsOk result → IsPolicy policy.now }
{
    append_id(out, &policy.id)?;
    append_access(alloc, out, policy)?;
    Ok(())
}

#[tactic(auto, unfolding(crate::specs::WrittenPolicies::policy_text))]
fn append_policy(alloc: Global, out: &mut Vec<u8>, policy: &Policy) -> Result<(), AllocError>
    ensures written { OnOk result (out.new.items ≡ out.old.items ++ written.policy_text policy.now) }
    ensures kept { IsOk result → IsPolicy policy.now }
{
    append_opening(out, "SignedIdentifier")?;
    append_identified(alloc, out, policy)?;
    append_closing(out, "SignedIdentifier")?;
    Ok(())
}

fn append_policies(alloc: Global, out: &mut Vec<u8>, policies: &[Policy]) -> Result<(), AllocError>
    ensures written { OnOk result
        (out.new.items ≡ out.old.items ++ flat_map written.policy_text policies.now) }
    ensures kept { IsOk result → All IsPolicy policies.now }
{
    for policy in policies {
        append_policy(alloc, out, policy)?;
    }
    Ok(())
}

// The body with these policies.
#[tactic(auto, unfolding(crate::specs::WrittenPolicies::policies_text))]
fn written_policies(alloc: Global, policies: &[Policy]) -> Result<Vec<u8>, AllocError>
    ensures written { IfOk result (λ text. text.items ≡ written.policies_text policies.now) }
    ensures kept { IfOk result (λ text. All IsPolicy policies.now) }
{
    let mut out = Vec::with_capacity(alloc, BODY_ROOM)?;
    append_prolog(&mut out)?;
    append_opening(&mut out, "SignedIdentifiers")?;
    append_policies(alloc, &mut out, policies)?;
    append_closing(&mut out, "SignedIdentifiers")?;
    Ok(out)
}

/// Writes the body of a reply to Get Container ACL: the stored policies in their order. A field that a policy leaves out is left out,
/// and the element `AccessPolicy` is always written. `&`, `<` and `>` of an id are written as references.
///
/// `AllocError` if memory runs out.
///
/// Blob service REST reference, 2012-02-12, Get Container ACL.
pub fn write_policies(alloc: Global, policies: &Policies) -> Result<Vec<u8>, AllocError>
    ensures written { IfOk result (λ text. text.items ≡ written.policies_text policies.now) }
    // A reader of the text reads the same policies.
    ensures read_again { IfOk result (λ text. All (λ p. HasNoWhiteEnds p.id) policies.now
        → policies_reading text.items ≡ Ok policies.now) }
{
    written_policies(alloc, policies.as_slice())
}
