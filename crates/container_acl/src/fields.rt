//! What a token and the policy that it names give together.
ghost use Rattle.std.specs.Prelude.{◌≡◌, Some};
ghost use Rattle.std.specs.Option.{option_copied};
ghost use Rattle.container_acl.specs.JoinedFields as specs;

use sas_token::Token;
use stamp_values::{Acl, Letters, Moment, Policy};

/// What a token and the policy that it names give together.
#[derive(Clone, Copy, PartialEq, Eq)]
pub struct Fields {
    /// The moment from which the token is good. `None` if it is good from the beginning of time.
    pub start: Option<Moment>,
    /// The moment from which the token is not good any more.
    pub expiry: Moment,
    pub letters: Letters,
}

/// Why a token and the policy that it names give no fields. If there are several causes, the first of this list is named.
#[derive(Clone, Copy, Debug, PartialEq, Eq)]
pub enum FieldFault {
    /// The token names a policy that the container does not have.
    Absent,
    /// Token and policy both give the start, the expiry or the permissions.
    Both,
    /// Neither token nor policy gives the expiry, or neither gives the permissions.
    Lacks,
}

/// The stored policy whose id has exactly these bytes. The call takes no memory.
pub fn find<'a>(acl: &'a Acl, id: &[u8]) -> Option<&'a Policy>
    ensures { option_copied result ≡ specs.policy_with acl.now id.now }
{
    for policy in acl.policies.as_slice() {
        if policy.id.as_str().as_bytes() == id {
            return Some(policy);
        }
    }
    None
}

// Whether token and policy both give the start, the expiry or the permissions.
fn gives_twice(token: &Token<'_>, policy: &Policy) -> bool
    ensures { result ≡ specs.gives_twice token.now (Some policy.now) }
{
    (token.start.is_some() && policy.start.is_some())
        || (token.expiry.is_some() && policy.expiry.is_some())
        || (token.letters.is_some() && policy.letters.is_some())
}

// The fields with this start, if the expiry and the permissions are given.
fn whole(
    start: Option<Moment>,
    expiry: Option<Moment>,
    letters: Option<Letters>,
) -> Result<Fields, FieldFault>
    ensures { result ≡ specs.whole start expiry letters }
{
    match (expiry, letters) {
        (Some(expiry), Some(letters)) => Ok(Fields {
            start,
            expiry,
            letters,
        }),
        _ => Err(FieldFault::Lacks),
    }
}

// The fields of a token with its policy.
fn with_policy(token: &Token<'_>, policy: &Policy) -> Result<Fields, FieldFault>
    ensures { result ≡ specs.with_policy token.now (Some policy.now) }
{
    if gives_twice(token, policy) {
        return Err(FieldFault::Both);
    }
    whole(
        token.start.or(policy.start),
        token.expiry.or(policy.expiry),
        token.letters.or(policy.letters),
    )
}

// The stored policy whose id has exactly these bytes. A container that does not exist has no policies.
fn find_in<'a>(acl: Option<&'a Acl>, id: &[u8]) -> Option<&'a Policy>
    ensures { option_copied result
        ≡ specs.policy_with (specs.acl_or_closed (option_copied acl.entry)) id.now }
{
    find(acl?, id)
}

/// What a token and the policy that it names in the container give together. A token without an id has no policy, and neither has a
/// container that does not exist (`None`). The call takes no memory, and looks at no signature.
///
/// `Absent` if the token names a policy that the container does not have. `Both` if token and policy both give the start, the expiry or
/// the permissions. `Lacks` if neither gives the expiry, or neither gives the permissions. The first of these causes is answered.
pub fn fields_with(acl: Option<&Acl>, token: &Token<'_>) -> Result<Fields, FieldFault>
    ensures { result
        ≡ specs.fields_with (specs.acl_or_closed (option_copied acl.entry)) token.now }
{
    if token.id.is_empty() {
        return whole(token.start, token.expiry, token.letters);
    }
    match find_in(acl, token.id) {
        Some(policy) => with_policy(token, policy),
        None => Err(FieldFault::Absent),
    }
}
