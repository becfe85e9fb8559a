//! The parts of a request that the rules of the signature route judge.
ghost use Rattle.std.specs.Prelude.{◌≡◌, IfOk, IsTrue};
ghost use Rattle.access_rules.specs.Parts.{first_alone, is_by_either, is_by_first, is_signed};
ghost use Rattle.access_rules.specs.Rules.{token_asked};
ghost use Rattle.access_rules.specs.TokenParts as parts;

use crate::judgement::SignedBy;
use crate::keys::Keys;
use crate::needs::Letter;
use crate::parts::signer;
use sas_token::{Resource, Token, read_token, token_string};
use stamp_types::{Ask, Credential, Letters, Text};
use std::alloc::{AllocError, Global};

/// The token that the query of a request is, if the query is a token.
pub(crate) fn token_in(ask: &Ask) -> Option<Token<'_>>
    ensures { result ≡ parts.token_in ask.now }
{
    read_token(&ask.signing.query).ok()
}

/// The token by which a request asks. `None` if it asks by another route, or if its query is not a token.
///
/// The call looks at the query only if the request asks by a token, and takes no memory. A caller that keeps the token reads it once, for the
/// signature, for the verdict and for the headers that the token replaces.
pub fn token_asked(ask: &Ask) -> Option<Token<'_>>
    ensures { result ≡ token_asked ask.now }
{
    match &ask.credential {
        Credential::Token => token_in(ask),
        _ => None,
    }
}

fn is_named(name: &Text) -> bool
    ensures { result ≡ parts.is_named name.now }
{
    match name.as_str().as_bytes() {
        [] => false,
        [_, ..] => true,
    }
}

/// Whether a request names what a token is for: a container, and also a blob, if the token is for a blob.
pub(crate) fn names_resource(ask: &Ask, resource: Resource) -> bool
    ensures { result ≡ parts.names_resource ask.now resource }
{
    let is_in_container = is_named(&ask.key.container);
    match resource {
        Resource::Container => is_in_container,
        Resource::Blob => is_in_container && ask.blob.is_some(),
    }
}

/// The key of the two that gives the signature of a token, which is for what the request names.
#[tactic(auto, using(crate::proofs::TokenLemmas::container_named, crate::proofs::TokenLemmas::blob_named))]
pub(crate) fn token_signer(
    alloc: Global,
    keys: &Keys,
    ask: &Ask,
    token: &Token<'_>,
) -> Result<SignedBy, AllocError>
    requires { IsTrue (parts.names_resource ask.now token.now.resource) }
    ensures either { IfOk result (λ by. is_by_either by
        ≡ is_signed keys.now (parts.text_of ask.now token.now) token.now.signature) }
    ensures first { IfOk result (λ by. is_by_first by
        ≡ is_signed (first_alone keys.now) (parts.text_of ask.now token.now) token.now.signature) }
{
    let string = token_string(alloc, token, &ask.key, ask.blob.as_ref())?;
    Ok(signer(keys, &string, token.signature))
}

/// Whether the permissions have the letter.
pub(crate) fn allows(letter: Letter, letters: Letters) -> bool
    ensures { result ≡ parts.allows letter letters }
{
    match letter {
        Letter::Read => letters.reads(),
        Letter::Write => letters.writes(),
        Letter::Delete => letters.deletes(),
        Letter::List => letters.lists(),
    }
}
